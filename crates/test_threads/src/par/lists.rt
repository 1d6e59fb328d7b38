//! Lists of events of honest members.
use simplex_form::{Input, read_input};
use std::alloc::{AllocError, Global};
use std::test::Fail;

/// What a node does, in a list of events.
#[derive(Clone, Copy)]
pub(crate) enum Act {
    Start,
    /// A step of this source.
    Step(&'static str),
    /// The first packet of this event.
    Deliver(u64),
    /// An answer to the first request of this event.
    Answer(u64),
}

fn event_text(alloc: Global, member: u64, act: Act) -> Result<String, AllocError> {
    match act {
        Act::Start => {
            format!(in alloc;
                "{{\"do\":\"start\",\"node\":[{member},0],\"floor\":null,\"stop\":null}}"
            )
        }
        Act::Step(source) => {
            format!(in alloc;
                "{{\"do\":\"step\",\"node\":[{member},0],\"source\":\"{source}\",\"stop\":null}}"
            )
        }
        Act::Deliver(event) => {
            format!(in alloc; "{{\"do\":\"deliver\",\"node\":[{member},0],\"packet\":[{event},0]}}")
        }
        Act::Answer(event) => {
            format!(in alloc;
                "{{\"do\":\"answer\",\"node\":[{member},0],\"request\":[{event},0],\"answer\":{{\"verdict\":true}}}}"
            )
        }
    }
}

/// A list of events of so many honest members, that grows.
#[derive(Drop)]
pub(crate) struct List {
    alloc: Global,
    members: u64,
    events: String,
}

impl List {
    pub(crate) fn new(alloc: Global, members: u64) -> List {
        List {
            alloc,
            members,
            events: String::new(alloc),
        }
    }

    fn push(&mut self, event: &str) -> Result<(), AllocError> {
        if !self.events.is_empty() {
            self.events.push_str(",")?;
        }
        self.events.push_str(event)?;
        Ok(())
    }

    /// The member does this.
    pub(crate) fn act(&mut self, member: u64, act: Act) -> Result<(), AllocError> {
        let text = event_text(self.alloc, member, act)?;
        self.push(&text)
    }

    /// Each member does this, in turn.
    pub(crate) fn all(&mut self, act: Act) -> Result<(), AllocError> {
        for member in 0..self.members {
            self.act(member, act)?;
        }
        Ok(())
    }

    pub(crate) fn tick(&mut self, ms: u64) -> Result<(), AllocError> {
        let text = format!(in self.alloc; "{{\"do\":\"tick\",\"ms\":{ms}}}")?;
        self.push(&text)
    }

    /// The setup and the events.
    pub(crate) fn input(&self) -> Result<Input, Fail> {
        let mut members = String::new(self.alloc);
        for member in 0..self.members {
            if member > 0 {
                members.push_str(",")?;
            }
            members.push_str("\"honest\"")?;
        }
        let text = format!(in self.alloc;
            "{{\"setup\":{{\"epoch\":0,\"key_base\":1,\"members\":[{}],\"term\":1,\"lookahead\":0,\"leader_timeout\":1000,\"certification_timeout\":2000,\"retry\":500,\"stall\":null,\"retention\":10,\"skip\":null,\"forward\":\"disabled\",\"mailbox\":16,\"track\":false,\"handoff\":false,\"fetch_timeout\":1000,\"fetch_retry\":100,\"scenario\":[]}},\"events\":[{}]}}",
            members, self.events
        )?;
        let input = read_input(self.alloc, text.as_bytes())?
            .ok()
            .ok_or("an input")?;
        Ok(input)
    }
}
