//! The sends of a step, by the view that each asks for.
ghost use Rattle.std.specs.Prelude.{◌≡◌, ◌++◌, [], OnOk};
ghost use Rattle.model_resolver.specs.Sends.{placed, send_calls};

use model_resolver::Sending;
use simplex_messages::Call;
use simplex_types::Sequence;
use std::alloc::{AllocError, Global};
use std::collections::VecDeque;
use std::marker::Model;

/// The sends of a step, in falling order of view.
#[derive(Drop)]
pub(crate) struct Sends {
    items: VecDeque<Sending>,
}

impl Model for Sends {
    ghost use Rattle.std.specs.Prelude.{List};
    ghost use Rattle.model_resolver.specs.declared.sending.Sending.{Sending};

    ghost Value = { List Sending };

    ghost view = { λ sends. sends.items.items };
}

impl Sends {
    /// None.
    pub(crate) fn new(alloc: Global) -> Sends
        ensures { result ≡ [] }
    {
        Sends {
            items: VecDeque::new(alloc),
        }
    }

    /// One more, behind those of later views alone.
    pub(crate) fn place(&mut self, sent: Sending) -> Result<(), AllocError>
        ensures { OnOk result (self.new ≡ placed sent self.old) }
    {
        place(&mut self.items, sent)
    }

    /// Adds the calls of all, in rising order of view.
    pub(crate) fn call_each(self, calls: &mut Sequence<Call>) -> Result<(), AllocError>
        ensures { OnOk result (calls.new ≡ calls.old ++ send_calls self) }
    {
        let Sends { mut items } = self;
        while let Some(sent) = items.pop_back() {
            calls.push(sent.into_call())?;
        }
        Ok(())
    }
}

/// One more, behind those of later views alone.
#[tactic(auto, unfolding(model_resolver::specs::Sends::placed))]
fn place(items: &mut VecDeque<Sending>, sent: Sending) -> Result<(), AllocError>
    ensures { OnOk result (items.new.items ≡ placed sent items.old.items) }
{
    match items.pop_front() {
        Some(first) if first.view > sent.view => {
            place(items, sent)?;
            items.push_front(first)?;
            Ok(())
        }
        Some(first) => {
            items.push_front(first)?;
            items.push_front(sent)?;
            Ok(())
        }
        None => {
            items.push_front(sent)?;
            Ok(())
        }
    }
}
