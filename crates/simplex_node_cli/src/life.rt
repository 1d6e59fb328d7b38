//! A life of a member: from the first line to the end of the input.
use crate::end::End;
use crate::making::{make, member_of, node_of, open, setup_of};
use simplex_journal::Journal;
use simplex_names::number_of;
use simplex_node::{Node, NodeError, Time, command_of, push_lines};
use simplex_types::Scheme;
use simplex_types::elector::Elector;
use std::alloc::Global;
use std::fs::File;
use std::io::{BufRead, BufReader, Read, Write};
use std::rt::Files;

/// The most steps after one command: a member that steps and steps would never read the next one.
const MOST_STEPS: u64 = 1 << 20;

// What a life works on.
#[derive(Drop)]
struct Life<S: Scheme + Drop, L: Elector + Drop, J: Journal + Drop> {
    alloc: Global,
    node: Node<S, L, J>,
    is_started: bool,
    // how many requests the member made since its start
    asked: u64,
    // what is written when the member is ready
    text: String,
}

impl<S: Scheme + Drop, L: Elector + Drop, J: Journal + Drop> Life<S, L, J> {
    fn push_lines(&mut self) -> Result<(), End> {
        self.asked = push_lines(self.alloc, &mut self.text, self.node.out(), self.asked)?;
        Ok(())
    }

    // Steps until no source holds anything.
    fn settle(&mut self) -> Result<(), End> {
        for _ in 0..MOST_STEPS {
            let found = self.node.step();
            self.push_lines()?;
            if found?.is_none() {
                return Ok(());
            }
        }
        Err(End::Busy)
    }

    // Starts the member, where the line says so.
    fn start(&mut self, line: &str) -> Result<Option<&'static str>, End> {
        let Some(ms) = line.strip_prefix("start ") else {
            return Ok(Some("not started"));
        };
        let Some(now) = number_of(ms).and_then(Time::new) else {
            return Ok(Some("no time"));
        };
        let started = self.node.start(now);
        self.push_lines()?;
        started?;
        self.is_started = true;
        Ok(None)
    }

    // Does what the line says; or why it does not, where nothing changed.
    fn take(&mut self, line: &str) -> Result<Option<&'static str>, End> {
        if !self.is_started {
            return self.start(line);
        }
        let Some(command) = command_of(self.alloc, line)? else {
            return Ok(Some("no command"));
        };
        let taken = self.node.take(command);
        self.push_lines()?;
        match taken {
            Ok(()) => Ok(None),
            Err(NodeError::NotPending) => Ok(Some("no such request is open")),
            Err(NodeError::ClockGoesBack) => Ok(Some("the clock goes back")),
            Err(error) => Err(End::from(error)),
        }
    }

    // Takes the line, steps, and says that the member is ready.
    fn answer(&mut self, number: u64, line: &str) -> Result<(), End> {
        if let Some(why) = self.take(line)? {
            let error = format!(in self.alloc; "error {number} {why}\n")?;
            self.text.push_str(error.as_str())?;
        }
        if self.is_started {
            self.settle()?;
        }
        let view = self.node.current_view().0;
        let ready = match self.node.next_deadline() {
            Some(deadline) => format!(in self.alloc; "ready {view} {deadline}\n")?,
            None => format!(in self.alloc; "ready {view}\n")?,
        };
        self.text.push_str(ready.as_str())?;
        Ok(())
    }
}

fn write<W: Write>(out: &mut W, text: &mut String) -> Result<(), End> {
    if out.write_all(text.as_bytes()).is_err() || out.flush().is_err() {
        return Err(End::WriteFault);
    }
    text.clear();
    Ok(())
}

/// Makes the folder of the member that the first line's setup and the word say.
pub(crate) fn init<R: Files<File = File> + AllocGlobal + Drop, I: Read + Drop>(
    rt: &R,
    me: &str,
    folder: &str,
    input: I,
) -> Result<(), End> {
    let alloc = rt.alloc();
    for line in BufReader::new(alloc, input)?.lines(alloc) {
        let setup = setup_of(alloc, line?.as_str())?;
        let me = member_of(&setup, me)?;
        return make(rt, &setup, me, folder);
    }
    Err(End::BadSetup)
}

/// Runs the member until the input ends. What a broken step did before it broke is written before the process ends.
pub(crate) fn run<
    R: Files<File = File> + AllocGlobal + Clone + Drop,
    I: Read + Drop,
    W: Write + Drop,
>(rt: &R, me: &str, folder: &str, input: I, out: W) -> Result<(), End> {
    let alloc = rt.alloc();
    let mut input = BufReader::new(alloc, input)?;
    let first = first_line(alloc, &mut input)?;
    let setup = setup_of(alloc, first.as_str())?;
    let me = member_of(&setup, me)?;
    let journal = open(rt, &setup, me, folder)?;
    let node = node_of(alloc, &setup, me, journal)?;
    live(alloc, node, input, out)
}

// The first line, without its end.
fn first_line<B: BufRead>(alloc: Global, input: &mut B) -> Result<String, End> {
    let mut line = String::new(alloc);
    input.read_line(&mut line)?;
    if line.ends_with('\n') {
        let _end = line.pop();
    }
    Ok(line)
}

// The life of the member, from the second line on.
fn live<S: Scheme + Drop, L: Elector + Drop, J: Journal + Drop, B: BufRead + Drop, W: Write + Drop>(
    alloc: Global,
    node: Node<S, L, J>,
    input: B,
    mut out: W,
) -> Result<(), End> {
    let mut life = Life {
        alloc,
        node,
        is_started: false,
        asked: 0,
        text: String::new(alloc),
    };
    let mut number: u64 = 1;
    for line in input.lines(alloc) {
        number = number.saturating_add(1);
        let answered = life.answer(number, line?.as_str());
        write(&mut out, &mut life.text)?;
        answered?;
    }
    Ok(())
}
