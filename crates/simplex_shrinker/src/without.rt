//! A list of events without some of them.
ghost use Rattle.std.specs.Prelude.{◌≡◌, ◌≤◌, ◌+◌, IfOk, IfSome, OnOk, length};
ghost use Rattle.simplex_shrinker.specs.Part.{IsPartOf, unnumbered, with_last};

use simplex_transcript::{Event, Ref};
use simplex_types::{Keep, Sequence};
use std::alloc::{AllocError, Global};

/// What the events so far are called in the new list: those that are left out have no name there.
#[derive(Drop)]
struct Names {
    list: Vec<Option<u64>>,
}

impl Names {
    /// The new name of a place. An event that is none of those so far has the name that it had.
    fn of(&self, at: &Ref) -> Option<Ref>
        ensures { IfSome result (λ name. name.place ≡ at.now.place) }
    {
        let old = at.event;
        let event = match old.checked_sub(1) {
            None => old,
            Some(place) => match self.list.get(place as usize) {
                None => old,
                Some(name) => (*name)?,
            },
        };
        Some(Ref {
            event,
            place: at.place,
        })
    }
}

// The same event under the new names, if what it names is left.
fn renamed(alloc: Global, names: &Names, event: &Event) -> Result<Option<Event>, AllocError>
    ensures { IfOk result (λ it. IfSome it (λ renamed. unnumbered renamed ≡ unnumbered event.now)) }
{
    let renamed = match event {
        Event::Start { node, floor, stop } => Some(Event::Start {
            node: *node,
            floor: floor.keep(alloc)?,
            stop: *stop,
        }),
        Event::Tick { ms } => Some(Event::Tick { ms: *ms }),
        Event::Deliver { node, packet } => match names.of(packet) {
            None => None,
            Some(packet) => Some(Event::Deliver {
                node: *node,
                packet,
            }),
        },
        Event::Step { node, source, stop } => Some(Event::Step {
            node: *node,
            source: *source,
            stop: *stop,
        }),
        Event::Answer {
            node,
            request,
            answer,
        } => match names.of(request) {
            None => None,
            Some(request) => Some(Event::Answer {
                node: *node,
                request,
                answer: *answer,
            }),
        },
        Event::Crash { node } => Some(Event::Crash { node: *node }),
        Event::Inject {
            member,
            channel,
            to,
            bytes,
        } => Some(Event::Inject {
            member: *member,
            channel: *channel,
            to: to.keep(alloc)?,
            bytes: bytes.keep(alloc)?,
        }),
    };
    Ok(renamed)
}

// What is kept of the event: nothing where it is dropped.
fn kept(
    alloc: Global,
    names: &Names,
    is_dropped: bool,
    event: &Event,
) -> Result<Option<Event>, AllocError>
    ensures { IfOk result (λ it. IfSome it (λ kept. unnumbered kept ≡ unnumbered event.now)) }
{
    if is_dropped {
        return Ok(None);
    }
    renamed(alloc, names, event)
}

/// The events without those from one place up to another, counted from 0, and without those whose packet or request is gone.
pub(crate) fn without(
    alloc: Global,
    events: &[Event],
    from: usize,
    to: usize,
) -> Result<Sequence<Event>, AllocError>
    ensures few { IfOk result (λ left. length left ≤ length events.now) }
    ensures part { IfOk result (λ left. IsPartOf left events.now) }
{
    let mut left = Sequence::new(alloc);
    let mut names = Names {
        list: Vec::new(alloc),
    };
    for (place, event) in events.iter().enumerate() {
        let is_dropped = from <= place && place < to;
        let kept = kept(alloc, &names, is_dropped, event)?;
        names.list.push(push_if(&mut left, kept)?)?;
    }
    Ok(left)
}

// Puts the event last, if there is one, and answers its number.
fn push_if(left: &mut Sequence<Event>, event: Option<Event>) -> Result<Option<u64>, AllocError>
    ensures few { IfOk result (λ _. length left.new ≤ length left.old + 1) }
    ensures last { OnOk result (left.new ≡ with_last left.old event) }
{
    match event {
        None => Ok(None),
        Some(event) => {
            left.push(event)?;
            Ok(Some(left.len() as u64))
        }
    }
}
