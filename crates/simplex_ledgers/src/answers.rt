//! Answers for payloads without a sound block.
ghost use Rattle.std.specs.Prelude.{◌≡◌, Option};
ghost use Rattle.std.specs.Option.{option_map};
ghost use Rattle.model_run.specs.Kinds.{is_honest};
ghost use Rattle.law_run.specs.Answers.{judged_in, given_in, vouched_in};
ghost use Rattle.law_ledger.specs.Answers.{request_at, fails_on, is_bad_answer, bad_answer};
ghost use Rattle.model_ledger.specs.declared.transfer.LedgerError.TheVariants.{BadAnswer};
ghost use Rattle.model_ledger.specs.Blocks.{is_sound};
ghost use Rattle.model_ledger.specs.Failing.{FailsBy};

use model_rules::Asked;
use simplex_ledger::{Blocks, LedgerError};
use simplex_records::is_honest;
use simplex_transcript::{Entry, Event, Ref, Setup};
use simplex_types::{Answer, Digest, Handoff};

/// The request that stands at this place of a transcript.
#[tactic(auto, unfolding(law_ledger::specs::Answers::request_at))]
fn request_at(entries: &[Entry], at: &Ref) -> Option<Asked>
    ensures { result ≡ request_at entries.now at.now }
{
    let before = at.event.checked_sub(1)?;
    let entry = entries.get(before as usize)?;
    entry.asked.as_slice().get(at.place as usize).copied()
}

/// The payload that the request asks to judge.
fn judged_in(asked: Asked) -> Option<Digest>
    ensures { result ≡ judged_in asked }
{
    match asked {
        Asked::Verify(_, payload) | Asked::Certify(_, payload) => Some(payload),
        Asked::Prepare(_) | Asked::Propose(_) => None,
    }
}

/// The payload that the decision gives.
fn given_in(handoff: Handoff<Digest>) -> Option<Digest>
    ensures { result ≡ given_in handoff }
{
    match handoff {
        Handoff::Wait => None,
        Handoff::Stage(payload) | Handoff::Vote(payload) => Some(payload),
    }
}

/// The payload that an answer to this request gives, or finds good.
fn vouched_in(asked: Option<Asked>, answer: &Answer) -> Option<Digest>
    ensures { result ≡ vouched_in asked answer.now }
{
    match *answer {
        Answer::Payload(payload) => Some(payload),
        Answer::Handoff(handoff) => given_in(handoff),
        Answer::Verdict(true) => judged_in(asked?),
        Answer::Verdict(false) | Answer::Closed => None,
    }
}

/// Whether there is a payload, and it has no sound block.
fn fails_on(blocks: &Blocks, payload: Option<Digest>) -> bool
    ensures { result ≡ fails_on (is_sound blocks.now) payload }
{
    match payload {
        Some(payload) => !blocks.sound(&payload),
        None => false,
    }
}

/// Whether the event answers an honest node for a payload without a sound block.
fn is_bad_answer(setup: &Setup, entries: &[Entry], blocks: &Blocks, event: &Event) -> bool
    ensures { result ≡ is_bad_answer (is_sound blocks.now) setup.now entries.now event.now }
{
    match event {
        Event::Answer {
            node,
            request,
            answer,
        } => {
            let payload = vouched_in(request_at(entries, request), answer);
            is_honest(setup, node.member) && fails_on(blocks, payload)
        }
        _ => false,
    }
}

/// The number of the first such event, from 1.
fn bad_answer(setup: &Setup, events: &[Event], entries: &[Entry], blocks: &Blocks) -> Option<u64>
    ensures { result ≡ bad_answer (is_sound blocks.now) setup.now entries.now events.now }
{
    for (place, event) in events.iter().enumerate() {
        if is_bad_answer(setup, entries, blocks, event) {
            return Some(place as u64 + 1);
        }
    }
    None
}

/// Whether each payload that an honest node was given, or told to be good, has a sound block: the first event, from 1, whose
/// answer is for another is an error. The entries are those of the run of the events. Takes no memory.
pub fn check_answers(
    setup: &Setup,
    events: &[Event],
    entries: &[Entry],
    blocks: &Blocks,
) -> Result<(), LedgerError>
    ensures { FailsBy (option_map BadAnswer
        (bad_answer (is_sound blocks.now) setup.now entries.now events.now)) result }
{
    match bad_answer(setup, events, entries, blocks) {
        Some(event) => Err(LedgerError::BadAnswer { event }),
        None => Ok(()),
    }
}
