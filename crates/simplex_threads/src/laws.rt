//! What holds of a voter's turns, from the definitions alone.
ghost use Rattle.std.specs.Prelude.{◌≡◌, ◌<◌, ℕ, true, false, List, [], ◌∷◌, All};
ghost use Rattle.simplex_values.specs.Terms.{greatest_view};
ghost use Rattle.simplex_values.specs.declared.answer.Answer.{Answer};
ghost use Rattle.simplex_values.specs.declared.plan.Channel.{Channel};
ghost use Rattle.simplex_journal.specs.Journal.{Section, crashed};
ghost use Rattle.simplex_messages.specs.declared.step.Stop.{Stop};
ghost use Rattle.simplex_messages.specs.declared.step.Stop.TheVariants as stops;
ghost use Rattle.simplex_messages.specs.declared.voter.VoterInput.{VoterInput};
ghost use Rattle.model_rules.specs.Known.{Made};
ghost use Rattle.simplex_transcript.specs.declared.event.StepSource.{StepSource};
ghost use Rattle.model_steps.specs.Engine.{EngineMade, Did, begun, heard, replied, stepped, is_whole};
ghost use Rattle.model_steps.specs.VoterLife.{VoterMade, Given, Started, Stepped, place_of, start_given, step_given};
ghost use Rattle.law_member.specs.Life.{IsFloor};
ghost use Rattle.simplex_turns.specs.Threads.{Ended, IsFree, IsUnbroken};
ghost use Rattle.simplex_turns.specs.Voting.{VoterPlace, Turn, outcomes_of};
ghost use Rattle.simplex_threads.specs.Laws.{AllSendWhatIsSynced, AllVoteByRule, AllStoreFirst};
ghost use Rattle.simplex_threads.specs.Laws.{IsOfLife, HasLived, VoterHasLived, past_behind, view_at, view_behind};

use law_member::{
    crashes_are_lived, knowledge_is_written, sends_follow_syncs, sent_votes_are_by_rule,
    starts_are_lived, steps_are_lived,
};

/// In each turn of a voter, nothing is sent while a record that the turn appended before it stands unsynced.
pub fn turns_send_what_is_synced()
    ensures { (made : VoterMade) (place : VoterPlace) (did : List Turn)
        → AllSendWhatIsSynced made place did }
{
    sends_follow_syncs();
}

/// The votes that a turn sends, unless it was broken off, are those that the rules give for what it found.
pub fn turns_vote_by_rule()
    ensures { (made : VoterMade) (place : VoterPlace) (did : List Turn)
        → AllVoteByRule made place did }
{
    sent_votes_are_by_rule();
}

/// Each vote that a turn sends is the member's own, and its record was appended and synced before it in that turn; or it is a
/// nullify again, and its record stood synced in the journal before the turn. So it is in each turn, also in one that a failing
/// call of the journal ended, of a voter that has lived.
pub fn turns_store_first()
    ensures { (made : VoterMade) (place : VoterPlace) (did : List Turn) (turns before now : ℕ)
        → 0 < made.rules.term_length → HasLived made place.past
        → view_behind made place did < greatest_view
        → All IsFree did → Ended turns (outcomes_of made place did) before now
        → AllStoreFirst made place did }
{
    steps_are_lived();
    starts_are_lived();
    knowledge_is_written();
}

/// A voter has lived that was started over an empty journal, or over one that is of a life, and then stepped, with no stop; and so
/// it has behind turns on a thread, none of which a failing call of the journal ended.
pub fn unstopped_voters_have_lived()
    ensures empty { (rules : Made) → IsOfLife rules [] }
    ensures started { (made : VoterMade) (now : ℕ) → IsFloor made.floor → IsOfLife made.rules made.sections
        → HasLived made (Started now stops.None ∷ []) }
    ensures stepped { (made : VoterMade) (past : List Given) (input : VoterInput) (now : ℕ) → HasLived made past
        → HasLived made (Stepped input now stops.None ∷ past) }
    ensures turned { (made : VoterMade) (place : VoterPlace) (did : List Turn)
        → HasLived made place.past → All IsFree did
        → All IsUnbroken (outcomes_of made place did) → HasLived made (past_behind made place did) }
{}

/// So has the voter of an engine that was started so, and since then heard packets, was answered and made steps, where neither the
/// start nor a step was broken off.
pub fn unbroken_engines_have_lived()
    ensures started { (made : EngineMade) (now : ℕ) (stop : Stop)
        → let voter = made.voter now in IsFloor voter.floor → IsOfLife voter.rules voter.sections
        → is_whole (begun made now stop).outcome ≡ true
        → VoterHasLived made (begun made now stop ∷ []) }
    ensures heard { (made : EngineMade) (past : List Did) (sender : ℕ) (channel : Channel) (bytes : List ℕ) (now : ℕ)
        → VoterHasLived made past
        → VoterHasLived made (heard made past sender channel bytes now ∷ past) }
    ensures answered { (made : EngineMade) (past : List Did) (number : ℕ) (answer : Answer) (now : ℕ)
        → VoterHasLived made past
        → VoterHasLived made (replied number answer now ∷ past) }
    ensures stepped { (made : EngineMade) (past : List Did) (source : StepSource) (now : ℕ) (stop : Stop)
        → VoterHasLived made past
        → is_whole (stepped made past source now stop).outcome ≡ true
        → VoterHasLived made (stepped made past source now stop ∷ past) }
{}

/// A voter that has lived leaves a journal that is of a life, wherever a crash or a stop ends it: so it may be started again.
pub fn stopped_voters_leave_a_life()
    ensures crashed { (made : VoterMade) (past : List Given) (keep : ℕ) → HasLived made past
        → view_at made past < greatest_view
        → IsOfLife made.rules (crashed keep (place_of made past).sections) }
    ensures stepped { (made : VoterMade) (past : List Given) (input : VoterInput) (now : ℕ) (stop : Stop)
        → HasLived made past
        → view_at made past < greatest_view
        → is_whole (step_given made past input now stop).outcome ≡ false
        → IsOfLife made.rules (step_given made past input now stop).sections }
    ensures started { (made : VoterMade) (now : ℕ) (stop : Stop) → IsFloor made.floor
        → IsOfLife made.rules made.sections
        → is_whole (start_given made [] now stop).outcome ≡ false
        → IsOfLife made.rules (start_given made [] now stop).sections }
    ensures later { (rules : Made) (start : ℕ) (sections : List Section) → IsOfLife rules sections
        → IsOfLife (record rules { start = start }) sections }
{
    crashes_are_lived();
    steps_are_lived();
    starts_are_lived();
    knowledge_is_written();
}
