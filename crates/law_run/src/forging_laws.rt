//! Which events make no forgery.
ghost use Rattle.std.specs.Prelude.{◌≡◌, List, None, Some, Ok, true};
ghost use Rattle.simplex_transcript.specs.declared.event.Event.TheVariants as events;
ghost use Rattle.simplex_transcript.specs.declared.node.Node.{Node};
ghost use Rattle.simplex_transcript.specs.declared.node.Ref.{Ref};
ghost use Rattle.model_run.specs.Setting.{Setting};
ghost use Rattle.model_run.specs.Entries.{entry_of};
ghost use Rattle.model_run.specs.Forged.{Signed, first_forged};
ghost use Rattle.model_run.specs.Kinds.{is_of_kind};
ghost use Rattle.model_run.specs.Life.{Noted};
ghost use Rattle.law_run.specs.EventForging.{is_impersonator, IsNext, HaveOneSignature, WhereNoneForges};
ghost use Rattle.law_run.specs.Passing.{PassesFrom};
ghost use Rattle.law_run.specs.Sayings.{Each};

/// Behind the entries of a run of members of whom few are faulty, only bytes that are injected and what an impersonator
/// hears may make a forgery: whatever else the next event is, its packets hold none, and it is not refused for one.
pub fn only_impersonators_and_injected_bytes_forge()
    ensures none { WhereNoneForges (λ setting before event noted.
        first_forged setting.setup before noted.entry ≡ None) }
    ensures taken { WhereNoneForges
        (λ setting before event noted. entry_of setting before event ≡ Ok noted) }
{}

/// Whatever else the next event is, what a faulty member sends in it passes on votes and certificates of which each signature that
/// verifies is a faulty member's, or of a member that sent a vote on that subject before.
pub fn faulty_members_pass_on()
    ensures { WhereNoneForges (λ setting before event noted.
        Each (PassesFrom setting.setup before) noted.entry.packets) }
{}

/// And what an impersonator hears makes a forgery only where its own signature on the subject, a digest, is also that of
/// the member whose number it takes.
pub fn impersonators_forge_by_equal_digests()
    ensures { (setting : Setting) (before : List Noted) (node : Node) (packet : Ref) (noted : Noted) (s : Signed)
        → IsNext setting before (events.Deliver node packet) noted
        → is_of_kind is_impersonator setting.setup node.member ≡ true
        → first_forged setting.setup before noted.entry ≡ Some s
        → HaveOneSignature setting.setup node.member s }
{}
