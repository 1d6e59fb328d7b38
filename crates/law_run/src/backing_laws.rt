//! Runs of many members, of whom few are faulty.
ghost use Rattle.std.specs.Prelude.{ℕ, ◌≡◌, ◌↔◌, true, List, ◌∷◌, length, reverse};
ghost use Rattle.simplex_values.specs.declared.proposal.Subject.{Subject};
ghost use Rattle.simplex_wire.specs.declared.certificate.Certificate.{Certificate};
ghost use Rattle.simplex_wire.specs.Fields.{certificate_subject};
ghost use Rattle.simplex_transcript.specs.declared.setup.Setup.{Setup};
ghost use Rattle.model_run.specs.Setting.{Setting};
ghost use Rattle.model_run.specs.Life.{Noted};
ghost use Rattle.model_run.specs.SentVotes as tested;
ghost use Rattle.model_run.specs.Setups.{faulty_in};
ghost use Rattle.law_agreement.specs.Conflict.{Conflict};
ghost use Rattle.law_run.specs.Backed.{IsVerifying, AreBacked, StandsIn};
ghost use Rattle.law_run.specs.Blame.{AreBlameless, NoneBarred};
ghost use Rattle.law_run.specs.Genuine.{AreGenuine};
ghost use Rattle.law_run.specs.MostlyHonest.{IsMostlyHonest, HasFewFaulty};
ghost use Rattle.law_run.specs.Naming.{IsMailOf, IsProposalOf};
ghost use Rattle.law_run.specs.Sayings.{Each};
ghost use Rattle.model_steps.specs.Batcher.{Made, Timed, step_out};
ghost use Rattle.law_run.specs.Faulty.{faulty_of};
ghost use Rattle.law_run.specs.Safe.{AgreeAll, AllName, IsSafe};
ghost use Rattle.law_run.specs.Voting.{sent_votes, HasVoted};
ghost use Rattle.law_run.specs.WellSent.{AllWellSent};

/// Each certificate that stands in an entry and verifies has signers that are faulty, or sent the signed vote in this
/// entry or before.
pub fn certificates_are_backed()
    ensures { (setting : Setting) (noted : List Noted) → IsMostlyHonest setting noted
        → AreBacked setting.setup noted }
{}

/// No two certificates that stand in a run and verify conflict.
pub fn certificates_agree()
    ensures { (setting : Setting) (noted : List Noted) (a b : Certificate)
        → IsMostlyHonest setting noted → StandsIn noted a → StandsIn noted b
        → IsVerifying setting.setup a → IsVerifying setting.setup b
        → ¬ (Conflict setting.setup.term (certificate_subject a) (certificate_subject b)) }
{}

/// What an engine says for a certificate verifies, and a floor stood in an entry before the start at it.
pub fn certificates_are_genuine()
    ensures { (setting : Setting) (noted : List Noted) → IsMostlyHonest setting noted
        → AreGenuine setting.setup noted }
{}

/// Where certificates are backed and genuine and honest members' votes are in order, no two certificates conflict, whatever
/// entries these are.
pub fn agreement_follows()
    ensures { (setup : Setup) (noted : List Noted) → HasFewFaulty setup
        → AreBacked setup noted → AreGenuine setup noted → AllWellSent setup noted
        → AgreeAll setup noted }
{}

/// No entry of a run reports evidence that names an honest member.
pub fn no_honest_member_is_blamed()
    ensures { (setting : Setting) (noted : List Noted) → IsMostlyHonest setting noted
        → AreBlameless setting.setup noted }
{}

/// No entry of a run blocks a member that is not faulty, but for a leader that was contradicted and an answer that is no
/// valid one.
pub fn no_honest_member_is_barred()
    ensures { (setting : Setting) (noted : List Noted) → IsMostlyHonest setting noted
        → NoneBarred setting.setup noted }
{}

/// A run of members of whom few are faulty is safe.
pub fn members_are_safe()
    ensures safe { (setting : Setting) (noted : List Noted) → IsMostlyHonest setting noted
        → IsSafe setting noted }
    ensures counted { (setup : Setup) → length (faulty_of setup) ≡ faulty_in setup.members }
{}

/// Each certificate that stands in a run and verifies names the setup's epoch.
pub fn certificates_name_the_epoch()
    ensures { (setting : Setting) (noted : List Noted) → IsMostlyHonest setting noted
        → AllName setting.setup noted }
{}

/// Where own votes name the batcher's epoch, so does each proposal that a step hands to the voter.
pub fn proposals_name_the_epoch()
    ensures { (epoch : ℕ) (made : Made) (past : List Timed) (given : Timed) → made.epoch ≡ epoch
        → Each (IsMailOf epoch) (given ∷ past)
        → Each (IsProposalOf epoch) (step_out made past given).handed }
{}

/// Over all its lives, each vote that a member that is not faulty sent may stand by itself and may follow all that it
/// sent before, by the certificates that had come to its node by then.
pub fn honest_votes_keep_order()
    ensures { (setting : Setting) (noted : List Noted) → IsMostlyHonest setting noted
        → AllWellSent setting.setup noted }
{}

/// The run, which tells by it what is forged, and the words of a safe run read the same votes of a member: one list, where
/// the run's is read over the entries in the other order. And the run finds a vote on a subject exactly where the member
/// sent one.
pub fn sent_votes_are_the_same()
    ensures listed { (noted : List Noted) (member : ℕ)
        → tested.sent_votes (reverse noted) member ≡ sent_votes noted member }
    ensures found { (noted : List Noted) (member : ℕ) (subject : Subject)
        → (tested.has_sent noted member subject ≡ true) ↔ HasVoted noted member subject }
{}
