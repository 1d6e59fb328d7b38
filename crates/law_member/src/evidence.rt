//! Whom a batcher's evidence names.
ghost use Rattle.std.specs.Prelude.{ℕ, ◌<◌, List, ◌∷◌, All};
ghost use Rattle.simplex_messages.specs.declared.call.Call.{Call};
ghost use Rattle.simplex_messages.specs.declared.handed.Handed.{Handed};
ghost use Rattle.model_steps.specs.Batcher.{Made, Timed, step_out};
ghost use Rattle.law_agreement.specs.World.{Sent};
ghost use Rattle.law_agreement.specs.Member as life;
ghost use Rattle.law_agreement.specs.Member.{newborn, run, IsLegal};
ghost use Rattle.law_member.specs.Life.{AreSent, AreVotesSent};
ghost use Rattle.law_member.specs.Evidence.{BlameNot, subjects_of, AreInOrder, IsAuthentic};
ghost use Rattle.law_member.specs.Wire.{Fits, AreItsOwn};

/// Whatever a batcher was given and takes now, it reports no evidence that names an honest member.
///
/// The first clause asks that the member's votes are in order, and that what came under its name is among them. The
/// second has such votes from any life of a member, over crashes and restarts. The third asks of the network that a
/// packet of the member is one that its voter sent, and of the mailbox that an own vote is one that its voter handed on;
/// the numbers of its votes keep to their types.
pub fn evidence_names_no_honest_member()
    ensures in_order { (made : Made) (past : List Timed) (given : Timed) (member length : ℕ) (sent : List Sent)
        → AreInOrder length sent → IsAuthentic member (given ∷ past) sent
        → BlameNot member (step_out made past given).calls }
    ensures lives { (made : Made) (past : List Timed) (given : Timed) (member length : ℕ) (lived : List life.Call)
        → 0 < length → IsLegal length newborn lived
        → IsAuthentic member (given ∷ past) (run newborn lived).sent
        → BlameNot member (step_out made past given).calls }
    ensures wire { (made : Made) (past : List Timed) (given : Timed)
        (member length : ℕ) (lived : List life.Call) (calls : List Call) (handed : List Handed)
        → 0 < length → IsLegal length newborn lived
        → All Fits (subjects_of (run newborn lived).sent)
        → AreSent calls (subjects_of (run newborn lived).sent)
        → AreVotesSent (run newborn lived).sent handed
        → AreItsOwn member calls handed (given ∷ past)
        → BlameNot member (step_out made past given).calls }
{}
