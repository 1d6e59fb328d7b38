//! What the definitions say, in samples. Each clause is computed.
ghost use Rattle.std.specs.Prelude.{ℕ, ◌≡◌, true, false, [], ◌∷◌, map, All};
ghost use Rattle.simplex_wire.specs.declared.vote.Notarize.{Notarize};
ghost use Rattle.simplex_wire.specs.declared.vote.Nullify.{Nullify};
ghost use Rattle.simplex_wire.specs.declared.vote.Finalize.{Finalize};
ghost use Rattle.simplex_wire.specs.declared.certificate.Notarization.{Notarization};
ghost use Rattle.simplex_wire.specs.declared.certificate.Nullification.{Nullification};
ghost use Rattle.simplex_wire.specs.declared.certificate.Finalization.{Finalization};
ghost use Rattle.simplex_types.specs.declared.evidence.ConflictingNotarize.{ConflictingNotarize};
ghost use Rattle.simplex_types.specs.declared.evidence.ConflictingFinalize.{ConflictingFinalize};
ghost use Rattle.simplex_types.specs.declared.evidence.NullifyFinalize.{NullifyFinalize};
ghost use Rattle.simplex_types.specs.declared.activity.Activity.TheVariants as activities;
ghost use Rattle.model_steps.specs.Batcher.{step_out};
ghost use Rattle.law_agreement.specs.WorldExamples.{first, rival, round_of};
ghost use Rattle.law_agreement.specs.LifeExamples.{good_life};
ghost use Rattle.law_agreement.specs.Member.{newborn, run, IsLegal};
ghost use Rattle.law_member.specs.Life.{AreSent, AreVotesSent};
ghost use Rattle.law_member.specs.Evidence.{names, subjects_of};
ghost use Rattle.law_member.specs.Wire.{Fits, AreItsOwn};
ghost use Rattle.law_member.specs.EvidenceSamples.{four, notarize, nullify, finalize, sent, arrived, blame, good_votes, late_votes};

use law_agreement::legal_lives_exist;

/// Evidence names the signer of each of its votes.
pub fn evidence_names_its_signers()
    ensures notarizes { (e : ConflictingNotarize) → (names (activities.ConflictingNotarize e) e.first.attestation.signer
        ≡ true) × (names (activities.ConflictingNotarize e) e.second.attestation.signer ≡ true) }
    ensures finalizes { (e : ConflictingFinalize) → (names (activities.ConflictingFinalize e) e.first.attestation.signer
        ≡ true) × (names (activities.ConflictingFinalize e) e.second.attestation.signer ≡ true) }
    ensures both { (e : NullifyFinalize) → (names (activities.NullifyFinalize e) e.nullify.attestation.signer ≡ true)
        × (names (activities.NullifyFinalize e) e.finalize.attestation.signer ≡ true) }
{}

/// A vote names nobody, and no certificate does.
pub fn other_reports_name_nobody()
    ensures notarize { (v : Notarize) (member : ℕ) → names (activities.Notarize v) member ≡ false }
    ensures nullify { (v : Nullify) (member : ℕ) → names (activities.Nullify v) member ≡ false }
    ensures finalize { (v : Finalize) (member : ℕ) → names (activities.Finalize v) member ≡ false }
    ensures notarization { (c : Notarization) (member : ℕ)
        → names (activities.Notarization c) member ≡ false }
    ensures certification { (c : Notarization) (member : ℕ)
        → names (activities.Certification c) member ≡ false }
    ensures nullification { (c : Nullification) (member : ℕ)
        → names (activities.Nullification c) member ≡ false }
    ensures finalization { (c : Finalization) (member : ℕ)
        → names (activities.Finalization c) member ≡ false }
{}

/// A member under whose name two votes that conflict come is named, whichever comes last, and no other member is.
pub fn conflicting_votes_are_reported()
    ensures notarizes { blame (step_out four (arrived (notarize first) ∷ []) (arrived (notarize rival))).calls 1
        ≡ true }
    ensures finalizes { blame (step_out four (arrived (finalize first) ∷ []) (arrived (finalize rival))).calls 1
        ≡ true }
    ensures nullified { blame (step_out four (arrived (nullify (round_of 1)) ∷ []) (arrived (finalize first))).calls 1
        ≡ true }
    ensures finalized { blame (step_out four (arrived (finalize first) ∷ []) (arrived (nullify (round_of 1)))).calls 1
        ≡ true }
    ensures no_other { blame (step_out four (arrived (notarize first) ∷ []) (arrived (notarize rival))).calls 2
        ≡ false }
{}

/// What the law asks can be met: a member lives the good life of law_agreement, and its packets come one after the other.
pub fn premises_can_be_met()
    ensures legal { IsLegal 2 newborn good_life }
    ensures fits { All Fits (subjects_of (run newborn good_life).sent) }
    ensures sent { AreSent (map sent good_votes) (subjects_of (run newborn good_life).sent) }
    ensures mail { AreVotesSent (run newborn good_life).sent [] }
    ensures own { AreItsOwn 1 (map sent good_votes) [] (map arrived late_votes) }
{
    legal_lives_exist();
}
