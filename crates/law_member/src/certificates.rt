//! Certificates that are handed to the voter.
ghost use Rattle.std.specs.Prelude.{ℕ, ◌≡◌, ◌<◌, ◌≤◌, Bool, true, List, ◌∷◌, All, Option, Some};
ghost use Rattle.simplex_values.specs.Terms.{greatest_view};
ghost use Rattle.simplex_values.specs.declared.proposal.Proposal.{Proposal};
ghost use Rattle.simplex_values.specs.declared.proposal.Subject.{Subject};
ghost use Rattle.simplex_wire.specs.declared.certificate.Certificate.{Certificate};
ghost use Rattle.simplex_wire.specs.declared.certificate.CertificateKind.{CertificateKind};
ghost use Rattle.simplex_wire.specs.declared.vote.Vote.{Vote};
ghost use Rattle.simplex_types.specs.Keyed.{keyed_verifies};
ghost use Rattle.simplex_round.specs.Assembly.{as_scheme, scheme_by};
ghost use Rattle.simplex_messages.specs.declared.batcher.BatcherInput.TheVariants.{Mail};
ghost use Rattle.simplex_messages.specs.declared.batcher.Message.TheVariants.{Update};
ghost use Rattle.model_steps.specs.Batcher.{Made, Timed, RoundHistory, vote_view, admits_view, standing_after, step_out};
ghost use Rattle.law_member.specs.BatcherVotes.{Accepted, Accepts};
ghost use Rattle.law_member.specs.Certificates.{IsSchemeOfMembers, BringsNew, IsFoundedMessage, BringsVerified, HandsOn};
ghost use Rattle.law_member.specs.Quorums.{taken, IsWorked, HasQuorum, HandsOnOne};

use simplex_wire::Scheme;

/// A certificate that a step hands to the voter verifies. Either the step took it from the network, and the round
/// of its view held none of its kind; or it lists a quorum of signers, each with a vote on the certificate's
/// subject that was accepted and verifies.
pub fn handed_certificates_are_founded()
    ensures { (made : Made) (past : List Timed) (given : Timed) → IsSchemeOfMembers made
        → All (IsFoundedMessage made (Accepted made (given ∷ past))
        (BringsNew (standing_after made past) given.input))
        (step_out made past given).handed }
{}

/// And the other way: a certificate that verifies is handed to the voter by the step that takes it from the network,
/// where it is of the batcher's epoch, its view is retained, and the round of its view held none of its kind.
pub fn new_certificates_are_handed_on()
    ensures { (made : Made) (past : List Timed) (given : Timed) (certificate : Certificate)
        → BringsVerified made (standing_after made past) given.input certificate
        → HandsOn (step_out made past given) certificate }
{}

/// Nor is a quorum left lying: where a step works a view, and, once it has taken its input, the round of the view holds
/// no certificate of a kind and has a quorum of accepted votes that verify on what one would be on, the step hands such
/// a certificate to the voter.
pub fn quorums_are_handed_on()
    ensures { (made : Made) (past : List Timed) (given : Timed)
        (view : ℕ) (round : RoundHistory) (kind : CertificateKind) (subject : Subject)
        → IsSchemeOfMembers made → made.scheme.recovers ≡ true
        → IsWorked made (taken made past given) view
        → (taken made past given).standing.rounds view ≡ Some round
        → HasQuorum made round kind subject → HandsOnOne (step_out made past given) subject }
{}

/// A step that accepts a vote works its view, where that is above the finalized one and admitted.
pub fn accepted_votes_are_worked()
    ensures { (made : Made) (past : List Timed) (given : Timed) (vote : Vote)
        → Accepts made past given vote → (standing_after made past).finalized < vote_view vote
        → admits_view made (standing_after made past) (vote_view vote) ≡ true
        → IsWorked made (taken made past given) (vote_view vote) }
{}

/// A step that takes an update works the view that is current from then on, where that is above the finalized one.
pub fn current_views_are_worked()
    ensures { (made : Made) (past : List Timed) (given : Timed)
        (current leader finalized : ℕ) (proposal : Option Proposal)
        → given.input ≡ Mail (Update current leader finalized proposal)
        → finalized < current → current ≤ greatest_view
        → IsWorked made (taken made past given) current }
{}

/// Where the scheme of these laws comes from: a batcher that is made with a lawful scheme, and as many members as the
/// scheme has, knows its members' signatures alone.
pub fn lawful_scheme_is_of_its_members<S: Scheme>()
    ensures { (made : Made) (scheme : S) → made.scheme ≡ scheme_by S.verifies S.recovers S.members scheme
        → made.members ≡ S.members scheme
        → IsSchemeOfMembers made }
{}

/// The keyed scheme of a batcher's members is one by which no signature of another verifies.
pub fn keyed_scheme_is_of_its_members()
    ensures { (made : Made) (base : ℕ) (recovers : Bool)
        → made.scheme ≡ as_scheme (keyed_verifies base made.members) recovers made.members
        → IsSchemeOfMembers made }
{}
