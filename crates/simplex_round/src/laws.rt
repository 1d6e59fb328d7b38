//! What follows from the rules alone.
ghost use Rattle.std.specs.Prelude.{◌≡◌, ℕ, true, Some};
ghost use Rattle.simplex_wire.specs.declared.vote.Vote.{Vote};
ghost use Rattle.simplex_round.specs.declared.ballot.Ballot.{Ballot};
ghost use Rattle.simplex_round.specs.declared.evidence.Evidence.{Evidence};
ghost use Rattle.simplex_round.specs.Votes.{vote_kind, vote_signer};
ghost use Rattle.simplex_round.specs.Known.{Known, side_of, ballot_of};
ghost use Rattle.simplex_round.specs.Acceptance.{evidence_of, heard_from};
ghost use Rattle.simplex_round.specs.Laws.{SignedBoth};

/// A vote that is accepted from the network is its sender's.
#[tactic(auto, unfolding(crate::specs::Acceptance::heard_from))]
pub fn accepted_votes_are_their_senders()
    ensures { (known : Known) (sender : ℕ) (vote : Vote) → (heard_from known sender vote).accepted ≡ true
        → vote_signer vote ≡ sender }
{}

/// Evidence names a signer that signed both votes.
#[tactic(auto, using(crate::proofs::Evidences::signed_both))]
pub fn evidence_names_its_signer()
    ensures { (known : Known) (vote : Vote) (old : Ballot) (proof : Evidence)
        → ballot_of (side_of known (vote_kind vote)) (vote_signer vote) ≡ Some old
        → evidence_of old.vote vote ≡ Some proof → SignedBoth proof (vote_signer vote) }
{}
