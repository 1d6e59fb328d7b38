//! What can be read of a step, in samples. Each clause is computed.
ghost use Rattle.std.specs.Prelude.{◌≡◌, [], ◌∷◌};
ghost use Rattle.simplex_wire.specs.declared.artifact.Artifact.TheVariants as artifacts;
ghost use Rattle.simplex_wire.specs.declared.certificate.Certificate.TheVariants as certificates;
ghost use Rattle.simplex_wire.specs.declared.certificate.Notarization.{Notarization};
ghost use Rattle.simplex_wire.specs.declared.vote.Finalize.{Finalize};
ghost use Rattle.simplex_wire.specs.declared.vote.Nullify.{Nullify};
ghost use Rattle.simplex_wire.specs.declared.vote.Vote.TheVariants as votes;
ghost use Rattle.simplex_messages.specs.declared.call.Call.TheVariants as calls;
ghost use Rattle.model_rules.specs.Known.{Added, Voted, Published};
ghost use Rattle.law_member.specs.VoterVotes.{packet_of, vote_packets};
ghost use Rattle.law_member.specs.Learned.{facts_of_step, publications_of};
ghost use Rattle.law_member.specs.Syncs.{unsynced, sends};

/// The later record tells the newer fact, a prune or a packet tells none, and of the votes a nullify is published. A
/// sync is of its own section, and of what stood there before it.
pub fn a_step_is_read()
    ensures newest_first { (n : Notarization) (v : Finalize) → facts_of_step 5 (calls.Append 1
        (artifacts.Notarization n) ∷ calls.Append 1 (artifacts.Finalize v) ∷ calls.Sync 1
        ∷ packet_of (votes.Finalize v)
        ∷ calls.Prune 1 ∷ [])
        ≡ Voted (votes.Finalize v) ∷ Added (certificates.Notarization n) 5 ∷ [] }
    ensures packets { (v : Finalize)
        → vote_packets (calls.Sync 1 ∷ packet_of (votes.Finalize v) ∷ [])
        ≡ packet_of (votes.Finalize v) ∷ [] }
    ensures published { (n : Nullify) (v : Finalize)
        → publications_of 5 (votes.Nullify n ∷ votes.Finalize v ∷ [])
        ≡ Published n.round.view 5 ∷ [] }
    ensures other_section { (n : Notarization) (v : Finalize) → unsynced (calls.Append 1 (artifacts.Notarization n)
        ∷ calls.Append 2 (artifacts.Finalize v) ∷ calls.Sync 1 ∷ []) ≡ 2 ∷ [] }
    ensures appended_behind { (n : Notarization) (v : Finalize) → unsynced (calls.Append 1 (artifacts.Notarization n)
        ∷ calls.Sync 1 ∷ calls.Append 1 (artifacts.Finalize v) ∷ []) ≡ 1 ∷ [] }
    ensures synced { (n : Notarization) (v : Finalize) → unsynced (calls.Append 1 (artifacts.Notarization n)
        ∷ calls.Append 1 (artifacts.Finalize v) ∷ calls.Sync 1
        ∷ packet_of (votes.Finalize v) ∷ []) ≡ [] }
    ensures sent { (v : Finalize) → sends (calls.Sync 1 ∷ packet_of (votes.Finalize v) ∷ calls.Prune 1 ∷ [])
        ≡ packet_of (votes.Finalize v) ∷ [] }
{}
