//! Cases that come out as the definitions mean them. Each clause is computed.
#![tactic(auto, unfolding(crate::specs::Computed::epochs))]

ghost use Rattle.std.specs.Prelude.{◌≡◌, [], ◌∷◌, Ok, Err, Some, None};
ghost use Rattle.simplex_transcript.specs.declared.refusal.RunError.TheVariants as refusals;
ghost use Rattle.model_run.specs.Entries.{node_of};
ghost use Rattle.model_run.specs.Run.{refused};
ghost use Rattle.simplex_types.specs.Genesis.{genesis_of};
ghost use Rattle.model_log.specs.Samples.{line};
ghost use Rattle.model_epochs.specs.declared.chain.EpochError.TheVariants.{WrongEpoch, Run, Open};
ghost use Rattle.model_epochs.specs.Chain.{chain_of, closing_payload};
ghost use Rattle.model_epochs.specs.Epochs.{epochs_of};
ghost use Rattle.model_epochs.specs.Samples.{place, epoch, idle, refuses};

/// A chain goes on behind a log that is long enough, and takes no more of it than the height.
pub fn chains_come_out()
    ensures nothing { chain_of 1 [] ≡ [] }
    ensures closed { chain_of 1 ((0, line 1 0 1 ∷ line 2 0 2 ∷ []) ∷ (1, line 3 0 3 ∷ []) ∷ [])
        ≡ place 0 1 ∷ place 1 3 ∷ [] }
    ensures open { chain_of 3 ((0, line 1 0 1 ∷ line 2 0 2 ∷ []) ∷ (1, line 3 0 3 ∷ []) ∷ [])
        ≡ place 0 1 ∷ place 0 2 ∷ [] }
    ensures payload { closing_payload 2 ((line 1 0 1 ∷ [])
        ∷ (line 1 0 1 ∷ line 2 0 2 ∷ line 3 0 3 ∷ []) ∷ []) ≡ Some (2 ∷ []) }
    ensures too_short { closing_payload 2 ((line 1 0 1 ∷ []) ∷ []) ≡ None }
{}

/// The errors, in their order.
pub fn epochs_come_out()
    ensures one { epochs_of idle 1 (epoch 5 ∷ [])
        ≡ Ok (record { genesis = genesis_of 5; entries = []; logs = (node_of 0, []) ∷ [] } ∷ []) }
    ensures is_open { epochs_of idle 1 (epoch 5 ∷ epoch 6 ∷ []) ≡ Err (Open 0 0) }
    ensures refused { epochs_of refuses 1 (epoch 5 ∷ epoch 7 ∷ [])
        ≡ Err (Run 0 (refused refusals.NotPending 3)) }
{}
