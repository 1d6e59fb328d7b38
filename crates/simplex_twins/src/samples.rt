//! Scripts that come out as they are meant to. Each clause is computed.
#![tactic(auto, unfolding(crate::specs::Computed::scripts))]

ghost use Rattle.std.specs.Prelude.{◌≡◌, [], ◌∷◌, Some, None, true, false, map, length};
ghost use Rattle.simplex_values.specs.declared.plan.SplitTarget.TheVariants as targets;
ghost use Rattle.simplex_twins.specs.declared.error.TwinsError.TheVariants as errors;
ghost use Rattle.simplex_twins.specs.Script.{scripted};
ghost use Rattle.simplex_twins.specs.Faults.{fault_of, has_bad_leader};
ghost use Rattle.simplex_twins.specs.Partitions.{partitions, view_partitions};
ghost use Rattle.simplex_twins.specs.Routes.{route, view_route};
ghost use Rattle.simplex_twins.specs.Leaders.{scripted_leader};
ghost use Rattle.simplex_twins.specs.Every.{every_round, every_script};
ghost use Rattle.simplex_twins.specs.Samples.{script, four};

/// One scripted round, and what is behind it.
pub fn scripts_come_out()
    ensures parts { partitions script 1 1 four ≡ (0 ∷ 1 ∷ 3 ∷ [], 1 ∷ 2 ∷ []) }
    ensures genesis { partitions script 1 0 four ≡ (0 ∷ 1 ∷ 3 ∷ [], 1 ∷ 2 ∷ []) }
    ensures behind { partitions script 1 2 four ≡ (four, four) }
    ensures both { route script 1 1 1 four ≡ targets.Both }
    ensures primary { route script 1 1 0 four ≡ targets.Primary }
    ensures secondary { route script 1 1 2 four ≡ targets.Secondary }
    ensures neither { route (scripted 3 8 8 ∷ []) 1 1 2 four ≡ targets.None }
    ensures stranger { route script 1 1 4 four ≡ targets.None }
    ensures behind_both { route script 1 2 2 four ≡ targets.Both }
    ensures leader { scripted_leader (3 ∷ []) 1 (λ round. 9) (record { epoch = 0; view = 1 }) ≡ 3 }
    ensures otherwise { scripted_leader (3 ∷ []) 1
        (λ round. 9) (record { epoch = 0; view = 2 }) ≡ 9 }
{}

/// Which rounds are refused, and for which of their faults.
pub fn faults_come_out()
    ensures unseen { fault_of (scripted 3 6 6) 4 ≡ Some errors.LeaderUnseen }
    ensures no_member { fault_of (scripted 4 6 6) 4 ≡ Some errors.BadLeader }
    ensures outside { fault_of (scripted 3 16 6) 4 ≡ Some errors.BadMask }
    ensures good { fault_of (scripted 3 11 6) 4 ≡ None }
    ensures bad_leader { has_bad_leader script 3 ≡ true }
    ensures good_leader { has_bad_leader script 4 ≡ false }
{}

/// Lists that are cut where a view's term begins.
pub fn cuts_come_out()
    ensures second_term { view_partitions 5 7 four ≡ (0 ∷ 1 ∷ [], 2 ∷ 3 ∷ []) }
    ensures whole { view_partitions 3 4 four ≡ ([], four) }
    ensures primary { view_route 5 7 1 four ≡ targets.Primary }
    ensures secondary { view_route 5 7 2 four ≡ targets.Secondary }
    ensures twice { view_route 5 7 0 (0 ∷ 1 ∷ 0 ∷ 3 ∷ []) ≡ targets.Both }
{}

/// Every round of one member and of two, and every script of two rounds of one member.
pub fn every_round_comes_out()
    ensures one { every_round 1 ≡ scripted 0 0 1 ∷ scripted 0 1 0 ∷ scripted 0 1 1 ∷ [] }
    ensures two { length (every_round 2) ≡ 24 }
    ensures scripts { map (λ script. map (λ round. round.secondary) script) (every_script 1 2)
        ≡ (1 ∷ 1 ∷ []) ∷ (1 ∷ 0 ∷ []) ∷ (1 ∷ 1 ∷ []) ∷ (0 ∷ 1 ∷ []) ∷ (0 ∷ 0 ∷ [])
        ∷ (0 ∷ 1 ∷ []) ∷ (1 ∷ 1 ∷ []) ∷
        (1 ∷ 0 ∷ []) ∷ (1 ∷ 1 ∷ []) ∷ [] }
{}
