//! What a batcher knows of the view that it is in.
ghost use Rattle.std.specs.Prelude.{◌≡◌, ◌<◌, ℕ, List, Option, Some, IsSome};
ghost use Rattle.std.specs.Option.{option_map, option_map_or};
ghost use Rattle.model_steps.specs.Batcher.{Made, Timed, standing_after};
ghost use Rattle.law_member.specs.Batcher.{last_told};

/// Whatever came, a batcher is in the view of the voter's last update, with the leader and the last final view that it
/// named. Before the first update it is in view 0, has no leader, and takes its floor as final.
pub fn batchers_stand_where_they_were_told()
    ensures current { (made : Made) (past : List Timed)
        → (standing_after made past).current
        ≡ option_map_or (λ told. told.current) (last_told past) 0 }
    ensures leader { (made : Made) (past : List Timed)
        → (standing_after made past).leader ≡ option_map (λ told. told.leader) (last_told past) }
    ensures finalized { (made : Made) (past : List Timed)
        → (standing_after made past).finalized
        ≡ option_map_or (λ told. told.finalized) (last_told past) made.floor }
{}

/// In each view above 0 a batcher knows the view's leader.
pub fn leaders_are_known()
    ensures { (made : Made) (past : List Timed) → 0 < (standing_after made past).current
        → IsSome (standing_after made past).leader }
{}
