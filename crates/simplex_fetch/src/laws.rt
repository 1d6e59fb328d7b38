//! What follows from a fetcher's definition alone.
ghost use Rattle.std.specs.Prelude.{◌≡◌, ℕ, ◌<◌, false, List};
ghost use Rattle.std.specs.Map.{keys_of};
ghost use Rattle.std.specs.Ordering.{nat_cmp};
ghost use Rattle.std.specs.List.Sorted.{IsStrictlySortedBy};
ghost use Rattle.model_resolver.specs.declared.config.FetchConfig.{FetchConfig};
ghost use Rattle.model_resolver.specs.declared.entry.Entry.{Entry};
ghost use Rattle.model_resolver.specs.Asks.{is_targeted};
ghost use Rattle.model_resolver.specs.Fetcher.{Machine};
ghost use Rattle.simplex_fetch.specs.Laws.{AsksAll, AsksNoneBlocked, DeliversOpen, ServesOnce};

/// Where an ask of a view names nobody, the attempts go round all other members that are not blocked.
pub fn untargeted_asks_go_round()
    ensures { (config : FetchConfig) (blocked : List ℕ) (view : ℕ) (entry : Entry)
        → config.me < config.n → is_targeted entry.arrivals ≡ false
        → AsksAll config blocked view entry }
{}

/// No attempt asks a member that is blocked, whether the asks of a view name members or not.
pub fn blocked_members_are_not_asked()
    ensures { (config : FetchConfig) (blocked : List ℕ) (view : ℕ) (entry : Entry)
        → AsksNoneBlocked config blocked view entry }
{}

/// An answer is delivered only for the open request that it names, from the peer that was asked.
pub fn answers_are_of_open_requests()
    ensures { (fetcher : Machine) (sender : ℕ) (bytes : List ℕ) (now : ℕ)
        → DeliversOpen fetcher sender bytes now }
{}

/// A request is served once, since the numbers of requests differ.
pub fn requests_are_served_once()
    ensures { (fetcher : Machine) (id : ℕ) → IsStrictlySortedBy nat_cmp (keys_of fetcher.serving)
        → ServesOnce fetcher id }
{}
