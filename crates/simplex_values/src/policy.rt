//! Whether views are skipped, and proposals forwarded.
ghost use Rattle.std.specs.Prelude.{◌≡◌};
ghost use Rattle.simplex_values.specs.Policy.{budget_of, is_enabled};

/// Whether a view whose leader seems to be gone expires at once.
#[derive(Clone, Copy, Debug, PartialEq, Eq)]
pub enum SkipPolicy {
    /// It never does.
    Disabled,
    /// It does while the budget lasts.
    Enabled {
        /// After how many milliseconds without a packet a member counts as inactive.
        timeout: u64,
        /// How many views may be skipped in a row without finality.
        budget: SkipBudget,
    },
}

/// How many views may be skipped in a row without finality.
#[derive(Clone, Copy, Debug, PartialEq, Eq)]
pub enum SkipBudget {
    /// So many.
    Fixed(u64),
    /// As many as there are members.
    Participants,
}

impl SkipBudget {
    /// The number of views, for `n` members.
    pub fn resolve(self, n: u32) -> u64
        ensures { result ≡ budget_of self n }
    {
        match self {
            SkipBudget::Fixed(views) => views,
            SkipBudget::Participants => u64::from(n),
        }
    }
}

/// To whom a notarized proposal is forwarded.
#[derive(Clone, Copy, Debug, PartialEq, Eq)]
pub enum ForwardPolicy {
    /// To nobody.
    Disabled,
    /// To the members whose notarize was not seen.
    SilentVoters,
    /// To the next leader, where its notarize was not seen.
    SilentLeader,
}

impl ForwardPolicy {
    /// Whether anything is forwarded.
    pub fn is_enabled(&self) -> bool
        ensures { result ≡ is_enabled self.now }
    {
        !matches!(self, ForwardPolicy::Disabled)
    }
}
