//! What is simulated.

/// How often something goes wrong, each of 100 times: 0 is never, 100 always.
#[derive(Clone, Copy, Debug, PartialEq, Eq)]
pub struct Chances {
    /// A packet is not delivered.
    pub drop: u64,
    /// A packet is delivered twice.
    pub repeat: u64,
    /// A node crashes where it would make a step, and starts again later.
    pub crash: u64,
    /// A packet is delivered behind all that waits when its turn comes.
    pub delay: u64,
}

/// Which run is made.
#[derive(Clone, Copy, Debug, PartialEq, Eq)]
pub struct Plan {
    /// What all that is drawn is drawn from.
    pub seed: u64,
    /// How many choices are made; each makes one event, or none.
    pub steps: u64,
    /// What goes wrong.
    pub chances: Chances,
}
