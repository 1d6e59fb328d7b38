//! Which asks a view has.

/// Which asks a view has, of those that are done with at one time.
#[derive(Clone, Copy, Debug, PartialEq, Eq)]
pub struct Held {
    /// One for a nullification.
    pub nullification: bool,
    /// One for a notarization.
    pub notarization: bool,
    /// One that stands until the floor.
    pub floor: bool,
}
