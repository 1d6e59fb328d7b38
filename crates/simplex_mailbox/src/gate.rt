//! What a thread passes before each of its turns, so that tests can hold one thread until another has come as far.

/// Is passed before each turn: by `who`, the thread or the place that takes it, with the turn's number.
pub trait Gate: Sync {
    /// Called before a step, by the thread that makes it; it may hold the thread as long as it likes. Who passes, and what
    /// the turn counts, is said by the call that takes the gate.
    fn pass(&self, who: u32, turn: u64);
}

/// A gate that holds nobody.
pub struct OpenGate;

impl Gate for OpenGate {
    fn pass(&self, _who: u32, _turn: u64) {}
}
