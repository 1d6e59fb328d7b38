//! What the work on an input comes to.

/// What the work on an input comes to, and the text that tells it.
#[derive(Drop)]
pub enum Answer<D: Drop, R: Drop> {
    /// The work is whole.
    Done { done: D, text: String },
    /// It ends by a reason of the program's own.
    Refused { reason: R, text: String },
    /// The input is not of the form: 0 it is no JSON, and from 1 on the first part of it that is wrong.
    BadInput { place: u64 },
}
