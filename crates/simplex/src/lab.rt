//! A run told line by line, also where it is refused, and the program that tells it, makes runs of its own, and makes inputs shorter.
pub use simplex_lab::{LabReason, LabWork, Order, Told, Word, lab_program};
pub use simplex_trace::{line, lines};
