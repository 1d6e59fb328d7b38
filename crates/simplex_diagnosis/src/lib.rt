//! What is wrong with an input that is not of the form, in words for the person who wrote it.
//!
//! A program answers such an input with the place of the first part that is not of the form. [`explain`] says of that place which
//! member it is, at which byte, what was found there, and what is wanted; [`KeptSource`] keeps what a program read for it, and
//! [`say_why`] says it on standard error. Nothing here decides anything: whether a value is of the form is asked of the readers of `simplex_form`, in a sample of which the value is
//! a part.
#![tactic(auto)]

mod faults;
mod kept;
mod saying;
mod shapes;
mod spans;
mod tables;

pub use faults::{explain, explain_as};
pub use kept::KeptSource;
pub use saying::say_why;
pub use shapes::Shape;
