//! The JSON form of a record: what a text says of a setup, its events and the entries of a record, and how it is written.
//!
//! [`read_document`] answers the [`Document`], or the place of the first part that is not of the form. [`document_value`] is
//! the value of a record over the setup and the events as they were read.
#![tactic(auto)]

mod answers;
mod calls;
mod document;
mod entries;
mod form;
mod packets;
mod pieces;
mod requests;
mod took;

pub use document::{Document, document_value, read_document};
