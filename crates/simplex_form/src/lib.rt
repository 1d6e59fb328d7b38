//! The form of an input: what a JSON text says of a setup and its events.
//!
//! [`read_input`] answers the [`Input`], or the place of the first part that is not of the form. Of what is part of
//! a greater value, [`read_setup`] and [`read_event`] read a setup or an event alone. The pieces of which the form is
//! made ([`FromData`], [`read_list`], [`read_items`], [`has_members`], [`read_digest`], ..) serve other forms too.
#![tactic(auto)]

mod answers;
mod events;
mod fault;
mod floors;
mod hex_text;
mod input;
mod next_event;
mod pieces;
mod references;
mod setup;
mod stops;
mod stream;
mod taking;
mod values;

pub use answers::read_answer;
pub use events::read_event;
pub use fault::InputFault;
pub use hex_text::read_digest;
pub use input::{Input, read_input, read_run, read_value};
pub use pieces::{
    FromData, flag_at, has_items, has_members, number_at, read_items, read_list, text_at,
};
pub use references::read_ref;
pub use setup::read_setup;
