//! One network per epoch: an epoch is closed at a fixed height of its log, and the payload there is the genesis digest of the next.
//! The runs of the epochs, the chain of each member through them, and the program that writes these of an input.
#![tactic(auto)]

mod chains;
mod closing;
mod epoch;
mod form;
mod reason;
mod run;
mod text;
mod work;

pub use chains::chain;
pub use epoch::{EpochInput, EpochRun};
pub use form::{ChainInput, MOST_HEIGHT, read_chain_input};
pub use model_epochs::{ChainEntry, EpochError};
pub use reason::ChainReason;
pub use run::run_epochs;
pub use text::chain_lines;
pub use work::{ChainDone, ChainWork, epochs_program};
