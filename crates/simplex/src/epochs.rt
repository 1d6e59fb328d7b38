//! One network per epoch: the runs of the epochs, the chain of each member through them, and the program that writes these.
pub use simplex_epochs::{
    ChainDone, ChainEntry, ChainInput, ChainReason, ChainWork, EpochError, EpochInput, EpochRun,
    MOST_HEIGHT, chain, chain_lines, epochs_program, read_chain_input, run_epochs,
};
