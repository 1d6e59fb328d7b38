//! The chains of members through the epochs agree, an epoch is closed by one payload, and each request on view 0 names its
//! epoch's genesis digest.
#![tactic(auto)]

mod laws;

pub use laws::{
    chains_are_fronts, chains_of_whole_runs, epochs_are_linked, epochs_close_as_one,
    long_logs_agree,
};
