//! Members that break the rules, an application and a relay to try engines with, and a reporter that records what it is told.
pub use model_faults::Sent;
pub use simplex_application as application;
pub use simplex_mocks::{
    Relayed, conflicter, equivocator, impersonator, nuller, nullify_only, outdated, reconfigurer,
    relay, wrapped,
};
pub use simplex_recording as reporter;
