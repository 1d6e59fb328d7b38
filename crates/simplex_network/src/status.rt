//! What a node is at.
use simplex_types::View;

/// A stopped node, a running engine at its current view, or a node of a faulty member that has no engine.
#[derive(Clone, Copy, Debug, PartialEq, Eq)]
pub(crate) enum Status {
    Stopped,
    Running(View),
    Faulty,
}
