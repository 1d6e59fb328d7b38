//! The nodes of the setup.
use simplex_transcript::Node;

/// The second half of the twin.
const TWIN_HALF: Node = Node { member: 6, half: 1 };

/// All nodes, in order.
pub const NODES: [Node; 8] = [
    Node { member: 0, half: 0 },
    Node { member: 1, half: 0 },
    Node { member: 2, half: 0 },
    Node { member: 3, half: 0 },
    Node { member: 4, half: 0 },
    Node { member: 5, half: 0 },
    Node { member: 6, half: 0 },
    TWIN_HALF,
];

/// Those that run an engine, in order.
pub const ENGINE_NODES: [Node; 7] = [
    Node { member: 0, half: 0 },
    Node { member: 1, half: 0 },
    Node { member: 2, half: 0 },
    Node { member: 3, half: 0 },
    Node { member: 4, half: 0 },
    Node { member: 6, half: 0 },
    TWIN_HALF,
];
