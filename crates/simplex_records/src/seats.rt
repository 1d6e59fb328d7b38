//! One list for both halves of each member.
ghost use Rattle.std.specs.Prelude.{◌≡◌, ◌<◌, ◌^◌};
ghost use Rattle.simplex_records.specs.Seats as seats;

use simplex_transcript::Node;

/// Where the node sits: both halves of a member side by side, member by member. [two-seats]
pub fn seat_of(node: Node) -> usize
    requires half { node.half < 2 }
    requires member { node.member < 2 ^ 63 }
    ensures { result ≡ seats.seat_of node }
{
    (2 * node.member + node.half) as usize
}
