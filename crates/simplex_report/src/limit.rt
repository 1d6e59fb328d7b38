//! How long a payload may be.
ghost use Rattle.std.specs.Prelude.{◌≡◌, ◌≤◌};
ghost use Rattle.simplex_report.specs.Limit.{longest_payload};

/// The most bytes that a payload takes among so many members, of votes, certificates and resolver messages.
pub fn max_payload_size(participants: u32) -> usize
    requires { participants ≤ 1024 }
    ensures { result ≡ longest_payload participants }
{
    82 + 37 * participants as usize
}
