//! What the members of a setup are.
ghost use Rattle.std.specs.Prelude.{◌≡◌};
ghost use Rattle.std.specs.List.{list_any, slice_get};
ghost use Rattle.std.specs.Option.{option_map};
ghost use Rattle.model_run.specs.Kinds as kinds;

use simplex_transcript::{MemberKind, Setup};

/// Whether all members are honest.
pub(crate) fn are_honest(setup: &Setup) -> bool
    ensures { result ≡ kinds.are_honest setup.now }
{
    setup.members.as_slice().iter().all(|kind| !is_faulty(kind))
}

/// Whether there is such a member, and it is honest.
pub fn is_honest(setup: &Setup, member: u64) -> bool
    ensures { result ≡ kinds.is_honest setup.now member }
{
    match kind_at(setup, member) {
        None => false,
        Some(kind) => !is_faulty(kind),
    }
}

/// Whether there is such a member, and it is faulty.
pub(crate) fn is_faulty_member(setup: &Setup, member: u64) -> bool
    ensures { result ≡ kinds.is_faulty_member setup.now member }
{
    match kind_at(setup, member) {
        None => false,
        Some(kind) => is_faulty(kind),
    }
}

/// Whether there is such a member, and it is a twin.
pub(crate) fn is_twin(setup: &Setup, member: u64) -> bool
    ensures { result ≡ kinds.is_twin setup.now member }
{
    match kind_at(setup, member) {
        None => false,
        Some(kind) => has_halves(kind),
    }
}

/// Whether some member is a twin.
pub(crate) fn has_twin(setup: &Setup) -> bool
    ensures { result ≡ list_any kinds.has_halves setup.now.members }
{
    setup.members.as_slice().iter().any(|kind| has_halves(kind))
}

// The member's kind, where there is such a member.
fn kind_at(setup: &Setup, member: u64) -> Option<&MemberKind>
    ensures { option_map (λ kind. kind.now) result ≡ slice_get setup.now.members member }
{
    setup.members.as_slice().get(member as usize)
}

fn is_faulty(kind: &MemberKind) -> bool
    ensures { result ≡ kinds.is_faulty kind.now }
{
    !matches!(kind, MemberKind::Honest)
}

fn has_halves(kind: &MemberKind) -> bool
    ensures { result ≡ kinds.has_halves kind.now }
{
    matches!(kind, MemberKind::Twin)
}
