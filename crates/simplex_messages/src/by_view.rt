//! The policy of messages that finalizations make needless: the voter's and the resolver's.
ghost use Rattle.std.specs.Prelude.{◌≡◌, ℕ, Bool, map, filter, OnOk, OnErr};
ghost use Rattle.std.specs.List.{list_any};
ghost use Rattle.simplex_mailbox.specs.Pending.{waits_in};
ghost use Rattle.simplex_messages.specs.Policies.{is_final_from, handled_by_view};

use simplex_mailbox::Pending;
use simplex_types::View;
use std::alloc::AllocError;
use std::collections::VecDeque;

/// A message about a view.
pub(crate) trait ByView: Drop {
    ghost view_of: { Self → ℕ };

    ghost is_final: { Self → Bool };

    ghost outlasts: { Self → Self → Bool };

    ghost stands_for: { Self → Self → Bool };

    ghost changed_by: { Self → Self → Self };

    /// The view that it is about.
    fn view(&self) -> View
        ensures { result ≡ view_of self.now };

    /// Whether it is a finalization.
    fn is_final(&self) -> bool
        ensures { result ≡ is_final self.now };

    /// Whether it stays queued when this finalization comes.
    fn outlasts(&self, last: &Self) -> bool
        ensures { result ≡ outlasts self.now last.now };

    /// Whether nothing more need be queued for the message, since this one is.
    fn stands_for(&self, message: &Self) -> bool
        ensures { result ≡ stands_for self.now message.now };

    /// Takes up what the message says beyond this one.
    fn change_by(&mut self, message: &Self)
        ensures { self.new ≡ changed_by message.now self.old };
}

/// Queues the message, or what it says beyond the one that stands for it.
#[tactic(auto, unfolding(crate::specs::Policies::handled_by_view))]
pub(crate) fn handle_by_view<M: ByView>(
    pending: &mut Pending<M>,
    message: M,
) -> Result<(), AllocError>
    ensures ok { OnOk result (waits_in pending.new
        ≡ handled_by_view M.view_of M.is_final M.outlasts M.stands_for M.changed_by
        (waits_in pending.old) message) }
    ensures err { OnErr result (waits_in pending.new ≡ waits_in pending.old) }
{
    if is_final_from(&pending.place, message.view()) {
        return Ok(());
    }
    if message.is_final() {
        keep_beside(&mut pending.rest, &message);
        pending.place = Some(message);
        return Ok(());
    }
    if has_one_for(&pending.rest, &message) {
        change_each(&mut pending.rest, &message);
        return Ok(());
    }
    pending.push(message)
}

/// Whether a finalization is queued that is at or above the view.
fn is_final_from<M: ByView>(place: &Option<M>, view: View) -> bool
    ensures { result ≡ is_final_from M.view_of place.now view }
{
    match place {
        Some(last) => view <= last.view(),
        None => false,
    }
}

/// Drops what does not outlast the finalization.
fn keep_beside<M: ByView>(rest: &mut VecDeque<M>, last: &M)
    ensures { rest.new.items ≡ filter (λ queued. M.outlasts queued last.now) rest.old.items }
{
    rest.retain(|queued| queued.outlasts(last));
}

/// Whether one is queued that stands for the message.
#[tactic(auto, using(crate::proofs::Halves::any_of_both))]
fn has_one_for<M: ByView>(rest: &VecDeque<M>, message: &M) -> bool
    ensures { result ≡ list_any (λ queued. M.stands_for queued message.now) rest.now.items }
{
    // Two slices are gone through faster than a queue.
    let (front, back) = rest.as_slices();
    is_one_for(front, message) || is_one_for(back, message)
}

/// Whether one of them stands for the message.
fn is_one_for<M: ByView>(queued: &[M], message: &M) -> bool
    ensures { result ≡ list_any (λ queued. M.stands_for queued message.now) queued.now }
{
    queued.iter().any(|queued| queued.stands_for(message))
}

/// Lets each take up what the message says beyond it.
fn change_each<M: ByView>(rest: &mut VecDeque<M>, message: &M)
    ensures { rest.new.items ≡ map (M.changed_by message.now) rest.old.items }
{
    for queued in rest.make_contiguous() {
        queued.change_by(message);
    }
}
