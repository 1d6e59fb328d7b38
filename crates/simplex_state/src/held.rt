//! Certificates that are held, and whether they were sent.
#![tactic(auto, unfolding(simplex_values::specs::Maps::found))]

ghost use Rattle.std.specs.Prelude.{◌≡◌, ◌≤◌, ℕ, ◌==◌, true, false, Some, unwrap_or, if◌then◌else◌, OnOk, IfOk};
ghost use Rattle.std.specs.Option.{option_map};
ghost use Rattle.simplex_values.specs.Terms.{next_term_start};
ghost use Rattle.simplex_values.specs.Maps.{found};
ghost use Rattle.simplex_state.specs.Certificates.{held, unsent_in, certificate_in};

use simplex_values::maps::put;
use simplex_values::{Keep, TermLength, View};
use std::alloc::{AllocError, Global};
use std::collections::BTreeMap;

/// A certificate that is held.
#[derive(Debug, Drop)]
pub(crate) struct Held<C> {
    pub(crate) certificate: C,
    /// Whether it was handed out for sending, or need not be.
    pub(crate) sent: bool,
}

/// Holds a certificate that has still to be sent, where none of its view is held.
pub(crate) fn hold<C: Drop>(
    certificates: &mut BTreeMap<u64, Held<C>>,
    view: u64,
    certificate: C,
) -> Result<(), AllocError>
    ensures { OnOk result ((q : ℕ) → found certificates.new q ≡ (if view == q then Some
        (unwrap_or (found certificates.old q) (held false certificate))
        else found certificates.old q)) }
{
    if certificates.contains_key(&view) {
        return Ok(());
    }
    put(
        certificates,
        view,
        Held {
            certificate,
            sent: false,
        },
    )
}

/// Lets the certificate of a view count as sent.
pub(crate) fn mark_sent<C>(certificates: &mut BTreeMap<u64, Held<C>>, view: u64)
    ensures { (q : ℕ) → found certificates.new q ≡ (if view == q then option_map
        (λ h. held true h.certificate) (found certificates.old q) else found certificates.old q) }
{
    if let Some(kept) = certificates.get_mut(&view) {
        kept.sent = true;
    }
}

/// A copy of the certificate of a view.
pub(crate) fn copy_at<C: Keep + Drop>(
    alloc: Global,
    certificates: &BTreeMap<u64, Held<C>>,
    view: u64,
) -> Result<Option<C>, AllocError>
    ensures { IfOk result (λ copy. copy ≡ certificate_in (found certificates.now view)) }
{
    match certificates.get(&view) {
        None => Ok(None),
        Some(kept) => Ok(Some(kept.certificate.keep(alloc)?)),
    }
}

/// A copy of the certificate of a view, where it has still to be sent.
pub(crate) fn copy_unsent<C: Keep + Drop>(
    alloc: Global,
    certificates: &BTreeMap<u64, Held<C>>,
    view: u64,
) -> Result<Option<C>, AllocError>
    ensures { IfOk result (λ copy. copy ≡ unsent_in (found certificates.now view)) }
{
    match certificates.get(&view) {
        None => Ok(None),
        Some(kept) => {
            if kept.sent {
                return Ok(None);
            }
            Ok(Some(kept.certificate.keep(alloc)?))
        }
    }
}

/// Drops the certificates below a view, up to one that has still to be sent.
pub(crate) fn forget_sent<C: Drop>(certificates: &mut BTreeMap<u64, Held<C>>, least: u64)
    ensures kept { (q : ℕ) → least ≤ q → found certificates.new q ≡ found certificates.old q }
    ensures unsent { (q : ℕ)
        → unsent_in (found certificates.new q) ≡ unsent_in (found certificates.old q) }
{
    while let Some((first, kept)) = certificates.first_key_value() {
        if *first >= least || !kept.sent {
            break;
        }
        certificates.pop_first();
    }
}

/// The same, but keeps those from whose term the member has not moved on past the next one's first view.
pub(crate) fn forget_opened<C: Drop>(
    certificates: &mut BTreeMap<u64, Held<C>>,
    least: u64,
    length: TermLength,
    current: View,
)
    ensures kept { (q : ℕ) → least ≤ q → found certificates.new q ≡ found certificates.old q }
    ensures opening { (q : ℕ) → current ≤ next_term_start length q
        → found certificates.new q ≡ found certificates.old q }
    ensures unsent { (q : ℕ)
        → unsent_in (found certificates.new q) ≡ unsent_in (found certificates.old q) }
{
    while let Some((first, kept)) = certificates.first_key_value() {
        if *first >= least || !kept.sent || View(*first).next_term_start(length) >= current {
            break;
        }
        certificates.pop_first();
    }
}
