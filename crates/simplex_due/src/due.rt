//! Votes that are due.
ghost use Rattle.std.specs.Prelude.{◌≡◌, List};
ghost use Rattle.model_rules.specs.Known.{Made, Fact};
ghost use Rattle.model_audit.specs.Taking.{votes_then};
ghost use Rattle.simplex_known.specs.Knows.{Knows};
ghost use Rattle.simplex_due.specs.Due.{votes_in};

use simplex_known::Known;
use simplex_values::View;
use simplex_wire::{Finalize, Notarize, Nullify, Scheme};

/// The votes that are due in a step: of each kind at most one.
#[derive(Clone, Copy, Debug, PartialEq, Eq)]
pub struct Due {
    /// That of a deadline, which gives the current view up.
    pub nullify: Option<Nullify>,
    /// That for the proposal of the view that the step touches.
    pub notarize: Option<Notarize>,
    /// That this proposal is final.
    pub finalize: Option<Finalize>,
}

impl Due {
    /// A nullify and no other vote.
    pub(crate) fn of_nullify(nullify: Option<Nullify>) -> Due
        ensures { result ≡ record { nullify = nullify; notarize = None; finalize = None } }
    {
        Due {
            nullify,
            notarize: None,
            finalize: None,
        }
    }
}

/// Those on the view, if any is touched.
pub(crate) fn due_on<S: Scheme>(known: &Known, scheme: &S, touched: Option<View>) -> Due
    ensures { (made : Made) (facts : List Fact) → Knows known.now made facts → S.attests scheme.now ≡ made.signs
        → votes_in result ≡ votes_then made facts touched }
{
    match touched {
        None => Due {
            nullify: None,
            notarize: None,
            finalize: None,
        },
        Some(view) => Due {
            nullify: None,
            notarize: known.notarize_at(scheme, view),
            finalize: known.finalize_at(scheme, view),
        },
    }
}
