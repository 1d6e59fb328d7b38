//! The views that a step has still to work.
ghost use Rattle.std.specs.Prelude.{◌≡◌, ◌++◌, ◌∷◌, [], if◌then◌else◌, option_to_list, IfOk, OnOk};

use simplex_types::View;
use std::alloc::{AllocError, Global};
use std::marker::Model;

/// The views that a step has still to work, in the order marked. One alone takes no memory.
#[derive(Drop)]
pub(crate) struct Marked {
    first: Option<View>,
    others: Vec<View>,
}

impl Model for Marked {
    ghost use Rattle.std.specs.Prelude.{ℕ, List, ◌++◌, option_to_list};

    ghost Value = { List ℕ };

    ghost view = { λ m. option_to_list m.first ++ m.others.items };
}

impl Marked {
    /// No views.
    pub(crate) fn new(alloc: Global) -> Marked
        ensures { result ≡ [] }
    {
        Marked {
            first: None,
            others: Vec::new(alloc),
        }
    }

    /// The current view and these.
    pub(crate) fn of(alloc: Global, current: View, ahead: &[u64]) -> Result<Marked, AllocError>
        ensures { IfOk result (λ marked. marked ≡ current ∷ ahead.now) }
    {
        let others = views_of(alloc, ahead)?;
        Ok(Marked {
            first: Some(current),
            others,
        })
    }

    /// The view is to be worked, if it is marked.
    pub(crate) fn mark(&mut self, is_marked: bool, view: View) -> Result<(), AllocError>
        ensures { OnOk result (self.new ≡ (if is_marked then self.old ++ view ∷ [] else self.old)) }
    {
        if !is_marked {
            return Ok(());
        }
        if self.first.is_none() && self.others.is_empty() {
            self.first = Some(view);
            return Ok(());
        }
        self.others.push(view)?;
        Ok(())
    }

    /// The first view, and those behind it. There may be none first.
    pub(crate) fn parts(&self) -> (Option<View>, &[View])
        ensures { self.now ≡ option_to_list result.0 ++ result.1.now }
    {
        (self.first, self.others.as_slice())
    }
}

/// The views with these numbers.
fn views_of(alloc: Global, numbers: &[u64]) -> Result<Vec<View>, AllocError>
    ensures { IfOk result (λ views. views.items ≡ numbers.now) }
{
    let mut views = Vec::new(alloc);
    for number in numbers {
        views.push(View(*number))?;
    }
    Ok(views)
}
