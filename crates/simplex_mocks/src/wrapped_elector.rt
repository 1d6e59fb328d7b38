//! An elector around another, for members whose scheme is wrapped.
use simplex_types::elector::{Config as InnerConfig, Elector as Inner};
use simplex_types::{Keep, Participant, Round, Terms};
use std::alloc::{AllocError, Global};

/// Builds an [`Elector`] around the one that is built from what is inside.
#[derive(Clone, Copy, Debug, PartialEq, Eq)]
pub struct Config<L>(pub L);

/// Elects as the elector inside.
#[derive(Clone, Copy, Debug, PartialEq, Eq)]
pub struct Elector<E> {
    /// The elector inside.
    pub inner: E,
}

impl<L: InnerConfig> InnerConfig for Config<L> {
    type Elector = Elector<L::Elector>;

    ghost can_build = { λ config. L.can_build config.0 };

    ghost leader = { λ config. L.leader config.0 };

    ghost cuts = { λ config. L.cuts config.0 };

    fn build(self, n: u32) -> Elector<L::Elector> {
        Elector {
            inner: self.0.build(n),
        }
    }
}

impl<E: Inner> Inner for Elector<E> {
    ghost built_for = { λ elector. E.built_for elector.inner };

    ghost elects = { λ elector. E.elects elector.inner };

    ghost cuts = { λ elector. E.cuts elector.inner };

    ghost leader_is_below = { λ elector. E.leader_is_below elector.inner };

    fn terms(&self) -> Terms {
        self.inner.terms()
    }

    fn elect(&self, round: Round) -> Participant {
        self.inner.elect(round)
    }
}

impl<E: Keep> Keep for Elector<E> {
    fn keep(&self, alloc: Global) -> Result<Elector<E>, AllocError> {
        Ok(Elector {
            inner: self.inner.keep(alloc)?,
        })
    }
}
