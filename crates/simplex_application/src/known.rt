//! Contents by their payloads.
#![tactic(auto, unfolding(crate::specs::Contents::contents_in, crate::specs::Contents::with_contents, crate::specs::Contents::without))]

ghost use Rattle.std.specs.Prelude.{◌≡◌, [], IfOk, OnOk, is_some};
ghost use Rattle.std.specs.Option.{option_copied};
ghost use Rattle.simplex_application.specs.Contents.{contents_in, with_contents, without};

use simplex_types::{Bytes, Digest, Keep};
use std::alloc::{AllocError, Global};
use std::collections::BTreeMap;
use std::marker::Model;

/// The contents of each payload that is known.
#[derive(Debug, Drop)]
pub(crate) struct Known {
    contents: BTreeMap<[u8; 32], Bytes>,
}

impl Model for Known {
    ghost use Rattle.simplex_application.specs.Contents.{Contents};

    ghost Value = { Contents };

    ghost view = { λ known. known.contents.entries };
}

impl Known {
    /// No payload is known.
    pub(crate) fn new(alloc: Global) -> Known
        ensures { result ≡ [] }
    {
        Known {
            contents: BTreeMap::new(alloc),
        }
    }

    /// Keeps the contents in place of others of this payload.
    pub(crate) fn insert(&mut self, payload: Digest, contents: Bytes) -> Result<(), AllocError>
        ensures { OnOk result (self.new ≡ with_contents self.old payload contents) }
    {
        self.contents.insert(payload.0, contents)?;
        Ok(())
    }

    /// Whether contents of the payload are known.
    pub(crate) fn contains(&self, payload: &Digest) -> bool
        ensures { result ≡ is_some (contents_in self.now payload.now) }
    {
        self.contents.contains_key(&payload.0)
    }

    /// A copy of the contents of the payload.
    pub(crate) fn copy(&self, alloc: Global, payload: &Digest) -> Result<Option<Bytes>, AllocError>
        ensures { IfOk result (λ contents. contents ≡ contents_in self.now payload.now) }
    {
        match self.get(payload) {
            None => Ok(None),
            Some(contents) => Ok(Some(contents.keep(alloc)?)),
        }
    }

    /// The contents of the payload.
    pub(crate) fn get(&self, payload: &Digest) -> Option<&Bytes>
        ensures { option_copied result ≡ contents_in self.now payload.now }
    {
        self.contents.get(&payload.0)
    }

    /// Takes the contents of the payload out.
    pub(crate) fn remove(&mut self, payload: &Digest) -> Option<Bytes>
        ensures contents { result ≡ contents_in self.old payload.now }
        ensures others { self.new ≡ without self.old payload.now }
    {
        self.contents.remove(&payload.0)
    }
}
