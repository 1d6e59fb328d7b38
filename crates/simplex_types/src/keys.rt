//! The keys of members, made once.
ghost use Rattle.std.specs.Prelude.{◌≡◌, ◌<◌, ℕ, List, IfOk, Some, slice_get, length};
ghost use Rattle.std.specs.Str.{bytes_eq};
ghost use Rattle.simplex_types.specs.Keyed.{key_of, keys_of, signature_of};

use crate::hashing::absorb_subject;
use sha2::{Digest as Hash, Sha256};
use simplex_values::{Keep, Subject};
use std::alloc::{AllocError, Global};
use std::marker::Model;

/// The keys of the first members. Contracts see the list.
#[derive(Debug, Drop)]
pub(crate) struct Keys {
    keys: Vec<[u8; 32]>,
}

impl Model for Keys {
    ghost use Rattle.std.specs.Prelude.{ℕ, List};

    ghost Value = { List (List ℕ) };

    ghost view = { λ k. k.keys.items };
}

/// The member's key.
#[tactic(auto, unfolding(crate::specs::Keyed::key_of))]
pub(crate) fn key(base: u64, member: u32) -> [u8; 32]
    ensures { result ≡ key_of base member }
{
    let mut hasher = Sha256::new();
    hasher.update(b"key");
    hasher.update(base.to_be_bytes());
    hasher.update(member.to_be_bytes());
    hasher.finalize()
}

/// Whether the two are the same 32 bytes.
pub(crate) fn is_same(a: &[u8; 32], b: &[u8; 32]) -> bool
    ensures { result ≡ bytes_eq a.now b.now }
{
    a.as_slice() == b.as_slice()
}

impl Keys {
    /// The keys of the first `n` members.
    #[tactic(auto, using(crate::proofs::KeyLists::keys_none, crate::proofs::KeyLists::keys_more))]
    pub(crate) fn new(alloc: Global, base: u64, n: u32) -> Result<Keys, AllocError>
        ensures { IfOk result (λ keys. keys ≡ keys_of base n) }
    {
        let mut keys = Vec::new(alloc);
        for member in 0..n {
            keys.push(key(base, member))?;
        }
        Ok(Keys { keys })
    }

    /// The member's key.
    fn get(&self, member: u32) -> [u8; 32]
        requires { member < length self.now }
        ensures { slice_get self.now member ≡ Some result }
    {
        self.keys[member as usize]
    }

    /// The member's signature on the subject.
    #[tactic(auto, unfolding(crate::specs::Keyed::signature_of))]
    pub(crate) fn signature(&self, member: u32, subject: &Subject) -> [u8; 32]
        requires { member < length self.now }
        ensures { (base n : ℕ) → self.now ≡ keys_of base n → member < n
            → result ≡ signature_of base member subject.now }
    {
        let mut hasher = Sha256::new();
        hasher.update(self.get(member));
        hasher.update(b"simplex");
        absorb_subject(&mut hasher, subject);
        hasher.finalize()
    }
}

impl Keep for Keys {
    fn keep(&self, alloc: Global) -> Result<Keys, AllocError> {
        Ok(Keys {
            keys: Vec::from_slice(alloc, &self.keys)?,
        })
    }
}
