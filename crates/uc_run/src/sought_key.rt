//! [`SoughtKey`]: a key that is looked up, with its hash.
ghost use Rattle.std.specs.Prelude.{◌≡◌};
ghost use Rattle.uc_run.specs.KeyHash.{key_hash as hash_of};

use crate::hashing::key_hash;
use std::marker::Model;

/// A key that is looked up in several places: its hash is computed once for all of them. A contract sees it as the key.
#[derive(Drop)]
pub struct SoughtKey<'a> {
    key: &'a [u8],
    /// The key's hash.
    hash: u64,
}

impl<'a> Model for SoughtKey<'a> {
    ghost use Rattle.std.specs.Prelude.{List, ℕ, ◌≡◌};
    ghost use Rattle.uc_run.specs.KeyHash.{key_hash};

    ghost Value = { List ℕ };

    ghost view = { λ s. s.key.now };

    ghost invariant = { λ s. s.hash ≡ key_hash s.key.now };
}

impl<'a> SoughtKey<'a> {
    /// A key, which it hashes.
    #[inline]
    pub fn new(key: &'a [u8]) -> SoughtKey<'a>
        ensures { result ≡ key.now }
    {
        let hash = key_hash(key);
        SoughtKey { key, hash }
    }

    /// The key.
    #[inline]
    pub fn key(&self) -> &'a [u8]
        ensures { result.now ≡ self.now }
    {
        self.key
    }

    /// The hash of the key, as [`key_hash`] gives it.
    #[inline]
    pub fn hash(&self) -> u64
        ensures { result ≡ hash_of self.now }
    {
        self.hash
    }
}
