//! [`ValueRef`]: a value that may be borrowed.
ghost use Rattle.std.specs.Prelude.{◌≡◌, IfOk};
ghost use Rattle.uc_oper.specs.LentValue.{text_of};

use std::alloc::{AllocError, Global};
use std::marker::Model;
use uc_bytes::Bytes;

/// Where a value lies.
#[derive(Drop)]
enum Place<'a> {
    /// Where it was written.
    Lent(&'a [u8]),
    /// In memory of its own.
    Own(Bytes),
}

/// A value that may still lie where it was written. A contract sees its bytes.
#[derive(Drop)]
pub struct ValueRef<'a> {
    place: Place<'a>,
}

impl<'a> Model for ValueRef<'a> {
    ghost use Rattle.std.specs.Prelude.{List, ℕ};
    ghost use Rattle.uc_oper.specs.LentValue.{text_of};

    ghost Value = { List ℕ };

    ghost view = { λ v. text_of v.place };
}

impl<'a> ValueRef<'a> {
    /// A value that stays where it is.
    #[inline]
    pub fn lent(value: &'a [u8]) -> ValueRef<'a>
        ensures { result ≡ value.now }
    {
        ValueRef {
            place: Place::Lent(value),
        }
    }

    /// A value in memory of its own.
    #[inline]
    pub fn own(value: Bytes) -> ValueRef<'a>
        ensures { result ≡ value }
    {
        ValueRef {
            place: Place::Own(value),
        }
    }

    /// Its bytes.
    #[inline]
    pub fn as_slice(&self) -> &[u8]
        ensures { result.now ≡ self.now }
    {
        match &self.place {
            Place::Lent(value) => value,
            Place::Own(value) => value.as_slice(),
        }
    }

    /// The value in its own memory: a copy, if it is borrowed.
    #[inline]
    pub fn into_bytes(self, alloc: Global) -> Result<Bytes, AllocError>
        ensures { IfOk result (λ value. value ≡ self.entry) }
    {
        match self.place {
            Place::Lent(value) => Bytes::from_slice(alloc, value),
            Place::Own(value) => Ok(value),
        }
    }
}

/// A value, if there is one, in its own memory: a copy, if it is borrowed.
pub fn owned_value(alloc: Global, value: Option<ValueRef<'_>>) -> Result<Option<Bytes>, AllocError>
    ensures { IfOk result (λ owned. owned ≡ value.entry) }
{
    match value {
        Some(value) => Ok(Some(value.into_bytes(alloc)?)),
        None => Ok(None),
    }
}
