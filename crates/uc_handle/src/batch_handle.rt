//! [`BatchHandle`]: a batch that C holds.
ghost use Rattle.std.specs.Coded.{coded_option};
ghost use Rattle.std.specs.Prelude.{◌≡◌, Option, Some, None, option_map};
ghost use Rattle.uc_batch.specs.contracts.WriteBatch.{the_row};
ghost use Rattle.uc_handle.specs.Address.{address_owns};

use crate::loose::Loose;
use std::alloc::Global;
use std::marker::{Model, Send};
use std::mem::replace;
use std::ptr::null_mut;
use uc_batch::WriteBatch;

/// A batch that C holds: its address, which is null if there is none. It is as a [`Handle`](crate::handle::Handle).
#[repr(C)]
pub struct BatchHandle {
    at: *mut u8,
    alloc: Global,
    pub ghost held: { Option the_row.Denot } by { coded_option the_row.coded },
}

impl Model for BatchHandle {
    ghost also_owns = { λ h. address_owns the_row h.alloc h.at h.held };
}

// Any thread may free the memory of a batch, so a handle may go to another.
unsafe impl Send for BatchHandle {}

impl BatchHandle {
    /// A handle of no batch.
    pub fn empty(alloc: Global) -> BatchHandle
        ensures { result.held ≡ None }
    {
        BatchHandle {
            at: null_mut(),
            alloc,
        }
    }

    /// A handle of the box.
    pub fn of(batch: Box<WriteBatch>) -> BatchHandle
        ensures { result.held ≡ Some batch.value }
    {
        BatchHandle::from_loose(Loose::of(batch))
    }

    /// The box, if there is one.
    pub fn into_box(self) -> Option<Box<WriteBatch>>
        ensures { option_map (λ b. b.value) result ≡ self.held }
    {
        match self.into_loose() {
            None => None,
            Some(loose) => Some(loose.into_box()),
        }
    }

    /// Takes the box out, and leaves a handle of no batch.
    pub fn take(&mut self, alloc: Global) -> Option<Box<WriteBatch>>
        ensures result { option_map (λ b. b.value) result ≡ self.old.held }
        ensures left { self.new.held ≡ None }
    {
        replace(self, BatchHandle::empty(alloc)).into_box()
    }

    /// Puts a box into a handle of no batch.
    pub fn put(&mut self, batch: Box<WriteBatch>)
        requires { self.old.held ≡ None }
        ensures { self.new.held ≡ Some batch.value }
    {
        match replace(self, BatchHandle::of(batch)).into_box() {
            None => {}
            Some(_) => unreachable!(),
        }
    }

    /// The address of a box that is taken apart.
    fn from_loose(loose: Loose<WriteBatch, Global>) -> BatchHandle
        ensures { result.held ≡ Some loose.value }
    {
        let Loose { at, alloc } = loose;
        BatchHandle {
            at: at.cast::<u8>(),
            alloc,
        }
    }

    /// A box that is taken apart, of the address.
    fn into_loose(self) -> Option<Loose<WriteBatch, Global>>
        ensures { option_map (λ l. l.value) result ≡ self.held }
    {
        let BatchHandle { at, alloc } = self;
        if at == null_mut() {
            return None;
        }
        Some(Loose {
            at: at.cast::<WriteBatch>(),
            alloc,
        })
    }
}
