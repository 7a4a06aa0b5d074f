//! [`ReadsHandle`]: the reads of a transaction that C holds.
ghost use Rattle.std.specs.Coded.{coded_option};
ghost use Rattle.std.specs.Prelude.{◌≡◌, Option, Some, None, option_map};
ghost use Rattle.uc_serial.specs.contracts.ReadSet.{the_row};
ghost use Rattle.uc_handle.specs.Address.{address_owns};

use crate::loose::Loose;
use std::alloc::Global;
use std::marker::{Model, Send};
use std::mem::replace;
use std::ptr::null_mut;
use uc_serial::ReadSet;

/// The reads of a transaction that C holds: their address, which is null if there are none. It is as a [`Handle`](crate::handle::Handle).
#[repr(C)]
pub struct ReadsHandle {
    at: *mut u8,
    alloc: Global,
    pub ghost held: { Option the_row.Denot } by { coded_option the_row.coded },
}

impl Model for ReadsHandle {
    ghost also_owns = { λ h. address_owns the_row h.alloc h.at h.held };
}

// Any thread may free the memory of reads, so a handle may go to another.
unsafe impl Send for ReadsHandle {}

impl ReadsHandle {
    /// A handle of no reads.
    pub fn empty(alloc: Global) -> ReadsHandle
        ensures { result.held ≡ None }
    {
        ReadsHandle {
            at: null_mut(),
            alloc,
        }
    }

    /// A handle of the box.
    pub fn of(reads: Box<ReadSet>) -> ReadsHandle
        ensures { result.held ≡ Some reads.value }
    {
        ReadsHandle::from_loose(Loose::of(reads))
    }

    /// The box, if there is one.
    pub fn into_box(self) -> Option<Box<ReadSet>>
        ensures { option_map (λ b. b.value) result ≡ self.held }
    {
        match self.into_loose() {
            None => None,
            Some(loose) => Some(loose.into_box()),
        }
    }

    /// Takes the box out, and leaves a handle of no reads.
    pub fn take(&mut self, alloc: Global) -> Option<Box<ReadSet>>
        ensures result { option_map (λ b. b.value) result ≡ self.old.held }
        ensures left { self.new.held ≡ None }
    {
        replace(self, ReadsHandle::empty(alloc)).into_box()
    }

    /// Puts a box into a handle of no reads.
    pub fn put(&mut self, reads: Box<ReadSet>)
        requires { self.old.held ≡ None }
        ensures { self.new.held ≡ Some reads.value }
    {
        match replace(self, ReadsHandle::of(reads)).into_box() {
            None => {}
            Some(_) => unreachable!(),
        }
    }

    /// The address of a box that is taken apart.
    fn from_loose(loose: Loose<ReadSet, Global>) -> ReadsHandle
        ensures { result.held ≡ Some loose.value }
    {
        let Loose { at, alloc } = loose;
        ReadsHandle {
            at: at.cast::<u8>(),
            alloc,
        }
    }

    /// A box that is taken apart, of the address.
    fn into_loose(self) -> Option<Loose<ReadSet, Global>>
        ensures { option_map (λ l. l.value) result ≡ self.held }
    {
        let ReadsHandle { at, alloc } = self;
        if at == null_mut() {
            return None;
        }
        Some(Loose {
            at: at.cast::<ReadSet>(),
            alloc,
        })
    }
}
