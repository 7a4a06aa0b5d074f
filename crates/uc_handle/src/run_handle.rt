//! [`RunHandle`]: the bytes of a run that C holds.
ghost use Rattle.std.specs.Coded.{coded_option};
ghost use Rattle.std.specs.Prelude.{◌≡◌, Option, Some, None, option_map};
ghost use Rattle.uc_run_file.specs.contracts.RunBytes.{the_row};
ghost use Rattle.uc_handle.specs.Address.{address_owns};

use crate::loose::Loose;
use std::alloc::Global;
use std::marker::{Model, Send};
use std::mem::replace;
use std::ptr::null_mut;
use uc_run_file::RunBytes;

/// The bytes of a run that C holds: its address, which is null if there is none. It is as a [`Handle`](crate::handle::Handle).
#[repr(C)]
pub struct RunHandle {
    at: *mut u8,
    alloc: Global,
    pub ghost held: { Option the_row.Denot } by { coded_option the_row.coded },
}

impl Model for RunHandle {
    ghost also_owns = { λ h. address_owns the_row h.alloc h.at h.held };
}

// Any thread may free the memory of a run, so a handle may go to another.
unsafe impl Send for RunHandle {}

impl RunHandle {
    /// A handle of no run.
    pub fn empty(alloc: Global) -> RunHandle
        ensures { result.held ≡ None }
    {
        RunHandle {
            at: null_mut(),
            alloc,
        }
    }

    /// A handle of the box.
    pub fn of(run: Box<RunBytes>) -> RunHandle
        ensures { result.held ≡ Some run.value }
    {
        RunHandle::from_loose(Loose::of(run))
    }

    /// The box, if there is one.
    pub fn into_box(self) -> Option<Box<RunBytes>>
        ensures { option_map (λ b. b.value) result ≡ self.held }
    {
        match self.into_loose() {
            None => None,
            Some(loose) => Some(loose.into_box()),
        }
    }

    /// Takes the box out, and leaves a handle of no run.
    pub fn take(&mut self, alloc: Global) -> Option<Box<RunBytes>>
        ensures result { option_map (λ b. b.value) result ≡ self.old.held }
        ensures left { self.new.held ≡ None }
    {
        replace(self, RunHandle::empty(alloc)).into_box()
    }

    /// Puts a box into a handle of no run.
    pub fn put(&mut self, run: Box<RunBytes>)
        requires { self.old.held ≡ None }
        ensures { self.new.held ≡ Some run.value }
    {
        match replace(self, RunHandle::of(run)).into_box() {
            None => {}
            Some(_) => unreachable!(),
        }
    }

    /// The address of a box that is taken apart.
    fn from_loose(loose: Loose<RunBytes, Global>) -> RunHandle
        ensures { result.held ≡ Some loose.value }
    {
        let Loose { at, alloc } = loose;
        RunHandle {
            at: at.cast::<u8>(),
            alloc,
        }
    }

    /// A box that is taken apart, of the address.
    fn into_loose(self) -> Option<Loose<RunBytes, Global>>
        ensures { option_map (λ l. l.value) result ≡ self.held }
    {
        let RunHandle { at, alloc } = self;
        if at == null_mut() {
            return None;
        }
        Some(Loose {
            at: at.cast::<RunBytes>(),
            alloc,
        })
    }
}
