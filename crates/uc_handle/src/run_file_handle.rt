//! [`RunFileHandle`]: the file of a run that C reads piece by piece.
ghost use Rattle.std.specs.Coded.{coded_option};
ghost use Rattle.std.specs.Prelude.{◌≡◌, Option, Some, None, option_map};
ghost use Rattle.uc_run_file.specs.contracts.RunFile.{the_row};
ghost use Rattle.uc_handle.specs.Address.{address_owns};

use crate::loose::Loose;
use std::alloc::Global;
use std::marker::{Model, Send};
use std::mem::replace;
use std::ptr::null_mut;
use uc_run_file::RunFile;

/// The file of a run that C reads piece by piece: its address, which is null if there is none. It is as a [`Handle`](crate::handle::Handle).
#[repr(C)]
pub struct RunFileHandle {
    at: *mut u8,
    alloc: Global,
    pub ghost held: { Option the_row.Denot } by { coded_option the_row.coded },
}

impl Model for RunFileHandle {
    ghost also_owns = { λ h. address_owns the_row h.alloc h.at h.held };
}

// Any thread may free the memory of a file, so a handle may go to another.
unsafe impl Send for RunFileHandle {}

impl RunFileHandle {
    /// A handle of no file.
    pub fn empty(alloc: Global) -> RunFileHandle
        ensures { result.held ≡ None }
    {
        RunFileHandle {
            at: null_mut(),
            alloc,
        }
    }

    /// A handle of the box.
    pub fn of(file: Box<RunFile>) -> RunFileHandle
        ensures { result.held ≡ Some file.value }
    {
        RunFileHandle::from_loose(Loose::of(file))
    }

    /// The box, if there is one.
    pub fn into_box(self) -> Option<Box<RunFile>>
        ensures { option_map (λ b. b.value) result ≡ self.held }
    {
        match self.into_loose() {
            None => None,
            Some(loose) => Some(loose.into_box()),
        }
    }

    /// Takes the box out, and leaves a handle of no file.
    pub fn take(&mut self, alloc: Global) -> Option<Box<RunFile>>
        ensures result { option_map (λ b. b.value) result ≡ self.old.held }
        ensures left { self.new.held ≡ None }
    {
        replace(self, RunFileHandle::empty(alloc)).into_box()
    }

    /// Puts a box into a handle of no file.
    pub fn put(&mut self, file: Box<RunFile>)
        requires { self.old.held ≡ None }
        ensures { self.new.held ≡ Some file.value }
    {
        match replace(self, RunFileHandle::of(file)).into_box() {
            None => {}
            Some(_) => unreachable!(),
        }
    }

    /// The address of a box that is taken apart.
    fn from_loose(loose: Loose<RunFile, Global>) -> RunFileHandle
        ensures { result.held ≡ Some loose.value }
    {
        let Loose { at, alloc } = loose;
        RunFileHandle {
            at: at.cast::<u8>(),
            alloc,
        }
    }

    /// A box that is taken apart, of the address.
    fn into_loose(self) -> Option<Loose<RunFile, Global>>
        ensures { option_map (λ l. l.value) result ≡ self.held }
    {
        let RunFileHandle { at, alloc } = self;
        if at == null_mut() {
            return None;
        }
        Some(Loose {
            at: at.cast::<RunFile>(),
            alloc,
        })
    }
}
