//! [`CheckpointHandle`]: a checkpoint that C holds.
ghost use Rattle.std.specs.Coded.{coded_option};
ghost use Rattle.std.specs.Prelude.{◌≡◌, Option, Some, None, option_map};
ghost use Rattle.uc_engine.specs.contracts.EngineCheckpoint.{the_row};
ghost use Rattle.uc_handle.specs.Address.{address_owns};

use crate::loose::Loose;
use std::alloc::Global;
use std::marker::{Model, Send};
use std::mem::replace;
use std::ptr::null_mut;
use uc_engine::EngineCheckpoint;

/// A checkpoint that C holds: its address, which is null if there is none. It is as a [`Handle`](crate::handle::Handle).
#[repr(C)]
pub struct CheckpointHandle {
    at: *mut u8,
    alloc: Global,
    pub ghost held: { Option the_row.Denot } by { coded_option the_row.coded },
}

impl Model for CheckpointHandle {
    ghost also_owns = { λ h. address_owns the_row h.alloc h.at h.held };
}

// Any thread may free the memory of a checkpoint, so a handle may go to another.
unsafe impl Send for CheckpointHandle {}

impl CheckpointHandle {
    /// A handle of no checkpoint.
    pub fn empty(alloc: Global) -> CheckpointHandle
        ensures { result.held ≡ None }
    {
        CheckpointHandle {
            at: null_mut(),
            alloc,
        }
    }

    /// A handle of the box.
    pub fn of(checkpoint: Box<EngineCheckpoint>) -> CheckpointHandle
        ensures { result.held ≡ Some checkpoint.value }
    {
        CheckpointHandle::from_loose(Loose::of(checkpoint))
    }

    /// The box, if there is one.
    pub fn into_box(self) -> Option<Box<EngineCheckpoint>>
        ensures { option_map (λ b. b.value) result ≡ self.held }
    {
        match self.into_loose() {
            None => None,
            Some(loose) => Some(loose.into_box()),
        }
    }

    /// Takes the box out, and leaves a handle of no checkpoint.
    pub fn take(&mut self, alloc: Global) -> Option<Box<EngineCheckpoint>>
        ensures result { option_map (λ b. b.value) result ≡ self.old.held }
        ensures left { self.new.held ≡ None }
    {
        replace(self, CheckpointHandle::empty(alloc)).into_box()
    }

    /// Puts a box into a handle of no checkpoint.
    pub fn put(&mut self, checkpoint: Box<EngineCheckpoint>)
        requires { self.old.held ≡ None }
        ensures { self.new.held ≡ Some checkpoint.value }
    {
        match replace(self, CheckpointHandle::of(checkpoint)).into_box() {
            None => {}
            Some(_) => unreachable!(),
        }
    }

    /// The address of a box that is taken apart.
    fn from_loose(loose: Loose<EngineCheckpoint, Global>) -> CheckpointHandle
        ensures { result.held ≡ Some loose.value }
    {
        let Loose { at, alloc } = loose;
        CheckpointHandle {
            at: at.cast::<u8>(),
            alloc,
        }
    }

    /// A box that is taken apart, of the address.
    fn into_loose(self) -> Option<Loose<EngineCheckpoint, Global>>
        ensures { option_map (λ l. l.value) result ≡ self.held }
    {
        let CheckpointHandle { at, alloc } = self;
        if at == null_mut() {
            return None;
        }
        Some(Loose {
            at: at.cast::<EngineCheckpoint>(),
            alloc,
        })
    }
}
