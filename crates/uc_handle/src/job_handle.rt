//! [`JobHandle`]: a job that C holds.
ghost use Rattle.std.specs.Coded.{coded_option};
ghost use Rattle.std.specs.Prelude.{◌≡◌, Option, Some, None, option_map};
ghost use Rattle.uc_engine.specs.contracts.StoreJob.{the_row};
ghost use Rattle.uc_handle.specs.Address.{address_owns};

use crate::loose::Loose;
use std::alloc::Global;
use std::marker::{Model, Send};
use std::mem::replace;
use std::ptr::null_mut;
use uc_engine::StoreJob;

/// A job that C holds: its address, which is null if there is none. It is as a [`Handle`](crate::handle::Handle).
#[repr(C)]
pub struct JobHandle {
    at: *mut u8,
    alloc: Global,
    pub ghost held: { Option the_row.Denot } by { coded_option the_row.coded },
}

impl Model for JobHandle {
    ghost also_owns = { λ h. address_owns the_row h.alloc h.at h.held };
}

// Any thread may free the memory of a job, so a handle may go to another.
unsafe impl Send for JobHandle {}

impl JobHandle {
    /// A handle of no job.
    pub fn empty(alloc: Global) -> JobHandle
        ensures { result.held ≡ None }
    {
        JobHandle {
            at: null_mut(),
            alloc,
        }
    }

    /// A handle of the box.
    pub fn of(job: Box<StoreJob>) -> JobHandle
        ensures { result.held ≡ Some job.value }
    {
        JobHandle::from_loose(Loose::of(job))
    }

    /// The box, if there is one.
    pub fn into_box(self) -> Option<Box<StoreJob>>
        ensures { option_map (λ b. b.value) result ≡ self.held }
    {
        match self.into_loose() {
            None => None,
            Some(loose) => Some(loose.into_box()),
        }
    }

    /// Takes the box out, and leaves a handle of no job.
    pub fn take(&mut self, alloc: Global) -> Option<Box<StoreJob>>
        ensures result { option_map (λ b. b.value) result ≡ self.old.held }
        ensures left { self.new.held ≡ None }
    {
        replace(self, JobHandle::empty(alloc)).into_box()
    }

    /// Puts a box into a handle of no job.
    pub fn put(&mut self, job: Box<StoreJob>)
        requires { self.old.held ≡ None }
        ensures { self.new.held ≡ Some job.value }
    {
        match replace(self, JobHandle::of(job)).into_box() {
            None => {}
            Some(_) => unreachable!(),
        }
    }

    /// The address of a box that is taken apart.
    fn from_loose(loose: Loose<StoreJob, Global>) -> JobHandle
        ensures { result.held ≡ Some loose.value }
    {
        let Loose { at, alloc } = loose;
        JobHandle {
            at: at.cast::<u8>(),
            alloc,
        }
    }

    /// A box that is taken apart, of the address.
    fn into_loose(self) -> Option<Loose<StoreJob, Global>>
        ensures { option_map (λ l. l.value) result ≡ self.held }
    {
        let JobHandle { at, alloc } = self;
        if at == null_mut() {
            return None;
        }
        Some(Loose {
            at: at.cast::<StoreJob>(),
            alloc,
        })
    }
}
