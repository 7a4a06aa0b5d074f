//! [`Handle`]: an engine that C holds.
ghost use Rattle.std.specs.Coded.{coded_option};
ghost use Rattle.std.specs.Prelude.{◌≡◌, Option, Some, None, option_map};
ghost use Rattle.uc_engine.specs.contracts.Engine.{the_row};
ghost use Rattle.uc_handle.specs.Address.{address_owns};

use crate::loose::Loose;
use std::alloc::Global;
use std::marker::{Model, Send};
use std::mem::replace;
use std::ptr::null_mut;
use uc_engine::Engine;

/// An engine that C holds: its address, which is null if there is none.
///
/// A contract sees the engine as `held`. C makes a handle of zeros, passes its address to each export, and neither
/// changes nor copies what is in it.
#[repr(C)]
pub struct Handle {
    at: *mut u8,
    alloc: Global,
    pub ghost held: { Option the_row.Denot } by { coded_option the_row.coded },
}

impl Model for Handle {
    ghost also_owns = { λ h. address_owns the_row h.alloc h.at h.held };
}

// Any thread may free the memory of an engine, so a handle may go to another.
unsafe impl Send for Handle {}

impl Handle {
    /// A handle of no engine.
    pub fn empty(alloc: Global) -> Handle
        ensures { result.held ≡ None }
    {
        Handle {
            at: null_mut(),
            alloc,
        }
    }

    /// A handle of the box.
    pub fn of(engine: Box<Engine>) -> Handle
        ensures { result.held ≡ Some engine.value }
    {
        Handle::from_loose(Loose::of(engine))
    }

    /// The box, if there is one.
    pub fn into_box(self) -> Option<Box<Engine>>
        ensures { option_map (λ b. b.value) result ≡ self.held }
    {
        match self.into_loose() {
            None => None,
            Some(loose) => Some(loose.into_box()),
        }
    }

    /// Takes the box out, and leaves a handle of no engine.
    pub fn take(&mut self, alloc: Global) -> Option<Box<Engine>>
        ensures result { option_map (λ b. b.value) result ≡ self.old.held }
        ensures left { self.new.held ≡ None }
    {
        replace(self, Handle::empty(alloc)).into_box()
    }

    /// Puts a box into a handle of no engine.
    pub fn put(&mut self, engine: Box<Engine>)
        requires { self.old.held ≡ None }
        ensures { self.new.held ≡ Some engine.value }
    {
        match replace(self, Handle::of(engine)).into_box() {
            None => {}
            Some(_) => unreachable!(),
        }
    }

    /// The address of a box that is taken apart.
    fn from_loose(loose: Loose<Engine, Global>) -> Handle
        ensures { result.held ≡ Some loose.value }
    {
        let Loose { at, alloc } = loose;
        Handle {
            at: at.cast::<u8>(),
            alloc,
        }
    }

    /// A box that is taken apart, of the address.
    fn into_loose(self) -> Option<Loose<Engine, Global>>
        ensures { option_map (λ l. l.value) result ≡ self.held }
    {
        let Handle { at, alloc } = self;
        if at == null_mut() {
            return None;
        }
        Some(Loose {
            at: at.cast::<Engine>(),
            alloc,
        })
    }
}
