//! [`ViewHandle`]: a view that C holds.
ghost use Rattle.std.specs.Coded.{coded_option};
ghost use Rattle.std.specs.Prelude.{◌≡◌, Option, Some, None, option_map};
ghost use Rattle.uc_engine.specs.contracts.EngineView.{the_row};
ghost use Rattle.uc_handle.specs.Address.{address_owns};

use crate::loose::Loose;
use std::alloc::Global;
use std::marker::{Model, Send};
use std::mem::replace;
use std::ptr::null_mut;
use uc_engine::EngineView;

/// A view that C holds: its address, which is null if there is none. It is as a [`Handle`](crate::handle::Handle).
#[repr(C)]
pub struct ViewHandle {
    at: *mut u8,
    alloc: Global,
    pub ghost held: { Option the_row.Denot } by { coded_option the_row.coded },
}

impl Model for ViewHandle {
    ghost also_owns = { λ h. address_owns the_row h.alloc h.at h.held };
}

// Any thread may free the memory of a view, so a handle may go to another.
unsafe impl Send for ViewHandle {}

impl ViewHandle {
    /// A handle of no view.
    pub fn empty(alloc: Global) -> ViewHandle
        ensures { result.held ≡ None }
    {
        ViewHandle {
            at: null_mut(),
            alloc,
        }
    }

    /// A handle of the box.
    pub fn of(view: Box<EngineView>) -> ViewHandle
        ensures { result.held ≡ Some view.value }
    {
        ViewHandle::from_loose(Loose::of(view))
    }

    /// The box, if there is one.
    pub fn into_box(self) -> Option<Box<EngineView>>
        ensures { option_map (λ b. b.value) result ≡ self.held }
    {
        match self.into_loose() {
            None => None,
            Some(loose) => Some(loose.into_box()),
        }
    }

    /// Takes the box out, and leaves a handle of no view.
    pub fn take(&mut self, alloc: Global) -> Option<Box<EngineView>>
        ensures result { option_map (λ b. b.value) result ≡ self.old.held }
        ensures left { self.new.held ≡ None }
    {
        replace(self, ViewHandle::empty(alloc)).into_box()
    }

    /// Puts a box into a handle of no view.
    pub fn put(&mut self, view: Box<EngineView>)
        requires { self.old.held ≡ None }
        ensures { self.new.held ≡ Some view.value }
    {
        match replace(self, ViewHandle::of(view)).into_box() {
            None => {}
            Some(_) => unreachable!(),
        }
    }

    /// The address of a box that is taken apart.
    fn from_loose(loose: Loose<EngineView, Global>) -> ViewHandle
        ensures { result.held ≡ Some loose.value }
    {
        let Loose { at, alloc } = loose;
        ViewHandle {
            at: at.cast::<u8>(),
            alloc,
        }
    }

    /// A box that is taken apart, of the address.
    fn into_loose(self) -> Option<Loose<EngineView, Global>>
        ensures { option_map (λ l. l.value) result ≡ self.held }
    {
        let ViewHandle { at, alloc } = self;
        if at == null_mut() {
            return None;
        }
        Some(Loose {
            at: at.cast::<EngineView>(),
            alloc,
        })
    }
}
