//! Views that C holds: the contents of a store at one point in time.
ghost use Rattle.std.specs.Prelude.{◌≡◌, ◌⊎◌, None, Some, IsOkAnd};
ghost use Rattle.uc_live.specs.Views as views;
ghost use Rattle.uc_engine.specs.EngineViews.{viewed_in};
ghost use Rattle.uc_c.specs.declared.status.TheConstants.{OK, OUT_OF_MEMORY, NO_STORE, NO_VIEW};
ghost use Rattle.uc_c.specs.Replies.{Closes, IsRead};
ghost use Rattle.uc_c.specs.Views.{PutsTaken};

use crate::status::{HAS_VIEW, NO_STORE, NO_VIEW, OK, OUT_OF_MEMORY};
use std::alloc::{AllocError, Global};
use uc_engine::EngineView;
use uc_handle::{Handle, ViewHandle};

/// Puts a view of the store's present contents into its handle. It doesn't show a prepared batch. Fails if the handle has a view,
/// or if allocation fails.
#[unsafe(no_mangle)]
pub extern "C" fn ucstore_view(alloc: Global, handle: &mut Handle, view: &mut ViewHandle) -> i32
    ensures puts { PutsTaken NO_STORE viewed_in handle.old.held result view.old.held view.new.held }
    ensures stays { handle.new.held ≡ handle.old.held }
{
    if let Some(held) = view.take(alloc) {
        view.put(held);
        return HAS_VIEW;
    }
    let Some(mut engine) = handle.take(alloc) else {
        return NO_STORE;
    };
    let taken = engine.view(alloc);
    handle.put(engine);
    hold(alloc, view, taken)
}

/// Puts the view into another handle too, for another thread. Fails if that handle has a view, or if allocation fails.
#[unsafe(no_mangle)]
pub extern "C" fn ucstore_view_again(
    alloc: Global,
    view: &mut ViewHandle,
    again: &mut ViewHandle,
) -> i32
    ensures puts { PutsTaken NO_VIEW (λ v. v) view.old.held result again.old.held again.new.held }
    ensures stays { view.new.held ≡ view.old.held }
{
    if let Some(held) = again.take(alloc) {
        again.put(held);
        return HAS_VIEW;
    }
    let Some(held) = view.take(alloc) else {
        return NO_VIEW;
    };
    let taken = held.again();
    view.put(held);
    hold(alloc, again, taken)
}

/// Puts a view that was taken into a handle of none.
fn hold(alloc: Global, view: &mut ViewHandle, taken: Result<EngineView, AllocError>) -> i32
    requires { view.old.held ≡ None }
    ensures { ((result ≡ OK) × IsOkAnd taken (λ v. view.new.held ≡ Some v))
        ⊎ ((result ≡ OUT_OF_MEMORY) × (view.new.held ≡ None)) }
{
    let Ok(taken) = taken else {
        return OUT_OF_MEMORY;
    };
    match Box::new(alloc, taken) {
        Ok(held) => {
            view.put(held);
            OK
        }
        Err(_) => OUT_OF_MEMORY,
    }
}

/// The last sequence that the view shows; 0 if nothing was written.
#[unsafe(no_mangle)]
pub extern "C" fn ucstore_view_last(alloc: Global, view: &mut ViewHandle, seq: &mut u64) -> i32
    ensures last { IsRead NO_VIEW result view.old.held view.new.held (λ v.
        (result ≡ OK) × (seq.new ≡ views.last v.seen)) }
    ensures untold { (result ≡ OK) ⊎ (seq.new ≡ seq.old) }
{
    let Some(held) = view.take(alloc) else {
        return NO_VIEW;
    };
    let last = held.last();
    view.put(held);
    *seq = last;
    OK
}

/// Frees the view of the handle, if there is one. Other handles of it keep it.
#[unsafe(no_mangle)]
pub extern "C" fn ucstore_view_close(alloc: Global, view: &mut ViewHandle) -> i32
    ensures { Closes NO_VIEW result view.old.held view.new.held }
{
    match view.take(alloc) {
        None => NO_VIEW,
        Some(_) => OK,
    }
}
