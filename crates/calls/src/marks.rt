//! Marks for a preloaded library: requests for memory of sizes that no other code requests.
use std::alloc::Global;

/// Size of the mark that ends a call. This size plus N begins a call in which request N is refused.
const MARK: usize = 1 << 46;

/// Allocates `size` bytes.
#[inline(never)]
fn asked(alloc: Global, size: usize) -> Option<Vec<u8>> {
    Vec::with_capacity(alloc, size).ok()
}

/// Allocates and frees `size` bytes. Another function allocates them, since the compiler could remove an allocation that the same function
/// frees.
#[inline(never)]
fn mark(alloc: Global, size: usize) {
    let _asked = asked(alloc, size);
}

/// Begins a call in which the request for memory with this number, from 1 on, is refused.
pub(crate) fn begin(alloc: Global, request: usize) {
    mark(alloc, MARK.saturating_add(request));
}

/// Ends the call.
pub(crate) fn end(alloc: Global) {
    mark(alloc, MARK);
}
