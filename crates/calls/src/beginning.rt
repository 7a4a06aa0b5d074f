//! [`Beginning`]: the contents from which a store with one owner is opened.
use crate::input::Input;
use crate::{said, versions};
use std::alloc::{AllocError, Global};
use uc_bytes::Write;
use uc_version_state::Options;

/// The beginning of a store: a log, the writes that follow it, and the store's snapshots.
pub(crate) struct Beginning<'a> {
    pub(crate) way: u64,
    pub(crate) options: Options,
    pub(crate) keeps: Vec<u64>,
    pub(crate) log: &'a [u8],
    pub(crate) writes: Vec<Write>,
}

impl<'a> Drop for Beginning<'a> {
    fn drop(self) {
        let Beginning {
            way: _,
            options: _,
            keeps: _,
            log: _,
            writes: _,
        } = self;
    }
}

impl<'a> Beginning<'a> {
    /// Returns the options, snapshots and writes of a store without a log.
    pub(crate) fn into_parts(self) -> (Options, Vec<u64>, Vec<Write>) {
        let Beginning {
            way: _,
            options,
            keeps,
            log: _,
            writes,
        } = self;
        (options, keeps, writes)
    }
}

/// Reads a way, options, snapshots, a log, and writes. Way 0 has no log. Otherwise the log is read by one thread (5), or threads flush its
/// last memtables (1) or its first (2), or it comes in pieces (3), or as the store's first writes (4).
pub(crate) fn given<'a>(alloc: Global, call: &mut Input<'a>) -> Result<Beginning<'a>, AllocError> {
    Ok(Beginning {
        way: call.number(),
        options: versions::options(call),
        keeps: call.numbers(alloc)?,
        log: call.bytes(),
        writes: said::list::<Write>(alloc, call)?,
    })
}
