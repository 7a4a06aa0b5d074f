//! Runs with given points and fragments.
use crate::input::Input;
use crate::out::Halt;
use crate::said::{self, Spelled};
use std::alloc::{AllocError, Global};
use uc_bytes::Bytes;
use uc_run::Run;
use uc_run_entry::{Entry, Fragment, Seqs, is_run};

impl Spelled for Entry {
    /// Reads a point: its sequence number, kind, key, and value or operand.
    fn read(alloc: Global, call: &mut Input<'_>) -> Result<Entry, AllocError> {
        let (seq, kind) = (call.number(), call.number());
        let key = Bytes::from_slice(alloc, call.bytes())?;
        let what = said::what(kind, call.bytes()).to_what(alloc)?;
        Ok(Entry { key, seq, what })
    }
}

impl Spelled for Fragment {
    /// Reads a fragment: its sequence numbers and ends.
    fn read(alloc: Global, call: &mut Input<'_>) -> Result<Fragment, AllocError> {
        let seqs = Seqs::alone(alloc, &call.numbers(alloc)?)?;
        Fragment::alone(alloc, call.bytes(), call.bytes(), seqs)
    }
}

/// Reads the range of a run's sequence numbers, its points and its fragments. Returns the run, if they make one.
pub(crate) fn built(alloc: Global, call: &mut Input<'_>) -> Result<Run, Halt> {
    let (low, high) = (call.number(), call.number());
    let points = said::list::<Entry>(alloc, call)?;
    let fragments = said::list::<Fragment>(alloc, call)?;
    if is_run(low, high, &points, &fragments) {
        Ok(Run::build(alloc, low, high, points, fragments)?)
    } else {
        Err(Halt::Refused)
    }
}
