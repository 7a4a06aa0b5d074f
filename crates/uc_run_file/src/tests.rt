//! Runs written and read, and damaged by hand.
use crate::{FragmentsError, RunBytes, read_fragments, read_run};
use std::alloc::Global;
use std::sync::Arc;
use std::test::Fail;
use uc_bytes::Bytes;
use uc_run::Run;
use uc_run_entry::{Entry, Fragment, Seqs, What, is_run};

/// A fragment from `a` to below `c`, with the sequences 7 and 3.
const FRAGMENT: [u8; 7] = [1, b'a', 1, b'c', 2, 7, 3];

/// Whether the fragment is read from its bytes.
fn is_read(alloc: Global) -> Result<bool, Fail> {
    match read_fragments(alloc, &FRAGMENT) {
        Ok(fragments) => match fragments.as_slice() {
            [fragment] => Ok(
                fragment.begin() == b"a".as_slice()
                    && fragment.seqs().to_vec(alloc)?.as_slice() == [7, 3].as_slice(),
            ),
            _ => Ok(false),
        },
        Err(_) => Ok(false),
    }
}

/// Whether a fragment without its last byte is a fault at its start.
fn is_fault(alloc: Global) -> bool {
    match read_fragments(alloc, &FRAGMENT[..6]) {
        Err(FragmentsError::Fault(offset)) => offset == 0,
        _ => false,
    }
}

#[test]
fn fragments_are_read(rt: HostRuntime) -> Result<(), Fail> {
    let alloc = rt.alloc();
    let read = is_read(alloc)?;
    let fault = is_fault(alloc);
    assert!(rt; read && fault);
    Ok(())
}

/// A put, a merge and a delete, in order of key.
fn entries_of(alloc: Global) -> Result<Vec<Entry>, Fail> {
    let put = What::Put(Bytes::from_slice(alloc, b"one")?);
    let merge = What::Merge(Bytes::from_slice(alloc, b"two")?);
    let mut entries = Vec::new(alloc);
    entries.push(Entry {
        key: Bytes::from_slice(alloc, b"a")?,
        seq: 900,
        what: put,
    })?;
    entries.push(Entry {
        key: Bytes::from_slice(alloc, b"b")?,
        seq: 4,
        what: merge,
    })?;
    entries.push(Entry {
        key: Bytes::from_slice(alloc, b"b")?,
        seq: 2,
        what: What::Delete,
    })?;
    Ok(entries)
}

/// A fragment over `a`.
fn fragments_of(alloc: Global) -> Result<Vec<Fragment>, Fail> {
    let mut fragments = Vec::new(alloc);
    let seqs = Seqs::alone(alloc, &[7, 3])?;
    fragments.push(Fragment::alone(alloc, b"a", b"b", seqs)?)?;
    Ok(fragments)
}

/// A run of three points and a fragment.
fn run_of(alloc: Global) -> Result<Option<Arc<Run>>, Fail> {
    let entries = entries_of(alloc)?;
    let fragments = fragments_of(alloc)?;
    if !is_run(2, 900, &entries, &fragments) {
        return Ok(None);
    }
    let run = Run::build(alloc, 2, 900, entries, fragments)?;
    Ok(Some(Arc::new(alloc, run)?))
}

/// The bytes of a run's file, seven at a time.
fn file_of(alloc: Global, run: &Arc<Run>) -> Result<Vec<u8>, Fail> {
    let bytes = RunBytes::new(alloc, run)?;
    let mut file = Vec::new(alloc);
    let mut piece = [0; 7];
    for _ in 0..99 {
        let count = bytes.copy_to(file.len(), &mut piece);
        file.extend_from_slice(piece.get(..count).unwrap_or(&[]))?;
    }
    Ok(file)
}

/// Whether a file is read as the run.
fn is_file_of(alloc: Global, file: Vec<u8>, run: &Run) -> bool {
    match read_run(alloc, file) {
        Ok(read) => read.same(run),
        Err(_) => false,
    }
}

/// Whether a file with one byte changed is refused.
fn is_refused(alloc: Global, file: &[u8], place: usize) -> Result<bool, Fail> {
    let mut damaged = file.to_vec(alloc)?;
    if let Some(byte) = damaged.get_mut(place) {
        *byte = !*byte;
    }
    Ok(read_run(alloc, damaged).is_err())
}

/// Whether a file is refused with any one of its bytes changed.
fn are_all_refused(alloc: Global, file: &[u8]) -> Result<bool, Fail> {
    for place in 0..file.len() {
        if !is_refused(alloc, file, place)? {
            return Ok(false);
        }
    }
    Ok(true)
}

/// Whether the run's file is read as the run, and each damaged byte is found.
fn is_sound(alloc: Global, run: &Arc<Run>) -> Result<bool, Fail> {
    let file = file_of(alloc, run)?;
    let refused = are_all_refused(alloc, &file)?;
    Ok(refused && is_file_of(alloc, file, run))
}

#[test]
fn runs_are_read_and_damage_is_found(rt: HostRuntime) -> Result<(), Fail> {
    let alloc = rt.alloc();
    let sound = match run_of(alloc)? {
        Some(run) => is_sound(alloc, &run)?,
        None => false,
    };
    assert!(rt; sound);
    Ok(())
}
