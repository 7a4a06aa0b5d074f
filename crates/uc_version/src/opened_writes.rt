//! [`open_plain`]: a store opened from a list of writes.
ghost use Rattle.std.specs.Prelude.{◌≡◌, ◌≢◌, None, Some, IfOk, IfErr};
ghost use Rattle.uc_version_state.specs.Openings.{Opening, opened};
ghost use Rattle.uc_version_open.specs.Refusal.{opening_refusal};
ghost use Rattle.uc_version_open.specs.declared.open_error.OpenError.TheVariants.{Memory};
ghost use Rattle.uc_version.specs.Owners.{unclaimed};

use crate::owned::Owned;
use std::alloc::Global;
use uc_batch::Writes;
use uc_oper::Operator;
use uc_version_open::{OpenError, open_version};
use uc_version_state::Options;

/// A store of these writes, which keeps these sequences and the last one. Each write is inserted into a memtable, which
/// is flushed to a run as soon as it has `memtable` bytes, and at the end (RocksDB wiki, "MemTable"). An `Err` names
/// the first of these: an option out of its range, a sequence above the last one, more runs than slots.
pub fn open_plain<O: Operator>(
    alloc: Global,
    writes: &Writes,
    keeps: &[u64],
    options: Options,
) -> Result<Owned<O>, OpenError>
    ensures ok { let opening : Opening = record { writes = writes.now.list; keeps = keeps.now; options = options } in
        IfOk result (λ owned. (owned ≡ unclaimed (opened opening) options) × (opening_refusal opening ≡ None)) }
    ensures err { let opening : Opening = record { writes = writes.now.list; keeps = keeps.now; options = options } in
        IfErr result (λ error. error ≢ Memory → opening_refusal opening ≡ Some error) }
{
    let version = open_version(alloc, writes, keeps, &options)?;
    Ok(Owned::new(alloc, version, options)?)
}
