//! [`open_version`]: a store's first version, from a list of writes.
ghost use Rattle.std.specs.Prelude.{◌≡◌, ◌≢◌, None, Some, IfOk, IfErr};
ghost use Rattle.uc_batch.specs.Rising.{IsRising};
ghost use Rattle.uc_version_state.specs.Openings.{Opening, opened};
ghost use Rattle.uc_version_open.specs.Progress.{progress_of};
ghost use Rattle.uc_version_open.specs.Refusal.{opening_refusal};
ghost use Rattle.uc_version_open.specs.declared.open_error.OpenError.TheVariants.{Memory};

use crate::open_error::OpenError;
use crate::opener::Opener;
use std::alloc::{AllocError, Global};
use uc_batch::Writes;
use uc_bytes::{Write, WriteRef};
use uc_compact::Alone;
use uc_version_state::{Options, Version};

/// A store that is being opened, after these writes.
fn opener_after(alloc: Global, options: Options, writes: &[Write]) -> Result<Opener, AllocError>
    requires { IsRising 0 writes.now }
    ensures { IfOk result (λ opener. opener ≡ progress_of options writes.now) }
{
    let mut opener = Opener::new(alloc, options);
    for write in writes {
        opener.insert(&Alone, alloc, &WriteRef::of(write))?;
    }
    Ok(opener)
}

/// The version that a store with these writes opens with, as [`Opener`] makes it of them.
pub fn open_version(
    alloc: Global,
    writes: &Writes,
    keeps: &[u64],
    options: &Options,
) -> Result<Version, OpenError>
    ensures ok { let opening : Opening = record { writes = writes.now.list; keeps = keeps.now; options = options.now } in
        IfOk result (λ version. (version ≡ opened opening) × (opening_refusal opening ≡ None)) }
    ensures err { let opening : Opening = record { writes = writes.now.list; keeps = keeps.now; options = options.now } in
        IfErr result (λ error. error ≢ Memory → opening_refusal opening ≡ Some error) }
{
    opener_after(alloc, *options, writes.list())?.finish(&Alone, alloc, keeps)
}
