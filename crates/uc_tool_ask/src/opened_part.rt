//! The part of a log that a store opens from, and the writes that come later.
ghost use Rattle.std.specs.Prelude.{◌≡◌, ◌-◌, IfOk, drop, length};
ghost use Rattle.uc_batch.specs.Log.{log_writes};
ghost use Rattle.uc_batch.specs.Rising.{IsRising};
ghost use Rattle.uc_version_open.specs.Progress.{progress_of};
ghost use Rattle.uc_tool_ask.specs.Ask.{without_last};

use std::alloc::{AllocError, Global};
use std::marker::Sync;
use std::thread::Threads;
use uc_batch::{Pieces, Write};
use uc_version_open::{InThreads, Recovered, count_writes, recover_first, recover_pieces};
use uc_version_state::Options;

/// A store that is being opened from a log without its last writes, how far the log was read, and these writes. If no writes come
/// later, it reads the log once and frees each piece that it has read. Otherwise it joins the pieces and reads the log twice.
pub(crate) fn recover_part(
    rt: &(impl Threads + Sync),
    alloc: Global,
    log: Pieces,
    options: Options,
    later: u64,
) -> Result<(Recovered, Vec<Write>), AllocError>
    ensures opener { IfOk result (λ found.
        found.0.opener ≡ progress_of options (without_last later (log_writes log).list)) }
    ensures ended { IfOk result (λ found. found.0.ended ≡ (log_writes log).ended) }
    ensures rising { IfOk result (λ _. IsRising 0 (without_last later (log_writes log).list)) }
    ensures behind { IfOk result (λ found. let all = (log_writes log).list in
        found.1.items ≡ drop (length all - later) all) }
{
    if later == 0 {
        let recovered = recover_pieces(&InThreads(rt), alloc, log, options)?;
        return Ok((recovered, Vec::new(alloc)));
    }
    let bytes = log.into_vec(alloc)?;
    let counted = count_writes(alloc, &bytes)?;
    let most = counted.count.saturating_sub(later);
    recover_first(&InThreads(rt), alloc, &bytes, options, most)
}
