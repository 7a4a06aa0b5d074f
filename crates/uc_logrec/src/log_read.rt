//! [`LogRead`]: a log's payloads and its ending, read from its bytes at once.
ghost use Rattle.std.specs.Prelude.{◌≡◌, IfOk};
ghost use Rattle.uc_logrec.specs.Log.{payloads_of, ending_of};
ghost use Rattle.uc_logrec.specs.Grammar.{Reads};

use crate::ending::Ending;
use crate::log_reader::{LogReader, Next};
use std::alloc::{AllocError, Global};
use uc_bytes::{Bytes, Items};

/// A list of payloads, in the order of the log.
pub type Payloads = Items<Bytes>;

/// The payloads of a log, and its end.
#[derive(Drop)]
pub struct LogRead {
    /// The complete payloads before the ending.
    pub payloads: Payloads,
    /// The end of the log after them.
    pub ending: Ending,
}

/// Reads a log: its complete payloads, up to where it ends, is torn or has its first fault.
///
/// The bytes are read once, front to back. It allocates only for data that is there, whatever a length field says.
pub fn read_log(alloc: Global, bytes: &[u8]) -> Result<LogRead, AllocError>
    ensures payloads { IfOk result (λ read. read.payloads ≡ payloads_of bytes.now) }
    ensures ending { IfOk result (λ read. read.ending ≡ ending_of bytes.now) }
    // By the grammar of records.
    ensures meaning { IfOk result (λ read. Reads bytes.now read.payloads read.ending) }
{
    let mut payloads = Vec::new(alloc);
    let mut joined = Vec::new(alloc);
    let mut log = LogReader::new(bytes);
    loop {
        let payload = match log.next(&mut joined)? {
            Next::Whole(payload) => payload,
            Next::Joined => joined.as_slice(),
            Next::Ended(ending) => {
                return Ok(LogRead {
                    payloads: Payloads::from(payloads),
                    ending,
                });
            }
        };
        payloads.push(Bytes::from_slice(alloc, payload)?)?;
    }
}
