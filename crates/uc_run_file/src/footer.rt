//! [`Footer`]: the last bytes of a file.
ghost use Rattle.std.specs.Prelude.{◌≡◌, ℕ, List, ◌++◌, length, OnOk, IfOk};
ghost use Rattle.uc_run_file.specs.Files.{IsNamed};
ghost use Rattle.uc_run_file.specs.Footers as footers;

use crate::run_fault::RunFault;
use crate::words::{next_word, push_half, push_word};
use std::alloc::{AllocError, Global};
use uc_logrec::{crc32c, extend};

/// The version of the format.
const VERSION: u32 = 1;

/// The numbers of a file's footer.
#[derive(Clone, Copy)]
pub(crate) struct Footer {
    /// The size of the points in bytes.
    pub points_len: u64,
    /// The size of the fragments in bytes.
    pub fragments_len: u64,
    /// The number of points.
    pub points: u64,
    /// The number of fragments.
    pub fragments: u64,
    /// The least sequence of the run's range.
    pub low: u64,
    /// The greatest sequence of the run's range.
    pub high: u64,
}

/// The last bytes of each file: `ucstrun` and a line feed.
#[tactic(auto, unfolding(crate::specs::Footers::magic))]
pub(crate) fn magic() -> [u8; 8]
    ensures { result ≡ footers.magic }
{
    *b"ucstrun\n"
}

/// Pushes the fields of a footer. An `Err` may leave some of their bytes pushed.
#[tactic(auto, unfolding(crate::specs::Footers::fields_text))]
fn push_fields(bytes: &mut Vec<u8>, footer: &Footer) -> Result<(), AllocError>
    ensures { OnOk result (bytes.new.items ≡ bytes.old.items ++ footers.fields_text footer.now) }
{
    push_word(bytes, footer.points_len)?;
    push_word(bytes, footer.fragments_len)?;
    push_word(bytes, footer.points)?;
    push_word(bytes, footer.fragments)?;
    push_word(bytes, footer.low)?;
    push_word(bytes, footer.high)?;
    push_half(bytes, VERSION)?;
    Ok(())
}

/// The bytes of a footer after a table of checksums.
#[tactic(auto, unfolding(crate::specs::Footers::footer_text))]
pub(crate) fn footer_bytes(
    alloc: Global,
    footer: &Footer,
    table: &[u8],
) -> Result<Vec<u8>, AllocError>
    ensures { IfOk result (λ bytes. bytes.items ≡ footers.footer_text footer.now table.now) }
{
    let mut bytes = Vec::new(alloc);
    push_fields(&mut bytes, footer)?;
    let sum = extend(crc32c(table), &bytes);
    push_half(&mut bytes, sum)?;
    bytes.extend_from_slice(&magic())?;
    Ok(bytes)
}

/// The size of a footer in bytes.
pub(crate) const FOOTER_SIZE: usize = 64;

/// The numbers of a footer.
#[tactic(auto, unfolding(crate::specs::Footers::footer_in))]
pub(crate) fn read_footer(bytes: &[u8]) -> Footer
    requires { length bytes.now ≡ 64 }
    ensures { result ≡ footers.footer_in bytes.now }
{
    let (points_len, rest) = next_word(bytes);
    let (fragments_len, rest) = next_word(rest);
    let (points, rest) = next_word(rest);
    let (fragments, rest) = next_word(rest);
    let (low, rest) = next_word(rest);
    let (high, _) = next_word(rest);
    Footer {
        points_len,
        fragments_len,
        points,
        fragments,
        low,
        high,
    }
}

/// The fault of the last bytes of a file: that they are no footer of this version, or another one.
pub(crate) fn footer_fault(bytes: &[u8], other: RunFault) -> RunFault
    ensures { (file : List ℕ) → IsNamed file other → IsNamed file result }
{
    if bytes.get(56..).unwrap_or(&[]) != magic().as_slice() {
        return RunFault::NoRun;
    }
    match bytes.get(48..52) {
        Some([a, b, c, d]) => match u32::from_le_bytes([*a, *b, *c, *d]) {
            VERSION => other,
            version => RunFault::Version(version),
        },
        _ => other,
    }
}
