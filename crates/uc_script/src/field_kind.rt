//! [`FieldKind`]: what a field after a line's word may be.

ghost use Rattle.std.specs.Prelude.{◌≡◌, Some, IfOk};
ghost use Rattle.uc_script.specs.FieldKinds as kinds;
ghost use Rattle.uc_script.specs.FieldKinds.{kind_text};

use crate::call::NAMES;
use crate::field;
use std::alloc::{AllocError, Global};
use std::fmt;

/// The kinds of fields after a line's word.
#[derive(Clone, Copy, Debug, PartialEq, Eq)]
pub enum FieldKind {
    /// A key or a value.
    Text,
    /// A key at which a scan ends, or none.
    High,
    /// A number.
    Number,
    /// The name of a claim.
    Name,
    /// A sequence.
    Seq,
}

impl FieldKind {
    /// Whether a field is of this kind. It allocates for the bytes of a key or a value.
    pub fn reads(self, alloc: Global, field: &[u8]) -> Result<bool, AllocError>
        ensures { IfOk result (λ reads. reads ≡ kinds.reads self field.now) }
    {
        match self {
            FieldKind::Text => Ok(field::text(alloc, field)?.is_some()),
            FieldKind::High => Ok(field::high(alloc, field)?.is_some()),
            FieldKind::Number => Ok(field::number(field).is_some()),
            FieldKind::Name => Ok(field::name(field).is_some()),
            FieldKind::Seq => Ok(field::seq(field).is_some()),
        }
    }
}

/// The kind in words.
impl fmt::Display for FieldKind {
    ghost output = { λ kind. Some (kind_text kind) };

    fn fmt<W: fmt::Write>(&self, f: &mut fmt::Formatter<W>) -> fmt::Result {
        match self {
            FieldKind::Text => {
                f.write_str("hexadecimal, two digits for each byte, or . for no bytes")
            }
            FieldKind::High => f.write_str(
                "hexadecimal, two digits for each byte, or . for no bytes, or - for no end",
            ),
            FieldKind::Number => f.write_str(
                "a number from 0 to 18446744073709551615, without sign or needless zeros",
            ),
            FieldKind::Name => {
                let last = NAMES - 1;
                write!(
                    f,
                    "a number from 0 to {last}, without sign or needless zeros"
                )
            }
            FieldKind::Seq => f.write_str(
                "last, or a number from 0 to 18446744073709551615, without sign or needless zeros",
            ),
        }
    }
}
