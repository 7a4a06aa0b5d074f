//! [`Figure`]: the value of a name in a report.

/// The value of a name in a report.
#[derive(Clone, Copy, Debug, PartialEq, Eq)]
pub enum Figure {
    /// A number.
    Number(u64),
    /// The least number and the greatest.
    Range(u64, u64),
}

/// A name, and its value.
pub type Field = (&'static str, Figure);
