//! [`Range`]: a range deletion, with its ends borrowed.
ghost use Rattle.std.specs.Prelude.{◌≡◌};
ghost use Rattle.uc_run_entry.specs.Cutting as cutting;

use std::marker::Model;

/// A range deletion: it covers the keys from a begin to below an end, and none if the begin is not below the end. A
/// contract sees it as a `RangeOf`.
#[derive(Drop)]
pub struct Range<'a> {
    begin: &'a [u8],
    end: &'a [u8],
    seq: u64,
}

impl<'a> Model for Range<'a> {
    ghost use Rattle.uc_run_entry.specs.Cutting.{RangeOf};

    ghost Value = { RangeOf };

    ghost view = { λ r. record { begin = r.begin.now; end = r.end.now; seq = r.seq } };
}

impl<'a> Range<'a> {
    /// The deletion of the keys from `begin` to below `end`, with its sequence.
    pub fn new(begin: &'a [u8], end: &'a [u8], seq: u64) -> Range<'a>
        ensures { result ≡ record { begin = begin.now; end = end.now; seq = seq } }
    {
        Range { begin, end, seq }
    }

    /// The least key that it covers, if it covers any.
    pub fn begin(&self) -> &'a [u8]
        ensures { result.now ≡ self.now.begin }
    {
        self.begin
    }

    /// The least key after those that it covers.
    pub fn end(&self) -> &'a [u8]
        ensures { result.now ≡ self.now.end }
    {
        self.end
    }

    /// Its sequence.
    pub fn seq(&self) -> u64
        ensures { result ≡ self.now.seq }
    {
        self.seq
    }

    /// Whether it covers any key.
    pub fn has_keys(&self) -> bool
        ensures { result ≡ cutting.has_keys self.now }
    {
        self.begin.cmp(&self.end).is_lt()
    }
}
