//! [`PartKind`]: the operator of a part.
ghost use Rattle.std.specs.Prelude.{◌≡◌};
ghost use Rattle.uc_mixed.specs.Kinds as kinds;

/// The operator of a part.
#[derive(Clone, Copy, Debug, PartialEq, Eq)]
pub enum PartKind {
    /// Adds 64-bit numbers, as [`Counter`](uc_oper::Counter) does.
    Add,
    /// Keeps the greater byte string.
    MaxBytes,
    /// Keeps the lesser byte string.
    MinBytes,
    /// Replaces the value.
    Set,
    /// Joins byte strings with this byte between them.
    Append(u8),
    /// Byte by byte, the bits of either. The shorter byte string is filled with zeros.
    Or,
    /// Byte by byte, the bits of both. The shorter byte string is filled with zeros.
    And,
    /// Byte by byte, the bits of one of both. The shorter byte string is filled with zeros.
    Xor,
    /// Byte by byte, the greater byte. The shorter byte string is filled with zeros.
    MaxRegisters,
    /// Concatenates byte strings and keeps the last bytes, at most this number of them.
    Tail(u16),
    /// Keeps the greater 64-bit number.
    MaxU64,
    /// Keeps the lesser 64-bit number.
    MinU64,
    /// Adds 64-bit numbers without a sign. A sum is at most 2^64 - 1.
    AddU64,
    /// Makes the union of two sets of byte strings.
    SetUnion,
}

/// The operator with a number, of those without a parameter.
fn plain(number: u32) -> Option<PartKind>
    ensures { result ≡ kinds.plain_numbered number }
{
    match number {
        1 => Some(PartKind::Add),
        2 => Some(PartKind::MaxBytes),
        3 => Some(PartKind::MinBytes),
        4 => Some(PartKind::Set),
        6 => Some(PartKind::Or),
        7 => Some(PartKind::And),
        8 => Some(PartKind::Xor),
        9 => Some(PartKind::MaxRegisters),
        11 => Some(PartKind::MaxU64),
        12 => Some(PartKind::MinU64),
        13 => Some(PartKind::AddU64),
        14 => Some(PartKind::SetUnion),
        _ => None,
    }
}

impl PartKind {
    /// The operator with a number and a parameter. The parameter of `append` is a byte, that of `tail` is below 2^16, and it is 0 for all
    /// others.
    pub fn of(number: u32, parameter: u32) -> Option<PartKind>
        ensures { result ≡ kinds.kind_numbered number parameter }
    {
        if number == 5 {
            if parameter < 256 {
                Some(PartKind::Append(parameter as u8))
            } else {
                None
            }
        } else if number == 10 {
            if parameter < 65536 {
                Some(PartKind::Tail(parameter as u16))
            } else {
                None
            }
        } else if parameter == 0 {
            plain(number)
        } else {
            None
        }
    }

    /// The number of the operator.
    pub fn number(self) -> u8
        ensures { result ≡ kinds.number_of self }
    {
        match self {
            PartKind::Add => 1,
            PartKind::MaxBytes => 2,
            PartKind::MinBytes => 3,
            PartKind::Set => 4,
            PartKind::Append(_) => 5,
            PartKind::Or => 6,
            PartKind::And => 7,
            PartKind::Xor => 8,
            PartKind::MaxRegisters => 9,
            PartKind::Tail(_) => 10,
            PartKind::MaxU64 => 11,
            PartKind::MinU64 => 12,
            PartKind::AddU64 => 13,
            PartKind::SetUnion => 14,
        }
    }

    /// The delimiter of `append` or the number of bytes of `tail`, else 0.
    pub fn parameter(self) -> u16
        ensures { result ≡ kinds.parameter_of self }
    {
        match self {
            PartKind::Add => 0,
            PartKind::MaxBytes => 0,
            PartKind::MinBytes => 0,
            PartKind::Set => 0,
            PartKind::Append(delimiter) => u16::from(delimiter),
            PartKind::Or => 0,
            PartKind::And => 0,
            PartKind::Xor => 0,
            PartKind::MaxRegisters => 0,
            PartKind::Tail(count) => count,
            PartKind::MaxU64 => 0,
            PartKind::MinU64 => 0,
            PartKind::AddU64 => 0,
            PartKind::SetUnion => 0,
        }
    }

    /// True if the operator replaces the value.
    pub(crate) fn is_set(self) -> bool
        ensures { result ≡ kinds.is_set self }
    {
        self.number() == 4
    }

    /// True if both are the same operator, with the same parameter.
    pub(crate) fn is(self, other: PartKind) -> bool
        ensures { result ≡ kinds.same_kind self other }
    {
        self.number() == other.number() && self.parameter() == other.parameter()
    }
}
