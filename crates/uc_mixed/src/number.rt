//! Numbers as bytes.
ghost use Rattle.std.specs.Prelude.{◌≡◌, ◌+◌, ◌-◌, ◌%◌, ◌^◌, max, min};
ghost use Rattle.uc_oper.specs.Counting as counting;
ghost use Rattle.uc_mixed.specs.Numbers as numbers;

/// The number that the bytes encode: 8 bytes, low byte first. Other bytes count as 0.
pub(crate) fn number(bytes: &[u8]) -> u64
    ensures { result ≡ counting.number bytes.now }
{
    match bytes {
        [a, b, c, d, e, f, g, h] => u64::from_le_bytes([*a, *b, *c, *d, *e, *f, *g, *h]),
        _ => 0,
    }
}

/// The sum of two numbers, modulo 2^64.
pub(crate) fn wrapped_sum(older: &[u8], newer: &[u8]) -> u64
    ensures { result ≡ (counting.number older.now + counting.number newer.now) % 2 ^ 64 }
{
    number(older).wrapping_add(number(newer))
}

/// The greater of two numbers.
pub(crate) fn greater_number(older: &[u8], newer: &[u8]) -> u64
    ensures { result ≡ max (numbers.bounded older.now) (numbers.bounded newer.now) % 2 ^ 64 }
{
    number(older).max(number(newer))
}

/// The lesser of two numbers.
pub(crate) fn lesser_number(older: &[u8], newer: &[u8]) -> u64
    ensures { result ≡ min (numbers.bounded older.now) (numbers.bounded newer.now) % 2 ^ 64 }
{
    number(older).min(number(newer))
}

/// The sum of two numbers, or the greatest number if the sum is greater.
pub(crate) fn limited_sum(older: &[u8], newer: &[u8]) -> u64
    ensures { result ≡ min (numbers.bounded older.now + numbers.bounded newer.now) (2 ^ 64 - 1) % 2 ^ 64 }
{
    number(older).saturating_add(number(newer))
}
