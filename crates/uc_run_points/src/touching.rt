//! Reading ahead: bytes that a lookup will read are read before, so that they come into the processor's cache.

/// The size of a cache line in bytes.
const LINE_BYTES: usize = 64;

/// The greatest number of cache lines that are read ahead of a lookup.
const MOST_LINES: usize = 16;

/// Reads one byte in each of the first cache lines of some bytes. The result has no meaning; the caller must use it, so that
/// the reads aren't removed.
#[inline]
pub(crate) fn touch_bytes(bytes: &[u8]) -> u8 {
    let mut touched = 0;
    for line in 0..MOST_LINES {
        match bytes.get(line * LINE_BYTES) {
            Some(byte) => touched ^= *byte,
            None => return touched,
        }
    }
    touched
}

/// Reads the offset of the first point of a quarter. The result has no meaning, as that of [`touch_bytes`].
#[inline]
pub(crate) fn touch_start(starts: &[usize], quarter: usize) -> u8 {
    match starts.get(quarter) {
        Some(start) => (*start % 256) as u8,
        None => 0,
    }
}

/// Reads one byte in each of the first cache lines of a quarter's points and of the point after them. The result has no
/// meaning, as that of [`touch_bytes`].
#[inline]
pub(crate) fn touch_quarter(bytes: &[u8], starts: &[usize], quarter: usize) -> u8 {
    let Some(start) = starts.get(quarter) else {
        return 0;
    };
    let Some(ahead) = bytes.get(*start..) else {
        return 0;
    };
    match starts.get(quarter.saturating_add(1)) {
        Some(end) => touch_bytes(
            &ahead[..end
                .saturating_sub(*start)
                .saturating_add(1)
                .min(ahead.len())],
        ),
        None => touch_bytes(ahead),
    }
}
