//! The masked form in which a log stores a checksum.
ghost use Rattle.std.specs.Prelude.{◌≡◌};
ghost use Rattle.uc_logrec.specs.Mask.{masked, unmasked};

/// LevelDB's `kMaskDelta`.
const MASK_DELTA: u32 = 0xa282_ead8;

/// The masked form of a checksum: rotated right by 15 bits, plus 0xa282ead8 modulo 2^32 (LevelDB's `util/crc32c.h`). A
/// log stores this form because the log may itself be summed: a checksum of bytes that hold their own checksum says
/// little about them.
pub fn mask(crc: u32) -> u32
    ensures value { result ≡ masked crc }
    ensures undone { unmasked result ≡ crc }
{
    crc.rotate_right(15).wrapping_add(MASK_DELTA)
}

/// The checksum whose masked form is `stored`. Every number is the masked form of one checksum, so
/// this never fails.
pub fn unmask(stored: u32) -> u32
    ensures value { result ≡ unmasked stored }
    ensures undone { masked result ≡ stored }
{
    stored.wrapping_sub(MASK_DELTA).rotate_left(15)
}
