//! Writes into the buffer that C gives.
ghost use Rattle.std.specs.Prelude.{◌≡◌};
ghost use Rattle.uc_c.specs.Room.{filled};

/// Copies as many of the bytes as the buffer holds.
pub fn fill(room: &mut [u8], bytes: &[u8])
    ensures { room.new ≡ filled bytes.now room.old }
{
    let count = room.len().min(bytes.len());
    room[..count].copy_from_slice(&bytes[..count]);
}

/// Copies as many of the numbers as the buffer holds.
pub fn fill_numbers(room: &mut [u64], numbers: &[u64])
    ensures { room.new ≡ filled numbers.now room.old }
{
    let count = room.len().min(numbers.len());
    room[..count].copy_from_slice(&numbers[..count]);
}
