//! Unsigned numbers in bytes, the low byte first.

ghost use Rattle.std.specs.Prelude.{◌≡◌, ◌+◌, ◌≤◌, length};
ghost use Rattle.std.specs.Int.{w16, w32, w64, to_le_bytes};
ghost use Rattle.vab_bytes.specs.Number.{le_at, put_at};

/// The number in the two bytes from `at` on, the low byte first.
pub fn le16_at(b: &[u8], at: usize) -> u16
    requires { at + 2 ≤ length b.now }
    ensures { result ≡ le_at w16 b.now at }
{
    u16::from_le_bytes([b[at], b[at + 1]])
}

/// The number in the four bytes from `at` on, the low byte first.
pub fn le32_at(b: &[u8], at: usize) -> u32
    requires { at + 4 ≤ length b.now }
    ensures { result ≡ le_at w32 b.now at }
{
    u32::from_le_bytes([b[at], b[at + 1], b[at + 2], b[at + 3]])
}

/// The number in the eight bytes from `at` on, the low byte first.
pub fn le64_at(b: &[u8], at: usize) -> u64
    requires { at + 8 ≤ length b.now }
    ensures { result ≡ le_at w64 b.now at }
{
    u64::from_le_bytes([
        b[at],
        b[at + 1],
        b[at + 2],
        b[at + 3],
        b[at + 4],
        b[at + 5],
        b[at + 6],
        b[at + 7],
    ])
}

/// Writes the number into the two bytes from `at` on, the low byte first.
pub fn put_le16(b: &mut [u8], at: usize, v: u16)
    requires { at + 2 ≤ length b.old }
    ensures { b.new ≡ put_at b.old at (to_le_bytes w16 v) }
{
    b[at..at + 2].copy_from_slice(&v.to_le_bytes());
}

/// Writes the number into the four bytes from `at` on, the low byte first.
pub fn put_le32(b: &mut [u8], at: usize, v: u32)
    requires { at + 4 ≤ length b.old }
    ensures { b.new ≡ put_at b.old at (to_le_bytes w32 v) }
{
    b[at..at + 4].copy_from_slice(&v.to_le_bytes());
}

/// Writes the number into the eight bytes from `at` on, the low byte first.
pub fn put_le64(b: &mut [u8], at: usize, v: u64)
    requires { at + 8 ≤ length b.old }
    ensures { b.new ≡ put_at b.old at (to_le_bytes w64 v) }
{
    b[at..at + 8].copy_from_slice(&v.to_le_bytes());
}
