//! CRC-32.

ghost use Rattle.std.specs.Prelude.{◌≡◌, ◌<◌, ◌^◌};
ghost use Rattle.vab_bytes.specs.Crc.{crc_step, crc_byte, crc_of};

/// The polynomial, its low bit in the highest place.
const POLYNOMIAL: u32 = 0xedb8_8320;

fn step(c: u32) -> u32
    ensures { result ≡ crc_step c }
{
    if c % 2 == 1 {
        c / 2 ^ POLYNOMIAL
    } else {
        c / 2
    }
}

#[tactic(auto, unfolding(crate::specs::Crc::crc_steps))]
fn with_byte(c: u32, b: u8) -> u32
    ensures { result ≡ crc_byte c b }
{
    let mut sum = c ^ u32::from(b);
    for _ in 0..u8::BITS {
        sum = step(sum);
    }
    sum
}

/// The CRC-32 of these bytes, as zlib and Ethernet have it: reflected, with the register all ones
/// at the start and complemented at the end.
#[tactic(auto, unfolding(crate::specs::Crc::crc_of))]
pub fn crc32(bytes: &[u8]) -> u32
    ensures { result ≡ crc_of bytes.now }
{
    let mut sum = u32::MAX;
    for b in bytes {
        sum = with_byte(sum, *b);
    }
    sum ^ u32::MAX
}
