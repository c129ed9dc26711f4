//! Numbers in hexadecimal.
ghost use Rattle.std.specs.Prelude.{◌≡◌, ◌+◌, ◌≤◌, ◌<◌, ◌++◌, length, true};
ghost use Rattle.vab_fbvars.specs.Hexadecimal.{hexadecimal};
ghost use Rattle.std.specs.Fmt.{digit_glyph};

use arrayvec::ArrayVec;

// A digit.
fn digit_text(value: u8) -> u8
    requires { value < 16 }
    ensures { result ≡ digit_glyph true value }
{
    if value < 10 {
        b'0' + value
    } else {
        b'A' - 10 + value
    }
}

/// Puts the upper-case hexadecimal digits of a number behind the text, without leading zeros: at
/// most 16 bytes.
pub fn put_hexadecimal(n: u64, out: &mut ArrayVec<u8, 256>)
    requires { length out.old.items + 16 ≤ 256 }
    ensures text { out.new.items ≡ out.old.items ++ hexadecimal n }
    ensures short { length out.new.items ≤ length out.old.items + 16 }
{
    // The digits are found from the last to the first.
    let mut digits = [0; 16];
    let mut left = n;
    let mut at = 15;
    while left >= 16 {
        digits[at] = digit_text((left % 16) as u8);
        left /= 16;
        at -= 1;
    }
    digits[at] = digit_text(left as u8);
    let _ = out.try_extend_from_slice(&digits[at..]);
}
