// Numbers in decimal.
ghost use Rattle.std.specs.Prelude.{◌≡◌, ◌+◌, ◌≤◌, ◌++◌, length, decimal};

use arrayvec::ArrayVec;

/// Puts the decimal digits of a number behind the text, without leading zeros: at most 20 bytes.
pub fn put_decimal(n: u64, out: &mut ArrayVec<u8, 256>)
    requires { length out.old.items + 20 ≤ 256 }
    ensures text { out.new.items ≡ out.old.items ++ decimal n }
    ensures short { length out.new.items ≤ length out.old.items + 20 }
{
    // The digits are found from the last to the first.
    let mut digits = [0; 20];
    let mut left = n;
    let mut at = 19;
    while left >= 10 {
        digits[at] = b'0' + (left % 10) as u8;
        left /= 10;
        at -= 1;
    }
    digits[at] = b'0' + left as u8;
    let _ = out.try_extend_from_slice(&digits[at..]);
}
