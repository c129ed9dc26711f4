//! The sector of boot control, of AOSP's `bootloader_message.h`: `bootloader_control` version 1, at
//! byte 2048 of the misc partition.

ghost use Rattle.std.specs.Prelude.{◌≡◌, ◌<◌, IfOk, Ok, take};
ghost use Rattle.vab_bootctl.specs.Control.{Fits, FitsInfo, Represents, KeepsRest, control_of};
ghost use Rattle.vab_bootctl.specs.Control.{info_of, info_byte, slot_of, suffix, with_fields};
ghost use Rattle.vab_bootctl.specs.declared.slots.Control.{Control};

use crate::slots::{Control, Info};
use vab_bytes::{crc32, le32_at, put_le32};

const MAGIC: u32 = 0x4241_4342;

const VERSION: u8 = 1;
/// How many bytes stand before the sum.
const SUMMED: usize = 28;

/// Why a sector has no boot control of two slots; the first that holds.
#[derive(Clone, Copy, Debug, PartialEq, Eq)]
pub enum ControlFault {
    /// The magic number is another.
    BadMagic,
    /// The version is not 1.
    BadVersion,
    /// The sum is not that of the bytes before it.
    BadSum,
    /// The number of slots is not 2, or the suffix is neither `_a` nor `_b`.
    BadSlots,
}

impl Info {
    fn from_byte(byte: u8) -> Info
        ensures { result ≡ info_of byte }
    {
        Info {
            priority: byte % 16,
            tries: byte / 16 % 8,
            successful: byte >= 128,
        }
    }

    fn to_byte(self) -> u8
        requires { FitsInfo self }
        ensures { result ≡ info_byte self }
    {
        self.priority + 16 * self.tries + if self.successful { 128 } else { 0 }
    }
}

fn slot_of(text: &[u8]) -> Option<usize>
    ensures { result ≡ slot_of text.now }
{
    if text == b"_a\0\0".as_slice() {
        Some(0)
    } else if text == b"_b\0\0".as_slice() {
        Some(1)
    } else {
        None
    }
}

#[tactic(auto, unfolding(crate::specs::Control::control_of))]
fn control_in(bytes: &[u8; 512]) -> Result<Control, ControlFault>
    ensures { result ≡ control_of bytes.now }
{
    if le32_at(bytes, 4) != MAGIC {
        return Err(ControlFault::BadMagic);
    }
    if bytes[8] != VERSION {
        return Err(ControlFault::BadVersion);
    }
    if le32_at(bytes, SUMMED) != crc32(&bytes[..SUMMED]) {
        return Err(ControlFault::BadSum);
    }
    if bytes[9] % 8 != 2 {
        return Err(ControlFault::BadSlots);
    }
    let current = slot_of(&bytes[..4]).ok_or(ControlFault::BadSlots)?;
    Ok(Control {
        current,
        a: Info::from_byte(bytes[12]),
        b: Info::from_byte(bytes[14]),
    })
}

/// The boot control of this sector, or the first fault.
pub fn decode_control(bytes: &[u8; 512]) -> Result<Control, ControlFault>
    // Which boot control or which fault it is.
    ensures exact { result ≡ control_of bytes.now }
    // What is read stands there.
    ensures found { IfOk result (λ c. Fits c × Represents bytes.now c) }
    // What stands there is read.
    ensures only { (c : Control) → Fits c → Represents bytes.now c → result ≡ Ok c }
{
    control_in(bytes)
}

fn suffix(slot: usize) -> [u8; 4]
    requires { slot < 2 }
    ensures { result ≡ suffix slot }
{
    [b'_', if slot == 0 { b'a' } else { b'b' }, 0, 0]
}

/// Writes all but the sum.
#[tactic(auto, unfolding(crate::specs::Control::with_fields))]
fn write_fields(control: &Control, bytes: &mut [u8; 512])
    requires { Fits control.now }
    ensures { bytes.new ≡ with_fields control.now bytes.old }
{
    let kept = bytes[9] / 8 * 8;
    bytes[..4].copy_from_slice(&suffix(control.current));
    put_le32(bytes, 4, MAGIC);
    bytes[8] = VERSION;
    bytes[9] = kept + 2;
    bytes[12] = control.a.to_byte();
    bytes[14] = control.b.to_byte();
}

/// Writes the boot control into its fields of the sector, and the sum. All other bits stay.
pub fn encode_control_into(control: &Control, bytes: &mut [u8; 512])
    requires { Fits control.now }
    ensures stands { Represents bytes.new control.now }
    ensures rest { KeepsRest bytes.old bytes.new }
    ensures decoded { control_of bytes.new ≡ Ok control.now }
{
    write_fields(control, bytes);
    let sum = crc32(&bytes[..SUMMED]);
    put_le32(bytes, SUMMED, sum);
}
