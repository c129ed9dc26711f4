//! The sectors of a text.

ghost use Rattle.std.specs.Prelude.{◌≡◌, ◌<◌, ◌≤◌, ◌+◌, ◌^◌, OnOk};
ghost use Rattle.vab_disk.specs.Calls.{Touches, FailsWithDisk};
ghost use Rattle.vab_copies.specs.Copies.{text_sector, with_rest, IsOfText};

use vab_disk::Disk;
use vab_gate::{DiskFault, SECTOR, put_sector};

// A sector of a text, filled up with zeros.
pub fn sector_of(text: &[u8], k: usize) -> [u8; 512]
    requires { k < 2 ^ 55 }
    ensures { result ≡ text_sector text.now k }
{
    let mut sector = [0u8; SECTOR];
    let start = (SECTOR * k).min(text.len());
    let rest = &text[start..];
    let piece = &rest[..rest.len().min(SECTOR)];
    sector[..piece.len()].copy_from_slice(piece);
    sector
}

// Writes the text's sectors from the `from`-th on into `count` sectors, and doesn't sync.
pub fn write_sectors<D: Disk>(
    d: &mut D,
    at: u64,
    from: u64,
    count: u64,
    text: &[u8],
) -> Result<(), DiskFault>
    requires some { from ≤ count }
    requires on_disk { at + count ≤ D.size d.old }
    ensures written { D.is_modelled → OnOk result
        (D.seen d.new ≡ with_rest from count text.now (D.seen d.old) at) }
    ensures touches { Touches D.Disk (IsOfText from count at text.now) d.old d.new }
    ensures faults { FailsWithDisk D.Disk d.old d.new result }
{
    for i in from..count {
        put_sector(d, at + i, &sector_of(text, i as usize))?;
    }
    Ok(())
}
