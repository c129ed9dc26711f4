//! The sizes of the physical partitions.

ghost use Rattle.std.specs.Prelude.{◌≡◌, IfOk, Ok};
ghost use Rattle.vab_marks.specs.declared.physical.PhysicalSizes.{PhysicalSizes};
ghost use Rattle.vab_marks.specs.Physical.{FitsSizes, physical_spelling, physical_of, is_size};
ghost use Rattle.vab_marks.specs.Physical.{are_sizes, is_clean};

use crate::sector::{MarkFault, are_zeros, blank, head_fault, put, seal};
use vab_bytes::{le64_at, put_le64};

const MAGIC: &[u8; 4] = b"VABP";

const VERSION: u8 = 1;

/// The most blocks of a physical partition.
const MOST: u64 = 1 << 20;

/// The sizes of the physical partitions of each slot, in blocks of 4096 bytes: 1 to 2^20. The
/// format is this program's own, of sector 2113.
#[derive(Clone, Copy, Debug, PartialEq, Eq)]
pub struct PhysicalSizes {
    pub boot: u64,
    pub vbmeta: u64,
}

fn is_size(blocks: u64) -> bool
    ensures { result ≡ is_size blocks }
{
    0 < blocks && blocks <= MOST
}

impl PhysicalSizes {
    // Both are sizes that physical partitions may have.
    fn are_sizes(&self) -> bool
        ensures { result ≡ are_sizes self.now }
    {
        is_size(self.boot) && is_size(self.vbmeta)
    }
}

// There are zeros where no field stands.
fn is_clean(bytes: &[u8; 512]) -> bool
    ensures { result ≡ is_clean bytes.now }
{
    are_zeros(&bytes[5..8]) && are_zeros(&bytes[24..508])
}

#[tactic(auto, unfolding(crate::specs::Physical::physical_of))]
fn physical_in(bytes: &[u8; 512]) -> Result<PhysicalSizes, MarkFault>
    ensures { result ≡ physical_of bytes.now }
{
    if let Some(fault) = head_fault(bytes, MAGIC, bytes[4] == VERSION) {
        return Err(fault);
    }
    let sizes = PhysicalSizes {
        boot: le64_at(bytes, 8),
        vbmeta: le64_at(bytes, 16),
    };
    if is_clean(bytes) && sizes.are_sizes() {
        Ok(sizes)
    } else {
        Err(MarkFault::BadField)
    }
}

/// The sizes in this sector, or the first fault; of zeros alone it is `BadMagic`.
pub fn decode_physical(bytes: &[u8; 512]) -> Result<PhysicalSizes, MarkFault>
    // Which sizes or which fault it is.
    ensures exact { result ≡ physical_of bytes.now }
    // What is read is spelled so.
    ensures found { IfOk result (λ s. FitsSizes s × (bytes.now ≡ physical_spelling s)) }
    // What is spelled so is read.
    ensures only { (s : PhysicalSizes)
        → FitsSizes s
        → bytes.now ≡ physical_spelling s
        → result ≡ Ok s }
{
    physical_in(bytes)
}

/// The sector with these sizes.
pub fn encode_physical(sizes: &PhysicalSizes) -> [u8; 512]
    requires { FitsSizes sizes.now }
    ensures spelled { result ≡ physical_spelling sizes.now }
    ensures decoded { physical_of result ≡ Ok sizes.now }
{
    let mut bytes = blank();
    put(&mut bytes, 0, MAGIC);
    put(&mut bytes, 4, &[VERSION]);
    put_le64(&mut bytes, 8, sizes.boot);
    put_le64(&mut bytes, 16, sizes.vbmeta);
    seal(&mut bytes);
    bytes
}
