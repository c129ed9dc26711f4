//! The status of a partition.

ghost use Rattle.std.specs.Prelude.{◌≡◌, IfOk, Ok};
ghost use Rattle.vab_bytes.specs.Number.{field};
ghost use Rattle.vab_marks.specs.declared.status.PartStatus.{PartStatus};
ghost use Rattle.vab_marks.specs.Status.{FitsStatus, status_spelling, status_of, state_byte};
ghost use Rattle.vab_marks.specs.Status.{chunk_said, count_said, image_of};

use crate::sector::{MarkFault, are_zeros, blank, head_fault, put, seal};
use vab_bytes::{Name36, le16_at, le64_at, put_le16, put_le64};
use vab_space::Chunk;

const MAGIC: &[u8; 4] = b"VABS";

const VERSION: u8 = 1;
/// The partition's image is written, behind its store.
const STORED: u8 = 1;
/// It is written into the partition's own blocks.
const IN_PLACE: u8 = 2;

/// Where the image of a partition stands that an update wrote.
#[derive(Clone, Copy, Debug, PartialEq, Eq)]
pub enum StatusImage {
    /// In its store, over the blocks of the partition.
    Stored {
        /// How many exceptions the store had when it was flashed.
        count: u64,
        /// The size of a chunk of it.
        chunk: Chunk,
    },
    /// In the partition's own blocks. It has no store.
    InPlace,
}

/// The status of a partition that an update wrote.
#[derive(Clone, Copy, Debug, PartialEq, Eq)]
pub struct PartStatus {
    /// The partition's full name.
    pub name: Name36,
    pub image: StatusImage,
}

impl StatusImage {
    // The image of these fields, where they are those of one.
    fn from_fields(state: u8, count: u64, chunk: Option<Chunk>) -> Option<StatusImage>
        ensures { result ≡ image_of state count chunk }
    {
        match (state, chunk) {
            (STORED, Some(chunk)) => Some(StatusImage::Stored { count, chunk }),
            (IN_PLACE, Some(Chunk::One)) if count == 0 => Some(StatusImage::InPlace),
            _ => None,
        }
    }

    // The byte of it.
    fn state(&self) -> u8
        ensures { result ≡ state_byte self.now }
    {
        match self {
            StatusImage::Stored { .. } => STORED,
            StatusImage::InPlace => IN_PLACE,
        }
    }

    // The size of a chunk that stands in the sector.
    fn chunk(&self) -> Chunk
        ensures { result ≡ chunk_said self.now }
    {
        match self {
            StatusImage::Stored { chunk, .. } => *chunk,
            StatusImage::InPlace => Chunk::One,
        }
    }

    /// How many exceptions its store had when it was flashed; 0 where it has none.
    pub fn count(&self) -> u64
        ensures { result ≡ count_said self.now }
    {
        match self {
            StatusImage::Stored { count, .. } => *count,
            StatusImage::InPlace => 0,
        }
    }
}

/// The name's field of the sector.
fn name_bytes(bytes: &[u8; 512]) -> [u8; 36]
    ensures { result ≡ field bytes.now 8 36 }
{
    let mut name = [0; 36];
    name.copy_from_slice(&bytes[8..44]);
    name
}

#[tactic(auto, unfolding(crate::specs::Status::status_of))]
fn status_in(bytes: &[u8; 512]) -> Result<PartStatus, MarkFault>
    ensures { result ≡ status_of bytes.now }
{
    if let Some(fault) = head_fault(bytes, MAGIC, bytes[4] == VERSION) {
        return Err(fault);
    }
    if !are_zeros(&bytes[52..508]) {
        return Err(MarkFault::BadField);
    }
    let chunk = Chunk::from_sectors(u64::from(le16_at(bytes, 6)));
    let image = StatusImage::from_fields(bytes[5], le64_at(bytes, 44), chunk);
    let name = Name36::from_field(&name_bytes(bytes)).ok();
    match (image, name) {
        (Some(image), Some(name)) => Ok(PartStatus { name, image }),
        _ => Err(MarkFault::BadField),
    }
}

/// The status of this sector, or the first fault; of zeros alone it is `BadMagic`.
pub fn decode_status(bytes: &[u8; 512]) -> Result<PartStatus, MarkFault>
    // Which status or which fault it is.
    ensures exact { result ≡ status_of bytes.now }
    // What is read is spelled so.
    ensures found { IfOk result (λ s. FitsStatus s × (bytes.now ≡ status_spelling s)) }
    // What is spelled so is read.
    ensures only { (s : PartStatus) → FitsStatus s → bytes.now ≡ status_spelling s → result ≡ Ok s }
{
    status_in(bytes)
}

/// The sector with this status.
#[tactic(auto, using(vab_bytes::proofs::NameLaws::name_fits))]
pub fn encode_status(status: &PartStatus) -> [u8; 512]
    ensures spelled { result ≡ status_spelling status.now }
    ensures decoded { status_of result ≡ Ok status.now }
{
    let PartStatus { name, image } = status;
    let mut bytes = blank();
    put(&mut bytes, 0, MAGIC);
    put(&mut bytes, 4, &[VERSION, image.state()]);
    put_le16(&mut bytes, 6, image.chunk().sectors() as u16);
    put(&mut bytes, 8, name.text());
    put_le64(&mut bytes, 44, image.count());
    seal(&mut bytes);
    bytes
}
