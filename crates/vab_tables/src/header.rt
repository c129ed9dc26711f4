//! The header of a text: its fields, its sums, and where the entries stand.

ghost use Rattle.std.specs.Prelude.{◌≡◌, ◌≤◌, ◌+◌, ◌*◌, length, IsTrue, OnOk, ◌++◌};
ghost use Rattle.vab_tables.specs.Text.{magic_at, major_at, minor_at, header_size_at};
ghost use Rattle.vab_tables.specs.Text.{header_sum_at, tables_size_at, tables_sum_at, offset_at};
ghost use Rattle.vab_tables.specs.Text.{count_at, entry_size_at, flags_at, header_size_of};
ghost use Rattle.vab_tables.specs.Text.{blank_header, tables_at, area_at, text_size_of, sum_of};
ghost use Rattle.vab_tables.specs.Text.{no_sum, EntriesWithin, IsFramed};
ghost use Rattle.vab_tables.specs.Reading.{has_header, has_version, has_header_sum, has_size};
ghost use Rattle.vab_tables.specs.Reading.{has_tables_sum, is_bounded, has_bounds, frame_of, Gives};
ghost use Rattle.vab_tables.specs.Needs.{has_whole_header, need_of};

use crate::entries::{BlockDevice, Entry, Extent, Group, Partition};
use crate::fault::TableFault;
use sha2::{Digest, Sha256};
use vab_bytes::{le16_at, le32_at};

/// The magic number in front.
const MAGIC: u32 = 0x414C5030;

/// Where the descriptor of the partitions stands.
pub const PARTITIONS: usize = 80;

/// Where the descriptor of the extents stands.
pub const EXTENTS: usize = 92;

/// Where the descriptor of the groups stands.
pub const GROUPS: usize = 104;

/// Where the descriptor of the block devices stands.
pub const DEVICES: usize = 116;

/// The SHA-256 sum of the bytes.
#[tactic(auto, unfolding(crate::specs::Text::sum_of))]
pub fn sum(bytes: &[u8]) -> [u8; 32]
    ensures { result ≡ sum_of bytes.now }
{
    Sha256::digest(bytes)
}

/// The SHA-256 sum of what stands before a sum of 32 bytes, of zeros in its place, and of what
/// stands behind it.
#[tactic(auto, unfolding(crate::specs::Text::sum_of, crate::specs::Text::no_sum))]
pub fn sum_around(front: &[u8], back: &[u8]) -> [u8; 32]
    ensures { result ≡ sum_of (front.now ++ no_sum ++ back.now) }
{
    let mut hasher = Sha256::new();
    hasher.update(front);
    hasher.update([0u8; 32].as_slice());
    hasher.update(back);
    hasher.finalize()
}

/// The minor version of a text.
#[tactic(auto, unfolding(crate::specs::Text::minor_at))]
pub fn minor(text: &[u8]) -> u16
    requires { 128 ≤ length text.now }
    ensures { result ≡ minor_at text.now }
{
    le16_at(text, 6)
}

#[tactic(auto, unfolding(crate::specs::Text::header_size_at))]
fn header_size(text: &[u8]) -> u32
    requires { 128 ≤ length text.now }
    ensures { result ≡ header_size_at text.now }
{
    le32_at(text, 8)
}

#[tactic(auto, unfolding(crate::specs::Text::tables_size_at))]
fn tables_size(text: &[u8]) -> u32
    requires { 128 ≤ length text.now }
    ensures { result ≡ tables_size_at text.now }
{
    le32_at(text, 44)
}

#[tactic(auto, unfolding(crate::specs::Text::offset_at))]
fn offset(text: &[u8], descriptor: usize) -> u32
    requires { descriptor + 12 ≤ length text.now }
    ensures { result ≡ offset_at text.now descriptor }
{
    le32_at(text, descriptor)
}

#[tactic(auto, unfolding(crate::specs::Text::count_at))]
fn count(text: &[u8], descriptor: usize) -> u32
    requires { descriptor + 12 ≤ length text.now }
    ensures { result ≡ count_at text.now descriptor }
{
    le32_at(text, descriptor + 4)
}

#[tactic(auto, unfolding(crate::specs::Text::entry_size_at))]
fn entry_size(text: &[u8], descriptor: usize) -> u32
    requires { descriptor + 12 ≤ length text.now }
    ensures { result ≡ entry_size_at text.now descriptor }
{
    le32_at(text, descriptor + 8)
}

/// The flags of a text: those of minor 2; else 0.
#[tactic(auto, unfolding(crate::specs::Text::flags_at))]
pub fn flags(text: &[u8]) -> u32
    requires long { 128 ≤ length text.now }
    requires header { minor_at text.now ≡ 2 → 256 ≤ length text.now }
    ensures { result ≡ flags_at text.now }
{
    if minor(text) == 2 {
        le32_at(text, 128)
    } else {
        0
    }
}

#[tactic(auto, unfolding(crate::specs::Reading::has_header, crate::specs::Text::magic_at))]
fn has_header(text: &[u8]) -> bool
    ensures is { result ≡ has_header text.now }
    ensures long { IsTrue result → 128 ≤ length text.now }
{
    text.len() >= 128 && le32_at(text, 0) == MAGIC
}

// Bytes of the header of a minor version.
fn header_size_for(minor: u16) -> u32
    ensures { result ≡ header_size_of minor }
{
    if minor == 2 { 256 } else { 128 }
}

#[tactic(auto, unfolding(crate::specs::Reading::has_version, crate::specs::Text::major_at))]
fn has_version(text: &[u8]) -> bool
    requires { 128 ≤ length text.now }
    ensures is { result ≡ has_version text.now }
    ensures long { IsTrue result → 128 ≤ header_size_at text.now }
    ensures flags { IsTrue result → minor_at text.now ≡ 2 → 256 ≤ header_size_at text.now }
    ensures header { IsTrue result → header_size_at text.now ≤ length text.now }
{
    let minor = minor(text);
    let size = header_size(text);
    le16_at(text, 4) == 10
        && minor <= 2
        && size == header_size_for(minor)
        && size as usize <= text.len()
}

#[tactic(auto, unfolding(crate::specs::Reading::has_header_sum, crate::specs::Text::header_sum_at, crate::specs::Text::blank_header))]
fn has_header_sum(text: &[u8]) -> bool
    requires long { 128 ≤ header_size_at text.now }
    requires header { header_size_at text.now ≤ length text.now }
    ensures { result ≡ has_header_sum text.now }
{
    let header = &text[..header_size(text) as usize];
    let sum = sum_around(&text[..12], &header[44..]);
    &text[12..44] == sum.as_slice()
}

#[tactic(auto, unfolding(crate::specs::Reading::has_size))]
fn has_size(text: &[u8], max: u32) -> bool
    requires { 128 ≤ length text.now }
    ensures is { result ≡ has_size max text.now }
    ensures text { IsTrue result
        → header_size_at text.now + tables_size_at text.now
        ≤ length text.now }
{
    let size = header_size(text) as usize + tables_size(text) as usize;
    size <= max as usize && size <= text.len()
}

/// What follows the header.
#[tactic(auto, unfolding(crate::specs::Text::tables_at))]
fn tables(text: &[u8]) -> &[u8]
    requires long { 128 ≤ length text.now }
    requires size { header_size_at text.now + tables_size_at text.now ≤ length text.now }
    ensures bytes { result.now ≡ tables_at text.now }
    ensures len { length result.now ≡ tables_size_at text.now }
{
    let start = header_size(text) as usize;
    &text[start..start + tables_size(text) as usize]
}

#[tactic(auto, unfolding(crate::specs::Reading::has_tables_sum, crate::specs::Text::tables_sum_at))]
fn has_tables_sum(text: &[u8]) -> bool
    requires long { 128 ≤ length text.now }
    requires size { header_size_at text.now + tables_size_at text.now ≤ length text.now }
    ensures { result ≡ has_tables_sum text.now }
{
    &text[48..80] == sum(tables(text)).as_slice()
}

#[tactic(auto, unfolding(crate::specs::Reading::is_bounded))]
fn is_bounded(text: &[u8], descriptor: usize, size: usize) -> bool
    requires long { 128 ≤ length text.now }
    requires within { descriptor ≤ 116 }
    requires small { size ≤ 64 }
    ensures is { result ≡ is_bounded text.now descriptor size }
    ensures within { IsTrue result
        → offset_at text.now descriptor + count_at text.now descriptor * size
        ≤ tables_size_at text.now }
{
    let end = offset(text, descriptor) as usize + count(text, descriptor) as usize * size;
    entry_size(text, descriptor) as usize == size && end <= tables_size(text) as usize
}

#[tactic(auto, unfolding(crate::specs::Reading::has_bounds))]
fn has_bounds(text: &[u8]) -> bool
    requires { 128 ≤ length text.now }
    ensures is { result ≡ has_bounds text.now }
    ensures within { IsTrue result → EntriesWithin text.now }
{
    is_bounded(text, PARTITIONS, Partition::SIZE)
        && is_bounded(text, EXTENTS, Extent::SIZE)
        && is_bounded(text, GROUPS, Group::SIZE)
        && is_bounded(text, DEVICES, BlockDevice::SIZE)
}

/// Bytes of header and tables together, as the header tells; what stands behind them is not read.
#[tactic(auto, unfolding(crate::specs::Text::text_size_of))]
pub fn text_size(text: &[u8]) -> usize
    requires { 128 ≤ length text.now }
    ensures { result ≡ text_size_of text.now }
{
    header_size(text) as usize + tables_size(text) as usize
}

#[tactic(auto, unfolding(crate::specs::Needs::has_whole_header))]
fn has_whole_header(text: &[u8]) -> bool
    ensures is { result ≡ has_whole_header text.now }
    ensures long { IsTrue result → 128 ≤ length text.now }
{
    has_header(text) && has_version(text) && has_header_sum(text)
}

/// How many of the first bytes decide what a text means, besides the 256 of the longest header:
/// those of header and tables, where the header is whole and they are at most `max`; else 0.
#[tactic(auto, unfolding(crate::specs::Needs::need_of))]
pub fn needed_size(text: &[u8], max: u32) -> usize
    ensures is { result ≡ need_of max text.now }
    ensures most { result ≤ max }
{
    if !has_whole_header(text) {
        return 0;
    }
    let size = text_size(text);
    if size <= max as usize { size } else { 0 }
}

/// Judges all but the entries: the header, its version, both sums, sizes and bounds, in this order.
#[tactic(auto, unfolding(crate::specs::Reading::frame_of))]
pub fn check_frame(text: &[u8], max: u32) -> Result<(), TableFault>
    ensures exact { Gives (λ _. tt) result (frame_of max text.now) }
    ensures framed { OnOk result (IsFramed text.now) }
{
    if !has_header(text) {
        return Err(TableFault::NoHeader);
    }
    if !has_version(text) {
        return Err(TableFault::BadVersion);
    }
    if !has_header_sum(text) {
        return Err(TableFault::BadHeaderSum);
    }
    if !has_size(text, max) {
        return Err(TableFault::BadSize);
    }
    if !has_tables_sum(text) {
        return Err(TableFault::BadTablesSum);
    }
    if !has_bounds(text) {
        return Err(TableFault::BadBounds);
    }
    Ok(())
}

/// The entries of a descriptor: how many, and their bytes one after another.
#[derive(Clone, Copy)]
pub struct Entries<'a> {
    pub count: usize,
    pub bytes: &'a [u8],
}

/// The entries of a descriptor whose entries have this size.
#[tactic(auto, unfolding(crate::specs::Text::area_at))]
pub fn entries_of(text: &[u8], descriptor: usize, size: usize) -> Entries<'_>
    requires long { 128 ≤ length text.now }
    requires descriptor { descriptor ≤ 116 }
    requires small { size ≤ 64 }
    requires text { header_size_at text.now + tables_size_at text.now ≤ length text.now }
    requires within { offset_at text.now descriptor + count_at text.now descriptor * size
        ≤ tables_size_at text.now }
    ensures count { result.count ≡ count_at text.now descriptor }
    ensures bytes { result.bytes.now ≡ area_at text.now descriptor size }
    ensures len { length result.bytes.now ≡ result.count * size }
{
    let count = count(text, descriptor) as usize;
    let start = offset(text, descriptor) as usize;
    Entries {
        count,
        bytes: &tables(text)[start..start + count * size],
    }
}
