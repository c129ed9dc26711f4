//! Reading a set.

ghost use Rattle.std.specs.Prelude.{◌≡◌, List, [], IfOk, Ok};
ghost use Rattle.vab_set.specs.declared.set.SetImage.{SetImage as ImageValue};
ghost use Rattle.vab_set.specs.Spelling.{IsSet, set_text};
ghost use Rattle.vab_set.specs.Reading.{Gives, taken, number_at, base_of, first_named, text_at};
ghost use Rattle.vab_set.specs.Reading.{new_name, size_at, image_at, images_at, count_at, set_of};

use crate::{Content, Set, SetFault, SetImage};
use std::alloc::Global;
use vab_bytes::{Listing, Name36, le32_at, le64_at};
use vab_names::{MAX_PARTITIONS, parse_base};

const MAGIC: &[u8; 8] = b"VABSET1\n";

const MAX_IMAGES: u32 = MAX_PARTITIONS as u32;

const MAX_SIZE: u64 = 1 << 40;

// The first bytes of an image's field, and those behind them.
fn take(image: usize, n: usize, bytes: &[u8]) -> Result<(&[u8], &[u8]), SetFault>
    ensures { Gives (λ x. (x.0.now, x.1.now)) result (taken image n bytes.now) }
{
    if bytes.len() < n {
        return Err(SetFault::Cut(image));
    }
    Ok(bytes.split_at(n))
}

#[tactic(auto, unfolding(crate::specs::Reading::number_at))]
fn read_number(image: usize, bytes: &[u8]) -> Result<(u64, &[u8]), SetFault>
    ensures { Gives (λ x. (x.0, x.1.now)) result (number_at image bytes.now) }
{
    if bytes.len() < 8 {
        return Err(SetFault::Cut(image));
    }
    Ok((le64_at(bytes, 0), &bytes[8..]))
}

// The base name with this text.
fn base_name(text: &[u8]) -> Option<Name36>
    ensures { result ≡ base_of text.now }
{
    parse_base(text)
}

// The first image of this name.
#[tactic(auto, unfolding(crate::specs::Reading::first_named))]
fn first_named(images: &[SetImage], name: &Name36) -> Option<usize>
    ensures { result ≡ first_named images.now name.now }
{
    images.iter().position(|image| image.name == *name)
}

// The text of a name, behind its length.
#[tactic(auto, unfolding(crate::specs::Reading::text_at))]
fn read_text(image: usize, bytes: &[u8]) -> Result<(&[u8], &[u8]), SetFault>
    ensures { Gives (λ x. (x.0.now, x.1.now)) result (text_at image bytes.now) }
{
    let (len, rest) = take(image, 1, bytes)?;
    take(image, len[0] as usize, rest)
}

// The name of an image behind these.
#[tactic(auto, unfolding(crate::specs::Reading::new_name))]
fn new_name(images: &[SetImage], text: &[u8]) -> Result<Name36, SetFault>
    ensures { Gives (λ n. n) result (new_name images.now text.now) }
{
    match base_name(text) {
        None => Err(SetFault::BadName(images.len())),
        Some(name) => match first_named(images, &name) {
            Some(first) => Err(SetFault::Repeated(first, images.len())),
            None => Ok(name),
        },
    }
}

#[tactic(auto, unfolding(crate::specs::Reading::size_at))]
fn read_size(image: usize, max: u64, bytes: &[u8]) -> Result<(u64, &[u8]), SetFault>
    ensures { Gives (λ x. (x.0, x.1.now)) result (size_at image max bytes.now) }
{
    let (size, rest) = read_number(image, bytes)?;
    if size > max {
        return Err(SetFault::TooBig(image));
    }
    Ok((size, rest))
}

// The next image, behind these.
#[tactic(auto, unfolding(crate::specs::Reading::image_at))]
fn read_image<'a>(
    images: &[SetImage<'a>],
    bytes: &'a [u8],
) -> Result<(SetImage<'a>, &'a [u8]), SetFault>
    ensures { Gives (λ x. (x.0, x.1.now)) result (image_at images.now bytes.now) }
{
    let image = images.len();
    let (text, rest) = read_text(image, bytes)?;
    let name = new_name(images, text)?;
    let (size, rest) = read_size(image, MAX_SIZE, rest)?;
    let (store, rest) = read_number(image, rest)?;
    let (len, rest) = read_size(image, size, rest)?;
    let (content, rest) = take(image, len as usize, rest)?;
    let bytes = Content::from_slice(content);
    Ok((
        SetImage {
            name,
            size,
            store,
            bytes,
        },
        rest,
    ))
}

// So many images, and nothing behind them.
fn read_images<'a>(
    alloc: Global,
    count: u32,
    bytes: &'a [u8],
) -> Result<Vec<SetImage<'a>>, SetFault>
    ensures { Gives (λ v. v.items) result (images_at count [] bytes.now) }
{
    let mut images = Vec::new(alloc);
    let mut rest = bytes;
    for _ in 0..count {
        let (image, after) = read_image(&images, rest)?;
        images.push(image)?;
        rest = after;
    }
    if !rest.is_empty() {
        return Err(SetFault::Trailing);
    }
    Ok(images)
}

// The count of images behind the magic.
#[tactic(auto, unfolding(crate::specs::Reading::count_at))]
fn read_count(bytes: &[u8]) -> Result<(u32, &[u8]), SetFault>
    ensures { Gives (λ x. (x.0, x.1.now)) result (count_at bytes.now) }
{
    if bytes.len() < 8 || !bytes.starts_with(MAGIC) {
        return Err(SetFault::BadMagic);
    }
    if bytes.len() < 12 {
        return Err(SetFault::Cut(0));
    }
    let count = le32_at(bytes, 8);
    if count > MAX_IMAGES {
        return Err(SetFault::TooMany(count));
    }
    Ok((count, &bytes[12..]))
}

#[tactic(auto, unfolding(crate::specs::Reading::set_of))]
fn read_all<'a>(alloc: Global, bytes: &'a [u8]) -> Result<Vec<SetImage<'a>>, SetFault>
    ensures { Gives (λ v. v.items) result (set_of bytes.now) }
{
    let (count, rest) = read_count(bytes)?;
    read_images(alloc, count, rest)
}

/// The set that the bytes spell, all of the bytes: the magic `VABSET1\n`, the count as four bytes,
/// and for each image the length of its name as a byte, its name, the sizes of its partition and of
/// its store and the length of its bytes as eight bytes each, and its bytes. Numbers have the low
/// byte first. The images' bytes stay where they are.
pub fn read_set<'a>(alloc: Global, bytes: &'a [u8]) -> Result<Set<'a>, SetFault>
    // What is read is spelled so.
    ensures found { IfOk result (λ s. IsSet s × (bytes.now ≡ set_text s)) }
    // What is spelled so is read, unless memory is refused.
    ensures only { (s : List ImageValue)
        → IsSet s
        → bytes.now ≡ set_text s
        → Gives (λ v. v) result (Ok s) }
    // Which fault it is.
    ensures exact { Gives (λ v. v) result (set_of bytes.now) }
{
    Ok(Listing::from_vec(read_all(alloc, bytes)?))
}
