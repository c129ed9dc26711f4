//! The bytes of the set that words ask for.

ghost use Rattle.std.specs.Prelude.{◌≡◌, ◌⊎◌, ◌<◌, ◌≤◌, ◌^◌, List, [], length, map, All, IfOk, Ok};
ghost use Rattle.std.specs.Prelude.{IfErr, IsErrAnd, string_bytes};
ghost use Rattle.vab_set.specs.declared.set.SetImage.{SetImage as Image};
ghost use Rattle.vab_set.specs.Spelling.{IsSet, set_text};
ghost use Rattle.vab_pack.specs.Asked.{Asked, IsAsked, Ask};
ghost use Rattle.vab_pack.specs.Faults.{IsFaultOf};
ghost use Rattle.vab_pack.specs.Images.{NamesOfSet};
ghost use Rattle.vab_pack.specs.declared.fault.WordFault.{WordFault as Fault};
ghost use Rattle.vabpack.specs.Packed.{IsImageOf, AreImagesOf, IsSetOf, IsPacked, IsOfFile};
ghost use Rattle.vabpack.specs.Packed.{StopsAt, IsOfSet, IsCause, RefusesWith, HasUnfit};
ghost use Rattle.vabpack.specs.Packed.{IsAboutFiles, IsAboutSet, AreKnownAs};
ghost use Rattle.vabpack.specs.Packed.{meant, IsMalformed};

use crate::Refusal;
use crate::source::{MAX_BYTES, Source, Unread};
use std::alloc::Global;
use vab_bytes::Listing;
use vab_pack::{Entry, parse_words, set_image};
use vab_set::{Set, SetImage, write_set};
use vab_sparse::{SparseFault, expand, is_sparse};

// What a file at a path stands for: the image, where it is a sparse one, or else its bytes.
fn expanded<'a>(alloc: Global, path: &'a str, file: Vec<u8>) -> Result<Vec<u8>, Refusal<'a>>
    requires { length file.items ≤ 2 ^ 32 }
    ensures image { IfOk result (λ v. meant file.items ≡ Ok v.items) }
    ensures short { IfOk result (λ v. length v.items ≤ 2 ^ 32) }
    ensures refused { IfErr result (IsMalformed path.now file.items) }
{
    if !is_sparse(&file) {
        return Ok(file);
    }
    match expand(alloc, &file, MAX_BYTES) {
        Ok(image) => Ok(image),
        Err(SparseFault::NoMemory) => Err(Refusal::NoMemory),
        Err(fault) => Err(Refusal::Sparse(path, fault)),
    }
}

// The image that an entry asks for.
fn read_image<'a, S: Source>(
    alloc: Global,
    source: &S,
    entry: &Entry<'a>,
) -> Result<SetImage<'static>, Refusal<'a>>
    requires { IsAsked entry.now }
    ensures image { IfOk result (IsImageOf (S.bytes_at source.now) entry.now) }
    ensures refused { IfErr result
        (IsOfFile (S.bytes_at source.now) (S.fails source.now) entry.now) }
{
    let path = entry.path();
    let file = match source.read_file(path) {
        Ok(file) => file,
        Err(Unread::NoMemory) => return Err(Refusal::NoMemory),
        Err(Unread::File(fault)) => return Err(Refusal::File(path, fault)),
    };
    if file.len() as u64 > MAX_BYTES {
        return Err(Refusal::TooLarge(path));
    }
    let bytes = expanded(alloc, path, file)?;
    match set_image(entry, bytes) {
        Some(image) => Ok(image),
        None => Err(Refusal::TooSmall(path)),
    }
}

// The images that the entries ask for.
fn read_images<'a, S: Source>(
    alloc: Global,
    source: &S,
    entries: &[Entry<'a>],
) -> Result<Vec<SetImage<'static>>, Refusal<'a>>
    requires { All IsAsked entries.now }
    ensures images { IfOk result (λ v. AreImagesOf (S.bytes_at source.now) entries.now v.items) }
    ensures refused { IfErr result (λ e. (e ≡ Refusal.NoMemory)
        ⊎ StopsAt (S.bytes_at source.now) (S.fails source.now) entries.now e) }
{
    let mut images = Vec::new(alloc);
    for entry in entries {
        let image = read_image(alloc, source, entry)?;
        images.push(image)?;
    }
    Ok(images)
}

// The one spelling of a set, where it is no longer than a set may be.
fn spell<'a>(alloc: Global, images: &Set<'static>) -> Result<Vec<u8>, Refusal<'a>>
    requires { IsSet images.now }
    ensures spelled { IfOk result (λ v. v.items ≡ set_text images.now) }
    ensures short { IfOk result (λ v. length v.items ≤ 2 ^ 32) }
    ensures refused { IfErr result (λ e. (e ≡ Refusal.NoMemory)
        ⊎ ((e ≡ Refusal.SetTooLarge) × (2 ^ 32 < length (set_text images.now)))) }
{
    let set = write_set(alloc, images)?;
    if set.len() as u64 > MAX_BYTES {
        return Err(Refusal::SetTooLarge);
    }
    Ok(set)
}

// The bytes of the set of the images that the entries ask for.
fn pack_entries<'a, S: Source>(
    alloc: Global,
    source: &S,
    entries: &[Entry<'a>],
) -> Result<Vec<u8>, Refusal<'a>>
    requires asked { All IsAsked entries.now }
    requires names { NamesOfSet entries.now }
    ensures set { IfOk result (λ v. IsSetOf (S.bytes_at source.now) entries.now v.items) }
    ensures refused { IfErr result
        (IsOfSet (S.bytes_at source.now) (S.fails source.now) entries.now) }
{
    let images = Listing::from_vec(read_images(alloc, source, entries)?);
    spell(alloc, &images)
}

/// The bytes of the set that the words ask for.
pub fn pack<'a, S: Source>(
    alloc: Global,
    source: &S,
    words: &'a [String],
) -> Result<Vec<u8>, Refusal<'a>>
    // What comes is the set of the files.
    ensures packed { IfOk result
        (λ v. IsPacked (S.bytes_at source.now) (map string_bytes words.entry.now) v.items) }
    // A refusal comes only where its reason holds, that of a file only where this file may fail.
    ensures refused { IfErr result
        (IsCause (S.bytes_at source.now) (S.fails source.now)
        (map string_bytes words.entry.now)) }
    // Where there is no word, that is the refusal.
    ensures none { words.entry.now ≡ [] → IsErrAnd result (λ e. e ≡ Refusal.NoWords) }
    // Where the words have a fault, it is refused with, unless memory is refused.
    ensures faulty { (fault : Fault)
        → IsFaultOf (map string_bytes words.entry.now) fault
        → RefusesWith result (Refusal.Words fault) }
    // Where a file is too long, also for its partition, or a malformed sparse image, a file is
    // refused, unless memory is refused.
    ensures long { (asked : List Asked)
        → Ask (map string_bytes words.entry.now) asked
        → HasUnfit (S.bytes_at source.now) asked
        → IsErrAnd result IsAboutFiles }
    // Where the set is too long, that is the refusal, unless a file can't be read or memory is
    // refused.
    ensures large { (asked : List Asked) (images : List Image)
        → Ask (map string_bytes words.entry.now) asked
        → AreKnownAs (S.bytes_at source.now) asked images
        → 2 ^ 32 < length (set_text images)
        → IsErrAnd result IsAboutSet }
{
    if words.is_empty() {
        return Err(Refusal::NoWords);
    }
    let entries = parse_words(alloc, words)?;
    pack_entries(alloc, source, &entries)
}
