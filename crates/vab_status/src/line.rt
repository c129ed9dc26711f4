//! The lines of the page, each put together in 256 bytes.
ghost use Rattle.std.specs.Prelude.{◌≡◌, ◌*◌, ◌^◌, ◌≤◌, length};
ghost use Rattle.vab_status.specs.Kept as kept;
ghost use Rattle.vab_status.specs.Page as texts;

use arrayvec::ArrayVec;
use vab_bootctl::Info;
use vab_device::{Part, PartImage, PhaseKind};
use vab_fbproto::{put, put_decimal, slot_letter};

/// A line: at most 256 bytes, with its newline.
pub(crate) type Line = ArrayVec<u8, 256>;

/// The line of the blocks of 4096 bytes that partitions may have.
pub(crate) fn cap_line(cap: u64) -> Line
    ensures { result.items ≡ texts.cap_line cap }
{
    let mut line = ArrayVec::new();
    put(b"cap ", &mut line);
    put_decimal(cap, &mut line);
    put(b"\n", &mut line);
    line
}

/// The line of the slot that was booted last.
pub(crate) fn current_line(slot: usize) -> Line
    ensures { result.items ≡ texts.current_line slot }
{
    let mut line = ArrayVec::new();
    put(b"current ", &mut line);
    put(slot_letter(slot), &mut line);
    put(b"\n", &mut line);
    line
}

// A line of how many blocks are left to merge.
fn left_line(head: &[u8], left: u64) -> Line
    requires { length head.now ≤ 32 }
    ensures { result.items ≡ kept.left_line head.now left }
{
    let mut line = ArrayVec::new();
    put(head, &mut line);
    put_decimal(left, &mut line);
    put(b"\n", &mut line);
    line
}

// A text as a line.
fn text_line(text: &[u8]) -> Line
    requires { length text.now ≤ 32 }
    ensures { result.items ≡ texts.line text.now }
{
    let mut line = ArrayVec::new();
    put(text, &mut line);
    put(b"\n", &mut line);
    line
}

/// The line of where an update stands, where so many blocks are left to merge.
pub(crate) fn phase_line(phase: PhaseKind, left: u64) -> Line
    ensures { result.items ≡ kept.phase_line phase left }
{
    match phase {
        PhaseKind::Idle => text_line(b"phase idle"),
        PhaseKind::Installing(_) => text_line(b"phase installing"),
        PhaseKind::Staged(_) => left_line(b"phase staged ", left),
        PhaseKind::Merging(_) => left_line(b"phase merging ", left),
    }
}

fn yes_or_no(yes: bool) -> &'static [u8]
    ensures text { result.now ≡ texts.yes_or_no yes }
    ensures short { length result.now ≤ 3 }
{
    if yes { b"yes" } else { b"no" }
}

/// The line of a slot with so many images, of which boot control says this.
pub(crate) fn slot_line(slot: usize, images: usize, info: Info) -> Line
    ensures { result.items ≡ texts.slot_line slot images info }
{
    let mut line = ArrayVec::new();
    put(b"slot ", &mut line);
    put(slot_letter(slot), &mut line);
    put(b" images ", &mut line);
    put_decimal(images as u64, &mut line);
    put(b" priority ", &mut line);
    put_decimal(u64::from(info.priority), &mut line);
    put(b" tries ", &mut line);
    put_decimal(u64::from(info.tries), &mut line);
    put(b" successful ", &mut line);
    put(yes_or_no(info.successful), &mut line);
    put(b"\n", &mut line);
    line
}

/// The line of a slot without images.
pub(crate) fn none_line(slot: usize) -> Line
    ensures { result.items ≡ texts.none_line slot }
{
    let mut line = ArrayVec::new();
    put(b"slot ", &mut line);
    put(slot_letter(slot), &mut line);
    put(b" none\n", &mut line);
    line
}

/// How many bytes a partition has.
pub fn bytes_of(part: &Part) -> u64
    requires { length part.now.map ≤ 2 ^ 28 }
    ensures { result ≡ 4096 * length part.now.map }
{
    4096 * part.map.len()
}

/// The line of an image of a slot.
#[tactic(auto, using(vab_bytes::proofs::NameLaws::name_fits))]
pub(crate) fn image_line(slot: usize, part: &Part) -> Line
    requires { length part.now.map ≤ 2 ^ 28 }
    ensures { result.items ≡ kept.image_line slot part.now }
{
    let mut line = ArrayVec::new();
    put(b"image ", &mut line);
    put(slot_letter(slot), &mut line);
    put(b" ", &mut line);
    put(part.name.text(), &mut line);
    put(b" ", &mut line);
    put_decimal(bytes_of(part), &mut line);
    put(b"\n", &mut line);
    line
}

// What is known of the image of a planned partition.
fn plan_word(image: &PartImage) -> &'static [u8]
    ensures text { result.now ≡ kept.plan_word image.now }
    ensures short { length result.now ≤ 8 }
{
    match image {
        PartImage::Kept => b"kept",
        PartImage::Declared => b"declared",
        PartImage::Written(_, _) => b"written",
    }
}

/// The line of a planned partition.
#[tactic(auto, using(vab_bytes::proofs::NameLaws::name_fits))]
pub(crate) fn plan_line(part: &Part) -> Line
    requires { length part.now.map ≤ 2 ^ 28 }
    ensures { result.items ≡ kept.plan_line part.now }
{
    let mut line = ArrayVec::new();
    put(b"plan ", &mut line);
    put(part.name.text(), &mut line);
    put(b" ", &mut line);
    put_decimal(bytes_of(part), &mut line);
    put(b" ", &mut line);
    put(plan_word(&part.image), &mut line);
    put(b"\n", &mut line);
    line
}
