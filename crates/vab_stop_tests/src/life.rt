// The life of a small device by single commands, and what remains of it behind any page.

use std::alloc::Global;
use std::process::Abort;
use std::test::Fail;
use vab_cli::run;
use vab_disk::{Blend, Disk, MemPort};

/// A verb: its words, and what it hears.
pub(crate) type Verb<'a> = (&'a [&'a str], &'a [u8]);

// An image `x` of three bytes for two blocks, and another for three. Both the first block and the
// third one then differ from the source's.
const FIRST: &[u8] = b"VABSET1\n\x01\0\0\0\x01x\0\x20\0\0\0\0\0\0\
    \0\0\0\0\0\0\0\0\x03\0\0\0\0\0\0\0abc";

const SECOND: &[u8] = b"VABSET1\n\x01\0\0\0\x01x\0\x30\0\0\0\0\0\0\
    \0\0\0\0\0\0\0\0\x03\0\0\0\0\0\0\0abd";

pub(crate) const MAKE: Verb<'static> = (&["make", "--metadata-max", "1024"], FIRST);

pub(crate) const INSTALL: Verb<'static> = (&["install"], SECOND);

pub(crate) const CANCEL: Verb<'static> = (&["cancel"], b"");

pub(crate) const ACTIVATE_A: Verb<'static> = (&["activate", "a"], b"");

pub(crate) const ACTIVATE_B: Verb<'static> = (&["activate", "b"], b"");

pub(crate) const BOOT: Verb<'static> = (&["boot"], b"");

pub(crate) const MARK: Verb<'static> = (&["mark"], b"");

pub(crate) const BEGIN_MERGE: Verb<'static> = (&["begin-merge"], b"");

pub(crate) const MERGE: Verb<'static> = (&["merge", "9"], b"");

pub(crate) const STATUS: Verb<'static> = (&["status"], b"");

const PRINT: Verb<'static> = (&["print", "x_b"], b"");

/// The life of a device, from an empty disk to a merged update.
pub(crate) const LIFE: &[Verb<'static>] = &[
    MAKE,
    INSTALL,
    ACTIVATE_B,
    BOOT,
    MARK,
    BEGIN_MERGE,
    MERGE,
];

// The same of a device whose update is being installed.
const ANEW: &[Verb<'static>] = &[CANCEL, INSTALL, ACTIVATE_B, BOOT, MARK, BEGIN_MERGE, MERGE];

// Where a small device has its bytes: boot control, the mark and the first statuses, those that
// version 2 of the mark adds, the geometry, the tables and its first blocks.
const PLACES: [(u64, u64); 6] = [
    (4, 5),
    (2048, 2051),
    (2081, 2113),
    (4104, 4105),
    (4112, 4128),
    (6144, 6224),
];

/// What those sectors hold.
pub(crate) fn contents(alloc: Global, d: &mut MemPort) -> Result<Vec<u8>, Fail> {
    let mut bytes = Vec::new(alloc);
    let mut sector = [0u8; 512];
    for (from, to) in PLACES {
        for at in from..to {
            if at < d.sectors() && d.read_sector(at, &mut sector).is_ok() {
                bytes.extend_from_slice(&sector)?;
            }
        }
    }
    Ok(bytes)
}

/// A port on what is left of this one.
pub(crate) fn left_by(d: &MemPort, blend: Blend) -> Result<MemPort, Fail> {
    d.outcome(blend).map_err(|_| Fail::from("memory"))
}

fn words(alloc: Global, texts: &[&str]) -> Result<Vec<String>, Fail> {
    let mut words = Vec::new(alloc);
    for text in texts {
        words.push(String::from_str(alloc, text)?)?;
    }
    Ok(words)
}

/// Runs a verb: its status.
pub(crate) fn status(alloc: Global, d: &mut MemPort, verb: &Verb<'_>) -> Result<u8, Fail> {
    let words = words(alloc, verb.0)?;
    Ok(run(alloc, &words, d).code())
}

/// A port that hears what the verb hears next.
pub(crate) fn next(alloc: Global, d: MemPort, verb: &Verb<'_>) -> Result<MemPort, Fail> {
    let input = verb.1.to_vec(alloc)?;
    Ok(d.next_run(input))
}

// The next run on a disk: its port, and its status.
fn done(alloc: Global, d: MemPort, verb: &Verb<'_>) -> Result<(MemPort, u8), Fail> {
    let mut d = next(alloc, d, verb)?;
    let ended = status(alloc, &mut d, verb)?;
    Ok((d, ended))
}

/// The port of a run that has told the device's page.
pub(crate) fn asked(alloc: Global, d: MemPort) -> Result<MemPort, Fail> {
    let (d, _) = done(alloc, d, &STATUS)?;
    Ok(d)
}

/// The disk behind these verbs, each of which is done.
pub(crate) fn all_done(
    rt: &impl Abort,
    alloc: Global,
    d: MemPort,
    verbs: &[Verb<'_>],
) -> Result<MemPort, Fail> {
    let mut d = d;
    for verb in verbs {
        let (next, ended) = done(alloc, d, verb)?;
        assert_eq!(rt; ended, 0, "{:?}", verb.0);
        d = next;
    }
    Ok(d)
}

// Whether some bytes have these among them.
fn has(bytes: &[u8], part: &[u8]) -> bool {
    for at in 0..bytes.len() {
        if bytes[at..].starts_with(part) {
            return true;
        }
    }
    false
}

// The commands that remain behind a page.
fn remaining(page: &[u8]) -> &'static [Verb<'static>] {
    if has(page, b"not a device") {
        LIFE
    } else if has(page, b"phase installing") {
        ANEW
    } else if has(page, b"phase staged") {
        &LIFE[2..]
    } else if has(page, b"phase merging") {
        &LIFE[6..]
    } else if has(page, b"slot a none") {
        &[]
    } else {
        &LIFE[1..]
    }
}

// Whether these are the bytes of the second set's image.
fn is_image(bytes: &[u8]) -> bool {
    bytes.len() == 12288 && bytes.starts_with(b"abd") && bytes[3..].iter().all(|b| *b == 0)
}

/// What remains behind the page that a run has told is done by single commands, and then the
/// partition has the image's bytes.
pub(crate) fn finish(rt: &impl Abort, alloc: Global, asked: MemPort) -> Result<(), Fail> {
    let left = remaining(asked.told());
    let d = all_done(rt, alloc, asked, left)?;
    let (d, _) = done(alloc, d, &PRINT)?;
    assert!(rt; is_image(d.told()));
    Ok(())
}
