// Each verb of a device's life, stopped at each of its writes and syncs over each blend of what was
// pending, and with each of its calls failing once: what is left is a step of the verb, and what
// remains is done by single commands, to the image's last byte.

use crate::life::*;
use std::alloc::Global;
use std::process::Abort;
use std::test::Fail;
use vab_bytes::{crc32, put_le32};
use vab_disk::{Blend, CallKind, Disk, MemPort};

// A small disk: 32 blocks.
const SMALL: u64 = 6400;

// More calls than a verb of these tests makes.
const MOST: u64 = 4000;

// A verb that is tried behind the first commands of a life, so many, and the single steps that it
// takes.
struct Trial {
    before: usize,
    verb: Verb<'static>,
    steps: &'static [Verb<'static>],
}

const MAKING: Trial = Trial {
    before: 0,
    verb: MAKE,
    steps: &[MAKE],
};

// An update by packets: it is begun, its partition gets a size and a store, its image is
// downloaded and flashed, and it is finished and set active.
const STEPS: &[Verb<'static>] = &[
    (&["serve"], b"FB01\0\0\0\0\0\0\0\x09oem begin"),
    (
        &["serve"],
        b"FB01\0\0\0\0\0\0\0\x22resize-logical-partition:x_b:12288",
    ),
    (&["serve"], b"FB01\0\0\0\0\0\0\0\x12oem snapshot x_b 0"),
    (
        &["serve"],
        b"FB01\0\0\0\0\0\0\0\x11download:00000003\
          \0\0\0\0\0\0\0\x03abd\0\0\0\0\0\0\0\x09flash:x_b",
    ),
    (&["serve"], b"FB01\0\0\0\0\0\0\0\x0aoem finish"),
    ACTIVATE_B,
];

const SESSION: &[u8] = b"FB01\0\0\0\0\0\0\0\x09oem begin\
    \0\0\0\0\0\0\0\x22resize-logical-partition:x_b:12288\
    \0\0\0\0\0\0\0\x12oem snapshot x_b 0\0\0\0\0\0\0\0\x11download:00000003\
    \0\0\0\0\0\0\0\x03abd\0\0\0\0\0\0\0\x09flash:x_b\0\0\0\0\0\0\0\x0aoem finish\
    \0\0\0\0\0\0\0\x0cset_active:b";

const INSTALLING: Trial = Trial {
    before: 1,
    verb: INSTALL,
    steps: STEPS,
};

const SERVING: Trial = Trial {
    before: 1,
    verb: (&["serve"], SESSION),
    steps: STEPS,
};

// A factory install of the same image.
const FACTORY_STEPS: &[Verb<'static>] = &[
    (&["serve"], b"FB01\0\0\0\0\0\0\0\x0boem factory"),
    (
        &["serve"],
        b"FB01\0\0\0\0\0\0\0\x22create-logical-partition:x_b:12288",
    ),
    (
        &["serve"],
        b"FB01\0\0\0\0\0\0\0\x11download:00000003\
          \0\0\0\0\0\0\0\x03abd\0\0\0\0\0\0\0\x09flash:x_b",
    ),
    (&["serve"], b"FB01\0\0\0\0\0\0\0\x0aoem finish"),
    ACTIVATE_B,
];

const FACTORY_SESSION: &[u8] = b"FB01\0\0\0\0\0\0\0\x0boem factory\
    \0\0\0\0\0\0\0\x22create-logical-partition:x_b:12288\
    \0\0\0\0\0\0\0\x11download:00000003\0\0\0\0\0\0\0\x03abd\
    \0\0\0\0\0\0\0\x09flash:x_b\0\0\0\0\0\0\0\x0aoem finish\
    \0\0\0\0\0\0\0\x0cset_active:b";

const FACTORY: Trial = Trial {
    before: 1,
    verb: (&["serve"], FACTORY_SESSION),
    steps: FACTORY_STEPS,
};

const ONE_TURN: Verb<'static> = (&["merge", "1"], b"");

const MERGING: Trial = Trial {
    before: 6,
    verb: MERGE,
    steps: &[ONE_TURN, ONE_TURN, ONE_TURN],
};

// The verbs of few writes.
const SHORT: [Trial; 5] = [
    Trial {
        before: 2,
        verb: CANCEL,
        steps: &[CANCEL],
    },
    Trial {
        before: 2,
        verb: ACTIVATE_A,
        steps: &[ACTIVATE_A],
    },
    Trial {
        before: 2,
        verb: BOOT,
        steps: &[BOOT],
    },
    Trial {
        before: 4,
        verb: MARK,
        steps: &[MARK],
    },
    Trial {
        before: 5,
        verb: BEGIN_MERGE,
        steps: &[BEGIN_MERGE],
    },
];

// A disk, and the pages in front of a verb on it and behind each of its single steps.
#[derive(Drop)]
struct Cut {
    start: MemPort,
    verb: Verb<'static>,
    pages: Vec<Vec<u8>>,
}

// A small disk behind the first commands of a life, on which nothing is pending.
fn behind(rt: &impl Abort, alloc: Global, count: usize) -> Result<MemPort, Fail> {
    let d = MemPort::new(alloc, SMALL, Vec::new(alloc)).map_err(|_| Fail::from("memory"))?;
    let d = all_done(rt, alloc, d, LIFE.get(..count).unwrap_or(LIFE))?;
    left_by(&d, Blend::New)
}

// The pages in front of these steps and behind each.
fn pages(
    rt: &impl Abort,
    alloc: Global,
    d: MemPort,
    steps: &[Verb<'_>],
) -> Result<Vec<Vec<u8>>, Fail> {
    let mut d = asked(alloc, d)?;
    let mut pages = Vec::new(alloc);
    pages.push(d.told().to_vec(alloc)?)?;
    for step in steps {
        d = asked(alloc, all_done(rt, alloc, d, &[*step])?)?;
        pages.push(d.told().to_vec(alloc)?)?;
    }
    Ok(pages)
}

// Whether a page is one of these.
fn is_among(pages: &[Vec<u8>], page: &[u8]) -> bool {
    for known in pages {
        if known.as_slice() == page {
            return true;
        }
    }
    false
}

impl Cut {
    fn new(rt: &impl Abort, alloc: Global, trial: &Trial) -> Result<Cut, Fail> {
        let start = behind(rt, alloc, trial.before)?;
        let pages = pages(rt, alloc, left_by(&start, Blend::New)?, trial.steps)?;
        Ok(Cut {
            start,
            verb: trial.verb,
            pages,
        })
    }

    // A port on the disk in front of the verb, which hears what the verb hears.
    fn again(&self, alloc: Global) -> Result<MemPort, Fail> {
        next(alloc, left_by(&self.start, Blend::New)?, &self.verb)
    }

    // What is left has the page of a step, and what remains can be done.
    fn is_step(&self, rt: &impl Abort, alloc: Global, left: MemPort) -> Result<(), Fail> {
        let left = asked(alloc, left)?;
        assert!(rt; is_among(&self.pages, left.told()), "{:?}", left.told());
        finish(rt, alloc, left)
    }

    // The same of a blend of what is pending, where it isn't what was left before. Gives what the
    // disk then holds.
    fn leaves_step(
        &self,
        rt: &impl Abort,
        alloc: Global,
        d: &MemPort,
        blend: Blend,
        before: &[u8],
    ) -> Result<Vec<u8>, Fail> {
        let mut left = left_by(d, blend)?;
        let now = contents(alloc, &mut left)?;
        if now.as_slice() != before {
            self.is_step(rt, alloc, left)?;
        }
        Ok(now)
    }

    // Stopped behind so many writes and syncs: its status, and the port.
    fn stopped(&self, alloc: Global, stop: u64) -> Result<(u8, MemPort), Fail> {
        let mut d = self.again(alloc)?;
        d.stop_after(stop);
        let ended = status(alloc, &mut d, &self.verb)?;
        Ok((ended, d))
    }

    // Stopped at each of its writes and syncs, over two blends.
    fn stops(&self, rt: &impl Abort, alloc: Global, blends: [Blend; 2]) -> Result<(), Fail> {
        let (mut one, mut other) = (Vec::new(alloc), Vec::new(alloc));
        for stop in 0..MOST {
            let (ended, d) = self.stopped(alloc, stop)?;
            assert!(rt; ended == 0 || ended == 6, "after {stop}");
            one = self.leaves_step(rt, alloc, &d, blends[0], &one)?;
            other = self.leaves_step(rt, alloc, &d, blends[1], &other)?;
            if ended == 0 {
                return Ok(());
            }
        }
        Err("the verb is done in the end".into())
    }

    // One call of a kind fails: the status, and the port of the next run.
    fn failed(
        &self,
        alloc: Global,
        d: MemPort,
        kind: CallKind,
        nth: u64,
    ) -> Result<(u8, MemPort), Fail> {
        let mut d = d;
        d.fail_at(kind, nth).map_err(|_| Fail::from("memory"))?;
        let ended = status(alloc, &mut d, &self.verb)?;
        Ok((ended, next(alloc, d, &self.verb)?))
    }

    // Each of its calls of a kind fails once, which is this status. Where the disk is as it was,
    // the next call fails on it, and now and then on a disk anew.
    fn faults(
        &self,
        rt: &impl Abort,
        alloc: Global,
        kind: CallKind,
        wanted: u8,
    ) -> Result<(), Fail> {
        let mut d = self.again(alloc)?;
        let first = contents(alloc, &mut d)?;
        let mut before = Vec::new(alloc);
        for nth in 0..MOST {
            let (ended, mut left) = self.failed(alloc, d, kind, nth)?;
            let now = contents(alloc, &mut left)?;
            if now.as_slice() != before.as_slice() {
                self.is_step(rt, alloc, left_by(&left, Blend::New)?)?;
            }
            if ended == 0 {
                return Ok(());
            }
            assert_eq!(rt; ended, wanted, "{kind:?} {nth}");
            let is_first = nth % 16 != 0 && now.as_slice() == first.as_slice();
            d = if is_first { left } else { self.again(alloc)? };
            before = now;
        }
        Err("the verb is done in the end".into())
    }
}

// A verb is stopped at each of its writes and syncs, over these blends.
fn stops(rt: &impl Abort, alloc: Global, trial: &Trial, blends: [Blend; 2]) -> Result<(), Fail> {
    Cut::new(rt, alloc, trial)?.stops(rt, alloc, blends)
}

// Writes the sum of a sector.
fn put_sum(bytes: &mut [u8; 512]) {
    let sum = crc32(&bytes[..508]);
    put_le32(bytes, 508, sum);
}

// A mark as it was under version 1.
fn as_version_1(mut mark: [u8; 512]) -> [u8; 512] {
    mark[4] = 1;
    put_sum(&mut mark);
    mark
}

// That disk as it was under version 1 of the mark, with other bytes where version 2 adds statuses.
fn of_version_1(d: MemPort) -> Result<MemPort, Fail> {
    let mut d = d;
    let mut mark = [0u8; 512];
    if d.sectors() < 2113 || d.read_sector(2048, &mut mark).is_err() {
        return Err("a mark is read".into());
    }
    for (at, bytes) in [
        (2048, as_version_1(mark)),
        (2081, [0xff; 512]),
        (2100, [0xff; 512]),
        (2112, [0xff; 512]),
    ] {
        if at >= d.sectors() || d.write_sector(at, &bytes).is_err() {
            return Err("a sector is written".into());
        }
    }
    left_by(&d, Blend::New)
}

// A verb of one step on that disk is stopped at each of its writes and syncs.
fn stops_of_version_1(
    rt: &impl Abort,
    alloc: Global,
    start: MemPort,
    verb: Verb<'static>,
) -> Result<(), Fail> {
    let pages = pages(rt, alloc, left_by(&start, Blend::New)?, &[verb])?;
    let start = of_version_1(start)?;
    let cut = Cut { start, verb, pages };
    cut.stops(rt, alloc, WHOLE)?;
    cut.stops(rt, alloc, MIXED)
}

// Each call of a verb fails once.
fn faults(rt: &impl Abort, alloc: Global, trial: &Trial) -> Result<(), Fail> {
    let cut = Cut::new(rt, alloc, trial)?;
    cut.faults(rt, alloc, CallKind::Disk, 6)?;
    cut.faults(rt, alloc, CallKind::Hear, 7)?;
    cut.faults(rt, alloc, CallKind::Say, 7)
}

const WHOLE: [Blend; 2] = [Blend::Old, Blend::New];

const MIXED: [Blend; 2] = [Blend::Even, Blend::Odd];

#[test]
fn a_make_is_stopped_anywhere(rt: HostRuntime) -> Result<(), Fail> {
    stops(&rt, rt.alloc(), &MAKING, WHOLE)
}

#[test]
fn a_make_is_stopped_anywhere_over_mixed_sectors(rt: HostRuntime) -> Result<(), Fail> {
    stops(&rt, rt.alloc(), &MAKING, MIXED)
}

#[test]
fn a_make_meets_a_fault_of_each_call(rt: HostRuntime) -> Result<(), Fail> {
    faults(&rt, rt.alloc(), &MAKING)
}

#[test]
fn an_install_is_stopped_anywhere(rt: HostRuntime) -> Result<(), Fail> {
    stops(&rt, rt.alloc(), &INSTALLING, WHOLE)
}

#[test]
fn an_install_is_stopped_anywhere_over_mixed_sectors(rt: HostRuntime) -> Result<(), Fail> {
    stops(&rt, rt.alloc(), &INSTALLING, MIXED)
}

#[test]
fn an_install_meets_a_fault_of_each_call(rt: HostRuntime) -> Result<(), Fail> {
    faults(&rt, rt.alloc(), &INSTALLING)
}

#[test]
fn a_session_is_stopped_anywhere(rt: HostRuntime) -> Result<(), Fail> {
    stops(&rt, rt.alloc(), &SERVING, WHOLE)
}

#[test]
fn a_session_is_stopped_anywhere_over_mixed_sectors(rt: HostRuntime) -> Result<(), Fail> {
    stops(&rt, rt.alloc(), &SERVING, MIXED)
}

#[test]
fn a_session_meets_a_fault_of_each_call(rt: HostRuntime) -> Result<(), Fail> {
    faults(&rt, rt.alloc(), &SERVING)
}

#[test]
fn a_factory_install_is_stopped_anywhere(rt: HostRuntime) -> Result<(), Fail> {
    stops(&rt, rt.alloc(), &FACTORY, WHOLE)
}

#[test]
fn a_factory_install_is_stopped_anywhere_over_mixed_sectors(rt: HostRuntime) -> Result<(), Fail> {
    stops(&rt, rt.alloc(), &FACTORY, MIXED)
}

#[test]
fn a_factory_install_meets_a_fault_of_each_call(rt: HostRuntime) -> Result<(), Fail> {
    faults(&rt, rt.alloc(), &FACTORY)
}

#[test]
fn a_merge_is_stopped_anywhere(rt: HostRuntime) -> Result<(), Fail> {
    stops(&rt, rt.alloc(), &MERGING, WHOLE)
}

#[test]
fn a_merge_is_stopped_anywhere_over_mixed_sectors(rt: HostRuntime) -> Result<(), Fail> {
    stops(&rt, rt.alloc(), &MERGING, MIXED)
}

#[test]
fn a_device_of_version_1_is_stopped_anywhere(rt: HostRuntime) -> Result<(), Fail> {
    stops_of_version_1(&rt, rt.alloc(), behind(&rt, rt.alloc(), 1)?, BOOT)
}

#[test]
fn an_installing_device_of_version_1_is_stopped_anywhere(rt: HostRuntime) -> Result<(), Fail> {
    let alloc = rt.alloc();
    let steps = STEPS.get(..4).unwrap_or(STEPS);
    let installing = all_done(&rt, alloc, behind(&rt, alloc, 1)?, steps)?;
    stops_of_version_1(&rt, alloc, left_by(&installing, Blend::New)?, ACTIVATE_A)
}

#[test]
fn an_updated_device_of_version_1_is_stopped_anywhere(rt: HostRuntime) -> Result<(), Fail> {
    stops_of_version_1(&rt, rt.alloc(), behind(&rt, rt.alloc(), 2)?, CANCEL)
}

#[test]
fn a_merging_device_of_version_1_is_stopped_anywhere(rt: HostRuntime) -> Result<(), Fail> {
    stops_of_version_1(&rt, rt.alloc(), behind(&rt, rt.alloc(), 6)?, ONE_TURN)
}

#[test]
fn a_merged_device_of_version_1_is_stopped_anywhere(rt: HostRuntime) -> Result<(), Fail> {
    stops_of_version_1(&rt, rt.alloc(), behind(&rt, rt.alloc(), 7)?, BOOT)
}

#[test]
fn a_merge_meets_a_fault_of_each_call(rt: HostRuntime) -> Result<(), Fail> {
    faults(&rt, rt.alloc(), &MERGING)
}

#[test]
fn each_short_verb_is_stopped_anywhere(rt: HostRuntime) -> Result<(), Fail> {
    for trial in &SHORT {
        stops(&rt, rt.alloc(), trial, WHOLE)?;
        stops(&rt, rt.alloc(), trial, MIXED)?;
    }
    Ok(())
}

#[test]
fn each_short_verb_meets_a_fault_of_each_call(rt: HostRuntime) -> Result<(), Fail> {
    for trial in &SHORT {
        faults(&rt, rt.alloc(), trial)?;
    }
    Ok(())
}
