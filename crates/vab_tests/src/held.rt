// Runs over a disk that holds writes back and reads ahead, where one call of the disk below fails.

ghost use Rattle.std.specs.Prelude.{◌≡◌, ◌<◌, ◌≤◌, IfOk, OnOk, OnErr};
ghost use Rattle.vab_disk.specs.Disk.{NoFewer, SinkFailed, SourceFailed};

use crate::packets::{Case, session};
use crate::runs::{ONE, port, steps_on, words};
use std::alloc::Global;
use std::io::Read;
use std::process::Abort;
use std::test::Fail;
use vab_buffer::{Buffered, Sectorwise};
use vab_cli::run;
use vab_disk::{CallKind, Disk, Failed, MemPort, Port, PortFault};

const SMALL: u64 = 6400;

// A port over any disk. It tells counts alone.
#[derive(Drop)]
struct HeldPort<D: Disk + Drop, R: Read + Drop> {
    disk: D,
    input: R,
    told: Vec<u8>,
    disk_faults: u64,
    source_faults: u64,
    sink_faults: u64,
}

impl<D: Disk + Drop, R: Read + Drop> Disk for HeldPort<D, R> {
    ghost use Rattle.std.specs.Prelude.{[], ℕ, refl, replicate};
    ghost use Rattle.std.proofs.Common.{subst, sym, lit<};
    ghost use Rattle.vab_disk.specs.Disk.{Faults, Leaves, IsSector};
    ghost use Rattle.vab_disk.specs.Calls.{IsQuiet, OnlyReads, FailsWithDisk};
    ghost use Rattle.vab_disk.specs.MemoryLaws.{zeros_whole};

    ghost is_modelled = { ⊥ };

    ghost size = { λ p. D.size p.disk };

    ghost seen = { λ p s. replicate 512 0 };

    ghost may_leave = { λ p s b. b ≡ replicate 512 0 };

    ghost told = { λ p. [] };

    ghost input_left = { λ p. [] };

    ghost heard = { λ p. [] };

    ghost faults = { λ p. record {
      disk = p.disk_faults;
      source = p.source_faults;
      sink = p.sink_faults;
    } };

    ghost moment = { λ p. 0 };

    ghost outcomes = { λ p t o. Leaves [] (λ s b. b ≡ replicate 512 0) o };

    ghost small = { λ p. D.small p.disk };

    ghost whole = { λ p s b below is. subst IsSector (sym is) zeros_whole };

    ghost seen_held = { λ p s. refl };

    ghost bytes = { λ p k. lit< tt };

    ghost counts_now = { λ p t o le now. now };

    ghost only_now = { λ p o left. left };

    fn sectors(&self) -> u64 {
        self.disk.sectors()
    }

    fn read_sector(&mut self, at: u64, out: &mut [u8; 512]) -> Result<(), Failed>
        requires { at < D.size self.old.disk }
        ensures reads { OnlyReads ⟦<HeldPort<D, R> as Disk>⟧ self.old self.new }
        ensures faults { FailsWithDisk ⟦<HeldPort<D, R> as Disk>⟧ self.old self.new result }
    {
        match self.disk.read_sector(at, out) {
            Ok(()) => Ok(()),
            Err(_) => {
                self.disk_faults = self.disk_faults.saturating_add(1);
                Err(Failed)
            }
        }
    }

    fn write_sector(&mut self, at: u64, from: &[u8; 512]) -> Result<(), Failed>
        requires { at < D.size self.old.disk }
        ensures quiet { IsQuiet ⟦<HeldPort<D, R> as Disk>⟧ self.old self.new }
        ensures faults { FailsWithDisk ⟦<HeldPort<D, R> as Disk>⟧ self.old self.new result }
    {
        match self.disk.write_sector(at, from) {
            Ok(()) => Ok(()),
            Err(_) => {
                self.disk_faults = self.disk_faults.saturating_add(1);
                Err(Failed)
            }
        }
    }

    fn sync(&mut self) -> Result<(), Failed>
        ensures quiet { IsQuiet ⟦<HeldPort<D, R> as Disk>⟧ self.old self.new }
        ensures faults { FailsWithDisk ⟦<HeldPort<D, R> as Disk>⟧ self.old self.new result }
    {
        match self.disk.sync() {
            Ok(()) => Ok(()),
            Err(_) => {
                self.disk_faults = self.disk_faults.saturating_add(1);
                Err(Failed)
            }
        }
    }
}

impl<D: Disk + Drop, R: Read + Drop> Port for HeldPort<D, R> {
    ghost use Rattle.std.specs.Prelude.{length, IsErrOf};

    fn hear(&mut self, out: &mut [u8]) -> Result<usize, PortFault>
        ensures fits { IfOk result (λ n. n ≤ length out.old) }
        ensures size { ⟦<HeldPort<D, R> as Disk>⟧.size self.new
            ≡ ⟦<HeldPort<D, R> as Disk>⟧.size self.old }
        ensures counts { NoFewer (⟦<HeldPort<D, R> as Disk>⟧.faults self.old)
            (⟦<HeldPort<D, R> as Disk>⟧.faults self.new) }
        ensures steady { OnOk result
            (⟦<HeldPort<D, R> as Disk>⟧.faults self.new
            ≡ ⟦<HeldPort<D, R> as Disk>⟧.faults self.old) }
        ensures kind { IsErrOf result PortFault.Sink → ⊥ }
        ensures cause { OnErr result
            (SourceFailed (⟦<HeldPort<D, R> as Disk>⟧.faults self.old)
            (⟦<HeldPort<D, R> as Disk>⟧.faults self.new)) }
    {
        match self.input.read(out) {
            Ok(count) => Ok(count),
            Err(_) => {
                self.source_faults = self.source_faults.saturating_add(1);
                Err(PortFault::Source)
            }
        }
    }

    fn say(&mut self, from: &[u8]) -> Result<usize, PortFault>
        ensures fits { IfOk result (λ n. n ≤ length from.now) }
        ensures some { IfOk result (λ n. n ≡ 0 → length from.now ≡ 0) }
        ensures size { ⟦<HeldPort<D, R> as Disk>⟧.size self.new
            ≡ ⟦<HeldPort<D, R> as Disk>⟧.size self.old }
        ensures counts { NoFewer (⟦<HeldPort<D, R> as Disk>⟧.faults self.old)
            (⟦<HeldPort<D, R> as Disk>⟧.faults self.new) }
        ensures steady { OnOk result
            (⟦<HeldPort<D, R> as Disk>⟧.faults self.new
            ≡ ⟦<HeldPort<D, R> as Disk>⟧.faults self.old) }
        ensures kind { IsErrOf result PortFault.Source → ⊥ }
        ensures cause { OnErr result
            (SinkFailed (⟦<HeldPort<D, R> as Disk>⟧.faults self.old)
            (⟦<HeldPort<D, R> as Disk>⟧.faults self.new)) }
    {
        match self.told.extend_from_slice(from) {
            Ok(()) => Ok(from.len()),
            Err(_) => {
                self.sink_faults = self.sink_faults.saturating_add(1);
                Err(PortFault::Sink)
            }
        }
    }
}

// Where a small device has its bytes: boot control, the mark, the first statuses, the geometry, the
// tables and its first blocks.
const PLACES: [(u64, u64); 5] = [
    (4, 5),
    (2048, 2051),
    (4104, 4105),
    (4112, 4128),
    (6144, 6184),
];

// What the last sync has left in the sectors that aren't zeros.
type Sectors = Vec<(u64, [u8; 512])>;

fn settled(alloc: Global, d: &MemPort) -> Result<Sectors, Fail> {
    let mut sectors = Vec::new(alloc);
    for (from, to) in PLACES {
        for at in from..to {
            if at >= d.sectors() {
                continue;
            }
            let bytes = d.settled_sector(at);
            if bytes != [0; 512] {
                sectors.push((at, bytes))?;
            }
        }
    }
    Ok(sectors)
}

// A disk of these sectors.
fn disk_of(rt: &impl Abort, alloc: Global, sectors: &Sectors) -> Result<MemPort, Fail> {
    let mut d = port(alloc, SMALL, b"")?;
    for (at, bytes) in sectors {
        assert!(rt; *at < d.sectors() && d.write_sector(*at, bytes).is_ok());
    }
    assert!(rt; d.sync().is_ok());
    Ok(d.next_run(Vec::new(alloc)))
}

// A run on a disk: its words and its input, what it tells, and the devices that it goes through. Of
// each reply it has how many bytes are told through it, and how many of the devices there are from
// there to the next one, both counted.
#[derive(Clone, Copy)]
struct Trial<'a> {
    base: &'a Sectors,
    words: &'a [&'a str],
    input: &'a [u8],
    told: &'a [u8],
    replies: &'a [(usize, usize)],
    devices: &'a [Vec<u8>],
}

// The run over a store whose call of this number fails: its status, what it tells, and the disk as
// its last sync has left it.
fn failing(
    rt: &impl Abort,
    alloc: Global,
    trial: &Trial<'_>,
    nth: u64,
) -> Result<(u8, Vec<u8>, Sectors), Fail> {
    let mut below = disk_of(rt, alloc, trial.base)?;
    below
        .fail_at(CallKind::Disk, nth)
        .map_err(|_| Fail::from("memory"))?;
    let disk = Buffered::new(alloc, Sectorwise::new(below)).map_err(|_| Fail::from("memory"))?;
    let mut port = HeldPort {
        disk,
        input: trial.input,
        told: Vec::new(alloc),
        disk_faults: 0,
        source_faults: 0,
        sink_faults: 0,
    };
    let words = words(alloc, trial.words)?;
    let status = run(alloc, &words, &mut port).code();
    let after = settled(alloc, port.disk.store().disk())?;
    Ok((status, port.told, after))
}

// The page and the images of the device on a disk, or that there is none.
fn device(alloc: Global, d: MemPort) -> Result<(Vec<u8>, MemPort), Fail> {
    let mut d = d;
    let mut text = Vec::new(alloc);
    let asked: [&[&str]; 3] = [&["status"], &["print", "x_a"], &["print", "x_b"]];
    for texts in asked {
        d = d.next_run(Vec::new(alloc));
        let words = words(alloc, texts)?;
        run(alloc, &words, &mut d);
        text.extend_from_slice(d.told())?;
    }
    Ok((text, d))
}

// The devices that the run may have left where so much was told.
fn left(trial: &Trial<'_>, told: usize) -> (usize, usize) {
    let (mut from, mut count) = (0usize, 0usize);
    for (through, steps) in trial.replies {
        if *through <= told {
            from = from.saturating_add(count).saturating_sub(1);
            count = *steps;
        }
    }
    (from, count)
}

// Makes the run again and again, and another call of the disk below fails each time. It ends with
// status 6, or with 0 as if nothing had failed, where the call read ahead. The disk then is one of
// the devices that the run goes through behind the last reply that is told. At most 72 calls one
// behind the other read ahead here, so behind 80 that fail nothing the run has no more.
fn each_call_fails(rt: &impl Abort, alloc: Global, trial: &Trial<'_>) -> Result<(), Fail> {
    let (mut failed, mut passed) = (0u64, 0u64);
    let (mut sectors, mut found) = (Vec::new(alloc), Vec::new(alloc));
    for nth in 0..4096u64 {
        let (status, told, after) = failing(rt, alloc, trial, nth)?;
        assert!(rt; trial.told.starts_with(&told), "call {nth}");
        if nth == 0 || after.as_slice() != sectors.as_slice() {
            (found, _) = device(alloc, disk_of(rt, alloc, &after)?)?;
            sectors = after;
        }
        let (from, count) = left(trial, told.len());
        let mut steps = trial.devices.iter().skip(from).take(count);
        assert!(rt;
            steps.any(|step| step.as_slice() == found.as_slice()),
            "call {nth}"
        );
        if status == 6 {
            failed = failed.saturating_add(1);
            passed = 0;
            continue;
        }
        assert!(rt;
            status == 0 && told.len() == trial.told.len(),
            "call {nth}: {status}"
        );
        passed = passed.saturating_add(1);
        if passed > 80 {
            break;
        }
    }
    assert!(rt; failed > 10 && passed > 80);
    Ok(())
}

const MAKE: &[&str] = &["make", "--metadata-max", "1024"];

const MADE: &[u8] = b"made 1 images, 1 of 32 blocks\n";

// Runs these sessions one after another, and gives the device before and after each.
fn devices(
    rt: &impl Abort,
    alloc: Global,
    d: MemPort,
    sessions: &[&[Case<'_>]],
) -> Result<(Vec<Vec<u8>>, MemPort), Fail> {
    let mut devices = Vec::new(alloc);
    let (first, mut d) = device(alloc, d)?;
    devices.push(first)?;
    for cases in sessions {
        let (input, told) = session(alloc, cases)?;
        d = steps_on(rt, alloc, d, &[(&["serve"], &input, 0, &told)])?;
        let (next, after) = device(alloc, d)?;
        devices.push(next)?;
        d = after;
    }
    Ok((devices, d))
}

#[test]
fn a_device_is_made_where_a_call_below_the_buffer_fails(rt: HostRuntime) -> Result<(), Fail> {
    let alloc = rt.alloc();
    let base = Vec::new(alloc);
    let d = steps_on(
        &rt,
        alloc,
        port(alloc, SMALL, b"")?,
        &[(MAKE, &ONE, 0, MADE)],
    )?;
    let (none, _) = device(alloc, port(alloc, SMALL, b"")?)?;
    let (made, _) = device(alloc, d)?;
    let devices = vec![in alloc; none, made]?;
    let trial = Trial {
        base: &base,
        words: MAKE,
        input: &ONE,
        told: MADE,
        replies: &[(0, 2), (MADE.len(), 1)],
        devices: &devices,
    };
    each_call_fails(&rt, alloc, &trial)
}

// The session tells `FB01`, `OKAY` of the begin and of the store, `DATA` and `OKAY` of the
// download, and `OKAY` of the flash and of the finish.
#[test]
fn an_update_is_installed_where_a_call_below_the_buffer_fails(rt: HostRuntime) -> Result<(), Fail> {
    let alloc = rt.alloc();
    let made = steps_on(
        &rt,
        alloc,
        port(alloc, SMALL, b"")?,
        &[(MAKE, &ONE, 0, MADE)],
    )?;
    let base = settled(alloc, &made)?;
    let cases: [Case; 6] = [
        (b"oem begin".as_slice(), b"OKAY".as_slice()),
        (b"oem snapshot x_b 0", b"OKAY"),
        (b"download:00000003", b"DATA00000003"),
        (b"abd", b"OKAY"),
        (b"flash:x_b", b"OKAY"),
        (b"oem finish", b"OKAY"),
    ];
    let sessions: [&[Case]; 4] = [&cases[..1], &cases[1..2], &cases[2..5], &cases[5..]];
    let (devices, _) = devices(&rt, alloc, made, &sessions)?;
    let (input, told) = session(alloc, &cases)?;
    let trial = Trial {
        base: &base,
        words: &["serve"],
        input: &input,
        told: &told,
        replies: &[
            (0, 1),
            (4, 2),
            (16, 2),
            (28, 1),
            (48, 1),
            (60, 2),
            (72, 2),
            (84, 1),
        ],
        devices: &devices,
    };
    each_call_fails(&rt, alloc, &trial)
}

#[test]
fn a_merge_goes_on_where_a_call_below_the_buffer_fails(rt: HostRuntime) -> Result<(), Fail> {
    let alloc = rt.alloc();
    let made = steps_on(
        &rt,
        alloc,
        port(alloc, SMALL, b"")?,
        &[(MAKE, &ONE, 0, MADE)],
    )?;
    let cases: [Case; 10] = [
        (b"oem begin".as_slice(), b"OKAY".as_slice()),
        (b"oem snapshot x_b 0", b"OKAY"),
        (b"download:00000003", b"DATA00000003"),
        (b"abd", b"OKAY"),
        (b"flash:x_b", b"OKAY"),
        (b"oem finish", b"OKAY"),
        (b"set_active:b", b"OKAY"),
        (b"oem boot", b"OKAYb"),
        (b"oem mark-successful", b"OKAY"),
        (b"oem begin-merge", b"OKAY"),
    ];
    let (_, merging) = devices(&rt, alloc, made, &[&cases])?;
    let base = settled(alloc, &merging)?;
    let turns: [&[Case]; 2] = [
        &[(b"oem merge 1", b"OKAYleft 0")],
        &[(b"oem merge 1", b"OKAYmerged")],
    ];
    let (devices, _) = devices(&rt, alloc, merging, &turns)?;
    let trial = Trial {
        base: &base,
        words: &["merge", "2"],
        input: b"",
        told: b"merged\n",
        replies: &[(0, 3), (7, 1)],
        devices: &devices,
    };
    each_call_fails(&rt, alloc, &trial)
}
