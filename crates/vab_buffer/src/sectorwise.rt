//! A store of runs over a disk, sector by sector.

ghost use Rattle.std.specs.Prelude.{◌≡◌, ◌≤◌, ◌+◌, ◌%◌, length, OnOk};
ghost use Rattle.vab_disk.specs.Calls.{OnlyReads, FailsWithDisk};
ghost use Rattle.vab_gate.specs.Gate.{set_sectors, sectors_at, IsAmong};
ghost use Rattle.vab_buffer.specs.Store.{sectors_in, OnlyWrites};

use crate::RunStore;
use vab_disk::{Disk, Failed};
use vab_gate::SECTOR;

/// A store of runs over any disk, each run so many calls of it. Over a port in memory it tells
/// everything, and the calls that are listed there fail in the midst of a run.
#[derive(Drop)]
pub struct Sectorwise<D: Disk + Drop> {
    disk: D,
}

// Reads sectors one after another.
fn read_sectors<D: Disk>(d: &mut D, at: u64, out: &mut [u8]) -> Result<(), Failed>
    requires whole { length out.old % 512 ≡ 0 }
    requires within { at + sectors_in out.old ≤ D.size d.old }
    ensures bytes { D.is_modelled → OnOk result
        (out.new ≡ sectors_at (sectors_in out.old) (D.seen d.old) at) }
    ensures reads { OnlyReads D.Disk d.old d.new }
    ensures faults { FailsWithDisk D.Disk d.old d.new result }
{
    let count = out.len() / SECTOR;
    for i in 0..count {
        let mut sector = [0u8; SECTOR];
        d.read_sector(at + i as u64, &mut sector)?;
        out[SECTOR * i..SECTOR * i + SECTOR].copy_from_slice(&sector);
    }
    Ok(())
}

// Writes sectors one after another.
fn write_sectors<D: Disk>(d: &mut D, at: u64, from: &[u8]) -> Result<(), Failed>
    requires whole { length from.now % 512 ≡ 0 }
    requires within { at + sectors_in from.now ≤ D.size d.old }
    ensures written { D.is_modelled → OnOk result
        (D.seen d.new ≡ set_sectors (sectors_in from.now) (D.seen d.old) at from.now) }
    ensures writes { OnlyWrites D.Disk (IsAmong (sectors_in from.now) at from.now) d.old d.new }
    ensures faults { FailsWithDisk D.Disk d.old d.new result }
{
    let count = from.len() / SECTOR;
    for i in 0..count {
        let mut sector = [0u8; SECTOR];
        sector.copy_from_slice(&from[SECTOR * i..SECTOR * i + SECTOR]);
        d.write_sector(at + i as u64, &sector)?;
    }
    Ok(())
}

impl<D: Disk + Drop> Sectorwise<D> {
    pub fn new(disk: D) -> Self
        ensures { result.disk ≡ disk }
    {
        Sectorwise { disk }
    }

    pub fn disk(&self) -> &D
        ensures { result.now ≡ self.now.disk }
    {
        &self.disk
    }
}

impl<D: Disk + Drop> RunStore for Sectorwise<D> {
    ghost is_modelled = { D.is_modelled };

    ghost size = { λ r. D.size r.disk };

    ghost seen = { λ r. D.seen r.disk };

    ghost may_leave = { λ r. D.may_leave r.disk };

    ghost told = { λ r. D.told r.disk };

    ghost input_left = { λ r. D.input_left r.disk };

    ghost heard = { λ r. D.heard r.disk };

    ghost faults = { λ r. D.faults r.disk };

    ghost moment = { λ r. D.moment r.disk };

    ghost outcomes = { λ r. D.outcomes r.disk };

    ghost small = { λ r. D.small r.disk };

    ghost whole = { λ r. D.whole r.disk };

    ghost seen_held = { λ r. D.seen_held r.disk };

    ghost bytes = { λ r. D.bytes r.disk };

    ghost counts_now = { λ r. D.counts_now r.disk };

    ghost only_now = { λ r. D.only_now r.disk };

    fn sectors(&self) -> u64 {
        self.disk.sectors()
    }

    fn read_run(&mut self, at: u64, out: &mut [u8]) -> Result<(), Failed> {
        read_sectors(&mut self.disk, at, out)
    }

    fn write_run(&mut self, at: u64, from: &[u8]) -> Result<(), Failed> {
        write_sectors(&mut self.disk, at, from)
    }

    fn sync(&mut self) -> Result<(), Failed> {
        self.disk.sync()
    }
}
