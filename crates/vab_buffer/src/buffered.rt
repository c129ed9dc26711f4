// A disk over a store of runs, that holds writes back and reads ahead.
ghost use Rattle.std.specs.Prelude.{◌≡◌, ◌⊎◌, ◌<◌, ◌≤◌, ◌+◌, ◌*◌, ℕ, List, length, slice_index};
ghost use Rattle.std.specs.Prelude.{IfOk, OnOk, OnErr, take};
ghost use Rattle.std.specs.Bool.{OnTrue, OnFalse};
ghost use Rattle.vab_disk.specs.Disk.{DiskFailed, Outcome, SameHoldings};
ghost use Rattle.vab_disk.specs.Calls.{OnlyReads, FailsWithDisk};
ghost use Rattle.vab_gate.specs.Gate.{sectors_at};
ghost use Rattle.vab_buffer.specs.Held.{as_disk, faults_of, IsFetched, FailsReading};
ghost use Rattle.vab_buffer.specs.Run.{over, IsKept, Has, Takes};
ghost use Rattle.vab_buffer.specs.Store.{OnlyWrites};

use crate::RunStore;
use crate::run::{RUN_SECTORS, Run};
use std::alloc::Global;
use vab_disk::{Disk, Failed, NoMemory};
use vab_gate::SECTOR;

// How many times as long the next run is that is read ahead, up to the room that there is.
const GROWTH: usize = 8;

/// A disk over a store of runs. Writes are held back, as long as each follows the one before, and
/// go to the store as one run when there are 128 sectors of them, when another sector is written,
/// and before a sync. A crash may leave each sector as the store may leave it, or as what is held
/// back. Reads one after another are served from a run that is read ahead. A read ahead that fails
/// is tried again with the sector alone, and is no fault of the disk where that succeeds.
#[derive(Drop)]
pub struct Buffered<S: RunStore + Drop> {
    store: S,
    held: Run,
    ahead: Run,
    failed: u64,
    ghost within: { held.first + held.count ≤ S.size store },
    ghost ahead_within: { ahead.first + ahead.count ≤ S.size store },
    ghost fetched: { IsFetched S.RunStore store ahead },
}

// Writes a run to the store.
fn write_kept<S: RunStore>(store: &mut S, run: &Run) -> Result<(), Failed>
    requires { run.now.first + run.now.count ≤ S.size store.old }
    ensures written { S.is_modelled → OnOk result
        (S.seen store.new ≡ over (S.seen store.old) run.now) }
    ensures writes { OnlyWrites (as_disk S.RunStore) (IsKept run.now) store.old store.new }
    ensures faults { FailsWithDisk (as_disk S.RunStore) store.old store.new result }
{
    store.write_run(run.first, run.kept())?;
    Ok(())
}

// Reads so many sectors to the front of a buffer.
fn read_front<S: RunStore>(
    store: &mut S,
    bytes: &mut [u8],
    at: u64,
    count: usize,
) -> Result<(), Failed>
    requires room { 512 * count ≤ length bytes.old }
    requires within { at + count ≤ S.size store.old }
    ensures bytes { S.is_modelled → OnOk result
        (take (512 * count) bytes.new ≡ sectors_at count (S.seen store.old) at) }
    ensures small { (k : ℕ) → slice_index bytes.new k < 256 }
    ensures reads { OnlyReads (as_disk S.RunStore) store.old store.new }
    ensures faults { FailsWithDisk (as_disk S.RunStore) store.old store.new result }
{
    store.read_run(at, &mut bytes[..SECTOR * count])
}

// Reads so many sectors to the front of a run's buffer.
fn load<S: RunStore>(store: &mut S, run: &mut Run, at: u64, count: usize) -> Result<(), Failed>
    requires room { count ≤ 128 }
    requires within { at + count ≤ S.size store.old }
    ensures bytes { S.is_modelled → OnOk result
        (take (512 * count) run.new.bytes.items ≡ sectors_at count (S.seen store.old) at) }
    ensures first { run.new.first ≡ run.old.first }
    ensures count { run.new.count ≡ run.old.count }
    ensures reads { OnlyReads (as_disk S.RunStore) store.old store.new }
    ensures faults { FailsWithDisk (as_disk S.RunStore) store.old store.new result }
{
    read_front(store, &mut run.bytes, at, count)
}

// Reads so many sectors into a run. Where that fails the run is empty.
fn fill<S: RunStore>(store: &mut S, run: &mut Run, at: u64, count: usize) -> Result<(), Failed>
    requires room { count ≤ 128 }
    requires within { at + count ≤ S.size store.old }
    requires begun { run.old.first ≤ S.size store.old }
    ensures reads { OnlyReads (as_disk S.RunStore) store.old store.new }
    ensures fetched { IsFetched S.RunStore store.new run.new }
    ensures within { run.new.first + run.new.count ≤ S.size store.new }
    ensures first { OnOk result (run.new.first ≡ at) }
    ensures count { OnOk result (run.new.count ≡ count) }
    ensures faults { FailsWithDisk (as_disk S.RunStore) store.old store.new result }
{
    run.clear();
    load(store, run, at, count)?;
    run.begin(at, count);
    Ok(())
}

impl<S: RunStore + Drop> Buffered<S> {
    /// Nothing is held back yet: the disk is as the store is, with no fault counted. It takes all
    /// its memory here.
    pub fn new(alloc: Global, store: S) -> Result<Self, NoMemory>
        ensures size { IfOk result (λ d. ⟦<Buffered<S> as Disk>⟧.size d ≡ S.size store) }
        ensures seen { IfOk result (λ d. ⟦<Buffered<S> as Disk>⟧.seen d ≡ S.seen store) }
        ensures crash { IfOk result (λ d.
            SameHoldings (S.may_leave store) (⟦<Buffered<S> as Disk>⟧.may_leave d)) }
        ensures told { IfOk result (λ d. ⟦<Buffered<S> as Disk>⟧.told d ≡ S.told store) }
        ensures left { IfOk result (λ d.
            ⟦<Buffered<S> as Disk>⟧.input_left d ≡ S.input_left store) }
        ensures heard { IfOk result (λ d. ⟦<Buffered<S> as Disk>⟧.heard d ≡ S.heard store) }
        ensures faults { IfOk result (λ d. ⟦<Buffered<S> as Disk>⟧.faults d ≡ faults_of 0) }
        ensures store { IfOk result (λ d. d.store ≡ store) }
    {
        let held = Run::new(alloc)?;
        let ahead = Run::new(alloc)?;
        Ok(Buffered {
            store,
            held,
            ahead,
            failed: 0,
        })
    }

    /// The store. What it may leave, and what it may have left, the disk may too, at the same
    /// moment.
    pub fn store(&self) -> &S
        ensures store { result.now ≡ self.now.store }
        ensures crash { (s : ℕ) (b : List ℕ)
            → S.may_leave result.now s b
            → ⟦<Buffered<S> as Disk>⟧.may_leave self.now s b }
        ensures moment { ⟦<Buffered<S> as Disk>⟧.moment self.now ≡ S.moment result.now }
        ensures outcomes { (t : ℕ) (o : Outcome)
            → S.outcomes result.now t o
            → ⟦<Buffered<S> as Disk>⟧.outcomes self.now t o }
    {
        &self.store
    }

    // Writes to the store what is held back. Where that fails it is still held back.
    fn write_out(&mut self) -> Result<(), Failed>
        ensures reads { OnlyReads ⟦<Buffered<S> as Disk>⟧ self.old self.new }
        ensures none { OnOk result (self.new.held.count ≡ 0) }
        ensures faults { FailsWithDisk ⟦<Buffered<S> as Disk>⟧ self.old self.new result }
        ensures below { FailsWithDisk (as_disk S.RunStore) self.old.store self.new.store result }
    {
        if self.held.count == 0 {
            return Ok(());
        }
        self.ahead.clear();
        match write_kept(&mut self.store, &self.held) {
            Ok(()) => {
                self.held.clear();
                Ok(())
            }
            Err(_) => {
                self.failed = self.failed.saturating_add(1);
                Err(Failed)
            }
        }
    }

    // Sees to it that a sector may be held back.
    fn make_room(&mut self, at: u64) -> Result<(), Failed>
        ensures reads { OnlyReads ⟦<Buffered<S> as Disk>⟧ self.old self.new }
        ensures room { OnOk result (Takes self.new.held at) }
        ensures faults { FailsWithDisk ⟦<Buffered<S> as Disk>⟧ self.old self.new result }
        ensures below { FailsWithDisk (as_disk S.RunStore) self.old.store self.new.store result }
    {
        if self.held.takes(at) {
            return Ok(());
        }
        self.write_out()
    }

    // How many sectors to read from this one on: more of them where those before it were read last.
    fn run_from(&self, at: u64) -> usize
        requires { at < S.size self.now.store }
        ensures room { result ≤ 128 }
        ensures within { at + result ≤ S.size self.now.store }
    {
        let ahead = &self.ahead;
        if at < ahead.first || at - ahead.first != ahead.count as u64 {
            return 1;
        }
        let left = (self.store.sectors() - at) as usize;
        (GROWTH * ahead.count).min(RUN_SECTORS).min(left)
    }

    // Reads ahead from a sector on, where those before it were read last. Whether the sector is at
    // hand now.
    fn read_ahead(&mut self, at: u64) -> bool
        requires { at < S.size self.old.store }
        ensures reads { OnlyReads ⟦<Buffered<S> as Disk>⟧ self.old self.new }
        ensures here { OnTrue result (Has self.new.ahead at) }
        ensures held { self.new.held ≡ self.old.held }
        ensures failed { self.new.failed ≡ self.old.failed }
        ensures below { OnTrue result (S.faults self.new.store ≡ S.faults self.old.store) }
        ensures tried { OnFalse result
            ((S.faults self.new.store ≡ S.faults self.old.store)
            ⊎ DiskFailed (S.faults self.old.store) (S.faults self.new.store)) }
    {
        let count = self.run_from(at);
        if count < 2 {
            return false;
        }
        match fill(&mut self.store, &mut self.ahead, at, count) {
            Ok(()) => true,
            Err(_) => false,
        }
    }

    // Sees to it that a sector of the store is at hand.
    fn fetch(&mut self, at: u64) -> Result<(), Failed>
        requires { at < S.size self.old.store }
        ensures reads { OnlyReads ⟦<Buffered<S> as Disk>⟧ self.old self.new }
        ensures here { OnOk result (Has self.new.ahead at) }
        ensures held { self.new.held ≡ self.old.held }
        ensures faults { FailsWithDisk ⟦<Buffered<S> as Disk>⟧ self.old self.new result }
        ensures below { FailsReading S.RunStore self.old.store self.new.store result }
    {
        if self.ahead.has(at) || self.read_ahead(at) {
            return Ok(());
        }
        match fill(&mut self.store, &mut self.ahead, at, 1) {
            Ok(()) => Ok(()),
            Err(_) => {
                self.failed = self.failed.saturating_add(1);
                Err(Failed)
            }
        }
    }
}

impl<S: RunStore + Drop> Disk for Buffered<S> {
    ghost use Rattle.vab_disk.specs.Disk.{IsAt, set_sector};
    ghost use Rattle.vab_disk.specs.Calls.{IsAtRest, OnlySyncs};
    ghost use Rattle.vab_buffer.specs.Held.{held_seen, held_leave, held_outcomes};
    ghost use Rattle.vab_buffer.specs.DiskLaws.{whole_over, seen_held_over, only_now_over};
    ghost use Rattle.std.proofs.Common.{inr};

    ghost is_modelled = { S.is_modelled };

    ghost size = { λ d. S.size d.store };

    ghost seen = { λ d. held_seen S.RunStore d.store d.held };

    ghost may_leave = { λ d. held_leave S.RunStore d.store d.held };

    ghost told = { λ d. S.told d.store };

    ghost input_left = { λ d. S.input_left d.store };

    ghost heard = { λ d. S.heard d.store };

    ghost faults = { λ d. faults_of d.failed };

    ghost moment = { λ d. S.moment d.store };

    ghost outcomes = { λ d. held_outcomes S.RunStore d.store d.held };

    ghost small = { λ d. S.small d.store };

    ghost whole = { λ d. whole_over S.RunStore.own S.whole d.store d.held };

    ghost seen_held = { λ d. seen_held_over S.RunStore.own S.seen_held d.store d.held };

    ghost bytes = { λ d. S.bytes d.store };

    ghost counts_now = { λ d t o le now. inr now };

    ghost only_now = { λ d. only_now_over S.RunStore.own S.only_now d.store d.held };

    fn sectors(&self) -> u64 {
        self.store.sectors()
    }

    fn read_sector(&mut self, at: u64, out: &mut [u8; 512]) -> Result<(), Failed>
        requires { at < S.size self.old.store }
        ensures bytes { S.is_modelled → OnOk result
            (out.new ≡ ⟦<Buffered<S> as Disk>⟧.seen self.old at) }
        ensures reads { OnlyReads ⟦<Buffered<S> as Disk>⟧ self.old self.new }
        ensures faults { FailsWithDisk ⟦<Buffered<S> as Disk>⟧ self.old self.new result }
        // At most one call of the store fails that is made good.
        ensures below { FailsReading S.RunStore self.old.store self.new.store result }
    {
        if self.held.has(at) {
            self.held.get(at, out);
            return Ok(());
        }
        self.fetch(at)?;
        self.ahead.get(at, out);
        Ok(())
    }

    fn write_sector(&mut self, at: u64, from: &[u8; 512]) -> Result<(), Failed>
        requires { at < S.size self.old.store }
        ensures written { S.is_modelled → OnOk result
            (⟦<Buffered<S> as Disk>⟧.seen self.new
            ≡ set_sector (⟦<Buffered<S> as Disk>⟧.seen self.old) at from.now) }
        ensures failed { OnErr result (OnlyReads ⟦<Buffered<S> as Disk>⟧ self.old self.new) }
        ensures writes { OnlyWrites ⟦<Buffered<S> as Disk>⟧ (IsAt at from.now) self.old self.new }
        ensures faults { FailsWithDisk ⟦<Buffered<S> as Disk>⟧ self.old self.new result }
        // It fails exactly where a call of the store does, and makes none behind it.
        ensures below { FailsWithDisk (as_disk S.RunStore) self.old.store self.new.store result }
    {
        self.make_room(at)?;
        self.held.push(at, from);
        Ok(())
    }

    fn sync(&mut self) -> Result<(), Failed>
        ensures settled { S.is_modelled → OnOk result (IsAtRest ⟦<Buffered<S> as Disk>⟧ self.new) }
        ensures failed { S.is_modelled → OnErr result
            (SameHoldings (⟦<Buffered<S> as Disk>⟧.may_leave self.old)
            (⟦<Buffered<S> as Disk>⟧.may_leave self.new)) }
        ensures syncs { OnlySyncs ⟦<Buffered<S> as Disk>⟧ self.old self.new }
        ensures faults { FailsWithDisk ⟦<Buffered<S> as Disk>⟧ self.old self.new result }
        // It fails exactly where a call of the store does, and makes none behind it.
        ensures below { FailsWithDisk (as_disk S.RunStore) self.old.store self.new.store result }
    {
        self.write_out()?;
        match self.store.sync() {
            Ok(()) => Ok(()),
            Err(fault) => {
                self.failed = self.failed.saturating_add(1);
                Err(fault)
            }
        }
    }
}
