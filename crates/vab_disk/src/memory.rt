// A port in memory. Each call is done at once. It keeps each call that took effect, and so what
// each moment left.
ghost use Rattle.std.specs.Prelude.{◌≡◌, ◌⊎◌, ◌≤◌, ◌<◌, ◌^◌, ℕ, List, [], ◌∷◌, ◌+◌, ◌++◌, length};
ghost use Rattle.std.specs.Prelude.{drop, take, reverse, slice_index_or, replicate, IfOk, OnOk};
ghost use Rattle.std.specs.Prelude.{OnErr, IsTrue, ◌↔◌, Contains};
ghost use Rattle.std.specs.Bool.{OnTrue, OnFalse};
ghost use Rattle.vab_disk.specs.Disk.{IsSettled, SameHoldings, DiskFailed, SinkFailed};
ghost use Rattle.vab_disk.specs.Disk.{SourceFailed, one_more};
ghost use Rattle.vab_disk.specs.Numbered.{Numbered};
ghost use Rattle.vab_disk.specs.Port.{Hears};
ghost use Rattle.vab_disk.specs.declared.record.Call.{Call as CallOf};
ghost use Rattle.vab_disk.specs.Memory.{seen_of, settled_of, told_of, taken_of, calls_of};
ghost use Rattle.vab_disk.specs.Memory.{takes_new, blended};
ghost use Rattle.vab_disk.specs.Memory.{earlier_of, IsStopped, LeavesSettledOrWritten};
ghost use Rattle.vab_disk.specs.Memory.{LeavesEachOfThem};

use crate::input::Input;
use crate::{Call, Disk, Failed, Failing, Port, PortFault, Sector};
use std::alloc::{AllocError, AllocFailed, Global};

/// Memory was refused.
#[derive(Clone, Copy, Debug, PartialEq, Eq)]
pub struct NoMemory;

impl From<AllocError> for NoMemory {
    fn from(_: AllocError) -> Self {
        NoMemory
    }
}

impl<T: Drop> From<AllocFailed<T>> for NoMemory {
    fn from(_: AllocFailed<T>) -> Self {
        NoMemory
    }
}

#[derive(Drop)]
pub struct MemPort {
    alloc: Global,
    count: u64,
    cells: Vec<[u8; 512]>,
    calls: Vec<Call>,
    begun: usize,
    input: Input,
    heard: usize,
    told: Vec<u8>,
    disk: Failing,
    source: Failing,
    sink: Failing,
    starved: u64,
    writes: u64,
    syncs: u64,
    stop: Option<u64>,
    ghost small: { count < 2 ^ 55 },
    ghost whole: { length cells.items ≡ count },
    ghost reads: { (s : ℕ)
        → slice_index_or cells.items s []
        ≡ seen_of count (calls_of begun calls.items ++ earlier_of begun calls.items) s },
    ghost tells: { told.items ≡ told_of (calls_of begun calls.items) },
    ghost began: { begun ≤ length calls.items },
    ghost within: { heard ≤ length input.bytes.items },
    ghost taken: { heard ≡ taken_of (calls_of begun calls.items) },
}

/// The calls that are numbered together.
#[derive(Clone, Copy, Debug, PartialEq, Eq)]
pub enum CallKind {
    Disk,
    Hear,
    Say,
}

/// Which of the values that a crash may leave each sector has.
#[derive(Clone, Copy, Debug, PartialEq, Eq)]
pub enum Blend {
    /// The settled ones.
    Old,
    /// Those that were written last.
    New,
    /// Those written last in sectors of even number, the settled ones in the others.
    Even,
    /// The contrary.
    Odd,
}

// Whether a sector has what was written last.
fn takes_new(blend: Blend, at: u64) -> bool
    ensures { result ≡ takes_new blend at }
{
    match blend {
        Blend::Old => false,
        Blend::New => true,
        Blend::Even => at % 2 == 0,
        Blend::Odd => at % 2 == 1,
    }
}

// Whether the call is a sync.
fn is_sync(call: &Call) -> bool
    ensures synced { OnTrue result ((count : ℕ) (older : List CallOf)
        → settled_of count (call.now ∷ older) ≡ seen_of count older) }
    ensures other { OnFalse result ((count : ℕ) (older : List CallOf)
        → settled_of count (call.now ∷ older) ≡ settled_of count older) }
{
    match call {
        Call::Synced => true,
        Call::Wrote(_, _) => false,
        Call::Read(_) => false,
        Call::Heard(_) => false,
        Call::Said(_) => false,
    }
}

// How many calls stand in front of the last sync; none, where there is none.
fn before_sync(calls: &[Call]) -> usize
    ensures within { result ≤ length calls.now }
    ensures settled { (count : ℕ)
        → settled_of count (reverse calls.now) ≡ seen_of count (reverse (take result calls.now)) }
{
    let mut last = 0;
    for i in 0..calls.len() {
        if is_sync(&calls[i]) {
            last = i;
        }
    }
    last
}

// Does a write once more.
fn replay(cells: &mut Vec<[u8; 512]>, call: &Call)
    ensures long { length cells.new.items ≡ length cells.old.items }
    ensures cells { (older : List CallOf)
        → ((s : ℕ) → s < length cells.old.items
        → slice_index_or cells.old.items s [] ≡ seen_of (length cells.old.items) older s)
        → (s : ℕ)
        → s < length cells.old.items
        → slice_index_or cells.new.items s []
        ≡ seen_of (length cells.old.items) (call.now ∷ older) s }
{
    match call {
        Call::Wrote(at, sector) => {
            if *at < cells.len() as u64 {
                cells[*at as usize] = sector.bytes;
            }
        }
        Call::Synced => {}
        Call::Read(_) => {}
        Call::Heard(_) => {}
        Call::Said(_) => {}
    }
}

/// What a crash may leave of a port in memory, by the calls that took effect.
pub fn laws_of_memory()
    ensures written { LeavesSettledOrWritten }
    ensures each { LeavesEachOfThem }
{}

// Sectors of zeros.
fn zeros(alloc: Global, sectors: usize) -> Result<Vec<[u8; 512]>, AllocError>
    ensures { IfOk result (λ v. v.items ≡ replicate sectors (replicate 512 0)) }
{
    let mut cells = Vec::new(alloc);
    for _i in 0..sectors {
        cells.push([0u8; 512])?;
    }
    Ok(cells)
}

impl MemPort {
    ghost use Rattle.vab_disk.specs.Listed.{ListsOne, SameListed, IsNewPort, NextRun};

    /// A port over sectors of zeros, which are settled, that hears this input.
    pub fn new(alloc: Global, sectors: u64, input: Vec<u8>) -> Result<MemPort, NoMemory>
        requires { sectors < 2 ^ 55 }
        ensures size { IfOk result (λ p. ⟦<MemPort as Disk>⟧.size p ≡ sectors) }
        ensures zeros { IfOk result
            (λ p. (s : ℕ) → s < sectors → ⟦<MemPort as Disk>⟧.seen p s ≡ replicate 512 0) }
        ensures settled { IfOk result
            (λ p. IsSettled (⟦<MemPort as Disk>⟧.seen p) (⟦<MemPort as Disk>⟧.may_leave p)) }
        ensures told { IfOk result (λ p. ⟦<MemPort as Disk>⟧.told p ≡ []) }
        ensures left { IfOk result (λ p. ⟦<MemPort as Disk>⟧.input_left p ≡ input.items) }
        ensures unheard { IfOk result (λ p. ⟦<MemPort as Disk>⟧.heard p ≡ []) }
        // No call is numbered, listed, stopped or counted yet.
        ensures fresh { IfOk result IsNewPort }
    {
        let cells = zeros(alloc, sectors as usize)?;
        Ok(MemPort {
            alloc,
            count: sectors,
            cells,
            calls: Vec::new(alloc),
            begun: 0,
            input: Input::new(input),
            heard: 0,
            told: Vec::new(alloc),
            disk: Failing::new(alloc),
            source: Failing::new(alloc),
            sink: Failing::new(alloc),
            starved: 0,
            writes: 0,
            syncs: 0,
            stop: None,
        })
    }

    /// Lists a call that is to fail.
    pub fn fail_at(&mut self, kind: CallKind, nth: u64) -> Result<(), NoMemory>
        ensures listed { OnOk result (ListsOne kind nth self.old self.new) }
        // Where memory is refused, the port is as it was.
        ensures same { OnErr result (SameListed self.old self.new) }
        ensures size { ⟦<MemPort as Disk>⟧.size self.new ≡ ⟦<MemPort as Disk>⟧.size self.old }
        ensures seen { ⟦<MemPort as Disk>⟧.seen self.new ≡ ⟦<MemPort as Disk>⟧.seen self.old }
        ensures may_leave { SameHoldings (⟦<MemPort as Disk>⟧.may_leave self.old)
            (⟦<MemPort as Disk>⟧.may_leave self.new) }
        ensures told { ⟦<MemPort as Disk>⟧.told self.new ≡ ⟦<MemPort as Disk>⟧.told self.old }
        ensures left { ⟦<MemPort as Disk>⟧.input_left self.new
            ≡ ⟦<MemPort as Disk>⟧.input_left self.old }
    {
        match kind {
            CallKind::Disk => self.disk.listed.push(nth)?,
            CallKind::Hear => self.source.listed.push(nth)?,
            CallKind::Say => self.sink.listed.push(nth)?,
        }
        Ok(())
    }

    pub fn starved(&self) -> u64
        ensures { result ≡ self.now.starved }
    {
        self.starved
    }

    /// After so many writes and syncs of this run every disk call fails.
    pub fn stop_after(&mut self, count: u64)
        ensures stop { self.new ≡ record self.old { stop = Some count } }
        ensures size { ⟦<MemPort as Disk>⟧.size self.new ≡ ⟦<MemPort as Disk>⟧.size self.old }
        ensures seen { ⟦<MemPort as Disk>⟧.seen self.new ≡ ⟦<MemPort as Disk>⟧.seen self.old }
        ensures may_leave { SameHoldings (⟦<MemPort as Disk>⟧.may_leave self.old)
            (⟦<MemPort as Disk>⟧.may_leave self.new) }
        ensures told { ⟦<MemPort as Disk>⟧.told self.new ≡ ⟦<MemPort as Disk>⟧.told self.old }
        ensures left { ⟦<MemPort as Disk>⟧.input_left self.new
            ≡ ⟦<MemPort as Disk>⟧.input_left self.old }
    {
        self.stop = Some(count);
    }

    /// The next run on the same disk, with its pending sectors. Nothing is told yet, and other
    /// input is heard.
    pub fn next_run(self, input: Vec<u8>) -> MemPort
        ensures size { ⟦<MemPort as Disk>⟧.size result ≡ ⟦<MemPort as Disk>⟧.size self }
        ensures seen { ⟦<MemPort as Disk>⟧.seen result ≡ ⟦<MemPort as Disk>⟧.seen self }
        ensures may_leave { SameHoldings (⟦<MemPort as Disk>⟧.may_leave self)
            (⟦<MemPort as Disk>⟧.may_leave result) }
        ensures told { ⟦<MemPort as Disk>⟧.told result ≡ [] }
        ensures left { ⟦<MemPort as Disk>⟧.input_left result ≡ input.items }
        ensures unheard { ⟦<MemPort as Disk>⟧.heard result ≡ [] }
        ensures faults { ⟦<MemPort as Disk>⟧.faults result ≡ ⟦<MemPort as Disk>⟧.faults self }
        // Lists, numbers and the stop begin anew.
        ensures anew { NextRun self result }
    {
        let mut port = self;
        port.begun = port.calls.len();
        port.told.clear();
        port.input = Input::new(input);
        port.heard = 0;
        port.writes = 0;
        port.syncs = 0;
        port.stop = None;
        port.disk.renew();
        port.source.renew();
        port.sink.renew();
        port
    }

    // Memory was refused to a `say`.
    fn starve(&mut self) -> PortFault
        ensures fault { result ≡ PortFault.Sink }
        ensures rose { self.new.sink.faults ≡ one_more self.old.sink.faults }
        ensures starving { self.new.starved ≡ one_more self.old.starved }
        ensures growing { self.old.starved ≤ self.new.starved }
        ensures later { self.old.sink.faults ≤ self.new.sink.faults }
        ensures calls { self.new.sink.calls ≡ self.old.sink.calls }
        ensures listed { self.new.sink.listed.items ≡ self.old.sink.listed.items }
        ensures same { self.new
            ≡ record self.old { sink = self.new.sink; starved = self.new.starved } }
    {
        self.starved = self.starved.saturating_add(1);
        self.sink.fail();
        PortFault::Sink
    }

    /// The settled bytes of a sector: those that the last sync left there.
    pub fn settled_sector(&self, at: u64) -> [u8; 512]
        requires { at < ⟦<MemPort as Disk>⟧.size self.now }
        ensures { result
            ≡ settled_of self.now.count (calls_of self.now.begun self.now.calls.items
            ++ earlier_of self.now.begun self.now.calls.items) at }
    {
        let mut now = [0u8; 512];
        let mut settled = [0u8; 512];
        for call in &self.calls {
            (now, settled) = after_call(call, at, now, settled);
        }
        settled
    }

    // The settled bytes of all sectors.
    fn settled_cells(&self) -> Result<Vec<[u8; 512]>, NoMemory>
        ensures long { IfOk result (λ v. length v.items ≡ self.now.count) }
        ensures cells { IfOk result (λ v. (s : ℕ) → s < self.now.count
            → slice_index_or v.items s []
            ≡ settled_of self.now.count (calls_of self.now.begun self.now.calls.items
            ++ earlier_of self.now.begun self.now.calls.items) s) }
    {
        let mut cells = zeros(self.alloc, self.count as usize)?;
        for i in 0..before_sync(&self.calls) {
            replay(&mut cells, &self.calls[i]);
        }
        Ok(cells)
    }

    // A sector of a blend with the settled bytes.
    fn blended_sector(&self, settled: &[[u8; 512]], blend: Blend, at: u64) -> [u8; 512]
        requires below { at < self.now.count }
        requires long { length settled.now ≡ self.now.count }
        ensures { result ≡ blended blend (λ s. slice_index_or self.now.cells.items s [])
            (λ s. slice_index_or settled.now s []) at }
    {
        if takes_new(blend, at) {
            self.cells[at as usize]
        } else {
            settled[at as usize]
        }
    }

    /// A port on what a crash may leave of the disk: nothing is pending, and no call is listed or
    /// stopped. Nothing is told, and there is no input.
    pub fn outcome(&self, blend: Blend) -> Result<MemPort, NoMemory>
        ensures size { IfOk result
            (λ p. ⟦<MemPort as Disk>⟧.size p ≡ ⟦<MemPort as Disk>⟧.size self.now) }
        ensures sectors { IfOk result (λ p. (s : ℕ)
            → s < ⟦<MemPort as Disk>⟧.size self.now
            → ⟦<MemPort as Disk>⟧.seen p s
            ≡ blended blend (⟦<MemPort as Disk>⟧.seen self.now)
            (settled_of self.now.count (calls_of self.now.begun self.now.calls.items
            ++ earlier_of self.now.begun self.now.calls.items)) s) }
        ensures settled { IfOk result
            (λ p. IsSettled (⟦<MemPort as Disk>⟧.seen p) (⟦<MemPort as Disk>⟧.may_leave p)) }
        // Each blend is an outcome: a crash at this moment may leave it.
        ensures left_by { IfOk result (λ p. (s : ℕ)
            → s < ⟦<MemPort as Disk>⟧.size self.now
            → ⟦<MemPort as Disk>⟧.may_leave self.now s (⟦<MemPort as Disk>⟧.seen p s)) }
        ensures told { IfOk result (λ p. ⟦<MemPort as Disk>⟧.told p ≡ []) }
        ensures left { IfOk result (λ p. ⟦<MemPort as Disk>⟧.input_left p ≡ []) }
        ensures unheard { IfOk result (λ p. ⟦<MemPort as Disk>⟧.heard p ≡ []) }
        // No call is numbered, listed, stopped or counted yet.
        ensures fresh { IfOk result IsNewPort }
    {
        let settled = self.settled_cells()?;
        let mut port = MemPort::new(self.alloc, self.count, Vec::new(self.alloc))?;
        for at in 0..self.count {
            match port.write_sector(at, &self.blended_sector(&settled, blend, at)) {
                Ok(()) => {}
                Err(Failed) => return Err(NoMemory),
            }
        }
        match port.sync() {
            Ok(()) => {}
            Err(Failed) => return Err(NoMemory),
        }
        Ok(port.next_run(Vec::new(self.alloc)))
    }

    /// How many syncs of this run succeeded.
    pub fn syncs(&self) -> u64
        ensures { result ≡ self.now.syncs }
    {
        self.syncs
    }

    pub fn told(&self) -> &[u8]
        ensures { result.now ≡ self.now.told.items }
    {
        &self.told
    }
}

// The last written and the settled bytes of a sector, after one call more.
fn after_call(call: &Call, at: u64, now: [u8; 512], settled: [u8; 512]) -> ([u8; 512], [u8; 512])
    ensures { (count : ℕ) (older : List CallOf)
        → now ≡ seen_of count older at
        → settled ≡ settled_of count older at
        → (result.0 ≡ seen_of count (call.now ∷ older) at)
        × (result.1 ≡ settled_of count (call.now ∷ older) at) }
{
    match call {
        Call::Wrote(sector, written) => {
            if *sector == at {
                (written.bytes, settled)
            } else {
                (now, settled)
            }
        }
        Call::Synced => (now, now),
        Call::Read(_) | Call::Heard(_) | Call::Said(_) => (now, settled),
    }
}

// Numbers a disk call, and says whether it is to fail.
fn disk_fails(disk: &mut Failing, stop: Option<u64>, writes: u64) -> bool
    ensures fails { IsTrue result ↔
        (Contains disk.old.listed.items disk.old.calls ⊎ IsStopped stop writes) }
    ensures rose { OnTrue result (disk.new.faults ≡ one_more disk.old.faults) }
    ensures steady { OnFalse result (disk.new.faults ≡ disk.old.faults) }
    ensures later { disk.old.faults ≤ disk.new.faults }
    ensures numbered { Numbered disk.old disk.new }
{
    let listed = disk.next_fails();
    let stopped = match stop {
        Some(count) => count <= writes,
        None => false,
    };
    if listed {
        return true;
    }
    if stopped {
        disk.fail();
    }
    stopped
}

// Keeps a call. Where memory is refused, the call fails.
fn record(
    calls: &mut Vec<Call>,
    begun: usize,
    kind: &mut Failing,
    starved: &mut u64,
    call: Call,
) -> Result<(), Failed>
    requires { begun ≤ length calls.old.items }
    ensures ok { OnOk result
        (calls_of begun calls.new.items ≡ call ∷ calls_of begun calls.old.items) }
    ensures earlier { earlier_of begun calls.new.items ≡ earlier_of begun calls.old.items }
    ensures longer { length calls.old.items ≤ length calls.new.items }
    ensures kind_ok { OnOk result (kind.new ≡ kind.old) }
    ensures kind_calls { kind.new.calls ≡ kind.old.calls }
    ensures kind_listed { kind.new.listed.items ≡ kind.old.listed.items }
    ensures err { OnErr result (calls.new.items ≡ calls.old.items) }
    ensures rose { OnErr result (kind.new.faults ≡ one_more kind.old.faults) }
    ensures later { kind.old.faults ≤ kind.new.faults }
    ensures starving { OnErr result (starved.new ≡ one_more starved.old) }
    ensures growing { starved.old ≤ starved.new }
    ensures fed { OnOk result (starved.new ≡ starved.old) }
{
    if calls.push(call).is_err() {
        *starved = starved.saturating_add(1);
        kind.fail();
        return Err(Failed);
    }
    Ok(())
}

// Copies the bytes that come next, as many as there are and have room.
fn hand_out(input: &[u8], heard: usize, out: &mut [u8]) -> usize
    requires { heard ≤ length input.now }
    ensures within { heard + result ≤ length input.now }
    ensures heard { Hears result (drop heard input.now) (drop (heard + result) input.now) out.old
        out.new }
{
    let left = &input[heard..];
    let count = left.len().min(out.len());
    out[..count].copy_from_slice(&left[..count]);
    count
}

impl Disk for MemPort {
    ghost use Rattle.std.specs.Prelude.{IsErr};
    ghost use Rattle.vab_disk.specs.Disk.{Faults, Adds, Nothing, Quiet, Leaves, Writes, IsAt};
    ghost use Rattle.vab_disk.specs.Disk.{MayBeSet, set_sector};
    ghost use Rattle.vab_disk.specs.Listed.{IsDiskListed, IsDiskCall, SameWrites, OneWrite};
    ghost use Rattle.vab_disk.specs.Listed.{OneSync};
    ghost use Rattle.vab_disk.specs.Memory.{Holds, LeftSince, heard_of};
    ghost use Rattle.vab_disk.specs.MemoryLaws.{seen_holds, held_whole, dropped_bytes, left_now};
    ghost use Rattle.vab_disk.specs.MemoryLaws.{left_only};

    ghost is_modelled = { Unit {0} };

    ghost size = { λ m. m.count };

    ghost seen = { λ m. seen_of m.count
        (calls_of m.begun m.calls.items ++ earlier_of m.begun m.calls.items) };

    ghost may_leave = { λ m. Holds m.count
        (calls_of m.begun m.calls.items ++ earlier_of m.begun m.calls.items) };

    ghost told = { λ m. told_of (calls_of m.begun m.calls.items) };

    ghost input_left = { λ m. drop m.heard m.input.bytes.items };

    ghost heard = { λ m. heard_of m.input.bytes.items (calls_of m.begun m.calls.items) };

    ghost faults = { λ m. record {
      disk = m.disk.faults;
      source = m.source.faults;
      sink = m.sink.faults;
    } };

    ghost moment = { λ m. length (calls_of m.begun m.calls.items) };

    ghost outcomes = { λ m. LeftSince m.count (earlier_of m.begun m.calls.items)
        (calls_of m.begun m.calls.items) };

    ghost small = { λ m. m.small };

    ghost whole = { λ m s b below. held_whole m.count
        (calls_of m.begun m.calls.items ++ earlier_of m.begun m.calls.items) s b below };

    ghost seen_held = { λ m s. seen_holds m.count
        (calls_of m.begun m.calls.items ++ earlier_of m.begun m.calls.items) s };

    ghost bytes = { λ m k. dropped_bytes m.input.bytes.items m.heard k m.input.small };

    ghost counts_now = { λ m t o le now. left_now m.count (earlier_of m.begun m.calls.items)
        (calls_of m.begun m.calls.items) t o now };

    ghost only_now = { λ m o left. left_only m.count (earlier_of m.begun m.calls.items)
        (calls_of m.begun m.calls.items) o left };

    fn sectors(&self) -> u64 {
        self.count
    }

    fn read_sector(&mut self, at: u64, out: &mut [u8; 512]) -> Result<(), Failed>
        requires { at < ⟦<MemPort as Disk>⟧.size self.old }
        ensures bytes { ⟦<MemPort as Disk>⟧.is_modelled
            → OnOk result (out.new ≡ ⟦<MemPort as Disk>⟧.seen self.old at) }
        ensures quiet { Quiet ⟦<MemPort as Disk>⟧.is_modelled ⟦<MemPort as Disk>⟧.size
            ⟦<MemPort as Disk>⟧.told ⟦<MemPort as Disk>⟧.input_left ⟦<MemPort as Disk>⟧.heard
            ⟦<MemPort as Disk>⟧.faults self.old self.new }
        ensures seen { ⟦<MemPort as Disk>⟧.is_modelled
            → ⟦<MemPort as Disk>⟧.seen self.new ≡ ⟦<MemPort as Disk>⟧.seen self.old }
        ensures crash { ⟦<MemPort as Disk>⟧.is_modelled
            → SameHoldings (⟦<MemPort as Disk>⟧.may_leave self.old)
            (⟦<MemPort as Disk>⟧.may_leave self.new) }
        ensures time { ⟦<MemPort as Disk>⟧.is_modelled
            → Adds ⟦<MemPort as Disk>⟧.moment ⟦<MemPort as Disk>⟧.outcomes self.old self.new
            Nothing }
        ensures steady { OnOk result
            (⟦<MemPort as Disk>⟧.faults self.new ≡ ⟦<MemPort as Disk>⟧.faults self.old) }
        ensures cause { OnErr result (DiskFailed (⟦<MemPort as Disk>⟧.faults self.old)
            (⟦<MemPort as Disk>⟧.faults self.new)) }
        // It fails exactly where it is listed, or stopped, or memory was refused.
        ensures fed { self.old.starved ≤ self.new.starved }
        ensures enough { OnOk result (self.new.starved ≡ self.old.starved) }
        ensures only { OnErr result
            (IsDiskListed self.old ⊎ self.new.starved ≡ one_more self.old.starved) }
        ensures fails { IsDiskListed self.old → IsErr result }
        ensures numbered { IsDiskCall self.old self.new }
        ensures writes { SameWrites self.old self.new }
    {
        if disk_fails(&mut self.disk, self.stop, self.writes) {
            return Err(Failed);
        }
        record(
            &mut self.calls,
            self.begun,
            &mut self.disk,
            &mut self.starved,
            Call::Read(at),
        )?;
        *out = self.cells[at as usize];
        Ok(())
    }

    fn write_sector(&mut self, at: u64, from: &[u8; 512]) -> Result<(), Failed>
        requires { at < ⟦<MemPort as Disk>⟧.size self.old }
        ensures written { ⟦<MemPort as Disk>⟧.is_modelled
            → OnOk result (⟦<MemPort as Disk>⟧.seen self.new
            ≡ set_sector (⟦<MemPort as Disk>⟧.seen self.old) at from.now) }
        ensures failed { ⟦<MemPort as Disk>⟧.is_modelled
            → OnErr result (MayBeSet at from.now (⟦<MemPort as Disk>⟧.seen self.old)
            (⟦<MemPort as Disk>⟧.seen self.new)) }
        ensures quiet { Quiet ⟦<MemPort as Disk>⟧.is_modelled ⟦<MemPort as Disk>⟧.size
            ⟦<MemPort as Disk>⟧.told ⟦<MemPort as Disk>⟧.input_left ⟦<MemPort as Disk>⟧.heard
            ⟦<MemPort as Disk>⟧.faults self.old self.new }
        ensures crash { ⟦<MemPort as Disk>⟧.is_modelled
            → Writes (IsAt at from.now) (⟦<MemPort as Disk>⟧.may_leave self.old)
            (⟦<MemPort as Disk>⟧.may_leave self.new) }
        ensures time { ⟦<MemPort as Disk>⟧.is_modelled
            → Adds ⟦<MemPort as Disk>⟧.moment ⟦<MemPort as Disk>⟧.outcomes self.old self.new
            (Leaves (⟦<MemPort as Disk>⟧.told self.old)
            (⟦<MemPort as Disk>⟧.may_leave self.new)) }
        ensures steady { OnOk result
            (⟦<MemPort as Disk>⟧.faults self.new ≡ ⟦<MemPort as Disk>⟧.faults self.old) }
        ensures cause { OnErr result (DiskFailed (⟦<MemPort as Disk>⟧.faults self.old)
            (⟦<MemPort as Disk>⟧.faults self.new)) }
        // It fails exactly where it is listed, or stopped, or memory was refused.
        ensures fed { self.old.starved ≤ self.new.starved }
        ensures enough { OnOk result (self.new.starved ≡ self.old.starved) }
        ensures only { OnErr result
            (IsDiskListed self.old ⊎ self.new.starved ≡ one_more self.old.starved) }
        ensures fails { IsDiskListed self.old → IsErr result }
        ensures numbered { IsDiskCall self.old self.new }
        ensures writes { OnOk result (OneWrite self.old self.new) }
        ensures unwritten { OnErr result (SameWrites self.old self.new) }
    {
        if disk_fails(&mut self.disk, self.stop, self.writes) {
            return Err(Failed);
        }
        record(
            &mut self.calls,
            self.begun,
            &mut self.disk,
            &mut self.starved,
            Call::Wrote(at, Sector { bytes: *from }),
        )?;
        self.cells[at as usize] = *from;
        self.writes = self.writes.saturating_add(1);
        Ok(())
    }

    fn sync(&mut self) -> Result<(), Failed>
        ensures settled { ⟦<MemPort as Disk>⟧.is_modelled
            → OnOk result (IsSettled (⟦<MemPort as Disk>⟧.seen self.new)
            (⟦<MemPort as Disk>⟧.may_leave self.new)) }
        ensures failed { ⟦<MemPort as Disk>⟧.is_modelled
            → OnErr result (SameHoldings (⟦<MemPort as Disk>⟧.may_leave self.old)
            (⟦<MemPort as Disk>⟧.may_leave self.new)) }
        ensures crash { ⟦<MemPort as Disk>⟧.is_modelled
            → (s : ℕ) (b : List ℕ)
            → ⟦<MemPort as Disk>⟧.may_leave self.new s b
            → ⟦<MemPort as Disk>⟧.may_leave self.old s b }
        ensures quiet { Quiet ⟦<MemPort as Disk>⟧.is_modelled ⟦<MemPort as Disk>⟧.size
            ⟦<MemPort as Disk>⟧.told ⟦<MemPort as Disk>⟧.input_left ⟦<MemPort as Disk>⟧.heard
            ⟦<MemPort as Disk>⟧.faults self.old self.new }
        ensures seen { ⟦<MemPort as Disk>⟧.is_modelled
            → ⟦<MemPort as Disk>⟧.seen self.new ≡ ⟦<MemPort as Disk>⟧.seen self.old }
        ensures time { ⟦<MemPort as Disk>⟧.is_modelled
            → Adds ⟦<MemPort as Disk>⟧.moment ⟦<MemPort as Disk>⟧.outcomes self.old self.new
            Nothing }
        ensures steady { OnOk result
            (⟦<MemPort as Disk>⟧.faults self.new ≡ ⟦<MemPort as Disk>⟧.faults self.old) }
        ensures cause { OnErr result (DiskFailed (⟦<MemPort as Disk>⟧.faults self.old)
            (⟦<MemPort as Disk>⟧.faults self.new)) }
        // It fails exactly where it is listed, or stopped, or memory was refused.
        ensures fed { self.old.starved ≤ self.new.starved }
        ensures enough { OnOk result (self.new.starved ≡ self.old.starved) }
        ensures only { OnErr result
            (IsDiskListed self.old ⊎ self.new.starved ≡ one_more self.old.starved) }
        ensures fails { IsDiskListed self.old → IsErr result }
        ensures numbered { IsDiskCall self.old self.new }
        ensures writes { OnOk result (OneSync self.old self.new) }
        ensures unwritten { OnErr result (SameWrites self.old self.new) }
    {
        if disk_fails(&mut self.disk, self.stop, self.writes) {
            return Err(Failed);
        }
        record(
            &mut self.calls,
            self.begun,
            &mut self.disk,
            &mut self.starved,
            Call::Synced,
        )?;
        self.writes = self.writes.saturating_add(1);
        self.syncs = self.syncs.saturating_add(1);
        Ok(())
    }
}

impl Port for MemPort {
    ghost use Rattle.std.specs.Prelude.{IsErr, IsErrOf, take};
    ghost use Rattle.vab_disk.specs.Disk.{Adds, Nothing, NoFewer};
    ghost use Rattle.vab_disk.specs.Port.{LeavesSaying, heard_then};
    ghost use Rattle.vab_disk.specs.Listed.{IsHearListed, IsSayListed, IsHearCall, IsSayCall};

    fn hear(&mut self, out: &mut [u8]) -> Result<usize, PortFault>
        ensures bytes { ⟦<MemPort as Disk>⟧.is_modelled
            → IfOk result (λ n. Hears n (⟦<MemPort as Disk>⟧.input_left self.old)
            (⟦<MemPort as Disk>⟧.input_left self.new) out.old out.new) }
        ensures heard { ⟦<MemPort as Disk>⟧.is_modelled → OnOk result
            (⟦<MemPort as Disk>⟧.heard self.new
            ≡ heard_then (⟦<MemPort as Disk>⟧.heard self.old)
            (⟦<MemPort as Disk>⟧.told self.old) (⟦<MemPort as Disk>⟧.input_left self.old)) }
        ensures unheard { ⟦<MemPort as Disk>⟧.is_modelled
            → OnErr result
            (⟦<MemPort as Disk>⟧.heard self.new ≡ ⟦<MemPort as Disk>⟧.heard self.old) }
        ensures fits { IfOk result (λ n. n ≤ length out.old) }
        ensures size { ⟦<MemPort as Disk>⟧.size self.new ≡ ⟦<MemPort as Disk>⟧.size self.old }
        ensures seen { ⟦<MemPort as Disk>⟧.is_modelled
            → ⟦<MemPort as Disk>⟧.seen self.new ≡ ⟦<MemPort as Disk>⟧.seen self.old }
        ensures crash { ⟦<MemPort as Disk>⟧.is_modelled
            → SameHoldings (⟦<MemPort as Disk>⟧.may_leave self.old)
            (⟦<MemPort as Disk>⟧.may_leave self.new) }
        ensures told { ⟦<MemPort as Disk>⟧.is_modelled
            → ⟦<MemPort as Disk>⟧.told self.new ≡ ⟦<MemPort as Disk>⟧.told self.old }
        ensures time { ⟦<MemPort as Disk>⟧.is_modelled
            → Adds ⟦<MemPort as Disk>⟧.moment ⟦<MemPort as Disk>⟧.outcomes self.old self.new
            Nothing }
        ensures counts { NoFewer (⟦<MemPort as Disk>⟧.faults self.old)
            (⟦<MemPort as Disk>⟧.faults self.new) }
        ensures kind { IsErrOf result PortFault.Sink → ⊥ }
        ensures steady { OnOk result
            (⟦<MemPort as Disk>⟧.faults self.new ≡ ⟦<MemPort as Disk>⟧.faults self.old) }
        ensures cause { OnErr result (SourceFailed (⟦<MemPort as Disk>⟧.faults self.old)
            (⟦<MemPort as Disk>⟧.faults self.new)) }
        // It fails exactly where it is listed, or memory was refused.
        ensures failed { ⟦<MemPort as Disk>⟧.is_modelled
            → OnErr result
            (⟦<MemPort as Disk>⟧.input_left self.new ≡ ⟦<MemPort as Disk>⟧.input_left self.old) }
        ensures fed { self.old.starved ≤ self.new.starved }
        ensures enough { OnOk result (self.new.starved ≡ self.old.starved) }
        ensures only { OnErr result
            (IsHearListed self.old ⊎ self.new.starved ≡ one_more self.old.starved) }
        ensures fails { IsHearListed self.old → IsErr result }
        ensures numbered { IsHearCall self.old self.new }
    {
        if self.source.next_fails() {
            return Err(PortFault::Source);
        }
        let count = hand_out(&self.input.bytes, self.heard, out);
        if record(
            &mut self.calls,
            self.begun,
            &mut self.source,
            &mut self.starved,
            Call::Heard(count),
        )
        .is_err()
        {
            return Err(PortFault::Source);
        }
        self.heard += count;
        Ok(count)
    }

    fn say(&mut self, from: &[u8]) -> Result<usize, PortFault>
        ensures bytes { ⟦<MemPort as Disk>⟧.is_modelled
            → IfOk result (λ n. ⟦<MemPort as Disk>⟧.told self.new
            ≡ ⟦<MemPort as Disk>⟧.told self.old
            ++ take n from.now) }
        ensures fits { IfOk result (λ n. n ≤ length from.now) }
        ensures some { IfOk result (λ n. n ≡ 0 → length from.now ≡ 0) }
        ensures failed { ⟦<MemPort as Disk>⟧.is_modelled
            → (n : ℕ)
            × (⟦<MemPort as Disk>⟧.told self.new ≡ ⟦<MemPort as Disk>⟧.told self.old
            ++ take n from.now) }
        ensures size { ⟦<MemPort as Disk>⟧.size self.new ≡ ⟦<MemPort as Disk>⟧.size self.old }
        ensures seen { ⟦<MemPort as Disk>⟧.is_modelled
            → ⟦<MemPort as Disk>⟧.seen self.new ≡ ⟦<MemPort as Disk>⟧.seen self.old }
        ensures crash { ⟦<MemPort as Disk>⟧.is_modelled
            → SameHoldings (⟦<MemPort as Disk>⟧.may_leave self.old)
            (⟦<MemPort as Disk>⟧.may_leave self.new) }
        ensures left { ⟦<MemPort as Disk>⟧.is_modelled
            → ⟦<MemPort as Disk>⟧.input_left self.new ≡ ⟦<MemPort as Disk>⟧.input_left self.old }
        ensures heard { ⟦<MemPort as Disk>⟧.is_modelled
            → ⟦<MemPort as Disk>⟧.heard self.new ≡ ⟦<MemPort as Disk>⟧.heard self.old }
        ensures time { ⟦<MemPort as Disk>⟧.is_modelled
            → Adds ⟦<MemPort as Disk>⟧.moment ⟦<MemPort as Disk>⟧.outcomes self.old self.new
            (LeavesSaying (⟦<MemPort as Disk>⟧.told self.old) from.now
            (⟦<MemPort as Disk>⟧.may_leave self.old)) }
        ensures counts { NoFewer (⟦<MemPort as Disk>⟧.faults self.old)
            (⟦<MemPort as Disk>⟧.faults self.new) }
        ensures kind { IsErrOf result PortFault.Source → ⊥ }
        ensures steady { OnOk result
            (⟦<MemPort as Disk>⟧.faults self.new ≡ ⟦<MemPort as Disk>⟧.faults self.old) }
        ensures cause { OnErr result (SinkFailed (⟦<MemPort as Disk>⟧.faults self.old)
            (⟦<MemPort as Disk>⟧.faults self.new)) }
        // It fails exactly where it is listed, or memory was refused.
        ensures fed { self.old.starved ≤ self.new.starved }
        ensures enough { OnOk result (self.new.starved ≡ self.old.starved) }
        ensures only { OnErr result
            (IsSayListed self.old ⊎ self.new.starved ≡ one_more self.old.starved) }
        ensures fails { IsSayListed self.old → IsErr result }
        ensures numbered { IsSayCall self.old self.new }
    {
        if self.sink.next_fails() {
            return Err(PortFault::Sink);
        }
        let was = self.told.len();
        let piece = match from.to_vec(self.alloc) {
            Ok(piece) => piece,
            Err(_) => return Err(self.starve()),
        };
        if self.told.extend_from_slice(from).is_err() {
            return Err(self.starve());
        }
        if record(
            &mut self.calls,
            self.begun,
            &mut self.sink,
            &mut self.starved,
            Call::Said(piece),
        )
        .is_err()
        {
            self.told.truncate(was);
            return Err(PortFault::Sink);
        }
        Ok(from.len())
    }
}
