//! Statuses that are read.

ghost use Rattle.std.specs.Prelude.{◌≡◌, ◌≢◌, ◌<◌, ◌≤◌, ◌+◌, ℕ, List, Option, length, IfOk, IfErr};
ghost use Rattle.std.specs.Prelude.{IfSome, OnErr, Ok, Err, None, false, ◌-◌, ◌++◌, replicate};
ghost use Rattle.std.specs.List.{AllPairs};
ghost use Rattle.vab_disk.specs.Calls.{OnlyReads, FailsWithDisk};
ghost use Rattle.vab_marks.specs.declared.status.PartStatus.{PartStatus};
ghost use Rattle.vab_marks.specs.Sector.{are_zeros};
ghost use Rattle.vab_statuses.specs.Statuses.{has_name, is_named, status_read, FitsEntry, repeats};
ghost use Rattle.vab_statuses.specs.Statuses.{entry_of, statuses_in, statuses_of, AreFitting};
ghost use Rattle.vab_statuses.specs.Statuses.{NamesDiffer, statuses_under, first_status};
ghost use Rattle.vab_statuses.specs.Statuses.{status_sectors};
ghost use Rattle.vab_statuses.specs.Statuses.{written_in, free_in, IsOfStatuses, IsFirstFree};
ghost use Rattle.vab_statuses.specs.Statuses.{IsFreeOrLast, or_last};
ghost use Rattle.vab_statuses.specs.Answers.{TellsBad, CountsFaults};

use crate::StatusFault;
use arrayvec::ArrayVec;
use vab_bytes::Name36;
use vab_disk::Disk;
use vab_gate::{DiskFault, SECTOR, get_sector};
use vab_marks::{MarkFault, MarkVersion, PartStatus, decode_status};
use vab_names::MAX_PARTITIONS;

/// How many sectors hold statuses.
pub const STATUS_SECTORS: u64 = MAX_PARTITIONS as u64;

/// The first of them.
pub const FIRST_STATUS: u64 = 2049;

/// What the sectors hold, in their order: a status, or none where the sector is all zeros.
pub type Statuses = ArrayVec<Option<PartStatus>, MAX_PARTITIONS>;

// Whether no status stands in these bytes: they are all zeros.
fn is_blank(bytes: &[u8]) -> bool
    ensures { result ≡ are_zeros bytes.now }
{
    bytes.iter().all(|b| *b == 0)
}

// Whether this is a status of the partition with this name.
fn has_name(status: &Option<PartStatus>, name: &Name36) -> bool
    ensures { result ≡ has_name name.now status.now }
{
    match status {
        Some(status) => status.name.text() == name.text(),
        None => false,
    }
}

// Whether one of these statuses has this name.
fn is_named(statuses: &[Option<PartStatus>], name: &Name36) -> bool
    ensures { result ≡ is_named name.now statuses.now }
{
    statuses.iter().any(|status| has_name(status, name))
}

// The status of a sector, none of zeros alone.
fn read_status(sector: &[u8; 512]) -> Result<Option<PartStatus>, MarkFault>
    ensures exact { result ≡ status_read sector.now }
    ensures fits { IfOk result FitsEntry }
{
    if is_blank(sector) {
        return Ok(None);
    }
    match decode_status(sector) {
        Ok(status) => Ok(Some(status)),
        Err(fault) => Err(fault),
    }
}

// Whether one of these statuses is of the same partition.
fn repeats(status: &Option<PartStatus>, done: &[Option<PartStatus>]) -> bool
    ensures { result ≡ repeats status.now done.now }
{
    match status {
        Some(status) => is_named(done, &status.name),
        None => false,
    }
}

// The sector has no status that may stand behind those before it.
struct BadSector;

// What a sector has, behind those before it.
fn entry_of(
    done: &[Option<PartStatus>],
    sector: &[u8; 512],
) -> Result<Option<PartStatus>, BadSector>
    ensures ok { IfOk result (λ s. (at : ℕ) → entry_of at done.now sector.now ≡ Ok s) }
    ensures bad { OnErr result ((at : ℕ) → entry_of at done.now sector.now ≡ Err at) }
    ensures fits { IfOk result FitsEntry }
    ensures other { IfOk result (λ s. repeats s done.now ≡ false) }
{
    let status = match read_status(sector) {
        Ok(status) => status,
        Err(_) => return Err(BadSector),
    };
    if repeats(&status, done) {
        Err(BadSector)
    } else {
        Ok(status)
    }
}

// Reads a sector behind those before it.
fn read_entry<D: Disk>(
    d: &mut D,
    at: u64,
    done: &[Option<PartStatus>],
) -> Result<Option<PartStatus>, StatusFault>
    requires { at < D.size d.old }
    ensures ok { D.is_modelled
        → IfOk result (λ s. entry_of at done.now (D.seen d.old at) ≡ Ok s) }
    ensures bad { D.is_modelled
        → IfErr result (TellsBad (entry_of at done.now (D.seen d.old at))) }
    ensures fits { IfOk result FitsEntry }
    ensures other { IfOk result (λ s. repeats s done.now ≡ false) }
    ensures reads { OnlyReads D.Disk d.old d.new }
    ensures counts { CountsFaults D.Disk d.old d.new result }
{
    let mut sector = [0u8; SECTOR];
    match get_sector(d, at, &mut sector) {
        Ok(()) => match entry_of(done, &sector) {
            Ok(status) => Ok(status),
            Err(BadSector) => Err(StatusFault::Bad(at)),
        },
        Err(fault) => Err(StatusFault::Disk(fault)),
    }
}

// Reads the statuses of the first so many sectors.
fn read_first<D: Disk>(d: &mut D, count: u64) -> Result<Statuses, StatusFault>
    requires most { count ≤ status_sectors }
    requires on_disk { first_status + count ≤ D.size d.old }
    ensures ok { D.is_modelled
        → IfOk result (λ s. statuses_of count (D.seen d.old) ≡ Ok s.items) }
    ensures bad { D.is_modelled → IfErr result (TellsBad (statuses_of count (D.seen d.old))) }
    ensures all { IfOk result (λ s. length s.items ≡ count) }
    ensures fits { IfOk result (λ s. AreFitting s.items) }
    ensures differ { IfOk result (λ s. NamesDiffer s.items) }
    ensures reads { OnlyReads D.Disk d.old d.new }
    ensures counts { CountsFaults D.Disk d.old d.new result }
{
    let mut statuses = Statuses::new();
    for i in 0..count {
        match read_entry(d, FIRST_STATUS + i, statuses.as_slice()) {
            Ok(status) => statuses.push(status),
            Err(fault) => return Err(fault),
        }
    }
    Ok(statuses)
}

// Puts none behind these, as many as there are sectors.
fn fill(statuses: &mut Statuses)
    requires { length statuses.old.items ≤ status_sectors }
    ensures { statuses.new.items
        ≡ statuses.old.items ++ replicate (status_sectors - length statuses.old.items) None }
{
    for _ in statuses.len()..STATUS_SECTORS as usize {
        statuses.push(None);
    }
}

/// Reads the statuses where the update mark has this version, and takes no memory: 64 of them, of
/// which under version 1 the last 32 are none, whatever their sectors hold. `Bad` comes exactly
/// where a sector that is read is neither all zeros nor a status, or names a partition that a
/// sector before it names, with the first such sector.
pub fn read_statuses<D: Disk>(d: &mut D, version: MarkVersion) -> Result<Statuses, StatusFault>
    requires { first_status + status_sectors ≤ D.size d.old }
    ensures ok { D.is_modelled
        → IfOk result (λ s. statuses_under version (D.seen d.old) ≡ Ok s.items) }
    ensures bad { D.is_modelled
        → IfErr result (TellsBad (statuses_under version (D.seen d.old))) }
    ensures all { IfOk result (λ s. length s.items ≡ status_sectors) }
    ensures fits { IfOk result (λ s. AreFitting s.items) }
    ensures differ { IfOk result (λ s. NamesDiffer s.items) }
    ensures names { IfOk result (λ s. AllPairs (λ a b. a.name ≢ b.name) (written_in s.items)) }
    ensures reads { OnlyReads D.Disk d.old d.new }
    ensures counts { CountsFaults D.Disk d.old d.new result }
{
    match read_first(d, version.partitions() as u64) {
        Ok(mut statuses) => {
            fill(&mut statuses);
            Ok(statuses)
        }
        Err(fault) => Err(fault),
    }
}

/// The first of the sectors that is all zeros, `None` exactly where there is none. Takes no memory.
pub fn first_free<D: Disk>(d: &mut D) -> Result<Option<u64>, DiskFault>
    requires { first_status + status_sectors ≤ D.size d.old }
    ensures first { D.is_modelled → IfOk result (IsFirstFree (D.seen d.old)) }
    // It is the first without a status, where the statuses are good.
    ensures free { D.is_modelled
        → (statuses : List (Option PartStatus))
        → statuses_in (D.seen d.old) ≡ Ok statuses
        → IfOk result (λ at. at ≡ free_in statuses) }
    ensures there { IfOk result (λ at. IfSome at IsOfStatuses) }
    ensures reads { OnlyReads D.Disk d.old d.new }
    ensures faults { FailsWithDisk D.Disk d.old d.new result }
{
    for at in FIRST_STATUS..FIRST_STATUS + STATUS_SECTORS {
        let mut sector = [0u8; SECTOR];
        get_sector(d, at, &mut sector)?;
        if is_blank(&sector) {
            return Ok(Some(at));
        }
    }
    Ok(None)
}

/// The first of the sectors that is all zeros, and the last of them exactly where there is none, as
/// a disk may show that tells nothing of its contents. Takes no memory.
pub fn free_or_last<D: Disk>(d: &mut D) -> Result<u64, DiskFault>
    requires { first_status + status_sectors ≤ D.size d.old }
    ensures first { D.is_modelled → IfOk result (IsFreeOrLast (D.seen d.old)) }
    // It is the first without a status, where the statuses are good.
    ensures free { D.is_modelled
        → (statuses : List (Option PartStatus))
        → statuses_in (D.seen d.old) ≡ Ok statuses
        → IfOk result (λ at. at ≡ or_last (free_in statuses)) }
    ensures there { IfOk result IsOfStatuses }
    ensures reads { OnlyReads D.Disk d.old d.new }
    ensures faults { FailsWithDisk D.Disk d.old d.new result }
{
    match first_free(d) {
        Err(fault) => Err(fault),
        Ok(Some(at)) => Ok(at),
        Ok(None) => Ok(FIRST_STATUS + STATUS_SECTORS - 1),
    }
}
