//! Reading the parts of a disk.

ghost use Rattle.std.specs.Prelude.{◌≡◌, ◌<◌, ◌≤◌, ◌^◌, Bool, IfOk, IfErr, Ok, Err};
ghost use Rattle.vab_disk.specs.Calls.{OnlyReads};
ghost use Rattle.vab_bootctl.specs.Control.{Fits, control_of};
ghost use Rattle.vab_marks.specs.Mark.{mark_of, FlagsFit};
ghost use Rattle.vab_geometry.specs.Geometry.{IsGeometry};
ghost use Rattle.vab_device.specs.Faults.{Answers, IsOfContents, IsOfDisk};
ghost use Rattle.vab_device.specs.Kept.{copies_end, super_bytes, has_both, reads_both, IsPhase};
ghost use Rattle.vab_device.specs.Reading.{settled, mark_read, mark_in, control_read, control_in};
ghost use Rattle.vab_device.specs.Reading.{geometry_at, statuses_at, tail_at, version_at};
ghost use Rattle.vab_device.specs.Reading.{whole_disk};
ghost use Rattle.vab_tidy.specs.Counts.{CountsFaults};
ghost use Rattle.vab_recover.specs.Memory.{IsNamed};
ghost use Rattle.vab_recover.specs.Opened.{is_merging, reads_statuses};

use vab_bootctl::{Control, decode_control};
use vab_device::StartFault;
use vab_disk::Disk;
use vab_gate::get_sector;
use vab_geometry::{Geometry, LoadFault, SUPER, load_geometry};
use vab_marks::{MarkPhase, MarkVersion, PhysicalSizes, UpdateMark, decode_mark};
use vab_physical::{Tail, read_tail};
use vab_statuses::{StatusFault, Statuses, read_statuses};

/// The disk sector of the update mark.
pub const MARK_SECTOR: u64 = 2048;

/// The disk sector of the boot control.
pub const CONTROL_SECTOR: u64 = 4;

// Reads a sector.
fn read<D: Disk>(d: &mut D, at: u64) -> Result<[u8; 512], StartFault>
    requires { at < D.size d.old }
    ensures bytes { D.is_modelled → IfOk result (λ b. b ≡ D.seen d.old at) }
    ensures fault { IfErr result IsOfDisk }
    ensures reads { OnlyReads D.Disk d.old d.new }
    ensures counts { CountsFaults D.Disk d.old d.new result }
{
    let mut sector = [0u8; 512];
    match get_sector(d, at, &mut sector) {
        Ok(()) => Ok(sector),
        Err(fault) => Err(StartFault::Disk(fault)),
    }
}

/// Whether the tables of both slots are read in this phase.
pub fn reads_both(phase: MarkPhase) -> bool
    ensures { result ≡ reads_both phase }
{
    match phase {
        MarkPhase::Installing | MarkPhase::Staged => true,
        _ => false,
    }
}

/// Whether both slots have images in this phase.
pub fn has_both(phase: MarkPhase) -> bool
    ensures { result ≡ has_both phase }
{
    match phase {
        MarkPhase::Staged => true,
        _ => false,
    }
}

/// Whether the statuses of partitions are read in this phase.
pub fn reads_statuses(phase: MarkPhase) -> bool
    ensures { result ≡ reads_statuses phase }
{
    match phase {
        MarkPhase::Installing | MarkPhase::Staged | MarkPhase::Merging => true,
        _ => false,
    }
}

/// Whether the stores of an update are merged in this phase.
pub fn is_merging(phase: MarkPhase) -> bool
    ensures { result ≡ is_merging phase }
{
    match phase {
        MarkPhase::Merging => true,
        _ => false,
    }
}

// The phase of a device with this mark: where all stores are merged there is no update any more.
fn settled(phase: MarkPhase) -> MarkPhase
    ensures is { result ≡ settled phase }
    ensures phase { IsPhase result }
{
    match phase {
        MarkPhase::Completed => MarkPhase::Idle,
        phase => phase,
    }
}

// The mark of these bytes, of a phase that a device may be in, without physical partitions.
fn known_mark(sector: &[u8; 512]) -> Result<UpdateMark, StartFault>
    ensures answers { Answers result (mark_read (mark_of sector.now)) }
    ensures kind { IfErr result IsOfContents }
    ensures phase { IfOk result (λ m. IsPhase m.phase) }
    ensures slot { IfOk result (λ m. m.slot < 2) }
    ensures apart { IfOk result FlagsFit }
{
    match decode_mark(sector) {
        Ok(mark) if !mark.physical => Ok(UpdateMark {
            phase: settled(mark.phase),
            ..mark
        }),
        _ => Err(StartFault::BadMark(MARK_SECTOR)),
    }
}

/// Reads the update mark.
#[tactic(auto, unfolding(vab_device::specs::Reading::mark_in))]
pub fn read_mark<D: Disk>(d: &mut D) -> Result<UpdateMark, StartFault>
    requires { 2048 < D.size d.old }
    ensures answers { D.is_modelled → Answers result (mark_in (D.seen d.old)) }
    ensures named { IfErr result IsNamed }
    ensures phase { IfOk result (λ m. IsPhase m.phase) }
    ensures slot { IfOk result (λ m. m.slot < 2) }
    ensures apart { IfOk result FlagsFit }
    ensures reads { OnlyReads D.Disk d.old d.new }
    ensures counts { CountsFaults D.Disk d.old d.new result }
{
    let sector = read(d, MARK_SECTOR)?;
    known_mark(&sector)
}

/// Reads the version of the update mark.
pub fn read_version<D: Disk>(d: &mut D) -> Result<MarkVersion, StartFault>
    requires { 2048 < D.size d.old }
    ensures version { D.is_modelled → IfOk result (λ v. version_at (D.seen d.old) ≡ v) }
    ensures fault { IfErr result IsOfDisk }
    ensures reads { OnlyReads D.Disk d.old d.new }
    ensures counts { CountsFaults D.Disk d.old d.new result }
{
    let sector = read(d, MARK_SECTOR)?;
    Ok(MarkVersion::of_mark(&sector))
}

/// Reads the statuses where they are read, those that the mark's version has; elsewhere there are
/// none.
#[tactic(auto, unfolding(vab_device::specs::Reading::statuses_at))]
pub fn read_if<D: Disk>(
    d: &mut D,
    reads: bool,
    version: MarkVersion,
) -> Result<Statuses, StartFault>
    requires on_disk { 2113 ≤ D.size d.old }
    requires version { D.is_modelled → version_at (D.seen d.old) ≡ version }
    ensures ok { D.is_modelled → IfOk result
        (λ s. statuses_at reads (D.seen d.old) ≡ Ok s.items) }
    ensures fault { D.is_modelled → IfErr result (λ f. IsOfContents f
        → statuses_at reads (D.seen d.old) ≡ Err f) }
    ensures named { IfErr result IsNamed }
    ensures reads { OnlyReads D.Disk d.old d.new }
    ensures counts { CountsFaults D.Disk d.old d.new result }
{
    if !reads {
        return Ok(Statuses::new());
    }
    match read_statuses(d, version) {
        Ok(statuses) => Ok(statuses),
        Err(StatusFault::Bad(sector)) => Err(StartFault::BadMark(sector)),
        Err(StatusFault::Disk(fault)) => Err(StartFault::Disk(fault)),
    }
}

// The boot control of these bytes.
#[tactic(auto, unfolding(vab_device::specs::Reading::control_in))]
fn control(sector: &[u8; 512]) -> Result<Control, StartFault>
    ensures ok { IfOk result (λ c. control_of sector.now ≡ Ok c) }
    ensures fault { IfErr result
        (λ f. (a b : Bool) → control_read a b (control_of sector.now) ≡ Err f) }
    ensures kind { IfErr result IsOfContents }
    ensures fits { IfOk result Fits }
{
    match decode_control(sector) {
        Ok(control) => Ok(control),
        Err(fault) => Err(StartFault::BadControl(fault)),
    }
}

/// Reads the boot control, of both slots.
#[tactic(auto, unfolding(vab_device::specs::Reading::control_in))]
pub fn read_control<D: Disk>(d: &mut D) -> Result<Control, StartFault>
    requires { 4 < D.size d.old }
    ensures ok { D.is_modelled → IfOk result (λ c. control_of (D.seen d.old 4) ≡ Ok c) }
    ensures fault { D.is_modelled → IfErr result
        (λ f. IsOfContents f → (a b : Bool) → control_in a b (D.seen d.old) ≡ Err f) }
    ensures named { IfErr result IsNamed }
    ensures fits { IfOk result Fits }
    ensures reads { OnlyReads D.Disk d.old d.new }
    ensures counts { CountsFaults D.Disk d.old d.new result }
{
    let sector = read(d, CONTROL_SECTOR)?;
    control(&sector)
}

/// Bytes of `super`, which ends at this sector.
pub fn super_bytes(super_end: u64) -> u64
    requires { super_end < 2 ^ 55 }
    ensures { result ≡ super_bytes super_end }
{
    512 * super_end.saturating_sub(SUPER)
}

/// Where the copies of the tables end, in bytes of `super`.
pub fn copies_end(geometry: &Geometry) -> u64
    requires { IsGeometry geometry.now }
    ensures end { result ≡ copies_end geometry.now }
    ensures small { result < 2 ^ 32 }
{
    12288 + 2 * u64::from(geometry.slots) * u64::from(geometry.max)
}

/// Where `super` ends on a disk of so many sectors without physical partitions: with the disk.
pub fn whole_disk(sectors: u64) -> Tail
    ensures { result ≡ whole_disk sectors }
{
    Tail {
        sizes: PhysicalSizes { boot: 0, vbmeta: 0 },
        super_end: sectors,
    }
}

/// Reads the sizes of the physical partitions, where the mark says that there are some, and where
/// `super` ends in front of them. Without any it ends with the disk.
#[tactic(auto, unfolding(vab_device::specs::Reading::tail_at))]
pub fn read_end<D: Disk>(d: &mut D, physical: bool) -> Result<Tail, StartFault>
    requires { 4120 ≤ D.size d.old }
    ensures answers { D.is_modelled
        → Answers result (tail_at physical (D.size d.old) (D.seen d.old)) }
    ensures named { IfErr result IsNamed }
    ensures end { IfOk result (λ t. (4120 ≤ t.super_end) × (t.super_end ≤ D.size d.old)) }
    ensures reads { OnlyReads D.Disk d.old d.new }
    ensures counts { CountsFaults D.Disk d.old d.new result }
{
    if !physical {
        return Ok(whole_disk(d.sectors()));
    }
    match read_tail(d) {
        Ok(Some(tail)) => Ok(tail),
        Ok(None) => Err(StartFault::BadPhysical),
        Err(fault) => Err(StartFault::Disk(fault)),
    }
}

/// Reads the geometry of a `super` that ends at this sector.
#[tactic(auto, unfolding(vab_device::specs::Reading::geometry_at))]
pub fn read_geometry<D: Disk>(d: &mut D, super_end: u64) -> Result<Geometry, StartFault>
    requires enough { 4120 ≤ super_end }
    requires ends { super_end ≤ D.size d.old }
    ensures answers { D.is_modelled → Answers result (geometry_at super_end (D.seen d.old)) }
    ensures named { IfErr result IsNamed }
    ensures rules { IfOk result IsGeometry }
    ensures copies_on { IfOk result (λ g. copies_end g ≤ super_bytes super_end) }
    ensures reads { OnlyReads D.Disk d.old d.new }
    ensures counts { CountsFaults D.Disk d.old d.new result }
{
    let geometry = match load_geometry(d) {
        Ok(geometry) => geometry,
        Err(LoadFault::BothBad(_, _)) => return Err(StartFault::BadGeometry),
        Err(LoadFault::Disk(fault)) => return Err(StartFault::Disk(fault)),
    };
    if copies_end(&geometry) > super_bytes(super_end) {
        return Err(StartFault::BadGeometry);
    }
    Ok(geometry)
}
