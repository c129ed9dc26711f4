//! The readers of the parts, where a fault of what the disk holds is no failure.

ghost use Rattle.std.specs.Prelude.{◌≡◌, ◌<◌, ◌≤◌, Bool, true, false, IfOk, IfErr, IfSome, IsNone};
ghost use Rattle.std.specs.Prelude.{OnOk, Ok, Err, Some, None};
ghost use Rattle.vab_disk.specs.Calls.{OnlyReads};
ghost use Rattle.vab_tables.specs.Rules.{KeepsRules};
ghost use Rattle.vab_geometry.specs.Geometry.{IsGeometry};
ghost use Rattle.vab_layout.specs.Layout.{layout_of};
ghost use Rattle.vab_layout.specs.Slots.{IsOwn};
ghost use Rattle.vab_partitions.specs.Merging.{IsMerging};
ghost use Rattle.vab_device.specs.Faults.{IsOfContents, IsOfDisk};
ghost use Rattle.vab_device.specs.Kept.{copies_end, super_bytes, AreOfUpdate};
ghost use Rattle.vab_device.specs.Reading.{mark_in, statuses_at, control_in, geometry_at};
ghost use Rattle.vab_device.specs.Reading.{most_at};
ghost use Rattle.vab_tidy.specs.Counts.{CountsFaults};
ghost use Rattle.vab_recover.specs.Opened.{reads_statuses, is_merging, AreTablesThere};
ghost use Rattle.vab_recover.specs.Opened.{fault_of};
ghost use Rattle.vab_recover.specs.Overlay.{KeepsOverlay};
ghost use Rattle.vab_survey.specs.Findings.{Finds, FindsScans, FindsBehind, IsUnread};
ghost use Rattle.vab_survey.specs.Findings.{tables_asked, listed};

use crate::finding::{Finding, is_of_contents};
use std::alloc::Global;
use vab_device::StartFault;
use vab_disk::Disk;
use vab_geometry::Geometry;
use vab_marks::UpdateMark;
use vab_recover::{
    Tables, judge_parts, read_control, read_geometry, read_if, read_mark, read_stores, read_tables,
    read_version, reads_statuses,
};
use vab_statuses::Statuses;

/// What is found of the tables, of their partitions, and of the stores.
#[derive(Clone, Copy, Debug, PartialEq, Eq)]
pub struct Behind {
    pub tables: Finding,
    pub partitions: Finding,
    pub stores: Finding,
}

/// Nothing, where the tables can't be read.
pub(crate) fn unread() -> Behind
    ensures { IsUnread result }
{
    Behind {
        tables: Finding::Unread,
        partitions: Finding::Unread,
        stores: Finding::Unread,
    }
}

// What a fault of what the disk holds is found as; the others are failures.
fn found_of(fault: StartFault) -> Result<Finding, StartFault>
    ensures found { IfOk result (λ f. (f ≡ Finding.Wrong fault) × IsOfContents fault) }
    ensures kind { OnOk result (IsOfDisk fault → ⊥) }
    ensures failed { IfErr result (λ f. (f ≡ fault) × (IsOfContents f → ⊥)) }
{
    if is_of_contents(&fault) {
        Ok(Finding::Wrong(fault))
    } else {
        Err(fault)
    }
}

/// What was read of a part, or what is wrong with it.
pub(crate) type Said<T> = Result<T, StartFault>;

/// The update mark.
pub(crate) fn said_mark<D: Disk>(d: &mut D) -> Result<Said<UpdateMark>, StartFault>
    requires { 2048 < D.size d.old }
    ensures said { D.is_modelled → IfOk result (λ r. mark_in (D.seen d.old) ≡ r) }
    ensures slot { IfOk result (λ r. IfOk r (λ m. m.slot < 2)) }
    ensures failed { IfErr result (λ f. IsOfContents f → ⊥) }
    ensures reads { OnlyReads D.Disk d.old d.new }
    ensures counts { CountsFaults D.Disk d.old d.new result }
{
    match read_mark(d) {
        Ok(mark) => Ok(Ok(mark)),
        Err(fault) if is_of_contents(&fault) => Ok(Err(fault)),
        Err(fault) => Err(fault),
    }
}

/// The geometry of a `super` that ends with the disk.
pub(crate) fn said_geometry<D: Disk>(d: &mut D) -> Result<Said<Geometry>, StartFault>
    requires { 4120 ≤ D.size d.old }
    ensures said { D.is_modelled
        → IfOk result (λ r. geometry_at (D.size d.old) (D.seen d.old) ≡ r) }
    ensures rules { IfOk result (λ r. IfOk r IsGeometry) }
    ensures copies_on { IfOk result
        (λ r. IfOk r (λ g. copies_end g ≤ super_bytes (D.size d.old))) }
    ensures failed { IfErr result (λ f. IsOfContents f → ⊥) }
    ensures reads { OnlyReads D.Disk d.old d.new }
    ensures counts { CountsFaults D.Disk d.old d.new result }
{
    let sectors = d.sectors();
    match read_geometry(d, sectors) {
        Ok(geometry) => Ok(Ok(geometry)),
        Err(fault) if is_of_contents(&fault) => Ok(Err(fault)),
        Err(fault) => Err(fault),
    }
}

/// The statuses of a device with this mark.
pub(crate) fn said_statuses<D: Disk>(
    d: &mut D,
    mark: &UpdateMark,
) -> Result<Said<Statuses>, StartFault>
    requires { 2113 ≤ D.size d.old }
    ensures fine { D.is_modelled → IfOk result (λ r. IfOk r
        (λ ss. statuses_at (reads_statuses mark.now.phase) (D.seen d.old) ≡ Ok ss.items)) }
    ensures wrong { D.is_modelled → IfOk result (λ r. IfErr r
        (λ f. statuses_at (reads_statuses mark.now.phase) (D.seen d.old) ≡ Err f)) }
    ensures failed { IfErr result (λ f. IsOfContents f → ⊥) }
    ensures reads { OnlyReads D.Disk d.old d.new }
    ensures counts { CountsFaults D.Disk d.old d.new result }
{
    match read_version(d) {
        Ok(version) => match read_if(d, reads_statuses(mark.phase), version) {
            Ok(statuses) => Ok(Ok(statuses)),
            Err(fault) if is_of_contents(&fault) => Ok(Err(fault)),
            Err(fault) => Err(fault),
        },
        Err(fault) => Err(fault),
    }
}

/// The boot control, of whichever slots.
#[tactic(auto, unfolding(vab_device::specs::Reading::control_in))]
pub(crate) fn found_control<D: Disk>(d: &mut D) -> Result<Finding, StartFault>
    requires { 4 < D.size d.old }
    ensures finds { D.is_modelled → IfOk result
        (λ f. (a b : Bool) → Finds f (control_in a b (D.seen d.old))) }
    ensures failed { IfErr result (λ f. IsOfContents f → ⊥) }
    ensures reads { OnlyReads D.Disk d.old d.new }
    ensures counts { CountsFaults D.Disk d.old d.new result }
{
    match read_control(d) {
        Ok(_) => Ok(Finding::Fine),
        Err(fault) if is_of_contents(&fault) => Ok(Finding::Wrong(fault)),
        Err(fault) => Err(fault),
    }
}

// The stores of a device with this mark and these tables, whose partitions keep their rules, where
// its statuses are read: those that they name, or without an update the one of an overlay.
fn found_stores<D: Disk>(
    alloc: Global,
    d: &mut D,
    geometry: &Geometry,
    tables: &Tables,
    mark: &UpdateMark,
    statuses: &Said<Statuses>,
) -> Result<Finding, StartFault>
    requires enough { 4120 ≤ D.size d.old }
    requires slot { mark.now.slot < 2 }
    requires there { AreTablesThere (D.size d.old) geometry.now mark.now tables.now }
    requires update { IfSome tables.now.target
        (λ l. AreOfUpdate mark.now.apart mark.now.slot tables.now.source.table l.table) }
    requires own { IsOwn mark.now.slot (layout_of tables.now.source.table).parts }
    requires merging { IsNone tables.now.target
        → is_merging mark.now.phase ≡ true
        → IsMerging mark.now.slot (layout_of tables.now.source.table).parts }
    requires overlay { IsNone tables.now.target
        → is_merging mark.now.phase ≡ false
        → KeepsOverlay mark.now.overlaid mark.now.slot (layout_of tables.now.source.table) }
    ensures finds { D.is_modelled → IfOk result (λ f.
        FindsScans f tables.now mark.now (listed statuses.now) (D.seen d.old)) }
    ensures failed { IfErr result (λ f. IsOfContents f → ⊥) }
    ensures reads { OnlyReads D.Disk d.old d.new }
    ensures counts { CountsFaults D.Disk d.old d.new result }
{
    match statuses {
        Err(_) => Ok(Finding::Unread),
        Ok(statuses) => match read_stores(alloc, d, tables, statuses, mark) {
            Ok(_stored) => Ok(Finding::Fine),
            Err(fault) => found_of(fault),
        },
    }
}

// Whether the partitions keep their rules, as many as the mark's version has room for.
fn judge_under<D: Disk>(
    alloc: Global,
    d: &mut D,
    tables: &Tables,
    mark: &UpdateMark,
) -> Result<(), StartFault>
    requires enough { 4120 ≤ D.size d.old }
    requires slot { mark.now.slot < 2 }
    requires source { KeepsRules tables.now.source.table }
    requires target { IfSome tables.now.target (λ l. KeepsRules l.table) }
    ensures kept { D.is_modelled → OnOk result
        (fault_of (most_at (D.seen d.old)) mark.now tables.now.source.table tables.now.target
        ≡ None) }
    ensures fault { D.is_modelled → IfErr result (λ f. IsOfContents f
        → fault_of (most_at (D.seen d.old)) mark.now tables.now.source.table tables.now.target
        ≡ Some f) }
    ensures update { OnOk result (IfSome tables.now.target
        (λ l. AreOfUpdate mark.now.apart mark.now.slot tables.now.source.table l.table)) }
    ensures own { OnOk result (IsOwn mark.now.slot (layout_of tables.now.source.table).parts) }
    ensures merging { OnOk result (IsNone tables.now.target
        → is_merging mark.now.phase ≡ true
        → IsMerging mark.now.slot (layout_of tables.now.source.table).parts) }
    ensures overlay { OnOk result (IsNone tables.now.target
        → is_merging mark.now.phase ≡ false
        → KeepsOverlay mark.now.overlaid mark.now.slot (layout_of tables.now.source.table)) }
    ensures reads { OnlyReads D.Disk d.old d.new }
    ensures counts { CountsFaults D.Disk d.old d.new result }
{
    match read_version(d) {
        Ok(version) => judge_parts(alloc, tables, mark, version.partitions()),
        Err(fault) => Err(fault),
    }
}

/// The tables that are read of a device with this mark, their partitions, and the stores that its
/// statuses name, where these are read.
pub(crate) fn found_tables<D: Disk>(
    alloc: Global,
    d: &mut D,
    geometry: &Geometry,
    mark: &UpdateMark,
    statuses: &Said<Statuses>,
) -> Result<Behind, StartFault>
    requires enough { 4120 ≤ D.size d.old }
    requires rules { IsGeometry geometry.now }
    requires slot { mark.now.slot < 2 }
    requires copies_on { copies_end geometry.now ≤ super_bytes (D.size d.old) }
    ensures behind { D.is_modelled → IfOk result (λ r.
        FindsBehind r mark.now (listed statuses.now)
        (tables_asked (D.size d.old) geometry.now mark.now (D.seen d.old)) (D.seen d.old)) }
    ensures failed { IfErr result (λ f. IsOfContents f → ⊥) }
    ensures reads { OnlyReads D.Disk d.old d.new }
    ensures counts { CountsFaults D.Disk d.old d.new result }
{
    let sectors = d.sectors();
    match read_tables(alloc, d, sectors, geometry, mark) {
        Ok(tables) => match judge_under(alloc, d, &tables, mark) {
            Ok(()) => match found_stores(alloc, d, geometry, &tables, mark, statuses) {
                Ok(stores) => Ok(Behind {
                    tables: Finding::Fine,
                    partitions: Finding::Fine,
                    stores,
                }),
                Err(fault) => Err(fault),
            },
            Err(fault) if is_of_contents(&fault) => Ok(Behind {
                tables: Finding::Fine,
                partitions: Finding::Wrong(fault),
                stores: Finding::Unread,
            }),
            Err(fault) => Err(fault),
        },
        Err(fault) if is_of_contents(&fault) => Ok(Behind {
            tables: Finding::Wrong(fault),
            partitions: Finding::Unread,
            stores: Finding::Unread,
        }),
        Err(fault) => Err(fault),
    }
}
