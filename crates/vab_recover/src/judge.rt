//! The rules of tables, partitions and slots, and the device that is kept.

ghost use Rattle.std.specs.Prelude.{◌≡◌, ◌<◌, ◌≤◌, ℕ, IfOk, OnOk, IfErr, OnErr, Err, ◌==◌};
ghost use Rattle.std.specs.Prelude.{if◌then◌else◌, Some, None, IsNone, IfSome, true, false, []};
ghost use Rattle.std.specs.Prelude.{◌∷◌, length};
ghost use Rattle.vab_tables.specs.Rules.{KeepsRules, IsPartition};
ghost use Rattle.vab_layout.specs.Layout.{layout_of};
ghost use Rattle.vab_layout.specs.Slots.{IsOwn};
ghost use Rattle.vab_names.specs.Names.{most_partitions};
ghost use Rattle.vab_partitions.specs.Merging.{IsMerging};
ghost use Rattle.vab_device.specs.declared.fault.StartFault.TheVariants.{BadState};
ghost use Rattle.vab_device.specs.Checks.{check, first_fault};
ghost use Rattle.vab_device.specs.Faults.{IsOfContents, IsOfDisk};
ghost use Rattle.vab_bootctl.specs.Control.{Fits};
ghost use Rattle.vab_device.specs.Phases.{slot_checks, own_check, update_checks, is_good};
ghost use Rattle.vab_device.specs.Phases.{is_ready, are_ready, may_run, merging_check};
ghost use Rattle.vab_device.specs.Phases.{first_store, no_store_check};
ghost use Rattle.vab_layout.specs.Layout.{part_of};
ghost use Rattle.vab_device.specs.Idle.{control_read_of};
ghost use Rattle.vab_device.specs.Kept.{AreOfUpdate, HasNoStores, has_both, has_slot, is_no_store};
ghost use Rattle.vab_device.specs.Kept.{parts_of};
ghost use Rattle.vab_recover.specs.Opened.{fault_of, IsAssembled, is_merging, is_target_ready};
ghost use Rattle.vab_recover.specs.Opened.{planned_by, slots_fault};
ghost use Rattle.vab_recover.specs.Overlay.{KeepsOverlay};

use crate::overlay::judge_overlay;
use crate::read::{has_both, is_merging};
use crate::stores::Stored;
use crate::table::Tables;
use std::alloc::Global;
use vab_bootctl::{Control, Info};
use vab_bytes::{Listing, Name36};
use vab_device::{Device, Part, PartImage, StartFault};
use vab_geometry::Geometry;
use vab_marks::{MarkPhase, UpdateMark};
use vab_names::store_group;
use vab_partitions::{bad_merging, bad_partition, bad_target, has_twins, same_device};
use vab_physical::Tail;
use vab_plan::{limits, parts};
use vab_tables::{Partition, Table};

// Whether a slot may be booted as one that works.
fn is_good(info: &Info) -> bool
    ensures { result ≡ is_good info.now }
{
    info.priority != 0 && info.successful
}

// Whether the boot control of the one slot with images keeps its rules.
fn judge_slot(control: &Control, slot: usize) -> Result<(), StartFault>
    requires slot { slot < 2 }
    ensures ok { OnOk result
        (first_fault (slot_checks slot (control_read_of slot control.now)) ≡ None) }
    ensures fault { IfErr result
        (λ f. first_fault (slot_checks slot (control_read_of slot control.now)) ≡ Some f) }
    ensures kind { IfErr result (λ f. IsOfDisk f → ⊥) }
    ensures current { OnOk result (control.now.current ≡ slot) }
{
    if control.current != slot {
        return Err(StartFault::BadState(1));
    }
    let info = if slot == 0 { control.a } else { control.b };
    if !is_good(&info) {
        return Err(StartFault::BadState(2));
    }
    Ok(())
}

// Whether the source works, and a target that was booted last has a priority, where both slots have
// images.
#[tactic(auto, unfolding(vab_device::specs::Phases::may_run))]
fn may_run(control: &Control, source: usize) -> bool
    requires { source < 2 }
    ensures { result ≡ may_run source control.now }
{
    let (info, other) = if source == 0 {
        (control.a, control.b)
    } else {
        (control.b, control.a)
    };
    is_good(&info) && (control.current == source || other.priority != 0)
}

// Whether the image of a partition needs nothing more to be written.
fn is_ready(image: &PartImage) -> bool
    ensures { result ≡ is_ready image.now }
{
    match image {
        PartImage::Kept => true,
        PartImage::Declared => false,
        PartImage::Written(_, _) => true,
    }
}

// Whether each of these partitions is kept or written.
fn are_ready(parts: &[Part]) -> bool
    ensures { result ≡ are_ready parts.now }
{
    parts.iter().all(|part| is_ready(&part.image))
}

// Whether those that are read through stores are, where there are some.
fn is_target_ready(target: &Option<Listing<Part>>) -> bool
    ensures { result ≡ is_target_ready target.now }
{
    match target {
        None => true,
        Some(parts) => are_ready(parts.as_slice()),
    }
}

// Whether the boot control of both slots and the target of an update that is ready keep their
// rules.
fn judge_both(
    control: &Control,
    slot: usize,
    target: &Option<Listing<Part>>,
) -> Result<(), StartFault>
    requires { slot < 2 }
    ensures ok { OnOk result
        (first_fault (check (may_run slot control.now) (BadState 2)
        ∷ check (is_target_ready target.now) (BadState 3)
        ∷ []) ≡ None) }
    ensures fault { IfErr result
        (λ f. first_fault (check (may_run slot control.now) (BadState 2)
        ∷ check (is_target_ready target.now) (BadState 3)
        ∷ []) ≡ Some f) }
    ensures kind { IfErr result (λ f. IsOfDisk f → ⊥) }
{
    if !may_run(control, slot) {
        return Err(StartFault::BadState(2));
    }
    if !is_target_ready(target) {
        return Err(StartFault::BadState(3));
    }
    Ok(())
}

/// Whether the boot control, and the partitions that are read through stores, keep the rules of the
/// slots. `BadState` comes exactly where it says.
pub fn judge_slots(
    control: &Control,
    mark: &UpdateMark,
    target: &Option<Listing<Part>>,
) -> Result<(), StartFault>
    requires slot { mark.now.slot < 2 }
    requires fits { Fits control.now }
    ensures ok { OnOk result (slots_fault mark.now control.now target.now ≡ None) }
    ensures fault { IfErr result (λ f. slots_fault mark.now control.now target.now ≡ Some f) }
    ensures kind { IfErr result (λ f. IsOfDisk f → ⊥) }
    ensures current { OnOk result
        (has_slot mark.now.phase mark.now.slot control.now.current ≡ true) }
{
    if has_both(mark.phase) {
        return judge_both(control, mark.slot, target);
    }
    match judge_slot(control, mark.slot) {
        Err(fault) => Err(fault),
        Ok(()) => {
            if is_merging(mark.phase) && !is_target_ready(target) {
                return Err(StartFault::BadState(3));
            }
            Ok(())
        }
    }
}

// Whether a slot's own partitions keep their rules.
fn judge_own(alloc: Global, table: &Table, slot: usize, most: usize) -> Result<(), StartFault>
    requires slot { slot < 2 }
    requires most { most ≤ most_partitions }
    requires keeps { KeepsRules table.now }
    ensures kept { OnOk result (own_check most slot table.now ≡ None) }
    ensures fault { IfErr result (λ f. IsOfContents f → own_check most slot table.now ≡ Some f) }
    ensures own { OnOk result (IsOwn slot (layout_of table.now).parts) }
    ensures kind { IfErr result (λ f. IsOfDisk f → ⊥) }
{
    match bad_partition(alloc, table, slot, most) {
        Ok(None) => Ok(()),
        Ok(Some(name)) => Err(StartFault::BadPartition(name)),
        Err(_) => Err(StartFault::NoMemory),
    }
}

// Whether a partition isn't in the stores' group.
fn is_no_store(table: &Table, partition: &Partition) -> bool
    requires { IsPartition table.now.minor (length table.now.extents)
        (length table.now.groups) partition.now }
    ensures { result ≡ is_no_store (part_of table.now partition.now) }
{
    table.groups.as_slice()[partition.group as usize].name != store_group()
}

// The first partition in the stores' group.
fn first_store(table: &Table) -> Option<Name36>
    requires { KeepsRules table.now }
    ensures { result ≡ first_store (layout_of table.now).parts }
{
    for partition in table.partitions.as_slice() {
        if !is_no_store(table, partition) {
            return Some(partition.name);
        }
    }
    None
}

// Whether no partition of a target that stands apart is in the stores' group.
fn judge_stores(table: &Table, apart: bool) -> Result<(), StartFault>
    requires { KeepsRules table.now }
    ensures kept { OnOk result (no_store_check apart table.now ≡ None) }
    ensures fault { IfErr result (λ f. no_store_check apart table.now ≡ Some f) }
    ensures none { OnOk result (HasNoStores apart (layout_of table.now).parts) }
    ensures kind { IfErr result IsOfContents }
{
    if !apart {
        return Ok(());
    }
    match first_store(table) {
        None => Ok(()),
        Some(name) => Err(StartFault::BadPartition(name)),
    }
}

// Whether both tables are those of an update from this slot, whose target stands apart or not.
fn judge_update(
    alloc: Global,
    source: &Table,
    target: &Table,
    slot: usize,
    most: usize,
    apart: bool,
) -> Result<(), StartFault>
    requires slot { slot < 2 }
    requires most { most ≤ most_partitions }
    requires source_keeps { KeepsRules source.now }
    requires target_keeps { KeepsRules target.now }
    ensures kept { OnOk result
        (first_fault (update_checks apart most slot source.now target.now) ≡ None) }
    ensures fault { IfErr result (λ f. IsOfContents f
        → first_fault (update_checks apart most slot source.now target.now) ≡ Some f) }
    ensures own { OnOk result (IsOwn slot (layout_of source.now).parts) }
    ensures update { OnOk result (AreOfUpdate apart slot source.now target.now) }
    ensures kind { IfErr result (λ f. IsOfDisk f → ⊥) }
{
    if !same_device(source, target) || !has_twins(source, target, 1 - slot) {
        return Err(StartFault::BadTable(1 - slot));
    }
    match judge_own(alloc, source, slot, most) {
        Err(fault) => Err(fault),
        Ok(()) => match bad_target(alloc, source, target, 1 - slot, most, apart) {
            Ok(None) => judge_stores(target, apart),
            Ok(Some(name)) => Err(StartFault::BadPartition(name)),
            Err(_) => Err(StartFault::NoMemory),
        },
    }
}

// Whether a slot whose stores are merged keeps its rules.
fn judge_merging(alloc: Global, table: &Table, slot: usize, most: usize) -> Result<(), StartFault>
    requires slot { slot < 2 }
    requires most { most ≤ most_partitions }
    requires keeps { KeepsRules table.now }
    ensures kept { OnOk result (merging_check most slot table.now ≡ None) }
    ensures fault { IfErr result
        (λ f. IsOfContents f → merging_check most slot table.now ≡ Some f) }
    ensures merging { OnOk result (IsMerging slot (layout_of table.now).parts) }
    ensures kind { IfErr result (λ f. IsOfDisk f → ⊥) }
{
    match bad_merging(alloc, table, slot, most) {
        Ok(None) => Ok(()),
        Ok(Some(name)) => Err(StartFault::BadPartition(name)),
        Err(_) => Err(StartFault::NoMemory),
    }
}

// Whether the one table that is read keeps its rules.
fn judge_one(alloc: Global, table: &Table, mark: &UpdateMark, most: usize) -> Result<(), StartFault>
    requires slot { mark.now.slot < 2 }
    requires most { most ≤ most_partitions }
    requires keeps { KeepsRules table.now }
    ensures kept { OnOk result (fault_of most mark.now table.now None ≡ None) }
    ensures fault { IfErr result (λ f. IsOfContents f
        → fault_of most mark.now table.now None ≡ Some f) }
    ensures own { OnOk result (IsOwn mark.now.slot (layout_of table.now).parts) }
    ensures merging { OnOk result (is_merging mark.now.phase ≡ true
        → IsMerging mark.now.slot (layout_of table.now).parts) }
    ensures overlay { OnOk result (is_merging mark.now.phase ≡ false
        → KeepsOverlay mark.now.overlaid mark.now.slot (layout_of table.now)) }
    ensures kind { IfErr result (λ f. IsOfDisk f → ⊥) }
{
    if is_merging(mark.phase) {
        return judge_merging(alloc, table, mark.slot, most);
    }
    match judge_own(alloc, table, mark.slot, most) {
        Err(fault) => Err(fault),
        Ok(()) => judge_overlay(alloc, table, mark),
    }
}

/// Whether the tables and the partitions keep the rules of a device with this mark, whose slots may
/// have so many partitions. `BadTable`, `BadPartition` and an overlay's `BadState` come exactly
/// where they say.
pub fn judge_parts(
    alloc: Global,
    tables: &Tables,
    mark: &UpdateMark,
    most: usize,
) -> Result<(), StartFault>
    requires slot { mark.now.slot < 2 }
    requires most { most ≤ most_partitions }
    requires source { KeepsRules tables.now.source.table }
    requires target { IfSome tables.now.target (λ l. KeepsRules l.table) }
    ensures kept { OnOk result (fault_of most mark.now
        tables.now.source.table tables.now.target ≡ None) }
    ensures fault { IfErr result (λ f. IsOfContents f
        → fault_of most mark.now tables.now.source.table tables.now.target
        ≡ Some f) }
    ensures own { OnOk result (IsOwn mark.now.slot (layout_of tables.now.source.table).parts) }
    ensures update { OnOk result (IfSome tables.now.target
        (λ l. AreOfUpdate mark.now.apart mark.now.slot tables.now.source.table l.table)) }
    ensures merging { OnOk result (IsNone tables.now.target
        → is_merging mark.now.phase ≡ true
        → IsMerging mark.now.slot (layout_of tables.now.source.table).parts) }
    ensures overlay { OnOk result (IsNone tables.now.target
        → is_merging mark.now.phase ≡ false
        → KeepsOverlay mark.now.overlaid mark.now.slot (layout_of tables.now.source.table)) }
    ensures kind { IfErr result (λ f. IsOfDisk f → ⊥) }
{
    match &tables.target {
        None => judge_one(alloc, &tables.source.table, mark, most),
        Some(target) => judge_update(
            alloc,
            &tables.source.table,
            &target.table,
            mark.slot,
            most,
            mark.apart,
        ),
    }
}

// The partitions of the slots a and b, where this slot has these and the other those.
fn by_slot(
    own: Option<Listing<Part>>,
    other: Option<Listing<Part>>,
    slot: usize,
) -> (Option<Listing<Part>>, Option<Listing<Part>>)
    requires { slot < 2 }
    ensures a { result.0 ≡ (if slot == 0 then own else other) }
    ensures b { result.1 ≡ (if slot == 1 then own else other) }
{
    if slot == 0 {
        (own, other)
    } else {
        (other, own)
    }
}

// The partitions of the target as images, where both slots have some, and as a plan where not.
fn by_phase(
    target: Option<Listing<Part>>,
    phase: MarkPhase,
) -> (Option<Listing<Part>>, Option<Listing<Part>>)
    ensures images { result.0 ≡ (if has_both phase then target else None) }
    ensures plan { result.1 ≡ (if has_both phase then None else target) }
{
    if has_both(phase) {
        (target, None)
    } else {
        (None, target)
    }
}

/// The partitions of a device: those of the mark's slot, those of the other, and those that are
/// planned.
#[derive(Drop)]
struct Divided {
    own: Option<Listing<Part>>,
    other: Option<Listing<Part>>,
    plan: Option<Listing<Part>>,
}

// The partitions of a device whose slot has this table, where these are read through stores.
fn divide(
    alloc: Global,
    table: &Table,
    mark: &UpdateMark,
    through: Option<Listing<Part>>,
) -> Result<Divided, StartFault>
    requires slot { mark.now.slot < 2 }
    requires keeps { KeepsRules table.now }
    requires own { IsOwn mark.now.slot (layout_of table.now).parts }
    ensures own { IfOk result (λ x. x.own
        ≡ (if is_merging mark.now.phase
        then through
        else Some (parts_of mark.now.slot (layout_of table.now)))) }
    ensures other { IfOk result (λ x. x.other
        ≡ (if is_merging mark.now.phase
        then None
        else (if has_both mark.now.phase then through else None))) }
    ensures plan { IfOk result (λ x. x.plan ≡ planned_by mark.now.phase through) }
    ensures fault { OnErr result (result ≡ Err StartFault.NoMemory) }
{
    if is_merging(mark.phase) {
        return Ok(Divided {
            own: through,
            other: None,
            plan: None,
        });
    }
    let parts = parts(alloc, table, mark.slot)?;
    let (other, plan) = by_phase(through, mark.phase);
    Ok(Divided {
        own: Some(parts),
        other,
        plan,
    })
}

/// The device whose mark's slot has this table, where these partitions are read through stores, but
/// for its tables.
pub fn assemble(
    alloc: Global,
    table: &Table,
    geometry: Geometry,
    control: Control,
    mark: UpdateMark,
    tail: Tail,
    stored: Stored,
) -> Result<Device, StartFault>
    requires slot { mark.slot < 2 }
    requires keeps { KeepsRules table.now }
    requires own { IsOwn mark.slot (layout_of table.now).parts }
    ensures is { IfOk result (λ d. IsAssembled d mark control tail geometry table.now stored) }
    ensures fault { OnErr result (result ≡ Err StartFault.NoMemory) }
{
    let groups = limits(alloc, table, mark.slot)?;
    let cap = table.devices.as_slice()[0].cap();
    let Stored { through, overlay } = stored;
    let divided = divide(alloc, table, &mark, through)?;
    let Divided { own, other, plan } = divided;
    let (a, b) = by_slot(own, other, mark.slot);
    Ok(Device {
        geometry,
        control,
        mark,
        tail,
        cap,
        groups,
        a,
        b,
        table_a: None,
        table_b: None,
        plan,
        overlay,
    })
}
