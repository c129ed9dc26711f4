// What opening reads of disks with one device or another.

ghost use Rattle.std.specs.Prelude.{◌<◌, ◌≤◌};

use crate::texts::{KEPT_SUMS, UNLIMITED, UPDATED_SUMS, WITH_STORE};
use std::alloc::Global;
use std::test::*;
use vab_bootctl::{Control, ControlFault, Info, encode_control_into};
use vab_bytes::Name36;
use vab_device::{Device, PartImage, PhaseKind, StartFault};
use vab_disk::{CallKind, Disk, MemPort};
use vab_exceptions::encode_store_header;
use vab_gate::DiskFault;
use vab_geometry::{Geometry, encode_geometry};
use vab_marks::{MarkPhase, PartStatus, StatusImage, UpdateMark, encode_mark, encode_status};
use vab_recover::start;
use vab_space::Chunk;

const SECTORS: u64 = 8192;

const CONTROL: u64 = 4;

const MARK: u64 = 2048;

// The first status of a partition.
const STATUS: u64 = 2049;

const GEOMETRY: u64 = 4104;

const GEOMETRY_BACKUP: u64 = 4112;

// The table of slot a, two copies of 128 sectors for each slot.
const TABLE: u64 = 4120;

const TABLE_BACKUP: u64 = 4376;

// That of slot b.
const TARGET: u64 = 4248;

const TARGET_BACKUP: u64 = 4504;

// The store of slot a's partition, and its area.
const STORE: u64 = 6944;

const AREA: u64 = 6952;

// The sectors of slot a's table.
fn table() -> ([u8; 512], [u8; 512]) {
    let mut first = [0u8; 512];
    first.copy_from_slice(&UNLIMITED[..512]);
    let mut second = [0u8; 512];
    second[..28].copy_from_slice(&UNLIMITED[512..]);
    (first, second)
}

// The first sector of the table, whose sum is another.
fn bad_table() -> [u8; 512] {
    let mut first = table().0;
    first[300] = 0;
    first
}

// That sector with this sum at that byte.
fn with_sum(mut sector: [u8; 512], at: usize, sum: &[u8; 32]) -> [u8; 512]
    requires { at < 256 }
{
    sector[at..at + 32].copy_from_slice(sum);
    sector
}

// The first sector of slot b's table, whose partition has these attributes. The second is slot a's.
fn target_table(attributes: u8, sums: &[[u8; 32]; 2]) -> [u8; 512] {
    let mut first = with_sum(with_sum(table().0, 12, &sums[0]), 48, &sums[1]);
    first[263] = b'b';
    first[292] = attributes;
    first[304] = 2;
    first
}

fn geometry() -> [u8; 512] {
    encode_geometry(&Geometry {
        max: 65536,
        slots: 2,
    })
}

fn mark(phase: MarkPhase) -> [u8; 512] {
    encode_mark(&UpdateMark {
        phase,
        slot: 0,
        apart: false,
        overlaid: false,
        physical: false,
    })
}

// The mark of no update where a partition of slot a is overlaid.
fn overlaid_mark() -> [u8; 512] {
    encode_mark(&UpdateMark {
        phase: MarkPhase::Idle,
        slot: 0,
        apart: false,
        overlaid: true,
        physical: false,
    })
}

pub(crate) fn control(current: usize, priority: u8, successful: bool) -> [u8; 512]
    requires current { current < 2 }
    requires priority { priority ≤ 15 }
{
    control_of(current, priority, successful, 0)
}

// Boot control where slot b has this priority too.
fn control_of(current: usize, priority: u8, successful: bool, target: u8) -> [u8; 512]
    requires current { current < 2 }
    requires priority { priority ≤ 15 }
    requires target { target ≤ 15 }
{
    let mut sector = [0u8; 512];
    let control = Control {
        current,
        a: Info {
            priority,
            tries: 0,
            successful,
        },
        b: Info {
            priority: target,
            tries: 0,
            successful: false,
        },
    };
    encode_control_into(&control, &mut sector);
    sector
}

fn bad_control() -> [u8; 512] {
    let mut sector = control(0, 15, true);
    sector[12] = 0;
    sector
}

pub(crate) fn put(d: &mut MemPort, at: u64, bytes: &[u8; 512]) -> bool {
    at < d.sectors() && d.write_sector(at, bytes).is_ok()
}

pub(crate) fn sector(d: &mut MemPort, at: u64) -> Option<[u8; 512]> {
    let mut bytes = [0u8; 512];
    if at >= d.sectors() {
        return None;
    }
    d.read_sector(at, &mut bytes).ok()?;
    Some(bytes)
}

pub(crate) fn put_each(d: &mut MemPort, sectors: &[(u64, [u8; 512])]) -> Result<(), Fail> {
    for (at, bytes) in sectors {
        if !put(d, *at, bytes) {
            return Err("a sector is written".into());
        }
    }
    Ok(())
}

// A disk with a device, whose slot a has images.
fn device(alloc: Global) -> Result<MemPort, Fail> {
    let d = MemPort::new(alloc, SECTORS, Vec::new(alloc));
    let mut d = d.ok().ok_or("there is memory for a disk")?;
    let (first, second) = table();
    let sectors = [
        (CONTROL, control(0, 15, true)),
        (MARK, mark(MarkPhase::Idle)),
        (GEOMETRY, geometry()),
        (GEOMETRY_BACKUP, geometry()),
        (TABLE, first),
        (TABLE + 1, second),
        (TABLE_BACKUP, first),
        (TABLE_BACKUP + 1, second),
    ];
    put_each(&mut d, &sectors)?;
    Ok(d)
}

// That disk with an update from slot a that is ready, whose target has this table.
fn staged(alloc: Global, target: [u8; 512], control: [u8; 512]) -> Result<MemPort, Fail> {
    let mut d = device(alloc)?;
    let second = table().1;
    let sectors = [
        (CONTROL, control),
        (MARK, mark(MarkPhase::Staged)),
        (TARGET, target),
        (TARGET + 1, second),
        (TARGET_BACKUP, target),
        (TARGET_BACKUP + 1, second),
    ];
    put_each(&mut d, &sectors)?;
    Ok(d)
}

// The sectors of slot a's table, whose partition is marked as updated and has a store.
fn table_with_store() -> ([u8; 512], [u8; 512]) {
    let mut first = [0u8; 512];
    first.copy_from_slice(&WITH_STORE[..512]);
    let mut second = [0u8; 512];
    second[..152].copy_from_slice(&WITH_STORE[512..]);
    (first, second)
}

// A sector of an area, with the exception at that byte of this block, in this chunk.
fn with_exception(mut sector: [u8; 512], at: usize, block: u8, chunk: u8) -> [u8; 512]
    requires { at < 256 }
{
    sector[at] = block;
    sector[at + 8] = chunk;
    sector
}

// An area with no exceptions, and with the first, the first two or all of three.
pub(crate) fn areas() -> [[u8; 512]; 4] {
    let none = [0u8; 512];
    let one = with_exception(none, 0, 7, 2);
    let two = with_exception(one, 16, 30, 3);
    [none, one, two, with_exception(two, 32, 41, 4)]
}

fn full_name() -> Result<Name36, Fail> {
    Ok(Name36::parse(b"system_a").ok().ok_or("it is a name")?)
}

// The status of slot a's partition, with two exceptions.
fn status() -> Result<[u8; 512], Fail> {
    let status = PartStatus {
        name: full_name()?,
        image: StatusImage::Stored {
            count: 2,
            chunk: Chunk::One,
        },
    };
    Ok(encode_status(&status))
}

// A disk in this phase whose slot a has a partition with a store of that area.
pub(crate) fn with_store(
    alloc: Global,
    phase: MarkPhase,
    area: [u8; 512],
) -> Result<MemPort, Fail> {
    let mut d = device(alloc)?;
    let (first, second) = table_with_store();
    let sectors = [
        (MARK, mark(phase)),
        (STATUS, status()?),
        (TABLE, first),
        (TABLE + 1, second),
        (TABLE_BACKUP, first),
        (TABLE_BACKUP + 1, second),
        (STORE, encode_store_header(Chunk::One)),
        (AREA, area),
    ];
    put_each(&mut d, &sectors)?;
    Ok(d)
}

// How many exceptions the store of slot a's partition has, where it is read through one.
fn left(device: &Device) -> Option<u64> {
    let part = device.images(0)?.as_slice().first()?;
    match &part.image {
        PartImage::Kept => None,
        PartImage::Declared => None,
        PartImage::Written(_, view) => Some(view.count()),
    }
}

/// The device of a disk, where it is one.
pub(crate) fn opened(alloc: Global, d: &mut MemPort) -> Result<Device, Fail> {
    match start(alloc, d) {
        Ok(device) => Ok(device),
        Err(_) => Err("it is a device".into()),
    }
}

// How many blocks the device of a disk has.
fn cap_of(alloc: Global, d: &mut MemPort) -> Result<u64, StartFault> {
    match start(alloc, d) {
        Ok(device) => Ok(device.cap()),
        Err(fault) => Err(fault),
    }
}

// The priority of a slot.
fn priority(device: &Device, slot: usize) -> Option<u8>
    requires { slot < 2 }
{
    match device.slot_info(slot) {
        Some(info) => Some(info.priority),
        None => None,
    }
}

// What boot control says: the slot that was booted last, slot a's priority and whether it is
// successful, and slot b's priority.
type Fields = (usize, u8, bool, u8);

// The sector of such a boot control.
fn control_with(fields: Fields) -> Result<[u8; 512], Fail> {
    let (current, priority, successful, target) = fields;
    if current > 1 || priority > 15 || target > 15 {
        return Err("fields of boot control".into());
    }
    Ok(control_of(current, priority, successful, target))
}

// Whether a slot has one partition, `system` of this group, with 100 blocks from the first on.
fn has_system(device: &Device, slot: usize, group: &[u8]) -> bool
    requires { slot < 2 }
{
    let parts = match device.images(slot) {
        Some(parts) => parts.as_slice(),
        None => return false,
    };
    match parts.first() {
        Some(part) => {
            parts.len() == 1
                && part.name.text() == b"system".as_slice()
                && part.group.text() == group
                && part.map.len() == 100
                && part.map.sector_of(0) == 6144
        }
        None => false,
    }
}

// Whether slot a alone has images, one partition, and was booted last.
fn has_slot_a(device: &Device) -> bool {
    device.current() == 0
        && priority(device, 0) == Some(15)
        && device.images(1).is_none()
        && device.slot_info(1).is_none()
        && device.plan.is_none()
        && has_system(device, 0, b"main_a")
}

// Whether the device has the one group `main`, without a limit.
fn has_main(device: &Device) -> bool {
    let groups = device.groups.as_slice();
    match groups.first() {
        Some(group) => {
            groups.len() == 1 && group.name.text() == b"main".as_slice() && group.limit == 0
        }
        None => false,
    }
}

#[test]
fn a_disk_is_its_device(rt: HostRuntime) -> Result<(), Fail> {
    let alloc = rt.alloc();
    let mut d = device(alloc)?;
    let device = opened(alloc, &mut d)?;
    assert!(rt; device.cap() == 256 && device.phase() == PhaseKind::Idle);
    assert!(rt; has_slot_a(&device) && has_main(&device));
    Ok(())
}

// What stands in place of a sector.
#[derive(Clone, Copy)]
enum Other {
    Zeros,
    Mark(MarkPhase),
    BadTable,
    BadControl,
    Control(Fields),
}

fn other_sector(other: Other) -> Result<[u8; 512], Fail> {
    match other {
        Other::Zeros => Ok([0; 512]),
        Other::Mark(phase) => Ok(mark(phase)),
        Other::BadTable => Ok(bad_table()),
        Other::BadControl => Ok(bad_control()),
        Other::Control(fields) => control_with(fields),
    }
}

// The sectors that are other ones, what stands there, and the device's blocks or the fault.
const FAULTS: [([u64; 2], Other, Result<u64, StartFault>); 15] = [
    ([MARK, MARK], Other::Mark(MarkPhase::Idle), Ok(256)),
    ([TABLE, TABLE], Other::BadTable, Ok(256)),
    ([TABLE_BACKUP, TABLE_BACKUP], Other::BadTable, Ok(256)),
    (
        [TABLE, TABLE_BACKUP],
        Other::BadTable,
        Err(StartFault::BadTable(0)),
    ),
    ([GEOMETRY, GEOMETRY], Other::Zeros, Ok(256)),
    (
        [GEOMETRY, GEOMETRY_BACKUP],
        Other::Zeros,
        Err(StartFault::BadGeometry),
    ),
    ([MARK, MARK], Other::Zeros, Err(StartFault::BadMark(2048))),
    // Nothing is left to be merged, or all is.
    ([MARK, MARK], Other::Mark(MarkPhase::Merging), Ok(256)),
    ([MARK, MARK], Other::Mark(MarkPhase::Completed), Ok(256)),
    // While an update is installed or ready, slot b has a table too.
    (
        [MARK, MARK],
        Other::Mark(MarkPhase::Installing),
        Err(StartFault::BadTable(1)),
    ),
    (
        [MARK, MARK],
        Other::Mark(MarkPhase::Staged),
        Err(StartFault::BadTable(1)),
    ),
    (
        [CONTROL, CONTROL],
        Other::BadControl,
        Err(StartFault::BadControl(ControlFault::BadSum)),
    ),
    (
        [CONTROL, CONTROL],
        Other::Control((1, 15, true, 0)),
        Err(StartFault::BadState(1)),
    ),
    (
        [CONTROL, CONTROL],
        Other::Control((0, 0, true, 0)),
        Err(StartFault::BadState(2)),
    ),
    (
        [CONTROL, CONTROL],
        Other::Control((0, 15, false, 0)),
        Err(StartFault::BadState(2)),
    ),
];

#[test]
fn the_first_fault_is_told(rt: HostRuntime) -> Result<(), Fail> {
    for ([first, second], other, answer) in FAULTS {
        let mut d = device(rt.alloc())?;
        let bytes = other_sector(other)?;
        assert!(rt; put(&mut d, first, &bytes) && put(&mut d, second, &bytes));
        assert!(rt; cap_of(rt.alloc(), &mut d) == answer, "at {first}");
    }
    Ok(())
}

#[test]
fn an_update_that_is_ready_has_images_of_both_slots(rt: HostRuntime) -> Result<(), Fail> {
    let alloc = rt.alloc();
    let mut d = staged(alloc, target_table(1, &KEPT_SUMS), control(0, 15, true))?;
    let device = opened(alloc, &mut d)?;
    assert!(rt; device.phase() == PhaseKind::Staged(0) && device.plan.is_none());
    assert!(rt; priority(&device, 0) == Some(15));
    assert!(rt; priority(&device, 1) == Some(0));
    assert!(rt; has_system(&device, 0, b"main_a") && has_system(&device, 1, b"main_b"));
    Ok(())
}

// Whether the target's partition is kept, or is to be written and has no status; boot control; and
// the device's blocks or the fault.
const READY: [(bool, Fields, Result<u64, StartFault>); 7] = [
    (true, (0, 15, true, 0), Ok(256)),
    (true, (1, 15, true, 15), Ok(256)),
    // The slot that was booted last has the priority 0, or the source doesn't work.
    (true, (1, 15, true, 0), Err(StartFault::BadState(2))),
    (true, (0, 0, true, 0), Err(StartFault::BadState(2))),
    (true, (1, 15, false, 15), Err(StartFault::BadState(2))),
    (false, (0, 15, true, 0), Err(StartFault::BadState(3))),
    (false, (1, 15, true, 0), Err(StartFault::BadState(2))),
];

#[test]
fn an_update_that_is_ready_keeps_the_rules_of_the_slots(rt: HostRuntime) -> Result<(), Fail> {
    for (kept, fields, answer) in READY {
        let target = if kept {
            target_table(1, &KEPT_SUMS)
        } else {
            target_table(5, &UPDATED_SUMS)
        };
        let mut d = staged(rt.alloc(), target, control_with(fields)?)?;
        assert!(rt; cap_of(rt.alloc(), &mut d) == answer, "{fields:?}");
    }
    Ok(())
}

// The blocks of the store of slot a's partition, and where the blocks 7 and 30 stand in it.
fn store_of(device: &Device) -> Option<(u64, Option<u64>, Option<u64>)> {
    let part = device.images(0)?.as_slice().first()?;
    let blocks = part.store.as_ref()?.len();
    match &part.image {
        PartImage::Written(_, view) => Some((blocks, view.chunk_of(7), view.chunk_of(30))),
        _ => None,
    }
}

#[test]
fn a_slot_that_is_merged_is_read_through_its_store(rt: HostRuntime) -> Result<(), Fail> {
    let alloc = rt.alloc();
    let mut d = with_store(alloc, MarkPhase::Merging, areas()[1])?;
    let device = opened(alloc, &mut d)?;
    assert!(rt; device.phase() == PhaseKind::Merging(0) && has_slot_a(&device));
    assert!(rt; left(&device) == Some(1));
    assert!(rt; store_of(&device) == Some((5, Some(2), None)));
    Ok(())
}

// How many exceptions the store of slot a's partition has on a disk that is merged, of this area,
// with the status or without, and of this boot control.
fn left_on(
    alloc: Global,
    area: [u8; 512],
    has_status: bool,
    fields: Fields,
) -> Result<Result<Option<u64>, StartFault>, Fail> {
    let mut d = with_store(alloc, MarkPhase::Merging, area)?;
    let status = if has_status { status()? } else { [0; 512] };
    put_each(
        &mut d,
        &[(STATUS, status), (CONTROL, control_with(fields)?)],
    )?;
    match start(alloc, &mut d) {
        Ok(device) => Ok(Ok(left(&device))),
        Err(fault) => Ok(Err(fault)),
    }
}

#[test]
fn a_merge_keeps_the_rules_of_its_slot(rt: HostRuntime) -> Result<(), Fail> {
    let good = (0, 15, true, 0);
    let bad_store = StartFault::BadStore(full_name()?);
    // The exceptions of the area, whether there is a status, the boot control, and how many
    // exceptions are left or the fault.
    for (count, has_status, fields, answer) in [
        (0usize, true, good, Ok(Some(0))),
        (1, true, good, Ok(Some(1))),
        (2, true, good, Ok(Some(2))),
        (3, true, good, Err(bad_store)),
        (2, false, good, Err(StartFault::BadState(3))),
        (2, true, (1, 15, true, 0), Err(StartFault::BadState(1))),
        (2, true, (0, 15, false, 0), Err(StartFault::BadState(2))),
    ] {
        let area = areas()[count];
        assert!(rt;
            left_on(rt.alloc(), area, has_status, fields)? == answer,
            "{fields:?}"
        );
    }
    Ok(())
}

#[test]
fn no_phase_takes_an_image_in_place(rt: HostRuntime) -> Result<(), Fail> {
    let alloc = rt.alloc();
    let mut d = with_store(alloc, MarkPhase::Merging, areas()[0])?;
    let status = encode_status(&PartStatus {
        name: full_name()?,
        image: StatusImage::InPlace,
    });
    put_each(&mut d, &[(STATUS, status)])?;
    let fault = start(alloc, &mut d).err();
    assert!(rt; fault == Some(StartFault::BadStore(full_name()?)));
    Ok(())
}

// Whether slot a's partition is what its own blocks hold.
fn is_kept(device: &Device) -> bool {
    let parts = match device.images(0) {
        Some(parts) => parts.as_slice(),
        None => return false,
    };
    match parts.first() {
        Some(part) => matches!(&part.image, PartImage::Kept),
        None => false,
    }
}

#[test]
fn a_slot_whose_stores_are_all_merged_has_no_update(rt: HostRuntime) -> Result<(), Fail> {
    let alloc = rt.alloc();
    let mut d = with_store(alloc, MarkPhase::Completed, areas()[2])?;
    let device = opened(alloc, &mut d)?;
    assert!(rt; device.phase() == PhaseKind::Idle && has_slot_a(&device));
    assert!(rt; left(&device).is_none() && is_kept(&device));
    Ok(())
}

// The blocks of the store over slot a's partition, and where the blocks 7 and 30 stand in it.
fn overlaid_by(device: &Device) -> Option<(u64, Option<u64>, Option<u64>)> {
    let part = device.overlay.as_ref()?;
    let blocks = part.store.as_ref()?.len();
    match &part.image {
        PartImage::Written(_, view) => Some((blocks, view.chunk_of(7), view.chunk_of(30))),
        _ => None,
    }
}

#[test]
fn an_overlaid_partition_is_one_of_its_slot_with_its_store(rt: HostRuntime) -> Result<(), Fail> {
    let alloc = rt.alloc();
    let mut d = with_store(alloc, MarkPhase::Idle, areas()[1])?;
    put_each(&mut d, &[(MARK, overlaid_mark())])?;
    let device = opened(alloc, &mut d)?;
    assert!(rt; device.phase() == PhaseKind::Idle && has_slot_a(&device));
    assert!(rt; left(&device).is_none() && is_kept(&device));
    assert!(rt; overlaid_by(&device) == Some((5, Some(2), None)));
    Ok(())
}

// The blocks of the device where a partition of slot a is overlaid, whose store has this area, or
// where none has a store; or the fault.
fn cap_over(
    alloc: Global,
    area: Option<[u8; 512]>,
    fields: Fields,
) -> Result<Result<u64, StartFault>, Fail> {
    let mut d = match area {
        Some(area) => with_store(alloc, MarkPhase::Idle, area)?,
        None => device(alloc)?,
    };
    put_each(
        &mut d,
        &[(MARK, overlaid_mark()), (CONTROL, control_with(fields)?)],
    )?;
    Ok(cap_of(alloc, &mut d))
}

#[test]
fn an_overlay_keeps_its_rules(rt: HostRuntime) -> Result<(), Fail> {
    let good = (0, 15, true, 0);
    let bad_store = StartFault::BadStore(full_name()?);
    // An entry behind the end of the list.
    let stale = with_exception([0; 512], 16, 30, 3);
    for (area, fields, answer) in [
        (Some(areas()[0]), good, Ok(256)),
        (Some(areas()[3]), good, Ok(256)),
        (Some(stale), good, Err(bad_store)),
        (None, good, Err(StartFault::BadState(4))),
        (None, (1, 15, true, 0), Err(StartFault::BadState(4))),
        (Some(stale), (1, 15, true, 0), Err(bad_store)),
        (
            Some(areas()[1]),
            (1, 15, true, 0),
            Err(StartFault::BadState(1)),
        ),
        (
            Some(areas()[1]),
            (0, 15, false, 0),
            Err(StartFault::BadState(2)),
        ),
    ] {
        assert!(rt; cap_over(rt.alloc(), area, fields)? == answer, "{fields:?}");
    }
    Ok(())
}

#[test]
fn a_bad_copy_of_the_table_is_repaired(rt: HostRuntime) -> Result<(), Fail> {
    let alloc = rt.alloc();
    for at in [TABLE, TABLE_BACKUP] {
        let mut d = device(alloc)?;
        assert!(rt; put(&mut d, at, &bad_table()));
        assert!(rt; cap_of(alloc, &mut d) == Ok(256));
        assert!(rt; sector(&mut d, at) == Some(table().0));
    }
    Ok(())
}

#[test]
fn a_small_disk_and_one_that_fails_are_no_device(rt: HostRuntime) -> Result<(), Fail> {
    let alloc = rt.alloc();
    let small = MemPort::new(alloc, 4119, Vec::new(alloc));
    let mut small = small.ok().ok_or("there is memory for a disk")?;
    assert!(rt; cap_of(alloc, &mut small) == Err(StartFault::TooSmall(4120, 4119)));
    let mut failing = device(alloc)?.next_run(Vec::new(alloc));
    assert!(rt; failing.fail_at(CallKind::Disk, 0).is_ok());
    assert!(rt; cap_of(alloc, &mut failing) == Err(StartFault::Disk(DiskFault)));
    Ok(())
}
