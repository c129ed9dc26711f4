// The tables of an update, from its begin on, edit by edit.

ghost use Rattle.std.specs.Prelude.{◌≡◌, ◌<◌, ◌^◌, true, IfOk};
ghost use Rattle.vab_tables.specs.Rules.{KeepsRules};
ghost use Rattle.vab_tables.specs.Spelling.{table_size_of};
ghost use Rattle.vab_layout.specs.Layout.{layout_of};
ghost use Rattle.vab_layout.specs.Slots.{IsOwn};
ghost use Rattle.vab_table_tests.specs.Updates.{AreSlots, IsSource, IsUpdated};

use crate::sources::{LIMITED, UNLIMITED};
use std::alloc::Global;
use std::process::Abort;
use std::test::*;
use vab_builder::{Edit, EditFault, apply, import, without_stores};
use vab_layout::Layout;
use vab_partitions::{MAX_PARTITIONS, bad_partition};
use vab_tables::{Table, decode_table, encode_table};

// An update: the text of a table of slot a, the slots of its source and of its target, and the
// most bytes of a copy of a table. Where the source is slot b, it is what an update of b without
// edits makes of the text. The target stands beside its source or `apart` from it.
#[derive(Clone, Copy)]
pub(crate) struct Update<'a> {
    text: &'a [u8],
    from: usize,
    to: usize,
    max: u32,
    apart: bool,
}

pub(crate) const TO_B: Update<'static> = Update {
    text: &UNLIMITED,
    from: 0,
    to: 1,
    max: 1024,
    apart: false,
};

const APART: Update<'static> = Update {
    text: &UNLIMITED,
    from: 0,
    to: 1,
    max: 1024,
    apart: true,
};

const TO_A: Update<'static> = Update {
    text: &UNLIMITED,
    from: 1,
    to: 0,
    max: 1024,
    apart: false,
};

// Whether a table has so few entries that its text is short.
fn is_small(table: &Table) -> bool
    ensures { result ≡ true → table_size_of table.now < 2 ^ 24 }
{
    table.partitions.len() < 999
        && table.extents.len() < 999
        && table.groups.len() < 999
        && table.devices.len() < 999
}

// The table of slot a that a text spells.
fn spelled(alloc: Global, text: &[u8], max: u32) -> Result<Table, Fail>
    ensures { IfOk result (λ t. IsSource 0 t) }
{
    let table = decode_table(alloc, text, max)?;
    match bad_partition(alloc, &table, 0, MAX_PARTITIONS)? {
        None if is_small(&table) => Ok(table),
        _ => Err(Fail::from("a small table of a good slot")),
    }
}

// The table that an update begins with.
fn begun(alloc: Global, update: &Update<'_>, source: &Table) -> Result<Table, Fail>
    requires slots { AreSlots update.now.from update.now.to }
    requires source { IsSource update.now.from source.now }
    ensures { IfOk result (λ t. IsUpdated update.now.to update.now.apart source.now t) }
{
    let begun = import(alloc, source, update.from, update.max, update.apart)?;
    if !is_small(&begun) {
        return Err("a small table".into());
    }
    Ok(begun)
}

// The table of a slot alone.
fn alone(alloc: Global, table: &Table, slot: usize) -> Result<Table, Fail>
    requires slot { slot < 2 }
    requires keeps { KeepsRules table.now }
    requires small { table_size_of table.now < 2 ^ 24 }
    requires own { IsOwn slot (layout_of table.now).parts }
    ensures { IfOk result (λ t. IsSource slot t) }
{
    let alone = without_stores(alloc, table, slot)?;
    if !is_small(&alone) {
        return Err("a small table".into());
    }
    Ok(alone)
}

// The table of slot b alone after an update without edits of slot a, whose table a text spells.
fn of_slot_b(alloc: Global, text: &[u8], max: u32) -> Result<Table, Fail>
    ensures { IfOk result (λ t. IsSource 1 t) }
{
    let source = spelled(alloc, text, max)?;
    let update = Update { text, max, ..TO_B };
    let target = begun(alloc, &update, &source)?;
    alone(alloc, &target, 1)
}

// The table of the update's source.
pub(crate) fn source(alloc: Global, update: &Update<'_>) -> Result<Table, Fail>
    requires { AreSlots update.now.from update.now.to }
    ensures { IfOk result (λ t. IsSource update.now.from t) }
{
    match update.from {
        0 => spelled(alloc, update.text, update.max),
        _ => of_slot_b(alloc, update.text, update.max),
    }
}

// The table after an edit that is made.
fn edited(
    alloc: Global,
    update: &Update<'_>,
    source: &Table,
    target: &Table,
    edit: &Edit,
) -> Result<Table, Fail>
    requires slots { AreSlots update.now.from update.now.to }
    requires source { IsSource update.now.from source.now }
    requires target { IsUpdated update.now.to update.now.apart source.now target.now }
    ensures { IfOk result (λ t. IsUpdated update.now.to update.now.apart source.now t) }
{
    let edited = apply(
        alloc,
        source,
        target,
        update.to,
        edit,
        update.max,
        update.apart,
    )?;
    if !is_small(&edited) {
        return Err("a small table".into());
    }
    Ok(edited)
}

// The table after two edits that are made.
fn edited_twice(
    alloc: Global,
    update: &Update<'_>,
    source: &Table,
    target: &Table,
    edits: [&Edit; 2],
) -> Result<Table, Fail>
    requires slots { AreSlots update.now.from update.now.to }
    requires source { IsSource update.now.from source.now }
    requires target { IsUpdated update.now.to update.now.apart source.now target.now }
    ensures { IfOk result (λ t. IsUpdated update.now.to update.now.apart source.now t) }
{
    let once = edited(alloc, update, source, target, edits[0])?;
    edited(alloc, update, source, &once, edits[1])
}

// The table of an update after these edits.
pub(crate) fn after(
    alloc: Global,
    update: &Update<'_>,
    source: &Table,
    edits: &[Edit; 6],
) -> Result<Table, Fail>
    requires slots { AreSlots update.now.from update.now.to }
    requires source { IsSource update.now.from source.now }
    ensures { IfOk result (λ t. IsUpdated update.now.to update.now.apart source.now t) }
{
    let begun = begun(alloc, update, source)?;
    let two = edited_twice(alloc, update, source, &begun, [&edits[0], &edits[1]])?;
    let four = edited_twice(alloc, update, source, &two, [&edits[2], &edits[3]])?;
    edited_twice(alloc, update, source, &four, [&edits[4], &edits[5]])
}

// The bytes of a small table's text.
pub(crate) fn text_size(alloc: Global, table: &Table) -> Result<usize, Fail>
    requires { KeepsRules table.now }
{
    if !is_small(table) {
        return Err("a small table".into());
    }
    Ok(encode_table(alloc, table)?.len())
}

// The blocks of a partition, none where there is no such partition.
pub(crate) fn blocks(alloc: Global, table: &Table, name: &[u8]) -> Result<Vec<u64>, Fail>
    requires { KeepsRules table.now }
{
    let layout = Layout::of_table(alloc, table)?;
    for part in layout.parts.as_slice() {
        if part.name.text() == name {
            let mut all = Vec::new(alloc);
            for run in part.blocks.runs() {
                for i in 0..run.1 {
                    all.push(run.0.wrapping_add(i))?;
                }
            }
            return Ok(all);
        }
    }
    Ok(Vec::new(alloc))
}

// The extents of a table, as sectors and the first sector.
fn extents(alloc: Global, table: &Table) -> Result<Vec<(u64, u64)>, Fail> {
    let mut extents = Vec::new(alloc);
    for extent in table.extents.as_slice() {
        extents.push((extent.sectors, extent.first_sector))?;
    }
    Ok(extents)
}

// The table of an update after these edits, and that of the target's slot alone.
pub(crate) fn tables_after(
    alloc: Global,
    update: &Update<'_>,
    edits: &[Edit; 6],
) -> Result<(Table, Table), Fail>
    requires { AreSlots update.now.from update.now.to }
    ensures target { IfOk result (λ t. KeepsRules t.0) }
    ensures alone { IfOk result (λ t. KeepsRules t.1) }
{
    let source = source(alloc, update)?;
    let target = after(alloc, update, &source, edits)?;
    let alone = alone(alloc, &target, update.to)?;
    Ok((target, alone))
}

// The refusal of an edit after these.
fn refusal_after(
    alloc: Global,
    update: &Update<'_>,
    edits: &[Edit; 6],
    edit: &Edit,
) -> Result<Option<EditFault>, Fail>
    requires { AreSlots update.now.from update.now.to }
{
    let source = source(alloc, update)?;
    let target = after(alloc, update, &source, edits)?;
    Ok(apply(
        alloc,
        &source,
        &target,
        update.to,
        edit,
        update.max,
        update.apart,
    )
    .err())
}

// The table of an update of one partition to 64: 63 of one block are new.
fn full_target(alloc: Global, update: &Update<'_>, source: &Table) -> Result<Table, Fail>
    requires slots { AreSlots update.now.from update.now.to }
    requires source { IsSource update.now.from source.now }
    ensures { IfOk result (λ t. IsUpdated update.now.to update.now.apart source.now t) }
{
    let mut target = begun(alloc, update, source)?;
    for number in 0..63u8 {
        let name = [b'p', b'0' + number / 10, b'0' + number % 10, b'_', b'b'];
        target = edited(alloc, update, source, &target, &Edit::Create(&name, 4096))?;
    }
    Ok(target)
}

// The refusal of an edit where the target has 64 partitions, and this one is made before.
fn refusal_of_65th(
    alloc: Global,
    update: &Update<'_>,
    before: &Edit,
    edit: &Edit,
) -> Result<Option<EditFault>, Fail>
    requires { AreSlots update.now.from update.now.to }
{
    let source = source(alloc, update)?;
    let full = full_target(alloc, update, &source)?;
    let target = edited(alloc, update, &source, &full, before)?;
    Ok(apply(
        alloc,
        &source,
        &target,
        update.to,
        edit,
        update.max,
        update.apart,
    )
    .err())
}

pub(crate) const SYSTEM: &[u8] = b"system_b";

// An edit that changes nothing where `system` has 100 blocks.
pub(crate) const SAME: Edit = Edit::Resize(SYSTEM, 409600);

pub(crate) const P1: Edit = Edit::Create(b"p1_b", 4096);

const P2: Edit = Edit::Create(b"p2_b", 4096);

const P3: Edit = Edit::Create(b"p3_b", 4096);

const P4: Edit = Edit::Create(b"p4_b", 4096);

const P5: Edit = Edit::Create(b"p5_b", 4096);

#[test]
fn texts_grow_by_76_bytes_until_a_copy_is_full(rt: HostRuntime) -> Result<(), Fail> {
    let alloc = rt.alloc();
    for (edits, size) in [
        ([SAME, SAME, SAME, SAME, SAME, SAME], 664),
        ([P1, SAME, SAME, SAME, SAME, SAME], 740),
        ([P1, P2, SAME, SAME, SAME, SAME], 816),
        ([P1, P2, P3, SAME, SAME, SAME], 892),
        ([P1, P2, P3, P4, SAME, SAME], 968),
        ([P1, P2, P3, P4, Edit::Delete(b"p4_b"), P5], 968),
    ] {
        let (target, _) = tables_after(alloc, &TO_B, &edits)?;
        assert_eq!(rt; text_size(alloc, &target)?, size);
    }
    let full = refusal_after(alloc, &TO_B, &[P1, P2, P3, P4, SAME, SAME], &P5)?;
    assert_eq!(rt; full, Some(EditFault::TableFull(1044, 1024)));
    Ok(())
}

#[test]
fn a_partition_made_smaller_and_larger_has_the_sources_blocks(rt: HostRuntime) -> Result<(), Fail> {
    let alloc = rt.alloc();
    let small = Edit::Resize(SYSTEM, 163840);
    let made = Edit::Create(SYSTEM, 409600);
    let other = Edit::Create(b"other_b", 0);
    // The source's partition has the first 100 blocks.
    for (edits, count) in [
        ([SAME, SAME, SAME, SAME, SAME, SAME], 100),
        ([SAME, SAME, SAME, SAME, SAME, small], 40),
        ([SAME, SAME, SAME, SAME, small, SAME], 100),
        ([SAME, SAME, SAME, SAME, Edit::Delete(SYSTEM), other], 0),
        ([SAME, SAME, SAME, SAME, Edit::Delete(SYSTEM), made], 100),
    ] {
        let expected: Vec<u64> = (0..count).collect(alloc)?;
        let (target, _) = tables_after(alloc, &TO_B, &edits)?;
        assert_eq!(rt;
            blocks(alloc, &target, SYSTEM)?.as_slice(),
            expected.as_slice()
        );
    }
    Ok(())
}

// The numbers of 40 blocks from 100 on and, behind the block 140, as many as make 100 together.
fn behind_the_source(alloc: Global) -> Result<Vec<u64>, Fail> {
    let mut all: Vec<u64> = (100..140).collect(alloc)?;
    let rest: Vec<u64> = (141..201).collect(alloc)?;
    all.extend(rest)?;
    Ok(all)
}

#[test]
fn a_partition_apart_takes_the_lowest_blocks_that_are_free(rt: HostRuntime) -> Result<(), Fail> {
    let alloc = rt.alloc();
    // The source's partition has the first 100 blocks of 256.
    let made = Edit::Create(SYSTEM, 409600);
    let small = Edit::Resize(SYSTEM, 163840);
    let (target, _) = tables_after(alloc, &APART, &[made, SAME, SAME, small, P1, SAME])?;
    assert_eq!(rt;
        blocks(alloc, &target, SYSTEM)?.as_slice(),
        behind_the_source(alloc)?.as_slice()
    );
    assert_eq!(rt;
        blocks(alloc, &target, b"p1_b")?.as_slice(),
        [140].as_slice()
    );
    let full = [made, SAME, SAME, SAME, SAME, SAME];
    for (bytes, refused) in [(233472, Some(EditFault::NoRoom(257, 256))), (229376, None)] {
        let more = Edit::Create(b"x_b", bytes);
        assert_eq!(rt; refusal_after(alloc, &APART, &full, &more)?, refused);
    }
    Ok(())
}

#[test]
fn a_store_takes_the_blocks_behind_a_larger_partition(rt: HostRuntime) -> Result<(), Fail> {
    let alloc = rt.alloc();
    let large = Edit::Resize(SYSTEM, 614400);
    let store = Edit::AddStore(SYSTEM, 434176);
    let whole = Edit::AddStore(SYSTEM, 0);
    let grown = [SAME, SAME, SAME, SAME, SAME, large];
    let room = refusal_after(alloc, &TO_B, &grown, &whole)?;
    assert_eq!(rt; room, Some(EditFault::NoRoom(302, 256)));
    let stored = [SAME, SAME, SAME, SAME, large, store];
    let (target, _) = tables_after(alloc, &TO_B, &stored)?;
    assert_eq!(rt; text_size(alloc, &target)?, 740);
    assert_eq!(rt;
        extents(alloc, &target)?.as_slice(),
        [(800, 2048), (1200, 2048), (848, 3248)].as_slice()
    );
    let twice = refusal_after(alloc, &TO_B, &stored, &store)?;
    assert_eq!(rt; twice, Some(EditFault::HasStore));
    Ok(())
}

// Makes each edit of an update once, of the partitions `system` and two others; the name that isn't
// the target's is refused. The system has the source's 100 blocks and 50 behind that of the created
// partition, and its store 100 behind these.
fn each_edit(
    rt: &impl Abort,
    alloc: Global,
    update: &Update<'_>,
    names: [&[u8]; 4],
) -> Result<(), Fail>
    requires { AreSlots update.now.from update.now.to }
{
    let [system, created, deleted, other] = names;
    let edits = [
        Edit::Create(created, 4096),
        Edit::Create(deleted, 8192),
        Edit::Resize(created, 4095),
        Edit::Delete(deleted),
        Edit::Resize(system, 614400),
        Edit::AddStore(system, 409600),
    ];
    let (target, alone) = tables_after(alloc, update, &edits)?;
    assert_eq!(rt; text_size(alloc, &target)?, 840);
    assert_eq!(rt;
        extents(alloc, &target)?.as_slice(),
        [
            (800, 2048),
            (800, 2048),
            (400, 2856),
            (8, 2848),
            (800, 3256)
        ]
        .as_slice()
    );
    assert_eq!(rt; text_size(alloc, &alone)?, 592);
    assert_eq!(rt;
        extents(alloc, &alone)?.as_slice(),
        [(800, 2048), (400, 2856), (8, 2848)].as_slice()
    );
    for (edit, fault) in [
        (Edit::Create(other, 0), EditFault::BadName),
        (Edit::Create(created, 0), EditFault::Exists),
        (Edit::Delete(deleted), EditFault::Unknown),
        (Edit::Delete(system), EditFault::HasStore),
        (Edit::Resize(system, 0), EditFault::HasStore),
        (Edit::AddStore(system, 0), EditFault::HasStore),
        (
            Edit::AddStore(created, 8192),
            EditFault::TableFull(916, 900),
        ),
        (Edit::Resize(created, 28672), EditFault::NoRoom(257, 256)),
    ] {
        let refused = refusal_after(alloc, update, &edits, &edit)?;
        assert_eq!(rt; refused, Some(fault));
    }
    Ok(())
}

#[test]
fn both_slots_are_updated_alike_and_lose_their_stores(rt: HostRuntime) -> Result<(), Fail> {
    let alloc = rt.alloc();
    let (to_b, to_a) = (Update { max: 900, ..TO_B }, Update { max: 900, ..TO_A });
    each_edit(&rt, alloc, &to_b, [SYSTEM, b"p_b", b"q_b", b"p_a"])?;
    each_edit(&rt, alloc, &to_a, [b"system_a", b"p_a", b"q_a", b"p_b"])
}

#[test]
fn edits_are_refused_by_name(rt: HostRuntime) -> Result<(), Fail> {
    let alloc = rt.alloc();
    let limited = Update {
        text: &LIMITED,
        ..TO_B
    };
    let same = [SAME, SAME, SAME, SAME, SAME, SAME];
    for (edit, fault) in [
        (Edit::Create(b"system_a", 0), EditFault::BadName),
        (Edit::Create(b"a-b_b", 0), EditFault::BadName),
        (Edit::Create(b"x_b", 1099511627777), EditFault::BadSize),
        (Edit::AddStore(b"system_b", 4096), EditFault::BadSize),
        (Edit::Resize(b"x_b", 0), EditFault::Unknown),
        (Edit::Delete(b"x_b"), EditFault::Unknown),
        (Edit::Create(b"system_b", 0), EditFault::Exists),
        (
            Edit::Resize(b"system_b", 413696),
            EditFault::GroupLimit(413696, 409600),
        ),
    ] {
        let refused = refusal_after(alloc, &limited, &same, &edit)?;
        assert_eq!(rt; refused, Some(fault));
    }
    let (target, _) = tables_after(alloc, &limited, &same)?;
    assert_eq!(rt; text_size(alloc, &target)?, 664);
    // 64 partitions; one more in place of one of them is taken.
    let many = Update { max: 65536, ..TO_B };
    let create = Edit::Create(b"x_b", 0);
    let more = refusal_of_65th(alloc, &many, &Edit::Resize(b"p00_b", 4096), &create)?;
    assert_eq!(rt; more, Some(EditFault::TooMany(65)));
    let more = refusal_of_65th(alloc, &many, &Edit::Delete(b"p62_b"), &create)?;
    assert_eq!(rt; more, None);
    Ok(())
}

#[test]
fn the_table_of_a_slot_alone(rt: HostRuntime) -> Result<(), Fail> {
    let alloc = rt.alloc();
    let source = source(alloc, &TO_B)?;
    let alone = alone(alloc, &source, 0)?;
    assert_eq!(rt; text_size(alloc, &alone)?, 492);
    assert_eq!(rt; blocks(alloc, &alone, b"system_a")?.len(), 100);
    Ok(())
}
