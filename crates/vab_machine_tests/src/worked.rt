// Commands with the replies that are known of them, each beside the machine.

use crate::beside::{beside, opened};
use crate::made::made;
use std::alloc::Global;
use std::process::Abort;
use std::test::*;
use vab_disk::MemPort;
use vab_model::{Command, Refusal, Reply};
use vab_space::Chunk;

// What is staged.
#[derive(Clone, Copy)]
enum Staged {
    Nothing,
    Text(&'static [u8]),
    Zeros(u32),
}

// What is replied.
#[derive(Clone, Copy)]
enum Want {
    Told(Reply),
    Refused(Refusal),
    Incomplete(&'static [u8]),
    Bytes(&'static [u8]),
}

type Case = (Command<'static>, Staged, Want);

const NOTHING: Staged = Staged::Nothing;

const DONE: Want = Want::Told(Reply::Done);

// Of a device of one image of 100 blocks, of 256.
const SIZES: [Case; 19] = [
    (Command::Begin, NOTHING, DONE),
    (Command::Begin, NOTHING, Want::Refused(Refusal::NotIdle)),
    (Command::Resize(b"system_b", 163840), NOTHING, DONE),
    (Command::Resize(b"system_b", 409600), NOTHING, DONE),
    (Command::Finish, NOTHING, Want::Incomplete(b"system")),
    (Command::Resize(b"system_b", 614400), NOTHING, DONE),
    (
        Command::Snapshot(b"system_b", 0),
        NOTHING,
        Want::Refused(Refusal::NoRoom(302, 256)),
    ),
    (
        Command::Snapshot(b"system_b", 4096),
        NOTHING,
        Want::Refused(Refusal::BadSize),
    ),
    (Command::Snapshot(b"system_b", 434176), NOTHING, DONE),
    (
        Command::Resize(b"system_b", 0),
        NOTHING,
        Want::Refused(Refusal::HasStore),
    ),
    (
        Command::Create(b"x_b", 4096),
        NOTHING,
        Want::Refused(Refusal::NoRoom(257, 256)),
    ),
    (
        Command::Create(b"system_b", 0),
        NOTHING,
        Want::Refused(Refusal::Exists),
    ),
    (
        Command::Create(b"x_b", 1099511627777),
        NOTHING,
        Want::Refused(Refusal::BadSize),
    ),
    (
        Command::Delete(b"x_b"),
        NOTHING,
        Want::Refused(Refusal::Unknown),
    ),
    (
        Command::Delete(b"system_a"),
        NOTHING,
        Want::Refused(Refusal::BadName),
    ),
    (Command::Create(b"x_b", 0), NOTHING, DONE),
    (Command::Delete(b"x_b"), NOTHING, DONE),
    (Command::Cancel, NOTHING, DONE),
    (
        Command::Cancel,
        NOTHING,
        Want::Refused(Refusal::NothingToCancel),
    ),
];

// Of the same with as many bytes as its group may have.
const LIMITS: [Case; 6] = [
    (Command::Begin, NOTHING, DONE),
    (Command::Resize(b"system_b", 409600), NOTHING, DONE),
    (
        Command::Resize(b"system_b", 413696),
        NOTHING,
        Want::Refused(Refusal::GroupLimit(413696, 409600)),
    ),
    (
        Command::Create(b"x_b", 1),
        NOTHING,
        Want::Refused(Refusal::GroupLimit(413696, 409600)),
    ),
    (Command::Resize(b"system_b", 405504), NOTHING, DONE),
    (Command::Create(b"x_b", 1), NOTHING, DONE),
];

// Of the same with tables of at most 1024 bytes.
const TABLES: [Case; 8] = [
    (Command::Begin, NOTHING, DONE),
    (Command::Create(b"p1_b", 4096), NOTHING, DONE),
    (Command::Create(b"p2_b", 4096), NOTHING, DONE),
    (Command::Create(b"p3_b", 4096), NOTHING, DONE),
    (Command::Create(b"p4_b", 4096), NOTHING, DONE),
    (
        Command::Create(b"p5_b", 4096),
        NOTHING,
        Want::Refused(Refusal::TableFull(1044, 1024)),
    ),
    (Command::Delete(b"p4_b"), NOTHING, DONE),
    (Command::Create(b"p5_b", 4096), NOTHING, DONE),
];

// Of a device of one image of three blocks, which hold the bytes 0, 1 and 2.
const LIFE: [Case; 30] = [
    (
        Command::Finish,
        NOTHING,
        Want::Refused(Refusal::NotInstalling),
    ),
    (
        Command::BeginMerge,
        NOTHING,
        Want::Refused(Refusal::NotStaged),
    ),
    (
        Command::Merge(1),
        NOTHING,
        Want::Refused(Refusal::NotMerging),
    ),
    (
        Command::UpdateSuper,
        NOTHING,
        Want::Refused(Refusal::NothingStaged),
    ),
    (
        Command::UpdateSuper,
        Staged::Text(b"\x3a\xff\x26\xed"),
        Want::Refused(Refusal::Sparse),
    ),
    (
        Command::UpdateSuper,
        Staged::Zeros(4095),
        Want::Refused(Refusal::BadSuperImage),
    ),
    (Command::Begin, NOTHING, DONE),
    (
        Command::UpdateSuper,
        NOTHING,
        Want::Refused(Refusal::NotIdle),
    ),
    (Command::Resize(b"x_b", 16384), NOTHING, DONE),
    (
        Command::Flash(b"x_b", Chunk::One),
        NOTHING,
        Want::Refused(Refusal::NoStore),
    ),
    (Command::Snapshot(b"x_b", 20480), NOTHING, DONE),
    (
        Command::Flash(b"x_b", Chunk::One),
        NOTHING,
        Want::Refused(Refusal::NothingStaged),
    ),
    (
        Command::Flash(b"x_b", Chunk::One),
        Staged::Text(b"\x3a\xff\x26\xed"),
        Want::Refused(Refusal::Sparse),
    ),
    (
        Command::Flash(b"x_b", Chunk::One),
        Staged::Zeros(16385),
        Want::Refused(Refusal::TooLarge(16385, 16384)),
    ),
    (
        Command::Flash(b"x_b", Chunk::One),
        Staged::Text(b"abc"),
        Want::Refused(Refusal::StoreFull(6, 5)),
    ),
    (
        Command::Flash(b"x_b", Chunk::One),
        Staged::Zeros(4096),
        DONE,
    ),
    (
        Command::Flash(b"x_b", Chunk::One),
        Staged::Zeros(1),
        Want::Refused(Refusal::Written),
    ),
    (Command::Finish, NOTHING, DONE),
    (Command::SetActive(1), NOTHING, DONE),
    (Command::Boot, NOTHING, Want::Told(Reply::Booted(1))),
    (
        Command::Cancel,
        NOTHING,
        Want::Refused(Refusal::RunningTarget),
    ),
    (
        Command::BeginMerge,
        NOTHING,
        Want::Refused(Refusal::NotSuccessful),
    ),
    (Command::Mark, NOTHING, DONE),
    (Command::BeginMerge, NOTHING, DONE),
    (Command::Cancel, NOTHING, Want::Refused(Refusal::Merging)),
    (
        Command::SetActive(0),
        NOTHING,
        Want::Refused(Refusal::NoImages),
    ),
    (Command::Merge(2), NOTHING, Want::Told(Reply::Left(1))),
    (Command::Merge(1), NOTHING, Want::Told(Reply::Left(0))),
    (Command::Merge(7), NOTHING, Want::Told(Reply::Merged)),
    (Command::Begin, NOTHING, DONE),
];

// Of the same device, in a factory install.
const FACTORY: [Case; 30] = [
    (Command::Factory, NOTHING, DONE),
    (Command::Factory, NOTHING, Want::Refused(Refusal::NotIdle)),
    (Command::Begin, NOTHING, Want::Refused(Refusal::NotIdle)),
    (Command::Create(b"x_b", 16384), NOTHING, DONE),
    (
        Command::Create(b"y_b", 57344),
        NOTHING,
        Want::Refused(Refusal::NoRoom(21, 20)),
    ),
    (Command::Create(b"y_b", 4096), NOTHING, DONE),
    (Command::Resize(b"y_b", 53248), NOTHING, DONE),
    (
        Command::Snapshot(b"x_b", 0),
        NOTHING,
        Want::Refused(Refusal::InPlace),
    ),
    (
        Command::Snapshot(b"", 1),
        NOTHING,
        Want::Refused(Refusal::InPlace),
    ),
    (Command::Finish, NOTHING, Want::Incomplete(b"x")),
    (
        Command::Keep(b"x_b"),
        NOTHING,
        Want::Refused(Refusal::NotPhysical),
    ),
    (
        Command::Keep(b"boot_b"),
        NOTHING,
        Want::Refused(Refusal::Unknown),
    ),
    (
        Command::Flash(b"x_b", Chunk::Two),
        NOTHING,
        Want::Refused(Refusal::NothingStaged),
    ),
    (
        Command::Flash(b"x_b", Chunk::One),
        Staged::Text(b"\x3a\xff\x26\xed"),
        Want::Refused(Refusal::Sparse),
    ),
    (
        Command::Flash(b"x_b", Chunk::One),
        Staged::Zeros(16385),
        Want::Refused(Refusal::TooLarge(16385, 16384)),
    ),
    (
        Command::Flash(b"x_b", Chunk::One),
        Staged::Text(b"abc"),
        DONE,
    ),
    (
        Command::Flash(b"x_b", Chunk::One),
        NOTHING,
        Want::Refused(Refusal::Written),
    ),
    (
        Command::Resize(b"x_b", 16384),
        NOTHING,
        Want::Refused(Refusal::Written),
    ),
    (
        Command::Delete(b"x_b"),
        NOTHING,
        Want::Refused(Refusal::Written),
    ),
    (
        Command::Resize(b"x_b", 1099511627777),
        NOTHING,
        Want::Refused(Refusal::BadSize),
    ),
    (Command::Finish, NOTHING, Want::Incomplete(b"y")),
    (Command::Delete(b"y_b"), NOTHING, DONE),
    (Command::Finish, NOTHING, DONE),
    (Command::SetActive(1), NOTHING, DONE),
    (Command::Boot, NOTHING, Want::Told(Reply::Booted(1))),
    (Command::Mark, NOTHING, DONE),
    (Command::BeginMerge, NOTHING, DONE),
    (
        Command::Print(b"x_a"),
        NOTHING,
        Want::Refused(Refusal::NoImages),
    ),
    (Command::Merge(1), NOTHING, Want::Told(Reply::Merged)),
    (Command::Begin, NOTHING, DONE),
];

const NOT_IDLE: Want = Want::Refused(Refusal::NotIdle);

const BLOCK: Staged = Staged::Zeros(4096);

// Of a device of one image of 100 blocks, of 256, which is written over.
const OVERLAY: [Case; 30] = [
    (
        Command::OverlayWrite(5),
        BLOCK,
        Want::Refused(Refusal::NotOverlaid),
    ),
    (
        Command::OverlayDiscard,
        NOTHING,
        Want::Refused(Refusal::NotOverlaid),
    ),
    (
        Command::Overlay(b"system_b", 0),
        NOTHING,
        Want::Refused(Refusal::BadName),
    ),
    (
        Command::Overlay(b"x_a", 4096),
        NOTHING,
        Want::Refused(Refusal::BadSize),
    ),
    (
        Command::Overlay(b"x_a", 1099511627777),
        NOTHING,
        Want::Refused(Refusal::BadSize),
    ),
    (
        Command::Overlay(b"x_a", 0),
        NOTHING,
        Want::Refused(Refusal::Unknown),
    ),
    (
        Command::Overlay(b"system_a", 638977),
        NOTHING,
        Want::Refused(Refusal::NoRoom(257, 256)),
    ),
    (Command::Overlay(b"system_a", 16384), NOTHING, DONE),
    (Command::Overlay(b"system_a", 0), NOTHING, NOT_IDLE),
    (Command::Begin, NOTHING, NOT_IDLE),
    (Command::Factory, NOTHING, NOT_IDLE),
    (Command::UpdateSuper, NOTHING, NOT_IDLE),
    (
        Command::OverlayWrite(100),
        NOTHING,
        Want::Refused(Refusal::NothingStaged),
    ),
    (
        Command::OverlayWrite(100),
        Staged::Zeros(4095),
        Want::Refused(Refusal::BadLength(4095)),
    ),
    (
        Command::OverlayWrite(100),
        Staged::Zeros(4097),
        Want::Refused(Refusal::BadLength(4097)),
    ),
    (
        Command::OverlayWrite(100),
        BLOCK,
        Want::Refused(Refusal::BadBlock(100, 100)),
    ),
    (Command::OverlayWrite(5), BLOCK, DONE),
    (Command::OverlayWrite(5), BLOCK, DONE),
    (Command::OverlayWrite(9), BLOCK, DONE),
    (
        Command::OverlayWrite(5),
        BLOCK,
        Want::Refused(Refusal::StoreFull(5, 4)),
    ),
    (
        Command::Print(b"system_a"),
        NOTHING,
        Want::Bytes(b"system_a"),
    ),
    (Command::OverlayDiscard, NOTHING, DONE),
    (
        Command::OverlayDiscard,
        NOTHING,
        Want::Refused(Refusal::NotOverlaid),
    ),
    (Command::Overlay(b"system_a", 0), NOTHING, DONE),
    (Command::OverlayWrite(99), BLOCK, DONE),
    (Command::Boot, NOTHING, Want::Told(Reply::Booted(0))),
    (Command::OverlayWrite(0), BLOCK, DONE),
    (Command::OverlayDiscard, NOTHING, DONE),
    (Command::Begin, NOTHING, DONE),
    (Command::Overlay(b"system_a", 0), NOTHING, NOT_IDLE),
];

fn bytes_of(alloc: Global, staged: &Staged) -> Result<Option<Vec<u8>>, Fail> {
    let mut bytes = Vec::new(alloc);
    match staged {
        Staged::Nothing => return Ok(None),
        Staged::Text(text) => bytes.extend_from_slice(text)?,
        Staged::Zeros(count) => {
            for _i in 0..*count {
                bytes.push(0)?;
            }
        }
    }
    Ok(Some(bytes))
}

fn is_told(told: &Reply, want: &Want) -> bool {
    match want {
        Want::Told(reply) => told == reply,
        Want::Refused(refusal) => match told {
            Reply::Refused(other) => other == refusal,
            _ => false,
        },
        Want::Incomplete(name) => match told {
            Reply::Refused(Refusal::Incomplete(other)) => other.text() == *name,
            _ => false,
        },
        Want::Bytes(name) => match told {
            Reply::Bytes(other) => other.text() == *name,
            _ => false,
        },
    }
}

fn play(rt: &impl Abort, alloc: Global, d: MemPort, cases: &[Case]) -> Result<(), Fail> {
    let mut d = d;
    let mut state = opened(alloc, &mut d)?;
    for (command, staged, want) in cases {
        let bytes = bytes_of(alloc, staged)?;
        let staged = bytes.as_ref().map(|bytes| bytes.as_slice());
        let (next, told) = beside(rt, alloc, &mut d, &state, command, staged)?;
        assert!(rt; is_told(&told, want), "{command:?}: {told:?}");
        state = next;
        d = d.next_run(Vec::new(alloc));
    }
    Ok(())
}

#[test]
fn sizes_are_counted(rt: HostRuntime) -> Result<(), Fail> {
    let alloc = rt.alloc();
    play(
        &rt,
        alloc,
        made(alloc, 256, 0, 65536, b"system", 100)?,
        &SIZES,
    )
}

#[test]
fn a_group_has_its_limit(rt: HostRuntime) -> Result<(), Fail> {
    let alloc = rt.alloc();
    let d = made(alloc, 256, 409600, 65536, b"system", 100)?;
    play(&rt, alloc, d, &LIMITS)
}

#[test]
fn a_table_has_its_size(rt: HostRuntime) -> Result<(), Fail> {
    let alloc = rt.alloc();
    let d = made(alloc, 256, 0, 1024, b"system", 100)?;
    play(&rt, alloc, d, &TABLES)
}

#[test]
fn an_update_is_booted_and_merged(rt: HostRuntime) -> Result<(), Fail> {
    let alloc = rt.alloc();
    play(&rt, alloc, made(alloc, 20, 0, 4096, b"x", 3)?, &LIFE)
}

#[test]
fn a_factory_install_is_booted_and_merged(rt: HostRuntime) -> Result<(), Fail> {
    let alloc = rt.alloc();
    play(&rt, alloc, made(alloc, 20, 0, 4096, b"x", 3)?, &FACTORY)
}

#[test]
fn a_partition_is_written_over(rt: HostRuntime) -> Result<(), Fail> {
    let alloc = rt.alloc();
    let d = made(alloc, 256, 0, 65536, b"system", 100)?;
    play(&rt, alloc, d, &OVERLAY)
}
