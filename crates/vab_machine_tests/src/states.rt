// What commands make of a small device.

use std::alloc::Global;
use std::test::*;
use vab_bootctl::{Control, Info};
use vab_bytes::{Bytes, Listing, Name36};
use vab_machine::{is_small, step};
use vab_model::{
    Command, GroupLimit, Image, Overlay, Phase, Physical, Plan, PlanEntry, PlanImage, Refusal,
    Reply, State,
};
use vab_space::Chunk;

// The SHA-256 of no bytes.
const OF_NOTHING: [u8; 32] = [
    0xe3, 0xb0, 0xc4, 0x42, 0x98, 0xfc, 0x1c, 0x14, 0x9a, 0xfb, 0xf4, 0xc8, 0x99, 0x6f, 0xb9, 0x24,
    0x27, 0xae, 0x41, 0xe4, 0x64, 0x9b, 0x93, 0x4c, 0xa4, 0x95, 0x99, 0x1b, 0x78, 0x52, 0xb8, 0x55,
];

fn name(text: &[u8]) -> Result<Name36, Fail> {
    Ok(Name36::parse(text).ok().ok_or("a name")?)
}

fn image(alloc: Global, text: &[u8], group: Option<Name36>) -> Result<Image, Fail> {
    let bytes = Bytes::from_vec(Vec::new(alloc));
    Ok(Image {
        name: name(text)?,
        group,
        bytes,
    })
}

// Slot a has `system`, of the group of no slot, and `vendor`, of the group `main`; slot b has no
// images.
fn device(alloc: Global) -> Result<State, Fail> {
    let main = name(b"main")?;
    let mut images = Vec::new(alloc);
    images
        .push(image(alloc, b"system", None)?)
        .ok()
        .ok_or("there is memory")?;
    images
        .push(image(alloc, b"vendor", Some(main))?)
        .ok()
        .ok_or("there is memory")?;
    let groups = Vec::from_slice(
        alloc,
        &[GroupLimit {
            name: main,
            limit: 0,
        }],
    )?;
    Ok(State {
        cap: 256,
        groups: Listing::from_vec(groups),
        control: Control {
            current: 0,
            a: Info {
                priority: 3,
                tries: 1,
                successful: false,
            },
            b: Info {
                priority: 0,
                tries: 0,
                successful: false,
            },
        },
        a: Some(Listing::from_vec(images)),
        b: None,
        physical: Listing::from_vec(Vec::new(alloc)),
        phase: Phase::Idle,
        overlay: None,
    })
}

// What a command makes of a state, and its reply.
fn after(alloc: Global, state: &State, command: &Command) -> Result<(State, Reply), Fail> {
    if !is_small(state) {
        return Err("a state is small".into());
    }
    Ok(step(alloc, state, command, None)?)
}

// Priority, tries and whether the slot is successful.
fn info(info: &Info) -> (u8, u8, bool) {
    (info.priority, info.tries, info.successful)
}

#[test]
fn a_slot_without_images_is_not_set_active(rt: HostRuntime) -> Result<(), Fail> {
    let state = device(rt.alloc())?;
    let (after, reply) = after(rt.alloc(), &state, &Command::SetActive(1))?;
    assert!(rt; reply == Reply::Refused(Refusal::NoImages));
    assert!(rt; info(&after.control.a) == (3, 1, false));
    assert!(rt; info(&after.control.b) == (0, 0, false));
    assert!(rt; after.cap == 256);
    assert!(rt; after.groups.len() == 1);
    assert!(rt; after.control.current == 0);
    Ok(())
}

#[test]
fn a_slot_is_set_active_booted_and_marked(rt: HostRuntime) -> Result<(), Fail> {
    let state = device(rt.alloc())?;
    let (active, reply) = after(rt.alloc(), &state, &Command::SetActive(0))?;
    assert!(rt; reply == Reply::Done);
    assert!(rt; info(&active.control.a) == (15, 6, false));
    let (booted, reply) = after(rt.alloc(), &active, &Command::Boot)?;
    assert!(rt; reply == Reply::Booted(0));
    assert!(rt; info(&booted.control.a) == (15, 5, false));
    let (marked, reply) = after(rt.alloc(), &booted, &Command::Mark)?;
    assert!(rt; reply == Reply::Done);
    assert!(rt; info(&marked.control.a) == (15, 0, true));
    Ok(())
}

fn planned(image: PlanImage) -> Result<PlanEntry, Fail> {
    Ok(PlanEntry {
        name: name(b"system")?,
        group: None,
        blocks: 2,
        store: Some(1),
        image,
    })
}

// The bytes of what is written, and how many exceptions it has.
fn written(entry: &PlanEntry) -> Option<(&[u8], u64)> {
    match &entry.image {
        PlanImage::Written(bytes, exceptions) => Some((bytes.as_slice(), *exceptions)),
        _ => None,
    }
}

#[test]
fn a_plan_is_copied(rt: HostRuntime) -> Result<(), Fail> {
    let mut state = device(rt.alloc())?;
    let bytes = Bytes::from_vec(Vec::from_slice(rt.alloc(), b"abc")?);
    let mut entries = Vec::new(rt.alloc());
    for image in [
        PlanImage::Kept,
        PlanImage::Written(bytes, 7),
        PlanImage::Declared,
    ] {
        entries.push(planned(image)?).ok().ok_or("there is memory")?;
    }
    let entries = Listing::from_vec(entries);
    let apart = true;
    state.phase = Phase::Installing(0, Plan { apart, entries });
    let (copy, _) = after(rt.alloc(), &state, &Command::Mark)?;
    let Phase::Installing(source, plan) = &copy.phase else {
        return Err(Fail::from("the phase"));
    };
    assert!(rt; *source == 0);
    assert!(rt; plan.apart);
    assert!(rt; plan.entries.len() == 3);
    let (content, exceptions) = written(&plan.entries.as_slice()[1]).ok_or("written")?;
    assert!(rt; content == b"abc".as_slice());
    assert!(rt; exceptions == 7);
    Ok(())
}

#[test]
fn questions_are_answered_and_commands_on_an_update_refused(rt: HostRuntime) -> Result<(), Fail> {
    let state = device(rt.alloc())?;
    for (command, want) in [
        (
            Command::Print(b"system_a"),
            Reply::Bytes(name(b"system_a")?),
        ),
        (
            Command::Print(b"system_b"),
            Reply::Refused(Refusal::NoImages),
        ),
        (Command::Print(b"other_a"), Reply::Refused(Refusal::Unknown)),
        (Command::Print(b"system"), Reply::Refused(Refusal::BadName)),
        (Command::Print(b"a-b_a"), Reply::Refused(Refusal::BadName)),
        (Command::Digest(b"vendor_a"), Reply::Digest(OF_NOTHING)),
        (
            Command::Digest(b"vendor_b"),
            Reply::Refused(Refusal::NoImages),
        ),
        (
            Command::Create(b"x_b", 4096),
            Reply::Refused(Refusal::NotInstalling),
        ),
        (
            Command::Resize(b"system_b", 0),
            Reply::Refused(Refusal::NotInstalling),
        ),
        (Command::Delete(b""), Reply::Refused(Refusal::NotInstalling)),
        (
            Command::Snapshot(b"system_b", 0),
            Reply::Refused(Refusal::NotInstalling),
        ),
        (
            Command::Flash(b"system_b", Chunk::One),
            Reply::Refused(Refusal::NotInstalling),
        ),
        (Command::Finish, Reply::Refused(Refusal::NotInstalling)),
        (Command::Cancel, Reply::Refused(Refusal::NothingToCancel)),
        (Command::BeginMerge, Reply::Refused(Refusal::NotStaged)),
        (Command::Merge(1), Reply::Refused(Refusal::NotMerging)),
        (Command::UpdateSuper, Reply::Refused(Refusal::NothingStaged)),
        (
            Command::OverlayWrite(0),
            Reply::Refused(Refusal::NotOverlaid),
        ),
        (
            Command::OverlayDiscard,
            Reply::Refused(Refusal::NotOverlaid),
        ),
    ] {
        let (_, reply) = after(rt.alloc(), &state, &command)?;
        assert!(rt; reply == want, "{command:?}");
    }
    Ok(())
}

fn many(alloc: Global, count: u32, byte: u8) -> Result<Vec<u8>, Fail> {
    let mut bytes = Vec::new(alloc);
    for _i in 0..count {
        bytes.push(byte)?;
    }
    Ok(bytes)
}

// A physical partition of a block, of which slot a holds bytes of this one.
fn physical(alloc: Global, base: &[u8], byte: u8) -> Result<Physical, Fail> {
    Ok(Physical {
        name: name(base)?,
        blocks: 1,
        a: Some(Bytes::from_vec(many(alloc, 4096, byte)?)),
        b: None,
    })
}

// The first byte of what slot b's physical partition holds.
fn held(state: &State, at: usize) -> Option<u8> {
    let partition = state.physical.as_slice().get(at)?;
    let bytes = partition.b.as_ref()?;
    bytes.as_slice().first().copied()
}

#[test]
fn physical_partitions_are_kept_and_flashed(rt: HostRuntime) -> Result<(), Fail> {
    let alloc = rt.alloc();
    let mut state = device(alloc)?;
    let mut partitions = Vec::new(alloc);
    partitions
        .push(physical(alloc, b"boot", 7)?)
        .ok()
        .ok_or("there is memory")?;
    partitions
        .push(physical(alloc, b"vbmeta", 8)?)
        .ok()
        .ok_or("there is memory")?;
    state.physical = Listing::from_vec(partitions);
    for (command, want) in [
        (Command::Begin, Reply::Done),
        (
            Command::Finish,
            Reply::Refused(Refusal::Incomplete(name(b"boot")?)),
        ),
        (Command::Keep(b"boot_b"), Reply::Done),
        (Command::Keep(b"boot_b"), Reply::Refused(Refusal::Written)),
        (
            Command::Keep(b"system_b"),
            Reply::Refused(Refusal::NotPhysical),
        ),
        (
            Command::Resize(b"boot_b", 0),
            Reply::Refused(Refusal::Physical),
        ),
        (
            Command::Create(b"boot_b", 0),
            Reply::Refused(Refusal::Exists),
        ),
    ] {
        let (next, reply) = after(alloc, &state, &command)?;
        assert!(rt; reply == want, "{command:?}");
        state = next;
    }
    if !is_small(&state) {
        return Err("a state is small".into());
    }
    let flash = Command::Flash(b"vbmeta_b", Chunk::One);
    let (state, reply) = step(alloc, &state, &flash, Some(b"\x09".as_slice()))?;
    assert!(rt; reply == Reply::Done);
    let (state, reply) = after(alloc, &state, &Command::Finish)?;
    assert!(rt; reply == Reply::Done);
    assert!(rt; held(&state, 0) == Some(7));
    assert!(rt; held(&state, 1) == Some(9));
    let (state, reply) = after(alloc, &state, &Command::Cancel)?;
    assert!(rt; reply == Reply::Done);
    assert!(rt; held(&state, 0) == None);
    Ok(())
}

// The state with bytes of this one written over block 1.
fn written_over(alloc: Global, state: &State, byte: u8) -> Result<State, Fail> {
    let block = many(alloc, 4096, byte)?;
    if !is_small(state) {
        return Err("a state is small".into());
    }
    match step(alloc, state, &Command::OverlayWrite(1), Some(&block))? {
        (next, Reply::Done) => Ok(next),
        _ => Err("a block is written".into()),
    }
}

#[test]
fn a_block_reads_as_it_was_written_last(rt: HostRuntime) -> Result<(), Fail> {
    let alloc = rt.alloc();
    let mut state = device(alloc)?;
    state.overlay = Some(Overlay {
        name: name(b"system")?,
        store: 4,
        blocks: Listing::from_vec(Vec::new(alloc)),
        bytes: Bytes::from_vec(many(alloc, 8192, 1)?),
    });
    let once = written_over(alloc, &state, 7)?;
    let twice = written_over(alloc, &once, 9)?;
    let overlay = twice.overlay.as_ref().ok_or("an overlay")?;
    let mut want = many(alloc, 4096, 1)?;
    want.extend_from_slice(&many(alloc, 4096, 9)?)?;
    assert!(rt; overlay.bytes.as_slice() == want.as_slice());
    assert!(rt; overlay.blocks.as_slice() == [1].as_slice());
    Ok(())
}
