// Lists of commands that are drawn, each beside the machine.

use crate::beside::{beside, opened};
use crate::made::made_of_two;
use crate::supers::super_image;
use std::alloc::Global;
use std::process::Abort;
use std::test::*;
use vab_disk::MemPort;
use vab_model::{Command, Phase, Reply, State};
use vab_space::Chunk;

// Numbers by multiplying and adding, from a seed.
#[derive(Drop)]
struct Draws(u64);

impl Draws {
    // A number below `below`.
    fn draw(&mut self, below: u64) -> u64 {
        self.0 = self
            .0
            .wrapping_mul(6364136223846793005)
            .wrapping_add(1442695040888963407);
        (self.0 >> 33) % below.max(1)
    }
}

const NAMES: [[&[u8]; 4]; 2] = [
    [b"s_a", b"v_a", b"w_a", b"s-_a"],
    [b"s_b", b"v_b", b"w_b", b"s-_b"],
];

const SIZES: [u64; 8] = [0, 1, 4096, 8192, 16384, 20480, 32768, 1 << 41];

// A name of this slot, now and then of the other.
fn name(draws: &mut Draws, slot: usize) -> &'static [u8] {
    let other = if slot == 0 { 1 } else { 0 };
    let slot = if draws.draw(8) == 0 { other } else { slot };
    let which = draws.draw(9).saturating_sub(5);
    NAMES[slot % 2][(which % 4) as usize]
}

fn size(draws: &mut Draws) -> u64 {
    SIZES[(draws.draw(8) % 8) as usize]
}

fn chunk(draws: &mut Draws) -> Chunk {
    match draws.draw(3) {
        0 => Chunk::One,
        1 => Chunk::Two,
        _ => Chunk::Four,
    }
}

// Any command, on a device where this slot is current.
fn any(draws: &mut Draws, current: usize) -> Command<'static> {
    match draws.draw(13) {
        0 => begin(draws),
        1 => Command::Finish,
        2 => Command::Cancel,
        3 => Command::SetActive((draws.draw(2) % 2) as usize),
        4 => Command::Boot,
        5 => Command::Mark,
        6 => Command::BeginMerge,
        7 => Command::Merge(draws.draw(4)),
        8 => Command::Digest(name(draws, current)),
        9 => Command::Print(name(draws, current)),
        10 => Command::Flash(name(draws, current), chunk(draws)),
        11 => Command::UpdateSuper,
        _ => Command::Create(name(draws, current), size(draws)),
    }
}

// A command of an installation into this slot.
fn installing(draws: &mut Draws, target: usize) -> Command<'static> {
    match draws.draw(12) {
        0 => Command::Create(NAMES[target % 2][2], size(draws)),
        1 | 2 => Command::Resize(name(draws, target), size(draws)),
        3 => Command::Delete(NAMES[target % 2][1]),
        4 => Command::Snapshot(name(draws, target), size(draws)),
        5 | 6 => Command::Snapshot(name(draws, target), 0),
        7 | 8 | 9 => Command::Flash(name(draws, target), chunk(draws)),
        _ => Command::Finish,
    }
}

// A command of a factory install into this slot.
fn in_factory(draws: &mut Draws, target: usize) -> Command<'static> {
    match draws.draw(12) {
        0 | 1 => Command::Create(NAMES[target % 2][0], size(draws)),
        2 => Command::Create(NAMES[target % 2][2], size(draws)),
        3 => Command::Resize(name(draws, target), size(draws)),
        4 => Command::Delete(name(draws, target)),
        5 => Command::Snapshot(name(draws, target), size(draws)),
        6 | 7 | 8 => Command::Flash(name(draws, target), chunk(draws)),
        _ => Command::Finish,
    }
}

// A command of an update that is ready, to be booted from this slot.
fn staged_command(draws: &mut Draws, target: usize) -> Command<'static> {
    match draws.draw(5) {
        0 => Command::SetActive(target),
        1 | 2 => Command::Boot,
        3 => Command::Mark,
        _ => Command::BeginMerge,
    }
}

// A begin, now and then of a factory install.
fn begin(draws: &mut Draws) -> Command<'static> {
    if draws.draw(3) == 0 {
        Command::Factory
    } else {
        Command::Begin
    }
}

// A begin, or now and then a wipe.
fn idle(draws: &mut Draws) -> Command<'static> {
    if draws.draw(6) == 0 {
        Command::UpdateSuper
    } else {
        begin(draws)
    }
}

// A command of an installation whose target stands apart or not.
fn planned(draws: &mut Draws, target: usize, apart: bool) -> Command<'static> {
    if apart {
        in_factory(draws, target)
    } else {
        installing(draws, target)
    }
}

// Mostly a command that goes on with an update, and now and then any.
fn command(draws: &mut Draws, state: &State) -> Command<'static> {
    let current = state.control.current;
    if draws.draw(5) == 0 {
        return any(draws, current);
    }
    match &state.phase {
        Phase::Idle => idle(draws),
        Phase::Installing(0, plan) => planned(draws, 1, plan.apart),
        Phase::Installing(_, plan) => planned(draws, 0, plan.apart),
        Phase::Staged(0, _) => staged_command(draws, 1),
        Phase::Staged(_, _) => staged_command(draws, 0),
        Phase::Merging(_, _) => Command::Merge(draws.draw(4)),
    }
}

// A command of an overlay, or now and then a digest, or a begin over an overlay, which is refused.
fn overlaying(draws: &mut Draws, state: &State) -> Command<'static> {
    let current = state.control.current;
    match (&state.overlay, draws.draw(10)) {
        (_, 0) => Command::Digest(name(draws, current)),
        (None, 1) => Command::OverlayWrite(draws.draw(5)),
        (None, _) => Command::Overlay(name(draws, current), size(draws)),
        (Some(_), 1) => Command::OverlayDiscard,
        (Some(_), 2) => begin(draws),
        (Some(_), _) => Command::OverlayWrite(draws.draw(5)),
    }
}

// What a list is of.
#[derive(Clone, Copy)]
enum Kinds {
    Updates,
    Overlays,
}

fn next(draws: &mut Draws, state: &State, kinds: Kinds) -> Command<'static> {
    match kinds {
        Kinds::Updates => command(draws, state),
        Kinds::Overlays => overlaying(draws, state),
    }
}

// A block of one byte.
fn one_block(alloc: Global, byte: u8) -> Result<Vec<u8>, Fail> {
    let mut bytes = Vec::new(alloc);
    for _i in 0..4096u32 {
        bytes.push(byte)?;
    }
    Ok(bytes)
}

// Staged bytes of up to five blocks, most of them those that the images are made of.
fn staged(alloc: Global, draws: &mut Draws) -> Result<Option<Vec<u8>>, Fail> {
    if draws.draw(8) == 0 {
        return Ok(None);
    }
    let mut bytes = Vec::new(alloc);
    for block in 0..draws.draw(6) {
        let byte = if draws.draw(2) == 0 {
            (block % 256) as u8
        } else {
            77
        };
        for _i in 0..4096u32 {
            bytes.push(byte)?;
        }
    }
    for _i in 0..draws.draw(3) {
        bytes.push(5)?;
    }
    Ok(Some(bytes))
}

// The same, but for a wipe mostly an image of the device's `super`, and mostly a block for a write
// over a partition.
fn staged_for(
    alloc: Global,
    draws: &mut Draws,
    d: &mut MemPort,
    command: &Command,
) -> Result<Option<Vec<u8>>, Fail> {
    if matches!(command, Command::OverlayWrite(_)) && draws.draw(4) > 0 {
        return Ok(Some(one_block(alloc, (draws.draw(4) % 256) as u8)?));
    }
    if !matches!(command, Command::UpdateSuper) || draws.draw(4) == 0 {
        return staged(alloc, draws);
    }
    let is_empty = draws.draw(3) > 0;
    Ok(Some(super_image(alloc, d, is_empty)?))
}

// Which command it is, counted from 0.
fn kind(command: &Command) -> usize {
    match command {
        Command::SetActive(_) => 0,
        Command::Boot => 1,
        Command::Mark => 2,
        Command::Print(_) => 3,
        Command::Digest(_) => 4,
        Command::Begin => 5,
        Command::Create(_, _) => 6,
        Command::Resize(_, _) => 7,
        Command::Delete(_) => 8,
        Command::Snapshot(_, _) => 9,
        Command::Flash(_, _) => 10,
        Command::Finish => 11,
        Command::Cancel => 12,
        Command::BeginMerge => 13,
        Command::Merge(_) => 14,
        Command::Factory => 15,
        Command::UpdateSuper => 16,
        Command::Overlay(_, _) => 17,
        Command::OverlayWrite(_) => 18,
        Command::OverlayDiscard => 19,
        // Of a device without physical partitions it is never done.
        Command::Keep(_) => 20,
    }
}

// Plays a list, and says of each kind of command whether it was done.
fn play(
    rt: &impl Abort,
    alloc: Global,
    d: MemPort,
    seed: u64,
    kinds: Kinds,
    seen: &mut [bool; 20],
) -> Result<(), Fail> {
    let mut d = d;
    let mut draws = Draws(seed);
    let mut state = opened(alloc, &mut d)?;
    for _i in 0..70u32 {
        let command = next(&mut draws, &state, kinds);
        let bytes = staged_for(alloc, &mut draws, &mut d, &command)?;
        let staged = bytes.as_ref().map(|bytes| bytes.as_slice());
        let (after, told) = beside(rt, alloc, &mut d, &state, &command, staged)?;
        let kind = kind(&command);
        if kind < 20 && !matches!(told, Reply::Refused(_)) {
            seen[kind] = true;
        }
        state = after;
        d = d.next_run(Vec::new(alloc));
    }
    Ok(())
}

// Plays a list on each disk, and says how many kinds of command were done.
fn kinds_done(
    rt: &impl Abort,
    alloc: Global,
    kinds: Kinds,
    lists: [(u64, MemPort); 2],
) -> Result<u64, Fail> {
    let mut seen = [false; 20];
    for (seed, d) in lists {
        play(rt, alloc, d, seed, kinds, &mut seen)?;
    }
    let mut count = 0u64;
    for done in seen {
        if done {
            count = count.saturating_add(1);
        }
    }
    Ok(count)
}

#[test]
fn lists_over_little_space_are_the_machines(rt: HostRuntime) -> Result<(), Fail> {
    let alloc = rt.alloc();
    let first = made_of_two(alloc, 16, 28672, 4096)?;
    let second = made_of_two(alloc, 16, 28672, 4096)?;
    let kinds = kinds_done(&rt, alloc, Kinds::Updates, [(0, first), (3, second)])?;
    assert!(rt; kinds > 11, "{kinds} kinds are done");
    Ok(())
}

#[test]
fn lists_over_small_tables_are_the_machines(rt: HostRuntime) -> Result<(), Fail> {
    let alloc = rt.alloc();
    let first = made_of_two(alloc, 24, 0, 1024)?;
    let second = made_of_two(alloc, 24, 0, 1024)?;
    let kinds = kinds_done(&rt, alloc, Kinds::Updates, [(1, first), (4, second)])?;
    assert!(rt; kinds > 11, "{kinds} kinds are done");
    Ok(())
}

#[test]
fn lists_of_every_kind_of_an_update_are_the_machines(rt: HostRuntime) -> Result<(), Fail> {
    let alloc = rt.alloc();
    let first = made_of_two(alloc, 24, 40960, 4096)?;
    let second = made_of_two(alloc, 24, 40960, 4096)?;
    let kinds = kinds_done(&rt, alloc, Kinds::Updates, [(0, first), (10, second)])?;
    assert_eq!(rt; kinds, 17);
    Ok(())
}

#[test]
fn lists_over_an_overlay_are_the_machines(rt: HostRuntime) -> Result<(), Fail> {
    let alloc = rt.alloc();
    let first = made_of_two(alloc, 16, 28672, 4096)?;
    let second = made_of_two(alloc, 12, 0, 1024)?;
    let kinds = kinds_done(&rt, alloc, Kinds::Overlays, [(0, first), (1, second)])?;
    assert_eq!(rt; kinds, 4);
    Ok(())
}
