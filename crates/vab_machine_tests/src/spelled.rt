// A state as bytes, so that two states are compared.

use std::alloc::Global;
use std::test::*;
use vab_bootctl::Info;
use vab_bytes::{Listing, Name36};
use vab_model::{Image, Overlay, Phase, PlanEntry, PlanImage, State};

fn number(out: &mut Vec<u8>, n: u64) -> Result<(), Fail> {
    out.extend_from_slice(&n.to_le_bytes())?;
    Ok(())
}

fn bytes(out: &mut Vec<u8>, bytes: &[u8]) -> Result<(), Fail> {
    number(out, bytes.len() as u64)?;
    out.extend_from_slice(bytes)?;
    Ok(())
}

fn info(out: &mut Vec<u8>, info: &Info) -> Result<(), Fail> {
    number(out, u64::from(info.priority))?;
    number(out, u64::from(info.tries))?;
    number(out, u64::from(info.successful))
}

fn group(out: &mut Vec<u8>, group: &Option<Name36>) -> Result<(), Fail> {
    match group {
        None => bytes(out, b""),
        Some(name) => bytes(out, name.text()),
    }
}

fn images(out: &mut Vec<u8>, images: &Option<Listing<Image>>) -> Result<(), Fail> {
    let Some(images) = images else {
        return number(out, 99);
    };
    number(out, images.len() as u64)?;
    for image in images.as_slice() {
        bytes(out, image.name.text())?;
        group(out, &image.group)?;
        bytes(out, image.bytes.as_slice())?;
    }
    Ok(())
}

fn entry(out: &mut Vec<u8>, entry: &PlanEntry) -> Result<(), Fail> {
    bytes(out, entry.name.text())?;
    group(out, &entry.group)?;
    number(out, entry.blocks)?;
    number(out, u64::from(entry.store.is_some()))?;
    number(out, entry.store.unwrap_or(0))?;
    match &entry.image {
        PlanImage::Kept => number(out, 0),
        PlanImage::Declared => number(out, 1),
        PlanImage::Written(image, exceptions) => {
            number(out, 2)?;
            bytes(out, image.as_slice())?;
            number(out, *exceptions)
        }
    }
}

fn phase(out: &mut Vec<u8>, phase: &Phase) -> Result<(), Fail> {
    let (kind, slot, left) = match phase {
        Phase::Idle => (0, 0, 0),
        Phase::Installing(source, _) => (1, *source, 0),
        Phase::Staged(source, left) => (2, *source, *left),
        Phase::Merging(target, left) => (3, *target, *left),
    };
    number(out, kind)?;
    number(out, slot as u64)?;
    number(out, left)?;
    if let Phase::Installing(_, plan) = phase {
        number(out, u64::from(plan.apart))?;
        for planned in plan.entries.as_slice() {
            entry(out, planned)?;
        }
    }
    Ok(())
}

fn overlay(out: &mut Vec<u8>, overlay: &Option<Overlay>) -> Result<(), Fail> {
    let Some(overlay) = overlay else {
        return number(out, 99);
    };
    bytes(out, overlay.name.text())?;
    number(out, overlay.store)?;
    number(out, overlay.blocks.len() as u64)?;
    for block in overlay.blocks.as_slice() {
        number(out, *block)?;
    }
    bytes(out, overlay.bytes.as_slice())
}

pub(crate) fn spelled(alloc: Global, state: &State) -> Result<Vec<u8>, Fail> {
    let mut out = Vec::new(alloc);
    number(&mut out, state.cap)?;
    for limit in state.groups.as_slice() {
        bytes(&mut out, limit.name.text())?;
        number(&mut out, limit.limit)?;
    }
    number(&mut out, state.control.current as u64)?;
    info(&mut out, &state.control.a)?;
    info(&mut out, &state.control.b)?;
    images(&mut out, &state.a)?;
    images(&mut out, &state.b)?;
    phase(&mut out, &state.phase)?;
    overlay(&mut out, &state.overlay)?;
    Ok(out)
}
