//! Reads a table's text from standard input, and so many times decodes it, decodes and judges it,
//! writes it again, lists the free blocks, takes the lowest half of them, judges or edits the
//! target of an update from slot a, or takes SHA-256 of the text, for `bench/tables` and
//! `bench/blocks`.
#![tactic(auto)]

use sha2::{Digest, Sha256};
use std::alloc::Global;
use std::env;
use std::io::{Read, Stdin};
use std::process::ExitCode;
use vab_blocks::Runs;
use vab_builder::{Edit, apply, import};
use vab_bytes::Name36;
use vab_partitions::{MAX_PARTITIONS, bad_partition, bad_target};
use vab_tables::{Table, decode_table, encode_table, table_size};

const MAX: u32 = 1 << 20;

const FEW: usize = 1 << 28;

fn read_text(alloc: Global, input: &mut Stdin) -> Option<Vec<u8>> {
    let mut text = Vec::new(alloc);
    for _ in 0..u64::MAX {
        let mut piece = [0u8; 4096];
        let count = input.read(&mut piece).ok()?;
        if count == 0 {
            break;
        }
        text.extend_from_slice(&piece[..count]).ok()?;
    }
    Some(text)
}

fn decode(alloc: Global, text: &[u8], times: u32) -> bool {
    for _ in 0..times {
        if decode_table(alloc, text, MAX).is_err() {
            return false;
        }
    }
    true
}

// Whether a slot's own partitions were judged: any answer will do.
fn judge(alloc: Global, text: &[u8], times: u32) -> bool {
    for _ in 0..times {
        match decode_table(alloc, text, MAX) {
            Ok(table) => {
                if bad_partition(alloc, &table, 0, MAX_PARTITIONS).is_err() {
                    return false;
                }
            }
            Err(_) => return false,
        }
    }
    true
}

// Makes the same edit of the target as an update from slot a begins, again and again.
fn edits(alloc: Global, text: &[u8], edit: &Edit, times: u32) -> bool {
    let Ok(table) = decode_table(alloc, text, MAX) else {
        return false;
    };
    if !is_small(&table) || table_size(&table) >= 1 << 24 {
        return false;
    }
    match bad_partition(alloc, &table, 0, MAX_PARTITIONS) {
        Ok(None) => {}
        _ => return false,
    }
    let Ok(target) = import(alloc, &table, 0, MAX, false) else {
        return false;
    };
    for _ in 0..times {
        if apply(alloc, &table, &target, 1, edit, MAX, false).is_err() {
            return false;
        }
    }
    true
}

// Judges the target of an update from slot a as it begins, again and again.
fn targets(alloc: Global, text: &[u8], times: u32) -> bool {
    let Ok(table) = decode_table(alloc, text, MAX) else {
        return false;
    };
    if !is_small(&table) || table_size(&table) >= 1 << 24 {
        return false;
    }
    match bad_partition(alloc, &table, 0, MAX_PARTITIONS) {
        Ok(None) => {}
        _ => return false,
    }
    let Ok(target) = import(alloc, &table, 0, MAX, false) else {
        return false;
    };
    for _ in 0..times {
        match bad_target(alloc, &table, &target, 1, MAX_PARTITIONS, false) {
            Ok(None) => {}
            _ => return false,
        }
    }
    true
}

// Whether the lists are short enough for a size below 2^32.
fn is_small(table: &Table) -> bool {
    table.partitions.len() < FEW
        && table.extents.len() < FEW
        && table.groups.len() < FEW
        && table.devices.len() < FEW
        && table_size(table) < 1 << 32
}

fn encode(alloc: Global, text: &[u8], times: u32) -> bool {
    let table = match decode_table(alloc, text, MAX) {
        Ok(table) => table,
        Err(_) => return false,
    };
    for _ in 0..times {
        if !is_small(&table) || encode_table(alloc, &table).is_err() {
            return false;
        }
    }
    true
}

// The names of all partitions.
fn names(alloc: Global, table: &Table) -> Option<Vec<Name36>> {
    let mut names = Vec::new(alloc);
    for partition in table.partitions.as_slice() {
        names.push(partition.name).ok()?;
    }
    Some(names)
}

// The blocks that partitions have, and how many there are on the device.
fn taken(alloc: Global, text: &[u8]) -> Option<(Runs, u64)> {
    let table = decode_table(alloc, text, MAX).ok()?;
    let names = names(alloc, &table)?;
    let cap = table.devices.as_slice().first()?.cap();
    Some((Runs::of_table(alloc, &table, &names).ok()?, cap))
}

fn free(alloc: Global, text: &[u8], times: u32) -> bool {
    let Some((taken, cap)) = taken(alloc, text) else {
        return false;
    };
    for _ in 0..times {
        if Runs::free(alloc, cap, &taken).is_err() {
            return false;
        }
    }
    true
}

fn lowest(alloc: Global, text: &[u8], times: u32) -> bool {
    let Some((taken, cap)) = taken(alloc, text) else {
        return false;
    };
    let Ok(free) = Runs::free(alloc, cap, &taken) else {
        return false;
    };
    for _ in 0..times {
        if free.take_lowest(alloc, free.count() / 2).is_err() {
            return false;
        }
    }
    true
}

fn hash(text: &[u8], times: u32) -> bool {
    for _ in 0..times {
        let _sum = Sha256::digest(text);
    }
    true
}

fn main(rt: HostRuntime) -> ExitCode {
    let alloc = rt.alloc();
    let mut args = match env::args(&rt) {
        Ok(args) => args,
        Err(_) => return ExitCode::from(8),
    };
    let _program = args.next();
    let (verb, times) = match (args.next(), args.next()) {
        (Some(verb), Some(times)) => (verb, times),
        _ => return ExitCode::from(2),
    };
    let times = match times.as_str().parse::<u32>() {
        Ok(times) => times,
        Err(_) => return ExitCode::from(2),
    };
    let bytes = match args.next() {
        Some(bytes) => bytes.as_str().parse::<u64>().unwrap_or(0),
        None => 0,
    };
    let text = match read_text(alloc, &mut rt.stdin()) {
        Some(text) => text,
        None => return ExitCode::from(8),
    };
    let done = match verb.as_str() {
        "decode" => decode(alloc, &text, times),
        "judge" => judge(alloc, &text, times),
        "create" => edits(alloc, &text, &Edit::Create(b"new_b", bytes), times),
        "resize" => edits(alloc, &text, &Edit::Resize(b"system_b", bytes), times),
        "store" => edits(alloc, &text, &Edit::AddStore(b"system_b", bytes), times),
        "delete" => edits(alloc, &text, &Edit::Delete(b"system_b"), times),
        "target" => targets(alloc, &text, times),
        "encode" => encode(alloc, &text, times),
        "free" => free(alloc, &text, times),
        "lowest" => lowest(alloc, &text, times),
        "hash" => hash(&text, times),
        _ => false,
    };
    ExitCode::from(if done { 0 } else { 3 })
}
