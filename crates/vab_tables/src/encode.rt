//! Writing a table.

ghost use Rattle.std.specs.Prelude.{◌≡◌, ◌≤◌, ◌<◌, ◌^◌, ◌+◌, ◌*◌, ◌++◌, ℕ, List, length, IfOk};
ghost use Rattle.std.specs.Prelude.{OnOk, Ok};
ghost use Rattle.std.specs.List.{flat_map};
ghost use Rattle.vab_tables.specs.Rules.{KeepsRules};
ghost use Rattle.vab_tables.specs.Text.{IsTableText};
ghost use Rattle.vab_tables.specs.Spelling.{table_size_of, as_minor_2, tables_text};
ghost use Rattle.vab_tables.specs.Spelling.{descriptor_text, descriptors_text, header_back};
ghost use Rattle.vab_tables.specs.Spelling.{table_text};
ghost use Rattle.vab_tables.specs.Reading.{table_of};

use crate::entries::Entry;
use crate::fault::NoMemory;
use crate::header::{sum, sum_around};
use crate::table::Table;
use std::alloc::Global;

/// The magic, major 10, minor 2, and the header's size.
const FRONT: [u8; 12] = [0x30, 0x50, 0x4C, 0x41, 10, 0, 2, 0, 0, 1, 0, 0];

/// Zeros to the end of the header.
const RESERVED: [u8; 124] = [0; 124];

// Writes the entries, one after another.
fn write_all<E: Entry>(out: &mut Vec<u8>, entries: &[E]) -> Result<(), NoMemory>
    ensures { OnOk result (out.new.items ≡ out.old.items ++ flat_map E.spelling entries.now) }
{
    for entry in entries {
        entry.write(out)?;
    }
    Ok(())
}

// The entries of all kinds.
#[tactic(auto, unfolding(crate::specs::Spelling::tables_text))]
fn tables(alloc: Global, table: &Table) -> Result<Vec<u8>, NoMemory>
    ensures { IfOk result (λ v. v.items ≡ tables_text table.now) }
{
    let mut out = Vec::new(alloc);
    write_all(&mut out, table.partitions.as_slice())?;
    write_all(&mut out, table.extents.as_slice())?;
    write_all(&mut out, table.groups.as_slice())?;
    write_all(&mut out, table.devices.as_slice())?;
    Ok(out)
}

// Writes a descriptor.
#[tactic(auto, unfolding(crate::specs::Spelling::descriptor_text))]
fn write_descriptor(out: &mut Vec<u8>, offset: u32, count: u32, size: u32) -> Result<(), NoMemory>
    ensures { OnOk result (out.new.items ≡ out.old.items ++ descriptor_text offset count size) }
{
    out.extend_from_slice(&offset.to_le_bytes())?;
    out.extend_from_slice(&count.to_le_bytes())?;
    out.extend_from_slice(&size.to_le_bytes())?;
    Ok(())
}

// Writes the four descriptors.
#[tactic(auto, unfolding(crate::specs::Spelling::descriptors_text))]
fn write_descriptors(out: &mut Vec<u8>, table: &Table) -> Result<(), NoMemory>
    requires { table_size_of table.now < 2 ^ 32 }
    ensures { OnOk result (out.new.items ≡ out.old.items ++ descriptors_text table.now) }
{
    let partitions = table.partitions.len() as u32;
    let extents = table.extents.len() as u32;
    let groups = table.groups.len() as u32;
    let devices = table.devices.len() as u32;
    write_descriptor(out, 0, partitions, 52)?;
    write_descriptor(out, 52 * partitions, extents, 24)?;
    write_descriptor(out, 52 * partitions + 24 * extents, groups, 48)?;
    write_descriptor(
        out,
        52 * partitions + 24 * extents + 48 * groups,
        devices,
        64,
    )?;
    Ok(())
}

// The header behind its sum.
#[tactic(auto, unfolding(crate::specs::Spelling::header_back))]
fn back(alloc: Global, table: &Table, tables: &[u8]) -> Result<Vec<u8>, NoMemory>
    requires small { table_size_of table.now < 2 ^ 32 }
    requires tables { tables.now ≡ tables_text table.now }
    requires len { length tables.now < 2 ^ 32 }
    ensures { IfOk result (λ v. v.items ≡ header_back table.now) }
{
    let mut out = Vec::new(alloc);
    out.extend_from_slice(&(tables.len() as u32).to_le_bytes())?;
    out.extend_from_slice(&sum(tables))?;
    write_descriptors(&mut out, table)?;
    out.extend_from_slice(&table.flags.to_le_bytes())?;
    out.extend_from_slice(&RESERVED)?;
    Ok(out)
}

// Four pieces, one after another.
fn joined(
    alloc: Global,
    front: &[u8],
    sum: &[u8],
    back: &[u8],
    tables: &[u8],
) -> Result<Vec<u8>, NoMemory>
    ensures { IfOk result (λ v. v.items ≡ front.now ++ sum.now ++ back.now ++ tables.now) }
{
    let mut out = Vec::new(alloc);
    out.extend_from_slice(front)?;
    out.extend_from_slice(sum)?;
    out.extend_from_slice(back)?;
    out.extend_from_slice(tables)?;
    Ok(out)
}

// The header, and the entries behind it.
fn text(alloc: Global, table: &Table) -> Result<Vec<u8>, NoMemory>
    requires keeps { KeepsRules table.now }
    requires small { table_size_of table.now < 2 ^ 32 }
    ensures { IfOk result (λ v. v.items ≡ table_text table.now) }
{
    let tables = tables(alloc, table)?;
    let back = back(alloc, table, &tables)?;
    let sum = sum_around(&FRONT, &back);
    let text = joined(alloc, &FRONT, &sum, &back, &tables)?;
    Ok(text)
}

/// The text of the table: a header of 256 bytes with minor version 2, the partitions, extents,
/// groups and the block device without gaps, each in the order of its list; reserved bytes are
/// zeros. The table keeps the rules that `decode_table` judges, and its text is shorter than 2^32
/// bytes.
///
/// # Errors
///
/// `NoMemory` where memory is refused.
pub fn encode_table(alloc: Global, table: &Table) -> Result<Vec<u8>, NoMemory>
    requires keeps { KeepsRules table.now }
    requires small { table_size_of table.now < 2 ^ 32 }
    ensures text { IfOk result (λ v. v.items ≡ table_text table.now) }
    ensures size { IfOk result (λ v. length v.items ≡ table_size_of table.now) }
    ensures stands { IfOk result (λ v. (max : ℕ) → table_size_of table.now ≤ max
        → IsTableText max v.items (as_minor_2 table.now)) }
    ensures read { IfOk result (λ v. (max : ℕ) → table_size_of table.now ≤ max
        → table_of max v.items ≡ Ok (as_minor_2 table.now)) }
    // What stands behind the text changes nothing.
    ensures padded { IfOk result (λ v. (max : ℕ) (rest : List ℕ) → table_size_of table.now ≤ max
        → table_of max (v.items ++ rest) ≡ Ok (as_minor_2 table.now)) }
{
    text(alloc, table)
}
