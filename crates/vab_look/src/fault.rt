//! What is wrong with a disk, in words.

ghost use Rattle.std.specs.Prelude.{◌≡◌, ◌≤◌, ◌+◌, ◌++◌, length, IfOk};
ghost use Rattle.vab_look.specs.Faults as words;

use crate::line::Line;
use std::alloc::Global;
use vab_bootctl::ControlFault;
use vab_bytes::Name36;
use vab_device::StartFault;
use vab_fbproto::{put, put_decimal, slot_letter};
use vab_geometry::GeometryFault;
use vab_model::NoMemory;
use vab_tables::{EntryKind, TableFault};

fn control_word(fault: ControlFault) -> &'static [u8]
    ensures text { result.now ≡ words.control_word fault }
    ensures short { length result.now ≤ 16 }
{
    match fault {
        ControlFault::BadMagic => b"bad magic",
        ControlFault::BadVersion => b"bad version",
        ControlFault::BadSum => b"bad sum",
        ControlFault::BadSlots => b"bad slots",
    }
}

/// What is wrong with a copy of the geometry.
pub(crate) fn geometry_word(fault: GeometryFault) -> &'static [u8]
    ensures text { result.now ≡ words.geometry_word fault }
    ensures short { length result.now ≤ 16 }
{
    match fault {
        GeometryFault::BadMagic => b"bad magic",
        GeometryFault::BadSize => b"bad size",
        GeometryFault::BadSum => b"bad sum",
        GeometryFault::BadField => b"bad field",
    }
}

fn kind_word(kind: EntryKind) -> &'static [u8]
    ensures text { result.now ≡ words.kind_word kind }
    ensures short { length result.now ≤ 16 }
{
    match kind {
        EntryKind::Device => b"bad device ",
        EntryKind::Group => b"bad group ",
        EntryKind::Extent => b"bad extent ",
        EntryKind::Partition => b"bad partition ",
    }
}

/// Puts what is wrong with a copy of a table: at most 40 bytes.
#[tactic(auto, unfolding(crate::specs::Faults::table_words))]
pub(crate) fn put_table_fault(fault: TableFault, out: &mut Line)
    requires room { length out.old.items + 40 ≤ 256 }
    ensures text { out.new.items ≡ out.old.items ++ words.table_words fault }
    ensures short { length out.new.items ≤ length out.old.items + 40 }
{
    match fault {
        TableFault::NoHeader => put(b"no header", out),
        TableFault::BadVersion => put(b"bad version", out),
        TableFault::BadHeaderSum => put(b"bad header sum", out),
        TableFault::BadSize => put(b"bad size", out),
        TableFault::BadTablesSum => put(b"bad tables sum", out),
        TableFault::BadBounds => put(b"bad bounds", out),
        TableFault::BadEntry(kind, index) => {
            put(kind_word(kind), out);
            put_decimal(index as u64, out)
        }
        TableFault::NoMemory => put(b"out of memory", out),
    }
}

// What a sector of the mark or of a status isn't.
fn mark_tail(sector: u64) -> &'static [u8]
    ensures text { result.now ≡ words.mark_tail sector }
    ensures short { length result.now ≤ 20 }
{
    if sector == 2048 {
        b" is no update mark"
    } else {
        b" is no status"
    }
}

// Puts what is wrong with the sector of the mark or of a status.
fn put_mark_fault(sector: u64, out: &mut Line)
    requires room { length out.old.items + 100 ≤ 256 }
    ensures text { out.new.items ≡ out.old.items ++ words.mark_words sector }
    ensures short { length out.new.items ≤ length out.old.items + 100 }
{
    put(b"sector ", out);
    put_decimal(sector, out);
    put(mark_tail(sector), out)
}

// Puts which rule of the slots is broken.
fn put_state_fault(rule: u8, out: &mut Line)
    requires room { length out.old.items + 100 ≤ 256 }
    ensures text { out.new.items ≡ out.old.items ++ words.state_words rule }
    ensures short { length out.new.items ≤ length out.old.items + 100 }
{
    if rule == 1 {
        put(b"the current slot has no images", out)
    } else if rule == 2 {
        put(b"a slot isn't successful or has priority 0", out)
    } else if rule == 3 {
        put(b"a partition that is written has no status", out)
    } else {
        put(
            b"an overlaid slot hasn't exactly one partition with a store",
            out,
        )
    }
}

// Puts a name between two texts.
#[tactic(auto, using(vab_bytes::proofs::NameLaws::name_fits))]
fn put_named(head: &[u8], name: &Name36, tail: &[u8], out: &mut Line)
    requires head { length head.now + length tail.now ≤ 60 }
    requires room { length out.old.items + 100 ≤ 256 }
    ensures text { out.new.items ≡ out.old.items ++ (head.now ++ name.now ++ tail.now) }
    ensures short { length out.new.items ≤ length out.old.items + 100 }
{
    put(head, out);
    put(name.text(), out);
    put(tail, out);
}

/// Puts the first thing wrong with a disk: at most 100 bytes.
#[tactic(auto, unfolding(crate::specs::Faults::fault_words))]
pub(crate) fn put_fault(fault: &StartFault, out: &mut Line)
    requires room { length out.old.items + 100 ≤ 256 }
    ensures text { out.new.items ≡ out.old.items ++ words.fault_words fault.now }
    ensures short { length out.new.items ≤ length out.old.items + 100 }
{
    match fault {
        StartFault::TooSmall(need, have) => {
            put_decimal(*have, out);
            put(b" sectors of ", out);
            put_decimal(*need, out)
        }
        StartFault::BadMark(sector) => put_mark_fault(*sector, out),
        StartFault::BadControl(fault) => {
            put(b"sector 4 is no boot control: ", out);
            put(control_word(*fault), out)
        }
        StartFault::BadPhysical => put(
            b"sector 2113 holds no sizes of physical partitions, or they pass the disk",
            out,
        ),
        StartFault::BadGeometry => {
            put(
                b"no copy of the geometry passes, or super is too small",
                out,
            )
        }
        StartFault::BadTable(slot) => {
            put(b"slot ", out);
            put(slot_letter(*slot), out);
            put(b" has no good table", out)
        }
        StartFault::BadPartition(name) => put_named(b"partition ", name, b" breaks a rule", out),
        StartFault::BadStore(name) => {
            put_named(
                b"the store of ",
                name,
                b" isn't what its status or the overlay says",
                out,
            )
        }
        StartFault::BadState(rule) => put_state_fault(*rule, out),
        StartFault::NoMemory => put(b"out of memory", out),
        StartFault::Disk(_) => put(b"the disk failed", out),
    }
}

/// What is wrong with a disk, in words.
pub fn fault_text(alloc: Global, fault: &StartFault) -> Result<Vec<u8>, NoMemory>
    ensures { IfOk result (λ text. text.items ≡ words.fault_words fault.now) }
{
    let mut line = Line::new();
    put_fault(fault, &mut line);
    let mut text = Vec::new(alloc);
    text.extend_from_slice(&line)?;
    Ok(text)
}
