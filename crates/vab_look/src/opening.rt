//! What the next opening of a device writes.

ghost use Rattle.std.specs.Prelude.{◌≡◌, ◌++◌, OnOk};
ghost use Rattle.vab_look.specs.CheckText as texts;

use crate::copies::{copy_name, push_copies};
use crate::form::{Form, begin, end, put_keyed, put_word};
use crate::line::{Line, push_line};
use vab_device::StartFault;
use vab_fbproto::slot_letter;
use vab_marks::{MarkFault, MarkPhase, MarkVersion, UpdateMark};
use vab_model::NoMemory;
use vab_recover::reads_both;
use vab_survey::{Details, SlotTable, TablesPage};

// Whether the table of a slot is read with this mark.
fn is_asked(mark: &Result<UpdateMark, MarkFault>, slot: usize) -> bool
    ensures { result ≡ texts.is_asked mark.now slot }
{
    match mark {
        Err(_) => false,
        Ok(mark) => mark.slot == slot || reads_both(mark.phase),
    }
}

// The lines of both copies of a slot's table, where it is read.
fn push_if(
    form: Form,
    asked: bool,
    slot: usize,
    table: &SlotTable,
    page: &mut Vec<u8>,
) -> Result<(), NoMemory>
    ensures { OnOk result
        (page.new.items ≡ page.old.items ++ texts.copies_if form asked slot table.now) }
{
    if asked {
        push_copies(form, slot, table, page)
    } else {
        Ok(())
    }
}

/// The lines of the copies of the tables that are read.
pub(crate) fn push_table_copies(
    form: Form,
    details: &Option<Details>,
    page: &mut Vec<u8>,
) -> Result<(), NoMemory>
    ensures { OnOk result (page.new.items ≡ page.old.items ++ texts.table_copies form details.now) }
{
    match details {
        None => Ok(()),
        Some(details) => match &details.tables {
            None => Ok(()),
            Some(tables) => {
                push_if(form, is_asked(&details.mark, 0), 0, &tables.a, page)?;
                push_if(form, is_asked(&details.mark, 1), 1, &tables.b, page)
            }
        },
    }
}

// The line of a copy that is repaired.
fn repair_line(form: Form, slot: usize, primary: bool) -> Line
    ensures { result.items ≡ texts.repair_line form slot primary }
{
    let mut line = begin(form, b"opening");
    put_keyed(form, b"repairs", slot_letter(slot), &mut line);
    put_word(form, b"copy", copy_name(primary), &mut line);
    end(form, &mut line);
    line
}

// The line of a copy that is repaired, where it doesn't hold the text.
fn push_repair(
    form: Form,
    holds: bool,
    slot: usize,
    primary: bool,
    page: &mut Vec<u8>,
) -> Result<(), NoMemory>
    ensures { OnOk result
        (page.new.items ≡ page.old.items ++ texts.repair_if form holds slot primary) }
{
    if holds {
        Ok(())
    } else {
        push_line(&repair_line(form, slot, primary), page)
    }
}

// The lines of the copies of a slot's table that are repaired.
fn push_repairs_of(
    form: Form,
    slot: usize,
    table: &SlotTable,
    page: &mut Vec<u8>,
) -> Result<(), NoMemory>
    ensures { OnOk result
        (page.new.items ≡ page.old.items ++ texts.repairs_of form slot table.now) }
{
    match table {
        SlotTable::Bad(_, _) => Ok(()),
        SlotTable::Read(loaded) => {
            push_repair(form, loaded.primary, slot, true, page)?;
            push_repair(form, loaded.backup, slot, false, page)
        }
    }
}

// The same, where the table is read.
fn push_repairs_if(
    form: Form,
    asked: bool,
    slot: usize,
    table: &SlotTable,
    page: &mut Vec<u8>,
) -> Result<(), NoMemory>
    ensures { OnOk result
        (page.new.items ≡ page.old.items ++ texts.repairs_if form asked slot table.now) }
{
    if asked {
        push_repairs_of(form, slot, table, page)
    } else {
        Ok(())
    }
}

// The lines of all copies that are repaired.
fn push_repairs(
    form: Form,
    mark: &Result<UpdateMark, MarkFault>,
    tables: &Option<TablesPage>,
    page: &mut Vec<u8>,
) -> Result<(), NoMemory>
    ensures { OnOk result
        (page.new.items ≡ page.old.items ++ texts.repairs_in form mark.now tables.now) }
{
    match tables {
        None => Ok(()),
        Some(tables) => {
            push_repairs_if(form, is_asked(mark, 0), 0, &tables.a, page)?;
            push_repairs_if(form, is_asked(mark, 1), 1, &tables.b, page)
        }
    }
}

// The line of a mark that gets version 2.
fn raise_line(form: Form) -> Line
    ensures { result.items ≡ texts.raise_words form }
{
    let mut line = begin(form, b"opening");
    put_keyed(form, b"raises", b"mark", &mut line);
    end(form, &mut line);
    line
}

// Puts that line, where the mark has version 1.
fn push_raise(form: Form, version: MarkVersion, page: &mut Vec<u8>) -> Result<(), NoMemory>
    ensures { OnOk result (page.new.items ≡ page.old.items ++ texts.raise_line form version) }
{
    match version {
        MarkVersion::One => push_line(&raise_line(form), page),
        MarkVersion::Two => Ok(()),
    }
}

// Whether the mark says that a merge has ended.
fn has_ended(mark: &UpdateMark) -> bool
    ensures { result ≡ texts.has_ended (mark.now).phase }
{
    match mark.phase {
        MarkPhase::Idle => false,
        MarkPhase::Installing => false,
        MarkPhase::Staged => false,
        MarkPhase::Merging => false,
        MarkPhase::Completed => true,
    }
}

// The line of a merge that is tidied.
fn tidy_line(form: Form) -> Line
    ensures { result.items ≡ texts.tidy_words form }
{
    let mut line = begin(form, b"opening");
    put_keyed(form, b"tidies", b"merge", &mut line);
    end(form, &mut line);
    line
}

// Puts that line, where a merge has ended.
fn push_tidy(
    form: Form,
    mark: &Result<UpdateMark, MarkFault>,
    page: &mut Vec<u8>,
) -> Result<(), NoMemory>
    ensures { OnOk result (page.new.items ≡ page.old.items ++ texts.tidy_line form mark.now) }
{
    match mark {
        Err(_) => Ok(()),
        Ok(mark) => {
            if has_ended(mark) {
                push_line(&tidy_line(form), page)
            } else {
                Ok(())
            }
        }
    }
}

/// The lines of what the next opening writes, where the disk is a device.
pub(crate) fn push_opening(
    form: Form,
    first: &Option<StartFault>,
    details: &Option<Details>,
    page: &mut Vec<u8>,
) -> Result<(), NoMemory>
    ensures { OnOk result
        (page.new.items ≡ page.old.items ++ texts.opening_writes form first.now details.now) }
{
    match first {
        Some(_) => Ok(()),
        None => match details {
            None => Ok(()),
            Some(details) => {
                push_repairs(form, &details.mark, &details.tables, page)?;
                push_raise(form, details.version, page)?;
                push_tidy(form, &details.mark, page)
            }
        },
    }
}
