//! The lines of the copies of a slot's table.

ghost use Rattle.std.specs.Prelude.{◌≡◌, ◌≤◌, ◌++◌, length, OnOk};
ghost use Rattle.vab_look.specs.Faults.{table_words};
ghost use Rattle.vab_look.specs.TablesText as texts;

use crate::fault::put_table_fault;
use crate::form::{Form, begin, end, put_word};
use crate::line::{Line, push_line};
use vab_fbproto::slot_letter;
use vab_model::NoMemory;
use vab_survey::SlotTable;
use vab_tables::TableFault;

/// The name of a copy.
pub(crate) fn copy_name(primary: bool) -> &'static [u8]
    ensures text { result.now ≡ texts.copy_name primary }
    ensures short { length result.now ≤ 8 }
{
    if primary { b"primary" } else { b"backup" }
}

/// The begin of a line on a slot: at most 43 bytes.
pub(crate) fn begin_of_slot(form: Form, kind: &[u8], slot: usize) -> Line
    requires { length kind.now ≤ 16 }
    ensures text { result.items ≡ texts.of_slot form kind.now slot }
    ensures short { length result.items ≤ 43 }
{
    let mut line = begin(form, kind);
    put_word(form, b"slot", slot_letter(slot), &mut line);
    line
}

// The line of a copy, and what is said of it.
fn copy_line(form: Form, slot: usize, primary: bool, words: &[u8]) -> Line
    requires { length words.now ≤ 60 }
    ensures { result.items ≡ texts.copy_line form slot primary words.now }
{
    let mut line = begin_of_slot(form, b"table", slot);
    put_word(form, b"copy", copy_name(primary), &mut line);
    put_word(form, b"says", words, &mut line);
    end(form, &mut line);
    line
}

fn holds_words(holds: bool) -> &'static [u8]
    ensures text { result.now ≡ texts.holds_words holds }
    ensures short { length result.now ≤ 20 }
{
    if holds { b"ok" } else { b"holds other bytes" }
}

// The words of a fault of a copy.
fn fault_words(fault: TableFault) -> Line
    ensures text { result.items ≡ table_words fault }
    ensures short { length result.items ≤ 40 }
{
    let mut words = Line::new();
    put_table_fault(fault, &mut words);
    words
}

/// Puts the lines of both copies of a slot's table behind a page.
pub(crate) fn push_copies(
    form: Form,
    slot: usize,
    table: &SlotTable,
    page: &mut Vec<u8>,
) -> Result<(), NoMemory>
    ensures { OnOk result
        (page.new.items ≡ page.old.items ++ texts.copy_lines form slot table.now) }
{
    match table {
        SlotTable::Read(loaded) => {
            push_line(
                &copy_line(form, slot, true, holds_words(loaded.primary)),
                page,
            )?;
            push_line(
                &copy_line(form, slot, false, holds_words(loaded.backup)),
                page,
            )
        }
        SlotTable::Bad(first, second) => {
            push_line(&copy_line(form, slot, true, &fault_words(*first)), page)?;
            push_line(&copy_line(form, slot, false, &fault_words(*second)), page)
        }
    }
}
