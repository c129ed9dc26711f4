//! The page of the tables of both slots.

ghost use Rattle.std.specs.Prelude.{◌≡◌, ◌++◌, IfOk, OnOk};
ghost use Rattle.vab_survey.specs.Copies.{HasRules, AreKept};
ghost use Rattle.vab_look.specs.TablesText as texts;

use crate::copies::{begin_of_slot, copy_name, push_copies};
use crate::entries::push_entries;
use crate::form::{Form, begin, end, put_counted, put_keyed};
use crate::line::{Line, push_line};
use std::alloc::Global;
use vab_geometry::Geometry;
use vab_model::NoMemory;
use vab_survey::{SlotTable, TablesPage};

// The line of the geometry.
fn geometry_line(form: Form, geometry: &Geometry) -> Line
    ensures { result.items ≡ texts.geometry_line form geometry.now }
{
    let mut line = begin(form, b"geometry");
    put_counted(form, b"max", u64::from(geometry.max), &mut line);
    put_counted(form, b"slots", u64::from(geometry.slots), &mut line);
    end(form, &mut line);
    line
}

// The line of which copy is read.
fn read_line(form: Form, slot: usize, primary: bool) -> Line
    ensures { result.items ≡ texts.read_line form slot primary }
{
    let mut line = begin_of_slot(form, b"table", slot);
    put_keyed(form, b"reads", copy_name(primary), &mut line);
    end(form, &mut line);
    line
}

// The lines of a slot.
fn push_slot(form: Form, slot: usize, table: &SlotTable, page: &mut Vec<u8>) -> Result<(), NoMemory>
    requires { HasRules table.now }
    ensures { OnOk result
        (page.new.items ≡ page.old.items ++ texts.slot_lines form slot table.now) }
{
    push_copies(form, slot, table, page)?;
    match table {
        SlotTable::Bad(_, _) => Ok(()),
        SlotTable::Read(loaded) => {
            push_line(&read_line(form, slot, loaded.primary), page)?;
            push_entries(form, slot, &loaded.table, page)
        }
    }
}

/// The page of the tables of both slots.
pub fn tables_text(alloc: Global, form: Form, tables: &TablesPage) -> Result<Vec<u8>, NoMemory>
    requires { AreKept tables.now }
    ensures { IfOk result (λ text. text.items ≡ texts.tables_text form tables.now) }
{
    let mut page = Vec::new(alloc);
    push_line(&geometry_line(form, &tables.geometry), &mut page)?;
    push_slot(form, 0, &tables.a, &mut page)?;
    push_slot(form, 1, &tables.b, &mut page)?;
    Ok(page)
}
