//! The page of what is wrong with a disk.

ghost use Rattle.std.specs.Prelude.{◌≡◌, ◌++◌, ◌≤◌, length, IfOk, OnOk};
ghost use Rattle.vab_look.specs.CheckText as texts;

use crate::copies::copy_name;
use crate::fault::geometry_word;
use crate::form::{Form, begin, end, put_word};
use crate::line::{Line, push_line};
use crate::opening::{push_opening, push_table_copies};
use crate::part::push_part;
use crate::place::Place;
use std::alloc::Global;
use vab_device::StartFault;
use vab_geometry::{Geometry, GeometryFault};
use vab_model::NoMemory;
use vab_survey::{Details, Finding, Parts, Survey};

// Nothing is found of the parts of a disk that is too small.
fn nothing_read() -> Parts
    ensures { result ≡ texts.nothing_read }
{
    Parts {
        mark: Finding::Unread,
        statuses: Finding::Unread,
        control: Finding::Unread,
        geometry: Finding::Unread,
        tables: Finding::Unread,
        partitions: Finding::Unread,
        stores: Finding::Unread,
    }
}

// What is found of the parts by themselves.
fn parts_read(details: &Option<Details>) -> Parts
    ensures { result ≡ texts.parts_read details.now }
{
    match details {
        None => nothing_read(),
        Some(details) => details.parts,
    }
}

fn geometry_words(copy: &Result<Geometry, GeometryFault>) -> &'static [u8]
    ensures text { result.now ≡ texts.geometry_words copy.now }
    ensures short { length result.now ≤ 16 }
{
    match copy {
        Ok(_) => b"ok",
        Err(fault) => geometry_word(*fault),
    }
}

// The line of a copy of the geometry.
fn geometry_copy(form: Form, primary: bool, copy: &Result<Geometry, GeometryFault>) -> Line
    ensures { result.items ≡ texts.geometry_copy form primary copy.now }
{
    let mut line = begin(form, b"geometry");
    put_word(form, b"copy", copy_name(primary), &mut line);
    put_word(form, b"says", geometry_words(copy), &mut line);
    end(form, &mut line);
    line
}

// The lines of the copies of the geometry.
fn push_geometries(
    form: Form,
    details: &Option<Details>,
    page: &mut Vec<u8>,
) -> Result<(), NoMemory>
    ensures { OnOk result
        (page.new.items ≡ page.old.items ++ texts.geometry_copies form details.now) }
{
    match details {
        None => Ok(()),
        Some(details) => {
            push_line(
                &geometry_copy(form, true, &details.geometries.primary),
                page,
            )?;
            push_line(
                &geometry_copy(form, false, &details.geometries.backup),
                page,
            )
        }
    }
}

// The lines in front of the tables.
fn push_front(
    form: Form,
    first: &Option<StartFault>,
    details: &Option<Details>,
    page: &mut Vec<u8>,
) -> Result<(), NoMemory>
    ensures { OnOk result
        (page.new.items ≡ page.old.items ++ texts.front_lines form first.now details.now) }
{
    let own = parts_read(details);
    push_part(form, Place::Size, first, Finding::Fine, page)?;
    push_part(form, Place::Mark, first, own.mark, page)?;
    push_part(form, Place::Statuses, first, own.statuses, page)?;
    push_part(form, Place::Control, first, own.control, page)?;
    push_geometries(form, details, page)?;
    push_part(form, Place::Geometry, first, own.geometry, page)
}

// The lines of the tables and behind them.
fn push_back(
    form: Form,
    first: &Option<StartFault>,
    details: &Option<Details>,
    page: &mut Vec<u8>,
) -> Result<(), NoMemory>
    ensures { OnOk result
        (page.new.items ≡ page.old.items ++ texts.back_lines form first.now details.now) }
{
    let own = parts_read(details);
    push_table_copies(form, details, page)?;
    push_part(form, Place::Tables, first, own.tables, page)?;
    push_part(form, Place::Partitions, first, own.partitions, page)?;
    push_part(form, Place::Stores, first, own.stores, page)?;
    push_part(form, Place::States, first, Finding::Unread, page)?;
    push_opening(form, first, details, page)
}

/// The page of what is wrong with a disk, a line for each part in the order of opening.
pub fn check_text(alloc: Global, form: Form, survey: &Survey) -> Result<Vec<u8>, NoMemory>
    ensures { IfOk result (λ text. text.items ≡ texts.check_text form survey.now) }
{
    let mut page = Vec::new(alloc);
    push_front(form, &survey.first, &survey.details, &mut page)?;
    push_back(form, &survey.first, &survey.details, &mut page)?;
    Ok(page)
}
