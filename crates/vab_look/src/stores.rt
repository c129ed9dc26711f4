//! The page of the stores of a device.

ghost use Rattle.std.specs.Prelude.{◌≡◌, ◌<◌, IfOk, IfErr, Err};
ghost use Rattle.std.specs.List.{flat_map};
ghost use Rattle.vab_disk.specs.Calls.{OnlyReads};
ghost use Rattle.vab_device.specs.Faults.{IsOfContents};
ghost use Rattle.vab_device.specs.Reading.{device};
ghost use Rattle.vab_tidy.specs.Counts.{CountsFaults};
ghost use Rattle.vab_look.specs.Pages.{IsStoresPage};
ghost use Rattle.vab_look.specs.StoresText as texts;
ghost use Rattle.vab_survey.specs.Rows.{rows_of};

use crate::copies::begin_of_slot;
use crate::form::{Form, end, put_counted, put_word};
use crate::line::{Line, push_line};
use std::alloc::Global;
use vab_device::{Device, StartFault};
use vab_disk::Disk;
use vab_model::NoMemory;
use vab_recover::probe;
use vab_survey::{StoreRow, store_rows};

// The line of a store.
#[tactic(auto, using(vab_bytes::proofs::NameLaws::name_fits))]
fn store_line(form: Form, row: &StoreRow) -> Line
    ensures { result.items ≡ texts.store_line form row.now }
{
    let mut line = begin_of_slot(form, b"store", row.slot);
    put_word(form, b"name", row.name.text(), &mut line);
    put_counted(form, b"exceptions", row.exceptions, &mut line);
    put_counted(form, b"blocks", row.blocks, &mut line);
    put_counted(form, b"used", row.used, &mut line);
    end(form, &mut line);
    line
}

// The lines of stores.
fn store_lines(alloc: Global, form: Form, rows: &[StoreRow]) -> Result<Vec<u8>, NoMemory>
    ensures { IfOk result (λ text. text.items ≡ flat_map (texts.store_line form) rows.now) }
{
    let mut page = Vec::new(alloc);
    for row in rows {
        push_line(&store_line(form, row), &mut page)?;
    }
    Ok(page)
}

// The page of the stores of a device.
fn stores_of(alloc: Global, form: Form, device: &Device) -> Result<Vec<u8>, NoMemory>
    requires { device.now.mark.slot < 2 }
    ensures { IfOk result
        (λ text. text.items ≡ flat_map (texts.store_line form) (rows_of device.now)) }
{
    let rows = store_rows(alloc, device)?;
    store_lines(alloc, form, &rows)
}

/// The page of the stores of the device of a disk: a line for each partition that has a store and a
/// status. Each fault of the disk's contents comes only where the disk is no device and that is the
/// first thing wrong.
pub fn stores_text<D: Disk>(alloc: Global, form: Form, d: &mut D) -> Result<Vec<u8>, StartFault>
    ensures page { D.is_modelled → IfOk result
        (λ text. IsStoresPage form (D.size d.old) (D.seen d.old) text.items) }
    ensures fault { D.is_modelled → IfErr result
        (λ f. IsOfContents f → device (D.size d.old) (D.seen d.old) ≡ Err f) }
    ensures reads { OnlyReads D.Disk d.old d.new }
    ensures counts { CountsFaults D.Disk d.old d.new result }
{
    match probe(alloc, d) {
        Err(fault) => Err(fault),
        Ok(device) => match stores_of(alloc, form, &device) {
            Ok(text) => Ok(text),
            Err(_) => Err(StartFault::NoMemory),
        },
    }
}
