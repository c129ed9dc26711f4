//! The page of the device of a disk.

ghost use Rattle.std.specs.Prelude.{◌≡◌, ℕ, IfOk, IfErr, Err};
ghost use Rattle.vab_disk.specs.Disk.{Image};
ghost use Rattle.vab_disk.specs.Calls.{OnlyReads};
ghost use Rattle.vab_device.specs.Faults.{IsOfContents};
ghost use Rattle.vab_device.specs.Kept.{IsDevice};
ghost use Rattle.vab_device.specs.Reading.{device};
ghost use Rattle.vab_tidy.specs.Counts.{CountsFaults};
ghost use Rattle.vab_fbvars.specs.Variables.{AreSectors};
ghost use Rattle.vab_look.specs.Pages.{IsPageOf, IsStatusPage};

use crate::facts::status_facts;
use crate::form::Form;
use std::alloc::Global;
use vab_device::{Device, StartFault};
use vab_disk::Disk;
use vab_model::NoMemory;
use vab_recover::probe;
use vab_status::status_page;

// The page of a device in a form.
fn page_of(alloc: Global, form: Form, device: &Device) -> Result<Vec<u8>, NoMemory>
    requires { (size : ℕ) × IsDevice device.now size }
    ensures { (size : ℕ) (image : Image)
        → IsDevice device.now size
        → AreSectors size image
        → IfOk result (λ text. IsPageOf form device.now image text.items) }
{
    match form {
        Form::Text => status_page(alloc, device),
        Form::Json => status_facts(alloc, form, device),
    }
}

/// The page of the device of a disk; as text the same bytes that `vab DEVICE status` prints. Each
/// fault of the disk's contents comes only where the disk is no device and that is the first thing
/// wrong.
pub fn status_text<D: Disk>(alloc: Global, form: Form, d: &mut D) -> Result<Vec<u8>, StartFault>
    ensures page { D.is_modelled → IfOk result
        (λ text. IsStatusPage form (D.size d.old) (D.seen d.old) text.items) }
    ensures fault { D.is_modelled → IfErr result
        (λ f. IsOfContents f → device (D.size d.old) (D.seen d.old) ≡ Err f) }
    ensures reads { OnlyReads D.Disk d.old d.new }
    ensures counts { CountsFaults D.Disk d.old d.new result }
{
    match probe(alloc, d) {
        Err(fault) => Err(fault),
        Ok(device) => match page_of(alloc, form, &device) {
            Ok(text) => Ok(text),
            Err(_) => Err(StartFault::NoMemory),
        },
    }
}
