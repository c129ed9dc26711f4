// The pages.
ghost use Rattle.std.specs.Prelude.{◌≡◌, IsNone, IsOk};
ghost use Rattle.vab_disk.specs.Calls.{OnlyReads};
ghost use Rattle.vab_device.specs.Reading.{device as means};

use crate::ending::{DONE, Device, NOT_WRITTEN};
use crate::words::Page;
use std::io::Write;
use vab_device::StartFault;
use vab_disk::Disk;
use vab_look::{Form, check_text, status_text, stores_text, tables_text};
use vab_survey::{survey_disk, tables_page};

// Writes a page to the output.
fn tell(device: &Device<'_>, page: &[u8]) -> u8 {
    let mut out = device.rt.stdout();
    match out.write_all(page) {
        Ok(()) => match out.flush() {
            Ok(()) => DONE,
            Err(_) => device.ends(NOT_WRITTEN, "the output failed"),
        },
        Err(_) => device.ends(NOT_WRITTEN, "the output failed"),
    }
}

// Writes a page to the output, or says why there is none.
fn tell_or_refuse(device: &Device<'_>, page: Result<Vec<u8>, StartFault>) -> u8 {
    match page {
        Ok(page) => tell(device, &page),
        Err(fault) => device.refuses(&fault),
    }
}

// The page of the tables.
fn tell_tables<D: Disk>(device: &Device<'_>, form: Form, d: &mut D) -> u8
    ensures { OnlyReads D.Disk d.old d.new }
{
    match tables_page(device.rt.alloc(), d) {
        Err(fault) => device.refuses(&fault),
        Ok(tables) => match tables_text(device.rt.alloc(), form, &tables) {
            Ok(page) => tell(device, &page),
            Err(_) => device.lacks_memory(),
        },
    }
}

// The page of what is wrong with a disk that has this first fault, or none.
fn tell_survey(device: &Device<'_>, page: &[u8], first: &Option<StartFault>) -> u8
    ensures { result ≡ 0 → IsNone first.now }
{
    let status = tell(device, page);
    match first {
        None => status,
        Some(fault) => {
            if status == DONE {
                device.is_none(fault)
            } else {
                status
            }
        }
    }
}

// The page of what is wrong. Its status is 0 only where the disk is a device.
fn tell_check<D: Disk>(device: &Device<'_>, form: Form, d: &mut D) -> u8
    ensures reads { OnlyReads D.Disk d.old d.new }
    ensures fine { D.is_modelled
        → result ≡ 0
        → IsOk (means (D.size d.old) (D.seen d.old)) }
{
    match survey_disk(device.rt.alloc(), d) {
        Err(fault) => device.refuses(&fault),
        Ok(survey) => match check_text(device.rt.alloc(), form, &survey) {
            Ok(page) => tell_survey(device, &page, &survey.first),
            Err(_) => device.lacks_memory(),
        },
    }
}

/// Tells a page, and answers the status.
pub fn tell_page<D: Disk>(device: &Device<'_>, page: Page, form: Form, d: &mut D) -> u8
    ensures { OnlyReads D.Disk d.old d.new }
{
    let alloc = device.rt.alloc();
    match page {
        Page::Status => tell_or_refuse(device, status_text(alloc, form, d)),
        Page::Stores => tell_or_refuse(device, stores_text(alloc, form, d)),
        Page::Tables => tell_tables(device, form, d),
        Page::Check => tell_check(device, form, d),
    }
}
