//! The page, line by line.
ghost use Rattle.std.specs.Prelude.{◌≡◌, ◌++◌, ℕ, IfOk, OnOk};
ghost use Rattle.vab_disk.specs.Disk.{Image};
ghost use Rattle.vab_device.specs.Kept.{IsDevice};
ghost use Rattle.vab_device.specs.Mounted.{state_on};
ghost use Rattle.vab_fbvars.specs.Variables.{AreSectors};
ghost use Rattle.vab_status.specs.Page.{page};

use crate::line::{Line, cap_line, current_line, phase_line};
use crate::overlay::push_overlay;
use crate::plan::push_plan;
use crate::slot::push_slot;
use std::alloc::Global;
use vab_device::Device;
use vab_merging::left;
use vab_model::NoMemory;

/// Puts a line behind a page.
pub(crate) fn push_line(line: &Line, page: &mut Vec<u8>) -> Result<(), NoMemory>
    ensures { OnOk result (page.new.items ≡ page.old.items ++ line.now.items) }
{
    page.extend_from_slice(line)?;
    Ok(())
}

/// The page of a device. It reads nothing of the disk; memory may be refused.
pub fn status_page(alloc: Global, device: &Device) -> Result<Vec<u8>, NoMemory>
    requires { (size : ℕ) × IsDevice device.now size }
    ensures { (size : ℕ) (image : Image)
        → IsDevice device.now size
        → AreSectors size image
        → IfOk result (λ bytes. bytes.items ≡ page (state_on device.now image)) }
{
    let mut page = Vec::new(alloc);
    push_line(&cap_line(device.cap()), &mut page)?;
    push_line(&current_line(device.current()), &mut page)?;
    push_line(&phase_line(device.phase(), left(device)), &mut page)?;
    push_slot(alloc, 0, device.control.a, &device.a, &mut page)?;
    push_slot(alloc, 1, device.control.b, &device.b, &mut page)?;
    push_plan(alloc, &device.plan, &mut page)?;
    push_overlay(&device.overlay, &mut page)?;
    Ok(page)
}
