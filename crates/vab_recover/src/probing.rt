//! Reading a device, with nothing written.

ghost use Rattle.std.specs.Prelude.{◌≡◌, ◌⊎◌, IfOk, IfErr, Ok, Err};
ghost use Rattle.vab_disk.specs.Calls.{OnlyReads};
ghost use Rattle.vab_device.specs.Faults.{IsOfContents};
ghost use Rattle.vab_device.specs.Kept.{IsDevice};
ghost use Rattle.vab_device.specs.Mounted.{mounted_on};
ghost use Rattle.vab_device.specs.Reading.{device};
ghost use Rattle.vab_tidy.specs.Counts.{CountsFaults};
ghost use Rattle.vab_recover.specs.Memory.{IsNamed, HasHeads};

use crate::opening::open;
use crate::table::with_tables;
use std::alloc::Global;
use vab_device::{Device, StartFault};
use vab_disk::Disk;

/// Reads the device of a disk and writes nothing: the device that `start` answers, before its
/// repairs and its tidying. Each fault of the disk's contents comes only where the disk is no
/// device and that is the first thing wrong; behind the geometry want of memory may come in its
/// place.
pub fn probe<D: Disk>(alloc: Global, d: &mut D) -> Result<Device, StartFault>
    ensures device { D.is_modelled → IfOk result
        (λ r. device (D.size d.old) (D.seen d.old) ≡ Ok (mounted_on r (D.seen d.new))) }
    ensures kept { IfOk result (λ r. IsDevice r (D.size d.old)) }
    ensures fault { D.is_modelled → IfErr result
        (λ f. IsOfContents f → device (D.size d.old) (D.seen d.old) ≡ Err f) }
    ensures memory { D.is_modelled → IfErr result
        (λ f. IsNamed f ⊎ HasHeads (D.size d.old) (D.seen d.old)) }
    ensures reads { OnlyReads D.Disk d.old d.new }
    ensures counts { CountsFaults D.Disk d.old d.new result }
{
    match open(alloc, d) {
        Err(fault) => Err(fault),
        Ok((device, tables)) => Ok(with_tables(device, tables)),
    }
}
