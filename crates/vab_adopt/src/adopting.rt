//! Adopting a disk.

ghost use Rattle.std.specs.Prelude.{◌≡◌, ◌<◌, ◌≤◌, ℕ, true, false, Some, IfOk, OnOk, IfErr, Err};
ghost use Rattle.vab_disk.specs.Disk.{Adds};
ghost use Rattle.vab_disk.specs.Calls.{IsAtRest, IsQuiet, OnlyReads, Touches};
ghost use Rattle.vab_device.specs.declared.fault.StartFault.{StartFault as Fault};
ghost use Rattle.vab_device.specs.Faults.{IsOfContents};
ghost use Rattle.vab_device.specs.Reading.{device};
ghost use Rattle.vab_adopt.specs.declared.fault.AdoptFault.{AdoptFault as Refusal};
ghost use Rattle.vab_adopt.specs.declared.fault.AdoptFault.TheVariants.{NoDevice};
ghost use Rattle.vab_adopt.specs.Adopted.{adopt_refusal};
ghost use Rattle.vab_adopt.specs.Adopting.{CountsAdopting, Gives, IsAdopted, IsFound};
ghost use Rattle.vab_adopt.specs.Adopting.{IsOfAdopting};
ghost use Rattle.vab_adopt.specs.Adopting.{IsOfDisk, LeavesAdopting, Says};
ghost use Rattle.vab_adopt.specs.Named.{IsNamed};

use crate::count::{Adopted, count};
use crate::dropped::update_there;
use crate::fault::AdoptFault;
use crate::heads::put_heads;
use crate::reading::read_adopted;
use std::alloc::Global;
use vab_device::StartFault;
use vab_disk::Disk;
use vab_recover::probe;

// Whether a fault says what is wrong with the disk's contents.
fn is_of_contents(fault: &StartFault) -> bool
    ensures yes { result ≡ true → IsOfContents fault.now }
    ensures no { result ≡ false → IsOfContents fault.now → ⊥ }
{
    match fault {
        StartFault::TooSmall(_, _)
        | StartFault::BadMark(_)
        | StartFault::BadControl(_)
        | StartFault::BadPhysical
        | StartFault::BadGeometry
        | StartFault::BadTable(_)
        | StartFault::BadPartition(_)
        | StartFault::BadStore(_)
        | StartFault::BadState(_) => true,
        StartFault::NoMemory | StartFault::Disk(_) => false,
    }
}

// Whether the disk is read, and no device.
fn none_of(fault: StartFault) -> Result<(), AdoptFault>
    ensures contents { OnOk result (IsOfContents fault) }
    ensures others { IfErr result
        (λ f. (f ≡ NoDevice fault) × (IsOfContents fault → ⊥)) }
{
    if is_of_contents(&fault) {
        Ok(())
    } else {
        Err(AdoptFault::NoDevice(fault))
    }
}

// Whether the disk is no device.
fn check_none<D: Disk>(alloc: Global, d: &mut D) -> Result<(), AdoptFault>
    ensures none { D.is_modelled → OnOk result
        ((f : Fault) × (device (D.size d.old) (D.seen d.old) ≡ Err f)) }
    ensures exact { D.is_modelled → (slot : ℕ)
        → IfErr result (λ f. Says f (adopt_refusal (D.size d.old) slot (D.seen d.old))) }
    ensures reads { OnlyReads D.Disk d.old d.new }
    ensures counts { CountsAdopting D.Disk d.old d.new result }
{
    match probe(alloc, d) {
        Ok(_device) => Err(AdoptFault::AlreadyDevice),
        Err(fault) => none_of(fault),
    }
}

// Whether the disk is adopted, and what is counted of it then.
fn look<D: Disk>(alloc: Global, d: &mut D, slot: usize) -> Result<Adopted, AdoptFault>
    requires slot { slot < 2 }
    ensures refused { D.is_modelled
        → IfErr result (λ f. Says f (adopt_refusal (D.size d.old) slot (D.seen d.old))) }
    ensures found { D.is_modelled
        → IfOk result (IsFound (D.size d.old) slot (D.seen d.old)) }
    ensures enough { IfOk result (λ a. 4120 ≤ D.size d.old) }
    ensures reads { OnlyReads D.Disk d.old d.new }
    ensures counts { CountsAdopting D.Disk d.old d.new result }
{
    check_none(alloc, d)?;
    let dropped = update_there(d)?;
    let (device, _) = read_adopted(alloc, d, slot)?;
    Ok(count(&device, slot, dropped))
}

/// Adopts a disk whose `super` somebody else has written: it becomes the device of this slot's
/// table, without an update, with the slot current and good, priority 15. Three sectors are
/// written, one gate each: zeros for the mark, the boot control, the mark. Nothing of `super` is
/// written, and the tables' copies are not repaired. The refusals come in the order of
/// `AdoptFault`, each exactly where it says, and nothing is written then. An update or an overlay
/// whose mark can be read is dropped, and its mark answered. A disk that fails, or a cut of power,
/// leaves the disk as it was, or no device, or the adopted one. Want of memory and a disk that
/// fails may stand in place of each answer.
pub fn adopt_device<D: Disk>(alloc: Global, d: &mut D, slot: usize) -> Result<Adopted, AdoptFault>
    requires slot { slot < 2 }
    ensures exact { D.is_modelled
        → Gives result (adopt_refusal (D.size d.old) slot (D.seen d.old)) }
    ensures adopted { D.is_modelled
        → IfOk result (IsAdopted (D.size d.old) slot (D.seen d.old) (D.seen d.new)) }
    // No fault of a mark, a boot control, a store or the slots comes.
    ensures named { D.is_modelled → IfErr result (λ f. IsNamed slot f) }
    ensures settled { D.is_modelled → OnOk result (IsAtRest D.Disk d.new) }
    ensures unwritten { IfErr result (λ f. (IsOfDisk f → ⊥) → OnlyReads D.Disk d.old d.new) }
    // Nor is anything where there is a refusal and the disk fails.
    ensures refused { D.is_modelled
        → (f : Refusal)
        → adopt_refusal (D.size d.old) slot (D.seen d.old) ≡ Some f
        → OnlyReads D.Disk d.old d.new }
    // The sectors of the boot control and of the mark alone are written, with these bytes.
    ensures touches { D.is_modelled
        → Touches D.Disk (IsOfAdopting slot (D.seen d.old)) d.old d.new }
    ensures quiet { IsQuiet D.Disk d.old d.new }
    ensures time { D.is_modelled
        → IsAtRest D.Disk d.old
        → Adds D.moment D.outcomes d.old d.new
        (LeavesAdopting (D.told d.old) (D.size d.old) slot (D.seen d.old)) }
    ensures counts { CountsAdopting D.Disk d.old d.new result }
{
    let adopted = look(alloc, d, slot)?;
    put_heads(d, slot)?;
    Ok(adopted)
}
