//! Turns of a merge, one run after another.

ghost use Rattle.std.specs.Prelude.{◌≡◌};
ghost use Rattle.vab_marks.specs.declared.mark.MarkPhase.TheVariants as marks;
ghost use Rattle.vab_device.specs.Kept.{IsDevice};
ghost use Rattle.vab_device.specs.Reading.{Represents};
ghost use Rattle.vab_merging.specs.Made.{MakesSome};

use crate::next::next_place;
use crate::run::merge_run;
use vab_device::Device;
use vab_disk::Disk;
use vab_gate::DiskFault;

/// Makes so many turns, fewer only where no store has an exception any more. Answers how many are
/// not made.
pub(crate) fn make_turns<D: Disk>(
    d: &mut D,
    device: Device,
    blocks: u64,
) -> Result<(Device, u64), DiskFault>
    requires kept { IsDevice device (D.size d.old) }
    requires represents { D.is_modelled → Represents device (D.size d.old) (D.seen d.old) }
    requires merging { device.mark.phase ≡ marks.Merging }
    ensures { MakesSome D.Disk device blocks d.old d.new result }
{
    let mut device = device;
    let mut place = next_place(&device);
    let mut wanted = blocks;
    while wanted > 0 {
        match merge_run(d, device, &mut place, wanted) {
            Err(fault) => return Err(fault),
            Ok((next, made)) => {
                if made == 0 {
                    return Ok((next, wanted));
                }
                device = next;
                wanted -= made;
            }
        }
    }
    Ok((device, 0))
}
