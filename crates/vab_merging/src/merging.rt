//! A merge of some blocks.

ghost use Rattle.std.specs.Prelude.{◌≡◌, ℕ, List, Option};
ghost use Rattle.vab_marks.specs.declared.mark.MarkPhase.TheVariants as marks;
ghost use Rattle.vab_model.specs.Commands.{Merge};
ghost use Rattle.vab_device.specs.Does.{Does};
ghost use Rattle.vab_device.specs.Kept.{IsDevice};
ghost use Rattle.vab_device.specs.Reading.{Represents};
ghost use Rattle.vab_merging.specs.Writes.{IsOfMerge};

use crate::counts::left;
use crate::ending::end_merge;
use crate::turns::make_turns;
use vab_device::{Device, PhaseKind};
use vab_disk::Disk;
use vab_gate::DiskFault;
use vab_model::{Refusal, Reply};

// Makes the turns, and ends the merge where more are asked for than there are exceptions.
fn merge_blocks<D: Disk>(
    d: &mut D,
    device: Device,
    blocks: u64,
) -> Result<(Device, Reply), DiskFault>
    requires kept { IsDevice device (D.size d.old) }
    requires represents { D.is_modelled → Represents device (D.size d.old) (D.seen d.old) }
    requires merging { device.mark.phase ≡ marks.Merging }
    ensures { (staged : Option (List ℕ))
        → Does D.Disk device staged (Merge blocks) (IsOfMerge device blocks) d.old d.new result }
{
    match make_turns(d, device, blocks) {
        Err(fault) => Err(fault),
        Ok((next, more)) => {
            if more == 0 {
                let count = left(&next);
                Ok((next, Reply::Left(count)))
            } else {
                match end_merge(d, next) {
                    Err(fault) => Err(fault),
                    Ok(ended) => Ok((ended, Reply::Merged)),
                }
            }
        }
    }
}

/// Makes so many turns of a merge, fewer only where it ends: each copies the block of the last
/// exception of a store into its partition and clears its entry, and one behind the last exception
/// ends the merge. Exceptions of one area whose blocks follow one another are merged at once.
/// Answers how many are left, or that the update is merged. Refused with `NotMerging` where no
/// update is being merged. Takes no memory.
pub fn merge<D: Disk>(d: &mut D, device: Device, blocks: u64) -> Result<(Device, Reply), DiskFault>
    requires kept { IsDevice device (D.size d.old) }
    requires represents { D.is_modelled → Represents device (D.size d.old) (D.seen d.old) }
    ensures { (staged : Option (List ℕ))
        → Does D.Disk device staged (Merge blocks) (IsOfMerge device blocks) d.old d.new result }
{
    match device.phase() {
        PhaseKind::Idle => Ok((device, Reply::Refused(Refusal::NotMerging))),
        PhaseKind::Installing(_) => Ok((device, Reply::Refused(Refusal::NotMerging))),
        PhaseKind::Staged(_) => Ok((device, Reply::Refused(Refusal::NotMerging))),
        PhaseKind::Merging(_) => merge_blocks(d, device, blocks),
    }
}
