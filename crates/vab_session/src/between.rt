//! What a session does by itself between two packets.
ghost use Rattle.vab_device.specs.Kept.{IsDevice};
ghost use Rattle.vab_device.specs.Reading.{Represents};
ghost use Rattle.vab_session.specs.Between.{GoesOn};

use crate::{KeptDevice, SessionFault};
use vab_disk::Disk;
use vab_merging::merge;

/// Makes so many turns of a merge, fewer only where it ends; where nothing is being merged, none.
/// It hears and tells nothing, and takes no memory.
pub(crate) fn go_on<D: Disk>(
    d: &mut D,
    kept: KeptDevice,
    turns: u64,
) -> Result<KeptDevice, SessionFault>
    requires device { IsDevice kept.device (D.size d.old) }
    requires stands { D.is_modelled → Represents kept.device (D.size d.old) (D.seen d.old) }
    ensures { GoesOn D.Disk kept turns d.old d.new result }
{
    if turns == 0 {
        return Ok(kept);
    }
    let KeptDevice { device, staged } = kept;
    match merge(d, device, turns) {
        Ok((device, _)) => Ok(KeptDevice { device, staged }),
        Err(_) => Err(SessionFault::Disk),
    }
}
