//! The next run of a merge.

ghost use Rattle.std.specs.Prelude.{◌≡◌, ◌<◌, Some, IfOk};
ghost use Rattle.vab_marks.specs.declared.mark.MarkPhase.TheVariants as marks;
ghost use Rattle.vab_device.specs.Kept.{IsDevice};
ghost use Rattle.vab_device.specs.Reading.{Represents};
ghost use Rattle.vab_merging.specs.Part.{RunsPart};
ghost use Rattle.vab_merging.specs.Run.{MakesTurns};
ghost use Rattle.vab_merging.specs.Turns.{next_of, part_at, cut_at};

use crate::next::next_behind;
use crate::own::{give_own, take_own};
use crate::part::run_part;
use vab_bytes::Listing;
use vab_device::Device;
use vab_disk::Disk;
use vab_gate::DiskFault;

// The next run, where its partition stands at this place.
fn run_at<D: Disk>(
    d: &mut D,
    device: Device,
    place: usize,
    most: u64,
) -> Result<(Device, u64), DiskFault>
    requires kept { IsDevice device (D.size d.old) }
    requires represents { D.is_modelled → Represents device (D.size d.old) (D.seen d.old) }
    requires merging { device.mark.phase ≡ marks.Merging }
    requires next { next_of device ≡ Some place }
    requires some { 0 < most }
    ensures is { IfOk result (λ r. r.0 ≡ cut_at place r.1 device) }
    ensures runs { RunsPart D.Disk (part_at device place) (λ r. r.1) most d.old d.new result }
{
    let (rest, own) = take_own(device);
    let mut parts = own.into_vec();
    match run_part(d, &mut parts[place], most) {
        Ok(n) => Ok((give_own(rest, Listing::from_vec(parts)), n)),
        Err(fault) => Err(fault),
    }
}

/// Makes the next turns of a merge, at most `most` of them: the last exceptions of the first store,
/// in the order of the table, that has some, as many as are one run. Their blocks are copied into
/// the partition, and behind a sync the entries are cleared. Answers how many; 0 only where no
/// store has an exception, and then nothing is written. `place` is that of the store's partition,
/// by `next_place`, and becomes that of the next run. Takes no memory.
pub(crate) fn merge_run<D: Disk>(
    d: &mut D,
    device: Device,
    place: &mut Option<usize>,
    most: u64,
) -> Result<(Device, u64), DiskFault>
    requires kept { IsDevice device (D.size d.old) }
    requires represents { D.is_modelled → Represents device (D.size d.old) (D.seen d.old) }
    requires merging { device.mark.phase ≡ marks.Merging }
    requires here { place.old ≡ next_of device }
    requires some { 0 < most }
    ensures makes { MakesTurns D.Disk device most d.old d.new result }
    ensures there { IfOk result (λ r. place.new ≡ next_of r.0) }
{
    match *place {
        None => Ok((device, 0)),
        Some(at) => match run_at(d, device, at, most) {
            Err(fault) => Err(fault),
            Ok((behind, made)) => {
                *place = next_behind(&behind, at);
                Ok((behind, made))
            }
        },
    }
}
