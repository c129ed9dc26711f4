//! A run of the merge of one partition.

ghost use Rattle.std.specs.Prelude.{◌≡◌, ◌<◌, length, IfOk, IsSome, IsTrue};
ghost use Rattle.vab_merge.specs.Merged.{CanMerge, MayMerge};
ghost use Rattle.vab_device.specs.Mounted.{blocks_there};
ghost use Rattle.vab_merging.specs.Turns.{has_exceptions, cut_part};
ghost use Rattle.vab_merging.specs.Part.{chunk_in, RunsPart};
ghost use Rattle.vab_device.specs.Mounted.{exceptions_in};

use vab_device::{Part, PartImage};
use vab_disk::Disk;
use vab_gate::DiskFault;
use vab_merge::{Ran, run_turn};

/// Merges the last exceptions of the store of a partition, at most `most` of them, as many as are
/// one run. Answers how many.
pub fn run_part<D: Disk>(d: &mut D, part: &mut Part, most: u64) -> Result<u64, DiskFault>
    requires stored { IsSome part.old.store }
    requires written { IsTrue (has_exceptions part.old) }
    requires may { MayMerge (chunk_in part.old.image) part.old.map (blocks_there part.old.store)
        (exceptions_in part.old.image) (D.size d.old) }
    requires can { D.is_modelled
        → CanMerge (chunk_in part.old.image) part.old.map (blocks_there part.old.store)
        (exceptions_in part.old.image) (D.size d.old) }
    requires some { 0 < most }
    ensures kept { IfOk result (λ n. part.new ≡ cut_part n part.old) }
    ensures runs { RunsPart D.Disk part.old (λ n. n) most d.old d.new result }
{
    let store = match &part.store {
        Some(store) => store,
        None => unreachable!(),
    };
    match &mut part.image {
        PartImage::Kept => unreachable!(),
        PartImage::Declared => unreachable!(),
        PartImage::Written(chunk, view) => match run_turn(d, &part.map, store, view, most, *chunk) {
            Ok(Ran::Merged(n)) => Ok(n),
            Ok(Ran::Empty) => unreachable!(),
            Err(fault) => Err(fault),
        },
    }
}
