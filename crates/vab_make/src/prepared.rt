// All that is decided and allocated before the first write.
ghost use Rattle.std.specs.Prelude.{◌≡◌, ◌<◌, ◌≤◌, ◌%◌, ◌^◌, length, IfOk, OnOk, IfErr};
ghost use Rattle.vab_set.specs.Spelling.{IsSet};
ghost use Rattle.vab_make.specs.Made.{refusal_of};
ghost use Rattle.vab_make.specs.Refusals.{Refuses};
ghost use Rattle.vab_make.specs.Prepared.{IsMost, IsPrepared};

use crate::checks::check_sizes;
use crate::fault::MakeFault;
use crate::layout::layout;
use std::alloc::Global;
use vab_set::Set;
use vab_tables::encode_table;

// The text of the device's table, or the first refusal.
pub fn prepare(
    alloc: Global,
    set: &Set,
    limit: u64,
    max: u32,
    sectors: u64,
) -> Result<Vec<u8>, MakeFault>
    requires set { IsSet set.now }
    requires limit { limit ≤ 2 ^ 44 }
    requires most { IsMost max }
    requires sectors { sectors < 2 ^ 55 }
    ensures text { IfOk result (λ text. IsPrepared set.now limit max sectors text.items) }
    ensures none { OnOk result (refusal_of set.now limit max sectors ≡ None) }
    ensures refused { IfErr result (λ f. Refuses f (refusal_of set.now limit max sectors)) }
{
    check_sizes(set, limit, sectors)?;
    let layout = layout(alloc, set, limit, sectors)?;
    let size = layout.text_size();
    if size > u64::from(max) {
        return Err(MakeFault::TableFull(size, max));
    }
    let table = layout.to_table(alloc)?;
    let text = encode_table(alloc, &table)?;
    Ok(text)
}
