//! What is read through the stores of a device.

ghost use Rattle.std.specs.Prelude.{◌≡◌, ◌<◌, ◌≤◌, ◌+◌, IfOk, IfErr, IfSome, IsNone, is_some};
ghost use Rattle.std.specs.Prelude.{false, Err};
ghost use Rattle.vab_disk.specs.Calls.{OnlyReads};
ghost use Rattle.vab_statuses.specs.Statuses.{written_in};
ghost use Rattle.vab_tables.specs.Rules.{KeepsRules, end_of};
ghost use Rattle.vab_layout.specs.Layout.{layout_of};
ghost use Rattle.vab_layout.specs.Slots.{IsOwn};
ghost use Rattle.vab_device.specs.Faults.{IsOfContents};
ghost use Rattle.vab_device.specs.Kept.{reads_both};
ghost use Rattle.vab_device.specs.Stores.{scans_in};
ghost use Rattle.vab_tidy.specs.Counts.{CountsFaults};
ghost use Rattle.vab_plan.specs.Scans.{IsTargetTable};
ghost use Rattle.vab_recover.specs.Opened.{is_merging, through_of, through_slot, stores_at};
ghost use Rattle.vab_recover.specs.Opened.{AreStored};
ghost use Rattle.vab_recover.specs.Overlay.{KeepsOverlay};

use crate::overlay::read_overlay;
use crate::plan::read_plan;
use crate::table::Tables;
use std::alloc::Global;
use vab_bytes::Listing;
use vab_device::{Part, StartFault};
use vab_disk::Disk;
use vab_marks::UpdateMark;
use vab_statuses::Statuses;

/// What is read through stores.
#[derive(Drop)]
pub struct Stored {
    /// The partitions of an update's target, or while it is merged those of the mark's slot.
    pub through: Option<Listing<Part>>,
    /// The partition that is overlaid, while there is no update.
    pub overlay: Option<Part>,
}

/// The partitions that are read through stores, with what these hold: those of an update's target,
/// while it is merged those of the mark's slot, and where there is no update the one that is
/// overlaid. `BadStore` comes exactly where it says.
pub fn read_stores<D: Disk>(
    alloc: Global,
    d: &mut D,
    tables: &Tables,
    statuses: &Statuses,
    mark: &UpdateMark,
) -> Result<Stored, StartFault>
    requires slot { mark.now.slot < 2 }
    requires both { is_some tables.now.target ≡ reads_both mark.now.phase }
    requires keeps { KeepsRules tables.now.source.table }
    requires own { IsOwn mark.now.slot (layout_of tables.now.source.table).parts }
    requires overlay { IsNone tables.now.target
        → is_merging mark.now.phase ≡ false
        → KeepsOverlay mark.now.overlaid mark.now.slot (layout_of tables.now.source.table) }
    requires source_on_disk { 4096 + end_of (layout_of tables.now.source.table).device
        ≤ D.size d.old }
    requires target { IfSome (through_of mark.now.phase tables.now.source tables.now.target)
        (λ l. IsTargetTable (through_slot mark.now.phase mark.now.slot) l.table) }
    requires on_disk { IfSome (through_of mark.now.phase tables.now.source tables.now.target)
        (λ l. 4096 + end_of (layout_of l.table).device ≤ D.size d.old) }
    ensures stored { IfOk result
        (AreStored D.is_modelled mark.now tables.now.source tables.now.target
        statuses.now.items (D.seen d.old)) }
    ensures fault { D.is_modelled → IfErr result (λ f. IsOfContents f
        → scans_in
        (stores_at mark.now tables.now.source tables.now.target (written_in statuses.now.items))
        (D.seen d.old)
        ≡ Err f) }
    ensures reads { OnlyReads D.Disk d.old d.new }
    ensures counts { CountsFaults D.Disk d.old d.new result }
{
    if mark.phase.is_idle() {
        return match read_overlay(alloc, d, &tables.source.table, mark) {
            Err(fault) => Err(fault),
            Ok(overlay) => Ok(Stored {
                through: None,
                overlay,
            }),
        };
    }
    match read_plan(alloc, d, tables, statuses, mark) {
        Err(fault) => Err(fault),
        Ok(through) => Ok(Stored {
            through,
            overlay: None,
        }),
    }
}
