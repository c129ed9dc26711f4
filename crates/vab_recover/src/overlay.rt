//! The partition that is overlaid while there is no update.

ghost use Rattle.std.specs.Prelude.{◌≡◌, ◌<◌, ◌≤◌, ◌+◌, ℕ, List, length, true, IfOk, IfErr, OnOk};
ghost use Rattle.std.specs.Prelude.{Some, None, Ok, Err, Contains};
ghost use Rattle.vab_disk.specs.Calls.{OnlyReads};
ghost use Rattle.vab_space.specs.declared.Chunk.TheVariants.{One};
ghost use Rattle.vab_tables.specs.Rules.{KeepsRules, end_of};
ghost use Rattle.vab_store.specs.Layout.{IsOnDisk};
ghost use Rattle.vab_store.specs.View.{Fits};
ghost use Rattle.vab_layout.specs.Layout.{layout_of};
ghost use Rattle.vab_layout.specs.Overlay.{overlaid_in};
ghost use Rattle.vab_layout.specs.Slots.{IsOwn};
ghost use Rattle.vab_partitions.specs.Overlay.{pair_of};
ghost use Rattle.vab_device.specs.Checks.{first_fault};
ghost use Rattle.vab_device.specs.Faults.{IsOfContents, IsOfDisk};
ghost use Rattle.vab_device.specs.Phases.{overlay_checks, overlay_wanted};
ghost use Rattle.vab_device.specs.Stores.{scan_at, scans_in};
ghost use Rattle.vab_tidy.specs.Counts.{CountsFaults};
ghost use Rattle.vab_recover.specs.Overlay.{KeepsOverlay, IsOverlayRead, wanted_there};

use crate::plan::judge_scan;
use std::alloc::Global;
use vab_bytes::Name36;
use vab_device::{Part, PartImage, StartFault};
use vab_disk::Disk;
use vab_linear::Map;
use vab_marks::UpdateMark;
use vab_partitions::{Overlay, is_apart, overlaid};
use vab_plan::{map, part};
use vab_scan::{ends_clean, scan};
use vab_space::Chunk;
use vab_store::StoreView;
use vab_tables::Table;

// Whether exactly one partition is overlaid, and its store stands apart, where the slot is
// overlaid.
pub(crate) fn judge_overlay(
    alloc: Global,
    table: &Table,
    mark: &UpdateMark,
) -> Result<(), StartFault>
    requires slot { mark.now.slot < 2 }
    requires keeps { KeepsRules table.now }
    ensures kept { OnOk result
        (KeepsOverlay mark.now.overlaid mark.now.slot (layout_of table.now)) }
    ensures fault { IfErr result (λ f. IsOfContents f
        → first_fault (overlay_checks mark.now.overlaid mark.now.slot (layout_of table.now))
        ≡ Some f) }
    ensures kind { IfErr result (λ f. IsOfDisk f → ⊥) }
{
    if !mark.overlaid {
        return Ok(());
    }
    match overlaid(table, mark.slot) {
        None => Err(StartFault::BadState(4)),
        Some(overlay) => match is_apart(alloc, table, mark.slot, overlay.store) {
            Err(_) => Err(StartFault::NoMemory),
            Ok(false) => Err(StartFault::BadPartition(overlay.store.name)),
            Ok(true) => Ok(()),
        },
    }
}

// The list of the store over the partition of this name, which has so many blocks.
fn scan_over<D: Disk>(
    alloc: Global,
    d: &mut D,
    name: &Name36,
    store: &Map,
    blocks: u64,
) -> Result<StoreView, StartFault>
    requires { IsOnDisk store.now (D.size d.old) }
    ensures ok { D.is_modelled
        → (base : List ℕ)
        → blocks ≡ length base
        → IfOk result (λ v. scan_at (wanted_there name.now base store.now) (D.seen d.old)
        ≡ Ok (record { name = name.now; chunk = One; exceptions = v })) }
    ensures fault { D.is_modelled
        → (base : List ℕ)
        → blocks ≡ length base
        → IfErr result (λ f. IsOfContents f
        → scan_at (wanted_there name.now base store.now) (D.seen d.old) ≡ Err f) }
    ensures fits { IfOk result (Fits One blocks store.now) }
    ensures reads { OnlyReads D.Disk d.old d.new }
    ensures counts { CountsFaults D.Disk d.old d.new result }
{
    let scanned = scan(alloc, d, store, blocks, Chunk::One);
    match judge_scan(name, store.len(), Chunk::One, scanned, true) {
        Err(fault) => Err(fault),
        Ok(scan) => {
            let view = scan.view;
            match ends_clean(d, store, view.count()) {
                Err(fault) => Err(StartFault::Disk(fault)),
                Ok(true) => Ok(view),
                Ok(false) => Err(StartFault::BadStore(*name)),
            }
        }
    }
}

// A partition of the slot with what the store over it holds.
fn read_over<D: Disk>(
    alloc: Global,
    d: &mut D,
    table: &Table,
    slot: usize,
    overlay: Overlay<'_>,
) -> Result<Part, StartFault>
    requires slot { slot < 2 }
    requires keeps { KeepsRules table.now }
    requires own { IsOwn slot (layout_of table.now).parts }
    requires judged { KeepsOverlay true slot (layout_of table.now) }
    requires on_disk { 4096 + end_of (layout_of table.now).device ≤ D.size d.old }
    requires is { overlaid_in slot (layout_of table.now).parts
        ≡ Some (pair_of table.now overlay.partition.now overlay.store.now) }
    requires partition { Contains table.now.partitions overlay.partition.now }
    requires store { Contains table.now.partitions overlay.store.now }
    ensures part { IfOk result
        (λ p. IsOverlayRead D.is_modelled true slot table.now (D.seen d.old) (Some p)) }
    ensures fault { D.is_modelled → IfErr result (λ f. IsOfContents f
        → scans_in (overlay_wanted true slot (layout_of table.now)) (D.seen d.old) ≡ Err f) }
    ensures reads { OnlyReads D.Disk d.old d.new }
    ensures counts { CountsFaults D.Disk d.old d.new result }
{
    let part = part(alloc, table, overlay.partition)?;
    let store = map(alloc, table, overlay.store)?;
    let name = &overlay.partition.name;
    match scan_over(alloc, d, name, &store, part.map.len()) {
        Err(fault) => Err(fault),
        Ok(view) => Ok(Part {
            store: Some(store),
            image: PartImage::Written(Chunk::One, view),
            ..part
        }),
    }
}

/// The partition that is overlaid, with what its store holds, where the slot is overlaid. The list
/// is one of chunks of one block, of whatever length, and behind its end its page has no exception;
/// `BadStore` comes exactly where it isn't.
pub(crate) fn read_overlay<D: Disk>(
    alloc: Global,
    d: &mut D,
    table: &Table,
    mark: &UpdateMark,
) -> Result<Option<Part>, StartFault>
    requires slot { mark.now.slot < 2 }
    requires keeps { KeepsRules table.now }
    requires own { IsOwn mark.now.slot (layout_of table.now).parts }
    requires judged { KeepsOverlay mark.now.overlaid mark.now.slot (layout_of table.now) }
    requires on_disk { 4096 + end_of (layout_of table.now).device ≤ D.size d.old }
    ensures overlay { IfOk result
        (IsOverlayRead D.is_modelled mark.now.overlaid mark.now.slot table.now (D.seen d.old)) }
    ensures fault { D.is_modelled → IfErr result (λ f. IsOfContents f
        → scans_in (overlay_wanted mark.now.overlaid mark.now.slot (layout_of table.now))
        (D.seen d.old)
        ≡ Err f) }
    ensures reads { OnlyReads D.Disk d.old d.new }
    ensures counts { CountsFaults D.Disk d.old d.new result }
{
    if !mark.overlaid {
        return Ok(None);
    }
    match overlaid(table, mark.slot) {
        None => Ok(None),
        Some(overlay) => match read_over(alloc, d, table, mark.slot, overlay) {
            Err(fault) => Err(fault),
            Ok(part) => Ok(Some(part)),
        },
    }
}
