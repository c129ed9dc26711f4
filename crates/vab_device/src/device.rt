//! The device as it is kept between commands.

ghost use Rattle.std.specs.Prelude.{◌≡◌, ◌<◌, ◌==◌, Option, Some, None, option_map, if◌then◌else◌};
ghost use Rattle.vab_bootctl.specs.Boot.{info_at};
ghost use Rattle.vab_device.specs.Kept.{phase_kind};

use vab_bootctl::{Control, Info};
use vab_bytes::{Listing, Name36};
use vab_geometry::Geometry;
use vab_linear::Map;
use vab_marks::{MarkPhase, UpdateMark};
use vab_model::GroupLimit;
use vab_physical::Tail;
use vab_space::Chunk;
use vab_store::StoreView;
use vab_tables::Table;

/// What is known of the image of a partition.
#[derive(Drop)]
pub enum PartImage {
    /// What its blocks hold.
    Kept,
    /// Nothing yet: an update is to write it.
    Declared,
    /// What its blocks hold, but for those that these exceptions of its store have, whose chunks
    /// have this size.
    Written(Chunk, StoreView),
}

/// A partition of a slot, or one that the target of an update is to have.
#[derive(Drop)]
pub struct Part {
    /// The base name, without the slot's suffix.
    pub name: Name36,
    /// The full name of its group.
    pub group: Name36,
    /// Where its blocks stand on the disk.
    pub map: Map,
    /// Where the blocks of its exception store stand, while it has one.
    pub store: Option<Map>,
    pub image: PartImage,
}

/// What is known of a device between two commands. Its images stay on the disk.
#[derive(Drop)]
pub struct Device {
    pub geometry: Geometry,
    pub control: Control,
    pub mark: UpdateMark,
    /// Where `super` ends, and the sizes of the physical partitions behind it: 0, where there are
    /// none.
    pub tail: Tail,
    /// Blocks of 4096 bytes that partitions may have.
    pub cap: u64,
    /// The groups in their order, without the slot's suffix, but for that of no slot.
    pub groups: Listing<GroupLimit>,
    /// The partitions of slot a, where it has images.
    pub a: Option<Listing<Part>>,
    /// The partitions of slot b, where it has images.
    pub b: Option<Listing<Part>>,
    /// The table of slot a, where it is read.
    pub table_a: Option<Table>,
    /// The table of slot b, where it is read.
    pub table_b: Option<Table>,
    /// The partitions of the target, while an update is installed.
    pub plan: Option<Listing<Part>>,
    /// The partition that is overlaid, with its store, where one is: one of the mark's slot, and no
    /// update is there.
    pub overlay: Option<Part>,
}

/// Where an update stands.
#[derive(Clone, Copy, Debug, PartialEq, Eq)]
pub enum PhaseKind {
    /// No update.
    Idle,
    /// An update is installed beside this slot, the source.
    Installing(usize),
    /// An update from this slot, the source, is ready: both slots have images.
    Staged(usize),
    /// The stores of this slot, the target, are merged into its partitions.
    Merging(usize),
}

impl Device {
    /// The slot that was booted last: 0 for a, 1 for b.
    pub fn current(&self) -> usize
        ensures { result ≡ self.now.control.current }
    {
        self.control.current
    }

    /// Where an update stands.
    pub fn phase(&self) -> PhaseKind
        ensures { result ≡ phase_kind self.now }
    {
        match self.mark.phase {
            MarkPhase::Idle => PhaseKind::Idle,
            MarkPhase::Installing => PhaseKind::Installing(self.mark.slot),
            MarkPhase::Staged => PhaseKind::Staged(self.mark.slot),
            MarkPhase::Merging => PhaseKind::Merging(self.mark.slot),
            MarkPhase::Completed => PhaseKind::Idle,
        }
    }

    /// Blocks of 4096 bytes that partitions may have.
    pub fn cap(&self) -> u64
        ensures { result ≡ self.now.cap }
    {
        self.cap
    }

    /// What boot control says of a slot; `None` where it has no images.
    pub fn slot_info(&self, slot: usize) -> Option<Info>
        requires { slot < 2 }
        ensures { result
            ≡ option_map (λ _. info_at self.now.control slot)
            (if slot == 0 then self.now.a else self.now.b) }
    {
        if slot == 0 {
            self.a.as_ref().map(|_| self.control.a)
        } else {
            self.b.as_ref().map(|_| self.control.b)
        }
    }

    /// The partitions of a slot; `None` where it has no images.
    pub fn images(&self, slot: usize) -> Option<&Listing<Part>>
        requires { slot < 2 }
        ensures { option_map (λ p. p.now) result ≡ (if slot == 0 then self.now.a else self.now.b) }
    {
        if slot == 0 {
            self.a.as_ref()
        } else {
            self.b.as_ref()
        }
    }
}
