//! The update mark.

ghost use Rattle.std.specs.Prelude.{◌≡◌, IfOk, Ok};
ghost use Rattle.vab_marks.specs.declared.mark.UpdateMark.{UpdateMark};
ghost use Rattle.vab_marks.specs.declared.version.MarkVersion.{MarkVersion};
ghost use Rattle.vab_marks.specs.Mark.{FitsMark, phase_spelled, mark_at, mark_by, mark_under};
ghost use Rattle.vab_marks.specs.Mark.{is_idle, mark_of, mark_spelling, may_stand_apart};
ghost use Rattle.vab_marks.specs.Mark.{rephased, resloted, begun, overlaid_by, with_physical};
ghost use Rattle.vab_marks.specs.Mark.{flag_byte};
ghost use Rattle.vab_marks.specs.Version.{version_in};

use crate::sector::{MarkFault, are_zeros, blank, head_fault, put, seal};
use crate::version::MarkVersion;

const MAGIC: &[u8; 4] = b"VABU";

/// Where an update stands.
#[derive(Clone, Copy, Debug, PartialEq, Eq)]
pub enum MarkPhase {
    /// No update.
    Idle,
    /// The other slot's partitions are being written.
    Installing,
    /// The other slot has images too, and may be set active.
    Staged,
    /// The target's snapshots are being merged.
    Merging,
    /// All are merged.
    Completed,
}

/// The update mark of a device.
#[derive(Clone, Copy, Debug, PartialEq, Eq)]
pub struct UpdateMark {
    pub phase: MarkPhase,
    /// 0 for a, 1 for b: the sole slot in Idle, the source in Installing and Staged, the target in
    /// Merging and Completed.
    pub slot: usize,
    /// The target stands apart, in Installing and Staged alone: no block of the source is its own.
    pub apart: bool,
    /// The slot is overlaid, in Idle alone: a store stands over one of its partitions.
    pub overlaid: bool,
    /// There are physical partitions behind `super`, boot and vbmeta of each slot. No command
    /// changes it.
    pub physical: bool,
}

impl MarkPhase {
    /// Whether there is no update.
    pub fn is_idle(self) -> bool
        ensures { result ≡ is_idle self }
    {
        matches!(self, MarkPhase::Idle)
    }

    // A target may stand apart in it.
    fn may_stand_apart(self) -> bool
        ensures { result ≡ may_stand_apart self }
    {
        matches!(self, MarkPhase::Installing | MarkPhase::Staged)
    }
}

impl UpdateMark {
    // With no flag.
    fn at(phase: MarkPhase, slot: usize) -> UpdateMark
        ensures { result ≡ mark_at phase slot }
    {
        UpdateMark {
            phase,
            slot,
            apart: false,
            overlaid: false,
            physical: false,
        }
    }

    // The mark of a slot whose phase has this byte.
    fn from_byte(slot: usize, byte: u8) -> Option<UpdateMark>
        ensures { result ≡ mark_by slot byte }
    {
        match byte {
            0 => Some(UpdateMark::at(MarkPhase::Idle, slot)),
            1 => Some(UpdateMark::at(MarkPhase::Installing, slot)),
            2 => Some(UpdateMark::at(MarkPhase::Staged, slot)),
            3 => Some(UpdateMark::at(MarkPhase::Merging, slot)),
            4 => Some(UpdateMark::at(MarkPhase::Completed, slot)),
            5 => Some(UpdateMark::at(MarkPhase::Idle, slot).begun(true)),
            6 => Some(UpdateMark {
                apart: true,
                ..UpdateMark::at(MarkPhase::Staged, slot)
            }),
            7 => Some(UpdateMark::at(MarkPhase::Idle, slot).with_overlay(true)),
            _ => None,
        }
    }

    // The byte of its phase.
    fn to_byte(self) -> u8
        ensures { result ≡ phase_spelled self }
    {
        match self.phase {
            MarkPhase::Idle => { if self.overlaid { 7 } else { 0 } }
            MarkPhase::Installing => { if self.apart { 5 } else { 1 } }
            MarkPhase::Staged => { if self.apart { 6 } else { 2 } }
            MarkPhase::Merging => 3,
            MarkPhase::Completed => 4,
        }
    }

    // The byte of the flag of physical partitions.
    fn physical_byte(self) -> u8
        ensures { result ≡ flag_byte self.physical }
    {
        if self.physical { 1 } else { 0 }
    }

    /// The same mark with another phase, and no overlay; where no target stands apart in that, none
    /// does.
    pub fn with_phase(self, phase: MarkPhase) -> UpdateMark
        ensures { result ≡ rephased phase self }
    {
        let apart = phase.may_stand_apart() && self.apart;
        UpdateMark {
            phase,
            apart,
            overlaid: false,
            ..self
        }
    }

    /// The mark of an installation from this one's slot, whose target stands apart or not.
    pub fn begun(self, apart: bool) -> UpdateMark
        ensures { result ≡ begun apart self }
    {
        UpdateMark {
            phase: MarkPhase::Installing,
            apart,
            overlaid: false,
            ..self
        }
    }

    /// The mark of the same slot, where there is no update, and an overlay or none.
    pub fn with_overlay(self, overlaid: bool) -> UpdateMark
        ensures { result ≡ overlaid_by overlaid self }
    {
        UpdateMark {
            phase: MarkPhase::Idle,
            apart: false,
            overlaid,
            ..self
        }
    }

    // The same mark of a device with physical partitions, or without.
    fn with_physical(self, physical: bool) -> UpdateMark
        ensures { result ≡ with_physical physical self }
    {
        UpdateMark { physical, ..self }
    }

    /// The same mark of another slot.
    pub fn with_slot(self, slot: usize) -> UpdateMark
        ensures { result ≡ resloted slot self }
    {
        UpdateMark { slot, ..self }
    }
}

#[tactic(auto, unfolding(crate::specs::Mark::mark_of))]
fn mark_in(bytes: &[u8; 512]) -> Result<UpdateMark, MarkFault>
    ensures { result ≡ mark_of bytes.now }
{
    if let Some(fault) = head_fault(bytes, MAGIC, MarkVersion::is_version(bytes[4])) {
        return Err(fault);
    }
    if bytes[6] > 1 || bytes[7] > 1 || !are_zeros(&bytes[8..508]) {
        return Err(MarkFault::BadField);
    }
    match UpdateMark::from_byte(bytes[6] as usize, bytes[5]) {
        Some(mark) => Ok(mark.with_physical(bytes[7] == 1)),
        None => Err(MarkFault::BadField),
    }
}

/// The mark of this sector, under either version, or the first fault.
pub fn decode_mark(bytes: &[u8; 512]) -> Result<UpdateMark, MarkFault>
    // Which mark or which fault it is.
    ensures exact { result ≡ mark_of bytes.now }
    // What is read is spelled so under the sector's version.
    ensures found { IfOk result
        (λ m. FitsMark m × (bytes.now ≡ mark_under (version_in bytes.now) m)) }
    // What is spelled so under a version is read.
    ensures only { (v : MarkVersion)
        (m : UpdateMark)
        → FitsMark m
        → bytes.now ≡ mark_under v m
        → result ≡ Ok m }
{
    mark_in(bytes)
}

/// The sector with this mark, of version 2.
pub fn encode_mark(mark: &UpdateMark) -> [u8; 512]
    requires { FitsMark mark.now }
    ensures spelled { result ≡ mark_spelling mark.now }
    ensures decoded { mark_of result ≡ Ok mark.now }
    ensures version { version_in result ≡ MarkVersion.Two }
{
    let mut bytes = blank();
    put(&mut bytes, 0, MAGIC);
    put(
        &mut bytes,
        4,
        &[
            MarkVersion::Two.to_byte(),
            mark.to_byte(),
            mark.slot as u8,
            mark.physical_byte(),
        ],
    );
    seal(&mut bytes);
    bytes
}
