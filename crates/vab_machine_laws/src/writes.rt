//! What is written over a partition.
ghost use Rattle.std.specs.Prelude.{ℕ};
ghost use Rattle.vab_model.specs.Commands.{OverlayWrite, OverlayDiscard};
ghost use Rattle.vab_model.specs.Writes.{LastWriteIsRead};
ghost use Rattle.vab_machine_laws.specs.Rows.{IsTheMachines};

/// What a write over a partition, and the end of its overlay, make of a device is what the machine
/// makes of its state.
pub fn writes_are_the_machines()
    ensures write { (block : ℕ) → IsTheMachines (OverlayWrite block) }
    ensures discard { IsTheMachines OverlayDiscard }
{}

/// After any whole writes over an image each of its blocks reads as the last write to it, and as
/// the image's where there is none.
pub fn last_write_is_read()
    ensures { LastWriteIsRead }
{}
