//! Commands whose table may be full.
ghost use Rattle.std.specs.Prelude.{ℕ, List};
ghost use Rattle.vab_model.specs.Commands.{Command, Begin, Factory, Create, Delete, Snapshot};
ghost use Rattle.vab_model.specs.Commands.{Resize, Overlay};
ghost use Rattle.vab_machine_laws.specs.Edits.{IsTheMachinesOrFull, IsTheMachinesFullOrOther};

/// On a disk of whole sectors that is a device, what such a command makes of the device is what the
/// machine makes of its state, or the machine would have been done and the table is full.
pub fn edits_are_the_machines()
    ensures begin { IsTheMachinesOrFull Begin }
    ensures factory { IsTheMachinesOrFull Factory }
    ensures delete { (name : List ℕ) → IsTheMachinesOrFull (Delete name) }
    ensures snapshot { (name : List ℕ) (size : ℕ) → IsTheMachinesOrFull (Snapshot name size) }
    ensures create { (name : List ℕ) (size : ℕ) → IsTheMachinesOrFull (Create name size) }
    ensures resize { (name : List ℕ) (size : ℕ) → IsTheMachinesOrFull (Resize name size) }
    ensures overlay { (name : List ℕ) (size : ℕ) → IsTheMachinesOrFull (Overlay name size) }
{}

/// All of these laws in one: on each such disk, whichever the command is. A wipe alone may be
/// refused besides, where the geometry or the block device of its image isn't the device's.
pub fn each_command_is_the_machines()
    ensures { (c : Command) → IsTheMachinesFullOrOther c }
{}
