//! Commands that no table can refuse.
ghost use Rattle.vab_space.specs.declared.Chunk.{Chunk};
ghost use Rattle.vab_machine_laws.specs.Rows.{IsTheMachines};
ghost use Rattle.vab_model.specs.Commands.{SetActive, Boot, Mark, Print, Digest, Flash, Keep};
ghost use Rattle.vab_model.specs.Commands.{Finish, Cancel, BeginMerge, Merge};
ghost use Rattle.std.specs.Prelude.{ℕ, List};

/// What a command on slots or on images makes of a device is what the machine makes of its state.
pub fn slots_are_the_machines()
    ensures set_active { (slot : ℕ) → IsTheMachines (SetActive slot) }
    ensures boot { IsTheMachines Boot }
    ensures mark { IsTheMachines Mark }
    ensures print { (name : List ℕ) → IsTheMachines (Print name) }
    ensures digest { (name : List ℕ) → IsTheMachines (Digest name) }
{}

/// So is what ends an installation, drops an update, or merges it.
pub fn ends_are_the_machines()
    ensures finish { IsTheMachines Finish }
    ensures cancel { IsTheMachines Cancel }
    ensures begin_merge { IsTheMachines BeginMerge }
    ensures merge { (count : ℕ) → IsTheMachines (Merge count) }
{}

/// So is what a flash makes of it, or the keeping of a physical partition.
pub fn flashes_are_the_machines()
    ensures flash { (name : List ℕ) (chunk : Chunk) → IsTheMachines (Flash name chunk) }
    ensures keep { (name : List ℕ) → IsTheMachines (Keep name) }
{}
