//! Laws of sessions over a device.
ghost use Rattle.std.specs.Prelude.{ℕ};
ghost use Rattle.vab_exchanges.specs.Items.{TellsItsChoices};
ghost use Rattle.vab_session.specs.Responses.{machine};

/// What is told fixes where memory was refused, as far as it tells.
pub fn told_choices()
    ensures { (turns : ℕ) → TellsItsChoices (machine turns) }
{}
