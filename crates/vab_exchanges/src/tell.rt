//! Telling whole pieces.
ghost use Rattle.std.specs.Prelude.{◌≡◌, ◌++◌, ℕ, take, length, OnOk, OnErr, IsErrOf};
ghost use Rattle.vab_disk.specs.Disk.{Adds, SameHoldings, Faults, NoFewer, SinkFailed};
ghost use Rattle.vab_disk.specs.Port.{LeavesSaying};

use vab_disk::{Disk, Port, PortFault};

/// Tells all of these bytes. After an `Err` some front of them is told.
pub fn say_all<P: Port>(p: &mut P, bytes: &[u8]) -> Result<(), PortFault>
    ensures told { P.is_modelled → OnOk result (P.told p.new ≡ P.told p.old ++ bytes.now) }
    ensures front { P.is_modelled →
        (n : ℕ) × (P.told p.new ≡ P.told p.old ++ take n bytes.now) }
    ensures size { P.size p.new ≡ P.size p.old }
    ensures seen { P.is_modelled → P.seen p.new ≡ P.seen p.old }
    ensures crash { P.is_modelled → SameHoldings (P.may_leave p.old) (P.may_leave p.new) }
    ensures left { P.is_modelled → P.input_left p.new ≡ P.input_left p.old }
    ensures heard { P.is_modelled → P.heard p.new ≡ P.heard p.old }
    ensures time { P.is_modelled → Adds P.moment P.outcomes p.old p.new
        (LeavesSaying (P.told p.old) bytes.now (P.may_leave p.old)) }
    ensures counts { NoFewer (P.faults p.old) (P.faults p.new) }
    ensures steady { OnOk result (P.faults p.new ≡ P.faults p.old) }
    ensures kind { IsErrOf result PortFault.Source → ⊥ }
    ensures cause { OnErr result (SinkFailed (P.faults p.old) (P.faults p.new)) }
{
    let mut done = 0;
    while done < bytes.len() {
        done += p.say(&bytes[done..])?;
    }
    Ok(())
}
