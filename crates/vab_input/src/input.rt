// Hears the whole input, in pieces of at most 65536 bytes.
ghost use Rattle.std.specs.Prelude.{◌≡◌, ◌<◌, ◌≤◌, ◌++◌, [], length, IfOk, OnOk, OnErr, IsErrOf};
ghost use Rattle.std.specs.Bool.{OnTrue, OnFalse};
ghost use Rattle.vab_disk.specs.Disk.{Adds, Nothing, SameHoldings, SourceFailed};
ghost use Rattle.vab_exchanges.specs.Hearing.{HearsWhere};
ghost use Rattle.vab_input.specs.HearsToEnd.{FindsSome, HearsToEnd, HearsWithin};

use std::alloc::{AllocError, Global};
use vab_disk::{Disk, Port, PortFault};

/// Why the input isn't had.
#[derive(Clone, Copy, Debug, PartialEq, Eq)]
pub enum InputFault {
    /// The input has more bytes than it may have.
    TooLong,
    /// Hearing failed.
    Source,
    /// Memory was refused.
    NoMemory,
}

impl From<PortFault> for InputFault {
    ghost use Rattle.std.specs.Prelude.{◌≡◌};
    ghost use Rattle.vab_input.specs.declared.input.InputFault.TheVariants.{Source};

    ghost from_gives = { λ _ e. e ≡ Source };

    fn from(_: PortFault) -> Self {
        InputFault::Source
    }
}

impl From<AllocError> for InputFault {
    ghost use Rattle.std.specs.Prelude.{◌≡◌};
    ghost use Rattle.vab_input.specs.declared.input.InputFault.TheVariants.{NoMemory};

    ghost from_gives = { λ _ e. e ≡ NoMemory };

    fn from(_: AllocError) -> Self {
        InputFault::NoMemory
    }
}

// Hears the next piece and puts it behind what was heard. `false`: none comes, since the input has
// ended.
fn hear_piece<P: Port>(p: &mut P, heard: &mut Vec<u8>) -> Result<bool, InputFault>
    ensures bytes { P.is_modelled
        → OnOk result
        (heard.new.items ++ P.input_left p.new ≡ heard.old.items ++ P.input_left p.old) }
    ensures some { IfOk result
        (λ some. OnTrue some (length heard.old.items < length heard.new.items)) }
    ensures none { IfOk result (λ some. OnFalse some (heard.new.items ≡ heard.old.items)) }
    ensures end { P.is_modelled → IfOk result (λ some. OnFalse some (P.input_left p.old ≡ [])) }
    ensures size { P.size p.new ≡ P.size p.old }
    ensures seen { P.is_modelled → P.seen p.new ≡ P.seen p.old }
    ensures crash { P.is_modelled → SameHoldings (P.may_leave p.old) (P.may_leave p.new) }
    ensures told { P.is_modelled → P.told p.new ≡ P.told p.old }
    ensures time { P.is_modelled → Adds P.moment P.outcomes p.old p.new Nothing }
    ensures steady { (IsErrOf result InputFault.Source → ⊥) → P.faults p.new ≡ P.faults p.old }
    ensures last { P.is_modelled
        → IfOk result (λ some. OnFalse some (P.input_left p.new ≡ [])) }
    ensures heard { P.is_modelled
        → IfOk result
        (λ some. OnTrue some (HearsWhere FindsSome (P.heard p.old) (P.heard p.new))) }
    ensures heard_end { P.is_modelled
        → IfOk result (λ some. OnFalse some (HearsToEnd (P.heard p.old) (P.heard p.new))) }
    ensures within { P.is_modelled → HearsWithin (P.heard p.old) (P.heard p.new) }
    ensures kind { IsErrOf result InputFault.TooLong → ⊥ }
    ensures cause { IsErrOf result InputFault.Source
        → SourceFailed (P.faults p.old) (P.faults p.new) }
{
    let mut piece = [0u8; 65536];
    let count = p.hear(&mut piece)?;
    heard.extend_from_slice(&piece[..count])?;
    Ok(count > 0)
}

/// Hears the input to its end, of at most `most` bytes. `TooLong` comes once more than `most` bytes
/// are heard.
pub fn hear_all<P: Port>(alloc: Global, p: &mut P, most: u64) -> Result<Vec<u8>, InputFault>
    ensures bytes { P.is_modelled → IfOk result (λ v. v.items ≡ P.input_left p.old) }
    ensures fits { IfOk result (λ v. length v.items ≤ most) }
    ensures long { P.is_modelled
        → IsErrOf result InputFault.TooLong
        → most < length (P.input_left p.old) }
    ensures size { P.size p.new ≡ P.size p.old }
    ensures seen { P.is_modelled → P.seen p.new ≡ P.seen p.old }
    ensures crash { P.is_modelled → SameHoldings (P.may_leave p.old) (P.may_leave p.new) }
    ensures told { P.is_modelled → P.told p.new ≡ P.told p.old }
    ensures time { P.is_modelled → Adds P.moment P.outcomes p.old p.new Nothing }
    ensures end { P.is_modelled → OnOk result (P.input_left p.new ≡ []) }
    // It is heard while something is left, and once more for the end.
    ensures heard { P.is_modelled → OnOk result (HearsToEnd (P.heard p.old) (P.heard p.new)) }
    // Where it is too long something was left at each hearing.
    ensures over { P.is_modelled
        → IsErrOf result InputFault.TooLong
        → HearsWhere FindsSome (P.heard p.old) (P.heard p.new) }
    // Whatever comes of it, it isn't heard beyond its end.
    ensures within { P.is_modelled → HearsWithin (P.heard p.old) (P.heard p.new) }
    // Unless hearing fails the counts of faults stay.
    ensures steady { (IsErrOf result InputFault.Source → ⊥) → P.faults p.new ≡ P.faults p.old }
    ensures cause { IsErrOf result InputFault.Source
        → SourceFailed (P.faults p.old) (P.faults p.new) }
{
    let mut heard = Vec::new(alloc);
    while hear_piece(p, &mut heard)? {
        if heard.len() as u64 > most {
            return Err(InputFault::TooLong);
        }
    }
    Ok(heard)
}
