//! The names that stand in a table, in their order.

ghost use Rattle.std.specs.Prelude.{◌≡◌, ◌||◌, not, ℕ, List, IfErr, IfOk, OnOk};
ghost use Rattle.std.specs.List.{list_any};
ghost use Rattle.std.specs.Str.{bytes_eq};
ghost use Rattle.vab_bytes.specs.Name.{name_field, IsName};
ghost use Rattle.vab_tables.specs.declared.fault.TableFault.TheVariants.{NoMemory};

use crate::entries::{Group, Partition};
use crate::fault::TableFault;
use std::collections::BTreeSet;
use vab_bytes::Name36;

/// An entry with a name.
pub trait Named {
    /// The bytes of the name.
    ghost text_of: { Self → List ℕ };

    /// The name.
    fn name(&self) -> &Name36
        ensures { result.now ≡ text_of self.now };
}

impl Named for Group {
    ghost text_of = { λ g. g.name };

    fn name(&self) -> &Name36 {
        &self.name
    }
}

impl Named for Partition {
    ghost text_of = { λ p. p.name };

    fn name(&self) -> &Name36 {
        &self.name
    }
}

/// Adds a name's field to those that stand already: whether it is not among them.
pub fn add_name(names: &mut BTreeSet<[u8; 36]>, name: &Name36) -> Result<bool, TableFault>
    ensures added { IfOk result (λ new. new
        ≡ not (list_any (λ field. bytes_eq (name_field name.now) field) names.old.keys)) }
    ensures names { OnOk result ((field : List ℕ)
        → list_any (λ other. bytes_eq field other) names.new.keys
        ≡ (list_any (λ other. bytes_eq field other) names.old.keys
        || bytes_eq field (name_field name.now))) }
    ensures name { IsName name.now }
    ensures fault { IfErr result (λ e. e ≡ NoMemory) }
{
    let _text = name.text();
    let new = names.insert(name.to_field())?;
    Ok(new)
}
