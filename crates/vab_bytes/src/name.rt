//! Names of partitions, groups and block devices.

ghost use Rattle.std.specs.Prelude.{◌≡◌, ◌↔◌, ◌≤◌, ◌==◌, nat_eq, ℕ};
ghost use Rattle.std.specs.Prelude.{List, length, drop, position, IfOk, IsOk, Ok};
ghost use Rattle.std.specs.Result.{result_ok};
ghost use Rattle.std.specs.List.{before_first, list_all};
ghost use Rattle.std.specs.Cmp.{partial_equiv_from_equiv};
ghost use Rattle.std.specs.Cmp.Lexicographic.{pointwise, nat_list_eq_equiv};
ghost use Rattle.vab_bytes.specs.Name.{is_name_byte, is_name, IsName, name_field, name_of_field};

use std::marker::Model;

/// The longest name, in bytes; the size of a name's field in the metadata.
const MAX: usize = 36;

/// A name of 1 to 36 bytes of `A-Z a-z 0-9 _ . -`, as a partition, a group or a block device of the
/// metadata has one; contracts see the list of its bytes.
#[derive(Clone, Copy, Debug)]
pub struct Name36 {
    bytes: [u8; 36],
    len: usize,
}

impl Model for Name36 {
    ghost use Rattle.std.specs.Prelude.{ℕ, List, length, take};
    ghost use Rattle.vab_bytes.specs.Name.{name_field, HoldsName};

    ghost Value = { List ℕ };

    ghost view = { λ n. take n.len n.bytes };

    ghost invariant = { λ n. HoldsName n.bytes n.len };

    ghost inverse = { λ text. record { bytes = name_field text; len = length text } };

    ghost use Rattle.vab_bytes.specs.NameView.{held_again};

    ghost inverse_ok = { held_again };
}

impl PartialEq for Name36 {
    ghost eq = { pointwise nat_eq };

    ghost laws = { partial_equiv_from_equiv nat_list_eq_equiv };

    fn eq(&self, other: &Self) -> bool {
        self.text() == other.text()
    }
}

impl Eq for Name36 {
    ghost laws = { nat_list_eq_equiv };
}

/// The bytes are not a name.
#[derive(Clone, Copy, Debug, PartialEq, Eq)]
pub struct BadName;

fn is_name_byte(b: u8) -> bool
    ensures { result ≡ is_name_byte b }
{
    matches!(b, b'A'..=b'Z' | b'a'..=b'z' | b'0'..=b'9' | b'_' | b'.' | b'-')
}

fn are_name_bytes(bytes: &[u8]) -> bool
    ensures { result ≡ list_all is_name_byte bytes.now }
{
    bytes.iter().all(|b| is_name_byte(*b))
}

fn are_zeros(bytes: &[u8]) -> bool
    ensures { result ≡ list_all (λ b. b == 0) bytes.now }
{
    bytes.iter().all(|b| *b == 0)
}

#[tactic(auto, unfolding(crate::specs::Name::is_name))]
fn is_name(text: &[u8]) -> bool
    ensures { result ≡ is_name text.now }
{
    !text.is_empty() && text.len() <= MAX && are_name_bytes(text)
}

fn first_zero(bytes: &[u8]) -> Option<usize>
    ensures { result ≡ position (λ b. b == 0) bytes.now }
{
    bytes.iter().position(|b| *b == 0)
}

/// The bytes before the first zero, and those from there on.
fn split_at_zero(field: &[u8; 36]) -> (&[u8], &[u8])
    ensures text { result.0.now ≡ before_first (λ b. b == 0) field.now }
    ensures rest { result.1.now ≡ drop (length result.0.now) field.now }
{
    field.split_at(first_zero(field).unwrap_or(MAX))
}

/// The text, and zeros behind it.
fn field_of(text: &[u8]) -> [u8; 36]
    requires { length text.now ≤ 36 }
    ensures { result ≡ name_field text.now }
{
    let mut field = [0; 36];
    field[..text.len()].copy_from_slice(text);
    field
}

#[tactic(auto, unfolding(crate::specs::Name::name_of_field))]
fn name_in(field: &[u8; 36]) -> Option<Name36>
    ensures { result ≡ name_of_field field.now }
{
    let (text, rest) = split_at_zero(field);
    if are_zeros(rest) {
        Name36::parse(text).ok()
    } else {
        None
    }
}

impl Name36 {
    /// The name with this text; `BadName` where the text is no name.
    #[tactic(auto, using(crate::proofs::NameLaws::name_fits))]
    pub fn parse(text: &[u8]) -> Result<Name36, BadName>
        ensures ok { IfOk result (λ n. n ≡ text.now) }
        ensures exact { IsOk result ↔ IsName text.now }
    {
        if !is_name(text) {
            return Err(BadName);
        }
        Ok(Name36 {
            bytes: field_of(text),
            len: text.len(),
        })
    }

    /// The bytes of the name.
    pub fn text(&self) -> &[u8]
        ensures value { result.now ≡ self.now }
        ensures name { IsName self.now }
    {
        &self.bytes[..self.len]
    }

    /// The name that a field of the metadata has, with zeros behind it; `BadName` where the text
    /// before the first zero is no name, or another byte than zero stands behind it.
    pub fn from_field(field: &[u8; 36]) -> Result<Name36, BadName>
        ensures exact { result_ok result ≡ name_of_field field.now }
        ensures found { IfOk result (λ n. IsName n × (field.now ≡ name_field n)) }
        ensures only { (n : List ℕ) → IsName n → field.now ≡ name_field n → result ≡ Ok n }
    {
        name_in(field).ok_or(BadName)
    }

    /// The field of the metadata with this name, with zeros behind it.
    pub fn to_field(&self) -> [u8; 36]
        ensures { result ≡ name_field self.now }
    {
        self.bytes
    }
}
