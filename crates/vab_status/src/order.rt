//! Partitions in the order of their names.
ghost use Rattle.std.specs.Prelude.{◌≡◌, ◌≤◌, length, map, IfOk};
ghost use Rattle.std.specs.List.{insert};
ghost use Rattle.vab_status.specs.Page as texts;

use std::alloc::Global;
use std::cmp::Ordering;
use vab_device::Part;
use vab_model::NoMemory;

// Whether a partition's name stands before another's, byte by byte.
fn is_before(part: &Part, other: &Part) -> bool
    ensures { result ≡ texts.is_before part.now.name other.now.name }
{
    part.name.text().cmp(other.name.text()) == Ordering::Less
}

// Where a partition is put into such a list: before the first whose name doesn't stand before its
// own.
fn place_of(part: &Part, sorted: &[&Part]) -> usize
    ensures within { result ≤ length sorted.now }
    ensures place { insert (map (λ p. p.now) sorted.now) result part.now
        ≡ texts.put_by (λ p. p.name) part.now (map (λ p. p.now) sorted.now) }
{
    for (i, other) in sorted.iter().enumerate() {
        if !is_before(other, part) {
            return i;
        }
    }
    sorted.len()
}

/// These partitions by their names.
pub(crate) fn by_name<'a>(alloc: Global, parts: &'a [Part]) -> Result<Vec<&'a Part>, NoMemory>
    ensures { IfOk result
        (λ sorted. map (λ p. p.now) sorted.items ≡ texts.by_name (λ p. p.name) parts.now) }
{
    let mut sorted = Vec::new(alloc);
    for i in (0..parts.len()).rev() {
        let part = &parts[i];
        let place = place_of(part, &sorted);
        sorted.insert(place, part)?;
    }
    Ok(sorted)
}
