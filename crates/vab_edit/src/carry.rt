//! A plan of another table that keeps what was written.

ghost use Rattle.std.specs.Prelude.{◌≡◌, ◌≢◌, ℕ, ◌<◌, AllPairs};
ghost use Rattle.std.specs.Prelude.{get_or, IfNone, IfSome, length, List, map};
ghost use Rattle.std.specs.Prelude.{None, Some};
ghost use Rattle.vab_edit.specs.Carried.{carried, planned_named, with_written};
ghost use Rattle.vab_edit.specs.Prepared.{carried_over, with_target};

use vab_bytes::{Listing, Name36};
use vab_device::{Device, Part, PartImage};
use vab_tables::Table;

// Where the first that is planned under this base name stands.
fn place(plan: &[Part], name: &Name36) -> Option<usize>
    ensures none { IfNone result (planned_named name.now plan.now ≡ None) }
    ensures within { IfSome result (λ i. i < length plan.now) }
    ensures first { IfSome result (λ i. (d : Part)
        → planned_named name.now plan.now ≡ Some (get_or plan.now i d)) }
    ensures is { IfSome result (λ i. (d : Part) → (get_or plan.now i d).name ≡ name.now) }
{
    for i in 0..plan.len() {
        if plan[i].name.text() == name.text() {
            return Some(i);
        }
    }
    None
}

// The first that is planned under this base name, which leaves the plan.
fn take(plan: &mut Vec<Part>, name: &Name36) -> Option<Part>
    ensures found { result ≡ planned_named name.now plan.old.items }
    ensures others { (n : List ℕ)
        → n ≢ name.now
        → planned_named n plan.new.items ≡ planned_named n plan.old.items }
{
    match place(plan.as_slice(), name) {
        None => None,
        Some(at) => Some(plan.remove(at)),
    }
}

// Gives a planned partition what was written to this one.
fn give(planned: &mut Part, old: Option<Part>)
    ensures { planned.new ≡ with_written planned.old old }
{
    match old {
        None => {}
        Some(
            Part {
                map,
                store,
                image,
                ..
            },
        ) => match image {
            PartImage::Kept => {}
            PartImage::Declared => {}
            PartImage::Written(chunk, view) => {
                planned.map = map;
                planned.store = store;
                planned.image = PartImage::Written(chunk, view);
            }
        },
    }
}

// Gives each partition of a plan what the one before it has written.
fn give_all(olds: Vec<Part>, plan: &mut Vec<Part>)
    requires { AllPairs (λ a b. a.name ≢ b.name) plan.old.items }
    ensures { plan.new.items ≡ map (carried olds.items) plan.old.items }
{
    let mut left = olds;
    for i in 0..plan.len() {
        let name = plan[i].name;
        let old = take(&mut left, &name);
        give(&mut plan[i], old);
    }
}

/// The device with another table of the target in this slot, and this plan with what was written.
pub fn with_table(device: Device, target: usize, table: Table, plan: Listing<Part>) -> Device
    requires { AllPairs (λ a b. a.name ≢ b.name) plan }
    ensures { result ≡ with_target device target table (carried_over device.plan plan) }
{
    let mut device = device;
    let plan = Some(carry(device.plan.take(), plan));
    if target == 0 {
        Device {
            table_a: Some(table),
            plan,
            ..device
        }
    } else {
        Device {
            table_b: Some(table),
            plan,
            ..device
        }
    }
}

// A plan with what the one before it has written.
fn carry(old: Option<Listing<Part>>, plan: Listing<Part>) -> Listing<Part>
    requires { AllPairs (λ a b. a.name ≢ b.name) plan }
    ensures { result ≡ carried_over old plan }
{
    match old {
        None => plan,
        Some(olds) => {
            let mut plan = plan.into_vec();
            give_all(olds.into_vec(), &mut plan);
            Listing::from_vec(plan)
        }
    }
}
