//! What is told of the partitions that are planned.
ghost use Rattle.std.specs.Prelude.{◌≡◌, ◌++◌, ℕ, map, OnOk};
ghost use Rattle.std.specs.List.{flat_map};
ghost use Rattle.vab_device.specs.Kept.{ArePresent};
ghost use Rattle.vab_status.specs.Kept as kept;

use crate::line::plan_line;
use crate::order::by_name;
use crate::page::push_line;
use std::alloc::Global;
use vab_bytes::Listing;
use vab_device::Part;
use vab_model::NoMemory;

// The lines of planned partitions, in this order.
fn push_planned(parts: &[&Part], page: &mut Vec<u8>) -> Result<(), NoMemory>
    requires { kept.AreSmall (map (λ p. p.now) parts.now) }
    ensures { OnOk result (page.new.items
        ≡ page.old.items ++ flat_map kept.plan_line (map (λ p. p.now) parts.now)) }
{
    for part in parts {
        push_line(&plan_line(part), page)?;
    }
    Ok(())
}

/// The lines of the partitions that are planned, while an update is installed.
pub(crate) fn push_plan(
    alloc: Global,
    plan: &Option<Listing<Part>>,
    page: &mut Vec<u8>,
) -> Result<(), NoMemory>
    requires { (size : ℕ) × ArePresent size plan.now }
    ensures { OnOk result (page.new.items ≡ page.old.items ++ kept.plan_page plan.now) }
{
    match plan {
        None => Ok(()),
        Some(plan) => push_planned(&by_name(alloc, plan.as_slice())?, page),
    }
}
