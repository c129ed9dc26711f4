//! Laws of the order of names.
ghost use Rattle.std.specs.Prelude.{List};
ghost use Rattle.vab_model.specs.declared.state.Image.{Image as ImageOfSlot};
ghost use Rattle.vab_model.specs.declared.state.PlanEntry.{PlanEntry};
ghost use Rattle.vab_status.specs.Order.{AreOrdered};

/// Images and planned partitions are told in the order of their names, each of them once.
pub fn names_in_order()
    ensures images { (images : List ImageOfSlot) → AreOrdered (λ i. i.name) images }
    ensures plan { (plan : List PlanEntry) → AreOrdered (λ e. e.name) plan }
{}
