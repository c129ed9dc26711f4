//! Which slot is booted, and what a boot and the commands on slots change.

ghost use Rattle.std.specs.Prelude.{◌≡◌, ◌<◌, ℕ, IfSome, IfNone};
ghost use Rattle.vab_bootctl.specs.Control.{Fits};
ghost use Rattle.vab_bootctl.specs.Boot.{is_bootable, IsBootable, IsChosen, chosen_of, booted_of};
ghost use Rattle.vab_bootctl.specs.Boot.{activated_of, marked_of, after_try, active, demoted};
ghost use Rattle.vab_bootctl.specs.Boot.{proven};

use crate::slots::{Control, Info};

/// The tries of a slot that becomes active.
const TRIES: u8 = 6;
/// The highest priority.
const HIGHEST: u8 = 15;

impl Info {
    /// Whether a slot with this info may be booted, where it has images.
    fn is_bootable(&self, has_images: bool) -> bool
        ensures { result ≡ is_bootable has_images self.now }
    {
        has_images && self.priority > 0 && (self.successful || self.tries > 0)
    }

    fn after_try(self) -> Info
        ensures { result ≡ after_try self }
    {
        if self.successful {
            return self;
        }
        Info {
            tries: self.tries.saturating_sub(1),
            ..self
        }
    }

    fn active(self) -> Info
        ensures { result ≡ active self }
    {
        Info {
            priority: HIGHEST,
            tries: TRIES,
            ..self
        }
    }

    fn demoted(self) -> Info
        ensures { result ≡ demoted self }
    {
        if self.priority != HIGHEST {
            return self;
        }
        Info {
            priority: HIGHEST - 1,
            ..self
        }
    }

    fn proven(self) -> Info
        ensures { result ≡ proven self }
    {
        Info {
            tries: 0,
            successful: true,
            ..self
        }
    }
}

#[tactic(auto, unfolding(crate::specs::Boot::chosen_of))]
fn chosen(control: &Control, has: [bool; 2]) -> Option<usize>
    ensures { result ≡ chosen_of control.now has }
{
    let a = control.a.is_bootable(has[0]);
    let b = control.b.is_bootable(has[1]);
    if a && (!b || control.a.priority >= control.b.priority) {
        Some(0)
    } else if b {
        Some(1)
    } else {
        None
    }
}

/// The slot that the next boot takes; `has` says of a and b whether they have images. A slot with
/// images is bootable where its priority is above 0 and it is successful or has tries left. The
/// bootable slot of the higher priority is taken, a on a tie, and `None` is where none is bootable.
pub fn choose(control: &Control, has: [bool; 2]) -> Option<usize>
    ensures exact { result ≡ chosen_of control.now has }
    ensures some { IfSome result (λ slot. IsChosen control.now has slot) }
    ensures none { IfNone result ((slot : ℕ) → IsBootable control.now has slot → ⊥) }
{
    chosen(control, has)
}

/// Boot control after a boot: the slot taken is current, and loses a try where it is not
/// successful. Where no slot is bootable nothing changes.
#[tactic(auto, unfolding(crate::specs::Boot::booted_of))]
pub fn booted(control: &Control, has: [bool; 2]) -> Control
    ensures exact { result ≡ booted_of control.now has }
    ensures fits { Fits control.now → Fits result }
{
    match chosen(control, has) {
        None => *control,
        Some(0) => Control {
            current: 0,
            a: control.a.after_try(),
            ..*control
        },
        Some(_) => Control {
            current: 1,
            b: control.b.after_try(),
            ..*control
        },
    }
}

/// Boot control after this slot was set active: it has priority 15 and six tries, and stays
/// successful if it was; another slot's priority 15 becomes 14. `current` stays.
#[tactic(auto, unfolding(crate::specs::Boot::activated_of))]
pub fn activated(control: &Control, slot: usize) -> Control
    requires { slot < 2 }
    ensures exact { result ≡ activated_of control.now slot }
    ensures fits { Fits control.now → Fits result }
{
    if slot == 0 {
        Control {
            a: control.a.active(),
            b: control.b.demoted(),
            ..*control
        }
    } else {
        Control {
            a: control.a.demoted(),
            b: control.b.active(),
            ..*control
        }
    }
}

/// Boot control after the current slot was marked as one that works: it is successful, with no
/// tries.
#[tactic(auto, unfolding(crate::specs::Boot::marked_of))]
pub fn marked(control: &Control) -> Control
    ensures exact { result ≡ marked_of control.now }
    ensures fits { Fits control.now → Fits result }
{
    if control.current == 0 {
        Control {
            a: control.a.proven(),
            ..*control
        }
    } else {
        Control {
            b: control.b.proven(),
            ..*control
        }
    }
}
