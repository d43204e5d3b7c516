//! When a line says again that a server lost Writes of its own.
ghost use Rattle.std.specs.Prelude.{◌≡◌, ◌-◌, ◌↔◌, if◌then◌else◌, nat_eq, true};
ghost use Rattle.bayou_base.specs.declared.limits.TheConstants.{LOOK_SECONDS, LOST_SECONDS};

use bayou_base::limits::{LOOK_SECONDS, LOST_SECONDS};

/// How many seconds are left until it is reported again; none before it was reported.
#[derive(Clone, Copy, Debug, PartialEq, Eq)]
pub struct Reminder {
    left: u32,
}

impl Reminder {
    /// It wasn't reported yet.
    pub fn new() -> Self
        ensures { result.left ≡ 0 }
    {
        Reminder { left: 0 }
    }

    /// Whether to report it at this look, after which the next one comes [`LOOK_SECONDS`] later.
    pub fn look(&mut self) -> bool
        ensures due { result ≡ true ↔ self.old.left ≡ 0 }
        ensures left { self.new.left ≡ (if nat_eq self.old.left 0 then LOST_SECONDS else self.old.left) - LOOK_SECONDS }
    {
        let is_due = self.left == 0;
        let left = if is_due { LOST_SECONDS } else { self.left };
        self.left = left.saturating_sub(LOOK_SECONDS);
        is_due
    }
}
