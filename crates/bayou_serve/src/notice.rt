//! When what lasts is reported again.
ghost use Rattle.std.specs.Prelude.{◌≡◌, ◌+◌, ◌-◌, ◌*◌, ◌^◌, ◌<◌, ◌≤◌, min, None, Some};
ghost use Rattle.bayou_base.specs.declared.limits.TheConstants.{NOTICE_SECONDS};

use crate::waiting::milliseconds;
use bayou_base::limits::NOTICE_SECONDS;
use std::sync::atomic::{AtomicU64, Ordering};
use std::time::Clock;

// From which moment on a line may be reported again, if it may be reported now: from `due` on it may.
fn due_behind(now: u64, due: u64) -> Option<u64>
    ensures early { now < due → result ≡ None }
    ensures next { due ≤ now → result ≡ Some (min (now + NOTICE_SECONDS * 1_000) (2 ^ 64 - 1)) }
{
    if now < due {
        return None;
    }
    Some(now.saturating_add(u64::from(NOTICE_SECONDS) * 1_000))
}

/// From which moment on a line about what lasts may be reported, in milliseconds of a clock. Threads share it: one of them tells the line.
#[derive(Drop)]
pub struct NoticeTime(AtomicU64);

impl NoticeTime {
    /// It wasn't reported yet.
    pub fn new() -> Self {
        NoticeTime(AtomicU64::new(0))
    }

    /// Whether the caller is to tell it now: then nobody is for [`NOTICE_SECONDS`].
    pub fn is_due<C: Clock>(&self, clock: &C) -> bool {
        let due = self.0.load(Ordering::SeqCst);
        match due_behind(milliseconds(clock), due) {
            Some(next) => self
                .0
                .compare_exchange(due, next, Ordering::SeqCst, Ordering::SeqCst)
                .is_ok(),
            None => false,
        }
    }
}
