//! How long a whole reply is waited for.
ghost use Rattle.std.specs.Prelude.{◌≡◌, ◌+◌, ◌-◌, ◌*◌, ◌/◌, ◌<◌, ◌≤◌, ◌^◌, MatchOption, min};
ghost use Rattle.bayou_base.specs.declared.limits.TheConstants.{LEAST_BYTES_A_SECOND};

use bayou_base::limits::LEAST_BYTES_A_SECOND;
use std::time::Clock;

/// How many milliseconds a second has.
const SECOND: u64 = 1_000;

/// The milliseconds of a clock. One that can't be read stands still.
pub(crate) fn milliseconds<C: Clock>(clock: &C) -> u64 {
    match clock.monotonic() {
        Ok(now) => u64::try_from(now.as_millis()).unwrap_or(u64::MAX),
        Err(_) => 0,
    }
}

/// When a whole reply is to be there, in milliseconds of a clock.
#[derive(Clone, Copy, Debug, PartialEq, Eq)]
pub struct Deadline {
    latest: u64,
}

impl Deadline {
    /// So many seconds from now.
    pub fn new(now: u64, seconds: u32) -> Self
        ensures { result.latest ≡ min (now + seconds * 1000) (2 ^ 64 - 1) }
    {
        Deadline {
            latest: now.saturating_add(u64::from(seconds) * SECOND),
        }
    }

    /// How many milliseconds are left, unless it is over.
    pub fn left(self, now: u64) -> Option<u64>
        ensures { MatchOption result (self.latest ≤ now) (λ left. (0 < left) × (now + left ≡ self.latest)) }
    {
        match self.latest.checked_sub(now) {
            None | Some(0) => None,
            left => left,
        }
    }

    /// So many bytes of the reply came: it is waited for a second more for each [`LEAST_BYTES_A_SECOND`].
    pub fn extend(&mut self, count: u64)
        requires { count ≤ 2 ^ 32 }
        ensures { self.new.latest ≡ min (self.old.latest + count * 1000 / LEAST_BYTES_A_SECOND) (2 ^ 64 - 1) }
    {
        self.latest = self
            .latest
            .saturating_add(count * SECOND / LEAST_BYTES_A_SECOND);
    }
}
