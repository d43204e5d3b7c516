//! How fast an answer comes, and how long it may be.
ghost use Rattle.std.specs.Prelude.{◌≡◌, ◌+◌, ◌-◌, ◌*◌, ◌^◌, ◌<◌, ◌≤◌, ◌↔◌, ◌⊎◌, min, true};
ghost use Rattle.bayou_base.specs.declared.limits.TheConstants.{LEAST_BYTES_A_SECOND, RATE_SECONDS};
ghost use Rattle.bayou_serve.specs.Pacing.{waited_at};

use bayou_base::limits::{LEAST_BYTES_A_SECOND, MAX_WRITE_BYTES, MAX_WRITES, RATE_SECONDS};
use std::cell::Cell;

/// How many bytes an answer has at the most: an Item of each Write that there may be, each as long as one may be, and an End.
pub const ANSWER_BYTES: u64 = (MAX_WRITE_BYTES as u64 + 3) * MAX_WRITES as u64 + 7;

/// Whether it was waited so long for so many bytes that they came too slowly.
pub fn is_slow(waited: u64, bytes: u64) -> bool
    ensures { result ≡ true ↔ ((RATE_SECONDS * 1_000 ≤ waited) × (bytes < RATE_SECONDS * LEAST_BYTES_A_SECOND)) }
{
    waited >= RATE_SECONDS * 1_000 && bytes < RATE_SECONDS * LEAST_BYTES_A_SECOND
}

/// How an answer comes, in milliseconds of a clock.
#[derive(Clone, Copy, Debug, PartialEq, Eq)]
struct Course {
    /// Since when it is waited for the next bytes; [`AT_WORK`] where it isn't.
    since: u64,
    /// For how long it was waited, since the bytes were last found to come fast enough.
    waited: u64,
    /// How many came meanwhile.
    bytes: u64,
    /// How many came in all.
    all: u64,
}

const AT_WORK: u64 = u64::MAX;

impl Course {
    // Nothing came yet, and it isn't waited.
    fn new() -> Self
        ensures { (result.since ≡ AT_WORK) × (result.waited ≡ 0) × (result.bytes ≡ 0) × (result.all ≡ 0) }
    {
        Course {
            since: AT_WORK,
            waited: 0,
            bytes: 0,
            all: 0,
        }
    }

    // It was waited until now, and is from now on, or not.
    fn waited_until(self, now: u64, next: u64) -> Self
        ensures since { result.since ≡ next }
        ensures waited { result.waited ≡ waited_at self.waited self.since now }
        ensures others { (result.bytes ≡ self.bytes) × (result.all ≡ self.all) }
    {
        let more = now.saturating_sub(self.since);
        Course {
            since: next,
            waited: self.waited.saturating_add(more),
            bytes: self.bytes,
            all: self.all,
        }
    }

    // So many bytes came.
    fn came(self, now: u64, count: u64) -> Self
        ensures since { result.since ≡ AT_WORK }
        ensures waited { result.waited ≡ waited_at self.waited self.since now }
        ensures bytes { result.bytes ≡ min (self.bytes + count) (2 ^ 64 - 1) }
        ensures all { result.all ≡ min (self.all + count) (2 ^ 64 - 1) }
    {
        let course = self.waited_until(now, AT_WORK);
        Course {
            since: course.since,
            waited: course.waited,
            bytes: course.bytes.saturating_add(count),
            all: course.all.saturating_add(count),
        }
    }

    // It is waited for the next bytes from now on. Where those of a whole while came fast enough, the next while begins.
    fn looked(self, now: u64) -> Self
        ensures since { result.since ≡ now }
        ensures all { result.all ≡ self.all }
        ensures anew { RATE_SECONDS * 1_000 ≤ waited_at self.waited self.since now → RATE_SECONDS * LEAST_BYTES_A_SECOND ≤ self.bytes
            → (result.waited ≡ 0) × (result.bytes ≡ 0) }
        ensures on { (waited_at self.waited self.since now < RATE_SECONDS * 1_000) ⊎ (self.bytes < RATE_SECONDS * LEAST_BYTES_A_SECOND)
            → (result.waited ≡ waited_at self.waited self.since now) × (result.bytes ≡ self.bytes) }
    {
        let course = self.waited_until(now, now);
        if course.waited < RATE_SECONDS * 1_000 || is_slow(course.waited, course.bytes) {
            return course;
        }
        Course {
            since: now,
            waited: 0,
            bytes: 0,
            all: course.all,
        }
    }

    // Whether the bytes came too slowly until now, or are more than an answer has.
    fn is_lost(self, now: u64) -> bool
        ensures { result ≡ true ↔ ((RATE_SECONDS * 1_000 ≤ waited_at self.waited self.since now) × (self.bytes < RATE_SECONDS * LEAST_BYTES_A_SECOND)) ⊎ (ANSWER_BYTES < self.all) }
    {
        let course = self.waited_until(now, now);
        is_slow(course.waited, course.bytes) || course.all > ANSWER_BYTES
    }
}

/// How fast the bytes of an answer come, by how long it was waited for them: what is done with them meanwhile doesn't count.
#[derive(Drop)]
pub struct Pace(Cell<Course>);

impl Pace {
    /// Nothing came yet, and it isn't waited.
    pub fn new() -> Self {
        Pace(Cell::new(Course::new()))
    }

    /// So many bytes came.
    pub fn came(&self, now: u64, count: u64) {
        self.0.set(self.0.get().came(now, count));
    }

    /// Whether the bytes came too slowly, or are more than an answer has. It is waited for the next ones from now on.
    pub fn is_lost(&self, now: u64) -> bool {
        let course = self.0.get();
        self.0.set(course.looked(now));
        course.is_lost(now)
    }
}
