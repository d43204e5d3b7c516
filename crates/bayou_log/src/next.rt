//! The Write that the server of a log makes next, and what it reads of the Writes held for that.
ghost use Rattle.std.specs.Prelude.{◌≡◌, ◌<◌, ◌≤◌, length};
ghost use Rattle.bayou_base.specs.declared.limits.TheConstants.{MAX_WRITES};
ghost use Rattle.bayou_lang.specs.Writes.{AreFitting, IsNextWrite, count_of, greatest_clock};

use crate::write_log::WriteLog;
use bayou_base::{ServerId, Stamp, Vector, Wid};
use bayou_lang::{RestingProgram, RestingWrite};

/// For each server the number of its Writes among these, and the greatest clock, 0 where there is none. It looks at each Write.
pub(crate) fn counts_and_clock(count: u8, writes: &[RestingWrite]) -> (Vector, u32)
    requires { AreFitting count writes.now }
    ensures { (result.0 ≡ count_of writes.now) × (result.1 ≡ greatest_clock writes.now) }
{
    let mut vector = Vector::zero();
    let mut clock: u32 = 0;
    for write in writes {
        vector.raise(write.wid());
        clock = clock.max(write.stamp().clock);
    }
    (vector, clock)
}

impl WriteLog {
    /// The Write that the server `origin`, which holds the Writes of this log, makes of the program. The log stays.
    pub fn next_write(&self, origin: ServerId, program: RestingProgram) -> RestingWrite
        requires room { length self.now.receipts < self.now.limit }
        requires limit { self.now.limit ≤ MAX_WRITES }
        ensures { IsNextWrite self.now.receipts origin.index program result }
    {
        let deps = self.vector();
        let wid = Wid {
            origin,
            seq: deps.get(origin) + 1,
        };
        let stamp = Stamp {
            clock: self.clock() + 1,
            origin,
        };
        RestingWrite::new(wid, stamp, deps, program)
    }
}
