ghost use Rattle.std.specs.Prelude.{◌≡◌, ◌<◌, ◌≤◌, length};
ghost use Rattle.bayou_base.specs.declared.limits.TheConstants.{SERVERS as SERVERS_NUMBER};

use arrayvec::ArrayVec;
use bayou_base::{Entry, SERVERS};
use bayou_lang::RestingWrite;

/// What was filed so far and what the servers hold, as they lie in the machine: a run may have tens of thousands of them, so that a copy would
/// be a third of what the run takes.
#[derive(Drop)]
pub struct Lent<'a> {
    /// How many servers there are.
    pub count: u8,
    /// What became of each operation, in the order in which they were filed.
    pub entries: &'a [Entry],
    /// What each server holds, in order of receipt.
    pub dumps: ArrayVec<&'a [RestingWrite], SERVERS>,
    pub ghost count_in_range: { (0 < count) × (count ≤ SERVERS_NUMBER) },
    pub ghost one_each: { length dumps.items ≡ count },
}
