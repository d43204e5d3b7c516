//! Whether a Write may follow those that a server held.
ghost use Rattle.std.specs.Prelude.{◌≡◌, ℕ, ◌<◌, ◌≤◌, ◌↔◌, IsTrue, slice_index};
ghost use Rattle.bayou_base.specs.declared.limits.TheConstants.{SERVERS, MAX_WRITES};
ghost use Rattle.bayou_base.specs.Vector.{Dominates};
ghost use Rattle.bayou_lang.specs.Writes.{count_of, covered_by, greatest_clock, AreFitting, Fits, HasNoGap, IsWellStamped};
ghost use Rattle.bayou_lang.specs.Laws.Clocks.{IsLastClock};
ghost use Rattle.bayou_judge.specs.Inner.Index.{IsIndexOf};

use crate::finding::find;
use crate::index::Index;
use bayou_base::{SERVERS, ServerId, Vector, Wid};
use bayou_lang::RestingWrite;

/// The greatest clock of those of the server's Writes that the counts cover, all of which are held: that of the last of them.
fn last_clock(held: &[RestingWrite], index: &Index, counts: &Vector, server: usize) -> u32
    requires server { server < SERVERS }
    requires fitting { (count : ℕ) × AreFitting count held.now }
    requires indexed { IsIndexOf held.now index.now }
    requires within { Dominates (count_of held.now) counts.now }
    ensures value { IsLastClock server (slice_index counts.now server) held.now result }
    ensures in_range { result ≤ MAX_WRITES }
{
    // Most counts are 0.
    if counts.counts()[server] == 0 {
        return 0;
    }
    let Some(origin) = ServerId::new(server as u8) else {
        unreachable!();
    };
    let Some(wid) = Wid::new(origin, counts.get(origin)) else {
        return 0;
    };
    match find(held, index, wid) {
        Some(write) => write.stamp().clock,
        None => 0,
    }
}

/// The greatest clock among the Writes that the counts cover, all of which are held.
fn clock_among(held: &[RestingWrite], index: &Index, counts: &Vector) -> u32
    requires fitting { (count : ℕ) × AreFitting count held.now }
    requires indexed { IsIndexOf held.now index.now }
    requires within { Dominates (count_of held.now) counts.now }
    ensures value { result ≡ greatest_clock (covered_by counts.now held.now) }
    ensures in_range { result ≤ MAX_WRITES }
{
    let mut clock = 0;
    for server in 0..SERVERS {
        clock = clock.max(last_clock(held, index, counts, server));
    }
    clock
}

/// Whether no Write before this one is missing.
fn has_no_gap(count: u8, held: &[RestingWrite], index: &Index, write: &RestingWrite) -> bool
    requires { IsIndexOf held.now index.now }
    ensures { IsTrue result ↔ HasNoGap count held.now write.now }
{
    let vector = index.vector();
    write.wid().origin.index < count
        && write.wid().seq == vector.get(write.wid().origin) + 1
        && vector.dominates(write.deps())
}

/// Whether its server held all of its own before it, and its clock is the next.
fn is_well_stamped(held: &[RestingWrite], index: &Index, write: &RestingWrite) -> bool
    requires fitting { (count : ℕ) × AreFitting count held.now }
    requires indexed { IsIndexOf held.now index.now }
    requires within { Dominates (count_of held.now) write.now.deps }
    ensures { IsTrue result ↔ IsWellStamped held.now write.now }
{
    write.deps().get(write.wid().origin) + 1 == write.wid().seq
        && write.stamp().clock == clock_among(held, index, write.deps()) + 1
}

/// Whether the Write may follow those that are held.
pub(crate) fn fits(count: u8, held: &[RestingWrite], index: &Index, write: &RestingWrite) -> bool
    requires fitting { AreFitting count held.now }
    requires indexed { IsIndexOf held.now index.now }
    ensures { IsTrue result ↔ Fits count held.now write.now }
{
    has_no_gap(count, held, index, write) && is_well_stamped(held, index, write)
}
