//! How many Writes of each server stand in a list, and how far their clocks go.
ghost use Rattle.std.specs.Prelude.{◌≡◌, ◌≢◌, ◌<◌, ◌++◌, ◌∷◌, [], List, MatchOption, slice_index};
ghost use Rattle.bayou_base.specs.Vector.{Dominates};
ghost use Rattle.bayou_base.specs.declared.limits.TheConstants.{SERVERS};
ghost use Rattle.bayou_lang.specs.Writes.{count_of, covered_by, greatest_clock};
ghost use Rattle.bayou_lang.specs.declared.write.Write.{Write};

use bayou_base::{SERVERS, Vector};
use bayou_lang::RestingWrite;

/// How many of the Writes each server accepted.
pub fn counts_of(writes: &[RestingWrite]) -> [usize; SERVERS]
    ensures { result ≡ count_of writes.now }
{
    let mut counts = [0usize; SERVERS];
    for at in 0..writes.len() {
        let origin = usize::from(writes[at].wid().origin.index);
        counts[origin] += 1;
    }
    counts
}

// The greatest clock with one more Write.
fn clock_with(clock: u32, counts: &Vector, write: &RestingWrite) -> u32
    ensures { (writes : List Write) → clock ≡ greatest_clock (covered_by counts.now writes) → result ≡ greatest_clock (covered_by counts.now (writes ++ write.now ∷ [])) }
{
    if counts.covers(write.wid()) {
        clock.max(write.stamp().clock)
    } else {
        clock
    }
}

/// The greatest clock of those of the Writes that the vector counts; 0 where there are none.
pub(crate) fn clock_among(writes: &[RestingWrite], counts: &Vector) -> u32
    ensures { result ≡ greatest_clock (covered_by counts.now writes.now) }
{
    let mut clock = 0;
    for write in writes {
        clock = clock_with(clock, counts, write);
    }
    clock
}

/// The first server of whose Writes the vector counts more than there are.
pub(crate) fn exceeding(vector: &Vector, counts: &[usize; SERVERS]) -> Option<usize>
    ensures { MatchOption result (Dominates counts.now vector.now) (λ server. (server < SERVERS) × (slice_index counts.now server < slice_index vector.now server)) }
{
    for server in 0..SERVERS {
        if counts[server] < vector.counts()[server] as usize {
            return Some(server);
        }
    }
    None
}

/// The first server of whose Writes the vector counts another number than there are.
pub(crate) fn differing(vector: &Vector, counts: &[usize; SERVERS]) -> Option<usize>
    ensures { MatchOption result (vector.now ≡ counts.now) (λ server. (server < SERVERS) × (slice_index vector.now server ≢ slice_index counts.now server)) }
{
    let counted = vector.counts();
    for server in 0..SERVERS {
        if counted[server] as usize != counts[server] {
            return Some(server);
        }
    }
    None
}
