ghost use Rattle.std.specs.Prelude.{◌≡◌, ℕ, ◌≤◌, ◌↔◌, ◌⊎◌, All, IsTrue, IsSome, IfSome, replicate, slice_index, sum};
ghost use Rattle.bayou_base.specs.declared.limits.TheConstants.{SERVERS, MAX_WRITES};
ghost use Rattle.bayou_base.specs.Vector.{AreCounts, Covers, CoversAllOf, Dominates, joined, raised};

use crate::limits::{MAX_WRITES, SERVERS};
use crate::server::ServerId;
use crate::wid::Wid;
use std::marker::Model;

/// A version vector (Terry et al. 1994): for each server the number of its Writes that are held.
#[derive(Clone, Copy, Debug, PartialEq, Eq)]
pub struct Vector {
    counts: [u32; SERVERS],
}

impl Model for Vector {
    ghost use Rattle.std.specs.Prelude.{List, ℕ};
    ghost use Rattle.bayou_base.specs.Vector.{AreCounts};

    ghost Value = { List ℕ };

    ghost view = { λ v. v.counts };

    ghost invariant = { λ v. AreCounts v.counts };

    ghost inverse = { λ counts. record { counts = counts } };
}

fn none_smaller(counts: &[u32; SERVERS], least: &[u32; SERVERS]) -> bool
    ensures { IsTrue result ↔ Dominates counts.now least.now }
{
    counts
        .iter()
        .zip(least)
        .all(|(count, least)| least <= count)
}

fn greater_counts(counts: &[u32; SERVERS], others: &[u32; SERVERS]) -> [u32; SERVERS]
    ensures { result ≡ joined counts.now others.now }
{
    let mut greater = *counts;
    for server in 0..SERVERS {
        greater[server] = greater[server].max(others[server]);
    }
    greater
}

impl Vector {
    /// The vector that counts no Write.
    pub fn zero() -> Self
        ensures { result ≡ replicate SERVERS 0 }
    {
        Vector {
            counts: [0; SERVERS],
        }
    }

    /// The vector of these counts, or `None` where one is greater than a log can hold.
    pub fn from_counts(counts: [u32; SERVERS]) -> Option<Self>
        ensures within { IsSome result ↔ All (λ count. count ≤ MAX_WRITES) counts }
        ensures value { IfSome result (λ vector. vector ≡ counts) }
    {
        if counts.iter().all(|count| *count <= MAX_WRITES) {
            Some(Vector { counts })
        } else {
            None
        }
    }

    /// The counts, one for each server.
    pub fn counts(&self) -> &[u32; SERVERS]
        ensures value { result.now ≡ self.now }
        ensures valid { AreCounts result.now }
    {
        &self.counts
    }

    /// How many Writes of the server it counts.
    pub fn get(&self, server: ServerId) -> u32
        ensures value { result ≡ slice_index self.now server.index }
        ensures in_range { result ≤ MAX_WRITES }
    {
        self.counts[usize::from(server.index)]
    }

    /// Whether it counts the Write.
    pub fn covers(&self, wid: Wid) -> bool
        ensures { IsTrue result ↔ Covers self.now wid.origin.index wid.seq }
    {
        wid.seq <= self.get(wid.origin)
    }

    /// Whether no count is smaller than the other's.
    pub fn dominates(&self, other: &Vector) -> bool
        ensures counts { IsTrue result ↔ Dominates self.now other.now }
        ensures writes { IsTrue result ↔ CoversAllOf self.now other.now }
    {
        none_smaller(&self.counts, &other.counts)
    }

    /// For each server the greater of the two counts.
    pub fn join(&self, other: &Vector) -> Vector
        ensures counts { result ≡ joined self.now other.now }
        ensures writes { (server seq : ℕ) → Covers result server seq ↔ (Covers self.now server seq ⊎ Covers other.now server seq) }
    {
        Vector {
            counts: greater_counts(&self.counts, &other.counts),
        }
    }

    /// How many Writes it counts.
    pub fn total(&self) -> u32
        ensures { result ≡ sum self.now }
    {
        let mut sum: u32 = 0;
        for count in &self.counts {
            sum += *count;
        }
        sum
    }

    /// Counts the Write, and so all of its server's before it.
    pub fn raise(&mut self, wid: Wid)
        ensures { self.new ≡ raised self.old wid }
    {
        let server = usize::from(wid.origin.index);
        self.counts[server] = self.counts[server].max(wid.seq);
    }
}
