//! How far a store's Writes are known to be final.
ghost use Rattle.std.specs.Prelude.{◌≡◌, ◌≤◌, ◌<◌, ℕ, List, IsTrue, ◌↔◌, Option, None, Some, false, true, length, replicate, slice_get, take};
ghost use Rattle.bayou_base.specs.declared.limits.TheConstants.{SERVERS as NUMBER};
ghost use Rattle.bayou_base.specs.Vector.{Covers, Dominates, joined};
ghost use Rattle.bayou_final.specs.Known.{AreRising, IsKnownFront};
ghost use Rattle.bayou_final.specs.Views.{AreChosen, AreHeard, heard_by, heard_with};
ghost use Rattle.bayou_lang.specs.Writes.{raised_by};

use crate::views::Views;
use bayou_base::{ServerId, Vector, Wid};
use bayou_lang::RestingWrite;

/// What was heard of the servers of a store, and how far its Writes are known to be final by that: of each server how many.
#[derive(Debug, Drop, PartialEq, Eq)]
pub struct Finality {
    count: u8,
    /// What servers told themselves.
    views: Views,
    /// What Writes tell of their servers.
    written: Views,
    finals: Vector,
    ghost number: { count ≤ NUMBER },
}

impl Finality {
    /// Of a store of so many servers, before anything is heard of them.
    pub fn new(count: u8) -> Self
        requires { count ≤ NUMBER }
        ensures { (result.count ≡ count) × (result.views ≡ replicate NUMBER None) × (result.written ≡ replicate NUMBER None) × (result.finals ≡ replicate NUMBER 0) }
    {
        Finality {
            count,
            views: Views::new(),
            written: Views::new(),
            finals: Vector::zero(),
        }
    }

    /// The same, of which so much is known to be final.
    pub fn with_finals(self, finals: Vector) -> Self
        ensures { (result.count ≡ self.count) × (result.views ≡ self.views) × (result.written ≡ self.written) × (result.finals ≡ finals) }
    {
        Finality {
            count: self.count,
            views: self.views,
            written: self.written,
            finals,
        }
    }

    /// How many servers the store has.
    pub fn count(&self) -> u8
        ensures value { result ≡ self.now.count }
        ensures within { result ≤ NUMBER }
    {
        self.count
    }

    /// What the servers told themselves.
    pub fn views(&self) -> &Views
        ensures { result.now ≡ self.now.views }
    {
        &self.views
    }

    /// Of each server how many of its Writes are known to be final.
    pub fn finals(&self) -> &Vector
        ensures { result.now ≡ self.now.finals }
    {
        &self.finals
    }

    /// Whether the Write is known to be final.
    pub fn is_final(&self, wid: Wid) -> bool
        ensures { IsTrue result ↔ Covers self.now.finals wid.origin.index wid.seq }
    {
        self.finals.covers(wid)
    }

    /// The server told this.
    pub fn hear(&mut self, server: ServerId, view: &Vector)
        ensures heard { self.new.views ≡ heard_with self.old.views server.index view.now }
        ensures same { (self.new.count ≡ self.old.count) × (self.new.written ≡ self.old.written) × (self.new.finals ≡ self.old.finals) }
    {
        self.views.hear(server, view);
    }

    /// Whether all that a server holds is final, where it told that it holds this, with what is final: each server is known to hold it. Then it is known to
    /// be so. The views are chosen as in [`Finality::go_on`].
    pub fn settle(&mut self, vector: &Vector) -> bool
        ensures settled { result ≡ true → (self.new.finals ≡ joined self.old.finals vector.now)
            × ((chosen : List (Option (List ℕ))) × AreChosen vector.now self.old.views self.old.written chosen
            × ((place : ℕ) → place < self.old.count → (view : List ℕ) × (slice_get chosen place ≡ Some (Some view)) × Dominates view vector.now)) }
        ensures same { result ≡ false → self.new ≡ self.old }
        ensures heard { (self.new.views ≡ self.old.views) × (self.new.written ≡ self.old.written) × (self.new.count ≡ self.old.count) }
    {
        let chosen = self.views.chosen(&self.written, vector);
        if !chosen.do_all_hold(self.count, vector) {
            return false;
        }
        self.finals = self.finals.join(vector);
        true
    }

    /// Goes on from what is known to be final, by the Writes that a server holds beyond, in stamp order, and that told before that it holds as much as this,
    /// what is final among it: how many of the Writes, from the first on, are final too. What they tell of their servers is heard first. Of each server that view
    /// counts by which it had made no more than the server holds: what it told itself, or else what its Writes tell.
    ///
    /// None is where the Writes don't come in stamp order: a server that takes Writes while it sends others sends those last that belong before.
    pub fn go_on(&mut self, vector: &Vector, writes: &[RestingWrite]) -> usize
        ensures within { result ≤ length writes.now }
        ensures heard { (self.new.written ≡ heard_by self.old.written writes.now) × (self.new.views ≡ self.old.views) × (self.new.count ≡ self.old.count) }
        ensures front { (chosen : List (Option (List ℕ))) × AreChosen (raised_by vector.now writes.now) self.new.views self.new.written chosen
            × (AreRising writes.now → (views : ℕ → List ℕ) → AreHeard self.new.count chosen views → IsKnownFront self.new.count views writes.now (take result writes.now))
            × (0 < result → (place : ℕ) → place < self.new.count → (view : List ℕ) × (slice_get chosen place ≡ Some (Some view))) }
        ensures order { 0 < result → AreRising writes.now }
        ensures finals { self.new.finals ≡ raised_by self.old.finals (take result writes.now) }
    {
        self.written.hear_all(writes);
        let mut held = *vector;
        raise_all(&mut held, writes);
        let chosen = self.views.chosen(&self.written, &held);
        let number = if are_rising(writes) {
            chosen.known_front(self.count, writes)
        } else {
            0
        };
        raise_all(&mut self.finals, &writes[..number]);
        number
    }
}

// Whether each of the Writes comes before the next one by its stamp.
fn are_rising(writes: &[RestingWrite]) -> bool
    ensures { IsTrue result ↔ AreRising writes.now }
{
    for at in 1..writes.len() {
        if !writes[at - 1].stamp().is_before(writes[at].stamp()) {
            return false;
        }
    }
    true
}

// Counts each of the Writes.
fn raise_all(counts: &mut Vector, writes: &[RestingWrite])
    ensures { counts.new ≡ raised_by counts.old writes.now }
{
    for write in writes {
        counts.raise(write.wid());
    }
}
