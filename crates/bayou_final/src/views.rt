//! What servers told of what they hold.
ghost use Rattle.std.specs.Prelude.{◌≡◌, ◌≤◌, ◌<◌, ◌↔◌, ◌∷◌, [], ℕ, List, IsTrue, None, Some, option_copied, replicate, slice_get, slice_index_or, slice_set, length, take, false, true};
ghost use Rattle.bayou_base.specs.declared.limits.TheConstants.{SERVERS as NUMBER};
ghost use Rattle.bayou_base.specs.Vector.{Covers, Dominates};
ghost use Rattle.bayou_final.specs.Known.{IsKnown, IsKnownFront};
ghost use Rattle.bayou_final.specs.Views.{AreChosen, AreHeard, beside, either, heard_by, heard_with, within};

use bayou_base::{SERVERS, ServerId, Vector, Wid};
use bayou_lang::RestingWrite;
use std::marker::Model;

/// What was heard of each server: its views, joined, or nothing.
#[derive(Debug, Drop, PartialEq, Eq)]
pub struct Views {
    each: [Option<Vector>; SERVERS],
}

impl Model for Views {
    ghost use Rattle.std.specs.Prelude.{List, Option, ℕ};

    ghost Value = { List (Option (List ℕ)) };

    ghost view = { λ v. v.each };

    ghost inverse = { λ each. record { each = each } };
}

// Whether this was heard, and counts the Write.
fn does_cover(heard: Option<&Vector>, wid: Wid) -> bool
    ensures { IsTrue result ↔ ((view : List ℕ) × (option_copied heard.entry ≡ Some view) × Covers view wid.origin.index wid.seq) }
{
    match heard {
        Some(view) => view.covers(wid),
        None => false,
    }
}

// Whether this was heard, and counts all that the vector does.
fn does_hold(heard: Option<&Vector>, vector: &Vector) -> bool
    ensures { result ≡ true → (view : List ℕ) × (option_copied heard.entry ≡ Some view) × Dominates view vector.now }
{
    match heard {
        Some(view) => view.dominates(vector),
        None => false,
    }
}

// The view of the server, unless it had made more by it than the vector counts.
fn view_within(heard: Option<&Vector>, server: ServerId, vector: &Vector) -> Option<Vector>
    ensures { result ≡ within vector.now server.index (option_copied heard.entry) }
{
    match heard {
        Some(view) if view.get(server) <= vector.get(server) => Some(*view),
        _ => None,
    }
}

// What is known of a server, by what was heard of it and now this view.
fn joined_with(heard: &Option<Vector>, view: &Vector) -> Vector
    ensures { Some result ≡ beside heard.now view.now }
{
    match heard {
        Some(before) => before.join(view),
        None => *view,
    }
}

impl Views {
    /// Nothing was heard yet.
    pub fn new() -> Self
        ensures { result ≡ replicate NUMBER None }
    {
        Views {
            each: [None; SERVERS],
        }
    }

    /// What was heard of the server, if anything was.
    pub fn of(&self, server: ServerId) -> Option<&Vector>
        ensures { slice_get self.now server.index ≡ Some (option_copied result) }
    {
        self.each[usize::from(server.index)].as_ref()
    }

    /// The server told this.
    pub fn hear(&mut self, server: ServerId, view: &Vector)
        ensures { self.new ≡ heard_with self.old server.index view.now }
    {
        let at = usize::from(server.index);
        self.each[at] = Some(joined_with(&self.each[at], view));
    }

    // The server of the Write told what it says, and then held it too.
    fn hear_by(&mut self, write: &RestingWrite)
        ensures { self.new ≡ heard_by self.old (write.now ∷ []) }
    {
        let wid = write.wid();
        let mut view = *write.deps();
        view.raise(wid);
        self.hear(wid.origin, &view);
    }

    /// What the Writes tell of their servers, one after another.
    pub fn hear_all(&mut self, writes: &[RestingWrite])
        ensures { self.new ≡ heard_by self.old writes.now }
    {
        for write in writes {
            self.hear_by(write);
        }
    }

    /// Whether each of the first so many servers is known to hold the Write.
    pub fn is_known(&self, count: u8, wid: Wid) -> bool
        requires { count ≤ NUMBER }
        ensures known { result ≡ true → (place : ℕ) → place < count → (view : List ℕ) × (slice_get self.now place ≡ Some (Some view)) × Covers view wid.origin.index wid.seq }
        ensures unknown { result ≡ false → (views : ℕ → List ℕ) → AreHeard count self.now views → ¬ IsKnown count views wid }
    {
        for index in 0..count {
            if !does_cover(self.of(ServerId { index }), wid) {
                return false;
            }
        }
        true
    }

    // Of the server this is known.
    fn set(&mut self, server: ServerId, heard: Option<Vector>)
        ensures { self.new ≡ slice_set self.old server.index heard }
    {
        self.each[usize::from(server.index)] = heard;
    }

    // Of the server its view of these, and else of the others, by which it had made no more than the vector counts.
    fn chosen_of(&self, others: &Views, server: ServerId, vector: &Vector) -> Option<Vector>
        ensures { result ≡ either (within vector.now server.index (slice_index_or self.now server.index None)) (within vector.now server.index (slice_index_or others.now server.index None)) }
    {
        let first = view_within(self.of(server), server, vector);
        let second = view_within(others.of(server), server, vector);
        first.or(second)
    }

    /// Of each server its view of these, and else of the others, by which it had made no more than the vector counts.
    pub fn chosen(&self, others: &Views, vector: &Vector) -> Views
        ensures { AreChosen vector.now self.now others.now result }
    {
        let mut chosen = Views::new();
        for index in 0..SERVERS as u8 {
            let server = ServerId { index };
            chosen.set(server, self.chosen_of(others, server, vector));
        }
        chosen
    }

    /// Whether each of the first so many servers is known to hold all that the vector counts.
    pub fn do_all_hold(&self, count: u8, vector: &Vector) -> bool
        requires { count ≤ NUMBER }
        ensures { result ≡ true → (place : ℕ) → place < count → (view : List ℕ) × (slice_get self.now place ≡ Some (Some view)) × Dominates view vector.now }
    {
        for index in 0..count {
            if !does_hold(self.of(ServerId { index }), vector) {
                return false;
            }
        }
        true
    }

    /// How many of the Writes, from the first on, each of the first so many servers is known to hold.
    pub fn known_front(&self, count: u8, writes: &[RestingWrite]) -> usize
        requires { count ≤ NUMBER }
        ensures within { result ≤ length writes.now }
        ensures front { (views : ℕ → List ℕ) → AreHeard count self.now views → IsKnownFront count views writes.now (take result writes.now) }
        ensures heard { 0 < result → (place : ℕ) → place < count → (view : List ℕ) × (slice_get self.now place ≡ Some (Some view)) }
    {
        for at in 0..writes.len() {
            if !self.is_known(count, writes[at].wid()) {
                return at;
            }
        }
        writes.len()
    }
}
