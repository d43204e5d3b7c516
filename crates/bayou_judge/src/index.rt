//! What is known of a dump once it was gone through.
ghost use Rattle.std.specs.Prelude.{◌≡◌, ◌≢◌, ℕ, ◌+◌, ◌<◌, ◌≤◌, List, [], ◌∷◌, ◌++◌, OnOk, length, map, take, vec_items};
ghost use Rattle.bayou_lang.specs.declared.write.Write.{Write};
ghost use Rattle.bayou_lang.specs.Writes.{count_of, AreFitting, Fits};
ghost use Rattle.bayou_judge.specs.Inner.Index.{later_of, places_of, IsIndexOf, IsLastOf, IsPlaceOf};

use bayou_base::{SERVERS, Stamp, Vector, Wid};
use bayou_lang::RestingWrite;
use std::alloc::{AllocError, Global};
use std::array;
use std::marker::Model;

/// The counts and the last stamp up to each Write of a list, and the place of each name.
#[derive(Drop)]
pub(crate) struct Index {
    counts: Vec<Vector>,
    lasts: Vec<Stamp>,
    // For each server the places of its Writes, in the order of their sequence numbers.
    places: [Vec<usize>; SERVERS],
}

impl Model for Index {
    ghost use Rattle.std.specs.Prelude.{◌≡◌, length, map, vec_items};
    ghost use Rattle.bayou_base.specs.declared.limits.TheConstants.{SERVERS};
    ghost use Rattle.bayou_judge.specs.Inner.Index.{Tables};

    ghost Value = { Tables };

    ghost view = { λ i. record { counts = i.counts.items; lasts = i.lasts.items; rows = map vec_items i.places } };

    ghost invariant = { λ i. length i.places ≡ SERVERS };
}

/// The later of the stamps.
pub(crate) fn later_of(last: Option<Stamp>, stamp: Stamp) -> Stamp
    ensures { result ≡ later_of last stamp }
{
    match last {
        Some(last) if !last.is_before(stamp) => last,
        _ => stamp,
    }
}

impl Index {
    /// The index of no Writes.
    pub(crate) fn new(alloc: Global) -> Self
        ensures { IsIndexOf [] result }
    {
        let places = array::from_fn(
            |_| -> Vec<usize>
                ensures { result.items ≡ [] }
            { Vec::new(alloc) },
        );
        Index {
            counts: Vec::new(alloc),
            lasts: Vec::new(alloc),
            places,
        }
    }

    /// Adds the place of the server's next Write.
    fn add_place(&mut self, wid: Wid, place: usize) -> Result<(), AllocError>
        ensures own { OnOk result (places_of self.new.rows wid.origin.index ≡ places_of self.old.rows wid.origin.index ++ place ∷ []) }
        ensures others { OnOk result ((server : ℕ) → server ≢ wid.origin.index → places_of self.new.rows server ≡ places_of self.old.rows server) }
        ensures kept { (self.new.counts ≡ self.old.counts) × (self.new.lasts ≡ self.old.lasts) }
    {
        self.places[usize::from(wid.origin.index)].push(place)?;
        Ok(())
    }

    /// Adds one more Write after those of the index.
    pub(crate) fn add(&mut self, write: &RestingWrite) -> Result<(), AllocError>
        ensures { (count : ℕ) (writes : List Write) → IsIndexOf writes self.old → AreFitting count writes → Fits count writes write.now
            → OnOk result (IsIndexOf (writes ++ write.now ∷ []) self.new) }
    {
        let place = self.counts.len();
        let mut counts = self.vector();
        counts.raise(write.wid());
        let last = later_of(self.lasts.last().copied(), write.stamp());
        self.add_place(write.wid(), place)?;
        self.lasts.push(last)?;
        self.counts.push(counts)?;
        Ok(())
    }

    /// How many Writes of each server there are.
    pub(crate) fn vector(&self) -> Vector
        ensures { (writes : List Write) → IsIndexOf writes self.now → result ≡ count_of writes }
    {
        match self.counts.last() {
            Some(counts) => *counts,
            None => Vector::zero(),
        }
    }

    /// The place of the Write of this name, if there is one.
    pub(crate) fn place_of(&self, wid: Wid) -> Option<usize>
        ensures { (count : ℕ) (writes : List Write) → IsIndexOf writes self.now → AreFitting count writes → IsPlaceOf writes wid result }
    {
        if !self.vector().covers(wid) {
            return None;
        }
        let own = &self.places[usize::from(wid.origin.index)];
        own.get(wid.seq as usize - 1).copied()
    }

    /// How many Writes of each server there are up to this place.
    pub(crate) fn counts_to(&self, place: usize) -> Vector
        ensures { (writes : List Write) → IsIndexOf writes self.now → place < length writes → result ≡ count_of (take (place + 1) writes) }
    {
        match self.counts.get(place) {
            Some(counts) => *counts,
            None => Vector::zero(),
        }
    }

    /// The last stamp of the first so many Writes.
    pub(crate) fn last_of(&self, size: usize) -> Option<Stamp>
        ensures { (writes : List Write) → IsIndexOf writes self.now → size ≤ length writes → IsLastOf writes size result }
    {
        match size {
            0 => None,
            _ => self.lasts.get(size - 1).copied(),
        }
    }
}
