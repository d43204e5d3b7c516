//! Where the Writes of each server stand in the order of receipt.
ghost use Rattle.std.specs.Prelude.{◌≡◌, ◌≢◌, ℕ, ◌+◌, ◌<◌, ◌≤◌, [], ◌∷◌, ◌++◌, All, OnOk, length, map, slice_index_or, vec_items};
ghost use Rattle.bayou_base.specs.declared.limits.TheConstants.{SERVERS};
ghost use Rattle.bayou_log.specs.Inner.Index.{place_in, places_of};

use bayou_base::{SERVERS, Wid};
use std::alloc::{AllocError, Global};
use std::array;
use std::marker::Model;

/// For how many Writes room is taken at once, of each server, so that few Writes go over all servers for it.
const AHEAD: usize = 64;

/// The places of each server's Writes, in the order of their sequence numbers. Each place fits two bytes, since a log holds at most
/// `MAX_WRITES` Writes.
#[derive(Drop)]
pub(crate) struct Index {
    places: [Vec<u16>; SERVERS],
    // For how many Writes more there is room, whichever servers they are of.
    room: usize,
}

impl Model for Index {
    ghost use Rattle.std.specs.Prelude.{◌≡◌, ◌+◌, ◌≤◌, All, length, map, vec_capacity, vec_items, vec_len};
    ghost use Rattle.bayou_base.specs.declared.limits.TheConstants.{SERVERS};
    ghost use Rattle.bayou_log.specs.Inner.Index.{Rows};

    ghost Value = { Rows };

    ghost view = { λ i. record { rows = map vec_items i.places; room = i.room } };

    ghost invariant = { λ i. (length i.places ≡ SERVERS) × All (λ own. vec_len own + i.room ≤ vec_capacity own) i.places };
}

impl Index {
    pub(crate) fn new(alloc: Global) -> Self
        ensures { All (λ row. row ≡ []) result.rows }
    {
        let places = array::from_fn(
            |_| -> Vec<u16>
                ensures { result.items ≡ [] }
            { Vec::new(alloc) },
        );
        Index { places, room: 0 }
    }

    /// Takes room for one more Write, whichever server's it is.
    pub(crate) fn reserve(&mut self) -> Result<(), AllocError>
        ensures same { self.new.rows ≡ self.old.rows }
        ensures kept { self.old.room ≤ self.new.room }
        ensures ok { OnOk result (0 < self.new.room) }
    {
        if self.room > 0 {
            return Ok(());
        }
        for server in 0..SERVERS {
            self.places[server].try_reserve(AHEAD)?;
        }
        self.room = AHEAD;
        Ok(())
    }

    /// The place of the Write of this server that has this sequence number.
    pub(crate) fn place(&self, server: usize, seq: u32) -> usize
        requires server { server < SERVERS }
        requires seq { (0 < seq) × (seq ≤ length (places_of self.now.rows server)) }
        ensures { result ≡ place_in self.now.rows server seq }
    {
        self.places[server][seq as usize - 1] as usize
    }

    /// Adds the place of the server's next Write, which takes no memory.
    pub(crate) fn add(&mut self, wid: Wid, place: u16)
        requires seq { wid.seq ≡ length (places_of self.old.rows wid.origin.index) + 1 }
        requires room { 0 < self.old.room }
        ensures own { places_of self.new.rows wid.origin.index ≡ places_of self.old.rows wid.origin.index ++ place ∷ [] }
        ensures others { (server : ℕ) → server ≢ wid.origin.index → places_of self.new.rows server ≡ places_of self.old.rows server }
    {
        self.places[usize::from(wid.origin.index)].push_reserved(place);
        self.room -= 1;
    }

    /// Takes the place of the server's last Write away. The room stays what it was.
    pub(crate) fn take_back(&mut self, wid: Wid)
        requires { 0 < length (places_of self.old.rows wid.origin.index) }
        ensures own { (last : ℕ) × (places_of self.old.rows wid.origin.index ≡ places_of self.new.rows wid.origin.index ++ last ∷ []) }
        ensures others { (server : ℕ) → server ≢ wid.origin.index → places_of self.new.rows server ≡ places_of self.old.rows server }
    {
        self.places[usize::from(wid.origin.index)].pop();
    }
}
