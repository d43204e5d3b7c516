ghost use Rattle.std.specs.Prelude.{◌≡◌, ◌≢◌, ℕ, ◌+◌, ◌-◌, ◌<◌, ◌≤◌, ◌↔◌, [], ◌∷◌, ◌++◌, All, Contains, IsTrue, IfNone, IfOk, IfSome, OnOk, length, min, option_copied, slice_index, take};
ghost use Rattle.bayou_base.specs.declared.limits.TheConstants.{SERVERS, MAX_WRITES};
ghost use Rattle.bayou_lang.specs.declared.write.Write.{Write};
ghost use Rattle.bayou_lang.specs.Database.{value_at};
ghost use Rattle.bayou_lang.specs.Writes.{count_of, covered_by, greatest_clock, lacking_of, AreFitting, Fits, HasNoGap};
ghost use Rattle.bayou_base.specs.Vector.{Dominates};
ghost use Rattle.bayou_log.specs.Fitting.{FitAnswer};
ghost use Rattle.bayou_lang.specs.Laws.Clocks.{IsLastClock};
ghost use Rattle.bayou_log.specs.Inner.Lacking.{IsFirstMissed};
ghost use Rattle.bayou_log.specs.Listing.{TellsOf, listing_of};
ghost use Rattle.bayou_log.specs.Log.{IsReserved, applied};
ghost use Rattle.bayou_log.specs.Replay.{replay};
ghost use Rattle.bayou_log.specs.Rows.{rows_after};

use crate::db::Db;
use crate::fitting::{Misfit, is_next};
use crate::index::Index;
use crate::listing::{Listed, listed_in_turn, listed_of};
use crate::next::counts_and_clock;
use crate::order::{earlier, put_in_order};
use crate::undo::{UndoStack, apply_in_turn, take_back};
use arrayvec::ArrayVec;
use bayou_base::{Key, MAX_WRITES, Prefix, SERVERS, Value, Vector, Wid};
use bayou_lang::{Outcome, RestingWrite};
use std::alloc::{AllocError, Global};
use std::marker::Model;

/// The Writes that a server holds, and the database that they make.
#[derive(Drop)]
pub struct WriteLog {
    // In order of receipt.
    writes: Vec<RestingWrite>,
    // The places of those that are applied, the first that came, in stamp order.
    order: Vec<usize>,
    // The database of those.
    db: Db,
    // Where the Writes of each server stand among them.
    own: Index,
    // What takes them back.
    undone: UndoStack,
    // What became of each of them, in stamp order.
    outcomes: Vec<Outcome>,
    vector: Vector,
    // The greatest that a Write has, or 0.
    clock: u32,
    count: u8,
    limit: u32,
}

impl Model for WriteLog {
    ghost use Rattle.std.specs.Prelude.{◌-◌, length, min, take, vec_len, vec_capacity};
    ghost use Rattle.bayou_log.specs.Log.{Log};
    ghost use Rattle.bayou_log.specs.Inner.Fields.{AgreesWith, AreApplied, AreKept, AreOutcomes, HasRoomForAll};
    ghost use Rattle.bayou_log.specs.Inner.Index.{AreIndexed};
    ghost use Rattle.bayou_log.specs.Db as database;

    ghost Value = { Log };

    ghost view = { λ l. record {
      receipts = l.writes.items;
      count = l.count;
      limit = l.limit;
      room = record {
        writes = min (min (vec_capacity l.writes - vec_len l.writes) (vec_capacity l.order - vec_len l.writes)) (min (min (l.undone.places - vec_len l.writes) (vec_capacity l.outcomes - vec_len l.writes)) l.own.room);
        keys = database.room l.db;
        changes = l.undone.room - l.undone.promised;
      };
      waiting = vec_len l.writes - vec_len l.order;
    } };

    ghost invariant = { λ l. AreKept l.count l.limit l.writes.items × AgreesWith l.writes.items l.db l.vector l.clock
        × AreApplied (take (length l.order.items) l.writes.items) l.order.items l.db l.undone.undos × HasRoomForAll l.writes.items (vec_capacity l.order) l.undone
        × AreIndexed l.own.rows l.writes.items × AreOutcomes l.writes.items (length l.order.items) l.outcomes.items (vec_capacity l.outcomes) };
}

impl WriteLog {
    /// The log of a server among `count`, which holds no Write yet, and at most `limit`.
    pub fn new(alloc: Global, count: u8, limit: u32) -> Self
        requires count { count ≤ SERVERS }
        requires limit { limit ≤ MAX_WRITES }
        ensures empty { result.receipts ≡ [] }
        ensures waiting { result.waiting ≡ 0 }
        ensures count { result.count ≡ count }
        ensures limit { result.limit ≡ limit }
    {
        WriteLog {
            writes: Vec::new(alloc),
            order: Vec::new(alloc),
            db: Db::new(alloc),
            own: Index::new(alloc),
            undone: UndoStack::new(alloc),
            outcomes: Vec::new(alloc),
            vector: Vector::zero(),
            clock: 0,
            count,
            limit,
        }
    }

    /// The Writes held, in order of receipt.
    pub fn receipts(&self) -> &[RestingWrite]
        ensures value { result.now ≡ self.now.receipts }
        ensures fitting { AreFitting self.now.count result.now }
        ensures within { length result.now ≤ self.now.limit }
    {
        self.writes.as_slice()
    }

    /// Hands out the Writes held, in order of receipt, and drops the rest: a log that isn't asked any more needn't keep its database, nor
    /// what takes Writes back. It takes no memory.
    pub fn into_receipts(self) -> Vec<RestingWrite>
        ensures value { result.items ≡ self.receipts }
        ensures fitting { AreFitting self.count result.items }
        ensures within { length result.items ≤ self.limit }
    {
        self.writes
    }

    /// How many servers there are.
    pub fn count(&self) -> u8
        ensures value { result ≡ self.now.count }
        ensures in_range { result ≤ SERVERS }
    {
        self.count
    }

    /// How many Writes it may hold.
    pub fn limit(&self) -> u32
        ensures value { result ≡ self.now.limit }
        ensures in_range { result ≤ MAX_WRITES }
    {
        self.limit
    }

    /// Whether it holds as many Writes as it may.
    pub fn is_full(&self) -> bool
        ensures full { IsTrue result ↔ (length self.now.receipts ≡ self.now.limit) }
        ensures within { length self.now.receipts ≤ self.now.limit }
        ensures in_range { self.now.limit ≤ MAX_WRITES }
    {
        self.writes.len() == self.limit as usize
    }

    /// What the key has in the database that the Writes make, but for those that wait, if anything.
    pub fn get(&self, key: &Key) -> Option<Value>
        ensures { result ≡ value_at (replay (applied self.now)) key.now }
    {
        self.db.get(key)
    }

    /// Lists the first of the rows that the Writes make, but for those that wait, whose keys begin so and come after this one, if there is one:
    /// so many at the most, and as many as there are places for. It tells whether one is left, and takes no memory.
    pub fn list<const PLACES: usize>(
        &self,
        prefix: &Prefix,
        after: Option<&Key>,
        most: usize,
        rows: &mut ArrayVec<(Key, Value), PLACES>,
    ) -> bool
        ensures rows { rows.new.items ≡ take (min most PLACES) (rows_after prefix.now (option_copied after.entry) (replay (applied self.now))) }
        ensures more { IsTrue result ↔ (min most PLACES < length (rows_after prefix.now (option_copied after.entry) (replay (applied self.now)))) }
    {
        self.db.list(prefix, after, most, rows)
    }

    /// For each server the number of its Writes that are held: of the server `s` those from 1 to `vector[s]`.
    #[tactic(auto, using(crate::proofs::Agrees::counts_within))]
    pub fn vector(&self) -> Vector
        ensures value { result ≡ count_of self.now.receipts }
        ensures within { (server : ℕ) → slice_index result server ≤ length self.now.receipts }
    {
        self.vector
    }

    /// The greatest clock among the Writes held, 0 where there is none. A Write that is made from them has one more.
    pub fn clock(&self) -> u32
        ensures value { result ≡ greatest_clock self.now.receipts }
        ensures within { result ≤ length self.now.receipts }
    {
        self.clock
    }

    /// The Write of this name, if it is held.
    pub fn find(&self, wid: Wid) -> Option<&RestingWrite>
        ensures held { IfSome result (λ write. Contains self.now.receipts write.now × (write.now.wid ≡ wid)) }
        ensures missing { IfNone result (All (λ held. held.wid ≢ wid) self.now.receipts) }
    {
        if !self.vector.covers(wid) {
            return None;
        }
        Some(self.own_write(usize::from(wid.origin.index), wid.seq))
    }

    /// The server's Write of this sequence number, which is held.
    fn own_write(&self, server: usize, seq: u32) -> &RestingWrite
        requires server { server < SERVERS }
        requires held { (0 < seq) × (seq ≤ slice_index (count_of self.now.receipts) server) }
        ensures held { Contains self.now.receipts result.now }
        ensures named { (result.now.wid.origin.index ≡ server) × (result.now.wid.seq ≡ seq) }
    {
        &self.writes[self.own.place(server, seq)]
    }

    /// Whether the Write may be inserted, room aside. It takes no memory, and looks at one held Write of each
    /// server at the most.
    pub fn fits(&self, write: &RestingWrite) -> Result<(), Misfit>
        ensures { FitAnswer self.now.count self.now.receipts write.now result }
    {
        if !self.has_no_gap(write) {
            return Err(Misfit::Gap);
        }
        let origin = write.wid().origin;
        let own_are_held = self.vector.get(origin) == write.deps().get(origin);
        if !own_are_held || write.stamp().clock != self.clock_among(write.deps()) + 1 {
            return Err(Misfit::BadStamp);
        }
        Ok(())
    }

    /// Whether no Write before this one is missing.
    fn has_no_gap(&self, write: &RestingWrite) -> bool
        ensures { IsTrue result ↔ HasNoGap self.now.count self.now.receipts write.now }
    {
        is_next(write, self.count, &self.vector)
    }

    /// The greatest clock among the held Writes that the vector counts, which counts no other.
    fn clock_among(&self, counts: &Vector) -> u32
        requires { Dominates (count_of self.now.receipts) counts.now }
        ensures value { result ≡ greatest_clock (covered_by counts.now self.now.receipts) }
        ensures in_range { result ≤ MAX_WRITES }
    {
        if counts.dominates(&self.vector) {
            // It counts all of them.
            return self.clock;
        }
        let mut clock = 0;
        for server in 0..SERVERS {
            clock = clock.max(self.last_clock(server, counts.counts()[server]));
        }
        clock
    }

    /// The clock of the server's Write of this sequence number, which is held, or 0 where the number is.
    fn last_clock(&self, server: usize, seq: u32) -> u32
        requires server { server < SERVERS }
        requires held { seq ≤ slice_index (count_of self.now.receipts) server }
        ensures { IsLastClock server seq self.now.receipts result }
    {
        if seq == 0 {
            return 0;
        }
        self.writes[self.own.place(server, seq)].stamp().clock
    }

    /// The Writes held, but for those that wait, in stamp order, each with the outcome that it has in the replay.
    pub fn listing(&self, alloc: Global) -> Result<Vec<Listed>, AllocError>
        ensures { IfOk result (λ list. list.items ≡ listing_of (applied self.now)) }
    {
        listed_in_turn(alloc, &self.writes, &self.order, &self.outcomes)
    }

    /// What became of the Write of this name, as [`WriteLog::listing`] tells it, if it is held and doesn't wait. It takes no memory, and looks at a
    /// few of the Writes, however many are held.
    pub fn outcome_of(&self, wid: Wid) -> Option<Listed>
        ensures { TellsOf (listing_of (applied self.now)) wid result }
    {
        let Some(write) = self.find(wid) else {
            return None;
        };
        listed_of(
            wid,
            write.stamp(),
            &self.writes,
            &self.order,
            &self.outcomes,
        )
    }

    /// The first `max` of the Writes held, in stamp order, that the vector doesn't count: what a server with these counts
    /// lacks (anti-entropy, Petersen et al. 1997). For each Write that it gives it looks at one Write of each server,
    /// however many are held. Where memory is refused nothing is given.
    pub fn lacking(
        &self,
        alloc: Global,
        counts: &Vector,
        max: usize,
    ) -> Result<Vec<RestingWrite>, AllocError>
        ensures { IfOk result (λ list. list.items ≡ take max (lacking_of counts.now self.now.receipts)) }
    {
        let mut told = *counts;
        let mut list = Vec::new(alloc);
        for _ in 0..max {
            let Some(write) = self.first_missed(&told) else {
                return Ok(list);
            };
            told.raise(write.wid());
            list.push(write.copy(alloc)?)?;
        }
        Ok(list)
    }

    /// The first in stamp order of the Writes held that the vector doesn't count, if there is one.
    fn first_missed(&self, told: &Vector) -> Option<&RestingWrite>
        ensures first { IsFirstMissed SERVERS told.now self.now.receipts (option_copied result) }
        ensures one_each { length told.now ≡ SERVERS }
        ensures fitting { AreFitting self.now.count self.now.receipts }
    {
        let counts = told.counts();
        if told.dominates(&self.vector) {
            return None;
        }
        let mut first = None;
        for server in 0..SERVERS {
            first = earlier(first, self.next_of(server, counts[server]));
        }
        first
    }

    /// The server's Write after those of its Writes that are counted, if it is held.
    fn next_of(&self, server: usize, counted: u32) -> Option<&RestingWrite>
        requires { server < SERVERS }
        ensures held { IfSome result (λ write. Contains self.now.receipts write.now) }
        ensures named { IfSome result (λ write. (write.now.wid.origin.index ≡ server) × (write.now.wid.seq ≡ counted + 1)) }
        ensures none { IfNone result (slice_index (count_of self.now.receipts) server ≤ counted) }
        ensures fitting { AreFitting self.now.count self.now.receipts }
    {
        if self.vector.counts()[server] <= counted {
            return None;
        }
        Some(self.own_write(server, counted + 1))
    }

    /// Takes room ahead, so that the Write can be inserted. Where memory is refused, the room that there was stays.
    pub fn reserve(&mut self, write: &RestingWrite) -> Result<(), AllocError>
        ensures same { self.new ≡ record self.old { room = self.new.room } }
        ensures kept { (other : Write) → IsReserved self.old.room other → IsReserved self.new.room other }
        ensures ok { OnOk result (IsReserved self.new.room write.now) }
    {
        let held = self.writes.len();
        self.writes.try_reserve(1)?;
        self.order.try_reserve(held + 1 - self.order.len())?;
        self.outcomes
            .try_reserve((held + 1).saturating_sub(self.outcomes.len()))?;
        self.own.reserve()?;
        self.undone.reserve(held, write.program().most_changes())?;
        self.db.prepare(write.program())
    }

    /// Adds the Write, which takes no memory. It waits, with those that do, until [`WriteLog::catch_up`].
    pub fn place(&mut self, write: RestingWrite)
        requires fits { Fits self.old.count self.old.receipts write }
        requires reserved { IsReserved self.old.room write }
        requires below_limit { length self.old.receipts < self.old.limit }
        ensures { self.new ≡ record self.old { receipts = self.old.receipts ++ write ∷ []; room = self.new.room; waiting = self.old.waiting + 1 } }
    {
        self.own.add(write.wid(), self.writes.len() as u16);
        self.vector.raise(write.wid());
        self.clock = self.clock.max(write.stamp().clock);
        self.undone.promise(write.program().most_changes());
        self.writes.push_reserved(write);
    }

    /// Takes the last Write back, which waits: the others are held as before it was placed. It takes no memory, and looks at each of the others.
    pub fn take_back(&mut self) -> RestingWrite
        requires { 0 < self.old.waiting }
        ensures held { self.old.receipts ≡ self.new.receipts ++ result ∷ [] }
        ensures same { self.new ≡ record self.old { receipts = self.new.receipts; room = self.new.room; waiting = self.old.waiting - 1 } }
    {
        let Some(write) = self.writes.pop() else {
            unreachable!();
        };
        self.own.take_back(write.wid());
        self.undone.release(write.program().most_changes());
        (self.vector, self.clock) = counts_and_clock(self.count, &self.writes);
        write
    }

    /// Applies the Writes that wait, from which no want of memory keeps it. Those that come after one of them in stamp order are taken back, the last
    /// first, and are applied again after it (Terry et al. 1995): once, however many wait.
    pub fn catch_up(&mut self)
        ensures { self.new ≡ record self.old { waiting = 0 } }
    {
        let first = put_in_order(&mut self.order, &self.writes);
        take_back(&mut self.db, &mut self.undone, first);
        self.outcomes.truncate(first);
        apply_in_turn(
            &mut self.db,
            &mut self.undone,
            &mut self.outcomes,
            &self.writes,
            &self.order[first..],
        );
    }

    /// Adds the Write, and applies it with those that wait, from which no want of memory keeps it.
    pub fn insert(&mut self, write: RestingWrite)
        requires fits { Fits self.old.count self.old.receipts write }
        requires reserved { IsReserved self.old.room write }
        requires below_limit { length self.old.receipts < self.old.limit }
        ensures { self.new ≡ record self.old { receipts = self.old.receipts ++ write ∷ []; room = self.new.room; waiting = 0 } }
    {
        self.place(write);
        self.catch_up();
    }
}
