//! What another server hands over.
ghost use Rattle.std.specs.Prelude.{◌≡◌, ◌≢◌, ◌<◌, ◌≤◌, ◌^◌, None, [], All, Contains, MatchOption, length};
ghost use Rattle.std.specs.Vec.Iter.{into_iter_items};
ghost use Rattle.bayou_base.specs.declared.limits.TheConstants.{MAX_WRITES, SERVERS};
ghost use Rattle.bayou_lang.specs.Writes.{AreFitting, count_of};
ghost use Rattle.bayou_restore.specs.Gathering.{Gathers, gathering_of};
ghost use Rattle.bayou_server.specs.Takes.{IsMissing};
ghost use Rattle.bayou_server.specs.TakesAll.{TakesAll};

use bayou_base::{Vector, Wid};
use bayou_lang::RestingWrite;
use bayou_log::{Misfit, WriteLog};
use bayou_peer::Replica;
use bayou_server::{RefusedWrite, TakeFault, Took, TookAll};
use std::alloc::{AllocError, Global};
use std::marker::Model;
use std::vec::IntoIter;

/// The Writes that another server hands over, as they come. Each fits those before it. It is of no server, and keeps no journal.
#[derive(Drop)]
pub struct Gathered {
    // None of its Writes is ever applied.
    log: WriteLog,
}

impl Model for Gathered {
    ghost use Rattle.bayou_restore.specs.Gathering.{Gathering, gathering_of};

    ghost Value = { Gathering };

    ghost view = { λ g. gathering_of g.log };
}

// Keeps the Write, which isn't among those of the log, after them, if it may stand there.
fn keep(log: &mut WriteLog, write: RestingWrite) -> Result<Took, TakeFault>
    requires { IsMissing log.old.receipts write }
    ensures { Gathers (gathering_of log.old) write result (gathering_of log.new) }
{
    match log.fits(&write) {
        Err(Misfit::Gap) => return Err(TakeFault::Gap),
        Err(Misfit::BadStamp) => return Err(TakeFault::BadStamp),
        Ok(()) => {}
    }
    if log.is_full() {
        return Err(TakeFault::LogFull);
    }
    log.reserve(&write)?;
    log.place(write);
    Ok(Took::New)
}

// Keeps the Write, if it may stand after those of the log and is none of them.
fn gather(log: &mut WriteLog, write: RestingWrite) -> Result<Took, TakeFault>
    ensures { Gathers (gathering_of log.old) write result (gathering_of log.new) }
{
    match log.find(write.wid()) {
        None => keep(log, write),
        Some(held) if *held == write => Ok(Took::Had),
        Some(_) => Err(TakeFault::Conflict),
    }
}

// Keeps one of the Writes after another, up to one that is refused.
fn gather_all(log: &mut WriteLog, writes: &mut IntoIter<RestingWrite>) -> TookAll
    requires few { length (into_iter_items writes.old) < 2 ^ 32 }
    ensures gathers { TakesAll Gathers (gathering_of log.old) (into_iter_items writes.old) (into_iter_items writes.new) result (gathering_of log.new) }
    ensures whole { result.refused ≡ None → into_iter_items writes.new ≡ [] }
{
    let mut told = TookAll {
        taken: 0,
        had: 0,
        refused: None,
    };
    while let Some(write) = writes.next() {
        let wid = write.wid();
        match gather(log, write) {
            Ok(Took::New) => told.taken += 1,
            Ok(Took::Had) => told.had += 1,
            Err(fault) => {
                told.refused = Some(RefusedWrite { wid, fault });
                return told;
            }
        }
    }
    told
}

impl Gathered {
    /// Nothing is gathered yet. It is to have so many Writes at the most, of so many servers.
    pub fn new(alloc: Global, count: u8, limit: u32) -> Self
        requires count { count ≤ SERVERS }
        requires limit { limit ≤ MAX_WRITES }
        ensures { (result.count ≡ count) × (result.limit ≡ limit) × (result.writes ≡ []) }
    {
        Gathered {
            log: WriteLog::new(alloc, count, limit),
        }
    }

    /// The Writes of a log, of which none is applied.
    pub fn of(log: WriteLog) -> Self
        ensures { result ≡ gathering_of log }
    {
        Gathered { log }
    }

    /// How many servers there are.
    pub fn count(&self) -> u8
        ensures { result ≡ self.now.count }
    {
        self.log.count()
    }

    /// The Writes, as they came.
    pub fn writes(&self) -> &[RestingWrite]
        ensures value { result.now ≡ self.now.writes }
        ensures fitting { AreFitting self.now.count result.now }
        ensures within { length result.now ≤ self.now.limit }
    {
        self.log.receipts()
    }

    /// The Write of this name, if it is there.
    pub fn find(&self, wid: Wid) -> Option<&RestingWrite>
        ensures { MatchOption result (All (λ write. write.wid ≢ wid) self.now.writes) (λ write. Contains self.now.writes write.now × (write.now.wid ≡ wid)) }
    {
        self.log.find(wid)
    }

    /// For each server the number of its Writes.
    pub fn vector(&self) -> Vector
        ensures { result ≡ count_of self.now.writes }
    {
        self.log.vector()
    }
}

impl Replica for Gathered {
    ghost use Rattle.std.specs.Prelude.{Some};
    ghost use Rattle.bayou_restore.specs.Gathering.{Gathers};

    ghost list = { λ gathered. Some gathered.writes };

    ghost takes = { Gathers };

    fn offer(&mut self) -> Vector {
        self.log.vector()
    }

    fn lacking(
        &mut self,
        alloc: Global,
        counts: &Vector,
        most: usize,
    ) -> Result<Vec<RestingWrite>, AllocError> {
        // The Writes fit one another, and the vector has a count for each server.
        let _fitting = self.log.receipts();
        let _each = counts.counts();
        self.log.lacking(alloc, counts, most)
    }

    fn take_all(&mut self, _alloc: Global, writes: Vec<RestingWrite>) -> TookAll {
        gather_all(&mut self.log, &mut writes.into_iter())
    }
}
