//! How a server takes Writes that other servers accepted. What of the log isn't applied waits for whoever calls.
ghost use Rattle.std.specs.Prelude.{◌≡◌, ◌+◌, ◌⊎◌, [], None};
ghost use Rattle.std.specs.Vec.Iter.{into_iter_items};
ghost use Rattle.bayou_server.specs.Inner.Fields.{BelongTogether, core_of, server_of};
ghost use Rattle.bayou_server.specs.Inner.Taking.{IsDecided, IsRefused};
ghost use Rattle.bayou_server.specs.Takes.{IsMissing};
ghost use Rattle.bayou_server.specs.TakesAll.{TakesAll, TakesAt};

use crate::answer::{RefusedWrite, Took, TookAll};
use crate::fault::TakeFault;
use crate::holding::Holding;
use crate::storing::{Stored, store};
use bayou_base::ServerId;
use bayou_device::Device;
use bayou_journal::Journal;
use bayou_lang::RestingWrite;
use bayou_log::Misfit;
use std::alloc::Global;
use std::vec::IntoIter;

// Why the Write, of whose name none is held, isn't added, if it may not be.
fn refusal(holding: &Holding, id: ServerId, given: &RestingWrite) -> Option<TakeFault>
    requires { IsMissing holding.now.log.receipts given.now }
    ensures { IsRefused (core_of holding.now id.index) given.now result }
{
    if holding.doubt.is_some() {
        return Some(TakeFault::Down);
    }
    if given.wid().origin == id {
        return Some(TakeFault::OwnLost);
    }
    match holding.log.fits(given) {
        Err(Misfit::Gap) => Some(TakeFault::Gap),
        Err(Misfit::BadStamp) => Some(TakeFault::BadStamp),
        Ok(()) if holding.log.is_full() => Some(TakeFault::LogFull),
        Ok(()) => None,
    }
}

// The answer, where it follows from what is held and in doubt. Else the Write may be added.
pub fn decided(
    holding: &Holding,
    id: ServerId,
    given: &RestingWrite,
) -> Option<Result<Took, TakeFault>>
    ensures { IsDecided (core_of holding.now id.index) given.now result }
{
    if let Some(held) = holding.log.find(given.wid()) {
        if held == given {
            return Some(Ok(Took::Had));
        }
        return Some(Err(TakeFault::Conflict));
    }
    match refusal(holding, id, given) {
        Some(fault) => Some(Err(fault)),
        None => None,
    }
}

// Takes a Write that another server accepted: stores its entry, and then holds it.
pub fn take_one<D: Device>(
    alloc: Global,
    journal: &mut Journal<D>,
    holding: &mut Holding,
    id: ServerId,
    write: RestingWrite,
) -> Result<Took, TakeFault>
    requires { BelongTogether journal.old holding.old id.index }
    ensures together { BelongTogether journal.new holding.new id.index }
    ensures takes { TakesAt D.Device (server_of journal.old holding.old id.index) write result (server_of journal.new holding.new id.index) }
{
    if let Some(answer) = decided(holding, id, &write) {
        return answer;
    }
    match store(alloc, journal, holding, id, None, write)? {
        Stored::Held => Ok(Took::New),
        Stored::InDoubt => Err(TakeFault::Journal),
    }
}

// Takes the next of the Writes, one after another, at most so many, up to one that is refused.
pub fn take_several<D: Device>(
    alloc: Global,
    journal: &mut Journal<D>,
    holding: &mut Holding,
    id: ServerId,
    writes: &mut IntoIter<RestingWrite>,
    most: u32,
) -> TookAll
    requires { BelongTogether journal.old holding.old id.index }
    ensures together { BelongTogether journal.new holding.new id.index }
    ensures takes { TakesAll (TakesAt D.Device) (server_of journal.old holding.old id.index) (into_iter_items writes.old) (into_iter_items writes.new) result (server_of journal.new holding.new id.index) }
    ensures whole { result.refused ≡ None → (into_iter_items writes.new ≡ []) ⊎ (result.taken + result.had ≡ most) }
{
    let mut told = TookAll {
        taken: 0,
        had: 0,
        refused: None,
    };
    while told.taken + told.had < most {
        let Some(write) = writes.next() else {
            return told;
        };
        let wid = write.wid();
        match take_one(alloc, journal, holding, id, write) {
            Ok(Took::New) => told.taken += 1,
            Ok(Took::Had) => told.had += 1,
            Err(fault) => {
                told.refused = Some(RefusedWrite { wid, fault });
                return told;
            }
        }
    }
    told
}
