//! Where two operations violate a guarantee.
ghost use Rattle.std.specs.Prelude.{◌≡◌, ◌∷◌, ◌++◌, ◌≤◌, ◌<◌, ◌↔◌, ℕ, [], List, IsTrue, false, length, slice_get, Some};
ghost use Rattle.std.specs.Bool.{OnTrue, OnFalse};
ghost use Rattle.bayou_base.specs.declared.entry.Entry.{Entry};
ghost use Rattle.bayou_lang.specs.declared.write.Write.{Write};
ghost use Rattle.bayou_judge.specs.Breaches.{is_less};
ghost use Rattle.bayou_judge.specs.History.{dump_of};
ghost use Rattle.bayou_judge.specs.Inner.Needs.{wid_key, IsBreachOf, IsBreachWith, IsLeastAt, IsLeastFault, IsLeastUnmet, IsLesser, IsMet, IsSecond, IsServed, IsTold};

use crate::breach::{Breach, Guarantee};
use crate::demand::Demand;
use crate::evidence::Evidence;
use crate::kinds::is_first_of;
use bayou_base::{Entry, ServerId, SessionId, What, Wid};
use bayou_lang::RestingWrite;

/// A Write that is missing at a server, or isn't before the later one.
#[derive(Clone, Copy)]
pub(crate) struct Fault {
    pub(crate) server: ServerId,
    pub(crate) wid: Wid,
}

/// Whether the two names are one.
fn is_same(wid: Wid, other: Wid) -> bool
    ensures { IsTrue result ↔ (wid ≡ other) }
{
    wid == other
}

/// Whether the operation told its session of the Write, which its server's dump has.
fn tells(what: &What, write: &RestingWrite) -> bool
    ensures { IsTrue result ↔ IsTold what.now write.now }
{
    match what {
        What::Read(_, vector) => vector.covers(write.wid()),
        What::Write(wid, _, _) => is_same(write.wid(), *wid),
        What::Refused => false,
    }
}

/// Whether the operation told its session of the Write, and it doesn't meet the demand.
fn is_unmet(what: &What, write: &RestingWrite, demand: &Demand) -> bool
    ensures unmet { OnTrue result (IsTold what.now write.now × ¬ IsMet demand.now write.now) }
    ensures met { OnFalse result (IsTold what.now write.now → IsMet demand.now write.now) }
{
    tells(what, write) && !demand.is_met_by(write)
}

/// Whether the one name is less than the other: by server, then by number.
fn is_lesser(wid: Wid, other: Wid) -> bool
    ensures { result ≡ is_less (wid_key wid) (wid_key other) }
{
    wid < other
}

/// The lesser of the names.
fn lesser_of(least: Wid, wid: Wid) -> Wid
    ensures { IsLesser (Some least) wid result }
{
    if is_lesser(least, wid) { least } else { wid }
}

/// The lesser of the names, where there are both.
fn lesser(least: Option<Wid>, wid: Wid) -> Wid
    ensures { IsLesser least wid result }
{
    match least {
        Some(least) => lesser_of(least, wid),
        None => wid,
    }
}

/// The least name with one more Write.
fn with_write(least: Option<Wid>, what: &What, write: &RestingWrite, demand: &Demand) -> Option<Wid>
    ensures { (writes : List Write) → IsLeastUnmet writes what.now demand.now least → IsLeastUnmet (writes ++ write.now ∷ []) what.now demand.now result }
{
    if is_unmet(what, write, demand) {
        Some(lesser(least, write.wid()))
    } else {
        least
    }
}

/// The least name of the Writes that the operation told of and that don't meet the demand.
fn least_unmet(dump: &[RestingWrite], what: &What, demand: &Demand) -> Option<Wid>
    ensures { IsLeastUnmet dump.now what.now demand.now result }
{
    let mut least = None;
    for write in dump {
        least = with_write(least, what, write, demand);
    }
    least
}

impl<'a> Evidence<'a> {
    /// The least name with which the two operations have a fault at the server. The Writes are looked at only where the
    /// vectors don't show that there is none.
    fn fault_at(&self, first: &Entry, second: &Entry, server: usize) -> Option<Wid>
        requires first { IsServed (dump_of self.now.dumps first.now.server.index) first.now.what }
        requires second { IsServed (dump_of self.now.dumps second.now.server.index) second.now.what }
        ensures { IsLeastAt self.now.dumps first.now second.now server result }
    {
        self.recall();
        let Some(demand) = self.demand_at(second.server, &second.what, server) else {
            return None;
        };
        if demand.is_met_by_all(&self.need_of(first.server, &first.what)) {
            return None;
        }
        let dump = self.dump(usize::from(first.server.index));
        least_unmet(dump, &first.what, &demand)
    }

    /// The least fault of the two operations.
    fn fault_between(&self, first: &Entry, second: &Entry) -> Option<Fault>
        requires first { IsServed (dump_of self.now.dumps first.now.server.index) first.now.what }
        requires second { IsServed (dump_of self.now.dumps second.now.server.index) second.now.what }
        requires home { second.now.server.index < length self.now.dumps }
        ensures { IsLeastFault self.now.dumps first.now second.now result }
    {
        for server in 0..self.servers() {
            if let Some(wid) = self.fault_at(first, second, usize::from(server)) {
                let server = ServerId { index: server };
                return Some(Fault { server, wid });
            }
        }
        None
    }

    /// The breach of the two operations, if the guarantee speaks of the earlier one.
    fn breach_with(
        &self,
        guarantee: Guarantee,
        session: SessionId,
        first: &Entry,
        second: &Entry,
    ) -> Option<Breach>
        requires first { IsServed (dump_of self.now.dumps first.now.server.index) first.now.what }
        requires second { IsServed (dump_of self.now.dumps second.now.server.index) second.now.what }
        requires home { second.now.server.index < length self.now.dumps }
        ensures { IsBreachWith self.now.dumps guarantee session.index first.now second.now result }
    {
        if !is_first_of(guarantee, session, first) {
            return None;
        }
        let Some(fault) = self.fault_between(first, second) else {
            return None;
        };
        Some(Breach {
            guarantee,
            session,
            first: first.place,
            second: second.place,
            server: fault.server,
            wid: fault.wid,
        })
    }

    /// The breach of the entry at this place with the first of those before it with which it has a fault.
    pub(crate) fn breach_at(
        &self,
        guarantee: Guarantee,
        session: SessionId,
        at: usize,
    ) -> Option<Breach>
        requires at { at < length self.now.entries }
        ensures { (second : Entry) → slice_get self.now.entries at ≡ Some second → IsSecond guarantee session.index second
            → IsBreachOf self.now.dumps self.now.entries guarantee session.index at second result }
    {
        let second = self.entry(at);
        for place in 0..at {
            let first = self.entry(place);
            if let Some(breach) = self.breach_with(guarantee, session, first, second) {
                return Some(breach);
            }
        }
        None
    }
}
