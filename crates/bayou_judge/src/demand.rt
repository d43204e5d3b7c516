//! What an operation demands of the Writes that its session heard of.
ghost use Rattle.std.specs.Prelude.{◌≡◌, ◌<◌, ◌↔◌, ℕ, List, IsTrue, length};
ghost use Rattle.std.specs.Bool.{OnTrue};
ghost use Rattle.bayou_lang.specs.declared.write.Write.{Write};
ghost use Rattle.bayou_lang.specs.Writes.{AreFitting};
ghost use Rattle.bayou_judge.specs.History.{dump_of};
ghost use Rattle.bayou_judge.specs.Inner.Index.{IsIndexOf, IsUpTo};
ghost use Rattle.bayou_base.specs.declared.stamp.Stamp.{Stamp};
ghost use Rattle.bayou_judge.specs.Inner.Needs.{IsBeforeAll, IsDemandOf, IsHeld, IsMet, IsNeeded, IsServed, IsWriteDemand, Lacks};

use crate::evidence::Evidence;
use crate::index::Index;
use crate::needs::Need;
use bayou_base::{ServerId, Stamp, Vector, What, Wid};
use bayou_lang::RestingWrite;

/// The Writes that are there, and the later Write's stamp, before which each one has to be.
#[derive(Clone, Copy)]
pub(crate) struct Demand {
    pub(crate) counts: Vector,
    pub(crate) next: Option<Stamp>,
}

/// Whether the stamp is before the next one, where there is one.
fn is_in_order(stamp: Stamp, next: Option<Stamp>) -> bool
    ensures { IsTrue result ↔ IsBeforeAll stamp next }
{
    match next {
        Some(next) => stamp.is_before(next),
        None => true,
    }
}

/// Whether the last stamp, where there is one, is before the next one, where there is one.
fn are_in_order(last: Option<Stamp>, next: Option<Stamp>) -> bool
    ensures { OnTrue result ((stamp : Stamp) → IsUpTo last stamp → IsBeforeAll stamp next) }
{
    match last {
        Some(last) => is_in_order(last, next),
        None => true,
    }
}

impl Demand {
    /// Whether the Write meets it.
    pub(crate) fn is_met_by(&self, write: &RestingWrite) -> bool
        ensures { IsTrue result ↔ IsMet self.now write.now }
    {
        is_in_order(write.stamp(), self.next) && self.counts.covers(write.wid())
    }

    /// Whether all that is needed meets it: found out by the vectors and the last stamp alone.
    pub(crate) fn is_met_by_all(&self, need: &Need) -> bool
        ensures { OnTrue result ((write : Write) → IsNeeded need.now write → IsMet self.now write) }
    {
        are_in_order(need.last, self.next) && self.counts.dominates(&need.counts)
    }
}

/// What a Write of this name and stamp demands of the Writes of an index.
fn demand_in(index: &Index, wid: Wid, stamp: Stamp) -> Option<Demand>
    ensures { (count : ℕ) (writes : List Write) → IsIndexOf writes index.now → AreFitting count writes → IsWriteDemand writes wid stamp result }
{
    match index.place_of(wid) {
        Some(place) => Some(Demand {
            counts: index.counts_to(place),
            next: Some(stamp),
        }),
        None => None,
    }
}

impl<'a> Evidence<'a> {
    /// What a Write demands at the server.
    fn write_demand(&self, wid: Wid, stamp: Stamp, server: usize) -> Option<Demand>
        ensures { IsWriteDemand (dump_of self.now.dumps server) wid stamp result }
    {
        self.recall();
        match self.index(server) {
            Some(index) => demand_in(index, wid, stamp),
            None => None,
        }
    }

    /// What an operation demands at the server, if anything.
    pub(crate) fn demand_at(&self, home: ServerId, what: &What, server: usize) -> Option<Demand>
        requires served { IsServed (dump_of self.now.dumps home.index) what.now }
        ensures { IsDemandOf self.now.dumps home.index what.now server result }
    {
        self.recall();
        match what {
            What::Read(_, vector) if usize::from(home.index) == server => Some(Demand {
                counts: *vector,
                next: None,
            }),
            What::Write(wid, stamp, _) => self.write_demand(*wid, *stamp, server),
            _ => None,
        }
    }

    /// Whether the operation lacks nothing of what is needed, at any server.
    pub(crate) fn is_content(&self, home: ServerId, what: &What, need: &Need) -> bool
        requires served { IsServed (dump_of self.now.dumps home.index) what.now }
        requires home { home.index < length self.now.dumps }
        ensures { OnTrue result ((write : Write) (server : ℕ) → IsHeld self.now.dumps write → IsNeeded need.now write
            → ¬ Lacks self.now.dumps home.index what.now server write) }
    {
        for server in 0..usize::from(self.servers()) {
            if let Some(demand) = self.demand_at(home, what, server)
                && !demand.is_met_by_all(need)
            {
                return false;
            }
        }
        true
    }
}
