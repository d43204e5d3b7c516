//! Every breach, and not the least of each guarantee alone.
ghost use Rattle.std.specs.Prelude.{◌≡◌, ◌<◌, ◌≤◌, ◌+◌, ℕ, IfOk, OnOk, length, take};
ghost use Rattle.bayou_base.specs.declared.limits.TheConstants.{SERVERS};
ghost use Rattle.bayou_judge.specs.declared.breach.Guarantee.{Guarantee};
ghost use Rattle.bayou_judge.specs.Answers.{AreAllBreaches, AreBreaches, AreBreachesOf, BreachesAnswer};
ghost use Rattle.bayou_judge.specs.History.{history_of, lent_lists};
ghost use Rattle.bayou_judge.specs.Inner.Known.{need_for};
ghost use Rattle.bayou_judge.specs.Inner.Needs.{AreFoundTo, IsNeedOf};

use crate::breach::{Breach, Guarantee};
use crate::dumps::indexes_of;
use crate::entries::first_forged;
use crate::evidence::Evidence;
use crate::needs::{Need, Needs};
use crate::verdict::BadEvidence;
use bayou_base::{Entry, SERVERS, SESSIONS, SessionId};
use bayou_lang::RestingWrite;
use std::alloc::{AllocError, Global};

/// The breaches of each guarantee in a session, asked for or not: of each operation that has one the least, in the order of their places.
#[derive(Debug, Drop)]
pub struct SessionBreaches {
    pub session: SessionId,
    /// Of Read Your Writes.
    pub ryw: Vec<Breach>,
    /// Of Monotonic Reads.
    pub mr: Vec<Breach>,
    /// Of Writes Follow Reads.
    pub wfr: Vec<Breach>,
    /// Of Monotonic Writes.
    pub mw: Vec<Breach>,
}

impl<'a> Evidence<'a> {
    /// What the session needs once it learned of this entry too, if it is one of its own.
    fn needs_after(&self, session: SessionId, at: usize, needs: &Needs) -> Needs
        requires at { at < length self.now.entries }
        ensures { (guarantee : Guarantee) → IsNeedOf self.now.dumps guarantee session.index (take at self.now.entries) (need_for needs.now guarantee)
            → IsNeedOf self.now.dumps guarantee session.index (take (at + 1) self.now.entries) (need_for result guarantee) }
    {
        if self.entry(at).session.index == session.index {
            self.needs_with(at, needs)
        } else {
            *needs
        }
    }

    /// Puts the breach of this entry, if it has one, after the others.
    fn put_breach(
        &self,
        guarantee: Guarantee,
        session: SessionId,
        at: usize,
        need: &Need,
        list: &mut Vec<Breach>,
    ) -> Result<(), AllocError>
        requires at { at < length self.now.entries }
        requires need { IsNeedOf self.now.dumps guarantee session.index (take at self.now.entries) need.now }
        ensures { OnOk result (AreFoundTo self.now.dumps self.now.entries guarantee session.index at list.old.items
            → AreFoundTo self.now.dumps self.now.entries guarantee session.index (at + 1) list.new.items) }
    {
        self.recall();
        if let Some(breach) = self.breach_of(guarantee, session, at, need) {
            list.push(breach)?;
        }
        Ok(())
    }

    /// The breaches of the guarantee in the session.
    fn breaches_of(
        &self,
        alloc: Global,
        guarantee: Guarantee,
        session: SessionId,
    ) -> Result<Vec<Breach>, AllocError>
        ensures { IfOk result (λ list. AreBreachesOf (history_of self.now.entries self.now.dumps) guarantee session.index list.items) }
    {
        self.recall();
        let mut list = Vec::new(alloc);
        let mut needs = Needs::none();
        for at in 0..self.size() {
            self.put_breach(guarantee, session, at, needs.of(guarantee), &mut list)?;
            needs = self.needs_after(session, at, &needs);
        }
        Ok(list)
    }

    /// Those of all four.
    fn breaches_in(&self, alloc: Global, session: SessionId) -> Result<SessionBreaches, AllocError>
        ensures { IfOk result (λ found. (found.session ≡ session) × AreBreaches (history_of self.now.entries self.now.dumps) found) }
    {
        Ok(SessionBreaches {
            session,
            ryw: self.breaches_of(alloc, Guarantee::ReadYourWrites, session)?,
            mr: self.breaches_of(alloc, Guarantee::MonotonicReads, session)?,
            wfr: self.breaches_of(alloc, Guarantee::WritesFollowReads, session)?,
            mw: self.breaches_of(alloc, Guarantee::MonotonicWrites, session)?,
        })
    }

    /// Those of all sessions.
    fn all_breaches(&self, alloc: Global) -> Result<Vec<SessionBreaches>, AllocError>
        ensures { IfOk result (λ list. AreAllBreaches (history_of self.now.entries self.now.dumps) list.items) }
    {
        let mut list = Vec::new(alloc);
        for index in 0..SESSIONS as u8 {
            let found = self.breaches_in(alloc, SessionId { index })?;
            list.push(found)?;
        }
        Ok(list)
    }
}

/// Every breach in each session, by the numbers of the sessions; those without a breach have empty lists. What can be no evidence is refused as
/// [`judge`](crate::judge) does. It takes as many steps as there are breaches times the entries before each.
pub fn breaches(
    alloc: Global,
    count: u8,
    entries: &[Entry],
    dumps: &[&[RestingWrite]],
) -> Result<Result<Vec<SessionBreaches>, BadEvidence>, AllocError>
    requires servers { (0 < count) × (count ≤ SERVERS) }
    requires dumps { length dumps.now ≡ count }
    ensures { IfOk result (BreachesAnswer count entries.now (lent_lists dumps.now)) }
{
    let indexes = match indexes_of(alloc, count, dumps)? {
        Ok(indexes) => indexes,
        Err(bad) => return Ok(Err(bad)),
    };
    if let Some(at) = first_forged(alloc, count, entries, dumps, &indexes)? {
        return Ok(Err(BadEvidence::Forged(at)));
    }
    let evidence = Evidence::new(count, entries, dumps, &indexes);
    let list = evidence.all_breaches(alloc)?;
    Ok(Ok(list))
}
