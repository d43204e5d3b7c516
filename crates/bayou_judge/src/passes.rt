//! One pass over the entries, for all sessions and all guarantees.
ghost use Rattle.std.specs.Prelude.{◌≡◌, ℕ, ◌<◌, ◌≤◌, ◌+◌, List, Some, None, length, slice_get, slice_index_or, take};
ghost use Rattle.bayou_base.specs.declared.entry.Entry.{Entry};
ghost use Rattle.bayou_base.specs.declared.limits.TheConstants.{SESSIONS};
ghost use Rattle.bayou_lang.specs.declared.write.Write.{Write};
ghost use Rattle.bayou_judge.specs.declared.breach.Guarantee.{Guarantee};
ghost use Rattle.bayou_judge.specs.Inner.Needs.{IsBreachFor, IsFirstBreach, IsNeedOf};
ghost use Rattle.bayou_judge.specs.Inner.Known.{found_of, need_for, IsKnown, IsProgress};

use crate::breach::{Breach, Guarantee};
use crate::evidence::Evidence;
use crate::kinds::is_second_of;
use crate::needs::{Need, Needs};
use crate::verdict::Surveyed;
use bayou_base::{SESSIONS, SessionId};

/// What a session heard of so far, and the first breach of each guarantee so far, if there was one.
#[derive(Clone, Copy)]
pub(crate) struct Progress {
    pub(crate) needs: Needs,
    pub(crate) surveyed: Surveyed,
}

/// The first breach of the guarantee so far.
fn found_of(surveyed: &Surveyed, guarantee: Guarantee) -> Option<Breach>
    ensures { result ≡ found_of surveyed.now guarantee }
{
    match guarantee {
        Guarantee::ReadYourWrites => surveyed.ryw,
        Guarantee::MonotonicReads => surveyed.mr,
        Guarantee::WritesFollowReads => surveyed.wfr,
        Guarantee::MonotonicWrites => surveyed.mw,
    }
}

impl Progress {
    /// That of a session which tried nothing yet.
    fn none(session: SessionId) -> Self
        ensures session { result.surveyed.session ≡ session }
        ensures found { (guarantee : Guarantee) → found_of result.surveyed guarantee ≡ None }
    {
        Progress {
            needs: Needs::none(),
            surveyed: Surveyed {
                session,
                ryw: None,
                mr: None,
                wfr: None,
                mw: None,
            },
        }
    }

    /// That of a session of which this is known.
    fn of_known(known: Option<Progress>, session: SessionId) -> Self
        ensures { (dumps : List (List Write)) (entries : List Entry) (at : ℕ) → at ≤ length entries → IsKnown dumps entries session.index at known
            → IsProgress dumps entries session.index at result }
    {
        match known {
            Some(progress) => progress,
            None => Progress::none(session),
        }
    }
}

impl<'a> Evidence<'a> {
    /// What is needed by the session of this entry once it learned of it too.
    pub(crate) fn needs_with(&self, at: usize, needs: &Needs) -> Needs
        requires at { at < length self.now.entries }
        ensures { (session : ℕ) (guarantee : Guarantee) → IsNeedOf self.now.dumps guarantee session (take at self.now.entries) (need_for needs.now guarantee)
            → IsNeedOf self.now.dumps guarantee session (take (at + 1) self.now.entries) (need_for result guarantee) }
    {
        let entry = self.entry(at);
        needs.with(&entry.what, &self.need_of(entry.server, &entry.what))
    }

    /// The breach of this entry, if there is one. The entries before it are looked at only where the vectors don't show that
    /// there is none.
    pub(crate) fn breach_of(
        &self,
        guarantee: Guarantee,
        session: SessionId,
        at: usize,
        need: &Need,
    ) -> Option<Breach>
        requires at { at < length self.now.entries }
        requires need { IsNeedOf self.now.dumps guarantee session.index (take at self.now.entries) need.now }
        ensures { (second : Entry) → slice_get self.now.entries at ≡ Some second → IsBreachFor self.now.dumps self.now.entries guarantee session.index at second result }
    {
        let entry = self.entry(at);
        self.recall();
        if !is_second_of(guarantee, session, entry) {
            return None;
        }
        if self.is_content(entry.server, &entry.what, need) {
            return None;
        }
        self.breach_at(guarantee, session, at)
    }

    /// The first breach of the guarantee up to this entry.
    fn first_with(
        &self,
        guarantee: Guarantee,
        session: SessionId,
        at: usize,
        progress: &Progress,
    ) -> Option<Breach>
        requires at { at < length self.now.entries }
        requires progress { IsProgress self.now.dumps self.now.entries session.index at progress.now }
        ensures { IsFirstBreach self.now.dumps self.now.entries guarantee session.index (at + 1) result }
    {
        match found_of(&progress.surveyed, guarantee) {
            Some(breach) => Some(breach),
            None => self.breach_of(guarantee, session, at, progress.needs.of(guarantee)),
        }
    }

    /// The progress of the session with this entry, which is its own.
    fn progress_with(&self, session: SessionId, at: usize, progress: &Progress) -> Progress
        requires at { at < length self.now.entries }
        requires progress { IsProgress self.now.dumps self.now.entries session.index at progress.now }
        ensures { IsProgress self.now.dumps self.now.entries session.index (at + 1) result }
    {
        Progress {
            needs: self.needs_with(at, &progress.needs),
            surveyed: Surveyed {
                session,
                ryw: self.first_with(Guarantee::ReadYourWrites, session, at, progress),
                mr: self.first_with(Guarantee::MonotonicReads, session, at, progress),
                wfr: self.first_with(Guarantee::WritesFollowReads, session, at, progress),
                mw: self.first_with(Guarantee::MonotonicWrites, session, at, progress),
            },
        }
    }

    /// What became of each session that has an entry, by one pass over the entries.
    pub(crate) fn pass(&self) -> [Option<Progress>; SESSIONS]
        ensures sized { length result ≡ SESSIONS }
        ensures known { (session : ℕ) → session < SESSIONS → IsKnown self.now.dumps self.now.entries session (length self.now.entries) (slice_index_or result session None) }
    {
        let mut known = [None; SESSIONS];
        for at in 0..self.size() {
            let entry = self.entry(at);
            let session = usize::from(entry.session.index);
            let progress = Progress::of_known(known[session], entry.session);
            known[session] = Some(self.progress_with(entry.session, at, &progress));
        }
        known
    }
}
