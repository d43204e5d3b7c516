//! What is filed of the operations of a script.
ghost use Rattle.std.specs.Prelude.{◌≡◌, ◌≢◌, ◌<◌, ◌++◌, [], IfOk, List, None, length};
ghost use Rattle.bayou_audit.specs.Blanks.{AreBlanksOf, named};
ghost use Rattle.bayou_base.specs.declared.entry.Entry.{Entry as Filed};
ghost use Rattle.bayou_base.specs.declared.limits.TheConstants.{MAX_PLACES, SESSIONS as SESSIONS_NUMBER};
ghost use Rattle.bayou_machine.specs.Filed.{Files, totals_filed, what_told};

use bayou_answers::Answer;
use bayou_audit::{Blanks, Book, Ledgers, Share, Totals};
use bayou_base::{Entry, MAX_PLACES, SESSIONS, ServerId, SessionId, What};
use bayou_session::Session;
use std::alloc::{AllocError, Global};
use std::marker::Model;

/// The book of a script, with a share for each session that there may be. No slip is out.
#[derive(Drop)]
pub(crate) struct ScriptBook<K: Ledgers> {
    book: Book<K>,
    shares: Vec<Share<K>>,
}

impl<K: Ledgers> Model for ScriptBook<K> {
    ghost use Rattle.std.specs.Prelude.{◌≡◌};
    ghost use Rattle.bayou_machine.specs.Filed.{Filings};
    ghost use Rattle.bayou_machine.specs.Inner.Shares.{AreOfSessions};

    ghost Value = { Filings };

    ghost view = { λ b. record { capacity = b.book.capacity; entries = b.book.entries } };

    ghost invariant = { λ b. (b.book.totals.slips ≡ 0) × AreOfSessions b.shares.items };
}

/// What a session's operation was served, or that it was refused; nothing where no reply reached the session.
fn what_of(answer: &Answer) -> Option<What>
    ensures { result ≡ what_told answer.now }
{
    match answer {
        Answer::Wrote { accepted, .. } => Some(What::Write(
            accepted.wid,
            accepted.stamp,
            accepted.deps,
        )),
        Answer::Read { key, seen, .. } => Some(What::Read(key.copy(), seen.vector)),
        Answer::Refused { .. } => Some(What::Refused),
        Answer::Done
        | Answer::Lost { .. }
        | Answer::NotAgain { .. }
        | Answer::Logged { .. }
        | Answer::Stopped { .. }
        | Answer::Recovered(_)
        | Answer::Exchanged(_)
        | Answer::Counted(_)
        | Answer::Judged(_)
        | Answer::Surveyed(_)
        | Answer::Booked(_) => None,
    }
}

impl<K: Ledgers> ScriptBook<K> {
    /// A book of this capacity, in which nothing was filed.
    pub(crate) fn new(alloc: Global, blanks: Blanks, capacity: usize) -> Result<Self, AllocError>
        requires blanks { AreBlanksOf blanks (named K.Slips.name K.Slips.parts) (named K.Reads.name K.Reads.parts) (named K.Writes.name K.Writes.parts) (named K.Refusals.name K.Refusals.parts) SESSIONS_NUMBER }
        ensures { IfOk result (λ book. book ≡ record { capacity = capacity; entries = [] }) }
    {
        let (book, shares) = Book::new(alloc, blanks, SESSIONS as u8, capacity)?;
        Ok(ScriptBook { book, shares })
    }

    /// The totals of what was filed.
    pub(crate) fn totals(&self) -> Totals
        ensures { result ≡ totals_filed self.now.entries }
    {
        self.book.totals()
    }

    /// What was filed.
    pub(crate) fn filed(&self) -> &[Entry]
        ensures { result.now ≡ self.now.entries }
    {
        self.book.filed()
    }

    /// Copies of what was filed.
    pub(crate) fn entries(&self, alloc: Global) -> Result<Vec<Entry>, AllocError>
        ensures { IfOk result (λ entries. entries.items ≡ self.now.entries) }
    {
        self.book.entries(alloc)
    }

    /// Files what this session, as it was before, hears of an operation that it tried at the server; nothing where no reply reached it.
    pub(crate) fn file(
        &mut self,
        who: SessionId,
        session: &Session,
        server: ServerId,
        answer: &Answer,
    )
        requires room { length self.old.entries < self.old.capacity }
        requires place { what_told answer.now ≢ None → session.now.begun < MAX_PLACES }
        ensures { (filed : List Filed) × (self.new ≡ record self.old { entries = self.old.entries ++ filed })
            × Files who.index server.index session.now (what_told answer.now) filed }
    {
        let Some(what) = what_of(answer) else {
            return;
        };
        let share = &mut self.shares[usize::from(who.index)];
        let Ok(slip) = self.book.claim(share) else {
            unreachable!();
        };
        let entry = Entry {
            session: share.session(),
            place: MAX_PLACES - session.left() + 1,
            asks: session.asks(),
            server,
            what,
        };
        self.book.file(slip, share, entry)
    }
}
