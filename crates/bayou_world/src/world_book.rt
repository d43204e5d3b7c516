//! The book of a run.
ghost use Rattle.std.specs.Prelude.{◌≡◌, [], IfOk};
ghost use Rattle.bayou_base.specs.declared.limits.TheConstants.{SESSIONS as SESSIONS_NUMBER};
ghost use Rattle.bayou_audit.specs.Blanks.{AreBlanksOf, named};
ghost use Rattle.bayou_audit.specs.Totals.{is_read, is_refusal, is_write, number_of, totals_of};
ghost use Rattle.bayou_world.specs.Inner.WorldBooks.{FollowsInBook};
ghost use Rattle.bayou_world.specs.Steps.{FileStep};

use crate::reply::Reply;
use crate::state::State;
use bayou_audit::{Blanks, Book, Ledgers, Share, Totals};
use bayou_base::{SESSIONS, SessionId};
use std::alloc::{AllocError, Global};
use std::marker::Model;

/// The book of a run, with a share for each session that there may be.
#[derive(Drop)]
pub struct WorldBook<K: Ledgers> {
    book: Book<K>,
    shares: Vec<Share<K>>,
}

impl<K: Ledgers> Model for WorldBook<K> {
    ghost use Rattle.std.specs.Prelude.{◌≡◌};
    ghost use Rattle.bayou_world.specs.Inner.WorldBooks.{AreOfSessions, Booking};

    ghost Value = { Booking };

    ghost view = { λ f. record { capacity = f.book.capacity; entries = f.book.entries } };

    ghost invariant = { λ f. (f.book.totals.slips ≡ 0) × AreOfSessions f.shares.items };
}

impl<K: Ledgers> WorldBook<K> {
    /// A book of this capacity, in which nothing was entered.
    pub fn new(alloc: Global, blanks: Blanks, capacity: usize) -> Result<Self, AllocError>
        requires blanks { AreBlanksOf blanks (named K.Slips.name K.Slips.parts) (named K.Reads.name K.Reads.parts) (named K.Writes.name K.Writes.parts) (named K.Refusals.name K.Refusals.parts) SESSIONS_NUMBER }
        ensures { IfOk result (λ book. book ≡ record { capacity = capacity; entries = [] }) }
    {
        let (book, shares) = Book::new(alloc, blanks, SESSIONS as u8, capacity)?;
        Ok(WorldBook { book, shares })
    }

    /// The totals of what was entered.
    pub fn totals(&self) -> Totals
        ensures { result ≡ totals_of 0 (number_of is_read self.now.entries) (number_of is_write self.now.entries) (number_of is_refusal self.now.entries) }
    {
        self.book.totals()
    }

    /// Enters the session's oldest operation that waits for it. An entry of another session never waits there.
    pub fn file(&mut self, state: &mut State, who: SessionId) -> Reply
        ensures follows { FollowsInBook state.old self.old (λ machine next. FileStep machine who.index result next) state.new self.new }
        ensures same { state.new.servers ≡ state.old.servers }
    {
        let share = &mut self.shares[usize::from(who.index)];
        let Ok(slip) = self.book.claim(share) else {
            return Reply::Skipped;
        };
        let Some(entry) = state.oldest(who) else {
            self.book.void(slip, share);
            return Reply::Skipped;
        };
        if entry.session != share.session() {
            self.book.void(slip, share);
            return Reply::Skipped;
        }
        self.book.file(slip, share, entry);
        Reply::Filed
    }
}
