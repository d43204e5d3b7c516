ghost use Rattle.std.specs.Prelude.{◌≡◌, ◌<◌, ◌≤◌, IfOk, MatchResult, length};
ghost use Rattle.bayou_base.specs.declared.limits.TheConstants.{SESSIONS};
ghost use Rattle.bayou_audit.specs.Blanks.{AreBlanksOf, named};
ghost use Rattle.bayou_audit.specs.Settles.{IsLockedSettled, IsLockedUnsettled};
ghost use Rattle.bayou_audit.specs.Totals.{AreNewShares, with_filed, with_slip_out, with_slip_spent};

use crate::book::{Book, Full};
use crate::book_settled::{BookSettled, Unsettled};
use crate::ledgers::{Blanks, Ledgers};
use crate::share::{Share, Slip};
use crate::totals::Totals;
use bayou_base::Entry;
use std::alloc::{AllocError, Global};
use std::sync::{Mutex, Wait};

/// A book behind its lock, which the threads of all sessions share. Each call takes the lock once, and may wait for it.
#[derive(Drop)]
pub struct AuditBook<K: Ledgers> {
    book: Mutex<Book<K>>,
}

impl<K: Ledgers> AuditBook<K> {
    /// A book of this capacity, and a share of it for each of the first so many sessions, in their order.
    pub fn new(
        alloc: Global,
        blanks: Blanks,
        shares: u8,
        capacity: usize,
    ) -> Result<(Self, Vec<Share<K>>), AllocError>
        requires blanks { AreBlanksOf blanks (named K.Slips.name K.Slips.parts) (named K.Reads.name K.Reads.parts) (named K.Writes.name K.Writes.parts) (named K.Refusals.name K.Refusals.parts) shares }
        requires some { (0 < shares) × (shares ≤ SESSIONS) }
        ensures { IfOk result (λ made. AreNewShares shares made.1.items) }
    {
        let (book, made) = Book::new(alloc, blanks, shares, capacity)?;
        Ok((
            AuditBook {
                book: Mutex::new(book),
            },
            made,
        ))
    }

    /// As [`Book::claim`].
    pub fn claim<R: Wait>(&self, rt: &R, share: &mut Share<K>) -> Result<Slip<K>, Full>
        ensures { MatchResult result
            (λ slip. (slip ≡ share.old.session) × (share.new ≡ with_slip_out share.old))
            (λ _. share.new ≡ share.old) }
    {
        self.book.lock(rt).claim(share)
    }

    /// As [`Book::file`].
    pub fn file<R: Wait>(&self, rt: &R, slip: Slip<K>, share: &mut Share<K>, entry: Entry)
        requires sessions { (slip ≡ share.old.session) × (entry.session ≡ share.old.session) }
        requires out { 0 < share.old.totals.slips }
        ensures { share.new ≡ with_filed share.old entry }
    {
        self.book.lock(rt).file(slip, share, entry)
    }

    /// As [`Book::void`].
    pub fn void<R: Wait>(&self, rt: &R, slip: Slip<K>, share: &mut Share<K>)
        requires session { slip ≡ share.old.session }
        requires out { 0 < share.old.totals.slips }
        ensures { share.new ≡ with_slip_spent share.old }
    {
        self.book.lock(rt).void(slip, share)
    }

    /// Its totals, at some time during the call.
    pub fn totals<R: Wait>(&self, rt: &R) -> Totals {
        self.book.lock(rt).totals()
    }

    /// A copy of its entries, at some time during the call, in the order in which they were filed.
    pub fn entries<R: Wait>(&self, rt: &R, alloc: Global) -> Result<Vec<Entry>, AllocError> {
        self.book.lock(rt).entries(alloc)
    }

    /// The totals and the entries, where all shares are back and no slip is out. Else book and shares come back.
    pub fn settle(self, shares: Vec<Share<K>>) -> Result<BookSettled, Unsettled<Self, K>>
        ensures { MatchResult result
            (λ settled. IsLockedSettled K.Slips.parts shares.items settled)
            (λ left. IsLockedUnsettled K.Slips.parts shares.items left.fault × (left.shares.items ≡ shares.items)) }
    {
        let AuditBook { book } = self;
        match book.into_inner().settle(shares) {
            Ok(settled) => Ok(settled),
            Err(left) => {
                let Unsettled {
                    fault,
                    book,
                    shares,
                } = left;
                Err(Unsettled {
                    fault,
                    book: AuditBook {
                        book: Mutex::new(book),
                    },
                    shares,
                })
            }
        }
    }
}
