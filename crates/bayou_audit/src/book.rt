ghost use Rattle.std.specs.Prelude.{◌≡◌, ◌<◌, ◌≤◌, ◌+◌, ◌↔◌, IfOk, IsErr, MatchOption, MatchResult, length};
ghost use Rattle.bayou_base.specs.declared.limits.TheConstants.{SESSIONS};
ghost use Rattle.bayou_audit.specs.Blanks.{AreBlanksOf, named};
ghost use Rattle.bayou_audit.specs.Inner.Parts.{IsOutAt};
ghost use Rattle.bayou_audit.specs.Settles.{IsSettled, IsUnsettled};
ghost use Rattle.bayou_audit.specs.Totals.{AreNewShares, IsExact, new_book, no_totals, sums_of, with_claim, with_entry, with_filed, with_slip_out, with_slip_spent, with_void};

use crate::book_settled::{BookSettled, SettleFault, Unsettled};
use crate::ledgers::{Blanks, Ledgers};
use crate::share::{Parts, Share, Slip};
use crate::tally::Tallies;
use crate::totals::Totals;
use bayou_base::{Entry, SESSIONS, SessionId, What};
use std::alloc::{AllocError, Global};
use std::marker::{Model, PhantomData};

/// Why no slip is handed out: entries and slips that are out fill the book.
#[derive(Clone, Copy, Debug, PartialEq, Eq)]
pub struct Full;

/// The book of what was served. All its room is reserved as it is made.
#[derive(Drop)]
pub struct Book<K: Ledgers> {
    // How many shares were made.
    shares: usize,
    capacity: usize,
    entries: Vec<Entry>,
    totals: Tallies<K>,
    // No part of the ledgers, to which those of the shares are put in the end.
    rest: Parts<K>,
}

impl<K: Ledgers> Model for Book<K> {
    ghost use Rattle.std.specs.Prelude.{◌≡◌, ◌≤◌, vec_capacity};
    ghost use Rattle.bayou_audit.specs.Totals.{Booked, IsExact, no_totals};

    ghost Value = { Booked };

    ghost view = { λ b. record { shares = b.shares; capacity = b.capacity; entries = b.entries.items; totals = b.totals } };

    ghost invariant = { λ b. IsExact (record { shares = b.shares; capacity = b.capacity; entries = b.entries.items; totals = b.totals })
        × (b.capacity ≤ vec_capacity b.entries) × (b.shares ≡ K.Slips.parts) × (b.shares ≡ K.Reads.parts) × (b.shares ≡ K.Writes.parts) × (b.shares ≡ K.Refusals.parts)
        × (b.rest.parts ≡ 0) × (b.rest.totals ≡ no_totals) };
}

/// Shares out all parts, one to each of the first so many sessions. What is left is no part.
fn share_out<K: Ledgers>(
    alloc: Global,
    all: Parts<K>,
    shares: u8,
) -> Result<(Parts<K>, Vec<Share<K>>), AllocError>
    requires one_each { all.parts ≡ shares }
    requires none { all.totals ≡ no_totals }
    requires sessions { shares ≤ SESSIONS }
    ensures rest { IfOk result (λ made. (made.0.parts ≡ 0) × (made.0.totals ≡ no_totals)) }
    ensures shares { IfOk result (λ made. AreNewShares shares made.1.items) }
{
    let mut all = all;
    let mut made = Vec::with_capacity(alloc, usize::from(shares))?;
    for index in 0..shares {
        made.push_reserved(Share {
            session: SessionId { index },
            out: 0,
            parts: all.split_one(),
        });
    }
    Ok((all, made))
}

/// The place of the first share of which a slip is out.
fn first_out<K: Ledgers>(shares: &[Share<K>]) -> Option<usize>
    ensures { MatchOption result
        ((sums_of shares.now).slips ≡ 0)
        (λ at. (at < length shares.now) × IsOutAt shares.now at × (0 < (sums_of shares.now).slips)) }
{
    for at in 0..shares.len() {
        let share = &shares[at];
        if share.out > 0 {
            return Some(at);
        }
    }
    None
}

/// Puts the parts of all shares together.
fn gather<K: Ledgers>(rest: Parts<K>, shares: Vec<Share<K>>) -> Parts<K>
    requires { (rest.parts ≡ 0) × (rest.totals ≡ no_totals) }
    ensures parts { result.parts ≡ length shares.items }
    ensures totals { result.totals ≡ sums_of shares.items }
    ensures within { result.parts ≤ K.Slips.parts }
{
    let mut all = rest;
    for share in shares {
        let Share {
            session: _,
            out: _,
            parts,
        } = share;
        all.merge(parts);
    }
    all
}

impl<K: Ledgers> Book<K> {
    /// A book of this capacity, and a share of it for each of the first so many sessions, in their order.
    pub fn new(
        alloc: Global,
        blanks: Blanks,
        shares: u8,
        capacity: usize,
    ) -> Result<(Self, Vec<Share<K>>), AllocError>
        requires blanks { AreBlanksOf blanks (named K.Slips.name K.Slips.parts) (named K.Reads.name K.Reads.parts) (named K.Writes.name K.Writes.parts) (named K.Refusals.name K.Refusals.parts) shares }
        requires some { (0 < shares) × (shares ≤ SESSIONS) }
        ensures book { IfOk result (λ made. made.0 ≡ new_book shares capacity) }
        ensures shares { IfOk result (λ made. AreNewShares shares made.1.items) }
    {
        let Blanks {
            slips,
            reads,
            writes,
            refusals,
        } = blanks;
        let (slips, all_slips) = slips.open::<K::Slips>();
        let (reads, all_reads) = reads.open::<K::Reads>();
        let (writes, all_writes) = writes.open::<K::Writes>();
        let (refusals, all_refusals) = refusals.open::<K::Refusals>();
        let all = Parts {
            slips: all_slips,
            reads: all_reads,
            writes: all_writes,
            refusals: all_refusals,
        };
        let (rest, made) = share_out(alloc, all, shares)?;
        let book = Book {
            shares: usize::from(shares),
            capacity,
            entries: Vec::with_capacity(alloc, capacity)?,
            totals: Tallies::new(slips, reads, writes, refusals),
            rest,
        };
        Ok((book, made))
    }

    /// Hands out a slip to the session of the share, and keeps room for its entry.
    pub fn claim(&mut self, share: &mut Share<K>) -> Result<Slip<K>, Full>
        ensures full { IsErr result ↔ (length self.old.entries + self.old.totals.slips ≡ self.old.capacity) }
        ensures claimed { MatchResult result
            (λ slip. (slip ≡ share.old.session) × (self.new ≡ with_claim self.old) × (share.new ≡ with_slip_out share.old))
            (λ _. (self.new ≡ self.old) × (share.new ≡ share.old)) }
        ensures exact { IsExact self.old × IsExact self.new }
    {
        if self.entries.len() + self.totals.totals().slips >= self.capacity {
            return Err(Full);
        }
        self.totals.bound(&mut share.parts);
        self.totals.hand_out(&mut share.parts);
        share.out += 1;
        Ok(Slip {
            session: share.session,
            marker: PhantomData,
        })
    }

    /// Spends the slip on the entry, which is put at the end.
    pub fn file(&mut self, slip: Slip<K>, share: &mut Share<K>, entry: Entry)
        requires sessions { (slip ≡ share.old.session) × (entry.session ≡ share.old.session) }
        requires out { 0 < share.old.totals.slips }
        ensures filed { (self.new ≡ with_entry self.old entry) × (share.new ≡ with_filed share.old entry) }
        ensures exact { IsExact self.old × IsExact self.new }
    {
        self.void(slip, share);
        self.totals.count(&entry.what, &mut share.parts);
        self.entries.push_reserved(entry);
    }

    /// Spends the slip on nothing.
    pub fn void(&mut self, slip: Slip<K>, share: &mut Share<K>)
        requires session { slip ≡ share.old.session }
        requires out { 0 < share.old.totals.slips }
        ensures was_out { 0 < self.old.totals.slips }
        ensures voided { (self.new ≡ with_void self.old) × (share.new ≡ with_slip_spent share.old) }
        ensures exact { IsExact self.old × IsExact self.new }
    {
        let Slip {
            session: _,
            marker: _,
        } = slip;
        self.totals.spend(&mut share.parts);
        share.out -= 1;
    }

    /// Its totals.
    pub fn totals(&self) -> Totals
        ensures value { result ≡ self.now.totals }
        ensures exact { IsExact self.now }
    {
        self.totals.totals()
    }

    /// Its entries, in the order in which they were filed.
    pub fn filed(&self) -> &[Entry]
        ensures { result.now ≡ self.now.entries }
    {
        self.entries.as_slice()
    }

    /// A copy of its entries, in the order in which they were filed.
    pub fn entries(&self, alloc: Global) -> Result<Vec<Entry>, AllocError>
        ensures value { IfOk result (λ entries. entries.items ≡ self.now.entries) }
        ensures exact { IsExact self.now }
    {
        let mut entries = Vec::with_capacity(alloc, self.entries.len())?;
        for entry in &self.entries {
            entries.push_reserved(entry.copy());
        }
        Ok(entries)
    }

    /// The totals and the entries, where all shares are back and no slip is out. Else book and shares come back.
    pub fn settle(mut self, mut shares: Vec<Share<K>>) -> Result<BookSettled, Unsettled<Self, K>>
        ensures settled { MatchResult result
            (λ settled. IsSettled self shares.items settled)
            (λ left. IsUnsettled self shares.items left.fault × (left.book ≡ self) × (left.shares.items ≡ shares.items)) }
        ensures exact { IsExact self }
    {
        if shares.len() < self.shares {
            return Err(Unsettled {
                fault: SettleFault::ShareMissing,
                book: self,
                shares,
            });
        }
        if let Some(at) = first_out(&shares) {
            let share = &mut shares[at];
            self.totals.bound(&mut share.parts);
            return Err(Unsettled {
                fault: SettleFault::SlipOut,
                book: self,
                shares,
            });
        }
        let totals = self.totals();
        let Book {
            totals: mut tallies,
            rest,
            entries,
            ..
        } = self;
        let mut all = gather(rest, shares);
        tallies.audit(&mut all);
        Ok(BookSettled { totals, entries })
    }
}
