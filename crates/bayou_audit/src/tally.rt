//! Numbers that are the sums over shares.
ghost use Rattle.std.specs.Prelude.{◌≡◌, ◌<◌, ◌≤◌, ◌+◌, ◌^◌};
ghost use Rattle.bayou_audit.specs.Inner.Parts.{HasRoom};
ghost use Rattle.bayou_audit.specs.Totals.{counted, no_totals, with_slip, without_slip};

use crate::ledgers::Ledgers;
use crate::share::Parts;
use crate::totals::Totals;
use bayou_base::What;
use std::marker::Model;
use std::sync::ledger::{Book, Ledger, Share};

/// A number that is the sum of the amounts of all shares of a ledger.
#[derive(Drop)]
struct Tally<L: Ledger> {
    count: usize,
    book: Book<L>,
    ghost same: { book.total ≡ count },
}

impl<L: Ledger> Tally<L> {
    /// The number of a new ledger.
    fn new(book: Book<L>) -> Self
        requires { book.total ≡ 0 }
        ensures { result.count ≡ 0 }
    {
        Tally { count: 0, book }
    }

    /// Adds one to the number and to the share.
    fn add_one(&mut self, share: &mut Share<L>)
        requires part { 0 < share.old.parts }
        requires fits { self.old.count + 1 < 2 ^ 64 }
        ensures count { self.new.count ≡ self.old.count + 1 }
        ensures amount { share.new.amount ≡ share.old.amount + 1 }
        ensures parts { share.new.parts ≡ share.old.parts }
    {
        self.book.add(share, 1);
        self.count += 1;
    }

    /// Takes one from the number and from the share.
    fn take_one(&mut self, share: &mut Share<L>)
        requires { 0 < share.old.amount }
        ensures count { self.new.count + 1 ≡ self.old.count }
        ensures amount { share.new.amount + 1 ≡ share.old.amount }
        ensures parts { share.new.parts ≡ share.old.parts }
    {
        self.book.audit(share);
        self.book.sub(share, 1);
        self.count -= 1;
    }

    /// Whoever has all parts has the whole number counted on them, and nobody more than that.
    fn audit(&mut self, share: &mut Share<L>)
        ensures bound { share.old.amount ≤ self.old.count }
        ensures whole { share.old.parts ≡ L.parts → share.old.amount ≡ self.old.count }
        ensures same { (self.new.count ≡ self.old.count) × (share.new.parts ≡ share.old.parts) × (share.new.amount ≡ share.old.amount) }
    {
        self.book.audit(share);
    }
}

/// The totals of a book: each is the sum over the shares.
#[derive(Drop)]
pub(crate) struct Tallies<K: Ledgers> {
    slips: Tally<K::Slips>,
    reads: Tally<K::Reads>,
    writes: Tally<K::Writes>,
    refusals: Tally<K::Refusals>,
}

impl<K: Ledgers> Model for Tallies<K> {
    ghost use Rattle.bayou_audit.specs.Totals.{totals_of};
    ghost use Rattle.bayou_audit.specs.declared.totals.Totals.{Totals as Counts};

    ghost Value = { Counts };

    ghost view = { λ t. totals_of t.slips.count t.reads.count t.writes.count t.refusals.count };
}

impl<K: Ledgers> Tallies<K> {
    /// The totals of new ledgers.
    pub(crate) fn new(
        slips: Book<K::Slips>,
        reads: Book<K::Reads>,
        writes: Book<K::Writes>,
        refusals: Book<K::Refusals>,
    ) -> Self
        requires { (slips.total ≡ 0) × (reads.total ≡ 0) × (writes.total ≡ 0) × (refusals.total ≡ 0) }
        ensures { result ≡ no_totals }
    {
        Tallies {
            slips: Tally::new(slips),
            reads: Tally::new(reads),
            writes: Tally::new(writes),
            refusals: Tally::new(refusals),
        }
    }

    /// The numbers alone.
    pub(crate) fn totals(&self) -> Totals
        ensures { result ≡ self.now }
    {
        Totals {
            slips: self.slips.count,
            reads: self.reads.count,
            writes: self.writes.count,
            refusals: self.refusals.count,
        }
    }

    /// No share of the slips that are out is more than all of them.
    pub(crate) fn bound(&mut self, parts: &mut Parts<K>)
        ensures within { parts.old.totals.slips ≤ self.old.slips }
        ensures same { (self.new ≡ self.old) × (parts.new ≡ parts.old) }
    {
        self.slips.audit(&mut parts.slips);
    }

    /// One slip more is out.
    pub(crate) fn hand_out(&mut self, parts: &mut Parts<K>)
        requires some { 0 < parts.old.parts }
        requires fits { self.old.slips + 1 < 2 ^ 64 }
        ensures totals { self.new ≡ with_slip self.old }
        ensures parts { (parts.new.parts ≡ parts.old.parts) × (parts.new.totals ≡ with_slip parts.old.totals) }
    {
        self.slips.add_one(&mut parts.slips);
    }

    /// One slip is spent.
    pub(crate) fn spend(&mut self, parts: &mut Parts<K>)
        requires { 0 < parts.old.totals.slips }
        ensures totals { self.new ≡ without_slip self.old }
        ensures out { 0 < self.old.slips }
        ensures parts { (parts.new.parts ≡ parts.old.parts) × (parts.new.totals ≡ without_slip parts.old.totals) }
    {
        self.slips.take_one(&mut parts.slips);
    }

    /// One entry more of this kind is filed.
    pub(crate) fn count(&mut self, what: &What, parts: &mut Parts<K>)
        requires some { 0 < parts.old.parts }
        requires fits { HasRoom self.old }
        ensures totals { self.new ≡ counted what.now self.old }
        ensures parts { (parts.new.parts ≡ parts.old.parts) × (parts.new.totals ≡ counted what.now parts.old.totals) }
    {
        match what {
            What::Read(..) => self.reads.add_one(&mut parts.reads),
            What::Write(..) => self.writes.add_one(&mut parts.writes),
            What::Refused => self.refusals.add_one(&mut parts.refusals),
        }
    }

    /// Whoever has all parts has the totals counted on them.
    pub(crate) fn audit(&mut self, parts: &mut Parts<K>)
        requires { (parts.old.parts ≡ K.Slips.parts) × (parts.old.parts ≡ K.Reads.parts) × (parts.old.parts ≡ K.Writes.parts) × (parts.old.parts ≡ K.Refusals.parts) }
        ensures whole { parts.old.totals ≡ self.old }
        ensures same { self.new ≡ self.old }
    {
        self.slips.audit(&mut parts.slips);
        self.reads.audit(&mut parts.reads);
        self.writes.audit(&mut parts.writes);
        self.refusals.audit(&mut parts.refusals);
    }
}
