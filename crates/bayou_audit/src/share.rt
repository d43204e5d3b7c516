ghost use Rattle.std.specs.Prelude.{◌≡◌, ◌<◌, ◌≤◌, ◌+◌};
ghost use Rattle.bayou_audit.specs.Totals.{added, no_totals};

use crate::ledgers::Ledgers;
use bayou_base::SessionId;
use std::marker::{Model, PhantomData};
use std::sync::ledger;

/// Parts of each of the four ledgers, with what is counted on them. They take no memory.
#[derive(Drop)]
pub(crate) struct Parts<K: Ledgers> {
    pub(crate) slips: ledger::Share<K::Slips>,
    pub(crate) reads: ledger::Share<K::Reads>,
    pub(crate) writes: ledger::Share<K::Writes>,
    pub(crate) refusals: ledger::Share<K::Refusals>,
}

impl<K: Ledgers> Model for Parts<K> {
    ghost use Rattle.std.specs.Prelude.{◌≡◌};
    ghost use Rattle.bayou_audit.specs.Inner.Parts.{PartsOf, parts_of};

    ghost Value = { PartsOf };

    ghost view = { λ p. parts_of p.slips.parts p.slips.amount p.reads.amount p.writes.amount p.refusals.amount };

    ghost invariant = { λ p. (p.reads.parts ≡ p.slips.parts) × (p.writes.parts ≡ p.slips.parts) × (p.refusals.parts ≡ p.slips.parts) };
}

impl<K: Ledgers> Parts<K> {
    /// One of the parts, on which nothing is counted yet.
    pub(crate) fn split_one(&mut self) -> Self
        requires some { 0 < self.old.parts }
        requires none { self.old.totals ≡ no_totals }
        ensures one { (result.parts ≡ 1) × (result.totals ≡ no_totals) }
        ensures left { (self.new.parts + 1 ≡ self.old.parts) × (self.new.totals ≡ no_totals) }
    {
        Parts {
            slips: self.slips.split_off(1, 0),
            reads: self.reads.split_off(1, 0),
            writes: self.writes.split_off(1, 0),
            refusals: self.refusals.split_off(1, 0),
        }
    }

    /// Puts these parts to the others.
    pub(crate) fn merge(&mut self, others: Self)
        ensures parts { self.new.parts ≡ self.old.parts + others.parts }
        ensures totals { self.new.totals ≡ added self.old.totals others.totals }
        ensures within { self.new.parts ≤ K.Slips.parts }
    {
        let Parts {
            slips,
            reads,
            writes,
            refusals,
        } = others;
        self.slips.merge(slips);
        self.reads.merge(reads);
        self.writes.merge(writes);
        self.refusals.merge(refusals);
    }
}

/// What a session has a part in of each total of its book.
#[derive(Drop)]
pub struct Share<K: Ledgers> {
    pub(crate) session: SessionId,
    // How many of its slips are out.
    pub(crate) out: usize,
    pub(crate) parts: Parts<K>,
}

impl<K: Ledgers> Model for Share<K> {
    ghost use Rattle.std.specs.Prelude.{◌≡◌};
    ghost use Rattle.bayou_audit.specs.Totals.{Shared};

    ghost Value = { Shared };

    ghost view = { λ s. record { session = s.session; totals = s.parts.totals } };

    ghost invariant = { λ s. (s.parts.parts ≡ 1) × (s.out ≡ s.parts.totals.slips) };
}

impl<K: Ledgers> Share<K> {
    /// Whose share it is.
    pub fn session(&self) -> SessionId
        ensures { result ≡ self.now.session }
    {
        self.session
    }
}

/// Room in the book for the entry of one operation of this session. It can't be forgotten: it is spent by `file` or `void`.
pub struct Slip<K: Ledgers> {
    pub(crate) session: SessionId,
    pub(crate) marker: PhantomData<K>,
}

impl<K: Ledgers> Model for Slip<K> {
    ghost use Rattle.bayou_base.specs.declared.session.SessionId.{SessionId as Name};

    ghost Value = { Name };

    ghost view = { λ s. s.session };
}
