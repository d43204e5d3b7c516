//! What a client keeps of what is final.
ghost use Rattle.std.specs.Prelude.{◌≡◌, ◌≤◌, ◌<◌, ◌++◌, ◌∷◌, ◌-◌, ◌↔◌, Bool, false, true, ◌+◌, [], if◌then◌else◌, IfOk, IfSome, IsSome, None, Some, IfNone, OnOk, drop, length, nat_lt, take, slice_get};
ghost use Rattle.bayou_base.specs.declared.limits.TheConstants.{MAX_OWN_WRITES as MOST, SERVERS as NUMBER};
ghost use Rattle.bayou_base.specs.Vector.{Covers, joined};
ghost use Rattle.bayou_final.specs.Known.{AreRising};
ghost use Rattle.bayou_final.specs.Views.{heard_with};
ghost use Rattle.bayou_lang.specs.Writes.{raised_by};
ghost use Rattle.bayou_outlook.specs.Own.{IsKeptAs, IsNews};

use bayou_base::limits::MAX_OWN_WRITES;
use bayou_base::{ServerId, Vector, Wid};
use bayou_final::{Finality, Standing};
use bayou_lang::RestingWrite;
use bayou_wire::Became;
use std::alloc::{AllocError, Global};

/// A Write of the client's own that wasn't reported as final yet.
#[derive(Clone, Copy, Debug, PartialEq, Eq)]
pub struct OwnWrite {
    pub wid: Wid,
    /// The clock of its stamp.
    pub clock: u32,
    /// What became of it, as it was reported last; nothing where it wasn't yet.
    pub told: Option<Became>,
}

/// What a client keeps of what is final at a store.
#[derive(Debug, Drop)]
pub struct Outlook {
    finality: Finality,
    own: Vec<OwnWrite>,
    ghost few: { length own.items ≤ MOST },
}

// What is news of a Write that became this, by what was reported of it last.
fn news_of(is_final: bool, before: Option<Became>, now: Became) -> Option<Standing>
    ensures { IsNews is_final before now result }
{
    if is_final {
        return Some(Standing::Final);
    }
    match before {
        None => Some(Standing::Tentative),
        Some(before) if before == now => None,
        Some(_) => Some(Standing::Changed),
    }
}

impl Outlook {
    /// Of a store of so many servers, before anything is known of them.
    pub fn new(alloc: Global, count: u8) -> Self
        requires { count ≤ NUMBER }
        ensures { (result.finality.count ≡ count) × (result.own.items ≡ []) }
    {
        Outlook {
            finality: Finality::new(count),
            own: Vec::new(alloc),
        }
    }

    /// Of a store of so many servers, where so much is known to be final.
    pub fn of(alloc: Global, count: u8, finals: Vector) -> Self
        requires { count ≤ NUMBER }
        ensures { (result.finality.count ≡ count) × (result.finality.finals ≡ finals) × (result.own.items ≡ []) }
    {
        Outlook {
            finality: Finality::new(count).with_finals(finals),
            own: Vec::new(alloc),
        }
    }

    /// What is known to be final.
    pub fn finality(&self) -> &Finality
        ensures { result.now ≡ self.now.finality }
    {
        &self.finality
    }

    /// As [`Finality::hear`].
    pub fn hear(&mut self, server: ServerId, view: &Vector)
        ensures heard { self.new.finality.views ≡ heard_with self.old.finality.views server.index view.now }
        ensures same { (self.new.own ≡ self.old.own) × (self.new.finality.finals ≡ self.old.finality.finals) × (self.new.finality.written ≡ self.old.finality.written) × (self.new.finality.count ≡ self.old.finality.count) }
    {
        self.finality.hear(server, view);
    }

    /// As [`Finality::settle`].
    pub fn settle(&mut self, vector: &Vector) -> bool
        ensures settled { result ≡ true → self.new.finality.finals ≡ joined self.old.finality.finals vector.now }
        ensures unsettled { result ≡ false → self.new.finality ≡ self.old.finality }
        ensures same { self.new.own ≡ self.old.own }
    {
        self.finality.settle(vector)
    }

    /// As [`Finality::go_on`].
    pub fn go_on(&mut self, vector: &Vector, writes: &[RestingWrite]) -> usize
        ensures within { result ≤ length writes.now }
        ensures order { 0 < result → AreRising writes.now }
        ensures finals { self.new.finality.finals ≡ raised_by self.old.finality.finals (take result writes.now) }
        ensures same { self.new.own ≡ self.old.own }
    {
        self.finality.go_on(vector, writes)
    }

    /// The own Writes, the oldest first.
    pub fn own(&self) -> &[OwnWrite]
        ensures value { result.now ≡ self.now.own.items }
        ensures few { length result.now ≤ MOST }
    {
        &self.own
    }

    /// One more own Write is kept. The oldest goes, and is given back, where there are as many as may be.
    pub fn made(&mut self, write: OwnWrite) -> Result<Option<OwnWrite>, AllocError>
        ensures kept { OnOk result (self.new.own.items ≡ drop (length self.old.own.items + 1 - MOST) self.old.own.items ++ write ∷ []) }
        ensures gone { IfOk result (λ gone. gone ≡ (if nat_lt (length self.old.own.items) MOST then None else slice_get self.old.own.items 0)) }
        ensures same { self.new.finality ≡ self.old.finality }
    {
        let gone = if self.own.len() >= MAX_OWN_WRITES {
            Some(self.own.remove(0))
        } else {
            None
        };
        self.own.push(write)?;
        Ok(gone)
    }

    /// A server told that the own Write of this place became this: what is news of that. One that is final is kept no longer.
    pub fn told(&mut self, place: usize, now: Became) -> Option<Standing>
        ensures news { IfSome (slice_get self.old.own.items place) (λ write. (is_final : Bool)
            × (is_final ≡ true ↔ Covers self.old.finality.finals write.wid.origin.index write.wid.seq) × IsNews is_final write.told now result) }
        ensures none { length self.old.own.items ≤ place → result ≡ None }
        ensures kept { IfSome (slice_get self.old.own.items place) (λ write. IsKeptAs self.old.own.items place write now result self.new.own.items) }
        ensures same { self.new.finality ≡ self.old.finality }
    {
        let write = *self.own.get(place)?;
        let news = news_of(self.finality.is_final(write.wid), write.told, now);
        if news == Some(Standing::Final) {
            self.own.remove(place);
        } else if let Some(kept) = self.own.get_mut(place) {
            kept.told = Some(now);
        }
        news
    }

    /// The own Write of this place is kept no longer.
    pub fn forget(&mut self, place: usize)
        ensures kept { place < length self.old.own.items → self.new.own.items ≡ take place self.old.own.items ++ drop (place + 1) self.old.own.items }
        ensures none { length self.old.own.items ≤ place → self.new ≡ self.old }
        ensures same { self.new.finality ≡ self.old.finality }
    {
        if place < self.own.len() {
            self.own.remove(place);
        }
    }
}
