//! What servers are asked to learn what is final.
ghost use Rattle.std.specs.Prelude.{◌≡◌, ◌||◌, ℕ, List, true, IfErr, IfOk, IfSome, MatchBool, MatchOption, None, Ok, OnOk, Some, map, slice_get};
ghost use Rattle.bayou_connect.specs.Beyond.{AreKeysOf, has_key, is_among, standing_by};
ghost use Rattle.bayou_connect.specs.Faults.{IsStateFault};
ghost use Rattle.bayou_connect.specs.Finals.{HasForgotten, HasGoneOn, HasMade, HasSettled, HasTold, IsLearnt, IsNear, finals_in, keeps_finals as keeps, outlook_of, own_in};
ghost use Rattle.bayou_connect.specs.Viewing.{IsSameStore};
ghost use Rattle.bayou_lang.specs.Changes.{op_key, program_writes};

use crate::deadline::milliseconds;
use crate::fault::ConnectFault;
use crate::reach::Purpose;
use crate::store::{Store, answered};
use bayou_base::limits::MAX_BEYOND_FINAL;
use bayou_base::{Key, MAX_WRITES, Vector, Wid};
use bayou_final::Standing;
use bayou_lang::{Op, RestingProgram, RestingWrite};
use bayou_net::Sockets;
use bayou_outlook::OwnWrite;
use bayou_wire::{Became, Placed};
use std::alloc::{AllocError, Global};
use std::collections::BTreeSet;
use std::fs::{File, Files};
use std::time::Clock;

/// Which keys the Writes may change that a server holds and that aren't final.
#[derive(Drop)]
pub(crate) struct Beyond {
    keys: BTreeSet<Key>,
}

// The key of an op.
fn key_of(op: &Op) -> &Key
    ensures { result.now ≡ op_key op.now }
{
    match op {
        Op::Put(key, _) | Op::Del(key) => key,
    }
}

// Puts the keys of the ops among the others.
fn add_keys(keys: &mut BTreeSet<Key>, ops: &[Op]) -> Result<(), AllocError>
    ensures { OnOk result ((key : List ℕ) → has_key keys.new key ≡ (has_key keys.old key || is_among (map op_key ops.now) key)) }
{
    for op in ops {
        keys.insert(key_of(op).copy())?;
    }
    Ok(())
}

// Puts the keys that the program may change among the others.
fn add_program(keys: &mut BTreeSet<Key>, program: &RestingProgram) -> Result<(), AllocError>
    ensures { OnOk result ((key : List ℕ) → has_key keys.new key ≡ (has_key keys.old key || is_among (program_writes program.now) key)) }
{
    add_keys(keys, program.update())?;
    for alternative in program.merge() {
        add_keys(keys, alternative.ops())?;
    }
    Ok(())
}

impl Beyond {
    // Of these Writes.
    fn of(alloc: Global, writes: &[RestingWrite]) -> Result<Self, AllocError>
        ensures { IfOk result (λ beyond. AreKeysOf writes.now beyond.keys) }
    {
        let mut keys = BTreeSet::new(alloc);
        for write in writes {
            add_program(&mut keys, write.program())?;
        }
        Ok(Beyond { keys })
    }

    /// How the value of a key stands: it may change yet where one of the Writes may change it.
    pub(crate) fn standing(&self, key: &Key) -> Standing
        ensures { result ≡ standing_by self.now.keys key.now }
    {
        if self.keys.contains(key) {
            Standing::Tentative
        } else {
            Standing::Final
        }
    }
}

impl Store {
    // What the server of this place in the list holds, if it isn't silent and tells that: to a read of no session.
    fn view_at<T: Sockets + Clock>(
        &mut self,
        rt: &T,
        at: usize,
    ) -> Result<Option<Vector>, ConnectFault>
        ensures { IsSameStore self.old self.new }
    {
        let (alloc, time) = (self.alloc, self.timeout_seconds);
        let Some(access) = self.accesses.get_mut(at) else {
            return Ok(None);
        };
        if access.is_silent(milliseconds(rt)) {
            return Ok(None);
        }
        let Some(mut link) = access.link(rt, &mut self.greeter, time, Purpose::Requests) else {
            return Ok(None);
        };
        let told = link.vector(alloc);
        access.settle(rt, &link);
        let view = answered(told)?;
        if let Some(view) = &view {
            self.hear_at(at, view);
        }
        Ok(view)
    }

    // What each server holds, by its place in the list, if it tells that.
    fn views<T: Sockets + Clock>(&mut self, rt: &T) -> Result<Vec<Option<Vector>>, ConnectFault>
        ensures { IsSameStore self.old self.new }
    {
        let mut views = Vec::with_capacity(self.alloc, self.accesses.len())?;
        for at in 0..self.accesses.len() {
            views.push(self.view_at(rt, at)?)?;
        }
        Ok(views)
    }

    /// The server of this place in the list told that it holds this.
    pub(crate) fn hear_at(&mut self, at: usize, view: &Vector)
        ensures { (self.new.sessions ≡ self.old.sessions) × (self.new.state ≡ self.old.state) × (self.new.book ≡ self.old.book) × (self.new.accesses ≡ self.old.accesses) × (self.new.read_last ≡ self.old.read_last) × (self.new.is_full ≡ self.old.is_full) }
    {
        let alloc = self.alloc;
        let (Some(access), Some(kept)) = (self.accesses.get(at), &mut self.views) else {
            return;
        };
        if let Some(servers) = access.servers() {
            kept.hear(alloc, servers, access.place.id, view);
        }
    }

    // Which counts are known to be final, where a server that holds this has all of them, and not too much beyond. As long as nothing is known to be, all may be
    // fetched once.
    fn finals_below(&self, view: &Vector) -> Option<Vector>
        ensures none { IfSome (finals_in (outlook_of self.now.views)) (λ finals. result ≡ None → ¬ (IsNear finals view.now)) }
        ensures some { IfSome result (λ finals. (finals_in (outlook_of self.now.views) ≡ Some finals) × IsNear finals view.now) }
    {
        let outlook = self.views.as_ref()?.outlook()?;
        let finals = outlook.finality().finals();
        let known = finals.total();
        let most = if known == 0 {
            MAX_WRITES
        } else {
            MAX_BEYOND_FINAL
        };
        if view.dominates(finals) && view.total().saturating_sub(known) <= most {
            Some(*finals)
        } else {
            None
        }
    }

    // What the server of this place in the list sends of what it holds and these counts don't cover, if it sends all of it.
    fn lacking_at<T: Sockets + Clock>(
        &mut self,
        rt: &T,
        at: usize,
        counts: &Vector,
    ) -> Result<Option<Vec<RestingWrite>>, ConnectFault>
        ensures { IsSameStore self.old self.new × (self.new.views ≡ self.old.views) }
    {
        let (alloc, time) = (self.alloc, self.timeout_seconds);
        let Some(access) = self.accesses.get_mut(at) else {
            return Ok(None);
        };
        let Some(mut link) = access.link(rt, &mut self.greeter, time, Purpose::Requests) else {
            return Ok(None);
        };
        let told = link.lacking(alloc, counts);
        access.settle(rt, &link);
        answered(told)
    }

    // Whether all that a server holds is final, which holds this.
    fn settle(&mut self, view: &Vector) -> bool
        ensures settled { HasSettled (outlook_of self.old.views) view.now result (outlook_of self.new.views) }
        ensures same { IsSameStore self.old self.new × (self.new.accesses ≡ self.old.accesses) }
    {
        match &mut self.views {
            Some(views) => views.settle(view),
            None => false,
        }
    }

    /// Which keys may change yet at the server of this place in the list, which holds this, once it is known how far Writes are final; nothing where that
    /// isn't known, or the server doesn't tell it.
    pub(crate) fn beyond_at<T: Sockets + Clock>(
        &mut self,
        rt: &T,
        at: usize,
        view: &Vector,
    ) -> Result<Option<Beyond>, ConnectFault>
        ensures same { IsSameStore self.old self.new }
        ensures own { IfOk result (λ beyond. own_in (outlook_of self.new.views) ≡ own_in (outlook_of self.old.views)) }
        ensures gone_on { IfOk result (λ beyond. MatchOption beyond (finals_in (outlook_of self.new.views) ≡ finals_in (outlook_of self.old.views)) (IsLearnt (outlook_of self.old.views) view.now (outlook_of self.new.views))) }
    {
        if self.settle(view) {
            return Ok(Some(Beyond::of(self.alloc, &[])?));
        }
        let Some(counts) = self.finals_below(view) else {
            return Ok(None);
        };
        let Some(writes) = self.lacking_at(rt, at, &counts)? else {
            return Ok(None);
        };
        let Some(finals) = self.go_on_by(view, &writes) else {
            return Ok(None);
        };
        Ok(Some(Beyond::of(self.alloc, &writes[finals..])?))
    }

    // How many of these Writes, from the first on, are final, which a server sent that holds this: nothing where nothing is known.
    fn go_on_by(&mut self, view: &Vector, writes: &[RestingWrite]) -> Option<usize>
        ensures gone_on { HasGoneOn (outlook_of self.old.views) writes.now result (outlook_of self.new.views) }
        ensures same { IsSameStore self.old self.new × (self.new.accesses ≡ self.old.accesses) }
    {
        match &mut self.views {
            Some(views) => views.go_on(view, writes),
            None => None,
        }
    }

    // Which counts are known to be final.
    fn finals(&self) -> Option<Vector>
        ensures { result ≡ finals_in (outlook_of self.now.views) }
    {
        let outlook = self.views.as_ref()?.outlook()?;
        Some(*outlook.finality().finals())
    }

    // Learns of these servers, one after another, how far Writes are final, until one tells that more are.
    fn go_on<T: Sockets + Clock>(
        &mut self,
        rt: &T,
        views: &[Option<Vector>],
    ) -> Result<(), ConnectFault>
        ensures same { IsSameStore self.old self.new }
        ensures own { OnOk result (own_in (outlook_of self.new.views) ≡ own_in (outlook_of self.old.views)) }
    {
        for at in 0..views.len() {
            let before = self.finals();
            if let Some(view) = &views[at]
                && self.beyond_at(rt, at, view)?.is_some()
                && self.finals() != before
            {
                break;
            }
        }
        Ok(())
    }

    /// Asks each server that isn't silent what it holds, and learns how far Writes are final, where that is kept.
    pub(crate) fn look<T: Sockets + Clock>(&mut self, rt: &T) -> Result<(), ConnectFault>
        ensures same { IsSameStore self.old self.new }
        ensures none { self.old.views ≡ None → (result ≡ Ok tt) × (self.new ≡ self.old) }
    {
        if self.views.is_none() {
            return Ok(());
        }
        let views = self.views(rt)?;
        self.go_on(rt, &views)
    }

    /// The same, also where it isn't kept how far they are: what each server told that it holds, by its place in the list.
    pub(crate) fn look_around<T: Sockets + Clock>(
        &mut self,
        rt: &T,
    ) -> Result<Vec<Option<Vector>>, ConnectFault>
        ensures same { IsSameStore self.old self.new }
    {
        let views = self.views(rt)?;
        self.go_on(rt, &views)?;
        Ok(views)
    }

    /// What became of a Write, by the first server that holds it and tells that: its own first. Servers that are silent aren't asked.
    pub(crate) fn placed<T: Sockets + Clock>(
        &mut self,
        rt: &T,
        wid: Wid,
    ) -> Result<Option<Placed>, ConnectFault>
        ensures { IsSameStore self.old self.new × (self.new.views ≡ self.old.views) }
    {
        let first = self.place_of(wid.origin).unwrap_or(0);
        if first >= self.len() {
            return Ok(None);
        }
        for at in self.order(rt, first)? {
            let is_silent = match self.accesses.get(at) {
                Some(access) => access.is_silent(milliseconds(rt)),
                None => true,
            };
            if is_silent {
                continue;
            }
            if let Some(fate) = self.fate_at(rt, at, wid)?
                && let Some(placed) = fate.placed
            {
                return Ok(Some(placed));
            }
        }
        Ok(None)
    }

    /// Whether it is kept what is final, at a store with several servers: with one alone all is, at once.
    pub(crate) fn keeps_finals(&self) -> bool
        ensures { result ≡ keeps (outlook_of self.now.views) }
    {
        let Some(views) = &self.views else {
            return false;
        };
        match views.outlook() {
            Some(outlook) => outlook.finality().count() > 1,
            None => false,
        }
    }

    /// The own Write of this place, which wasn't reported as final yet.
    pub(crate) fn own_at(&self, place: usize) -> Option<OwnWrite>
        ensures { result ≡ slice_get (own_in (outlook_of self.now.views)) place }
    {
        let outlook = self.views.as_ref()?.outlook()?;
        match outlook.own().get(place) {
            Some(write) => Some(*write),
            None => None,
        }
    }

    /// Keeps an own Write, where it is kept what is final and the store has other servers: the one that goes for it.
    pub(crate) fn keep_own(&mut self, write: OwnWrite) -> Result<Option<OwnWrite>, AllocError>
        ensures kept { IfOk result (λ gone. MatchBool (keeps (outlook_of self.old.views))
            (HasMade (outlook_of self.old.views) write gone (outlook_of self.new.views)) ((gone ≡ None) × (self.new ≡ self.old))) }
        ensures same { IsSameStore self.old self.new × (self.new.accesses ≡ self.old.accesses) }
    {
        if !self.keeps_finals() {
            return Ok(None);
        }
        match &mut self.views {
            Some(views) => views.made(write),
            None => Ok(None),
        }
    }

    /// What is news of the own Write of this place, which became this.
    pub(crate) fn told(&mut self, place: usize, became: Became) -> Option<Standing>
        ensures told { HasTold (outlook_of self.old.views) place became result (outlook_of self.new.views) }
        ensures same { IsSameStore self.old self.new × (self.new.accesses ≡ self.old.accesses) }
    {
        match &mut self.views {
            Some(views) => views.told(place, became),
            None => None,
        }
    }

    /// The own Write of this place is kept no longer.
    pub(crate) fn forget_own(&mut self, place: usize)
        ensures forgotten { HasForgotten (outlook_of self.old.views) place (outlook_of self.new.views) }
        ensures same { IsSameStore self.old self.new × (self.new.accesses ≡ self.old.accesses) }
    {
        if let Some(views) = &mut self.views {
            views.forget(place);
        }
    }

    /// Keeps what is known to be final, where that is kept and was changed.
    pub(crate) fn keep_views<T: Files<File = File>>(&mut self, rt: &T) -> Result<(), ConnectFault>
        ensures same { IsSameStore self.old self.new × (self.new.accesses ≡ self.old.accesses) × (outlook_of self.new.views ≡ outlook_of self.old.views) }
        ensures kept { OnOk result (IfSome self.new.views (λ file. file.is_changed ≡ true → file.outlook ≡ None)) }
        ensures fault { IfErr result IsStateFault }
    {
        let alloc = self.alloc;
        match &mut self.views {
            Some(views) => views.keep(rt, alloc),
            None => Ok(()),
        }
    }
}
