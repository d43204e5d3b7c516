//! What takes the applied Writes back, the last one first.
ghost use Rattle.std.specs.Prelude.{◌≡◌, ℕ, ◌+◌, ◌-◌, ◌<◌, ◌≤◌, [], ◌∷◌, ◌++◌, All, IsTrue, MatchOption, OnOk, drop, length, reverse, take, vec_capacity, vec_len};
ghost use Rattle.arrayvec.specs.ArrayVec.{array_vec_len};
ghost use Rattle.bayou_base.specs.declared.limits.TheConstants.{MAX_OPS, MAX_WRITES};
ghost use Rattle.bayou_lang.specs.Changes.{after_changes};
ghost use Rattle.bayou_log.specs.Db.{database_of, room, has_room, HasRoomFor};
ghost use Rattle.bayou_log.specs.Inner.Fields.{outcomes_after, picked};
ghost use Rattle.bayou_log.specs.Inner.Undone.{after_undoing, changes_in, changes_of, AddsUndone, UndoesLast};
ghost use Rattle.bayou_log.specs.Replay.{after_writes};

use crate::change_list::ChangeList;
use crate::db::{Db, Undo};
use bayou_lang::{Change, Outcome, RestingWrite};
use std::alloc::{AllocError, Global};
use std::marker::Model;

/// For each Write that is applied, in stamp order, what takes it back. All lie in one list, at their true size.
#[derive(Drop)]
pub(crate) struct UndoStack {
    // Those of the Write applied last are at the end, and the last of them is made first.
    changes: ChangeList,
    // How many each Write has.
    sizes: Vec<u8>,
    // For how many changes there is room in any case.
    promised: usize,
}

impl Model for UndoStack {
    ghost use Rattle.std.specs.Prelude.{◌≡◌, ◌≤◌, All, length, vec_capacity};
    ghost use Rattle.bayou_base.specs.declared.limits.TheConstants.{MAX_OPS};
    ghost use Rattle.bayou_log.specs.Inner.Undone.{Stack, all_of, undos_of};

    ghost Value = { Stack };

    ghost view = { λ s. record { undos = undos_of s.sizes.items s.changes.items; promised = s.promised; room = s.changes.room; places = vec_capacity s.sizes } };

    ghost invariant = { λ s. (all_of s.sizes.items ≡ length s.changes.items) × All (λ size. size ≤ MAX_OPS) s.sizes.items × (s.promised ≤ s.changes.room) };
}

/// Adds copies of the changes after those of the list, which takes no memory.
fn push_all(list: &mut ChangeList, changes: &[Change])
    requires { length list.old.items + length changes.now ≤ list.old.room }
    ensures { list.new ≡ record list.old { items = list.old.items ++ changes.now } }
{
    for change in changes {
        list.push_reserved(change.copy());
    }
}

/// Makes the changes of the list, the last one first, until so many are left. No want of memory keeps it from that.
fn pop_changes(db: &mut Db, list: &mut ChangeList, left: usize)
    requires within { left ≤ length list.old.items }
    requires room { All (λ change. IsTrue (has_room (room db.old) change.key)) (drop left list.old.items) }
    ensures database { database_of db.new ≡ after_changes (drop left list.old.items) (database_of db.old) }
    ensures room { room db.new ≡ room db.old }
    ensures list { list.new ≡ record list.old { items = take left list.old.items } }
{
    while list.len() > left {
        let Some(change) = list.pop() else {
            unreachable!();
        };
        db.change(change);
    }
}

impl UndoStack {
    pub(crate) fn new(alloc: Global) -> Self
        ensures { (result.undos ≡ []) × (result.promised ≡ 0) }
    {
        UndoStack {
            changes: ChangeList::new(alloc),
            sizes: Vec::new(alloc),
            promised: 0,
        }
    }

    /// How many Writes are applied.
    pub(crate) fn len(&self) -> usize
        ensures { result ≡ length self.now.undos }
    {
        self.sizes.len()
    }

    /// Takes room for some changes more than those that are promised, and for one Write more than are held.
    pub(crate) fn reserve(&mut self, held: usize, more: usize) -> Result<(), AllocError>
        requires changes { more ≤ MAX_OPS }
        requires held { length self.old.undos ≤ held }
        requires within { held ≤ MAX_WRITES }
        ensures same { (self.new.undos ≡ self.old.undos) × (self.new.promised ≡ self.old.promised) }
        ensures kept { (self.old.room ≤ self.new.room) × (self.old.places ≤ self.new.places) }
        ensures ok { OnOk result ((self.new.promised + more ≤ self.new.room) × (held < self.new.places)) }
    {
        let _ = self.changes.room();
        self.changes.reserve(self.promised + more)?;
        self.sizes.try_reserve(held + 1 - self.sizes.len())?;
        Ok(())
    }

    /// Promises room, which there is, for some changes more.
    pub(crate) fn promise(&mut self, more: usize)
        requires { self.old.promised + more ≤ self.old.room }
        ensures { self.new ≡ record self.old { promised = self.old.promised + more } }
    {
        let _ = self.changes.room();
        self.promised += more;
    }

    /// Some changes fewer are promised room, which stays.
    pub(crate) fn release(&mut self, less: usize)
        requires { less ≤ self.old.promised }
        ensures { self.new ≡ record self.old { promised = self.old.promised - less } }
    {
        self.promised -= less;
    }

    /// Adds what takes back the Write that was applied now, which takes no memory.
    pub(crate) fn push(&mut self, undo: &Undo)
        requires room { changes_in self.old.undos + length undo.now ≤ self.old.room }
        requires places { length self.old.undos < self.old.places }
        ensures { self.new ≡ record self.old { undos = self.old.undos ++ undo.now ∷ [] } }
    {
        self.sizes.push_reserved(undo.before.len() as u8);
        push_all(&mut self.changes, undo.before.as_slice());
    }

    /// Takes back the Write that was applied last, from which no want of memory keeps it.
    fn undo_last(&mut self, db: &mut Db)
        requires some { 0 < length self.old.undos }
        requires room { All (λ undo. All (λ change. IsTrue (has_room (room db.old) change.key)) undo) self.old.undos }
        ensures { UndoesLast self.old self.new db.old db.new }
    {
        let Some(size) = self.sizes.pop() else {
            unreachable!();
        };
        let left = self.changes.len() - usize::from(size);
        pop_changes(db, &mut self.changes, left);
    }
}

/// Takes Writes back, the one applied last first, until so many are left.
pub(crate) fn take_back(db: &mut Db, undone: &mut UndoStack, left: usize)
    requires within { left ≤ length undone.old.undos }
    requires room { All (λ undo. All (λ change. IsTrue (has_room (room db.old) change.key)) undo) undone.old.undos }
    ensures database { database_of db.new ≡ after_undoing (drop left undone.old.undos) (database_of db.old) }
    ensures room { room db.new ≡ room db.old }
    ensures undone { undone.new ≡ record undone.old { undos = take left undone.old.undos } }
{
    while undone.len() > left {
        undone.undo_last(db);
    }
}

/// Applies the Writes at these places, one after another, and adds what became of each, from which no want of memory keeps it.
pub(crate) fn apply_in_turn(
    db: &mut Db,
    undone: &mut UndoStack,
    outcomes: &mut Vec<Outcome>,
    writes: &[RestingWrite],
    order: &[usize],
)
    requires inside { All (λ at. at < length writes.now) order.now }
    requires room { All (λ write. HasRoomFor (room db.old) write.program) writes.now }
    requires changes { changes_in undone.old.undos + changes_of (picked writes.now order.now) ≤ undone.old.room }
    requires entries { length undone.old.undos + length order.now ≤ undone.old.places }
    requires outcomes { vec_len outcomes.old + length order.now ≤ vec_capacity outcomes.old }
    ensures database { database_of db.new ≡ after_writes (picked writes.now order.now) (database_of db.old) }
    ensures room { room db.new ≡ room db.old }
    ensures undone { AddsUndone (picked writes.now order.now) (database_of db.old) undone.old undone.new }
    ensures outcomes { outcomes.new.items ≡ outcomes.old.items ++ outcomes_after (picked writes.now order.now) (database_of db.old) }
    ensures capacity { vec_capacity outcomes.new ≡ vec_capacity outcomes.old }
{
    let mut undo = Undo::new();
    for at in order {
        let outcome = db.apply(writes[*at].program(), &mut undo);
        outcomes.push_reserved(outcome);
        undone.push(&undo);
    }
}
