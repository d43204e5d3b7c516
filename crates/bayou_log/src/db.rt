ghost use Rattle.std.specs.Prelude.{◌≡◌, ◌+◌, ◌<◌, ◌↔◌, [], List, ℕ, IsTrue, OnOk, IfOk, All, Contains, length, map, min, nat_le, option_copied, take};
ghost use Rattle.arrayvec.specs.ArrayVec.{array_vec_len};
ghost use Rattle.std.specs.List.{flat_map, list_any};
ghost use Rattle.bayou_lang.specs.Changes.{after_changes, op_key, ChangeOnly};
ghost use Rattle.bayou_lang.specs.Meaning.{mean};
ghost use Rattle.bayou_lang.specs.Database.{changed, empty, number_with, value_at};
ghost use Rattle.bayou_log.specs.Inner.Counting.{Shows, counts_keys, program_counts};
ghost use Rattle.bayou_log.specs.Db.{database_of, room, has_room, HasRoomAt, HasRoomFor, IsUndo, KeepsRoom};
ghost use Rattle.bayou_log.specs.Rows.{rows_after};

use crate::present::PresentKeys;
use crate::rows::first_rows;
use arrayvec::ArrayVec;
use bayou_base::{Key, Prefix, Value};
use bayou_lang::{
    Change, Changes, Cond, Look, Op, Outcome, RestingAlt, RestingProgram, RestingWrite,
};
use std::alloc::{AllocError, Global};
use std::collections::BTreeMap;
use std::marker::Model;
use std::mem;

pub(crate) type Slots = BTreeMap<Key, Option<Value>>;

/// A database. Room for a key is made before the key has a value, so that no want of memory keeps a program from being applied. Once
/// a program has counted keys, those that are present are kept apart; where one of them finds no memory, they aren't any more.
#[derive(Drop)]
pub struct Db {
    slots: Slots,
    // Those of the slots that have something.
    present: PresentKeys,
}

impl Model for Db {
    ghost use Rattle.bayou_log.specs.Db.{Slots, database_of};
    ghost use Rattle.bayou_log.specs.Inner.Counting.{Shows};

    ghost Value = { Slots };

    ghost view = { λ d. d.slots.entries };

    ghost invariant = { λ d. Shows d.present (database_of d.slots.entries) };
}

/// What takes a program back that was applied to a database (Terry et al. 1995): what each key that it changed had before. One serves for
/// many programs, one after another.
#[derive(Drop)]
pub struct Undo {
    pub(crate) before: Changes,
    // Where a program that is applied lists what it changes.
    changes: Changes,
}

impl Model for Undo {
    ghost use Rattle.std.specs.Prelude.{List};
    ghost use Rattle.bayou_lang.specs.declared.change.Change.{Change};

    ghost Value = { List Change };

    ghost view = { λ u. u.before.items };
}

impl Undo {
    /// What takes nothing back yet.
    pub fn new() -> Self
        ensures { result ≡ [] }
    {
        Undo {
            before: Changes::new(),
            changes: Changes::new(),
        }
    }
}

fn key_of(op: &Op) -> &Key
    ensures { result.now ≡ op_key op.now }
{
    match op {
        Op::Put(key, _) => key,
        Op::Del(key) => key,
    }
}

fn copy_of(slot: &Option<Value>) -> Option<Value>
    ensures { result ≡ slot.now }
{
    match slot {
        Some(value) => Some(value.copy()),
        None => None,
    }
}

fn make_room(slots: &mut Slots, key: &Key) -> Result<(), AllocError>
    ensures same { database_of slots.new.entries ≡ database_of slots.old.entries }
    ensures keeps { KeepsRoom (room slots.old.entries) (room slots.new.entries) }
    ensures ok { OnOk result (IsTrue (has_room (room slots.new.entries) key.now)) }
{
    if !slots.contains_key(key) {
        slots.insert(key.copy(), None)?;
    }
    Ok(())
}

fn make_room_for(slots: &mut Slots, ops: &[Op]) -> Result<(), AllocError>
    ensures same { database_of slots.new.entries ≡ database_of slots.old.entries }
    ensures keeps { KeepsRoom (room slots.old.entries) (room slots.new.entries) }
    ensures ok { OnOk result (HasRoomAt (room slots.new.entries) (map op_key ops.now)) }
{
    for op in ops {
        make_room(slots, key_of(op))?;
    }
    Ok(())
}

fn make_room_for_all(slots: &mut Slots, alternatives: &[RestingAlt]) -> Result<(), AllocError>
    ensures same { database_of slots.new.entries ≡ database_of slots.old.entries }
    ensures keeps { KeepsRoom (room slots.old.entries) (room slots.new.entries) }
    ensures ok { OnOk result (HasRoomAt (room slots.new.entries) (flat_map (λ alt. map op_key alt.ops.items) alternatives.now)) }
{
    for alternative in alternatives {
        make_room_for(slots, alternative.ops())?;
    }
    Ok(())
}

fn counts_some(conditions: &[Cond]) -> bool
    ensures { result ≡ list_any counts_keys conditions.now }
{
    conditions
        .iter()
        .any(|condition| matches!(condition, Cond::AtMost(..)))
}

fn some_count(alternatives: &[RestingAlt]) -> bool
    ensures { result ≡ list_any (λ alt. list_any counts_keys alt.when.items) alternatives.now }
{
    alternatives
        .iter()
        .any(|alternative| counts_some(alternative.when()))
}

/// Whether the program counts keys.
fn counts(program: &RestingProgram) -> bool
    ensures { result ≡ program_counts program.now }
{
    counts_some(program.check()) || some_count(program.merge())
}

/// Makes the change, and gives the one that puts back what the key had.
fn replace(slots: &mut Slots, present: &mut PresentKeys, change: Change) -> Change
    requires { IsTrue (has_room (room slots.old.entries) change.key) }
    ensures database { database_of slots.new.entries ≡ changed change.key change.value (database_of slots.old.entries) }
    ensures room { room slots.new.entries ≡ room slots.old.entries }
    ensures present { Shows present.old (database_of slots.old.entries) → Shows present.new (database_of slots.new.entries) }
    ensures key { result.key ≡ change.key }
    ensures value { result.value ≡ value_at (database_of slots.old.entries) change.key }
{
    let Change { key, value } = change;
    let is_there = value.is_some();
    let Some(slot) = slots.get_mut(&key) else {
        return Change { key, value: None };
    };
    let before = mem::replace(slot, value);
    if before.is_some() != is_there {
        present.set(&key, is_there);
    }
    Change { key, value: before }
}

/// Makes the changes, the first of them last, and lists those that put back what the keys had.
fn replace_all(
    slots: &mut Slots,
    present: &mut PresentKeys,
    changes: &mut Changes,
    before: &mut Changes,
)
    requires { All (λ change. IsTrue (has_room (room slots.old.entries) change.key)) changes.old.items }
    ensures database { database_of slots.new.entries ≡ after_changes changes.old.items (database_of slots.old.entries) }
    ensures room { room slots.new.entries ≡ room slots.old.entries }
    ensures present { Shows present.old (database_of slots.old.entries) → Shows present.new (database_of slots.new.entries) }
    ensures undone { after_changes before.new.items (database_of slots.new.entries) ≡ database_of slots.old.entries }
    ensures among { (keys : List (List ℕ)) → All (λ change. Contains keys change.key) changes.old.items → All (λ change. Contains keys change.key) before.new.items }
    ensures as_many { array_vec_len before.new ≡ array_vec_len changes.old }
{
    // (that they are within their limit is known from here)
    let _ = changes.len();
    before.clear();
    while let Some(change) = changes.pop() {
        before.push(replace(slots, present, change));
    }
}

/// Makes the changes, the first of them last.
fn make_all(slots: &mut Slots, present: &mut PresentKeys, mut changes: Changes)
    requires { All (λ change. IsTrue (has_room (room slots.old.entries) change.key)) changes.items }
    ensures database { database_of slots.new.entries ≡ after_changes changes.items (database_of slots.old.entries) }
    ensures room { room slots.new.entries ≡ room slots.old.entries }
    ensures present { Shows present.old (database_of slots.old.entries) → Shows present.new (database_of slots.new.entries) }
{
    while let Some(change) = changes.pop() {
        replace(slots, present, change);
    }
}

impl Db {
    /// The empty database, with room for no key.
    pub fn new(alloc: Global) -> Self
        ensures { database_of result ≡ empty }
    {
        Db {
            slots: BTreeMap::new(alloc),
            present: PresentKeys::new(alloc),
        }
    }

    /// Makes room for every key that the program may write; and from the first program on that counts keys, keeps those that are present.
    /// Where memory is refused, the room that there was, and what was made, stays.
    pub fn prepare(&mut self, program: &RestingProgram) -> Result<(), AllocError>
        ensures same { database_of self.new ≡ database_of self.old }
        ensures keeps { KeepsRoom (room self.old) (room self.new) }
        ensures ok { OnOk result (HasRoomFor (room self.new) program.now) }
    {
        make_room_for(&mut self.slots, program.update())?;
        make_room_for_all(&mut self.slots, program.merge())?;
        if counts(program) {
            self.present.keep(&self.slots)?;
        }
        Ok(())
    }

    /// What the key has, if anything.
    pub fn get(&self, key: &Key) -> Option<Value>
        ensures { result ≡ value_at (database_of self.now) key.now }
    {
        match self.slots.get(key) {
            Some(slot) => copy_of(slot),
            None => None,
        }
    }

    /// Whether at most so many of the keys that are present begin so. It goes over no key where there are no more than so many; else over those
    /// that begin so, and stops once they are more. Where the present keys aren't kept, it passes over those that have room and no value.
    pub fn has_at_most(&self, prefix: &Prefix, most: u32) -> bool
        ensures { result ≡ nat_le (number_with prefix.now (database_of self.now)) most }
    {
        self.present.has_at_most(&self.slots, prefix, most)
    }

    /// Lists the first of the rows whose keys begin so and come after this one, if there is one, in the order of keys: so many at the most,
    /// and as many as there are places for. It tells whether one is left, and takes no memory. It goes over the keys that begin so and have
    /// room, from the first of the rows on, and over no other.
    pub fn list<const PLACES: usize>(
        &self,
        prefix: &Prefix,
        after: Option<&Key>,
        most: usize,
        rows: &mut ArrayVec<(Key, Value), PLACES>,
    ) -> bool
        ensures rows { rows.new.items ≡ take (min most PLACES) (rows_after prefix.now (option_copied after.entry) (database_of self.now)) }
        ensures more { IsTrue result ↔ (min most PLACES < length (rows_after prefix.now (option_copied after.entry) (database_of self.now))) }
    {
        first_rows(&self.slots, prefix, after, most, rows)
    }

    /// Applies the program, from which no want of memory keeps it, and gives the outcome. The undo is then what [`Db::undo`] needs to take that
    /// back, whatever it was before.
    pub fn apply(&mut self, program: &RestingProgram, undo: &mut Undo) -> Outcome
        requires { HasRoomFor (room self.old) program.now }
        ensures outcome { result ≡ (mean program.now (database_of self.old)).0 }
        ensures database { database_of self.new ≡ (mean program.now (database_of self.old)).1 }
        ensures room { room self.new ≡ room self.old }
        ensures undo { IsUndo program.now (database_of self.old) undo.new }
    {
        let outcome = program.eval(self, &mut undo.changes);
        replace_all(
            &mut self.slots,
            &mut self.present,
            &mut undo.changes,
            &mut undo.before,
        );
        outcome
    }

    /// Makes the change, from which no want of memory keeps it.
    pub(crate) fn change(&mut self, change: Change)
        requires { IsTrue (has_room (room self.old) change.key) }
        ensures database { database_of self.new ≡ changed change.key change.value (database_of self.old) }
        ensures room { room self.new ≡ room self.old }
    {
        replace(&mut self.slots, &mut self.present, change);
    }

    /// Puts back the values that an undo has, from which no want of memory keeps it. Where that is of the last program that was applied and not
    /// undone since, the database is what it was before.
    pub fn undo(&mut self, undo: Undo)
        requires { All (λ change. IsTrue (has_room (room self.old) change.key)) undo }
        ensures database { database_of self.new ≡ after_changes undo (database_of self.old) }
        ensures room { room self.new ≡ room self.old }
    {
        make_all(&mut self.slots, &mut self.present, undo.before);
    }
}

/// An empty database with room for all that the Writes may write.
pub(crate) fn prepared(alloc: Global, writes: &[RestingWrite]) -> Result<Db, AllocError>
    ensures empty { IfOk result (λ db. database_of db ≡ empty) }
    ensures room { IfOk result (λ db. All (λ write. HasRoomFor (room db) write.program) writes.now) }
{
    let mut db = Db::new(alloc);
    for write in writes {
        db.prepare(write.program())?;
    }
    Ok(db)
}

impl Look for Db {
    ghost database = { database_of };

    fn look(&self, key: &Key) -> Option<Value> {
        self.get(key)
    }

    fn has_at_most(&self, prefix: &Prefix, most: u32) -> bool {
        Db::has_at_most(self, prefix, most)
    }
}
