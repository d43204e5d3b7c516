//! The keys that are present, in order, beside those that have room.
ghost use Rattle.std.specs.Prelude.{◌≡◌, ◌+◌, None, Option, IfOk, OnOk, min, nat_le};
ghost use Rattle.std.specs.Option.{is_some};
ghost use Rattle.bayou_lang.specs.Database.{Database, begins_with as begins, changed, number_with};
ghost use Rattle.bayou_base.specs.declared.value.Value.{Value as Worth};
ghost use Rattle.bayou_log.specs.Db.{database_of};
ghost use Rattle.bayou_log.specs.Inner.Counting.{HasKeysOf, Notes, Shows, start_at};

use crate::db::Slots;
use bayou_base::{Key, Prefix, Value};
use std::alloc::{AllocError, Global};
use std::collections::BTreeMap;
use std::marker::Model;
use std::ops::Bound;

/// What is noted at a key that is present. It says nothing.
const NOTED: i64 = 0;

/// The keys that are present, so that a count passes over no other. They are kept from the first program on that counts some, and until one
/// of them finds no memory.
#[derive(Drop)]
pub(crate) struct PresentKeys {
    kept: Option<Slots>,
    alloc: Global,
}

impl Model for PresentKeys {
    ghost use Rattle.std.specs.Prelude.{Option};
    ghost use Rattle.std.specs.Option.{option_map};
    ghost use Rattle.bayou_log.specs.Db.{Slots};

    ghost Value = { Option Slots };

    ghost view = { λ p. option_map (λ keys. keys.entries) p.kept };
}

/// Where in the order of keys those stand that begin so.
pub(crate) fn start_of(prefix: &Prefix) -> Bound<Key>
    ensures { result ≡ start_at prefix.now }
{
    match prefix.first_key() {
        Some(first) => Bound::Included(first),
        None => Bound::Unbounded,
    }
}

pub(crate) fn begins_with(key: &Key, prefix: &Prefix) -> bool
    ensures { result ≡ begins prefix.now key.now }
{
    key.as_str()
        .as_bytes()
        .starts_with(prefix.as_str().as_bytes())
}

/// How many of the keys that have something begin so, or one more than `most` where those are more. It goes over the part of the order of
/// keys that begins so, and stops once the number is greater than `most`.
fn count(slots: &Slots, prefix: &Prefix, most: u32) -> usize
    ensures { result ≡ min (number_with prefix.now (database_of slots.now.entries)) (most + 1) }
{
    let mut number = 0;
    for (key, slot) in slots.range((start_of(prefix), Bound::Unbounded)) {
        if number > most as usize || !begins_with(key, prefix) {
            return number;
        }
        number += usize::from(slot.is_some());
    }
    number
}

/// Whether at most so many of the keys that have something begin so. So few keys can't be more, whatever they begin with.
fn are_at_most(slots: &Slots, prefix: &Prefix, most: u32) -> bool
    ensures { result ≡ nat_le (number_with prefix.now (database_of slots.now.entries)) most }
{
    slots.len() <= most as usize || count(slots, prefix, most) <= most as usize
}

/// Notes whether the key is present.
fn note(keys: &mut Slots, key: &Key, is_there: bool) -> Result<(), AllocError>
    ensures { OnOk result (Notes key.now is_there keys.old.entries keys.new.entries) }
{
    if is_there {
        keys.insert(key.copy(), Some(Value::Num(NOTED)))?;
    } else {
        keys.remove(key);
    }
    Ok(())
}

/// The keys of the slots that have something.
fn keys_of(alloc: Global, slots: &Slots) -> Result<Slots, AllocError>
    ensures { IfOk result (λ keys. HasKeysOf keys.entries (database_of slots.now.entries)) }
{
    let mut keys = BTreeMap::new(alloc);
    let mut left = slots.iter();
    while let Some((key, slot)) = left.next_back() {
        note(&mut keys, key, slot.is_some())?;
    }
    Ok(keys)
}

impl PresentKeys {
    /// None are kept yet.
    pub(crate) fn new(alloc: Global) -> Self
        ensures { result ≡ None }
    {
        PresentKeys { kept: None, alloc }
    }

    /// Keeps those that the slots have something for, from now on.
    pub(crate) fn keep(&mut self, slots: &Slots) -> Result<(), AllocError>
        ensures { Shows self.old (database_of slots.now.entries) → Shows self.new (database_of slots.now.entries) }
    {
        if self.kept.is_none() {
            self.kept = Some(keys_of(self.alloc, slots)?);
        }
        Ok(())
    }

    /// Notes that the key is present now, or isn't any more. Where there is no memory for that none are kept any more.
    pub(crate) fn set(&mut self, key: &Key, is_there: bool)
        ensures { (database : Database) (value : Option Worth) → is_some value ≡ is_there → Shows self.old database → Shows self.new (changed key.now value database) }
    {
        let Some(mut keys) = self.kept.take() else {
            return;
        };
        let Ok(()) = note(&mut keys, key, is_there) else {
            return;
        };
        self.kept = Some(keys);
    }

    /// Whether at most so many of the keys of a database begin so, of which the slots have what it has.
    pub(crate) fn has_at_most(&self, slots: &Slots, prefix: &Prefix, most: u32) -> bool
        requires { Shows self.now (database_of slots.now.entries) }
        ensures { result ≡ nat_le (number_with prefix.now (database_of slots.now.entries)) most }
    {
        match &self.kept {
            Some(keys) => are_at_most(keys, prefix, most),
            None => are_at_most(slots, prefix, most),
        }
    }
}
