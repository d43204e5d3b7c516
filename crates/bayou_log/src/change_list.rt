//! Changes one after another, in less memory than so many changes take.
ghost use Rattle.std.specs.Prelude.{◌≡◌, ◌^◌, ◌<◌, ◌≤◌, [], ◌∷◌, ◌++◌, MatchOption, OnOk, length};

use bayou_base::{Key, Text, Value};
use bayou_lang::Change;
use std::alloc::{AllocError, Global};
use std::marker::Model;

/// What the key of a change has by it.
#[derive(Clone, Copy, Debug, PartialEq, Eq)]
pub(crate) enum Kind {
    Nothing,
    OfNumber,
    OfText,
}

/// A list of changes. Numbers and texts lie apart, so that a change to a number takes no memory of a text, and one to nothing none of a
/// value: room that is taken for them is left as it was.
#[derive(Drop)]
pub(crate) struct ChangeList {
    keys: Vec<Key>,
    // What each of them has.
    kinds: Vec<Kind>,
    // What those have that have a number.
    numbers: Vec<i64>,
    // What those have that have a text.
    texts: Vec<Text>,
}

impl Model for ChangeList {
    ghost use Rattle.std.specs.Prelude.{min, vec_capacity};
    ghost use Rattle.bayou_log.specs.Inner.ChangeList.{Listed, AreApart, put_together};

    ghost Value = { Listed };

    ghost view = { λ l. record {
      items = put_together l.keys.items l.kinds.items l.numbers.items l.texts.items;
      room = min (min (vec_capacity l.keys) (vec_capacity l.kinds)) (min (vec_capacity l.numbers) (vec_capacity l.texts));
    } };

    ghost invariant = { λ l. AreApart l.keys.items l.kinds.items l.numbers.items l.texts.items };
}

impl ChangeList {
    pub(crate) fn new(alloc: Global) -> Self
        ensures { result.items ≡ [] }
    {
        ChangeList {
            keys: Vec::new(alloc),
            kinds: Vec::new(alloc),
            numbers: Vec::new(alloc),
            texts: Vec::new(alloc),
        }
    }

    /// How many changes it has.
    pub(crate) fn len(&self) -> usize
        ensures { result ≡ length self.now.items }
    {
        self.keys.len()
    }

    /// How many changes there is room for.
    pub(crate) fn room(&self) -> usize
        ensures value { result ≡ self.now.room }
        ensures in_range { result < 2 ^ 63 }
    {
        let each = self.keys.capacity().min(self.kinds.capacity());
        each.min(self.numbers.capacity().min(self.texts.capacity()))
    }

    /// Takes room for so many changes in all.
    pub(crate) fn reserve(&mut self, changes: usize) -> Result<(), AllocError>
        ensures same { self.new.items ≡ self.old.items }
        ensures kept { self.old.room ≤ self.new.room }
        ensures ok { OnOk result (changes ≤ self.new.room) }
    {
        self.keys
            .try_reserve(changes.saturating_sub(self.keys.len()))?;
        self.kinds
            .try_reserve(changes.saturating_sub(self.kinds.len()))?;
        self.numbers
            .try_reserve(changes.saturating_sub(self.numbers.len()))?;
        self.texts
            .try_reserve(changes.saturating_sub(self.texts.len()))?;
        Ok(())
    }

    /// Adds the change after the others, which takes no memory.
    pub(crate) fn push_reserved(&mut self, change: Change)
        requires { length self.old.items < self.old.room }
        ensures { self.new ≡ record self.old { items = self.old.items ++ change ∷ [] } }
    {
        let Change { key, value } = change;
        self.keys.push_reserved(key);
        match value {
            None => self.kinds.push_reserved(Kind::Nothing),
            Some(Value::Num(number)) => {
                self.kinds.push_reserved(Kind::OfNumber);
                self.numbers.push_reserved(number);
            }
            Some(Value::Text(text)) => {
                self.kinds.push_reserved(Kind::OfText);
                self.texts.push_reserved(text);
            }
        }
    }

    /// Takes the last change.
    pub(crate) fn pop(&mut self) -> Option<Change>
        ensures items { MatchOption result ((self.old.items ≡ []) × (self.new.items ≡ [])) (λ change. self.old.items ≡ self.new.items ++ change ∷ []) }
        ensures room { self.new.room ≡ self.old.room }
    {
        let key = self.keys.pop()?;
        let Some(kind) = self.kinds.pop() else {
            unreachable!();
        };
        let value = match kind {
            Kind::Nothing => None,
            Kind::OfNumber => {
                let Some(number) = self.numbers.pop() else {
                    unreachable!();
                };
                Some(Value::Num(number))
            }
            Kind::OfText => {
                let Some(text) = self.texts.pop() else {
                    unreachable!();
                };
                Some(Value::Text(text))
            }
        };
        Some(Change { key, value })
    }
}
