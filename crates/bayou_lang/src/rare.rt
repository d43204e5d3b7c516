//! Lists most of which are empty.
ghost use Rattle.std.specs.Prelude.{◌≡◌, [], IfOk};

use std::alloc::{AllocError, Global};
use std::marker::Model;

/// A list of a kind of which most are empty. It takes the room of two pointers, where a `Vec` takes that of three; one that has items keeps
/// them, and their `Vec`, elsewhere.
#[derive(Debug)]
pub(crate) struct RareList<T> {
    items: Option<Box<Vec<T>>>,
}

impl<T> Model for RareList<T> {
    ghost use Rattle.std.specs.Prelude.{List};
    ghost use Rattle.bayou_lang.specs.Inner.Rare.{items_of};

    ghost Value = { List T };

    ghost view = { λ l. items_of l.items };
}

impl<T: Drop> RareList<T> {
    /// The empty list.
    pub(crate) fn empty() -> Self
        ensures { result ≡ [] }
    {
        RareList { items: None }
    }

    /// The list of these items, which takes memory where there are some.
    pub(crate) fn new(alloc: Global, items: Vec<T>) -> Result<Self, AllocError>
        ensures { IfOk result (λ list. list ≡ items.items) }
    {
        if items.is_empty() {
            return Ok(RareList::empty());
        }
        Ok(RareList {
            items: Some(Box::new(alloc, items)?),
        })
    }

    /// Its items.
    pub(crate) fn as_slice(&self) -> &[T]
        ensures { result.now ≡ self.now }
    {
        match &self.items {
            Some(items) => items.as_slice(),
            None => &[],
        }
    }
}

// Of its own, so that who lets a program go need not look whether a list has items.
impl<T: Drop> Drop for RareList<T> {
    fn drop(self) {
        let RareList { items } = self;
        drop(items);
    }
}
