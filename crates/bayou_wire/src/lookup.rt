use crate::layout::ROWS_AT_ONCE;
use arrayvec::ArrayVec;
use bayou_base::{Key, Prefix, Value, Vector, Wid};

/// For which rows a server is asked: those of the keys that are present.
#[derive(Debug, Drop, PartialEq, Eq)]
pub struct RowsAsked {
    /// What the server is to hold.
    pub need: Vector,
    /// What the keys begin with.
    pub prefix: Prefix,
    /// The key that they come after. Where there is none, they are listed from the first on.
    pub after: Option<Key>,
    /// How many are listed at the most.
    pub most: u16,
}

/// Of which Write a server is asked what became of it.
#[derive(Clone, Copy, Debug, PartialEq, Eq)]
pub struct FateAsked {
    /// What the server is to hold.
    pub need: Vector,
    pub wid: Wid,
}

/// Rows that a server tells, in the order of their keys.
#[derive(Debug, Drop, PartialEq, Eq)]
pub struct Page {
    /// What the server held.
    pub vector: Vector,
    /// Whether there are more after them.
    pub more: bool,
    pub rows: ArrayVec<(Key, Value), ROWS_AT_ONCE>,
}

/// How a Write was applied.
#[derive(Clone, Copy, Debug, PartialEq, Eq)]
pub enum Became {
    /// Its update was applied.
    Updated,
    /// This alternative, from 1 on, was applied.
    Merged(u8),
    /// Nothing was applied.
    Nothing,
}

/// A Write that is held, by what became of it.
#[derive(Clone, Copy, Debug, PartialEq, Eq)]
pub struct Placed {
    pub became: Became,
    /// The clock of its stamp.
    pub clock: u32,
}

/// What became of a Write.
#[derive(Clone, Copy, Debug, PartialEq, Eq)]
pub struct Fate {
    /// What the server held.
    pub vector: Vector,
    /// Nothing where the server doesn't hold it.
    pub placed: Option<Placed>,
}
