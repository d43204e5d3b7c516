//! Readers of what is asked beside one key, and of what is answered.
ghost use Rattle.std.specs.Prelude.{◌≡◌};
ghost use Rattle.std.specs.Int.{w16};
ghost use Rattle.bayou_wire.specs.Inner.Lookups.{became_at, fate_asked_at, fate_at, held_placed_at, more_at, optional_key_at, page_at, placed_at, row_at, rows_asked_at, rows_at};
ghost use Rattle.bayou_wire.specs.Inner.Reading.{Gives, number_at};

use crate::layout::*;
use crate::lookup::{Became, Fate, FateAsked, Page, Placed, RowsAsked};
use crate::take::{
    Member, byte_of, key_of, members_of, prefix_of, u32_of, value_of, vector_of, wid_of,
};
use arrayvec::ArrayVec;
use bayou_base::{Key, Value};

fn u16_of(bytes: &[u8]) -> Option<(u16, &[u8])>
    ensures { Gives (λ x. (x.0, x.1.now)) result (number_at w16 bytes.now) }
{
    if bytes.len() < 2 {
        return None;
    }
    let (front, rest) = bytes.split_at(2);
    let number = u16::from_be_bytes([front[0], front[1]]);
    Some((number, rest))
}

#[tactic(auto, unfolding(crate::specs::Inner::Lookups::optional_key_at))]
pub(crate) fn optional_key_of(bytes: &[u8]) -> Option<(Option<Key>, &[u8])>
    ensures { Gives (λ x. (x.0, x.1.now)) result (optional_key_at bytes.now) }
{
    match bytes {
        [] => None,
        [0, rest @ ..] => Some((None, rest)),
        [_, ..] => {
            let Some((key, rest)) = key_of(bytes) else {
                return None;
            };
            Some((Some(key), rest))
        }
    }
}

/// A row.
impl Member for (Key, Value) {
    ghost at = { row_at };

    #[tactic(auto, unfolding(crate::specs::Inner::Lookups::row_at))]
    fn take(bytes: &[u8]) -> Option<(Self, &[u8])> {
        let Some((key, rest)) = key_of(bytes) else {
            return None;
        };
        let Some((value, rest)) = value_of(rest) else {
            return None;
        };
        Some(((key, value), rest))
    }
}

#[tactic(auto, unfolding(crate::specs::Inner::Lookups::rows_at))]
fn rows_of(bytes: &[u8]) -> Option<(ArrayVec<(Key, Value), ROWS_AT_ONCE>, &[u8])>
    ensures { Gives (λ x. (x.0.items, x.1.now)) result (rows_at bytes.now) }
{
    let Some((count, rest)) = u16_of(bytes) else {
        return None;
    };
    let count = usize::from(count);
    if ROWS_AT_ONCE < count {
        return None;
    }
    members_of(count, rest)
}

#[tactic(auto, unfolding(crate::specs::Inner::Lookups::more_at))]
fn more_of(bytes: &[u8]) -> Option<(bool, &[u8])>
    ensures { Gives (λ x. (x.0, x.1.now)) result (more_at bytes.now) }
{
    match bytes {
        [MORE_LEFT, rest @ ..] => Some((true, rest)),
        [NONE_LEFT, rest @ ..] => Some((false, rest)),
        _ => None,
    }
}

#[tactic(auto, unfolding(crate::specs::Inner::Lookups::rows_asked_at))]
pub(crate) fn rows_asked_of(bytes: &[u8]) -> Option<(RowsAsked, &[u8])>
    ensures { Gives (λ x. (x.0, x.1.now)) result (rows_asked_at bytes.now) }
{
    let Some((need, rest)) = vector_of(bytes) else {
        return None;
    };
    let Some((prefix, rest)) = prefix_of(rest) else {
        return None;
    };
    let Some((after, rest)) = optional_key_of(rest) else {
        return None;
    };
    let Some((most, rest)) = u16_of(rest) else {
        return None;
    };
    let asked = RowsAsked {
        need,
        prefix,
        after,
        most,
    };
    Some((asked, rest))
}

#[tactic(auto, unfolding(crate::specs::Inner::Lookups::page_at))]
pub(crate) fn page_of(bytes: &[u8]) -> Option<(Page, &[u8])>
    ensures { Gives (λ x. (x.0, x.1.now)) result (page_at bytes.now) }
{
    let Some((vector, rest)) = vector_of(bytes) else {
        return None;
    };
    let Some((more, rest)) = more_of(rest) else {
        return None;
    };
    let Some((rows, rest)) = rows_of(rest) else {
        return None;
    };
    Some((Page { vector, more, rows }, rest))
}

#[tactic(auto, unfolding(crate::specs::Inner::Lookups::became_at))]
fn became_of(bytes: &[u8]) -> Option<(Became, &[u8])>
    ensures { Gives (λ x. (x.0, x.1.now)) result (became_at bytes.now) }
{
    match bytes {
        [WAS_UPDATED, rest @ ..] => Some((Became::Updated, rest)),
        [WAS_MERGED, rest @ ..] => {
            let Some((alternative, rest)) = byte_of(rest) else {
                return None;
            };
            Some((Became::Merged(alternative), rest))
        }
        [WAS_NOTHING, rest @ ..] => Some((Became::Nothing, rest)),
        _ => None,
    }
}

#[tactic(auto, unfolding(crate::specs::Inner::Lookups::placed_at))]
fn placed_of(bytes: &[u8]) -> Option<(Placed, &[u8])>
    ensures { Gives (λ x. (x.0, x.1.now)) result (placed_at bytes.now) }
{
    let Some((became, rest)) = became_of(bytes) else {
        return None;
    };
    let Some((clock, rest)) = u32_of(rest) else {
        return None;
    };
    Some((Placed { became, clock }, rest))
}

#[tactic(auto, unfolding(crate::specs::Inner::Lookups::held_placed_at))]
fn held_placed_of(bytes: &[u8]) -> Option<(Option<Placed>, &[u8])>
    ensures { Gives (λ x. (x.0, x.1.now)) result (held_placed_at bytes.now) }
{
    match bytes {
        [] => None,
        [NOT_HELD, rest @ ..] => Some((None, rest)),
        [_, ..] => {
            let Some((placed, rest)) = placed_of(bytes) else {
                return None;
            };
            Some((Some(placed), rest))
        }
    }
}

#[tactic(auto, unfolding(crate::specs::Inner::Lookups::fate_asked_at))]
pub(crate) fn fate_asked_of(bytes: &[u8]) -> Option<(FateAsked, &[u8])>
    ensures { Gives (λ x. (x.0, x.1.now)) result (fate_asked_at bytes.now) }
{
    let Some((need, rest)) = vector_of(bytes) else {
        return None;
    };
    let Some((wid, rest)) = wid_of(rest) else {
        return None;
    };
    Some((FateAsked { need, wid }, rest))
}

#[tactic(auto, unfolding(crate::specs::Inner::Lookups::fate_at))]
pub(crate) fn fate_of(bytes: &[u8]) -> Option<(Fate, &[u8])>
    ensures { Gives (λ x. (x.0, x.1.now)) result (fate_at bytes.now) }
{
    let Some((vector, rest)) = vector_of(bytes) else {
        return None;
    };
    let Some((placed, rest)) = held_placed_of(rest) else {
        return None;
    };
    Some((Fate { vector, placed }, rest))
}
