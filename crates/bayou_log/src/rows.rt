//! The rows of a database, from one key on.
ghost use Rattle.std.specs.Prelude.{◌≡◌, ◌<◌, ◌↔◌, IsTrue, length, min, option_copied, take};
ghost use Rattle.bayou_log.specs.Db.{database_of};
ghost use Rattle.bayou_log.specs.Inner.Walking.{start_behind as start};
ghost use Rattle.bayou_log.specs.Rows.{rows_after};

use crate::db::Slots;
use crate::present::{begins_with, start_of};
use arrayvec::ArrayVec;
use bayou_base::{Key, Prefix, Value};
use std::ops::Bound;

/// Where in the order of keys those stand that begin so and come after this one, if there is one.
fn start_behind(prefix: &Prefix, after: Option<&Key>) -> Bound<Key>
    ensures { result ≡ start prefix.now (option_copied after.entry) }
{
    let Some(last) = after else {
        return start_of(prefix);
    };
    match prefix.first_key() {
        Some(first) if *last < first => Bound::Included(first),
        _ => Bound::Excluded(last.copy()),
    }
}

/// Lists the first of the rows whose keys begin so and come after this one, if there is one: so many at the most, and as many as there are
/// places for. It tells whether one is left. It goes over the part of the order of keys that begins so, and passes over keys that have room
/// and no value.
pub(crate) fn first_rows<const PLACES: usize>(
    slots: &Slots,
    prefix: &Prefix,
    after: Option<&Key>,
    most: usize,
    rows: &mut ArrayVec<(Key, Value), PLACES>,
) -> bool
    ensures rows { rows.new.items ≡ take (min most PLACES) (rows_after prefix.now (option_copied after.entry) (database_of slots.now.entries)) }
    ensures more { IsTrue result ↔ (min most PLACES < length (rows_after prefix.now (option_copied after.entry) (database_of slots.now.entries))) }
{
    let limit = most.min(PLACES);
    rows.clear();
    for (key, slot) in slots.range((start_behind(prefix, after), Bound::Unbounded)) {
        if !begins_with(key, prefix) {
            return false;
        }
        if let Some(value) = slot {
            if rows.len() >= limit {
                return true;
            }
            rows.push((key.copy(), value.copy()));
        }
    }
    false
}
