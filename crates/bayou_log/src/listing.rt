//! What became of each Write that a log holds.
ghost use Rattle.std.specs.Prelude.{◌≡◌, ◌<◌, All, IfOk, length, slice_index_or};
ghost use Rattle.bayou_lang.specs.Laws.SetOfWrites.{IsStrict};
ghost use Rattle.bayou_lang.specs.declared.eval.Outcome.{Outcome as Became};
ghost use Rattle.bayou_log.specs.Inner.Fields.{picked};
ghost use Rattle.bayou_log.specs.Inner.Beside.{listed_with};
ghost use Rattle.bayou_log.specs.Listing.{TellsOf};

use crate::order::number_before;
use bayou_base::{Stamp, Wid};
use bayou_lang::{Outcome, RestingWrite};
use std::alloc::{AllocError, Global};

/// A Write as a log lists it.
#[derive(Clone, Copy, Debug, PartialEq, Eq)]
pub struct Listed {
    pub wid: Wid,
    pub stamp: Stamp,
    /// How its program was applied to what the Writes before it, in stamp order, made.
    pub outcome: Outcome,
}

fn outcome_at(outcomes: &[Outcome], place: usize) -> Outcome
    requires { place < length outcomes.now }
    ensures { (d : Became) → result ≡ slice_index_or outcomes.now place d }
{
    outcomes[place]
}

/// The Writes at these places, each with its outcome.
pub(crate) fn listed_in_turn(
    alloc: Global,
    writes: &[RestingWrite],
    order: &[usize],
    outcomes: &[Outcome],
) -> Result<Vec<Listed>, AllocError>
    requires inside { All (λ at. at < length writes.now) order.now }
    requires as_many { length outcomes.now ≡ length order.now }
    ensures { IfOk result (λ list. list.items ≡ listed_with (picked writes.now order.now) outcomes.now) }
{
    let mut list = Vec::with_capacity(alloc, order.len())?;
    for (place, at) in order.iter().enumerate() {
        let write = &writes[*at];
        let outcome = outcome_at(outcomes, place);
        list.push(Listed {
            wid: write.wid(),
            stamp: write.stamp(),
            outcome,
        })?;
    }
    Ok(list)
}

/// As what the Write of this name and stamp is listed among those at these places, which are in stamp order, each with its outcome. It looks at a
/// few of them, however many they are.
pub(crate) fn listed_of(
    name: Wid,
    stamp: Stamp,
    writes: &[RestingWrite],
    order: &[usize],
    outcomes: &[Outcome],
) -> Option<Listed>
    requires inside { All (λ at. at < length writes.now) order.now }
    requires ordered { IsStrict (picked writes.now order.now) }
    requires stamped { All (λ write. write.wid ≡ name → write.stamp ≡ stamp) (picked writes.now order.now) }
    requires as_many { length outcomes.now ≡ length order.now }
    ensures { TellsOf (listed_with (picked writes.now order.now) outcomes.now) name result }
{
    let place = number_before(stamp, writes, order);
    if place >= order.len() {
        return None;
    }
    let write = &writes[order[place]];
    if write.wid() != name {
        return None;
    }
    Some(Listed {
        wid: write.wid(),
        stamp: write.stamp(),
        outcome: outcome_at(outcomes, place),
    })
}
