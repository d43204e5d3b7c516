//! How a server is brought up again where several Writes are in doubt.
ghost use Rattle.std.specs.Prelude.{◌≡◌, ◌+◌, ◌≤◌, ◌↔◌, true, IsTrue, IfOk, IsSome, MatchResult, Some, drop, length, take};
ghost use Rattle.bayou_lang.specs.declared.write.Write.{Write};
ghost use Rattle.bayou_base.specs.declared.limits.TheConstants.{MAX_WRITES};
ghost use Rattle.bayou_server.specs.Inner.Fields.{AreInDoubt, core_of};
ghost use Rattle.bayou_server.specs.Server.{IsSoundServer, untagged};
ghost use Rattle.bayou_server.specs.Stored.{Stores};
ghost use Rattle.bayou_server.specs.Inner.Replaying.{AreHeldAndSome, AreOthersAmid, AreSettled, AreUnsettled, IsLastAdopted};

use crate::answer::Reopened;
use crate::fault::ReopenFault;
use crate::holding::Holding;
use crate::reopen::{begins_with, stands_for};
use crate::start::holding_of;
use bayou_base::{ServerId, Wid};
use bayou_journal::Opened;
use bayou_lang::RestingWrite;
use bayou_wire::laws::bytes_are_of_one_record;
use std::alloc::{AllocError, Global};
use std::collections::VecDeque;

// Whether the bodies from this place on, so many, stand for the first so many of the Writes, each with no tag.
fn stand_for_each(
    alloc: Global,
    id: ServerId,
    opened: &Opened,
    place: usize,
    writes: &VecDeque<RestingWrite>,
    many: usize,
) -> Result<bool, AllocError>
    requires bodies { place + many ≤ length opened.now.bodies }
    requires writes { many ≤ length writes.now.items }
    ensures { IfOk result (λ are. IsTrue are ↔ Stores id.index (take many (drop place opened.now.bodies)) (untagged (take many writes.now.items))) }
{
    // There are no more bodies than can be counted.
    let _all = opened.len();
    for at in 0..many {
        if !stands_for(
            alloc,
            id,
            opened.version(place + at),
            opened.body(place + at),
            &writes[at],
            None,
        )? {
            return Ok(false);
        }
    }
    Ok(true)
}

// How many of the Writes in doubt, of which there are some, the bodies have after those of what is held.
fn count_adopted(
    alloc: Global,
    id: ServerId,
    opened: &Opened,
    holding: &Holding,
) -> Result<usize, ReopenFault>
    requires doubt { IsSome holding.now.doubt }
    requires tags { length holding.now.tags.tags ≡ length holding.now.log.receipts }
    requires limit { length holding.now.log.receipts ≤ MAX_WRITES }
    ensures { (doubt : Write) → holding.now.doubt ≡ Some doubt → MatchResult result
        (AreHeldAndSome (core_of holding.now id.index) doubt holding.now.taking.items opened.now.bodies)
        (AreOthersAmid (core_of holding.now id.index) doubt holding.now.taking.items opened.now.bodies) }
{
    let Some(doubt) = &holding.doubt else {
        unreachable!();
    };
    if !begins_with(alloc, id, opened, holding)? {
        return Err(ReopenFault::Lost);
    }
    let place = holding.log.receipts().len();
    if opened.len() == place {
        return Ok(0);
    }
    let other = ReopenFault::BadRecord(place as u32);
    let more = opened.len() - place - 1;
    if more > holding.taking.len() {
        return Err(other);
    }
    if !stands_for(
        alloc,
        id,
        opened.version(place),
        opened.body(place),
        doubt,
        holding.tags.coming(),
    )? {
        return Err(other);
    }
    if !stand_for_each(alloc, id, opened, place + 1, &holding.taking, more)? {
        return Err(other);
    }
    Ok(more + 1)
}

// The name of the Write in doubt after which so many others are adopted, or of the last of these.
fn last_adopted(holding: &Holding, more: usize) -> Wid
    requires doubt { IsSome holding.now.doubt }
    requires more { more ≤ length holding.now.taking.items }
    ensures { (doubt : Write) → holding.now.doubt ≡ Some doubt → IsLastAdopted doubt holding.now.taking.items more result }
{
    let Some(doubt) = &holding.doubt else {
        unreachable!();
    };
    if more == 0 {
        return doubt.wid();
    }
    holding.taking[more - 1].wid()
}

// Adopts those of several Writes in doubt that the journal has, and forgets the others. What is held then is made anew of the journal.
pub fn settle_several(
    alloc: Global,
    id: ServerId,
    opened: &Opened,
    holding: &mut Holding,
) -> Result<Reopened, ReopenFault>
    requires doubt { IsSome holding.old.doubt }
    requires sound { IsSoundServer (core_of holding.old id.index) }
    requires doubts { AreInDoubt (core_of holding.old id.index) holding.old.doubt holding.old.together holding.old.taking.items }
    requires together { holding.old.together ≡ true }
    requires limit { holding.old.log.limit ≤ MAX_WRITES }
    requires caught_up { holding.old.log.waiting ≡ 0 }
    ensures { MatchResult result
        (λ reopened. AreSettled id.index holding.old opened.now.bodies reopened.adopted holding.new)
        (λ fault. AreUnsettled id.index holding.old opened.now.bodies fault holding.new) }
{
    bytes_are_of_one_record();
    let number = count_adopted(alloc, id, opened, holding)?;
    if number == 0 {
        holding.doubt = None;
        holding.taking.clear();
        holding.together = false;
        holding.tags.forget();
        return Ok(Reopened { adopted: None });
    }
    let last = last_adopted(holding, number - 1);
    let Ok(again) = holding_of(alloc, id, holding.log.count(), holding.log.limit(), opened) else {
        return Err(ReopenFault::OutOfMemory);
    };
    *holding = again;
    Ok(Reopened {
        adopted: Some(last),
    })
}
