ghost use Rattle.std.specs.Prelude.{◌≡◌, ◌<◌, ◌≤◌, ◌↔◌, IsTrue, IfOk, IsSome, MatchResult, Some, length};
ghost use Rattle.bayou_journal.specs.Versions.{body_in};
ghost use Rattle.bayou_lang.specs.declared.write.Write.{Write};
ghost use Rattle.bayou_base.specs.declared.limits.TheConstants.{MAX_WRITES};
ghost use Rattle.bayou_server.specs.Inner.Fields.{core_of};
ghost use Rattle.bayou_server.specs.Server.{records_of};
ghost use Rattle.bayou_server.specs.Stored.{BeginsWithHeld, IsBodyOf};
ghost use Rattle.bayou_server.specs.Inner.Replaying.{AreHeldAnd, AreOthers};

use crate::fault::ReopenFault;
use crate::holding::Holding;
use crate::records::record_of;
use bayou_base::{ServerId, Tag};
use bayou_journal::Opened;
use bayou_lang::RestingWrite;
use bayou_wire::Record;
use bayou_wire::laws::bytes_are_of_one_record;
use std::alloc::{AllocError, Global};

// Whether the record is of the Write with this tag, or with none.
fn is_of(stored: &Record, write: &RestingWrite, tag: Option<Tag>) -> bool
    ensures { IsTrue result ↔ (stored.now ≡ record { write = write.now; tag = tag }) }
{
    stored.write == *write && stored.tag == tag
}

// Whether the body stands for the Write with this tag, or with none.
pub fn stands_for(
    alloc: Global,
    id: ServerId,
    version: u8,
    body: &[u8],
    write: &RestingWrite,
    tag: Option<Tag>,
) -> Result<bool, AllocError>
    ensures { IfOk result (λ is. IsTrue is ↔ IsBodyOf id.index (body_in version body.now) (record { write = write.now; tag = tag })) }
{
    bytes_are_of_one_record();
    match record_of(alloc, id, version, body)? {
        Some(stored) => Ok(is_of(&stored, write, tag)),
        None => Ok(false),
    }
}

// Whether the bodies begin with what is held, in its order.
pub fn begins_with(
    alloc: Global,
    id: ServerId,
    opened: &Opened,
    holding: &Holding,
) -> Result<bool, AllocError>
    requires { length holding.now.tags.tags ≡ length holding.now.log.receipts }
    ensures { IfOk result (λ begins. IsTrue begins ↔ BeginsWithHeld id.index (records_of (core_of holding.now id.index)) opened.now.bodies) }
{
    let held = holding.log.receipts();
    if opened.len() < held.len() {
        return Ok(false);
    }
    for (at, write) in held.iter().enumerate() {
        if !stands_for(
            alloc,
            id,
            opened.version(at),
            opened.body(at),
            write,
            holding.tags.tag_at(at),
        )? {
            return Ok(false);
        }
    }
    Ok(true)
}

// Whether the bodies are those of what is held and of the Write in doubt, which there is, or else those of what is held alone.
pub fn has_doubt(
    alloc: Global,
    id: ServerId,
    opened: &Opened,
    holding: &Holding,
) -> Result<bool, ReopenFault>
    requires doubt { IsSome holding.now.doubt }
    requires tags { length holding.now.tags.tags ≡ length holding.now.log.receipts }
    requires limit { length holding.now.log.receipts ≤ MAX_WRITES }
    ensures { (doubt : Write) → holding.now.doubt ≡ Some doubt → MatchResult result
        (AreHeldAnd (core_of holding.now id.index) doubt opened.now.bodies)
        (AreOthers (core_of holding.now id.index) doubt opened.now.bodies) }
{
    let Some(doubt) = &holding.doubt else {
        unreachable!();
    };
    if !begins_with(alloc, id, opened, holding)? {
        return Err(ReopenFault::Lost);
    }
    let place = holding.log.receipts().len();
    if opened.len() == place {
        return Ok(false);
    }
    let other = ReopenFault::BadRecord(place as u32);
    if opened.len() > place + 1 {
        return Err(other);
    }
    if !stands_for(
        alloc,
        id,
        opened.version(place),
        opened.body(place),
        doubt,
        holding.tags.coming(),
    )? {
        return Err(other);
    }
    Ok(true)
}
