ghost use Rattle.std.specs.Prelude.{◌≡◌, ◌<◌, ◌≤◌, ◌⊎◌, ◌↔◌, IfOk, IsTrue, MatchOption, MatchResult, None};
ghost use Rattle.bayou_base.specs.declared.limits.TheConstants.{SERVERS, MAX_WRITES};
ghost use Rattle.bayou_journal.specs.Versions.{body_in};
ghost use Rattle.bayou_server.specs.declared.fault.StartFault.TheVariants.{OutOfMemory};
ghost use Rattle.bayou_server.specs.Server.{IsNewTag, MayFollow};
ghost use Rattle.bayou_server.specs.Inner.Replaying.{IsAdded, IsAdmitted, Replays};
ghost use Rattle.bayou_wire.specs.declared.record.Record.{Record as Recorded};
ghost use Rattle.bayou_server.specs.Starts.{IsNewRecord, RefusesBody, RefusesEntry};

use crate::fault::StartFault;
use crate::holding::Holding;
use crate::records::record_of;
use bayou_base::ServerId;
use bayou_journal::Opened;
use bayou_lang::RestingWrite;
use bayou_log::WriteLog;
use bayou_tags::Tags;
use bayou_wire::Record;
use bayou_wire::laws::bytes_are_of_one_record;
use std::alloc::{AllocError, Global};
use std::collections::VecDeque;

// Whether the Write may be added to those of the log of the server `id`.
fn may_follow(log: &WriteLog, id: ServerId, write: &RestingWrite) -> bool
    ensures { IsTrue result ↔ MayFollow id.index log.now.count log.now.receipts write.now }
{
    let Ok(()) = log.fits(write) else {
        return false;
    };
    write.wid().origin != id || *write.deps() == log.vector()
}

// Whether none of the tags is the record's.
fn is_new(tags: &Tags, stored: &Record) -> bool
    ensures { IsTrue result ↔ IsNewTag tags.now.tags stored.now.tag }
{
    match stored.tag {
        Some(tag) => tags.find(tag).is_none(),
        None => true,
    }
}

// The record that the body stands for, if there is one, and its tag is new.
fn new_record(
    alloc: Global,
    id: ServerId,
    tags: &Tags,
    version: u8,
    body: &[u8],
) -> Result<Option<Record>, AllocError>
    ensures { IfOk result (λ given. MatchOption given
        ((stored : Recorded) → ¬ (IsNewRecord id.index tags.now.tags (body_in version body.now) stored))
        (λ stored. IsNewRecord id.index tags.now.tags (body_in version body.now) stored)) }
{
    bytes_are_of_one_record();
    let Some(stored) = record_of(alloc, id, version, body)? else {
        return Ok(None);
    };
    if !is_new(tags, &stored) {
        return Ok(None);
    }
    Ok(Some(stored))
}

// The record that the body stands for, if it may be added to what is held.
fn next_of(
    alloc: Global,
    id: ServerId,
    holding: &Holding,
    version: u8,
    body: &[u8],
) -> Result<Record, StartFault>
    requires { holding.now.log.limit ≤ MAX_WRITES }
    ensures { MatchResult result
        (IsAdmitted id.index holding.now.log holding.now.tags (body_in version body.now))
        (λ fault. (fault ≡ OutOfMemory) ⊎ RefusesBody id.index holding.now.log.count holding.now.log.limit holding.now.log.receipts holding.now.tags.tags (body_in version body.now) fault) }
{
    let at = holding.log.receipts().len() as u32;
    let Some(stored) = new_record(alloc, id, &holding.tags, version, body)? else {
        return Err(StartFault::BadRecord(at));
    };
    if !may_follow(&holding.log, id, &stored.write) {
        return Err(StartFault::Gap(at));
    }
    if holding.log.is_full() {
        return Err(StartFault::LogFull);
    }
    Ok(stored)
}

// Adds what the body of the next entry stands for to what is held, where the Write waits.
fn add_next(
    alloc: Global,
    id: ServerId,
    holding: &mut Holding,
    version: u8,
    body: &[u8],
) -> Result<(), StartFault>
    requires limit { holding.old.log.limit ≤ MAX_WRITES }
    requires nothing_comes { holding.old.tags.coming ≡ None }
    ensures { MatchResult result
        (λ _. IsAdded id.index holding.old (body_in version body.now) holding.new)
        (λ fault. (fault ≡ OutOfMemory) ⊎ RefusesBody id.index holding.old.log.count holding.old.log.limit holding.old.log.receipts holding.old.tags.tags (body_in version body.now) fault) }
{
    let Record { write, tag } = next_of(alloc, id, holding, version, body)?;
    holding.log.reserve(&write)?;
    holding.tags.reserve(tag)?;
    holding.log.place(write);
    holding.tags.settle();
    Ok(())
}

// What the bodies stand for, in their order. The Writes are applied once all are added.
pub fn holding_of(
    alloc: Global,
    id: ServerId,
    count: u8,
    limit: u32,
    opened: &Opened,
) -> Result<Holding, StartFault>
    requires known { id.index < count }
    requires count { count ≤ SERVERS }
    requires limit { limit ≤ MAX_WRITES }
    ensures { MatchResult result
        (Replays id.index count limit opened.now.bodies)
        (λ fault. (fault ≡ OutOfMemory) ⊎ RefusesEntry id.index count limit opened.now.bodies fault) }
{
    let mut holding = Holding {
        log: WriteLog::new(alloc, count, limit),
        tags: Tags::new(alloc),
        doubt: None,
        taking: VecDeque::new(alloc),
        together: false,
    };
    for at in 0..opened.len() {
        add_next(alloc, id, &mut holding, opened.version(at), opened.body(at))?;
    }
    holding.log.catch_up();
    Ok(holding)
}
