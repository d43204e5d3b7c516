//! How a server takes several Writes that other servers accepted together: the entries of those that come one after the other are stored as one
//! piece, and synced once. What of the log isn't applied waits for whoever calls.
ghost use Rattle.std.specs.Prelude.{◌≡◌, ℕ, ◌+◌, ◌<◌, ◌≤◌, ◌^◌, ◌⊎◌, List, [], ◌∷◌, ◌++◌, Option, None, Some, MatchOption, OnOk, IfSome, length, replicate};
ghost use Rattle.std.specs.VecDeque.{deque_capacity};
ghost use Rattle.bayou_base.specs.declared.limits.TheConstants.{MAX_BODY_BYTES};
ghost use Rattle.bayou_base.specs.declared.tag.Tag.{Tag as Tagged};
ghost use Rattle.bayou_journal.specs.Chain.{entries_bytes};
ghost use Rattle.bayou_log.specs.Log.{IsReserved};
ghost use Rattle.bayou_wire.specs.Records.{SpellsRecord};
ghost use Rattle.bayou_wire.specs.declared.record.Form.TheVariants.{Wide};
ghost use Rattle.bayou_server.specs.Inner.Fields.{BelongTogether, core_of, server_of};
ghost use Rattle.bayou_server.specs.Inner.Gathering.{AreGathered, AreTakenBack, IsGathered, IsNoneLeft, IsReady, IsRoomier, IsToldAlone, bytes_of, told_one};
ghost use Rattle.bayou_server.specs.Several.{StoresAll, TakesHeld, left_behind};
ghost use Rattle.bayou_server.specs.Takes.{Takes};
ghost use Rattle.bayou_server.specs.TakesAll.{TakesAll};

use crate::answer::{RefusedWrite, Took, TookAll};
use crate::fault::TakeFault;
use crate::holding::Holding;
use crate::taking::decided;
use bayou_base::{ServerId, Wid};
use bayou_device::Device;
use bayou_journal::Journal;
use bayou_journal::format::{DIGEST_BYTES, ENTRY_BYTES, LENGTH_BYTES};
use bayou_lang::RestingWrite;
use bayou_wire::encode_record;
use std::alloc::{AllocError, Global};
use std::collections::VecDeque;
use std::sync::atomic::{AtomicUsize, Ordering};

/// Of so many Writes that are applied anew for a late one, one at the least is taken before whoever waits is heeded.
const REAPPLIED: u32 = 32;

// Takes room for the Write to be held with no tag, and for so many to be in doubt.
fn make_room(holding: &mut Holding, write: &RestingWrite, many: usize) -> Result<(), AllocError>
    requires { holding.old.tags.coming ≡ None }
    ensures same { IsRoomier holding.old holding.new }
    ensures log { OnOk result (IsReserved holding.new.log.room write.now) }
    ensures tags { OnOk result (0 < holding.new.tags.room) }
    ensures places { OnOk result (length holding.new.taking.items + many ≤ deque_capacity holding.new.taking) }
{
    holding.log.reserve(write)?;
    holding.tags.reserve(None)?;
    holding.taking.reserve(many)
}

// The body of the Write's entry, if there is room for so many bytes, and memory.
fn fitting_body(alloc: Global, write: &RestingWrite, room: usize) -> Option<Vec<u8>>
    ensures spelling { IfSome result (λ body. SpellsRecord Wide body.items (record { write = write.now; tag = None })) }
    ensures size { IfSome result (λ body. (0 < length body.items) × (length body.items ≤ MAX_BODY_BYTES)) }
    ensures room { IfSome result (λ body. LENGTH_BYTES + length body.items + DIGEST_BYTES ≤ room) }
{
    let Ok(body) = encode_record(alloc, None, write) else {
        return None;
    };
    if LENGTH_BYTES + body.len() + DIGEST_BYTES > room {
        return None;
    }
    Some(body)
}

// The body of the entry of the first of the Writes, if it may be taken, its entry has no more bytes than there is room for, and there is memory
// for all that its taking needs.
fn next_body(
    alloc: Global,
    holding: &mut Holding,
    id: ServerId,
    writes: &VecDeque<RestingWrite>,
    many: usize,
    room: usize,
) -> Option<Vec<u8>>
    requires nothing_comes { holding.old.tags.coming ≡ None }
    requires empty { holding.old.taking.items ≡ [] }
    ensures same { IsRoomier holding.old holding.new }
    ensures ready { IfSome result (λ body. IsReady id.index holding.old writes.now.items many room body.items holding.new) }
{
    let Some(write) = writes.front() else {
        return None;
    };
    if let Some(_) = decided(holding, id, write) {
        return None;
    }
    let Some(body) = fitting_body(alloc, write, room) else {
        return None;
    };
    let Ok(()) = make_room(holding, write, many) else {
        return None;
    };
    Some(body)
}

// Holds the first of the Writes, as if its entry were stored, whose body is added to the others, and gives how many bytes the entry has. Else all stays
// as it is.
fn gather_next(
    alloc: Global,
    holding: &mut Holding,
    id: ServerId,
    writes: &mut VecDeque<RestingWrite>,
    bodies: &mut Vec<Vec<u8>>,
    room: usize,
) -> Option<usize>
    requires nothing_comes { holding.old.tags.coming ≡ None }
    requires empty { holding.old.taking.items ≡ [] }
    ensures { MatchOption result
        (IsRoomier holding.old holding.new × (writes.new.items ≡ writes.old.items) × (bodies.new.items ≡ bodies.old.items))
        (λ size. IsGathered id.index holding.old writes.old.items writes.new.items (bytes_of bodies.old.items) (bytes_of bodies.new.items) size holding.new × (size ≤ room)) }
{
    let Some(body) = next_body(alloc, holding, id, writes, bodies.len() + 1, room) else {
        return None;
    };
    let Ok(()) = bodies.try_reserve(1) else {
        return None;
    };
    let Some(write) = writes.pop_front() else {
        unreachable!();
    };
    let size = LENGTH_BYTES + body.len() + DIGEST_BYTES;
    holding.log.place(write);
    holding.tags.settle();
    bodies.push_reserved(body);
    Some(size)
}

// Holds the next of the Writes, as if their entries were stored, up to one that may not be taken, for which memory is wanting, or whose entry has
// no room beside theirs in one piece; and gives the bodies of their entries.
fn gather(
    alloc: Global,
    holding: &mut Holding,
    id: ServerId,
    writes: &mut VecDeque<RestingWrite>,
) -> Vec<Vec<u8>>
    requires nothing_comes { holding.old.tags.coming ≡ None }
    requires empty { holding.old.taking.items ≡ [] }
    ensures gathered { AreGathered id.index holding.old writes.old.items writes.new.items (bytes_of result.items) holding.new }
    ensures within { entries_bytes (bytes_of result.items) ≤ ENTRY_BYTES }
{
    let mut bodies = Vec::new(alloc);
    let mut room = ENTRY_BYTES;
    while let Some(size) = gather_next(alloc, holding, id, writes, &mut bodies, room) {
        room -= size;
    }
    bodies
}

// Takes the last of the Writes back, so many, which wait, and puts them in doubt. It tells the name of the first.
fn doubt_last(holding: &mut Holding, number: usize) -> Wid
    requires number { (0 < number) × (number ≤ holding.old.log.waiting) }
    requires untagged { (front : List (Option Tagged)) × (holding.old.tags.tags ≡ front ++ replicate number None) }
    requires nothing_comes { holding.old.tags.coming ≡ None }
    requires empty { holding.old.taking.items ≡ [] }
    requires places { number ≤ deque_capacity holding.old.taking }
    ensures back { AreTakenBack holding.old number holding.new }
    ensures name { IfSome holding.new.doubt (λ first. result ≡ first.wid) }
{
    for _ in 0..number {
        let write = holding.log.take_back();
        holding.tags.take_back();
        holding.taking.push_front_reserved(write);
    }
    let Some(first) = holding.taking.pop_front() else {
        unreachable!();
    };
    let wid = first.wid();
    holding.doubt = Some(first);
    holding.together = true;
    wid
}

// What is answered of the Write, which wasn't gathered: what is decided of it, or that memory is wanting.
fn answer_alone(holding: &Holding, id: ServerId, write: &RestingWrite) -> Result<Took, TakeFault>
    ensures { Takes (core_of holding.now id.index) write.now result (core_of holding.now id.index) }
{
    match decided(holding, id, write) {
        Some(answer) => answer,
        None => Err(TakeFault::OutOfMemory),
    }
}

// The answer, as that of several of which this is the only one.
fn told_alone(wid: Wid, answer: Result<Took, TakeFault>) -> TookAll
    ensures { result ≡ told_one wid answer }
{
    match answer {
        Ok(Took::New) => TookAll {
            taken: 1,
            had: 0,
            refused: None,
        },
        Ok(Took::Had) => TookAll {
            taken: 0,
            had: 1,
            refused: None,
        },
        Err(fault) => TookAll {
            taken: 0,
            had: 0,
            refused: Some(RefusedWrite { wid, fault }),
        },
    }
}

// Answers the first of the Writes, if there is one, and which wasn't gathered.
fn take_alone(holding: &Holding, id: ServerId, writes: &mut VecDeque<RestingWrite>) -> TookAll
    ensures { IsNoneLeft writes.old.items writes.new.items result ⊎ IsToldAlone (core_of holding.now id.index) writes.old.items writes.new.items result }
{
    let Some(write) = writes.pop_front() else {
        return TookAll {
            taken: 0,
            had: 0,
            refused: None,
        };
    };
    let answer = answer_alone(holding, id, &write);
    told_alone(write.wid(), answer)
}

// Takes the next of the Writes, as many as one piece has room for, or tells why the first of them isn't taken.
fn take_piece<D: Device>(
    alloc: Global,
    journal: &mut Journal<D>,
    holding: &mut Holding,
    id: ServerId,
    writes: &mut VecDeque<RestingWrite>,
) -> TookAll
    requires { BelongTogether journal.old holding.old id.index }
    ensures together { BelongTogether journal.new holding.new id.index }
    ensures takes { TakesAll TakesHeld (core_of holding.old id.index) writes.old.items (left_behind result.refused holding.new.taking.items writes.new.items) result (core_of holding.new id.index) }
    ensures stores { StoresAll D.Device (server_of journal.old holding.old id.index) result.refused (server_of journal.new holding.new id.index) }
    ensures some { result.refused ≡ None → (writes.new.items ≡ []) ⊎ (0 < result.taken + result.had) }
{
    if holding.doubt.is_some() {
        return take_alone(holding, id, writes);
    }
    let bodies = gather(alloc, holding, id, writes);
    if bodies.is_empty() {
        return take_alone(holding, id, writes);
    }
    match journal.append_all(&bodies) {
        Ok(()) => TookAll {
            taken: bodies.len() as u32,
            had: 0,
            refused: None,
        },
        Err(_) => {
            let wid = doubt_last(holding, bodies.len());
            told_alone(wid, Err(TakeFault::Journal))
        }
    }
}

// How many new Writes are taken before whoever waits is heeded. What comes after a late Write in stamp order is applied anew (Terry et al. 1995), before
// anybody is served: so of late ones more are taken together. How late one is, its clock tells well enough.
fn least_of(holding: &Holding, writes: &VecDeque<RestingWrite>) -> u32 {
    match writes.front() {
        Some(first) => holding.log.clock().saturating_sub(first.stamp().clock) / REAPPLIED,
        None => 0,
    }
}

// Takes the Writes, one piece after another, up to one that is refused; where somebody waits, one piece alone, or as many as late ones are worth it.
pub fn take_meanwhile<D: Device>(
    alloc: Global,
    journal: &mut Journal<D>,
    holding: &mut Holding,
    id: ServerId,
    writes: &mut VecDeque<RestingWrite>,
    waiting: &AtomicUsize,
) -> TookAll
    requires together { BelongTogether journal.old holding.old id.index }
    requires few { length writes.old.items < 2 ^ 32 }
    ensures together { BelongTogether journal.new holding.new id.index }
    ensures takes { TakesAll TakesHeld (core_of holding.old id.index) writes.old.items (left_behind result.refused holding.new.taking.items writes.new.items) result (core_of holding.new id.index) }
    ensures stores { StoresAll D.Device (server_of journal.old holding.old id.index) result.refused (server_of journal.new holding.new id.index) }
    ensures some { result.refused ≡ None → (writes.new.items ≡ []) ⊎ (0 < result.taken + result.had) }
{
    let least = least_of(holding, writes);
    let mut told = take_piece(alloc, journal, holding, id, writes);
    while told.refused.is_none()
        && !writes.is_empty()
        && (told.taken < least || waiting.load(Ordering::Relaxed) == 0)
    {
        let more = take_piece(alloc, journal, holding, id, writes);
        told.taken += more.taken;
        told.had += more.had;
        told.refused = more.refused;
    }
    told
}
