//! Requests from a channel, one after another.
ghost use Rattle.std.specs.Prelude.{◌≡◌, ◌≢◌, ◌+◌, ◌*◌, ◌<◌, ◌≤◌, ◌^◌, ◌++◌, ℕ, List, [], Option, Some, IfErr, MatchResult, length};
ghost use Rattle.std.specs.List.{AllByRecursion};
ghost use Rattle.std.specs.Io.KnownBytes.{Consumes, IsAtEnd};
ghost use Rattle.bayou_base.specs.declared.limits.TheConstants.{MAX_TURNS, READ_BYTES};
ghost use Rattle.bayou_net.specs.Inner.Steps.{DoesOne, Goes, GoesOn, IsServeFault};
ghost use Rattle.bayou_net.specs.Serving.{HasServed, IsRequest, ServeEnds};
ghost use Rattle.bayou_frames.specs.declared.fault.ChannelFault.TheVariants.{Cut};
ghost use Rattle.bayou_frames.specs.Stopping.{Stops};
ghost use Rattle.bayou_wire.specs.declared.frame.Frame.TheVariants.{Dump, Offer};
ghost use Rattle.bayou_wire.specs.Spelling.{IsFrame};
ghost use Rattle.bayou_wire.specs.Stream.{IsPartial, spellings};

use crate::dumping::answer_dump;
use crate::gate::RequestGate;
use crate::replying::{is_request, reply_to};
use crate::served::Served;
use bayou_base::limits::READ_BYTES;
use bayou_frames::{ChannelFault, feed_piece, read_piece, send};
use bayou_peer::answer_offer_on;
use bayou_streams::CountedChannel;
use bayou_wire::{Frame, Frames};
use std::alloc::Global;
use std::io::{Read, Write};

// Does a request whose reply is one frame, and writes that.
fn do_other<S: Served, R, W: Write>(
    alloc: Global,
    served: &mut S,
    request: &Frame,
    channel: &mut CountedChannel<R, W>,
) -> Result<(), ChannelFault>
    requires request { IsRequest request.now }
    requires no_offer { (counts : List ℕ) → request.now ≢ Offer counts }
    requires no_dump { request.now ≢ Dump }
    ensures does { DoesOne (record { list = S.list; reads = S.reads; writes = S.writes; reopens = S.reopens }) served.old request.now (W.contents channel.old.writer) (W.contents channel.new.writer) result served.new }
    ensures fault { IfErr result IsServeFault }
    ensures stopped { IfErr result (Stops channel.new.read_failed channel.new.write_failed channel.new.turns_left) }
    ensures turns { channel.new.turns_left ≤ channel.old.turns_left }
    ensures reader { (channel.new.reader ≡ channel.old.reader) × (channel.new.read_failed ≡ channel.old.read_failed) }
{
    let text = reply_to(alloc, served, request)?;
    send(channel, &text)
}

// Does a request, behind its gate, and writes its reply. What is none isn't done, and has no reply.
fn do_one<S: Served, G: RequestGate, R, W: Write>(
    alloc: Global,
    served: &mut S,
    gate: &G,
    request: &Frame,
    channel: &mut CountedChannel<R, W>,
) -> Result<(), ChannelFault>
    ensures does { DoesOne (record { list = S.list; reads = S.reads; writes = S.writes; reopens = S.reopens }) served.old request.now (W.contents channel.old.writer) (W.contents channel.new.writer) result served.new }
    ensures fault { IfErr result IsServeFault }
    ensures stopped { IfErr result (Stops channel.new.read_failed channel.new.write_failed channel.new.turns_left) }
    ensures turns { channel.new.turns_left ≤ channel.old.turns_left }
    ensures reader { (channel.new.reader ≡ channel.old.reader) × (channel.new.read_failed ≡ channel.old.read_failed) }
{
    if !is_request(request) {
        return Err(ChannelFault::BadFrame);
    }
    gate.pass();
    match request {
        Frame::Offer(counts) => {
            answer_offer_on(alloc, served, counts, channel)?;
            Ok(())
        }
        Frame::Dump => answer_dump(alloc, served, channel),
        _ => do_other(alloc, served, request, channel),
    }
}

// Serves the frames that came, and counts them.
fn serve_came<S: Served, G: RequestGate, R, W: Write>(
    alloc: Global,
    served: &mut S,
    gate: &G,
    frames: &[Frame],
    number: &mut u32,
    channel: &mut CountedChannel<R, W>,
) -> Result<(), ChannelFault>
    requires few { number.old + length frames.now < 2 ^ 32 }
    ensures goes { (start : S) (read behind : List ℕ) (before : Option (List ℕ)) → AllByRecursion IsFrame frames.now
        → HasServed (record { list = S.list; reads = S.reads; writes = S.writes; reopens = S.reopens }) start served.old read (spellings frames.now ++ behind) number.old before (W.contents channel.old.writer)
        → Goes (record { list = S.list; reads = S.reads; writes = S.writes; reopens = S.reopens }) start served.new read behind number.new before (W.contents channel.new.writer) result }
    ensures fault { IfErr result IsServeFault }
    ensures stopped { IfErr result (Stops channel.new.read_failed channel.new.write_failed channel.new.turns_left) }
    ensures turns { channel.new.turns_left ≤ channel.old.turns_left }
    ensures reader { (channel.new.reader ≡ channel.old.reader) × (channel.new.read_failed ≡ channel.old.read_failed) }
{
    for request in frames {
        do_one(alloc, served, gate, request, channel)?;
        *number += 1;
    }
    Ok(())
}

// Serves a piece of what comes.
fn serve_piece<S: Served, G: RequestGate, R, W: Write>(
    alloc: Global,
    served: &mut S,
    gate: &G,
    frames: &mut Frames,
    piece: &[u8],
    number: &mut u32,
    channel: &mut CountedChannel<R, W>,
) -> Result<(), ChannelFault>
    requires few { (held : List ℕ) × IsPartial held × (frames.old ≡ Some held)
        × (3 * number.old + (length held + length piece.now) ≤ READ_BYTES * MAX_TURNS) }
    ensures goes { (start : S) (read held : List ℕ) (before : Option (List ℕ)) → IsPartial held → frames.old ≡ Some held
        → HasServed (record { list = S.list; reads = S.reads; writes = S.writes; reopens = S.reopens }) start served.old read held number.old before (W.contents channel.old.writer)
        → GoesOn (record { list = S.list; reads = S.reads; writes = S.writes; reopens = S.reopens }) start served.new (read ++ piece.now) frames.new number.new before (W.contents channel.new.writer) result }
    ensures fault { IfErr result IsServeFault }
    ensures stopped { IfErr result (Stops channel.new.read_failed channel.new.write_failed channel.new.turns_left) }
    ensures turns { channel.new.turns_left ≤ channel.old.turns_left }
    ensures reader { (channel.new.reader ≡ channel.old.reader) × (channel.new.read_failed ≡ channel.old.read_failed) }
{
    let came = feed_piece(alloc, frames, piece)?;
    serve_came(alloc, served, gate, &came.frames, number, channel)?;
    if came.is_bad {
        return Err(ChannelFault::BadFrame);
    }
    Ok(())
}

/// Does each request that comes, in its order, and writes its reply, until the input ends between two frames, and tells how many there
/// were. The gate is passed after the reading of each request, before it is done. A bad frame, and one that is no request, has no reply,
/// and ends this. A fault of the writer may leave a front of a reply.
pub fn serve_on<S: Served, G: RequestGate, R: Read, W: Write>(
    alloc: Global,
    served: &mut S,
    gate: &G,
    channel: &mut CountedChannel<R, W>,
) -> Result<u32, ChannelFault>
    ensures serves { (read : List ℕ) × Consumes (R.remaining channel.old.reader) (R.remaining channel.new.reader) read
        × ServeEnds (record { list = S.list; reads = S.reads; writes = S.writes; reopens = S.reopens }) served.old served.new read (W.contents channel.old.writer) (W.contents channel.new.writer) (IsAtEnd (R.remaining channel.new.reader)) result }
    ensures stopped { IfErr result (Stops channel.new.read_failed channel.new.write_failed channel.new.turns_left) }
    ensures turns { channel.new.turns_left ≤ channel.old.turns_left }
{
    let mut frames = Frames::new(alloc);
    let mut number = 0;
    let mut piece = [0; READ_BYTES];
    loop {
        let count = read_piece(channel, &mut piece)?;
        if count == 0 {
            return ended(&frames, number);
        }
        let came = &piece[..count];
        serve_piece(alloc, served, gate, &mut frames, came, &mut number, channel)?;
    }
}

// The number, where no frame is begun.
fn ended(frames: &Frames, number: u32) -> Result<u32, ChannelFault>
    ensures { MatchResult result
        (λ count. (count ≡ number) × (frames.now ≡ Some []))
        (λ fault. (fault ≡ Cut) × (frames.now ≢ Some [])) }
{
    if frames.is_between() {
        return Ok(number);
    }
    Err(ChannelFault::Cut)
}
