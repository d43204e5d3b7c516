//! One whole reply from a channel.
ghost use Rattle.std.specs.Prelude.{◌≡◌, ◌≢◌, ◌⊎◌, ◌<◌, ◌≤◌, ◌∷◌, ◌++◌, [], true, ℕ, List, None, Some, IfErr, IfSome, OnOk, length};
ghost use Rattle.std.specs.Io.KnownBytes.{Consumes, IsAtEnd};
ghost use Rattle.std.specs.List.{AllByRecursion};
ghost use Rattle.bayou_base.specs.declared.limits.TheConstants.{MAX_WRITES};
ghost use Rattle.bayou_client.specs.Inner.Taking.{ReplyRead, TakesFrames, TakesItems, TakesPiece};
ghost use Rattle.bayou_client.specs.Replies.{Begins, IsLast};
ghost use Rattle.bayou_frames.specs.declared.fault.ChannelFault.TheVariants.{BadFrame, OutOfMemory};
ghost use Rattle.bayou_frames.specs.First.{IsFeedFault};
ghost use Rattle.bayou_frames.specs.Stopping.{Stops};
ghost use Rattle.bayou_wire.specs.declared.frame.Frame.TheVariants.{Item};
ghost use Rattle.bayou_wire.specs.Spelling.{IsFrame};
ghost use Rattle.bayou_wire.specs.Stream.{IsPartial, spelling, spellings};

use bayou_base::limits::{MAX_WRITES, READ_BYTES};
use bayou_frames::{ChannelFault, feed_piece, read_piece};
use bayou_lang::RestingWrite;
use bayou_streams::CountedChannel;
use bayou_wire::{Frame, Frames};
use std::alloc::Global;
use std::io::Read;

/// A reply: Items, where they are asked for, as many as a server holds at the most, and a last frame.
#[derive(Drop)]
pub(crate) struct Reply {
    pub(crate) writes: Vec<RestingWrite>,
    pub(crate) last: Frame,
}

// Keeps the Write of an Item, unless there are as many as a server holds.
fn keep(
    alloc: Global,
    write: &RestingWrite,
    writes: &mut Vec<RestingWrite>,
) -> Result<(), ChannelFault>
    ensures kept { OnOk result ((writes.new.items ≡ writes.old.items ++ write.now ∷ []) × (length writes.old.items < MAX_WRITES)) }
    ensures refused { IfErr result (λ fault. (fault ≡ OutOfMemory) ⊎ ((fault ≡ BadFrame) × (MAX_WRITES ≤ length writes.old.items))) }
{
    if writes.len() >= MAX_WRITES as usize {
        return Err(ChannelFault::BadFrame);
    }
    let Ok(resting) = write.copy(alloc) else {
        return Err(ChannelFault::OutOfMemory);
    };
    if writes.push(resting).is_err() {
        return Err(ChannelFault::OutOfMemory);
    }
    Ok(())
}

// The Write of an Item, where Items are asked for. Any other frame ends a reply.
fn item_of(frame: &Frame, many: bool) -> Option<&RestingWrite>
    ensures item { IfSome result (λ write. (many ≡ true) × (frame.now ≡ Item write.now)) }
    ensures last { result ≡ None → IsFrame frame.now → IsLast many frame.now }
{
    match frame {
        Frame::Item(write) if many => Some(write),
        _ => None,
    }
}

// Takes frames after which there is more: each is an Item, or what came is no reply.
fn take_items(
    alloc: Global,
    frames: &[Frame],
    writes: &mut Vec<RestingWrite>,
    many: bool,
) -> Result<(), ChannelFault>
    ensures takes { (read behind : List ℕ) → behind ≢ [] → AllByRecursion IsFrame frames.now → Begins many read writes.old.items (spellings frames.now ++ behind)
        → TakesItems many read behind writes.new.items result }
    ensures fault { IfErr result IsFeedFault }
{
    for frame in frames {
        let Some(write) = item_of(frame, many) else {
            return Err(ChannelFault::BadFrame);
        };
        keep(alloc, write, writes)?;
    }
    Ok(())
}

// Takes the frame after which no other came: an Item is kept, and any other frame is the last of the reply.
fn take_frame(
    alloc: Global,
    frame: Frame,
    writes: &mut Vec<RestingWrite>,
    many: bool,
) -> Result<Option<Frame>, ChannelFault>
    ensures takes { (read behind : List ℕ) → IsFrame frame → Begins many read writes.old.items (spelling frame ++ behind)
        → TakesFrames many read behind writes.new.items result }
    ensures fault { IfErr result IsFeedFault }
{
    let Some(write) = item_of(&frame, many) else {
        return Ok(Some(frame));
    };
    keep(alloc, write, writes)?;
    Ok(None)
}

// Takes the frames that came, and gives the last of the reply where it is among them. Nothing may stand after it.
fn take_came(
    alloc: Global,
    frames: &mut Vec<Frame>,
    writes: &mut Vec<RestingWrite>,
    many: bool,
) -> Result<Option<Frame>, ChannelFault>
    ensures takes { (read behind : List ℕ) → AllByRecursion IsFrame frames.old.items → Begins many read writes.old.items (spellings frames.old.items ++ behind)
        → TakesFrames many read behind writes.new.items result }
    ensures fault { IfErr result IsFeedFault }
{
    let Some(newest) = frames.pop() else {
        return Ok(None);
    };
    take_items(alloc, frames, writes, many)?;
    take_frame(alloc, newest, writes, many)
}

// Takes a piece of what comes, and gives the last frame of the reply once the reply is whole.
fn take_piece(
    alloc: Global,
    frames: &mut Frames,
    piece: &[u8],
    writes: &mut Vec<RestingWrite>,
    many: bool,
) -> Result<Option<Frame>, ChannelFault>
    ensures takes { (read held : List ℕ) → IsPartial held → frames.old ≡ Some held → Begins many read writes.old.items held
        → TakesPiece many (read ++ piece.now) frames.new writes.new.items result }
    ensures fault { IfErr result IsFeedFault }
{
    let mut came = feed_piece(alloc, frames, piece)?;
    let last = take_came(alloc, &mut came.frames, writes, many)?;
    if came.is_bad {
        return Err(ChannelFault::BadFrame);
    }
    let Some(last) = last else {
        return Ok(None);
    };
    if !frames.is_between() {
        return Err(ChannelFault::BadFrame);
    }
    Ok(Some(last))
}

/// Reads until one reply is whole, after which nothing may come.
pub(crate) fn read_reply<R: Read, W>(
    alloc: Global,
    channel: &mut CountedChannel<R, W>,
    many: bool,
) -> Result<Reply, ChannelFault>
    ensures reads { (read : List ℕ) × Consumes (R.remaining channel.old.reader) (R.remaining channel.new.reader) read
        × ReplyRead many read (IsAtEnd (R.remaining channel.new.reader)) result }
    ensures stopped { IfErr result (Stops channel.new.read_failed channel.new.write_failed channel.new.turns_left) }
    ensures turns { channel.new.turns_left ≤ channel.old.turns_left }
    ensures other { (channel.new.writer ≡ channel.old.writer) × (channel.new.write_failed ≡ channel.old.write_failed) }
{
    let mut frames = Frames::new(alloc);
    let mut writes = Vec::new(alloc);
    let mut piece = [0; READ_BYTES];
    loop {
        let count = read_piece(channel, &mut piece)?;
        if count == 0 {
            return Err(ChannelFault::Cut);
        }
        if let Some(last) = take_piece(alloc, &mut frames, &piece[..count], &mut writes, many)? {
            return Ok(Reply { writes, last });
        }
    }
}
