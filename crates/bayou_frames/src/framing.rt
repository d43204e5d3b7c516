//! Frames on a channel.
ghost use Rattle.std.specs.Prelude.{◌≡◌, ◌≢◌, ◌<◌, ◌≤◌, true, ℕ, List, [], Some, IfErr, IfOk, OnOk, length};
ghost use Rattle.std.specs.Io.{ReadsAtMost};
ghost use Rattle.std.specs.Io.KnownBytes.{Appends, ReadConsumes};
ghost use Rattle.bayou_frames.specs.declared.fault.ChannelFault.TheVariants.{OutOfMemory};
ghost use Rattle.bayou_frames.specs.Framing.{Comes, IsReadFault};
ghost use Rattle.bayou_frames.specs.Stopping.{IsSendFault, Stops};
ghost use Rattle.bayou_streams.specs.Written.{AppendsFront};
ghost use Rattle.bayou_wire.specs.Stream.{IsPartial};

use crate::fault::ChannelFault;
use bayou_streams::{CountedChannel, StreamFault, Turn};
use bayou_wire::{FeedFault, Frame, Frames};
use std::alloc::Global;
use std::io::{Read, Write};

/// Writes the whole text. Where it ends in a fault, a front of the text was written.
pub fn send<R, W: Write>(
    channel: &mut CountedChannel<R, W>,
    text: &[u8],
) -> Result<(), ChannelFault>
    ensures whole { OnOk result (Appends (W.contents channel.old.writer) (W.contents channel.new.writer) text.now) }
    ensures part { AppendsFront (W.contents channel.old.writer) (W.contents channel.new.writer) text.now }
    ensures fault { IfErr result IsSendFault }
    ensures no_memory { IfErr result (λ fault. fault ≢ OutOfMemory) }
    ensures stopped { IfErr result (Stops channel.new.read_failed channel.new.write_failed channel.new.turns_left) }
    ensures spent { OnOk result (0 < length text.now → channel.new.turns_left < channel.old.turns_left) }
    ensures turns { channel.new.turns_left ≤ channel.old.turns_left }
    ensures other { (channel.new.reader ≡ channel.old.reader) × (channel.new.read_failed ≡ channel.old.read_failed) }
{
    let mut rest = text;
    while !rest.is_empty() {
        match channel.write_turn(rest) {
            Ok(Turn::Moved(count)) => rest = &rest[count..],
            Ok(Turn::Interrupted) => {}
            Err(StreamFault::Failed) => return Err(ChannelFault::Write),
            Err(StreamFault::TooManyTurns) => return Err(ChannelFault::TooManyTurns),
        }
    }
    Ok(())
}

/// Reads the next bytes into the front of the piece, and tells how many they are: none only at the end, or where the piece has
/// no room.
pub fn read_piece<R: Read, W>(
    channel: &mut CountedChannel<R, W>,
    piece: &mut [u8],
) -> Result<usize, ChannelFault>
    ensures bound { ReadsAtMost result piece.new }
    ensures size { length piece.new ≡ length piece.old }
    ensures bytes { ReadConsumes (R.remaining channel.old.reader) (R.remaining channel.new.reader) result piece.new }
    ensures fault { IfErr result IsReadFault }
    ensures stopped { IfErr result (Stops channel.new.read_failed channel.new.write_failed channel.new.turns_left) }
    ensures spent { OnOk result (channel.new.turns_left < channel.old.turns_left) }
    ensures turns { channel.new.turns_left ≤ channel.old.turns_left }
    ensures other { (channel.new.writer ≡ channel.old.writer) × (channel.new.write_failed ≡ channel.old.write_failed) }
{
    loop {
        match channel.read_turn(piece) {
            Ok(Turn::Moved(count)) => return Ok(count),
            Ok(Turn::Interrupted) => {}
            Err(StreamFault::Failed) => return Err(ChannelFault::Read),
            Err(StreamFault::TooManyTurns) => return Err(ChannelFault::TooManyTurns),
        }
    }
}

/// What a piece gave: the frames that are whole now, and whether what comes after them has a fault.
#[derive(Drop)]
pub struct Came {
    pub frames: Vec<Frame>,
    pub is_bad: bool,
}

// No frame, and a fault.
fn bad_at_once(alloc: Global) -> Came
    ensures { (result.frames.items ≡ []) × (result.is_bad ≡ true) }
{
    Came {
        frames: Vec::new(alloc),
        is_bad: true,
    }
}

/// Feeds the piece where no fault came before, so that a fault is reported with the frames before it.
pub fn feed_piece(alloc: Global, frames: &mut Frames, piece: &[u8]) -> Result<Came, ChannelFault>
    ensures comes { (held : List ℕ) → IsPartial held → frames.old ≡ Some held → IfOk result (λ came. Comes held piece.now came.frames.items came.is_bad frames.new) }
    ensures refused { IfErr result (λ fault. (fault ≡ OutOfMemory) × (frames.new ≡ frames.old)) }
{
    match frames.feed(piece) {
        Ok(whole) => Ok(Came {
            frames: whole,
            is_bad: frames.fault().is_some(),
        }),
        Err(FeedFault::OutOfMemory) => Err(ChannelFault::OutOfMemory),
        Err(FeedFault::Fault(_)) => Ok(bad_at_once(alloc)),
        Err(FeedFault::Failed) => Ok(bad_at_once(alloc)),
    }
}
