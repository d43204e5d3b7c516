//! One frame from a channel.
ghost use Rattle.std.specs.Prelude.{◌≡◌, ◌≢◌, ◌≤◌, ◌++◌, ℕ, List, Some, IfErr, IfOk};
ghost use Rattle.std.specs.Io.KnownBytes.{Consumes, IsAtEnd};
ghost use Rattle.bayou_frames.specs.declared.fault.ChannelFault.TheVariants.{BadFrame};
ghost use Rattle.bayou_frames.specs.First.{FirstOf, FrameRead, IsFeedFault, OfferRead, StopsInTime};
ghost use Rattle.bayou_frames.specs.Stopping.{Stops};
ghost use Rattle.bayou_wire.specs.declared.frame.Frame.TheVariants.{Offer};
ghost use Rattle.bayou_wire.specs.Stream.{IsPartial};

use crate::fault::ChannelFault;
use crate::framing::{feed_piece, read_piece};
use bayou_base::Vector;
use bayou_base::limits::READ_BYTES;
use bayou_streams::CountedChannel;
use bayou_wire::{Frame, Frames};
use std::alloc::Global;
use std::io::Read;

// Feeds the piece, and gives the first frame that is whole then.
fn first_of(alloc: Global, frames: &mut Frames, piece: &[u8]) -> Result<Option<Frame>, ChannelFault>
    ensures first { (held : List ℕ) → IsPartial held → frames.old ≡ Some held → FirstOf (held ++ piece.now) frames.new result }
    ensures fault { IfErr result IsFeedFault }
{
    let came = feed_piece(alloc, frames, piece)?;
    match came.frames.into_iter().next() {
        Some(frame) => Ok(Some(frame)),
        None if came.is_bad => Err(ChannelFault::BadFrame),
        None => Ok(None),
    }
}

/// Reads until the first frame is whole, and gives it. What came after it in the same piece is dropped.
pub fn read_frame<R: Read, W>(
    alloc: Global,
    channel: &mut CountedChannel<R, W>,
) -> Result<Frame, ChannelFault>
    ensures reads { (read : List ℕ) × Consumes (R.remaining channel.old.reader) (R.remaining channel.new.reader) read × StopsInTime read
        × FrameRead read (IsAtEnd (R.remaining channel.new.reader)) result }
    ensures stopped { IfErr result (Stops channel.new.read_failed channel.new.write_failed channel.new.turns_left) }
    ensures turns { channel.new.turns_left ≤ channel.old.turns_left }
    ensures other { (channel.new.writer ≡ channel.old.writer) × (channel.new.write_failed ≡ channel.old.write_failed) }
{
    let mut frames = Frames::new(alloc);
    let mut piece = [0; READ_BYTES];
    loop {
        let count = read_piece(channel, &mut piece)?;
        if count == 0 {
            return Err(ChannelFault::Cut);
        }
        if let Some(frame) = first_of(alloc, &mut frames, &piece[..count])? {
            return Ok(frame);
        }
    }
}

fn counts_of(frame: &Frame) -> Result<Vector, ChannelFault>
    ensures is { IfOk result (λ counts. frame.now ≡ Offer counts) }
    ensures none { IfErr result (λ fault. (fault ≡ BadFrame) × ((counts : List ℕ) → frame.now ≢ Offer counts)) }
{
    match frame {
        Frame::Offer(counts) => Ok(*counts),
        _ => Err(ChannelFault::BadFrame),
    }
}

/// Reads one Offer, as [`read_frame`] does, and gives its vector.
pub fn read_offer<R: Read, W>(
    alloc: Global,
    channel: &mut CountedChannel<R, W>,
) -> Result<Vector, ChannelFault>
    ensures reads { (read : List ℕ) × Consumes (R.remaining channel.old.reader) (R.remaining channel.new.reader) read × StopsInTime read
        × OfferRead read (IsAtEnd (R.remaining channel.new.reader)) result }
    ensures stopped { IfErr result (Stops channel.new.read_failed channel.new.write_failed channel.new.turns_left) }
    ensures turns { channel.new.turns_left ≤ channel.old.turns_left }
    ensures other { (channel.new.writer ≡ channel.old.writer) × (channel.new.write_failed ≡ channel.old.write_failed) }
{
    let frame = read_frame(alloc, channel)?;
    counts_of(&frame)
}
