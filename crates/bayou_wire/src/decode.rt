//! Decoders of whole inputs, and of what stands at the front of a stream.
ghost use Rattle.std.specs.Prelude.{◌≡◌, ℕ, ◌+◌, ◌<◌, MatchOption, Result, length};
ghost use Rattle.bayou_lang.specs.declared.write.Write.{Write as Written};
ghost use Rattle.bayou_wire.specs.declared.fault.DecodeFault.{DecodeFault};
ghost use Rattle.bayou_wire.specs.declared.frame.Frame.{Frame};
ghost use Rattle.bayou_wire.specs.declared.layout.TheConstants.{LENGTH_BYTES};
ghost use Rattle.bayou_wire.specs.Forms.{UnlessWanting, plainly};
ghost use Rattle.bayou_wire.specs.Spelling.{WriteAnswer};
ghost use Rattle.bayou_wire.specs.Stream.{FrameAnswer, HasLength};

use crate::fault::{DecodeFault, RestingFault};
use crate::frame::PlainFrame;
use crate::front::{PlainFront, plain_front_of};
use crate::layout::LENGTH_BYTES;
use crate::resting::resting_write_of;
use crate::take::write_of;
use bayou_lang::{RestingWrite, Write};
use std::alloc::Global;

/// The Write that the bytes spell, all of them. Nothing is kept, whatever the answer is.
pub fn decode_write(bytes: &[u8]) -> Result<Write, DecodeFault>
    // What is answered is so.
    ensures answer { WriteAnswer bytes.now result }
    // Nothing else is.
    ensures only { (other : Result Written DecodeFault) → WriteAnswer bytes.now other → result ≡ other }
{
    match write_of(bytes) {
        None => Err(DecodeFault::BadBody),
        Some((write, [])) => Ok(write),
        Some((_, [_, ..])) => Err(DecodeFault::Trailing),
    }
}

/// As [`decode_write`], at rest: it takes memory at the size of what the Write says. Want of it may stand in the place of any other answer.
pub fn decode_resting_write(alloc: Global, bytes: &[u8]) -> Result<RestingWrite, RestingFault>
    // What is answered is so.
    ensures answer { UnlessWanting (WriteAnswer bytes.now) result }
    // Nothing else is.
    ensures only { (other : Result Written DecodeFault) → WriteAnswer bytes.now other → UnlessWanting (λ answer. answer ≡ other) result }
{
    match resting_write_of(alloc, bytes)? {
        None => Err(RestingFault::Fault(DecodeFault::BadBody)),
        Some((write, [])) => Ok(write),
        Some((_, [_, ..])) => Err(RestingFault::Fault(DecodeFault::Trailing)),
    }
}

/// How many bytes the frame in front has, by its length; `None` where the length isn't there. It doesn't look at the frame.
pub fn frame_len(bytes: &[u8]) -> Option<usize>
    ensures { MatchOption result (length bytes.now < LENGTH_BYTES) (λ size. (len : ℕ) × HasLength bytes.now len × (size ≡ LENGTH_BYTES + len)) }
{
    let [high, low, ..] = bytes else {
        return None;
    };
    Some(LENGTH_BYTES + usize::from(u16::from_be_bytes([*high, *low])))
}

/// The frame that the bytes spell, all of them. Nothing is kept, whatever the answer is.
pub fn decode_frame(bytes: &[u8]) -> Result<PlainFrame, DecodeFault>
    // What is answered is so.
    ensures answer { FrameAnswer bytes.now (plainly result) }
    // Nothing else is.
    ensures only { (other : Result Frame DecodeFault) → FrameAnswer bytes.now other → plainly result ≡ other }
{
    match plain_front_of(bytes) {
        PlainFront::Partial => Err(DecodeFault::BadBody),
        PlainFront::Faulty(fault) => Err(fault),
        PlainFront::Whole(frame, []) => Ok(frame),
        PlainFront::Whole(_, [_, ..]) => Err(DecodeFault::Trailing),
    }
}
