//! What stands at the front of a stream.
ghost use Rattle.std.specs.Prelude.{IfOk};
ghost use Rattle.bayou_wire.specs.Forms.{UnlessWanting, plainly};
ghost use Rattle.bayou_wire.specs.Inner.Reading.{IsFront, IsPlainFront, IsTaken, PackedAnswer};

use crate::fault::{DecodeFault, RestingFault};
use crate::frame::{Frame, PlainFrame};
use crate::payload::{is_kind, payload_of, plain_payload_of};
use bayou_base::MAX_FRAME_BYTES;
use std::alloc::{AllocError, Global};

/// What stands at the front of a stream.
#[derive(Drop)]
enum Front<'a> {
    /// Less than a whole frame.
    Partial,
    /// A whole frame, and the bytes after it.
    Whole(Frame, &'a [u8]),
    /// This, in a frame's place.
    Faulty(DecodeFault),
}

/// The frame of this kind and payload, all of it.
fn packed_of(alloc: Global, kind: u8, payload: &[u8]) -> Result<Frame, RestingFault>
    ensures { UnlessWanting (PackedAnswer kind payload.now) result }
{
    if !is_kind(kind) {
        return Err(RestingFault::Fault(DecodeFault::BadKind));
    }
    match payload_of(alloc, kind, payload)? {
        None => Err(RestingFault::Fault(DecodeFault::BadBody)),
        Some((frame, [])) => Ok(frame),
        Some((_, [_, ..])) => Err(RestingFault::Fault(DecodeFault::Trailing)),
    }
}

/// What stands at the front of the bytes.
fn front_of(alloc: Global, bytes: &[u8]) -> Result<Front<'_>, AllocError>
    ensures { IfOk result (λ front. IsFront bytes.now front) }
{
    let [high, low, rest @ ..] = bytes else {
        return Ok(Front::Partial);
    };
    let len = usize::from(u16::from_be_bytes([*high, *low]));
    if MAX_FRAME_BYTES < len {
        return Ok(Front::Faulty(DecodeFault::TooLong));
    }
    if rest.len() < len {
        return Ok(Front::Partial);
    }
    let (packed, behind) = rest.split_at(len);
    let [kind, payload @ ..] = packed else {
        return Ok(Front::Faulty(DecodeFault::BadBody));
    };
    match packed_of(alloc, *kind, payload) {
        Ok(frame) => Ok(Front::Whole(frame, behind)),
        Err(RestingFault::Fault(fault)) => Ok(Front::Faulty(fault)),
        Err(RestingFault::OutOfMemory) => Err(AllocError),
    }
}

/// What stands at the front of a stream, in the form that takes no memory.
#[derive(Drop)]
pub(crate) enum PlainFront<'a> {
    /// Less than a whole frame.
    Partial,
    /// A whole frame, and the bytes after it.
    Whole(PlainFrame, &'a [u8]),
    /// This, in a frame's place.
    Faulty(DecodeFault),
}

/// The frame of this kind and payload, all of it. It takes no memory.
fn plain_packed_of(kind: u8, payload: &[u8]) -> Result<PlainFrame, DecodeFault>
    ensures { PackedAnswer kind payload.now (plainly result) }
{
    if !is_kind(kind) {
        return Err(DecodeFault::BadKind);
    }
    match plain_payload_of(kind, payload) {
        None => Err(DecodeFault::BadBody),
        Some((frame, [])) => Ok(frame),
        Some((_, [_, ..])) => Err(DecodeFault::Trailing),
    }
}

/// What stands at the front of the bytes. It takes no memory.
pub(crate) fn plain_front_of(bytes: &[u8]) -> PlainFront<'_>
    ensures { IsPlainFront bytes.now result }
{
    let [high, low, rest @ ..] = bytes else {
        return PlainFront::Partial;
    };
    let len = usize::from(u16::from_be_bytes([*high, *low]));
    if MAX_FRAME_BYTES < len {
        return PlainFront::Faulty(DecodeFault::TooLong);
    }
    if rest.len() < len {
        return PlainFront::Partial;
    }
    let (packed, behind) = rest.split_at(len);
    let [kind, payload @ ..] = packed else {
        return PlainFront::Faulty(DecodeFault::BadBody);
    };
    match plain_packed_of(*kind, payload) {
        Ok(frame) => PlainFront::Whole(frame, behind),
        Err(fault) => PlainFront::Faulty(fault),
    }
}

/// Frames from the front of bytes, and how many bytes they leave.
#[derive(Drop)]
pub(crate) struct Taken {
    pub frames: Vec<Frame>,
    pub left: usize,
    /// What stands in a frame's place after them, if it isn't less than a frame.
    pub fault: Option<DecodeFault>,
}

/// The whole frames that the bytes begin with, up to a fault.
pub(crate) fn take_frames(alloc: Global, bytes: &[u8]) -> Result<Taken, AllocError>
    ensures { IfOk result (λ taken. IsTaken bytes.now taken.frames.items taken.left taken.fault) }
{
    let mut frames = Vec::new(alloc);
    let mut rest = bytes;
    loop {
        match front_of(alloc, rest)? {
            Front::Partial => {
                return Ok(Taken {
                    frames,
                    left: rest.len(),
                    fault: None,
                });
            }
            Front::Faulty(fault) => {
                return Ok(Taken {
                    frames,
                    left: rest.len(),
                    fault: Some(fault),
                });
            }
            Front::Whole(frame, behind) => {
                frames.push(frame)?;
                rest = behind;
            }
        }
    }
}
