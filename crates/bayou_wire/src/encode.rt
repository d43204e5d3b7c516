//! Encoders.
ghost use Rattle.std.specs.Prelude.{◌≡◌, ◌+◌, ◌<◌, ◌≤◌, IfOk, length};
ghost use Rattle.bayou_base.specs.declared.limits.TheConstants.{MAX_FRAME_BYTES, MAX_WRITE_BYTES};
ghost use Rattle.bayou_wire.specs.declared.layout.TheConstants.{LENGTH_BYTES};
ghost use Rattle.bayou_wire.specs.Spelling.{SpellsFrame, SpellsWrite, kind_of, packed};
ghost use Rattle.bayou_wire.specs.declared.frame.Frame.TheVariants.{Item};

use crate::frame::Frame;
use crate::layout::*;
use crate::put::{put_payload, put_resting_write, put_write};
use bayou_lang::{RestingWrite, Write};
use std::alloc::{AllocError, Global};

// How many bytes there is room for at first: most spellings have no more, and never take a second room.
pub(crate) const USUAL_BYTES: usize = 128;

/// The one spelling of the Write. Want of memory is the only refusal, and leaves nothing behind.
pub fn encode_write(alloc: Global, write: &Write) -> Result<Vec<u8>, AllocError>
    ensures spelling { IfOk result (λ bytes. SpellsWrite bytes.items write.now) }
    ensures size { IfOk result (λ bytes. (0 < length bytes.items) × (length bytes.items ≤ MAX_WRITE_BYTES)) }
{
    let mut bytes = Vec::with_capacity(alloc, USUAL_BYTES)?;
    put_write(&mut bytes, write)?;
    Ok(bytes)
}

/// The one spelling of a Write at rest, as [`encode_write`] gives it.
pub fn encode_resting_write(alloc: Global, write: &RestingWrite) -> Result<Vec<u8>, AllocError>
    ensures spelling { IfOk result (λ bytes. SpellsWrite bytes.items write.now) }
    ensures size { IfOk result (λ bytes. (0 < length bytes.items) × (length bytes.items ≤ MAX_WRITE_BYTES)) }
{
    let mut bytes = Vec::with_capacity(alloc, USUAL_BYTES)?;
    put_resting_write(&mut bytes, write)?;
    Ok(bytes)
}

fn kind_byte(frame: &Frame) -> u8
    ensures { result ≡ kind_of frame.now }
{
    match frame {
        Frame::Read(_, _) => KIND_READ,
        Frame::Write(_, _, _) => KIND_WRITE,
        Frame::Reopen => KIND_REOPEN,
        Frame::Dump => KIND_DUMP,
        Frame::Offer(_) => KIND_OFFER,
        Frame::Seen(_) => KIND_SEEN,
        Frame::Accepted(_) => KIND_ACCEPTED,
        Frame::Refused(_) => KIND_REFUSED,
        Frame::Reopened(_) => KIND_REOPENED,
        Frame::Item(_) => KIND_ITEM,
        Frame::End(_) => KIND_END,
    }
}

// A kind and a payload after their length.
pub(crate) fn packed_bytes(alloc: Global, kind: u8, payload: &[u8]) -> Result<Vec<u8>, AllocError>
    requires { length payload.now < MAX_FRAME_BYTES }
    ensures { IfOk result (λ bytes. bytes.items ≡ packed kind payload.now) }
{
    let len = (payload.len() + 1) as u16;
    let mut bytes = Vec::with_capacity(alloc, LENGTH_BYTES + 1 + payload.len())?;
    bytes.extend_from_slice(&len.to_be_bytes())?;
    bytes.push(kind)?;
    bytes.extend_from_slice(payload)?;
    Ok(bytes)
}

fn framed(alloc: Global, frame: &Frame) -> Result<Vec<u8>, AllocError>
    ensures { IfOk result (λ bytes. SpellsFrame bytes.items frame.now) }
{
    let mut payload = Vec::with_capacity(alloc, USUAL_BYTES)?;
    put_payload(&mut payload, frame)?;
    packed_bytes(alloc, kind_byte(frame), &payload)
}

fn framed_item(alloc: Global, write: &RestingWrite) -> Result<Vec<u8>, AllocError>
    ensures { IfOk result (λ bytes. SpellsFrame bytes.items (Item write.now)) }
{
    let mut payload = Vec::with_capacity(alloc, USUAL_BYTES)?;
    put_resting_write(&mut payload, write)?;
    packed_bytes(alloc, KIND_ITEM, &payload)
}

/// The one spelling of the [`Frame::Item`] of a Write at rest, as [`encode_frame`] gives it.
pub fn encode_item(alloc: Global, write: &RestingWrite) -> Result<Vec<u8>, AllocError>
    ensures spelling { IfOk result (λ bytes. SpellsFrame bytes.items (Item write.now)) }
    ensures size { IfOk result (λ bytes. length bytes.items ≤ LENGTH_BYTES + MAX_FRAME_BYTES) }
{
    framed_item(alloc, write)
}

/// The one spelling of the frame, its length first. Want of memory is the only refusal, and leaves nothing behind.
pub fn encode_frame(alloc: Global, frame: &Frame) -> Result<Vec<u8>, AllocError>
    ensures spelling { IfOk result (λ bytes. SpellsFrame bytes.items frame.now) }
    ensures size { IfOk result (λ bytes. length bytes.items ≤ LENGTH_BYTES + MAX_FRAME_BYTES) }
{
    framed(alloc, frame)
}
