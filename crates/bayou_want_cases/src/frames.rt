//! Frames from a stream that comes in pieces, where memory is refused.
use crate::fixtures::must_be_so;
use bayou_wire::{
    FeedFault, Frame, Frames, RestingFault, decode_resting_write, encode_frame,
    encode_resting_write,
};
use std::alloc::Global;

/// An Item: a Write that puts 1 at `room`.
const ITEM: &[u8] =
    b"\x00\x5d\x15\x00\x00\x00\x00\x01\x00\x00\x00\x01\0\0\0\0\0\0\0\0\0\0\0\0\0\0\0\0\0\0\0\0\0\0\0\0\0\0\0\0\0\0\0\0\0\0\0\0\0\0\0\0\0\0\0\0\0\0\0\0\0\0\0\0\0\0\0\0\0\0\0\0\0\0\0\0\x00\x01\x01\x04room\x01\x01\0\0\0\0\0\0\0\x01\x00";

/// Feeds the piece, again where that was refused for want of memory.
fn fed_at_last(frames: &mut Frames, piece: &[u8]) -> Option<Vec<Frame>> {
    match frames.feed(piece) {
        Ok(list) => Some(list),
        Err(FeedFault::OutOfMemory) => frames.feed(piece).ok(),
        Err(_) => None,
    }
}

/// Whether the frame is encoded as the Item.
fn has_its_bytes(alloc: Global, frame: &Frame) -> bool {
    match encode_frame(alloc, frame) {
        Ok(bytes) => bytes.as_slice() == ITEM,
        Err(_) => false,
    }
}

/// Whether the Item comes of its two halves, each fed again where that was refused.
fn comes_at_last(alloc: Global, frames: &mut Frames) -> bool {
    let (front, back) = ITEM.split_at(40);
    let is_begun = matches!(fed_at_last(frames, front), Some(list) if list.is_empty());
    let came = fed_at_last(frames, back);
    match came.as_deref() {
        Some([frame]) => is_begun && (has_its_bytes(alloc, frame) || has_its_bytes(alloc, frame)),
        _ => false,
    }
}

/// Whether the Item's Write is read at rest and has its bytes, or nothing but want of memory is reported.
fn is_decoded(alloc: Global) -> Option<bool> {
    let (_, bytes) = ITEM.split_at(3);
    match decode_resting_write(alloc, bytes) {
        Ok(write) => match encode_resting_write(alloc, &write) {
            Ok(again) => Some(again.as_slice() == bytes),
            Err(_) => None,
        },
        Err(RestingFault::OutOfMemory) => None,
        Err(RestingFault::Fault(_)) => Some(false),
    }
}

/// For runs in which any one allocation is refused: a piece that was refused for it counts as not fed, and can be fed again.
#[test]
fn one_want_of_memory_costs_a_stream_no_frame(rt: HostRuntime) {
    let mut frames = Frames::new(rt.alloc());
    for number in 0..3 {
        must_be_so(&rt, comes_at_last(rt.alloc(), &mut frames), number);
    }
    let first = is_decoded(rt.alloc());
    let is_so = first == Some(true) || (first.is_none() && is_decoded(rt.alloc()) == Some(true));
    must_be_so(&rt, is_so, 3);
}
