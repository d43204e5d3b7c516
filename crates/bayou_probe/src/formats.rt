//! Lines, frames, Writes, records and kept sessions: what they are read as.
use crate::telling::{hex_of, told_fault};
use bayou_person::wish_in;
use bayou_remember::decode_kept;
use bayou_text::read_line;
use bayou_text_writer::write_line;
use bayou_wire::{
    Form, Frames, decode_frame, decode_record, decode_write, encode_frame, encode_record,
    encode_write, frame_len,
};
use std::alloc::{AllocError, Global};

/// What is reported of bytes that are none.
const NONE: &str = "!";

/// The run that a kept session goes on in.
const NEXT_RUN: u32 = 1;

/// The line's one spelling, or its first fault.
pub(crate) fn line(alloc: Global, text: &str) -> Result<String, AllocError> {
    match read_line(alloc, text.as_bytes()) {
        Ok(line) => write_line(alloc, &line),
        Err(fault) => told_fault(alloc, &fault),
    }
}

/// What a person wishes by the line, or its fault.
pub(crate) fn person(alloc: Global, text: &str) -> Result<String, AllocError> {
    match wish_in(alloc, text) {
        Ok(wish) => format!(in alloc; "{wish:?}"),
        Err(fault) => told_fault(alloc, &fault),
    }
}

/// The one frame that the bytes are, or their fault.
pub(crate) fn frame(alloc: Global, bytes: &[u8]) -> Result<String, AllocError> {
    match decode_frame(bytes) {
        Ok(frame) => format!(in alloc; "{frame:?}"),
        Err(fault) => told_fault(alloc, &fault),
    }
}

/// How many bytes the frame in front has, by its first two.
pub(crate) fn length(alloc: Global, bytes: &[u8]) -> Result<String, AllocError> {
    format!(in alloc; "{:?}", frame_len(bytes))
}

/// How a stream ends after its frames: between two, within one, or by a fault.
fn told_end(alloc: Global, frames: &Frames) -> Result<String, AllocError> {
    match frames.fault() {
        Some(fault) => told_fault(alloc, &fault),
        None if frames.is_between() => "whole".to_string(alloc),
        None => "begun".to_string(alloc),
    }
}

/// The frames that a stream of these bytes gives, as they are spelled again, and how it ends.
pub(crate) fn stream(alloc: Global, bytes: &[u8]) -> Result<String, AllocError> {
    let mut frames = Frames::new(alloc);
    let came = match frames.feed(bytes) {
        Ok(came) => came,
        Err(fault) => return told_fault(alloc, &fault),
    };
    let mut told = String::new(alloc);
    for frame in came.iter() {
        let spelled = encode_frame(alloc, frame)?;
        told.push_str(hex_of(alloc, &spelled)?.as_str())?;
        told.push_str(" ")?;
    }
    told.push_str(told_end(alloc, &frames)?.as_str())?;
    Ok(told)
}

/// The Write, if the bytes are its one spelling.
pub(crate) fn write(alloc: Global, bytes: &[u8]) -> Result<String, AllocError> {
    let write = match decode_write(bytes) {
        Ok(write) => write,
        Err(fault) => return told_fault(alloc, &fault),
    };
    let again = encode_write(alloc, &write)?;
    if again.as_slice() == bytes {
        format!(in alloc; "{write:?}")
    } else {
        "spelled otherwise".to_string(alloc)
    }
}

/// The record's tag, `-` where it has none, and its spelling in the widest form.
pub(crate) fn record(alloc: Global, form: Form, bytes: &[u8]) -> Result<String, AllocError> {
    let Some(record) = decode_record(alloc, form, bytes)? else {
        return NONE.to_string(alloc);
    };
    let spelled = encode_record(alloc, record.tag, &record.write)?;
    let wide = hex_of(alloc, &spelled)?;
    match record.tag {
        None => format!(in alloc; "- {wide}"),
        Some(tag) => format!(in alloc; "{}:{}:{} {wide}", tag.session.index, tag.run, tag.number),
    }
}

/// What is kept of a session.
pub(crate) fn state(alloc: Global, bytes: &[u8]) -> Result<String, AllocError> {
    let Some(kept) = decode_kept(alloc, NEXT_RUN, bytes)? else {
        return NONE.to_string(alloc);
    };
    let session = kept.session();
    let past = session.past();
    let id = session.id();
    format!(in alloc;
        "session {} run {} begun {} asked {:?} reads {:?} writes {:?}",
        id.index, past.run, past.begun, past.asked, past.reads, past.writes
    )
}
