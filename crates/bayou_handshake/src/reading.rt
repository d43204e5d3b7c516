//! The bytes of one frame from a channel, and not a byte more.
ghost use Rattle.std.specs.Prelude.{◌≡◌, ◌+◌, ◌≤◌, ◌++◌, ℕ, List, [], Err, IfErr, IfOk, OnOk, length};
ghost use Rattle.std.specs.Io.KnownBytes.{Consumes, IsAtEnd};
ghost use Rattle.arrayvec.specs.ArrayVec.{array_vec_len};
ghost use Rattle.bayou_frames.specs.declared.fault.ChannelFault.TheVariants.{BadFrame, Cut};
ghost use Rattle.bayou_wire.specs.declared.layout.TheConstants.{LENGTH_BYTES as LEAST};
ghost use Rattle.bayou_frames.specs.Stopping.{Stops};
ghost use Rattle.bayou_wire.specs.Greetings.{SpellsGreeting};
ghost use Rattle.bayou_handshake.specs.Reading.{IsGreetingRead, IsReadingFault, IsTextFault, IsTextRead};

use arrayvec::ArrayVec;
use bayou_frames::{ChannelFault, read_piece};
use bayou_streams::CountedChannel;
use bayou_wire::layout::LENGTH_BYTES;
use bayou_wire::{Greeting, decode_greeting};
use std::io::Read;

/// How many bytes a greeting has at the most that is read, its length first. No greeting of a store has as many.
pub const MAX_GREETING_BYTES: usize = 256;

// Adds a piece for which there is room.
fn add<const MOST: usize>(text: &mut ArrayVec<u8, MOST>, piece: &[u8])
    requires { array_vec_len text.old + length piece.now ≤ MOST }
    ensures items { text.new.items ≡ text.old.items ++ piece.now }
    ensures len { array_vec_len text.new ≡ array_vec_len text.old + length piece.now }
{
    let Ok(()) = text.try_extend_from_slice(piece) else {
        unreachable!();
    };
}

// Reads until the text has so many bytes. The input may end before.
fn read_up_to<R: Read, W, const MOST: usize>(
    channel: &mut CountedChannel<R, W>,
    text: &mut ArrayVec<u8, MOST>,
    size: usize,
) -> Result<(), ChannelFault>
    requires { size ≤ MOST }
    ensures reads { (read : List ℕ) × Consumes (R.remaining channel.old.reader) (R.remaining channel.new.reader) read × (text.new.items ≡ text.old.items ++ read) }
    ensures whole { OnOk result (size ≤ array_vec_len text.new) }
    ensures cut { result ≡ Err Cut → IsAtEnd (R.remaining channel.new.reader) }
    ensures fault { IfErr result IsTextFault }
    ensures stopped { IfErr result (Stops channel.new.read_failed channel.new.write_failed channel.new.turns_left) }
    ensures turns { channel.new.turns_left ≤ channel.old.turns_left }
    ensures other { (channel.new.writer ≡ channel.old.writer) × (channel.new.write_failed ≡ channel.old.write_failed) }
{
    let mut piece = [0; MOST];
    while text.len() < size {
        let most = size - text.len();
        let count = read_piece(channel, &mut piece[..most])?;
        if count == 0 {
            return Err(ChannelFault::Cut);
        }
        add(text, &piece[..count]);
    }
    Ok(())
}

// How many bytes a frame has that begins so, its length first, if there is room for as many; else those that it begins with.
fn size_of<const MOST: usize>(text: &ArrayVec<u8, MOST>) -> usize
    requires { (LEAST ≤ array_vec_len text.now) × (LEAST ≤ MOST) }
    ensures { result ≤ MOST }
{
    let size = LENGTH_BYTES + usize::from(u16::from_be_bytes([text[0], text[1]]));
    if size <= MOST { size } else { LENGTH_BYTES }
}

/// Reads the bytes of one frame, its length first, or none where the input ends before it begins. Of one that is longer than there is room for the
/// length alone is read.
pub fn read_text<R: Read, W, const MOST: usize>(
    channel: &mut CountedChannel<R, W>,
) -> Result<ArrayVec<u8, MOST>, ChannelFault>
    requires { LEAST ≤ MOST }
    ensures reads { (read : List ℕ) × Consumes (R.remaining channel.old.reader) (R.remaining channel.new.reader) read
        × IfOk result (λ text. IsTextRead read (IsAtEnd (R.remaining channel.new.reader)) text.items) }
    ensures cut { result ≡ Err Cut → IsAtEnd (R.remaining channel.new.reader) }
    ensures fault { IfErr result IsTextFault }
    ensures stopped { IfErr result (Stops channel.new.read_failed channel.new.write_failed channel.new.turns_left) }
    ensures turns { channel.new.turns_left ≤ channel.old.turns_left }
    ensures other { (channel.new.writer ≡ channel.old.writer) × (channel.new.write_failed ≡ channel.old.write_failed) }
{
    let mut text = ArrayVec::new();
    match read_up_to(channel, &mut text, LENGTH_BYTES) {
        Ok(()) => {}
        Err(ChannelFault::Cut) if text.is_empty() => return Ok(text),
        Err(fault) => return Err(fault),
    }
    let size = size_of(&text);
    read_up_to(channel, &mut text, size)?;
    Ok(text)
}

// The greeting that the text spells, whole.
fn spelled(text: &[u8]) -> Result<Greeting, ChannelFault>
    ensures is { IfOk result (λ greeting. SpellsGreeting text.now greeting) }
    ensures fault { IfErr result (λ fault. fault ≡ BadFrame) }
{
    match decode_greeting(text) {
        Ok(greeting) => Ok(greeting),
        Err(_) => Err(ChannelFault::BadFrame),
    }
}

/// Reads one greeting, or nothing where the input ends before it begins. What isn't one, or has more bytes than any, is a bad frame.
pub fn read_greeting<R: Read, W>(
    channel: &mut CountedChannel<R, W>,
) -> Result<Option<Greeting>, ChannelFault>
    ensures reads { (read : List ℕ) × Consumes (R.remaining channel.old.reader) (R.remaining channel.new.reader) read
        × IfOk result (IsGreetingRead read (IsAtEnd (R.remaining channel.new.reader))) }
    ensures fault { IfErr result IsReadingFault }
    ensures stopped { IfErr result (Stops channel.new.read_failed channel.new.write_failed channel.new.turns_left) }
    ensures turns { channel.new.turns_left ≤ channel.old.turns_left }
    ensures other { (channel.new.writer ≡ channel.old.writer) × (channel.new.write_failed ≡ channel.old.write_failed) }
{
    let text: ArrayVec<u8, MAX_GREETING_BYTES> = read_text(channel)?;
    if text.is_empty() {
        return Ok(None);
    }
    Ok(Some(spelled(text.as_slice())?))
}
