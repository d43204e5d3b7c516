//! A reader and a writer with one budget of turns.
ghost use Rattle.std.specs.Prelude.{◌≡◌, ◌+◌, ◌<◌, ◌≤◌, false, Ok, Err, IfOk, length};
ghost use Rattle.std.specs.Io.{ReadsAtMost, WritesAtMost};
ghost use Rattle.std.specs.Io.KnownBytes.{ReadConsumes, WriteAppends};
ghost use Rattle.std.specs.IoError.{error_kind};
ghost use Rattle.bayou_base.specs.declared.limits.TheConstants.{MAX_TURNS};
ghost use Rattle.bayou_streams.specs.declared.channel.StreamFault.TheVariants.{Failed, TooManyTurns};
ghost use Rattle.bayou_streams.specs.declared.channel.Turn.TheVariants.{Moved};
ghost use Rattle.bayou_streams.specs.Inner.Turns.{IsTurnOf};
ghost use Rattle.bayou_streams.specs.Turns.{count_of, failed_behind, turns_of};

use bayou_base::MAX_TURNS;
use std::io;
use std::io::{ErrorKind, Read, Write};

/// Why a stream gave or took no more.
#[derive(Clone, Copy, Debug, PartialEq, Eq)]
pub enum StreamFault {
    /// A call of it failed. A writer that takes nothing has failed too.
    Failed,
    /// No turn was left.
    TooManyTurns,
}

/// What a turn came to.
#[derive(Clone, Copy, Debug, PartialEq, Eq)]
pub enum Turn {
    /// So many bytes were read or written.
    Moved(usize),
    /// The call was interrupted, and moved nothing. Another may go on.
    Interrupted,
}

/// A reader and a writer, and the turns that are left to the two together.
#[derive(Drop)]
pub struct CountedChannel<R, W> {
    reader: R,
    writer: W,
    turns_left: u32,
    read_failed: bool,
    write_failed: bool,
    ghost in_budget: { turns_left ≤ MAX_TURNS },
}

impl<R, W> CountedChannel<R, W> {
    /// The two with [`MAX_TURNS`] turns.
    pub fn new(reader: R, writer: W) -> Self
        ensures reader { result.reader ≡ reader }
        ensures writer { result.writer ≡ writer }
        ensures left { result.turns_left ≡ MAX_TURNS }
        ensures clean { (result.read_failed ≡ false) × (result.write_failed ≡ false) }
    {
        CountedChannel {
            reader,
            writer,
            turns_left: MAX_TURNS,
            read_failed: false,
            write_failed: false,
        }
    }

    /// The two again.
    pub fn into_parts(self) -> (R, W)
        ensures { (result.0 ≡ self.reader) × (result.1 ≡ self.writer) }
    {
        (self.reader, self.writer)
    }

    // All turns are left again: for an [`Output`](crate::Output) alone, whose lines bring them.
    pub(crate) fn begin(&mut self)
        ensures left { self.new.turns_left ≡ MAX_TURNS }
        ensures others { (self.new.reader ≡ self.old.reader) × (self.new.writer ≡ self.old.writer) × (self.new.read_failed ≡ self.old.read_failed) × (self.new.write_failed ≡ self.old.write_failed) }
    {
        self.turns_left = MAX_TURNS;
    }
}

// What a call of a reader came to. An interruption is no failure.
fn turn_of(answer: io::Result<usize>) -> Result<Turn, StreamFault>
    ensures { IsTurnOf (λ error. error_kind error ≡ ErrorKind.Interrupted) answer result }
{
    match answer {
        Ok(count) => Ok(Turn::Moved(count)),
        Err(error) => {
            if error.kind() == ErrorKind::Interrupted {
                return Ok(Turn::Interrupted);
            }
            Err(StreamFault::Failed)
        }
    }
}

// The same of a writer, which has failed too where it takes nothing of a text.
fn write_turn_of(turn: Result<Turn, StreamFault>, text: &[u8]) -> Result<Turn, StreamFault>
    ensures refused { turn ≡ Ok (Moved 0) → 0 < length text.now → result ≡ Err Failed }
    ensures others { (turn ≡ Ok (Moved 0) → length text.now ≡ 0) → result ≡ turn }
{
    if let Ok(Turn::Moved(0)) = turn {
        if !text.is_empty() {
            return Err(StreamFault::Failed);
        }
    }
    turn
}

impl<R: Read, W> CountedChannel<R, W> {
    /// Calls the reader once, where a turn is left, to read the next bytes into the front of the piece. None come only at the
    /// end, or where the piece has no room.
    pub fn read_turn(&mut self, piece: &mut [u8]) -> Result<Turn, StreamFault>
        ensures bound { ReadsAtMost (count_of result) piece.new }
        ensures size { length piece.new ≡ length piece.old }
        ensures bytes { ReadConsumes (R.remaining self.old.reader) (R.remaining self.new.reader) (count_of result) piece.new }
        ensures failed { self.new.read_failed ≡ failed_behind self.old.read_failed result }
        ensures left { self.new.turns_left + turns_of result ≡ self.old.turns_left }
        ensures none { result ≡ Err TooManyTurns → (self.new ≡ self.old) × (piece.new ≡ piece.old) × (self.old.turns_left ≡ 0) }
        ensures other { (self.new.writer ≡ self.old.writer) × (self.new.write_failed ≡ self.old.write_failed) }
    {
        if self.turns_left == 0 {
            return Err(StreamFault::TooManyTurns);
        }
        self.turns_left -= 1;
        let turn = turn_of(self.reader.read(piece));
        if turn.is_err() {
            self.read_failed = true;
        }
        turn
    }
}

impl<R, W: Write> CountedChannel<R, W> {
    /// Calls the writer once, where a turn is left, to write a front of the text.
    pub fn write_turn(&mut self, text: &[u8]) -> Result<Turn, StreamFault>
        ensures bound { WritesAtMost (count_of result) text.now }
        ensures some { IfOk (count_of result) (λ count. 0 < length text.now → 0 < count) }
        ensures bytes { WriteAppends (W.contents self.old.writer) (W.contents self.new.writer) (count_of result) text.now }
        ensures failed { self.new.write_failed ≡ failed_behind self.old.write_failed result }
        ensures left { self.new.turns_left + turns_of result ≡ self.old.turns_left }
        ensures none { result ≡ Err TooManyTurns → (self.new ≡ self.old) × (self.old.turns_left ≡ 0) }
        ensures other { (self.new.reader ≡ self.old.reader) × (self.new.read_failed ≡ self.old.read_failed) }
    {
        if self.turns_left == 0 {
            return Err(StreamFault::TooManyTurns);
        }
        self.turns_left -= 1;
        let turn = write_turn_of(turn_of(self.writer.write(text)), text);
        if turn.is_err() {
            self.write_failed = true;
        }
        turn
    }
}
