//! Lines of an input, as they come.
ghost use Rattle.std.specs.Prelude.{◌≡◌, ◌≤◌, ◌==◌, position};
ghost use Rattle.bayou_base.specs.declared.limits.TheConstants.{READ_BYTES as PIECE};

use bayou_base::limits::{MAX_LINE_BYTES, READ_BYTES};
use std::alloc::{AllocError, Global};
use std::io::{ErrorKind, Read};

/// The next line of an input.
#[derive(Drop)]
pub(crate) enum NextLine {
    /// Its bytes, without its line feed.
    Line(Vec<u8>),
    /// A line that is longer than a line may be.
    TooLong,
    /// The input has ended.
    End,
}

/// Why no line came.
#[derive(Clone, Copy, Debug, PartialEq, Eq)]
pub(crate) enum InputFault {
    /// The reader failed.
    Input,
    OutOfMemory,
}

/// An input that is read as its lines are asked for.
#[derive(Drop)]
pub(crate) struct InputLines<R> {
    reader: R,
    alloc: Global,
    piece: [u8; READ_BYTES],
    /// What of the piece isn't given yet: from here,
    from: usize,
    /// to here.
    to: usize,
    has_ended: bool,
    ghost within: { (from ≤ to) × (to ≤ PIECE) },
}

impl From<AllocError> for InputFault {
    ghost use Rattle.std.specs.Prelude.{◌≡◌};
    ghost use Rattle.bayou_connect.specs.declared.lines.InputFault.TheVariants.{OutOfMemory};

    ghost from_gives = { λ _ fault. fault ≡ OutOfMemory };

    fn from(_refused: AllocError) -> InputFault {
        InputFault::OutOfMemory
    }
}

// The place of the first line feed.
fn line_feed_in(bytes: &[u8]) -> Option<usize>
    ensures { result ≡ position (λ byte. byte == 10) bytes.now }
{
    bytes.iter().position(|byte| *byte == b'\n')
}

impl<R: Read> InputLines<R> {
    ghost use Rattle.std.specs.Prelude.{◌+◌, ◌-◌, ◌<◌, ◌++◌, [], ℕ, List, IfOk, MatchBool, OnOk, false, length, take};
    ghost use Rattle.std.specs.Io.KnownBytes.{IsAtEnd, Keeps};
    ghost use Rattle.bayou_base.specs.declared.limits.TheConstants.{MAX_LINE_BYTES};
    ghost use Rattle.bayou_connect.specs.Reader.{GivesPart, PutsLine, TakesLine, left_in};

    /// The lines of what the reader has left.
    pub(crate) fn new(alloc: Global, reader: R) -> Self
        ensures { left_in R.remaining result ≡ R.remaining reader }
    {
        InputLines {
            reader,
            alloc,
            piece: [0; READ_BYTES],
            from: 0,
            to: 0,
            has_ended: false,
        }
    }

    // Reads the next piece, where the last one was given. Whether there is one.
    fn fill(&mut self) -> Result<bool, InputFault>
        requires given { self.old.to ≤ self.old.from }
        requires open { self.old.has_ended ≡ false }
        ensures same { OnOk result (Keeps (left_in R.remaining self.old) (left_in R.remaining self.new)) }
        ensures more { IfOk result (λ more. MatchBool more (self.new.from < self.new.to) (IsAtEnd (left_in R.remaining self.new))) }
    {
        for _ in 0..u64::MAX {
            match self.reader.read(&mut self.piece) {
                Ok(0) => {
                    self.has_ended = true;
                    return Ok(false);
                }
                Ok(count) => {
                    self.from = 0;
                    self.to = count.min(READ_BYTES);
                    return Ok(true);
                }
                Err(error) if error.kind() == ErrorKind::Interrupted => {}
                Err(_) => return Err(InputFault::Input),
            }
        }
        Err(InputFault::Input)
    }

    // Whether bytes are left to give.
    fn has_more(&mut self) -> Result<bool, InputFault>
        ensures same { OnOk result (Keeps (left_in R.remaining self.old) (left_in R.remaining self.new)) }
        ensures more { IfOk result (λ more. MatchBool more (self.new.from < self.new.to) (IsAtEnd (left_in R.remaining self.new))) }
    {
        if self.from < self.to {
            return Ok(true);
        }
        if self.has_ended {
            return Ok(false);
        }
        self.fill()
    }

    // Puts what of the line is in the piece after the line, as far as a line may be long and one byte more. Whether the line ended.
    fn take_into(&mut self, line: &mut Vec<u8>) -> Result<bool, InputFault>
        requires { self.old.from < self.old.to }
        ensures { IfOk result (λ ended. (passed : List ℕ) × GivesPart (left_in R.remaining self.old) (left_in R.remaining self.new) passed ended
            × (line.new.items ≡ line.old.items ++ take (MAX_LINE_BYTES + 1 - length line.old.items) passed)) }
    {
        let rest = &self.piece[self.from..self.to];
        let found = line_feed_in(rest);
        let count = found.unwrap_or(rest.len());
        let room = (MAX_LINE_BYTES + 1).saturating_sub(line.len());
        line.extend_from_slice(&rest[..count.min(room)])?;
        match found {
            Some(at) => {
                self.from += at + 1;
                Ok(true)
            }
            None => {
                self.from = self.to;
                Ok(false)
            }
        }
    }

    // Puts the next line after none, as far as a line may be long and one byte more. Whether there is one.
    fn take_line(&mut self, line: &mut Vec<u8>) -> Result<bool, InputFault>
        requires { line.old.items ≡ [] }
        ensures { IfOk result (λ has_any. PutsLine (left_in R.remaining self.old) (left_in R.remaining self.new) line.new.items has_any) }
    {
        let mut has_any = false;
        for _ in 0..u64::MAX {
            if !self.has_more()? {
                return Ok(has_any);
            }
            has_any = true;
            if self.take_into(line)? {
                return Ok(true);
            }
        }
        Err(InputFault::Input)
    }

    /// The next line. Of one that is too long nothing is kept, and it is passed over to its end.
    pub(crate) fn next_line(&mut self) -> Result<NextLine, InputFault>
        ensures { IfOk result (TakesLine (left_in R.remaining self.old) (left_in R.remaining self.new)) }
    {
        let mut line = Vec::new(self.alloc);
        if !self.take_line(&mut line)? {
            return Ok(NextLine::End);
        }
        if line.len() > MAX_LINE_BYTES {
            return Ok(NextLine::TooLong);
        }
        Ok(NextLine::Line(line))
    }
}
