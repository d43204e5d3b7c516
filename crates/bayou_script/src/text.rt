//! Texts that come in pieces, each of which is cut into lines.
ghost use Rattle.std.specs.Prelude.{◌≡◌, ◌+◌, [], ◌∷◌, ◌++◌, ℕ, IfOk, List, MatchOption, MatchResult, length};
ghost use Rattle.bayou_script.specs.Inner.Taking.{FaultAt, HasNoLineFeed};
ghost use Rattle.bayou_script.specs.Order.{HasAdded, InOrderBy, Order, RefusedBy};
ghost use Rattle.bayou_script.specs.declared.fault.InputRefusal.TheVariants.{OutOfMemory};
ghost use Rattle.bayou_text.specs.Said.{Said, said};
ghost use Rattle.bayou_text.specs.Table.{Spells};

use crate::fault::{InputRefusal, ScriptFault};
use bayou_base::MAX_LINE_BYTES;
use bayou_text::{Line, read_line};
use memchr::memchr;
use std::alloc::Global;

/// What the lines of a text have said, while they are checked. Each kind of text has its own.
pub trait Front: Drop {
    /// What a whole text says.
    type Text: Drop;

    /// Whether the line of this number may say this after what was said before.
    ghost order: { Order };

    /// It keeps what was said.
    ghost keeps: { Self → List Said → Type 0 };

    /// The lines of a text say this.
    ghost says: { List (List ℕ) → Self.Text → Type 0 };

    /// What holds of each text that is given, whatever its lines are.
    ghost tells: { Self.Text → Type 0 };

    /// Nothing was said.
    fn new(alloc: Global) -> Self
        ensures { keeps result [] };

    /// Adds what the line of this number says, if that has its place, and answers whether it has.
    fn add(&mut self, alloc: Global, number: u64, line: Line) -> Result<bool, InputRefusal>
        requires { (bytes : List ℕ) × Spells bytes (said line) }
        ensures { (front : List Said) → keeps self.old front
            → MatchResult result (HasAdded order keeps number front (said line) self.new) (λ refusal. refusal ≡ OutOfMemory) };

    /// What the text says, where this is all of it.
    fn finish(self) -> Result<Self::Text, InputRefusal>
        ensures said { (lines : List (List ℕ)) (front : List Said) → InOrderBy order lines front → keeps self front
            → MatchResult result (says lines) (RefusedBy order lines) }
        ensures told { IfOk result tells };
}

/// Adds what the line of this number says. An empty line says nothing.
fn add_line<F: Front>(
    text: &mut F,
    alloc: Global,
    number: u64,
    bytes: &[u8],
) -> Result<(), InputRefusal>
    ensures { (before : List (List ℕ)) (front : List Said) → number ≡ length before + 1 → InOrderBy F.order before front → F.keeps text.old front
        → MatchResult result
        (λ _. (after : List Said) × InOrderBy F.order (before ++ bytes.now ∷ []) after × F.keeps text.new after)
        (FaultAt F.order number front bytes.now) }
{
    if bytes.is_empty() {
        return Ok(());
    }
    let line = match read_line(alloc, bytes) {
        Ok(line) => line,
        Err(fault) => return Err(InputRefusal::of_line(number, fault)),
    };
    if text.add(alloc, number, line)? {
        Ok(())
    } else {
        Err(InputRefusal::out_of_place(number))
    }
}

/// The first line that ends in the piece, and what stands after its line feed, if there is one.
fn first_line(piece: &[u8]) -> Option<(&[u8], &[u8])>
    ensures { MatchOption result (HasNoLineFeed piece.now)
        (λ parts. HasNoLineFeed parts.0.now × (piece.now ≡ (parts.0.now ++ 10 ∷ []) ++ parts.1.now)) }
{
    match memchr(b'\n', piece) {
        Some(end) => Some((&piece[..end], &piece[end + 1..])),
        None => None,
    }
}

/// A text of which a front was read. It keeps what the whole lines say, and the bytes of the line that hasn't ended.
#[derive(Drop)]
pub struct TextReader<F> {
    front: F,
    /// The number of the line that hasn't ended, counted from 1 on.
    number: u64,
    line: Vec<u8>,
}

impl<F: Front> TextReader<F> {
    ghost use Rattle.bayou_script.specs.Inner.Taking.{HasNoLineFeed};
    ghost use Rattle.bayou_script.specs.Reading.{HasReadBy, IsRefusedSoFar};
    ghost use Rattle.bayou_script.specs.Order.{lines_of};

    /// Nothing was read.
    pub fn new(alloc: Global) -> Self
        ensures { HasReadBy F.order F.keeps result [] }
    {
        TextReader {
            front: F::new(alloc),
            number: 1,
            line: Vec::new(alloc),
        }
    }

    /// Takes the line that has ended.
    fn end_line(&mut self, alloc: Global) -> Result<(), InputRefusal>
        ensures { (bytes : List ℕ) → HasReadBy F.order F.keeps self.old bytes
            → MatchResult result (λ _. HasReadBy F.order F.keeps self.new (bytes ++ 10 ∷ [])) (IsRefusedSoFar F.order (bytes ++ 10 ∷ [])) }
    {
        add_line(&mut self.front, alloc, self.number, self.line.as_slice())?;
        let Some(next) = self.number.checked_add(1) else {
            return Err(InputRefusal::OutOfMemory);
        };
        self.number = next;
        self.line.clear();
        Ok(())
    }

    /// Takes more bytes of the line that hasn't ended, none of which is a line feed. A line that is too long needn't end to be refused.
    fn go_on(&mut self, part: &[u8]) -> Result<(), InputRefusal>
        requires { HasNoLineFeed part.now }
        ensures { (bytes : List ℕ) → HasReadBy F.order F.keeps self.old bytes
            → MatchResult result (λ _. HasReadBy F.order F.keeps self.new (bytes ++ part.now)) (IsRefusedSoFar F.order (bytes ++ part.now)) }
    {
        if part.len() > MAX_LINE_BYTES.saturating_sub(self.line.len()) {
            return Err(InputRefusal::Line {
                number: self.number,
                fault: ScriptFault::BadShape,
            });
        }
        self.line.extend_from_slice(part)?;
        Ok(())
    }

    /// Takes the last bytes of a line, none of which is a line feed, and the line feed after them.
    fn take_line(&mut self, alloc: Global, part: &[u8]) -> Result<(), InputRefusal>
        requires { HasNoLineFeed part.now }
        ensures { (bytes : List ℕ) → HasReadBy F.order F.keeps self.old bytes
            → MatchResult result (λ _. HasReadBy F.order F.keeps self.new (bytes ++ part.now ++ 10 ∷ [])) (IsRefusedSoFar F.order (bytes ++ part.now ++ 10 ∷ [])) }
    {
        self.go_on(part)?;
        self.end_line(alloc)
    }

    /// Reads on. The least line with a fault is reported as soon as its fault is sure, whatever stands after it; then the reader
    /// is of no more use.
    pub fn feed(&mut self, alloc: Global, piece: &[u8]) -> Result<(), InputRefusal>
        ensures { (bytes : List ℕ) → HasReadBy F.order F.keeps self.old bytes
            → MatchResult result (λ _. HasReadBy F.order F.keeps self.new (bytes ++ piece.now)) (IsRefusedSoFar F.order (bytes ++ piece.now)) }
    {
        let mut rest = piece;
        while let Some((line, behind)) = first_line(rest) {
            self.take_line(alloc, line)?;
            rest = behind;
        }
        self.go_on(rest)
    }

    /// What all the lines have said. What stands after the last line feed is the last of them.
    fn end(self, alloc: Global) -> Result<F, InputRefusal>
        ensures { (bytes : List ℕ) → HasReadBy F.order F.keeps self bytes
            → MatchResult result
            (λ text. (front : List Said) × InOrderBy F.order (lines_of bytes) front × F.keeps text front)
            (RefusedBy F.order (lines_of bytes)) }
    {
        let mut text = self.front;
        add_line(&mut text, alloc, self.number, self.line.as_slice())?;
        Ok(text)
    }

    /// What the text says that was read. What stands after the last line feed is its last line.
    pub fn finish(self, alloc: Global) -> Result<F::Text, InputRefusal>
        ensures said { (bytes : List ℕ) → HasReadBy F.order F.keeps self bytes
            → MatchResult result (F.says (lines_of bytes)) (RefusedBy F.order (lines_of bytes)) }
        ensures told { IfOk result F.tells }
    {
        self.end(alloc)?.finish()
    }
}
