//! A writer whose turns begin anew with each line.
ghost use Rattle.std.specs.Prelude.{◌≡◌, ◌-◌, ◌<◌, ◌≤◌, true, false, Err, IfErr, IfOk, OnOk, length};
ghost use Rattle.std.specs.Io.{IsEmptyOrEndsWith, WritesAtMost};
ghost use Rattle.std.specs.Io.KnownBytes.{WriteAppends};
ghost use Rattle.bayou_base.specs.declared.limits.TheConstants.{MAX_TURNS};
ghost use Rattle.bayou_streams.specs.declared.channel.StreamFault.TheVariants.{TooManyTurns};
ghost use Rattle.bayou_streams.specs.Account.{TakesBytes, TakesFront, account};
ghost use Rattle.bayou_streams.specs.Lines.{counted, line_feeds, taken_of, turns_behind};
ghost use Rattle.bayou_streams.specs.Turns.{StopsStream, count_of, failed_behind, turns_of};

use crate::channel::{CountedChannel, StreamFault, Turn};
use memchr::memchr_iter;
use std::io::Write;

/// A writer, and the turns that are left to it for the line that it is at.
#[derive(Drop)]
pub struct Output<W> {
    channel: CountedChannel<(), W>,
    /// How many turns were made.
    spent: u64,
    /// How many line feeds the writer took.
    lines: u64,
}

/// How many lines end in the text. Many bytes are looked at in one step.
fn line_feeds_in(text: &[u8]) -> usize
    ensures { result ≡ line_feeds text.now }
{
    memchr_iter(b'\n', text).count()
}

impl<W: Write> Output<W> {
    /// The writer with [`MAX_TURNS`](bayou_base::MAX_TURNS) turns for its first line.
    pub fn new(writer: W) -> Self
        ensures writer { result.channel.writer ≡ writer }
        ensures left { result.channel.turns_left ≡ MAX_TURNS }
        ensures spent { result.spent ≡ 0 }
        ensures lines { result.lines ≡ 0 }
        ensures clean { result.channel.write_failed ≡ false }
    {
        Output {
            channel: CountedChannel::new((), writer),
            spent: 0,
            lines: 0,
        }
    }

    // Counts the lines that end in what the writer took. After one, another line begins, which has all turns again.
    fn count_lines(&mut self, taken: &[u8])
        ensures lines { self.new.lines ≡ counted self.old.lines (line_feeds taken.now) }
        ensures left { self.new.channel.turns_left ≡ turns_behind (line_feeds taken.now) self.old.channel.turns_left }
        ensures others { (self.new.channel.writer ≡ self.old.channel.writer) × (self.new.spent ≡ self.old.spent) × (self.new.channel.write_failed ≡ self.old.channel.write_failed) }
    {
        let ended = line_feeds_in(taken);
        self.lines = self.lines.saturating_add(ended as u64);
        if ended > 0 {
            self.channel.begin();
        }
    }

    // One turn, where one is left.
    fn turn(&mut self, text: &[u8]) -> Result<Turn, StreamFault>
        ensures bound { WritesAtMost (count_of result) text.now }
        ensures some { IfOk (count_of result) (λ count. 0 < length text.now → 0 < count) }
        ensures bytes { WriteAppends (W.contents self.old.channel.writer) (W.contents self.new.channel.writer) (count_of result) text.now }
        ensures enough { turns_of result ≤ self.old.channel.turns_left }
        ensures spent { self.new.spent ≡ counted self.old.spent (turns_of result) }
        ensures lines { self.new.lines ≡ counted self.old.lines (line_feeds (taken_of (count_of result) text.now)) }
        ensures left { self.new.channel.turns_left ≡ turns_behind (line_feeds (taken_of (count_of result) text.now)) (self.old.channel.turns_left - turns_of result) }
        ensures failed { self.new.channel.write_failed ≡ failed_behind self.old.channel.write_failed result }
        ensures none { result ≡ Err TooManyTurns → (self.new ≡ self.old) × (self.old.channel.turns_left ≡ 0) }
    {
        let turn = self.channel.write_turn(text);
        if let Err(StreamFault::TooManyTurns) = turn {
            return turn;
        }
        self.spent = self.spent.saturating_add(1);
        if let Ok(Turn::Moved(count)) = turn {
            self.count_lines(&text[..count]);
        }
        turn
    }

    /// Writes the whole text, each line in at most [`MAX_TURNS`](bayou_base::MAX_TURNS) turns. Where it ends in a fault, a
    /// front of the text was written.
    pub fn write_lines(&mut self, text: &[u8]) -> Result<(), StreamFault>
        ensures whole { OnOk result (TakesBytes (account W.contents self.old) (account W.contents self.new) text.now) }
        ensures part { TakesFront (account W.contents self.old) (account W.contents self.new) text.now }
        ensures stops { IfErr result (StopsStream self.new.channel.write_failed self.new.channel.turns_left) }
        // No call of it failed where the whole was written.
        ensures clean { OnOk result (self.new.channel.write_failed ≡ true → self.old.channel.write_failed ≡ true) }
        // After a whole line there are as many turns left as there may be.
        ensures ready { OnOk result (IsEmptyOrEndsWith text.now 10 → self.old.channel.turns_left ≤ self.new.channel.turns_left) }
    {
        let mut rest = text;
        while !rest.is_empty() {
            if let Turn::Moved(count) = self.turn(rest)? {
                rest = &rest[count..];
            }
        }
        Ok(())
    }
}
