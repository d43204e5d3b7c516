//! The counter at which lines are handed in: threads that serve connections hand them in, and the one that has the desk does them.

use std::mem;
use std::sync::{Condvar, Mutex, Wait};
use std::time::{Clock, Duration};

/// How many may wait for their turn at the most, beside the one whose line is done. The next learns at once that it is to ask again.
const MOST_WAITING: u32 = 2;

/// A line that somebody handed in, and what became of it.
#[derive(Drop)]
enum Turn {
    /// Nobody handed in one.
    Free,
    /// It isn't taken yet.
    Asked(String),
    /// It is being done.
    Taken,
    /// What became of it.
    Answered(Vec<u8>),
}

#[derive(Drop)]
struct Lines {
    turn: Turn,
    /// How many wait for their turn.
    waiting: u32,
    /// Whether no line is done any more.
    is_closed: bool,
}

/// Why a line wasn't done.
#[derive(Clone, Copy, Debug, PartialEq, Eq)]
pub enum NotDone {
    /// Others wait.
    Busy,
    /// No line is done any more.
    Closed,
}

/// Where lines are handed in, and what became of them. One is done at a time.
#[derive(Drop)]
pub struct Counter {
    lines: Mutex<Lines>,
    moved: Condvar,
}

impl Lines {
    // Takes the line that was handed in, if one was.
    fn take(&mut self) -> Option<String> {
        if !matches!(self.turn, Turn::Asked(_)) {
            return None;
        }
        match mem::replace(&mut self.turn, Turn::Taken) {
            Turn::Asked(line) => Some(line),
            Turn::Free | Turn::Taken | Turn::Answered(_) => None,
        }
    }

    // Takes what became of the line, if that came. Then it is the next one's turn.
    fn hear(&mut self) -> Option<Vec<u8>> {
        if !matches!(self.turn, Turn::Answered(_)) {
            return None;
        }
        match mem::replace(&mut self.turn, Turn::Free) {
            Turn::Answered(text) => Some(text),
            Turn::Free | Turn::Asked(_) | Turn::Taken => None,
        }
    }
}

impl Counter {
    /// Nobody handed in anything yet.
    pub fn new() -> Self {
        Counter {
            lines: Mutex::new(Lines {
                turn: Turn::Free,
                waiting: 0,
                is_closed: false,
            }),
            moved: Condvar::new(),
        }
    }

    // Hands the line in, once it is its turn.
    fn hand_in<T: Wait>(&self, rt: &T, line: String) -> Result<(), NotDone> {
        let mut lines = self.lines.lock(rt);
        if lines.waiting >= MOST_WAITING {
            return Err(NotDone::Busy);
        }
        lines.waiting += 1;
        for _ in rt.forever() {
            if lines.is_closed || matches!(lines.turn, Turn::Free) {
                break;
            }
            lines = self.moved.wait(rt, lines);
        }
        lines.waiting = lines.waiting.saturating_sub(1);
        if lines.is_closed {
            return Err(NotDone::Closed);
        }
        lines.turn = Turn::Asked(line);
        self.moved.notify_all();
        Ok(())
    }

    /// Has the line done, and waits for what becomes of it.
    pub fn ask<T: Wait>(&self, rt: &T, line: String) -> Result<Vec<u8>, NotDone> {
        self.hand_in(rt, line)?;
        let mut lines = self.lines.lock(rt);
        for _ in rt.forever() {
            if let Some(text) = lines.hear() {
                self.moved.notify_all();
                return Ok(text);
            }
            if lines.is_closed {
                return Err(NotDone::Closed);
            }
            lines = self.moved.wait(rt, lines);
        }
        Err(NotDone::Closed)
    }

    /// Takes the next line, if one is handed in within so many milliseconds.
    pub fn next<T: Wait + Clock>(&self, rt: &T, milliseconds: u32) -> Option<String> {
        let mut lines = self.lines.lock(rt);
        if let Some(line) = lines.take() {
            return Some(line);
        }
        let most = Duration::from_millis(u64::from(milliseconds));
        lines = self.moved.wait_timeout(rt, lines, most).0;
        lines.take()
    }

    /// Tells what became of the line that was taken.
    pub fn answer<T: Wait>(&self, rt: &T, text: Vec<u8>) {
        let mut lines = self.lines.lock(rt);
        lines.turn = Turn::Answered(text);
        self.moved.notify_all();
    }

    /// No line is done any more: whoever waits learns that. What became of the last one is still heard.
    pub fn close<T: Wait>(&self, rt: &T) {
        self.lines.lock(rt).is_closed = true;
        self.moved.notify_all();
    }
}
