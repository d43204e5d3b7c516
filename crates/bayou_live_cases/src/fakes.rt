//! Readers and writers that move a few bytes at a call, count their calls and fail; and whoever waits so often.
use bayou_streams::{CountedChannel, Patience};
use std::alloc::Global;
use std::io;
use std::io::{ErrorKind, Read, Write};

/// A reader that gives at most so many bytes at a call, and fails at the call of this number.
#[derive(Clone, Copy)]
pub struct Slow<'a> {
    bytes: &'a [u8],
    most: usize,
    fails_at: u32,
    pub calls: u32,
}

/// Such a reader of these bytes.
pub fn slow_reader(bytes: &[u8], most: usize, fails_at: u32) -> Slow<'_> {
    Slow {
        bytes,
        most,
        fails_at,
        calls: 0,
    }
}

impl Read for Slow<'_> {
    fn read(&mut self, buf: &mut [u8]) -> io::Result<usize> {
        self.calls = self.calls.saturating_add(1);
        if self.calls == self.fails_at {
            return Err(io::Error::from(ErrorKind::Other));
        }
        let count = self.bytes.len().min(self.most).min(buf.len());
        let (front, rest) = self.bytes.split_at(count);
        buf[..count].copy_from_slice(front);
        self.bytes = rest;
        Ok(count)
    }
}

/// A writer that takes at most so many bytes at a call, and fails at the call of this number.
#[derive(Drop)]
pub struct Counting {
    pub bytes: Vec<u8>,
    most: usize,
    fails_at: u32,
    pub calls: u32,
}

/// Such a writer, to which nothing was written.
pub fn slow_writer(alloc: Global, most: usize, fails_at: u32) -> Counting {
    Counting {
        bytes: Vec::new(alloc),
        most,
        fails_at,
        calls: 0,
    }
}

impl Write for Counting {
    fn write(&mut self, buf: &[u8]) -> io::Result<usize> {
        self.calls = self.calls.saturating_add(1);
        if self.calls == self.fails_at {
            return Err(io::Error::from(ErrorKind::BrokenPipe));
        }
        let count = buf.len().min(self.most);
        self.bytes.extend_from_slice(&buf[..count])?;
        Ok(count)
    }

    fn flush(&mut self) -> io::Result<()> {
        Ok(())
    }
}

/// How streams move: at most so many bytes at a call, and which call of each fails, if any.
#[derive(Clone, Copy)]
pub struct Moves {
    pub most: usize,
    pub read_fails_at: u32,
    pub write_fails_at: u32,
}

pub const AMPLE: Moves = Moves {
    most: 4096,
    read_fails_at: 0,
    write_fails_at: 0,
};

/// One byte at a call.
pub const SMALL: Moves = Moves {
    most: 1,
    read_fails_at: 0,
    write_fails_at: 0,
};

/// One byte at a call, up to this call of the reader.
pub const fn reading_up_to(fails_at: u32) -> Moves {
    Moves {
        most: 1,
        read_fails_at: fails_at,
        write_fails_at: 0,
    }
}

/// The same of the writer.
pub const fn writing_up_to(fails_at: u32) -> Moves {
    Moves {
        most: 1,
        read_fails_at: 0,
        write_fails_at: fails_at,
    }
}

pub type Streams<'a> = CountedChannel<Slow<'a>, Counting>;

/// Streams that move so, of which the one gives these bytes.
pub fn streams(alloc: Global, sent: &[u8], moves: Moves) -> Streams<'_> {
    CountedChannel::new(
        slow_reader(sent, moves.most, moves.read_fails_at),
        slow_writer(alloc, moves.most, moves.write_fails_at),
    )
}

/// Whoever waits so often, and counts how often that was asked.
#[derive(Drop)]
pub struct Waits {
    left: u32,
    pub asked: u64,
    is_out: bool,
}

impl Waits {
    pub const fn new(left: u32) -> Self {
        Waits {
            left,
            asked: 0,
            is_out: false,
        }
    }
}

impl Patience for Waits {
    ghost use Rattle.std.specs.Prelude.{◌≡◌, true};

    ghost is_out = { λ waits. waits.is_out ≡ true };

    ghost asked = { λ waits. waits.asked };

    fn waits_on(&mut self) -> bool {
        self.asked = self.asked.saturating_add(1);
        self.is_out = self.left == 0;
        self.left = self.left.saturating_sub(1);
        !self.is_out
    }
}
