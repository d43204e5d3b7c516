//! Streams that end in time.
ghost use Rattle.std.specs.Prelude.{◌≡◌, ◌+◌, ◌≤◌, ◌↔◌, true};

use bayou_base::limits::MAX_WAITS;
use std::io;
use std::io::{ErrorKind, Read, Write};
use std::time::Clock;

/// The milliseconds of a clock. One that can't be read stands still.
pub fn milliseconds<C: Clock>(clock: &C) -> u64 {
    match clock.monotonic() {
        Ok(now) => u64::try_from(now.as_millis()).unwrap_or(u64::MAX),
        Err(_) => 0,
    }
}

/// Whether so many milliseconds have passed since then.
pub fn is_over(now: u64, since: u64, most: u64) -> bool
    ensures { result ≡ true ↔ since + most ≤ now }
{
    now >= since && now - since >= most
}

/// How long a stream is waited for, in milliseconds, from the first time that it is.
#[derive(Clone, Copy, Debug, PartialEq, Eq)]
pub struct Limit {
    /// For a byte more, or for the first.
    pub idle: u64,
    /// For all of it, whatever comes.
    pub whole: u64,
}

/// A stream whose waits end by `WouldBlock`, as those of a socket with a timeout do, and which is waited for no longer than the limit.
#[derive(Drop)]
pub struct LimitedStream<'a, S, C> {
    stream: S,
    clock: &'a C,
    limit: Limit,
    /// When it was first waited for, if it was.
    began: Option<u64>,
    /// When a byte moved last, or it was first waited for.
    moved: u64,
}

impl<'a, S, C: Clock> LimitedStream<'a, S, C> {
    /// The stream, which wasn't waited for yet.
    pub fn new(stream: S, clock: &'a C, limit: Limit) -> Self
        ensures { result.stream ≡ stream }
    {
        LimitedStream {
            stream,
            clock,
            limit,
            began: None,
            moved: 0,
        }
    }

    // Whether it was waited for long enough. The first time begins the wait.
    fn is_out(&mut self) -> bool
        ensures { self.new.stream ≡ self.old.stream }
    {
        let now = milliseconds(self.clock);
        match self.began {
            None => {
                self.began = Some(now);
                self.moved = now;
                false
            }
            Some(began) => is_over(now, began, self.limit.whole)
                || is_over(now, self.moved, self.limit.idle),
        }
    }
}

impl<R: Read, C: Clock> Read for LimitedStream<'_, R, C> {
    ghost remaining = { λ timed. R.remaining timed.stream };

    fn read(&mut self, buf: &mut [u8]) -> io::Result<usize> {
        for _ in 0..MAX_WAITS {
            if self.is_out() {
                break;
            }
            match self.stream.read(buf) {
                Err(error) if error.kind() == ErrorKind::WouldBlock => {}
                Err(error) => return Err(error),
                Ok(count) => {
                    self.moved = milliseconds(self.clock);
                    return Ok(count);
                }
            }
        }
        Err(io::Error::from(ErrorKind::TimedOut))
    }
}

impl<W: Write, C: Clock> Write for LimitedStream<'_, W, C> {
    ghost contents = { λ timed. W.contents timed.stream };

    fn write(&mut self, buf: &[u8]) -> io::Result<usize> {
        for _ in 0..MAX_WAITS {
            if self.is_out() {
                break;
            }
            match self.stream.write(buf) {
                Err(error) if error.kind() == ErrorKind::WouldBlock => {}
                Err(error) => return Err(error),
                Ok(count) => {
                    self.moved = milliseconds(self.clock);
                    return Ok(count);
                }
            }
        }
        Err(io::Error::from(ErrorKind::TimedOut))
    }

    fn flush(&mut self) -> io::Result<()> {
        self.stream.flush()
    }
}
