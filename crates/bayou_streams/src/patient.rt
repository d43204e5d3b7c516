//! A reader that waits for bytes as long as there is patience.
ghost use Rattle.std.specs.Prelude.{◌≡◌, ℕ, true, false};
ghost use Rattle.std.specs.Io.{ReadsAtMost};
ghost use Rattle.std.specs.Io.KnownBytes.{ReadConsumes};
ghost use Rattle.bayou_streams.specs.Lines.{counted};
ghost use Rattle.bayou_streams.specs.Waits.{WaitsFor};

use crate::called::CalledReader;
use bayou_base::limits::MAX_WAITS;
use std::io;
use std::io::{ErrorKind, Read};

/// Whoever says whether to wait on for bytes.
pub trait Patience: Drop {
    /// It said no, and why bytes aren't waited for any more is there.
    ghost is_out: { Self → Type 0 };

    /// How often it was asked. At the greatest count it stays.
    ghost asked: { Self → ℕ };

    /// Whether to wait once more.
    fn waits_on(&mut self) -> bool
        ensures out { result ≡ false → is_out self.new }
        ensures counts { asked self.new ≡ counted (asked self.old) 1 };
}

/// A reader whose waits end by `WouldBlock`, as those of a socket with a read timeout do, and somebody who says whether to wait again.
#[derive(Drop)]
pub struct Patient<R, P> {
    reader: CalledReader<R>,
    patience: P,
}

impl<R, P> Patient<R, P> {
    /// The reader, and who says whether it is waited for.
    pub fn new(reader: R, patience: P) -> Self
        ensures reader { (result.reader.reader ≡ reader) × (result.reader.calls ≡ 0) }
        ensures patience { result.patience ≡ patience }
    {
        Patient {
            reader: CalledReader::new(reader),
            patience,
        }
    }

    /// How often the reader was called. At the greatest count it stays.
    pub fn calls(&self) -> u64
        ensures { result ≡ self.now.reader.calls }
    {
        self.reader.calls()
    }

    /// Who says whether it is waited for.
    pub fn patience(&self) -> &P
        ensures { result.now ≡ self.now.patience }
    {
        &self.patience
    }
}

impl<R: Read, P: Patience> Read for Patient<R, P> {
    ghost remaining = { λ p. R.remaining p.reader.reader };

    /// Reads what comes first, as the reader does. Before each call of it the patience is asked whether to wait. So the reader is called once
    /// for each yes, and for nothing else; and bytes are given up only where a call failed, where the answer was no, or after [`MAX_WAITS`]
    /// calls.
    fn read(&mut self, buf: &mut [u8]) -> io::Result<usize>
        ensures bound { ReadsAtMost result buf.new }
        ensures bytes { ReadConsumes (R.remaining self.old.reader.reader) (R.remaining self.new.reader.reader) result buf.new }
        ensures waited { WaitsFor (P.asked self.old.patience) (P.asked self.new.patience) self.old.reader.calls self.new.reader.calls
            (self.new.reader.has_failed ≡ true) (P.is_out self.new.patience) result }
    {
        for _ in 0..MAX_WAITS {
            if !self.patience.waits_on() {
                break;
            }
            match self.reader.call(buf) {
                Err(error) if error.kind() == ErrorKind::WouldBlock => {}
                Err(error) => return Err(error),
                Ok(count) => return Ok(count),
            }
        }
        Err(io::Error::from(ErrorKind::TimedOut))
    }
}
