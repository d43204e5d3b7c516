//! A reader whose calls are counted.
ghost use Rattle.std.specs.Prelude.{◌≡◌, ◌≢◌, ◌↔◌, false, true, IfErr, OnOk, length};
ghost use Rattle.std.specs.Io.{ReadsAtMost};
ghost use Rattle.std.specs.Io.KnownBytes.{ReadConsumes};
ghost use Rattle.std.specs.IoError.{error_kind};
ghost use Rattle.bayou_streams.specs.Lines.{counted};

use std::io;
use std::io::{ErrorKind, Read};

/// A reader, how often it was called, and whether its last call failed otherwise than by the end of a wait. Nothing else calls it.
#[derive(Drop)]
pub struct CalledReader<R> {
    reader: R,
    calls: u64,
    has_failed: bool,
}

impl<R> CalledReader<R> {
    /// The reader, which wasn't called yet.
    pub fn new(reader: R) -> Self
        ensures { (result.reader ≡ reader) × (result.calls ≡ 0) × (result.has_failed ≡ false) }
    {
        CalledReader {
            reader,
            calls: 0,
            has_failed: false,
        }
    }

    /// How often it was called. At the greatest count it stays.
    pub fn calls(&self) -> u64
        ensures { result ≡ self.now.calls }
    {
        self.calls
    }
}

impl<R: Read> CalledReader<R> {
    /// Calls the reader once. A wait that ended gives `WouldBlock`.
    pub fn call(&mut self, buf: &mut [u8]) -> io::Result<usize>
        ensures bound { ReadsAtMost result buf.new }
        ensures size { length buf.new ≡ length buf.old }
        ensures bytes { ReadConsumes (R.remaining self.old.reader) (R.remaining self.new.reader) result buf.new }
        ensures counts { self.new.calls ≡ counted self.old.calls 1 }
        ensures whole { OnOk result (self.new.has_failed ≡ false) }
        ensures failed { IfErr result (λ error. self.new.has_failed ≡ true ↔ error_kind error ≢ ErrorKind.WouldBlock) }
    {
        self.calls = self.calls.saturating_add(1);
        let answer = self.reader.read(buf);
        self.has_failed = match &answer {
            Ok(_) => false,
            Err(error) => error.kind() != ErrorKind::WouldBlock,
        };
        answer
    }
}
