//! A file in which each line that a person was shown stands after its time.
ghost use Rattle.std.specs.Prelude.{◌≡◌, None};

use bayou_streams::Output;
use std::alloc::{AllocError, Global};
use std::fs::{File, Files, OpenOptions};
use std::io;
use std::io::{ErrorKind, Write};
use std::os::unix::fs::OpenOptionsExt;
use std::sync::atomic::{AtomicBool, Ordering};
use std::time::Clock;

/// With what mode a log is made: who runs the program reads and writes it, and nobody else.
const OWN_MODE: u32 = 0o600;

/// The file of this name, at whose end lines are added, made where there is none.
pub(crate) fn open_log<T: Files<File = File>>(rt: &T, path: &str) -> io::Result<File> {
    let mut options = OpenOptions::new();
    options.append(true);
    options.create(true);
    options.mode(OWN_MODE);
    options.open(rt, path)
}

// The time, as milliseconds since 1970. A clock that can't be read gives 0.
fn milliseconds<C: Clock>(clock: &C) -> u128 {
    match clock.since_1970() {
        Ok(now) => now.as_millis(),
        Err(_) => 0,
    }
}

/// An output whose lines are added to a log, too, once they are printed. A log that fails stops nothing that is printed.
#[derive(Drop)]
pub(crate) struct Logged<'a, W, L, C> {
    output: &'a mut Output<W>,
    log: L,
    clock: &'a C,
    alloc: Global,
    /// Whether the last line isn't whole yet.
    is_within_line: bool,
    /// Set where a call of the log failed, so that a line may be missing there.
    has_failed: &'a AtomicBool,
}

impl<'a, W, L, C> Logged<'a, W, L, C> {
    /// The output, with a log of which nothing failed yet.
    pub(crate) fn new(
        alloc: Global,
        output: &'a mut Output<W>,
        log: L,
        clock: &'a C,
        has_failed: &'a AtomicBool,
    ) -> Self
        ensures { result.log ≡ log }
    {
        Logged {
            output,
            log,
            clock,
            alloc,
            is_within_line: false,
            has_failed,
        }
    }
}

impl<W, L: Write, C: Clock> Logged<'_, W, L, C> {
    // The text as the log has it: after the time where a line begins.
    fn logged_text(&mut self, text: &[u8]) -> Result<Vec<u8>, AllocError> {
        let mut logged = Vec::new(self.alloc);
        for byte in text {
            if !self.is_within_line {
                let now = milliseconds(self.clock);
                let time = format!(in self.alloc; "{now} ")?;
                logged.extend_from_slice(time.as_bytes())?;
            }
            logged.push(*byte)?;
            self.is_within_line = *byte != b'\n';
        }
        Ok(logged)
    }

    // Adds the text to the log, in one call as long as the file takes it so.
    fn note(&mut self, text: &[u8]) {
        let is_kept = match self.logged_text(text) {
            Ok(logged) => self.log.write_all(&logged).is_ok(),
            Err(_) => false,
        };
        if !is_kept {
            self.has_failed.store(true, Ordering::SeqCst);
        }
    }
}

/// Of what it takes no clause says anything: a line that is printed stands at two places.
impl<W: Write, L: Write, C: Clock> Write for Logged<'_, W, L, C> {
    ghost contents = { λ logged. None };

    fn write(&mut self, buf: &[u8]) -> io::Result<usize> {
        if self.output.write_lines(buf).is_err() {
            return Err(io::Error::from(ErrorKind::Other));
        }
        self.note(buf);
        Ok(buf.len())
    }

    fn flush(&mut self) -> io::Result<()> {
        Ok(())
    }
}
