//! What tells at a terminal that work goes on.
ghost use Rattle.std.specs.Prelude.{◌≡◌, ◌≢◌, ◌+◌, ◌<◌, ◌≤◌, ◌↔◌, ◌++◌, ◌∷◌, IfOk, codes, decimal, not, string_bytes, true, false};
ghost use Rattle.std.specs.Duration.{as_nanos};
ghost use Rattle.bayou_streams.specs.Lines.{counted, line_feeds};

use std::alloc::{AllocError, Global};
use std::io::{ErrorKind, Write};
use std::sync::{Mutex, Wait};
use std::time::{Clock, Duration};
use std::{io, thread};

/// How long no line is printed before progress is shown, and how long one telling stands.
const PERIOD_SECONDS: u64 = 1;

/// How long the teller sleeps between two looks: the end of a run waits for at most one.
const LOOK_MILLISECONDS: u64 = 20;

/// What clears the line of a terminal.
const CLEAR: &str = "\r\x1b[K";

/// What the fault of a line of a text begins with.
const LINE_FAULT: &[u8] = b"bayou: line ";

/// Whether progress is due, where a line was last printed, or progress last shown, at `last`.
fn is_due(now: Duration, last: Duration) -> bool
    ensures { result ≡ true ↔ as_nanos last + 1000000000 ≤ as_nanos now }
{
    now.saturating_sub(last) >= Duration::from_secs(PERIOD_SECONDS)
}

/// The line that is shown.
fn progress_line(alloc: Global, seconds: u64, lines: u64) -> Result<String, AllocError>
    ensures { IfOk result (λ line. string_bytes line ≡ 13 ∷ codes "bayou: at work for " ++ (decimal seconds ++ (codes " s, " ++ (decimal lines ++ codes " lines printed")))) }
{
    format!(in alloc; "\rbayou: at work for {seconds} s, {lines} lines printed")
}

/// A terminal, and what it shows.
#[derive(Drop)]
pub struct Screen<E> {
    terminal: E,
    /// When the work began.
    begun: Duration,
    /// When a line was last seen to be printed, or progress was last shown.
    last: Duration,
    /// How many lines were printed.
    printed: u64,
    /// How many of them the teller saw.
    seen: u64,
    /// Whether a line of progress stands there.
    is_shown: bool,
    /// Whether the work ended.
    is_over: bool,
    /// Whether who reads the output has gone.
    is_cut: bool,
    /// Whether the fault of a line of a text was reported.
    is_refused: bool,
    /// Whether it was reported that servers didn't begin.
    is_unbegun: bool,
}

impl<E: Write> Screen<E> {
    /// A screen with no progress.
    pub fn new(terminal: E, now: Duration) -> Self
        ensures begun { (result.begun ≡ now) × (result.last ≡ now) }
        ensures none { (result.printed ≡ 0) × (result.seen ≡ 0) }
        ensures clear { (result.is_shown ≡ false) × (result.is_over ≡ false) }
    {
        Screen {
            terminal,
            begun: now,
            last: now,
            printed: 0,
            seen: 0,
            is_shown: false,
            is_over: false,
            is_cut: false,
            is_refused: false,
            is_unbegun: false,
        }
    }

    /// Clears the line of progress.
    fn clear(&mut self)
        ensures { self.new.is_shown ≡ false }
    {
        if self.is_shown {
            let _ = self.terminal.write_all(CLEAR.as_bytes());
            self.is_shown = false;
        }
    }

    /// Nothing is shown any more.
    pub fn end(&mut self)
        ensures over { self.new.is_over ≡ true }
        ensures clear { self.new.is_shown ≡ false }
    {
        self.clear();
        self.is_over = true;
    }

    /// Whether the fault of a line of a text was reported.
    pub fn is_refused(&self) -> bool
        ensures { result ≡ self.now.is_refused }
    {
        self.is_refused
    }

    /// Whether it was reported that servers didn't begin.
    pub fn is_unbegun(&self) -> bool
        ensures { result ≡ self.now.is_unbegun }
    {
        self.is_unbegun
    }

    // Notes whether this tells the fault of a line of a text, or that servers didn't begin.
    fn note(&mut self, text: &[u8]) {
        self.is_refused = self.is_refused || text.starts_with(LINE_FAULT);
        self.is_unbegun = self.is_unbegun || matches!(text, b"bayou: device\n");
    }

    // Whether this says that the output is at fault, where only its reader has gone: as with other tools, the status alone says that.
    fn is_needless(&self, text: &[u8]) -> bool {
        self.is_cut && matches!(text, b"bayou: output\n")
    }

    // Counts the line feeds.
    fn count(&mut self, text: &[u8])
        ensures { self.new ≡ record self.old { printed = counted self.old.printed (line_feeds text.now) } }
    {
        for byte in text {
            if *byte == b'\n' {
                self.printed = self.printed.saturating_add(1);
            }
        }
    }

    // Tells of progress, where it is due.
    fn tell(&mut self, alloc: Global, now: Duration)
        ensures printed { self.old.seen ≢ self.old.printed → self.new ≡ record self.old { seen = self.old.printed; last = now } }
        ensures quiet { self.old.seen ≡ self.old.printed → as_nanos now < as_nanos self.old.last + 1000000000 → self.new ≡ self.old }
        ensures due { self.old.seen ≡ self.old.printed → as_nanos self.old.last + 1000000000 ≤ as_nanos now
            → self.new ≡ record self.old { last = now; is_shown = self.new.is_shown; terminal = self.new.terminal } }
    {
        if self.seen != self.printed {
            self.seen = self.printed;
            self.last = now;
            return;
        }
        if !is_due(now, self.last) {
            return;
        }
        self.last = now;
        let seconds = now.saturating_sub(self.begun).as_secs();
        if let Ok(line) = progress_line(alloc, seconds, self.printed) {
            self.is_shown = true;
            let _ = self.terminal.write_all(line.as_bytes());
        }
    }

    // Looks once, and says whether the work goes on.
    fn look(&mut self, alloc: Global, now: Duration) -> bool
        ensures goes_on { result ≡ not self.old.is_over }
        ensures over { self.old.is_over ≡ true → self.new ≡ self.old }
    {
        if self.is_over {
            return false;
        }
        self.tell(alloc, now);
        true
    }
}

/// Tells of the work until it is over, or until no clock is there.
pub fn tell_progress<E: Write, T: Clock + Wait>(rt: &T, alloc: Global, screen: &Mutex<Screen<E>>) {
    for _ in rt.forever() {
        let Ok(now) = rt.monotonic() else {
            return;
        };
        if !screen.lock(rt).look(alloc, now) {
            return;
        }
        thread::sleep(rt, Duration::from_millis(LOOK_MILLISECONDS));
    }
}

/// A writer whose lines are counted, and which writes nothing beside a line of progress.
#[derive(Drop)]
pub struct Counted<'a, W, E, T> {
    writer: W,
    rt: &'a T,
    screen: &'a Mutex<Screen<E>>,
}

impl<'a, W, E, T> Counted<'a, W, E, T> {
    /// The writer beside the screen.
    pub fn new(writer: W, rt: &'a T, screen: &'a Mutex<Screen<E>>) -> Self
        ensures { result.writer ≡ writer }
    {
        Counted { writer, rt, screen }
    }
}

impl<W: Write, E: Write, T: Wait> Write for Counted<'_, W, E, T> {
    fn write(&mut self, buf: &[u8]) -> io::Result<usize> {
        let mut screen = self.screen.lock(self.rt);
        screen.clear();
        if screen.is_needless(buf) {
            return Ok(buf.len());
        }
        match self.writer.write(buf) {
            Ok(count) => {
                screen.note(buf);
                screen.count(&buf[..count]);
                Ok(count)
            }
            Err(error) => {
                screen.is_cut = screen.is_cut || error.kind() == ErrorKind::BrokenPipe;
                Err(error)
            }
        }
    }

    fn flush(&mut self) -> io::Result<()> {
        self.writer.flush()
    }
}
