//! Who says whether to wait on for what another end says.
ghost use Rattle.std.specs.Duration.{as_nanos};
ghost use Rattle.std.specs.Prelude.{◌≡◌, ◌+◌, ◌-◌, ◌*◌, ◌/◌, ◌^◌, ◌<◌, ◌≤◌, ◌↔◌, IfErr, IfOk, false, min, true};
ghost use Rattle.bayou_base.specs.declared.limits.TheConstants.{LEAST_BYTES_A_SECOND};

use crate::hall::ServiceHall;
use crate::pace::Pace;
use crate::rooms::RoomPlace;
use bayou_base::limits::{LEAST_BYTES_A_SECOND, MAX_WAITS};
use bayou_streams::Patience;
use std::io;
use std::io::{ErrorKind, Read, Write};
use std::sync::atomic::{AtomicU64, Ordering};
use std::time::{Clock, Duration};

/// Whether so many milliseconds have passed since then.
pub fn is_over(now: u64, since: u64, most: u64) -> bool
    ensures { result ≡ true ↔ since + most ≤ now }
{
    now >= since && now - since >= most
}

/// Since when it is waited, where so many bytes moved and it was waited since then.
pub fn behind(since: u64, now: u64, bytes: u64) -> u64
    ensures { bytes * 1_000 < 2 ^ 64 → result ≡ min (since + bytes * 1_000 / LEAST_BYTES_A_SECOND) now }
{
    let later = bytes.saturating_mul(1_000) / LEAST_BYTES_A_SECOND;
    since.saturating_add(later).min(now)
}

// The whole milliseconds of what a clock said. One that can't be read stands still.
fn milliseconds_of(said: io::Result<Duration>) -> u64
    ensures said { IfOk said (λ now. result ≡ min (as_nanos now / 1_000_000) (2 ^ 64 - 1)) }
    ensures unsaid { IfErr said (λ _. result ≡ 0) }
{
    match said {
        Ok(now) => u64::try_from(now.as_millis()).unwrap_or(u64::MAX),
        Err(_) => 0,
    }
}

/// The milliseconds of a clock. One that can't be read stands still.
pub(crate) fn milliseconds<C: Clock>(clock: &C) -> u64 {
    milliseconds_of(clock.monotonic())
}

/// Since when another end says nothing, in milliseconds of a clock: since it was last replied to, or reached.
#[derive(Drop)]
pub struct Since(AtomicU64);

impl Since {
    /// Since now.
    pub fn now<C: Clock>(clock: &C) -> Self {
        Since(AtomicU64::new(milliseconds(clock)))
    }

    /// Since no moment yet.
    pub fn never() -> Self {
        Since(AtomicU64::new(u64::MAX))
    }

    /// Since this moment.
    pub(crate) fn begin(&self, now: u64) {
        self.0.store(now, Ordering::SeqCst);
    }

    /// Since no moment any more.
    pub(crate) fn end(&self) {
        self.0.store(u64::MAX, Ordering::SeqCst);
    }

    /// The moment since which it is.
    pub(crate) fn began(&self) -> u64 {
        self.0.load(Ordering::SeqCst)
    }

    /// So many bytes moved: a second later for each so many of them as move in one at the least, and now at the latest.
    pub(crate) fn get_on(&self, now: u64, count: u64) {
        let since = self.0.load(Ordering::SeqCst);
        self.0.store(behind(since, now, count), Ordering::SeqCst);
    }

    /// Whether so many milliseconds have passed since then.
    pub fn is_past<C: Clock>(&self, clock: &C, most: u64) -> bool {
        is_over(milliseconds(clock), self.0.load(Ordering::SeqCst), most)
    }

    fn renew<C: Clock>(&self, clock: &C) {
        self.0.store(milliseconds(clock), Ordering::SeqCst);
    }
}

/// How long another end is waited for.
#[derive(Clone, Copy)]
pub enum Most<'a> {
    /// As long as the hall has patience.
    Hall,
    /// So many milliseconds.
    Milliseconds(u64),
    /// So many milliseconds, and as long as what comes keeps this pace.
    Paced(u64, &'a Pace),
    /// So many milliseconds, and until whoever has this place is called out.
    Placed(u64, &'a RoomPlace),
}

/// Waits as long as there is patience and the server doesn't end. Patience counts from the last reply: whoever sends bytes without ever
/// making a request of them has no more of it than who says nothing.
#[derive(Drop)]
pub struct PatientWait<'a, C> {
    clock: &'a C,
    hall: &'a ServiceHall,
    since: &'a Since,
    most: Most<'a>,
    is_out: bool,
    /// How often it was asked.
    asked: u64,
}

impl<'a, C> PatientWait<'a, C> {
    /// Waits so long, by this clock.
    pub fn new(clock: &'a C, hall: &'a ServiceHall, since: &'a Since, most: Most<'a>) -> Self
        ensures { result.is_out ≡ false }
    {
        PatientWait {
            clock,
            hall,
            since,
            most,
            is_out: false,
            asked: 0,
        }
    }
}

impl<C: Clock> Patience for PatientWait<'_, C> {
    ghost use Rattle.std.specs.Prelude.{◌≡◌, true};

    ghost is_out = { λ waiting. waiting.is_out ≡ true };

    ghost asked = { λ waiting. waiting.asked };

    fn waits_on(&mut self) -> bool {
        self.asked = self.asked.saturating_add(1);
        let is_late = match self.most {
            Most::Hall => self.since.is_past(self.clock, self.hall.patience()),
            Most::Milliseconds(most) => self.since.is_past(self.clock, most),
            Most::Paced(most, pace) => {
                pace.is_lost(milliseconds(self.clock)) || self.since.is_past(self.clock, most)
            }
            Most::Placed(most, place) => {
                place.is_called(milliseconds(self.clock)) || self.since.is_past(self.clock, most)
            }
        };
        self.is_out = is_late || self.hall.is_over();
        !self.is_out
    }
}

/// A stream from or to another end, which is waited for anew with each piece that moves.
#[derive(Drop)]
pub struct PatientStream<'a, S, C> {
    stream: S,
    clock: &'a C,
    since: &'a Since,
    /// What counts the pieces that come, if anything does.
    pace: Option<&'a Pace>,
}

impl<'a, S, C> PatientStream<'a, S, C> {
    /// The stream, by which that time begins anew.
    pub fn new(stream: S, clock: &'a C, since: &'a Since) -> Self
        ensures { result.stream ≡ stream }
    {
        PatientStream {
            stream,
            clock,
            since,
            pace: None,
        }
    }

    /// The same of a stream from which what comes is counted.
    pub fn paced(stream: S, clock: &'a C, since: &'a Since, pace: &'a Pace) -> Self
        ensures { result.stream ≡ stream }
    {
        PatientStream {
            stream,
            clock,
            since,
            pace: Some(pace),
        }
    }
}

impl<R: Read, C: Clock> Read for PatientStream<'_, R, C> {
    ghost remaining = { λ renewing. R.remaining renewing.stream };

    fn read(&mut self, buf: &mut [u8]) -> io::Result<usize> {
        let count = self.stream.read(buf)?;
        self.since.renew(self.clock);
        if let Some(pace) = self.pace {
            pace.came(milliseconds(self.clock), count as u64);
        }
        Ok(count)
    }
}

impl<W: Write, C: Clock> Write for PatientStream<'_, W, C> {
    ghost contents = { λ renewing. W.contents renewing.stream };

    fn write(&mut self, buf: &[u8]) -> io::Result<usize> {
        let count = self.stream.write(buf)?;
        self.since.renew(self.clock);
        Ok(count)
    }

    fn flush(&mut self) -> io::Result<()> {
        self.stream.flush()
    }
}

/// What comes from a connection that has a place.
#[derive(Drop)]
pub struct PatientInput<'a, R, C> {
    reader: R,
    clock: &'a C,
    place: &'a RoomPlace,
}

impl<'a, R, C> PatientInput<'a, R, C> {
    /// The reader; the place notes when something comes.
    pub(crate) fn new(reader: R, clock: &'a C, place: &'a RoomPlace) -> Self
        ensures { result.reader ≡ reader }
    {
        PatientInput {
            reader,
            clock,
            place,
        }
    }
}

impl<R: Read, C: Clock> Read for PatientInput<'_, R, C> {
    ghost remaining = { λ heard. R.remaining heard.reader };

    fn read(&mut self, buf: &mut [u8]) -> io::Result<usize> {
        let count = self.reader.read(buf)?;
        if count > 0 {
            self.place.came(milliseconds(self.clock));
        }
        Ok(count)
    }
}

/// What is sent to a connection that has a place. Its writes end by `WouldBlock` where nothing moves, and are tried again as long as there is
/// patience.
#[derive(Drop)]
pub struct PatientOutput<'a, W, P, C> {
    writer: W,
    patience: P,
    clock: &'a C,
    place: &'a RoomPlace,
}

impl<'a, W, P, C> PatientOutput<'a, W, P, C> {
    /// The writer; the place notes how it gets on.
    pub(crate) fn new(writer: W, patience: P, clock: &'a C, place: &'a RoomPlace) -> Self
        ensures { result.writer ≡ writer }
    {
        PatientOutput {
            writer,
            patience,
            clock,
            place,
        }
    }
}

impl<W, P, C: Clock> PatientOutput<'_, W, P, C> {
    // So many bytes were sent of so many.
    fn note(&self, count: usize, of: usize) {
        let now = milliseconds(self.clock);
        if count == of {
            self.place.replied(now);
        } else {
            self.place.since.get_on(now, count as u64);
        }
    }
}

impl<W: Write, P: Patience, C: Clock> Write for PatientOutput<'_, W, P, C> {
    ghost contents = { λ told. W.contents told.writer };

    fn write(&mut self, buf: &[u8]) -> io::Result<usize> {
        for _ in 0..MAX_WAITS {
            match self.writer.write(buf) {
                Err(error) if error.kind() == ErrorKind::WouldBlock => {}
                Err(error) => return Err(error),
                Ok(count) => {
                    self.note(count, buf.len());
                    return Ok(count);
                }
            }
            if !self.patience.waits_on() {
                break;
            }
        }
        Err(io::Error::from(ErrorKind::TimedOut))
    }

    fn flush(&mut self) -> io::Result<()> {
        self.writer.flush()
    }
}
