//! What the threads that serve connections share, and a desk that stands for it.

ghost use Rattle.std.specs.Prelude.{◌≡◌, ◌↔◌, [], IfOk, IsTrue, None};
ghost use Rattle.std.specs.Option.{ForSome};
ghost use Rattle.bayou_web_serve.specs.Lines.{IsLine};
ghost use Rattle.bayou_web_state.specs.Done.{IsDone};
ghost use Rattle.bayou_web_serve.specs.Shows.{IsShown};

use crate::counter::{Counter, NotDone};
use crate::serving::{SiteHabits, serve_stream};
use crate::timed::milliseconds;
use bayou_base::limits::MAX_LINE_BYTES;
use bayou_net::{Attendant, Host};
use bayou_web::{PageDesk, Site};
use bayou_web_state::{LineDone, StoreSeen, done_text};
use std::alloc::{AllocError, Global};
use std::hash::RandomState;
use std::net::TcpStream;
use std::sync::atomic::{AtomicBool, AtomicU64, Ordering};
use std::sync::{Mutex, Wait};
use std::thread;
use std::time::{Clock, Duration};

/// For how long nobody is served where a connection can't be taken, in milliseconds.
const PAUSE_MILLISECONDS: u64 = 200;

/// What is reported of a line that is no line.
pub const NO_LINE: &str = "bayou: one line at a time, and none that is longer than a line may be\n";

/// What is reported where others wait.
const BUSY: &str = "bayou: other lines are being done; ask again\n";

/// What is reported where no line is done any more.
const CLOSED: &str = "bayou: no line is done any more\n";

/// The status of a line that can't be done.
const REFUSED: u8 = 2;

/// The status of every other fault.
const FAILED: u8 = 3;

/// What is seen, and the text that tells all of it, once it was spelled, as long as nothing changed.
#[derive(Drop)]
pub struct ShownState {
    seen: StoreSeen,
    text: Option<Vec<u8>>,
    ghost shown: { ForSome text (λ text. IsShown [] seen text.items) },
}

impl ShownState {
    /// Whether the rows were reported as servers were asked last.
    pub fn is_current(&self) -> bool
        ensures { result ≡ self.now.seen.is_current }
    {
        self.seen.is_current()
    }

    /// What is seen, to be changed.
    pub fn changed(&mut self) -> &mut StoreSeen
        ensures { result.now ≡ self.old.seen }
    {
        self.text = None;
        &mut self.seen
    }

    // The text that tells all of it.
    fn whole(&mut self, alloc: Global) -> Result<Vec<u8>, AllocError>
        ensures shown { IfOk result (λ text. IsShown [] self.old.seen text.items) }
        ensures seen { self.new.seen ≡ self.old.seen }
    {
        if let Some(text) = &self.text {
            let text = Vec::from_slice(alloc, text)?;
            return Ok(text);
        }
        let text = self.seen.text(alloc, "")?;
        self.text = Some(Vec::from_slice(alloc, &text)?);
        Ok(text)
    }

    // The text that tells what is seen of the keys that begin so.
    fn text(&mut self, alloc: Global, prefix: &str) -> Result<Vec<u8>, AllocError>
        ensures shown { IfOk result (λ text. IsShown prefix.now self.old.seen text.items) }
        ensures seen { self.new.seen ≡ self.old.seen }
    {
        if prefix.is_empty() {
            self.whole(alloc)
        } else {
            self.seen.text(alloc, prefix)
        }
    }
}

/// What the threads that serve connections share with the one that has the desk.
#[derive(Drop)]
pub struct SiteHall {
    pub shown: Mutex<ShownState>,
    pub counter: Counter,
    /// When it was looked at last, in milliseconds of the clock.
    pub looked: AtomicU64,
    /// Once it is set nobody is served any more.
    pub stop: AtomicBool,
    /// Once it is set no more threads begin: one didn't.
    pub is_short: AtomicBool,
}

/// A desk of a thread that serves connections: it shows what is seen, and hands lines in.
#[derive(Drop)]
pub struct AtCounter<'a, T> {
    rt: &'a T,
    hall: &'a SiteHall,
}

impl SiteHall {
    /// What is seen, before anybody looked.
    pub fn new(seen: StoreSeen) -> Self {
        SiteHall {
            shown: Mutex::new(ShownState { seen, text: None }),
            counter: Counter::new(),
            looked: AtomicU64::new(0),
            stop: AtomicBool::new(false),
            is_short: AtomicBool::new(false),
        }
    }
}

impl<'a, T> AtCounter<'a, T> {
    pub fn new(rt: &'a T, hall: &'a SiteHall) -> Self {
        AtCounter { rt, hall }
    }
}

// What is reported of a line that wasn't done.
fn not_done(alloc: Global, told: &str, status: u8) -> Result<Vec<u8>, AllocError>
    ensures { IfOk result (λ text. IsDone [] told.now status text.items) }
{
    let told = told.as_bytes();
    let printed = &[];
    done_text(
        alloc,
        &LineDone {
            printed,
            told,
            status,
        },
    )
}

// Whether it is one line, and none that is too long.
fn is_line(line: &str) -> bool
    ensures { IsTrue result ↔ IsLine line.now }
{
    line.len() <= MAX_LINE_BYTES && !line.as_bytes().contains(&b'\n')
}

impl<T: Wait + Clock> PageDesk for AtCounter<'_, T> {
    ghost use Rattle.bayou_web_serve.specs.Lines.{IsLine, TellsNoLine};
    ghost use Rattle.bayou_web_serve.specs.Shows.{ShowsSome};

    // What is seen, and what became of a line, others told under a lock: that it is the last, or of this line, no clause can say.
    ghost shows = { λ old prefix text new. (new ≡ old) × ShowsSome prefix text };

    ghost does = { λ old line text new. (new ≡ old) × (¬ (IsLine line) → TellsNoLine text) };

    fn show(&mut self, alloc: Global, prefix: &str) -> Result<Vec<u8>, AllocError> {
        self.hall
            .looked
            .store(milliseconds(self.rt), Ordering::SeqCst);
        let text = self.hall.shown.lock(self.rt).text(alloc, prefix)?;
        Ok(text)
    }

    fn act(&mut self, alloc: Global, line: &str) -> Result<Vec<u8>, AllocError> {
        if !is_line(line) {
            let text = not_done(alloc, NO_LINE, REFUSED)?;
            return Ok(text);
        }
        match self.hall.counter.ask(self.rt, line.to_string(alloc)?) {
            Ok(text) => Ok(text),
            Err(NotDone::Busy) => not_done(alloc, BUSY, FAILED),
            Err(NotDone::Closed) => not_done(alloc, CLOSED, FAILED),
        }
    }
}

/// What serves connections: each of its desks is a site, at the counter.
#[derive(Drop)]
pub struct SiteReception<'a, T> {
    rt: &'a T,
    keys: RandomState,
    habits: SiteHabits,
}

impl<'a, T> SiteReception<'a, T> {
    /// Serves with maps under these keys.
    pub fn new(rt: &'a T, keys: RandomState) -> Self {
        SiteReception {
            rt,
            keys,
            habits: SiteHabits::usual(),
        }
    }
}

impl<'a, C: Wait + Clock + Send + Sync> Host for SiteReception<'a, C> {
    type Desk = Site<AtCounter<'a, C>>;

    fn serve<T: Wait>(
        &self,
        _rt: &T,
        alloc: Global,
        desk: Site<AtCounter<'a, C>>,
        stream: TcpStream,
    ) -> Site<AtCounter<'a, C>> {
        let mut site = desk;
        serve_stream(alloc, self.keys, self.rt, self.habits, &mut site, stream);
        site
    }
}

impl<C: Wait + Clock + Send + Sync> Attendant for SiteReception<'_, C> {
    fn pause<T: Wait>(&self, _rt: &T) {
        thread::sleep(self.rt, Duration::from_millis(PAUSE_MILLISECONDS));
    }
}
