//! What all threads of a server that lives share.
ghost use Rattle.std.specs.Prelude.{◌≡◌, ◌*◌, ℕ, min, nat_le, if◌then◌else◌};
ghost use Rattle.bayou_base.specs.declared.limits.TheConstants.{CROWDED_MILLISECONDS};

use crate::notice::NoticeTime;
use bayou_base::limits::CROWDED_MILLISECONDS;
use bayou_net::Leave;
use std::sync::atomic::{AtomicBool, AtomicU64, Ordering};
use std::sync::{OnceLock, OnceToken, Wait};

const MILLISECONDS: u64 = 1_000;

/// Whether the server ends, whether it may take Writes, and how many of its desks are taken.
#[derive(Drop)]
pub struct ServiceHall {
    pub stop: AtomicBool,
    /// Whether a thread didn't start.
    pub is_short: AtomicBool,
    /// Set once the peers were asked whether the server lost Writes of its own.
    pub opened: OnceLock<()>,
    /// Set once the server is known to have lost Writes of its own.
    pub lost: OnceLock<()>,
    /// Set once its journal's file is known to be no more what it wrote.
    pub strayed: OnceLock<()>,
    /// When a line last said that a connection can't be taken.
    pub untaken: NoticeTime,
    /// When a line last said that connections wait.
    pub full: NoticeTime,
    busy: AtomicU64,
    desks: u64,
    idle_milliseconds: u64,
}

/// How long a connection may say nothing, where so many of the desks are taken.
pub fn patience_for(busy: u64, desks: u64, idle_milliseconds: u64) -> u64
    ensures { result ≡ (if nat_le desks busy then min idle_milliseconds CROWDED_MILLISECONDS else idle_milliseconds) }
{
    if busy >= desks {
        return idle_milliseconds.min(CROWDED_MILLISECONDS);
    }
    idle_milliseconds
}

impl ServiceHall {
    /// A hall with so many desks, none of them taken, where a connection may say nothing so long.
    pub fn new(desks: u32, idle_seconds: u32) -> Self
        ensures { (result.desks ≡ desks) × (result.idle_milliseconds ≡ idle_seconds * MILLISECONDS) }
    {
        ServiceHall {
            stop: AtomicBool::new(false),
            is_short: AtomicBool::new(false),
            opened: OnceLock::new(),
            lost: OnceLock::new(),
            strayed: OnceLock::new(),
            untaken: NoticeTime::new(),
            full: NoticeTime::new(),
            busy: AtomicU64::new(0),
            desks: u64::from(desks),
            idle_milliseconds: u64::from(idle_seconds) * MILLISECONDS,
        }
    }

    /// Whether the server ends. What the flag says no clause can.
    pub fn is_over(&self) -> bool {
        self.stop.load(Ordering::SeqCst)
    }

    /// The server ends.
    pub fn end(&self) {
        self.stop.store(true, Ordering::SeqCst);
    }

    /// Writes may be made from now on. What comes back shows that this is known.
    pub fn open<T: Wait>(&self, rt: &T) -> OnceToken<'_, ()>
        ensures { result.of ≡ self.now.opened.id }
    {
        self.opened.init(rt, || ())
    }

    /// Whether it was opened. What other threads know no clause can say.
    pub fn is_opened(&self) -> bool {
        self.opened.get().is_some()
    }

    /// Its journal's file is no more what it wrote: no desk takes a Write any more. What comes back shows that this is known.
    pub fn stray<T: Wait>(&self, rt: &T) -> OnceToken<'_, ()>
        ensures { result.of ≡ self.now.strayed.id }
    {
        self.strayed.init(rt, || ())
    }

    /// Whether its journal's file is known to be no more what it wrote.
    pub fn has_strayed(&self) -> bool {
        self.strayed.get().is_some()
    }

    /// Whether the server is known to have lost Writes of its own. What other threads know no clause can say.
    pub fn has_lost(&self) -> bool {
        self.lost.get().is_some()
    }

    /// The server lost Writes of its own: no desk takes a Write any more. What comes back shows that this is known.
    pub fn lose<T: Wait>(&self, rt: &T) -> OnceToken<'_, ()>
        ensures { result.of ≡ self.now.lost.id }
    {
        self.lost.init(rt, || ())
    }

    /// How long a connection that has a place may ask nothing.
    pub fn idle_milliseconds(&self) -> u64
        ensures { result ≡ self.now.idle_milliseconds }
    {
        self.idle_milliseconds
    }

    /// A desk is taken.
    pub(crate) fn enter(&self) {
        self.busy.fetch_add(1, Ordering::SeqCst);
    }

    /// A desk is free again.
    pub(crate) fn leave(&self) {
        self.busy.fetch_sub(1, Ordering::SeqCst);
    }

    /// How long a connection may say nothing now, for so many desks as are taken; how many that are no clause can say.
    pub fn patience(&self) -> u64
        ensures { (busy : ℕ) × (result ≡ (if nat_le self.now.desks busy then min self.now.idle_milliseconds CROWDED_MILLISECONDS else self.now.idle_milliseconds)) }
    {
        patience_for(
            self.busy.load(Ordering::SeqCst),
            self.desks,
            self.idle_milliseconds,
        )
    }
}

impl Leave for ServiceHall {
    fn is_open(&self) -> bool {
        self.is_opened() && self.may_reopen()
    }

    fn may_reopen(&self) -> bool {
        !self.has_lost() && !self.has_strayed()
    }
}
