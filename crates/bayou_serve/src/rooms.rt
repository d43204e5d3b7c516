//! Where connections are served, so many at once, and which one goes where others wait.
ghost use Rattle.std.specs.Prelude.{◌≡◌, ◌≢◌, ◌+◌, ◌≤◌, ◌⊎◌, ◌↔◌, Contains, IfOk, IfSome, false, true, vec_len};
ghost use Rattle.bayou_base.specs.declared.limits.TheConstants.{CROWDED_MILLISECONDS};

use crate::hall::ServiceHall;
use crate::waiting::{Since, is_over, milliseconds};
use bayou_base::limits::{CROWDED_MILLISECONDS, MAX_WAITS, WAITING_CONNECTIONS};
use std::alloc::{AllocError, Global};
use std::sync::atomic::{AtomicU64, Ordering};
use std::thread;
use std::time::{Clock, Duration};

const FREE: u64 = 0;

const TAKEN: u64 = 1;
/// Whoever is there is to go, once no request of its own is under way.
const CALLED: u64 = 2;

/// How many milliseconds pass between two looks for a free place.
const LOOK_MILLISECONDS: u64 = 10;

// Whether the connection at a place in this state is to go now, where something came then of a request that isn't replied to, or nothing did (0): one of
// which half a request came has a second for the rest.
fn is_to_go(state: u64, now: u64, asked: u64) -> bool
    ensures { result ≡ true ↔ ((state ≡ CALLED) × ((asked ≡ 0) ⊎ (asked + CROWDED_MILLISECONDS ≤ now))) }
{
    state == CALLED && (asked == 0 || is_over(now, asked, CROWDED_MILLISECONDS))
}

/// One place of a room, for one connection at a time.
#[derive(Drop)]
pub struct RoomPlace {
    state: AtomicU64,
    /// Since when the connection there asks nothing, and what it is sent doesn't get on.
    pub since: Since,
    /// When something came of a request that isn't replied to yet; 0 where nothing did.
    asked: AtomicU64,
}

impl RoomPlace {
    fn new() -> Self {
        RoomPlace {
            state: AtomicU64::new(FREE),
            since: Since::never(),
            asked: AtomicU64::new(0),
        }
    }

    // Takes it, if it is free.
    fn take(&self, now: u64) -> bool {
        let is_taken = self
            .state
            .compare_exchange(FREE, TAKEN, Ordering::SeqCst, Ordering::SeqCst)
            .is_ok();
        if is_taken {
            self.asked.store(0, Ordering::SeqCst);
            self.since.begin(now);
        }
        is_taken
    }

    // Calls out whoever is there: whether nobody did before.
    fn call(&self) -> bool {
        self.state
            .compare_exchange(TAKEN, CALLED, Ordering::SeqCst, Ordering::SeqCst)
            .is_ok()
    }

    /// It is free from now on.
    pub(crate) fn leave(&self) {
        self.since.end();
        self.state.store(FREE, Ordering::SeqCst);
    }

    /// Whether the connection there is to go now: one of which half a request came has a second for the rest.
    pub(crate) fn is_called(&self, now: u64) -> bool {
        let asked = self.asked.load(Ordering::SeqCst);
        is_to_go(self.state.load(Ordering::SeqCst), now, asked)
    }

    /// Something came from the connection there.
    pub(crate) fn came(&self, now: u64) {
        let _ = self
            .asked
            .compare_exchange(0, now.max(1), Ordering::SeqCst, Ordering::SeqCst);
    }

    /// All that was to be sent to it was sent.
    pub(crate) fn replied(&self, now: u64) {
        self.asked.store(0, Ordering::SeqCst);
        self.since.begin(now);
    }
}

/// Places, so many, and how many connections wait for one.
#[derive(Drop)]
pub struct Room {
    places: Vec<RoomPlace>,
    waiting: AtomicU64,
}

impl Room {
    /// A room with so many places, none of them taken.
    pub fn new(alloc: Global, places: u32) -> Result<Self, AllocError>
        ensures { IfOk result (λ room. vec_len room.places ≡ places) }
    {
        let mut all = Vec::new(alloc);
        for _ in 0..places {
            all.push(RoomPlace::new())?;
        }
        Ok(Room {
            places: all,
            waiting: AtomicU64::new(0),
        })
    }

    /// Whether it has no place at all.
    pub fn is_closed(&self) -> bool
        ensures { result ≡ true ↔ vec_len self.now.places ≡ 0 }
    {
        self.places.is_empty()
    }

    // A free place, which is taken then. Which one is free no clause can say.
    fn take(&self, now: u64) -> Option<&RoomPlace>
        ensures { IfSome result (λ place. Contains self.now.places.items place.now) }
    {
        for place in self.places.iter() {
            if place.take(now) {
                return Some(place);
            }
        }
        None
    }

    // Calls out the connection that asks nothing the longest, if it did so for so long: whether one was called.
    fn call_longest(&self, now: u64, least: u64) -> bool {
        let mut longest: Option<&RoomPlace> = None;
        let mut since = now.saturating_sub(least).saturating_add(1);
        for place in self.places.iter() {
            let its = place.since.began();
            if its < since && place.state.load(Ordering::SeqCst) == TAKEN {
                since = its;
                longest = Some(place);
            }
        }
        match longest {
            Some(place) => place.call(),
            None => false,
        }
    }

    // Waits for a place, until the server ends. Whoever asks nothing for a second is called out for it at once, and after each second of waiting
    // whoever asks nothing the longest.
    fn wait<C: Clock>(&self, clock: &C, hall: &ServiceHall) -> Option<&RoomPlace>
        ensures { IfSome result (λ place. Contains self.now.places.items place.now) }
    {
        let mut since = milliseconds(clock);
        let mut has_called = false;
        for _ in 0..MAX_WAITS {
            let now = milliseconds(clock);
            if hall.is_over() {
                return None;
            }
            if let Some(place) = self.take(now) {
                return Some(place);
            }
            if is_over(now, since, CROWDED_MILLISECONDS) {
                since = now;
                has_called = self.call_longest(now, 0);
            } else if !has_called {
                has_called = self.call_longest(now, CROWDED_MILLISECONDS);
            }
            thread::sleep(clock, Duration::from_millis(LOOK_MILLISECONDS));
        }
        None
    }

    /// Whether a connection that comes now has to wait.
    pub fn is_full(&self) -> bool {
        self.waiting.load(Ordering::SeqCst) > 0
            || self
                .places
                .iter()
                .all(|place| place.state.load(Ordering::SeqCst) != FREE)
    }

    /// A place for one connection, which may have to wait for it; none where too many wait, or the server ends.
    pub fn enter<C: Clock>(&self, clock: &C, hall: &ServiceHall) -> Option<&RoomPlace>
        ensures { IfSome result (λ place. Contains self.now.places.items place.now) }
    {
        if self.waiting.load(Ordering::SeqCst) == 0
            && let Some(place) = self.take(milliseconds(clock))
        {
            return Some(place);
        }
        let before = self.waiting.fetch_add(1, Ordering::SeqCst);
        let place = if before < u64::from(WAITING_CONNECTIONS) {
            self.wait(clock, hall)
        } else {
            None
        };
        self.waiting.fetch_sub(1, Ordering::SeqCst);
        place
    }
}

/// The rooms of a server: one for its clients, and one for its peers.
#[derive(Drop)]
pub struct Rooms {
    pub clients: Room,
    pub peers: Room,
}

impl Rooms {
    /// The room of a connection that asks for an Offer first, or for something else.
    pub fn room_of(&self, is_peer: bool) -> &Room
        ensures peer { is_peer ≡ true → vec_len self.now.peers.places ≢ 0 → result.now ≡ self.now.peers }
        ensures client { (is_peer ≡ false) ⊎ (vec_len self.now.peers.places ≡ 0) → result.now ≡ self.now.clients }
    {
        if is_peer && !self.peers.is_closed() {
            return &self.peers;
        }
        &self.clients
    }
}
