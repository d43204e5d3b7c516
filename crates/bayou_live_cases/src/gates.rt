//! Gates that hold requests, or what is added to a journal, until they are opened.
use bayou_device::Gate;
use bayou_net::RequestGate;
use std::sync::atomic::{AtomicU64, Ordering};
use std::thread;
use std::time::{Clock, Duration};

/// The first request is to be held, and hasn't come.
pub const AWAITED: u64 = 0;

/// It is held; or whatever comes is to be.
pub const HELD: u64 = 1;

/// Nothing is held, nor will be.
pub const OPEN: u64 = 2;

/// Somebody waited too long.
const GIVEN_UP: u64 = 3;

/// How often one who waits sleeps for a millisecond.
const SLEEPS: u32 = 10_000;

/// Sleeps as long as the gate is so, or gives up.
pub fn wait_while<C: Clock>(clock: &C, state: &AtomicU64, is: u64) {
    for _ in 0..SLEEPS {
        if state.load(Ordering::SeqCst) != is {
            return;
        }
        thread::sleep(clock, Duration::from_millis(1));
    }
    state.store(GIVEN_UP, Ordering::SeqCst);
}

/// Opens the gate. Whether it held what came till then.
pub fn open(state: &AtomicU64) -> bool {
    state
        .compare_exchange(HELD, OPEN, Ordering::SeqCst, Ordering::SeqCst)
        .is_ok()
}

/// A gate that holds the first request that comes until it is opened, and no other.
#[derive(Drop)]
pub struct FirstGate<'a, C> {
    pub clock: &'a C,
    pub state: &'a AtomicU64,
}

impl<C: Clock> RequestGate for FirstGate<'_, C> {
    fn pass(&self) {
        let came = self
            .state
            .compare_exchange(AWAITED, HELD, Ordering::SeqCst, Ordering::SeqCst);
        if came.is_ok() {
            wait_while(self.clock, self.state, HELD);
        }
    }
}

/// A gate that holds all that comes until it is opened.
#[derive(Drop)]
pub struct ShutGate<'a, C> {
    pub clock: &'a C,
    pub state: &'a AtomicU64,
}

impl<C: Clock> RequestGate for ShutGate<'_, C> {
    fn pass(&self) {
        wait_while(self.clock, self.state, HELD);
    }
}

impl<C: Clock> Gate for ShutGate<'_, C> {
    fn pass(&self, _held: usize) {
        wait_while(self.clock, self.state, HELD);
    }
}
