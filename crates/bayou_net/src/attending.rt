//! Desks at each of which one connection after another is served, for as long as a server lives.
ghost use Rattle.std.specs.Prelude.{◌≡◌, ◌+◌, ◌≤◌, ℕ, IfOk, MatchResult, vec_capacity, vec_len};

use crate::host::Host;
use crate::listening::join_all;
use bayou_base::limits::DESK_STACK_BYTES;
use core::thread::{Anything, Stack};
use std::alloc::Global;
use std::net::{Shutdown, TcpListener, TcpStream};
use std::os::fd::OwnedFd;
use std::sync::Wait;
use std::sync::atomic::{AtomicBool, Ordering};
use std::thread;
use std::thread::{JoinHandle, Scope, Threads};

/// A host that connections come to as long as it lives.
pub trait Attendant: Host {
    /// No connection can be taken now. It returns after a while.
    fn pause<T: Wait>(&self, rt: &T);
}

/// What attends at a socket, and what ends it.
#[derive(Drop)]
pub struct Door<'s, H> {
    pub host: &'s H,
    pub listener: &'s TcpListener,
    /// Once it is set nobody is served any more.
    pub stop: &'s AtomicBool,
    /// Once it is set no more threads begin: one didn't.
    pub is_short: &'s AtomicBool,
}

/// The desks of a pool: those at which threads serve, and those that found none.
#[derive(Drop)]
struct Posts<S: Drop> {
    workers: Vec<JoinHandle<S>>,
    left: Vec<S>,
    total: usize,
    ghost all: { vec_len workers + vec_len left ≤ total },
    ghost room: { (total ≤ vec_capacity workers) × (total ≤ vec_capacity left) },
}

// Serves one connection after another at this desk, until the flag is set.
fn attend_at<H: Attendant, T: Wait>(
    rt: &T,
    alloc: Global,
    door: &Door<'_, H>,
    desk: H::Desk,
) -> H::Desk {
    let mut desk = desk;
    for _ in rt.forever() {
        if door.stop.load(Ordering::SeqCst) {
            break;
        }
        let came = door.listener.accept();
        if door.stop.load(Ordering::SeqCst) {
            break;
        }
        match came {
            Ok((stream, _)) => desk = door.host.serve(rt, alloc, desk, stream),
            Err(_) => door.host.pause(rt),
        }
    }
    desk
}

// Has a thread of its own serve at the desk, which comes back where none starts.
fn begin_at<'s, E, H: Attendant + Sync, T: Wait + Send + Sync>(
    scope: &'s Scope<'s, E>,
    rt: &'s T,
    alloc: Global,
    door: &'s Door<'s, H>,
    desk: H::Desk,
) -> Result<JoinHandle<H::Desk>, H::Desk> {
    let stack = Stack::new().stack_size(DESK_STACK_BYTES);
    let spawned = stack.spawn_scoped_with(scope, Anything, move || {
        if door.is_short.load(Ordering::SeqCst) {
            return desk;
        }
        attend_at(rt, alloc, door, desk)
    });
    match spawned {
        Ok(worker) => Ok(worker.forget_promise()),
        Err(refused) => {
            // The desk is handed back by what the thread was to do, which then does nothing else.
            door.is_short.store(true, Ordering::SeqCst);
            Err((refused.value)())
        }
    }
}

// Begins at each desk.
fn begin_all<'s, E, H: Attendant + Sync, T: Wait + Send + Sync>(
    scope: &'s Scope<'s, E>,
    rt: &'s T,
    alloc: Global,
    door: &'s Door<'s, H>,
    desks: Vec<H::Desk>,
    posts: &mut Posts<H::Desk>,
)
    requires none { (vec_len posts.old.workers ≡ 0) × (vec_len posts.old.left ≡ 0) }
    requires all { vec_len desks ≡ posts.old.total }
    ensures all { vec_len posts.new.workers + vec_len posts.new.left ≡ vec_len desks }
    ensures total { posts.new.total ≡ posts.old.total }
{
    for desk in desks {
        match begin_at(scope, rt, alloc, door, desk) {
            Ok(worker) => posts.workers.push_reserved(worker),
            Err(desk) => posts.left.push_reserved(desk),
        }
    }
}

/// Has each desk serve one connection after another, in a thread of its own, until the flag of the door is set and each connection ended.
/// Meanwhile the closure runs, with the number of desks for which no thread began; it ends when the flag is to be set. All desks come back, with
/// what the closure returned. For want of memory nobody is served, and the closure isn't run. That a connection is taken, and that a thread serves
/// it, no clause can say.
pub fn attend<H, T, X, F>(
    rt: &T,
    alloc: Global,
    door: &Door<'_, H>,
    desks: Vec<H::Desk>,
    meanwhile: F,
) -> Result<(Vec<H::Desk>, X), Vec<H::Desk>>
where
    H: Attendant + Sync,
    T: Threads + Wait + Send + Sync,
    X: Drop,
    F: FnOnce(usize) -> X + Drop,
    requires { F.IsAlwaysCallable meanwhile }
    ensures desks { MatchResult result (λ ended. vec_len ended.0 ≡ vec_len desks) (λ left. left ≡ desks) }
    ensures called { IfOk result (λ ended. (unserved : ℕ) × (unserved ≤ vec_len desks) × F.post meanwhile unserved ended.1) }
{
    let total = desks.len();
    let (Ok(workers), Ok(left)) = (
        Vec::with_capacity(alloc, total),
        Vec::with_capacity(alloc, total),
    ) else {
        return Err(desks);
    };
    let posts = Posts {
        workers,
        left,
        total,
    };
    let (posts, told) = thread::scope(
        thread::scope_env(),
        rt,
        move |scope| -> (Posts<H::Desk>, X)
            requires { F.IsAlwaysCallable meanwhile × (vec_len posts.workers ≡ 0) × (vec_len posts.left ≡ 0) × (posts.total ≡ vec_len desks) }
            ensures all { vec_len result.0.workers + vec_len result.0.left ≡ vec_len desks }
            ensures total { result.0.total ≡ vec_len desks }
            ensures called { F.post meanwhile (vec_len result.0.left) result.1 }
        {
            let mut posts = posts;
            begin_all(scope, rt, alloc, door, desks, &mut posts);
            let told = meanwhile(posts.left.len());
            (posts, told)
        },
    );
    let Posts { workers, left, .. } = posts;
    let mut back = left;
    join_all(rt, workers, &mut back);
    Ok((back, told))
}

/// Ends each wait for a connection at the socket of which this is a copy, now and from now on: whether it could be done.
pub fn shut(copy: TcpListener) -> bool {
    TcpStream::from(OwnedFd::from(copy))
        .shutdown(Shutdown::Both)
        .is_ok()
}
