//! What one session does at a listener.
use crate::fixtures::{key, resting_put, server_id};
use crate::gates::{AWAITED, open, wait_while};
use bayou_audit::{AuditBook, Ledgers, Share};
use bayou_base::{Asks, Refusal, Seen, Wid};
use bayou_client::{Client, Link, LinkFault};
use bayou_session::{FIRST_RUN, Session};
use std::alloc::Global;
use std::net::TcpStream;
use std::process::Abort;
use std::sync::Wait;
use std::sync::atomic::AtomicU64;
use std::time::Clock;

/// How often each session writes and reads.
pub const ROUNDS: u32 = 50;

/// The name of the Write by which the session puts the number at `a`, unless a reply came that wasn't one that may come.
fn writes<K: Ledgers, R: Wait + Abort>(
    rt: &R,
    alloc: Global,
    book: &AuditBook<K>,
    client: &mut Client<K>,
    link: &mut Link<&TcpStream, &TcpStream>,
    number: u32,
) -> Option<Wid> {
    if client.left() == 0 {
        return None;
    }
    match client.write(
        rt,
        alloc,
        book,
        link,
        server_id(rt),
        resting_put(rt, alloc, i64::from(number)),
    ) {
        Ok(accepted) => Some(accepted.wid),
        Err(_) => None,
    }
}

/// The same of what it reads there.
fn reads<K: Ledgers, R: Wait + Abort>(
    rt: &R,
    alloc: Global,
    book: &AuditBook<K>,
    client: &mut Client<K>,
    link: &mut Link<&TcpStream, &TcpStream>,
) -> Option<Seen> {
    if client.left() == 0 {
        return None;
    }
    client
        .read(rt, alloc, book, link, server_id(rt), &key(rt))
        .ok()
}

/// The session writes a number to `a` and reads it, or a later one. False where a reply wasn't one that may come.
fn writes_and_reads<K: Ledgers, R: Wait + Abort>(
    rt: &R,
    alloc: Global,
    book: &AuditBook<K>,
    client: &mut Client<K>,
    link: &mut Link<&TcpStream, &TcpStream>,
    number: u32,
) -> bool {
    match writes(rt, alloc, book, client, link, number) {
        Some(wid) => match reads(rt, alloc, book, client, link) {
            Some(seen) => seen.vector.covers(wid),
            None => false,
        },
        None => false,
    }
}

/// Whether the server sends what it holds, which are so many Writes at least, and isn't down.
fn dumps(alloc: Global, link: &mut Link<&TcpStream, &TcpStream>, least: usize) -> bool {
    let are_sent = match link.dump(alloc) {
        Ok(writes) => writes.len() >= least,
        Err(_) => false,
    };
    are_sent && link.reopen(alloc) == Err(LinkFault::Refused(Refusal::NotDown))
}

/// Whether the session is served in each round, over one connection.
fn is_served<K: Ledgers, R: Wait + Abort>(
    rt: &R,
    alloc: Global,
    book: &AuditBook<K>,
    client: &mut Client<K>,
    link: &mut Link<&TcpStream, &TcpStream>,
) -> bool {
    for number in 0..ROUNDS {
        if !writes_and_reads(rt, alloc, book, client, link, number) {
            return false;
        }
    }
    dumps(alloc, link, ROUNDS as usize)
}

/// The same of a session that asks for everything, with this share.
pub fn visits<K: Ledgers, R: Wait + Abort>(
    rt: &R,
    alloc: Global,
    book: &AuditBook<K>,
    share: Share<K>,
    stream: &TcpStream,
) -> bool {
    let asks = Asks {
        ryw: true,
        mr: true,
        wfr: true,
        mw: true,
    };
    let mut client = Client::new(Session::new(share.session(), FIRST_RUN, asks), share);
    let _ = stream.set_nodelay(true);
    let mut link = Link::new(stream, stream);
    is_served(rt, alloc, book, &mut client, &mut link)
}

/// The same, once no request is awaited at the gate any more; then the gate is opened.
pub fn visits_and_opens<K: Ledgers, R: Wait + Abort + Clock>(
    rt: &R,
    alloc: Global,
    book: &AuditBook<K>,
    share: Share<K>,
    stream: &TcpStream,
    state: &AtomicU64,
) -> bool {
    wait_while(rt, state, AWAITED);
    let is_served = visits(rt, alloc, book, share, stream);
    let _ = open(state);
    is_served
}
