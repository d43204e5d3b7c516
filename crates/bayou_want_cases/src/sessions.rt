//! Want of memory at a session's end of a link.
ghost use Rattle.std.specs.Prelude.{◌≡◌};
ghost use Rattle.bayou_audit.specs.Blanks.{AreBlanksOf, named};

use crate::fixtures::{key, put, resting, server_id, vector};
use bayou_audit::{AuditBook, Blanks, Four, Ledgers, Share, Totals};
use bayou_base::{Asks, Seen};
use bayou_client::{Client, ClientFault, Link, LinkFault};
use bayou_fakes::books::blanks;
use bayou_fakes::words::bytes_of;
use bayou_session::{FIRST_RUN, Session};
use std::alloc::Global;
use std::io;
use std::marker::Brand;
use std::process::Abort;
use std::sync::Wait;
use std::sync::ledger::Ledger;

type Over<'a> = Link<&'a [u8], io::Sink>;

fn over(reply: &[u8]) -> Over<'_> {
    Link::new(reply, io::sink())
}

/// What is replied to a session that needs the first server's first Write, as it reads, writes, has a journal opened again, and asks for all
/// Writes held.
#[derive(Drop)]
struct Replies {
    seen: Vec<u8>,
    accepted: Vec<u8>,
    reopened: Vec<u8>,
    dumped: Vec<u8>,
}

fn made_replies(alloc: Global) -> Option<Replies> {
    Some(Replies {
        seen: bytes_of(alloc, "004a 11 01 0000000000000001 <one>")?,
        accepted: bytes_of(alloc, "004a 12 00 00000002 00000002 <one>")?,
        reopened: bytes_of(alloc, "0007 14 01 00 00000001")?,
        dumped: bytes_of(
            alloc,
            "005a 15 00 00000001 00000001 <none> <put-1> 0005 16 00000001",
        )?,
    })
}

/// Why the session's read of `a`, or its Write of 1 there, isn't served.
fn fault_of<K: Ledgers, R: Wait + Abort>(
    rt: &R,
    alloc: Global,
    book: &AuditBook<K>,
    client: &mut Client<K>,
    link: &mut Over<'_>,
    is_read: bool,
) -> Option<ClientFault> {
    if client.left() == 0 {
        return Some(ClientFault::AuditFull);
    }
    if is_read {
        client
            .read(rt, alloc, book, link, server_id(rt, 0), &key(rt))
            .err()
    } else {
        let program = resting(rt, alloc, &put(rt, 1));
        client
            .write(rt, alloc, book, link, server_id(rt, 0), program)
            .err()
    }
}

/// Whether that is served, and one read or Write more is in the book; or nothing where memory was refused, and then the book is as it was.
fn asks<K: Ledgers, R: Wait + Abort>(
    rt: &R,
    alloc: Global,
    book: &AuditBook<K>,
    client: &mut Client<K>,
    link: &mut Over<'_>,
    is_read: bool,
) -> Option<bool> {
    let before = book.totals(rt);
    let fault = fault_of(rt, alloc, book, client, link, is_read);
    let now = book.totals(rt);
    let is_counted = if is_read {
        now.reads == before.reads.saturating_add(1)
    } else {
        now.writes == before.writes.saturating_add(1)
    };
    comes_to(fault, now == before, is_counted)
}

/// What an operation comes to: whether it was counted; or nothing where memory was refused, and the book is as it was before.
fn comes_to(fault: Option<ClientFault>, is_as_before: bool, is_counted: bool) -> Option<bool> {
    match fault {
        None => Some(is_counted),
        Some(ClientFault::Link(LinkFault::OutOfMemory)) if is_as_before => None,
        Some(_) => Some(false),
    }
}

/// Whether the read or the Write is served: where memory was refused, over the same link where that is still open, which had sent nothing then,
/// else over another.
fn asks_at_last<K: Ledgers, R: Wait + Abort>(
    rt: &R,
    alloc: Global,
    book: &AuditBook<K>,
    client: &mut Client<K>,
    reply: &[u8],
    is_read: bool,
) -> bool {
    let mut link = over(reply);
    let answer = match asks(rt, alloc, book, client, &mut link, is_read) {
        None if link.is_closed() => { asks(rt, alloc, book, client, &mut over(reply), is_read) }
        None => asks(rt, alloc, book, client, &mut link, is_read),
        answer => answer,
    };
    answer == Some(true)
}

/// Whether the server tells that it adopted its first Write; or nothing where memory was refused.
fn reopens(alloc: Global, link: &mut Over<'_>) -> Option<bool> {
    match link.reopen(alloc) {
        Ok(adopted) => Some(adopted.is_some()),
        Err(LinkFault::OutOfMemory) => None,
        Err(_) => Some(false),
    }
}

fn reopens_at_last(alloc: Global, reply: &[u8]) -> bool {
    let mut link = over(reply);
    let answer = match reopens(alloc, &mut link) {
        None if link.is_closed() => reopens(alloc, &mut over(reply)),
        None => reopens(alloc, &mut link),
        answer => answer,
    };
    answer == Some(true)
}

/// Whether one Write is reported; or nothing where memory was refused.
fn dumps(alloc: Global, link: &mut Over<'_>) -> Option<bool> {
    match link.dump(alloc) {
        Ok(writes) => Some(writes.len() == 1),
        Err(LinkFault::OutOfMemory) => None,
        Err(_) => Some(false),
    }
}

fn dumps_at_last(alloc: Global, reply: &[u8]) -> bool {
    let mut link = over(reply);
    let answer = match dumps(alloc, &mut link) {
        None if link.is_closed() => dumps(alloc, &mut over(reply)),
        None => dumps(alloc, &mut link),
        answer => answer,
    };
    answer == Some(true)
}

/// A session with the last of these shares that asks for everything and has read from the first server's first Write.
fn reader<K: Ledgers>(rt: &impl Abort, shares: Vec<Share<K>>) -> Client<K> {
    let mut shares = shares;
    let share = shares.pop().expect(rt, "no share");
    let asks = Asks {
        ryw: true,
        mr: true,
        wfr: true,
        mw: true,
    };
    let mut session = Session::new(share.session(), FIRST_RUN, asks);
    session.saw(&Seen {
        value: None,
        vector: vector(rt, 1, 0),
    });
    Client::new(session, share)
}

/// Whether a session with the last of these shares is served in all that it asks for, and then needs what it heard.
fn goes<K: Ledgers, R: Wait + Abort>(
    rt: &R,
    alloc: Global,
    book: &AuditBook<K>,
    shares: Vec<Share<K>>,
    replies: &Replies,
) -> bool {
    let mut client = reader(rt, shares);
    let is_served = is_served(rt, alloc, book, &mut client, replies);
    let (now, _) = client.parts();
    is_served && needs_two(&now) && counts_one(&book.totals(rt))
}

/// Whether all that it asks for is answered.
fn is_served<K: Ledgers, R: Wait + Abort>(
    rt: &R,
    alloc: Global,
    book: &AuditBook<K>,
    client: &mut Client<K>,
    replies: &Replies,
) -> bool {
    let is_read = asks_at_last(rt, alloc, book, client, &replies.seen, true);
    let is_written = asks_at_last(rt, alloc, book, client, &replies.accepted, false);
    let is_reopened = reopens_at_last(alloc, &replies.reopened);
    let is_dumped = dumps_at_last(alloc, &replies.dumped);
    is_read && is_written && is_reopened && is_dumped
}

/// Whether it needs the first server's first two Writes.
fn needs_two(session: &Session) -> bool {
    session.need_read().counts()[0] == 2 && session.need_write().counts()[0] == 2
}

/// Whether a read and a Write are counted, and no slip is out.
fn counts_one(totals: &Totals) -> bool {
    totals.reads == 1 && totals.writes == 1 && totals.slips == 0
}

/// The same at a new book; or nothing where there is no memory for one.
fn goes_of<S, T, U, V, R>(rt: &R, alloc: Global, blanks: Blanks, replies: &Replies) -> Option<bool>
where
    S: Ledger + Send + Sync,
    T: Ledger + Send + Sync,
    U: Ledger + Send + Sync,
    V: Ledger + Send + Sync,
    R: Wait + Abort,
    requires blanks { AreBlanksOf blanks (named S.name S.parts) (named T.name T.parts) (named U.name U.parts) (named V.name V.parts) 1 }
{
    match AuditBook::<Four<S, T, U, V>>::new(alloc, blanks, 1, 4) {
        Ok((book, shares)) => Some(goes(rt, alloc, &book, shares, replies)),
        Err(_) => None,
    }
}

/// At a new book, with new blanks.
fn goes_anew<R: Wait + Abort>(rt: &R, alloc: Global, replies: &Replies) -> Option<bool> {
    goes_of::<Brand, Brand, Brand, Brand, R>(rt, alloc, blanks(1), replies)
}

/// For runs in which any one allocation is refused: a session loses nothing by it, and is served what it asks for once more.
#[test]
fn one_want_of_memory_costs_a_session_nothing(rt: HostRuntime) {
    let alloc = rt.alloc();
    let told = match made_replies(alloc) {
        Some(told) => told,
        None => made_replies(alloc).expect(&rt, "no replies"),
    };
    let is_so = match goes_anew(&rt, alloc, &told) {
        Some(is_so) => is_so,
        None => goes_anew(&rt, alloc, &told) == Some(true),
    };
    assert!(rt; is_so);
}
