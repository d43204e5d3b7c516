//! Want of memory at the end of a session that asks without a book, and of a link that asks for nobody.
use crate::fixtures::{key, put, resting, server_id, session_id};
use bayou_base::{Asks, Prefix, Vector, Wid};
use bayou_client::{Asker, Heard, Link, LinkFault};
use bayou_fakes::words::bytes_of;
use bayou_session::{FIRST_RUN, Session};
use bayou_wire::{FateAsked, RowsAsked};
use std::alloc::Global;
use std::io;
use std::process::Abort;

type Over<'a> = Link<&'a [u8], io::Sink>;

fn over(reply: &[u8]) -> Over<'_> {
    Link::new(reply, io::sink())
}

/// What is replied to a read, to a Write, to who asks for rows, and to who asks what became of a Write.
#[derive(Drop)]
struct Replies {
    seen: Vec<u8>,
    accepted: Vec<u8>,
    listed: Vec<u8>,
    outcome: Vec<u8>,
}

fn made_replies(alloc: Global) -> Option<Replies> {
    Some(Replies {
        seen: bytes_of(alloc, "004a 11 01 0000000000000001 <one>")?,
        accepted: bytes_of(alloc, "004a 12 00 00000002 00000002 <one>")?,
        listed: bytes_of(alloc, "004f 35 <one> 00 0001 0161 01 0000000000000001")?,
        outcome: bytes_of(alloc, "0046 33 <one> 01 00000001")?,
    })
}

/// Whether it was served, and something is to be entered; or nothing where memory was refused, and then nothing is.
fn comes_to<A: Drop>(heard: Heard<A>) -> Option<bool> {
    match (heard.told, heard.entry) {
        (Ok(_), entry) => Some(entry.is_some()),
        (Err(LinkFault::OutOfMemory), None) => None,
        (Err(_), _) => Some(false),
    }
}

/// Whether the session's read of `a` comes to that.
fn reads(rt: &impl Abort, alloc: Global, asker: &mut Asker, link: &mut Over<'_>) -> Option<bool> {
    if asker.session().left() == 0 {
        return Some(false);
    }
    comes_to(asker.read(alloc, link, server_id(rt, 0), &key(rt)))
}

/// Whether the Write that it has begun comes to that.
fn sends(alloc: Global, asker: &mut Asker, link: &mut Over<'_>) -> Option<bool> {
    if asker.asked().is_none() {
        return Some(false);
    }
    comes_to(asker.send(alloc, link))
}

/// Whether a read is served at last: where memory was refused, over the same link where that is still open, else over another.
fn reads_at_last(rt: &impl Abort, alloc: Global, asker: &mut Asker, reply: &[u8]) -> bool {
    let mut link = over(reply);
    let answer = match reads(rt, alloc, asker, &mut link) {
        None if link.is_closed() => reads(rt, alloc, asker, &mut over(reply)),
        None => reads(rt, alloc, asker, &mut link),
        answer => answer,
    };
    answer == Some(true)
}

/// Whether a Write that is begun is accepted at last so: it is there still where memory was refused.
fn writes_at_last(rt: &impl Abort, alloc: Global, asker: &mut Asker, reply: &[u8]) -> bool {
    if asker.session().left() == 0 {
        return false;
    }
    asker.ask(server_id(rt, 0), resting(rt, alloc, &put(rt, 1)));
    let mut link = over(reply);
    let answer = match sends(alloc, asker, &mut link) {
        None if link.is_closed() => sends(alloc, asker, &mut over(reply)),
        None => sends(alloc, asker, &mut link),
        answer => answer,
    };
    answer == Some(true) && asker.asked().is_none()
}

/// Whether the session's list of all rows comes to that.
fn lists(rt: &impl Abort, alloc: Global, asker: &mut Asker, link: &mut Over<'_>) -> Option<bool> {
    if asker.session().left() == 0 {
        return Some(false);
    }
    let asked = RowsAsked {
        need: Vector::zero(),
        prefix: Prefix::new("").expect(rt, "no prefix"),
        after: None,
        most: 1,
    };
    comes_to(asker.list(alloc, link, server_id(rt, 0), &asked))
}

/// Whether rows come at last.
fn lists_at_last(rt: &impl Abort, alloc: Global, asker: &mut Asker, reply: &[u8]) -> bool {
    let mut link = over(reply);
    let answer = match lists(rt, alloc, asker, &mut link) {
        None if link.is_closed() => lists(rt, alloc, asker, &mut over(reply)),
        None => lists(rt, alloc, asker, &mut link),
        answer => answer,
    };
    answer == Some(true)
}

/// Whether it comes to that as the session asks what became of the first server's first Write.
fn asks_after(
    rt: &impl Abort,
    alloc: Global,
    asker: &mut Asker,
    link: &mut Over<'_>,
) -> Option<bool> {
    if asker.session().left() == 0 {
        return Some(false);
    }
    let asked = FateAsked {
        need: Vector::zero(),
        wid: Wid::new(server_id(rt, 0), 1).expect(rt, "no name"),
    };
    comes_to(asker.became(alloc, link, server_id(rt, 0), &asked))
}

/// Whether that is reported at last.
fn asks_after_at_last(rt: &impl Abort, alloc: Global, asker: &mut Asker, reply: &[u8]) -> bool {
    let mut link = over(reply);
    let answer = match asks_after(rt, alloc, asker, &mut link) {
        None if link.is_closed() => asks_after(rt, alloc, asker, &mut over(reply)),
        None => asks_after(rt, alloc, asker, &mut link),
        answer => answer,
    };
    answer == Some(true)
}

/// Whether the vector comes, of one Write; or nothing where memory was refused.
fn tells(alloc: Global, link: &mut Over<'_>) -> Option<bool> {
    match link.vector(alloc) {
        Ok(vector) => Some(vector.counts()[0] == 1),
        Err(LinkFault::OutOfMemory) => None,
        Err(_) => Some(false),
    }
}

fn tells_at_last(alloc: Global, reply: &[u8]) -> bool {
    let mut link = over(reply);
    let answer = match tells(alloc, &mut link) {
        None if link.is_closed() => tells(alloc, &mut over(reply)),
        None => tells(alloc, &mut link),
        answer => answer,
    };
    answer == Some(true)
}

/// Whether a session is served in all that it asks for, and then needs what it heard; and a link hears what it asks for.
fn goes(rt: &impl Abort, alloc: Global, replies: &Replies) -> bool {
    let asks = Asks {
        ryw: true,
        mr: true,
        wfr: true,
        mw: true,
    };
    let mut asker = Asker::asking_nothing(Session::new(session_id(rt, 0), FIRST_RUN, asks));
    reads_at_last(rt, alloc, &mut asker, &replies.seen)
        && lists_at_last(rt, alloc, &mut asker, &replies.listed)
        && asks_after_at_last(rt, alloc, &mut asker, &replies.outcome)
        && writes_at_last(rt, alloc, &mut asker, &replies.accepted)
        && asker.session().need_read().counts()[0] == 2
        && tells_at_last(alloc, &replies.seen)
}

/// For runs in which any one allocation is refused: a session loses nothing by it, and is served what it asks for once more.
#[test]
fn one_want_of_memory_costs_an_asker_nothing(rt: HostRuntime) {
    let alloc = rt.alloc();
    let replies = match made_replies(alloc) {
        Some(replies) => replies,
        None => made_replies(alloc).expect(&rt, "no replies"),
    };
    assert!(rt; goes(&rt, alloc, &replies));
}
