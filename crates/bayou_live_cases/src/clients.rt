//! A session that reads and writes over a link, whatever is replied to it.
ghost use Rattle.std.specs.Prelude.{◌≡◌};
ghost use Rattle.bayou_audit.specs.Blanks.{AreBlanksOf, named};

use crate::fakes::{Counting, Slow, slow_reader, slow_writer};
use crate::fixtures::{bytes, key, must_be_so, must_hold, resting_put, server_id};
use bayou_audit::{AuditBook, Blanks, Four, Ledgers, Share, Totals};
use bayou_base::{Asks, Entry, SERVERS, Seen, SessionId, Vector};
use bayou_client::{Client, ClientFault, Link, LinkFault};
use bayou_fakes::books::blanks;
use bayou_session::{FIRST_RUN, Session};
use std::alloc::Global;
use std::marker::Brand;
use std::process::Abort;
use std::sync::Wait;
use std::sync::ledger::Ledger;

/// What a session that needs the first server's first Write sends and is replied, as it reads `a` or puts 1 there at the first server, how
/// that ends, and what the book then counts: reads, Writes and refusals.
const REPLIES: &str = "read 0042 11 00 <one> => served 1 0 0
read 0042 11 00 <two> => served 1 0 0
read 004a 11 01 0000000000000001 <one> => served 1 0 0
read 0042 13 02 <none> => Refused 0 0 1
read 0002 13 03 => Refused 0 0 1
read 0002 13 09 => Refused 0 0 1
read 0042 11 00 <none> => BadFrame 0 0 0
read 004a 12 00 00000002 00000002 <one> => BadFrame 0 0 0
read 0002 14 00 => BadFrame 0 0 0
read 0005 16 00000000 => BadFrame 0 0 0
read 005a 15 00 00000001 00000001 <none> <put-1> => BadFrame 0 0 0
read 0043 01 <one> 0161 => BadFrame 0 0 0
read 0000 => BadFrame 0 0 0
read  => Lost 0 0 0
read 0042 => Lost 0 0 0
read 004a 11 01 0000000000000001 <one-cut> => Lost 0 0 0
write 004a 12 00 00000002 00000002 <one> => served 0 1 0
write 004a 12 00 00000003 00000009 <two> => served 0 1 0
write 0042 13 02 <none> => Refused 0 0 1
write 0002 13 03 => Refused 0 0 1
write 0002 13 09 => Refused 0 0 1
write 0002 13 0a => BadFrame 0 0 0
write 004a 12 00 00000001 00000001 <none> => BadFrame 0 0 0
write 004a 12 01 00000002 00000002 <one> => BadFrame 0 0 0
write 0042 11 00 <one> => BadFrame 0 0 0
write 004a 12 00 00000002 00000002 => Lost 0 0 0";

/// The same of replies after which more comes in one piece.
const MORE: &str = "read 0042 11 00 <one> 00 => BadFrame 0 0 0
read 0042 11 00 <one> 0002 13 03 => BadFrame 0 0 0
read 0002 13 03 0002 13 03 => BadFrame 0 0 0
write 004a 12 00 00000002 00000002 <one> 0042 11 00 <one> => BadFrame 0 0 0";

/// What is sent for the two.
const READ: &str = "0043 01 <one> 0161";

const WRITE: &str = "005a 06 <tag-1> <one> <put-1>";

/// What each begins with where it is the session's second operation.
const SECOND_READ: &str = "0043 01";

const SECOND_WRITE: &str = "005a 06 <tag-2>";

/// What a row asks, what is replied to that, and what the client reports then.
pub fn parts(row: &str) -> Option<(&str, &str, &str)> {
    let (said, expected) = row.split_once(" => ")?;
    let (request, reply) = said.split_once(' ')?;
    Some((request, reply, expected))
}

/// A session that asks for everything and has read from the first server's first Write.
pub fn reader_before(rt: &impl Abort, id: SessionId) -> Session
    ensures { result.id ≡ id }
{
    let mut counts = [0; SERVERS];
    counts[0] = 1;
    let asks = Asks {
        ryw: true,
        mr: true,
        wfr: true,
        mw: true,
    };
    let mut session = Session::new(id, FIRST_RUN, asks);
    session.saw(&Seen {
        value: None,
        vector: Vector::from_counts(counts).expect(rt, "no vector"),
    });
    session
}

/// Such a session with the last of these shares.
fn reader<K: Ledgers>(rt: &impl Abort, shares: Vec<Share<K>>) -> Client<K> {
    let mut shares = shares;
    let share = shares.pop().expect(rt, "no share");
    Client::new(reader_before(rt, share.session()), share)
}

/// The word for why it wasn't served.
fn word_of(fault: ClientFault) -> &'static str {
    match fault {
        ClientFault::AuditFull => "AuditFull",
        ClientFault::Link(LinkFault::Lost) => "Lost",
        ClientFault::Link(LinkFault::BadFrame) => "BadFrame",
        ClientFault::Link(LinkFault::OutOfMemory) => "OutOfMemory",
        ClientFault::Link(LinkFault::Refused(_)) => "Refused",
    }
}

/// What a session heard as it tried an operation, and what then stood in the book.
#[derive(Clone, Copy)]
struct Told {
    word: &'static str,
    totals: Totals,
    is_closed: bool,
}

/// The word for how the session's read of `a` at the first server ends.
fn read_word<K: Ledgers, R: Wait + Abort>(
    rt: &R,
    alloc: Global,
    book: &AuditBook<K>,
    client: &mut Client<K>,
    link: &mut Link<Slow<'_>, &mut Counting>,
) -> &'static str {
    if client.left() == 0 {
        return "no place";
    }
    match client.read(rt, alloc, book, link, server_id(rt), &key(rt)) {
        Ok(_) => "served",
        Err(fault) => word_of(fault),
    }
}

/// The word for how it ends where the session puts 1 at `a` there.
fn write_word<K: Ledgers, R: Wait + Abort>(
    rt: &R,
    alloc: Global,
    book: &AuditBook<K>,
    client: &mut Client<K>,
    link: &mut Link<Slow<'_>, &mut Counting>,
) -> &'static str {
    if client.left() == 0 {
        return "no place";
    }
    let program = resting_put(rt, alloc, 1);
    match client.write(rt, alloc, book, link, server_id(rt), program) {
        Ok(_) => "served",
        Err(fault) => word_of(fault),
    }
}

/// The session reads `a`, or puts 1 there, at the first server.
fn operates<K: Ledgers, R: Wait + Abort>(
    rt: &R,
    alloc: Global,
    book: &AuditBook<K>,
    client: &mut Client<K>,
    link: &mut Link<Slow<'_>, &mut Counting>,
    is_read: bool,
) -> Told {
    let word = if is_read {
        read_word(rt, alloc, book, client, link)
    } else {
        write_word(rt, alloc, book, client, link)
    };
    Told {
        word,
        totals: book.totals(rt),
        is_closed: link.is_closed(),
    }
}

/// Two operations of a session over one link, the second of which has no reply any more.
#[derive(Clone, Copy)]
struct Tried {
    first: Told,
    second: Told,
    /// Whether the session needs what it needed before.
    is_as_before: bool,
    /// Whether the entries of the book are of this session, at its first place.
    is_first: bool,
}

fn tries<S, T, U, V, R>(
    rt: &R,
    alloc: Global,
    blanks: Blanks,
    is_read: bool,
    reader: Slow<'_>,
    writer: &mut Counting,
) -> Tried
where
    S: Ledger + Send + Sync,
    T: Ledger + Send + Sync,
    U: Ledger + Send + Sync,
    V: Ledger + Send + Sync,
    R: Wait + Abort,
    requires blanks { AreBlanksOf blanks (named S.name S.parts) (named T.name T.parts) (named U.name U.parts) (named V.name V.parts) 1 }
{
    let (book, shares) = AuditBook::<Four<S, T, U, V>>::new(alloc, blanks, 1, 2).expect(
        rt, "no book",
    );
    tried_with(rt, alloc, &book, shares, is_read, reader, writer)
}

/// The same of a session with the last of these shares.
fn tried_with<K: Ledgers, R: Wait + Abort>(
    rt: &R,
    alloc: Global,
    book: &AuditBook<K>,
    shares: Vec<Share<K>>,
    is_read: bool,
    over: Slow<'_>,
    writer: &mut Counting,
) -> Tried {
    let mut client = reader(rt, shares);
    let (first, second) = both_told(rt, alloc, book, &mut client, over, writer, is_read);
    let (now, _) = client.parts();
    let before = reader_before(rt, now.id());
    Tried {
        first,
        second,
        is_as_before: needs_the_same(&before, &now),
        is_first: are_first(rt, alloc, book, before.asks()),
    }
}

/// What the session hears of the two, over a link of this reader and this writer.
fn both_told<K: Ledgers, R: Wait + Abort>(
    rt: &R,
    alloc: Global,
    book: &AuditBook<K>,
    client: &mut Client<K>,
    reader: Slow<'_>,
    writer: &mut Counting,
    is_read: bool,
) -> (Told, Told) {
    let mut link = Link::new(reader, writer);
    let first = operates(rt, alloc, book, client, &mut link, is_read);
    let second = operates(rt, alloc, book, client, &mut link, is_read);
    (first, second)
}

fn needs_the_same(before: &Session, now: &Session) -> bool {
    now.need_read() == before.need_read() && now.need_write() == before.need_write()
}

/// Whether the entry is of the first session, at its first place.
fn is_first(entry: &Entry, asks: Asks) -> bool {
    entry.place == 1 && entry.session.index == 0 && entry.server.index == 0 && entry.asks == asks
}

/// Whether each entry of the book is of the first session, at its first place.
fn are_first<K: Ledgers, R: Wait + Abort>(
    rt: &R,
    alloc: Global,
    book: &AuditBook<K>,
    asks: Asks,
) -> bool {
    let entries = book.entries(rt, alloc).expect(rt, "no memory");
    let mut are_so = true;
    for entry in entries.iter() {
        are_so &= is_first(entry, asks);
    }
    are_so
}

/// Whether this was answered and that was sent, and the link answers nothing any more if no answer came.
fn is_tried(
    rt: &impl Abort,
    alloc: Global,
    tried: &Tried,
    sent: &[u8],
    is_read: bool,
    expected: &str,
) -> bool {
    let is_served = expected.starts_with("served");
    let is_answered = is_served || expected.starts_with("Refused");
    is_worded(rt, alloc, tried.first.word, &tried.first.totals, expected)
        && tried.first.is_closed != is_answered
        && is_over(&tried.second, &tried.first.totals)
        && is_sent(rt, alloc, sent, is_read, is_answered)
        && (tried.is_as_before || is_served)
        && tried.is_first
}

/// Whether this is what was answered, and what stands in the book.
fn is_worded(rt: &impl Abort, alloc: Global, word: &str, totals: &Totals, expected: &str) -> bool {
    let said = format!(in alloc;
        "{} {} {} {}",
        word, totals.reads, totals.writes, totals.refusals
    );
    said.expect(rt, "no memory").as_str() == expected
}

/// Whether nothing came any more, and the book is as it was, with no slip out.
fn is_over(told: &Told, totals: &Totals) -> bool {
    told.word == "Lost" && told.is_closed && told.totals == *totals && totals.slips == 0
}

/// Whether the request was sent, and one more of the same length where it was answered, which is asked by the session's next place.
fn is_sent(rt: &impl Abort, alloc: Global, sent: &[u8], is_read: bool, is_answered: bool) -> bool {
    let (first, second) = if is_read {
        (READ, SECOND_READ)
    } else {
        (WRITE, SECOND_WRITE)
    };
    let request = bytes(rt, alloc, first);
    let (front, rest) = sent.split_at(request.len().min(sent.len()));
    front == request.as_slice() && is_second(rt, alloc, rest, second, request.len(), is_answered)
}

/// Whether that is a second request, of this length and with this front, where there is to be one; and nothing else.
fn is_second(
    rt: &impl Abort,
    alloc: Global,
    sent: &[u8],
    front: &str,
    length: usize,
    is_there: bool,
) -> bool {
    if !is_there {
        return sent.is_empty();
    }
    sent.len() == length && sent.starts_with(bytes(rt, alloc, front).as_slice())
}

/// The two operations of a new session at a new book.
fn tried_anew<R: Wait + Abort>(
    rt: &R,
    alloc: Global,
    is_read: bool,
    reader: Slow<'_>,
    writer: &mut Counting,
) -> Tried {
    tries::<Brand, Brand, Brand, Brand, R>(rt, alloc, blanks(1), is_read, reader, writer)
}

fn row_holds<R: Wait + Abort>(rt: &R, alloc: Global, row: &str, most: usize) -> bool {
    match parts(row) {
        Some((request, reply, expected)) => {
            let reply = bytes(rt, alloc, reply);
            is_told(rt, alloc, request == "read", &reply, most, expected)
        }
        None => false,
    }
}

/// Whether a session that gets this reply, in pieces of at most so many bytes, and sends in such, hears what is expected.
fn is_told<R: Wait + Abort>(
    rt: &R,
    alloc: Global,
    is_read: bool,
    reply: &[u8],
    most: usize,
    expected: &str,
) -> bool {
    let mut writer = slow_writer(alloc, most, 0);
    let tried = tried_anew(rt, alloc, is_read, slow_reader(reply, most, 0), &mut writer);
    is_tried(rt, alloc, &tried, &writer.bytes, is_read, expected)
}

/// A read or a Write over a link that moves one byte at a call, and how many calls of its reader, or of its writer, it takes.
struct Failing {
    is_read: bool,
    is_of_reader: bool,
    calls: u32,
}

static FAILING: [Failing; 4] = [
    Failing {
        is_read: true,
        is_of_reader: true,
        calls: 68,
    },
    Failing {
        is_read: true,
        is_of_reader: false,
        calls: 69,
    },
    Failing {
        is_read: false,
        is_of_reader: true,
        calls: 76,
    },
    Failing {
        is_read: false,
        is_of_reader: false,
        calls: 92,
    },
];

/// What is sent for it, and what is replied where it is served.
fn request_and_reply(rt: &impl Abort, alloc: Global, is_read: bool) -> (Vec<u8>, Vec<u8>) {
    let (request, reply) = if is_read {
        (READ, "0042 11 00 <one>")
    } else {
        (WRITE, "004a 12 00 00000002 00000002 <one>")
    };
    (bytes(rt, alloc, request), bytes(rt, alloc, reply))
}

/// Whether nothing is reported and nothing entered where this call fails, over a link that is closed then, once a front of the request was sent;
/// but that the operation is served where the call is one after its last.
fn fails_at<R: Wait + Abort>(rt: &R, alloc: Global, failing: &Failing, at: u32) -> bool {
    let (request, reply) = request_and_reply(rt, alloc, failing.is_read);
    let (read, write) = if failing.is_of_reader {
        (at, 0)
    } else {
        (0, at)
    };
    let mut writer = slow_writer(alloc, 1, write);
    let reader = slow_reader(&reply, 1, read);
    let tried = tried_anew(rt, alloc, failing.is_read, reader, &mut writer);
    if at > failing.calls {
        return tells_first(&tried);
    }
    tells_nothing(&tried) && is_sent_up_to(&writer, &request, write)
}

/// Whether as much of the request was sent as came before this call of the writer, if one failed, and no call came after it.
pub fn is_sent_up_to(writer: &Counting, request: &[u8], fails_at: u32) -> bool {
    let calls = match fails_at {
        0 => request.len(),
        _ => fails_at as usize,
    };
    let count = match fails_at {
        0 => request.len(),
        _ => calls.saturating_sub(1),
    };
    writer.calls as usize == calls
        && writer.bytes.len() == count
        && request.starts_with(&writer.bytes)
}

/// Whether the first operation was served, and the second one, whose call failed, is lost.
fn tells_first(tried: &Tried) -> bool {
    tried.first.word == "served"
        && !tried.first.is_closed
        && is_over(&tried.second, &tried.first.totals)
        && tried.is_first
}

fn tells_nothing(tried: &Tried) -> bool {
    tried.first.word == "Lost"
        && tried.first.is_closed
        && is_over(&tried.second, &Totals::default())
        && tried.is_as_before
        && tried.is_first
}

/// Whether a row holds, whatever pieces its request and its reply move in.
fn holds_in_pieces<R: Wait + Abort>(rt: &R, alloc: Global, row: &str) -> bool {
    row_holds(rt, alloc, row, 1) && row_holds(rt, alloc, row, 68) && row_holds(rt, alloc, row, 4096)
}

#[test]
fn a_session_is_told_what_answers_it(rt: HostRuntime) {
    for row in REPLIES.lines() {
        must_hold(&rt, holds_in_pieces(&rt, rt.alloc(), row), row);
    }
}

#[test]
fn a_session_is_told_of_nothing_behind_a_reply(rt: HostRuntime) {
    for row in MORE.lines() {
        must_hold(&rt, row_holds(&rt, rt.alloc(), row, 4096), row);
    }
}

/// Each call fails so, in turn, from the first to one after the last.
fn each_fails<R: Wait + Abort>(rt: &R, alloc: Global, failing: &Failing) {
    for at in 1..failing.calls.saturating_add(2) {
        must_be_so(rt, fails_at(rt, alloc, failing, at), at as usize);
    }
}

#[test]
fn each_read_and_write_of_a_link_may_fail(rt: HostRuntime) {
    for failing in &FAILING {
        each_fails(&rt, rt.alloc(), failing);
    }
}
