//! A session that asks without a book, and what a link hears that asks for nobody: of replies of each kind.
use crate::clients::{parts, reader_before};
use crate::fakes::{Counting, Slow, slow_reader, slow_writer};
use crate::fixtures::{bytes, key, must_hold, resting_put, server_id};
use crate::links::fault_word;
use bayou_base::{Entry, Prefix, SessionId, Vector, What, Wid};
use bayou_client::{Asker, Heard, Link, LinkFault};
use bayou_fakes::words::is_said;
use bayou_wire::{FateAsked, RowsAsked};
use std::alloc::Global;
use std::process::Abort;

/// What a session that needs the first server's first Write is replied, as it reads `a` or puts 1 there at the first server, or asks it for the rows of
/// the keys that begin with `a`, or what became of that Write, how that ends, what is to be entered of it at its first place, and whether it may ask
/// again.
const HEARD: &str = "read 0042 11 00 <one> => served read no
read 004a 11 01 0000000000000001 <one> => served read no
read 0042 13 02 <none> => Refused refusal no
read 0042 11 00 <none> => BadFrame nothing no
read 0042 => Lost nothing no
list 0044 35 <one> 00 0000 => served read no
list 004f 35 <one> 01 0001 0161 01 0000000000000001 => served read no
list 0042 13 02 <none> => Refused refusal no
list 0044 35 <none> 00 0000 => BadFrame nothing no
list 0042 33 <one> 00 => BadFrame nothing no
list 0042 11 00 <one> => BadFrame nothing no
list 2001 35 <one> 00 0000 => BadFrame nothing no
list 0044 35 <one> 00 00 => Lost nothing no
list  => Lost nothing no
became 0042 33 <one> 00 => served read no
became 0047 33 <one> 02 03 00000001 => served read no
became 0002 13 03 => Refused refusal no
became 0042 33 <none> 00 => BadFrame nothing no
became 0044 35 <one> 00 0000 => BadFrame nothing no
became 0002 13 05 => BadFrame nothing no
became 0042 33 <one> => Lost nothing no
write 004a 12 00 00000002 00000002 <one> => served write no
write 0042 13 02 <none> => Refused refusal yes
write 004a 12 00 00000001 00000001 <none> => BadFrame nothing yes
write 004a 12 00 00000002 00000002 => Lost nothing yes";

/// What is sent for each.
const READ: &str = "0043 01 <one> 0161";

const LIST: &str = "0046 22 <one> 0161 00 0079";

const BECAME: &str = "0046 23 <one> 00 00000001";

const WRITE: &str = "005a 06 <tag-1> <one> <put-1>";

/// The same of a Write that was asked for before, and whose reply was lost: at its second place.
const AGAIN: &str = "again 004a 12 00 00000002 00000002 <one> => served write no
again 0002 13 03 => Refused refusal yes
again  => Lost nothing yes";

/// What is replied to a read of `a` that needs nothing, and what is reported of it: how many Writes of the first server are held, and whether there is a value.
const LOOKED: &str = "vector 0042 11 00 <none> => 0
vector 004a 11 01 0000000000000001 <one> => 1
vector 0042 13 02 <one> => Refused
vector 0002 14 00 => BadFrame
vector 0042 => Lost
look 0042 11 00 <one> => absent
look 004a 11 01 0000000000000001 <one> => value
look 0002 13 03 => Refused
look 0042 11 00 <one> 00 => BadFrame
look  => Lost";

/// What is sent for the two.
const LOOK: &str = "0043 01 <none> 0161";

type Over<'a, 'b> = Link<Slow<'a>, &'b mut Counting>;

fn told_word<A>(told: &Result<A, LinkFault>) -> &'static str {
    match told {
        Ok(_) => "served",
        Err(fault) => fault_word(*fault),
    }
}

fn what_word(what: &What) -> &'static str {
    match what {
        What::Read(_, _) => "read",
        What::Write(_, _, _) => "write",
        What::Refused => "refusal",
    }
}

/// The word for what is to be entered of the first session at this place, at the first server.
fn entry_word(entry: &Option<Entry>, place: u32) -> &'static str {
    match entry {
        None => "nothing",
        Some(entry)
            if entry.place == place && entry.session.index == 0 && entry.server.index == 0 => {
            what_word(&entry.what)
        }
        Some(_) => "another",
    }
}

fn asked_word(asker: &Asker) -> &'static str {
    if asker.asked().is_some() { "yes" } else { "no" }
}

/// How it ended and what is to be entered of it.
fn heard_words<A: Drop>(heard: Heard<A>, place: u32) -> (&'static str, &'static str) {
    (told_word(&heard.told), entry_word(&heard.entry, place))
}

/// The session's read of `a` at the first server.
fn reads(
    rt: &impl Abort,
    alloc: Global,
    asker: &mut Asker,
    link: &mut Over<'_, '_>,
) -> (&'static str, &'static str) {
    if asker.session().left() == 0 {
        return ("no place", "nothing");
    }
    heard_words(asker.read(alloc, link, server_id(rt), &key(rt)), 1)
}

/// Its list of the keys there that begin with `a`.
fn lists(
    rt: &impl Abort,
    alloc: Global,
    asker: &mut Asker,
    link: &mut Over<'_, '_>,
) -> (&'static str, &'static str) {
    if asker.session().left() == 0 {
        return ("no place", "nothing");
    }
    let asked = RowsAsked {
        need: Vector::zero(),
        prefix: Prefix::new("a").expect(rt, "no prefix"),
        after: None,
        most: 121,
    };
    heard_words(asker.list(alloc, link, server_id(rt), &asked), 1)
}

/// What it hears became of the first server's first Write there.
fn asks_after(
    rt: &impl Abort,
    alloc: Global,
    asker: &mut Asker,
    link: &mut Over<'_, '_>,
) -> (&'static str, &'static str) {
    if asker.session().left() == 0 {
        return ("no place", "nothing");
    }
    let asked = FateAsked {
        need: Vector::zero(),
        wid: Wid::new(server_id(rt), 1).expect(rt, "no name"),
    };
    heard_words(asker.became(alloc, link, server_id(rt), &asked), 1)
}

/// Its Write of 1 at `a` there.
fn writes(
    rt: &impl Abort,
    alloc: Global,
    asker: &mut Asker,
    link: &mut Over<'_, '_>,
) -> (&'static str, &'static str) {
    if asker.session().left() == 0 {
        return ("no place", "nothing");
    }
    asker.ask(server_id(rt), resting_put(rt, alloc, 1));
    heard_words(asker.send(alloc, link), 1)
}

/// The Write that it may ask again.
fn asks_again(
    alloc: Global,
    asker: &mut Asker,
    link: &mut Over<'_, '_>,
) -> (&'static str, &'static str) {
    if asker.session().left() == 0 || asker.asked().is_none() {
        return ("no place", "nothing");
    }
    asker.ask_again();
    heard_words(asker.send(alloc, link), 2)
}

/// A session that needs the first server's first Write.
fn new_asker(rt: &impl Abort) -> Asker {
    Asker::asking_nothing(reader_before(rt, SessionId::new(0).expect(rt, "no session")))
}

/// The same, whose Write was lost.
fn lost_asker(rt: &impl Abort, alloc: Global) -> Asker {
    let mut asker = new_asker(rt);
    let mut writer = slow_writer(alloc, 4096, 0);
    let mut link = Link::new(slow_reader(&[], 4096, 0), &mut writer);
    let _ = writes(rt, alloc, &mut asker, &mut link);
    asker
}

/// Whether these are the words that are expected.
fn is_worded(
    rt: &impl Abort,
    alloc: Global,
    (told, entry): (&str, &str),
    asked: &str,
    expected: &str,
) -> bool {
    let said = format!(in alloc; "{} {} {}", told, entry, asked);
    said.expect(rt, "no memory").as_str() == expected
}

/// Whether a session that asks this, and is replied this, hears what is expected, once the request was sent.
fn hears(rt: &impl Abort, alloc: Global, request: &str, reply: &[u8], expected: &str) -> bool {
    let mut asker = if request == "again" {
        lost_asker(rt, alloc)
    } else {
        new_asker(rt)
    };
    let mut writer = slow_writer(alloc, 4096, 0);
    let mut link = Link::new(slow_reader(reply, 4096, 0), &mut writer);
    let (words, sent) = match request {
        "read" => (reads(rt, alloc, &mut asker, &mut link), READ),
        "list" => (lists(rt, alloc, &mut asker, &mut link), LIST),
        "became" => (asks_after(rt, alloc, &mut asker, &mut link), BECAME),
        "write" => (writes(rt, alloc, &mut asker, &mut link), WRITE),
        _ => (asks_again(alloc, &mut asker, &mut link), WRITE),
    };
    is_worded(rt, alloc, words, asked_word(&asker), expected) && is_said(alloc, sent, &writer.bytes)
}

fn row_holds(rt: &impl Abort, alloc: Global, row: &str) -> bool {
    match parts(row) {
        Some((request, reply, expected)) => {
            let reply = bytes(rt, alloc, reply);
            hears(rt, alloc, request, &reply, expected)
        }
        None => false,
    }
}

#[test]
fn a_session_hears_what_answers_it(rt: HostRuntime) {
    for row in HEARD.lines() {
        must_hold(&rt, row_holds(&rt, rt.alloc(), row), row);
    }
}

#[test]
fn a_lost_write_is_sent_again(rt: HostRuntime) {
    for row in AGAIN.lines() {
        must_hold(&rt, row_holds(&rt, rt.alloc(), row), row);
    }
}

/// The word for the vector that a link hears.
fn vector_word(alloc: Global, link: &mut Over<'_, '_>) -> &'static str {
    match link.vector(alloc) {
        Ok(vector) if vector.counts()[0] == 0 => "0",
        Ok(vector) if vector.counts()[0] == 1 => "1",
        Ok(_) => "many",
        Err(fault) => fault_word(fault),
    }
}

/// The word for what it hears of `a`.
fn look_word(rt: &impl Abort, alloc: Global, link: &mut Over<'_, '_>) -> &'static str {
    match link.look(alloc, &key(rt)) {
        Ok(seen) if seen.value.is_some() => "value",
        Ok(_) => "absent",
        Err(fault) => fault_word(fault),
    }
}

/// Whether a link that gets this reply reports what is expected, once a read of `a` that needs nothing was sent.
fn looks(rt: &impl Abort, alloc: Global, request: &str, reply: &[u8], expected: &str) -> bool {
    let mut writer = slow_writer(alloc, 4096, 0);
    let mut link = Link::new(slow_reader(reply, 4096, 0), &mut writer);
    let word = match request {
        "vector" => vector_word(alloc, &mut link),
        _ => look_word(rt, alloc, &mut link),
    };
    word == expected && is_said(alloc, LOOK, &writer.bytes)
}

fn look_holds(rt: &impl Abort, alloc: Global, row: &str) -> bool {
    match parts(row) {
        Some((request, reply, expected)) => {
            let reply = bytes(rt, alloc, reply);
            looks(rt, alloc, request, &reply, expected)
        }
        None => false,
    }
}

#[test]
fn a_link_tells_what_is_held(rt: HostRuntime) {
    for row in LOOKED.lines() {
        must_hold(&rt, look_holds(&rt, rt.alloc(), row), row);
    }
}
