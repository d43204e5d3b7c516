//! A link over which a journal is to be opened again, and all Writes held are asked for: what is reported of each reply, byte for byte, whatever
//! pieces it comes in.
use crate::clients::{is_sent_up_to, parts};
use crate::fakes::{Counting, Slow, slow_reader, slow_writer};
use crate::fixtures::{bytes, must_be_so, must_hold};
use bayou_base::Wid;
use bayou_client::{Link, LinkFault};
use bayou_fakes::words::is_said;
use std::alloc::Global;
use std::process::Abort;

/// What is replied, and what is reported of it: a Write that was adopted, how many Writes came, or why there is no answer.
const ROWS: &str = "reopen 0002 14 00 => none
reopen 0007 14 01 00 00000001 => one
reopen 0002 13 05 => Refused
reopen 0002 13 04 => Refused
reopen 0006 13 06 00000001 => Refused
reopen 0002 13 07 => Refused
reopen 0005 16 00000000 => BadFrame
reopen 0001 03 => BadFrame
reopen 005a 15 00 00000001 00000001 <none> <put-1> => BadFrame
reopen 0007 14 01 00 00000000 => BadFrame
reopen  => Lost
reopen 0002 14 => Lost
dump 0005 16 00000000 => none
dump 005a 15 00 00000001 00000001 <none> <put-1> 0005 16 00000001 => one
dump 005a 15 00 00000001 00000001 <none> <put-1> 005a 15 00 00000002 00000002 <one> <put-1> 0005 16 00000002 => two
dump 005a 15 00 00000001 00000001 <none> <put-1> 0005 16 00000002 => BadFrame
dump 0005 16 00000001 => BadFrame
dump 0002 13 08 => Refused
dump 005a 15 00 00000001 00000001 <none> <put-1> 0002 13 08 => BadFrame
dump 0042 11 00 <none> => BadFrame
dump 005a 15 00 00000001 00000001 <none> <put-1> 2001 => BadFrame
dump 005a 15 00 00000001 00000001 <none> <put-1> => Lost
dump 005a 15 00 00000001 00000001 <none> <put-1> 0005 16 000000 => Lost";

/// A reply that tells of an adopted Write, in 9 bytes.
const REOPENED: &str = "0007 14 01 00 00000001";

/// A reply of an Item and an End, in 67 bytes.
const DUMPED: &str = "005a 15 00 00000001 00000001 <none> <put-1> 0005 16 00000001";

/// The word for why there is no answer.
pub fn fault_word(fault: LinkFault) -> &'static str {
    match fault {
        LinkFault::Lost => "Lost",
        LinkFault::BadFrame => "BadFrame",
        LinkFault::OutOfMemory => "OutOfMemory",
        LinkFault::Refused(_) => "Refused",
    }
}

fn adopted_word(adopted: Option<Wid>) -> &'static str {
    match adopted {
        None => "none",
        Some(wid) if wid.origin.index == 0 && wid.seq == 1 => "one",
        Some(_) => "another",
    }
}

fn number_word(number: usize) -> &'static str {
    match number {
        0 => "none",
        1 => "one",
        2 => "two",
        _ => "many",
    }
}

fn reopen_word(alloc: Global, link: &mut Link<Slow<'_>, &mut Counting>) -> &'static str {
    match link.reopen(alloc) {
        Ok(adopted) => adopted_word(adopted),
        Err(fault) => fault_word(fault),
    }
}

fn dump_word(alloc: Global, link: &mut Link<Slow<'_>, &mut Counting>) -> &'static str {
    match link.dump(alloc) {
        Ok(writes) => number_word(writes.len()),
        Err(fault) => fault_word(fault),
    }
}

/// What a link of this reader and this writer answered, and whether it is closed then.
fn asked(
    alloc: Global,
    is_dump: bool,
    reader: Slow<'_>,
    writer: &mut Counting,
) -> (&'static str, bool) {
    let mut link = Link::new(reader, writer);
    let word = if is_dump {
        dump_word(alloc, &mut link)
    } else {
        reopen_word(alloc, &mut link)
    };
    (word, link.is_closed())
}

/// Whether this is what is reported where this is replied, in pieces of at most so many bytes; then the request was sent, in such too, and the
/// link is closed if no answer came.
fn is_told(alloc: Global, is_dump: bool, reply: &[u8], most: usize, expected: &str) -> bool {
    let mut writer = slow_writer(alloc, most, 0);
    let (word, is_closed) = asked(alloc, is_dump, slow_reader(reply, most, 0), &mut writer);
    let is_lost = expected == "Lost" || expected == "BadFrame";
    let request = if is_dump { "0001 04" } else { "0001 03" };
    word == expected && is_closed == is_lost && is_said(alloc, request, &writer.bytes)
}

fn row_holds(rt: &impl Abort, alloc: Global, row: &str, most: usize) -> bool {
    match parts(row) {
        Some((request, reply, expected)) => {
            let reply = bytes(rt, alloc, reply);
            is_told(alloc, request == "dump", &reply, most, expected)
        }
        None => false,
    }
}

/// Whether a row holds, whatever pieces its reply comes in.
fn holds_in_pieces(rt: &impl Abort, alloc: Global, row: &str) -> bool {
    row_holds(rt, alloc, row, 1) && row_holds(rt, alloc, row, 68) && row_holds(rt, alloc, row, 4096)
}

#[test]
fn a_link_tells_what_answers_it(rt: HostRuntime) {
    for row in ROWS.lines() {
        must_hold(&rt, holds_in_pieces(&rt, rt.alloc(), row), row);
    }
}

/// A dump or a reopening over a link that moves one byte at a call, and how many calls of its reader, or of its writer, it takes.
struct Failing {
    is_dump: bool,
    is_of_reader: bool,
    calls: u32,
}

static FAILING: [Failing; 4] = [
    Failing {
        is_dump: true,
        is_of_reader: true,
        calls: 99,
    },
    Failing {
        is_dump: true,
        is_of_reader: false,
        calls: 3,
    },
    Failing {
        is_dump: false,
        is_of_reader: true,
        calls: 9,
    },
    Failing {
        is_dump: false,
        is_of_reader: false,
        calls: 3,
    },
];

/// Whether nothing is reported where this call fails, over a link that is closed then, once a front of the request was sent; but that it is
/// answered where the call is one after its last.
fn fails_at(rt: &impl Abort, alloc: Global, failing: &Failing, at: u32) -> bool {
    let reply = bytes(rt, alloc, if failing.is_dump { DUMPED } else { REOPENED });
    let (read, write) = if failing.is_of_reader {
        (at, 0)
    } else {
        (0, at)
    };
    let mut writer = slow_writer(alloc, 1, write);
    let reader = slow_reader(&reply, 1, read);
    let (word, is_closed) = asked(alloc, failing.is_dump, reader, &mut writer);
    if at > failing.calls {
        return word == "one" && !is_closed;
    }
    let request = bytes(
        rt,
        alloc,
        if failing.is_dump {
            "0001 04"
        } else {
            "0001 03"
        },
    );
    word == "Lost" && is_closed && is_sent_up_to(&writer, &request, write)
}

/// Each call fails so, in turn, from the first to one after the last.
fn each_fails(rt: &impl Abort, alloc: Global, failing: &Failing) {
    for at in 1..failing.calls.saturating_add(2) {
        must_be_so(rt, fails_at(rt, alloc, failing, at), at as usize);
    }
}

#[test]
fn each_call_of_a_dump_and_of_a_reopening_may_fail(rt: HostRuntime) {
    for failing in &FAILING {
        each_fails(&rt, rt.alloc(), failing);
    }
}
