//! The same lists of calls at a node and at a server over an equal device: each answer is the same, and what is held in the end.
ghost use Rattle.std.specs.Prelude.{◌≡◌};
ghost use Rattle.bayou_node.specs.Books.{IsBlankOf, begun_of};

use crate::fixtures::{begun, dumped, key, must_be_so, must_go_so, new_site, put, tag, vector};
use bayou_base::{ServerId, Stamp, Tag, Vector, Wid};
use bayou_fakes::dice::Dice;
use bayou_fakes::sites::{Memory, Served, Site, fuse, settled};
use bayou_fakes::values::{are_same, plus, resting};
use bayou_lang::{Program, RestingProgram, RestingWrite, Write};
use bayou_node::{Desks, Node};
use bayou_server::{WriteFault, Written};
use std::alloc::Global;
use std::marker::Brand;
use std::process::Abort;
use std::sync::Wait;
use std::sync::ledger::Blank;

/// How many lists there are, and how many calls each has.
const LISTS: u32 = 100;

const CALLS: u32 = 60;

/// A Write that is asked for.
#[derive(Drop)]
struct Asked {
    tag: Tag,
    need: Vector,
    program: Program,
}

/// One call.
#[derive(Drop)]
enum Call {
    Read(Vector),
    Write(Asked),
    Take(Write),
    Reopen,
    Offer,
    Lacking(Vector, usize),
    Listing,
    Dump,
}

/// A Write of the second server, which held its own alone. It may come too soon, twice, or with a program that is another's.
fn foreign(rt: &impl Abort, dice: &mut Dice) -> Write {
    let server = ServerId::new(1).expect(rt, "no server");
    let seq = dice.below(6).saturating_add(1);
    let number = i64::from(seq) + i64::from(dice.below(8) / 7);
    Write {
        wid: Wid::new(server, seq).expect(rt, "no name"),
        stamp: Stamp::new(seq, server).expect(rt, "no stamp"),
        deps: vector(rt, 0, seq.saturating_sub(1)),
        program: put(rt, number),
    }
}

/// A need that is mostly met.
fn need(rt: &impl Abort, dice: &mut Dice) -> Vector {
    vector(rt, dice.below(4), dice.below(2))
}

/// A Write that is asked for: maybe one that was asked for before, or another one of its tag. The program puts a number, or adds one.
fn any_asking(rt: &impl Abort, dice: &mut Dice) -> Asked {
    let place = dice.below(30);
    let number = i64::from(place) + i64::from(dice.below(8) / 7);
    let program = match place % 2 {
        0 => put(rt, number),
        _ => plus(number).expect(rt, "no program"),
    };
    Asked {
        tag: tag(rt, place.saturating_add(1)),
        need: need(rt, dice),
        program,
    }
}

fn any_call(rt: &impl Abort, dice: &mut Dice) -> Call {
    match dice.below(14) {
        0 | 1 => Call::Read(need(rt, dice)),
        2..=5 => Call::Write(any_asking(rt, dice)),
        6..=8 => Call::Take(foreign(rt, dice)),
        9 => Call::Reopen,
        10 => Call::Offer,
        11 => Call::Lacking(need(rt, dice), dice.below(5) as usize),
        12 => Call::Listing,
        _ => Call::Dump,
    }
}

fn reads_alike<L: Desks, R: Wait + Abort>(
    rt: &R,
    node: &Node<Memory, L>,
    server: &Served,
    need: &Vector,
) -> bool {
    let a = key(rt);
    server.read(need, &a) == node.read(rt, need, &a)
}

/// What the node answers to the program, for its one desk.
fn written<L: Desks, R: Wait + Abort>(
    rt: &R,
    alloc: Global,
    site: &mut Site<Memory, L>,
    (tag, need): (Tag, &Vector),
    program: &RestingProgram,
) -> Result<Written, WriteFault> {
    let desk = site.desks.first_mut().expect(rt, "no desk");
    site.node.write(rt, alloc, desk, tag, need, program)
}

/// The program as it rests.
fn rest(rt: &impl Abort, alloc: Global, program: &Program) -> RestingProgram {
    resting(alloc, program).expect(rt, "no memory for a program")
}

/// Whether both answer alike, and how many Writes are made.
fn writes_alike<L: Desks, R: Wait + Abort>(
    rt: &R,
    alloc: Global,
    site: &mut Site<Memory, L>,
    server: &mut Served,
    asked: &Asked,
) -> (bool, u32) {
    let Asked { tag, need, program } = asked;
    let program = rest(rt, alloc, program);
    let answer = server.write(alloc, *tag, need, &program);
    let is_same = answer == written(rt, alloc, site, (*tag, need), &program);
    (is_same, u32::from(matches!(answer, Ok(Written::New(_)))))
}

/// The Write as it rests.
fn rested(rt: &impl Abort, alloc: Global, write: &Write) -> RestingWrite {
    write.rest(alloc).expect(rt, "no memory for a Write")
}

fn takes_alike<L: Desks, R: Wait + Abort>(
    rt: &R,
    alloc: Global,
    node: &Node<Memory, L>,
    server: &mut Served,
    write: &Write,
) -> bool {
    let answer = server.take(alloc, rested(rt, alloc, write));
    answer == node.take(rt, alloc, rested(rt, alloc, write))
}

fn reopens_alike<L: Desks, R: Wait>(
    rt: &R,
    alloc: Global,
    node: &Node<Memory, L>,
    server: &mut Served,
) -> bool {
    server.reopen(alloc) == node.reopen(rt, alloc)
}

fn lacks_alike<L: Desks, R: Wait + Abort>(
    rt: &R,
    alloc: Global,
    node: &Node<Memory, L>,
    server: &Served,
    (counts, most): (&Vector, usize),
) -> bool {
    let one = server.lacking(alloc, counts, most);
    let other = node.lacking(rt, alloc, counts, most);
    are_same(
        &one.expect(rt, "no memory for Writes"),
        &other.expect(rt, "no memory for Writes"),
    )
}

fn lists_alike<L: Desks, R: Wait + Abort>(
    rt: &R,
    alloc: Global,
    node: &Node<Memory, L>,
    server: &Served,
) -> bool {
    let one = server.listing(alloc).expect(rt, "no memory for a list");
    let other = node.listing(rt, alloc).expect(rt, "no memory for a list");
    one.as_slice() == other.as_slice()
}

fn dumps_alike<L: Desks, R: Wait + Abort>(
    rt: &R,
    alloc: Global,
    node: &Node<Memory, L>,
    server: &Served,
) -> bool {
    let one = server.dump(alloc).expect(rt, "no memory for Writes");
    are_same(&one, &dumped(rt, alloc, node))
}

/// Whether both answer the call in the same way, and how many Writes are accepted.
fn answers_alike<L: Desks, R: Wait + Abort>(
    rt: &R,
    alloc: Global,
    site: &mut Site<Memory, L>,
    server: &mut Served,
    call: &Call,
) -> (bool, u32) {
    if let Call::Write(asked) = call {
        return writes_alike(rt, alloc, site, server, asked);
    }
    let node = &site.node;
    let is_so = match call {
        Call::Read(need) => reads_alike(rt, node, server, need),
        Call::Write(_) => false,
        Call::Take(write) => takes_alike(rt, alloc, node, server, write),
        Call::Reopen => reopens_alike(rt, alloc, node, server),
        Call::Offer => server.vector() == node.offer(rt),
        Call::Lacking(counts, most) => lacks_alike(rt, alloc, node, server, (counts, *most)),
        Call::Listing => lists_alike(rt, alloc, node, server),
        Call::Dump => dumps_alike(rt, alloc, node, server),
    };
    (is_so, 0)
}

/// Whether the node, settled, tells as many accepted programs as the server did, and what the server holds.
fn settles_alike<L: Desks>(site: Box<Site<Memory, L>>, accepted: u32, vector: Vector) -> bool {
    let Site { node, desks } = Box::into_inner(site);
    match settled(node, desks) {
        Some(settled) => settled.accepted == accepted && settled.vector == vector,
        None => false,
    }
}

/// Both answer alike over the list that begins with this number. How many Writes are accepted, and whether both have the same in the end.
fn all_alike<L: Desks, R: Wait + Abort>(
    rt: &R,
    alloc: Global,
    site: &mut Site<Memory, L>,
    server: &mut Served,
    number: u32,
) -> (bool, u32) {
    let mut dice = Dice {
        state: u64::from(number),
    };
    let mut accepted: u32 = 0;
    for at in 0..CALLS {
        let call = any_call(rt, &mut dice);
        let (is_so, count) = answers_alike(rt, alloc, site, server, &call);
        must_go_so(rt, is_so, (number as usize, at as usize));
        accepted = accepted.saturating_add(count);
    }
    (dumps_alike(rt, alloc, &site.node, server), accepted)
}

/// Whether both go alike over the list that begins with this number.
fn go_alike<L: Desks, R: Wait + Abort>(
    rt: &R,
    alloc: Global,
    blank: Blank,
    server: Box<Served>,
    beside: &mut Served,
    number: u32,
) -> bool
    requires blank { IsBlankOf blank L.name L.parts 1 }
    requires whose { begun_of server.value.core ≡ L.begun }
{
    let mut site = new_site::<_, L>(rt, alloc, blank, server, 1);
    let (are_alike, accepted) = all_alike(rt, alloc, site.as_mut(), beside, number);
    settles_alike(site, accepted, beside.vector()) && are_alike
}

/// A server whose device fails at a call that the number picks.
fn fused(rt: &impl Abort, alloc: Global, number: u32) -> Box<Served> {
    let mut server = begun(rt, alloc, (0, 2, 1000));
    fuse(server.as_mut(), number % 30 + 1, (number % 90) as usize);
    server
}

/// The same of a new node and a new server.
fn goes<R: Wait + Abort>(rt: &R, alloc: Global, number: u32) -> bool {
    let (server, mut beside) = (fused(rt, alloc, number), fused(rt, alloc, number));
    go_alike::<Brand, R>(rt, alloc, Blank::new(1), server, beside.as_mut(), number)
}

#[test]
fn a_node_answers_as_a_server_does(rt: HostRuntime) {
    for number in 0..LISTS {
        must_be_so(&rt, goes(&rt, rt.alloc(), number), number as usize);
    }
}
