//! Want of memory at a node.
ghost use Rattle.std.specs.Prelude.{◌≡◌};
ghost use Rattle.bayou_node.specs.Books.{IsBlankOf, begun_of};

use crate::fixtures::{begun_at_last, boxed, put, vector};
use bayou_base::{Tag, Vector};
use bayou_fakes::sites::{Memory, Served, Site, fuse, reopened, settled};
use bayou_fakes::values;
use bayou_lang::Write;
use bayou_node::{Desk, Desks, Node, NodeSettled};
use bayou_server::{ReopenFault, TakeFault, Took, WriteFault, Written};
use std::alloc::Global;
use std::marker::Brand;
use std::process::Abort;
use std::sync::Wait;
use std::sync::ledger::Blank;

/// What became of the programs.
#[derive(Clone, Copy)]
struct Made {
    accepted: u32,
    adopted: u32,
}

/// Whether a reopening adopts the Write in doubt, tried again where memory was refused, or where the device's one failing call fell into it;
/// or nothing where it isn't up then.
fn adopts<L: Desks, R: Wait>(rt: &R, alloc: Global, node: &Node<Memory, L>) -> Option<bool> {
    let adopted = match reopened(rt, alloc, node) {
        Err(ReopenFault::OutOfMemory | ReopenFault::Journal(_)) => reopened(rt, alloc, node),
        answer => answer,
    };
    Some(adopted.ok()?.is_some())
}

/// The tag of the place after those of the node's own Writes: a fresh one, where these were given theirs so.
fn next_tag<L: Desks, R: Wait + Abort>(rt: &R, node: &Node<Memory, L>) -> Tag {
    let own = node.offer(rt).get(node.id());
    values::tag(own.saturating_add(1)).expect(rt, "no tag")
}

/// Whether the program that puts 1 is accepted for the desk, whose tag is fresh.
fn writes<L: Desks, R: Wait + Abort>(
    rt: &R,
    alloc: Global,
    node: &Node<Memory, L>,
    desk: &mut Desk<L>,
) -> Result<bool, WriteFault> {
    let program = put(rt, 1).rest(alloc)?;
    let answer = node.write(
        rt,
        alloc,
        desk,
        next_tag(rt, node),
        &Vector::zero(),
        &program,
    )?;
    Ok(matches!(answer, Written::New(_)))
}

/// What becomes of a program that is tried once, where its Write is held then; one in doubt is settled by a reopening.
fn writes_once<L: Desks, R: Wait + Abort>(
    rt: &R,
    alloc: Global,
    node: &Node<Memory, L>,
    desk: &mut Desk<L>,
) -> Option<Made> {
    match writes(rt, alloc, node, desk) {
        Ok(true) => Some(Made {
            accepted: 1,
            adopted: 0,
        }),
        Err(WriteFault::Journal) if adopts(rt, alloc, node)? => Some(Made {
            accepted: 0,
            adopted: 1,
        }),
        Ok(false) | Err(_) => None,
    }
}

/// What becomes of a program that is tried until its Write is held: memory may be refused in one try, and the device's one failing call
/// fall into the next.
fn writes_at_last<L: Desks, R: Wait + Abort>(
    rt: &R,
    alloc: Global,
    node: &Node<Memory, L>,
    desk: &mut Desk<L>,
) -> Option<Made> {
    for _ in 0..2 {
        let made = writes_once(rt, alloc, node, desk);
        if made.is_some() {
            return made;
        }
    }
    writes_once(rt, alloc, node, desk)
}

/// The second server's first Write, which held nothing.
fn foreign(rt: &impl Abort) -> Write {
    values::write((1, 1, 1), [0, 0], put(rt, 9)).expect(rt, "no Write")
}

fn takes<L: Desks, R: Wait + Abort>(
    rt: &R,
    alloc: Global,
    node: &Node<Memory, L>,
) -> Result<Took, TakeFault> {
    node.take(rt, alloc, foreign(rt).rest(alloc)?)
}

/// Whether the second server's Write is taken, tried again where that was refused; one in doubt is settled first.
fn takes_at_last<L: Desks, R: Wait + Abort>(rt: &R, alloc: Global, node: &Node<Memory, L>) -> bool {
    match takes(rt, alloc, node) {
        Ok(took) => took == Took::New,
        Err(TakeFault::Journal) => {
            adopts(rt, alloc, node).is_some() && takes(rt, alloc, node).is_ok()
        }
        Err(_) => takes(rt, alloc, node) == Ok(Took::New),
    }
}

/// How many Writes the node lists, dumps, and sends to a server that holds nothing.
fn told<L: Desks, R: Wait>(rt: &R, alloc: Global, node: &Node<Memory, L>) -> Option<[usize; 3]> {
    let listed = node.listing(rt, alloc).ok()?.len();
    let dumped = node.dump(rt, alloc).ok()?.len();
    let sent = node.lacking(rt, alloc, &Vector::zero(), 100).ok()?.len();
    Some([listed, dumped, sent])
}

/// What becomes of three programs, one after another.
fn writes_three<L: Desks, R: Wait + Abort>(
    rt: &R,
    alloc: Global,
    site: &mut Site<Memory, L>,
) -> Option<Made> {
    let (node, desk) = (&site.node, site.desks.first_mut()?);
    let mut made = Made {
        accepted: 0,
        adopted: 0,
    };
    for _ in 0..3 {
        let one = writes_at_last(rt, alloc, node, desk)?;
        made.accepted = made.accepted.saturating_add(one.accepted);
        made.adopted = made.adopted.saturating_add(one.adopted);
    }
    Some(made)
}

/// What becomes of them at a node, where the second server's Write is taken then, and all are reported.
fn goes<L: Desks, R: Wait + Abort>(
    rt: &R,
    alloc: Global,
    site: &mut Site<Memory, L>,
) -> Option<Made> {
    let made = writes_three(rt, alloc, site)?;
    let node = &site.node;
    let is_taken = takes_at_last(rt, alloc, node);
    let are_told = told(rt, alloc, node) == Some([4; 3]) || told(rt, alloc, node) == Some([4; 3]);
    if is_taken && are_told {
        Some(made)
    } else {
        None
    }
}

fn is_as_made(rt: &impl Abort, settled: NodeSettled, made: Made) -> bool {
    settled
        == NodeSettled {
            accepted: made.accepted,
            adopted: made.adopted,
            vector: vector(rt, 3, 1),
        }
}

/// Whether the node goes so, and comes to what was made.
fn comes_to_all<L: Desks, R: Wait + Abort>(
    rt: &R,
    alloc: Global,
    mut site: Box<Site<Memory, L>>,
) -> bool {
    let made = goes(rt, alloc, site.as_mut());
    let Site { node, desks } = Box::into_inner(site);
    match (settled(node, desks), made) {
        (Some(settled), Some(made)) => is_as_made(rt, settled, made),
        _ => false,
    }
}

/// Whether a new node goes so, and comes to what was made; or the server, where there was no memory for its desk.
fn goes_of<L: Desks, R: Wait + Abort>(
    rt: &R,
    alloc: Global,
    blank: Blank,
    server: Box<Served>,
) -> Result<bool, Box<Served>>
    requires blank { IsBlankOf blank L.name L.parts 1 }
    requires whose { begun_of server.value.core ≡ L.begun }
{
    match Node::<_, L>::new(alloc, blank, Box::into_inner(server), 1) {
        Ok((node, desks)) => {
            let site = boxed(rt, alloc, Site { node, desks });
            Ok(comes_to_all(rt, alloc, site))
        }
        Err(left) => Err(boxed(rt, alloc, left.server)),
    }
}

/// Once more, with the server that came back.
fn goes_again<R: Wait + Abort>(rt: &R, alloc: Global, server: Box<Served>) -> bool {
    match goes_of::<Brand, R>(rt, alloc, Blank::new(1), server) {
        Ok(is_so) => is_so,
        Err(_) => false,
    }
}

/// For runs in which any one allocation is refused: what was acknowledged is kept and counted, and what was refused can be done again.
/// The second program's Write is added and not synced where all memory is given.
#[test]
fn one_want_of_memory_costs_a_node_nothing(rt: HostRuntime) {
    let alloc = rt.alloc();
    let mut server = begun_at_last(&rt, alloc, (0, 2, 1000));
    fuse(server.as_mut(), 4, 0);
    let is_so = match goes_of::<Brand, HostRuntime>(&rt, alloc, Blank::new(1), server) {
        Ok(is_so) => is_so,
        Err(server) => goes_again(&rt, alloc, server),
    };
    assert!(rt; is_so);
}
