//! The books of a node: what was accepted, what was adopted, and with what it began.
ghost use Rattle.std.specs.Prelude.{◌≡◌};
ghost use Rattle.bayou_node.specs.Books.{IsBlankOf, begun_of};

use crate::fixtures::{begun, dumped, key, new_site, next_tag, put, resting_put, vector, written};
use bayou_base::{Value, Vector};
use bayou_fakes::sites::{Memory, Served, Site, fuse, reopened, settled};
use bayou_fakes::values;
use bayou_lang::{Program, RestingWrite};
use bayou_node::{DeskMissing, Desks, Node, NodeSettled};
use bayou_server::{ReopenFault, WriteFault, Written};
use std::alloc::Global;
use std::marker::Brand;
use std::process::Abort;
use std::sync::Wait;
use std::sync::ledger::Blank;

/// The seq of the Write that is accepted for the desk of this number.
fn writes<L: Desks, R: Wait + Abort>(
    rt: &R,
    alloc: Global,
    site: &mut Site<Memory, L>,
    at: usize,
    program: &Program,
) -> Result<u32, WriteFault> {
    let desk = site.desks.get_mut(at).expect(rt, "no desk");
    let tag = next_tag(rt, &site.node);
    written(rt, alloc, &site.node, desk, tag, program)
}

/// What a node comes to with both desks, which isn't settled with one kept back.
fn settles<L: Desks>(rt: &impl Abort, site: Box<Site<Memory, L>>) -> NodeSettled {
    let Site { node, mut desks } = Box::into_inner(site);
    let desk = desks.pop().expect(rt, "no desk");
    let Err(left) = node.settle(desks) else {
        rt.abort();
    };
    let DeskMissing { node, mut desks } = left;
    let is_back = desks.push(desk).is_ok();
    assert!(rt; is_back);
    settled(node, desks).expect(rt, "not settled")
}

/// Whether the node reads what two programs make.
fn reads_two<L: Desks, R: Wait + Abort>(rt: &R, node: &Node<Memory, L>) -> bool {
    match node.read(rt, &vector(rt, 2, 0), &key(rt)) {
        Ok(seen) => seen.value == Some(Value::Num(2)) && seen.vector == vector(rt, 2, 0),
        Err(_) => false,
    }
}

/// Whether these are the programs of the Writes, in their order.
fn have_programs(writes: &[RestingWrite], programs: &[Program]) -> bool {
    let mut are_so = writes.len() == programs.len();
    for (at, write) in writes.iter().enumerate() {
        are_so &= match programs.get(at) {
            Some(program) => write.unfold().program == *program,
            None => false,
        };
    }
    are_so
}

/// Whether two programs, each for a desk of its own, are accepted, and read there.
fn takes_two<L: Desks, R: Wait + Abort>(rt: &R, alloc: Global, site: &mut Site<Memory, L>) -> bool {
    let programs = [put(rt, 1), values::plus(1).expect(rt, "no program")];
    let is_first = writes(rt, alloc, site, 0, &programs[0]) == Ok(1);
    let is_second = writes(rt, alloc, site, 1, &programs[1]) == Ok(2);
    let are_kept = have_programs(&dumped(rt, alloc, &site.node), &programs);
    is_first && is_second && are_kept && reads_two(rt, &site.node)
}

/// What two programs, each for a desk of its own, come to.
fn two_programs<L: Desks, R: Wait + Abort>(
    rt: &R,
    alloc: Global,
    blank: Blank,
    server: Box<Served>,
) -> bool
    requires blank { IsBlankOf blank L.name L.parts 2 }
    requires whose { begun_of server.value.core ≡ L.begun }
{
    let mut site = new_site::<_, L>(rt, alloc, blank, server, 2);
    let are_taken = takes_two(rt, alloc, site.as_mut());
    let is_settled = is_settled(rt, settles(rt, site), [2, 0], 2);
    are_taken && is_settled
}

/// Whether a node came to so many accepted and adopted Writes, and so many of the first server.
fn is_settled(rt: &impl Abort, settled: NodeSettled, counts: [u32; 2], held: u32) -> bool {
    let [accepted, adopted] = counts;
    let expected = NodeSettled {
        accepted,
        adopted,
        vector: vector(rt, held, 0),
    };
    settled == expected
}

#[test]
fn a_node_is_settled_once_all_desks_are_back(rt: HostRuntime) {
    let alloc = rt.alloc();
    let server = begun(&rt, alloc, (0, 2, 1000));
    let is_so = two_programs::<Brand, HostRuntime>(&rt, alloc, Blank::new(2), server);
    assert!(rt; is_so);
}

/// Whether a Write is in doubt, no other is made then, and a reopening adopts it. There is nothing to reopen before or after that.
fn doubts<L: Desks, R: Wait + Abort>(rt: &R, alloc: Global, site: &mut Site<Memory, L>) -> bool {
    let was_up = reopened(rt, alloc, &site.node) == Err(ReopenFault::NotDown);
    let is_doubted = writes(rt, alloc, site, 0, &put(rt, 3)) == Err(WriteFault::Journal);
    let is_down = writes(rt, alloc, site, 0, &put(rt, 3)) == Err(WriteFault::Down);
    let is_adopted = reopened(rt, alloc, &site.node) == Ok(Some(3));
    let is_up = reopened(rt, alloc, &site.node) == Err(ReopenFault::NotDown);
    was_up & is_doubted & is_down & is_adopted & is_up
}

/// Whether a second Write is accepted and a third one adopted, and both told of.
fn accepts_and_adopts<L: Desks, R: Wait + Abort>(
    rt: &R,
    alloc: Global,
    site: &mut Site<Memory, L>,
) -> bool {
    let is_next = writes(rt, alloc, site, 0, &put(rt, 2)) == Ok(2);
    let is_adopted = doubts(rt, alloc, site);
    let is_offered = site.node.offer(rt) == vector(rt, 3, 0);
    let listed = site.node.listing(rt, alloc);
    let are_listed = listed.expect(rt, "no memory for a list").len() == 3;
    is_next && is_adopted && is_offered && are_listed
}

/// What a server comes to that has made a Write as its node is made: a second one is accepted, and a third one adopted.
fn one_of_each<L: Desks, R: Wait + Abort>(
    rt: &R,
    alloc: Global,
    blank: Blank,
    server: Box<Served>,
) -> bool
    requires blank { IsBlankOf blank L.name L.parts 2 }
    requires whose { begun_of server.value.core ≡ L.begun }
{
    let mut site = new_site::<_, L>(rt, alloc, blank, server, 2);
    let are_told = accepts_and_adopts(rt, alloc, site.as_mut());
    let is_settled = is_settled(rt, settles(rt, site), [1, 1], 3);
    are_told && is_settled
}

/// Whether the server makes a Write of its own. The second Write's two calls succeed then; the third one's entry is added, and not synced.
fn puts(rt: &impl Abort, alloc: Global, server: &mut Served) -> bool {
    let program = resting_put(rt, alloc, 1);
    let tag = values::tag_behind(server.receipts().len()).expect(rt, "no tag");
    let answer = server.write(alloc, tag, &Vector::zero(), &program);
    fuse(server, 4, 0);
    matches!(answer, Ok(Written::New(_)))
}

#[test]
fn what_is_adopted_is_told_beside_what_was_accepted(rt: HostRuntime) {
    let alloc = rt.alloc();
    let mut server = begun(&rt, alloc, (0, 2, 1000));
    let was_put = puts(&rt, alloc, server.as_mut());
    let is_so = one_of_each::<Brand, HostRuntime>(&rt, alloc, Blank::new(2), server);
    assert!(rt; was_put && is_so);
}
