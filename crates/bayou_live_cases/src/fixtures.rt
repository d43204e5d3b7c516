//! What the tests are made of.
ghost use Rattle.std.specs.Prelude.{◌≡◌};
ghost use Rattle.bayou_node.specs.Books.{IsBlankOf, begun_of};

use bayou_base::{Key, MAX_WRITES, SERVERS, ServerId, Tag, Vector};
use bayou_device::{Device, Gate, MemoryDevice, OpenGate};
use bayou_fakes::sites::{Memory, Served, Site};
use bayou_fakes::{items, values, words};
use bayou_lang::{Program, RestingProgram, RestingWrite};
use bayou_node::{Desk, Desks, Node};
use bayou_server::{Server, WriteFault, Written};
use std::alloc::Global;
use std::process::Abort;
use std::sync::Wait;
use std::sync::ledger::Blank;

/// Stops the test where it isn't so, and says at which number: the one assert of all loops over numbers, since each costs.
pub fn must_be_so(rt: &impl Abort, is_so: bool, number: usize) {
    assert!(rt; is_so, "not so at {number}");
}

/// The same at a step of a row.
pub fn must_go_so(rt: &impl Abort, is_so: bool, (row, step): (usize, usize)) {
    assert!(rt; is_so, "not so in row {row}, at step {step}");
}

/// Stops the test where it isn't so, and says in which row.
pub fn must_hold(rt: &impl Abort, is_so: bool, row: &str) {
    assert!(rt; is_so, "not so in the row: {row}");
}

/// The first server.
pub fn server_id(rt: &impl Abort) -> ServerId
    ensures { result.index ≡ 0 }
{
    ServerId::new(0).expect(rt, "no server")
}

/// The key `a`.
pub fn key(rt: &impl Abort) -> Key {
    Key::new("a").expect(rt, "no key")
}

pub fn tag(rt: &impl Abort, number: u32) -> Tag {
    values::tag(number).expect(rt, "no tag")
}

/// The tag of the place after those of the node's own Writes: a fresh one, where these were given theirs so, and no other thread is at work.
pub fn next_tag<D: Device, L: Desks, R: Wait + Abort>(rt: &R, node: &Node<D, L>) -> Tag {
    tag(rt, node.offer(rt).get(node.id()).saturating_add(1))
}

/// So many Writes of the first two servers, and none of the others.
pub fn vector(rt: &impl Abort, first: u32, second: u32) -> Vector {
    values::vector(first, second).expect(rt, "no vector")
}

/// A program that puts the number at `a`.
pub fn put(rt: &impl Abort, number: i64) -> Program {
    values::put(number).expect(rt, "no program")
}

/// The same at rest.
pub fn resting_put(rt: &impl Abort, alloc: Global, number: i64) -> RestingProgram {
    values::resting(alloc, &put(rt, number)).expect(rt, "no memory for a program")
}

/// The bytes of the words.
pub fn bytes(rt: &impl Abort, alloc: Global, text: &str) -> Vec<u8> {
    words::bytes_of(alloc, text).expect(rt, "no bytes")
}

/// The value in a box of its own.
fn boxed<T: Drop>(rt: &impl Abort, alloc: Global, value: T) -> Box<T> {
    values::boxed(alloc, value).expect(rt, "no memory")
}

/// The server of this index, of so many, which may hold so many Writes, on the device.
pub fn on_device<G: Gate>(
    rt: &impl Abort,
    alloc: Global,
    (index, count, limit): (u8, u8, u32),
    device: MemoryDevice<G>,
) -> Box<Server<MemoryDevice<G>>> {
    let id = ServerId::new(index).expect(rt, "no server");
    let (count, limit) = (count.min(SERVERS as u8), limit.min(MAX_WRITES));
    if index >= count {
        rt.abort();
    }
    match Server::start(alloc, id, count, limit, device) {
        Ok((server, _)) => boxed(rt, alloc, server),
        Err(_) => rt.abort(),
    }
}

/// Such a server, which holds nothing, over memory that holds nobody.
pub fn begun(rt: &impl Abort, alloc: Global, size: (u8, u8, u32)) -> Box<Served> {
    on_device(rt, alloc, size, MemoryDevice::new(alloc, OpenGate))
}

/// A server of this index, which took so many Writes of the first one.
pub fn full(rt: &impl Abort, alloc: Global, index: u8, held: u8) -> Box<Served> {
    let mut server = begun(rt, alloc, (index, SERVERS as u8, 100));
    for seq in 1..held.min(99) + 1 {
        let write = items::write((0, seq, seq, [seq.saturating_sub(1), 0], seq));
        let write = write.expect(rt, "no Write").rest(alloc);
        let is_taken = server.take(alloc, write.expect(rt, "no memory")).is_ok();
        must_be_so(rt, is_taken, usize::from(seq));
    }
    server
}

/// A node with so many desks, in a box of its own: a function that owns a box is proved in a third of the time that one takes which owns the node.
pub fn opened<D: Device, L: Desks>(
    rt: &impl Abort,
    alloc: Global,
    blank: Blank,
    server: Box<Server<D>>,
    desks: u32,
) -> (Box<Node<D, L>>, Vec<Desk<L>>)
    requires blank { IsBlankOf blank L.name L.parts desks }
    requires whose { begun_of server.value.core ≡ L.begun }
{
    match Node::<_, L>::new(alloc, blank, Box::into_inner(server), desks) {
        Ok((node, desks)) => (boxed(rt, alloc, node), desks),
        Err(_) => rt.abort(),
    }
}

/// The server behind a lock, with so many desks.
pub fn new_site<D: Device, L: Desks>(
    rt: &impl Abort,
    alloc: Global,
    blank: Blank,
    server: Box<Server<D>>,
    desks: u32,
) -> Box<Site<D, L>>
    requires blank { IsBlankOf blank L.name L.parts desks }
    requires whose { begun_of server.value.core ≡ L.begun }
{
    match Node::new(alloc, blank, Box::into_inner(server), desks) {
        Ok((node, desks)) => boxed(rt, alloc, Site { node, desks }),
        Err(_) => rt.abort(),
    }
}

/// The seq of the Write that is accepted for the desk under this tag.
pub fn written<D: Device, L: Desks, R: Wait + Abort>(
    rt: &R,
    alloc: Global,
    node: &Node<D, L>,
    desk: &mut Desk<L>,
    tag: Tag,
    program: &Program,
) -> Result<u32, WriteFault> {
    let program = program.rest(alloc)?;
    match node.write(rt, alloc, desk, tag, &Vector::zero(), &program)? {
        Written::New(accepted) => Ok(accepted.wid.seq),
        Written::Known(_) => rt.abort(),
    }
}

/// What the node dumps.
pub fn dumped<L: Desks, R: Wait + Abort>(
    rt: &R,
    alloc: Global,
    node: &Node<Memory, L>,
) -> Vec<RestingWrite> {
    node.dump(rt, alloc).expect(rt, "no memory for Writes")
}
