//! What one thread does at three nodes.
use crate::fixtures::{key, put, written};
use crate::meetings::meets;
use bayou_base::{SessionId, Tag};
use bayou_fakes::dice::Dice;
use bayou_fakes::sites::{Memory, reopened};
use bayou_node::{Desk, Desks, Node};
use bayou_server::{ReopenFault, WriteFault};
use std::alloc::Global;
use std::process::Abort;
use std::sync::Wait;

/// How many operations each of the eight threads does.
const OPERATIONS: u32 = 1250;

/// Three nodes, as each thread has them.
#[derive(Drop)]
pub struct Three<'a, L: Desks, M: Desks, N: Desks> {
    pub first: &'a Node<Memory, L>,
    pub second: &'a Node<Memory, M>,
    pub third: &'a Node<Memory, N>,
}

/// A thread's desks, one at each node, and what it saw.
#[derive(Drop)]
pub struct Hand<L: Desks, M: Desks, N: Desks> {
    pub first: Desk<L>,
    pub second: Desk<M>,
    pub third: Desk<N>,
    /// The session in whose name the thread asks: each has its own.
    pub session: SessionId,
    /// How many programs were accepted for each.
    pub accepted: [u32; 3],
    /// How many operations were done.
    pub done: u32,
    /// Whether each answer was one that may come.
    pub is_so: bool,
    pub dice: Dice,
}

/// A read whose need is what the thread just saw there: it is served, and has seen no less.
fn reads<L: Desks, R: Wait + Abort>(rt: &R, node: &Node<Memory, L>) -> bool {
    let need = node.offer(rt);
    match node.read(rt, &need, &key(rt)) {
        Ok(seen) => seen.vector.dominates(&need),
        Err(_) => false,
    }
}

/// Nothing, where the program is accepted; else whether a refusal is one that may come.
fn writes<L: Desks, R: Wait + Abort>(
    rt: &R,
    alloc: Global,
    node: &Node<Memory, L>,
    desk: &mut Desk<L>,
    (tag, number): (Tag, u32),
) -> Option<bool> {
    match written(rt, alloc, node, desk, tag, &put(rt, i64::from(number))) {
        Ok(_) => None,
        Err(fault) => Some(fault == WriteFault::Down || fault == WriteFault::Journal),
    }
}

/// Whether a reopening is answered as it may be.
pub fn reopens<L: Desks, R: Wait>(rt: &R, alloc: Global, node: &Node<Memory, L>) -> bool {
    match reopened(rt, alloc, node) {
        Ok(_) => true,
        Err(fault) => fault == ReopenFault::NotDown,
    }
}

/// An operation at a node beside another one, by its number. Whether it may go so, and whether a program was accepted.
fn works_at<L: Desks, M: Desks, R: Wait + Abort>(
    rt: &R,
    alloc: Global,
    (node, beside): (&Node<Memory, L>, &Node<Memory, M>),
    desk: &mut Desk<L>,
    (tag, number): (Tag, u32),
) -> (bool, u32) {
    match number % 8 {
        0 | 1 | 2 => (reads(rt, node), 0),
        3 | 4 => match writes(rt, alloc, node, desk, (tag, number)) {
            None => (true, 1),
            Some(may_be) => (may_be, 0),
        },
        5 | 6 => (meets(rt, alloc, node, beside), 0),
        _ => (reopens(rt, alloc, node), 0),
    }
}

/// An operation at one of the three, by its number.
fn works_once<L: Desks, M: Desks, N: Desks, R: Wait + Abort>(
    rt: &R,
    alloc: Global,
    three: &Three<'_, L, M, N>,
    hand: &mut Hand<L, M, N>,
    number: u32,
) {
    let Three {
        first,
        second,
        third,
    } = three;
    let at = (number % 3) as usize;
    let tag = Tag::new(hand.session, 1, hand.done.saturating_add(1)).expect(rt, "no tag");
    let which = (tag, number / 3);
    let (is_so, accepted) = match at {
        0 => works_at(rt, alloc, (first, second), &mut hand.first, which),
        1 => works_at(rt, alloc, (second, third), &mut hand.second, which),
        _ => works_at(rt, alloc, (third, first), &mut hand.third, which),
    };
    hand.is_so &= is_so;
    hand.done = hand.done.saturating_add(1);
    hand.accepted[at] = hand.accepted[at].saturating_add(accepted);
}

/// All operations of a thread.
pub fn works<L: Desks, M: Desks, N: Desks, R: Wait + Abort>(
    rt: &R,
    alloc: Global,
    three: &Three<'_, L, M, N>,
    hand: Hand<L, M, N>,
) -> Hand<L, M, N> {
    let mut hand = hand;
    for _ in 0..OPERATIONS {
        let number = hand.dice.below(1 << 15);
        works_once(rt, alloc, three, &mut hand, number);
    }
    hand
}
