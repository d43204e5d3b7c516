//! Lost servers whose own Writes are made again: stores at random, and one by hand.
use crate::fixtures::must_be_so;
use crate::stores::{
    LIMIT, gathered, has_own_of, makes, restored, sent, start, takes, vector, wid,
};
use bayou_fakes::dice::Dice;
use bayou_fakes::sites::Served;
use std::alloc::Global;
use std::process::Abort;

/// How many stores at random.
const STORES: u64 = 30;

/// How many steps each of them takes.
const STEPS: u32 = 90;

/// Has the one server take some of what the other has and it lacks.
fn pull(rt: &impl Abort, alloc: Global, one: &mut Served, other: &Served, most: u32) {
    let writes = sent(rt, alloc, other, &one.vector(), most as usize);
    assert!(rt; takes(alloc, one, writes));
}

/// A step of the store: one of its servers makes a Write, or takes some of another's.
fn step(
    rt: &impl Abort,
    alloc: Global,
    dice: &mut Dice,
    first: &mut Served,
    second: &mut Served,
    third: &mut Served,
    number: u32,
) {
    let most = dice.below(6) + 1;
    match dice.below(12) {
        0 | 1 => must_be_so(rt, makes(rt, alloc, first, number), 0),
        2 | 3 => must_be_so(rt, makes(rt, alloc, second, number), 1),
        4 | 5 => must_be_so(rt, makes(rt, alloc, third, number), 2),
        6 => pull(rt, alloc, first, second, most),
        7 => pull(rt, alloc, first, third, most),
        8 => pull(rt, alloc, second, first, most),
        9 => pull(rt, alloc, second, third, most),
        10 => pull(rt, alloc, third, first, most),
        _ => pull(rt, alloc, third, second, most),
    }
}

/// Whether the lost server is restored from what the peer has of it: with the Writes of its own that it had, as far as the peer has them, and
/// nothing that the peer lacks, so that it takes the rest from the peer as ever, and then lists what that does.
fn is_restored(rt: &impl Abort, alloc: Global, lost: &Served, peer: &Served) -> bool {
    let id = lost.id();
    let mut server = start(rt, alloc, id.index);
    let told = restored(alloc, server.as_mut(), &gathered(rt, alloc, peer));
    let own = peer.vector().get(id);
    let is_own = told.is_ok() && has_own_of(rt, &server, lost, id, own);
    let rest = sent(rt, alloc, peer, &server.vector(), LIMIT as usize);
    let is_whole = takes(alloc, server.as_mut(), rest) && server.vector() == peer.vector();
    let (Ok(one), Ok(other)) = (server.listing(alloc), peer.listing(alloc)) else {
        return false;
    };
    is_own && is_whole && one.as_slice() == other.as_slice()
}

#[test]
fn a_lost_server_has_its_own_writes_again(rt: HostRuntime) {
    let alloc = rt.alloc();
    for seed in 0..STORES {
        let mut dice = Dice { state: seed };
        let mut first = start(&rt, alloc, 0);
        let mut second = start(&rt, alloc, 1);
        let mut third = start(&rt, alloc, 2);
        for number in 0..STEPS {
            step(
                &rt,
                alloc,
                &mut dice,
                first.as_mut(),
                second.as_mut(),
                third.as_mut(),
                number,
            );
        }
        let is_so = is_restored(&rt, alloc, &first, &second)
            && is_restored(&rt, alloc, &first, &third)
            && is_restored(&rt, alloc, &second, &first)
            && is_restored(&rt, alloc, &third, &second);
        must_be_so(&rt, is_so, seed as usize);
    }
}

/// Whether the server holds the Write with this clock, after these.
fn has_made(rt: &impl Abort, server: &Served, seq: u32, clock: u32, deps: [u32; 3]) -> bool {
    match server.find(wid(rt, 0, seq)) {
        Some(write) => write.stamp().clock == clock && *write.deps() == vector(rt, deps),
        None => false,
    }
}

/// By hand: the first server makes two Writes, and the second three, apart; the first takes the second's first two, which come before its own
/// last, and makes one more; then the third's, whose clock is far above, and makes its last.
#[test]
fn late_writes_stand_where_they_stood(rt: HostRuntime) {
    let alloc = rt.alloc();
    let mut first = start(&rt, alloc, 0);
    let mut second = start(&rt, alloc, 1);
    let mut third = start(&rt, alloc, 2);
    let mut is_so = true;
    for number in 0..3_u32 {
        is_so &= makes(&rt, alloc, second.as_mut(), number);
        is_so &= number == 0 || makes(&rt, alloc, first.as_mut(), number);
    }
    pull(&rt, alloc, first.as_mut(), &second, 2);
    is_so &= makes(&rt, alloc, first.as_mut(), 3);
    pull(&rt, alloc, third.as_mut(), &second, 9);
    for number in 4..8_u32 {
        is_so &= makes(&rt, alloc, third.as_mut(), number);
    }
    pull(&rt, alloc, first.as_mut(), &third, 9);
    is_so &= makes(&rt, alloc, first.as_mut(), 8);
    pull(&rt, alloc, third.as_mut(), &first, 9);
    let mut server = start(&rt, alloc, 0);
    is_so &= restored(alloc, server.as_mut(), &gathered(&rt, alloc, &third)).is_ok();
    is_so &= has_made(&rt, &server, 1, 1, [0, 0, 0])
        && has_made(&rt, &server, 2, 2, [1, 0, 0])
        && has_made(&rt, &server, 3, 3, [2, 2, 0])
        && has_made(&rt, &server, 4, 8, [3, 3, 4])
        && server.vector() == vector(&rt, [4, 3, 4]);
    is_so &= is_restored(&rt, alloc, &first, &third);
    must_be_so(&rt, is_so, 0);
}
