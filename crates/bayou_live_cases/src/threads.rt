//! Eight threads at three nodes.
ghost use Rattle.std.specs.Prelude.{◌≡◌};
ghost use Rattle.bayou_node.specs.Books.{IsBlankOf, begun_of};

use crate::fixtures;
use crate::fixtures::new_site;
use crate::hands::{Hand, Three, reopens, works};
use crate::meetings::meets;
use bayou_base::{ServerId, SessionId};
use bayou_fakes::dice::Dice;
use bayou_fakes::sites::{Memory, Served, Site, fuse, settled};
use bayou_node::{Desk, Desks, Node, NodeSettled};
use std::alloc::Global;
use std::marker::Brand;
use std::process::Abort;
use std::sync::Wait;
use std::sync::ledger::Blank;
use std::thread;
use std::thread::Threads;

/// How many threads there are.
const THREADS: u32 = 8;

/// The desks of the threads at one node.
type Row<L> = Vec<Desk<L>>;

/// One server of three. Its device fails at this call.
fn begun(rt: &impl Abort, alloc: Global, index: u8, fails_at: u32) -> Box<Served> {
    let mut server = fixtures::begun(rt, alloc, (index, 3, 60_000));
    fuse(server.as_mut(), fails_at, 40);
    server
}

/// The next desk of a row.
fn next<L: Desks>(rt: &impl Abort, row: &mut Row<L>) -> Desk<L> {
    row.pop().expect(rt, "no desk")
}

/// A hand with the next desk of each row.
fn next_hand<L: Desks, M: Desks, N: Desks>(
    rt: &impl Abort,
    firsts: &mut Row<L>,
    seconds: &mut Row<M>,
    thirds: &mut Row<N>,
    state: u32,
) -> Hand<L, M, N> {
    Hand {
        first: next(rt, firsts),
        second: next(rt, seconds),
        third: next(rt, thirds),
        session: SessionId::new((state % 32) as u8).expect(rt, "no session"),
        accepted: [0; 3],
        done: 0,
        is_so: true,
        dice: Dice {
            state: u64::from(state),
        },
    }
}

/// A hand for each thread.
fn hands<L: Desks, M: Desks, N: Desks>(
    rt: &impl Abort,
    alloc: Global,
    firsts: &mut Row<L>,
    seconds: &mut Row<M>,
    thirds: &mut Row<N>,
) -> Vec<Hand<L, M, N>> {
    let mut hands = Vec::new(alloc);
    for state in 0..THREADS {
        let hand = next_hand(rt, firsts, seconds, thirds, state);
        hands.push(hand).expect(rt, "no memory for a hand");
    }
    hands
}

/// What the threads say in the end.
#[derive(Clone, Copy)]
struct Sums {
    accepted: [u32; 3],
    done: u32,
    is_so: bool,
}

impl Sums {
    fn add(&mut self, accepted: [u32; 3], done: u32, is_so: bool) {
        self.done = self.done.saturating_add(done);
        self.is_so &= is_so;
        let ([first, second, third], [one, two, three]) = (self.accepted, accepted);
        self.accepted = [
            first.saturating_add(one),
            second.saturating_add(two),
            third.saturating_add(three),
        ];
    }
}

/// Whether the desk is put back in its row.
fn put_back<L: Desks>(row: &mut Row<L>, desk: Desk<L>) -> bool {
    row.push(desk).is_ok()
}

/// The desks of the hands are put back, each in its row. What the threads say.
fn laid_down<L: Desks, M: Desks, N: Desks>(
    hands: Vec<Hand<L, M, N>>,
    firsts: &mut Row<L>,
    seconds: &mut Row<M>,
    thirds: &mut Row<N>,
) -> Sums {
    let mut sums = Sums {
        accepted: [0; 3],
        done: 0,
        is_so: true,
    };
    for hand in hands {
        sums.add(hand.accepted, hand.done, hand.is_so);
        sums.is_so &= put_back(firsts, hand.first);
        sums.is_so &= put_back(seconds, hand.second);
        sums.is_so &= put_back(thirds, hand.third);
    }
    sums
}

/// Whether all three are up, and hold the same, once each has met the others.
fn come_together<L: Desks, M: Desks, N: Desks, R: Wait + Abort>(
    rt: &R,
    alloc: Global,
    three: &Three<'_, L, M, N>,
) -> bool {
    let are_up = reopens(rt, alloc, three.first)
        & reopens(rt, alloc, three.second)
        & reopens(rt, alloc, three.third);
    let have_met = meets(rt, alloc, three.first, three.second)
        & meets(rt, alloc, three.first, three.third)
        & meets(rt, alloc, three.second, three.first)
        & meets(rt, alloc, three.third, three.first);
    are_up & have_met & hold_the_same(rt, alloc, three)
}

/// Whether the two list the same Writes, with the same outcomes.
fn list_the_same<L: Desks, M: Desks, R: Wait + Abort>(
    rt: &R,
    alloc: Global,
    one: &Node<Memory, L>,
    other: &Node<Memory, M>,
) -> bool {
    let one = one.listing(rt, alloc).expect(rt, "no memory for a list");
    let other = other.listing(rt, alloc).expect(rt, "no memory for a list");
    one.as_slice() == other.as_slice()
}

/// Whether the three list the same Writes, with the same outcomes.
fn hold_the_same<L: Desks, M: Desks, N: Desks, R: Wait + Abort>(
    rt: &R,
    alloc: Global,
    three: &Three<'_, L, M, N>,
) -> bool {
    list_the_same(rt, alloc, three.first, three.second)
        && list_the_same(rt, alloc, three.second, three.third)
}

/// Whether what a node comes to is what the threads counted, and all of its own Writes.
fn adds_up(settled: &NodeSettled, accepted: u32, own: u32) -> bool {
    settled.accepted == accepted && own == settled.accepted.saturating_add(settled.adopted)
}

/// How many Writes of this server are held.
fn count_at(rt: &impl Abort, settled: &NodeSettled, index: u8) -> u32 {
    settled
        .vector
        .get(ServerId::new(index % 3).expect(rt, "no server"))
}

/// Whether the three hold the same, each with what the threads counted.
fn are_exact(rt: &impl Abort, settled: [Option<NodeSettled>; 3], accepted: [u32; 3]) -> bool {
    let [Some(first), Some(second), Some(third)] = settled else {
        return false;
    };
    first.vector == second.vector
        && second.vector == third.vector
        && adds_up(&first, accepted[0], count_at(rt, &first, 0))
        && adds_up(&second, accepted[1], count_at(rt, &second, 1))
        && adds_up(&third, accepted[2], count_at(rt, &third, 2))
}

/// What eight threads at three nodes say, and whether the nodes come together then.
fn work<L, M, N, R>(
    rt: &R,
    alloc: Global,
    first: &mut Site<Memory, L>,
    second: &mut Site<Memory, M>,
    third: &mut Site<Memory, N>,
) -> Sums
where
    L: Desks + Send + Sync,
    M: Desks + Send + Sync,
    N: Desks + Send + Sync,
    R: Threads + Wait + Abort + Sync,
{
    let hands = hands(
        rt,
        alloc,
        &mut first.desks,
        &mut second.desks,
        &mut third.desks,
    );
    let three = &Three {
        first: &first.node,
        second: &second.node,
        third: &third.node,
    };
    let done = thread::map_vec(rt, hands, &|hand| works(rt, alloc, three, hand));
    let done = done.expect(rt, "no memory for what was done");
    let are_one = come_together(rt, alloc, three);
    let mut sums = laid_down(done, &mut first.desks, &mut second.desks, &mut third.desks);
    sums.is_so &= are_one;
    sums
}

/// What a node comes to, all of whose desks are back.
fn come_to<L: Desks>(site: Box<Site<Memory, L>>) -> Option<NodeSettled> {
    let Site { node, desks } = Box::into_inner(site);
    settled(node, desks)
}

/// What eight threads at three new nodes come to.
fn work_together<L, M, N, R>(
    rt: &R,
    alloc: Global,
    blanks: (Blank, Blank, Blank),
    servers: (Box<Served>, Box<Served>, Box<Served>),
) -> bool
where
    L: Desks + Send + Sync,
    M: Desks + Send + Sync,
    N: Desks + Send + Sync,
    R: Threads + Wait + Abort + Sync,
    requires first { IsBlankOf blanks.0 L.name L.parts THREADS × (begun_of servers.0.value.core ≡ L.begun) }
    requires second { IsBlankOf blanks.1 M.name M.parts THREADS × (begun_of servers.1.value.core ≡ M.begun) }
    requires third { IsBlankOf blanks.2 N.name N.parts THREADS × (begun_of servers.2.value.core ≡ N.begun) }
{
    let mut first = new_site::<_, L>(rt, alloc, blanks.0, servers.0, THREADS);
    let mut second = new_site::<_, M>(rt, alloc, blanks.1, servers.1, THREADS);
    let mut third = new_site::<_, N>(rt, alloc, blanks.2, servers.2, THREADS);
    let sums = work(rt, alloc, first.as_mut(), second.as_mut(), third.as_mut());
    let settled = [come_to(first), come_to(second), come_to(third)];
    let add_up = are_exact(rt, settled, sums.accepted);
    sums.done == 10_000 && sums.is_so && add_up
}

#[test]
fn eight_threads_at_three_nodes_keep_exact_books(rt: HostRuntime) {
    let alloc = rt.alloc();
    let servers = (
        begun(&rt, alloc, 0, 100),
        begun(&rt, alloc, 1, 201),
        begun(&rt, alloc, 2, 302),
    );
    let blanks = (
        Blank::new(u64::from(THREADS)),
        Blank::new(u64::from(THREADS)),
        Blank::new(u64::from(THREADS)),
    );
    let is_so = work_together::<Brand, Brand, Brand, HostRuntime>(&rt, alloc, blanks, servers);
    assert!(rt; is_so);
}
