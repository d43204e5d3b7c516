//! What keeps a server going: its journal is opened again after a fault of the device, and lines report when it fills up, and that it lost Writes of
//! its own.
ghost use Rattle.std.specs.Prelude.{◌≡◌, ◌-◌, ℕ, if◌then◌else◌, max, nat_eq, sum};
ghost use Rattle.bayou_base.specs.declared.limits.TheConstants.{LOOK_SECONDS, LOST_SECONDS};
ghost use Rattle.bayou_lang.specs.Writes.{count_of};
ghost use Rattle.bayou_node.specs.Answers.{InSome};
ghost use Rattle.bayou_serve.specs.Fullness.{IsFullness};

use crate::filling::Filling;
use crate::hall::ServiceHall;
use crate::lines::{holds_line, reopened_line};
use crate::marking::{ServerMark, UNMARKED};
use crate::peers::{TICKS_PER_SECOND, rest_until_open, tick};
use crate::reminding::Reminder;
use crate::teller::Teller;
use bayou_base::Vector;
use bayou_base::limits::LOOK_SECONDS;
use bayou_device::Device;
use bayou_node::{Desks, Node};
use std::alloc::Global;
use std::io::Write;
use std::sync::Wait;
use std::time::Clock;

// How many Writes are counted.
fn sum_of(vector: &Vector) -> u32
    ensures { result ≡ sum vector.now }
{
    let mut sum: u32 = 0;
    for count in vector.counts() {
        sum += *count;
    }
    sum
}

// Tells how full the server is, where that is more than what was reported.
fn tell_fullness<D: Device, L: Desks, E: Write, T: Wait>(
    rt: &T,
    alloc: Global,
    node: &Node<D, L>,
    limit: u32,
    filling: &mut Filling,
    teller: &Teller<E>,
)
    ensures { InSome L.begun (λ core. (full : ℕ) × IsFullness (sum (count_of core.held)) limit full × (filling.new.told ≡ max filling.old.told full)) }
{
    let held = sum_of(&node.offer(rt));
    if filling.step_to_tell(held, limit).is_some() {
        teller.tell_made(rt, holds_line(alloc, held, limit));
    }
}

// Marks that the server lost Writes of its own, and tells it, where that is due.
fn tell_loss<M: Device, E: Write, T: Wait>(
    rt: &T,
    mark: &ServerMark<M>,
    reminder: &mut Reminder,
    teller: &Teller<E>,
)
    ensures { reminder.new.left ≡ (if nat_eq reminder.old.left 0 then LOST_SECONDS else reminder.old.left) - LOOK_SECONDS }
{
    let is_marked = mark.make(rt);
    if !reminder.look() {
        return;
    }
    teller.tell(
        rt,
        "bayou: lost Writes of its own; no Write is taken until --restore\n",
    );
    if !is_marked {
        teller.tell(rt, UNMARKED);
    }
}

// Rests until the next look, or until the server ends, or it is known that it lost Writes of its own, where it wasn't before.
fn rest_until_look<T: Clock>(rt: &T, hall: &ServiceHall, has_lost: bool) {
    for _ in 0..u64::from(LOOK_SECONDS) * TICKS_PER_SECOND {
        if hall.is_over() || (hall.has_lost() && !has_lost) {
            return;
        }
        tick(rt);
    }
}

/// Once Writes may be made, opens the journal again, where a fault of the device took the server down and its file hasn't strayed, and tells when the
/// server fills up, and that it lost Writes of its own, until it ends. [`Filling`] says which step is reported, and [`Reminder`] when a loss is reported
/// again. No clause can say that it is, nor that a journal is opened again.
pub(crate) fn keep_up<D: Device, L: Desks, M: Device, E: Write, T: Wait + Clock>(
    rt: &T,
    alloc: Global,
    node: &Node<D, L>,
    limit: u32,
    hall: &ServiceHall,
    mark: &ServerMark<M>,
    teller: &Teller<E>,
) {
    rest_until_open(rt, hall);
    let mut filling = Filling::new();
    let mut reminder = Reminder::new();
    for _ in rt.forever() {
        if hall.is_over() {
            return;
        }
        // A server that is up says so, which is no news.
        if !hall.has_strayed()
            && let Ok(reopened) = node.reopen(rt, alloc)
        {
            teller.tell_made(rt, reopened_line(alloc, reopened.adopted));
        }
        tell_fullness(rt, alloc, node, limit, &mut filling, teller);
        let has_lost = hall.has_lost();
        if has_lost {
            tell_loss(rt, mark, &mut reminder, teller);
        }
        rest_until_look(rt, hall, has_lost);
    }
}
