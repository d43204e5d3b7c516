//! One server after another is asked, until one of them serves it, or may have done it.
ghost use Rattle.std.specs.Prelude.{◌≡◌, ◌<◌, ℕ, IfOk, cond, filter, not};
ghost use Rattle.bayou_connect.specs.Round.{AsksInRounds, AsksInTurn, after_refusal, but_last, is_last, may_ask_another, turns};
ghost use Rattle.bayou_connect.specs.declared.told.ServerTold.{ServerTold as Answer};
ghost use Rattle.bayou_connect.specs.declared.told.ServerTold.TheVariants.{Away};

use crate::told::ServerTold;
use bayou_base::Refusal;
use bayou_base::limits::ROUND_MILLISECONDS;
use std::alloc::{AllocError, Global};
use std::sync::Wait;
use std::thread;
use std::time::{Clock, Duration};

/// How often it goes round in a second.
pub const ROUNDS_PER_SECOND: u64 = 1_000 / ROUND_MILLISECONDS;

/// Servers that may be asked the same, which is a `Q`.
pub trait Ways<Q> {
    type Fault: Drop;

    /// Whether asking the server of this number, from 0 on, may leave this and get this answer.
    ghost asks: { Q → Self → ℕ → Self → Answer → Type 0 };

    /// Asks the server of this number.
    fn ask(&mut self, what: &Q, at: usize) -> Result<ServerTold, Self::Fault>
        ensures { IfOk result (λ told. asks what.now self.old at self.new told) };
}

/// Whether another server may be asked: this one wasn't reached, or it refused, or it was asked for a read, which changes nothing. A Write is in
/// doubt that was refused for a journal that failed, or whose reply was lost.
pub(crate) fn may_go_on(is_read: bool, told: &ServerTold) -> bool
    ensures { result ≡ may_ask_another is_read told.now }
{
    match told {
        ServerTold::Away => true,
        ServerTold::Refused(Refusal::Journal) | ServerTold::Lost => is_read,
        ServerTold::Refused(_) => true,
        ServerTold::Seen(_) | ServerTold::Rows(_) | ServerTold::Fate(_) | ServerTold::Accepted(_) =>
            false,
    }
}

// What is reported where no server after these serves it: the last refusal or lost reply, or that all were away.
fn newer(last: ServerTold, told: ServerTold) -> ServerTold
    ensures { result ≡ after_refusal last told }
{
    match told {
        ServerTold::Away => last,
        told => told,
    }
}

/// Asks each of these servers once at the most, in this order, up to the first after which no other may be asked: what that told. Where there
/// is none, the last refusal or lost reply is reported, or that all were away.
pub fn first_served<Q, W: Ways<Q>>(
    ways: &mut W,
    what: &Q,
    order: &[usize],
    is_read: bool,
) -> Result<ServerTold, W::Fault>
    ensures { IfOk result (λ told. AsksInTurn (W.asks what.now) is_read order.now Away ways.old ways.new told) }
{
    let mut last = ServerTold::Away;
    for at in order {
        let told = ways.ask(what, *at)?;
        if !may_go_on(is_read, &told) {
            return Ok(told);
        }
        last = newer(last, told);
    }
    Ok(last)
}

/// Asks these servers so, and again, each time after a rest, so many times at the most while another may be asked: what the last round told.
pub fn in_rounds<Q, W: Ways<Q>, T: Wait + Clock>(
    rt: &T,
    ways: &mut W,
    what: &Q,
    order: &[usize],
    is_read: bool,
    more: u64,
) -> Result<ServerTold, W::Fault>
    ensures { IfOk result (λ told. AsksInRounds (W.asks what.now) is_read order.now more ways.old ways.new told) }
{
    let mut told = first_served(ways, what, order, is_read)?;
    for _ in 0..more {
        if !may_go_on(is_read, &told) {
            return Ok(told);
        }
        thread::sleep(rt, Duration::from_millis(ROUND_MILLISECONDS));
        told = first_served(ways, what, order, is_read)?;
    }
    Ok(told)
}

/// So many servers, from this one on, and then those before it.
pub fn in_turn(alloc: Global, first: usize, count: usize) -> Result<Vec<usize>, AllocError>
    requires { first < count }
    ensures { IfOk result (λ order. order.items ≡ turns first count) }
{
    let mut order = Vec::with_capacity(alloc, count)?;
    for at in first..count {
        order.push(at)?;
    }
    for at in 0..first {
        order.push(at)?;
    }
    Ok(order)
}

// Those of these places that are last, or those that aren't.
fn those(
    alloc: Global,
    order: &[usize],
    last: &[bool],
    wanted: bool,
) -> Result<Vec<usize>, AllocError>
    ensures { IfOk result (λ found. found.items ≡ filter (λ at. cond wanted (is_last last.now at) (not (is_last last.now at))) order.now) }
{
    let mut found = Vec::with_capacity(alloc, order.len())?;
    for at in order {
        if is_last(last, *at) == wanted {
            found.push(*at)?;
        }
    }
    Ok(found)
}

// Whether the place is last.
fn is_last(last: &[bool], at: usize) -> bool
    ensures { result ≡ is_last last.now at }
{
    match last.get(at) {
        Some(is_last) => *is_last,
        None => false,
    }
}

/// These places in their order, but those that are last after all others.
pub fn but_last(alloc: Global, order: &[usize], last: &[bool]) -> Result<Vec<usize>, AllocError>
    ensures { IfOk result (λ found. found.items ≡ but_last last.now order.now) }
{
    let mut found = those(alloc, order, last, false)?;
    let behind = those(alloc, order, last, true)?;
    found.extend_from_slice(&behind)?;
    Ok(found)
}
