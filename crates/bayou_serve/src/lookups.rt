//! What is asked beside one key over a connection, before any other request: rows of the database, and what became of a Write.
ghost use Rattle.std.specs.Prelude.{◌≡◌, true};
ghost use Rattle.bayou_serve.specs.Greeting.{MayAsk};
ghost use Rattle.bayou_serve.specs.Lookups.{AnsweredOver};

use crate::hall::ServiceHall;
use crate::reception::{Admission, FrameFront, channel_over, front_in_time};
use crate::rooms::RoomPlace;
use crate::waiting::Most;
use bayou_device::Device;
use bayou_frames::send;
use bayou_handshake::read_greeting;
use bayou_net::{is_lookup, lookup_reply};
use bayou_node::{Desks, Node};
use std::alloc::Global;
use std::io::{Read, Write};
use std::net::TcpStream;
use std::sync::Wait;
use std::time::Clock;

/// What comes once nothing is asked any more beside one key.
#[derive(Clone, Copy, Debug, PartialEq, Eq)]
pub(crate) enum NextLookup {
    /// Another request.
    Request,
    /// Nothing: the other end went away, or was waited for in vain.
    Nothing,
    /// What isn't answered.
    Unanswered,
}

// Answers what is asked beside one key over these streams, whose waits end by `WouldBlock`, of who may ask: whether it was answered.
fn answer_over<D: Device, L: Desks, C: Clock, R: Read + Drop, W: Write + Drop, T: Wait>(
    rt: &T,
    alloc: Global,
    node: &Node<D, L>,
    admission: &Admission<'_>,
    hall: &ServiceHall,
    clock: &C,
    place: &RoomPlace,
    reader: R,
    writer: W,
) -> bool
    // At a store that has a key the node is reached by who proved to have it alone.
    ensures admitted { MayAsk admission.now.own.now admission.now.let_in }
    ensures answered { result ≡ true → AnsweredOver L.begun (R.remaining reader) (W.contents writer) }
{
    let _ = admission;
    let mut channel = channel_over(hall, clock, place, reader, writer);
    let Ok(Some(asked)) = read_greeting(&mut channel) else {
        return false;
    };
    let Some(text) = lookup_reply(rt, alloc, node, &asked) else {
        return false;
    };
    send(&mut channel, &text).is_ok()
}

/// Answers what is asked beside one key over the connection, of who may ask, as long as that comes: what comes then.
pub(crate) fn answer_lookups<D: Device, L: Desks, C: Clock, T: Wait>(
    rt: &T,
    alloc: Global,
    node: &Node<D, L>,
    admission: &Admission<'_>,
    hall: &ServiceHall,
    clock: &C,
    place: &RoomPlace,
    stream: &TcpStream,
) -> NextLookup {
    for _ in rt.forever() {
        let most = Most::Placed(hall.idle_milliseconds(), place);
        match front_in_time(clock, hall, &place.since, most, stream) {
            Some(FrameFront::Kind(kind)) if is_lookup(kind) => {
                if !answer_over(
                    rt, alloc, node, admission, hall, clock, place, stream, stream,
                ) {
                    return NextLookup::Unanswered;
                }
            }
            Some(_) => return NextLookup::Request,
            None => return NextLookup::Nothing,
        }
    }
    NextLookup::Nothing
}
