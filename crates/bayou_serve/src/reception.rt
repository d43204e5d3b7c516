//! How a connection is served for as long as there is patience with it.
ghost use Rattle.std.specs.Prelude.{◌≡◌, ◌≢◌, ◌↔◌, IfSome, IsSome, None, Some, false, slice_index, true};
ghost use Rattle.std.proofs.Props.{props};
ghost use Rattle.bayou_serve.specs.Greeting.{MayAsk};
ghost use Rattle.bayou_serve.specs.Receiving.{ServedOver, first_by};
ghost use Rattle.bayou_serve.specs.declared.lookups.NextLookup.TheVariants.{Request};
ghost use Rattle.bayou_serve.specs.declared.reception.FrameFront.TheVariants.{Kind, Short};

use crate::answering::answer_guest;
use crate::comparing::Comparison;
use crate::greeting::{LetIn, receive_guest};
use crate::hall::ServiceHall;
use crate::lookups::{NextLookup, answer_lookups};
use crate::peers::is_timed;
use crate::rooms::{RoomPlace, Rooms};
use crate::teller::Teller;
use crate::waiting::{Most, PatientInput, PatientOutput, PatientWait, Since};
use bayou_base::ServerId;
use bayou_base::limits::{LINGER_MILLISECONDS, MAX_WAITS, PAUSE_SECONDS, TICK_MILLISECONDS};
use bayou_device::Device;
use bayou_frames::ChannelFault;
use bayou_handshake::StoreServer;
use bayou_net::{Attendant, Host, NoGate, drop_rest, serve_with_leave};
use bayou_node::{Desk, Desks, Node};
use bayou_streams::{CountedChannel, Patience, Patient};
use bayou_wire::layout::{KIND_HELLO, KIND_OFFER};
use std::alloc::Global;
use std::io::{ErrorKind, Read, Write};
use std::net::{Shutdown, TcpStream};
use std::random::RandomSource;
use std::sync::Wait;
use std::thread;
use std::time::{Clock, Duration};

/// How many milliseconds the front of a frame has to come whole.
const FRONT_MILLISECONDS: u64 = 50;

/// A node whose connections are served with patience, each at a place of one of the rooms.
#[derive(Drop)]
pub(crate) struct Reception<'a, D, L: Desks, C, E> {
    pub(crate) node: &'a Node<D, L>,
    pub(crate) hall: &'a ServiceHall,
    pub(crate) rooms: &'a Rooms,
    pub(crate) clock: &'a C,
    pub(crate) teller: &'a Teller<E>,
    pub(crate) comparison: &'a Comparison,
    pub(crate) own: &'a StoreServer,
    /// How many Writes it may hold.
    pub(crate) limit: u32,
    /// Without whom its journal was last made again, if somebody was left out.
    pub(crate) without: Option<ServerId>,
}

/// That requests of a connection may reach the node: who asks greeted, was let in and learned what is held; or the store is open. Nothing is served
/// without one.
#[derive(Drop)]
pub(crate) struct Admission<'a> {
    pub(crate) own: &'a StoreServer,
    pub(crate) let_in: Option<LetIn>,
    /// Whether it is a peer that asks.
    pub(crate) is_peer: bool,
    ghost may_ask: { MayAsk own.now let_in } by { Prim.hlevel props },
}

/// A connection that was served: the desk, and whether it ended since a stream failed, or was waited for in vain.
#[derive(Drop)]
struct Received<L: Desks> {
    desk: Desk<L>,
    is_silent: bool,
}

/// What is heard and told by the streams of a connection that has a place.
pub(crate) type PlacedChannel<'a, R, W, C> = CountedChannel<
    Patient<PatientInput<'a, R, C>, PatientWait<'a, C>>,
    PatientOutput<'a, W, PatientWait<'a, C>, C>,
>;

/// The channel over these streams, whose waits end by `WouldBlock`: both are waited for as long as the place is kept.
pub(crate) fn channel_over<'a, C: Clock, R, W>(
    hall: &'a ServiceHall,
    clock: &'a C,
    place: &'a RoomPlace,
    reader: R,
    writer: W,
) -> PlacedChannel<'a, R, W, C>
    ensures reader { result.reader.reader.reader.reader ≡ reader }
    ensures writer { result.writer.writer ≡ writer }
{
    let most = Most::Placed(hall.idle_milliseconds(), place);
    let patience = PatientWait::new(clock, hall, &place.since, most);
    let heard = PatientInput::new(reader, clock, place);
    let reader = Patient::new(heard, patience);
    let patience = PatientWait::new(clock, hall, &place.since, most);
    let writer = PatientOutput::new(writer, patience, clock, place);
    CountedChannel::new(reader, writer)
}

// Serves the requests that come in time over these streams, whose waits end by `WouldBlock`, of who may ask; Writes as long as the hall gives leave.
fn serve_over<D: Device, L: Desks, C: Clock, R: Read + Drop, W: Write + Drop, T: Wait>(
    rt: &T,
    alloc: Global,
    node: &Node<D, L>,
    desk: Desk<L>,
    admission: &Admission<'_>,
    hall: &ServiceHall,
    clock: &C,
    place: &RoomPlace,
    reader: R,
    writer: W,
) -> Received<L>
    // At a store that has a key the node is reached by who proved to have it alone.
    ensures admitted { MayAsk admission.now.own.now admission.now.let_in }
    ensures served { ServedOver L.begun desk result.desk (R.remaining reader) (W.contents writer) }
{
    let _ = admission;
    let mut channel = channel_over(hall, clock, place, reader, writer);
    let (answer, desk) = serve_with_leave(rt, alloc, node, desk, &NoGate, hall, &mut channel);
    Received {
        desk,
        is_silent: matches!(answer, Err(ChannelFault::Read | ChannelFault::Write)),
    }
}

/// What comes first over a connection, as far as the front of its first frame says it.
#[derive(Clone, Copy, PartialEq, Eq)]
enum First {
    /// A greeting.
    Hello,
    /// What a peer asks.
    Offer,
    /// Any other request, or no front of a frame.
    Other,
}

// What a frame of this kind is.
fn first_of(kind: u8) -> First
    ensures { result ≡ first_by kind }
{
    match kind {
        KIND_HELLO => First::Hello,
        KIND_OFFER => First::Offer,
        _ => First::Other,
    }
}

/// What is seen of a frame that comes.
#[derive(Clone, Copy, Debug, PartialEq, Eq)]
pub(crate) enum FrameFront {
    /// Its length and its kind came, which is this.
    Kind(u8),
    /// Less came, and no more in time.
    Short,
}

// What is seen of a frame of which so many bytes came, and no more in time where it is late; nothing yet, where more may come.
fn front_of(front: [u8; 3], count: usize, is_late: bool) -> Option<FrameFront>
    ensures whole { count ≡ 3 → result ≡ Some (Kind (slice_index front 2)) }
    ensures short { count ≢ 3 → is_late ≡ true → result ≡ Some Short }
    ensures early { count ≢ 3 → is_late ≡ false → result ≡ None }
{
    if count == front.len() {
        return Some(FrameFront::Kind(front[2]));
    }
    if is_late {
        Some(FrameFront::Short)
    } else {
        None
    }
}

// The front of what comes next over the connection; nothing where nothing comes in time.
fn front_over<P: Patience, C: Clock>(
    clock: &C,
    stream: &TcpStream,
    patience: P,
) -> Option<FrameFront> {
    let mut patience = patience;
    let mut front = [0; 3];
    let mut is_begun = false;
    for _ in 0..MAX_WAITS {
        if !patience.waits_on() {
            return None;
        }
        match stream.peek(&mut front) {
            Ok(0) => return None,
            Ok(count) => {
                let seen = front_of(front, count, is_begun);
                if seen.is_some() {
                    return seen;
                }
                is_begun = true;
                thread::sleep(clock, Duration::from_millis(FRONT_MILLISECONDS));
            }
            Err(error) if error.kind() == ErrorKind::WouldBlock => {}
            Err(_) => return None,
        }
    }
    None
}

/// As [`front_over`], as long as it is waited for at the most.
pub(crate) fn front_in_time<'x, C: Clock>(
    clock: &'x C,
    hall: &'x ServiceHall,
    since: &'x Since,
    most: Most<'x>,
    stream: &TcpStream,
) -> Option<FrameFront> {
    front_over(clock, stream, PatientWait::new(clock, hall, since, most))
}

// What comes first over the connection, as long as the hall waits for it.
fn first_in_time<C: Clock>(
    clock: &C,
    hall: &ServiceHall,
    since: &Since,
    stream: &TcpStream,
) -> Option<First> {
    match front_in_time(clock, hall, since, Most::Hall, stream)? {
        FrameFront::Kind(kind) => Some(first_of(kind)),
        FrameFront::Short => Some(First::Other),
    }
}

impl<D: Device, L: Desks, C: Clock + RandomSource, E: Write> Reception<'_, D, L, C, E> {
    // That who asks this without a greeting may ask: at an open store alone.
    fn ungreeted(&self, first: First) -> Option<Admission<'_>>
        ensures own { IfSome result (λ admission. (admission.own ≡ self.now.own) × (admission.let_in ≡ None)) }
        ensures open { IsSome result ↔ (self.now.own.now.key ≡ None) }
    {
        match &self.own.key {
            Some(_) => None,
            None => Some(Admission {
                own: self.own,
                let_in: None,
                is_peer: first == First::Offer,
            }),
        }
    }

    // That who asks over the connection may ask, once something is asked; nothing where nobody does in time, or who greets isn't let in, or holds other
    // Writes. At a store that has a key who asks must greet.
    fn admit<T: Wait>(&self, rt: &T, alloc: Global, stream: &TcpStream) -> Option<Admission<'_>>
        ensures { IfSome result (λ admission. admission.own ≡ self.now.own) }
    {
        let since = Since::now(self.clock);
        match first_in_time(self.clock, self.hall, &since, stream)? {
            First::Hello => {
                let own = self.own;
                let let_in = receive_guest(alloc, own, self.hall, self.clock, stream)?;
                if !answer_guest(rt, alloc, self, &let_in.guest, stream) {
                    return None;
                }
                let is_peer = let_in.guest.hello.from.is_some();
                Some(Admission {
                    own,
                    let_in: Some(let_in),
                    is_peer,
                })
            }
            first => self.ungreeted(first),
        }
    }

    // Answers what is asked beside one key, of who greeted: what comes then.
    fn answer_lookups<T: Wait>(
        &self,
        rt: &T,
        alloc: Global,
        admission: &Admission<'_>,
        place: &RoomPlace,
        stream: &TcpStream,
    ) -> NextLookup
        ensures { admission.now.let_in ≡ None → result ≡ Request }
    {
        match &admission.let_in {
            Some(_) => answer_lookups(
                rt, alloc, self.node, admission, self.hall, self.clock, place, stream,
            ),
            None => NextLookup::Request,
        }
    }

    // Serves the requests that come in time, and then says that no more replies come.
    fn serve_requests<T: Wait>(
        &self,
        rt: &T,
        alloc: Global,
        desk: Desk<L>,
        admission: &Admission<'_>,
        place: &RoomPlace,
        stream: &TcpStream,
    ) -> Received<L> {
        let received = match self.answer_lookups(rt, alloc, admission, place, stream) {
            NextLookup::Request => serve_over(
                rt, alloc, self.node, desk, admission, self.hall, self.clock, place, stream, stream,
            ),
            next => Received {
                desk,
                is_silent: next == NextLookup::Nothing,
            },
        };
        let _ = stream.shutdown(Shutdown::Write);
        received
    }

    // Drops what still comes for a short while: a socket that is closed with bytes unread would take back replies on their way.
    fn linger(&self, stream: &TcpStream) {
        let since = Since::now(self.clock);
        let most = Most::Milliseconds(LINGER_MILLISECONDS);
        let patience = PatientWait::new(self.clock, self.hall, &since, most);
        drop_rest(&mut CountedChannel::new(Patient::new(stream, patience), ()));
    }

    // Serves the connection, once there is a place for it, if there is one. Where a stream failed, or was waited for in vain, no reply is on its way.
    fn receive<T: Wait>(
        &self,
        rt: &T,
        alloc: Global,
        desk: Desk<L>,
        stream: &TcpStream,
    ) -> Desk<L> {
        let Some(admission) = self.admit(rt, alloc, stream) else {
            return desk;
        };
        let room = self.rooms.room_of(admission.is_peer);
        if room.is_full() && self.hall.full.is_due(self.clock) {
            self.teller
                .tell(rt, "bayou: each desk is taken, and others wait for one\n");
        }
        let Some(place) = room.enter(self.clock, self.hall) else {
            return desk;
        };
        let received = self.serve_requests(rt, alloc, desk, &admission, place, stream);
        place.leave();
        if !received.is_silent {
            self.linger(stream);
        }
        received.desk
    }
}

impl<
    D: Device + Send + Sync,
    L: Desks + Send + Sync,
    C: Clock + RandomSource + Sync,
    E: Write + Send + Drop,
> Host for Reception<'_, D, L, C, E> {
    type Desk = Desk<L>;

    fn serve<T: Wait>(&self, rt: &T, alloc: Global, desk: Desk<L>, stream: TcpStream) -> Desk<L> {
        // Nobody is served whose silence couldn't be ended.
        if !is_timed(&stream, TICK_MILLISECONDS) {
            return desk;
        }
        self.hall.enter();
        let desk = self.receive(rt, alloc, desk, &stream);
        self.hall.leave();
        desk
    }
}

impl<
    D: Device + Send + Sync,
    L: Desks + Send + Sync,
    C: Clock + RandomSource + Sync,
    E: Write + Send + Drop,
> Attendant for Reception<'_, D, L, C, E> {
    fn pause<T: Wait>(&self, rt: &T) {
        if self.hall.untaken.is_due(self.clock) {
            self.teller.tell(rt, "bayou: a connection can't be taken\n");
        }
        thread::sleep(self.clock, Duration::from_secs(PAUSE_SECONDS));
    }
}
