//! Links to servers, which are opened as they are needed.
ghost use Rattle.bayou_connect.specs.Silence.{stream_for};
ghost use Rattle.std.specs.Prelude.{◌≡◌, ◌+◌, ◌-◌, ◌^◌, ◌<◌, IfOk, IfSome, IsSome, None, Some, false, if◌then◌else◌, min, nat_le, nat_lt};

use crate::deadline::{Deadline, milliseconds};
use crate::plan::ServerPlace;
use bayou_base::ServerId;
use bayou_base::limits::SILENT_SECONDS;
use bayou_client::Link;
use bayou_greeting::{StoreKey, Stranger};
use bayou_handshake::{GreetingFault, Met, OLDER_AFTER, meet_server};
use bayou_net::Sockets;
use bayou_streams::CountedChannel;
use bayou_wire::layout::{GREETING_VERSION, NONCE_BYTES};
use bayou_wire::{Hello, Known, Nonce, ServerCount};
use std::alloc::Global;
use std::io;
use std::io::{ErrorKind, Read, Write};
use std::net::TcpStream;
use std::time::{Clock, Duration};

/// How many bytes of the number of a greeting are drawn at random.
pub(crate) const DRAWN_BYTES: usize = NONCE_BYTES - 4;

/// How long a server that was silent is asked after all others, in milliseconds.
const SILENT_MILLISECONDS: u64 = SILENT_SECONDS * 1_000;

/// A socket at which each call ends in time.
#[derive(Drop)]
pub(crate) struct Timed<'a, C> {
    clock: &'a C,
    stream: TcpStream,
    deadline: Deadline,
}

impl<C: Clock> Timed<'_, C> {
    // What is left of the time.
    fn left(&self) -> io::Result<Option<Duration>>
        // Without a time a call at the socket would wait for ever.
        ensures { IfOk result IsSome }
    {
        match self.deadline.left(milliseconds(self.clock)) {
            Some(left) => Ok(Some(Duration::from_millis(left))),
            None => Err(io::Error::from(ErrorKind::TimedOut)),
        }
    }
}

impl<C: Clock> Read for Timed<'_, C> {
    fn read(&mut self, buf: &mut [u8]) -> io::Result<usize> {
        self.stream.set_read_timeout(self.left()?)?;
        let count = self.stream.read(buf)?;
        self.deadline
            .extend(u64::from(u32::try_from(count).unwrap_or(0)));
        Ok(count)
    }
}

impl<C: Clock> Write for Timed<'_, C> {
    fn write(&mut self, buf: &[u8]) -> io::Result<usize> {
        self.stream.set_write_timeout(self.left()?)?;
        self.stream.write(buf)
    }

    fn flush(&mut self) -> io::Result<()> {
        self.stream.flush()
    }
}

/// How this program greets servers: with a number each time that no other greeting has.
#[derive(Drop)]
pub(crate) struct Greeter {
    pub(crate) alloc: Global,
    /// How many servers the store has by the words, where these say so.
    pub(crate) servers: Option<ServerCount>,
    /// The key of the store, where it has one.
    pub(crate) key: Option<StoreKey>,
    /// What was drawn at random.
    pub(crate) drawn: [u8; DRAWN_BYTES],
    /// How often it has greeted.
    pub(crate) greetings: u32,
}

impl Greeter {
    // How it greets that server.
    fn hello(&mut self, server: ServerId) -> Hello
        ensures asks { (result.version ≡ GREETING_VERSION) × (result.asked ≡ Some server) × (result.from ≡ None) × (result.servers ≡ self.old.servers) }
        ensures counted { self.new ≡ record self.old { greetings = min (self.old.greetings + 1) (2 ^ 32 - 1) } }
    {
        self.greetings = self.greetings.saturating_add(1);
        let mut nonce = [0; NONCE_BYTES];
        nonce[..DRAWN_BYTES].copy_from_slice(&self.drawn);
        nonce[DRAWN_BYTES..].copy_from_slice(&self.greetings.to_be_bytes());
        Hello {
            version: GREETING_VERSION,
            asked: Some(server),
            from: None,
            servers: self.servers,
            nonce: Nonce::new(nonce),
        }
    }
}

/// What a connection to a server is for: what is asked beside one key comes before all else over a connection, and so has one of its own.
#[derive(Clone, Copy, Debug, PartialEq, Eq)]
pub(crate) enum Purpose {
    Requests,
    Lookups,
}

/// A link over a socket, for one request: it and its whole reply have so much time.
pub(crate) type SocketLink<'a, T> = Link<Timed<'a, T>, Timed<'a, T>>;

/// A server, with the connections to it that are open: over each it was greeted, if it knows greetings.
#[derive(Drop)]
pub(crate) struct Access {
    pub(crate) place: ServerPlace,
    requests: Option<TcpStream>,
    lookups: Option<TcpStream>,
    /// What it told as it was greeted last.
    known: Option<Known>,
    /// How many servers its store has, as it told as it was greeted last.
    servers: Option<ServerCount>,
    /// Who answered in its place last, if somebody else did; and whether that is still to be reported.
    stranger: Option<Stranger>,
    is_news: bool,
    /// When the answer to what was asked last was to be there.
    deadline: Deadline,
    /// Until when it counts as silent, in milliseconds of the clock.
    silent_until: u64,
}

// Whether nothing came over the connection, and the other end hasn't ended it: a server ends those that ask nothing.
fn is_quiet(stream: &TcpStream) -> bool {
    if stream.set_nonblocking(true).is_err() {
        return false;
    }
    let mut byte = [0; 1];
    let is_quiet = match stream.peek(&mut byte) {
        Ok(_) => false,
        Err(error) => error.kind() == ErrorKind::WouldBlock,
    };
    stream.set_nonblocking(false).is_ok() && is_quiet
}

// A connection to the server, if one comes about in so many milliseconds.
fn stream_to<T: Sockets>(rt: &T, place: ServerPlace, left: u64) -> Option<TcpStream> {
    let time = Duration::from_millis(left);
    let stream = TcpStream::connect_timeout(rt, &place.address, time).ok()?;
    // A socket that doesn't take this option sends small requests later.
    let _ = stream.set_nodelay(true);
    Some(stream)
}

// One more end of the connection.
fn end_of<'a, T>(rt: &'a T, stream: &TcpStream, deadline: Deadline) -> Option<Timed<'a, T>>
    ensures { IfSome result (λ timed. timed.deadline ≡ deadline) }
{
    let stream = stream.try_clone().ok()?;
    Some(Timed {
        clock: rt,
        stream,
        deadline,
    })
}

/// What came of a greeting.
#[derive(Drop)]
enum Greeted {
    /// The server is known, over this connection.
    Over(TcpStream),
    /// It ended the connection at that, as one does that knows no greetings.
    Ended,
    /// It isn't reached, or another answers in its place.
    Not,
}

impl Access {
    /// Nothing is open yet.
    pub(crate) fn new(place: ServerPlace) -> Self
        ensures { result.place ≡ place }
    {
        Access {
            place,
            requests: None,
            lookups: None,
            known: None,
            servers: None,
            stranger: None,
            is_news: false,
            deadline: Deadline::new(0, 0),
            silent_until: 0,
        }
    }

    // The connection for this, if there is one.
    fn stream(&self, purpose: Purpose) -> &Option<TcpStream>
        ensures { result.now ≡ stream_for purpose self.now }
    {
        match purpose {
            Purpose::Requests => &self.requests,
            Purpose::Lookups => &self.lookups,
        }
    }

    // Keeps the connection for this, in the place of the one before.
    fn keep(&mut self, purpose: Purpose, stream: Option<TcpStream>)
        ensures kept { stream_for purpose self.new ≡ stream }
        ensures same { self.new.place ≡ self.old.place }
    {
        match purpose {
            Purpose::Requests => self.requests = stream,
            Purpose::Lookups => self.lookups = stream,
        }
    }

    // Whether a connection for this is there that is quiet.
    fn is_open(&self, purpose: Purpose) -> bool
        ensures { stream_for purpose self.now ≡ None → result ≡ false }
    {
        match self.stream(purpose) {
            Some(stream) => is_quiet(stream),
            None => false,
        }
    }

    /// Whether it counts as silent by now.
    pub(crate) fn is_silent(&self, now: u64) -> bool
        ensures { result ≡ nat_lt now self.now.silent_until }
    {
        now < self.silent_until
    }

    // Notes that what was asked has no answer: where the time for it is over, the server counts as silent from now on.
    fn fail(&mut self, now: u64)
        ensures closed { (self.new.place ≡ self.old.place) × (self.new.requests ≡ None) × (self.new.lookups ≡ None) }
        ensures silent { self.new.silent_until ≡ (if nat_le self.old.deadline.latest now then min (now + SILENT_MILLISECONDS) (2 ^ 64 - 1) else self.old.silent_until) }
    {
        self.requests = None;
        self.lookups = None;
        if self.deadline.left(now).is_none() {
            self.silent_until = now.saturating_add(SILENT_MILLISECONDS);
        }
    }

    // A connection to the server, if one comes about in what is left of the time.
    fn reached<T: Sockets + Clock>(&self, rt: &T) -> Option<TcpStream> {
        stream_to(rt, self.place, self.deadline.left(milliseconds(rt))?)
    }

    // A connection to the server, and the channel over which it is greeted.
    fn opened<'a, T: Sockets + Clock>(
        &self,
        rt: &'a T,
    ) -> Option<(TcpStream, CountedChannel<Timed<'a, T>, Timed<'a, T>>)> {
        let stream = self.reached(rt)?;
        let reader = end_of(rt, &stream, self.deadline)?;
        let writer = end_of(rt, &stream, self.deadline)?;
        Some((stream, CountedChannel::new(reader, writer)))
    }

    // Notes who answered in the server's place.
    fn meet(&mut self, stranger: Stranger)
        ensures { self.new.place ≡ self.old.place }
    {
        self.known = None;
        self.is_news = self.is_news || self.stranger.as_ref() != Some(&stranger);
        self.stranger = Some(stranger);
    }

    // Greets the server once, over a connection of its own.
    fn greeted_once<T: Sockets + Clock>(&mut self, rt: &T, greeter: &mut Greeter) -> Greeted
        ensures { self.new.place ≡ self.old.place }
    {
        let Some((stream, mut channel)) = self.opened(rt) else {
            return Greeted::Not;
        };
        let hello = greeter.hello(self.place.id);
        match meet_server(greeter.alloc, &hello, &greeter.key, None, &mut channel) {
            Ok(Met { servers, known }) => {
                self.known = Some(known);
                self.servers = Some(servers);
                self.stranger = None;
                Greeted::Over(stream)
            }
            Err(GreetingFault::Stranger(Stranger::Older)) => Greeted::Ended,
            Err(GreetingFault::Stranger(stranger)) => {
                self.meet(stranger);
                Greeted::Not
            }
            Err(_) => Greeted::Not,
        }
    }

    // A connection to the server over which it was greeted. One that ends the connection at that, and again at the next, is taken for an older one: it
    // is asked for one key all the same, over a connection of its own, where the store is open; one that has a key proves it, or is sent nothing.
    fn greeted<T: Sockets + Clock>(
        &mut self,
        rt: &T,
        greeter: &mut Greeter,
        purpose: Purpose,
    ) -> Option<TcpStream>
        ensures { self.new.place ≡ self.old.place }
    {
        for _ in 0..OLDER_AFTER {
            match self.greeted_once(rt, greeter) {
                Greeted::Over(stream) => return Some(stream),
                Greeted::Not => return None,
                Greeted::Ended => {}
            }
        }
        self.meet(Stranger::Older);
        match (&greeter.key, purpose) {
            (None, Purpose::Requests) => self.reached(rt),
            (Some(_), _) | (_, Purpose::Lookups) => None,
        }
    }

    /// What the server told as it was greeted last, if it was.
    pub(crate) fn known(&self) -> &Option<Known>
        ensures { result.now ≡ self.now.known }
    {
        &self.known
    }

    /// How many servers its store has, if it ever told that.
    pub(crate) fn servers(&self) -> Option<ServerCount>
        ensures { result ≡ self.now.servers }
    {
        self.servers
    }

    /// Has the server greeted anew before the next request.
    pub(crate) fn forget(&mut self)
        ensures { self.new.place ≡ self.old.place }
    {
        self.requests = None;
        self.known = None;
    }

    /// Who answers in the server's place, if that wasn't reported yet.
    pub(crate) fn news(&mut self) -> Option<Stranger>
        ensures news { result ≡ (if self.old.is_news then self.old.stranger else None) }
        ensures told { (self.new.place ≡ self.old.place) × (self.new.is_news ≡ false) }
    {
        if !self.is_news {
            return None;
        }
        self.is_news = false;
        match &self.stranger {
            Some(stranger) => Some(stranger.copy()),
            None => None,
        }
    }

    /// A link to the server for this, on which one request and its reply have so many seconds, the connection too; or none where the server isn't
    /// reached, or another answers in its place: then nothing was sent.
    pub(crate) fn link<'a, T: Sockets + Clock>(
        &mut self,
        rt: &'a T,
        greeter: &mut Greeter,
        seconds: u32,
        purpose: Purpose,
    ) -> Option<SocketLink<'a, T>>
        ensures { self.new.place ≡ self.old.place }
    {
        self.deadline = Deadline::new(milliseconds(rt), seconds);
        if !self.is_open(purpose) {
            let stream = self.greeted(rt, greeter, purpose);
            self.keep(purpose, stream);
        }
        let Some(stream) = self.stream(purpose) else {
            self.fail(milliseconds(rt));
            return None;
        };
        let reader = end_of(rt, stream, self.deadline)?;
        let writer = end_of(rt, stream, self.deadline)?;
        Some(Link::new(reader, writer))
    }

    /// Notes how the request ended that went over the link: a connection is kept that is open still.
    pub(crate) fn settle<T: Clock>(&mut self, rt: &T, link: &SocketLink<'_, T>)
        ensures { self.new.place ≡ self.old.place }
    {
        if link.is_closed() {
            self.fail(milliseconds(rt));
        } else {
            self.silent_until = 0;
        }
    }
}
