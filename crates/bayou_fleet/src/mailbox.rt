//! Orders to the thread that keeps a server, and what it tells.
ghost use Rattle.std.specs.Prelude.{◌≡◌, IfOk};
ghost use Rattle.bayou_fleet.specs.Servers.{IsDump};
ghost use Rattle.bayou_lang.specs.Writes.{count_of};
ghost use Rattle.bayou_log.specs.Listing.{listing_of};
ghost use Rattle.bayou_node.specs.Answers.{InSome};

use crate::begun::Begun;
use crate::fault::FleetFault;
use crate::messages::{ToldDump, ToldLog};
use bayou_base::Vector;
use bayou_frames::ChannelFault;
use bayou_lang::RestingWrite;
use bayou_log::Listed;
use bayou_peer::{PullStopped, Pulled};
use std::alloc::AllocError;
use std::marker::Model;
use std::net::TcpStream;
use std::sync::{Condvar, Mutex, Wait};

/// What the thread that keeps a server is to do.
#[derive(Drop)]
pub(crate) enum Order {
    /// Take what it lacks of what the server at the other end of the stream holds.
    Pull(TcpStream),
    /// Tell its log.
    Log,
    /// Tell what it holds.
    Dump,
    /// Do no more.
    End,
}

/// What it tells.
#[derive(Drop)]
pub(crate) enum Told {
    /// Whether it serves.
    Opened(bool),
    Pulled(Result<Pulled, PullStopped>),
    Log(Result<ToldLog, AllocError>),
    Dump(Result<ToldDump, AllocError>),
}

/// What lies in a mailbox.
#[derive(Drop)]
struct Mail {
    order: Option<Order>,
    told: Option<Told>,
}

/// Where the thread that keeps a server finds its orders, and where others find what it tells. It is seen as that server, as its node was made.
#[derive(Drop)]
pub struct Mailbox {
    begun: Begun,
    mail: Mutex<Mail>,
    moved: Condvar,
    /// Whoever asks has it until the answer came.
    turn: Mutex<()>,
}

impl Model for Mailbox {
    ghost use Rattle.bayou_node.specs.Books.{Begun as Made};

    ghost Value = { Made };

    ghost view = { λ m. m.begun };
}

impl Mailbox {
    /// An empty one, of this server.
    pub(crate) fn new(begun: Begun) -> Self
        ensures { result ≡ begun }
    {
        Mailbox {
            begun,
            mail: Mutex::new(Mail {
                order: None,
                told: None,
            }),
            moved: Condvar::new(),
            turn: Mutex::new(()),
        }
    }

    /// Leaves an order.
    pub(crate) fn leave<T: Wait>(&self, rt: &T, order: Order) {
        let mut mail = self.mail.lock(rt);
        mail.order = Some(order);
        self.moved.notify_all();
    }

    /// Takes the next order, once it is there.
    pub(crate) fn next<T: Wait>(&self, rt: &T) -> Order {
        let mut mail = self.mail.lock(rt);
        for _ in rt.forever() {
            if let Some(order) = mail.order.take() {
                return order;
            }
            mail = self.moved.wait(rt, mail);
        }
        unreachable!()
    }

    /// Leaves an answer.
    pub(crate) fn tell<T: Wait>(&self, rt: &T, told: Told) {
        let mut mail = self.mail.lock(rt);
        mail.told = Some(told);
        self.moved.notify_all();
    }

    // Takes the next answer, once it is there.
    fn hear<T: Wait>(&self, rt: &T) -> Told {
        let mut mail = self.mail.lock(rt);
        for _ in rt.forever() {
            if let Some(told) = mail.told.take() {
                return told;
            }
            mail = self.moved.wait(rt, mail);
        }
        unreachable!()
    }

    // Leaves an order, and waits for its answer.
    fn ask<T: Wait>(&self, rt: &T, order: Order) -> Told {
        let _turn = self.turn.lock(rt);
        self.leave(rt, order);
        self.hear(rt)
    }

    /// Waits until the server serves, or can't.
    pub(crate) fn is_opened<T: Wait>(&self, rt: &T) -> bool {
        matches!(self.hear(rt), Told::Opened(true))
    }

    /// Has the server take what it lacks of what the one at the other end of the stream holds.
    pub(crate) fn pull<T: Wait>(&self, rt: &T, stream: TcpStream) -> Result<Pulled, PullStopped> {
        match self.ask(rt, Order::Pull(stream)) {
            Told::Pulled(pulled) => pulled,
            _ => Err(PullStopped::at_once(ChannelFault::Cut)),
        }
    }

    /// The Writes that the server holds, in stamp order, each with its outcome; and how many of each server they are.
    pub(crate) fn log<T: Wait>(&self, rt: &T) -> Result<(Vec<Listed>, Vector), FleetFault>
        ensures lists { IfOk result (λ log. InSome self.now (λ core. log.0.items ≡ listing_of core.held)) }
        ensures counts { IfOk result (λ log. InSome self.now (λ core. log.1 ≡ count_of core.held)) }
    {
        match self.ask(rt, Order::Log) {
            Told::Log(log) => log?.at(self.begun),
            _ => Err(FleetFault::Network),
        }
    }

    /// The Writes that the server holds, in order of receipt.
    pub(crate) fn dump<T: Wait>(&self, rt: &T) -> Result<Vec<RestingWrite>, FleetFault>
        ensures { IfOk result (λ writes. IsDump self.now writes.items) }
    {
        match self.ask(rt, Order::Dump) {
            Told::Dump(dump) => dump?.at(self.begun),
            _ => Err(FleetFault::Network),
        }
    }

    /// Which server it is of.
    pub(crate) fn begun(&self) -> Begun
        ensures { result ≡ self.now }
    {
        self.begun
    }
}
