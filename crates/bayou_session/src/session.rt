ghost use Rattle.std.specs.Prelude.{◌≡◌, ◌+◌, ◌<◌, ◌≤◌, ℕ, Some, None, IfSome, MatchOption};
ghost use Rattle.bayou_base.specs.declared.limits.TheConstants.{MAX_PLACES};
ghost use Rattle.bayou_session.specs.Needs.{HasCounts, IsTagOf, after_read, after_write, asks_again, asks_first, if_asked, new_session, one_place_more, read_need, resumed, write_need};

use crate::past::Past;
use bayou_base::{Accepted, Asks, MAX_PLACES, Seen, SessionId, Tag, Vector};
use std::marker::Model;

/// The first run of a program, and that of one which keeps nothing from a run to the next.
pub const FIRST_RUN: u32 = 1;

/// A session (Terry et al. 1994): one person's reads and Writes, at whatever servers.
#[derive(Clone, Copy, Debug, PartialEq, Eq)]
pub struct Session {
    id: SessionId,
    asks: Asks,
    run: u32,
    // How many places were begun.
    begun: u32,
    // The place at which the Write was asked first that may be asked again.
    asked: Option<u32>,
    reads: Vector,
    writes: Vector,
}

impl Model for Session {
    ghost use Rattle.std.specs.Prelude.{◌<◌, ◌≤◌, IfSome};
    ghost use Rattle.bayou_base.specs.declared.limits.TheConstants.{MAX_PLACES};
    ghost use Rattle.bayou_base.specs.Vector.{AreCounts};
    ghost use Rattle.bayou_session.specs.Needs.{Told};

    ghost Value = { Told };

    ghost view = { λ s. record { id = s.id; asks = s.asks; run = s.run; begun = s.begun; asked = s.asked; reads = s.reads; writes = s.writes } };

    ghost inverse = { λ told. record { id = told.id; asks = told.asks; run = told.run; begun = told.begun; asked = told.asked; reads = told.reads; writes = told.writes } };

    ghost invariant = { λ s. (s.begun ≤ MAX_PLACES) × (0 < s.run) × IfSome s.asked (λ n. (0 < n) × (n ≤ s.begun)) × AreCounts s.reads × AreCounts s.writes };
}

/// The vector where it is asked for, else one that counts no Write.
fn where_asked(is_asked: bool, vector: Vector) -> Vector
    ensures { result ≡ if_asked is_asked vector }
{
    if is_asked { vector } else { Vector::zero() }
}

impl Session {
    /// A session that has tried nothing yet, in this run of the program. Runs are counted from 1: [`FIRST_RUN`](crate::FIRST_RUN).
    pub fn new(id: SessionId, run: u32, asks: Asks) -> Self
        requires { 0 < run }
        ensures value { result ≡ new_session id run asks }
        ensures counts { HasCounts result }
    {
        Session {
            id,
            asks,
            run,
            begun: 0,
            asked: None,
            reads: Vector::zero(),
            writes: Vector::zero(),
        }
    }

    /// A session that goes on from where it was: with what it read and wrote then, in that run and at that place.
    pub fn resume(id: SessionId, asks: Asks, past: Past) -> Self
        ensures value { result ≡ resumed id asks past }
        ensures counts { HasCounts result }
    {
        let Past {
            run,
            begun,
            asked,
            reads,
            writes,
        } = past;
        Session {
            id,
            asks,
            run,
            begun,
            asked,
            reads,
            writes,
        }
    }

    /// What it learned and tried so far.
    pub fn past(&self) -> Past
        ensures { resumed self.now.id self.now.asks result ≡ self.now }
    {
        Past {
            run: self.run,
            begun: self.begun,
            asked: self.asked,
            reads: self.reads,
            writes: self.writes,
        }
    }

    /// Its name.
    pub fn id(&self) -> SessionId
        ensures { result ≡ self.now.id }
    {
        self.id
    }

    /// What it asks for.
    pub fn asks(&self) -> Asks
        ensures { result ≡ self.now.asks }
    {
        self.asks
    }

    /// How many places are left to it, of [`MAX_PLACES`].
    pub fn left(&self) -> u32
        ensures { result + self.now.begun ≡ MAX_PLACES }
    {
        MAX_PLACES - self.begun
    }

    /// The run that it belongs to.
    pub fn run(&self) -> u32
        ensures { result ≡ self.now.run }
    {
        self.run
    }

    /// The place that it began last, or 0 where it has begun none.
    pub fn place(&self) -> u32
        ensures { result ≡ self.now.begun }
    {
        self.begun
    }

    // Begins the next place, after which the Write that was asked first at the place `asked` may be asked again, if there is one.
    fn next_place(&mut self, asked: Option<u32>) -> u32
        requires left { self.old.begun < MAX_PLACES }
        requires within { IfSome asked (λ number. (0 < number) × (number ≤ self.old.begun + 1)) }
        ensures place { result ≡ self.old.begun + 1 }
        ensures begun { self.new ≡ record self.old { begun = self.old.begun + 1; asked = asked } }
    {
        self.begun += 1;
        self.asked = asked;
        self.place()
    }

    // The tag of the Write that was asked first at this place.
    fn tag(&self, number: u32) -> Tag
        requires { 0 < number }
        ensures { IsTagOf self.now number result }
    {
        Tag {
            session: self.id,
            run: self.run,
            number,
        }
    }

    /// The tag of the Write that may be asked again, if there is one.
    pub fn asked(&self) -> Option<Tag>
        ensures { MatchOption result (self.now.asked ≡ None) (λ tag. (number : ℕ) × (self.now.asked ≡ Some number) × IsTagOf self.now number tag) }
    {
        let number = self.asked?;
        Some(self.tag(number))
    }

    /// Begins the next place, for an operation that is tried: 1, 2, 3, and so on. What was asked before it can't be asked again.
    pub fn begin(&mut self) -> u32
        requires { self.old.begun < MAX_PLACES }
        ensures place { result ≡ self.old.begun + 1 }
        ensures begun { self.new ≡ one_place_more self.old }
    {
        self.next_place(None)
    }

    /// Begins the next place, for a Write that is asked for the first time, which may be asked again from then on, and gives its tag.
    pub fn ask(&mut self) -> Tag
        requires { self.old.begun < MAX_PLACES }
        ensures tag { IsTagOf self.old (self.old.begun + 1) result }
        ensures begun { self.new ≡ asks_first self.old }
    {
        let place = self.next_place(Some(self.begun + 1));
        self.tag(place)
    }

    /// Begins the next place, for the Write that was asked last, and gives its tag once more: `None`, and no place is begun, where the
    /// operation begun last was no Write, or the session heard that it was accepted.
    pub fn again(&mut self) -> Option<Tag>
        requires { self.old.begun < MAX_PLACES }
        ensures { MatchOption result ((self.old.asked ≡ None) × (self.new ≡ self.old))
            (λ tag. (number : ℕ) × (self.old.asked ≡ Some number) × IsTagOf self.old number tag × (self.new ≡ asks_again self.old)) }
    {
        let number = self.asked?;
        self.next_place(Some(number));
        Some(self.tag(number))
    }

    /// What a server has to hold to serve it a read.
    pub fn need_read(&self) -> Vector
        ensures value { result ≡ read_need self.now }
        ensures counts { HasCounts self.now }
    {
        where_asked(self.asks.ryw, self.writes).join(&where_asked(self.asks.mr, self.reads))
    }

    /// What a server has to hold to accept a Write of it.
    pub fn need_write(&self) -> Vector
        ensures value { result ≡ write_need self.now }
        ensures counts { HasCounts self.now }
    {
        where_asked(self.asks.wfr, self.reads).join(&where_asked(self.asks.mw, self.writes))
    }

    /// It learned what a read was served.
    pub fn saw(&mut self, seen: &Seen)
        ensures told { self.new ≡ after_read self.old seen.now }
        ensures counts { HasCounts self.new }
    {
        self.reads = self.reads.join(&seen.vector);
    }

    /// It was reported that a Write was accepted, which it then can't ask again.
    pub fn wrote(&mut self, accepted: &Accepted)
        ensures told { self.new ≡ after_write self.old accepted.now }
        ensures counts { HasCounts self.new }
    {
        self.writes.raise(accepted.wid);
        self.asked = None;
    }
}
