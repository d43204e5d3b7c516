//! The sessions of a script.
ghost use Rattle.std.specs.Prelude.{◌≡◌, ◌+◌, ◌<◌, IfSome, IsSome, true};
ghost use Rattle.std.specs.Option.{option_map};
ghost use Rattle.bayou_base.specs.declared.limits.TheConstants.{MAX_PLACES};
ghost use Rattle.bayou_machine.specs.ScriptServer.{read_answer, reply_of, write_answer};
ghost use Rattle.bayou_machine.specs.Seats.{asks_at, asks_once_more, begins_read, given_of, new_seat, told_of_read, told_of_write};
ghost use Rattle.bayou_session.specs.Needs.{IsTagOf, read_need, write_need};

use bayou_answers::Answer;
use bayou_base::{Accepted, Asks, Key, Refusal, Seen, ServerId, SessionId, Tag, Vector};
use bayou_lang::RestingProgram;
use bayou_server::{Behind, WriteFault, Written};
use bayou_session::{FIRST_RUN, Session};
use std::marker::Model;

/// A Write that a session asked, and may ask again.
#[derive(Drop)]
struct Asking {
    server: ServerId,
    program: RestingProgram,
}

/// A session of a script.
#[derive(Drop)]
pub(crate) struct Seat {
    session: Session,
    asked: Option<Asking>,
    // Whether the reply to the operation that it tries next is dropped.
    drops: bool,
}

impl Model for Seat {
    ghost use Rattle.std.specs.Prelude.{IsSome};
    ghost use Rattle.std.specs.Option.{option_map};
    ghost use Rattle.bayou_machine.specs.Seats.{Seat as Seated, asked_of};

    ghost Value = { Seated };

    ghost view = { λ s. record { told = s.session; asked = option_map asked_of s.asked; drops = s.drops } };

    ghost invariant = { λ s. IsSome s.asked → IsSome s.session.asked };
}

// What the Write was given, be it made now or known from before.
fn given(written: Written) -> Accepted
    ensures { result ≡ given_of written }
{
    match written {
        Written::New(accepted) | Written::Known(accepted) => accepted,
    }
}

impl Seat {
    /// A session that has tried nothing, and asks for this.
    pub(crate) fn new(who: SessionId, asks: Asks) -> Self
        ensures { result ≡ new_seat who asks }
    {
        Seat {
            session: Session::new(who, FIRST_RUN, asks),
            asked: None,
            drops: false,
        }
    }

    /// What it heard.
    pub(crate) fn session(&self) -> Session
        ensures { result ≡ self.now.told }
    {
        self.session
    }

    /// The server that it may ask again.
    pub(crate) fn asked_at(&self) -> Option<ServerId>
        ensures { option_map (λ server. server.index) result ≡ option_map (λ asked. asked.server) self.now.asked }
    {
        match &self.asked {
            Some(asked) => Some(asked.server),
            None => None,
        }
    }

    /// The program that it may ask again.
    pub(crate) fn program(&self) -> &RestingProgram
        requires { IsSome self.now.asked }
        ensures { IfSome self.now.asked (λ asked. result.now ≡ asked.program) }
    {
        match &self.asked {
            Some(asked) => &asked.program,
            None => unreachable!(),
        }
    }

    /// Whether the reply to the operation that it tries next is dropped.
    pub(crate) fn drops(&self) -> bool
        ensures { result ≡ self.now.drops }
    {
        self.drops
    }

    /// The reply to the operation that it tries next is dropped.
    pub(crate) fn drop_next(&mut self)
        ensures { self.new ≡ record self.old { drops = true } }
    {
        self.drops = true;
    }

    /// Begins a place, for a Write of the program that it asks at the server, and gives the tag.
    pub(crate) fn ask(&mut self, server: ServerId, program: RestingProgram) -> Tag
        requires { self.old.told.begun < MAX_PLACES }
        ensures tag { IsTagOf self.old.told (self.old.told.begun + 1) result }
        ensures begun { self.new ≡ asks_at server.index program self.old }
    {
        let tag = self.session.ask();
        self.asked = Some(Asking { server, program });
        self.drops = false;
        tag
    }

    /// Begins a place, for the Write that it asks again, and gives its tag.
    pub(crate) fn again(&mut self) -> Tag
        requires asked { IsSome self.old.asked }
        requires left { self.old.told.begun < MAX_PLACES }
        ensures tag { IfSome self.old.told.asked (λ number. IsTagOf self.old.told number result) }
        ensures known { IsSome self.old.told.asked }
        ensures begun { self.new ≡ asks_once_more self.old }
    {
        let Some(tag) = self.session.again() else {
            unreachable!();
        };
        self.drops = false;
        tag
    }

    /// Begins a place, for a read.
    pub(crate) fn begin(&mut self)
        requires { self.old.told.begun < MAX_PLACES }
        ensures { self.new ≡ begins_read self.old }
    {
        self.session.begin();
        self.asked = None;
        self.drops = false;
    }

    /// Hears what its Write was answered, unless the reply is dropped.
    pub(crate) fn hear_write(
        &mut self,
        who: SessionId,
        drops: bool,
        reply: Result<Written, WriteFault>,
    ) -> Answer
        ensures answered { result ≡ reply_of drops who (write_answer who reply) }
        ensures told { self.new ≡ told_of_write drops self.old reply }
    {
        if drops {
            return Answer::Lost { session: who };
        }
        match reply {
            Ok(written) => {
                let accepted = given(written);
                self.session.wrote(&accepted);
                self.asked = None;
                Answer::Wrote {
                    session: who,
                    accepted,
                }
            }
            Err(fault) => Answer::Refused {
                session: who,
                refusal: Refusal::from(fault),
            },
        }
    }

    /// Hears what its read of the key was answered, unless the reply is dropped.
    pub(crate) fn hear_read(
        &mut self,
        who: SessionId,
        drops: bool,
        key: Key,
        reply: Result<Seen, Behind>,
    ) -> Answer
        ensures answered { result ≡ reply_of drops who (read_answer who key reply) }
        ensures told { self.new ≡ told_of_read drops self.old reply }
    {
        if drops {
            return Answer::Lost { session: who };
        }
        match reply {
            Ok(seen) => {
                self.session.saw(&seen);
                Answer::Read {
                    session: who,
                    key,
                    seen,
                }
            }
            Err(behind) => Answer::Refused {
                session: who,
                refusal: Refusal::Behind(behind.vector),
            },
        }
    }
}
