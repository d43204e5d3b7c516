//! A session that asks servers over links.
ghost use Rattle.std.specs.Prelude.{◌≡◌, ◌+◌, ◌<◌, ◌≤◌, ◌↔◌, ℕ, true, List, None, Some, IsSome};
ghost use Rattle.std.specs.Io.KnownBytes.{Consumes, IsAtEnd};
ghost use Rattle.bayou_base.specs.declared.limits.TheConstants.{MAX_PLACES};
ghost use Rattle.bayou_base.specs.declared.tag.Tag.{Tag};
ghost use Rattle.bayou_client.specs.declared.asker.Asked.{Asked};
ghost use Rattle.bayou_client.specs.Exchange.{IsGone, LinkEnds, asks_write};
ghost use Rattle.bayou_client.specs.Operating.{Hears, IsEntered, asks_at, asks_once_more, entered_of, read_what, reading, sending, write_what};
ghost use Rattle.bayou_lang.specs.declared.program.Program.{Program};
ghost use Rattle.bayou_session.specs.Needs.{write_need};
ghost use Rattle.bayou_wire.specs.declared.frame.Frame.TheVariants.{Write as WriteFrame};
ghost use Rattle.bayou_wire.specs.Stream.{spelling};

use crate::fault::LinkFault;
use crate::link::Link;
use bayou_base::{Accepted, Entry, Key, Seen, ServerId, Tag, What};
use bayou_lang::RestingProgram;
use bayou_session::{Past, Session};
use bayou_wire::Frame;
use std::alloc::Global;
use std::io::{Read, Write};
use std::marker::Model;

/// A Write that was asked for: at which server, and of which program.
#[derive(Drop)]
pub struct Asked {
    pub server: ServerId,
    pub program: RestingProgram,
}

/// What a request came to, and what is entered of it, if anything, where there is a book.
#[derive(Drop)]
pub struct Heard<A> {
    pub told: Result<A, LinkFault>,
    pub entry: Option<Entry>,
}

/// A session, and the Write that it may ask again, if there is one.
#[derive(Drop)]
pub struct Asker {
    pub(crate) session: Session,
    pub(crate) asked: Option<Asked>,
}

impl Model for Asker {
    ghost use Rattle.std.specs.Prelude.{◌↔◌, IsSome};
    ghost use Rattle.bayou_client.specs.Operating.{Asking};

    ghost Value = { Asking };

    ghost view = { λ a. record { session = a.session; asked = a.asked } };

    ghost invariant = { λ a. IsSome a.asked ↔ IsSome a.session.asked };
}

// What is entered of a read, if anything.
fn what_was_read(key: &Key, told: &Result<Seen, LinkFault>) -> Option<What>
    ensures { result ≡ entered_of (read_what key.now) told.now }
{
    match told {
        Ok(seen) => Some(What::Read(key.copy(), seen.vector)),
        Err(LinkFault::Refused(_)) => Some(What::Refused),
        Err(LinkFault::Lost | LinkFault::BadFrame | LinkFault::OutOfMemory) => None,
    }
}

// What is entered of a Write, if anything.
fn what_was_written(told: &Result<Accepted, LinkFault>) -> Option<What>
    ensures { result ≡ entered_of write_what told.now }
{
    match told {
        Ok(accepted) => Some(What::Write(accepted.wid, accepted.stamp, accepted.deps)),
        Err(LinkFault::Refused(_)) => Some(What::Refused),
        Err(LinkFault::Lost | LinkFault::BadFrame | LinkFault::OutOfMemory) => None,
    }
}

// The place that the session began last, which may ask a Write again.
fn place_of(session: &Session) -> u32
    requires { IsSome session.now.asked }
    ensures { (result ≡ session.now.begun) × (0 < result) }
{
    session.past().begun
}

/// The entry of that, if there is one, at the place that the session began last.
pub(crate) fn entry_of(
    session: &Session,
    place: u32,
    server: ServerId,
    what: Option<What>,
) -> Option<Entry>
    requires { (place ≡ session.now.begun) × (0 < place) }
    ensures { IsEntered session.now server what result }
{
    match what {
        None => None,
        Some(what) => Some(Entry {
            session: session.id(),
            place,
            asks: session.asks(),
            server,
            what,
        }),
    }
}

// The program of a request for a Write.
fn program_of(request: Frame) -> Option<RestingProgram>
    ensures { (tag : Tag) (need : List ℕ) (program : Program) → request ≡ WriteFrame tag need program → result ≡ Some program }
{
    match request {
        Frame::Write(_, _, program) => Some(program),
        _ => None,
    }
}

// Sends the Write under this tag, with what the session needs, and gives it back with what is reported of it.
fn told_of<R: Read, W: Write>(
    alloc: Global,
    link: &mut Link<R, W>,
    session: &Session,
    tag: Tag,
    asked: Asked,
) -> (Result<Accepted, LinkFault>, Asked)
    ensures ends { (read : List ℕ) × Consumes (R.remaining link.old.channel.reader) (R.remaining link.new.channel.reader) read
        × LinkEnds (asks_write (write_need session.now) asked.server) (spelling (WriteFrame tag (write_need session.now) asked.program)) (W.contents link.old.channel.writer) (W.contents link.new.channel.writer) read link.old.is_closed link.new.is_closed
        (IsGone link.new.channel.read_failed link.new.channel.write_failed link.new.channel.turns_left (IsAtEnd (R.remaining link.new.channel.reader))) result.0 }
    ensures asked { result.1 ≡ asked }
    ensures closed { link.old.is_closed ≡ true → link.new ≡ link.old }
    ensures turns { link.new.channel.turns_left ≤ link.old.channel.turns_left }
{
    let Asked { server, program } = asked;
    let need = session.need_write();
    let request = Frame::Write(tag, need, program);
    let told = link.write(alloc, &request, &need, server);
    let Some(program) = program_of(request) else {
        unreachable!();
    };
    (told, Asked { server, program })
}

impl Asker {
    /// The session with the Write that it may ask again.
    pub fn new(session: Session, asked: Option<Asked>) -> Self
        requires { IsSome asked ↔ IsSome session.asked }
        ensures { result ≡ record { session = session; asked = asked } }
    {
        Asker { session, asked }
    }

    /// The session with nothing that it may ask again.
    pub fn asking_nothing(session: Session) -> Self
        ensures { result ≡ record { session = record session { asked = None }; asked = None } }
    {
        let past = session.past();
        let past = Past {
            run: past.run,
            begun: past.begun,
            asked: None,
            reads: past.reads,
            writes: past.writes,
        };
        let session = Session::resume(session.id(), session.asks(), past);
        Asker {
            session,
            asked: None,
        }
    }

    /// The session.
    pub fn session(&self) -> &Session
        ensures { result.now ≡ self.now.session }
    {
        &self.session
    }

    /// The Write that it may ask again: none where the operation begun last was no Write, or where it was reported as accepted. A link over which
    /// it is sent leads to its server.
    pub fn asked(&self) -> &Option<Asked>
        ensures value { result.now ≡ self.now.asked }
        ensures owed { IsSome self.now.asked ↔ IsSome self.now.session.asked }
    {
        &self.asked
    }

    /// The two.
    pub fn into_parts(self) -> (Session, Option<Asked>)
        ensures parts { (result.0 ≡ self.session) × (result.1 ≡ self.asked) }
        ensures owed { IsSome self.asked ↔ IsSome self.session.asked }
    {
        (self.session, self.asked)
    }

    /// Begins a Write of the program at this server, which may be asked again from now on. Nothing is sent.
    pub fn ask(&mut self, server: ServerId, program: RestingProgram)
        requires { self.old.session.begun < MAX_PLACES }
        ensures { self.new ≡ asks_at self.old server program }
    {
        self.session.ask();
        self.asked = Some(Asked { server, program });
    }

    /// Begins the Write that was asked last once more: at the session's next place, under the tag that it had. Nothing is sent.
    pub fn ask_again(&mut self)
        requires left { self.old.session.begun < MAX_PLACES }
        requires asked { IsSome self.old.asked }
        ensures { self.new ≡ asks_once_more self.old }
    {
        self.session.again();
    }

    /// Sends the Write that was begun, over a link to its server, with what the session needs. It may be asked again, unless it is reported as accepted.
    /// It is entered where it was accepted or refused.
    pub fn send<R: Read, W: Write>(
        &mut self,
        alloc: Global,
        link: &mut Link<R, W>,
    ) -> Heard<Accepted>
        requires { IsSome self.old.asked }
        ensures hears { (asked : Asked) × (self.old.asked ≡ Some asked)
            × (read : List ℕ) × Consumes (R.remaining link.old.channel.reader) (R.remaining link.new.channel.reader) read
            × Hears (sending self.old.session asked) asked.server self.old self.new (W.contents link.old.channel.writer) (W.contents link.new.channel.writer) read link.old.is_closed link.new.is_closed
            (IsGone link.new.channel.read_failed link.new.channel.write_failed link.new.channel.turns_left (IsAtEnd (R.remaining link.new.channel.reader))) result }
        ensures closed { link.old.is_closed ≡ true → link.new ≡ link.old }
        ensures turns { link.new.channel.turns_left ≤ link.old.channel.turns_left }
    {
        let Some(tag) = self.session.asked() else {
            unreachable!();
        };
        let Some(asked) = self.asked.take() else {
            unreachable!();
        };
        let (server, place) = (asked.server, place_of(&self.session));
        let (told, asked) = told_of(alloc, link, &self.session, tag, asked);
        let entry = entry_of(&self.session, place, server, what_was_written(&told));
        match told {
            Ok(accepted) => {
                self.session.wrote(&accepted);
                Heard {
                    told: Ok(accepted),
                    entry,
                }
            }
            Err(fault) => {
                self.asked = Some(asked);
                Heard {
                    told: Err(fault),
                    entry,
                }
            }
        }
    }

    /// Reads the key at this server, which the link goes to, from a database that has what the session asks for. It is entered where it was served or
    /// refused.
    pub fn read<R: Read, W: Write>(
        &mut self,
        alloc: Global,
        link: &mut Link<R, W>,
        server: ServerId,
        key: &Key,
    ) -> Heard<Seen>
        requires { self.old.session.begun < MAX_PLACES }
        ensures hears { (read : List ℕ) × Consumes (R.remaining link.old.channel.reader) (R.remaining link.new.channel.reader) read
            × Hears (reading self.old.session key.now) server self.old self.new (W.contents link.old.channel.writer) (W.contents link.new.channel.writer) read link.old.is_closed link.new.is_closed
            (IsGone link.new.channel.read_failed link.new.channel.write_failed link.new.channel.turns_left (IsAtEnd (R.remaining link.new.channel.reader))) result }
        ensures closed { link.old.is_closed ≡ true → link.new ≡ link.old }
        ensures turns { link.new.channel.turns_left ≤ link.old.channel.turns_left }
    {
        let need = self.session.need_read();
        let place = self.session.begin();
        self.asked = None;
        let told = link.read(alloc, &need, key);
        let entry = entry_of(&self.session, place, server, what_was_read(key, &told));
        match told {
            Ok(seen) => {
                self.session.saw(&seen);
                Heard {
                    told: Ok(seen),
                    entry,
                }
            }
            Err(fault) => Heard {
                told: Err(fault),
                entry,
            },
        }
    }
}
