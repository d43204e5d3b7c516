//! A session, and what is on its way to it.
ghost use Rattle.std.specs.Prelude.{◌≡◌, ◌+◌, ◌<◌, ◌↔◌, ◌⊎◌, ℕ, [], false, IfOk, IsSome, IsTrue, MatchOption, None, Some};
ghost use Rattle.std.specs.Option.{option_map};
ghost use Rattle.bayou_base.specs.declared.limits.TheConstants.{MAX_PLACES};
ghost use Rattle.bayou_world.specs.declared.world_session.Asked.{Asked as WasAsked};
ghost use Rattle.bayou_server.specs.Reads.{Reads};
ghost use Rattle.bayou_server.specs.Writes.{Writes};
ghost use Rattle.bayou_world.specs.Faults.{has_doubt};
ghost use Rattle.bayou_session.specs.Needs.{HasCounts, asks_again, asks_first, one_place_more, read_need, write_need};
ghost use Rattle.bayou_world.specs.Inner.Charges.{Spends};
ghost use Rattle.bayou_world.specs.Inner.WorldServers.{StaysHonest};
ghost use Rattle.bayou_world.specs.Inner.WorldSessions.{Asks, Begins, Hears, IsAnswered, Pops, accepted_as, accepted_of, after_accepted, after_read, asked_after, seen_as, server_of};

use bayou_base::{Accepted, Entry, Key, Seen, ServerId, Tag, What};
use bayou_device::{MemoryDevice, OpenGate};
use bayou_journal::laws::a_device_in_memory_only_tears;
use bayou_lang::RestingProgram;
use bayou_server::laws::an_honest_server_stays_honest;
use bayou_server::{Behind, Server, WriteFault, Written};
use bayou_session::Session;
use std::alloc::{AllocError, Global};
use std::collections::VecDeque;

/// An answer on its way: the entry that tells of it, and what was accepted, if something was.
#[derive(Drop)]
pub struct Flight {
    pub entry: Entry,
    pub accepted: Option<Accepted>,
}

/// What may be asked again: which server was asked, and for a Write of which program.
#[derive(Drop)]
pub struct Asked {
    pub server: ServerId,
    pub program: RestingProgram,
}

/// A session, what it may ask again, the answer on its way to it, and the entries of what it heard that aren't in the book yet, the oldest
/// first.
#[derive(Drop)]
pub struct WorldSession {
    session: Session,
    asked: Option<Asked>,
    flight: Option<Flight>,
    waiting: VecDeque<Entry>,
}

/// What an answer to a read tells.
fn what_seen(key: &Key, answer: &Result<Seen, Behind>) -> What
    ensures { result ≡ seen_as key.now answer.now }
{
    match answer {
        Ok(seen) => What::Read(key.copy(), seen.vector),
        Err(Behind { .. }) => What::Refused,
    }
}

/// What an answer to a program tells.
fn what_accepted(answer: &Result<Written, WriteFault>) -> What
    ensures { result ≡ accepted_as answer.now }
{
    match answer {
        Ok(Written::New(accepted) | Written::Known(accepted)) => {
            What::Write(accepted.wid, accepted.stamp, accepted.deps)
        }
        Err(_) => What::Refused,
    }
}

fn accepted_in(answer: &Result<Written, WriteFault>) -> Option<Accepted>
    ensures { result ≡ accepted_of answer.now }
{
    match answer {
        Ok(Written::New(accepted) | Written::Known(accepted)) => Some(*accepted),
        Err(_) => None,
    }
}

/// It learns what it read.
fn tell_read(session: &mut Session, what: &What)
    ensures { session.new ≡ after_read what.now session.old }
{
    match what {
        What::Read(_, vector) => session.saw(&Seen {
            value: None,
            vector: *vector,
        }),
        What::Write(..) | What::Refused => {}
    }
}

impl WorldSession {
    /// A session to which nothing is on its way.
    pub fn new(alloc: Global, session: Session) -> Self
        ensures session { result.session ≡ session }
        ensures asked { result.asked ≡ None }
        ensures flight { result.flight ≡ None }
        ensures waiting { result.waiting.items ≡ [] }
    {
        WorldSession {
            session,
            asked: None,
            flight: None,
            waiting: VecDeque::new(alloc),
        }
    }

    /// Whether it may begin an operation.
    pub fn may_begin(&self) -> bool
        ensures { IsTrue result ↔ ((self.now.flight ≡ None) × (self.now.session.begun < MAX_PLACES)) }
    {
        self.flight.is_none() && self.session.left() > 0
    }

    /// The server that it asked for what it may ask again, if there is such a Write.
    pub fn asked_at(&self) -> Option<ServerId>
        ensures { result ≡ option_map server_of self.now.asked }
    {
        match &self.asked {
            Some(asked) => Some(asked.server),
            None => None,
        }
    }

    /// It learns what was accepted, which it asks no more.
    fn tell_accepted(&mut self, accepted: &Option<Accepted>)
        ensures { self.new ≡ record self.old { session = after_accepted accepted.now self.old.session; asked = asked_after accepted.now self.old.asked } }
    {
        match accepted {
            Some(accepted) => {
                self.session.wrote(accepted);
                self.asked = None;
            }
            None => {}
        }
    }

    /// At the place that it began last the server answers it this, which is on its way.
    fn answered(&mut self, server: ServerId, what: What, accepted: Option<Accepted>)
        requires { 0 < self.old.session.begun }
        ensures { IsAnswered self.old server.index what accepted self.new }
    {
        let entry = Entry {
            session: self.session.id(),
            place: self.session.place(),
            asks: self.session.asks(),
            server,
            what,
        };
        self.flight = Some(Flight { entry, accepted });
    }

    /// It asks the server what the key has, at a place that it begins.
    pub fn read(
        &mut self,
        server: &Server<MemoryDevice<OpenGate>>,
        key: &Key,
    ) -> Result<Seen, Behind>
        requires { self.old.session.begun < MAX_PLACES }
        ensures counts { HasCounts self.old.session }
        ensures answer { Reads server.now.core (read_need self.old.session) key.now result }
        ensures begun { Begins self.old (one_place_more self.old.session) None server.now.core.id (seen_as key.now result) None self.new }
    {
        let answer = server.read(&self.session.need_read(), key);
        let what = what_seen(key, &answer);
        self.session.begin();
        self.asked = None;
        self.answered(server.id(), what, None);
        answer
    }

    /// At the place that it began last it asks the server to make a Write of the program, under the tag.
    fn ask(
        &mut self,
        alloc: Global,
        server: &mut Server<MemoryDevice<OpenGate>>,
        tag: Tag,
        program: &RestingProgram,
    ) -> Result<Written, WriteFault>
        requires { 0 < self.old.session.begun }
        ensures counts { HasCounts self.old.session }
        ensures answer { Writes server.old.core tag (write_need self.old.session) program.now result server.new.core }
        ensures answered { IsAnswered self.old server.old.core.id (accepted_as result) (accepted_of result) self.new }
        ensures honest { StaysHonest server.old server.new }
        ensures spends { Spends (has_doubt result) false server.old.device server.new.device }
    {
        an_honest_server_stays_honest::<MemoryDevice<OpenGate>>();
        a_device_in_memory_only_tears();
        let id = server.id();
        let need = self.session.need_write();
        let answer = server.write(alloc, tag, &need, program);
        let what = what_accepted(&answer);
        let accepted = accepted_in(&answer);
        self.answered(id, what, accepted);
        answer
    }

    /// It asks the server to make a Write of the program, at a place that it begins, after which it may ask again. The tag of what it asks
    /// is that of the place. A copy of the program is made first.
    pub fn write(
        &mut self,
        alloc: Global,
        server: &mut Server<MemoryDevice<OpenGate>>,
        program: RestingProgram,
    ) -> Result<Result<Written, WriteFault>, AllocError>
        requires { self.old.session.begun < MAX_PLACES }
        ensures { IfOk result (λ answer. (asked : WasAsked) × (asked.server.index ≡ server.old.core.id) × (asked.program ≡ program)
            × Asks self.old (asks_first self.old.session) asked (self.old.session.begun + 1) server.old answer self.new server.new) }
    {
        let asked = Asked {
            server: server.id(),
            program: program.copy(alloc)?,
        };
        let tag = self.session.ask();
        self.asked = Some(asked);
        Ok(self.ask(alloc, server, tag, &program))
    }

    /// It asks the server what it may ask again, at a place that it begins, under the tag that it had. `None`, and nothing is done, where
    /// there is no such Write. A copy of the program is made first.
    pub fn again(
        &mut self,
        alloc: Global,
        server: &mut Server<MemoryDevice<OpenGate>>,
    ) -> Result<Option<Result<Written, WriteFault>>, AllocError>
        requires { self.old.session.begun < MAX_PLACES }
        ensures { IfOk result (λ repeated. MatchOption repeated (((self.old.asked ≡ None) ⊎ (self.old.session.asked ≡ None)) × (self.new ≡ self.old) × (server.new ≡ server.old))
            (λ answer. (asked : WasAsked) × (number : ℕ) × (self.old.asked ≡ Some asked) × (self.old.session.asked ≡ Some number)
            × Asks self.old (asks_again self.old.session) asked number server.old answer self.new server.new)) }
    {
        let Some(asked) = &self.asked else {
            return Ok(None);
        };
        let program = asked.program.copy(alloc)?;
        let Some(tag) = self.session.again() else {
            return Ok(None);
        };
        Ok(Some(self.ask(alloc, server, tag, &program)))
    }

    /// It hears the answer on its way, if there is one, whose entry then waits for the book.
    pub fn hear(&mut self) -> Result<Option<Entry>, AllocError>
        ensures { IfOk result (λ heard. Hears self.old heard self.new) }
    {
        let Some(flight) = self.flight.take() else {
            return Ok(None);
        };
        let Flight { entry, accepted } = flight;
        tell_read(&mut self.session, &entry.what);
        self.tell_accepted(&accepted);
        self.waiting.push_back(entry.copy())?;
        Ok(Some(entry))
    }

    /// The answer on its way is lost. Whether there was one.
    pub fn lose(&mut self) -> bool
        ensures told { IsTrue result ↔ IsSome self.old.flight }
        ensures lost { self.new ≡ record self.old { flight = None } }
    {
        self.flight.take().is_some()
    }

    /// The oldest entry that waits for the book.
    pub fn oldest(&mut self) -> Option<Entry>
        ensures { Pops self.old result self.new }
    {
        self.waiting.pop_front()
    }
}
