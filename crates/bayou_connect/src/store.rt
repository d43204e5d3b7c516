//! The servers of a store and the sessions of a person there: each operation, with what is kept of it.
ghost use Rattle.std.specs.Prelude.{◌≡◌, ◌≢◌, ◌<◌, ◌||◌, false, ℕ, All, IfErr, IfOk, IfSome, IsErr, IsSomeAnd, MatchOption, None, Ok, OnOk, Some, is_some, map, option_map, slice_get, true, vec_len};
ghost use Rattle.std.specs.Option.{option_copied};
ghost use Rattle.bayou_base.specs.declared.limits.TheConstants.{SESSIONS as NUMBER};
ghost use Rattle.bayou_connect.specs.Silence.{silent_at};
ghost use Rattle.bayou_connect.specs.Faults.{IsBookFault};
ghost use Rattle.bayou_connect.specs.Finals.{is_refused_as_full, vector_read};
ghost use Rattle.bayou_connect.specs.Keeping.{HasAsked};
ghost use Rattle.bayou_connect.specs.Round.{turns_but_last};
ghost use Rattle.bayou_connect.specs.Sessions.{IsOpened, kept_of, opened};

use crate::asking::{Requested, operate};
use crate::audit_file::AuditWriter;
use crate::deadline::milliseconds;
use crate::fault::ConnectFault;
use crate::plan::ServerPlace;
use crate::reach::{Access, Greeter, Purpose};
use crate::remembering::StateFile;
use crate::round::{but_last, in_turn};
use crate::told::ServerTold;
use crate::views_file::{ViewsFile, view_in};
use bayou_base::{Asks, Entry, Key, Refusal, Seen, ServerId, SessionId, Vector, Wid};
use bayou_client::{Asker, LinkFault};
use bayou_greeting::Stranger;
use bayou_lang::RestingWrite;
use bayou_net::Sockets;
use bayou_print::Holds;
use bayou_session::Session;
use bayou_wire::{Fate, FateAsked};
use std::alloc::{AllocError, Global};
use std::fs::{File, Files};
use std::time::Clock;

/// What a person has at hand.
#[derive(Drop)]
pub(crate) struct Store {
    pub(crate) alloc: Global,
    pub(crate) accesses: Vec<Access>,
    /// What each session is, by its number, where it was opened or kept.
    sessions: Vec<Option<Asker>>,
    state: Option<StateFile>,
    book: Option<AuditWriter>,
    /// What is known to be final, where that is kept.
    pub(crate) views: Option<ViewsFile>,
    /// What the server held that answered a session last, where that was a read.
    read_last: Option<Vector>,
    /// How long a server has for its connection and its whole reply.
    pub(crate) timeout_seconds: u32,
    pub(crate) greeter: Greeter,
    /// Which server a session asked last, by its place in the list.
    asked_last: usize,
    /// Whether a Write was refused since a log is full, and that is still to be reported.
    is_full: bool,
    ghost one_each: { vec_len sessions ≡ NUMBER },
}

// Enters what was served or refused, where there is a book.
fn enter(
    alloc: Global,
    book: &mut Option<AuditWriter>,
    entry: &Option<Entry>,
) -> Result<(), ConnectFault>
    ensures none { book.old ≡ None → (result ≡ Ok tt) × (book.new ≡ None) }
    ensures fault { IfErr result IsBookFault }
{
    match (book, entry) {
        (Some(book), Some(entry)) => book.enter(alloc, entry),
        _ => Ok(()),
    }
}

/// What was answered, unless the server didn't answer.
pub(crate) fn answered<A>(told: Result<A, LinkFault>) -> Result<Option<A>, ConnectFault>
    ensures { IfOk result (λ answer. MatchOption answer (IsErr told) (λ answer. told ≡ Ok answer)) }
{
    match told {
        Ok(answer) => Ok(Some(answer)),
        Err(LinkFault::OutOfMemory) => Err(ConnectFault::Memory),
        Err(LinkFault::Lost | LinkFault::BadFrame | LinkFault::Refused(_)) => Ok(None),
    }
}

// A way to the server of each place.
fn accesses_to(alloc: Global, places: &[ServerPlace]) -> Result<Vec<Access>, AllocError>
    ensures { IfOk result (λ accesses. map (λ access. access.place) accesses.items ≡ places.now) }
{
    let mut accesses = Vec::with_capacity(alloc, places.len())?;
    for place in places {
        accesses.push(Access::new(*place))?;
    }
    Ok(accesses)
}

// What a session becomes as it is opened: it begins anew, or goes on from where it was kept.
fn opened_from(kept: Option<Asker>, number: SessionId, run: u32, asks: Asks) -> Asker
    requires { 0 < run }
    ensures { result ≡ opened number run asks kept }
{
    match kept {
        None => Asker::new(Session::new(number, run, asks), None),
        Some(kept) => {
            let (session, asked) = kept.into_parts();
            Asker::new(Session::resume(number, asks, session.past()), asked)
        }
    }
}

impl Store {
    /// The servers at these places, with what is kept of each session, by its number.
    pub(crate) fn new(
        alloc: Global,
        places: &[ServerPlace],
        sessions: Vec<Option<Asker>>,
        state: Option<StateFile>,
        book: Option<AuditWriter>,
        views: Option<ViewsFile>,
        timeout_seconds: u32,
        greeter: Greeter,
    ) -> Result<Self, AllocError>
        requires { vec_len sessions ≡ NUMBER }
        ensures places { IfOk result (λ store. map (λ access. access.place) store.accesses.items ≡ places.now) }
        ensures kept { IfOk result (λ store. (store.sessions ≡ sessions) × (store.state ≡ state) × (store.book ≡ book) × (store.timeout_seconds ≡ timeout_seconds)) }
    {
        Ok(Store {
            alloc,
            accesses: accesses_to(alloc, places)?,
            sessions,
            state,
            book,
            views,
            read_last: None,
            timeout_seconds,
            greeter,
            asked_last: 0,
            is_full: false,
        })
    }

    /// Its allocator.
    pub(crate) fn alloc(&self) -> Global
        ensures { result ≡ self.now.alloc }
    {
        self.alloc
    }

    /// How many servers there are.
    pub(crate) fn len(&self) -> usize
        ensures { result ≡ vec_len self.now.accesses }
    {
        self.accesses.len()
    }

    // Whether each server, by its place in the list, counts as silent by now.
    fn are_silent<T: Clock>(&self, rt: &T) -> Result<Vec<bool>, AllocError>
        ensures { IfOk result (λ silent. (now : ℕ) × (silent.items ≡ silent_at now self.now.accesses.items)) }
    {
        let now = milliseconds(rt);
        let mut silent = Vec::with_capacity(self.alloc, self.accesses.len())?;
        for access in &self.accesses {
            silent.push(access.is_silent(now))?;
        }
        Ok(silent)
    }

    /// The places of all servers, in the order in which they are asked: from this one on, and those that were silent last.
    pub(crate) fn order<T: Clock>(&self, rt: &T, first: usize) -> Result<Vec<usize>, AllocError>
        requires { first < vec_len self.now.accesses }
        ensures { IfOk result (λ order. (now : ℕ) × (order.items ≡ turns_but_last (silent_at now self.now.accesses.items) first (vec_len self.now.accesses))) }
    {
        let silent = self.are_silent(rt)?;
        let order = in_turn(self.alloc, first, self.accesses.len())?;
        but_last(self.alloc, &order, &silent)
    }

    /// The place of this server in the list.
    pub(crate) fn place_of(&self, server: ServerId) -> Option<usize>
        ensures { MatchOption result (All (λ access. access.place.id ≢ server) self.now.accesses.items)
            (λ at. IsSomeAnd (slice_get self.now.accesses.items at) (λ access. access.place.id ≡ server)) }
    {
        self.accesses
            .iter()
            .position(|access| access.place.id == server)
    }

    /// What is kept of a session that is open.
    pub(crate) fn session(&self, who: SessionId) -> Option<&Asker>
        ensures { option_copied result ≡ kept_of self.now.sessions.items who }
    {
        self.sessions[usize::from(who.index)].as_ref()
    }

    /// Opens the session, which has this number in tags and in the book, and asks for this from then on: anew, or from where it was kept.
    pub(crate) fn open(&mut self, who: SessionId, number: SessionId, run: u32, asks: Asks)
        requires { 0 < run }
        ensures opened { IsOpened who number run asks self.old.sessions.items self.new.sessions.items }
        ensures others { (self.new.accesses ≡ self.old.accesses) × (self.new.state ≡ self.old.state) × (self.new.book ≡ self.old.book) }
    {
        let at = usize::from(who.index);
        let kept = self.sessions[at].take();
        self.sessions[at] = Some(opened_from(kept, number, run, asks));
    }

    // Writes the state file anew, where it has grown long.
    fn shorten<T: Files<File = File>>(&mut self, rt: &T) -> Result<(), ConnectFault>
        ensures { OnOk result ((self.new.sessions ≡ self.old.sessions) × (self.new.accesses ≡ self.old.accesses)) }
    {
        if let Some(state) = self.state.take() {
            self.state = Some(state.shortened(rt, self.alloc)?);
        }
        Ok(())
    }

    // As `ask_at`; what the server held isn't noted.
    fn attempt_at<T: Files<File = File> + Sockets + Clock>(
        &mut self,
        rt: &T,
        who: SessionId,
        at: usize,
        attempt: Requested,
    ) -> Result<ServerTold, ConnectFault>
        ensures { IfOk result (λ told. HasAsked self.old.accesses.items at attempt self.old.sessions.items self.new.sessions.items self.new.state who.index told) }
    {
        self.shorten(rt)?;
        self.asked_last = at;
        let (alloc, purpose) = (self.alloc, attempt.purpose());
        let Some(access) = self.accesses.get_mut(at) else {
            return Ok(ServerTold::Away);
        };
        let server = access.place.id;
        let time = self.timeout_seconds;
        let Some(mut link) = access.link(rt, &mut self.greeter, time, purpose) else {
            return Ok(ServerTold::Away);
        };
        let Some(asker) = &mut self.sessions[usize::from(who.index)] else {
            return Ok(ServerTold::Lost);
        };
        if asker.session().left() == 0 {
            return Ok(ServerTold::Lost);
        }
        let done = operate(alloc, &mut self.state, asker, &mut link, server, attempt)?;
        access.settle(rt, &link);
        enter(alloc, &mut self.book, &done.entry)?;
        Ok(done.told)
    }

    /// Has the session do this at a server, by its place in the list. A Write is kept before it is sent, and what the session learned before anybody
    /// else learns of it.
    pub(crate) fn ask_at<T: Files<File = File> + Sockets + Clock>(
        &mut self,
        rt: &T,
        who: SessionId,
        at: usize,
        attempt: Requested,
    ) -> Result<ServerTold, ConnectFault>
        ensures { IfOk result (λ told. HasAsked self.old.accesses.items at attempt self.old.sessions.items self.new.sessions.items self.new.state who.index told) }
    {
        let told = self.attempt_at(rt, who, at, attempt)?;
        self.note(at, &told);
        Ok(told)
    }

    // Notes what the server of this place in the list told of an operation.
    fn note(&mut self, at: usize, told: &ServerTold)
        ensures read { self.new.read_last ≡ vector_read told.now }
        ensures full { self.new.is_full ≡ (self.old.is_full || is_refused_as_full told.now) }
        ensures same { (self.new.sessions ≡ self.old.sessions) × (self.new.state ≡ self.old.state) × (self.new.book ≡ self.old.book) × (self.new.accesses ≡ self.old.accesses) }
    {
        self.read_last = match told {
            ServerTold::Seen(seen) => Some(seen.vector),
            _ => None,
        };
        if let ServerTold::Refused(Refusal::LogFull) = told {
            self.is_full = true;
        }
        if let Some(view) = view_in(told) {
            self.hear_at(at, &view);
        }
    }

    /// What the server held that answered a session last, where that was a read of a key and it is kept what is final.
    pub(crate) fn read_last(&self) -> Option<Vector>
        ensures none { self.now.views ≡ None → result ≡ None }
        ensures last { self.now.views ≢ None → result ≡ self.now.read_last }
    {
        match &self.views {
            Some(_) => self.read_last,
            None => None,
        }
    }

    /// Whether a Write was refused since a log is full, and that wasn't reported yet. It counts as reported from then on.
    pub(crate) fn take_full(&mut self) -> bool
        ensures { (result ≡ self.old.is_full) × (self.new ≡ record self.old { is_full = false }) }
    {
        let is_full = self.is_full;
        self.is_full = false;
        is_full
    }

    /// Which server a session asked last, by its place in the list.
    pub(crate) fn asked_last(&self) -> usize
        ensures { result ≡ self.now.asked_last }
    {
        self.asked_last
    }

    /// The servers, in the order of the list.
    pub(crate) fn servers(&self) -> Result<Vec<ServerId>, AllocError>
        ensures { IfOk result (λ servers. servers.items ≡ map (λ access. access.place.id) self.now.accesses.items) }
    {
        let mut servers = Vec::with_capacity(self.alloc, self.accesses.len())?;
        for access in &self.accesses {
            servers.push(access.place.id)?;
        }
        Ok(servers)
    }

    /// Which server is at this place in the list.
    pub(crate) fn server_at(&self, at: usize) -> Option<ServerId>
        ensures { result ≡ option_map (λ access. access.place.id) (slice_get self.now.accesses.items at) }
    {
        match self.accesses.get(at) {
            Some(access) => Some(access.place.id),
            None => None,
        }
    }

    /// What the server of this place in the list tells of a key, if it tells it: to a read of no session.
    pub(crate) fn look_at<T: Sockets + Clock>(
        &mut self,
        rt: &T,
        at: usize,
        key: &Key,
    ) -> Result<Option<Seen>, ConnectFault>
        ensures { (self.new.sessions ≡ self.old.sessions) × (self.new.state ≡ self.old.state) × (self.new.book ≡ self.old.book) }
    {
        let alloc = self.alloc;
        let Some(access) = self.accesses.get_mut(at) else {
            return Ok(None);
        };
        let time = self.timeout_seconds;
        let Some(mut link) = access.link(rt, &mut self.greeter, time, Purpose::Requests) else {
            return Ok(None);
        };
        let told = link.look(alloc, key);
        access.settle(rt, &link);
        answered(told)
    }

    /// What the server of this place in the list tells of what became of a Write, if it tells it: to who asks of no session.
    pub(crate) fn fate_at<T: Sockets + Clock>(
        &mut self,
        rt: &T,
        at: usize,
        wid: Wid,
    ) -> Result<Option<Fate>, ConnectFault>
        ensures { (self.new.sessions ≡ self.old.sessions) × (self.new.state ≡ self.old.state) × (self.new.book ≡ self.old.book) × (self.new.views ≡ self.old.views) }
    {
        let (alloc, time) = (self.alloc, self.timeout_seconds);
        let Some(access) = self.accesses.get_mut(at) else {
            return Ok(None);
        };
        let Some(mut link) = access.link(rt, &mut self.greeter, time, Purpose::Lookups) else {
            return Ok(None);
        };
        let need = Vector::zero();
        let told = link.became(alloc, FateAsked { need, wid });
        access.settle(rt, &link);
        answered(told)
    }

    /// Who answers in the place of the server of this place in the list, and where, if that wasn't reported yet.
    pub(crate) fn news_at(&mut self, at: usize) -> Option<(ServerPlace, Stranger)>
        ensures news { IfSome result (λ news. IsSomeAnd (slice_get self.old.accesses.items at) (λ access. (access.is_news ≡ true) × (access.place ≡ news.0) × (access.stranger ≡ Some news.1))) }
        ensures same { (self.new.sessions ≡ self.old.sessions) × (self.new.state ≡ self.old.state) × (self.new.book ≡ self.old.book) }
    {
        let access = self.accesses.get_mut(at)?;
        let place = access.place;
        Some((place, access.news()?))
    }

    /// What the server of this place in the list holds, and how much it may, if it tells that: as it is greeted anew, or to a read where it knows no
    /// greetings.
    pub(crate) fn held_at<T: Sockets + Clock>(
        &mut self,
        rt: &T,
        at: usize,
    ) -> Result<Option<Holds>, ConnectFault>
        ensures { (self.new.sessions ≡ self.old.sessions) × (self.new.state ≡ self.old.state) × (self.new.book ≡ self.old.book) }
    {
        let alloc = self.alloc;
        let Some(access) = self.accesses.get_mut(at) else {
            return Ok(None);
        };
        access.forget();
        let time = self.timeout_seconds;
        let Some(mut link) = access.link(rt, &mut self.greeter, time, Purpose::Requests) else {
            return Ok(None);
        };
        if let Some(known) = access.known() {
            return Ok(Some(Holds {
                vector: known.vector,
                limit: Some(known.limit),
                without: known.without,
            }));
        }
        let told = link.vector(alloc);
        access.settle(rt, &link);
        let vector = answered(told)?;
        Ok(vector.map(|vector| Holds {
            vector,
            limit: None,
            without: None,
        }))
    }

    /// What the server of this place in the list tells as it is to open its journal again, if it is reached.
    pub(crate) fn reopen<T: Sockets + Clock>(
        &mut self,
        rt: &T,
        at: usize,
    ) -> Option<Result<Option<Wid>, LinkFault>>
        ensures { (self.new.sessions ≡ self.old.sessions) × (self.new.state ≡ self.old.state) × (self.new.book ≡ self.old.book) }
    {
        let alloc = self.alloc;
        let access = self.accesses.get_mut(at)?;
        let time = self.timeout_seconds;
        let mut link = access.link(rt, &mut self.greeter, time, Purpose::Requests)?;
        let told = link.reopen(alloc);
        access.settle(rt, &link);
        Some(told)
    }

    /// What the server of this place in the list sends of what it holds, if it sends all of it.
    pub(crate) fn dump<T: Sockets + Clock>(
        &mut self,
        rt: &T,
        at: usize,
    ) -> Result<Option<Vec<RestingWrite>>, ConnectFault>
        ensures { (self.new.sessions ≡ self.old.sessions) × (self.new.state ≡ self.old.state) × (self.new.book ≡ self.old.book) }
    {
        let alloc = self.alloc;
        let Some(access) = self.accesses.get_mut(at) else {
            return Ok(None);
        };
        let time = self.timeout_seconds;
        let Some(mut link) = access.link(rt, &mut self.greeter, time, Purpose::Requests) else {
            return Ok(None);
        };
        let told = link.dump(alloc);
        access.settle(rt, &link);
        answered(told)
    }

    /// Whether there is a book.
    pub(crate) fn has_book(&self) -> bool
        ensures { result ≡ is_some self.now.book }
    {
        self.book.is_some()
    }

    /// Puts what the server holds into the book, where there is one.
    pub(crate) fn hold(
        &mut self,
        server: ServerId,
        writes: &[RestingWrite],
    ) -> Result<(), ConnectFault>
        ensures none { self.old.book ≡ None → (result ≡ Ok tt) × (self.new.book ≡ None) }
        ensures same { (self.new.sessions ≡ self.old.sessions) × (self.new.accesses ≡ self.old.accesses) × (self.new.state ≡ self.old.state) }
        ensures fault { IfErr result IsBookFault }
    {
        match &mut self.book {
            Some(book) => book.hold(self.alloc, server, writes),
            None => Ok(()),
        }
    }
}
