//! Servers and sessions to which nothing has happened, and a run of them.
ghost use Rattle.std.specs.Prelude.{◌≡◌, ◌<◌, ◌≤◌, [], All, IfOk, IsTrue, List, length, map};
ghost use Rattle.bayou_audit.specs.Blanks.{AreBlanksOf, named};
ghost use Rattle.bayou_base.specs.declared.limits.TheConstants.{MAX_WRITES, SERVERS as SERVERS_NUMBER, SESSIONS as SESSIONS_NUMBER};
ghost use Rattle.bayou_session.specs.declared.session.TheConstants.{FIRST_RUN as FIRST_RUN_NUMBER};
ghost use Rattle.bayou_session.specs.Needs.{Told};
ghost use Rattle.bayou_world.specs.Faults.{AreFused};
ghost use Rattle.bayou_world.specs.Inner.Beginning.{AreFirstSeats, AreStarted, IsBooked, IsFirstSeat, IsFirstState, IsLeft, SoFar};
ghost use Rattle.bayou_world.specs.Inner.Charges.{AreAmple, AreCharged, SpendsAt};
ghost use Rattle.bayou_world.specs.Inner.Good.{IsGoodMachine};
ghost use Rattle.bayou_world.specs.Inner.Tie.{IsOf};
ghost use Rattle.bayou_world.specs.Inner.WorldBooks.{FollowsInBook, IsBookOf};
ghost use Rattle.bayou_world.specs.Inner.WorldServers.{held_by};
ghost use Rattle.bayou_judge.specs.History.{lists_of};
ghost use Rattle.bayou_world.specs.Judged.{IsJudgedClean};
ghost use Rattle.bayou_world.specs.Machine.{Machine};
ghost use Rattle.bayou_world.specs.RunHistories.{IsRunHistory};
ghost use Rattle.bayou_world.specs.Runs.{asks_of, is_file as is_file_said, capacity_for as capacity_of};
ghost use Rattle.bayou_world.specs.Steps.{Step};
ghost use Rattle.bayou_world.specs.Tags.{AreTagged};

use crate::event::Event;
use crate::laws::every_run_is_judged_clean;
use crate::reply::Reply;
use crate::role::Role;
use crate::run_history::RunHistory;
use crate::state::State;
use crate::world_book::WorldBook;
use crate::world_server::WorldServer;
use crate::world_session::WorldSession;
use bayou_audit::{Blanks, Four, Ledgers, Totals};
use bayou_base::{MAX_ENTRIES, SESSIONS, ServerId};
use bayou_lang::RestingWrite;
use bayou_session::{FIRST_RUN, Session};
use std::alloc::{AllocError, Global};
use std::marker::{Brand, Model};
use std::sync::ledger::{Blank, Ledger};

/// Servers on devices in memory, and sessions, to which nothing has happened yet.
#[derive(Drop)]
pub struct World {
    count: u8,
    limit: u32,
    servers: Vec<WorldServer>,
    sessions: Vec<Session>,
}

impl Model for World {
    ghost use Rattle.bayou_world.specs.RunHistories.{Begun};
    ghost use Rattle.bayou_world.specs.Inner.Beginning.{AreStarted};

    ghost Value = { Begun };

    ghost view = { λ w. record { count = w.count; limit = w.limit; sessions = w.sessions.items } };

    ghost invariant = { λ w. AreStarted w.count w.count w.limit w.servers.items };
}

/// The first session of this number, as one to which nothing has happened, if there is one.
fn world_session_of(alloc: Global, sessions: &[Session], who: usize) -> Option<WorldSession>
    ensures { IsFirstSeat who (asks_of sessions.now who) result }
{
    for session in sessions {
        let id = session.id();
        if usize::from(id.index) == who {
            let session = Session::new(id, FIRST_RUN, session.asks());
            return Some(WorldSession::new(alloc, session));
        }
    }
    None
}

/// A seat for each session that there may be.
fn seats(alloc: Global, sessions: &[Session]) -> Result<Vec<Option<WorldSession>>, AllocError>
    ensures { IfOk result (λ world_sessions. AreFirstSeats SESSIONS_NUMBER sessions.now world_sessions.items) }
{
    let mut world_sessions = Vec::new(alloc);
    for who in 0..SESSIONS {
        world_sessions.push(world_session_of(alloc, sessions, who))?;
    }
    Ok(world_sessions)
}

fn is_file(event: &Event) -> bool
    ensures { result ≡ is_file_said event.now }
{
    match event {
        Event::File(_) => true,
        Event::Read { .. }
        | Event::Write { .. }
        | Event::Again(_)
        | Event::Deliver(_)
        | Event::Lose(_)
        | Event::Offer(_)
        | Event::Collect { .. }
        | Event::Take { .. }
        | Event::Fuse { .. }
        | Event::Reopen(_)
        | Event::Restart(_) => false,
    }
}

/// How many entries the book of these events may have.
fn capacity_for(events: &[Event]) -> usize
    ensures { result ≡ capacity_of events.now }
{
    let mut files: usize = 0;
    for event in events {
        if is_file(event) {
            files += 1;
        }
    }
    files.min(MAX_ENTRIES).max(1)
}

/// What each server holds.
fn dumps_of(alloc: Global, servers: &[WorldServer]) -> Result<Vec<Vec<RestingWrite>>, AllocError>
    ensures { IfOk result (λ dumps. map (λ (dump : _). dump.items) dumps.items ≡ map held_by servers.now) }
{
    let mut dumps = Vec::new(alloc);
    for server in servers {
        dumps.push(server.dump(alloc)?)?;
    }
    Ok(dumps)
}

/// Whether none of their appends found no memory.
fn are_ample(servers: &mut Vec<WorldServer>) -> bool
    ensures { IsTrue result → AreAmple servers.old.items }
{
    for at in 0..servers.len() {
        if servers[at].lacks() > 0 {
            return false;
        }
    }
    true
}

/// What the event does to servers, sessions and book. A program is copied first.
fn step<K: Ledgers>(
    alloc: Global,
    state: &mut State,
    book: &mut WorldBook<K>,
    event: &Event,
) -> Result<Reply, AllocError>
    ensures follows { IfOk result (λ reply. FollowsInBook state.old book.old (λ machine next. Step machine event.now reply next) state.new book.new) }
    ensures spent { IfOk result (λ reply. SpendsAt event.now reply state.old.servers.items state.new.servers.items) }
{
    match event {
        Event::Read {
            session,
            server,
            key,
        } => Ok(state.read(*session, *server, key)),
        Event::Write {
            session,
            server,
            program,
        } => {
            let program = program.copy(alloc)?;
            state.write(alloc, *session, *server, program)
        }
        Event::Again(session) => state.again(alloc, *session),
        Event::Deliver(session) => state.deliver(*session),
        Event::Lose(session) => Ok(state.lose(*session)),
        Event::Offer(server) => state.offer(*server),
        Event::Collect { server, offer } => state.collect(alloc, *server, *offer),
        Event::Take { server, item } => state.take(alloc, *server, *item),
        Event::Fuse { server, call, kept } => Ok(state.fuse(*server, *call, *kept)),
        Event::Reopen(server) => Ok(state.reopen(alloc, *server)),
        Event::Restart(server) => Ok(state.restart(alloc, *server)),
        Event::File(session) => Ok(book.file(state, *session)),
    }
}

/// The events one after another, and what they are answered.
fn play<K: Ledgers>(
    alloc: Global,
    state: &mut State,
    book: &mut WorldBook<K>,
    events: &[Event],
) -> Result<Vec<Reply>, AllocError>
    ensures so_far { IfOk result (λ replies. (first : Machine) → IsGoodMachine first → AreTagged first → IsOf state.old first → IsBookOf book.old first → SoFar first events.now replies.items state.new book.new) }
    ensures charged { IfOk result (λ replies. AreCharged (length state.old.servers.items) [] [] state.old.servers.items → AreCharged (length state.old.servers.items) events.now replies.items state.new.servers.items) }
{
    let mut replies = Vec::new(alloc);
    for event in events {
        replies.push(step(alloc, state, book, event)?)?;
    }
    Ok(replies)
}

/// What a run leaves whose operations had these answers.
fn leave(
    alloc: Global,
    state: State,
    replies: Vec<Reply>,
    totals: Totals,
) -> Result<RunHistory, AllocError>
    ensures { IfOk result (λ history. IsLeft state.servers.items state.served.items replies.items totals history) }
{
    let State {
        mut servers,
        served,
        ..
    } = state;
    let dumps = dumps_of(alloc, &servers)?;
    if !are_ample(&mut servers) {
        return Err(AllocError);
    }
    Ok(RunHistory {
        replies,
        served,
        dumps,
        totals,
    })
}

/// The servers and sessions as a run begins.
fn first_state(alloc: Global, world: World) -> Result<State, AllocError>
    ensures { IfOk result (IsFirstState world) }
{
    let World {
        servers,
        sessions,
        ..
    } = world;
    Ok(State {
        servers,
        sessions: seats(alloc, &sessions)?,
        offers: Vec::new(alloc),
        items: Vec::new(alloc),
        served: Vec::new(alloc),
    })
}

/// The events, with a book of their own: what they are answered, and the totals of what was entered.
fn play_in_book<K: Ledgers>(
    alloc: Global,
    blanks: Blanks,
    state: &mut State,
    events: &[Event],
) -> Result<(Vec<Reply>, Totals), AllocError>
    requires blanks { AreBlanksOf blanks (named K.Slips.name K.Slips.parts) (named K.Reads.name K.Reads.parts) (named K.Writes.name K.Writes.parts) (named K.Refusals.name K.Refusals.parts) SESSIONS_NUMBER }
    ensures booked { IfOk result (λ played. IsBooked state.old events.now played.0.items played.1 state.new) }
    ensures charged { IfOk result (λ played. AreCharged (length state.old.servers.items) [] [] state.old.servers.items → AreCharged (length state.old.servers.items) events.now played.0.items state.new.servers.items) }
{
    let mut book = WorldBook::<K>::new(alloc, blanks, capacity_for(events))?;
    let replies = play(alloc, state, &mut book, events)?;
    Ok((replies, book.totals()))
}

/// A run whose book counts in these ledgers.
fn run_with<K: Ledgers>(
    alloc: Global,
    blanks: Blanks,
    world: World,
    events: &[Event],
) -> Result<RunHistory, AllocError>
    requires blanks { AreBlanksOf blanks (named K.Slips.name K.Slips.parts) (named K.Reads.name K.Reads.parts) (named K.Writes.name K.Writes.parts) (named K.Refusals.name K.Refusals.parts) SESSIONS_NUMBER }
    ensures history { IfOk result (IsRunHistory world events.now) }
    ensures fused { IfOk result (λ history. AreFused world.count events.now history.replies.items) }
{
    let mut state = first_state(alloc, world)?;
    let (replies, totals) = play_in_book::<K>(alloc, blanks, &mut state, events)?;
    leave(alloc, state, replies, totals)
}

/// The same, with a ledger for each of the four totals.
fn run_over<S, T, U, V>(
    alloc: Global,
    blanks: Blanks,
    world: World,
    events: &[Event],
) -> Result<RunHistory, AllocError>
where
    S: Ledger + Send + Sync,
    T: Ledger + Send + Sync,
    U: Ledger + Send + Sync,
    V: Ledger + Send + Sync,
    requires blanks { AreBlanksOf blanks (named S.name S.parts) (named T.name T.parts) (named U.name U.parts) (named V.name V.parts) SESSIONS_NUMBER }
    ensures history { IfOk result (IsRunHistory world events.now) }
    ensures fused { IfOk result (λ history. AreFused world.count events.now history.replies.items) }
{
    run_with::<Four<S, T, U, V>>(alloc, blanks, world, events)
}

impl World {
    /// So many servers, each of which may hold so many Writes, and these sessions, as new ones: of two with one name the first
    /// counts. A world keeps nothing from a run to the next, so that each run is the first one.
    pub fn new(
        alloc: Global,
        count: u8,
        limit: u32,
        sessions: &[Session],
    ) -> Result<Self, AllocError>
        requires count { count ≤ SERVERS_NUMBER }
        requires limit { limit ≤ MAX_WRITES }
        requires runs { All (λ (session : Told). session.run ≡ FIRST_RUN_NUMBER) sessions.now }
        ensures { IfOk result (λ world. world ≡ record { count = count; limit = limit; sessions = sessions.now }) }
    {
        let mut servers = Vec::new(alloc);
        for index in 0..count {
            let id = ServerId { index };
            servers.push(WorldServer::begin(alloc, Role { id, count, limit })?)?;
        }
        Ok(World {
            count,
            limit,
            servers,
            sessions: Vec::from_slice(alloc, sessions)?,
        })
    }

    /// Runs the events, and gives what they leave, of which the judge answers that each session had what it asked for. Where memory is
    /// refused, the world is gone; that of an operation, an item or a Collect is a reply, but where an append found none: so a failed
    /// device call is one for which a fuse was set.
    pub fn run(self, alloc: Global, events: &[Event]) -> Result<RunHistory, AllocError>
        ensures history { IfOk result (IsRunHistory self events.now) }
        ensures fused { IfOk result (λ history. AreFused self.count events.now history.replies.items) }
        ensures judged { IfOk result (λ history. IsJudgedClean self.count history.served.items (lists_of history.dumps.items)) }
    {
        every_run_is_judged_clean();
        let blanks = Blanks {
            slips: Blank::new(SESSIONS as u64),
            reads: Blank::new(SESSIONS as u64),
            writes: Blank::new(SESSIONS as u64),
            refusals: Blank::new(SESSIONS as u64),
        };
        run_over::<Brand, Brand, Brand, Brand>(alloc, blanks, self, events)
    }
}
