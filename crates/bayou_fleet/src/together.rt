//! What is done side by side in a phase: sessions, each in its order, and pulls in theirs.
ghost use Rattle.std.specs.Prelude.{◌≡◌, ◌++◌, IfOk, List, Ok, OnOk, vec_len};
ghost use Rattle.std.specs.List.{AllZip};
ghost use Rattle.std.specs.Thread.{IsSend};
ghost use Rattle.bayou_answers.specs.declared.answer.Answer.{Answer as Told};
ghost use Rattle.bayou_fleet.specs.Opening.{OpensEach, OpensOne};
ghost use Rattle.bayou_fleet.specs.Operating.{IsAnswerTo};
ghost use Rattle.bayou_fleet.specs.declared.together.Going.TheVariants.{Idle};

use crate::fault::FleetFault;
use crate::network::Network;
use crate::phase::{Opening, Phase, Pull};
use crate::pulls::pull_each;
use crate::run_session::{OpenSession, RunSession};
use bayou_answers::Answer;
use bayou_audit::Ledgers;
use bayou_net::Sockets;
use bayou_text::Operation;
use std::alloc::{AllocError, Global};
use std::collections::VecDeque;
use std::sync::Wait;
use std::thread;
use std::thread::{JoinHandle, Scope, Threads};

/// A session that did its operations, with what each was answered.
#[derive(Drop)]
struct Done<K: Ledgers> {
    session: OpenSession<K>,
    answers: Result<Vec<Answer>, AllocError>,
}

/// A session in a phase.
#[derive(Drop)]
enum Going<K: Ledgers> {
    /// It does nothing.
    Idle(RunSession<K>),
    /// It does its operations, in a thread of its own.
    Operates(JoinHandle<Done<K>>),
}

type Pulling = JoinHandle<Result<Vec<Answer>, AllocError>>;

// The session does its operations.
fn operated<K: Ledgers, T: Sockets + Wait>(
    rt: &T,
    alloc: Global,
    network: &Network<K>,
    session: OpenSession<K>,
    operations: Vec<Operation>,
) -> Done<K>
    ensures one_each { IfOk result.answers (λ answers. vec_len answers ≡ vec_len operations) }
    ensures told { IfOk result.answers (λ answers. AllZip (IsAnswerTo session.who) operations.items answers.items) }
{
    let mut session = session;
    let addresses = network.addresses.as_slice();
    let answers = session.operate_all(rt, alloc, &network.book, addresses, operations);
    Done { session, answers }
}

// Begins what the session does in this phase.
fn begin<'s, E, K, T>(
    scope: &'s Scope<'s, E>,
    rt: &'s T,
    alloc: Global,
    network: &'s Network<K>,
    session: RunSession<K>,
    operations: Vec<Operation>,
) -> Result<Going<K>, FleetFault>
where
    K: Ledgers + Send + Sync,
    T: Threads + Wait + Sockets + Send + Sync,
    ensures { vec_len operations ≡ 0 → result ≡ Ok (Idle session) }
{
    if operations.is_empty() {
        return Ok(Going::Idle(session));
    }
    match session {
        RunSession::Open(open) => {
            let started = scope.spawn(
                move || -> Done<K>
                    requires { IsSend K.Slips.row × IsSend K.Reads.row × IsSend K.Writes.row × IsSend K.Refusals.row }
                { operated(rt, alloc, network, open, operations) },
            );
            match started {
                Ok(thread) => Ok(Going::Operates(thread)),
                Err(_) => Err(FleetFault::Memory),
            }
        }
        idle => Ok(Going::Idle(idle)),
    }
}

// Waits for the sessions that go, and drops them: their connections are closed then, so that no server waits for them.
fn join_all<K: Ledgers + Send + Sync, T: Threads>(rt: &T, going: Vec<Going<K>>) {
    for one in going {
        if let Going::Operates(thread) = one {
            let _ = thread.join(rt);
        }
    }
}

// Begins what each session does.
fn begin_all<'s, E, K, T>(
    scope: &'s Scope<'s, E>,
    rt: &'s T,
    alloc: Global,
    network: &'s Network<K>,
    sessions: Vec<RunSession<K>>,
    operations: VecDeque<Vec<Operation>>,
) -> Result<Vec<Going<K>>, FleetFault>
where
    K: Ledgers + Send + Sync,
    T: Threads + Wait + Sockets + Send + Sync,
    ensures { IfOk result (λ going. vec_len going ≡ vec_len sessions) }
{
    let mut operations = operations;
    let mut going = Vec::with_capacity(alloc, sessions.len())?;
    for session in sessions {
        let own = operations.pop_front().unwrap_or(Vec::new(alloc));
        match begin(scope, rt, alloc, network, session, own) {
            Ok(one) => going.push_reserved(one),
            Err(fault) => {
                join_all(rt, going);
                return Err(fault);
            }
        }
    }
    Ok(going)
}

// Begins the pulls, in one thread.
fn begin_pulls<'s, E, K, T>(
    scope: &'s Scope<'s, E>,
    rt: &'s T,
    alloc: Global,
    network: &'s Network<K>,
    pulls: Vec<Pull>,
) -> Result<Pulling, FleetFault>
where
    K: Ledgers + Send + Sync,
    T: Threads + Wait + Sockets + Send + Sync,
{
    match scope.spawn(move || pull_each(
        rt,
        alloc,
        network.mailboxes.as_slice(),
        network.addresses.as_slice(),
        pulls,
    )) {
        Ok(thread) => Ok(thread),
        Err(_) => Err(FleetFault::Memory),
    }
}

// Waits for a session, and puts its answers after the others.
fn end_one<K: Ledgers + Send + Sync, T: Threads>(
    rt: &T,
    going: Going<K>,
    answers: &mut Vec<Answer>,
) -> Result<RunSession<K>, FleetFault>
    ensures { OnOk result ((own : List Told) × (answers.new.items ≡ answers.old.items ++ own)) }
{
    match going {
        Going::Idle(session) => Ok(session),
        Going::Operates(thread) => {
            let Done {
                session,
                answers: own,
            } = thread.join(rt);
            put_all(own?, answers)?;
            Ok(RunSession::Open(session))
        }
    }
}

fn put_all(own: Vec<Answer>, answers: &mut Vec<Answer>) -> Result<(), FleetFault>
    ensures { OnOk result (answers.new.items ≡ answers.old.items ++ own.items) }
{
    for answer in own {
        answers.push(answer)?;
    }
    Ok(())
}

// Waits for all sessions, also where one of them lacked memory.
fn end_all<K: Ledgers + Send + Sync, T: Threads>(
    rt: &T,
    alloc: Global,
    going: Vec<Going<K>>,
    answers: &mut Vec<Answer>,
) -> Result<Vec<RunSession<K>>, FleetFault>
    ensures { IfOk result (λ sessions. vec_len sessions ≡ vec_len going) }
{
    let Ok(mut sessions) = Vec::with_capacity(alloc, going.len()) else {
        join_all(rt, going);
        return Err(FleetFault::Memory);
    };
    let mut fault = None;
    for one in going {
        match end_one(rt, one, answers) {
            Ok(session) => sessions.push_reserved(session),
            Err(why) => fault = Some(why),
        }
    }
    match fault {
        Some(why) => Err(why),
        None => Ok(sessions),
    }
}

// Opens a session that a phase opens.
fn open_one<K: Ledgers, T: Sockets>(
    rt: &T,
    alloc: Global,
    network: &Network<K>,
    sessions: Vec<RunSession<K>>,
    opening: Opening,
) -> Result<Vec<RunSession<K>>, FleetFault>
    ensures opened { IfOk result (λ all. OpensOne network.now.run opening sessions.items all.items) }
    ensures number { IfOk result (λ all. vec_len all ≡ vec_len sessions) }
{
    let at = usize::from(opening.session.index);
    let mut sessions = sessions;
    if at >= sessions.len() {
        return Ok(sessions);
    }
    let session = sessions.remove(at);
    let opened = session.open(
        rt,
        alloc,
        network.run,
        opening.asks,
        network.addresses.as_slice(),
    )?;
    sessions.insert(at, opened)?;
    Ok(sessions)
}

// Opens the sessions that a phase opens, in order.
fn open_all<K: Ledgers, T: Sockets>(
    rt: &T,
    alloc: Global,
    network: &Network<K>,
    sessions: Vec<RunSession<K>>,
    openings: &[Opening],
) -> Result<Vec<RunSession<K>>, FleetFault>
    ensures opened { IfOk result (λ all. OpensEach network.now.run openings.now sessions.items all.items) }
    ensures number { IfOk result (λ all. vec_len all ≡ vec_len sessions) }
{
    let mut sessions = sessions;
    for opening in openings {
        sessions = open_one(rt, alloc, network, sessions, *opening)?;
    }
    Ok(sessions)
}

/// What became of all sessions in a phase.
#[derive(Drop)]
pub struct Together<K: Ledgers> {
    /// The sessions, in order.
    pub sessions: Vec<RunSession<K>>,
    /// The answers to the operations of each session in order, by the sessions' numbers, and after them those to the pulls in order.
    pub answers: Vec<Answer>,
}

// Waits for all sessions, and then for the pulls.
fn end<K: Ledgers + Send + Sync, T: Threads>(
    rt: &T,
    alloc: Global,
    going: Vec<Going<K>>,
    pulling: Pulling,
) -> Result<Together<K>, FleetFault>
    ensures { IfOk result (λ together. vec_len together.sessions ≡ vec_len going) }
{
    let mut answers = Vec::new(alloc);
    let ended = end_all(rt, alloc, going, &mut answers);
    let pulled = pulling.join(rt);
    let sessions = ended?;
    put_all(pulled?, &mut answers)?;
    Ok(Together { sessions, answers })
}

// The sessions and the pulls, side by side.
fn go<'s, E, K, T>(
    scope: &'s Scope<'s, E>,
    rt: &'s T,
    alloc: Global,
    network: &'s Network<K>,
    sessions: Vec<RunSession<K>>,
    operations: VecDeque<Vec<Operation>>,
    pulls: Vec<Pull>,
) -> Result<Together<K>, FleetFault>
where
    K: Ledgers + Send + Sync,
    T: Threads + Wait + Sockets + Send + Sync,
    ensures { IfOk result (λ together. vec_len together.sessions ≡ vec_len sessions) }
{
    let going = begin_all(scope, rt, alloc, network, sessions, operations)?;
    match begin_pulls(scope, rt, alloc, network, pulls) {
        Ok(pulling) => end(rt, alloc, going, pulling),
        Err(fault) => {
            join_all(rt, going);
            Err(fault)
        }
    }
}

/// Opens the sessions of a phase; then each session does its operations in order, in a thread of its own, and the pulls are done in order in
/// another beside them. It ends when all have.
pub fn run_together<K, T>(
    rt: &T,
    alloc: Global,
    network: &Network<K>,
    sessions: Vec<RunSession<K>>,
    openings: Vec<Opening>,
    operations: VecDeque<Vec<Operation>>,
    pulls: Vec<Pull>,
) -> Result<Together<K>, FleetFault>
where
    K: Ledgers + Send + Sync,
    T: Threads + Wait + Sockets + Send + Sync,
    ensures { IfOk result (λ together. vec_len together.sessions ≡ vec_len sessions) }
{
    let sessions = open_all(rt, alloc, network, sessions, &openings)?;
    thread::scope(
        thread::scope_env(),
        rt,
        move |scope| -> Result<Together<K>, FleetFault>
            requires { IsSend K.row × IsSend T.row × IsSend K.Slips.row × IsSend K.Reads.row × IsSend K.Writes.row × IsSend K.Refusals.row }
            ensures { IfOk result (λ together. vec_len together.sessions ≡ vec_len sessions) }
        { go(scope, rt, alloc, network, sessions, operations, pulls) },
    )
}
