//! A server that lives, from its start to its end.
ghost use Rattle.std.specs.Prelude.{◌≡◌, ◌-◌, ◌*◌, ◌^◌, ◌≤◌, ◌↔◌, ℕ, List, IfErr, IfOk, IfSome, MatchResult, None, OnOk, min, string_bytes, true, vec_len};
ghost use Rattle.std.specs.Thread.{IsSend};
ghost use Rattle.bayou_base.specs.declared.limits.TheConstants.{DESKS_OF_A_PEER};
ghost use Rattle.bayou_node.specs.Books.{IsBlankOf, begun_of};
ghost use Rattle.bayou_print.specs.Living.{serving_text};
ghost use Rattle.bayou_serve.specs.declared.fault.ServeFault.TheVariants.{Output as OutputFault, OwnLost};
ghost use Rattle.bayou_serve.specs.Lived.{IsBeforeServing, PrintsLife};
ghost use Rattle.bayou_serve.specs.Told.{damaged_text, torn_text};
ghost use Rattle.bayou_streams.specs.Account.{TakesBytes, account};

use crate::comparing::Comparison;
use crate::descriptors::look_for_descriptors;
use crate::fault::ServeFault;
use crate::greeting::store_server;
use crate::hall::ServiceHall;
use crate::keeper::keep_up;
use crate::left_out::look_for_left_out;
use crate::marking::{ServerMark, UNMARKED, look_for_mark, lose, open_mark, put_away};
use crate::peers::{Visiting, keep_pulling};
use crate::plan::{Beginning, ServicePlan};
use crate::reception::Reception;
use crate::restoring::restore_journal;
use crate::rollcall::Rollcall;
use crate::rooms::{Room, Rooms};
use crate::starting::{Careful, StartedServer, forget_new, start_at};
use crate::staying::until_input_ends;
use crate::straying::{LivingJournal, keep_watch};
use crate::teller::Teller;
use crate::watched::FileExtent;
use bayou_base::limits::{DESKS_OF_A_PEER, WAITING_CONNECTIONS};
use bayou_device::Device;
use bayou_greeting::StoreKey;
use bayou_handshake::StoreServer;
use bayou_journal::DamagedEntry;
use bayou_key_file::{keep_label, look_for_label};
use bayou_net::{Door, Sockets, attend, shut};
use bayou_node::{Desk, Desks, Node};
use bayou_print::{held_line, serving_line, settled_line, write_text};
use bayou_server::Server;
use bayou_streams::Output;
use std::alloc::{AllocError, Global};
use std::fs::{File, Files};
use std::io::{Read, Write};
use std::marker::Brand;
use std::net::TcpListener;
use std::random::RandomSource;
use std::sync::Wait;
use std::sync::ledger::Blank;
use std::thread;
use std::thread::{Scope, Threads};
use std::time::Clock;

/// What is served, and what says when it ends.
#[derive(Drop)]
struct Life<'s, D, L: Desks, M: Device, E> {
    plan: &'s ServicePlan,
    journal: LivingJournal<'s>,
    node: &'s Node<D, L>,
    listener: &'s TcpListener,
    hall: &'s ServiceHall,
    mark: &'s ServerMark<M>,
    teller: &'s Teller<E>,
    rollcall: &'s Rollcall,
    rooms: &'s Rooms,
    own: &'s StoreServer,
    comparison: &'s Comparison,
}

/// How a server began to serve, and where that was printed.
#[derive(Drop)]
struct Begun<'a, W> {
    output: &'a mut Output<W>,
    ended: Result<(), ServeFault>,
}

// Writes a line, or has the output at fault.
fn print<W: Write>(output: &mut Output<W>, line: &str) -> Result<(), ServeFault>
    ensures whole { OnOk result (TakesBytes (account W.contents output.old) (account W.contents output.new) line.now) }
    ensures fault { IfErr result (λ fault. fault ≡ OutputFault) }
{
    match write_text(output, line.as_bytes()) {
        Ok(()) => Ok(()),
        Err(_) => Err(ServeFault::Output),
    }
}

// Begins to ask each peer and to pull from it, and to keep the server up, each in a thread of its own. What has no thread is reported.
fn begin_beside<'s, Env, D, L, M, E, T>(
    scope: &'s Scope<'s, Env>,
    rt: &'s T,
    alloc: Global,
    life: &Life<'s, D, L, M, E>,
)
where
    D: Device + Send + Sync,
    L: Desks + Send + Sync,
    M: Device + Send,
    E: Write + Send + Drop,
    T: Wait + Clock + RandomSource + Sockets + Send + Sync,
{
    let Life {
        plan,
        node,
        hall,
        mark,
        teller,
        rollcall,
        own,
        comparison,
        ..
    } = *life;
    let (limit, every) = (plan.habits.limit, plan.habits.every_seconds);
    for peer in plan.peers.iter() {
        let peer = *peer;
        let visiting = Visiting {
            own,
            hall,
            mark,
            teller,
            rollcall,
            comparison,
        };
        let begun = scope.spawn(move || keep_pulling(rt, alloc, node, peer, every, &visiting));
        if begun.is_err() {
            rollcall.answered(rt, peer.id, false);
            teller.tell(
                rt,
                "bayou: no thread for a peer: nothing is pulled from it\n",
            );
        }
    }
    let begun = scope.spawn(move || keep_up(rt, alloc, node, limit, hall, mark, teller));
    if begun.is_err() {
        teller.tell(
            rt,
            "bayou: no thread for the keeper: a server that goes down stays down\n",
        );
    }
}

// Serves at each desk, while the closure runs, until the server ends. All desks come back; where nobody was served, the closure didn't run.
fn attend_all<D, L, M, E, T, X, F>(
    rt: &T,
    alloc: Global,
    life: &Life<'_, D, L, M, E>,
    desks: Vec<Desk<L>>,
    meanwhile: F,
) -> Result<(Vec<Desk<L>>, X), Vec<Desk<L>>>
where
    D: Device + Send + Sync,
    L: Desks + Send + Sync,
    M: Device + Send,
    E: Write + Send + Drop,
    T: Threads + Wait + Clock + RandomSource + Sockets + Send + Sync,
    X: Drop,
    F: FnOnce() -> X + Drop,
    requires { F.IsAlwaysCallable meanwhile }
    ensures desks { MatchResult result (λ ended. vec_len ended.0 ≡ vec_len desks) (λ left. vec_len left ≡ vec_len desks) }
    ensures called { IfOk result (λ ended. F.post meanwhile ended.1) }
{
    let Life {
        node,
        listener,
        hall,
        teller,
        rooms,
        plan,
        own,
        comparison,
        journal,
        ..
    } = *life;
    let reception = Reception {
        node,
        hall,
        rooms,
        clock: rt,
        teller,
        comparison,
        own,
        limit: plan.habits.limit,
        without: journal.without,
    };
    let door = Door {
        host: &reception,
        listener,
        stop: &hall.stop,
        is_short: &hall.is_short,
    };
    let ended = attend(
        rt,
        alloc,
        &door,
        desks,
        move |unserved| -> X
            requires { F.IsAlwaysCallable meanwhile }
            ensures { F.post meanwhile result }
        {
            if unserved > 0 {
                teller.tell(rt, "bayou: fewer threads than connections\n");
            }
            meanwhile()
        },
    );
    // Whoever pulls and keeps the server up ends too.
    hall.end();
    ended
}

// The same, while the peers are asked, Writes are pulled from each of them, and the server is kept up.
fn live<D, L, M, E, T, X, F>(
    rt: &T,
    alloc: Global,
    life: &Life<'_, D, L, M, E>,
    desks: Vec<Desk<L>>,
    meanwhile: F,
) -> Result<(Vec<Desk<L>>, X), Vec<Desk<L>>>
where
    D: Device + Send + Sync,
    L: Desks + Send + Sync,
    M: Device + Send,
    E: Write + Send + Drop,
    T: Threads + Wait + Clock + RandomSource + Sockets + Send + Sync,
    X: Drop,
    F: FnOnce() -> X + Drop,
    requires { F.IsAlwaysCallable meanwhile }
    ensures desks { MatchResult result (λ ended. vec_len ended.0 ≡ vec_len desks) (λ left. vec_len left ≡ vec_len desks) }
    ensures called { IfOk result (λ ended. F.post meanwhile ended.1) }
{
    thread::scope(
        thread::scope_env(),
        rt,
        move |scope| -> Result<(Vec<Desk<L>>, X), Vec<Desk<L>>>
            requires { F.IsAlwaysCallable meanwhile × IsSend T.row × IsSend L.row × IsSend D.row × IsSend M.row × IsSend E.row }
            ensures desks { MatchResult result (λ ended. vec_len ended.0 ≡ vec_len desks) (λ left. vec_len left ≡ vec_len desks) }
            ensures called { IfOk result (λ ended. F.post meanwhile ended.1) }
        {
            begin_beside(scope, rt, alloc, life);
            attend_all(rt, alloc, life, desks, meanwhile)
        },
    )
}

// Tells that it takes connections, and what it holds.
fn print_serving<D: Device, L: Desks, M: Device, W: Write, E, T: Wait>(
    rt: &T,
    alloc: Global,
    life: &Life<'_, D, L, M, E>,
    output: &mut Output<W>,
) -> Result<(), ServeFault>
    ensures printed { OnOk result ((address counts : List ℕ) × TakesBytes (account W.contents output.old) (account W.contents output.new) (serving_text life.now.plan.now.id.index address life.now.plan.now.servers counts)) }
    ensures unserved { IfErr result (λ fault. IsBeforeServing fault → output.new ≡ output.old) }
{
    let plan = life.plan;
    let Ok(address) = life.listener.local_addr() else {
        return Err(ServeFault::Port);
    };
    let address = format!(in alloc; "{address}")?;
    let held = life.node.offer(rt);
    let line = serving_line(alloc, plan.id, address.as_str(), plan.servers, &held)?;
    print(output, line.as_str())
}

// The server, with its journal as the plan has it begin: one that is lost is made again first, and then gone on from.
fn begin<'e, E, T>(
    rt: &T,
    alloc: Global,
    plan: &ServicePlan,
    own: &StoreServer,
    path: &str,
    extent: &'e FileExtent,
    teller: &Teller<E>,
) -> Result<StartedServer<'e>, ServeFault>
where
    E: Write,
    T: Wait + Clock + Files<File = File> + RandomSource + Sockets,
    ensures started { IfOk result (λ started. (started.server.core.id ≡ plan.now.id.index) × (started.server.core.count ≡ plan.now.servers) × (started.server.core.limit ≡ plan.now.habits.limit)) }
{
    let left_out = format!(in alloc; "{path}.without")?;
    let mut beginning = plan.habits.beginning;
    if beginning == Beginning::Restore {
        restore_journal(rt, alloc, plan, own, path, left_out.as_str(), teller)?;
        beginning = Beginning::GoOn;
    }
    let without = look_for_left_out(rt, alloc, left_out.as_str(), beginning)?;
    let mut started = start_at(rt, alloc, plan, path, beginning, extent)?;
    started.without = without;
    Ok(started)
}

// Waits until the peers were asked. What one has of the server that must have: else it would give names twice. A server that lost some is marked.
fn look_for_loss<D: Device, L: Desks, M: Device, E: Write, T: Wait + Clock>(
    rt: &T,
    life: &Life<'_, D, L, M, E>,
) -> Result<(), ServeFault>
    ensures { IfErr result (λ fault. (peer : ℕ) × (fault ≡ OwnLost peer)) }
{
    let Some(peer) = life.rollcall.wait(rt) else {
        return Ok(());
    };
    if !lose(rt, life.hall, life.mark).is_marked {
        life.teller.tell(rt, UNMARKED);
    }
    Err(ServeFault::OwnLost(peer.index))
}

// Has Writes made from now on, if the server lost none of its own as far as its peers know, and tells that it takes connections.
fn open<D: Device, L: Desks, M: Device, W: Write, E: Write, T: Wait + Clock>(
    rt: &T,
    alloc: Global,
    life: &Life<'_, D, L, M, E>,
    output: &mut Output<W>,
) -> Result<(), ServeFault>
    ensures printed { OnOk result ((address counts : List ℕ) × TakesBytes (account W.contents output.old) (account W.contents output.new) (serving_text life.now.plan.now.id.index address life.now.plan.now.servers counts)) }
    ensures unserved { IfErr result (λ fault. IsBeforeServing fault → output.new ≡ output.old) }
{
    look_for_loss(rt, life)?;
    // Whoever reads the line finds it open.
    let _ = life.hall.open(rt);
    print_serving(rt, alloc, life, output)
}

// Looks after the journal, until the input ends, where the plan asks for that, or for ever. It runs where the server was started, since a thread that
// was spawned can't look at files.
fn stay<D, L, M, I, E, T>(rt: &T, alloc: Global, life: &Life<'_, D, L, M, E>, input: I)
where
    L: Desks,
    M: Device,
    I: Read + Send + Drop,
    E: Write,
    T: Threads + Wait + Clock + Files<File = File> + Send + Sync,
{
    let Life {
        plan,
        journal,
        hall,
        teller,
        ..
    } = *life;
    let every = plan.habits.every_seconds;
    if plan.habits.until_input_ends {
        until_input_ends(
            rt,
            input,
            hall,
            teller,
            || keep_watch(rt, alloc, journal, every, hall, teller),
        );
    } else {
        keep_watch(rt, alloc, journal, every, hall, teller);
    }
}

// What was lent is used no more.
fn give_back<W>(output: &mut Output<W>)
    ensures { output.new ≡ output.old }
{
    let _ = output;
}

// Serves at each desk until the server is asked to end, and tells how it began; where it didn't begin it ends at once. The copy of its socket is there
// before, since one may not be had then.
fn live_begun<D, L, M, I, W, E, T>(
    rt: &T,
    alloc: Global,
    life: &Life<'_, D, L, M, E>,
    desks: Vec<Desk<L>>,
    copy: TcpListener,
    input: I,
    output: &mut Output<W>,
) -> Result<(Vec<Desk<L>>, Result<(), ServeFault>), Vec<Desk<L>>>
where
    D: Device + Send + Sync,
    L: Desks + Send + Sync,
    M: Device + Send,
    I: Read + Send + Drop,
    W: Write,
    E: Write + Send + Drop,
    T: Threads + Wait + Clock + Files<File = File> + RandomSource + Sockets + Send + Sync,
    ensures desks { MatchResult result (λ ended. vec_len ended.0 ≡ vec_len desks) (λ left. vec_len left ≡ vec_len desks) }
    ensures printed { IfOk result (λ lived. OnOk lived.1 ((address counts : List ℕ) × TakesBytes (account W.contents output.old) (account W.contents output.new) (serving_text life.now.plan.now.id.index address life.now.plan.now.servers counts))) }
    ensures unserved { IfOk result (λ lived. IfErr lived.1 (λ fault. IsBeforeServing fault → output.new ≡ output.old)) }
{
    let lent = &mut *output;
    let lived = live(
        rt,
        alloc,
        life,
        desks,
        move || -> Begun<'_, W>
            ensures same { result.output.ghost_name ≡ lent.entry.ghost_name }
            ensures printed { OnOk result.ended ((address counts : List ℕ) × TakesBytes (account W.contents lent.entry.now) (account W.contents result.output.now) (serving_text life.entry.now.plan.now.id.index address life.entry.now.plan.now.servers counts)) }
            ensures unserved { IfErr result.ended (λ fault. IsBeforeServing fault → result.output.now ≡ lent.entry.now) }
        {
            let ended = open(rt, alloc, life, lent);
            if ended.is_ok() {
                stay(rt, alloc, life, input);
            }
            life.hall.end();
            let _ = shut(copy);
            Begun {
                output: lent,
                ended,
            }
        },
    );
    match lived {
        Ok(lived) => {
            let (desks, begun) = lived;
            let Begun { output, ended } = begun;
            give_back(output);
            Ok((desks, ended))
        }
        Err(left) => Err(left),
    }
}

// How many connections of peers are served at once.
fn desks_of_peers(plan: &ServicePlan) -> u32
    ensures { result ≡ min (DESKS_OF_A_PEER * vec_len plan.now.peers) (2 ^ 32 - 1) }
{
    let peers = u32::try_from(plan.peers.len()).unwrap_or(u32::MAX);
    DESKS_OF_A_PEER.saturating_mul(peers)
}

// How many threads take connections: for each that is served at once one, and for each that may wait.
fn threads_of(plan: &ServicePlan) -> u32
    ensures { plan.now.habits.connections ≤ result }
{
    plan.habits
        .connections
        .saturating_add(desks_of_peers(plan))
        .saturating_add(WAITING_CONNECTIONS)
}

// Serves the node from its first connection to an end that was asked for, and prints what its books come to. It tells whether anybody may have been served.
fn serve_node<L, M, I, W, E, T>(
    rt: &T,
    alloc: Global,
    blank: Blank,
    threads: u32,
    server: Server<Careful<'_>>,
    journal: LivingJournal<'_>,
    plan: &ServicePlan,
    own: &StoreServer,
    comparison: &Comparison,
    listener: &TcpListener,
    mark: &ServerMark<M>,
    input: I,
    output: &mut Output<W>,
    teller: &Teller<E>,
    is_open: &mut bool,
) -> Result<(), ServeFault>
where
    L: Desks + Send + Sync,
    M: Device + Send,
    I: Read + Send + Drop,
    W: Write,
    E: Write + Send + Drop,
    T: Threads + Wait + Clock + Files<File = File> + RandomSource + Sockets + Send + Sync,
    requires blank { IsBlankOf blank L.name L.parts threads × (begun_of server.core ≡ L.begun) }
    ensures lived { OnOk result (PrintsLife plan.now.id.index plan.now.servers (account W.contents output.old) (account W.contents output.new)) }
    ensures unserved { IfErr result (λ fault. IsBeforeServing fault → output.new ≡ output.old) }
    ensures open { OnOk result (is_open.new ≡ true) }
    ensures shut { IfErr result (λ fault. IsBeforeServing fault → is_open.new ≡ is_open.old) }
{
    let Ok((node, desks)) = Node::<Careful<'_>, L>::new(alloc, blank, server, threads) else {
        return Err(ServeFault::Memory);
    };
    let rooms = Rooms {
        clients: Room::new(alloc, plan.habits.connections)?,
        peers: Room::new(alloc, desks_of_peers(plan))?,
    };
    let Ok(copy) = listener.try_clone() else {
        return Err(ServeFault::Port);
    };
    let hall = ServiceHall::new(threads, plan.habits.idle_seconds);
    let rollcall = Rollcall::of(rt, plan.peers.len());
    let life = Life {
        plan,
        journal,
        node: &node,
        listener,
        hall: &hall,
        mark,
        teller,
        rollcall: &rollcall,
        rooms: &rooms,
        own,
        comparison,
    };
    let Ok((desks, ended)) = live_begun(rt, alloc, &life, desks, copy, input, output) else {
        return Err(ServeFault::Memory);
    };
    ended?;
    *is_open = true;
    let Ok(settled) = node.settle(desks) else {
        unreachable!();
    };
    let line = settled_line(alloc, plan.id, &settled)?;
    print(output, line.as_str())?;
    let line = held_line(alloc, plan.id, plan.servers, &settled.vector)?;
    print(output, line.as_str())
}

// The line of what a start dropped of the journal of this name, if anything.
fn dropped_line(
    alloc: Global,
    path: &str,
    dropped: usize,
    entry: Option<DamagedEntry>,
) -> Option<Result<String, AllocError>>
    ensures none { result ≡ None ↔ (entry ≡ None) × (dropped ≡ 0) }
    ensures damaged { IfSome entry (λ entry. IfSome result (λ made. IfOk made (λ line. string_bytes line ≡ damaged_text path.now entry))) }
    ensures torn { entry ≡ None → IfSome result (λ made. IfOk made (λ line. string_bytes line ≡ torn_text path.now dropped)) }
{
    match entry {
        Some(entry) => Some(format!(in alloc; "bayou: {path}: {entry}\n")),
        None if dropped > 0 => Some(format!(in alloc;
            "bayou: dropped {dropped} bytes of {path}\n"
        )),
        None => None,
    }
}

// Tells what a start dropped of the journal of this name, if anything.
fn tell_dropped<E: Write, T: Wait>(
    rt: &T,
    alloc: Global,
    path: &str,
    started: &StartedServer<'_>,
    teller: &Teller<E>,
) {
    if let Some(line) = dropped_line(alloc, path, started.dropped, started.entry) {
        teller.tell_made(rt, line);
    }
}

// Serves what the plan says, with the server that was started, whose mark is open. It tells whether anybody may have been served.
fn serve_started<M, I, W, E, T>(
    rt: &T,
    alloc: Global,
    paths: ServicePaths<'_>,
    plan: &ServicePlan,
    own: &StoreServer,
    started: StartedServer<'_>,
    extent: &FileExtent,
    mark: &ServerMark<M>,
    input: I,
    output: &mut Output<W>,
    teller: &Teller<E>,
    is_open: &mut bool,
) -> Result<(), ServeFault>
where
    M: Device + Send,
    I: Read + Send + Drop,
    W: Write,
    E: Write + Send + Drop,
    T: Threads + Wait + Clock + Files<File = File> + RandomSource + Sockets + Send + Sync,
    requires { (started.server.core.id ≡ plan.now.id.index) × (started.server.core.count ≡ plan.now.servers) × (started.server.core.limit ≡ plan.now.habits.limit) }
    ensures lived { OnOk result (PrintsLife plan.now.id.index plan.now.servers (account W.contents output.old) (account W.contents output.new)) }
    ensures unserved { IfErr result (λ fault. IsBeforeServing fault → output.new ≡ output.old) }
    ensures open { OnOk result (is_open.new ≡ true) }
    ensures shut { IfErr result (λ fault. IsBeforeServing fault → is_open.new ≡ is_open.old) }
{
    let path = paths.journal;
    tell_dropped(rt, alloc, path, &started, teller);
    let StartedServer {
        server,
        file,
        without,
        ..
    } = started;
    let journal = LivingJournal {
        path,
        file,
        extent,
        without,
    };
    let Ok(listener) = TcpListener::bind(rt, plan.listen) else {
        return Err(ServeFault::Port);
    };
    // Nobody else has the journal by now, and nobody was served yet.
    keep_label(rt, alloc, paths.label, &own.key)?;
    let comparison = Comparison::new(alloc)?;
    let threads = threads_of(plan);
    let blank = Blank::new(u64::from(threads));
    serve_node::<Brand, M, I, W, E, T>(
        rt,
        alloc,
        blank,
        threads,
        server,
        journal,
        plan,
        own,
        &comparison,
        &listener,
        mark,
        input,
        output,
        teller,
        is_open,
    )
}

/// The files of a server, by their names.
#[derive(Clone, Copy, Debug)]
pub struct ServicePaths<'a> {
    pub journal: &'a str,
    /// What says of which store the journal is.
    pub label: &'a str,
}

/// Serves what the plan says, as a server of the store that has this key, or of an open one, with the journal in this file, until the input ends, where the
/// plan asks for that, or for ever. What is reported beside the printed lines goes to the teller. A server that is marked beside its journal as one that lost
/// Writes of its own isn't served, but for one whose journal is made again; nor is one whose label says that it is of another store. That anybody is
/// served no clause can say, nor that it ends where it is asked to.
pub fn serve_plan<I, W, E, T>(
    rt: &T,
    alloc: Global,
    paths: ServicePaths<'_>,
    key: Option<StoreKey>,
    plan: &ServicePlan,
    input: I,
    output: &mut Output<W>,
    teller: &Teller<E>,
) -> Result<(), ServeFault>
where
    I: Read + Send + Drop,
    W: Write,
    E: Write + Send + Drop,
    T: Threads + Wait + Clock + Files<File = File> + RandomSource + Sockets + Send + Sync,
    ensures lived { OnOk result (PrintsLife plan.now.id.index plan.now.servers (account W.contents output.old) (account W.contents output.new)) }
    ensures unserved { IfErr result (λ fault. IsBeforeServing fault → output.new ≡ output.old) }
{
    let (path, beginning) = (paths.journal, plan.habits.beginning);
    let own = store_server(plan, key);
    look_for_descriptors(rt, alloc)?;
    let _ = look_for_label(rt, alloc, paths.label, &own.key)?;
    let mark_path = format!(in alloc; "{path}.mark")?;
    look_for_mark(rt, mark_path.as_str(), beginning)?;
    let extent = FileExtent::unknown();
    let started = begin(rt, alloc, plan, &own, path, &extent, teller)?;
    let mut is_open = false;
    let ended = match open_mark(rt, alloc, mark_path.as_str(), beginning) {
        Ok(mark) => serve_started(
            rt,
            alloc,
            paths,
            plan,
            &own,
            started,
            &extent,
            &mark,
            input,
            output,
            teller,
            &mut is_open,
        ),
        Err(fault) => {
            drop(started);
            Err(fault)
        }
    };
    put_away(rt, mark_path.as_str());
    if !is_open {
        forget_new(rt, path, beginning);
    }
    ended
}
