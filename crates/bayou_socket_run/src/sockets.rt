//! Scripts over sockets: servers with journals in files, each at a port of the loopback address.
ghost use Rattle.std.specs.Thread.{IsSend};
ghost use Rattle.std.specs.Prelude.{◌≡◌, ◌≤◌, IfErr, IfOk, List, Ok, OnOk, ℕ, length, map, min, vec_len};
ghost use Rattle.bayou_audit.specs.Blanks.{AreBlanksOf, named};
ghost use Rattle.bayou_base.specs.declared.limits.TheConstants.{SESSIONS as SESSIONS_NUMBER};
ghost use Rattle.bayou_fleet.specs.Servers.{IsFleetSettled};
ghost use Rattle.bayou_judge.specs.History.{lists_of};
ghost use Rattle.bayou_node.specs.Books.{begun_of};
ghost use Rattle.bayou_socket_run.specs.Inner.Faults.{IsPhaseFault};
ghost use Rattle.bayou_socket_run.specs.Books.{PrintsRun};
ghost use Rattle.bayou_script.specs.NetworkSaid.{network_said};
ghost use Rattle.bayou_socket_run.specs.Inner.Runs.{connections_of, opens_one};
ghost use Rattle.bayou_socket_run.specs.Inner.Settling.{EndsAt, EndsRunAt};
ghost use Rattle.bayou_print.specs.Waiting.{stage};
ghost use Rattle.bayou_socket_run.specs.Inner.Telling.{Tells};
ghost use Rattle.bayou_socket_run.specs.Damage.{TellsStart};
ghost use Rattle.bayou_socket_run.specs.Faults.{IsNetFault, KeepsUnstarted};
ghost use Rattle.bayou_print.specs.Turns.{EndsWriting};
ghost use Rattle.bayou_streams.specs.Account.{TakesBytes, account};

use crate::faults::{fault_of, in_run};
use crate::journals::{Journaled, Started, start_all};
use crate::phases::{Agenda, run_phases};
use crate::settling::{settle, write_books};
use bayou_audit::{AuditBook, Blanks, Four, Ledgers, Share};
use bayou_base::SESSIONS;
use bayou_fleet::{FleetFault, FleetSettled, Network, RunSession, join_servers, start_servers};
use bayou_net::Sockets;
use bayou_print::{Ended, RunFault, Waiting};
use bayou_script::{NetworkCommand, NetworkScript, Servers, capacity_for};
use bayou_streams::Output;
use bayou_text::Attempt;
use std::alloc::{AllocError, Global};
use std::collections::VecDeque;
use std::fs::{File, Files};
use std::io::Write;
use std::marker::Brand;
use std::sync::Wait;
use std::sync::ledger::{Blank, Ledger};
use std::thread;
use std::thread::{Scope, Threads};

/// A run whose servers are started, and live in no thread yet.
#[derive(Drop)]
struct Setting<K: Ledgers> {
    book: AuditBook<K>,
    agenda: Agenda<K>,
    /// The servers, from server 0 on.
    servers: VecDeque<Box<Journaled>>,
}

/// Has each server live in a thread of its own, runs the phases, and has each server end. The output comes back with what waits to be written.
fn run_listened<'s, 'o, E, K, T, W>(
    scope: &'s Scope<'s, E>,
    rt: &'s T,
    alloc: Global,
    network: &'s Network<K>,
    servers: VecDeque<Box<Journaled>>,
    agenda: Agenda<K>,
    output: &'o mut Output<W>,
    waiting: Waiting,
) -> (
    Result<Ended, RunFault>,
    &'o mut Output<W>,
    Waiting,
    Result<FleetSettled, FleetFault>,
)
where
    K: Ledgers + Send + Sync,
    T: Threads + Wait + Sockets + Send + Sync,
    W: Write,
    ensures name { result.1.ghost_name ≡ output.entry.ghost_name }
    ensures told { Tells result.0 (stage W.contents output.entry.now waiting) (stage W.contents result.1.now result.2) }
    ensures ended { IfErr result.0 (EndsWriting result.1.now.channel.write_failed result.1.now.channel.turns_left) }
    ensures ready { OnOk result.0 (output.entry.now.channel.turns_left ≤ result.1.now.channel.turns_left) }
    ensures settled { IfOk result.3 (λ fleet. IsFleetSettled network.now.mailboxes.items (lists_of fleet.dumps.items) fleet.nodes.items) }
{
    let mut waiting = waiting;
    match start_servers(scope, rt, alloc, network, servers, agenda.connections) {
        Ok(threads) => {
            let passed = run_phases(rt, alloc, network, agenda, output, &mut waiting);
            network.stop(rt);
            let settled = join_servers(rt, alloc, &network.mailboxes, threads);
            (passed, output, waiting, settled)
        }
        Err(fault) => {
            network.stop(rt);
            (Err(fault_of(fault)), output, waiting, Err(fault))
        }
    }
}

/// Runs the phases while the servers live, and no longer. The output comes back with what waits to be written.
fn run_meanwhile<'o, K, T, W>(
    rt: &T,
    alloc: Global,
    network: &Network<K>,
    servers: VecDeque<Box<Journaled>>,
    agenda: Agenda<K>,
    output: &'o mut Output<W>,
    waiting: Waiting,
) -> (
    Result<Ended, RunFault>,
    &'o mut Output<W>,
    Waiting,
    Result<FleetSettled, FleetFault>,
)
where
    K: Ledgers + Send + Sync,
    T: Threads + Wait + Sockets + Send + Sync,
    W: Write,
    ensures name { result.1.ghost_name ≡ output.entry.ghost_name }
    ensures told { Tells result.0 (stage W.contents output.entry.now waiting) (stage W.contents result.1.now result.2) }
    ensures ended { IfErr result.0 (EndsWriting result.1.now.channel.write_failed result.1.now.channel.turns_left) }
    ensures ready { OnOk result.0 (output.entry.now.channel.turns_left ≤ result.1.now.channel.turns_left) }
    ensures settled { IfOk result.3 (λ fleet. IsFleetSettled network.now.mailboxes.items (lists_of fleet.dumps.items) fleet.nodes.items) }
{
    thread::scope(
        thread::scope_env(),
        rt,
        move |scope| -> (
            Result<Ended, RunFault>,
            &mut Output<W>,
            Waiting,
            Result<FleetSettled, FleetFault>,
        )
            requires { IsSend K.row × IsSend T.row × IsSend K.Slips.row × IsSend K.Reads.row × IsSend K.Writes.row × IsSend K.Refusals.row }
            ensures name { result.1.ghost_name ≡ output.entry.ghost_name }
            ensures told { Tells result.0 (stage W.contents output.entry.now waiting) (stage W.contents result.1.now result.2) }
            ensures ended { IfErr result.0 (EndsWriting result.1.now.channel.write_failed result.1.now.channel.turns_left) }
            ensures ready { OnOk result.0 (output.entry.now.channel.turns_left ≤ result.1.now.channel.turns_left) }
            ensures settled { IfOk result.3 (λ fleet. IsFleetSettled network.entry.now.mailboxes.items (lists_of fleet.dumps.items) fleet.nodes.items) }
        { run_listened(scope, rt, alloc, network, servers, agenda, output, waiting) },
    )
}

/// Runs the phases, and writes what still waits after them: what was printed before a fault is written too. What the servers came to is given
/// beside.
fn pass<K, T, W>(
    rt: &T,
    alloc: Global,
    network: &Network<K>,
    servers: VecDeque<Box<Journaled>>,
    agenda: Agenda<K>,
    output: &mut Output<W>,
) -> Result<(Ended, Result<FleetSettled, FleetFault>), RunFault>
where
    K: Ledgers + Send + Sync,
    T: Threads + Wait + Sockets + Send + Sync,
    W: Write,
    ensures settled { IfOk result (λ passed. IfOk passed.1 (λ fleet. IsFleetSettled network.now.mailboxes.items (lists_of fleet.dumps.items) fleet.nodes.items)) }
    ensures took { (text : List ℕ) × TakesBytes (account W.contents output.old) (account W.contents output.new) text }
    ensures fault { IfErr result IsPhaseFault }
    ensures ended { IfErr result (EndsWriting output.new.channel.write_failed output.new.channel.turns_left) }
    ensures ready { OnOk result (output.old.channel.turns_left ≤ output.new.channel.turns_left) }
{
    let waiting = Waiting::new(alloc)?;
    let (passed, lent, waiting, settled) = run_meanwhile(
        rt, alloc, network, servers, agenda, output, waiting,
    );
    let ended = waiting.end(passed, lent)?;
    Ok((ended, settled))
}

/// Settles all books once nobody is served any more, and writes what they come to.
fn conclude<K: Ledgers, T: Wait, W: Write>(
    rt: &T,
    alloc: Global,
    network: Network<K>,
    settled: Result<FleetSettled, FleetFault>,
    servers: Servers,
    output: &mut Output<W>,
) -> Result<Ended, RunFault>
    requires number { vec_len network.mailboxes ≡ servers.count }
    requires settled { IfOk settled (λ fleet. IsFleetSettled network.mailboxes.items (lists_of fleet.dumps.items) fleet.nodes.items) }
    ensures prints { IfOk result (λ ended. (text : List ℕ) × EndsAt network.mailboxes.items servers.count ended text × TakesBytes (account W.contents output.old) (account W.contents output.new) text) }
    ensures took { (text : List ℕ) × TakesBytes (account W.contents output.old) (account W.contents output.new) text }
    ensures fault { IfErr result IsPhaseFault }
    ensures ended { IfErr result (EndsWriting output.new.channel.write_failed output.new.channel.turns_left) }
    ensures ready { OnOk result (output.old.channel.turns_left ≤ output.new.channel.turns_left) }
{
    let mut waiting = Waiting::new(alloc)?;
    let fleet = in_run(settled)?;
    let books = in_run(settle(rt, alloc, network.into_book(), fleet, servers))?;
    let told = write_books(alloc, servers, books, output, &mut waiting);
    waiting.end(told, output)
}

/// Runs the phases at a network, and then settles all books.
fn run_at<K, T, W>(
    rt: &T,
    alloc: Global,
    network: Network<K>,
    servers: VecDeque<Box<Journaled>>,
    agenda: Agenda<K>,
    output: &mut Output<W>,
) -> Result<Ended, RunFault>
where
    K: Ledgers + Send + Sync,
    T: Threads + Wait + Sockets + Send + Sync,
    W: Write,
    requires { vec_len network.mailboxes ≡ agenda.servers.count }
    ensures prints { IfOk result (λ ended. EndsRunAt network.mailboxes.items agenda.servers.count ended (account W.contents output.old) (account W.contents output.new)) }
    ensures took { (text : List ℕ) × TakesBytes (account W.contents output.old) (account W.contents output.new) text }
    ensures fault { IfErr result IsPhaseFault }
    ensures ended { IfErr result (EndsWriting output.new.channel.write_failed output.new.channel.turns_left) }
    ensures ready { OnOk result (output.old.channel.turns_left ≤ output.new.channel.turns_left) }
{
    let count = agenda.servers;
    let (passed, settled) = pass(rt, alloc, &network, servers, agenda, output)?;
    let told = conclude(rt, alloc, network, settled, count, output)?;
    Ok(passed.and(told))
}

/// Gives each server a socket, runs the phases over them, and writes what is printed.
#[tactic(auto, using(crate::proofs::Told::took_nothing))]
fn run_setting<K, T, W>(
    rt: &T,
    alloc: Global,
    setting: Setting<K>,
    output: &mut Output<W>,
) -> Result<Ended, RunFault>
where
    K: Ledgers + Send + Sync,
    T: Threads + Wait + Sockets + Send + Sync,
    W: Write,
    requires { length setting.servers.items ≡ setting.agenda.servers.count }
    ensures prints { IfOk result (λ ended. EndsRunAt (map (λ server. begun_of server.value.core) setting.servers.items) setting.agenda.servers.count ended (account W.contents output.old) (account W.contents output.new)) }
    ensures took { (text : List ℕ) × TakesBytes (account W.contents output.old) (account W.contents output.new) text }
    ensures fault { IfErr result IsPhaseFault }
    ensures ended { IfErr result (EndsWriting output.new.channel.write_failed output.new.channel.turns_left) }
    ensures ready { OnOk result (output.old.channel.turns_left ≤ output.new.channel.turns_left) }
{
    let Setting {
        book,
        agenda,
        servers,
    } = setting;
    let (count, run) = (agenda.servers.count, agenda.run);
    let network = in_run(Network::bind(rt, alloc, &servers, count, run, book))?;
    run_at(rt, alloc, network, servers, agenda, output)
}

/// The greatest count of connections.
const MOST: u32 = u32::MAX;

/// Whether the command may open a connection of its own to a server.
fn connects(command: &NetworkCommand) -> bool
    ensures { result ≡ opens_one (network_said command.now) }
{
    match command {
        NetworkCommand::Session { .. } | NetworkCommand::Pull { .. } => true,
        NetworkCommand::Operation(operation) => matches!(&operation.attempt, Attempt::Again),
        NetworkCommand::Reopen(_) | NetworkCommand::Question(_) | NetworkCommand::Phase => false,
    }
}

/// How many connections each server is reached by at the most: one by each session, one by each pull, one by each Write that is asked again,
/// and one for the rest.
fn connections_for(commands: &VecDeque<NetworkCommand>) -> u32
    ensures { result ≡ min (connections_of commands.now.items) MOST }
{
    let mut connections: u32 = 1;
    for at in 0..commands.len() {
        if connects(&commands[at]) {
            connections = connections.saturating_add(1);
        }
    }
    connections
}

/// The sessions whose shares these are, none of which is open.
fn sessions_of<K: Ledgers>(
    alloc: Global,
    shares: Vec<Share<K>>,
) -> Result<Vec<RunSession<K>>, AllocError>
    ensures { IfOk result (λ sessions. vec_len sessions ≡ vec_len shares) }
{
    let mut sessions = Vec::with_capacity(alloc, shares.len())?;
    for share in shares {
        sessions.push(RunSession::Unopened(share))?;
    }
    Ok(sessions)
}

/// Runs the script over these servers, with a book of what is served, and a ledger for each of its four totals.
#[tactic(auto, using(crate::proofs::Told::took_nothing))]
fn run_booked<S, R, U, V, T, W>(
    rt: &T,
    alloc: Global,
    blanks: Blanks,
    started: Started,
    number: Servers,
    commands: VecDeque<NetworkCommand>,
    output: &mut Output<W>,
) -> Result<Ended, RunFault>
where
    S: Ledger + Send + Sync,
    R: Ledger + Send + Sync,
    U: Ledger + Send + Sync,
    V: Ledger + Send + Sync,
    T: Threads + Wait + Sockets + Send + Sync,
    W: Write,
    requires blanks { AreBlanksOf blanks (named S.name S.parts) (named R.name R.parts) (named U.name U.parts) (named V.name V.parts) SESSIONS_NUMBER }
    requires number { length started.servers.items ≡ number.count }
    ensures prints { PrintsRun number.count result (account W.contents output.old) (account W.contents output.new) }
    ensures took { (text : List ℕ) × TakesBytes (account W.contents output.old) (account W.contents output.new) text }
    ensures fault { IfErr result IsPhaseFault }
    ensures ended { IfErr result (EndsWriting output.new.channel.write_failed output.new.channel.turns_left) }
    ensures ready { OnOk result (output.old.channel.turns_left ≤ output.new.channel.turns_left) }
{
    let capacity = capacity_for(&commands);
    let Ok((book, shares)) = AuditBook::<Four<S, R, U, V>>::new(
        alloc,
        blanks,
        SESSIONS as u8,
        capacity,
    ) else {
        return Err(RunFault::Memory);
    };
    let Ok(sessions) = sessions_of(alloc, shares) else {
        return Err(RunFault::Memory);
    };
    let Started { servers, run } = started;
    let agenda = Agenda {
        servers: number,
        run,
        connections: connections_for(&commands),
        commands,
        sessions,
    };
    let setting = Setting {
        book,
        agenda,
        servers,
    };
    run_setting(rt, alloc, setting, output)
}

/// As [`run_on_sockets`], of as many servers as there are.
#[tactic(auto, using(crate::proofs::Told::took_nothing, crate::proofs::Told::start_net, crate::proofs::Told::start_unstarted, crate::proofs::Told::start_writes, crate::proofs::Told::phase_net, crate::proofs::Told::phase_unstarted, crate::proofs::Damaged::ended_so))]
pub fn run_commands<T, W, E>(
    rt: &T,
    alloc: Global,
    folder: &str,
    servers: Servers,
    commands: VecDeque<NetworkCommand>,
    output: &mut Output<W>,
    told: &mut Output<E>,
) -> Result<Ended, RunFault>
where
    T: Threads + Wait + Files<File = File> + Sockets + Send + Sync,
    W: Write,
    E: Write,
    ensures prints { PrintsRun servers.count result (account W.contents output.old) (account W.contents output.new) }
    ensures took { (text : List ℕ) × TakesBytes (account W.contents output.old) (account W.contents output.new) text }
    ensures fault { IfErr result IsNetFault }
    ensures unstarted { KeepsUnstarted result (account W.contents output.old) (account W.contents output.new) }
    ensures told { TellsStart result folder.now servers.count (account E.contents told.old) (account E.contents told.new) }
    ensures ended { IfErr result (EndsWriting output.new.channel.write_failed output.new.channel.turns_left) }
    ensures ready { OnOk result (output.old.channel.turns_left ≤ output.new.channel.turns_left) }
{
    let blanks = Blanks {
        slips: Blank::new(SESSIONS as u64),
        reads: Blank::new(SESSIONS as u64),
        writes: Blank::new(SESSIONS as u64),
        refusals: Blank::new(SESSIONS as u64),
    };
    match start_all(rt, alloc, folder, servers, told) {
        Ok(started) => run_booked::<Brand, Brand, Brand, Brand, T, W>(
            rt, alloc, blanks, started, servers, commands, output,
        ),
        Err(fault) => Err(fault),
    }
}

/// Runs a script over sockets: each of its servers has its journal in the folder of this name, and listens at a port of the loopback address
/// that the system picks; each session has a thread of its own. The lines of a phase are written at its end. Where a journal is damaged, that is
/// reported beside, and so is a last entry that was dropped.
pub fn run_on_sockets<T, W, E>(
    rt: &T,
    alloc: Global,
    folder: &str,
    script: NetworkScript,
    output: &mut Output<W>,
    told: &mut Output<E>,
) -> Result<Ended, RunFault>
where
    T: Threads + Wait + Files<File = File> + Sockets + Send + Sync,
    W: Write,
    E: Write,
    ensures prints { PrintsRun script.servers.count result (account W.contents output.old) (account W.contents output.new) }
    ensures took { (text : List ℕ) × TakesBytes (account W.contents output.old) (account W.contents output.new) text }
    ensures fault { IfErr result IsNetFault }
    ensures unstarted { KeepsUnstarted result (account W.contents output.old) (account W.contents output.new) }
    ensures told { TellsStart result folder.now script.servers.count (account E.contents told.old) (account E.contents told.new) }
    ensures ended { IfErr result (EndsWriting output.new.channel.write_failed output.new.channel.turns_left) }
    ensures ready { OnOk result (output.old.channel.turns_left ≤ output.new.channel.turns_left) }
{
    let NetworkScript { servers, commands } = script;
    run_commands(rt, alloc, folder, servers, commands, output, told)
}
