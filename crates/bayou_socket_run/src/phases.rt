//! The phases of a script over a network, one after another.
ghost use Rattle.std.specs.Prelude.{◌<◌, ◌≤◌, IfErr, OnOk};
ghost use Rattle.bayou_print.specs.Waiting.{stage};
ghost use Rattle.bayou_socket_run.specs.Inner.Telling.{Tells};
ghost use Rattle.bayou_print.specs.Turns.{EndsWriting};

use crate::faults::in_run;
use bayou_answers::Answer;
use bayou_audit::Ledgers;
use bayou_fleet::{Closing, Inquiry, Network, Phase, RunSession, run_together};
use bayou_net::Sockets;
use bayou_print::{Ended, RunFault, Waiting, write_answer};
use bayou_script::{NetworkCommand, Servers, next_phase};
use bayou_streams::Output;
use std::alloc::Global;
use std::collections::VecDeque;
use std::io::Write;
use std::sync::Wait;
use std::thread::Threads;

/// What servers are asked in a run, and by which sessions.
#[derive(Drop)]
pub(crate) struct Agenda<K: Ledgers> {
    pub(crate) servers: Servers,
    /// The run of the program that the sessions belong to.
    pub(crate) run: u32,
    /// How many connections each server is reached by at the most.
    pub(crate) connections: u32,
    pub(crate) commands: VecDeque<NetworkCommand>,
    /// The sessions, from session 0 on.
    pub(crate) sessions: Vec<RunSession<K>>,
    pub(crate) ghost run_in_range: { 0 < run },
}

/// What a phase came to.
#[derive(Drop)]
struct Passed<K: Ledgers> {
    ended: Ended,
    sessions: Vec<RunSession<K>>,
}

/// Writes what is printed for these answers.
fn write_answers<W: Write>(
    alloc: Global,
    servers: Servers,
    answers: &[Answer],
    output: &mut Output<W>,
    waiting: &mut Waiting,
) -> Result<(), RunFault>
    ensures told { Tells result (stage W.contents output.old waiting.old) (stage W.contents output.new waiting.new) }
    ensures ended { IfErr result (EndsWriting output.new.channel.write_failed output.new.channel.turns_left) }
    ensures ready { OnOk result (output.old.channel.turns_left ≤ output.new.channel.turns_left) }
{
    for answer in answers {
        write_answer(alloc, servers.count, answer, output, waiting)?;
    }
    Ok(())
}

/// Has one of what closes a phase answered, and writes what is printed for it.
fn answer_one<K: Ledgers, T: Wait, W: Write>(
    rt: &T,
    alloc: Global,
    network: &Network<K>,
    inquiry: &mut Inquiry,
    servers: Servers,
    closing: Closing,
    output: &mut Output<W>,
    waiting: &mut Waiting,
) -> Result<Ended, RunFault>
    ensures told { Tells result (stage W.contents output.old waiting.old) (stage W.contents output.new waiting.new) }
    ensures ended { IfErr result (EndsWriting output.new.channel.write_failed output.new.channel.turns_left) }
    ensures ready { OnOk result (output.old.channel.turns_left ≤ output.new.channel.turns_left) }
{
    let answer = in_run(inquiry.answer(rt, alloc, network, closing))?;
    write_answer(alloc, servers.count, &answer, output, waiting)?;
    Ok(Ended::of(&answer))
}

/// Has what closes a phase answered in order, and writes what is printed for it.
fn answer_closings<K: Ledgers, T: Wait, W: Write>(
    rt: &T,
    alloc: Global,
    network: &Network<K>,
    inquiry: &mut Inquiry,
    servers: Servers,
    closings: VecDeque<Closing>,
    output: &mut Output<W>,
    waiting: &mut Waiting,
) -> Result<Ended, RunFault>
    ensures told { Tells result (stage W.contents output.old waiting.old) (stage W.contents output.new waiting.new) }
    ensures ended { IfErr result (EndsWriting output.new.channel.write_failed output.new.channel.turns_left) }
    ensures ready { OnOk result (output.old.channel.turns_left ≤ output.new.channel.turns_left) }
{
    let mut closings = closings;
    let mut ended = Ended::Clean;
    while let Some(closing) = closings.pop_front() {
        let told = answer_one(
            rt, alloc, network, inquiry, servers, closing, output, waiting,
        )?;
        ended = ended.and(told);
    }
    Ok(ended)
}

/// Runs a phase to its end: its sessions and its pulls side by side, and then what closes it. What is printed for it is written.
fn run_phase<K, T, W>(
    rt: &T,
    alloc: Global,
    network: &Network<K>,
    inquiry: &mut Inquiry,
    servers: Servers,
    phase: Phase,
    sessions: Vec<RunSession<K>>,
    output: &mut Output<W>,
    waiting: &mut Waiting,
) -> Result<Passed<K>, RunFault>
where
    K: Ledgers + Send + Sync,
    T: Threads + Wait + Sockets + Send + Sync,
    W: Write,
    ensures told { Tells result (stage W.contents output.old waiting.old) (stage W.contents output.new waiting.new) }
    ensures ended { IfErr result (EndsWriting output.new.channel.write_failed output.new.channel.turns_left) }
    ensures ready { OnOk result (output.old.channel.turns_left ≤ output.new.channel.turns_left) }
{
    let Phase {
        openings,
        operations,
        pulls,
        closings,
    } = phase;
    let together = in_run(run_together(rt, alloc, network, sessions, openings, operations, pulls))?;
    write_answers(alloc, servers, together.answers.as_slice(), output, waiting)?;
    let ended = answer_closings(
        rt, alloc, network, inquiry, servers, closings, output, waiting,
    )?;
    waiting.write(output)?;
    Ok(Passed {
        ended,
        sessions: together.sessions,
    })
}

/// Runs all phases, one after another. Then the links of the sessions are closed.
pub(crate) fn run_phases<K, T, W>(
    rt: &T,
    alloc: Global,
    network: &Network<K>,
    agenda: Agenda<K>,
    output: &mut Output<W>,
    waiting: &mut Waiting,
) -> Result<Ended, RunFault>
where
    K: Ledgers + Send + Sync,
    T: Threads + Wait + Sockets + Send + Sync,
    W: Write,
    ensures told { Tells result (stage W.contents output.old waiting.old) (stage W.contents output.new waiting.new) }
    ensures ended { IfErr result (EndsWriting output.new.channel.write_failed output.new.channel.turns_left) }
    ensures ready { OnOk result (output.old.channel.turns_left ≤ output.new.channel.turns_left) }
{
    let Agenda {
        servers,
        mut commands,
        mut sessions,
        ..
    } = agenda;
    let mut inquiry = in_run(Inquiry::new(rt, alloc, network))?;
    let mut ended = Ended::Clean;
    while let Some(said) = next_phase(alloc, &mut commands)? {
        let phase = Phase::arranged(alloc, said)?;
        let passed = run_phase(
            rt,
            alloc,
            network,
            &mut inquiry,
            servers,
            phase,
            sessions,
            output,
            waiting,
        )?;
        ended = ended.and(passed.ended);
        sessions = passed.sessions;
    }
    Ok(ended)
}
