//! A program for tests: a run over sockets with as many servers as a vector counts, which no script may have.
#![tactic(auto)]

use bayou_base::{Asks, ServerId, SessionId};
use bayou_fakes::values::{put, resting};
use bayou_net::Sockets;
use bayou_print::Ended;
use bayou_script::{NetworkCommand, Servers};
use bayou_socket_run::run_commands;
use bayou_streams::Output;
use bayou_text::{Attempt, Operation, Question};
use std::alloc::Global;
use std::collections::VecDeque;
use std::fs;
use std::fs::{File, Files};
use std::io::Write;
use std::net::{TcpListener, TcpStream};
use std::process::ExitCode;
use std::sync::Wait;
use std::thread::Threads;

/// How many servers there are.
const NUMBER: u8 = 16;

/// One session has each server write.
fn add_writes(alloc: Global, commands: &mut VecDeque<NetworkCommand>) -> Option<()> {
    let session = SessionId::new(0)?;
    for index in 0..NUMBER {
        let attempt = Attempt::Write {
            server: ServerId::new(index)?,
            program: resting(alloc, &put(i64::from(index))?)?,
        };
        let operation = Operation { session, attempt };
        commands
            .push_back(NetworkCommand::Operation(operation))
            .ok()?;
    }
    Some(())
}

/// Each server takes from the one before it.
fn add_pulls(commands: &mut VecDeque<NetworkCommand>) -> Option<()> {
    for index in 1..NUMBER {
        let (to, from) = (ServerId::new(index)?, ServerId::new(index - 1)?);
        commands.push_back(NetworkCommand::Pull { to, from }).ok()?;
    }
    Some(())
}

/// The commands of the run.
fn commands(alloc: Global) -> Option<VecDeque<NetworkCommand>> {
    let mut commands = VecDeque::new(alloc);
    let session = SessionId::new(0)?;
    let asks = Asks::default();
    commands
        .push_back(NetworkCommand::Session { session, asks })
        .ok()?;
    add_writes(alloc, &mut commands)?;
    commands.push_back(NetworkCommand::Phase).ok()?;
    add_pulls(&mut commands)?;
    let last = ServerId::new(NUMBER - 1)?;
    commands
        .push_back(NetworkCommand::Question(Question::Log(last)))
        .ok()?;
    Some(commands)
}

/// Removes the journals of the servers in this folder.
fn clear<T: Files<File = File>>(rt: &T, alloc: Global, folder: &str) -> Option<()> {
    for index in 0..NUMBER {
        let path = format!(in alloc; "{folder}/server-{index}.journal").ok()?;
        let _ = fs::remove_file(rt, path.as_str());
    }
    Some(())
}

/// What the run prints in this folder, if it ends clean.
fn printed<T>(rt: &T, alloc: Global, folder: &str) -> Option<Vec<u8>>
where
    T: Threads + Wait + Files<File = File> + Sockets + Send + Sync,
{
    let (mut text, mut told) = (Vec::new(alloc), Vec::new(alloc));
    let servers = Servers {
        count: NUMBER,
        limit: 100,
    };
    let ended = run_commands(
        rt,
        alloc,
        folder,
        servers,
        commands(alloc)?,
        &mut Output::new(&mut text),
        &mut Output::new(&mut told),
    );
    (ended == Ok(Ended::Clean) && told.is_empty()).then_some(text)
}

/// Sixteen servers write, take from one another, and are settled, each by its own node.
fn main(rt: HostRuntime) -> ExitCode {
    let alloc = rt.alloc();
    // What runs asks these of the runtime, and the prover wants to find them named here.
    let _file: Option<File> = None;
    let _stream: Option<TcpStream> = None;
    let _listener: Option<TcpListener> = None;
    let _ = clear(&rt, alloc, ".");
    let printed = printed(&rt, alloc, ".");
    let _ = clear(&rt, alloc, ".");
    match printed {
        Some(text) if rt.stdout().write_all(&text).is_ok() => ExitCode::SUCCESS,
        _ => ExitCode::FAILURE,
    }
}
