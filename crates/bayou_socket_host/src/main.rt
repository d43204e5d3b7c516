//! A server at a port of the loopback address, over a journal in a file: what tests of sockets start. Its words are the file and how many
//! connections it serves. It prints the port that the system picked, serves, and then prints what its books come to and what it holds.
#![tactic(auto)]

mod fault;
mod hosting;
mod words;

use crate::fault::Fault;
use crate::hosting::host;
use std::env;
use std::io::Write;
use std::process::ExitCode;

fn words_of(rt: &HostRuntime) -> Result<Vec<String>, Fault> {
    let Ok(words) = env::args(rt) else {
        return Err(Fault::Words);
    };
    match words.collect::<Vec<String>>(rt.alloc()) {
        Ok(words) => Ok(words),
        Err(_) => Err(Fault::Memory),
    }
}

fn main(rt: HostRuntime) -> ExitCode {
    let ended = match words_of(&rt) {
        Ok(words) => host(&rt, rt.alloc(), words),
        Err(fault) => Err(fault),
    };
    let Err(fault) = ended else {
        return ExitCode::SUCCESS;
    };
    // Where the fault can't be reported, the status still tells that there was one.
    let _ = writeln!(rt.stderr(), "bayou_socket_host: {}", fault.text());
    ExitCode::from(fault.status())
}
