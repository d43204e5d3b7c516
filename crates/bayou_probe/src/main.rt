//! Hands the bytes and texts of the tables to the store's readers, and prints what came. Each line of the input is a word, what the word wants,
//! and bytes in hexadecimal or a text; each answer is a line. What isn't read so is answered by `!` and the fault.
#![tactic(auto)]

mod asking;
mod formats;
mod greetings;
mod servers;
mod telling;

use crate::asking::answer;
use std::io;
use std::process::ExitCode;

/// The status where the input can't be read or an answer can't be printed.
const FAILED: u8 = 3;

fn main(rt: HostRuntime) -> ExitCode {
    let alloc = rt.alloc();
    let Ok(text) = io::read_to_string(alloc, rt.stdin()) else {
        return ExitCode::from(FAILED);
    };
    for asked in text.lines() {
        let Ok(told) = answer(alloc, asked) else {
            return ExitCode::from(FAILED);
        };
        if println!(&rt; "{told}").is_err() {
            return ExitCode::from(FAILED);
        }
    }
    ExitCode::SUCCESS
}
