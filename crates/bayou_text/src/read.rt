ghost use Rattle.std.specs.Prelude.{◌≡◌, ◌≤◌, length, map, IfOk, IfErr, IfSome};
ghost use Rattle.bayou_base.specs.declared.limits.TheConstants.{MAX_LINE_BYTES};
ghost use Rattle.serde_json.specs.View.{view};
ghost use Rattle.bayou_text.specs.Reading.{Answers, Gives};
ghost use Rattle.bayou_text.specs.Said.{Said, said};
ghost use Rattle.bayou_text.specs.Lines as grammar;
ghost use Rattle.bayou_text.specs.Lines.{IsRefusalOf};
ghost use Rattle.bayou_text.specs.Table.{Spells};

use crate::command::{Attempt, Command, Operation, Question};
use crate::line::{Line, LineFault, Shape};
use crate::read::asks::asks_in;
use crate::read::audit::{entry_in, held_in};
use crate::read::number::{count_in, limit_in, server_in, session_in};
use crate::read::program::program_in;
use crate::read::retry::retry_in;
use crate::read::spelled::spelled_entry;
use crate::read::spelled_held::spelled_held;
use crate::read::spelled_operation::spelled_operation;
use crate::read::value::{key_in, worded};
use bayou_base::{MAX_LINE_BYTES, ServerId};
use serde_json::Value;
use std::alloc::Global;
use std::str;

mod asked;
mod asks;
mod audit;
mod exchange;
mod glance;
mod number;
mod part;
mod program;
mod retry;
pub mod spelled;
mod spelled_check;
pub mod spelled_held;
mod spelled_operation;
pub mod spelled_program;
mod trial;
mod value;
mod vector;

/// What a line says, which has no line feed, or its first fault. Numbers are as `serde_json` keeps them: `1.0`, `1e2`
/// and `-0` are no integers. Of equal members of an object the last counts.
pub fn read_line(alloc: Global, bytes: &[u8]) -> Result<Line, LineFault>
    // What is answered is what the bytes spell, by the table of the lines.
    ensures found { IfOk result (λ line. Spells bytes.now (said line)) }
    // Bytes that spell a line are read as that line, unless memory runs out.
    ensures only { (line : Said) → Spells bytes.now line → Gives said result (Ok line) }
    ensures exact { IfOk result (λ line. grammar.line_of bytes.now ≡ Ok (said line)) }
    // Else it is the first fault, in the order of the grammar.
    ensures fault { IfErr result (IsRefusalOf bytes.now) }
{
    if bytes.len() > MAX_LINE_BYTES {
        return Err(LineFault::BadShape(Shape::Line));
    }
    if let Some(line) = spelled_line(alloc, bytes) {
        return Ok(line);
    }
    match str::from_utf8(bytes) {
        Ok(text) => read_text(alloc, text),
        Err(_) => Err(LineFault::NotJson),
    }
}

/// What the line says, where it stands in a spelling that most lines of scripts and of audit files have. It is read without a tree of JSON.
fn spelled_line(alloc: Global, bytes: &[u8]) -> Option<Line>
    requires { length bytes.now ≤ MAX_LINE_BYTES }
    ensures { IfSome result (λ line. Spells bytes.now (said line)) }
{
    if let Some(line) = spelled_operation(alloc, bytes) {
        return Some(line);
    }
    match spelled_entry(alloc, bytes) {
        Some(line) => Some(line),
        None => spelled_held(alloc, bytes),
    }
}

fn read_text(alloc: Global, text: &str) -> Result<Line, LineFault>
    ensures { Gives said result (grammar.text_line text.now) }
{
    match Value::from_str(alloc, text) {
        Ok(json) => line_in(alloc, &json),
        Err(fault) => {
            if fault.is_memory() {
                Err(LineFault::OutOfMemory)
            } else {
                Err(LineFault::NotJson)
            }
        }
    }
}

#[tactic(auto, unfolding(crate::specs::Lines::line_in))]
fn line_in(alloc: Global, json: &Value) -> Result<Line, LineFault>
    ensures { Gives said result (grammar.line_in (view json.now)) }
{
    let Some((word, parts)) = worded(json) else {
        return Err(LineFault::BadShape(Shape::Line));
    };
    if word == "entry" {
        return entry_in(parts);
    }
    if word == "held" {
        return held_in(alloc, parts);
    }
    command_in(alloc, word, parts)
}

fn command_in(alloc: Global, word: &str, parts: &[Value]) -> Result<Line, LineFault>
    ensures { Gives said result (grammar.command_of word.now (map view parts.now)) }
{
    if word == "servers" {
        return servers_in(parts);
    }
    if word == "session" {
        return opening_in(parts);
    }
    if word == "write" {
        return writing_in(alloc, parts);
    }
    if word == "read" {
        return reading_in(parts);
    }
    if word == "log" {
        return Ok(Line::Command(Command::Question(Question::Log(alone_in(parts)?))));
    }
    retry_in(word, parts)
}

#[tactic(auto, unfolding(crate::specs::Lines::servers_in))]
fn servers_in(parts: &[Value]) -> Result<Line, LineFault>
    ensures { Answers said result (grammar.servers_in (map view parts.now)) }
{
    match parts {
        [count] => Ok(Line::Servers {
            count: count_in(count)?,
            limit: None,
        }),
        [count, limit] => Ok(Line::Servers {
            count: count_in(count)?,
            limit: Some(limit_in(limit)?),
        }),
        _ => Err(LineFault::BadShape(Shape::Arity)),
    }
}

#[tactic(auto, unfolding(crate::specs::Lines::opening_in))]
fn opening_in(parts: &[Value]) -> Result<Line, LineFault>
    ensures { Answers said result (grammar.opening_in (map view parts.now)) }
{
    let [session, asks] = parts else {
        return Err(LineFault::BadShape(Shape::Arity));
    };
    Ok(Line::Command(Command::Session {
        session: session_in(session)?,
        asks: asks_in(asks)?,
    }))
}

#[tactic(auto, unfolding(crate::specs::Lines::writing_in))]
fn writing_in(alloc: Global, parts: &[Value]) -> Result<Line, LineFault>
    ensures { Gives said result (grammar.writing_in (map view parts.now)) }
{
    let [session, server, program] = parts else {
        return Err(LineFault::BadShape(Shape::Arity));
    };
    Ok(Line::Command(Command::Operation(Operation {
        session: session_in(session)?,
        attempt: Attempt::Write {
            server: server_in(server)?,
            program: program_in(alloc, program)?,
        },
    })))
}

#[tactic(auto, unfolding(crate::specs::Lines::reading_in))]
fn reading_in(parts: &[Value]) -> Result<Line, LineFault>
    ensures { Answers said result (grammar.reading_in (map view parts.now)) }
{
    let [session, server, key] = parts else {
        return Err(LineFault::BadShape(Shape::Arity));
    };
    Ok(Line::Command(Command::Operation(Operation {
        session: session_in(session)?,
        attempt: Attempt::Read {
            server: server_in(server)?,
            key: key_in(key)?,
        },
    })))
}

/// The server that a command takes alone.
#[tactic(auto, unfolding(crate::specs::Lines::alone_in))]
fn alone_in(parts: &[Value]) -> Result<ServerId, LineFault>
    ensures { Answers (λ server. server.index) result (grammar.alone_in (map view parts.now)) }
{
    let [server] = parts else {
        return Err(LineFault::BadShape(Shape::Arity));
    };
    server_in(server)
}
