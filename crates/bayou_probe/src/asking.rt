//! What a line asks, and who answers it.
use crate::formats::{frame, length, line, person, record, state, stream, write};
use crate::greetings::{code, digests, greeted, greeting, key, proofs};
use crate::servers::{Place, chain, journal, pull, serve};
use bayou_base::ServerId;
use bayou_wire::Form;
use std::alloc::{AllocError, Global};

/// What is reported where the words say nothing that there is.
const UNKNOWN: &str = "unknown";

/// The number in front, and what stands after it.
fn number_in(text: &str) -> Option<(u32, &str)> {
    let (number, rest) = text.split_once(' ').unwrap_or((text, ""));
    Some((number.parse::<u32>().ok()?, rest))
}

/// The server and its limit, and what stands after them.
fn place_in(text: &str) -> Option<(Place, &str)> {
    let (number, rest) = number_in(text)?;
    let id = ServerId::new(u8::try_from(number).ok()?)?;
    let (limit, rest) = number_in(rest)?;
    Some((Place { id, limit }, rest))
}

/// The bytes that the text says in hexadecimal, in which blanks say nothing.
fn bytes_in(alloc: Global, text: &str) -> Option<Vec<u8>> {
    let digits = text.replace(alloc, " ", "").ok()?;
    hex::decode(alloc, digits.as_str()).ok()
}

fn of_bytes(alloc: Global, word: &str, rest: &str) -> Option<Result<String, AllocError>> {
    let bytes = bytes_in(alloc, rest)?;
    match word {
        "frame" => Some(frame(alloc, &bytes)),
        "greeting" => Some(greeting(alloc, &bytes)),
        "frames" => Some(stream(alloc, &bytes)),
        "length" => Some(length(alloc, &bytes)),
        "write" => Some(write(alloc, &bytes)),
        "wide" => Some(record(alloc, Form::Wide, &bytes)),
        "tagged" => Some(record(alloc, Form::Tagged, &bytes)),
        "plain" => Some(record(alloc, Form::Plain, &bytes)),
        "state" => Some(state(alloc, &bytes)),
        _ => None,
    }
}

fn of_server(alloc: Global, word: &str, rest: &str) -> Option<Result<String, AllocError>> {
    let (place, rest) = place_in(rest)?;
    let bytes = bytes_in(alloc, rest)?;
    match word {
        "chain" => Some(chain(alloc, place.id, bytes)),
        "journal" => Some(journal(alloc, place, bytes)),
        "serve" => Some(serve(alloc, place, &bytes)),
        "pull" => Some(pull(alloc, place, &bytes)),
        _ => None,
    }
}

/// What stands between commas, each in hexadecimal.
fn parts_in(alloc: Global, text: &str) -> Option<Vec<Vec<u8>>> {
    let mut parts = Vec::new(alloc);
    for part in text.split(',') {
        parts.push(bytes_in(alloc, part)?).ok()?;
    }
    Some(parts)
}

fn of_parts(alloc: Global, word: &str, rest: &str) -> Option<Result<String, AllocError>> {
    let parts = parts_in(alloc, rest)?;
    match (word, parts.as_slice()) {
        ("hmac", [key, text]) => Some(code(alloc, key, text)),
        ("proofs", [secret, client, server, place]) => proofs(alloc, secret, client, server, place),
        ("digests", writes) => Some(digests(alloc, writes)),
        _ => None,
    }
}

/// A Hello, a key's line and what came, between bars.
fn of_greeting(alloc: Global, rest: &str) -> Option<Result<String, AllocError>> {
    let (hello, rest) = rest.split_once('|')?;
    let (line, welcome) = rest.split_once('|')?;
    greeted(
        alloc,
        &bytes_in(alloc, hello)?,
        line,
        &bytes_in(alloc, welcome)?,
    )
}

/// The answer to a line, whatever it says.
pub(crate) fn answer(alloc: Global, asked: &str) -> Result<String, AllocError> {
    let (word, rest) = asked.split_once(' ').unwrap_or((asked, ""));
    let told = match word {
        "line" => Some(line(alloc, rest)),
        "person" => Some(person(alloc, rest)),
        "key" => Some(key(alloc, rest)),
        "greet" => of_greeting(alloc, rest),
        "hmac" | "proofs" | "digests" => of_parts(alloc, word, rest),
        "chain" | "journal" | "serve" | "pull" => of_server(alloc, word, rest),
        _ => of_bytes(alloc, word, rest),
    };
    told.unwrap_or_else(|| UNKNOWN.to_string(alloc))
}
