//! The lines of a person at a store.
ghost use Rattle.std.specs.Prelude.{◌≡◌, ◌≤◌, IfOk, option_copied, string_bytes};
ghost use Rattle.bayou_base.specs.declared.limits.TheConstants.{SERVERS};
ghost use Rattle.bayou_print.specs.Connected.{away_text, became_text, dumped_text, mixed_text, row_text, rows_text, seat_text, server_text, without_text};

use crate::printed::{Counts, found};
use bayou_base::{Key, ServerId, SessionId, Value, Vector, Wid};
use bayou_wire::{Became, Placed};
use std::alloc::{AllocError, Global};

/// What a reopening prints whose server isn't reached.
pub const REOPEN_AWAY: &str = "reopen refused away\n";

/// What a list prints where nothing, or not all, came.
pub const LIST_LOST: &str = "list lost\n";

/// The line of an operation for which no server was reached: nothing was sent.
pub fn away_line(alloc: Global, session: SessionId) -> Result<String, AllocError>
    ensures { IfOk result (λ line. string_bytes line ≡ away_text session.index) }
{
    let session = session.index;
    format!(in alloc; "{session} refused away\n")
}

/// What a server tells that it holds, and how many Writes it may hold, if it tells that, and without whom its journal was last made again, if another
/// server was left out.
#[derive(Clone, Copy, Debug, PartialEq, Eq)]
pub struct Holds {
    pub vector: Vector,
    pub limit: Option<u32>,
    pub without: Option<ServerId>,
}

// That a server was left out as a journal was made again, where one was.
fn without_words(alloc: Global, without: Option<ServerId>) -> Result<String, AllocError>
    ensures { IfOk result (λ words. string_bytes words ≡ without_text without) }
{
    match without {
        None => Ok(String::new(alloc)),
        Some(server) => {
            let server = server.index;
            format!(in alloc; ", restored without server {server}: what was final may have changed")
        }
    }
}

/// The line of what a server holds, or that it isn't reached.
pub fn server_line(
    alloc: Global,
    server: ServerId,
    servers: u8,
    held: &Option<Holds>,
) -> Result<String, AllocError>
    requires { servers ≤ SERVERS }
    ensures { IfOk result (λ line. string_bytes line ≡ server_text server.index servers held.now) }
{
    let server = server.index;
    match held {
        None => format!(in alloc; "server {server} away\n"),
        Some(held) => {
            let vector = &held.vector;
            let counts = Counts { vector, servers };
            let without = without_words(alloc, held.without)?;
            let without = without.as_str();
            match held.limit {
                None => format!(in alloc; "server {server} at {counts}{without}\n"),
                Some(limit) => {
                    let sum = vector.total();
                    format!(in alloc;
                        "server {server} at {counts} holds {sum} of {limit}{without}\n"
                    )
                }
            }
        }
    }
}

/// The line of a key that has a value.
pub fn row_line(alloc: Global, key: &Key, value: &Option<Value>) -> Result<String, AllocError>
    ensures { IfOk result (λ line. string_bytes line ≡ row_text key.now value.now) }
{
    let key = key.as_str();
    let found = found(alloc, value)?;
    format!(in alloc; "{key} {found}\n")
}

// That rows are listed as they stood at more than one time, where they are.
fn mixed_word(is_mixed: bool) -> &'static str
    ensures { result.now ≡ mixed_text is_mixed }
{
    if is_mixed { " mixed" } else { "" }
}

/// The line after the rows of a list: what their keys begin with, if only such were asked for, how many keys they are, whether they are listed as they
/// stood at more than one time, and what was held then.
pub fn rows_line(
    alloc: Global,
    prefix: Option<&Key>,
    keys: usize,
    is_mixed: bool,
    servers: u8,
    vector: &Vector,
) -> Result<String, AllocError>
    requires { servers ≤ SERVERS }
    ensures { IfOk result (λ line. string_bytes line ≡ rows_text (option_copied prefix.entry) keys is_mixed servers vector.now) }
{
    let mixed = mixed_word(is_mixed);
    let counts = Counts { vector, servers };
    match prefix {
        None => format!(in alloc; "list keys {keys}{mixed} at {counts}\n"),
        Some(prefix) => {
            let prefix = prefix.as_str();
            format!(in alloc; "list {prefix} keys {keys}{mixed} at {counts}\n")
        }
    }
}

/// The line of what became of a Write, as a server tells it that holds it, or that it is unknown.
pub fn became_line(
    alloc: Global,
    session: SessionId,
    wid: Wid,
    placed: &Option<Placed>,
) -> Result<String, AllocError>
    ensures { IfOk result (λ line. string_bytes line ≡ became_text session.index wid placed.now) }
{
    let session = session.index;
    let (origin, seq) = (wid.origin.index, wid.seq);
    let Some(placed) = placed else {
        return format!(in alloc; "{session} became {origin}:{seq} unknown\n");
    };
    match placed.became {
        Became::Updated => format!(in alloc; "{session} became {origin}:{seq} update\n"),
        Became::Merged(alternative) => format!(in alloc;
            "{session} became {origin}:{seq} merge {alternative}\n"
        ),
        Became::Nothing => format!(in alloc; "{session} became {origin}:{seq} none\n"),
    }
}

/// The line of what a server sent into the book.
pub fn dumped_line(
    alloc: Global,
    server: ServerId,
    writes: Option<usize>,
) -> Result<String, AllocError>
    ensures { IfOk result (λ line. string_bytes line ≡ dumped_text server.index writes) }
{
    let server = server.index;
    match writes {
        None => format!(in alloc; "dump {server} away\n"),
        Some(writes) => format!(in alloc; "dump {server} writes {writes}\n"),
    }
}

/// The line of what a session has read and written.
pub fn seat_line(
    alloc: Global,
    session: SessionId,
    servers: u8,
    reads: &Vector,
    writes: &Vector,
) -> Result<String, AllocError>
    requires { servers ≤ SERVERS }
    ensures { IfOk result (λ line. string_bytes line ≡ seat_text session.index servers reads.now writes.now) }
{
    let session = session.index;
    let read = Counts {
        vector: reads,
        servers,
    };
    let wrote = Counts {
        vector: writes,
        servers,
    };
    format!(in alloc; "session {session} read {read} wrote {wrote}\n")
}
