//! The lines of what is final at a store.
ghost use Rattle.std.specs.Prelude.{◌≡◌, IfOk, string_bytes};
ghost use Rattle.bayou_print.specs.Standing.{forgotten_text, key_standing_text, standing_row_text, standing_text};

use crate::printed::found;
use bayou_base::{Key, SessionId, Value, Wid};
use bayou_final::Standing;
use bayou_wire::{Became, Placed};
use std::alloc::{AllocError, Global};

/// The line of how a session's own Write stands, and of what became of it, or that this is unknown.
pub fn standing_line(
    alloc: Global,
    session: SessionId,
    standing: Standing,
    wid: Wid,
    placed: &Option<Placed>,
) -> Result<String, AllocError>
    ensures { IfOk result (λ line. string_bytes line ≡ standing_text session.index standing wid placed.now) }
{
    let (session, word) = (session.index, standing.word());
    let (origin, seq) = (wid.origin.index, wid.seq);
    let Some(placed) = placed else {
        return format!(in alloc; "{session} {word} {origin}:{seq} unknown\n");
    };
    match placed.became {
        Became::Updated => format!(in alloc; "{session} {word} {origin}:{seq} update\n"),
        Became::Merged(alternative) => format!(in alloc;
            "{session} {word} {origin}:{seq} merge {alternative}\n"
        ),
        Became::Nothing => format!(in alloc; "{session} {word} {origin}:{seq} none\n"),
    }
}

/// The line of how the value of a key stands that a session read.
pub fn key_standing_line(
    alloc: Global,
    session: SessionId,
    standing: Standing,
    key: &Key,
) -> Result<String, AllocError>
    ensures { IfOk result (λ line. string_bytes line ≡ key_standing_text session.index standing key.now) }
{
    let (session, word, key) = (session.index, standing.word(), key.as_str());
    format!(in alloc; "{session} {word} {key}\n")
}

/// The line of a key that has a value, and of how that stands.
pub fn standing_row_line(
    alloc: Global,
    key: &Key,
    value: &Option<Value>,
    standing: Standing,
) -> Result<String, AllocError>
    ensures { IfOk result (λ line. string_bytes line ≡ standing_row_text key.now value.now standing) }
{
    let (key, word) = (key.as_str(), standing.word());
    let found = found(alloc, value)?;
    format!(in alloc; "{key} {found} {word}\n")
}

/// The line of an own Write of a session that isn't kept any longer, though it isn't final.
pub fn forgotten_line(alloc: Global, session: SessionId, wid: Wid) -> Result<String, AllocError>
    ensures { IfOk result (λ line. string_bytes line ≡ forgotten_text session.index wid) }
{
    let session = session.index;
    let (origin, seq) = (wid.origin.index, wid.seq);
    format!(in alloc; "{session} forgot {origin}:{seq}\n")
}
