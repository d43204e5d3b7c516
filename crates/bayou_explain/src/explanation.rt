//! What explains an audit, whole.
ghost use Rattle.std.specs.Prelude.{◌≡◌, ◌++◌, ℕ, IfOk, List, string_bytes};
ghost use Rattle.bayou_judge.specs.History.{lent_lists};
ghost use Rattle.bayou_explain.specs.Explanation.{TellEach, TellsDump, TellsRefusal, audited_line, bad_dump_text, counted_line, misfit_lines};

use crate::dumped::held_at;
use crate::explained::{explain_each, held};
use crate::line::Located;
use crate::misfit::{DumpMisfit, misfit_at, misfit_text};
use crate::refused::explain_forged;
use crate::telling::{explained_text, forged_text, line_text};
use bayou_base::ServerId;
use bayou_judge::{BadEvidence, Breach};
use bayou_lang::RestingWrite;
use std::alloc::{AllocError, Global};

/// Each of the breaches as a person reads it, one after another; nothing where there is none.
pub fn explanation_text(
    alloc: Global,
    lines: &[Located<'_>],
    breaches: &[Breach],
) -> Result<String, AllocError>
    ensures { IfOk result (λ text. TellEach breaches.now (string_bytes text)) }
{
    let list = explain_each(alloc, lines, breaches)?;
    let mut text = String::new(alloc);
    for explained in list.as_slice() {
        let told = explained_text(alloc, explained)?;
        text.push_str(told.as_str())?;
    }
    Ok(text)
}

// The line that a bad dump's explanation begins with.
fn dump_title(alloc: Global, server: ServerId, place: usize) -> Result<String, AllocError>
    ensures { IfOk result (λ text. string_bytes text ≡ bad_dump_text server.index place) }
{
    let server = server.index;
    format!(in alloc; "the Write at place {place} of server {server}'s dump can't be there\n")
}

// The line that a misfit names.
fn other_text(
    alloc: Global,
    lines: &[Located<'_>],
    misfit: Option<DumpMisfit>,
) -> Result<String, AllocError> {
    match misfit {
        Some(DumpMisfit::Other { server, wid }) => {
            line_text(alloc, "against", held(lines, server, wid))
        }
        _ => Ok(String::new(alloc)),
    }
}

// Which condition the Write fails, if it fails one.
fn reason_text(alloc: Global, misfit: Option<DumpMisfit>) -> Result<String, AllocError>
    ensures { IfOk result (λ text. string_bytes text ≡ misfit_lines misfit) }
{
    match misfit {
        Some(misfit) => misfit_text(alloc, misfit),
        None => Ok(String::new(alloc)),
    }
}

// Of a Write that can't stand in the server's dump: its line, that of the misfit, and which condition it fails.
fn dump_lines(
    alloc: Global,
    lines: &[Located<'_>],
    server: ServerId,
    place: usize,
    misfit: Option<DumpMisfit>,
) -> Result<String, AllocError>
    ensures { IfOk result (λ text. (shown : List ℕ) × (string_bytes text ≡ bad_dump_text server.index place ++ (shown ++ misfit_lines misfit))) }
{
    let title = dump_title(alloc, server, place)?;
    let line = line_text(alloc, "the Write", held_at(lines, server, place))?;
    let other = other_text(alloc, lines, misfit)?;
    let shown = format!(in alloc; "{line}{other}")?;
    let reason = reason_text(alloc, misfit)?;
    format!(in alloc; "{title}{shown}{reason}")
}

// Of the first Write at which the server's dump can't be true: its line, and which condition it fails.
fn dump_text(
    alloc: Global,
    lines: &[Located<'_>],
    count: u8,
    dumps: &[&[RestingWrite]],
    server: ServerId,
    place: usize,
) -> Result<String, AllocError>
    ensures { IfOk result (λ text. TellsDump count (lent_lists dumps.now) server.index place (string_bytes text)) }
{
    let misfit = misfit_at(count, dumps, server, place);
    dump_lines(alloc, lines, server, place, misfit)
}

/// Why the verdict on lines and on the dumps that they tell is refused: which condition an entry fails, or a Write of a dump. It is empty where the lines aren't those
/// of the evidence.
pub fn refusal_text(
    alloc: Global,
    lines: &[Located<'_>],
    count: u8,
    dumps: &[&[RestingWrite]],
    bad: BadEvidence,
) -> Result<String, AllocError>
    ensures { IfOk result (λ text. TellsRefusal lines.now count (lent_lists dumps.now) bad (string_bytes text)) }
{
    match bad {
        BadEvidence::BadDump(server, place) => dump_text(alloc, lines, count, dumps, server, place),
        BadEvidence::Forged(number) => match explain_forged(lines, number) {
            Some(forged) => forged_text(alloc, number, &forged),
            None => Ok(String::new(alloc)),
        },
    }
}

/// How many breaches there are in all, in a line.
pub fn counted_text(alloc: Global, breaches: usize) -> Result<String, AllocError>
    ensures { IfOk result (λ text. string_bytes text ≡ counted_line breaches) }
{
    format!(in alloc; "breaches in all: {breaches}\n")
}

/// What was audited, in a line.
pub fn audited_text(
    alloc: Global,
    servers: u8,
    entries: usize,
    writes: usize,
) -> Result<String, AllocError>
    ensures { IfOk result (λ text. string_bytes text ≡ audited_line servers entries writes) }
{
    format!(in alloc; "audited: servers {servers} entries {entries} held {writes}\n")
}
