//! Where each server stands.
ghost use Rattle.std.specs.Prelude.{◌≡◌, ◌<◌, ◌≤◌, IfOk, length, string_bytes};
ghost use Rattle.bayou_base.specs.declared.limits.TheConstants.{SERVERS};
ghost use Rattle.bayou_judge.specs.History.{lent_lists};
ghost use Rattle.bayou_explain.specs.Standing.{comma_text, counts_text, stand_text, standing_line, stands_text};

use crate::counted::counts_of;
use crate::misfit::dump_at;
use bayou_base::SERVERS;
use bayou_lang::RestingWrite;
use std::alloc::{AllocError, Global};

// What stands before a count.
fn comma(at: usize) -> &'static str
    ensures { result.now ≡ comma_text at }
{
    if at == 0 { "" } else { "," }
}

// The first so many counts.
pub(crate) fn first_counts(
    alloc: Global,
    counts: &[usize; SERVERS],
    size: usize,
) -> Result<String, AllocError>
    requires { size ≤ SERVERS }
    ensures { IfOk result (λ text. string_bytes text ≡ counts_text counts.now size) }
{
    let mut text = String::new(alloc);
    for at in 0..size {
        let (comma, count) = (comma(at), counts[at]);
        let more = format!(in alloc; "{comma}{count}")?;
        text.push_str(more.as_str())?;
    }
    Ok(text)
}

// What a server holds.
fn stand(alloc: Global, dumps: &[&[RestingWrite]], server: usize) -> Result<String, AllocError>
    requires { length dumps.now ≤ SERVERS }
    ensures { IfOk result (λ text. string_bytes text ≡ stand_text (lent_lists dumps.now) server) }
{
    let counts = counts_of(dump_at(dumps, server));
    let held = first_counts(alloc, &counts, dumps.len())?;
    format!(in alloc; " server {server} {held}")
}

// What the first so many servers hold.
fn stands(alloc: Global, dumps: &[&[RestingWrite]]) -> Result<String, AllocError>
    requires { length dumps.now ≤ SERVERS }
    ensures { IfOk result (λ text. string_bytes text ≡ stands_text (lent_lists dumps.now) (length dumps.now)) }
{
    let mut text = String::new(alloc);
    for server in 0..dumps.len() {
        let more = stand(alloc, dumps, server)?;
        text.push_str(more.as_str())?;
    }
    Ok(text)
}

/// How many Writes of each server each server holds, in a line.
pub fn standing_text(alloc: Global, dumps: &[&[RestingWrite]]) -> Result<String, AllocError>
    requires { length dumps.now ≤ SERVERS }
    ensures { IfOk result (λ text. string_bytes text ≡ standing_line (lent_lists dumps.now)) }
{
    let stands = stands(alloc, dumps)?;
    format!(in alloc; "held:{stands}\n")
}
