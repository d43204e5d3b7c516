//! The text that keeps an outlook.
ghost use Rattle.std.specs.Prelude.{◌≤◌};
ghost use Rattle.bayou_base.specs.declared.limits.TheConstants.{SERVERS as NUMBER};

use crate::outlook::{Outlook, OwnWrite};
use bayou_base::{ServerId, Vector};
use bayou_wire::Became;
use hex::encode_to_slice;
use sha2::{Digest, Sha256};
use std::alloc::{AllocError, Global};
use std::str;

/// What the text begins with, before the number of servers.
pub(crate) const HEAD: &str = "bayou-views-1 ";

/// What its lines begin with.
pub(crate) const FINAL: &str = "final ";

pub(crate) const VIEW: &str = "view ";

pub(crate) const OWN: &str = "own ";

pub(crate) const SUM: &str = "sum ";

/// How many bytes a sum has in hexadecimal.
pub(crate) const SUM_BYTES: usize = 64;

/// The sum of these bytes, in hexadecimal, in lower case.
pub(crate) fn sum_of(bytes: &[u8]) -> [u8; SUM_BYTES] {
    let mut sum = [0; SUM_BYTES];
    let _ = encode_to_slice(&Sha256::digest(bytes), &mut sum);
    sum
}

// Puts the first counts of the vector, as many as there are servers.
fn put_counts(text: &mut String, vector: &Vector, servers: u8) -> Result<(), AllocError>
    requires { servers ≤ NUMBER }
{
    for index in 0..servers {
        let separator = if index > 0 { "," } else { "" };
        let count = vector.get(ServerId { index });
        write!(text, "{separator}{count}")?;
    }
    write!(text, "\n")
}

// Puts what was heard of the server, if anything was.
fn put_view(text: &mut String, outlook: &Outlook, server: ServerId) -> Result<(), AllocError> {
    let Some(view) = outlook.finality().views().of(server) else {
        return Ok(());
    };
    let index = server.index;
    write!(text, "{VIEW}{index} ")?;
    put_counts(text, view, outlook.finality().count())
}

// Puts what was heard of each server.
fn put_views(text: &mut String, outlook: &Outlook) -> Result<(), AllocError> {
    for index in 0..outlook.finality().count() {
        put_view(text, outlook, ServerId { index })?;
    }
    Ok(())
}

// Puts an own Write, and what was reported of it last.
fn put_own(text: &mut String, write: &OwnWrite) -> Result<(), AllocError> {
    let (origin, seq, clock) = (write.wid.origin.index, write.wid.seq, write.clock);
    write!(text, "{OWN}{origin}:{seq} {clock} ")?;
    match write.told {
        None => write!(text, "untold\n"),
        Some(Became::Updated) => write!(text, "update\n"),
        Some(Became::Merged(alternative)) => write!(text, "merge {alternative}\n"),
        Some(Became::Nothing) => write!(text, "none\n"),
    }
}

// Puts the own Writes.
fn put_all_own(text: &mut String, outlook: &Outlook) -> Result<(), AllocError> {
    for write in outlook.own() {
        put_own(text, write)?;
    }
    Ok(())
}

/// The text that keeps the outlook: how many servers the store has, what is final, what was heard of each server, and the own Writes; and a sum of it.
pub fn spell_outlook(alloc: Global, outlook: &Outlook) -> Result<String, AllocError> {
    let mut text = String::new(alloc);
    let servers = outlook.finality().count();
    write!(text, "{HEAD}{servers}\n{FINAL}")?;
    put_counts(&mut text, outlook.finality().finals(), servers)?;
    put_views(&mut text, outlook)?;
    put_all_own(&mut text, outlook)?;
    let sum = sum_of(text.as_bytes());
    let sum = str::from_utf8(&sum).unwrap_or("");
    write!(text, "{SUM}{sum}\n")?;
    Ok(text)
}
