//! An outlook from the text that keeps it.

use crate::outlook::{Outlook, OwnWrite};
use crate::spelling::{FINAL, HEAD, OWN, SUM, VIEW, sum_of};
use bayou_base::limits::MAX_OWN_WRITES;
use bayou_base::{SERVERS, ServerId, Vector, Wid};
use bayou_wire::{Became, ServerCount};
use std::alloc::{AllocError, Global};
use std::str;

// The lines before the sum, where that is right: without the last line feed.
fn summed(text: &str) -> Option<&str> {
    let (lines, last) = text.strip_suffix('\n')?.rsplit_once('\n')?;
    let told = last.strip_prefix(SUM)?;
    let sum = sum_of(&text.as_bytes()[..lines.len() + 1]);
    if told.as_bytes() == sum.as_slice() {
        Some(lines)
    } else {
        None
    }
}

// So many counts, with commas between them.
fn counts_in(text: &str, servers: u8) -> Option<Vector> {
    let mut counts = [0; SERVERS];
    let mut told: usize = 0;
    for word in text.split(',') {
        *counts.get_mut(told)? = word.parse::<u32>().ok()?;
        told = told.saturating_add(1);
    }
    if told != usize::from(servers) {
        return None;
    }
    Vector::from_counts(counts)
}

// A server of the store, by its number.
fn server_in(word: &str, servers: u8) -> Option<ServerId> {
    let server = ServerId::new(word.parse::<u8>().ok()?)?;
    if server.index < servers {
        Some(server)
    } else {
        None
    }
}

// What was last reported of an own Write; the outer `None` where these are no words for that.
fn told_in(words: &str) -> Option<Option<Became>> {
    match words {
        "untold" => Some(None),
        "update" => Some(Some(Became::Updated)),
        "none" => Some(Some(Became::Nothing)),
        _ => {
            let number = words.strip_prefix("merge ")?.parse::<u8>().ok()?;
            Some(Some(Became::Merged(number)))
        }
    }
}

// An own Write: its name, its clock, and what was reported of it.
fn own_in(words: &str, servers: u8) -> Option<OwnWrite> {
    let (name, words) = words.split_once(' ')?;
    let (clock, told) = words.split_once(' ')?;
    let (origin, seq) = name.split_once(':')?;
    let wid = Wid::new(server_in(origin, servers)?, seq.parse::<u32>().ok()?)?;
    Some(OwnWrite {
        wid,
        clock: clock.parse::<u32>().ok()?,
        told: told_in(told)?,
    })
}

// Takes a line of a view or of an own Write. Whether it is one.
fn take_line(outlook: &mut Outlook, line: &str) -> Result<bool, AllocError> {
    let servers = outlook.finality().count();
    if let Some(words) = line.strip_prefix(OWN) {
        let Some(write) = own_in(words, servers) else {
            return Ok(false);
        };
        if outlook.own().len() >= MAX_OWN_WRITES {
            return Ok(false);
        }
        outlook.made(write)?;
        return Ok(true);
    }
    Ok(take_view(outlook, line, servers).is_some())
}

// Takes a line of a view, if it is one.
fn take_view(outlook: &mut Outlook, line: &str, servers: u8) -> Option<()> {
    let (server, counts) = line.strip_prefix(VIEW)?.split_once(' ')?;
    let server = server_in(server, servers)?;
    if outlook.finality().views().of(server).is_some() {
        return None;
    }
    let view = counts_in(counts, servers)?;
    outlook.hear(server, &view);
    Some(())
}

// What the first two lines say: of how many servers the store is, and what is final.
fn begun(alloc: Global, first: &str, second: &str) -> Option<Outlook> {
    let servers = ServerCount::new(first.strip_prefix(HEAD)?.parse::<u8>().ok()?)?.count;
    let finals = counts_in(second.strip_prefix(FINAL)?, servers)?;
    Some(Outlook::of(alloc, servers, finals))
}

/// The outlook that the text keeps; nothing where it keeps none.
pub fn read_outlook(alloc: Global, text: &str) -> Result<Option<Outlook>, AllocError> {
    let Some(lines) = summed(text) else {
        return Ok(None);
    };
    let mut lines = lines.split('\n');
    let (Some(first), Some(second)) = (lines.next(), lines.next()) else {
        return Ok(None);
    };
    let Some(mut outlook) = begun(alloc, first, second) else {
        return Ok(None);
    };
    for line in lines {
        if !take_line(&mut outlook, line)? {
            return Ok(None);
        }
    }
    Ok(Some(outlook))
}
