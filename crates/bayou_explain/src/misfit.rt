//! Which condition a Write fails that can't stand in a dump.
ghost use Rattle.std.specs.Prelude.{◌≡◌, ◌≢◌, ◌<◌, ◌↔◌, ℕ, IfOk, IsTrue, MatchOption, string_bytes};
ghost use Rattle.std.specs.Bool.{MatchBool};
ghost use Rattle.bayou_judge.specs.Evidence.{IsGood, IsGoodAt};
ghost use Rattle.bayou_judge.specs.History.{dump_of, lent_lists};
ghost use Rattle.bayou_lang.specs.Writes.{Fits, count_of};
ghost use Rattle.bayou_explain.specs.Misfit.{AreSame, HasOther, IsMisfit, IsMisfitAt, IsPast, IsUnfit, misfit_line};

use crate::counted::{clock_among, counts_of, differing, exceeding};
use bayou_base::{ServerId, Wid};
use bayou_lang::RestingWrite;
use std::alloc::{AllocError, Global};

/// Which condition a Write fails, with what is found and what is expected.
#[derive(Clone, Copy, Debug, PartialEq, Eq)]
pub enum DumpMisfit {
    /// There is no server that it says it is of.
    Origin(ServerId),
    /// It isn't the next of its server's Writes, of which so many stand before it.
    Number {
        wid: Wid,
        held: usize,
    },
    /// It counts more Writes of this server than stand before it.
    Counts {
        server: usize,
        counted: u32,
        held: usize,
    },
    /// It doesn't count just those of its own server before it.
    Own {
        wid: Wid,
        counted: u32,
    },
    /// Its clock isn't one more than the greatest that it counts.
    Clock {
        found: u32,
        expected: u64,
    },
    /// It is the server's own, and counts other than all that stand before it.
    Past {
        server: usize,
        counted: u32,
        held: usize,
    },
    /// This smaller server's dump has another Write of its name.
    Other {
        server: ServerId,
        wid: Wid,
    },
}

// Which condition the Write fails beside those before it alone.
fn unfit(count: u8, before: &[RestingWrite], write: &RestingWrite) -> Option<DumpMisfit>
    ensures { MatchOption result (Fits count before.now write.now) (IsUnfit count before.now write.now) }
{
    let (wid, counts) = (write.wid(), counts_of(before));
    if wid.origin.index >= count {
        return Some(DumpMisfit::Origin(wid.origin));
    }
    let held = counts[usize::from(wid.origin.index)];
    if wid.seq as usize - 1 != held {
        return Some(DumpMisfit::Number { wid, held });
    }
    if let Some(server) = exceeding(write.deps(), &counts) {
        let (counted, held) = (write.deps().counts()[server], counts[server]);
        return Some(DumpMisfit::Counts {
            server,
            counted,
            held,
        });
    }
    let counted = write.deps().get(wid.origin);
    if counted + 1 != wid.seq {
        return Some(DumpMisfit::Own { wid, counted });
    }
    let expected = u64::from(clock_among(before, write.deps())) + 1;
    let found = write.stamp().clock;
    if u64::from(found) != expected {
        return Some(DumpMisfit::Clock { found, expected });
    }
    None
}

// Whether it counts other than all that stand before it, and where.
fn past(before: &[RestingWrite], write: &RestingWrite) -> Option<DumpMisfit>
    ensures { MatchOption result (write.now.deps ≡ count_of before.now) (IsPast before.now write.now) }
{
    let counts = counts_of(before);
    let Some(server) = differing(write.deps(), &counts) else {
        return None;
    };
    let (counted, held) = (write.deps().counts()[server], counts[server]);
    Some(DumpMisfit::Past {
        server,
        counted,
        held,
    })
}

// Whether the two are one Write.
fn is_equal(held: &RestingWrite, write: &RestingWrite) -> bool
    ensures { IsTrue result ↔ (held.now ≡ write.now) }
{
    held == write
}

// Whether the two are one name.
fn is_one(wid: Wid, other: Wid) -> bool
    ensures { IsTrue result ↔ (wid ≡ other) }
{
    wid == other
}

// Whether the one is another Write of the other's name.
fn is_other(held: &RestingWrite, write: &RestingWrite) -> bool
    ensures { MatchBool result ((held.now.wid ≡ write.now.wid) × (held.now ≢ write.now)) (held.now.wid ≡ write.now.wid → held.now ≡ write.now) }
{
    if !is_one(held.wid(), write.wid()) {
        return false;
    }
    if is_equal(held, write) {
        return false;
    }
    true
}

// Whether a dump has another Write of this name.
fn has_other(dump: &[RestingWrite], write: &RestingWrite) -> bool
    ensures { MatchBool result (HasOther dump.now write.now) (AreSame dump.now write.now) }
{
    for held in dump {
        if is_other(held, write) {
            return true;
        }
    }
    false
}

// The Writes of the server's dump; beyond the last there are none.
pub(crate) fn dump_at<'a>(dumps: &[&'a [RestingWrite]], server: usize) -> &'a [RestingWrite]
    ensures { result.now ≡ dump_of (lent_lists dumps.now) server }
{
    match dumps.get(server) {
        Some(dump) => dump,
        None => &[],
    }
}

// The first of the smaller servers whose dump has another Write of this name.
fn other_before(
    dumps: &[&[RestingWrite]],
    server: ServerId,
    write: &RestingWrite,
) -> Option<ServerId>
    ensures { MatchOption result ((other : ℕ) → other < server.index → AreSame (dump_of (lent_lists dumps.now) other) write.now)
        (λ other. (other.index < server.index) × HasOther (dump_of (lent_lists dumps.now) other.index) write.now) }
{
    for index in 0..server.index {
        if has_other(dump_at(dumps, usize::from(index)), write) {
            return Some(ServerId { index });
        }
    }
    None
}

// Which condition the Write fails after these, in this server's dump.
fn misfit_among(
    count: u8,
    dumps: &[&[RestingWrite]],
    server: ServerId,
    before: &[RestingWrite],
    write: &RestingWrite,
) -> Option<DumpMisfit>
    ensures { MatchOption result (IsGood count (lent_lists dumps.now) server.index before.now write.now) (IsMisfit count (lent_lists dumps.now) server.index before.now write.now) }
{
    if let Some(misfit) = unfit(count, before, write) {
        return Some(misfit);
    }
    if write.wid().origin.index == server.index
        && let Some(misfit) = past(before, write)
    {
        return Some(misfit);
    }
    match other_before(dumps, server, write) {
        Some(server) => Some(DumpMisfit::Other {
            server,
            wid: write.wid(),
        }),
        None => None,
    }
}

/// Which condition the Write at this place of the server's dump fails, of so many servers, and none exactly where it can stand there.
pub fn misfit_at(
    count: u8,
    dumps: &[&[RestingWrite]],
    server: ServerId,
    place: usize,
) -> Option<DumpMisfit>
    ensures { MatchOption result (IsGoodAt count (lent_lists dumps.now) server.index place) (IsMisfitAt count (lent_lists dumps.now) server.index place) }
{
    let dump = dump_at(dumps, usize::from(server.index));
    if place >= dump.len() {
        return None;
    }
    misfit_among(count, dumps, server, &dump[..place], &dump[place])
}

/// The condition, with what is found and what is expected, in a line.
pub fn misfit_text(alloc: Global, misfit: DumpMisfit) -> Result<String, AllocError>
    ensures { IfOk result (λ text. string_bytes text ≡ misfit_line misfit) }
{
    match misfit {
        DumpMisfit::Origin(origin) => {
            let origin = origin.index;
            format!(in alloc; "  its origin: found server {origin}, expected one of the file's\n")
        }
        DumpMisfit::Number { wid, held } => {
            let (origin, seq) = (wid.origin.index, wid.seq);
            format!(in alloc;
                "  its number: found {seq}, expected one more than the {held} of server {origin}'s before it\n"
            )
        }
        DumpMisfit::Counts {
            server,
            counted,
            held,
        } => {
            format!(in alloc;
                "  its past: found {counted} Writes of server {server}, expected {held} at most, those before it\n"
            )
        }
        DumpMisfit::Own { wid, counted } => {
            let seq = wid.seq;
            format!(in alloc;
                "  its past: found {counted} Writes of its own server, expected one less than its number {seq}\n"
            )
        }
        DumpMisfit::Clock { found, expected } => {
            format!(in alloc;
                "  its clock: found {found}, expected {expected}, one more than the greatest of its past\n"
            )
        }
        DumpMisfit::Past {
            server,
            counted,
            held,
        } => {
            format!(in alloc;
                "  its past: found {counted} Writes of server {server}, expected {held}, all those before it\n"
            )
        }
        DumpMisfit::Other { server, .. } => {
            let server = server.index;
            format!(in alloc; "  its content: found another Write of its name at server {server}\n")
        }
    }
}
