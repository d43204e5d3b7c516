//! Whether entries tell of what can have been.
ghost use Rattle.std.specs.Prelude.{◌≡◌, ℕ, ◌<◌, ◌≤◌, ◌↔◌, List, IfOk, IsTrue, Contains, length, take};
ghost use Rattle.bayou_base.specs.declared.limits.TheConstants.{SERVERS};
ghost use Rattle.bayou_base.specs.declared.entry.Entry.{Entry};
ghost use Rattle.bayou_lang.specs.declared.write.Write.{Write};
ghost use Rattle.bayou_lang.specs.Writes.{count_of, AreFitting};
ghost use Rattle.bayou_judge.specs.Evidence.{AreGood, IsGenuine, IsTrueOf};
ghost use Rattle.bayou_judge.specs.History.{lent_lists, IsFrontOf};
ghost use Rattle.bayou_judge.specs.Inner.Checks.{ForgedAnswer};
ghost use Rattle.bayou_judge.specs.Inner.Heard.{AreTold, Follows, IsLatest};
ghost use Rattle.bayou_judge.specs.Inner.Index.{AreIndexed, IsIndexOf};

use crate::evidence::dump_at;
use crate::finding::find;
use crate::index::Index;
use crate::needs::size_of;
use crate::told::Told;
use bayou_base::{Asks, Entry, SESSIONS, ServerId, Stamp, Vector, What, Wid};
use bayou_lang::RestingWrite;
use std::alloc::{AllocError, Global};

/// The place of a session's last entry, and what the session asks for.
#[derive(Clone, Copy)]
pub(crate) struct Latest {
    place: u32,
    asks: Asks,
}

/// Whether the entry's place is above that of the last, whatever became of either.
fn is_above(latest: Latest, entry: &Entry) -> bool
    ensures { IsTrue result ↔ (latest.place < entry.now.place) }
{
    latest.place < entry.place
}

/// Whether the entry may stand after the last of its session, if there is one.
fn follows(latest: Option<Latest>, entry: &Entry) -> bool
    ensures { (earlier : List Entry) → IsLatest earlier entry.now.session.index latest → IsTrue result ↔ Follows earlier entry.now }
{
    match latest {
        Some(latest) => is_above(latest, entry) && latest.asks == entry.asks,
        None => true,
    }
}

/// For each server the number of its Writes among the first so many.
fn counts_of(index: &Index, size: usize) -> Vector
    ensures { (writes : List Write) → IsIndexOf writes index.now → size ≤ length writes → result ≡ count_of (take size writes) }
{
    match size {
        0 => Vector::zero(),
        _ => index.counts_to(size - 1),
    }
}

/// Whether the vector is that of a front of the dump.
fn is_of_a_front(dump: &[RestingWrite], index: &Index, vector: &Vector) -> bool
    requires { IsIndexOf dump.now index.now }
    ensures { IsTrue result ↔ ((database : List Write) × IsFrontOf dump.now database × (count_of database ≡ vector.now)) }
{
    let size = size_of(vector);
    size <= dump.len() && counts_of(index, size) == *vector
}

/// Whether the dump has the Write of this name with this stamp and past.
fn has_write(dump: &[RestingWrite], index: &Index, wid: Wid, stamp: Stamp, deps: &Vector) -> bool
    requires fitting { (count : ℕ) × AreFitting count dump.now }
    requires indexed { IsIndexOf dump.now index.now }
    ensures { IsTrue result ↔ ((write : Write) × (Contains dump.now write × (write.wid ≡ wid)) × (write.stamp ≡ stamp) × (write.deps ≡ deps.now)) }
{
    match find(dump, index, wid) {
        Some(write) => write.stamp() == stamp && write.deps() == deps,
        None => false,
    }
}

/// Whether it tells of what can have been at the server.
fn is_true(dump: &[RestingWrite], index: &Index, told: &Told, server: ServerId, what: &What) -> bool
    requires fitting { (count : ℕ) × AreFitting count dump.now }
    requires indexed { IsIndexOf dump.now index.now }
    ensures { (earlier : List Entry) → AreTold earlier told.now → IsTrue result ↔ IsTrueOf dump.now server earlier what.now }
{
    match what {
        What::Read(_, vector) => is_of_a_front(dump, index, vector),
        What::Write(wid, stamp, deps) => {
            if wid.origin.index != server.index {
                return false;
            }
            if told.has(*wid) {
                return false;
            }
            has_write(dump, index, *wid, *stamp, deps)
        }
        What::Refused => true,
    }
}

/// Whether the entry is genuine.
fn is_genuine(
    count: u8,
    dumps: &[&[RestingWrite]],
    indexes: &[Index],
    latest: Option<Latest>,
    told: &Told,
    entry: &Entry,
) -> bool
    requires dumps { length dumps.now ≡ count }
    requires good { AreGood count (lent_lists dumps.now) }
    requires indexed { AreIndexed (lent_lists dumps.now) indexes.now }
    ensures { (earlier : List Entry) → AreTold earlier told.now → IsLatest earlier entry.now.session.index latest
        → IsTrue result ↔ IsGenuine count (lent_lists dumps.now) earlier entry.now }
{
    let server = usize::from(entry.server.index);
    match indexes.get(server) {
        Some(index) => {
            follows(latest, entry)
                && is_true(
                    dump_at(dumps, server),
                    index,
                    told,
                    entry.server,
                    &entry.what,
                )
        }
        None => false,
    }
}

/// The place of the first entry that isn't genuine, if there is one.
pub(crate) fn first_forged(
    alloc: Global,
    count: u8,
    entries: &[Entry],
    dumps: &[&[RestingWrite]],
    indexes: &[Index],
) -> Result<Option<usize>, AllocError>
    requires servers { count ≤ SERVERS }
    requires dumps { length dumps.now ≡ count }
    requires good { AreGood count (lent_lists dumps.now) }
    requires indexed { AreIndexed (lent_lists dumps.now) indexes.now }
    ensures { IfOk result (ForgedAnswer count (lent_lists dumps.now) entries.now) }
{
    let mut latest = [None; SESSIONS];
    let mut told = Told::new(alloc);
    for (at, entry) in entries.iter().enumerate() {
        let session = usize::from(entry.session.index);
        if !is_genuine(count, dumps, indexes, latest[session], &told, entry) {
            return Ok(Some(at));
        }
        latest[session] = Some(Latest {
            place: entry.place,
            asks: entry.asks,
        });
        told.hear(&entry.what)?;
    }
    Ok(None)
}
