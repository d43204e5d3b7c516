//! Whether servers can have held what their dumps have.
ghost use Rattle.std.specs.Prelude.{◌≡◌, ℕ, ◌<◌, ◌≤◌, ◌↔◌, All, IfOk, IsTrue, length, take};
ghost use Rattle.bayou_base.specs.declared.limits.TheConstants.{SERVERS};
ghost use Rattle.bayou_lang.specs.Writes.{count_of, AreFitting};
ghost use Rattle.bayou_judge.specs.Evidence.{IsGood};
ghost use Rattle.bayou_judge.specs.History.{dump_of, lent_lists};
ghost use Rattle.bayou_judge.specs.Inner.Checks.{AreRead, DumpAnswer, IndexAnswer};
ghost use Rattle.bayou_judge.specs.Inner.Index.{IsIndexOf};

use crate::evidence::dump_at;
use crate::finding::find;
use crate::fitting::fits;
use crate::index::Index;
use crate::verdict::BadEvidence;
use bayou_base::{SERVERS, ServerId, Vector};
use bayou_lang::RestingWrite;
use std::alloc::{AllocError, Global};

/// Whether the Write, if it is the server's own, says that what the vector counts was held.
fn says_all(server: usize, held: &Vector, write: &RestingWrite) -> bool
    ensures { IsTrue result ↔ (write.now.wid.origin.index ≡ server → write.now.deps ≡ held.now) }
{
    usize::from(write.wid().origin.index) != server || write.deps() == held
}

/// Whether the dump has no other Write of its name.
fn is_same_in(dump: &[RestingWrite], index: &Index, write: &RestingWrite) -> bool
    requires fitting { (count : ℕ) × AreFitting count dump.now }
    requires indexed { IsIndexOf dump.now index.now }
    ensures { IsTrue result ↔ All (λ held. held.wid ≡ write.now.wid → held ≡ write.now) dump.now }
{
    match find(dump, index, write.wid()) {
        Some(held) => held == write,
        None => true,
    }
}

/// Whether none of the smaller servers' dumps, which are indexed, has another Write of its name.
fn is_same_before(
    count: u8,
    dumps: &[&[RestingWrite]],
    indexes: &[Index],
    write: &RestingWrite,
) -> bool
    requires { AreRead count (lent_lists dumps.now) (length indexes.now) indexes.now }
    ensures { IsTrue result ↔ ((other : ℕ) → other < length indexes.now
        → All (λ held. held.wid ≡ write.now.wid → held ≡ write.now) (dump_of (lent_lists dumps.now) other)) }
{
    for (other, index) in indexes.iter().enumerate() {
        if !is_same_in(dump_at(dumps, other), index, write) {
            return false;
        }
    }
    true
}

/// Whether the Write at this place of the server's dump, of which those before it are indexed, is good.
fn is_good(
    count: u8,
    dumps: &[&[RestingWrite]],
    indexes: &[Index],
    held: &[RestingWrite],
    index: &Index,
    write: &RestingWrite,
) -> bool
    requires read { AreRead count (lent_lists dumps.now) (length indexes.now) indexes.now }
    requires fitting { AreFitting count held.now }
    requires indexed { IsIndexOf held.now index.now }
    ensures { IsTrue result ↔ IsGood count (lent_lists dumps.now) (length indexes.now) held.now write.now }
{
    fits(count, held, index, write)
        && says_all(indexes.len(), &index.vector(), write)
        && is_same_before(count, dumps, indexes, write)
}

/// The index of the next server's dump, where each Write of it is good; else the least place at which one isn't.
fn index_of(
    alloc: Global,
    count: u8,
    dumps: &[&[RestingWrite]],
    indexes: &[Index],
    server: ServerId,
) -> Result<Result<Index, BadEvidence>, AllocError>
    requires read { AreRead count (lent_lists dumps.now) (length indexes.now) indexes.now }
    requires next { server.index ≡ length indexes.now }
    ensures { IfOk result (DumpAnswer count (lent_lists dumps.now) server.index) }
{
    let dump = dump_at(dumps, indexes.len());
    let mut index = Index::new(alloc);
    for (at, write) in dump.iter().enumerate() {
        if !is_good(count, dumps, indexes, &dump[..at], &index, write) {
            return Ok(Err(BadEvidence::BadDump(server, at)));
        }
        index.add(write)?;
    }
    Ok(Ok(index))
}

/// The index of each dump, where each Write of each of them is good; else the least place at which one isn't.
pub(crate) fn indexes_of(
    alloc: Global,
    count: u8,
    dumps: &[&[RestingWrite]],
) -> Result<Result<Vec<Index>, BadEvidence>, AllocError>
    requires servers { count ≤ SERVERS }
    requires dumps { length dumps.now ≡ count }
    ensures { IfOk result (IndexAnswer count (lent_lists dumps.now)) }
{
    let mut indexes = Vec::new(alloc);
    for server in 0..count {
        let id = ServerId { index: server };
        match index_of(alloc, count, dumps, indexes.as_slice(), id)? {
            Ok(index) => indexes.push(index)?,
            Err(bad) => return Ok(Err(bad)),
        }
    }
    Ok(Ok(indexes))
}
