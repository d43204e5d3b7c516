//! The Writes of a new store, made of rows.
ghost use Rattle.std.specs.Prelude.{◌≡◌, ◌*◌, ◌+◌, ◌<◌, ◌≤◌, [], IfOk, OnOk, length, map};
ghost use Rattle.bayou_base.specs.declared.limits.TheConstants.{MAX_OPS as MOST_OPS, MAX_WRITES as MOST_WRITES, SERVERS};
ghost use Rattle.bayou_renew.specs.Inner.{Adds};
ghost use Rattle.bayou_renew.specs.Renewal.{AreMadeOf, Puts, put_of};

use bayou_base::{Key, MAX_OPS, MAX_WRITES, ServerId, Value};
use bayou_lang::laws::own_next_write_fits;
use bayou_lang::{Op, RestingProgram, Term};
use bayou_log::WriteLog;
use std::alloc::{AllocError, Global};

/// The server that makes the Writes of a new store.
pub(crate) const MAKER: ServerId = ServerId { index: 0 };

/// As how many Writes so many rows are made.
pub fn number_of(rows: usize) -> usize
    ensures { (rows ≤ MOST_OPS * result) × (MOST_OPS * result < rows + MOST_OPS) }
{
    rows.div_ceil(MAX_OPS)
}

// The puts of the rows.
fn puts_of(alloc: Global, rows: &[(Key, Value)]) -> Result<Vec<Op>, AllocError>
    ensures { IfOk result (λ puts. puts.items ≡ map put_of rows.now) }
{
    let mut puts = Vec::with_capacity(alloc, rows.len())?;
    for (key, value) in rows {
        puts.push_reserved(Op::Put(key.copy(), Term::Lit(value.copy())));
    }
    Ok(puts)
}

// The program that puts the rows, whatever the database has.
fn program_of(alloc: Global, rows: &[(Key, Value)]) -> Result<RestingProgram, AllocError>
    requires { length rows.now ≤ MOST_OPS }
    ensures { IfOk result (λ program. Puts rows.now program) }
{
    Ok(RestingProgram::of_update(puts_of(alloc, rows)?))
}

// Has the log hold one Write more, which server 0 makes of these rows.
fn add(alloc: Global, log: &mut WriteLog, rows: &[(Key, Value)]) -> Result<(), AllocError>
    requires few { length rows.now ≤ MOST_OPS }
    requires known { 0 < log.old.count }
    requires room { length log.old.receipts < log.old.limit }
    ensures { OnOk result (Adds rows.now log.old log.new) }
{
    own_next_write_fits();
    // Those that it holds fit one another, and none is beyond the greatest clock.
    let (_held, _limit) = (log.receipts(), log.limit());
    let write = log.next_write(MAKER, program_of(alloc, rows)?);
    log.reserve(&write)?;
    log.place(write);
    Ok(())
}

/// The Writes that server 0 makes of the rows, where it holds nothing, in a log that is among so many servers. None of them is applied.
pub fn writes_of(alloc: Global, count: u8, rows: &[(Key, Value)]) -> Result<WriteLog, AllocError>
    requires count { (0 < count) × (count ≤ SERVERS) }
    requires few { length rows.now ≤ MOST_OPS * MOST_WRITES }
    ensures made { IfOk result (λ log. AreMadeOf [] rows.now log.receipts) }
    ensures count { IfOk result (λ log. log.count ≡ count) }
{
    let mut log = WriteLog::new(alloc, count, MAX_WRITES);
    let mut rest = rows;
    while !rest.is_empty() {
        let (first, behind) = rest.split_at(MAX_OPS.min(rest.len()));
        add(alloc, &mut log, first)?;
        rest = behind;
    }
    Ok(log)
}
