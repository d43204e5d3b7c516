//! The rows of a server's database that a new store gets.
ghost use Rattle.std.specs.Prelude.{◌≡◌, ◌++◌, ◌↔◌, ◌<◌, [], IfNone, IfOk, IfSome, IsTrue, length, option_copied, take};
ghost use Rattle.bayou_lang.specs.Database.{begins_with as begins};
ghost use Rattle.bayou_log.specs.Replay.{replay};
ghost use Rattle.bayou_log.specs.Rows.{rows_after};
ghost use Rattle.bayou_renew.specs.Inner.{IsLastKey};
ghost use Rattle.bayou_renew.specs.Renewal.{is_left_out as left_out, kept_of, kept_rows};
ghost use Rattle.bayou_wire.specs.declared.layout.TheConstants.{ROWS_AT_ONCE};

use bayou_base::{Key, Prefix, Value, Vector};
use bayou_device::Device;
use bayou_server::Server;
use bayou_wire::Page;
use bayou_wire::layout::ROWS_AT_ONCE;
use std::alloc::{AllocError, Global};

fn begins_with(key: &Key, prefix: &Prefix) -> bool
    ensures { result ≡ begins prefix.now key.now }
{
    key.as_str()
        .as_bytes()
        .starts_with(prefix.as_str().as_bytes())
}

// Whether the key begins with one of the prefixes.
fn is_left_out(without: &[Prefix], key: &Key) -> bool
    ensures { result ≡ left_out without.now key.now }
{
    for prefix in without {
        if begins_with(key, prefix) {
            return true;
        }
    }
    false
}

// Adds those of the rows that aren't left out.
fn keep(
    kept: &mut Vec<(Key, Value)>,
    rows: &[(Key, Value)],
    without: &[Prefix],
) -> Result<(), AllocError>
    ensures { IfOk result (λ _. kept.new.items ≡ kept.old.items ++ kept_of without.now rows.now) }
{
    for (key, value) in rows {
        if !is_left_out(without, key) {
            kept.push((key.copy(), value.copy()))?;
        }
    }
    Ok(())
}

// The first of the rows after this key, if there is one, as many as are listed at once, and whether there are more.
fn page_behind<D: Device>(server: &Server<D>, after: Option<&Key>) -> Page
    ensures rows { result.rows.items ≡ take ROWS_AT_ONCE (rows_after [] (option_copied after.entry) (replay server.now.core.held)) }
    ensures more { IsTrue result.more ↔ (ROWS_AT_ONCE < length (rows_after [] (option_copied after.entry) (replay server.now.core.held))) }
{
    let (none, every) = (Vector::zero(), Prefix::default());
    // It holds no less than nothing.
    let _counts = server.vector();
    match server.list(&none, &every, after, ROWS_AT_ONCE as u16) {
        Ok(page) => page,
        Err(_) => unreachable!(),
    }
}

// The key of the last of the rows.
fn last_key(rows: &[(Key, Value)]) -> Option<Key>
    ensures some { IfSome result (IsLastKey rows.now) }
    ensures none { IfNone result (rows.now ≡ []) }
{
    match rows.last() {
        Some((key, _)) => Some(key.copy()),
        None => None,
    }
}

/// The rows of the server's database, in the order of keys, but for those whose keys begin with one of the prefixes.
pub fn kept_rows_of<D: Device>(
    alloc: Global,
    server: &Server<D>,
    without: &[Prefix],
) -> Result<Vec<(Key, Value)>, AllocError>
    ensures { IfOk result (λ rows. rows.items ≡ kept_rows without.now (replay server.now.core.held)) }
{
    let mut kept = Vec::new(alloc);
    let mut after = None;
    loop {
        let page = page_behind(server, after.as_ref());
        keep(&mut kept, &page.rows, without)?;
        if !page.more {
            return Ok(kept);
        }
        after = last_key(&page.rows);
    }
}
