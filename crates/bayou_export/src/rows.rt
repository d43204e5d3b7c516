//! The rows of a server's database.
ghost use Rattle.std.specs.Prelude.{◌≡◌, IfOk, filter};
ghost use Rattle.bayou_lang.specs.Database.{begins_with as begins};
ghost use Rattle.bayou_log.specs.Replay.{replay};
ghost use Rattle.bayou_export.specs.Exports.{rows_with};

use bayou_base::{Key, Prefix, Value};
use bayou_device::Device;
use bayou_renew::kept_rows_of;
use bayou_server::Server;
use std::alloc::{AllocError, Global};

fn begins_with(key: &Key, prefix: &Prefix) -> bool
    ensures { result ≡ begins prefix.now key.now }
{
    key.as_str()
        .as_bytes()
        .starts_with(prefix.as_str().as_bytes())
}

// Those of the rows whose keys begin so.
fn those_of(
    alloc: Global,
    rows: &[(Key, Value)],
    prefix: &Prefix,
) -> Result<Vec<(Key, Value)>, AllocError>
    ensures { IfOk result (λ found. found.items ≡ filter (λ row. begins prefix.now row.0) rows.now) }
{
    let mut found = Vec::new(alloc);
    for (key, value) in rows {
        if begins_with(key, prefix) {
            found.push((key.copy(), value.copy()))?;
        }
    }
    Ok(found)
}

/// The rows of the server's database whose keys begin so, in the order of keys.
pub fn rows_of<D: Device>(
    alloc: Global,
    server: &Server<D>,
    prefix: &Prefix,
) -> Result<Vec<(Key, Value)>, AllocError>
    ensures { IfOk result (λ rows. rows.items ≡ rows_with prefix.now (replay server.now.core.held)) }
{
    let none: Vec<Prefix> = Vec::new(alloc);
    let all = kept_rows_of(alloc, server, none.as_slice())?;
    those_of(alloc, all.as_slice(), prefix)
}
