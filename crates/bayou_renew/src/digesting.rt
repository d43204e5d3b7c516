//! The digest of Writes, by which servers tell that they hold the same.
ghost use Rattle.std.specs.Prelude.{◌≡◌, IfOk};
ghost use Rattle.bayou_renew.specs.Renewing.{digest};

use bayou_greeting::OriginDigests;
use bayou_greeting::origin_digests::NO_WRITES;
use bayou_lang::RestingWrite;
use bayou_wire::encode_resting_write;
use std::alloc::{AllocError, Global};

/// The digest of these Writes of one origin, as servers tell it to one another.
pub fn digest_of(alloc: Global, writes: &[RestingWrite]) -> Result<u64, AllocError>
    ensures { IfOk result (λ told. told ≡ digest writes.now) }
{
    let mut digests = OriginDigests::new(alloc);
    for write in writes {
        let bytes = encode_resting_write(alloc, write)?;
        digests.extend(&bytes)?;
    }
    Ok(digests.at(writes.len()).unwrap_or(NO_WRITES))
}
