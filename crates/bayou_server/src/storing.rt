//! How a server stores one Write more: its entry after the others of the journal, and then the Write. What of the log isn't applied
//! waits for whoever calls.
ghost use Rattle.std.specs.Prelude.{◌≡◌, ◌<◌, IfOk, MatchResult, length};
ghost use Rattle.bayou_journal.specs.Opening.{KeepsChains};
ghost use Rattle.bayou_lang.specs.Writes.{Fits};
ghost use Rattle.bayou_log.specs.Log.{IsReserved};
ghost use Rattle.bayou_server.specs.Inner.Fields.{BelongTogether, core_of, server_of};
ghost use Rattle.bayou_server.specs.Inner.Storing.{Keeps, MayBeStored, MayBeTagged, Settles, StaysStored, StoresEntry};
ghost use Rattle.bayou_server.specs.Stored.{IsUntouched};

use crate::holding::Holding;
use bayou_base::{ServerId, Tag};
use bayou_device::Device;
use bayou_journal::laws::an_append_leaves_an_honest_device;
use bayou_journal::{AppendFault, Journal};
use bayou_lang::RestingWrite;
use bayou_wire::encode_record;
use std::alloc::{AllocError, Global};

// What came of it.
pub enum Stored {
    // Its entry was added, and it is held after the others.
    Held,
    // A device call failed, and it is in doubt.
    InDoubt,
}

// Holds the Write, where its entry was added, and else puts it in doubt. It waits to be applied.
fn settle(holding: &mut Holding, write: RestingWrite, added: Result<(), AppendFault>) -> Stored
    requires fits { Fits holding.old.log.count holding.old.log.receipts write }
    requires reserved { IsReserved holding.old.log.room write }
    requires below_limit { length holding.old.log.receipts < holding.old.log.limit }
    requires tag_reserved { 0 < holding.old.tags.room }
    ensures { Settles holding.old write added result holding.new }
{
    match added {
        Ok(()) => {
            holding.log.place(write);
            holding.tags.settle();
            Stored::Held
        }
        Err(_) => {
            holding.doubt = Some(write);
            Stored::InDoubt
        }
    }
}

// Stores the entry of the Write, which may be held next, and of its tag, if it has one, and then holds it, or puts it in doubt.
pub fn store<D: Device>(
    alloc: Global,
    journal: &mut Journal<D>,
    holding: &mut Holding,
    id: ServerId,
    tag: Option<Tag>,
    write: RestingWrite,
) -> Result<Stored, AllocError>
    requires together { BelongTogether journal.old holding.old id.index }
    requires may { MayBeStored (core_of holding.old id.index) write }
    requires tagged { MayBeTagged (core_of holding.old id.index) tag write }
    ensures together { BelongTogether journal.new holding.new id.index }
    ensures others { holding.new.taking ≡ holding.old.taking }
    ensures keeps { MatchResult result
        (λ stored. Keeps (core_of holding.old id.index) tag write stored (core_of holding.new id.index))
        (λ _. core_of holding.new id.index ≡ core_of holding.old id.index) }
    ensures stores { MatchResult result
        (λ stored. StoresEntry D.Device (server_of journal.old holding.old id.index) stored (server_of journal.new holding.new id.index))
        (λ _. IsUntouched (server_of journal.old holding.old id.index) (server_of journal.new holding.new id.index)) }
    ensures stored { D.is_modelled → IfOk result (λ stored. StaysStored D.Device (server_of journal.old holding.old id.index) stored (server_of journal.new holding.new id.index)) }
    ensures safe { D.is_modelled → KeepsChains (D.kept journal.old.device) (D.kept journal.new.device) }
    ensures calls { D.leads_to 2 journal.old.device journal.new.device }
{
    an_append_leaves_an_honest_device::<D>();
    holding.log.reserve(&write)?;
    let body = encode_record(alloc, tag, &write)?;
    holding.tags.reserve(tag)?;
    let added = journal.append(&body);
    Ok(settle(holding, write, added))
}
