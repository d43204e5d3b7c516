ghost use Rattle.std.specs.Prelude.{◌≡◌, ◌≤◌, ◌++◌, [], length, take, IfOk, OnErr, OnOk, IfErr, vec_capacity};
ghost use Rattle.bayou_device.specs.Device.{BeginsWith, Rose};
ghost use Rattle.bayou_journal.specs.declared.format.TheConstants.{ENTRY_BYTES};
ghost use Rattle.bayou_journal.specs.Inner.Heads.{missing, raised_link};
ghost use Rattle.bayou_journal.specs.Opening.{FailsToAdd, HasOpened, HasRefused, KeepsChains, OpensInCalls};

use crate::chain::{ReadChain, find_chain};
use crate::fault::OpenFault;
use crate::format::{
    DIGEST_BYTES, ENTRY_BYTES, NEWEST_VERSION, header_of, link_of, write_entry, write_header,
};
use crate::opened::Opened;
use bayou_base::ServerId;
use bayou_device::{Device, Failed};
use std::alloc::Global;

// An opened chain: what it holds, and the digest that the next entry stands after.
#[derive(Drop)]
pub struct Restored {
    pub opened: Opened,
    pub last: [u8; DIGEST_BYTES],
}

// Adds the piece, if it has any byte, and makes all last.
pub fn write_through<D: Device>(device: &mut D, piece: &[u8]) -> Result<(), Failed>
    ensures added { D.is_modelled → OnOk result (D.content device.new ≡ D.content device.old ++ piece.now) }
    ensures synced { OnOk result (D.kept device.new ≡ D.content device.new) }
    ensures kept { OnErr result (D.kept device.new ≡ D.kept device.old) }
    ensures left { D.is_modelled → OnErr result (FailsToAdd D.may_leave piece.now (D.content device.old) (D.content device.new)) }
    ensures counts { OnOk result (D.failures device.new ≡ D.failures device.old) }
    ensures rose { OnErr result (Rose (D.failures device.old) (D.failures device.new)) }
    ensures calls { D.leads_to 2 device.old device.new }
    ensures nothing { piece.now ≡ [] → D.leads_to 1 device.old device.new }
{
    if piece.is_empty() {
        return device.sync();
    }
    device.append(piece)?;
    device.sync()
}

// Leaves the first `end` of so many bytes.
pub fn drop_tail<D: Device>(device: &mut D, total: usize, end: usize) -> Result<(), Failed>
    requires within { end ≤ total }
    requires total { D.is_modelled → total ≡ length (D.content device.old) }
    ensures cut { D.is_modelled → OnOk result (D.content device.new ≡ take end (D.content device.old)) }
    ensures kept { D.is_modelled → OnOk result (D.kept device.new ≡ take end (D.kept device.old)) }
    ensures front { OnErr result (BeginsWith (take end (D.kept device.old)) (D.kept device.new)) }
    ensures left { OnErr result (D.may_leave [] (D.content device.old) (D.content device.new)) }
    ensures counts { OnOk result (D.failures device.new ≡ D.failures device.old) }
    ensures rose { OnErr result (Rose (D.failures device.old) (D.failures device.new)) }
    ensures calls { D.leads_to 1 device.old device.new }
    ensures nothing { end ≡ total → D.leads_to 0 device.old device.new }
{
    if end == total {
        return Ok(());
    }
    device.cut(end)
}

// Writes what the chain lacks in the place of what the piece was: the header, where nothing is left; the mark of the newest
// version, where the chain hasn't got it; or nothing. It gives the digest that the next entry stands after then.
fn write_missing(piece: &mut Vec<u8>, server: ServerId, chain: &ReadChain) -> [u8; DIGEST_BYTES]
    requires room { ENTRY_BYTES ≤ vec_capacity piece.old }
    ensures items { piece.new.items ≡ missing server.index chain.now.version chain.now.last chain.now.end }
    ensures last { result ≡ raised_link chain.now.version chain.now.last }
    ensures room { ENTRY_BYTES ≤ vec_capacity piece.new }
{
    if chain.version != NEWEST_VERSION {
        let mark = [NEWEST_VERSION];
        let digest = link_of(&chain.last, &mark);
        write_entry(piece, &mark, &digest);
        return digest;
    }
    if chain.end == 0 {
        write_header(piece, &header_of(NEWEST_VERSION, server));
    } else {
        piece.clear();
    }
    chain.last
}

// Reads the journal, cuts what stands after its longest chain, adds the header where it isn't there, or the mark after an
// older chain, and syncs. The piece is room for what is added.
pub fn restore<D: Device>(
    alloc: Global,
    server: ServerId,
    device: &mut D,
    piece: &mut Vec<u8>,
) -> Result<Restored, OpenFault>
    requires room { ENTRY_BYTES ≤ vec_capacity piece.old }
    ensures room { ENTRY_BYTES ≤ vec_capacity piece.new }
    ensures opened { IfOk result (λ restored. HasOpened D.Device server.index device.old device.new restored.opened restored.last) }
    ensures refused { IfErr result (λ fault. HasRefused D.Device server.index device.old device.new fault) }
    ensures safe { D.is_modelled → KeepsChains (D.kept device.old) (D.kept device.new) }
    ensures calls { OpensInCalls D.Device server.index device.old device.new }
    ensures uncut { IfOk result (λ restored. restored.opened.dropped ≡ 0 → D.leads_to 3 device.old device.new) }
{
    let bytes = device.read_all(alloc)?;
    let chain = find_chain(alloc, server, &bytes)?;
    drop_tail(device, bytes.len(), chain.end)?;
    let last = write_missing(piece, server, &chain);
    match write_through(device, piece) {
        Err(Failed) => Err(OpenFault::Device),
        Ok(()) => Ok(Restored {
            opened: Opened::new(bytes, chain.places, chain.end),
            last,
        }),
    }
}
