//! A server on a copy of its journal, so that the journal stays as it is.
ghost use Rattle.std.specs.Prelude.{◌≡◌, ◌⊎◌, ◌<◌, ◌≤◌, IfErr, IfOk, OnOk};
ghost use Rattle.bayou_base.specs.declared.limits.TheConstants.{SERVERS as MOST_SERVERS};
ghost use Rattle.bayou_device.specs.Device.{Rose};
ghost use Rattle.bayou_renew.specs.Renewing.{IsNoJournal, IsOnCopy};
ghost use Rattle.bayou_renew.specs.declared.fault.ReadingFault.TheVariants.{Device as CallFailed, Memory};

use crate::fault::{ReadingFault, unread};
use bayou_base::{MAX_WRITES, ServerId};
use bayou_device::{Device, MemoryDevice, OpenGate, ReadFault};
use bayou_journal::CarefulDevice;
use bayou_server::Server;
use std::alloc::Global;

/// The device of a copy.
pub type Copied = CarefulDevice<MemoryDevice<OpenGate>>;

/// The server whose journal the device has, on a copy of it. The device is read once, and stays as it is; of the copy no more than one torn entry is cut.
pub fn copied<D: Device>(
    alloc: Global,
    id: ServerId,
    count: u8,
    device: &mut D,
) -> Result<Server<Copied>, ReadingFault>
    requires known { id.index < count }
    requires count { count ≤ MOST_SERVERS }
    // The device has what it had, and keeps what it kept.
    ensures same { OnOk result (D.content device.new ≡ D.content device.old) }
    ensures kept { D.kept device.new ≡ D.kept device.old }
    ensures calls { D.leads_to 1 device.old device.new }
    ensures copied { D.is_modelled → IfOk result (IsOnCopy ⟦<CarefulDevice<MemoryDevice<OpenGate>> as Device>⟧ id.index count (D.content device.old)) }
    ensures refused { D.is_modelled → IfErr result (λ fault. (fault ≡ Memory) ⊎ ((fault ≡ CallFailed) × Rose (D.failures device.old) (D.failures device.new))
        ⊎ IsNoJournal ⟦<CarefulDevice<MemoryDevice<OpenGate>> as Device>⟧ (λ copy. copy.damage) id.index count (D.content device.old) fault) }
{
    let bytes = match device.read_all(alloc) {
        Ok(bytes) => bytes,
        Err(ReadFault::Failed) => return Err(ReadingFault::Device),
        Err(ReadFault::OutOfMemory) => return Err(ReadingFault::Memory),
    };
    let copy = CarefulDevice::new(MemoryDevice::with_bytes(bytes, OpenGate));
    match Server::start(alloc, id, count, MAX_WRITES, copy) {
        Ok((server, _)) => Ok(server),
        Err(refused) => Err(unread(refused.fault, refused.device.damage())),
    }
}
