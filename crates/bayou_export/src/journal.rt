//! The rows that a journal tells, which stays as it is.
ghost use Rattle.std.specs.Prelude.{◌≡◌, ◌⊎◌, IfErr, IfOk, OnOk};
ghost use Rattle.bayou_device.specs.Device.{Rose};
ghost use Rattle.bayou_lang.specs.Writes.{count_of};
ghost use Rattle.bayou_log.specs.Replay.{replay};
ghost use Rattle.bayou_export.specs.Exports.{IsExportOf, rows_with};
ghost use Rattle.bayou_renew.specs.Renewing.{IsNoJournal};
ghost use Rattle.bayou_renew.specs.declared.fault.ReadingFault.TheVariants.{Device as CallFailed, Memory};

use crate::rows::rows_of;
use crate::whose::Whose;
use bayou_base::{Key, Prefix, ServerId, Value, Vector};
use bayou_device::{Device, MemoryDevice, OpenGate};
use bayou_journal::CarefulDevice;
use bayou_renew::ReadingFault;
use bayou_renew::copied::copied;
use bayou_renew::files::open_old;
use bayou_server::Server;
use std::alloc::Global;
use std::fs::{File, Files};

/// The rows of a server's database, in the order of keys.
#[derive(Drop)]
pub struct Export {
    pub server: ServerId,
    /// What the server held that has them.
    pub vector: Vector,
    pub rows: Vec<(Key, Value)>,
}

// The rows of the database of this server whose keys begin so.
fn export_at<D: Device>(
    alloc: Global,
    id: ServerId,
    server: &Server<D>,
    prefix: &Prefix,
) -> Result<Export, ReadingFault>
    ensures server { IfOk result (λ export. export.server ≡ id) }
    ensures vector { IfOk result (λ export. export.vector ≡ count_of server.now.core.held) }
    ensures rows { IfOk result (λ export. export.rows.items ≡ rows_with prefix.now (replay server.now.core.held)) }
    ensures fault { IfErr result (λ fault. fault ≡ Memory) }
{
    let Ok(rows) = rows_of(alloc, server, prefix) else {
        return Err(ReadingFault::Memory);
    };
    Ok(Export {
        server: id,
        vector: server.vector(),
        rows,
    })
}

/// The rows whose keys begin so of the database that the device's journal tells. The device is read once, and stays as it is.
pub fn export_of<D: Device>(
    alloc: Global,
    whose: Whose,
    prefix: &Prefix,
    device: &mut D,
) -> Result<Export, ReadingFault>
    // The device has what it had, and keeps what it kept.
    ensures same { OnOk result (D.content device.new ≡ D.content device.old) }
    ensures kept { D.kept device.new ≡ D.kept device.old }
    ensures calls { D.leads_to 1 device.old device.new }
    ensures exported { D.is_modelled → IfOk result (IsExportOf ⟦<CarefulDevice<MemoryDevice<OpenGate>> as Device>⟧ whose prefix.now (D.content device.old)) }
    ensures refused { D.is_modelled → IfErr result (λ fault. (fault ≡ Memory) ⊎ ((fault ≡ CallFailed) × Rose (D.failures device.old) (D.failures device.new))
        ⊎ IsNoJournal ⟦<CarefulDevice<MemoryDevice<OpenGate>> as Device>⟧ (λ copy. copy.damage) whose.id.index whose.count (D.content device.old) fault) }
{
    match copied(alloc, whose.id, whose.count, device) {
        Ok(server) => export_at(alloc, whose.id, &server, prefix),
        Err(fault) => Err(fault),
    }
}

/// The same of the journal of this name, which is read alone, and locked as long as that takes. What a file has no clause can say.
pub fn export_journal<T: Files<File = File>>(
    rt: &T,
    alloc: Global,
    path: &str,
    whose: Whose,
    prefix: &Prefix,
) -> Result<Export, ReadingFault> {
    let mut device = open_old(rt, path)?;
    export_of(alloc, whose, prefix, &mut device)
}
