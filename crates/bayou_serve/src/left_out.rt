//! Without whom a journal was last made again: what was final may have changed then. It is kept beside the journal, as long as that lives.
ghost use Rattle.std.specs.Prelude.{◌≡◌, ◌⊎◌, ◌∷◌, [], IfErr, IfOk, IfSome, OnOk};
ghost use Rattle.bayou_serve.specs.Faults.{MayEndRestoring};
ghost use Rattle.bayou_serve.specs.declared.fault.ServeFault.TheVariants.{LeftOutFailed, Memory};

use crate::fault::{ServeFault, Unrestored};
use crate::plan::Beginning;
use bayou_base::ServerId;
use bayou_device::{Device, Failed, FileDevice, ReadFault};
use std::alloc::Global;
use std::fs;
use std::fs::{File, Files};
use std::io::ErrorKind;

// The server that these bytes of such a file name: one byte, its number.
fn server_named(bytes: &[u8]) -> Option<ServerId>
    ensures named { IfSome result (λ server. bytes.now ≡ server.index ∷ []) }
{
    match bytes {
        [number] => ServerId::new(*number),
        _ => None,
    }
}

// Has the device keep the server's number from now on, and nothing else.
fn write_to<D: Device>(device: &mut D, server: ServerId) -> Result<(), Failed>
    ensures kept { D.is_modelled → OnOk result (D.kept device.new ≡ server.index ∷ []) }
{
    device.cut(0)?;
    device.append(&[server.index])?;
    device.sync()
}

// The server that the device names.
fn read_from<D: Device>(alloc: Global, device: &mut D) -> Result<ServerId, ServeFault>
    ensures named { D.is_modelled → IfOk result (λ server. D.content device.old ≡ server.index ∷ []) }
    ensures fault { IfErr result (λ fault. (fault ≡ LeftOutFailed) ⊎ (fault ≡ Memory)) }
{
    match device.read_all(alloc) {
        Ok(bytes) => server_named(&bytes).ok_or(ServeFault::LeftOutFailed),
        Err(ReadFault::Failed) => Err(ServeFault::LeftOutFailed),
        Err(ReadFault::OutOfMemory) => Err(ServeFault::Memory),
    }
}

// Removes the file of this name, if there is one; whether there is none then.
fn remove<T: Files<File = File>>(rt: &T, path: &str) -> bool {
    match fs::remove_file(rt, path) {
        Ok(()) => true,
        Err(error) => error.kind() == ErrorKind::NotFound,
    }
}

/// Has the file of this name tell from now on without whom a journal is made again: the first who was left out, if anybody was. What a file has no clause can
/// say.
pub(crate) fn keep_left_out<T: Files<File = File>>(
    rt: &T,
    path: &str,
    without: Option<ServerId>,
) -> Result<(), ServeFault>
    ensures fault { IfErr result MayEndRestoring }
{
    let is_kept = match without {
        None => remove(rt, path),
        Some(server) => match FileDevice::open(rt, path) {
            Ok(mut device) => write_to(&mut device, server).is_ok(),
            Err(_) => false,
        },
    };
    if is_kept {
        Ok(())
    } else {
        Err(ServeFault::NotRestored(Unrestored::LeftOut))
    }
}

/// Without whom the journal was last made again, by the file of this name. A new journal never was: what an older one left is removed.
pub(crate) fn look_for_left_out<T: Files<File = File>>(
    rt: &T,
    alloc: Global,
    path: &str,
    beginning: Beginning,
) -> Result<Option<ServerId>, ServeFault>
    ensures fault { IfErr result (λ fault. (fault ≡ LeftOutFailed) ⊎ (fault ≡ Memory)) }
{
    if beginning == Beginning::New {
        return if remove(rt, path) {
            Ok(None)
        } else {
            Err(ServeFault::LeftOutFailed)
        };
    }
    match fs::metadata(rt, path) {
        Ok(_) => {}
        Err(error) if error.kind() == ErrorKind::NotFound => return Ok(None),
        Err(_) => return Err(ServeFault::LeftOutFailed),
    }
    let Ok(mut device) = FileDevice::open(rt, path) else {
        return Err(ServeFault::LeftOutFailed);
    };
    Ok(Some(read_from(alloc, &mut device)?))
}

/// What the file of this name told goes with a journal that wasn't made again.
pub(crate) fn forget_left_out<T: Files<File = File>>(rt: &T, path: &str) {
    // What can't be removed is written anew, or removed, before the journal has its name.
    let _ = remove(rt, path);
}
