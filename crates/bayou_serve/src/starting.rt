//! How a server that lives is started on its journal.
ghost use Rattle.std.specs.Prelude.{◌≡◌, ◌≢◌, ◌≤◌, ◌↔◌, IfErr, IfOk, OnOk, if◌then◌else◌, true};
ghost use Rattle.bayou_journal.specs.declared.format.TheConstants.{HEADER_BYTES};
ghost use Rattle.bayou_serve.specs.Faults.{MayEndLook, MayEndStart};
ghost use Rattle.bayou_serve.specs.declared.plan.Beginning.TheVariants.{GoOn, New};
ghost use Rattle.bayou_serve.specs.declared.fault.ServeFault.TheVariants.{Missing, NotOpened, Present};

use crate::fault::{ServeFault, fault_of};
use crate::plan::{Beginning, ServicePlan};
use crate::straying::Identity;
use crate::watched::{FileExtent, Watched};
use bayou_base::ServerId;
use bayou_device::FileDevice;
use bayou_journal::format::HEADER_BYTES;
use bayou_journal::{CarefulDevice, DamagedEntry};
use bayou_server::Server;
use std::alloc::Global;
use std::fs;
use std::fs::{File, Files};
use std::io::ErrorKind;

/// The device of a server that lives.
pub(crate) type Careful<'e> = CarefulDevice<Watched<'e, FileDevice<File>>>;

/// A server with its journal in a file, and how many bytes of a torn entry were cut; an entry that had all its bytes is reported by itself.
#[derive(Drop)]
pub(crate) struct StartedServer<'e> {
    pub(crate) server: Server<Careful<'e>>,
    /// Which file its journal is.
    pub(crate) file: Identity,
    pub(crate) dropped: usize,
    pub(crate) entry: Option<DamagedEntry>,
    /// Without whom its journal was last made again, if somebody was left out.
    pub(crate) without: Option<ServerId>,
}

// Whether a journal is there exactly where none is to be made.
fn is_fit(is_there: bool, beginning: Beginning) -> Result<(), ServeFault>
    ensures fit { OnOk result (is_there ≡ true ↔ beginning ≡ GoOn) }
    ensures misfit { IfErr result (λ fault. fault ≡ (if is_there then Present else Missing)) }
    ensures refused { IfErr result (λ _. is_there ≡ true ↔ beginning ≢ GoOn) }
{
    match (is_there, beginning) {
        (true, Beginning::GoOn) | (false, Beginning::New | Beginning::Restore) => Ok(()),
        (true, _) => Err(ServeFault::Present),
        (false, Beginning::GoOn) => Err(ServeFault::Missing),
    }
}

// Whether there is a journal of this name: an empty file is none.
fn is_there<T: Files<File = File>>(rt: &T, path: &str) -> Result<bool, ServeFault>
    ensures { IfErr result (λ fault. fault ≡ NotOpened) }
{
    match fs::metadata(rt, path) {
        Ok(found) => Ok(found.len() > 0),
        Err(error) if error.kind() == ErrorKind::NotFound => Ok(false),
        Err(_) => Err(ServeFault::NotOpened),
    }
}

/// That there is a journal of this name exactly where none is to be made.
pub(crate) fn look_for<T: Files<File = File>>(
    rt: &T,
    path: &str,
    beginning: Beginning,
) -> Result<(), ServeFault>
    ensures { IfErr result (MayEndLook beginning) }
{
    is_fit(is_there(rt, path)?, beginning)
}

// The file of this name, locked, which is there just as this way to begin wants it, and which one it is.
fn open_fit<T: Files<File = File>>(
    rt: &T,
    path: &str,
    beginning: Beginning,
) -> Result<(FileDevice<File>, Identity), ServeFault>
    ensures { IfErr result (MayEndLook beginning) }
{
    look_for(rt, path, beginning)?;
    let Ok(file) = FileDevice::open(rt, path) else {
        return Err(ServeFault::NotOpened);
    };
    // Until it was locked another process may have made a journal of it, or have removed it.
    look_for(rt, path, beginning)?;
    let Ok(found) = fs::metadata(rt, path) else {
        return Err(ServeFault::NotOpened);
    };
    Ok((file, Identity::of(&found)))
}

// Whether a start that began so may remove a journal of so many bytes again: it made that itself, and no Write is in it.
fn may_remove(beginning: Beginning, bytes: u64) -> bool
    ensures { result ≡ true ↔ ((beginning ≡ New) × (bytes ≤ HEADER_BYTES)) }
{
    matches!(beginning, Beginning::New) && bytes <= HEADER_BYTES as u64
}

/// Removes the journal of this name that a start made which serves nobody, so that the next one may make it. One that was there before stays, as
/// does one that another process has locked, and one with a Write in it. No clause can say what is removed. The start has closed it.
pub(crate) fn forget_new<T: Files<File = File>>(rt: &T, path: &str, beginning: Beginning) {
    let Ok(before) = fs::metadata(rt, path) else {
        return;
    };
    if !may_remove(beginning, before.len()) {
        return;
    }
    let Ok(locked) = FileDevice::open(rt, path) else {
        return;
    };
    // Another process may have gone on with it until it was locked.
    if let Ok(found) = fs::metadata(rt, path)
        && may_remove(beginning, found.len())
    {
        let _ = fs::remove_file(rt, path);
    }
    drop(locked);
}

/// The server that the plan asks for, with what its journal of this name has, where that is there just as this way to begin wants it. No more
/// than one torn entry is cut off its end. How long the journal is from then on is noted. What a file has no clause can say, so that a start succeeds is tested alone, and that one which fails
/// leaves no new journal.
pub(crate) fn start_at<'e, T: Files<File = File>>(
    rt: &T,
    alloc: Global,
    plan: &ServicePlan,
    path: &str,
    beginning: Beginning,
    extent: &'e FileExtent,
) -> Result<StartedServer<'e>, ServeFault>
    ensures started { IfOk result (λ started. (started.server.core.id ≡ plan.now.id.index) × (started.server.core.count ≡ plan.now.servers) × (started.server.core.limit ≡ plan.now.habits.limit)) }
    ensures fault { IfErr result (MayEndStart beginning) }
{
    let (file, identity) = open_fit(rt, path, beginning)?;
    let device = CarefulDevice::new(Watched::new(file, extent));
    match Server::start(alloc, plan.id, plan.servers, plan.habits.limit, device) {
        Ok((server, dropped)) => {
            let entry = server.see_device().entry();
            Ok(StartedServer {
                server,
                file: identity,
                dropped,
                entry,
                without: None,
            })
        }
        Err(refused) => {
            let fault = fault_of(refused.fault, refused.device.damage());
            drop(refused);
            forget_new(rt, path, beginning);
            Err(fault)
        }
    }
}
