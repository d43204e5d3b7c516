//! How the journal of a server is made again, of what its peers have.
ghost use Rattle.std.specs.Prelude.{◌≡◌, ◌<◌, ◌≢◌, IfErr, IfOk, None, OnOk, slice_index};
ghost use Rattle.bayou_lang.specs.Writes.{count_of};
ghost use Rattle.bayou_serve.specs.Faults.{MayEndRestoring};
ghost use Rattle.bayou_serve.specs.Remade.{AreFromEach, IsRemade, TakesAllOf};
ghost use Rattle.bayou_server.specs.Server.{IsUp};

use crate::deferred::Deferred;
use crate::fault::{ServeFault, Unrestored, untaken};
use crate::plan::{Beginning, ServicePlan};
use crate::starting::look_for;
use bayou_base::ServerId;
use bayou_device::{Device, FileDevice};
use bayou_lang::RestingWrite;
use bayou_restore::{Gathered, restore};
use bayou_server::{Server, StartFault};
use std::alloc::{AllocError, Global};
use std::fs;
use std::fs::{File, Files};
use std::random::RandomSource;

/// The device of a journal that is being made again.
pub(crate) type Part = FileDevice<File>;

/// A journal that was made again. Nothing but [`give_name`] makes one.
#[derive(Clone, Copy, Debug)]
pub(crate) struct RemadeJournal {
    own: u32,
}

impl RemadeJournal {
    /// How many Writes of its own the server has by it.
    pub(crate) fn own(self) -> u32
        ensures { result ≡ self.own }
    {
        self.own
    }
}

/// That a server holds all that this peer handed over. Nothing but [`take_all_of`] makes one.
#[derive(Clone, Copy, Debug)]
pub(crate) struct TakenWhole {
    peer: u8,
}

// A run that nobody else has, as far as chance goes.
fn drawn_run<T: RandomSource>(rt: &T) -> Result<u32, ServeFault>
    ensures run { IfOk result (λ run. 0 < run) }
    ensures fault { IfErr result MayEndRestoring }
{
    let mut bytes = [0; 4];
    if rt.fill_bytes(&mut bytes).is_err() {
        return Err(ServeFault::NotRestored(Unrestored::Random));
    }
    Ok(u32::from_be_bytes(bytes).max(1))
}

// The server that the plan asks for, on a device that is emptied first: a run that was killed may have left something there.
fn start_empty<D: Device>(
    alloc: Global,
    plan: &ServicePlan,
    part: D,
) -> Result<Server<Deferred<D>>, ServeFault>
    ensures started { IfOk result (λ server. (server.core.doubt ≡ None) × (server.core.count ≡ plan.now.servers)) }
    ensures whose { IfOk result (λ server. (server.core.id ≡ plan.now.id.index) × (server.core.limit ≡ plan.now.habits.limit)) }
    ensures fault { IfErr result MayEndRestoring }
{
    let mut part = part;
    if part.cut(0).is_err() {
        return Err(ServeFault::NotRestored(Unrestored::Device));
    }
    let part = Deferred::new(part);
    match Server::start(alloc, plan.id, plan.servers, plan.habits.limit, part) {
        Ok((server, _)) => Ok(server),
        Err(refused) if refused.fault == StartFault::OutOfMemory => Err(ServeFault::Memory),
        Err(_) => Err(ServeFault::NotRestored(Unrestored::Device)),
    }
}

// The Writes again.
fn copies(alloc: Global, writes: &[RestingWrite]) -> Result<Vec<RestingWrite>, AllocError>
    ensures { IfOk result (λ copies. copies.items ≡ writes.now) }
{
    let mut copies = Vec::new(alloc);
    for write in writes {
        copies.push(write.copy(alloc)?)?;
    }
    Ok(copies)
}

/// Has the server hold all that this peer handed over, or tells why it doesn't take one of these Writes. What it held it holds.
pub(crate) fn take_all_of<D: Device>(
    alloc: Global,
    server: &mut Server<D>,
    gathered: &Gathered,
    peer: ServerId,
) -> Result<TakenWhole, ServeFault>
    ensures taken { OnOk result (TakesAllOf server.old.core gathered.now.writes server.new.core) }
    ensures whose { IfOk result (λ taken. taken.peer ≡ peer.index) }
    ensures fault { IfErr result MayEndRestoring }
{
    let writes = copies(alloc, gathered.writes())?;
    let Ok(number) = u32::try_from(writes.len()) else {
        return Err(ServeFault::NotRestored(Unrestored::LogFull));
    };
    let told = server.take_next(alloc, &mut writes.into_iter(), number);
    match told.refused {
        None => Ok(TakenWhole { peer: peer.index }),
        Some(refused) => Err(untaken(peer, refused.fault)),
    }
}

/// The server that the plan asks for, with its own Writes made again on the device, under tags of a run of its own, and the others that were gathered. The
/// device is not synced yet.
pub(crate) fn made_on<D: Device, T: RandomSource>(
    rt: &T,
    alloc: Global,
    plan: &ServicePlan,
    part: D,
    gathered: &Gathered,
) -> Result<Server<Deferred<D>>, ServeFault>
    requires { gathered.now.count ≡ plan.now.servers }
    ensures made { IfOk result (λ server. IsRemade plan.now gathered.now.writes server.core) }
    ensures fault { IfErr result MayEndRestoring }
{
    let run = drawn_run(rt)?;
    let mut server = start_empty(alloc, plan, part)?;
    restore(alloc, &mut server, gathered, run)?;
    Ok(server)
}

// The device of the server, which keeps the journal from now on.
fn synced<D: Device>(server: Server<Deferred<D>>) -> Result<D, ServeFault>
    ensures kept { IfOk result (λ device. D.kept device ≡ D.content device) }
    ensures fault { IfErr result MayEndRestoring }
{
    match server.stop().device.synced() {
        Ok(device) => Ok(device),
        Err(_) => Err(ServeFault::NotRestored(Unrestored::Device)),
    }
}

/// Has the server's journal, whose name is `part`, last, and then gives it its own name. No other process makes it meanwhile, since the device is locked.
/// All that each peer has was taken before. That it has its name no clause can say.
pub(crate) fn give_name<T: Files<File = File>>(
    rt: &T,
    plan: &ServicePlan,
    path: &str,
    part: &str,
    server: Server<Deferred<Part>>,
    taken: &[TakenWhole],
) -> Result<RemadeJournal, ServeFault>
    requires { AreFromEach plan.now.peers.items taken.now }
    ensures own { IfOk result (λ restored. restored.own ≡ slice_index (count_of server.core.held) plan.now.id.index) }
    ensures fault { IfErr result MayEndRestoring }
{
    let _ = taken;
    let own = server.vector().get(plan.id);
    let device = synced(server)?;
    look_for(rt, path, Beginning::Restore)?;
    if fs::rename(rt, part, path).is_err() {
        return Err(ServeFault::NotRestored(Unrestored::Device));
    }
    drop(device);
    Ok(RemadeJournal { own })
}
