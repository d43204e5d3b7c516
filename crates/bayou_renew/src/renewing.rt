//! A server of a new store, made of one that goes on no more.
ghost use Rattle.std.specs.Prelude.{◌≡◌, ◌<◌, ◌≤◌, ◌*◌, [], IfErr, IfOk, OnOk, length};
ghost use Rattle.bayou_base.specs.declared.limits.TheConstants.{MAX_OPS, MAX_WRITES as MOST_WRITES, SERVERS as MOST_SERVERS};
ghost use Rattle.bayou_log.specs.Replay.{replay};
ghost use Rattle.bayou_lang.specs.Writes.{count_of};
ghost use Rattle.bayou_device.specs.Device.{Rose};
ghost use Rattle.bayou_renew.specs.Inner.{HoldsThem};
ghost use Rattle.bayou_renew.specs.Renewal.{AreMadeOf, ORIGIN, kept_rows};
ghost use Rattle.bayou_renew.specs.Renewing.{AreNotRenewed, AreRowsOf, IsNotRenewed, IsRenewed, digest};
ghost use Rattle.bayou_renew.specs.declared.fault.RenewFault.TheVariants.{OutOfMemory};
ghost use Rattle.bayou_server.specs.Server.{IsUp};
ghost use Rattle.bayou_server.specs.Stored.{IsStored};

use crate::copied::copied;
use crate::digesting::digest_of;
use crate::fault::RenewFault;
use crate::plan::{RenewalPlan, RenewalWish};
use crate::rows::kept_rows_of;
use crate::writes::{MAKER, number_of, writes_of};
use bayou_base::{Key, MAX_WRITES, ServerId, Value};
use bayou_device::{Device, Failed, MemoryDevice, OpenGate};
use bayou_journal::CarefulDevice;
use bayou_lang::RestingWrite;
use bayou_log::WriteLog;
use bayou_restore::{Gathered, restore};
use bayou_server::{Server, TakeFault};
use std::alloc::{AllocError, Global};

/// The device on which a new journal is made, before a file gets its bytes.
pub type Made = MemoryDevice<OpenGate>;

/// A server of the new store, with its journal.
#[derive(Drop)]
pub struct Renewed {
    pub server: Server<Made>,
    /// How many keys the database has.
    pub keys: usize,
    /// The digest of the Writes that it holds.
    pub digest: u64,
}

// The rows that the new store gets, where the server holds what it must, and they don't take more Writes than they may.
fn rows_within<D: Device>(
    alloc: Global,
    server: &Server<D>,
    wish: &RenewalWish,
) -> Result<Vec<(Key, Value)>, RenewFault>
    ensures at { OnOk result (count_of server.now.core.held ≡ wish.now.at) }
    ensures rows { IfOk result (λ rows. rows.items ≡ kept_rows wish.now.without.items (replay server.now.core.held)) }
    ensures few { IfOk result (λ rows. length rows.items ≤ MAX_OPS * wish.now.most) }
    ensures room { wish.now.most ≤ MOST_WRITES }
    ensures refused { IfErr result (AreNotRenewed wish.now server.now.core.held) }
{
    let held = server.vector();
    if held != wish.at {
        return Err(RenewFault::Elsewhere(held));
    }
    let rows = kept_rows_of(alloc, server, &wish.without)?;
    let number = number_of(rows.len());
    if number > wish.most as usize {
        return Err(RenewFault::TooMany(number));
    }
    Ok(rows)
}

// A server of this number among so many that holds nothing.
fn empty_server(alloc: Global, id: ServerId, count: u8) -> Result<Server<Made>, RenewFault>
    requires known { id.index < count }
    requires count { count ≤ MOST_SERVERS }
    ensures empty { IfOk result (λ server. server.core.held ≡ []) }
    ensures up { IfOk result (λ server. IsUp server.core) }
    ensures whose { IfOk result (λ server. (server.core.id ≡ id.index) × (server.core.count ≡ count) × (server.core.limit ≡ MOST_WRITES)) }
    ensures stored { IfOk result (IsStored ⟦<MemoryDevice<OpenGate> as Device>⟧) }
    ensures fault { IfErr result (λ fault. fault ≡ OutOfMemory) }
{
    let device = MemoryDevice::new(alloc, OpenGate);
    // A device in memory fails only where memory is refused, and this one has nothing.
    let Ok((server, _)) = Server::start(alloc, id, count, MAX_WRITES, device) else {
        return Err(RenewFault::OutOfMemory);
    };
    if !server.receipts().is_empty() {
        return Err(RenewFault::OutOfMemory);
    }
    Ok(server)
}

// The Writes again.
fn copies(alloc: Global, writes: &[RestingWrite]) -> Result<Vec<RestingWrite>, AllocError>
    ensures { IfOk result (λ copies. copies.items ≡ writes.now) }
{
    let mut copies = Vec::new(alloc);
    for write in writes {
        copies.push(write.copy(alloc)?)?;
    }
    Ok(copies)
}

// Has the server, which isn't the one that makes them and holds nothing, hold these Writes, which are made of rows.
fn take<N: Device>(
    alloc: Global,
    server: &mut Server<N>,
    log: &WriteLog,
    rows: &[(Key, Value)],
) -> Result<(), RenewFault>
    requires up { IsUp server.old.core }
    requires empty { server.old.core.held ≡ [] }
    requires made { AreMadeOf [] rows.now log.now.receipts }
    ensures held { OnOk result (HoldsThem server.old.core log.now.receipts server.new.core) }
    ensures stored { N.is_modelled → OnOk result (IsStored N.Device server.old → IsStored N.Device server.new) }
    ensures fault { IfErr result (λ fault. fault ≡ OutOfMemory) }
{
    let _ = rows;
    let writes = copies(alloc, log.receipts())?;
    let Ok(number) = u32::try_from(writes.len()) else {
        return Err(RenewFault::OutOfMemory);
    };
    let told = server.take_next(alloc, &mut writes.into_iter(), number);
    match told.refused {
        None => Ok(()),
        // They are what a server makes that holds nothing: memory alone may be wanting.
        Some(_) => Err(RenewFault::OutOfMemory),
    }
}

// Has the server make these Writes, which are made of rows, under tags of this run.
fn make<N: Device>(
    alloc: Global,
    server: &mut Server<N>,
    log: WriteLog,
    rows: &[(Key, Value)],
    run: u32,
) -> Result<(), RenewFault>
    requires up { IsUp server.old.core }
    requires count { server.old.core.count ≡ log.count }
    requires own { server.old.core.id ≡ ORIGIN }
    requires made { AreMadeOf [] rows.now log.receipts }
    requires run { 0 < run }
    ensures held { OnOk result (HoldsThem server.old.core log.receipts server.new.core) }
    ensures stored { N.is_modelled → OnOk result (IsStored N.Device server.old → IsStored N.Device server.new) }
    ensures fault { IfErr result (λ fault. fault ≡ OutOfMemory) }
{
    let _ = rows;
    match restore(alloc, server, &Gathered::of(log), run) {
        Ok(()) => Ok(()),
        // They are what a server makes that holds nothing: memory alone may be wanting.
        Err(_) => Err(RenewFault::OutOfMemory),
    }
}

// Has the server, which holds nothing, hold these Writes, which are made of rows: server 0 makes them, under tags of this run, and each other one takes them.
fn hold<N: Device>(
    alloc: Global,
    server: &mut Server<N>,
    log: WriteLog,
    rows: &[(Key, Value)],
    run: u32,
) -> Result<(), RenewFault>
    requires up { IsUp server.old.core }
    requires empty { server.old.core.held ≡ [] }
    requires count { server.old.core.count ≡ log.count }
    requires made { AreMadeOf [] rows.now log.receipts }
    requires run { 0 < run }
    ensures held { OnOk result (HoldsThem server.old.core log.receipts server.new.core) }
    ensures stored { N.is_modelled → OnOk result (IsStored N.Device server.old → IsStored N.Device server.new) }
    ensures fault { IfErr result (λ fault. fault ≡ OutOfMemory) }
{
    if server.id().index == MAKER.index {
        make(alloc, server, log, rows, run)
    } else {
        take(alloc, server, &log, rows)
    }
}

// The server of the new store that the plan asks for, which holds the Writes that are made of these rows.
fn server_of(
    alloc: Global,
    plan: &RenewalPlan,
    rows: &[(Key, Value)],
    run: u32,
) -> Result<Renewed, RenewFault>
    requires few { length rows.now ≤ MAX_OPS * plan.now.wish.most }
    requires room { plan.now.wish.most ≤ MOST_WRITES }
    requires run { 0 < run }
    ensures made { IfOk result (λ renewed. AreMadeOf [] rows.now renewed.server.core.held) }
    ensures whose { IfOk result (λ renewed. IsUp renewed.server.core × (renewed.server.core.id ≡ plan.now.id.index) × (renewed.server.core.count ≡ plan.now.servers_then)) }
    ensures keys { IfOk result (λ renewed. renewed.keys ≡ length rows.now) }
    ensures digest { IfOk result (λ renewed. renewed.digest ≡ digest renewed.server.core.held) }
    ensures stored { IfOk result (λ renewed. IsStored ⟦<MemoryDevice<OpenGate> as Device>⟧ renewed.server) }
    ensures fault { IfErr result (λ fault. fault ≡ OutOfMemory) }
{
    let log = writes_of(alloc, plan.servers_then, rows)?;
    let digest = digest_of(alloc, log.receipts())?;
    let mut server = empty_server(alloc, plan.id, plan.servers_then)?;
    match hold(alloc, &mut server, log, rows, run) {
        Ok(()) => Ok(Renewed {
            server,
            keys: rows.len(),
            digest,
        }),
        Err(fault) => Err(fault),
    }
}

// The rows that the new store gets of what the device has, which is read once and stays as it is.
fn rows_on<D: Device>(
    alloc: Global,
    plan: &RenewalPlan,
    old: &mut D,
) -> Result<Vec<(Key, Value)>, RenewFault>
    ensures same { OnOk result (D.content old.new ≡ D.content old.old) }
    ensures kept { D.kept old.new ≡ D.kept old.old }
    ensures calls { D.leads_to 1 old.old old.new }
    ensures rows { D.is_modelled → IfOk result (λ rows. AreRowsOf ⟦<CarefulDevice<MemoryDevice<OpenGate>> as Device>⟧ plan.now (D.content old.old) rows.items) }
    ensures few { IfOk result (λ rows. length rows.items ≤ MAX_OPS * plan.now.wish.most) }
    ensures room { plan.now.wish.most ≤ MOST_WRITES }
    ensures refused { D.is_modelled → IfErr result (IsNotRenewed ⟦<CarefulDevice<MemoryDevice<OpenGate>> as Device>⟧ (λ copy. copy.damage) (Rose (D.failures old.old) (D.failures old.new)) plan.now (D.content old.old)) }
{
    match copied(alloc, plan.id, plan.servers, old) {
        Ok(server) => rows_within(alloc, &server, &plan.wish),
        Err(fault) => Err(RenewFault::Unread(fault)),
    }
}

/// The plan's server in the new store, made of what the device has, which is read once and stays as it is. Server 0 makes the Writes, under tags of this
/// run; each other server takes them.
pub fn renew<D: Device>(
    alloc: Global,
    plan: &RenewalPlan,
    old: &mut D,
    run: u32,
) -> Result<Renewed, RenewFault>
    requires run { 0 < run }
    // The device has what it had, and keeps what it kept.
    ensures same { OnOk result (D.content old.new ≡ D.content old.old) }
    ensures kept { D.kept old.new ≡ D.kept old.old }
    ensures calls { D.leads_to 1 old.old old.new }
    ensures renewed { D.is_modelled → IfOk result (λ renewed. IsRenewed ⟦<CarefulDevice<MemoryDevice<OpenGate>> as Device>⟧ plan.now (D.content old.old) renewed.server.core renewed.keys renewed.digest) }
    // Its journal has the Writes that it holds, and nothing else.
    ensures stored { IfOk result (λ renewed. IsStored ⟦<MemoryDevice<OpenGate> as Device>⟧ renewed.server) }
    ensures refused { D.is_modelled → IfErr result (IsNotRenewed ⟦<CarefulDevice<MemoryDevice<OpenGate>> as Device>⟧ (λ copy. copy.damage) (Rose (D.failures old.old) (D.failures old.new)) plan.now (D.content old.old)) }
{
    match rows_on(alloc, plan, old) {
        Ok(rows) => server_of(alloc, plan, &rows, run),
        Err(fault) => Err(fault),
    }
}

/// Has the device hold the server's journal and nothing else, and keep it.
pub fn put_journal<D: Device>(device: &mut D, server: &Server<Made>) -> Result<(), Failed>
    ensures put { D.is_modelled → OnOk result (D.content device.new ≡ server.now.device.bytes) }
    ensures kept { OnOk result (D.kept device.new ≡ D.content device.new) }
{
    device.cut(0)?;
    device.append(server.see_device().bytes())?;
    device.sync()
}
