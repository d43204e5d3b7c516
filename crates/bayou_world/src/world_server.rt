//! A server of a run: as it runs, and where it is stopped.
ghost use Rattle.std.specs.Prelude.{◌≡◌, ◌<◌, ◌≤◌, false, length, take, IfOk, OnErr};
ghost use Rattle.bayou_base.specs.declared.limits.TheConstants.{MAX_NUMBER};
ghost use Rattle.bayou_base.specs.Vector.{Dominates};
ghost use Rattle.bayou_lang.specs.Writes.{AreFitting, count_of, lacking_of};
ghost use Rattle.bayou_device.specs.Memory.{with_fuse};
ghost use Rattle.bayou_server.specs.Honest.{IsHonestAnswer};
ghost use Rattle.bayou_server.specs.Reopens.{Reopens};
ghost use Rattle.bayou_server.specs.Server.{holds_of};
ghost use Rattle.bayou_server.specs.Takes.{Takes};
ghost use Rattle.bayou_world.specs.declared.reply.Reply.TheVariants.{Reopened as WasReopened, Restarted as WasRestarted, Took as WasTaken};
ghost use Rattle.bayou_world.specs.Faults.{tells_fault};
ghost use Rattle.bayou_world.specs.Inner.Charges.{IsUnused, Spends};
ghost use Rattle.bayou_world.specs.Inner.WorldServers.{IsFresh, IsHonestAlone, IsKept, IsLeftOf, Starts, StaysHonest, core_of, device_of, is_stopped};

use crate::role::Role;
use bayou_base::Vector;
use bayou_device::{MemoryDevice, OpenGate};
use bayou_journal::laws::a_device_in_memory_only_tears;
use bayou_lang::RestingWrite;
use bayou_server::laws::{
    a_start_on_an_empty_device_holds_nothing, a_start_on_an_honest_device_is_honest,
    an_honest_server_has_an_honest_device, an_honest_server_is_reopened_honestly,
    an_honest_server_stays_honest, what_its_device_holds_decides,
};
use bayou_server::{
    NotStarted, ReopenFault, Reopened, Server, StartFault, Stopped, TakeFault, Took,
};
use std::alloc::{AllocError, Global};

/// A server of a run, on a device in memory.
#[derive(Drop)]
pub enum WorldServer {
    /// It serves, up or down.
    Running(Server<MemoryDevice<OpenGate>>),
    /// Its last start was refused: its device, and what it held before.
    Stopped(Role, Stopped<MemoryDevice<OpenGate>>),
}

/// Copies of the Writes that the server holds and the offer hasn't, in stamp order. Where there is none, no memory is asked for.
pub fn lacking_in(
    alloc: Global,
    server: &Server<MemoryDevice<OpenGate>>,
    offered: &Vector,
) -> Result<Vec<RestingWrite>, AllocError>
    ensures value { AreFitting server.now.core.count server.now.core.held → IfOk result (λ lacking. lacking.items ≡ take server.now.core.limit (lacking_of offered.now server.now.core.held)) }
    ensures few { IfOk result (λ lacking. length lacking.items ≤ MAX_NUMBER) }
    ensures wanted { OnErr result (¬ Dominates offered.now (count_of server.now.core.held)) }
{
    if offered.dominates(&server.vector()) {
        return Ok(Vec::new(alloc));
    }
    server.lacking(alloc, offered, server.limit() as usize)
}

/// The server is given the Write.
pub fn take_write(
    alloc: Global,
    server: &mut Server<MemoryDevice<OpenGate>>,
    write: RestingWrite,
) -> Result<Took, TakeFault>
    ensures takes { Takes server.old.core write result server.new.core }
    ensures honest { StaysHonest server.old server.new }
    ensures spends { Spends (tells_fault (WasTaken result)) false server.old.device server.new.device }
{
    an_honest_server_stays_honest::<MemoryDevice<OpenGate>>();
    a_device_in_memory_only_tears();
    server.take(alloc, write)
}

/// The server opens its journal again.
pub fn reopen_server(
    alloc: Global,
    server: &mut Server<MemoryDevice<OpenGate>>,
) -> Result<Reopened, ReopenFault>
    ensures reopens { IsHonestAlone server.old → Reopens server.old.core result server.new.core }
    ensures answer { IsHonestAlone server.old → IsHonestAnswer result }
    ensures honest { StaysHonest server.old server.new }
    ensures spends { Spends (tells_fault (WasReopened result)) false server.old.device server.new.device }
{
    an_honest_server_is_reopened_honestly::<MemoryDevice<OpenGate>>();
    a_device_in_memory_only_tears();
    server.reopen(alloc)
}

impl WorldServer {
    /// A server that is started first, on an empty device, which refuses nothing but for memory.
    pub fn begin(alloc: Global, role: Role) -> Result<Self, AllocError>
        ensures fresh { IfOk result (λ world_server. IsFresh role.count role.limit role.id.index world_server) }
        ensures unused { IfOk result (λ world_server. IsUnused (device_of world_server)) }
    {
        a_start_on_an_empty_device_holds_nothing::<MemoryDevice<OpenGate>>();
        a_start_on_an_honest_device_is_honest::<MemoryDevice<OpenGate>>();
        let device = MemoryDevice::new(alloc, OpenGate);
        match Server::start(alloc, role.id, role.count, role.limit, device) {
            Ok((server, _)) => Ok(WorldServer::Running(server)),
            Err(_) => Err(AllocError),
        }
    }

    /// Copies of the Writes that it holds, or held as it was stopped, in order of receipt.
    pub fn dump(&self, alloc: Global) -> Result<Vec<RestingWrite>, AllocError>
        ensures { IfOk result (λ writes. writes.items ≡ (core_of self.now).held) }
    {
        match self {
            WorldServer::Running(server) => server.dump(alloc),
            WorldServer::Stopped(_, stopped) => stopped.last.dump(alloc),
        }
    }

    /// Sets a fuse on its device.
    pub fn fuse(&mut self, call: u32, kept: usize)
        requires { 0 < call }
        ensures core { core_of self.new ≡ core_of self.old }
        ensures runs { is_stopped self.new ≡ is_stopped self.old }
        ensures device { device_of self.new ≡ with_fuse call kept (device_of self.old) }
        ensures kept { IsKept self.old → IsKept self.new }
    {
        what_its_device_holds_decides::<MemoryDevice<OpenGate>>();
        match self {
            WorldServer::Running(server) => server.device().fuse(call, kept),
            WorldServer::Stopped(_, stopped) => stopped.device.fuse(call, kept),
        }
    }

    /// How many appends of its device found no memory.
    pub fn lacks(&mut self) -> u64
        ensures value { result ≡ (device_of self.old).lacks }
        ensures same { self.new ≡ self.old }
    {
        match self {
            WorldServer::Running(server) => server.device().lacks(),
            WorldServer::Stopped(_, stopped) => stopped.device.lacks(),
        }
    }

    /// Which server it is.
    fn role(&self) -> Role
        ensures id { result.id.index ≡ (core_of self.now).id }
        ensures count { result.count ≡ (core_of self.now).count }
        ensures limit { result.limit ≡ (core_of self.now).limit }
    {
        match self {
            WorldServer::Running(server) => Role {
                id: server.id(),
                count: server.count(),
                limit: server.limit(),
            },
            WorldServer::Stopped(role, _) => *role,
        }
    }

    /// Stops the server, if it runs.
    fn stop(self) -> Stopped<MemoryDevice<OpenGate>>
        ensures device { result.device ≡ device_of self }
        ensures last { result.last ≡ holds_of (core_of self) }
        ensures honest { IsKept self → IsLeftOf (core_of self) (device_of self) }
    {
        an_honest_server_has_an_honest_device::<MemoryDevice<OpenGate>>();
        match self {
            WorldServer::Running(server) => server.stop(),
            WorldServer::Stopped(_, stopped) => stopped,
        }
    }

    /// Stops the server, if it runs, and starts it on what its device has. It gives how many Writes the server then holds, or why it
    /// is stopped.
    pub fn restart(self, alloc: Global) -> (Self, Result<usize, StartFault>)
        ensures starts { IsKept self → Starts self result.1 result.0 × IsKept result.0 }
        ensures spends { Spends (tells_fault (WasRestarted result.1)) false (device_of self) (device_of result.0) }
    {
        a_start_on_an_honest_device_is_honest::<MemoryDevice<OpenGate>>();
        a_device_in_memory_only_tears();
        let role = self.role();
        let Stopped { device, last } = self.stop();
        match Server::start(alloc, role.id, role.count, role.limit, device) {
            Ok((server, _)) => {
                let holds = server.receipts().len();
                (WorldServer::Running(server), Ok(holds))
            }
            Err(NotStarted { fault, device }) => {
                let stopped = Stopped { device, last };
                (WorldServer::Stopped(role, stopped), Err(fault))
            }
        }
    }
}
