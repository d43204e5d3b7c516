//! The file in which sessions are kept.
ghost use Rattle.std.specs.Prelude.{◌≡◌, ◌<◌, ◌≤◌, ◌++◌, IfErr, IfOk, List, Ok, OnOk, vec_len};
ghost use Rattle.bayou_base.specs.declared.limits.TheConstants.{MAX_KEPT_ENTRIES as MOST};
ghost use Rattle.bayou_connect.specs.Anew.{entries_behind, those};
ghost use Rattle.bayou_connect.specs.Faults.{IsStateFault, forgotten_as, unkept_as};
ghost use Rattle.bayou_connect.specs.Found.{IsFound};
ghost use Rattle.bayou_base.specs.declared.limits.TheConstants.{SESSIONS as NUMBER};
ghost use Rattle.bayou_remember.specs.Memory.{EndsWith, HasAll};
ghost use Rattle.bayou_client.specs.Operating.{Asking};

use crate::fault::ConnectFault;
use bayou_base::limits::MAX_KEPT_ENTRIES;
use bayou_client::Asker;
use bayou_device::{Device, FileDevice};
use bayou_journal::{CarefulDevice, DamagedEntry, OpenFault};
use bayou_remember::{KeepFault, Memory, RememberFault};
use bayou_session::FIRST_RUN;
use std::alloc::Global;
use std::fs;
use std::fs::{File, Files};

/// The device of a state file.
pub(crate) type StateDevice = CarefulDevice<FileDevice<File>>;

/// A state file, with what it keeps of each session, by its number.
#[derive(Drop)]
pub(crate) struct Remembered {
    pub(crate) memory: Memory<StateDevice>,
    pub(crate) all: Vec<Option<Asker>>,
    /// The last entry, which was dropped as it was opened, though all its bytes were there.
    pub(crate) entry: Option<DamagedEntry>,
    pub(crate) ghost one_each: { vec_len all ≡ NUMBER },
}

/// A state file that is used, by its name, in this run.
#[derive(Drop)]
pub(crate) struct StateFile {
    pub(crate) memory: Memory<StateDevice>,
    path: String,
    run: u32,
    ghost runs: { 0 < run },
}

// What a state file that can't be used is reported as.
fn fault_of(fault: RememberFault, device: &StateDevice) -> ConnectFault
    ensures { result ≡ forgotten_as fault device.now.damage }
{
    match (fault, device.damage()) {
        (RememberFault::Journal(OpenFault::Device), Some(damage)) => ConnectFault::StateDamaged {
            whole: damage.whole,
            behind: damage.behind,
        },
        (RememberFault::Journal(OpenFault::Device), None) => ConnectFault::State,
        (RememberFault::Journal(OpenFault::NotAJournal | OpenFault::OtherServer), _)
        | (RememberFault::NotKept(_), _) => ConnectFault::NotAState,
        (RememberFault::Journal(OpenFault::OutOfMemory) | RememberFault::OutOfMemory, _) => {
            ConnectFault::Memory
        }
    }
}

// What a session that wasn't kept is reported as.
fn fault_of_keeping(fault: KeepFault) -> ConnectFault
    ensures { result ≡ unkept_as fault }
{
    match fault {
        KeepFault::Device | KeepFault::TooLong => ConnectFault::State,
        KeepFault::OutOfMemory => ConnectFault::Memory,
    }
}

// The file of this name, as far as it is a state of sessions. A missing file is made.
fn open_at<T: Files<File = File>>(
    rt: &T,
    alloc: Global,
    path: &str,
    run: u32,
) -> Result<Remembered, ConnectFault>
    requires { 0 < run }
    ensures found { IfOk result (λ found. IsFound run found.memory found.all.items) }
    ensures entry { IfOk result (λ found. found.entry ≡ found.memory.device.entry) }
    ensures fault { IfErr result IsStateFault }
{
    let Ok(file) = FileDevice::open(rt, path) else {
        return Err(ConnectFault::StateNotOpened);
    };
    let device = CarefulDevice::new(file);
    match Memory::open(alloc, device, run) {
        Ok((memory, all)) => {
            let entry = memory.see_device().entry();
            Ok(Remembered { memory, all, entry })
        }
        Err(refused) => Err(fault_of(refused.fault, &refused.device)),
    }
}

// Keeps each of those that there are, one after another.
fn keep_each<D: Device>(
    alloc: Global,
    memory: &mut Memory<D>,
    all: &[Option<Asker>],
) -> Result<(), ConnectFault>
    ensures kept { D.is_modelled → OnOk result ((had : List Asking) → HasAll D.Device memory.old had → HasAll D.Device memory.new (had ++ those all.now)) }
    ensures entries { OnOk result (memory.new.entries ≡ entries_behind memory.old.entries (those all.now)) }
    ensures fault { IfErr result IsStateFault }
{
    for kept in all {
        if let Some(kept) = kept {
            if let Err(fault) = memory.keep(alloc, kept) {
                return Err(fault_of_keeping(fault));
            }
        }
    }
    Ok(())
}

// Writes what is kept of each session at last to a file that is new. What a file has no clause can say.
fn write_part<T: Files<File = File>>(
    rt: &T,
    alloc: Global,
    part: &str,
    all: &[Option<Asker>],
) -> Result<Memory<StateDevice>, ConnectFault>
    ensures entries { IfOk result (λ memory. memory.entries ≡ entries_behind 0 (those all.now)) }
    ensures fault { IfErr result IsStateFault }
{
    // What an interrupted call left of it.
    let _ = fs::remove_file(rt, part);
    let Remembered { mut memory, .. } = open_at(rt, alloc, part, FIRST_RUN)?;
    if memory.entries() != 0 {
        return Err(ConnectFault::State);
    }
    keep_each(alloc, &mut memory, all)?;
    Ok(memory)
}

// Puts a file with what is kept of each session at last in the place of the longer one, and opens it.
fn write_anew<T: Files<File = File>>(
    rt: &T,
    alloc: Global,
    path: &str,
    run: u32,
    all: &[Option<Asker>],
) -> Result<Remembered, ConnectFault>
    requires { 0 < run }
    ensures found { IfOk result (λ found. IsFound run found.memory found.all.items) }
    ensures fault { IfErr result IsStateFault }
{
    let part = format!(in alloc; "{path}.part")?;
    let memory = write_part(rt, alloc, part.as_str(), all)?;
    drop(memory);
    if fs::rename(rt, part.as_str(), path).is_err() {
        return Err(ConnectFault::State);
    }
    open_at(rt, alloc, path, run)
}

/// What the file of this name keeps of each session; those that have nothing to ask again go on in this run. It is locked as long as it is
/// used, and is written anew where it has grown long.
pub(crate) fn remember<T: Files<File = File>>(
    rt: &T,
    alloc: Global,
    path: &str,
    run: u32,
) -> Result<Remembered, ConnectFault>
    requires { 0 < run }
    ensures found { IfOk result (λ found. IsFound run found.memory found.all.items) }
    ensures fault { IfErr result IsStateFault }
{
    let remembered = open_at(rt, alloc, path, run)?;
    if remembered.memory.entries() <= MAX_KEPT_ENTRIES {
        return Ok(remembered);
    }
    let entry = remembered.entry;
    let Remembered { memory, all, .. } = write_anew(
        rt,
        alloc,
        path,
        run,
        remembered.all.as_slice(),
    )?;
    Ok(Remembered { memory, all, entry })
}

impl StateFile {
    /// The state file of this name, which was opened in this run.
    pub(crate) fn new(memory: Memory<StateDevice>, path: String, run: u32) -> Self
        requires { 0 < run }
        ensures { (result.memory ≡ memory) × (result.path ≡ path) × (result.run ≡ run) }
    {
        StateFile { memory, path, run }
    }

    /// Keeps the session, last.
    pub(crate) fn keep(&mut self, alloc: Global, kept: &Asker) -> Result<(), ConnectFault>
        ensures { OnOk result (EndsWith self.new.memory kept.now) }
    {
        match self.memory.keep(alloc, kept) {
            Ok(()) => Ok(()),
            Err(fault) => Err(fault_of_keeping(fault)),
        }
    }

    /// The same, written anew where it has grown long meanwhile: then it is short, and keeps something. It is let go for a moment then. What a file that
    /// was written anew keeps of each session no clause can say; [`keep_each`] has one of any device.
    pub(crate) fn shortened<T: Files<File = File>>(
        self,
        rt: &T,
        alloc: Global,
    ) -> Result<Self, ConnectFault>
        ensures short { self.memory.entries ≤ MOST → result ≡ Ok self }
        ensures long { MOST < self.memory.entries → IfOk result (λ file. (0 < file.memory.entries) × (file.memory.entries ≤ MOST)) }
        ensures same { IfOk result (λ file. (file.path ≡ self.path) × (file.run ≡ self.run)) }
    {
        if self.memory.entries() <= MAX_KEPT_ENTRIES {
            return Ok(self);
        }
        let StateFile { memory, path, run } = self;
        drop(memory);
        let Remembered { memory, .. } = remember(rt, alloc, path.as_str(), run)?;
        if memory.entries() == 0 || memory.entries() > MAX_KEPT_ENTRIES {
            return Err(ConnectFault::State);
        }
        Ok(StateFile { memory, path, run })
    }
}
