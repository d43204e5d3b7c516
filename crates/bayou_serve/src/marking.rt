//! What is kept of a server that lost Writes of its own: a mark beside its journal, by which it stays known over a restart.
ghost use Rattle.std.specs.Prelude.{◌≡◌, ◌≢◌, ◌++◌, ◌⊎◌, [], IfErr, IfOk, false, true};
ghost use Rattle.bayou_serve.specs.Marks.{IsMark, mark_text};
ghost use Rattle.bayou_serve.specs.declared.fault.ServeFault.TheVariants.{Lost, MarkFailed, Memory};
ghost use Rattle.bayou_serve.specs.declared.plan.Beginning.TheVariants.{Restore};

use crate::fault::ServeFault;
use crate::hall::ServiceHall;
use crate::plan::Beginning;
use bayou_device::{Device, FileDevice, ReadFault};
use std::alloc::Global;
use std::fs;
use std::fs::{File, Files};
use std::sync::{Mutex, OnceToken, Wait};

/// What is reported where the mark can't be made.
pub(crate) const UNMARKED: &str =
    "bayou: the .mark of that can't be written: a restart may not know it\n";

/// The mark of a server: bytes on a device, where it lost Writes of its own, and else none.
#[derive(Drop)]
struct Marking<M: Device> {
    device: M,
    is_made: bool,
    ghost made: { M.is_modelled → is_made ≡ true → IsMark (M.kept device) },
}

// The mark as the device has it.
fn read_mark<M: Device>(alloc: Global, device: M) -> Result<Marking<M>, ServeFault>
    ensures made { M.is_modelled → IfOk result (λ marking. marking.is_made ≡ true → IsMark (M.content device)) }
    ensures none { M.is_modelled → IfOk result (λ marking. marking.is_made ≡ false → M.content device ≡ []) }
    ensures same { IfOk result (λ marking. M.content marking.device ≡ M.content device) }
    ensures fault { IfErr result (λ fault. (fault ≡ MarkFailed) ⊎ (fault ≡ Memory)) }
{
    let mut device = device;
    if device.sync().is_err() {
        return Err(ServeFault::MarkFailed);
    }
    match device.read_all(alloc) {
        Ok(bytes) => Ok(Marking {
            device,
            is_made: !bytes.is_empty(),
        }),
        Err(ReadFault::Failed) => Err(ServeFault::MarkFailed),
        Err(ReadFault::OutOfMemory) => Err(ServeFault::Memory),
    }
}

impl<M: Device> Marking<M> {
    // Makes the mark, where it isn't made, and makes it last; whether it is made.
    fn make(&mut self) -> bool
        ensures told { result ≡ self.new.is_made }
        ensures made { M.is_modelled → result ≡ true → self.old.is_made ≡ false → M.kept self.new.device ≡ M.content self.old.device ++ mark_text }
        ensures stays { self.old.is_made ≡ true → self.new ≡ self.old }
    {
        if self.is_made {
            return true;
        }
        let is_made = self.device.append("lost\n".as_bytes()).is_ok() && self.device.sync().is_ok();
        self.is_made = is_made;
        is_made
    }

    // Takes the mark away, for a server whose journal was made again; whether it is away.
    fn clear(&mut self) -> bool
        ensures cleared { result ≡ true → (self.new.is_made ≡ false) × (M.content self.new.device ≡ []) × (M.kept self.new.device ≡ []) }
    {
        self.is_made = false;
        self.device.cut(0).is_ok() && self.device.sync().is_ok()
    }
}

// The mark on the device, which has none: a server that is marked isn't started, but for one whose journal was made again.
fn unmarked<M: Device>(
    alloc: Global,
    device: M,
    beginning: Beginning,
) -> Result<Marking<M>, ServeFault>
    ensures none { IfOk result (λ marking. marking.is_made ≡ false) }
    ensures empty { M.is_modelled → IfOk result (λ marking. M.content marking.device ≡ []) }
    ensures started { M.is_modelled → IfOk result (λ _. beginning ≢ Restore → M.content device ≡ []) }
    ensures refused { IfErr result (λ fault. fault ≡ Lost → (beginning ≢ Restore) × (M.is_modelled → IsMark (M.content device))) }
    ensures fault { IfErr result (λ fault. (fault ≡ Lost) ⊎ (fault ≡ MarkFailed) ⊎ (fault ≡ Memory)) }
{
    let mut marking = read_mark(alloc, device)?;
    if beginning == Beginning::Restore && !marking.clear() {
        return Err(ServeFault::MarkFailed);
    }
    if marking.is_made {
        return Err(ServeFault::Lost);
    }
    Ok(marking)
}

/// The mark of a server, which its threads share.
#[derive(Drop)]
pub(crate) struct ServerMark<M: Device>(Mutex<Marking<M>>);

impl<M: Device> ServerMark<M> {
    /// Makes the mark, where it isn't made; whether it is made.
    pub(crate) fn make<T: Wait>(&self, rt: &T) -> bool {
        self.0.lock(rt).make()
    }
}

/// That a server lost Writes of its own.
#[derive(Drop)]
pub(crate) struct Loss<'a> {
    /// What shows that its desks know it.
    pub(crate) known: OnceToken<'a, ()>,
    pub(crate) is_marked: bool,
}

/// The server lost Writes of its own: it takes no more from now on, and that is marked, where it isn't yet. What can't be marked may be tried again.
pub(crate) fn lose<'a, M: Device, T: Wait>(
    rt: &T,
    hall: &'a ServiceHall,
    mark: &ServerMark<M>,
) -> Loss<'a>
    ensures { result.known.of ≡ hall.entry.now.lost.id }
{
    let known = hall.lose(rt);
    let is_marked = mark.make(rt);
    Loss { known, is_marked }
}

// How many bytes the file of this name has, where that can be seen.
fn size_of<T: Files<File = File>>(rt: &T, path: &str) -> Option<u64> {
    match fs::metadata(rt, path) {
        Ok(found) => Some(found.len()),
        Err(_) => None,
    }
}

/// Refuses a start with the journal that is there, or with a new one, where a mark of this name is seen. It is looked at before the journal is.
pub(crate) fn look_for_mark<T: Files<File = File>>(
    rt: &T,
    path: &str,
    beginning: Beginning,
) -> Result<(), ServeFault>
    ensures { IfErr result (λ fault. (fault ≡ Lost) × (beginning ≢ Restore)) }
{
    if beginning == Beginning::Restore {
        return Ok(());
    }
    match size_of(rt, path) {
        Some(size) if size > 0 => Err(ServeFault::Lost),
        _ => Ok(()),
    }
}

/// The mark of this name, which isn't made: one that was is taken away where the journal was made again, and else refuses the start. Its file is there
/// from then on. What a file has no clause can say.
pub(crate) fn open_mark<T: Files<File = File>>(
    rt: &T,
    alloc: Global,
    path: &str,
    beginning: Beginning,
) -> Result<ServerMark<FileDevice<File>>, ServeFault>
    ensures { IfErr result (λ fault. (fault ≡ Lost) ⊎ (fault ≡ MarkFailed) ⊎ (fault ≡ Memory)) }
{
    let Ok(device) = FileDevice::open(rt, path) else {
        return Err(ServeFault::MarkFailed);
    };
    let marking = unmarked(alloc, device, beginning)?;
    Ok(ServerMark(Mutex::new(marking)))
}

/// Removes the file of this name where it is empty: a server that lost nothing leaves nothing but its journal.
pub(crate) fn put_away<T: Files<File = File>>(rt: &T, path: &str) {
    if size_of(rt, path) == Some(0) {
        // One that can't be removed is none the next time either.
        let _ = fs::remove_file(rt, path);
    }
}
