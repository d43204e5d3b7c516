ghost use Rattle.std.specs.Prelude.{◌≡◌, ◌≤◌, ◌⊎◌, [], true, IfOk, IsErrOf, OnErr, OnOk};
ghost use Rattle.std.specs.Io.KnownBytes.{Appends, Consumes, IsAtEnd};
ghost use Rattle.bayou_device.specs.Device.{Rose};
ghost use Rattle.bayou_streams.specs.Written.{AppendsFront};

use crate::device::{Device, Failed, ReadFault};
use bayou_base::limits::READ_BYTES;
use bayou_streams::{CountedChannel, Turn};
use std::alloc::Global;
use std::fs::{File, Files, OpenFile, OpenOptions};
use std::io::{Read, Seek, SeekFrom, Write};
use std::os::unix::fs::OpenOptionsExt;
use std::path::Path;

// With what mode a file is made: who runs the program reads and writes it, and nobody else.
const OWN_MODE: u32 = 0o600;

/// A device over a file, of whose content no clause says anything. Each of its calls makes at most
/// [`MAX_TURNS`](bayou_base::limits::MAX_TURNS) calls of the file that read or write, and fails where that isn't enough. Its count
/// of failures stays at its greatest value once it has it.
#[derive(Drop)]
pub struct FileDevice<F> {
    file: F,
    failures: u64,
}

// All that the channel's reader gives, up to its end. It spends the turns of the channel that it is lent, and fails only where a call of
// the reader did, or no turn is left.
fn read_whole<R: Read, W>(
    alloc: Global,
    channel: &mut CountedChannel<R, W>,
) -> Result<Vec<u8>, ReadFault>
    ensures bytes { IfOk result (λ bytes. Consumes (R.remaining channel.old.reader) (R.remaining channel.new.reader) bytes.items) }
    ensures end { OnOk result (IsAtEnd (R.remaining channel.new.reader)) }
    ensures stopped { IsErrOf result ReadFault.Failed → (channel.new.read_failed ≡ true) ⊎ (channel.new.turns_left ≡ 0) }
    ensures turns { channel.new.turns_left ≤ channel.old.turns_left }
{
    let mut bytes = Vec::new(alloc);
    let mut piece = [0; READ_BYTES];
    loop {
        match channel.read_turn(&mut piece) {
            Ok(Turn::Moved(0)) => return Ok(bytes),
            Ok(Turn::Moved(count)) => {
                if bytes.extend_from_slice(&piece[..count]).is_err() {
                    return Err(ReadFault::OutOfMemory);
                }
            }
            Ok(Turn::Interrupted) => {}
            Err(_) => return Err(ReadFault::Failed),
        }
    }
}

// Writes the whole piece; a front of it was written where that fails. It spends the turns of the channel that it is lent, and fails only
// where a call of the writer did, or no turn is left.
fn write_whole<R, W: Write>(channel: &mut CountedChannel<R, W>, piece: &[u8]) -> Result<(), Failed>
    ensures whole { OnOk result (Appends (W.contents channel.old.writer) (W.contents channel.new.writer) piece.now) }
    ensures part { AppendsFront (W.contents channel.old.writer) (W.contents channel.new.writer) piece.now }
    ensures stopped { OnErr result ((channel.new.write_failed ≡ true) ⊎ (channel.new.turns_left ≡ 0)) }
    ensures turns { channel.new.turns_left ≤ channel.old.turns_left }
{
    let mut rest = piece;
    while !rest.is_empty() {
        match channel.write_turn(rest) {
            Ok(Turn::Moved(count)) => rest = &rest[count..],
            Ok(Turn::Interrupted) => {}
            Err(_) => return Err(Failed),
        }
    }
    Ok(())
}

// All the bytes of the file, from the beginning to the end: what makes the one channel of a device's read.
fn read_from_start<F: Read + Seek>(alloc: Global, file: &mut F) -> Result<Vec<u8>, ReadFault> {
    if file.seek(SeekFrom::Start(0)).is_err() {
        return Err(ReadFault::Failed);
    }
    read_whole(alloc, &mut CountedChannel::new(file, ()))
}

// Adds the whole piece to what the file holds: what makes the one channel of a device's append.
fn add_to<F: Write>(file: &mut F, piece: &[u8]) -> Result<(), Failed> {
    write_whole(&mut CountedChannel::new((), file), piece)
}

// What a call came to; a failure is counted.
fn counted(failures: &mut u64, is_done: bool) -> Result<(), Failed>
    ensures counts { OnOk result (failures.new ≡ failures.old) }
    ensures rose { OnErr result (Rose failures.old failures.new) }
{
    if is_done {
        return Ok(());
    }
    *failures = failures.saturating_add(1);
    Err(Failed)
}

// The name of the folder that the file of this name is in.
fn folder_of(path: &str) -> &str {
    let Some(folder) = Path::new(path).parent() else {
        return ".";
    };
    match folder.to_str() {
        Some(name) if !name.is_empty() => name,
        _ => ".",
    }
}

// Makes what the folder of this file has last: its name too.
fn sync_folder<R: Files<File = File>>(files: &R, path: &str) -> bool {
    match File::open(files, folder_of(path)) {
        Ok(folder) => folder.sync_all().is_ok(),
        Err(_) => false,
    }
}

impl<F> FileDevice<F> {
    /// The device over a file that is open, to whose end all is written. Whoever opened it sees that nobody else writes there.
    pub fn over(file: F) -> Self
        ensures file { result.file ≡ file }
        ensures failures { result.failures ≡ 0 }
    {
        FileDevice { file, failures: 0 }
    }
}

impl FileDevice<File> {
    /// The device over the file of this name. A missing file is made, for its owner alone, and made to last, with its name in its folder. The file is locked
    /// as long as the device is there (an advisory lock): one that another has open so is refused, as is one that can't be opened, and a
    /// name whose folder isn't there. A refusal may leave an empty file.
    pub fn open<R: Files<File = File>>(files: &R, path: &str) -> Result<Self, Failed>
        ensures { IfOk result (λ device. device.failures ≡ 0) }
    {
        let mut options = OpenOptions::new();
        options.read(true);
        options.append(true);
        options.create(true);
        options.mode(OWN_MODE);
        let Ok(file) = options.open(files, path) else {
            return Err(Failed);
        };
        if file.try_lock().is_err() || file.sync_all().is_err() || !sync_folder(files, path) {
            return Err(Failed);
        }
        Ok(FileDevice::over(file))
    }
}

impl<F: Read + Write + Seek + OpenFile + Drop> Device for FileDevice<F> {
    ghost use Rattle.std.specs.Prelude.{ℕ, List, [], refl};

    ghost is_modelled = { ⊥ };

    ghost content = { λ _. [] };

    ghost kept = { λ _. [] };

    ghost failures = { λ device. device.failures };

    ghost may_leave = { λ _ _ _. Unit {0} };

    ghost leads_to = { λ _ _ _. Unit {0} };

    fn read_all(&mut self, alloc: Global) -> Result<Vec<u8>, ReadFault> {
        let answer = read_from_start(alloc, &mut self.file);
        match answer {
            Err(ReadFault::Failed) => {
                self.failures = self.failures.saturating_add(1);
                Err(ReadFault::Failed)
            }
            others => others,
        }
    }

    fn append(&mut self, piece: &[u8]) -> Result<(), Failed> {
        let is_done = add_to(&mut self.file, piece).is_ok();
        counted(&mut self.failures, is_done)
    }

    fn sync(&mut self) -> Result<(), Failed> {
        let is_done = self.file.sync_all().is_ok();
        counted(&mut self.failures, is_done)
    }

    fn cut(&mut self, len: usize) -> Result<(), Failed> {
        let is_done = self.file.set_len(len as u64).is_ok();
        counted(&mut self.failures, is_done)
    }

    ghost keeps = { λ _. ([], refl) };

    ghost stays = { λ _ _. tt };

    ghost goes_on = { λ _ _ _ _ _ _ _ _ _. tt };
}
