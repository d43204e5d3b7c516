//! The files of the old journal and of the new one.
ghost use Rattle.std.specs.Prelude.{◌<◌};

use crate::fault::{ReadingFault, RenewFault, WritingFault};
use crate::plan::RenewalPlan;
use crate::renewing::{Renewed, put_journal, renew};
use bayou_device::FileDevice;
use std::alloc::{AllocError, Global};
use std::fs;
use std::fs::{File, Files};
use std::io::ErrorKind;

/// Where the journals are.
#[derive(Clone, Copy, Debug)]
pub struct RenewalPaths<'a> {
    pub old: &'a str,
    pub new: &'a str,
}

/// Why there is no new journal.
#[derive(Clone, Copy, Debug, PartialEq, Eq)]
pub enum NotRenewed {
    /// Something is wrong with the old one, or with what is wanted of it.
    Old(RenewFault),
    /// Something is wrong with the file of the new one.
    New(WritingFault),
}

impl From<RenewFault> for NotRenewed {
    fn from(fault: RenewFault) -> NotRenewed {
        NotRenewed::Old(fault)
    }
}

impl From<WritingFault> for NotRenewed {
    fn from(fault: WritingFault) -> NotRenewed {
        NotRenewed::New(fault)
    }
}

impl From<AllocError> for NotRenewed {
    fn from(_error: AllocError) -> NotRenewed {
        NotRenewed::Old(RenewFault::OutOfMemory)
    }
}

// Whether there is a journal of this name: an empty file is none.
fn look_for_old<T: Files<File = File>>(rt: &T, path: &str) -> Result<(), ReadingFault> {
    match fs::metadata(rt, path) {
        Ok(found) if found.len() > 0 => Ok(()),
        Ok(_) => Err(ReadingFault::Missing),
        Err(error) if error.kind() == ErrorKind::NotFound => Err(ReadingFault::Missing),
        Err(_) => Err(ReadingFault::NotOpened),
    }
}

/// The journal of this name, to be read alone, and locked as long as it is open. Nothing is made where there is none. What a file has no clause can say.
pub fn open_old<T: Files<File = File>>(
    rt: &T,
    path: &str,
) -> Result<FileDevice<File>, ReadingFault> {
    look_for_old(rt, path)?;
    let Ok(file) = File::open(rt, path) else {
        return Err(ReadingFault::NotOpened);
    };
    if file.try_lock().is_err() {
        return Err(ReadingFault::NotOpened);
    }
    Ok(FileDevice::over(file))
}

// That nothing is there of this name.
fn look_for_nothing<T: Files<File = File>>(rt: &T, path: &str) -> Result<(), WritingFault> {
    match fs::metadata(rt, path) {
        Ok(_) => Err(WritingFault::Present),
        Err(error) if error.kind() == ErrorKind::NotFound => Ok(()),
        Err(_) => Err(WritingFault::NotOpened),
    }
}

// Has the file of this name hold the server's journal, and gives it its own name, which lasts then. The file is locked meanwhile.
fn give_name<T: Files<File = File>>(
    rt: &T,
    path: &str,
    part: &str,
    renewed: &Renewed,
) -> Result<(), WritingFault> {
    let Ok(mut device) = FileDevice::open(rt, part) else {
        return Err(WritingFault::NotOpened);
    };
    let is_put = put_journal(&mut device, &renewed.server).is_ok();
    look_for_nothing(rt, path)?;
    if !is_put || fs::rename(rt, part, path).is_err() {
        return Err(WritingFault::Device);
    }
    drop(device);
    // What is opened has its name last.
    match FileDevice::open(rt, path) {
        Ok(_) => Ok(()),
        Err(_) => Err(WritingFault::Device),
    }
}

/// Makes the new journal of the old one, as the plan says, under another name, and gives it its own one at the end. So it is there whole or not at all. The
/// old one is read alone. What a file has no clause can say.
pub fn renew_journal<T: Files<File = File>>(
    rt: &T,
    alloc: Global,
    plan: &RenewalPlan,
    paths: RenewalPaths<'_>,
    run: u32,
) -> Result<Renewed, NotRenewed>
    requires { 0 < run }
{
    look_for_nothing(rt, paths.new)?;
    let mut old = match open_old(rt, paths.old) {
        Ok(old) => old,
        Err(fault) => return Err(NotRenewed::Old(RenewFault::Unread(fault))),
    };
    let renewed = renew(alloc, plan, &mut old, run)?;
    let path = paths.new;
    let part = format!(in alloc; "{path}.part")?;
    give_name(rt, path, part.as_str(), &renewed)?;
    Ok(renewed)
}
