//! Why the servers of a script over sockets didn't begin, looked for once they didn't.
ghost use Rattle.std.specs.Prelude.{◌<◌};

use bayou_base::ServerId;
use bayou_device::FileDevice;
use bayou_print::write_text;
use bayou_renew::ReadingFault;
use bayou_renew::copied::copied;
use bayou_script::Servers;
use bayou_streams::Output;
use std::alloc::{AllocError, Global};
use std::fs;
use std::fs::{File, OpenOptions};
use std::io::{ErrorKind, Write};

// What is wrong with a journal that can be read, if something is.
fn content_cause(
    alloc: Global,
    path: &str,
    id: ServerId,
    servers: Servers,
    file: File,
) -> Result<Option<String>, AllocError>
    requires { id.index < servers.count }
{
    let mut device = FileDevice::over(file);
    let server = match copied(alloc, id, servers.count, &mut device) {
        Ok(server) => server,
        Err(ReadingFault::Memory) => return Err(AllocError),
        Err(fault) => return Ok(Some(format!(in alloc; "  {path}: {fault}\n")?)),
    };
    let mut held: u64 = 0;
    for count in server.vector().counts() {
        held = held.saturating_add(u64::from(*count));
    }
    let limit = servers.limit;
    if held <= u64::from(limit) {
        return Ok(None);
    }
    Ok(Some(format!(in alloc;
        "  {path}: it has {held} Writes, more than the {limit} that `servers` lets a server hold\n"
    )?))
}

// What is wrong with the journal of this server, if it is there and something is.
fn journal_cause<T: fs::Files<File = File>>(
    rt: &T,
    alloc: Global,
    folder: &str,
    id: ServerId,
    servers: Servers,
) -> Result<Option<String>, AllocError>
    requires { id.index < servers.count }
{
    let number = id.index;
    let path = format!(in alloc; "{folder}/server-{number}.journal")?;
    let mut both = OpenOptions::new();
    both.read(true);
    both.write(true);
    let file = match both.open(rt, path.as_str()) {
        Ok(file) => file,
        Err(error) if error.kind() == ErrorKind::NotFound => return Ok(None),
        Err(error) => return Ok(Some(format!(in alloc; "  {path}: {error}\n")?)),
    };
    if file.try_lock().is_err() {
        return Ok(Some(format!(in alloc;
            "  {path}: another run, or a server that lives, has it\n"
        )?));
    }
    content_cause(alloc, path.as_str(), id, servers, file)
}

// That the first of the journals that aren't there perhaps can't be made, if one isn't there: a run makes it.
fn missing_cause<T: fs::Files<File = File>>(
    rt: &T,
    alloc: Global,
    folder: &str,
    servers: Servers,
) -> Result<Option<String>, AllocError> {
    for number in 0..servers.count {
        let path = format!(in alloc; "{folder}/server-{number}.journal")?;
        if fs::metadata(rt, path.as_str()).is_err() {
            return Ok(Some(format!(in alloc;
                "  {path}: it isn't there, and perhaps can't be made; look at the rights of the folder, and at the disk\n"
            )?));
        }
    }
    Ok(None)
}

// What is wrong with the folder, if something is.
fn folder_cause<T: fs::Files<File = File>>(
    rt: &T,
    alloc: Global,
    folder: &str,
) -> Result<Option<String>, AllocError> {
    match fs::metadata(rt, folder) {
        Ok(found) if found.is_dir() => Ok(None),
        Ok(_) => Ok(Some(format!(in alloc; "  {folder}: it is no folder\n")?)),
        Err(error) => Ok(Some(format!(in alloc; "  {folder}: {error}\n")?)),
    }
}

// The first thing that is found wrong.
fn cause<T: fs::Files<File = File>>(
    rt: &T,
    alloc: Global,
    folder: &str,
    servers: Servers,
) -> Result<Option<String>, AllocError> {
    let found = folder_cause(rt, alloc, folder)?;
    if found.is_some() {
        return Ok(found);
    }
    for index in 0..servers.count {
        let Some(id) = ServerId::new(index) else {
            return Ok(None);
        };
        let found = journal_cause(rt, alloc, folder, id, servers)?;
        if found.is_some() {
            return Ok(found);
        }
    }
    missing_cause(rt, alloc, folder, servers)
}

/// Tells in a line what is wrong with the folder or the journals of these servers, where something is found. What a file has no clause can say.
pub fn tell_device<T: fs::Files<File = File>, E: Write>(
    rt: &T,
    alloc: Global,
    folder: &str,
    servers: Servers,
    errors: &mut Output<E>,
) {
    if let Ok(Some(line)) = cause(rt, alloc, folder, servers) {
        let _ = write_text(errors, line.as_bytes());
    }
}
