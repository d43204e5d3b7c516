//! Servers that are started on journals in files.
ghost use Rattle.std.specs.Prelude.{◌≡◌, ◌+◌, ◌<◌, All, IfErr, IfOk, MatchResult, OnOk, length, string_bytes};
ghost use Rattle.bayou_print.specs.declared.fault.RunFault.TheVariants.{Memory};
ghost use Rattle.bayou_socket_run.specs.Damage.{MayTell, RefusesAt, StopsStart, TellsDamage, TellsEntries, TellsEntry, damage_text_of, entry_text_of, journal_name};
ghost use Rattle.bayou_socket_run.specs.Inner.Faults.{IsStartFault};
ghost use Rattle.bayou_socket_run.specs.Inner.Runs.{HasRunsBefore};
ghost use Rattle.bayou_streams.specs.Account.{account};

use bayou_base::ServerId;
use bayou_device::FileDevice;
use bayou_journal::{CarefulDevice, Damage, DamagedEntry};
use bayou_print::{RunFault, write_text};
use bayou_script::Servers;
use bayou_server::{Server, StartFault};
use bayou_streams::Output;
use std::alloc::{AllocError, Global};
use std::collections::VecDeque;
use std::fs;
use std::fs::{File, Files};
use std::io::Write;

/// A journal's file, of which an opening cuts no more than a torn entry: more is damage, and stays.
pub(crate) type JournalFile = CarefulDevice<FileDevice<File>>;

/// A server with its journal in a file.
pub(crate) type Journaled = Server<JournalFile>;

/// The servers, from server 0 on, and the run of the program that is theirs.
#[derive(Drop)]
pub(crate) struct Started {
    pub(crate) servers: VecDeque<Box<Journaled>>,
    /// Runs are counted from 1. No server holds a tag of this one, or of a later one.
    pub(crate) run: u32,
    ghost counted: { 0 < run },
}

/// The server in a box of its own, in which it is handed from function to function.
fn boxed(alloc: Global, server: Journaled) -> Result<Box<Journaled>, RunFault>
    ensures same { IfOk result (λ boxed. boxed.value ≡ server) }
    ensures fault { IfErr result IsStartFault }
{
    match Box::new(alloc, server) {
        Ok(server) => Ok(server),
        Err(_) => Err(RunFault::Memory),
    }
}

/// The line that tells the damage of the journal of this name.
fn damage_line(alloc: Global, path: &str, damage: Damage) -> Result<String, AllocError>
    ensures { IfOk result (λ line. string_bytes line ≡ damage_text_of path.now damage) }
{
    format!(in alloc; "bayou: {path}: {damage}\n")
}

/// Reports the damage of the journal of this name, where there is some, as far as memory suffices and it can be printed.
fn tell_damage<E: Write>(alloc: Global, path: &str, damage: Option<Damage>, told: &mut Output<E>)
    ensures { MayTell path.now (account E.contents told.old) (account E.contents told.new) }
{
    let Some(damage) = damage else { return };
    if let Ok(line) = damage_line(alloc, path, damage) {
        // Where it can't be reported, the fault that follows is.
        let _ = write_text(told, line.as_bytes());
    }
}

/// The line that tells that the last entry of the journal of this name was dropped.
fn entry_line(alloc: Global, path: &str, entry: DamagedEntry) -> Result<String, AllocError>
    ensures { IfOk result (λ line. string_bytes line ≡ entry_text_of path.now entry) }
{
    format!(in alloc; "bayou: {path}: {entry}\n")
}

/// Reports that the last entry of the journal of this name was dropped, where it was, as far as it can.
fn tell_entry<E: Write>(
    alloc: Global,
    path: &str,
    entry: Option<DamagedEntry>,
    told: &mut Output<E>,
) -> Result<(), RunFault>
    ensures told { OnOk result (TellsEntry path.now entry (account E.contents told.old) (account E.contents told.new) told.new.channel.write_failed) }
    ensures fault { IfErr result (λ fault. (fault ≡ Memory) × (account E.contents told.new ≡ account E.contents told.old)) }
{
    let Some(entry) = entry else { return Ok(()) };
    let line = entry_line(alloc, path, entry)?;
    // Where it can't be reported, the run goes on as it would.
    let _ = write_text(told, line.as_bytes());
    Ok(())
}

/// What a start that was refused comes to, once the damage of the journal of this name is reported.
fn refuse<E: Write>(
    alloc: Global,
    path: &str,
    refused: StartFault,
    damage: Option<Damage>,
    told: &mut Output<E>,
) -> RunFault
    ensures fault { IsStartFault result }
    ensures told { RefusesAt path.now result (account E.contents told.old) (account E.contents told.new) }
{
    match refused {
        StartFault::OutOfMemory => RunFault::Memory,
        StartFault::Journal(_)
        | StartFault::BadRecord(_)
        | StartFault::Gap(_)
        | StartFault::LogFull => {
            tell_damage(alloc, path, damage, told);
            RunFault::Device
        }
    }
}

/// Whether the file of this name has no byte. One that can't be asked has some.
fn is_empty<T: Files<File = File>>(rt: &T, path: &str) -> bool {
    matches!(fs::metadata(rt, path), Ok(found) if found.len() == 0)
}

/// The server of this number, on the journal that the folder has of it. A missing one is made, and is noted among those that were. Damage is reported,
/// and so is a last entry that was dropped.
fn start_one<T: Files<File = File>, E: Write>(
    rt: &T,
    alloc: Global,
    folder: &str,
    servers: Servers,
    index: u8,
    made: &mut Vec<String>,
    told: &mut Output<E>,
) -> Result<Box<Journaled>, RunFault>
    requires { index < servers.count }
    ensures fault { IfErr result IsStartFault }
    ensures told { MatchResult result (λ server. TellsEntry (journal_name folder.now index) server.value.device.entry (account E.contents told.old) (account E.contents told.new) told.new.channel.write_failed) (λ fault. TellsDamage fault folder.now servers.count (account E.contents told.old) (account E.contents told.new)) }
{
    let path = format!(in alloc; "{folder}/server-{index}.journal")?;
    let was_there = matches!(fs::exists(rt, path.as_str()), Ok(true));
    let Ok(device) = FileDevice::open(rt, path.as_str()) else {
        return Err(RunFault::Device);
    };
    if !was_there && is_empty(rt, path.as_str()) {
        made.push(format!(in alloc; "{folder}/server-{index}.journal")?)?;
    }
    match Server::start(
        alloc,
        ServerId { index },
        servers.count,
        servers.limit,
        CarefulDevice::new(device),
    ) {
        Ok((server, _)) => {
            let server = boxed(alloc, server)?;
            tell_entry(alloc, path.as_str(), server.see_device().entry(), told)?;
            Ok(server)
        }
        Err(refused) => {
            let damage = refused.device.damage();
            Err(refuse(alloc, path.as_str(), refused.fault, damage, told))
        }
    }
}

/// The run after all those of which a server holds a tag. After the last run there is none.
fn next_run(servers: &VecDeque<Box<Journaled>>) -> Result<u32, RunFault>
    ensures counted { IfOk result (λ run. 0 < run) }
    ensures later { IfOk result (λ run. All (λ server. HasRunsBefore run server.value.core) servers.now.items) }
    ensures fault { IfErr result IsStartFault }
{
    let mut last: u32 = 0;
    for at in 0..servers.len() {
        last = last.max(servers[at].last_run());
    }
    match last.checked_add(1) {
        Some(run) => Ok(run),
        None => Err(RunFault::Device),
    }
}

/// Puts each of the servers, from server 0 on, after those that were started, on the journal that the folder has of it.
fn start_each<T: Files<File = File>, E: Write>(
    rt: &T,
    alloc: Global,
    folder: &str,
    servers: Servers,
    started: &mut VecDeque<Box<Journaled>>,
    made: &mut Vec<String>,
    told: &mut Output<E>,
) -> Result<(), RunFault>
    ensures number { OnOk result (length started.new.items ≡ length started.old.items + servers.count) }
    ensures fault { IfErr result IsStartFault }
    ensures told { MatchResult result (λ _. TellsEntries folder.now servers.count (account E.contents told.old) (account E.contents told.new)) (λ fault. StopsStart fault folder.now servers.count (account E.contents told.old) (account E.contents told.new)) }
{
    for index in 0..servers.count {
        started.push_back(start_one(rt, alloc, folder, servers, index, made, told)?)?;
    }
    Ok(())
}

/// Starts each of the servers so, and gives the run that begins.
fn start_run<T: Files<File = File>, E: Write>(
    rt: &T,
    alloc: Global,
    folder: &str,
    servers: Servers,
    started: &mut VecDeque<Box<Journaled>>,
    made: &mut Vec<String>,
    told: &mut Output<E>,
) -> Result<u32, RunFault>
    ensures number { OnOk result (length started.new.items ≡ length started.old.items + servers.count) }
    ensures counted { IfOk result (λ run. 0 < run) }
    ensures later { IfOk result (λ run. All (λ server. HasRunsBefore run server.value.core) started.new.items) }
    ensures fault { IfErr result IsStartFault }
    ensures told { MatchResult result (λ _. TellsEntries folder.now servers.count (account E.contents told.old) (account E.contents told.new)) (λ fault. StopsStart fault folder.now servers.count (account E.contents told.old) (account E.contents told.new)) }
{
    start_each(rt, alloc, folder, servers, started, made, told)?;
    next_run(started)
}

/// Removes the journals of these names, which were made for a run that doesn't begin.
fn forget_made<T: Files<File = File>>(rt: &T, made: &[String]) {
    for path in made {
        // One that can't be removed has no Write.
        let _ = fs::remove_file(rt, path.as_str());
    }
}

/// The servers, from server 0 on, each on the journal that the folder has of it, and the run that begins. Where it doesn't begin, the journals
/// that were made for it are gone before they are anybody else's.
pub(crate) fn start_all<T: Files<File = File>, E: Write>(
    rt: &T,
    alloc: Global,
    folder: &str,
    servers: Servers,
    told: &mut Output<E>,
) -> Result<Started, RunFault>
    ensures number { IfOk result (λ started. length started.servers.items ≡ servers.count) }
    ensures later { IfOk result (λ started. All (λ server. HasRunsBefore started.run server.value.core) started.servers.items) }
    ensures fault { IfErr result IsStartFault }
    ensures told { MatchResult result (λ _. TellsEntries folder.now servers.count (account E.contents told.old) (account E.contents told.new)) (λ fault. StopsStart fault folder.now servers.count (account E.contents told.old) (account E.contents told.new)) }
{
    let mut started = VecDeque::new(alloc);
    let mut made = Vec::new(alloc);
    match start_run(rt, alloc, folder, servers, &mut started, &mut made, told) {
        Ok(run) => Ok(Started {
            servers: started,
            run,
        }),
        Err(fault) => {
            forget_made(rt, &made);
            Err(fault)
        }
    }
}
