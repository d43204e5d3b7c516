//! The file of the book: what was accepted and read, as lines of an audit file.
ghost use Rattle.std.specs.Prelude.{◌≡◌, ◌<◌, ◌≤◌, IfErr, IfOk, OnOk};
ghost use Rattle.std.specs.Io.KnownBytes.{Appends};
ghost use Rattle.bayou_base.specs.declared.limits.TheConstants.{SERVERS as NUMBER};
ghost use Rattle.bayou_connect.specs.Faults.{IsBookFault};
ghost use Rattle.bayou_connect.specs.Filing.{AreWholeLines, StaysOf};
ghost use Rattle.bayou_connect.specs.declared.fault.ConnectFault.TheVariants.{Book};
ghost use Rattle.bayou_print.specs.Booked.{entry_said, held_text, line_text};

use crate::fault::ConnectFault;
use bayou_base::{Entry, ServerId};
use bayou_lang::RestingWrite;
use bayou_print::{Entries, Holding, Printer, servers_line};
use std::alloc::Global;
use std::fs::{File, Files, OpenOptions};
use std::io::{Read, Write};

/// A file to whose end entries and held Writes are put, of so many servers.
#[derive(Drop)]
pub(crate) struct AuditWriter {
    file: File,
    count: u8,
    ghost in_range: { (0 < count) × (count ≤ NUMBER) },
}

// How many bytes of the text are whole lines.
fn whole_lines(text: &[u8]) -> usize
    ensures { AreWholeLines text.now result }
{
    let mut whole = 0;
    for at in 0..text.len() {
        if text[at] == b'\n' {
            whole = at + 1;
        }
    }
    whole
}

// How many bytes of the text of a book stay, which is to have this first line: its whole lines. Nothing where the text is something else.
fn kept_of(text: &[u8], first: &[u8]) -> Option<usize>
    ensures { StaysOf text.now first.now result }
{
    let whole = whole_lines(text);
    let is_book = if whole == 0 {
        first.starts_with(text)
    } else {
        text.starts_with(first)
    };
    if is_book { Some(whole) } else { None }
}

// Gives the file its first line, where it is empty, or sees that it has it, and cuts off a line that was torn. Whether that could be done.
fn begin(file: &mut File, alloc: Global, first: &[u8]) -> bool {
    let mut text = Vec::new(alloc);
    if file.read_to_end(&mut text).is_err() {
        return false;
    }
    match kept_of(&text, first) {
        None => false,
        Some(0) => file.set_len(0).is_ok() && file.write_all(first).is_ok(),
        Some(whole) => whole == text.len() || file.set_len(whole as u64).is_ok(),
    }
}

// Puts the line at the end.
fn put<W: Write>(file: &mut W, line: &str) -> Result<(), ConnectFault>
    ensures put { OnOk result (Appends (W.contents file.old) (W.contents file.new) line.now) }
    ensures fault { IfErr result (λ fault. fault ≡ Book) }
{
    match file.write_all(line.as_bytes()) {
        Ok(()) => Ok(()),
        Err(_) => Err(ConnectFault::Book),
    }
}

// Puts the line of an entry at the end.
fn put_entry<W: Write>(
    file: &mut W,
    alloc: Global,
    entries: Entries,
    entry: &Entry,
) -> Result<(), ConnectFault>
    ensures put { OnOk result (Appends (W.contents file.old) (W.contents file.new) (line_text (entry_said entries.count entry.now))) }
    ensures fault { IfErr result IsBookFault }
{
    let line = entries.line(alloc, entry)?;
    put(file, line.as_str())
}

// Puts the lines of what a server holds at the end.
fn put_writes<W: Write>(
    file: &mut W,
    alloc: Global,
    holding: Holding,
    writes: &[RestingWrite],
) -> Result<(), ConnectFault>
    ensures put { OnOk result (Appends (W.contents file.old) (W.contents file.new) (held_text holding.count holding.server.index writes.now)) }
    ensures fault { IfErr result IsBookFault }
{
    for write in writes {
        let line = holding.line(alloc, write)?;
        put(file, line.as_str())?;
    }
    Ok(())
}

impl AuditWriter {
    /// The file of this name, which is made where it isn't there, and locked as long as it is used. One that is there has to be of as many
    /// servers.
    pub(crate) fn open<T: Files<File = File>>(
        rt: &T,
        alloc: Global,
        path: &str,
        count: u8,
    ) -> Result<Self, ConnectFault>
        requires { (0 < count) × (count ≤ NUMBER) }
        ensures count { IfOk result (λ file. file.count ≡ count) }
        ensures fault { IfErr result IsBookFault }
    {
        let first = servers_line(alloc, count)?;
        let mut options = OpenOptions::new();
        options.read(true);
        options.append(true);
        options.create(true);
        let Ok(mut file) = options.open(rt, path) else {
            return Err(ConnectFault::BookNotOpened);
        };
        if file.try_lock().is_err() || !begin(&mut file, alloc, first.as_bytes()) {
            return Err(ConnectFault::BookNotOpened);
        }
        Ok(AuditWriter { file, count })
    }

    /// Puts an entry at its end.
    pub(crate) fn enter(&mut self, alloc: Global, entry: &Entry) -> Result<(), ConnectFault>
        ensures same { self.new.count ≡ self.old.count }
        ensures fault { IfErr result IsBookFault }
    {
        let entries = Entries { count: self.count };
        put_entry(&mut self.file, alloc, entries, entry)
    }

    /// Puts what the server holds at its end.
    pub(crate) fn hold(
        &mut self,
        alloc: Global,
        server: ServerId,
        writes: &[RestingWrite],
    ) -> Result<(), ConnectFault>
        ensures same { self.new.count ≡ self.old.count }
        ensures fault { IfErr result IsBookFault }
    {
        let holding = Holding {
            server,
            count: self.count,
        };
        put_writes(&mut self.file, alloc, holding, writes)
    }
}
