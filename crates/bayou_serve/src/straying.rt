//! Whether the journal of a server that lives is still the file that it has open, and as long as it wrote it.
ghost use Rattle.std.specs.Fs.{metadata_len};
ghost use Rattle.std.specs.IoError.{error_kind};
ghost use Rattle.std.specs.Prelude.{◌≡◌, ◌≢◌, IfErr, IfOk, IsOkAnd, None, Some, Ok, Err, string_bytes};
ghost use Rattle.bayou_serve.specs.declared.straying.Sight.{Sight as Seen};
ghost use Rattle.bayou_serve.specs.Straying.{same_file, strays};
ghost use Rattle.bayou_serve.specs.Told.{straying_text};

use crate::hall::ServiceHall;
use crate::notice::NoticeTime;
use crate::peers::rest;
use crate::teller::Teller;
use crate::watched::{Bounds, FileExtent, is_as_written};
use bayou_base::ServerId;
use std::alloc::{AllocError, Global};
use std::fs::{File, Files, Metadata};
use std::io::{ErrorKind, Write};
use std::os::unix::fs::MetadataExt;
use std::sync::Wait;
use std::time::Clock;
use std::{fmt, fs, io};

/// Which file it is, whatever its name.
#[derive(Clone, Copy, Debug, PartialEq, Eq)]
pub struct Identity {
    pub device: u64,
    pub node: u64,
}

impl Identity {
    /// That of the file that was found. What a file has no clause can say.
    pub(crate) fn of(found: &Metadata) -> Self {
        Identity {
            device: found.dev(),
            node: found.ino(),
        }
    }
}

/// A file that was found under a name.
#[derive(Clone, Copy, Debug, PartialEq, Eq)]
pub struct Sight {
    pub file: Identity,
    pub len: u64,
}

/// What became of a journal's file.
#[derive(Clone, Copy, Debug, PartialEq, Eq)]
pub enum Straying {
    Removed,
    Replaced,
    Changed,
}

impl fmt::Display for Straying {
    ghost use Rattle.std.specs.Prelude.{Some};
    ghost use Rattle.bayou_serve.specs.Told.{became_text};

    ghost output = { λ straying. Some (became_text straying) };

    fn fmt<W: fmt::Write>(&self, f: &mut fmt::Formatter<W>) -> fmt::Result {
        match self {
            Straying::Removed => write!(f, "it was removed"),
            Straying::Replaced => write!(f, "another file was put in its place"),
            Straying::Changed => write!(f, "somebody else changed it"),
        }
    }
}

// Whether they are one file.
fn is_same(one: Identity, other: Identity) -> bool
    ensures { result ≡ same_file one other }
{
    one.device == other.device && one.node == other.node
}

/// What became of the file, if anything did, where this was found under its name. Before and after that its length was known within these bounds.
pub fn straying_of(
    found: Option<Sight>,
    own: Identity,
    before: Bounds,
    after: Bounds,
) -> Option<Straying>
    ensures { result ≡ strays found own before after }
{
    let Some(found) = found else {
        return Some(Straying::Removed);
    };
    if !is_same(found.file, own) {
        return Some(Straying::Replaced);
    }
    if is_as_written(found.len, before, after) {
        return None;
    }
    Some(Straying::Changed)
}

// What stands under a name; an `Err` where that can't be seen.
fn sight_of(found: io::Result<Metadata>) -> io::Result<Option<Sight>>
    ensures seen { IfOk found (λ metadata. IsOkAnd result (λ seen. (sight : Seen) × (seen ≡ Some sight) × (sight.len ≡ metadata_len metadata))) }
    ensures none { IfErr found (λ error. error_kind error ≡ ErrorKind.NotFound → result ≡ Ok None) }
    ensures unseen { IfErr found (λ error. error_kind error ≢ ErrorKind.NotFound → result ≡ Err error) }
{
    match found {
        Ok(found) => Ok(Some(Sight {
            file: Identity::of(&found),
            len: found.len(),
        })),
        Err(error) if error.kind() == ErrorKind::NotFound => Ok(None),
        Err(error) => Err(error),
    }
}

/// The journal of a server that lives: its name, which file it is, how long that is to be, and without whom it was last made again, if somebody was left
/// out.
#[derive(Clone, Copy)]
pub(crate) struct LivingJournal<'s> {
    pub(crate) path: &'s str,
    pub(crate) file: Identity,
    pub(crate) extent: &'s FileExtent,
    pub(crate) without: Option<ServerId>,
}

// What became of the journal, if anything did. What can't be seen is looked at again later.
fn look<T: Files<File = File>>(rt: &T, journal: LivingJournal<'_>) -> Option<Straying> {
    let before = journal.extent.bounds();
    let found = sight_of(fs::metadata(rt, journal.path)).ok()?;
    straying_of(found, journal.file, before, journal.extent.bounds())
}

// The line of what became of the journal of this name.
fn straying_line(alloc: Global, path: &str, straying: Straying) -> Result<String, AllocError>
    ensures { IfOk result (λ line. string_bytes line ≡ straying_text path.now straying) }
{
    format!(in alloc; "bayou: {path}: {straying} while it is served; no Write is taken any more\n")
}

// Tells what became of the journal of this name.
fn tell_straying<E: Write, T: Wait>(
    rt: &T,
    alloc: Global,
    path: &str,
    straying: Straying,
    teller: &Teller<E>,
) {
    teller.tell_made(rt, straying_line(alloc, path, straying));
}

/// Looks every so many seconds whether the journal is still what the server wrote, until it ends. Where it isn't, no Write is taken from then on,
/// and that is reported each minute. When it is found no clause can say: what is written until then goes where nobody will find it.
pub(crate) fn keep_watch<E: Write, T: Wait + Clock + Files<File = File>>(
    rt: &T,
    alloc: Global,
    journal: LivingJournal<'_>,
    every_seconds: u32,
    hall: &ServiceHall,
    teller: &Teller<E>,
) {
    let told = NoticeTime::new();
    let mut known: Option<Straying> = None;
    for _ in rt.forever() {
        if hall.is_over() {
            return;
        }
        if known.is_none() {
            known = look(rt, journal);
        }
        if let Some(straying) = known {
            let _ = hall.stray(rt);
            if told.is_due(rt) {
                tell_straying(rt, alloc, journal.path, straying, teller);
            }
        }
        rest(rt, hall, every_seconds);
    }
}
