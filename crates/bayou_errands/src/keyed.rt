//! A key of a store that is made, or is read, from the words to the exit status.
ghost use Rattle.std.specs.Prelude.{◌≡◌, ◌⊎◌, ℕ, IfOk, IfSome, List, None, Ok, OnOk, Option, option_map, is_some, string_bytes, true};
ghost use Rattle.bayou_errands.specs.Told.{key_text};
ghost use Rattle.bayou_tasks.specs.Told.{told_text};
ghost use Rattle.bayou_errands.specs.Plans.{SaysName};
ghost use Rattle.bayou_streams.specs.Account.{TakesBytes, account};

use bayou_base::Key;
use bayou_greeting::StoreKey;
use bayou_key_file::{KeyFileFault, make_key, read_key};
use bayou_print::write_text;
use bayou_streams::Output;
use bayou_tasks::telling::{tell_line, told_line};
use std::alloc::{AllocError, Global};
use std::fs;
use std::fs::File;
use std::io::Write;
use std::random::RandomSource;

/// A key that is to be made: the name of its store, if the words say one, and the name of its file.
#[derive(Drop)]
pub struct NewKey {
    name: Option<Key>,
    path: String,
}

/// The exit status of words that can't be done.
const REFUSED: u8 = 2;

/// The exit status of every other fault.
const FAILED: u8 = 3;

impl NewKey {
    /// What the words ask for. A name that can't be used is reported when the key is to be made; want of memory alone at once.
    pub fn of(alloc: Global, name: &str, file: &str) -> Result<Self, AllocError>
        ensures path { IfOk result (λ wish. string_bytes wish.path ≡ file.now) }
        ensures name { IfOk result (λ wish. SaysName name.now wish.name) }
    {
        Ok(NewKey {
            name: Key::new(name).ok(),
            path: file.to_string(alloc)?,
        })
    }
}

/// The line that tells a fault of the key's file.
pub(crate) fn key_fault_line(
    alloc: Global,
    path: Option<&str>,
    fault: KeyFileFault,
) -> Result<String, AllocError>
    ensures { IfOk result (λ line. (file : Option (List ℕ)) × (cause : List ℕ) × (string_bytes line ≡ told_text file cause)) }
{
    let cause = fault.to_string(alloc)?;
    let file = match fault {
        KeyFileFault::OutOfMemory => None,
        _ => path,
    };
    told_line(alloc, file, cause.as_str())
}

/// The key in the file of this name, where there is a name.
pub(crate) fn named_key<T: fs::Files<File = File>>(
    rt: &T,
    alloc: Global,
    path: Option<&str>,
) -> Result<Option<StoreKey>, KeyFileFault>
    // Where a key is asked for there is one.
    ensures { IfOk result (λ key. is_some key ≡ is_some path.entry) }
{
    match path {
        None => Ok(None),
        Some(path) => Ok(Some(read_key(rt, alloc, path)?)),
    }
}

// Tells that the key was made.
fn print_made<W: Write>(
    alloc: Global,
    output: &mut Output<W>,
    name: &Key,
    path: &str,
) -> Result<bool, AllocError>
    ensures { IfOk result (λ is_printed. is_printed ≡ true → TakesBytes (account W.contents output.old) (account W.contents output.new) (key_text name.now path.now)) }
{
    let name = name.as_str();
    let line = format!(in alloc; "key {name} in {path}\n")?;
    Ok(write_text(output, line.as_bytes()).is_ok())
}

/// Makes the key that was asked for, reports a fault, and gives the exit status. That it lasts before it is reported no clause can say.
pub fn run_key<W, E, T>(
    rt: &T,
    alloc: Global,
    wish: NewKey,
    output: &mut Output<W>,
    errors: E,
) -> u8
where
    W: Write,
    E: Write + Drop,
    T: fs::Files<File = File> + RandomSource,
    ensures status { (result ≡ 0) ⊎ (result ≡ REFUSED) ⊎ (result ≡ FAILED) }
    // Of a name that is none nothing is made or printed.
    ensures refused { wish.name ≡ None → (result ≡ REFUSED) × (output.new ≡ output.old) }
    ensures made { result ≡ 0 → IfSome wish.name (λ name. TakesBytes (account W.contents output.old) (account W.contents output.new) (key_text name (string_bytes wish.path))) }
{
    let mut errors = errors;
    let NewKey { name, path } = wish;
    let Some(name) = name else {
        let line = String::from_str(
            alloc,
            "bayou: --name takes 1 to 32 bytes of a-z 0-9 . _ - /\n",
        );
        tell_line(&mut errors, line);
        return REFUSED;
    };
    if let Err(fault) = make_key(rt, path.as_str(), &name) {
        tell_line(
            &mut errors,
            key_fault_line(alloc, Some(path.as_str()), fault),
        );
        return FAILED;
    }
    match print_made(alloc, output, &name, path.as_str()) {
        Ok(true) => 0,
        Ok(false) => {
            tell_line(&mut errors, told_line(alloc, None, "output"));
            FAILED
        }
        Err(error) => {
            tell_line(&mut errors, Err(error));
            FAILED
        }
    }
}
