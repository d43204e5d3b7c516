//! The file of a store's key.
ghost use Rattle.std.specs.Prelude.{◌≡◌, ◌++◌, ◌⊎◌, ℕ, IfOk, IfSome, List, OnOk, Some};
ghost use Rattle.bayou_greeting.specs.declared.store_key.StoreKey.{StoreKey as Kept};
ghost use Rattle.bayou_greeting.specs.StoreKeys.{IsStoreKey, key_line};
ghost use Rattle.bayou_key_file.specs.Labels.{line_feed};

use crate::fault::KeyFileFault;
use crate::front::front_of;
use bayou_base::Key;
use bayou_device::{Device, Failed, FileDevice};
use bayou_greeting::secret::SECRET_BYTES;
use bayou_greeting::store_key::MAX_KEY_LINE_BYTES;
use bayou_greeting::{Secret, StoreKey};
use std::alloc::Global;
use std::fs;
use std::fs::{File, Files, OpenOptions};
use std::io::ErrorKind;
use std::os::unix::fs::OpenOptionsExt;
use std::random::RandomSource;

/// With what mode a key is made: who runs the program reads and writes it, and nobody else.
const OWN_MODE: u32 = 0o600;

/// How many bytes of a file are read at the most: one more than the longest key has with its line feed.
const MOST_BYTES: u64 = MAX_KEY_LINE_BYTES as u64 + 2;

/// What ends a line.
pub(crate) const LINE_FEED: u8 = b'\n';

// The text without the line feed that it ends with, where it ends with one.
fn line_in(text: &[u8]) -> &[u8]
    ensures parts { (text.now ≡ result.now ++ line_feed) ⊎ (text.now ≡ result.now) }
    ensures line { (line : List ℕ) → text.now ≡ line ++ line_feed → result.now ≡ line }
{
    let Some((last, line)) = text.split_last() else {
        return text;
    };
    if *last == LINE_FEED { line } else { text }
}

// The key of this text: one line, whose line feed may be missing.
fn key_in(text: &[u8]) -> Option<StoreKey>
    ensures read { IfSome result (λ key. (text.now ≡ key_line key ++ line_feed) ⊎ (text.now ≡ key_line key)) }
    ensures all { (key : Kept) → IsStoreKey key → text.now ≡ key_line key ++ line_feed → result ≡ Some key }
{
    StoreKey::parse(line_in(text))
}

/// The key that the file of this name has. What a file has no clause can say.
pub fn read_key<T: Files<File = File>>(
    rt: &T,
    alloc: Global,
    path: &str,
) -> Result<StoreKey, KeyFileFault> {
    let text = match front_of(rt, alloc, path, MOST_BYTES) {
        Ok(text) => text,
        Err(error) if error.kind() == ErrorKind::OutOfMemory => {
            return Err(KeyFileFault::OutOfMemory);
        }
        Err(_) => return Err(KeyFileFault::NotOpened),
    };
    key_in(&text).ok_or(KeyFileFault::NotAKey)
}

// A key of this name, whose secret is drawn now.
fn drawn_key<T: RandomSource>(rt: &T, name: &Key) -> Result<StoreKey, KeyFileFault>
    ensures { IfOk result (λ key. key.name ≡ name.now) }
{
    let mut secret = [0; SECRET_BYTES];
    if rt.fill_bytes(&mut secret).is_err() {
        return Err(KeyFileFault::Random);
    }
    Ok(StoreKey {
        name: name.copy(),
        secret: Secret::new(&secret),
    })
}

/// Puts the text at the end of the device, and makes it last.
pub(crate) fn put_text<D: Device>(device: &mut D, text: &[u8]) -> Result<(), Failed>
    ensures { D.is_modelled → OnOk result (D.kept device.new ≡ D.content device.old ++ text.now) }
{
    device.append(text)?;
    device.sync()
}

// Puts the key's line on the device.
fn put_key<D: Device>(device: &mut D, key: &StoreKey) -> Result<(), Failed>
    ensures { D.is_modelled → OnOk result (D.kept device.new ≡ D.content device.old ++ (key_line key.now ++ line_feed)) }
{
    device.append(key.line().as_slice())?;
    put_text(device, &[LINE_FEED])
}

/// Makes the file of a new key, with this name, for its owner alone, and makes it last. A file that is there stays as it is, and one that can't be made
/// whole is removed again. That the secret is drawn at random no clause can say, nor what a file has.
pub fn make_key<T: Files<File = File> + RandomSource>(
    rt: &T,
    path: &str,
    name: &Key,
) -> Result<(), KeyFileFault> {
    let key = drawn_key(rt, name)?;
    let mut options = OpenOptions::new();
    options.write(true);
    options.create_new(true);
    options.mode(OWN_MODE);
    let file = match options.open(rt, path) {
        Ok(file) => file,
        Err(error) if error.kind() == ErrorKind::AlreadyExists => {
            return Err(KeyFileFault::Present);
        }
        Err(_) => return Err(KeyFileFault::NotMade),
    };
    let is_put = put_key(&mut FileDevice::over(file), &key).is_ok();
    // To open it so makes its name in its folder last, too.
    if is_put && FileDevice::open(rt, path).is_ok() {
        return Ok(());
    }
    let _ = fs::remove_file(rt, path);
    Err(KeyFileFault::Device)
}
