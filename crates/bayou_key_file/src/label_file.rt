//! Labels in files.

use crate::fault::LabelFault;
use crate::front::front_of;
use crate::key_file::put_text;
use crate::label::{MAX_LABEL_BYTES, judge_label, label_of};
use bayou_device::FileDevice;
use bayou_greeting::StoreKey;
use std::alloc::Global;
use std::fs;
use std::fs::{File, Files};
use std::io::ErrorKind;

/// How many bytes of a file are read at the most: one more than the longest label has.
const MOST_BYTES: u64 = MAX_LABEL_BYTES as u64 + 1;

/// That the label in the file of this name, where there is one, is of this key's store; and whether there is one. What a file has no clause can say;
/// [`judge_label`] judges it.
pub fn look_for_label<T: Files<File = File>>(
    rt: &T,
    alloc: Global,
    path: &str,
    key: &Option<StoreKey>,
) -> Result<bool, LabelFault> {
    match front_of(rt, alloc, path, MOST_BYTES) {
        Ok(text) => {
            judge_label(&text, key)?;
            Ok(true)
        }
        Err(error) => match error.kind() {
            ErrorKind::NotFound => Ok(false),
            ErrorKind::OutOfMemory => Err(LabelFault::OutOfMemory),
            _ => Err(LabelFault::NotALabel),
        },
    }
}

// Makes the label under another name, and gives it its own one once it is whole; whether it has that for good.
fn is_made<T: Files<File = File>>(rt: &T, path: &str, part: &str, key: &StoreKey) -> bool {
    // What an interrupted call left of it.
    let _ = fs::remove_file(rt, part);
    let Ok(mut device) = FileDevice::open(rt, part) else {
        return false;
    };
    let is_put = put_text(&mut device, label_of(key).as_slice()).is_ok();
    // Its lock goes with it.
    drop(device);
    // To open it so makes its name in its folder last, too.
    is_put && fs::rename(rt, part, path).is_ok() && FileDevice::open(rt, path).is_ok()
}

/// Has what this label is beside say of which store it is: makes the label in the file of this name, where there is none, so that it is there whole or not at
/// all; or refuses what is of another store. Without a key there is to be none. What a file has no clause can say.
pub fn keep_label<T: Files<File = File>>(
    rt: &T,
    alloc: Global,
    path: &str,
    key: &Option<StoreKey>,
) -> Result<(), LabelFault> {
    let is_there = look_for_label(rt, alloc, path, key)?;
    match key {
        Some(key) if !is_there => {
            let Ok(part) = format!(in alloc; "{path}.part") else {
                return Err(LabelFault::OutOfMemory);
            };
            if is_made(rt, path, part.as_str(), key) {
                Ok(())
            } else {
                Err(LabelFault::NotALabel)
            }
        }
        _ => Ok(()),
    }
}
