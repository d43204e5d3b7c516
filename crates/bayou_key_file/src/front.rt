//! The front of a file.

use std::alloc::Global;
use std::fs::{File, Files};
use std::io;
use std::io::Read;

/// So many bytes at the most of what the file of this name has, from its beginning. What a file has no clause can say.
pub(crate) fn front_of<T: Files<File = File>>(
    rt: &T,
    alloc: Global,
    path: &str,
    most: u64,
) -> io::Result<Vec<u8>> {
    let mut front = Vec::new(alloc);
    let mut reader = File::open(rt, path)?.take(most);
    reader.read_to_end(&mut front)?;
    Ok(front)
}
