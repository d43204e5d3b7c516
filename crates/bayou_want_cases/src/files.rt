//! Devices where memory is refused: one in memory, and one over a file.
use bayou_device::{Device, FileDevice, MemoryDevice, OpenGate, ReadFault};
use bayou_fakes::sites::Memory;
use std::alloc::Global;
use std::fs::{Metadata, OpenFile};
use std::io;
use std::io::{ErrorKind, Read, Seek, SeekFrom, Write};

/// A file of so many bytes, all of them 0, that gives one at each call.
#[derive(Drop)]
struct ShortFile {
    count: usize,
    given: usize,
}

impl Read for ShortFile {
    fn read(&mut self, buf: &mut [u8]) -> io::Result<usize> {
        match buf {
            [place, ..] if self.given < self.count => {
                self.given += 1;
                *place = 0;
                Ok(1)
            }
            _ => Ok(0),
        }
    }
}

impl Write for ShortFile {
    fn write(&mut self, _buf: &[u8]) -> io::Result<usize> {
        Ok(0)
    }

    fn flush(&mut self) -> io::Result<()> {
        Ok(())
    }
}

impl Seek for ShortFile {
    fn seek(&mut self, _to: SeekFrom) -> io::Result<u64> {
        self.given = 0;
        Ok(0)
    }
}

impl OpenFile for ShortFile {
    fn metadata(&self) -> io::Result<Metadata> {
        Err(io::Error::from(ErrorKind::Unsupported))
    }

    fn set_len(&self, _size: u64) -> io::Result<()> {
        Ok(())
    }

    fn sync_all(&self) -> io::Result<()> {
        Ok(())
    }

    fn sync_data(&self) -> io::Result<()> {
        Ok(())
    }
}

/// Whether the device holds these bytes then; or nothing where memory was refused, and it holds what it held.
fn adds(device: &mut Memory, piece: &[u8], held: &[u8], then: &[u8]) -> Option<bool> {
    let lacks = device.lacks();
    match device.append(piece) {
        Ok(()) => Some(device.bytes() == then),
        Err(_) if device.lacks() > lacks && device.bytes() == held => None,
        Err(_) => Some(false),
    }
}

/// The same of a crash, which is no device call and no lack of the device's.
fn crashes(device: &mut Memory, tail: &[u8], held: &[u8], then: &[u8]) -> Option<bool> {
    let told = (device.calls(), device.failures(), device.lacks());
    let is_done = device.crash(tail).is_ok();
    let is_told = told == (device.calls(), device.failures(), device.lacks());
    match is_done {
        true => Some(is_told && device.bytes() == then),
        false if is_told && device.bytes() == held => None,
        false => Some(false),
    }
}

/// Whether a read gives these bytes; or nothing where memory was refused.
fn reads<D: Device>(alloc: Global, device: &mut D, bytes: &[u8]) -> Option<bool> {
    match device.read_all(alloc) {
        Ok(read) => Some(read.as_slice() == bytes),
        Err(ReadFault::OutOfMemory) => None,
        Err(ReadFault::Failed) => Some(false),
    }
}

/// After what was synced, and what wasn't.
const TAIL: &[u8] = b"a tail that is longer than what the device had before";

/// Whether a crash leaves what was synced and the tail, where each call that lacks memory is made again.
fn crashes_at_last(alloc: Global) -> bool {
    let mut device = MemoryDevice::new(alloc, OpenGate);
    let is_added = match adds(&mut device, b"abcd", b"", b"abcd") {
        None => adds(&mut device, b"abcd", b"", b"abcd") == Some(true),
        answer => answer == Some(true),
    };
    let is_synced = device.sync().is_ok();
    let left = b"abcda tail that is longer than what the device had before".as_slice();
    let is_left = match crashes(&mut device, TAIL, b"abcd", left) {
        None => crashes(&mut device, TAIL, b"abcd", left) == Some(true),
        answer => answer == Some(true),
    };
    let is_read = match reads(alloc, &mut device, left) {
        None => reads(alloc, &mut device, left) == Some(true),
        answer => answer == Some(true),
    };
    is_added && is_synced && is_left && is_read
}

#[test]
fn a_crash_survives_one_want_of_memory(rt: HostRuntime) {
    assert!(rt; crashes_at_last(rt.alloc()));
}

/// Whether a device over a file reads it whole, again where memory was refused.
fn reads_at_last(alloc: Global) -> bool {
    let mut device = FileDevice::over(ShortFile {
        count: 100,
        given: 0,
    });
    let bytes = [0; 100];
    match reads(alloc, &mut device, &bytes) {
        None => reads(alloc, &mut device, &bytes) == Some(true),
        answer => answer == Some(true),
    }
}

#[test]
fn a_file_survives_one_want_of_memory(rt: HostRuntime) {
    assert!(rt; reads_at_last(rt.alloc()));
}
