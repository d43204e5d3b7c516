//! How long bytes are waited for.
use crate::fakes::Waits;
use crate::fixtures::must_go_so;
use bayou_streams::Patient;
use std::io;
use std::io::{ErrorKind, Read};

/// A reader that ends so many waits, and then gives a byte, or fails.
#[derive(Drop)]
struct Slow {
    waits: u32,
    fails: bool,
}

impl Read for Slow {
    fn read(&mut self, buf: &mut [u8]) -> io::Result<usize> {
        if self.waits > 0 {
            self.waits -= 1;
            return Err(io::Error::from(ErrorKind::WouldBlock));
        }
        if self.fails {
            return Err(io::Error::from(ErrorKind::BrokenPipe));
        }
        match buf {
            [place, ..] => {
                *place = 7;
                Ok(1)
            }
            [] => Ok(0),
        }
    }
}

/// The reader, where there is patience for so many calls of it.
fn patient(waits: u32, fails: bool, patience: u32) -> Patient<Slow, Waits> {
    Patient::new(Slow { waits, fails }, Waits::new(patience))
}

/// How often the reader was called, and how often it was asked whether to.
fn calls_and_asked(patient: &Patient<Slow, Waits>) -> (u64, u64) {
    (patient.calls(), patient.patience().asked)
}

/// Whether a byte that comes after so many waits, or a failure, is reported where there is patience for more calls than those, and else that the
/// time is out; and whether the reader was called once for each yes.
fn is_waited_for(waits: u32, fails: bool, patience: u32) -> bool {
    let (mut reader, mut piece) = (patient(waits, fails, patience), [0; 4]);
    let is_told = match reader.read(&mut piece) {
        Ok(count) => patience > waits && !fails && count == 1 && piece[0] == 7,
        Err(error) if error.kind() == ErrorKind::BrokenPipe => patience > waits && fails,
        Err(error) => patience <= waits && error.kind() == ErrorKind::TimedOut,
    };
    let calls = u64::from(patience.min(waits.saturating_add(1)));
    let asked = calls + u64::from(patience <= waits);
    is_told && calls_and_asked(&reader) == (calls, asked)
}

/// Five numbers of waits, seven of patience, and a byte or a failure after the waits.
#[test]
fn a_byte_is_waited_for_as_long_as_there_is_patience(rt: HostRuntime) {
    for case in 0..70_u32 {
        let (waits, patience) = (case / 14, case / 2 % 7);
        let is_so = is_waited_for(waits, case % 2 == 1, patience);
        must_go_so(&rt, is_so, (waits as usize, patience as usize));
    }
}

/// A reader that gives nothing is called 1,000,000 times, though there is patience for more.
#[test]
fn nothing_is_waited_for_without_an_end(rt: HostRuntime) {
    let mut reader = patient(u32::MAX, false, u32::MAX);
    let is_out = reader.read(&mut [0; 4]).is_err();
    let is_so = is_out && calls_and_asked(&reader) == (1_000_000, 1_000_000);
    must_go_so(&rt, is_so, (0, 0));
}
