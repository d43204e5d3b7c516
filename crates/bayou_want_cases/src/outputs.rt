//! In which pieces printed lines are written.
use bayou_print::{RunFault, Waiting};
use bayou_streams::Output;
use std::alloc::Global;
use std::io;
use std::io::Write;

/// A writer that takes all that it is given, and keeps how many bytes that were at each call.
#[derive(Drop)]
struct Pieces {
    lengths: Vec<usize>,
}

impl Write for Pieces {
    fn write(&mut self, buf: &[u8]) -> io::Result<usize> {
        self.lengths.push(buf.len())?;
        Ok(buf.len())
    }

    fn flush(&mut self) -> io::Result<()> {
        Ok(())
    }
}

/// A printed line of 19 bytes.
const LINE: &[u8] = b"0 read x none at 0\n";

/// How many of them make more than a piece.
const LINES: usize = 4_000;

/// Prints so many lines, and writes those that wait then.
fn prints(alloc: Global, output: &mut Output<&mut Pieces>) -> Result<(), RunFault> {
    let mut waiting = Waiting::new(alloc)?;
    for _ in 0..LINES {
        waiting.print(output, LINE)?;
    }
    waiting.write(output)
}

/// Printed lines are written in pieces of whole lines, of at most 65,536 bytes, and the last ones too.
#[test]
fn printed_lines_are_written_in_pieces(rt: HostRuntime) {
    let mut pieces = Pieces {
        lengths: Vec::new(rt.alloc()),
    };
    let is_printed = prints(rt.alloc(), &mut Output::new(&mut pieces)).is_ok();
    let wanted = [3_449 * 19, (LINES - 3_449) * 19];
    assert!(rt; is_printed && pieces.lengths.as_slice() == wanted.as_slice());
}
