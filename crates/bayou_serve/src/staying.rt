//! How a server that serves learns that it is to end: its input ends.
ghost use Rattle.std.specs.Thread.{IsSend};

use crate::hall::ServiceHall;
use crate::teller::Teller;
use std::io::{Read, Write};
use std::sync::Wait;
use std::thread;
use std::thread::Threads;

// Reads up to the end of the input, or to where it fails.
fn await_end<I: Read, T: Wait>(rt: &T, input: &mut I) {
    let mut piece = [0; 64];
    for _ in rt.forever() {
        match input.read(&mut piece) {
            Ok(0) | Err(_) => return,
            Ok(_) => {}
        }
    }
}

// Ends the server once the input ends.
fn end_with<I: Read + Drop, T: Wait>(rt: &T, input: I, hall: &ServiceHall) {
    let mut input = input;
    await_end(rt, &mut input);
    hall.end();
}

/// Runs the closure, while a thread waits for the end of the input, and ends the server then. Where no thread begins it is ended at once.
pub(crate) fn until_input_ends<I, E, T, X, F>(
    rt: &T,
    input: I,
    hall: &ServiceHall,
    teller: &Teller<E>,
    meanwhile: F,
) -> X
where
    I: Read + Send + Drop,
    E: Write,
    T: Threads + Wait + Send + Sync,
    X: Drop,
    F: FnOnce() -> X + Drop,
    requires { F.IsAlwaysCallable meanwhile }
    ensures { F.post meanwhile result }
{
    thread::scope(
        thread::scope_env(),
        rt,
        move |scope| -> X
            requires { F.IsAlwaysCallable meanwhile × IsSend T.row × IsSend I.row }
            ensures { F.post meanwhile result }
        {
            if scope.spawn(move || end_with(rt, input, hall)).is_err() {
                teller.tell(rt, "bayou: no thread for the input: it ends\n");
                hall.end();
            }
            meanwhile()
        },
    )
}
