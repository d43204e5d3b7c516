//! Whether the system lets a server open as many files as it takes to serve anybody.
ghost use Rattle.std.specs.IoError.{raw_os_error};
ghost use Rattle.std.specs.Prelude.{◌≡◌, ◌⊎◌, ◌↔◌, IfErr, Some, true};
ghost use Rattle.bayou_serve.specs.declared.fault.ServeFault.TheVariants.{Memory, NoDescriptor};

use crate::fault::ServeFault;
use std::alloc::Global;
use std::fs::{File, Files};
use std::io;

// How many it takes: the journal, its mark, the socket and a copy of that, and one connection.
const NEEDED: u32 = 5;

// The system's numbers of what a call failed for: no more files may be open, at all or in this process.
const NO_FILE_IN_ALL: i32 = 23;

const NO_FILE_HERE: i32 = 24;

// Whether the call failed since no more files may be open.
fn wants_descriptor(error: &io::Error) -> bool
    ensures { result ≡ true ↔ ((raw_os_error error.now ≡ Some NO_FILE_IN_ALL) ⊎ (raw_os_error error.now ≡ Some NO_FILE_HERE)) }
{
    matches!(error.raw_os_error(), Some(NO_FILE_IN_ALL | NO_FILE_HERE))
}

/// Refuses a start that could open no file for a connection: it opens as many as one takes, and closes them again. What the system gives no clause can
/// say, nor whether it still does later.
pub(crate) fn look_for_descriptors<T: Files<File = File>>(
    rt: &T,
    alloc: Global,
) -> Result<(), ServeFault>
    ensures { IfErr result (λ fault. (fault ≡ NoDescriptor) ⊎ (fault ≡ Memory)) }
{
    let mut held: Vec<File> = Vec::new(alloc);
    for _ in 0..NEEDED {
        match File::open(rt, "/") {
            Ok(file) => {
                if held.push(file).is_err() {
                    return Err(ServeFault::Memory);
                }
            }
            Err(error) if wants_descriptor(&error) => return Err(ServeFault::NoDescriptor),
            // What else is wrong shows where the journal is opened.
            Err(_) => return Ok(()),
        }
    }
    Ok(())
}
