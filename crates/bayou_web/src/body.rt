//! What the body of a request says.
ghost use Rattle.std.specs.Prelude.{◌≡◌, Err, IfOk, string_bytes};
ghost use Rattle.bayou_web.specs.Body.{SaysLine, SaysNone};
ghost use Rattle.bayou_web.specs.declared.body.BodyFault.TheVariants.{Malformed, OutOfMemory};

use json::{Error, Scratch, Value};
use std::alloc::{AllocError, Global};

/// Why a request asks for nothing that can be shown or done.
#[derive(Clone, Copy, Debug, PartialEq, Eq)]
pub enum BodyFault {
    /// It isn't of the form that it has to have.
    Malformed,
    OutOfMemory,
}

impl From<AllocError> for BodyFault {
    ghost from_gives = { λ _ fault. fault ≡ OutOfMemory };

    fn from(_: AllocError) -> BodyFault {
        BodyFault::OutOfMemory
    }
}

/// The line that a body asks to be done, as `{"line": "claim mon/9/blue kim"}`.
pub fn line_of(alloc: Global, body: &[u8]) -> Result<String, BodyFault>
    ensures line { IfOk result (λ line. SaysLine body.now (string_bytes line)) }
    ensures none { result ≡ Err Malformed → SaysNone body.now }
{
    let mut scratch = Scratch::new(alloc);
    let value = match Value::from_slice(alloc, body, &mut scratch) {
        Ok(value) => value,
        Err(Error::OutOfMemory) => return Err(BodyFault::OutOfMemory),
        Err(_) => return Err(BodyFault::Malformed),
    };
    let Some(found) = value.get("line") else {
        return Err(BodyFault::Malformed);
    };
    match found.as_str() {
        Some(line) => Ok(line.to_string(alloc)?),
        None => Err(BodyFault::Malformed),
    }
}
