//! How a server makes a Write: whether it may, and what it tells of the Write.
ghost use Rattle.std.specs.Prelude.{◌↔◌, IsTrue};
ghost use Rattle.bayou_server.specs.Inner.Fields.{core_of};
ghost use Rattle.bayou_server.specs.Inner.Making.{IsAnswered, IsRefusal, IsTold};
ghost use Rattle.bayou_server.specs.Server.{IsSoundServer};
ghost use Rattle.bayou_server.specs.Writes.{IsFresh, IsOfAsking, Tells};

use crate::answer::Written;
use crate::fault::WriteFault;
use crate::holding::Holding;
use bayou_base::{Accepted, ServerId, Tag, Vector};
use bayou_lang::{RestingProgram, RestingWrite};

// Why no Write is made, if none may be.
fn refusal(holding: &Holding, id: ServerId, tag: Tag, need: &Vector) -> Option<WriteFault>
    requires { IsFresh (core_of holding.now id.index) tag }
    ensures { IsRefusal (core_of holding.now id.index) tag need.now result }
{
    if holding.doubt.is_some() {
        return Some(WriteFault::Down);
    }
    let vector = holding.log.vector();
    if !vector.dominates(need) {
        return Some(WriteFault::Behind(vector));
    }
    if holding.log.is_full() {
        return Some(WriteFault::LogFull);
    }
    None
}

// What the Write was given.
pub fn accepted(write: &RestingWrite) -> Accepted
    ensures { Tells write.now result }
{
    Accepted {
        wid: write.wid(),
        stamp: write.stamp(),
        deps: *write.deps(),
    }
}

// Whether the Write is of the program, and its server held all that the session needs before it.
fn is_of_asking(write: &RestingWrite, need: &Vector, program: &RestingProgram) -> bool
    ensures { IsTrue result ↔ IsOfAsking need.now program.now write.now }
{
    *write.program() == *program && write.deps().dominates(need)
}

// What is reported of the Write that is held under the tag, if one is.
fn told_before(
    holding: &Holding,
    id: ServerId,
    tag: Tag,
    need: &Vector,
    program: &RestingProgram,
) -> Option<Result<Written, WriteFault>>
    requires { IsSoundServer (core_of holding.now id.index) }
    ensures { IsTold (core_of holding.now id.index) tag need.now program.now result }
{
    let at = holding.tags.find(tag)?;
    let write = &holding.log.receipts()[at];
    if !is_of_asking(write, need, program) {
        return Some(Err(WriteFault::TagUsed));
    }
    Some(Ok(Written::Known(accepted(write))))
}

// The answer, where it follows from what is held and in doubt. Else a Write may be made.
pub fn answered(
    holding: &Holding,
    id: ServerId,
    tag: Tag,
    need: &Vector,
    program: &RestingProgram,
) -> Option<Result<Written, WriteFault>>
    requires { IsSoundServer (core_of holding.now id.index) }
    ensures { IsAnswered (core_of holding.now id.index) tag need.now program.now result }
{
    if let Some(told) = told_before(holding, id, tag, need, program) {
        return Some(told);
    }
    match refusal(holding, id, tag, need) {
        Some(fault) => Some(Err(fault)),
        None => None,
    }
}
