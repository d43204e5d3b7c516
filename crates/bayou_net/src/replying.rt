//! What is done of one request, and the bytes of its reply.
ghost use Rattle.std.specs.Prelude.{◌≡◌, ◌≢◌, ◌↔◌, ℕ, List, Result, IfOk, IsTrue};
ghost use Rattle.bayou_net.specs.Replies.{read_reply, reopen_reply, write_reply};
ghost use Rattle.bayou_net.specs.Serving.{IsRequest, Serves};
ghost use Rattle.bayou_server.specs.declared.answer.Written.{Written as WriteMade};
ghost use Rattle.bayou_server.specs.declared.fault.WriteFault.{WriteFault as WriteRefused};
ghost use Rattle.bayou_wire.specs.declared.frame.Frame.TheVariants as frames;
ghost use Rattle.bayou_base.specs.declared.refusal.Refusal.TheVariants as refusals;
ghost use Rattle.bayou_wire.specs.Stream.{spelling};

use crate::served::Served;
use bayou_base::{Key, Refusal, Seen, Tag, Vector};
use bayou_lang::RestingProgram;
use bayou_server::{Behind, ReopenFault, Reopened, WriteFault, Written};
use bayou_wire::{Frame, encode_frame};
use std::alloc::{AllocError, Global};

/// Whether the frame asks for something.
pub(crate) fn is_request(frame: &Frame) -> bool
    ensures { IsTrue result ↔ IsRequest frame.now }
{
    match frame {
        Frame::Read(..) | Frame::Write(..) | Frame::Reopen | Frame::Dump | Frame::Offer(_) => true,
        Frame::Seen(_)
        | Frame::Accepted(_)
        | Frame::Refused(_)
        | Frame::Reopened(_)
        | Frame::Item(_)
        | Frame::End(_) => false,
    }
}

fn told_read(answer: Result<Seen, Behind>) -> Frame
    ensures { result ≡ read_reply answer }
{
    match answer {
        Ok(seen) => Frame::Seen(seen),
        Err(behind) => Frame::Refused(Refusal::Behind(behind.vector)),
    }
}

fn told_write(answer: Result<Written, WriteFault>) -> Frame
    ensures { result ≡ write_reply answer }
{
    match answer {
        Ok(Written::New(accepted) | Written::Known(accepted)) => Frame::Accepted(accepted),
        Err(fault) => Frame::Refused(Refusal::from(fault)),
    }
}

fn told_reopen(answer: Result<Reopened, ReopenFault>) -> Frame
    ensures { result ≡ reopen_reply answer }
{
    match answer {
        Ok(reopened) => Frame::Reopened(reopened.adopted),
        Err(fault) => Frame::Refused(Refusal::from(fault)),
    }
}

/// The bytes of the frame.
pub(crate) fn encoded(alloc: Global, frame: &Frame) -> Result<Vec<u8>, AllocError>
    ensures { IfOk result (λ text. text.items ≡ spelling frame.now) }
{
    let text = encode_frame(alloc, frame)?;
    Ok(text)
}

/// What is reported where there is no memory for what is asked for.
pub(crate) fn wanting(alloc: Global) -> Result<Vec<u8>, AllocError>
    ensures { IfOk result (λ text. text.items ≡ spelling (frames.Refused refusals.OutOfMemory)) }
{
    encoded(alloc, &Frame::Refused(Refusal::OutOfMemory))
}

fn of_read<S: Served>(
    alloc: Global,
    served: &mut S,
    need: &Vector,
    key: &Key,
) -> Result<Vec<u8>, AllocError>
    ensures { (reply : List ℕ) × Serves (record { list = S.list; reads = S.reads; writes = S.writes; reopens = S.reopens }) served.old (frames.Read need.now key.now) reply served.new
        × IfOk result (λ text. text.items ≡ reply) }
{
    let frame = told_read(served.read(need, key));
    encoded(alloc, &frame)
}

fn of_write<S: Served>(
    alloc: Global,
    served: &mut S,
    tag: Tag,
    need: &Vector,
    program: &RestingProgram,
) -> Result<Vec<u8>, AllocError>
    ensures { (answer : Result WriteMade WriteRefused) × S.writes served.old tag need.now program.now answer served.new
        × IfOk result (λ text. text.items ≡ spelling (write_reply answer)) }
{
    let frame = told_write(served.write(alloc, tag, need, program));
    encoded(alloc, &frame)
}

fn of_reopen<S: Served>(alloc: Global, served: &mut S) -> Result<Vec<u8>, AllocError>
    ensures { (reply : List ℕ) × Serves (record { list = S.list; reads = S.reads; writes = S.writes; reopens = S.reopens }) served.old frames.Reopen reply served.new
        × IfOk result (λ text. text.items ≡ reply) }
{
    let frame = told_reopen(served.reopen(alloc));
    encoded(alloc, &frame)
}

/// Does the request, whose reply is one frame, and gives the bytes of that. Where there is no memory for those it was done all the same.
pub(crate) fn reply_to<S: Served>(
    alloc: Global,
    served: &mut S,
    request: &Frame,
) -> Result<Vec<u8>, AllocError>
    requires request { IsRequest request.now }
    requires no_offer { (counts : List ℕ) → request.now ≢ frames.Offer counts }
    requires no_dump { request.now ≢ frames.Dump }
    ensures { (reply : List ℕ) × Serves (record { list = S.list; reads = S.reads; writes = S.writes; reopens = S.reopens }) served.old request.now reply served.new
        × IfOk result (λ text. text.items ≡ reply) }
{
    match request {
        Frame::Read(need, key) => of_read(alloc, served, need, key),
        Frame::Write(tag, need, program) => of_write(alloc, served, *tag, need, program),
        Frame::Reopen => of_reopen(alloc, served),
        _ => unreachable!(),
    }
}
