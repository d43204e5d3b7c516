//! What is kept, as bytes.
ghost use Rattle.std.specs.Prelude.{◌≡◌, ◌↔◌, ◌++◌, IfOk, IsSome, List, OnOk, replicate};
ghost use Rattle.std.specs.List.{AllByRecursion};
ghost use Rattle.bayou_base.specs.declared.limits.TheConstants.{SERVERS};
ghost use Rattle.bayou_remember.specs.Spelling.{AreAskedFrames, SpellsKept, asks_bytes, flag_byte as flag, head_bytes, server_bytes, server_of};
ghost use Rattle.bayou_wire.specs.declared.frame.Frame.{Frame as FrameSaid};
ghost use Rattle.bayou_wire.specs.declared.frame.Frame.TheVariants.{Write as WriteFrame};
ghost use Rattle.bayou_wire.specs.Spelling.{IsFrame};
ghost use Rattle.bayou_wire.specs.Stream.{spelling, spellings};

use crate::layout::{A_WRITE, ASKED, KEPT_VERSION, NOT_ASKED, NOTHING};
use bayou_base::{Asks, Tag, Vector};
use bayou_client::{Asked, Asker};
use bayou_session::Session;
use bayou_wire::{Frame, encode_frame};
use std::alloc::{AllocError, Global};

/// How many bytes have room from the first: that many has what keeps no Write.
const USUAL_BYTES: usize = 192;

fn flag_byte(is_asked: bool) -> u8
    ensures { result ≡ flag is_asked }
{
    if is_asked { ASKED } else { NOT_ASKED }
}

fn put_asks(out: &mut Vec<u8>, asks: Asks) -> Result<(), AllocError>
    ensures { OnOk result (out.new.items ≡ out.old.items ++ asks_bytes asks) }
{
    out.push(flag_byte(asks.ryw))?;
    out.push(flag_byte(asks.mr))?;
    out.push(flag_byte(asks.wfr))?;
    out.push(flag_byte(asks.mw))?;
    Ok(())
}

fn put_server(out: &mut Vec<u8>, asked: &Option<Asked>) -> Result<(), AllocError>
    ensures { OnOk result (out.new.items ≡ out.old.items ++ server_bytes (server_of asked.now)) }
{
    match asked {
        None => {
            out.push(NOTHING)?;
            Ok(())
        }
        Some(asked) => {
            out.push(A_WRITE)?;
            out.push(asked.server.index)?;
            Ok(())
        }
    }
}

fn put_head(out: &mut Vec<u8>, session: &Session, asked: &Option<Asked>) -> Result<(), AllocError>
    ensures { OnOk result (out.new.items ≡ out.old.items ++ head_bytes session.now.id.index session.now.asks session.now.begun (server_of asked.now)) }
{
    out.push(KEPT_VERSION)?;
    out.push(session.id().index)?;
    put_asks(out, session.asks())?;
    out.extend_from_slice(&session.place().to_be_bytes())?;
    put_server(out, asked)
}

#[tactic(auto, using(bayou_wire::specs::Laws::Frames::spelling_of))]
fn put_frame(alloc: Global, out: &mut Vec<u8>, frame: &Frame) -> Result<(), AllocError>
    ensures { OnOk result (IsFrame frame.now × (out.new.items ≡ out.old.items ++ spelling frame.now)) }
{
    let bytes = encode_frame(alloc, frame)?;
    out.extend_from_slice(&bytes)
}

// The request that the Write was asked by, with no need: that is the session's, as it is asked again.
fn put_request(alloc: Global, out: &mut Vec<u8>, tag: Tag, asked: &Asked) -> Result<(), AllocError>
    ensures { OnOk result (IsFrame (WriteFrame tag (replicate SERVERS 0) asked.now.program) × (out.new.items ≡ out.old.items ++ spelling (WriteFrame tag (replicate SERVERS 0) asked.now.program))) }
{
    let request = Frame::Write(tag, Vector::zero(), asked.program.copy(alloc)?);
    put_frame(alloc, out, &request)
}

// Puts the request that the Write was asked by, where there is one.
fn put_asking(
    alloc: Global,
    out: &mut Vec<u8>,
    session: &Session,
    asked: &Option<Asked>,
) -> Result<(), AllocError>
    requires { IsSome asked.now ↔ IsSome session.now.asked }
    ensures { OnOk result ((asking : List FrameSaid) × AreAskedFrames session.now asked.now asking × AllByRecursion IsFrame asking × (out.new.items ≡ out.old.items ++ spellings asking)) }
{
    match (session.asked(), asked) {
        (Some(tag), Some(asked)) => {
            put_request(alloc, out, tag, asked)?;
            Ok(())
        }
        _ => Ok(()),
    }
}

/// A spelling of what is kept, with no need in its request. Want of memory is the only refusal, and leaves nothing behind.
pub fn encode_kept(alloc: Global, kept: &Asker) -> Result<Vec<u8>, AllocError>
    ensures { IfOk result (λ bytes. SpellsKept bytes.items kept.now) }
{
    let (session, asked) = (kept.session(), kept.asked());
    let past = session.past();
    let mut bytes = Vec::with_capacity(alloc, USUAL_BYTES)?;
    put_head(&mut bytes, session, asked)?;
    put_frame(alloc, &mut bytes, &Frame::Offer(past.reads))?;
    put_frame(alloc, &mut bytes, &Frame::Offer(past.writes))?;
    put_asking(alloc, &mut bytes, session, asked)?;
    Ok(bytes)
}
