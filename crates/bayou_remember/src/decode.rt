//! What is kept, from its bytes.
ghost use Rattle.bayou_client.specs.Operating.{Asking};
ghost use Rattle.std.specs.Prelude.{◌≡◌, ◌≢◌, ◌<◌, ◌≤◌, ◌↔◌, ◌∷◌, ◌++◌, [], ℕ, IfOk, IsTrue, List, MatchOption, None, Some};
ghost use Rattle.bayou_base.specs.declared.tag.Tag.{Tag as TagSaid};
ghost use Rattle.bayou_lang.specs.declared.program.Program.{Program};
ghost use Rattle.bayou_remember.specs.Inner.Reading.{AreFrames, IsKeptBy};
ghost use Rattle.bayou_remember.specs.Spelling.{SpellsKept, in_run};
ghost use Rattle.bayou_wire.specs.declared.frame.Frame.{Frame as FrameSaid};
ghost use Rattle.bayou_wire.specs.declared.frame.Frame.TheVariants.{Offer, Write as WriteFrame};

use crate::head::{Head, head_of};
use crate::laws::bytes_keep_one_session;
use bayou_base::{ServerId, Tag, Vector};
use bayou_client::{Asked, Asker};
use bayou_lang::RestingProgram;
use bayou_session::{Past, Session};
use bayou_wire::laws::one_reading;
use bayou_wire::{FeedFault, Frame, Frames};
use std::alloc::{AllocError, Global};

// The frames that the bytes are, all of them, if they are some.
fn frames_of(alloc: Global, bytes: &[u8]) -> Result<Option<Vec<Frame>>, AllocError>
    ensures { IfOk result (λ given. MatchOption given ((all : List FrameSaid) → ¬ AreFrames bytes.now all) (λ frames. AreFrames bytes.now frames.items)) }
{
    one_reading();
    let mut frames = Frames::new(alloc);
    let given = match frames.feed(bytes) {
        Ok(given) => given,
        Err(FeedFault::Fault(_fault)) => return Ok(None),
        Err(FeedFault::Failed) => unreachable!(),
        Err(FeedFault::OutOfMemory) => return Err(AllocError),
    };
    if !frames.is_between() {
        return Ok(None);
    }
    Ok(Some(given))
}

// What was read and written, where the frames are the two offers of these vectors.
fn vectors_of(frames: &[Frame]) -> Option<(Vector, Vector)>
    ensures { MatchOption result ((reads writes : List ℕ) → frames.now ≢ Offer reads ∷ Offer writes ∷ []) (λ told. frames.now ≡ Offer told.0 ∷ Offer told.1 ∷ []) }
{
    match frames {
        [Frame::Offer(reads), Frame::Offer(writes)] => Some((*reads, *writes)),
        _ => None,
    }
}

// A session that has nothing to ask again, in this run.
fn without_asking(run: u32, head: Head, frames: &[Frame]) -> Option<Asker>
    requires run { 0 < run }
    requires none { head.server ≡ None }
    ensures { MatchOption result ((kept : Asking) → ¬ IsKeptBy head frames.now kept) (λ kept. IsKeptBy head frames.now kept × (in_run run kept ≡ kept)) }
{
    let (reads, writes) = vectors_of(frames)?;
    let past = Past {
        run,
        begun: head.begun,
        asked: None,
        reads,
        writes,
    };
    let session = Session::resume(head.session, head.asks, past);
    Some(Asker::new(session, None))
}

// Whether the tag is of the session that the head is of, and of a place that this has begun.
fn is_tag_of(head: &Head, tag: Tag) -> bool
    ensures { IsTrue result ↔ ((tag.session.index ≡ head.now.session.index) × (tag.number ≤ head.now.begun)) }
{
    tag.session.index == head.session.index && tag.number <= head.begun
}

// A session that may ask this Write again.
fn asking(head: Head, tag: Tag, asked: Asked, frames: &[Frame]) -> Option<Asker>
    requires begun { tag.number ≤ head.begun }
    requires whose { tag.session.index ≡ head.session.index }
    requires at { head.server ≡ Some asked.server }
    ensures { (need : List ℕ) → MatchOption result ((kept : Asking) → ¬ IsKeptBy head (frames.now ++ WriteFrame tag need asked.program ∷ []) kept)
        (λ kept. IsKeptBy head (frames.now ++ WriteFrame tag need asked.program ∷ []) kept × ((run : ℕ) → in_run run kept ≡ kept)) }
{
    let (reads, writes) = vectors_of(frames)?;
    let past = Past {
        run: tag.run,
        begun: head.begun,
        asked: Some(tag.number),
        reads,
        writes,
    };
    let session = Session::resume(tag.session, head.asks, past);
    Some(Asker::new(session, Some(asked)))
}

// What a request for a Write asks for: under which tag, and of which program.
fn request_in(frame: Frame) -> Option<(Tag, RestingProgram)>
    ensures { MatchOption result ((tag : TagSaid) (need : List ℕ) (program : Program) → frame ≢ WriteFrame tag need program) (λ told. (need : List ℕ) × (frame ≡ WriteFrame told.0 need told.1)) }
{
    match frame {
        Frame::Write(tag, _, program) => Some((tag, program)),
        _ => None,
    }
}

// A session that may ask a Write again at this server.
fn with_asking(head: Head, server: ServerId, frames: Vec<Frame>) -> Option<Asker>
    requires { head.server ≡ Some server }
    ensures { MatchOption result ((kept : Asking) → ¬ IsKeptBy head frames.items kept) (λ kept. IsKeptBy head frames.items kept × ((run : ℕ) → in_run run kept ≡ kept)) }
{
    let mut frames = frames;
    let last = frames.pop()?;
    let (tag, program) = request_in(last)?;
    if !is_tag_of(&head, tag) {
        return None;
    }
    asking(head, tag, Asked { server, program }, &frames)
}

/// What the bytes keep, all of them, if they do. A session that has nothing to ask again goes on in this run. What [`encode_kept`](crate::encode_kept)
/// gave is read as it was.
pub fn decode_kept(alloc: Global, run: u32, bytes: &[u8]) -> Result<Option<Asker>, AllocError>
    requires { 0 < run }
    ensures told { IfOk result (λ given. MatchOption given ((kept : Asking) → ¬ SpellsKept bytes.now kept) (λ kept. SpellsKept bytes.now kept)) }
    ensures again { IfOk result (λ given. (kept : Asking) → SpellsKept bytes.now kept → given ≡ Some (in_run run kept)) }
{
    bytes_keep_one_session();
    let Some((head, rest)) = head_of(bytes) else {
        return Ok(None);
    };
    let Some(frames) = frames_of(alloc, rest)? else {
        return Ok(None);
    };
    match head.server {
        None => Ok(without_asking(run, head, &frames)),
        Some(server) => Ok(with_asking(head, server, frames)),
    }
}
