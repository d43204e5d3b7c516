//! What a node answers that is asked for rows of the database, or for what became of a Write.
ghost use Rattle.std.specs.Prelude.{◌≡◌, ◌↔◌, ◌⊎◌, IfOk, IfSome, true};
ghost use Rattle.bayou_net.specs.Lookups.{AnswersLookup, SpellsOutcome, SpellsRows};
ghost use Rattle.bayou_wire.specs.declared.layout.TheConstants.{KIND_BECAME, KIND_LIST};

use bayou_base::Refusal;
use bayou_device::Device;
use bayou_node::{Desks, Node};
use bayou_server::{Behind, Told};
use bayou_wire::layout::{KIND_BECAME, KIND_LIST};
use bayou_wire::{Frame, Greeting, Page, encode_frame, encode_greeting};
use std::alloc::{AllocError, Global};
use std::sync::Wait;

/// Whether a frame of this kind asks for rows, or for what became of a Write.
pub fn is_lookup(kind: u8) -> bool
    ensures { result ≡ true ↔ ((kind ≡ KIND_LIST) ⊎ (kind ≡ KIND_BECAME)) }
{
    kind == KIND_LIST || kind == KIND_BECAME
}

// The bytes of what is reported of rows.
fn rows_text(alloc: Global, answer: Result<Page, Behind>) -> Result<Vec<u8>, AllocError>
    ensures { IfOk result (λ text. SpellsRows answer text.items) }
{
    match answer {
        Ok(page) => encode_greeting(alloc, &Greeting::Listed(page)),
        Err(behind) => encode_frame(alloc, &Frame::Refused(Refusal::Behind(behind.vector))),
    }
}

// The bytes of what is reported of what became of a Write.
fn outcome_text(alloc: Global, answer: Result<Told, Behind>) -> Result<Vec<u8>, AllocError>
    ensures { IfOk result (λ text. SpellsOutcome answer text.items) }
{
    match answer {
        Ok(told) => encode_greeting(alloc, &Greeting::Outcome(told.fate())),
        Err(behind) => encode_frame(alloc, &Frame::Refused(Refusal::Behind(behind.vector))),
    }
}

/// The bytes of the reply to a List or a Became, as the node answers it while its lock is held once; none for any other greeting, and where memory is
/// lacking. Who may ask is for the caller to decide before.
pub fn lookup_reply<D: Device, L: Desks, T: Wait>(
    rt: &T,
    alloc: Global,
    node: &Node<D, L>,
    asked: &Greeting,
) -> Option<Vec<u8>>
    ensures { IfSome result (λ text. AnswersLookup L.begun asked.now text.items) }
{
    match asked {
        Greeting::List(asked) => {
            let after = asked.after.as_ref();
            let answer = node.list(rt, &asked.need, &asked.prefix, after, asked.most);
            rows_text(alloc, answer).ok()
        }
        Greeting::Became(asked) => {
            let answer = node.became(rt, &asked.need, asked.wid);
            outcome_text(alloc, answer).ok()
        }
        _ => None,
    }
}
