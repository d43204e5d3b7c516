//! What the bodies of a journal stand for.
ghost use Rattle.std.specs.Prelude.{◌≡◌, ◌↔◌, IfOk, IsTrue, MatchOption};
ghost use Rattle.bayou_journal.specs.Versions.{body_in};
ghost use Rattle.bayou_wire.specs.declared.record.Record.{Record as Recorded};
ghost use Rattle.bayou_server.specs.Stored.{IsBodyOf, IsTagged, form_of as form_in};

use bayou_base::ServerId;
use bayou_journal::format::{FIRST_VERSION, WIDE_VERSION};
use bayou_wire::laws::bytes_are_of_one_record;
use bayou_wire::{Form, Record, decode_record};
use std::alloc::{AllocError, Global};

// The form of the records in a journal of this version.
fn form_of(version: u8) -> Form
    ensures { result ≡ form_in version }
{
    if version == FIRST_VERSION {
        Form::Plain
    } else if version < WIDE_VERSION {
        Form::Tagged
    } else {
        Form::Wide
    }
}

// Whether the record has a tag exactly where its Write is the server's own, in a form that has tags.
fn is_tagged(id: ServerId, form: Form, stored: &Record) -> bool
    ensures { IsTrue result ↔ IsTagged id.index form stored.now }
{
    match form {
        Form::Plain => true,
        Form::Tagged | Form::Wide => stored.tag.is_some() == (stored.write.wid().origin == id),
    }
}

// The record that a body of the server's journal stands for, if there is one.
pub fn record_of(
    alloc: Global,
    id: ServerId,
    version: u8,
    body: &[u8],
) -> Result<Option<Record>, AllocError>
    ensures { IfOk result (λ given. MatchOption given
        ((stored : Recorded) → ¬ (IsBodyOf id.index (body_in version body.now) stored))
        (λ stored. IsBodyOf id.index (body_in version body.now) stored)) }
{
    bytes_are_of_one_record();
    let form = form_of(version);
    let Some(stored) = decode_record(alloc, form, body)? else {
        return Ok(None);
    };
    if !is_tagged(id, form, &stored) {
        return Ok(None);
    }
    Ok(Some(stored))
}
