//! An object, and the members that objects of several kinds have.
ghost use Rattle.std.specs.Prelude.{◌≡◌, IfOk, string_bytes};
ghost use Rattle.bayou_objects.specs.Objects.{object_json, server_members, session_members, why_members};

use bayou_base::{ServerId, SessionId};
use std::alloc::{AllocError, Global};

/// An object in a line: its kind, and its other members.
pub(crate) fn object(alloc: Global, kind: &str, members: String) -> Result<String, AllocError>
    ensures { IfOk result (λ text. string_bytes text ≡ object_json kind.now (string_bytes members)) }
{
    format!(in alloc; "{{\"kind\":\"{kind}\",{members}}}\n")
}

/// Which session it was.
pub(crate) fn session_member(alloc: Global, session: SessionId) -> Result<String, AllocError>
    ensures { IfOk result (λ text. string_bytes text ≡ session_members session) }
{
    let session = session.index;
    format!(in alloc; "\"session\":{session}")
}

/// Which server it was.
pub(crate) fn server_member(alloc: Global, server: ServerId) -> Result<String, AllocError>
    ensures { IfOk result (λ text. string_bytes text ≡ server_members server) }
{
    let server = server.index;
    format!(in alloc; "\"server\":{server}")
}

/// Why something wasn't done, by its word.
pub(crate) fn why_member(alloc: Global, word: &str) -> Result<String, AllocError>
    ensures { IfOk result (λ text. string_bytes text ≡ why_members word.now) }
{
    format!(in alloc; "\"why\":\"{word}\"")
}
