//! Arrays of a word and numbers.
ghost use Rattle.std.specs.Prelude.{◌≡◌, ◌∷◌, [], IfOk, map};
ghost use Rattle.serde_json.specs.View.{view};
ghost use Rattle.bayou_text.specs.Spelling as spelling;

use bayou_base::{ServerId, SessionId};
use serde_json::Value;
use std::alloc::{AllocError, Global};

/// The spelling of a command that takes numbers alone.
pub(crate) fn numbers_json(alloc: Global, word: &str, numbers: &[u64]) -> Result<Value, AllocError>
    ensures { IfOk result (λ json. view json ≡ spelling.form word.now (map spelling.count_json numbers.now)) }
{
    let mut list = Vec::with_capacity(alloc, numbers.len().saturating_add(1))?;
    list.push(Value::try_from_str(alloc, word)?)?;
    for number in numbers {
        list.push(Value::from(*number))?;
    }
    Ok(Value::Array(list))
}

/// The spelling of a command that takes a server alone.
pub(crate) fn server_json(alloc: Global, word: &str, server: ServerId) -> Result<Value, AllocError>
    ensures { IfOk result (λ json. view json ≡ spelling.form word.now (spelling.count_json server.index ∷ [])) }
{
    numbers_json(alloc, word, &[u64::from(server.index)])
}

/// The spelling of a command that takes a session alone.
pub(crate) fn session_json(
    alloc: Global,
    word: &str,
    session: SessionId,
) -> Result<Value, AllocError>
    ensures { IfOk result (λ json. view json ≡ spelling.form word.now (spelling.count_json session.index ∷ [])) }
{
    numbers_json(alloc, word, &[u64::from(session.index)])
}

/// The spelling of a command that takes two servers alone.
pub(crate) fn between_json(
    alloc: Global,
    word: &str,
    to: ServerId,
    from: ServerId,
) -> Result<Value, AllocError>
    ensures { IfOk result (λ json. view json
        ≡ spelling.form word.now (spelling.count_json to.index ∷ spelling.count_json from.index ∷ [])) }
{
    numbers_json(alloc, word, &[u64::from(to.index), u64::from(from.index)])
}
