ghost use Rattle.std.specs.Prelude.{◌≡◌, ◌++◌, IfOk, OnOk, map};
ghost use Rattle.serde_json.specs.View.{view};
ghost use Rattle.bayou_text.specs.Spelling as spelling;

use bayou_base::Asks;
use serde_json::Value;
use std::alloc::{AllocError, Global};

/// Adds the word of what is asked for.
fn add_word(
    alloc: Global,
    words: &mut Vec<Value>,
    asked: bool,
    word: &str,
) -> Result<(), AllocError>
    ensures { OnOk result
        (map view words.new.items ≡ map view words.old.items ++ spelling.word_if asked word.now) }
{
    if asked {
        words.push(Value::try_from_str(alloc, word)?)?;
    }
    Ok(())
}

pub(crate) fn asks_json(alloc: Global, asks: Asks) -> Result<Value, AllocError>
    ensures { IfOk result (λ json. view json ≡ spelling.asks_json asks) }
{
    let mut words = Vec::new(alloc);
    add_word(alloc, &mut words, asks.ryw, "ryw")?;
    add_word(alloc, &mut words, asks.mr, "mr")?;
    add_word(alloc, &mut words, asks.wfr, "wfr")?;
    add_word(alloc, &mut words, asks.mw, "mw")?;
    Ok(Value::Array(words))
}
