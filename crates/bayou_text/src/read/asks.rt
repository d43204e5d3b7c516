ghost use Rattle.std.specs.Prelude.{◌≡◌, map};
ghost use Rattle.std.specs.List.{list_all, list_any};
ghost use Rattle.serde_json.specs.View.{view};
ghost use Rattle.bayou_text.specs.Asks as grammar;
ghost use Rattle.bayou_text.specs.Reading.{says};

use crate::line::{LineFault, Shape};
use bayou_base::Asks;
use serde_json::Value;

/// Whether it is this text.
pub(crate) fn says(json: &Value, word: &str) -> bool
    ensures { result ≡ says word.now (view json.now) }
{
    match json.as_str() {
        Some(text) => text == word,
        None => false,
    }
}

fn is_ask(json: &Value) -> bool
    ensures { result ≡ grammar.is_ask (view json.now) }
{
    says(json, "ryw") || says(json, "mr") || says(json, "wfr") || says(json, "mw")
}

fn are_asks(words: &[Value]) -> bool
    ensures { result ≡ list_all grammar.is_ask (map view words.now) }
{
    words.iter().all(is_ask)
}

/// Whether one of them is this word.
fn have(words: &[Value], word: &str) -> bool
    ensures { result ≡ list_any (says word.now) (map view words.now) }
{
    words.iter().any(|json| says(json, word))
}

#[tactic(auto, using(crate::proofs::Views::listed_view))]
pub(crate) fn asks_in(json: &Value) -> Result<Asks, LineFault>
    ensures { result ≡ grammar.asks_in (view json.now) }
{
    let Some(words) = json.as_array() else {
        return Err(LineFault::BadShape(Shape::Form));
    };
    let words = words.as_slice();
    if !are_asks(words) {
        return Err(LineFault::BadShape(Shape::Word));
    }
    Ok(Asks {
        ryw: have(words, "ryw"),
        mr: have(words, "mr"),
        wfr: have(words, "wfr"),
        mw: have(words, "mw"),
    })
}
