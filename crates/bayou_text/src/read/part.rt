ghost use Rattle.std.specs.Prelude.{◌≡◌, map};
ghost use Rattle.serde_json.specs.View.{view};
ghost use Rattle.bayou_text.specs.Parts as grammar;
ghost use Rattle.bayou_text.specs.Reading.{Answers};

use crate::line::{LineFault, Shape};
use crate::read::number::{integer_in, most_in};
use crate::read::value::{key_in, prefix_in, value_in, worded};
use bayou_base::Key;
use bayou_lang::{Cond, Op, Term};
use serde_json::Value;

/// A key alone.
#[tactic(auto, unfolding(crate::specs::Parts::named_in))]
fn named_in(parts: &[Value]) -> Result<Key, LineFault>
    ensures { result ≡ grammar.named_in (map view parts.now) }
{
    let [key] = parts else {
        return Err(LineFault::BadShape(Shape::Arity));
    };
    key_in(key)
}

/// A key, and one more member.
#[tactic(auto, unfolding(crate::specs::Parts::keyed_in))]
fn keyed_in(parts: &[Value]) -> Result<(Key, &Value), LineFault>
    ensures { Answers (λ named. (named.0, view named.1.now)) result (grammar.keyed_in (map view parts.now)) }
{
    let [key, last] = parts else {
        return Err(LineFault::BadShape(Shape::Arity));
    };
    Ok((key_in(key)?, last))
}

fn plus_in(parts: &[Value]) -> Result<Term, LineFault>
    ensures { result ≡ grammar.plus_in (map view parts.now) }
{
    let (key, number) = keyed_in(parts)?;
    Ok(Term::Plus(key, integer_in(number)?))
}

/// A term that isn't an array is a value.
#[tactic(auto, unfolding(crate::specs::Parts::term_in))]
fn term_in(json: &Value) -> Result<Term, LineFault>
    ensures { result ≡ grammar.term_in (view json.now) }
{
    if json.as_array().is_none() {
        return Ok(Term::Lit(value_in(json)?));
    }
    let Some((word, parts)) = worded(json) else {
        return Err(LineFault::BadShape(Shape::Form));
    };
    if word == "copy" {
        return Ok(Term::Copy(named_in(parts)?));
    }
    if word == "plus" {
        return plus_in(parts);
    }
    Err(LineFault::BadShape(Shape::Word))
}

fn put_in(parts: &[Value]) -> Result<Op, LineFault>
    ensures { result ≡ grammar.put_in (map view parts.now) }
{
    let (key, term) = keyed_in(parts)?;
    Ok(Op::Put(key, term_in(term)?))
}

#[tactic(auto, unfolding(crate::specs::Parts::op_in))]
pub(crate) fn op_in(json: &Value) -> Result<Op, LineFault>
    ensures { result ≡ grammar.op_in (view json.now) }
{
    let Some((word, parts)) = worded(json) else {
        return Err(LineFault::BadShape(Shape::Form));
    };
    if word == "put" {
        return put_in(parts);
    }
    if word == "del" {
        return Ok(Op::Del(named_in(parts)?));
    }
    Err(LineFault::BadShape(Shape::Word))
}

fn equals_in(parts: &[Value]) -> Result<Cond, LineFault>
    ensures { result ≡ grammar.equals_in (map view parts.now) }
{
    let (key, value) = keyed_in(parts)?;
    Ok(Cond::Equals(key, value_in(value)?))
}

fn at_least_in(parts: &[Value]) -> Result<Cond, LineFault>
    ensures { result ≡ grammar.at_least_in (map view parts.now) }
{
    let (key, number) = keyed_in(parts)?;
    Ok(Cond::AtLeast(key, integer_in(number)?))
}

/// A prefix, and how many keys may begin so.
#[tactic(auto, unfolding(crate::specs::Parts::at_most_in))]
fn at_most_in(parts: &[Value]) -> Result<Cond, LineFault>
    ensures { result ≡ grammar.at_most_in (map view parts.now) }
{
    let [prefix, most] = parts else {
        return Err(LineFault::BadShape(Shape::Arity));
    };
    Ok(Cond::AtMost(prefix_in(prefix)?, most_in(most)?))
}

#[tactic(auto, unfolding(crate::specs::Parts::cond_in))]
pub(crate) fn cond_in(json: &Value) -> Result<Cond, LineFault>
    ensures { result ≡ grammar.cond_in (view json.now) }
{
    let Some((word, parts)) = worded(json) else {
        return Err(LineFault::BadShape(Shape::Form));
    };
    if word == "equals" {
        return equals_in(parts);
    }
    if word == "absent" {
        return Ok(Cond::Absent(named_in(parts)?));
    }
    if word == "atleast" {
        return at_least_in(parts);
    }
    if word == "atmost" {
        return at_most_in(parts);
    }
    Err(LineFault::BadShape(Shape::Word))
}
