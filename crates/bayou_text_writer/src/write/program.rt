ghost use Rattle.std.specs.Prelude.{◌≡◌, ◌<◌, ◌^◌, [], ◌∷◌, IfOk, OnOk};
ghost use Rattle.serde_json.specs.Data.{string};
ghost use Rattle.serde_json.specs.View.{view};
ghost use Rattle.std.specs.List.{AllByRecursion};
ghost use Rattle.bayou_lang.specs.Ranges as ranges;
ghost use Rattle.bayou_lang.specs.declared.program.Cond.TheVariants.{AtMost};
ghost use Rattle.bayou_text.specs.Spelling as spelling;

use bayou_base::{Key, Prefix, Value as Stored};
use bayou_lang::{Cond, Op, RestingAlt, RestingProgram, Term};
use serde_json::{Value, json};
use std::alloc::{AllocError, Global};

/// A word and a key.
fn named_json(alloc: Global, word: &str, key: &Key) -> Result<Value, AllocError>
    ensures spelling { IfOk result (λ json. view json ≡ spelling.form word.now (string key.now ∷ [])) }
    ensures kept { OnOk result (ranges.IsKey key.now) }
{
    json!(in alloc; [word, key.as_str()])
}

/// A word, a key and one more member.
fn keyed_json(alloc: Global, word: &str, key: &Key, last: Value) -> Result<Value, AllocError>
    ensures spelling { IfOk result (λ json. view json ≡ spelling.form word.now (string key.now ∷ view last ∷ [])) }
    ensures kept { OnOk result (ranges.IsKey key.now) }
{
    json!(in alloc; [word, key.as_str(), last])
}

fn value_json(alloc: Global, value: &Stored) -> Result<Value, AllocError>
    ensures spelling { IfOk result (λ json. view json ≡ spelling.value_json value.now) }
    ensures kept { OnOk result (ranges.IsValue value.now) }
{
    match value {
        Stored::Num(number) => Ok(Value::from(*number)),
        Stored::Text(text) => Value::try_from_str(alloc, text.as_str()),
    }
}

fn term_json(alloc: Global, term: &Term) -> Result<Value, AllocError>
    ensures spelling { IfOk result (λ json. view json ≡ spelling.term_json term.now) }
    ensures kept { OnOk result (ranges.IsTerm term.now) }
{
    match term {
        Term::Lit(value) => value_json(alloc, value),
        Term::Copy(key) => named_json(alloc, "copy", key),
        Term::Plus(key, number) => keyed_json(alloc, "plus", key, Value::from(*number)),
    }
}

fn op_json(alloc: Global, op: &Op) -> Result<Value, AllocError>
    ensures spelling { IfOk result (λ json. view json ≡ spelling.op_json op.now) }
    ensures kept { OnOk result (ranges.IsOp op.now) }
{
    match op {
        Op::Put(key, term) => keyed_json(alloc, "put", key, term_json(alloc, term)?),
        Op::Del(key) => named_json(alloc, "del", key),
    }
}

/// A prefix, and how many keys may begin so.
fn at_most_json(alloc: Global, prefix: &Prefix, most: u32) -> Result<Value, AllocError>
    ensures spelling { IfOk result (λ json. view json ≡ spelling.cond_json (AtMost prefix.now most)) }
    ensures kept { OnOk result (ranges.IsPrefix prefix.now × (most < 2 ^ 32)) }
{
    json!(in alloc; ["atmost", prefix.as_str(), u64::from(most)])
}

fn cond_json(alloc: Global, condition: &Cond) -> Result<Value, AllocError>
    ensures spelling { IfOk result (λ json. view json ≡ spelling.cond_json condition.now) }
    ensures kept { OnOk result (ranges.IsCond condition.now) }
{
    match condition {
        Cond::Equals(key, value) => keyed_json(alloc, "equals", key, value_json(alloc, value)?),
        Cond::Absent(key) => named_json(alloc, "absent", key),
        Cond::AtLeast(key, number) => keyed_json(alloc, "atleast", key, Value::from(*number)),
        Cond::AtMost(prefix, most) => at_most_json(alloc, prefix, *most),
    }
}

fn ops_json(alloc: Global, ops: &[Op]) -> Result<Value, AllocError>
    ensures spelling { IfOk result (λ json. view json ≡ spelling.list_json spelling.op_json ops.now) }
    ensures kept { OnOk result (AllByRecursion ranges.IsOp ops.now) }
{
    let mut list = Vec::with_capacity(alloc, ops.len())?;
    for op in ops {
        list.push(op_json(alloc, op)?)?;
    }
    Ok(Value::Array(list))
}

fn conds_json(alloc: Global, conditions: &[Cond]) -> Result<Value, AllocError>
    ensures spelling { IfOk result (λ json. view json ≡ spelling.list_json spelling.cond_json conditions.now) }
    ensures kept { OnOk result (AllByRecursion ranges.IsCond conditions.now) }
{
    let mut list = Vec::with_capacity(alloc, conditions.len())?;
    for condition in conditions {
        list.push(cond_json(alloc, condition)?)?;
    }
    Ok(Value::Array(list))
}

fn alt_json(alloc: Global, alternative: &RestingAlt) -> Result<Value, AllocError>
    ensures spelling { IfOk result (λ json. view json ≡ spelling.alt_json alternative.now) }
    ensures kept { OnOk result (ranges.IsAlt alternative.now) }
{
    let ops = ops_json(alloc, alternative.ops())?;
    let when = conds_json(alloc, alternative.when())?;
    json!(in alloc; {"ops": ops, "when": when})
}

fn alts_json(alloc: Global, alternatives: &[RestingAlt]) -> Result<Value, AllocError>
    ensures spelling { IfOk result (λ json. view json ≡ spelling.list_json spelling.alt_json alternatives.now) }
    ensures kept { OnOk result (AllByRecursion ranges.IsAlt alternatives.now) }
{
    let mut list = Vec::with_capacity(alloc, alternatives.len())?;
    for alternative in alternatives {
        list.push(alt_json(alloc, alternative)?)?;
    }
    Ok(Value::Array(list))
}

#[tactic(auto, unfolding(bayou_text::specs::Spelling::program_json))]
pub(crate) fn program_json(alloc: Global, program: &RestingProgram) -> Result<Value, AllocError>
    ensures spelling { IfOk result (λ json. view json ≡ spelling.program_json program.now) }
    ensures kept { OnOk result (ranges.IsProgram program.now) }
{
    let check = conds_json(alloc, program.check())?;
    let merge = alts_json(alloc, program.merge())?;
    let update = ops_json(alloc, program.update())?;
    json!(in alloc; {"check": check, "merge": merge, "update": update})
}
