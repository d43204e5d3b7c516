//! What the Writes of a person do.
ghost use Rattle.std.specs.Prelude.{◌≡◌, ◌≤◌, ◌∷◌, [], IfOk, MatchOption, length, false};
ghost use Rattle.std.specs.List.{AllZip};
ghost use Rattle.bayou_base.specs.declared.limits.TheConstants.{MAX_ALTERNATIVES};
ghost use Rattle.bayou_lang.specs.declared.program.Cond.TheVariants.{Absent};
ghost use Rattle.bayou_lang.specs.declared.program.Op.TheVariants.{Put};
ghost use Rattle.bayou_lang.specs.declared.program.Term.TheVariants.{Lit};
ghost use Rattle.bayou_person.specs.Doing.{Adds, Claims, Does, Puts, Removes, is_write};
ghost use Rattle.bayou_person.specs.Inner.Alternatives.{IsFallback};

use crate::wish::Wish;
use bayou_base::{Key, Value};
use bayou_lang::{Cond, Op, RestingAlt, RestingProgram, Term};
use std::alloc::{AllocError, Global};

// A list of one.
fn one<T: Drop>(alloc: Global, item: T) -> Result<Vec<T>, AllocError>
    ensures { IfOk result (λ list. list.items ≡ item ∷ []) }
{
    let mut list = Vec::with_capacity(alloc, 1)?;
    list.push_reserved(item);
    Ok(list)
}

// That the key is absent.
fn absent(alloc: Global, key: &Key) -> Result<Vec<Cond>, AllocError>
    ensures { IfOk result (λ conditions. conditions.items ≡ Absent key.now ∷ []) }
{
    one(alloc, Cond::Absent(key.copy()))
}

// To set the key to the value.
fn setting(alloc: Global, key: &Key, value: &Value) -> Result<Vec<Op>, AllocError>
    ensures { IfOk result (λ ops. ops.items ≡ Put key.now (Lit value.now) ∷ []) }
{
    one(alloc, Op::Put(key.copy(), Term::Lit(value.copy())))
}

// To set the key to the value, where it is absent.
fn fallback(alloc: Global, key: &Key, value: &Value) -> Result<RestingAlt, AllocError>
    ensures { IfOk result (λ alternative. IsFallback value.now alternative key.now) }
{
    let when = absent(alloc, key)?;
    let ops = setting(alloc, key, value)?;
    Ok(RestingAlt::new(when, ops))
}

fn fallbacks(alloc: Global, keys: &[Key], value: &Value) -> Result<Vec<RestingAlt>, AllocError>
    requires { length keys.now ≤ MAX_ALTERNATIVES }
    ensures { IfOk result (λ alternatives. AllZip (IsFallback value.now) alternatives.items keys.now) }
{
    let mut alternatives = Vec::with_capacity(alloc, keys.len())?;
    for key in keys {
        let alternative = fallback(alloc, key, value)?;
        alternatives.push(alternative)?;
    }
    Ok(alternatives)
}

/// The program that sets the key to the value.
pub fn put(alloc: Global, key: &Key, value: &Value) -> Result<RestingProgram, AllocError>
    ensures { IfOk result (Puts key.now value.now) }
{
    let update = setting(alloc, key, value)?;
    RestingProgram::new(alloc, Vec::new(alloc), update, Vec::new(alloc))
}

/// The program that removes the key.
pub fn remove(alloc: Global, key: &Key) -> Result<RestingProgram, AllocError>
    ensures { IfOk result (Removes key.now) }
{
    let update = one(alloc, Op::Del(key.copy()))?;
    RestingProgram::new(alloc, Vec::new(alloc), update, Vec::new(alloc))
}

/// The program that adds the number to the key's, which an absent key has as 0.
pub fn add(alloc: Global, key: &Key, number: i64) -> Result<RestingProgram, AllocError>
    ensures { IfOk result (Adds key.now number) }
{
    let check = absent(alloc, key)?;
    let update = setting(alloc, key, &Value::Num(number))?;
    let ops = one(alloc, Op::Put(key.copy(), Term::Plus(key.copy(), number)))?;
    let merge = one(alloc, RestingAlt::new(Vec::new(alloc), ops))?;
    RestingProgram::new(alloc, check, update, merge)
}

/// The program that sets the first of the keys that is absent to the value: the first is `key`, and the others stand after it.
pub fn claim(
    alloc: Global,
    key: &Key,
    others: &[Key],
    value: &Value,
) -> Result<RestingProgram, AllocError>
    requires { length others.now ≤ MAX_ALTERNATIVES }
    ensures { IfOk result (Claims key.now others.now value.now) }
{
    let check = absent(alloc, key)?;
    let update = setting(alloc, key, value)?;
    let merge = fallbacks(alloc, others, value)?;
    RestingProgram::new(alloc, check, update, merge)
}

impl Wish {
    /// The program of the Write that the wish is, or `None` where it is none.
    pub fn program(&self, alloc: Global) -> Result<Option<RestingProgram>, AllocError>
        ensures { IfOk result (λ program. MatchOption program (is_write self.now ≡ false) (Does self.now)) }
    {
        let program = match self {
            Wish::Put { key, value } => put(alloc, key, value)?,
            Wish::Add { key, number } => add(alloc, key, *number)?,
            Wish::Del { key } => remove(alloc, key)?,
            Wish::Claim { key, others, value } => claim(alloc, key, others, value)?,
            Wish::Get { .. }
            | Wish::At(_)
            | Wish::List
            | Wish::Rows { .. }
            | Wish::Became(_)
            | Wish::Servers
            | Wish::Session
            | Wish::Dump => return Ok(None),
        };
        Ok(Some(program))
    }
}
