ghost use Rattle.std.specs.Prelude.{◌≡◌, ◌≤◌, map, length, IfOk};
ghost use Rattle.std.specs.List.{list_all};
ghost use Rattle.serde_json.specs.Data.{Data};
ghost use Rattle.serde_json.specs.View.{view, members_view};
ghost use Rattle.bayou_text.specs.Parts as parts;
ghost use Rattle.bayou_text.specs.Programs as grammar;
ghost use Rattle.bayou_text.specs.Reading.{Answers, Gives, Parsed, names};
ghost use Rattle.bayou_base.specs.declared.limits.TheConstants.{MAX_ALTERNATIVES, MAX_CONDITIONS, MAX_OPS};

use crate::line::{LineFault, Shape};
use crate::read::part::{cond_in, op_in};
use bayou_base::{MAX_ALTERNATIVES, MAX_CONDITIONS, MAX_OPS};
use bayou_lang::{Cond, Op, ProgramFault, RestingAlt, RestingProgram};
use serde_json::{Map, Value};
use std::alloc::Global;

/// What stands in the lists of a program.
trait Part: Drop {
    ghost reads: { Data → Parsed Self };

    fn part_in(alloc: Global, json: &Value) -> Result<Self, LineFault>
        ensures { Gives (λ part. part) result (reads (view json.now)) };
}

impl Part for Cond {
    ghost reads = { parts.cond_in };

    #[tactic(auto, using(crate::proofs::Faults::gives_itself))]
    fn part_in(_alloc: Global, json: &Value) -> Result<Self, LineFault> {
        cond_in(json)
    }
}

impl Part for Op {
    ghost reads = { parts.op_in };

    #[tactic(auto, using(crate::proofs::Faults::gives_itself))]
    fn part_in(_alloc: Global, json: &Value) -> Result<Self, LineFault> {
        op_in(json)
    }
}

impl Part for RestingAlt {
    ghost reads = { grammar.alt_in };

    fn part_in(alloc: Global, json: &Value) -> Result<Self, LineFault> {
        alt_in(alloc, json)
    }
}

/// The members of a list, in memory of their size, or this fault where there are too many.
fn few_in<T: Part, const MOST: usize>(
    alloc: Global,
    list: &[Value],
    many: ProgramFault,
) -> Result<Vec<T>, LineFault>
    ensures read { Gives (λ few. few.items) result (grammar.few_in MOST many T.reads (map view list.now)) }
    ensures within { IfOk result (λ few. length few.items ≤ MOST) }
{
    if list.len() > MOST {
        return Err(LineFault::Program(many));
    }
    let mut few = Vec::with_capacity(alloc, list.len())?;
    for json in list {
        few.push_reserved(T::part_in(alloc, json)?);
    }
    Ok(few)
}

/// The list that is the member of this name: the empty one where there is no such member.
#[tactic(auto, using(crate::proofs::Views::listed_view))]
fn list_of<'v>(json: &'v Value, name: &str) -> Result<&'v [Value], LineFault>
    ensures { Answers (λ list. map view list.now) result (grammar.list_of name.now (view json.now)) }
{
    let Some(member) = json.get(name) else {
        return Ok(&[]);
    };
    match member.as_array() {
        Some(list) => Ok(list.as_slice()),
        None => Err(LineFault::BadShape(Shape::Form)),
    }
}

#[tactic(auto, using(crate::proofs::Faults::first_fault))]
fn conds_in(alloc: Global, json: &Value, name: &str) -> Result<Vec<Cond>, LineFault>
    ensures read { Gives (λ conditions. conditions.items) result (grammar.conds_in name.now (view json.now)) }
    ensures within { IfOk result (λ conditions. length conditions.items ≤ MAX_CONDITIONS) }
{
    few_in::<Cond, MAX_CONDITIONS>(alloc, list_of(json, name)?, ProgramFault::TooManyConds)
}

#[tactic(auto, using(crate::proofs::Faults::first_fault))]
fn ops_in(alloc: Global, json: &Value, name: &str) -> Result<Vec<Op>, LineFault>
    ensures read { Gives (λ ops. ops.items) result (grammar.ops_in name.now (view json.now)) }
    ensures within { IfOk result (λ ops. length ops.items ≤ MAX_OPS) }
{
    few_in::<Op, MAX_OPS>(alloc, list_of(json, name)?, ProgramFault::TooManyOps)
}

#[tactic(auto, using(crate::proofs::Faults::first_fault))]
fn alts_in(alloc: Global, json: &Value, name: &str) -> Result<Vec<RestingAlt>, LineFault>
    ensures read { Gives (λ alternatives. alternatives.items) result (grammar.alts_in name.now (view json.now)) }
    ensures within { IfOk result (λ alternatives. length alternatives.items ≤ MAX_ALTERNATIVES) }
{
    few_in::<RestingAlt, MAX_ALTERNATIVES>(alloc, list_of(json, name)?, ProgramFault::TooManyAlts)
}

fn is_alt_name(name: &str) -> bool
    ensures { result ≡ grammar.is_alt_name name.now }
{
    name == "ops" || name == "when"
}

fn is_member_name(name: &str) -> bool
    ensures { result ≡ grammar.is_member_name name.now }
{
    name == "check" || name == "merge" || name == "update"
}

/// Whether every member has a name that an alternative's members have.
fn are_of_alt(members: &Map<String, Value>) -> bool
    ensures { result ≡ list_all grammar.is_alt_name (names (members_view members.now.entries)) }
{
    members.keys().all(|name| is_alt_name(name.as_str()))
}

/// Whether every member has a name that a program's members have.
fn are_known(members: &Map<String, Value>) -> bool
    ensures { result ≡ list_all grammar.is_member_name (names (members_view members.now.entries)) }
{
    members.keys().all(|name| is_member_name(name.as_str()))
}

#[tactic(auto, using(crate::proofs::Faults::later_fault))]
fn alt_lists_in(alloc: Global, json: &Value) -> Result<RestingAlt, LineFault>
    ensures { Gives (λ alt. alt) result (grammar.alt_lists_in (view json.now)) }
{
    let when = conds_in(alloc, json, "when")?;
    let ops = ops_in(alloc, json, "ops")?;
    Ok(RestingAlt::new(when, ops))
}

#[tactic(auto, unfolding(crate::specs::Programs::alt_in))]
fn alt_in(alloc: Global, json: &Value) -> Result<RestingAlt, LineFault>
    ensures { Gives (λ alt. alt) result (grammar.alt_in (view json.now)) }
{
    let Some(members) = json.as_object() else {
        return Err(LineFault::BadShape(Shape::Form));
    };
    if !are_of_alt(members) {
        return Err(LineFault::BadShape(Shape::Form));
    }
    alt_lists_in(alloc, json)
}

#[tactic(auto, using(crate::proofs::Faults::later_fault))]
fn lists_in(alloc: Global, json: &Value) -> Result<RestingProgram, LineFault>
    ensures { Gives (λ program. program) result (grammar.lists_in (view json.now)) }
{
    let check = conds_in(alloc, json, "check")?;
    let update = ops_in(alloc, json, "update")?;
    let merge = alts_in(alloc, json, "merge")?;
    Ok(RestingProgram::new(alloc, check, update, merge)?)
}

#[tactic(auto, unfolding(crate::specs::Programs::program_in))]
pub(crate) fn program_in(alloc: Global, json: &Value) -> Result<RestingProgram, LineFault>
    ensures { Gives (λ program. program) result (grammar.program_in (view json.now)) }
{
    let Some(members) = json.as_object() else {
        return Err(LineFault::BadShape(Shape::Form));
    };
    if !are_known(members) {
        return Err(LineFault::BadShape(Shape::Form));
    }
    lists_in(alloc, json)
}
