//! The arrays within a program, and programs.
use crate::expected::Expected;
use crate::forms::ArrayForm;
use crate::found::Found;
use crate::leaf::{look_plain, look_value, misshapen, unknown};
use crate::nearest::nearest;
use crate::parts::{List, Part};
use crate::text::quoted;
use crate::told::{Looked, Mistake, Step, under};
use bayou_script::ScriptFault;
use serde_json::Value as Json;
use std::alloc::Global;

/// The words of ops.
const OPS: [&str; 2] = ["put", "del"];

/// The words of conditions.
const CONDITIONS: [&str; 4] = ["equals", "absent", "atleast", "atmost"];

/// The words of terms that are arrays.
const TERMS: [&str; 2] = ["copy", "plus"];

/// The members of a program.
const OF_PROGRAM: [&str; 3] = ["check", "merge", "update"];

/// The members of an alternative.
const OF_ALTERNATIVE: [&str; 2] = ["ops", "when"];

/// The word that an array begins with, and all its members.
pub(crate) fn headed(json: &Json) -> Option<(&str, &[Json])> {
    let members = json.as_array()?.as_slice();
    let word = members.first()?.as_str()?;
    Some((word, members))
}

/// Another number of members than the form has.
pub(crate) fn miscounted(alloc: Global, members: &[Json], expected: Expected) -> Looked {
    let found = Found::Members(members.len());
    Ok(Some(Mistake::new(alloc, ScriptFault::BadShape, found, expected)))
}

/// Whether an array of this form has so many members, its word among them.
pub(crate) fn fits(form: ArrayForm, members: usize) -> bool {
    let most = form.parts().len().saturating_add(1);
    members <= most && members.saturating_add(form.optional()) >= most
}

// The members of an array that are no arrays of a program.
fn look_members(alloc: Global, form: ArrayForm, members: &[Json]) -> Looked {
    if !fits(form, members.len()) {
        return miscounted(alloc, members, Expected::Members(form));
    }
    for (at, (part, json)) in form.parts().iter().zip(members.iter().skip(1)).enumerate() {
        let looked = if *part == Part::Term {
            look_term(alloc, json)
        } else {
            look_plain(alloc, *part, json)
        };
        let looked = looked?;
        if looked.is_some() {
            return under(Ok(looked), Step::At(at.saturating_add(1)));
        }
    }
    Ok(None)
}

// The members of a term, all of which are plain.
fn look_plain_members(alloc: Global, form: ArrayForm, members: &[Json]) -> Looked {
    if !fits(form, members.len()) {
        return miscounted(alloc, members, Expected::Members(form));
    }
    for (at, (part, json)) in form.parts().iter().zip(members.iter().skip(1)).enumerate() {
        let looked = look_plain(alloc, *part, json)?;
        if looked.is_some() {
            return under(Ok(looked), Step::At(at.saturating_add(1)));
        }
    }
    Ok(None)
}

fn look_term(alloc: Global, json: &Json) -> Looked {
    if json.as_array().is_none() {
        return look_value(alloc, json);
    }
    let Some((word, members)) = headed(json) else {
        return misshapen(alloc, json, Expected::Term);
    };
    match ArrayForm::of_term(word) {
        Some(form) => look_plain_members(alloc, form, members),
        None => look_word(alloc, members, &TERMS, Expected::TermWord),
    }
}

// An array whose first word is unknown.
fn look_word(
    alloc: Global,
    members: &[Json],
    known: &[&'static str],
    expected: Expected,
) -> Looked {
    match members.first() {
        Some(word) => under(unknown(alloc, word, known, expected), Step::At(0)),
        None => Ok(None),
    }
}

fn look_op(alloc: Global, json: &Json) -> Looked {
    let Some((word, members)) = headed(json) else {
        return misshapen(alloc, json, Expected::Op);
    };
    match ArrayForm::of_op(word) {
        Some(form) => look_members(alloc, form, members),
        None => look_word(alloc, members, &OPS, Expected::OpWord),
    }
}

fn look_condition(alloc: Global, json: &Json) -> Looked {
    let Some((word, members)) = headed(json) else {
        return misshapen(alloc, json, Expected::Condition);
    };
    match ArrayForm::of_condition(word) {
        Some(form) => look_members(alloc, form, members),
        None => look_word(alloc, members, &CONDITIONS, Expected::ConditionWord),
    }
}

// A list of a program that is none; where it is an op or a condition, it may stand in a list of its own.
fn no_list(alloc: Global, json: &Json, list: List) -> Looked {
    let looked = misshapen(alloc, json, Expected::Listed(list))?;
    let instead = match json.as_object() {
        Some(_) if list == List::Alternatives => Some(format!(in alloc; "[{json}]")?),
        _ => None,
    };
    Ok(looked.map(|mistake| mistake.or(instead)))
}

// Whether a list is an op or a condition itself, which begins with a text.
fn is_bare(list: List, json: &Json) -> bool {
    list != List::Alternatives && headed(json).is_some()
}

// An op or a condition in place of a list of such.
fn bare(alloc: Global, json: &Json, list: List) -> Looked {
    let expected = match list {
        List::Ops => Expected::Op,
        _ => Expected::Condition,
    };
    let looked = misshapen(alloc, json, expected)?;
    let instead = format!(in alloc; "[{json}]")?;
    Ok(looked.map(|mistake| mistake.or(Some(instead))))
}

fn too_many(alloc: Global, count: usize, list: List) -> Looked {
    Ok(Some(Mistake::new(
        alloc,
        ScriptFault::BadProgram,
        Found::Listed(count),
        Expected::Fewer(list),
    )))
}

// The members of a list of ops or of conditions.
fn look_few(alloc: Global, list: List, json: &Json) -> Looked {
    let Some(members) = json.as_array() else {
        return no_list(alloc, json, list);
    };
    let members = members.as_slice();
    if members.len() > list.most() {
        return too_many(alloc, members.len(), list);
    }
    if is_bare(list, json) {
        return bare(alloc, json, list);
    }
    for (at, member) in members.iter().enumerate() {
        let looked = match list {
            List::Ops => look_op(alloc, member)?,
            _ => look_condition(alloc, member)?,
        };
        if looked.is_some() {
            return under(Ok(looked), Step::At(at));
        }
    }
    Ok(None)
}

// The list that is the member of this name, if there is one.
fn look_list(alloc: Global, list: List, json: &Json, name: &str) -> Looked {
    let Some(member) = json.get(name) else {
        return Ok(None);
    };
    let step = Step::Of(String::from_str(alloc, name)?);
    under(look_few(alloc, list, member), step)
}

// The first member of another name than those that are known.
fn look_names(alloc: Global, json: &Json, known: &[&'static str], expected: Expected) -> Looked {
    let Some(members) = json.as_object() else {
        return Ok(None);
    };
    for name in members.keys() {
        let name = name.as_str();
        if known.contains(&name) {
            continue;
        }
        let near = nearest(alloc, name, known)?;
        let instead = match near {
            Some(word) => Some(quoted(alloc, word)?),
            None => None,
        };
        let found = Found::Json(quoted(alloc, name)?);
        let mistake = Mistake::new(alloc, ScriptFault::BadShape, found, expected);
        let step = Step::Name(String::from_str(alloc, name)?);
        return under(Ok(Some(mistake.near(near).or(instead))), step);
    }
    Ok(None)
}

fn look_alternative(alloc: Global, json: &Json) -> Looked {
    if json.as_object().is_none() {
        return misshapen(alloc, json, Expected::Alternative);
    }
    let looked = look_names(alloc, json, &OF_ALTERNATIVE, Expected::AlternativeMember)?;
    if looked.is_some() {
        return Ok(looked);
    }
    let looked = look_list(alloc, List::Conditions, json, "when")?;
    if looked.is_some() {
        return Ok(looked);
    }
    look_list(alloc, List::Ops, json, "ops")
}

fn look_alternatives(alloc: Global, json: &Json) -> Looked {
    let Some(members) = json.as_array() else {
        return no_list(alloc, json, List::Alternatives);
    };
    let members = members.as_slice();
    if members.len() > List::Alternatives.most() {
        return too_many(alloc, members.len(), List::Alternatives);
    }
    for (at, member) in members.iter().enumerate() {
        let looked = look_alternative(alloc, member)?;
        if looked.is_some() {
            return under(Ok(looked), Step::At(at));
        }
    }
    Ok(None)
}

// The lists of a program, in their order.
fn look_lists(alloc: Global, json: &Json) -> Looked {
    let looked = look_list(alloc, List::Conditions, json, "check")?;
    if looked.is_some() {
        return Ok(looked);
    }
    let looked = look_list(alloc, List::Ops, json, "update")?;
    if looked.is_some() {
        return Ok(looked);
    }
    let Some(merge) = json.get("merge") else {
        return Ok(None);
    };
    let step = Step::Of(String::from_str(alloc, "merge")?);
    under(look_alternatives(alloc, merge), step)
}

/// Looks at a program.
pub(crate) fn look_program(alloc: Global, json: &Json) -> Looked {
    if json.as_object().is_none() {
        return misshapen(alloc, json, Expected::Program);
    }
    let looked = look_names(alloc, json, &OF_PROGRAM, Expected::ProgramMember)?;
    if looked.is_some() {
        return Ok(looked);
    }
    look_lists(alloc, json)
}
