//! A tolerant look at a line that wasn't read: which member is at fault first, in the order in which a reader comes to them.
use crate::expected::Expected;
use crate::forms::ArrayForm;
use crate::kind::TextKind;
use crate::leaf::{look_plain, misshapen, unknown};
use crate::parts::Part;
use crate::told::{Looked, Step, under};
use crate::within::{fits, headed, look_program, miscounted};
use serde_json::Value as Json;
use std::alloc::Global;

/// How many members an entry has, with its word, if it has a word of what became of the operation: the fifth after the first.
const ENTRY_WORD: usize = 5;

/// What stands in the list of a Write that is held.
const OF_WRITE: [Part; 5] = [
    Part::Server,
    Part::Seq,
    Part::Clock,
    Part::Vector,
    Part::Program,
];

// A member of the list of a Write, or of a line.
fn look_member(alloc: Global, part: Part, json: &Json) -> Looked {
    match part {
        Part::Program => look_program(alloc, json),
        _ => look_plain(alloc, part, json),
    }
}

fn look_write(alloc: Global, json: &Json) -> Looked {
    let Some(members) = json.as_array() else {
        return misshapen(alloc, json, Expected::HeldWrite);
    };
    let members = members.as_slice();
    if members.len() != OF_WRITE.len() {
        return miscounted(alloc, members, Expected::HeldWrite);
    }
    for (at, (part, member)) in OF_WRITE.iter().zip(members.iter()).enumerate() {
        let looked = look_member(alloc, *part, member)?;
        if looked.is_some() {
            return under(Ok(looked), Step::At(at));
        }
    }
    Ok(None)
}

// The word of what became of an operation.
fn look_entry_word(alloc: Global, word: &'static str, members: usize, json: &Json) -> Looked {
    if json.as_str().is_some_and(|text| text == word) {
        return Ok(None);
    }
    unknown(alloc, json, &[word], Expected::EntryWord(word, members))
}

fn look_part(alloc: Global, part: Part, members: usize, json: &Json) -> Looked {
    match part.word() {
        Some(word) => look_entry_word(alloc, word, members, json),
        None if part == Part::Write => look_write(alloc, json),
        None => look_member(alloc, part, json),
    }
}

fn look_members(alloc: Global, form: ArrayForm, members: &[Json]) -> Looked {
    if !fits(form, members.len()) {
        return miscounted(alloc, members, Expected::Members(form));
    }
    for (at, (part, json)) in form.parts().iter().zip(members.iter().skip(1)).enumerate() {
        let looked = look_part(alloc, *part, members.len(), json)?;
        if looked.is_some() {
            return under(Ok(looked), Step::At(at.saturating_add(1)));
        }
    }
    Ok(None)
}

// The form of an entry with the word that it has, whatever its number of members; else of so many members.
fn entry_form(members: &[Json]) -> Option<ArrayForm> {
    ArrayForm::of_entry(members.len())
}

fn look_entry(alloc: Global, members: &[Json]) -> Looked {
    if let Some(form) = entry_form(members) {
        return look_members(alloc, form, members);
    }
    let expected = match members.get(ENTRY_WORD).and_then(Json::as_str) {
        Some("read") => Expected::Members(ArrayForm::Served),
        Some("write") => Expected::Members(ArrayForm::Accepted),
        Some("refused") => Expected::Members(ArrayForm::Refused),
        _ => Expected::EntryMembers,
    };
    miscounted(alloc, members, expected)
}

// A line that begins with no word: perhaps it is an array of lines, and may be meant as the only one of them.
fn look_unheaded(alloc: Global, json: &Json) -> Looked {
    let Some([first, others @ ..]) = json.as_array().map(Vec::as_slice) else {
        return misshapen(alloc, json, Expected::Array);
    };
    if !first.is_array() {
        return misshapen(alloc, json, Expected::Array);
    }
    let looked = misshapen(alloc, json, Expected::NoArrayOfAll)?;
    let instead = if others.is_empty() {
        Some(first.to_string(alloc)?)
    } else {
        None
    };
    Ok(looked.map(|mistake| mistake.or(instead)))
}

/// Looks at the JSON of a line of a text of this kind: what is wrong first, if anything is.
pub(crate) fn look_line(alloc: Global, kind: TextKind, json: &Json) -> Looked {
    let Some((word, members)) = headed(json) else {
        return look_unheaded(alloc, json);
    };
    if word == "entry" {
        return look_entry(alloc, members);
    }
    match ArrayForm::of_line(word) {
        Some(form) => look_members(alloc, form, members),
        None => match members.first() {
            Some(first) => under(
                unknown(alloc, first, kind.known(), Expected::Command(kind)),
                Step::At(0),
            ),
            None => Ok(None),
        },
    }
}
