//! A line with a fault, and what is reported of it.
use crate::expected::Expected;
use crate::found::Found;
use crate::meant::Meant;
use bayou_script::ScriptFault;
use std::alloc::{AllocError, Global};

/// A step from a line, or from a member of it, to one of its members.
#[derive(Debug, Drop)]
pub enum Step {
    /// To the member of an array, from 0 on: the word is 0.
    At(usize),
    /// To the member of an object.
    Of(String),
    /// To the name of a member of an object.
    Name(String),
}

/// What is wrong in a line, whichever line it is.
#[derive(Debug, Drop)]
pub struct Mistake {
    pub fault: ScriptFault,
    /// The steps to the member, the last one first.
    pub path: Vec<Step>,
    pub found: Found,
    pub expected: Expected,
    /// The known word that comes nearest to the one that was found.
    pub nearest: Option<&'static str>,
    /// The JSON that may stand in place of the member.
    pub instead: Option<String>,
}

/// Where something stands in a text, from 0 on: from its first byte or character to after its last.
#[derive(Clone, Copy, Debug, PartialEq, Eq)]
pub struct TextSpan {
    pub start: usize,
    pub end: usize,
}

/// A line with a fault.
#[derive(Debug, Drop)]
pub struct FaultyLine {
    /// The number of the line, from 1 on.
    pub line: u64,
    pub fault: ScriptFault,
    /// The line itself, as far as it is shown.
    pub text: String,
    /// Which characters of `text` are at fault.
    pub mark: TextSpan,
    /// In which character of the whole line that is, from 1 on.
    pub column: usize,
    /// The steps to the member, the first one first.
    pub path: Vec<Step>,
    pub found: Found,
    pub expected: Expected,
    pub nearest: Option<&'static str>,
    /// The line as it may be meant.
    pub fix: Option<Meant>,
}

impl Mistake {
    /// What is wrong with what a reader looks at.
    pub(crate) fn new(
        alloc: Global,
        fault: ScriptFault,
        found: Found,
        expected: Expected,
    ) -> Mistake {
        Mistake {
            fault,
            path: Vec::new(alloc),
            found,
            expected,
            nearest: None,
            instead: None,
        }
    }

    /// The same, with JSON that may stand in its place.
    pub(crate) fn or(self, instead: Option<String>) -> Mistake {
        Mistake { instead, ..self }
    }

    /// The same, of a word that this known one comes nearest to.
    pub(crate) fn near(self, nearest: Option<&'static str>) -> Mistake {
        Mistake { nearest, ..self }
    }
}

/// What a look at a part of a line comes to: nothing, or what is wrong first.
pub(crate) type Looked = Result<Option<Mistake>, AllocError>;

/// The same, seen from what the part is a member of.
pub(crate) fn under(looked: Looked, step: Step) -> Looked {
    let Some(mut mistake) = looked? else {
        return Ok(None);
    };
    mistake.path.push(step)?;
    Ok(Some(mistake))
}
