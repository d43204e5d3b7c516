//! The forms of lines, and of the arrays within them.
use crate::parts::Part;
use std::fmt;

/// What an array with a word at its head is: a line, or an array of a program.
#[derive(Clone, Copy, Debug, PartialEq, Eq)]
pub enum ArrayForm {
    Servers,
    Session,
    Write,
    Read,
    Again,
    Drop,
    Log,
    Fuse,
    Lose,
    Reopen,
    Restart,
    Pull,
    Resend,
    Totals,
    Judge,
    Survey,
    Book,
    Phase,
    Refused,
    Served,
    Accepted,
    Held,
    Put,
    Del,
    Copy,
    Plus,
    Equals,
    Absent,
    AtLeast,
    AtMost,
}

/// The words of the lines of a script.
pub(crate) const COMMANDS: [&str; 18] = [
    "servers", "session", "write", "read", "again", "drop", "log", "fuse", "lose", "reopen",
    "restart", "pull", "resend", "totals", "judge", "survey", "book", "phase",
];

/// The words of the lines of an audit file.
pub(crate) const TOLD: [&str; 3] = ["servers", "entry", "held"];

impl ArrayForm {
    /// The line that begins with this word; `None` of `entry`, which has three forms.
    pub(crate) fn of_line(word: &str) -> Option<ArrayForm> {
        let form = match word {
            "servers" => ArrayForm::Servers,
            "session" => ArrayForm::Session,
            "write" => ArrayForm::Write,
            "read" => ArrayForm::Read,
            "again" => ArrayForm::Again,
            "drop" => ArrayForm::Drop,
            "log" => ArrayForm::Log,
            "fuse" => ArrayForm::Fuse,
            "lose" => ArrayForm::Lose,
            "held" => ArrayForm::Held,
            _ => return ArrayForm::of_short_line(word),
        };
        Some(form)
    }

    fn of_short_line(word: &str) -> Option<ArrayForm> {
        let form = match word {
            "reopen" => ArrayForm::Reopen,
            "restart" => ArrayForm::Restart,
            "pull" => ArrayForm::Pull,
            "resend" => ArrayForm::Resend,
            "totals" => ArrayForm::Totals,
            "judge" => ArrayForm::Judge,
            "survey" => ArrayForm::Survey,
            "book" => ArrayForm::Book,
            "phase" => ArrayForm::Phase,
            _ => return None,
        };
        Some(form)
    }

    /// The form of an entry with so many members.
    pub(crate) fn of_entry(members: usize) -> Option<ArrayForm> {
        match members {
            6 => Some(ArrayForm::Refused),
            8 => Some(ArrayForm::Served),
            9 => Some(ArrayForm::Accepted),
            _ => None,
        }
    }

    /// The op that begins with this word.
    pub(crate) fn of_op(word: &str) -> Option<ArrayForm> {
        match word {
            "put" => Some(ArrayForm::Put),
            "del" => Some(ArrayForm::Del),
            _ => None,
        }
    }

    /// The term that begins with this word.
    pub(crate) fn of_term(word: &str) -> Option<ArrayForm> {
        match word {
            "copy" => Some(ArrayForm::Copy),
            "plus" => Some(ArrayForm::Plus),
            _ => None,
        }
    }

    /// The condition that begins with this word.
    pub(crate) fn of_condition(word: &str) -> Option<ArrayForm> {
        match word {
            "equals" => Some(ArrayForm::Equals),
            "absent" => Some(ArrayForm::Absent),
            "atleast" => Some(ArrayForm::AtLeast),
            "atmost" => Some(ArrayForm::AtMost),
            _ => None,
        }
    }

    /// What stands after the word.
    pub(crate) fn parts(self) -> &'static [Part] {
        match self {
            ArrayForm::Servers => &[Part::Count, Part::Limit],
            ArrayForm::Session => &[Part::Session, Part::Asks],
            ArrayForm::Write => &[Part::Session, Part::Server, Part::Program],
            ArrayForm::Read => &[Part::Session, Part::Server, Part::Key],
            ArrayForm::Again | ArrayForm::Drop => &[Part::Session],
            ArrayForm::Log | ArrayForm::Reopen | ArrayForm::Restart => &[Part::Server],
            ArrayForm::Fuse => &[Part::Server, Part::Calls, Part::Kept],
            ArrayForm::Lose => &[Part::Server, Part::Lost],
            ArrayForm::Pull => &[Part::Server, Part::Server, Part::Items],
            ArrayForm::Resend => &[Part::Server, Part::Server],
            ArrayForm::Totals
            | ArrayForm::Judge
            | ArrayForm::Survey
            | ArrayForm::Book
            | ArrayForm::Phase => &[],
            _ => self.told_parts(),
        }
    }

    fn told_parts(self) -> &'static [Part] {
        match self {
            ArrayForm::Refused => &[
                Part::Session,
                Part::Place,
                Part::Asks,
                Part::Server,
                Part::WordRefused,
            ],
            ArrayForm::Served => &[
                Part::Session,
                Part::Place,
                Part::Asks,
                Part::Server,
                Part::WordRead,
                Part::Key,
                Part::Vector,
            ],
            ArrayForm::Accepted => &[
                Part::Session,
                Part::Place,
                Part::Asks,
                Part::Server,
                Part::WordWrite,
                Part::Seq,
                Part::Clock,
                Part::Vector,
            ],
            ArrayForm::Held => &[Part::Server, Part::Write],
            ArrayForm::Put => &[Part::Key, Part::Term],
            ArrayForm::Del | ArrayForm::Copy | ArrayForm::Absent => &[Part::Key],
            ArrayForm::Plus | ArrayForm::AtLeast => &[Part::Key, Part::Integer],
            ArrayForm::Equals => &[Part::Key, Part::Value],
            ArrayForm::AtMost => &[Part::Prefix, Part::Most],
            _ => &[],
        }
    }

    /// How many of its last parts may be missing.
    pub(crate) fn optional(self) -> usize {
        match self {
            ArrayForm::Servers | ArrayForm::Pull => 1,
            _ => 0,
        }
    }

    pub(crate) fn text(self) -> &'static str {
        match self {
            ArrayForm::Servers => r#"["servers",N] or ["servers",N,LIMIT]"#,
            ArrayForm::Session =>
                r#"["session",SESSION,["ryw","mr","wfr","mw"]], with those guarantees that it asks for"#,
            ArrayForm::Write => r#"["write",SESSION,SERVER,PROGRAM]"#,
            ArrayForm::Read => r#"["read",SESSION,SERVER,KEY]"#,
            ArrayForm::Again => r#"["again",SESSION]"#,
            ArrayForm::Drop => r#"["drop",SESSION]"#,
            ArrayForm::Log => r#"["log",SERVER]"#,
            ArrayForm::Fuse => r#"["fuse",SERVER,CALL,KEPT]"#,
            ArrayForm::Lose => r#"["lose",SERVER,COUNT]"#,
            ArrayForm::Reopen => r#"["reopen",SERVER]"#,
            ArrayForm::Restart => r#"["restart",SERVER]"#,
            ArrayForm::Pull => r#"["pull",TO,FROM] or ["pull",TO,FROM,ITEMS]"#,
            ArrayForm::Resend => r#"["resend",TO,FROM]"#,
            ArrayForm::Totals => r#"["totals"]"#,
            ArrayForm::Judge => r#"["judge"]"#,
            ArrayForm::Survey => r#"["survey"]"#,
            ArrayForm::Book => r#"["book"]"#,
            ArrayForm::Phase => r#"["phase"]"#,
            _ => self.told_text(),
        }
    }

    fn told_text(self) -> &'static str {
        match self {
            ArrayForm::Refused => r#"["entry",SESSION,PLACE,ASKS,SERVER,"refused"]"#,
            ArrayForm::Served => r#"["entry",SESSION,PLACE,ASKS,SERVER,"read",KEY,VECTOR]"#,
            ArrayForm::Accepted =>
                r#"["entry",SESSION,PLACE,ASKS,SERVER,"write",SEQ,CLOCK,VECTOR]"#,
            ArrayForm::Held => r#"["held",SERVER,[ORIGIN,SEQ,CLOCK,VECTOR,PROGRAM]]"#,
            ArrayForm::Put => r#"["put",KEY,VALUE]"#,
            ArrayForm::Del => r#"["del",KEY]"#,
            ArrayForm::Copy => r#"["copy",KEY]"#,
            ArrayForm::Plus => r#"["plus",KEY,NUMBER]"#,
            ArrayForm::Equals => r#"["equals",KEY,VALUE]"#,
            ArrayForm::Absent => r#"["absent",KEY]"#,
            ArrayForm::AtLeast => r#"["atleast",KEY,NUMBER]"#,
            ArrayForm::AtMost => r#"["atmost",PREFIX,COUNT]"#,
            _ => "",
        }
    }
}

impl fmt::Display for ArrayForm {
    fn fmt<W: fmt::Write>(&self, f: &mut fmt::Formatter<W>) -> fmt::Result {
        let form = *self;
        f.write_str(form.text())
    }
}
