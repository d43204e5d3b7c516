//! What is expected where a fault was found.
use crate::forms::ArrayForm;
use crate::kind::TextKind;
use crate::page::ManualPage;
use crate::parts::{List, Part};
use std::fmt;

/// What is expected in place of what was found.
#[derive(Clone, Copy, Debug, PartialEq, Eq)]
pub enum Expected {
    // Lines that are no JSON.
    Utf8,
    NoMark,
    NoComment,
    DoubleQuotes,
    NoArrayOfAll,
    NoComma,
    Closed,
    NothingBehind,
    NoBlank,
    Shallow,
    NoZero,
    Json,
    // Lines of another shape.
    ShortLine,
    Array,
    Command(TextKind),
    Members(ArrayForm),
    EntryMembers,
    Number(Part),
    Unquoted(Part),
    Key,
    Prefix,
    Value,
    Asks,
    Ask,
    Vector,
    HeldWrite,
    EntryWord(&'static str, usize),
    Program,
    ProgramMember,
    Alternative,
    AlternativeMember,
    Listed(List),
    Fewer(List),
    Op,
    OpWord,
    Condition,
    ConditionWord,
    Term,
    TermWord,
    // Lines that are out of place.
    SomeLine,
    ServersFirst,
    ServersOnce,
    StartedServer,
    OtherServer,
    OpenSession(u8),
    NewSession,
    OnlyScript,
    OnlyAudit,
    Counts(u8),
    FewLines,
    FewEntries,
    /// Another shape, of which no more is known.
    Other,
}

impl Expected {
    /// The page that says more.
    pub fn page(self) -> ManualPage {
        match self {
            Expected::Key | Expected::Prefix | Expected::Value | Expected::Term =>
                ManualPage::Language,
            Expected::TermWord | Expected::Op | Expected::OpWord | Expected::Program => {
                ManualPage::Language
            }
            Expected::ProgramMember
            | Expected::Alternative
            | Expected::AlternativeMember
            | Expected::Listed(_)
            | Expected::Fewer(_)
            | Expected::Condition
            | Expected::ConditionWord => ManualPage::Language,
            Expected::Asks | Expected::Ask => ManualPage::Asks,
            Expected::Vector
            | Expected::Counts(_)
            | Expected::EntryWord(_, _)
            | Expected::EntryMembers
            | Expected::HeldWrite
            | Expected::FewEntries
            | Expected::OnlyAudit => ManualPage::AuditLines,
            Expected::Members(form) => form.page(),
            Expected::Number(part) | Expected::Unquoted(part) => part.page(),
            Expected::Command(TextKind::Audit) => ManualPage::AuditLines,
            _ => self.page_of_lines(),
        }
    }

    fn page_of_lines(self) -> ManualPage {
        match self {
            Expected::SomeLine
            | Expected::ServersFirst
            | Expected::ServersOnce
            | Expected::StartedServer
            | Expected::OtherServer
            | Expected::OpenSession(_)
            | Expected::NewSession
            | Expected::OnlyScript
            | Expected::FewLines => ManualPage::Script,
            Expected::Command(_) => ManualPage::Commands,
            _ => ManualPage::Lines,
        }
    }

    fn json_text(self) -> &'static str {
        match self {
            Expected::Utf8 => "a line of JSON in UTF-8",
            Expected::NoMark => "a file without a byte order mark",
            Expected::NoComment => "no comment: scripts and audit files have none",
            Expected::DoubleQuotes => "double quotes around a text",
            Expected::NoArrayOfAll => "one array in each line, and not one array of all lines",
            Expected::NoComma => "no comma behind the last member, nor behind the line",
            Expected::Closed => "a bracket for each one that is opened",
            Expected::NothingBehind => "nothing behind the array",
            Expected::NoBlank => "a blank line of no byte: save the file with line feeds alone",
            Expected::Shallow => "at most 127 arrays and objects within one another",
            Expected::NoZero => "a number without zeros before it",
            Expected::Json => "one JSON array",
            Expected::ShortLine => "a line of at most 65536 bytes",
            Expected::Array => "an array that begins with a word, as [\"log\",0]",
            _ => self.shape_text(),
        }
    }

    fn shape_text(self) -> &'static str {
        match self {
            Expected::EntryMembers =>
                "[\"entry\",SESSION,PLACE,ASKS,SERVER,..] with \"refused\", with \"read\",KEY,VECTOR or with \"write\",SEQ,CLOCK,VECTOR",
            Expected::Key => "a key: a text of 1 to 32 bytes of a-z 0-9 . _ - /",
            Expected::Prefix => "a prefix: a text of up to 32 bytes of a-z 0-9 . _ - /",
            Expected::Value => "a value: a whole number, or a text of up to 32 bytes",
            Expected::Asks =>
                "a list of what the session asks for: any of \"ryw\", \"mr\", \"wfr\", \"mw\"",
            Expected::Ask => "\"ryw\", \"mr\", \"wfr\" or \"mw\"",
            Expected::Vector => "a vector: a list of 1 to 16 counts, one for each server",
            Expected::HeldWrite =>
                "the Write in a list of its own: [ORIGIN,SEQ,CLOCK,VECTOR,PROGRAM]",
            Expected::Program => "a program, as {\"update\":[[\"put\",KEY,VALUE]]}",
            Expected::ProgramMember =>
                "\"check\", \"update\" or \"merge\" as a member of a program",
            Expected::Alternative =>
                "an alternative, as {\"when\":[[\"absent\",KEY]],\"ops\":[[\"put\",KEY,VALUE]]}",
            Expected::AlternativeMember => "\"when\" or \"ops\" as a member of an alternative",
            Expected::Op => "an op in a list of its own: [\"put\",KEY,VALUE] or [\"del\",KEY]",
            Expected::OpWord => "\"put\" or \"del\" as the first member of an op",
            _ => self.program_text(),
        }
    }

    fn program_text(self) -> &'static str {
        match self {
            Expected::Condition => "a condition in a list of its own, as [\"absent\",KEY]",
            Expected::ConditionWord =>
                "\"equals\", \"absent\", \"atleast\" or \"atmost\" as the first member of a condition",
            Expected::Term => "[\"copy\",KEY] or [\"plus\",KEY,NUMBER], or a value",
            Expected::TermWord => "\"copy\" or \"plus\" as the first member of a term",
            Expected::SomeLine => "a line that says something; the first is [\"servers\",N]",
            Expected::ServersFirst => "[\"servers\",N] as the first line",
            Expected::ServersOnce => "one line [\"servers\",N], the first",
            Expected::StartedServer => "one of the servers that are started",
            Expected::OtherServer => "another server to pull from",
            Expected::NewSession => "a session that isn't open yet",
            Expected::OnlyScript => "a line of a script; bayou audit takes those of audit files",
            Expected::OnlyAudit => "a line of an audit file; bayou run takes those of scripts",
            Expected::FewLines => "at most 65536 lines",
            Expected::FewEntries => "at most 65536 entries",
            _ => self.place_text(),
        }
    }

    fn place_text(self) -> &'static str {
        match self {
            Expected::Other => "a line as docs/FORMATS.md has it",
            _ => "",
        }
    }
}

impl fmt::Display for Expected {
    fn fmt<W: fmt::Write>(&self, f: &mut fmt::Formatter<W>) -> fmt::Result {
        let expected = *self;
        match expected {
            Expected::Command(kind) => f.write_str(kind.words()),
            Expected::Members(form) => f.write_str(form.text()),
            Expected::Listed(list) => f.write_str(list.example()),
            Expected::Number(part) => write!(f, "{part}"),
            Expected::Unquoted(part) => write!(f, "{part}, without quotes"),
            Expected::EntryWord(word, members) => {
                write!(f, "\"{word}\", as this line has {members} members")
            }
            Expected::Fewer(list) => {
                let most = list.most();
                write!(f, "at most {most} {list} in a list; use two Writes")
            }
            Expected::OpenSession(session) => {
                write!(
                    f,
                    "a session that is opened first, by [\"session\",{session},[]]"
                )
            }
            Expected::Counts(count) => {
                write!(f, "a vector with one count for each server: {count}")
            }
            other => f.write_str(other.json_text()),
        }
    }
}
