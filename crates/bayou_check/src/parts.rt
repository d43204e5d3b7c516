//! What stands after the word of a line or of an array of a program.
use bayou_base::limits::{
    MAX_ALTERNATIVES, MAX_CONDITIONS, MAX_FUSE_CALLS, MAX_FUSE_KEPT, MAX_LOST_BYTES, MAX_OPS,
};
use bayou_base::{MAX_PLACES, MAX_WRITES, SERVERS, SESSIONS};
use std::fmt;

/// What a member is.
#[derive(Clone, Copy, Debug, PartialEq, Eq)]
pub enum Part {
    /// How many servers.
    Count,
    /// How many Writes a log holds at the most.
    Limit,
    Session,
    Server,
    /// Which device call from now.
    Calls,
    /// How many bytes a failing append adds.
    Kept,
    /// How many bytes a device loses.
    Lost,
    /// After how many Writes a stream is cut.
    Items,
    /// The place of an operation in its session.
    Place,
    /// The place of a Write among those of its server.
    Seq,
    Clock,
    /// How many Writes of a server a vector counts.
    Tally,
    /// How many keys may begin so.
    Most,
    Integer,
    Key,
    Prefix,
    Value,
    Asks,
    Term,
    Program,
    Vector,
    /// The Write that a server holds.
    Write,
    WordRead,
    WordWrite,
    WordRefused,
}

impl Part {
    /// From where to where the number is, if it is one that has a range of its own.
    pub(crate) fn range(self) -> Option<(u64, u64)> {
        let writes = u64::from(MAX_WRITES);
        match self {
            Part::Count => Some((1, SERVERS as u64)),
            Part::Limit | Part::Seq | Part::Clock => Some((1, writes)),
            Part::Session => Some((0, SESSIONS as u64 - 1)),
            Part::Server => Some((0, SERVERS as u64 - 1)),
            Part::Calls => Some((1, u64::from(MAX_FUSE_CALLS))),
            Part::Kept => Some((0, u64::from(MAX_FUSE_KEPT))),
            Part::Lost => Some((0, u64::from(MAX_LOST_BYTES))),
            Part::Items | Part::Tally => Some((0, writes)),
            Part::Place => Some((1, u64::from(MAX_PLACES))),
            Part::Most => Some((0, u64::from(u32::MAX))),
            _ => None,
        }
    }

    /// The word that must stand there, if it is one.
    pub(crate) fn word(self) -> Option<&'static str> {
        match self {
            Part::WordRead => Some("read"),
            Part::WordWrite => Some("write"),
            Part::WordRefused => Some("refused"),
            _ => None,
        }
    }

    fn name(self) -> &'static str {
        match self {
            Part::Count => "how many servers there are",
            Part::Limit => "how many Writes a server may hold",
            Part::Session => "a session",
            Part::Server => "a server",
            Part::Calls => "which device call from now fails",
            Part::Kept => "how many bytes a failing append adds",
            Part::Lost => "how many bytes the device loses",
            Part::Items => "after how many Writes the stream is cut",
            Part::Place => "the place of the operation among those of its session",
            Part::Seq => "the place of the Write among those of its server",
            Part::Clock => "a clock, which is counted from 1 and is no time of day",
            Part::Tally => "how many Writes of a server are held",
            Part::Most => "how many keys begin so at the most",
            _ => "a number",
        }
    }
}

/// The numbers, each with its range.
impl fmt::Display for Part {
    fn fmt<W: fmt::Write>(&self, f: &mut fmt::Formatter<W>) -> fmt::Result {
        let part = *self;
        let name = part.name();
        match part.range() {
            Some((least, most)) => write!(f, "{name}: a whole number from {least} to {most}"),
            None => f.write_str("a whole number of 64 bits, with its sign"),
        }
    }
}

/// A list of a program.
#[derive(Clone, Copy, Debug, PartialEq, Eq)]
pub enum List {
    Conditions,
    Ops,
    Alternatives,
}

impl List {
    /// How many members it has at the most.
    pub(crate) fn most(self) -> usize {
        match self {
            List::Conditions => MAX_CONDITIONS,
            List::Ops => MAX_OPS,
            List::Alternatives => MAX_ALTERNATIVES,
        }
    }

    /// Its shape, with one member.
    pub(crate) fn example(self) -> &'static str {
        match self {
            List::Conditions => r#"a list of conditions, as [["absent",KEY]]"#,
            List::Ops => r#"a list of ops, as [["put",KEY,VALUE]]"#,
            List::Alternatives =>
                r#"a list of alternatives, as [{"when":[["absent",KEY]],"ops":[["put",KEY,VALUE]]}]"#,
        }
    }
}

impl fmt::Display for List {
    fn fmt<W: fmt::Write>(&self, f: &mut fmt::Formatter<W>) -> fmt::Result {
        f.write_str(match *self {
            List::Conditions => "conditions",
            List::Ops => "ops",
            List::Alternatives => "alternatives",
        })
    }
}
