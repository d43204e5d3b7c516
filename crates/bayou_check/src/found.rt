//! What was found where a fault is.
use thiserror::Error;

/// What was found.
#[derive(Debug, Drop, Error)]
pub enum Found {
    // Lines that are no JSON.
    #[error("bytes that aren't UTF-8")]
    NotUtf8,
    #[error("a byte order mark")]
    Mark,
    #[error("a comment")]
    Comment,
    #[error("single quotes")]
    SingleQuotes,
    #[error("the bracket of an array that goes on over lines")]
    ArrayOfAll,
    #[error("a comma that nothing follows")]
    Comma,
    #[error("the end of the line, with a bracket or a text open")]
    Open,
    #[error("more behind the array")]
    Behind,
    #[error("a line of blanks alone")]
    Blank,
    #[error("arrays or objects more than 127 within one another")]
    Deep,
    #[error("a number that begins with 0")]
    Zero,
    #[error("what is no JSON from here on")]
    NoJson,
    // Members.
    #[error("a line of {0} bytes")]
    Bytes(usize),
    #[error("{0}")]
    Json(String),
    /// A text that is too long, and its bytes.
    #[error("{json}, which has {bytes} bytes")]
    Long { json: String, bytes: usize },
    /// A text with a byte that no key has, the place of it from 1 on.
    #[error("{json}, whose byte {at} no key has")]
    BadByte { json: String, at: usize },
    #[error("{} {}", .0, member_word(.0))]
    Members(usize),
    #[error("{0} in the list")]
    Listed(usize),
    // Places.
    #[error("no line that says anything")]
    Nothing,
    #[error("another line before any server is started")]
    BeforeServers,
    #[error("a second `servers`; line {0} started them")]
    ServersAgain(u64),
    #[error("server {server}; line {line} starts servers 0 to {last}")]
    NoServer { server: u8, last: u8, line: u64 },
    #[error("server {0} twice")]
    SameServer(u8),
    #[error("session {0}, which no line opens")]
    NeverOpened(u8),
    #[error("session {session}, which line {line} opens, further down")]
    OpenedLater { session: u8, line: u64 },
    #[error("session {session}, which line {line} opened")]
    OpenedBefore { session: u8, line: u64 },
    #[error("a line of an audit file")]
    AuditLine,
    #[error("a line of a script")]
    ScriptLine,
    #[error("a vector of {told} {}; line {line} says {count} {}", count_word(.told), server_word(.count))]
    Counts { told: u8, count: u8, line: u64 },
    #[error("one more")]
    OneMore,
    /// Of which no more is known.
    #[error("what isn't one")]
    Other,
}

fn member_word(count: &usize) -> &'static str {
    if *count == 1 { "member" } else { "members" }
}

fn count_word(count: &u8) -> &'static str {
    if *count == 1 { "count" } else { "counts" }
}

fn server_word(count: &u8) -> &'static str {
    if *count == 1 { "server" } else { "servers" }
}
