use bayou_base::{Entry, ServerId};
use bayou_lang::RestingWrite;

/// What a line of an audit file tells, after the line that says how many servers there were.
#[derive(Debug, Drop)]
pub enum AuditLine {
    /// What became of an operation that a session tried.
    Entry {
        entry: Entry,
        /// How many counts its vector has; `None` where it has none.
        counts: Option<u8>,
    },
    /// A Write that the server holds.
    Held {
        server: ServerId,
        write: RestingWrite,
        /// How many counts its vector has.
        counts: u8,
    },
}
