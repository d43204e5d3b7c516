//! A line of an audit file, and what it tells.
use bayou_text::AuditLine;

/// A line that tells an entry, or a Write that is held.
#[derive(Drop)]
pub struct Located<'a> {
    /// Its place among the lines of its text, from 0 on.
    pub at: usize,
    pub bytes: &'a [u8],
    pub told: AuditLine,
}
