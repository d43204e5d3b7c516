//! What `check` is to do.
use crate::Source;

/// A script or an audit file, every fault of which is reported.
#[derive(Clone, Copy, Debug, PartialEq, Eq)]
pub struct Checking<'a> {
    pub file: Source<'a>,
    /// Whether faults are printed as lines of JSON.
    pub is_json: bool,
}
