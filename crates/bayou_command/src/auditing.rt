//! What `audit` is to do.
use crate::Source;

/// An audit of a file, and what is printed of it beside the verdict and the survey.
#[derive(Clone, Copy, Debug, PartialEq, Eq)]
pub struct Auditing<'a> {
    pub file: Source<'a>,
    /// Whether it is shown by the lines of the file.
    pub is_explained: bool,
    /// Whether every breach is shown so, and not the least of each guarantee in each session alone.
    pub is_all: bool,
    /// Whether all is printed as lines of JSON.
    pub is_json: bool,
    /// The file that a picture of it goes into, if one is asked for.
    pub picture: Option<&'a str>,
}
