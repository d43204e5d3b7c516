//! A row of a database, as it is seen.
use bayou_base::{Key, Value};
use bayou_final::Standing;

/// A key that has a value, with that.
#[derive(Debug, Drop)]
pub struct Row {
    pub key: Key,
    pub value: Value,
    /// How the value stands; `None` where that isn't known.
    pub standing: Option<Standing>,
}
