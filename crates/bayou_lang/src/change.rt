ghost use Rattle.std.specs.Prelude.{◌≡◌};

use arrayvec::ArrayVec;
use bayou_base::{Key, MAX_OPS, Value};

/// What a program gives a key: a value, or none.
#[derive(Clone, Debug, Drop, PartialEq, Eq)]
pub struct Change {
    pub key: Key,
    pub value: Option<Value>,
}

/// What a program changes, each key once.
pub type Changes = ArrayVec<Change, MAX_OPS>;

/// A change that fills the unused room of a fixed list.
impl Default for Change {
    fn default() -> Self {
        Change {
            key: Key::default(),
            value: None,
        }
    }
}

impl Change {
    /// The same change again, which takes no memory.
    pub fn copy(&self) -> Self
        ensures { result ≡ self.now }
    {
        Change {
            key: self.key.copy(),
            value: self.copy_value(),
        }
    }

    /// The value again, which takes no memory.
    pub fn copy_value(&self) -> Option<Value>
        ensures { result ≡ self.now.value }
    {
        match &self.value {
            Some(value) => Some(value.copy()),
            None => None,
        }
    }
}
