ghost use Rattle.std.specs.Prelude.{◌≡◌, [], None, Some, MatchOption, MatchResult, nat_eq};
ghost use Rattle.std.specs.Cmp.{partial_equiv_from_equiv};
ghost use Rattle.std.specs.Cmp.Lexicographic.{pointwise, nat_list_eq_equiv};
ghost use Rattle.bayou_base.specs.Key.{prefix_fault};

use crate::key::{Key, KeyFault, fault_of as key_fault_of};
use crate::limits::MAX_KEY_BYTES;
use arrayvec::ArrayString;
use std::alloc::AllocError;
use std::fmt;
use std::marker::Model;

/// What names of keys begin with: 0 to [`MAX_KEY_BYTES`] bytes of `a-z 0-9 . _ - /`.
#[derive(Drop)]
pub struct Prefix {
    text: ArrayString<MAX_KEY_BYTES>,
}

impl Model for Prefix {
    ghost use Rattle.std.specs.Prelude.{◌≡◌, ℕ, List, None};
    ghost use Rattle.bayou_base.specs.Key.{prefix_fault};

    ghost Value = { List ℕ };

    ghost view = { λ p. p.text.bytes };

    ghost invariant = { λ p. prefix_fault p.text.bytes ≡ None };
}

fn fault_of(text: &str) -> Option<KeyFault>
    ensures { result ≡ prefix_fault text.now }
{
    if text.is_empty() {
        None
    } else {
        key_fault_of(text)
    }
}

impl Prefix {
    /// The prefix of these bytes. Its refusals are those of a key, but it may be empty.
    pub fn new(text: &str) -> Result<Self, KeyFault>
        ensures { MatchResult result
            (λ prefix. (prefix_fault text.now ≡ None) × (prefix ≡ text.now))
            (λ fault. prefix_fault text.now ≡ Some fault) }
    {
        if let Some(fault) = fault_of(text) {
            return Err(fault);
        }
        let Ok(text) = ArrayString::from(text) else {
            unreachable!();
        };
        Ok(Prefix { text })
    }

    /// Its bytes.
    pub fn as_str(&self) -> &str
        ensures value { result.now ≡ self.now }
        ensures valid { prefix_fault result.now ≡ None }
    {
        self.text.as_str()
    }

    /// The least key that begins so, which has the same bytes, or `None` where the prefix is empty: every key begins so.
    pub fn first_key(&self) -> Option<Key>
        ensures { MatchOption result (self.now ≡ []) (λ key. key ≡ self.now) }
    {
        if self.text.is_empty() {
            return None;
        }
        Some(Key::of(self.text))
    }

    /// The same prefix again, which takes no memory.
    pub fn copy(&self) -> Self
        ensures { result ≡ self.now }
    {
        Prefix { text: self.text }
    }
}

impl Clone for Prefix {
    ghost is_clone = { λ p q. q ≡ p };

    ghost is_infallible = { λ _. Unit {0} };

    fn clone(&self) -> Result<Self, AllocError> {
        Ok(self.copy())
    }
}

/// The empty prefix, with which every key begins.
impl Default for Prefix {
    fn default() -> Self
        ensures { result ≡ [] }
    {
        let Ok(prefix) = Prefix::new("") else {
            unreachable!();
        };
        prefix
    }
}

impl PartialEq for Prefix {
    ghost eq = { pointwise nat_eq };

    ghost laws = { partial_equiv_from_equiv nat_list_eq_equiv };

    fn eq(&self, other: &Self) -> bool {
        self.text == other.text
    }
}

impl Eq for Prefix {
    ghost laws = { nat_list_eq_equiv };
}

impl fmt::Debug for Prefix {
    fn fmt<W: fmt::Write>(&self, f: &mut fmt::Formatter<W>) -> fmt::Result {
        fmt::Debug::fmt(&self.text, f)
    }
}
