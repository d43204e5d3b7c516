ghost use Rattle.std.specs.Prelude.{◌≡◌, ◌↔◌, None, Some, IsTrue, IfOk, MatchResult, nat_eq, not, position, refl};
ghost use Rattle.std.specs.Ordering.{nat_cmp};
ghost use Rattle.std.specs.Cmp.{partial_equiv_from_equiv};
ghost use Rattle.std.specs.Cmp.Lexicographic.{pointwise, slice_cmp, nat_list_eq_equiv, nat_list_cmp_total, texts_po, texts_ties};
ghost use Rattle.bayou_base.specs.Key.{key_fault, is_key_byte as key_byte_test};

use crate::limits::MAX_KEY_BYTES;
use arrayvec::ArrayString;
use std::alloc::AllocError;
use std::cmp::Ordering;
use std::fmt;
use std::marker::Model;

/// Why a text is no key, or no prefix.
#[derive(Clone, Copy, Debug, PartialEq, Eq)]
pub enum KeyFault {
    /// It has no byte. A prefix may be empty.
    Empty,
    /// It has more than [`MAX_KEY_BYTES`] bytes.
    TooLong,
    /// The place, from 0 on, of the first byte that no key has.
    BadByte(usize),
}

/// The name of a value in the database: 1 to [`MAX_KEY_BYTES`] bytes of `a-z 0-9 . _ - /`.
#[derive(Drop)]
pub struct Key {
    text: ArrayString<MAX_KEY_BYTES>,
}

impl Model for Key {
    ghost use Rattle.std.specs.Prelude.{◌≡◌, ℕ, List, None};
    ghost use Rattle.bayou_base.specs.Key.{key_fault};

    ghost Value = { List ℕ };

    ghost view = { λ k. k.text.bytes };

    ghost invariant = { λ k. key_fault k.text.bytes ≡ None };
}

fn is_key_byte(byte: u8) -> bool
    ensures { result ≡ key_byte_test byte }
{
    matches!(byte, b'a'..=b'z' | b'0'..=b'9' | b'.' | b'_' | b'-' | b'/')
}

fn first_bad_byte(bytes: &[u8]) -> Option<usize>
    ensures { result ≡ position (λ byte. not (key_byte_test byte)) bytes.now }
{
    bytes.iter().position(|byte| !is_key_byte(*byte))
}

pub(crate) fn fault_of(text: &str) -> Option<KeyFault>
    ensures { result ≡ key_fault text.now }
{
    if text.is_empty() {
        return Some(KeyFault::Empty);
    }
    if text.len() > MAX_KEY_BYTES {
        return Some(KeyFault::TooLong);
    }
    match first_bad_byte(text.as_bytes()) {
        Some(at) => Some(KeyFault::BadByte(at)),
        None => None,
    }
}

impl Key {
    ghost use Rattle.bayou_base.specs.Key.{key_fault};

    /// The key of this name.
    pub fn new(name: &str) -> Result<Self, KeyFault>
        ensures { MatchResult result
            (λ key. (key_fault name.now ≡ None) × (key ≡ name.now))
            (λ fault. key_fault name.now ≡ Some fault) }
    {
        if let Some(fault) = fault_of(name) {
            return Err(fault);
        }
        let Ok(text) = ArrayString::from(name) else {
            unreachable!();
        };
        Ok(Key { text })
    }

    /// The key of this text, which is one's name.
    pub(crate) fn of(text: ArrayString<MAX_KEY_BYTES>) -> Self
        requires { key_fault text.bytes ≡ None }
        ensures { result ≡ text.bytes }
    {
        Key { text }
    }

    /// The name.
    pub fn as_str(&self) -> &str
        ensures value { result.now ≡ self.now }
        ensures valid { key_fault result.now ≡ None }
    {
        self.text.as_str()
    }

    /// The same key again, which takes no memory.
    pub fn copy(&self) -> Self
        ensures { result ≡ self.now }
    {
        Key { text: self.text }
    }
}

impl Clone for Key {
    ghost is_clone = { λ k l. l ≡ k };

    ghost is_infallible = { λ _. Unit {0} };

    fn clone(&self) -> Result<Self, AllocError> {
        Ok(self.copy())
    }
}

/// A key that fills the unused room of fixed lists.
impl Default for Key {
    fn default() -> Self {
        let Ok(key) = Key::new("-") else {
            unreachable!();
        };
        key
    }
}

impl PartialEq for Key {
    ghost eq = { pointwise nat_eq };

    ghost laws = { partial_equiv_from_equiv nat_list_eq_equiv };

    fn eq(&self, other: &Self) -> bool {
        self.text == other.text
    }
}

impl Eq for Key {
    ghost laws = { nat_list_eq_equiv };
}

impl PartialOrd for Key {
    ghost partial_cmp = { λ k l. Some (slice_cmp nat_cmp k l) };

    ghost laws = { texts_po };

    fn partial_cmp(&self, other: &Self) -> Option<Ordering> {
        Some(self.cmp(other))
    }
}

impl Ord for Key {
    ghost cmp = { slice_cmp nat_cmp };

    ghost total = { nat_list_cmp_total };

    ghost matches_partial_cmp = { λ k l. refl };

    ghost matches_eq = { texts_ties };

    fn cmp(&self, other: &Self) -> Ordering {
        self.text.cmp(&other.text)
    }
}

impl fmt::Debug for Key {
    fn fmt<W: fmt::Write>(&self, f: &mut fmt::Formatter<W>) -> fmt::Result {
        fmt::Debug::fmt(&self.text, f)
    }
}
