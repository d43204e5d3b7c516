ghost use Rattle.std.specs.Prelude.{◌≡◌, ◌↔◌, IsSome, IfSome, nat_eq, IsUtf8};
ghost use Rattle.std.specs.Cmp.{partial_equiv_from_equiv};
ghost use Rattle.std.specs.Cmp.Lexicographic.{pointwise, nat_list_eq_equiv};
ghost use Rattle.bayou_base.specs.Text.{IsShort};

use crate::limits::MAX_TEXT_BYTES;
use arrayvec::ArrayString;
use std::alloc::AllocError;
use std::fmt;
use std::marker::Model;

/// A text value: UTF-8 of at most [`MAX_TEXT_BYTES`] bytes.
#[derive(Drop)]
pub struct Text {
    text: ArrayString<MAX_TEXT_BYTES>,
}

impl Model for Text {
    ghost use Rattle.std.specs.Prelude.{ℕ, List};
    ghost use Rattle.bayou_base.specs.Text.{IsShort};

    ghost Value = { List ℕ };

    ghost view = { λ t. t.text.bytes };

    ghost invariant = { λ t. IsShort t.text.bytes };
}

impl Text {
    /// This text, or `None` where it is too long.
    pub fn new(text: &str) -> Option<Self>
        ensures within { IsSome result ↔ IsShort text.now }
        ensures value { IfSome result (λ value. value ≡ text.now) }
    {
        match ArrayString::from(text) {
            Ok(text) => Some(Text { text }),
            Err(_) => None,
        }
    }

    /// The text.
    pub fn as_str(&self) -> &str
        ensures value { result.now ≡ self.now }
        ensures valid { IsShort result.now }
    {
        self.text.as_str()
    }

    /// The same text again, which takes no memory.
    pub fn copy(&self) -> Self
        ensures { result ≡ self.now }
    {
        Text { text: self.text }
    }
}

impl Clone for Text {
    ghost is_clone = { λ t u. u ≡ t };

    ghost is_infallible = { λ _. Unit {0} };

    fn clone(&self) -> Result<Self, AllocError> {
        Ok(self.copy())
    }
}

impl PartialEq for Text {
    ghost eq = { pointwise nat_eq };

    ghost laws = { partial_equiv_from_equiv nat_list_eq_equiv };

    fn eq(&self, other: &Self) -> bool {
        self.text == other.text
    }
}

impl Eq for Text {
    ghost laws = { nat_list_eq_equiv };
}

impl fmt::Debug for Text {
    fn fmt<W: fmt::Write>(&self, f: &mut fmt::Formatter<W>) -> fmt::Result {
        fmt::Debug::fmt(&self.text, f)
    }
}

/// What a key may have in the database.
#[derive(Clone, Debug, Drop, PartialEq, Eq)]
pub enum Value {
    /// A number.
    Num(i64),
    /// A text.
    Text(Text),
}

/// A value that fills the unused room of fixed lists.
impl Default for Value {
    fn default() -> Self {
        Value::Num(0)
    }
}

impl Value {
    ghost use Rattle.bayou_base.specs.declared.value.Value.TheVariants.{Text as TextValue};

    /// The text value, or `None` where it is too long.
    pub fn text(text: &str) -> Option<Self>
        ensures within { IsSome result ↔ IsShort text.now }
        ensures value { IfSome result (λ value. value ≡ TextValue text.now) }
    {
        Text::new(text).map(Value::Text)
    }

    /// The same value again, which takes no memory.
    pub fn copy(&self) -> Self
        ensures { result ≡ self.now }
    {
        match self {
            Value::Num(number) => Value::Num(*number),
            Value::Text(text) => Value::Text(text.copy()),
        }
    }
}
