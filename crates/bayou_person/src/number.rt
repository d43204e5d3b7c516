//! How numbers are spelled.
ghost use Rattle.std.specs.Prelude.{◌≡◌, ◌&&◌, ◌↔◌, MatchResult, true, ℤ};
ghost use Rattle.std.specs.Char.{is_ascii_digit};
ghost use Rattle.std.specs.Fmt.{signed_decimal};
ghost use Rattle.std.specs.List.{after_first, before_first, list_all, list_any};
ghost use Rattle.std.specs.Str.Parse.{without_leading_sign};
ghost use Rattle.bayou_person.specs.declared.wish.WishFault.TheVariants.{Number as BadNumber};
ghost use Rattle.bayou_person.specs.Wishes.{Reads, is_point, looks_like_number};

use crate::wish::WishFault;
use crate::words::place_of;
use itoa::Buffer;

/// What stands between the whole part of a number and the rest of it.
const POINT: u8 = b'.';

// Whether the word is the one spelling of the number.
fn spells(word: &str, number: i64) -> bool
    ensures { result ≡ true ↔ word.now ≡ signed_decimal number }
{
    let mut buffer = Buffer::new();
    buffer.format(number) == word
}

/// The number that the word is the one spelling of.
pub(crate) fn number_in(word: &str) -> Result<i64, WishFault>
    ensures { MatchResult result (λ number. Reads word.now number) (λ fault. (fault ≡ BadNumber) × ((number : ℤ) → ¬ (Reads word.now number))) }
{
    match word.parse::<i64>() {
        Ok(number) if spells(word, number) => Ok(number),
        _ => Err(WishFault::Number),
    }
}

// What stands after the sign, or all where there is none.
fn unsigned(word: &str) -> &[u8]
    ensures { result.now ≡ without_leading_sign word.now }
{
    match word.as_bytes() {
        [b'-' | b'+', rest @ ..] => rest,
        all => all,
    }
}

fn are_digits(bytes: &[u8]) -> bool
    ensures { result ≡ list_all is_ascii_digit bytes.now }
{
    bytes.iter().all(|byte| byte.is_ascii_digit())
}

fn has_digit(bytes: &[u8]) -> bool
    ensures { result ≡ list_any is_ascii_digit bytes.now }
{
    bytes.iter().any(|byte| byte.is_ascii_digit())
}

// Whether there are digits alone before the first point and after it.
fn are_digits_around_point(bytes: &[u8]) -> bool
    ensures { result ≡ (list_all is_ascii_digit (before_first is_point bytes.now) && list_all is_ascii_digit (after_first is_point bytes.now)) }
{
    match place_of(bytes, POINT) {
        None => are_digits(bytes),
        Some(at) => are_digits(&bytes[..at]) && are_digits(&bytes[at + 1..]),
    }
}

/// Whether a word looks like a number to a person.
pub(crate) fn looks_like_number(word: &str) -> bool
    ensures { result ≡ looks_like_number word.now }
{
    let digits = unsigned(word);
    has_digit(digits) && are_digits_around_point(digits)
}
