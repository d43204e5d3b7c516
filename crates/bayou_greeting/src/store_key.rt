ghost use Rattle.std.specs.Prelude.{◌≡◌, ℕ, ◌+◌, ◌≤◌, ◌++◌, ◌∷◌, ◌↔◌, List, IfSome, IsSome, IsTrue, None, Some, length};
ghost use Rattle.arrayvec.specs.ArrayVec.{array_vec_len};
ghost use Rattle.hex.specs.Hex.{IsBytes, encode_lower};
ghost use Rattle.bayou_base.specs.Key.{key_fault};
ghost use Rattle.bayou_greeting.specs.declared.secret.TheConstants.{SECRET_BYTES};
ghost use Rattle.bayou_greeting.specs.declared.store_key.StoreKey.{StoreKey as Kept};
ghost use Rattle.bayou_greeting.specs.declared.store_key.TheConstants.{MAX_KEY_LINE_BYTES, SECRET_DIGITS, SPACE};
ghost use Rattle.bayou_greeting.specs.StoreKeys.{IsStoreKey, key_line, line_start};

use crate::secret::{SECRET_BYTES, Secret};
use arrayvec::ArrayVec;
use bayou_base::{Key, MAX_KEY_BYTES};
use hex::{decode_to_slice, encode_to_slice};

/// How many bytes the first word of a key's line has.
pub const KEY_WORD_BYTES: usize = 11;

/// What the line of every key begins with, before a space.
pub const KEY_WORD: [u8; KEY_WORD_BYTES] = *b"bayou-key-1";

/// What stands between the words of a key's line.
pub const SPACE: u8 = b' ';

/// How many bytes stand before the name in a key's line.
pub const KEY_LINE_START_BYTES: usize = KEY_WORD_BYTES + 1;

/// How many digits the secret of a key has.
pub const SECRET_DIGITS: usize = 2 * SECRET_BYTES;

/// How many bytes the line of a key has at the most, without its line feed.
pub const MAX_KEY_LINE_BYTES: usize = KEY_LINE_START_BYTES + MAX_KEY_BYTES + 1 + SECRET_DIGITS;

/// The key of a store: the name of the store, and its secret.
#[derive(Drop)]
pub struct StoreKey {
    pub name: Key,
    pub secret: Secret,
}

fn is_same(found: &[u8], wanted: &[u8]) -> bool
    ensures { IsTrue result ↔ (found.now ≡ wanted.now) }
{
    found == wanted
}

// What stands between the first words and the last digits, and the digits.
fn parts_of(line: &[u8]) -> Option<(&[u8], &[u8])>
    ensures some { (name digits : List ℕ) → length digits ≡ SECRET_DIGITS → line.now ≡ line_start ++ (name ++ SPACE ∷ digits) → IsSome result }
    ensures parts { IfSome result (λ p. (name digits : List ℕ) → length digits ≡ SECRET_DIGITS → line.now ≡ line_start ++ (name ++ SPACE ∷ digits)
        → (p.0.now ≡ name) × (p.1.now ≡ digits)) }
{
    if line.len() < KEY_LINE_START_BYTES + 1 + SECRET_DIGITS {
        return None;
    }
    let (_, rest) = line.split_at(KEY_LINE_START_BYTES);
    let (name, behind) = rest.split_at(rest.len() - 1 - SECRET_DIGITS);
    let (_, digits) = behind.split_at(1);
    Some((name, digits))
}

fn name_of(bytes: &[u8]) -> Option<Key>
    ensures { key_fault bytes.now ≡ None → result ≡ Some bytes.now }
{
    let Ok(name) = str::from_utf8(bytes) else {
        return None;
    };
    Key::new(name).ok()
}

fn secret_of(digits: &[u8]) -> Option<Secret>
    ensures { (secret : List ℕ) → length secret ≡ SECRET_BYTES → IsBytes secret → digits.now ≡ encode_lower secret → result ≡ Some secret }
{
    let mut secret = [0; SECRET_BYTES];
    match decode_to_slice(digits, &mut secret) {
        Ok(()) => Some(Secret::new(&secret)),
        Err(_) => None,
    }
}

// The key of this line, if the line is that of a key.
fn candidate(line: &[u8]) -> Option<StoreKey>
    ensures { (key : Kept) → IsStoreKey key → line.now ≡ key_line key → result ≡ Some key }
{
    let Some((name, digits)) = parts_of(line) else {
        return None;
    };
    let Some(name) = name_of(name) else {
        return None;
    };
    let Some(secret) = secret_of(digits) else {
        return None;
    };
    Some(StoreKey { name, secret })
}

fn digits_of(secret: &Secret) -> [u8; SECRET_DIGITS]
    ensures { result ≡ encode_lower secret.now }
{
    let mut digits = [0; SECRET_DIGITS];
    let Ok(()) = encode_to_slice(secret.bytes(), &mut digits) else {
        unreachable!();
    };
    digits
}

// Adds a piece for which there is room.
fn add(line: &mut ArrayVec<u8, MAX_KEY_LINE_BYTES>, piece: &[u8])
    requires { array_vec_len line.old + length piece.now ≤ MAX_KEY_LINE_BYTES }
    ensures items { line.new.items ≡ line.old.items ++ piece.now }
    ensures len { array_vec_len line.new ≡ array_vec_len line.old + length piece.now }
{
    let Ok(()) = line.try_extend_from_slice(piece) else {
        unreachable!();
    };
}

impl StoreKey {
    /// The key of this line, which has no line feed, or `None` where it is no key's line.
    pub fn parse(line: &[u8]) -> Option<Self>
        // What is read has this line.
        ensures read { IfSome result (λ key. line.now ≡ key_line key) }
        // Each key's line is read.
        ensures all { (key : Kept) → IsStoreKey key → line.now ≡ key_line key → result ≡ Some key }
    {
        let Some(key) = candidate(line) else {
            return None;
        };
        if is_same(key.line().as_slice(), line) {
            Some(key)
        } else {
            None
        }
    }

    /// The key's line, without a line feed.
    pub fn line(&self) -> ArrayVec<u8, MAX_KEY_LINE_BYTES>
        ensures { result.items ≡ key_line self.now }
    {
        let mut line = ArrayVec::new();
        add(&mut line, &KEY_WORD);
        add(&mut line, &[SPACE]);
        add(&mut line, self.name.as_str().as_bytes());
        add(&mut line, &[SPACE]);
        add(&mut line, &digits_of(&self.secret));
        line
    }
}
