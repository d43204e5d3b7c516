//! Labels: of which store something is.
ghost use Rattle.std.specs.Prelude.{◌≡◌, ◌+◌, ◌≤◌, ◌++◌, ◌↔◌, ℕ, List, IfErr, IsSomeAnd, IsTrue, None, Ok, length};
ghost use Rattle.arrayvec.specs.ArrayVec.{array_vec_len};
ghost use Rattle.hex.specs.Hex.{encode_lower};
ghost use Rattle.sha2.specs.Sha256.{sha256};
ghost use Rattle.bayou_base.specs.Key.{key_fault};
ghost use Rattle.bayou_greeting.specs.declared.store_key.StoreKey.{StoreKey as Kept};
ghost use Rattle.bayou_greeting.specs.StoreKeys.{IsStoreKey, key_line};
ghost use Rattle.bayou_key_file.specs.declared.label.TheConstants.{LABEL_END_BYTES, MAX_LABEL_BYTES};
ghost use Rattle.bayou_key_file.specs.Labels.{IsLabelOf, TellsStore, label_start, label_text};

use crate::fault::{LabelFault, StoreName};
use crate::key_file::LINE_FEED;
use arrayvec::ArrayVec;
use bayou_base::{Key, MAX_KEY_BYTES};
use bayou_greeting::StoreKey;
use bayou_greeting::store_key::{SECRET_DIGITS, SPACE};
use hex::encode_to_slice;
use sha2::{Digest, Sha256};

/// How many bytes stand before the name in a label.
pub const LABEL_START_BYTES: usize = 14;

/// What a label begins with.
pub const LABEL_START: [u8; LABEL_START_BYTES] = *b"bayou-store-1 ";

/// How many bytes stand after the name in a label: a space, the digits and a line feed.
pub const LABEL_END_BYTES: usize = 1 + SECRET_DIGITS + 1;

/// How many bytes a label has at the most, with its line feed.
pub const MAX_LABEL_BYTES: usize = LABEL_START_BYTES + MAX_KEY_BYTES + LABEL_END_BYTES;

// The digits of the digest of the key's line.
fn digits_of(key: &StoreKey) -> [u8; SECRET_DIGITS]
    ensures { result ≡ encode_lower (sha256 (key_line key.now)) }
{
    let mut digits = [0; SECRET_DIGITS];
    let digest = Sha256::digest(key.line().as_slice());
    let Ok(()) = encode_to_slice(&digest, &mut digits) else {
        unreachable!();
    };
    digits
}

// Adds a piece for which there is room.
fn add(label: &mut ArrayVec<u8, MAX_LABEL_BYTES>, piece: &[u8])
    requires { array_vec_len label.old + length piece.now ≤ MAX_LABEL_BYTES }
    ensures items { label.new.items ≡ label.old.items ++ piece.now }
    ensures len { array_vec_len label.new ≡ array_vec_len label.old + length piece.now }
{
    let Ok(()) = label.try_extend_from_slice(piece) else {
        unreachable!();
    };
}

/// The label of what is of the key's store: one line, with its line feed.
pub fn label_of(key: &StoreKey) -> ArrayVec<u8, MAX_LABEL_BYTES>
    ensures { result.items ≡ label_text key.now }
{
    let mut label = ArrayVec::new();
    add(&mut label, &LABEL_START);
    add(&mut label, key.name.as_str().as_bytes());
    add(&mut label, &[SPACE]);
    add(&mut label, &digits_of(key));
    add(&mut label, &[LINE_FEED]);
    label
}

fn is_same(found: &[u8], wanted: &[u8]) -> bool
    ensures { IsTrue result ↔ (found.now ≡ wanted.now) }
{
    found == wanted
}

// What stands after the beginning of a label, where the text begins as one.
fn behind_start(text: &[u8]) -> Option<&[u8]>
    ensures { (behind : List ℕ) → text.now ≡ label_start ++ behind → IsSomeAnd result (λ found. found.now ≡ behind) }
{
    if text.len() < LABEL_START_BYTES {
        return None;
    }
    let (start, behind) = text.split_at(LABEL_START_BYTES);
    if is_same(start, LABEL_START.as_slice()) {
        Some(behind)
    } else {
        None
    }
}

// What stands where a label has its name.
fn name_part(text: &[u8]) -> Option<&[u8]>
    ensures { (name rest : List ℕ) → length rest ≡ LABEL_END_BYTES → text.now ≡ label_start ++ (name ++ rest) → IsSomeAnd result (λ part. part.now ≡ name) }
{
    let Some(behind) = behind_start(text) else {
        return None;
    };
    if behind.len() < LABEL_END_BYTES {
        return None;
    }
    let (name, _) = behind.split_at(behind.len() - LABEL_END_BYTES);
    Some(name)
}

// The name of a store that these bytes are, if they are one.
fn name_of(bytes: &[u8]) -> Option<StoreName>
    ensures { key_fault bytes.now ≡ None → IsSomeAnd result (λ name. name.bytes ≡ bytes.now) }
{
    let Ok(name) = str::from_utf8(bytes) else {
        return None;
    };
    let Ok(name) = Key::new(name) else {
        return None;
    };
    StoreName::from(name.as_str()).ok()
}

// The name that a label says, if it says one.
fn name_in(text: &[u8]) -> Option<StoreName>
    ensures { (name rest : List ℕ) → length rest ≡ LABEL_END_BYTES → key_fault name ≡ None → text.now ≡ label_start ++ (name ++ rest)
        → IsSomeAnd result (λ found. found.bytes ≡ name) }
{
    let Some(name) = name_part(text) else {
        return None;
    };
    name_of(name)
}

// Whether the text is the label of this key.
fn is_label_of(text: &[u8], key: &Option<StoreKey>) -> bool
    ensures { IsTrue result ↔ IsLabelOf text.now key.now }
{
    match key {
        None => false,
        Some(key) => is_same(text, label_of(key).as_slice()),
    }
}

/// That the text is the label of what is of this key's store. What is of another store is reported by that store's name.
pub fn judge_label(text: &[u8], key: &Option<StoreKey>) -> Result<(), LabelFault>
    ensures own { IsLabelOf text.now key.now → result ≡ Ok tt }
    ensures only { result ≡ Ok tt → IsLabelOf text.now key.now }
    ensures other { (kept : Kept) → IsStoreKey kept → text.now ≡ label_text kept → IfErr result (TellsStore kept) }
{
    if is_label_of(text, key) {
        return Ok(());
    }
    match name_in(text) {
        Some(name) => Err(LabelFault::OtherStore(name)),
        None => Err(LabelFault::NotALabel),
    }
}
