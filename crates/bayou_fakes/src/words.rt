//! Bytes, said in words.
use crate::items::{THREE, item};
use std::alloc::Global;

/// The tags of the first two places of the first session, in the first run; vectors that count nothing, the first server's first Write, and its
/// first two; the second of these without its last byte; what stands after a vector's first count, where no other server's Write is counted; the
/// program that puts 1 at `a`; and vectors of eight counts, as journals of earlier versions have them.
static WORDS: [(&str, &[&str]); 11] = [
    ("<tag-1>", &["000000000100000001"]),
    ("<tag-2>", &["000000000100000002"]),
    ("<none>", &["00000000", ZEROS, ZEROS, ZEROS]),
    ("<one>", &["00000001", ZEROS, ZEROS, ZEROS]),
    ("<two>", &["00000002", ZEROS, ZEROS, ZEROS]),
    (
        "<one-cut>",
        &[
            "00000001",
            ZEROS,
            ZEROS,
            "00000000000000000000000000000000000000",
        ],
    ),
    ("<zeros>", &[ZEROS, ZEROS, ZEROS]),
    ("<put-1>", &["00010101610101000000000000000100"]),
    ("<old-none>", &["000000000000000000000000", ZEROS]),
    ("<old-one>", &["000000010000000000000000", ZEROS]),
    ("<old-two>", &["000000020000000000000000", ZEROS]),
];

/// Five counts of 0.
const ZEROS: &str = "0000000000000000000000000000000000000000";

/// The Items of the first server's first three Writes.
static ITEMS: [&str; 3] = ["<item-1>", "<item-2>", "<item-3>"];

/// The bytes that these say in hexadecimal, one after the other.
fn said_bytes(alloc: Global, said: &[&str]) -> Option<Vec<u8>> {
    let mut bytes = Vec::new(alloc);
    for part in said {
        let behind = hex::decode(alloc, part).ok()?;
        bytes.extend_from_slice(&behind).ok()?;
    }
    Some(bytes)
}

/// The bytes of the Item that the word names.
fn item_bytes(alloc: Global, word: &str) -> Option<Vec<u8>> {
    for (at, name) in ITEMS.iter().enumerate() {
        if *name == word {
            return item(*THREE.get(at)?).to_vec(alloc).ok();
        }
    }
    None
}

/// The bytes of a word: those of what it names, or those that it says in hexadecimal.
fn word_bytes(alloc: Global, word: &str) -> Option<Vec<u8>> {
    if word.starts_with("<item") {
        return item_bytes(alloc, word);
    }
    match WORDS.iter().find(|(name, _)| *name == word) {
        Some((_, said)) => said_bytes(alloc, said),
        None => hex::decode(alloc, word).ok(),
    }
}

/// The bytes of the words, one after the other.
pub fn bytes_of(alloc: Global, text: &str) -> Option<Vec<u8>> {
    let mut bytes = Vec::new(alloc);
    for word in text.split_whitespace() {
        let behind = word_bytes(alloc, word)?;
        bytes.extend_from_slice(&behind).ok()?;
    }
    Some(bytes)
}

/// Whether the text says these bytes.
pub fn is_said(alloc: Global, text: &str, bytes: &[u8]) -> bool {
    match bytes_of(alloc, text) {
        Some(said) => said.as_slice() == bytes,
        None => false,
    }
}
