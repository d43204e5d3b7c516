//! The words of a line.
ghost use Rattle.std.specs.Prelude.{◌≡◌, ◌==◌, IfOk, map};
ghost use Rattle.std.specs.List.{position};
ghost use Rattle.bayou_person.specs.Wishes.{begins_quoted, spaced, words_of};

use std::alloc::{AllocError, Global};

/// What a text begins with that is spelled as JSON has it.
const QUOTE: u8 = b'"';

// What stands between the spaces of a text.
fn spaced_words<'a>(alloc: Global, text: &'a str) -> Result<Vec<&'a str>, AllocError>
    ensures { IfOk result (λ words. map (λ word. word.now) words.items ≡ spaced text.now) }
{
    text.split(' ')
        .filter(|word| !word.is_empty())
        .collect(alloc)
}

/// Where the byte stands first, if it is there.
pub(crate) fn place_of(bytes: &[u8], byte: u8) -> Option<usize>
    ensures { result ≡ position (λ one. one == byte) bytes.now }
{
    bytes.iter().position(|one| *one == byte)
}

/// The words of a line, which spaces part; from a double quote on all is one word.
#[tactic(auto, using(crate::proofs::Places::none_at, crate::proofs::Places::some_at))]
pub(crate) fn words_in<'a>(alloc: Global, text: &'a str) -> Result<Vec<&'a str>, AllocError>
    ensures { IfOk result (λ words. map (λ word. word.now) words.items ≡ words_of text.now) }
{
    let Some(at) = place_of(text.as_bytes(), QUOTE) else {
        return spaced_words(alloc, text);
    };
    let (before, quoted) = text.split_at(at);
    let mut words = spaced_words(alloc, before)?;
    words.push(quoted)?;
    Ok(words)
}

/// Whether the word begins with a double quote.
pub(crate) fn begins_quoted(word: &str) -> bool
    ensures { result ≡ begins_quoted word.now }
{
    matches!(word.as_bytes(), [QUOTE, ..])
}
