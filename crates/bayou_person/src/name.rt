//! How the names of Writes are spelled.
ghost use Rattle.std.specs.Prelude.{◌≡◌, ◌≢◌, ◌<◌, ◌^◌, ◌↔◌, ℕ, MatchOption, MatchResult, true, decimal};
ghost use Rattle.bayou_base.specs.declared.server.ServerId.{ServerId};
ghost use Rattle.bayou_base.specs.declared.wid.Wid.{Wid};
ghost use Rattle.bayou_person.specs.declared.wish.WishFault.TheVariants.{Name as BadName};
ghost use Rattle.bayou_person.specs.Wishes.{ReadsName};

use crate::wish::WishFault;
use bayou_base::{ServerId, Wid};
use itoa::Buffer;

/// What stands between the number of the server and the Write's own.
const COLON: char = ':';

// Whether the word is the one spelling of the number.
fn spells_count(word: &str, count: u32) -> bool
    ensures { result ≡ true ↔ word.now ≡ decimal count }
{
    let mut buffer = Buffer::new();
    buffer.format(count) == word
}

// The number from 0 on that the word is the one spelling of, if it is one.
fn count_in(word: &str) -> Option<u32>
    ensures { MatchOption result ((count : ℕ) → count < 2 ^ 32 → word.now ≢ decimal count) (λ count. word.now ≡ decimal count) }
{
    match word.parse::<u32>() {
        Ok(count) if spells_count(word, count) => Some(count),
        _ => None,
    }
}

// The server whose number the word is the one spelling of, if it is one.
fn origin_in(word: &str) -> Option<ServerId>
    ensures { MatchOption result ((server : ServerId) → word.now ≢ decimal server.index) (λ server. word.now ≡ decimal server.index) }
{
    let index = u8::try_from(count_in(word)?).ok()?;
    ServerId::new(index)
}

// The Write of the server whose own number the word is the one spelling of, if it is one.
fn write_in(origin: ServerId, word: &str) -> Option<Wid>
    ensures { MatchOption result ((wid : Wid) → word.now ≢ decimal wid.seq) (λ wid. (wid.origin ≡ origin) × (word.now ≡ decimal wid.seq)) }
{
    Wid::new(origin, count_in(word)?)
}

// The Write that the word is the name of, if it is one.
fn wid_in(word: &str) -> Option<Wid>
    ensures { MatchOption result ((wid : Wid) → ¬ (ReadsName word.now wid)) (ReadsName word.now) }
{
    let (origin, seq) = word.split_once(COLON)?;
    write_in(origin_in(origin)?, seq)
}

/// The Write that the word is the name of.
pub(crate) fn name_in(word: &str) -> Result<Wid, WishFault>
    ensures { MatchResult result (ReadsName word.now) (λ fault. (fault ≡ BadName) × ((wid : Wid) → ¬ (ReadsName word.now wid))) }
{
    wid_in(word).ok_or(WishFault::Name)
}
