//! From a line to what is asked for in it.
ghost use Rattle.std.specs.Prelude.{◌≡◌, ◌≤◌, ◌∷◌, ◌++◌, [], All, ℕ, ℤ, IfOk, List, MatchResult, Some, codes, length, map, option_map, true};
ghost use Rattle.bayou_base.specs.declared.key.KeyFault.{KeyFault};
ghost use Rattle.bayou_base.specs.declared.limits.TheConstants.{MAX_ALTERNATIVES};
ghost use Rattle.bayou_base.specs.declared.server.ServerId.{ServerId};
ghost use Rattle.bayou_base.specs.Key.{key_fault};
ghost use Rattle.bayou_lang.specs.Ranges.{IsKey};
ghost use Rattle.bayou_person.specs.declared.wish.WishFault.TheVariants.{Key as BadKey, Number as BadNumber, Server as BadServer};
ghost use Rattle.bayou_person.specs.Inner.Values.{IsValueFault};
ghost use Rattle.bayou_person.specs.Wishes.{Faults, IsFaultOf, IsValueOf, Reads, ReadsServer, Says, Wishes, begins_quoted, text_of};
ghost use Rattle.serde_json.specs.Read.{read as json_of};
ghost use Rattle.serde_json.specs.View.{view};

use crate::name::name_in;
use crate::number::{looks_like_number, number_in};
use crate::wish::{ValueFault, Wish, WishFault};
use crate::words::{begins_quoted, words_in};
use arrayvec::ArrayVec;
use bayou_base::{Key, MAX_ALTERNATIVES, ServerId, Value};
use serde_json::Value as Json;
use std::alloc::{AllocError, Global};

fn key_in(word: &str) -> Result<Key, WishFault>
    ensures { MatchResult result (λ key. IsKey word.now × (key ≡ word.now)) (λ fault. (why : KeyFault) × (fault ≡ BadKey why) × (key_fault word.now ≡ Some why)) }
{
    match Key::new(word) {
        Ok(key) => Ok(key),
        Err(why) => Err(WishFault::Key(why)),
    }
}

// What JSON reads in the text, if it reads something.
fn json_in(alloc: Global, text: &str) -> Result<Option<Json>, AllocError>
    ensures { IfOk result (λ json. option_map view json ≡ json_of text.now) }
{
    match Json::from_str(alloc, text) {
        Ok(json) => Ok(Some(json)),
        Err(fault) if fault.is_memory() => Err(AllocError),
        Err(_) => Ok(None),
    }
}

// The text as a value, which begins with a double quote or doesn't look like a number.
fn text_in(word: &str, text: &str) -> Result<Value, WishFault>
    requires text { text_of word.now ≡ Some text.now }
    requires none { (number : ℤ) → ¬ (Reads word.now number) }
    ensures { MatchResult result (IsValueOf word.now) (IsValueFault word.now) }
{
    match Value::text(text) {
        Some(value) => Ok(value),
        None => Err(WishFault::Value(ValueFault::TooLong)),
    }
}

// The text that stands in double quotes, as a value.
fn quoted_in(alloc: Global, word: &str) -> Result<Value, WishFault>
    requires quoted { begins_quoted word.now ≡ true }
    requires none { (number : ℤ) → ¬ (Reads word.now number) }
    ensures { MatchResult result (IsValueOf word.now) (IsValueFault word.now) }
{
    let Some(json) = json_in(alloc, word)? else {
        return Err(WishFault::Value(ValueFault::Quoted));
    };
    let Some(text) = json.as_str() else {
        return Err(WishFault::Value(ValueFault::Quoted));
    };
    text_in(word, text)
}

fn value_in(alloc: Global, word: &str) -> Result<Value, WishFault>
    ensures { MatchResult result (IsValueOf word.now) (IsValueFault word.now) }
{
    if let Ok(number) = number_in(word) {
        return Ok(Value::Num(number));
    }
    if begins_quoted(word) {
        return quoted_in(alloc, word);
    }
    if looks_like_number(word) {
        return Err(WishFault::Value(ValueFault::Number));
    }
    text_in(word, word)
}

fn server_in(word: &str) -> Result<ServerId, WishFault>
    ensures { MatchResult result (λ server. ReadsServer word.now server) (λ fault. (fault ≡ BadServer) × ((server : ServerId) → ¬ (ReadsServer word.now server))) }
{
    let Ok(index) = word.parse::<u8>() else {
        return Err(WishFault::Server);
    };
    match ServerId::new(index) {
        Some(server) => Ok(server),
        None => Err(WishFault::Server),
    }
}

fn keys_in(words: &[&str]) -> Result<ArrayVec<Key, MAX_ALTERNATIVES>, WishFault>
    requires { length words.now ≤ MAX_ALTERNATIVES }
    ensures { MatchResult result
        (λ keys. (keys.items ≡ map (λ word. word.now) words.now) × All IsKey keys.items)
        (λ fault. (good : List (List ℕ)) × (key : List ℕ) × (after : List (List ℕ)) × (why : KeyFault) × (map (λ word. word.now) words.now ≡ good ++ key ∷ after)
        × All IsKey good × (key_fault key ≡ Some why) × (fault ≡ BadKey why)) }
{
    let mut keys = ArrayVec::new();
    for word in words {
        keys.push(key_in(word)?);
    }
    Ok(keys)
}

fn put_of(alloc: Global, key: &str, word: &str) -> Result<Wish, WishFault>
    ensures { MatchResult result (Says (codes "put" ∷ key.now ∷ word.now ∷ [])) (Faults (codes "put" ∷ key.now ∷ word.now ∷ [])) }
{
    let key = key_in(key)?;
    let value = value_in(alloc, word)?;
    Ok(Wish::Put { key, value })
}

fn put_in(alloc: Global, behind: &[&str]) -> Result<Wish, WishFault>
    ensures { MatchResult result (Says (codes "put" ∷ map (λ word. word.now) behind.now)) (Faults (codes "put" ∷ map (λ word. word.now) behind.now)) }
{
    match behind {
        [key, word] => put_of(alloc, key, word),
        _ => Err(WishFault::Count),
    }
}

fn add_of(key: &str, word: &str) -> Result<Wish, WishFault>
    ensures { MatchResult result (Says (codes "add" ∷ key.now ∷ word.now ∷ [])) (Faults (codes "add" ∷ key.now ∷ word.now ∷ [])) }
{
    let key = key_in(key)?;
    let number = number_in(word)?;
    Ok(Wish::Add { key, number })
}

fn add_in(behind: &[&str]) -> Result<Wish, WishFault>
    ensures { MatchResult result (Says (codes "add" ∷ map (λ word. word.now) behind.now)) (Faults (codes "add" ∷ map (λ word. word.now) behind.now)) }
{
    match behind {
        [key, word] => add_of(key, word),
        _ => Err(WishFault::Count),
    }
}

fn del_of(key: &str) -> Result<Wish, WishFault>
    ensures { MatchResult result (Says (codes "del" ∷ key.now ∷ [])) (Faults (codes "del" ∷ key.now ∷ [])) }
{
    let key = key_in(key)?;
    Ok(Wish::Del { key })
}

fn del_in(behind: &[&str]) -> Result<Wish, WishFault>
    ensures { MatchResult result (Says (codes "del" ∷ map (λ word. word.now) behind.now)) (Faults (codes "del" ∷ map (λ word. word.now) behind.now)) }
{
    match behind {
        [key] => del_of(key),
        _ => Err(WishFault::Count),
    }
}

fn claim_of(alloc: Global, key: &str, others: &[&str], word: &str) -> Result<Wish, WishFault>
    requires { length others.now ≤ MAX_ALTERNATIVES }
    ensures { MatchResult result (Says (codes "claim" ∷ key.now ∷ map (λ word. word.now) others.now ++ word.now ∷ []))
        (Faults (codes "claim" ∷ key.now ∷ map (λ word. word.now) others.now ++ word.now ∷ [])) }
{
    let key = key_in(key)?;
    let others = keys_in(others)?;
    let value = value_in(alloc, word)?;
    Ok(Wish::Claim { key, others, value })
}

fn claim_in(alloc: Global, behind: &[&str]) -> Result<Wish, WishFault>
    ensures { MatchResult result (Says (codes "claim" ∷ map (λ word. word.now) behind.now)) (Faults (codes "claim" ∷ map (λ word. word.now) behind.now)) }
{
    match behind {
        [key, others @ .., word] if others.len() <= MAX_ALTERNATIVES => {
            claim_of(alloc, key, others, word)
        }
        _ => Err(WishFault::Count),
    }
}

fn get_of(key: &str, others: &[&str]) -> Result<Wish, WishFault>
    requires { length others.now ≤ MAX_ALTERNATIVES }
    ensures { MatchResult result (Says (codes "get" ∷ key.now ∷ map (λ word. word.now) others.now))
        (Faults (codes "get" ∷ key.now ∷ map (λ word. word.now) others.now)) }
{
    let key = key_in(key)?;
    let others = keys_in(others)?;
    Ok(Wish::Get { key, others })
}

fn get_in(behind: &[&str]) -> Result<Wish, WishFault>
    ensures { MatchResult result (Says (codes "get" ∷ map (λ word. word.now) behind.now)) (Faults (codes "get" ∷ map (λ word. word.now) behind.now)) }
{
    match behind {
        [key, others @ ..] if others.len() <= MAX_ALTERNATIVES => get_of(key, others),
        _ => Err(WishFault::Count),
    }
}

fn at_of(word: &str) -> Result<Wish, WishFault>
    ensures { MatchResult result (Says (codes "at" ∷ word.now ∷ [])) (Faults (codes "at" ∷ word.now ∷ [])) }
{
    Ok(Wish::At(server_in(word)?))
}

fn at_in(behind: &[&str]) -> Result<Wish, WishFault>
    ensures { MatchResult result (Says (codes "at" ∷ map (λ word. word.now) behind.now)) (Faults (codes "at" ∷ map (λ word. word.now) behind.now)) }
{
    match behind {
        [word] => at_of(word),
        _ => Err(WishFault::Count),
    }
}

fn rows_of(prefix: &str) -> Result<Wish, WishFault>
    ensures { MatchResult result (Says (codes "list" ∷ prefix.now ∷ [])) (Faults (codes "list" ∷ prefix.now ∷ [])) }
{
    let prefix = key_in(prefix)?;
    Ok(Wish::Rows { prefix })
}

fn list_in(behind: &[&str]) -> Result<Wish, WishFault>
    ensures { MatchResult result (Says (codes "list" ∷ map (λ word. word.now) behind.now)) (Faults (codes "list" ∷ map (λ word. word.now) behind.now)) }
{
    match behind {
        [] => Ok(Wish::List),
        [prefix] => rows_of(prefix),
        _ => Err(WishFault::Count),
    }
}

fn became_of(word: &str) -> Result<Wish, WishFault>
    ensures { MatchResult result (Says (codes "became" ∷ word.now ∷ [])) (Faults (codes "became" ∷ word.now ∷ [])) }
{
    Ok(Wish::Became(name_in(word)?))
}

fn became_in(behind: &[&str]) -> Result<Wish, WishFault>
    ensures { MatchResult result (Says (codes "became" ∷ map (λ word. word.now) behind.now)) (Faults (codes "became" ∷ map (λ word. word.now) behind.now)) }
{
    match behind {
        [word] => became_of(word),
        _ => Err(WishFault::Count),
    }
}

fn servers_in(behind: &[&str]) -> Result<Wish, WishFault>
    ensures { MatchResult result (Says (codes "servers" ∷ map (λ word. word.now) behind.now)) (Faults (codes "servers" ∷ map (λ word. word.now) behind.now)) }
{
    if behind.is_empty() {
        Ok(Wish::Servers)
    } else {
        Err(WishFault::Count)
    }
}

fn session_in(behind: &[&str]) -> Result<Wish, WishFault>
    ensures { MatchResult result (Says (codes "session" ∷ map (λ word. word.now) behind.now)) (Faults (codes "session" ∷ map (λ word. word.now) behind.now)) }
{
    if behind.is_empty() {
        Ok(Wish::Session)
    } else {
        Err(WishFault::Count)
    }
}

fn dump_in(behind: &[&str]) -> Result<Wish, WishFault>
    ensures { MatchResult result (Says (codes "dump" ∷ map (λ word. word.now) behind.now)) (Faults (codes "dump" ∷ map (λ word. word.now) behind.now)) }
{
    if behind.is_empty() {
        Ok(Wish::Dump)
    } else {
        Err(WishFault::Count)
    }
}

fn wish_of(alloc: Global, words: &[&str]) -> Result<Wish, WishFault>
    ensures { MatchResult result (Says (map (λ word. word.now) words.now)) (Faults (map (λ word. word.now) words.now)) }
{
    let [first, behind @ ..] = words else {
        return Err(WishFault::Word);
    };
    match *first {
        "put" => put_in(alloc, behind),
        "add" => add_in(behind),
        "del" => del_in(behind),
        "claim" => claim_in(alloc, behind),
        "get" => get_in(behind),
        "at" => at_in(behind),
        "list" => list_in(behind),
        "became" => became_in(behind),
        "servers" => servers_in(behind),
        "session" => session_in(behind),
        "dump" => dump_in(behind),
        _ => Err(WishFault::Word),
    }
}

/// What is asked for in a line, which spaces part into words. From a double quote on it is one text, as JSON spells it.
pub fn wish_in(alloc: Global, text: &str) -> Result<Wish, WishFault>
    ensures { MatchResult result (Wishes text.now) (IsFaultOf text.now) }
{
    let words = words_in(alloc, text)?;
    wish_of(alloc, words.as_slice())
}
