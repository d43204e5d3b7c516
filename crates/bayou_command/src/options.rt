//! Options of commands, and what they give.
ghost use Rattle.std.specs.Prelude.{◌≡◌, ◌≤◌, IfOk, IfSome, false, map, option_map};
ghost use Rattle.clap.specs.Words.{found_of, rows_of, rule_of};
ghost use Rattle.bayou_command.specs.Options.{file_option_rule, flag_of, flag_rule, given_of, number_of, number_given, number_rule, option_rule, text_of, texts_of};

use clap::builder::ValueParser;
use clap::{Arg, ArgAction, ArgMatches};
use std::alloc::{AllocError, Global};

/// An option with a value, which the usage calls `value`.
pub(crate) fn value_option<'a>(
    alloc: Global,
    name: &'a str,
    value: &'a str,
    help: &'a str,
) -> Arg<'a>
    ensures rule { rule_of result ≡ option_rule name.entry.now }
    ensures local { result.global ≡ false }
{
    Arg::new(alloc, name)
        .long(name)
        .value_name(value)
        .help(help)
}

/// An option whose value is a number from `least` to `most`.
pub(crate) fn number_option<'a>(
    alloc: Global,
    name: &'a str,
    value: &'a str,
    help: &'a str,
    least: u32,
    most: u32,
) -> Arg<'a>
    ensures rule { rule_of result ≡ number_rule name.entry.now least most }
    ensures local { result.global ≡ false }
{
    let range = ValueParser::Signed(i64::from(least), i64::from(most));
    value_option(alloc, name, value, help).value_parser(range)
}

pub(crate) fn flag<'a>(alloc: Global, name: &'a str, help: &'a str) -> Arg<'a>
    ensures rule { rule_of result ≡ flag_rule name.entry.now }
    ensures local { result.global ≡ false }
{
    Arg::new(alloc, name)
        .long(name)
        .action(ArgAction::SetTrue)
        .help(help)
}

/// An option that names a file or a folder, which the usage calls `value`: its name has a byte.
pub(crate) fn named_option<'a>(
    alloc: Global,
    name: &'a str,
    value: &'a str,
    help: &'a str,
) -> Arg<'a>
    ensures rule { rule_of result ≡ file_option_rule name.entry.now }
    ensures local { result.global ≡ false }
{
    value_option(alloc, name, value, help).value_parser(ValueParser::NonEmptyString)
}

/// An option that names a file.
pub(crate) fn file_option<'a>(alloc: Global, name: &'a str, help: &'a str) -> Arg<'a>
    ensures rule { rule_of result ≡ file_option_rule name.entry.now }
    ensures local { result.global ≡ false }
{
    named_option(alloc, name, "FILE", help)
}

/// The number that an option gives, if it is there. No command is entered with one out of its range.
pub(crate) fn number_if_given(found: &ArgMatches, name: &str, least: u32, most: u32) -> Option<u32>
    ensures value { result ≡ number_given name.now least most (rows_of (found_of found.now)) }
    ensures within { IfSome result (λ number. (least ≤ number) × (number ≤ most)) }
{
    match found.get_one::<u32>(name) {
        Some(number) if least <= number && number <= most => Some(number),
        _ => None,
    }
}

/// The number that an option gives, or `other` where it isn't there.
pub(crate) fn number_in(found: &ArgMatches, name: &str, least: u32, most: u32, other: u32) -> u32
    requires { (least ≤ other) × (other ≤ most) }
    ensures value { result ≡ number_of name.now least most other (rows_of (found_of found.now)) }
    ensures within { (least ≤ result) × (result ≤ most) }
{
    number_if_given(found, name, least, most).unwrap_or(other)
}

/// The text that an option gives. A command that must have it isn't entered without it.
pub(crate) fn text_in<'a>(found: &ArgMatches<'a>, name: &str) -> &'a str
    ensures { result.now ≡ text_of name.now (rows_of (found_of found.now)) }
{
    found.get_str(name).unwrap_or("")
}

/// The text that an option gives, if it is there.
pub(crate) fn text_if_given<'a>(found: &ArgMatches<'a>, name: &str) -> Option<&'a str>
    ensures { option_map (λ text. text.now) result ≡ given_of name.now (rows_of (found_of found.now)) }
{
    found.get_str(name)
}

/// Whether a flag is there.
pub(crate) fn flag_in(found: &ArgMatches, name: &str) -> bool
    ensures { result ≡ flag_of name.now (rows_of (found_of found.now)) }
{
    match found.get_str(name) {
        Some(text) => text == "true",
        None => false,
    }
}

/// The texts that an option gives, in the order of the words.
pub(crate) fn texts_in<'a>(
    alloc: Global,
    found: &ArgMatches<'a>,
    name: &str,
) -> Result<Vec<&'a str>, AllocError>
    ensures { IfOk result (λ texts. map (λ text. text.now) texts.items ≡ texts_of name.now (rows_of (found_of found.now))) }
{
    let mut texts = Vec::new(alloc);
    if let Some(given) = found.get_strs(name) {
        texts.extend_from_slice(given)?;
    }
    Ok(texts)
}
