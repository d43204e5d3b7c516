//! A line, done.
ghost use Rattle.std.specs.Prelude.{◌≡◌, ℕ, List, IfOk, IfSome, Ok, OnOk};
ghost use Rattle.std.specs.Str.{IsTrimAscii};
ghost use Rattle.bayou_connect.specs.Speaking.{AsksOnceMore, AsksToWait, DoesLine, DoesOther, DoesScriptLine, DoesShort, DoesSpoken, DoesWishLine, is_of_script, spoken_of, unread_line};
ghost use Rattle.bayou_connect.specs.declared.doing.LineBecame.TheVariants as became;
ghost use Rattle.bayou_person.specs.declared.wish.WishFault.{WishFault as NoWish};
ghost use Rattle.bayou_streams.specs.Account.{account};

use crate::desk::{OWN, PersonDesk, print};
use crate::fault::ConnectFault;
use crate::finals::{WAIT_SECONDS, telling_all};
use crate::help::HELP;
use bayou_net::Sockets;
use bayou_person::{WishFault, wish_in};
use bayou_script::ScriptFault;
use bayou_streams::Output;
use bayou_text::{Line, LineFault, read_line};
use std::fs::{File, Files};
use std::io::Write;
use std::str;
use std::sync::Wait;
use std::time::Clock;
use thiserror::Error;

/// What is wrong with a line.
#[derive(Clone, Copy, Debug, PartialEq, Eq, Error)]
pub enum Wrong {
    /// As a line of a script.
    #[error("{0}")]
    Script(ScriptFault),
    /// As a short line.
    #[error("{0}")]
    Wish(WishFault),
}

/// What became of a line.
#[derive(Clone, Copy, Debug, PartialEq, Eq)]
pub(crate) enum LineBecame {
    /// It was done.
    Done,
    /// It can't be done.
    Wrong(Wrong),
    /// It was that no more are to be done.
    Quit,
    /// There was none: the input has ended.
    Ended,
}

/// A line that is said of the lines themselves.
#[derive(Clone, Copy, Debug, PartialEq, Eq)]
pub(crate) enum SpokenLine {
    /// To ask the last Write again.
    Again,
    /// To learn what lines there are.
    Help,
    /// To learn how own Writes stand.
    Mine,
    /// To wait until own Writes are final.
    Wait,
    /// To end.
    Quit,
}

// What a line of a script that wasn't read is reported as.
fn wrong_of(fault: LineFault) -> Result<Wrong, ConnectFault>
    ensures { result ≡ unread_line fault }
{
    Ok(Wrong::Script(match fault {
        LineFault::OutOfMemory => return Err(ConnectFault::Memory),
        LineFault::NotJson => ScriptFault::NotJson,
        LineFault::BadShape(_) => ScriptFault::BadShape,
        LineFault::Key(_) => ScriptFault::BadKey,
        LineFault::Program(_) => ScriptFault::BadProgram,
    }))
}

// Does a line of a script, and tells what became of it.
fn do_script_line<W: Write, T: Files<File = File> + Sockets + Wait + Clock>(
    rt: &T,
    desk: &mut PersonDesk,
    output: &mut Output<W>,
    line: &[u8],
) -> Result<LineBecame, ConnectFault>
    ensures { IfOk result (DoesScriptLine line.now desk.old desk.new (account W.contents output.old) (account W.contents output.new)) }
{
    let command = match read_line(desk.alloc, line) {
        Ok(Line::Command(command)) => command,
        Ok(_) => return Ok(LineBecame::Wrong(Wrong::Script(ScriptFault::OutOfPlace))),
        Err(fault) => return Ok(LineBecame::Wrong(wrong_of(fault)?)),
    };
    if desk.command(rt, output, command)? {
        return Ok(LineBecame::Done);
    }
    Ok(LineBecame::Wrong(Wrong::Script(ScriptFault::OutOfPlace)))
}

// For how many seconds a line asks to wait, if it says that in digits after the word.
fn seconds_in(line: &[u8]) -> Option<u32>
    ensures { IfSome result (AsksToWait line.now) }
{
    let text = str::from_utf8(line).ok()?;
    let (first, seconds) = text.split_once(' ')?;
    if first != "wait" || !seconds.as_bytes().iter().all(|byte| byte.is_ascii_digit()) {
        return None;
    }
    seconds.parse::<u32>().ok()
}

// The line that a person says of the lines themselves, if it is one.
fn spoken_in(line: &[u8]) -> Option<SpokenLine>
    ensures { result ≡ spoken_of line.now }
{
    match line {
        b"again" => Some(SpokenLine::Again),
        b"help" => Some(SpokenLine::Help),
        b"quit" => Some(SpokenLine::Quit),
        b"mine" => Some(SpokenLine::Mine),
        b"wait" => Some(SpokenLine::Wait),
        _ => None,
    }
}

// Does a line that is a wish, and tells what became of it.
fn do_wish<W: Write, T: Files<File = File> + Sockets + Wait + Clock>(
    rt: &T,
    desk: &mut PersonDesk,
    output: &mut Output<W>,
    line: &[u8],
) -> Result<LineBecame, ConnectFault>
    ensures wrong { (fault : NoWish) → result ≡ Ok (LineBecame.Wrong (Wrong.Wish fault)) → (desk.new ≡ desk.old) × (output.new ≡ output.old) }
    ensures does { IfOk result (DoesWishLine line.now desk.old desk.new (account W.contents output.old) (account W.contents output.new)) }
{
    let Ok(text) = str::from_utf8(line) else {
        return Ok(LineBecame::Wrong(Wrong::Wish(WishFault::Word)));
    };
    match wish_in(desk.alloc, text) {
        Ok(wish) => {
            if desk.wish(rt, output, wish)? {
                return Ok(LineBecame::Done);
            }
            Ok(LineBecame::Wrong(Wrong::Script(ScriptFault::OutOfPlace)))
        }
        Err(WishFault::OutOfMemory) => Err(ConnectFault::Memory),
        Err(fault) => Ok(LineBecame::Wrong(Wrong::Wish(fault))),
    }
}

// Asks the last Write again, and tells what became of it, where it was accepted.
fn do_again<W: Write, T: Files<File = File> + Sockets + Wait + Clock>(
    rt: &T,
    desk: &mut PersonDesk,
    output: &mut Output<W>,
) -> Result<(), ConnectFault>
    ensures { OnOk result (AsksOnceMore desk.old desk.new (account W.contents output.old) (account W.contents output.new)) }
{
    let made = desk.write_again(rt, output, OWN)?;
    match made {
        None => Ok(()),
        Some(made) => {
            desk.tell_outcome(rt, output, OWN, made)?;
            Ok(())
        }
    }
}

// Does a line that is no word that is said of the lines themselves: it waits, or does a wish.
fn do_other<W: Write, T: Files<File = File> + Sockets + Wait + Clock>(
    rt: &T,
    desk: &mut PersonDesk,
    output: &mut Output<W>,
    line: &[u8],
) -> Result<LineBecame, ConnectFault>
    ensures { IfOk result (DoesOther line.now desk.old desk.new (account W.contents output.old) (account W.contents output.new)) }
{
    match seconds_in(line) {
        None => do_wish(rt, desk, output, line),
        Some(seconds) => {
            desk.wait_for_finals(rt, output, seconds)?;
            Ok(LineBecame::Done)
        }
    }
}

// Does a short line, and tells what became of it.
fn do_short_line<W: Write, T: Files<File = File> + Sockets + Wait + Clock>(
    rt: &T,
    desk: &mut PersonDesk,
    output: &mut Output<W>,
    line: &[u8],
) -> Result<LineBecame, ConnectFault>
    ensures spoken { DoesSpoken (spoken_of line.now) result desk.old desk.new (account W.contents output.old) (account W.contents output.new) }
    ensures does { IfOk result (DoesShort line.now desk.old desk.new (account W.contents output.old) (account W.contents output.new)) }
{
    match spoken_in(line) {
        None => return do_other(rt, desk, output, line),
        Some(SpokenLine::Again) => do_again(rt, desk, output)?,
        Some(SpokenLine::Help) => print(output, HELP)?,
        Some(SpokenLine::Mine) => desk.tell_finals(rt, output, telling_all(desk.is_json))?,
        Some(SpokenLine::Wait) => desk.wait_for_finals(rt, output, WAIT_SECONDS)?,
        Some(SpokenLine::Quit) => return Ok(LineBecame::Quit),
    }
    Ok(LineBecame::Done)
}

// Whether the line begins as a script's does.
fn begins_as_script(words: &[u8]) -> bool
    ensures { result ≡ is_of_script words.now }
{
    match words {
        [b'[', ..] => true,
        _ => false,
    }
}

/// Does a line, and tells what became of it.
pub(crate) fn do_line<W: Write, T: Files<File = File> + Sockets + Wait + Clock>(
    rt: &T,
    desk: &mut PersonDesk,
    output: &mut Output<W>,
    line: &[u8],
) -> Result<LineBecame, ConnectFault>
    ensures { (words : List ℕ) × IsTrimAscii line.now words × DoesLine line.now words result desk.old desk.new (account W.contents output.old) (account W.contents output.new) }
{
    let words = line.trim_ascii();
    if words.is_empty() {
        return Ok(LineBecame::Done);
    }
    if begins_as_script(words) {
        return do_script_line(rt, desk, output, line);
    }
    do_short_line(rt, desk, output, words)
}
