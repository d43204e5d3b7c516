//! The words after `check`: its options, and what they ask for.
ghost use Rattle.std.specs.Prelude.{◌≡◌, IfOk, false};
ghost use Rattle.clap.specs.declared.builder.command.Command.TheViews.{out-Command as fields_of};
ghost use Rattle.clap.specs.Words.{app_of, found_of, rows_of};
ghost use Rattle.bayou_command.specs.Check.{check_app, check_of, check_seen};

use crate::checking::Checking;
use crate::options::{flag, flag_in};
use crate::source_in;
use clap::{Arg, ArgMatches, Command};
use std::alloc::{AllocError, Global};

const CHECK_ABOUT: &str =
    "Finds every fault of a script or an audit file, and says what was expected. Runs nothing.";

const CHECK_FILE: &str = "The script or the audit file; where it is -, the standard input";

const JSON: &str = "Print a JSON object a line instead, for programs";

const CHECK_FORM: &str =
    r#"`bayou run`, `net` and `audit` name the first line that is wrong, and its kind. This names all such lines, and of each

  where it is      FILE:LINE:COLUMN, and the member: its number in the line, from the word's 0 on, and the way within it
  found, expected  what stands there, and what may
  nearest, fix     a word that may be meant, and the line as it may be meant; such a line is one that is read
  see              the page that says more

      bayou check booking.jsonl
      bayou check --json booking.jsonl

  bayou: line 3: bad shape
    booking.jsonl:3:26  member 3, update[0][0]
    3 | ["write",0,0,{"update":[["set","a",1]]}]
      |                          ^^^^^
    found     "set"
    expected  "put" or "del" as the first member of an op
    nearest   "put"
    fix       ["write",0,0,{"update":[["put","a",1]]}]
    see       docs/LANGUAGE.md, "A program"
  booking.jsonl: script with 1 fault in 214 lines; bayou run refuses line 3

A file is an audit file if its first line with a word of its own is `entry` or `held`, else a script. The last line says which it is, and, where nothing
is wrong, what its lines say, counted. A line with a fault is as if it weren't there, but the servers and the session of which it speaks count as
started and open. The first 1001 lines with a fault are shown; all are counted.

With --json each line with a fault is an object, and so is the last line (docs/FORMATS.md, "What a check prints").

Exit status: 0 nothing is wrong; 2 the file, or the command line, is refused; 3 memory, the input or the output failed.

Pages: docs/TROUBLE.md (mistakes, and what to do), docs/FORMATS.md (lines in and out), docs/LANGUAGE.md (programs)."#;

pub(crate) fn check_command<'a>(alloc: Global) -> Result<Command<'a>, AllocError>
    ensures app { IfOk result (λ command. app_of command ≡ check_app) }
    ensures local { IfOk result (λ command. (fields_of command).has_globals ≡ false) }
{
    let file = Arg::new(alloc, "FILE").help(CHECK_FILE).required(true);
    Command::new(alloc, "check")
        .about(CHECK_ABOUT)
        .after_help(CHECK_FORM)
        .arg(flag(alloc, "json", JSON))?
        .arg(file)
}

/// What the options ask for.
pub(crate) fn checking_in<'a>(found: &ArgMatches<'a>) -> Checking<'a>
    ensures { check_seen result ≡ check_of (rows_of (found_of found.now)) }
{
    Checking {
        file: source_in(found),
        is_json: flag_in(found, "json"),
    }
}
