//! The words after `web`: its options, and what they ask for.
ghost use Rattle.std.specs.Prelude.{◌≡◌, IfOk, false};
ghost use Rattle.clap.specs.declared.builder.command.Command.TheViews.{out-Command as fields_of};
ghost use Rattle.clap.specs.Words.{app_of, found_of, rows_of};
ghost use Rattle.bayou_command.specs.Options.{with_rules};
ghost use Rattle.bayou_command.specs.Web.{listen_of, shown_rules, web_app, web_of, web_seen};

use crate::connect::{count_in, with_store};
use crate::options::{
    file_option, number_in, number_option, text_if_given, text_in, texts_in, value_option,
};
use crate::showing::Showing;
use bayou_base::limits::{DEFAULT_TIMEOUT_SECONDS, MAX_SECONDS};
use clap::{ArgMatches, Command};
use std::alloc::{AllocError, Global};

/// Where the page is served where the words don't say.
pub const LISTEN: &str = "127.0.0.1:8080";

const WEB_ABOUT: &str = "Shows a store on a page, in a browser of this machine, for one person.";

const STATE: &str = "The file that keeps the session; each person has a file of his own";

const NAME: &str =
    "As whom you claim a free place by a click (1 to 32 bytes); without it nothing is claimed by a click";

const ADDRESS: &str =
    "Where the page is served: a loopback address (without it 127.0.0.1:8080; with port 0 one that is free)";

const TIMEOUT: &str =
    "So many seconds a server has for the connection and its whole reply (1 to 86400; without it 3)";

const WEB_FORM: &str =
    r#"This is `bayou connect` with a page in place of a terminal. One line is printed, and the page is served until the call is killed:

  web at http://127.0.0.1:8080/#TOKEN

Open that address in a browser of this machine. The token after # is drawn anew by each call: whoever has it can do what you can, so don't send it on.

      bayou web --server 0=127.0.0.1:7000 --server 1=127.0.0.1:7001 --session all --state kim.state --name kim

The page shows keys of the form A/B/C as tables, a table for each A, and other keys as a list. A value is marked as final, or as tentative: then it may
change yet. A free place is claimed by a click, and an own one is given back. Beside that it shows your Writes that aren't final, the servers, the session,
and a line in which all that `bayou connect` takes may be typed (bayou connect --help).

Servers are asked once a second, as long as a page is open. If none answers, the page shows what was said last, and says so. --session, --servers, --key and
--state are those of `bayou connect`, and one call of either uses a state at a time.

A fault is one line on standard error. Exit status: 2 the command line is refused; 3 the address can't be listened at, or the state, memory or
the output failed.

Pages: docs/WEB.md (the page, and who may ask it), docs/CONNECT.md (lines), docs/FINAL.md (what is final), docs/TROUBLE.md (what to do about each fault)."#;

// The command with the options that say what is kept and where the page is.
fn with_shown<'a>(alloc: Global, command: Command<'a>) -> Result<Command<'a>, AllocError>
    ensures app { IfOk result (λ made. app_of made ≡ with_rules (app_of command.entry) shown_rules) }
    ensures local { IfOk result (λ made. (fields_of made).has_globals ≡ (fields_of command.entry).has_globals) }
{
    command
        .arg(file_option(alloc, "state", STATE).required(true))?
        .arg(value_option(alloc, "name", "NAME", NAME))?
        .arg(value_option(alloc, "listen", "ADDRESS:PORT", ADDRESS))?
        .arg(number_option(alloc, "timeout", "SECONDS", TIMEOUT, 1, MAX_SECONDS))
}

pub(crate) fn web_command<'a>(alloc: Global) -> Result<Command<'a>, AllocError>
    ensures app { IfOk result (λ command. app_of command ≡ web_app) }
    ensures local { IfOk result (λ command. (fields_of command).has_globals ≡ false) }
{
    let command = Command::new(alloc, "web")
        .about(WEB_ABOUT)
        .after_help(WEB_FORM);
    let command = with_store(alloc, command)?;
    with_shown(alloc, command)
}

// Where the page is served.
fn listen_in<'a>(found: &ArgMatches<'a>) -> &'a str
    ensures { result.now ≡ listen_of (rows_of (found_of found.now)) }
{
    match text_if_given(found, "listen") {
        Some(address) => address,
        None => LISTEN,
    }
}

/// What the options ask for.
pub(crate) fn showing_in<'a>(
    alloc: Global,
    found: &ArgMatches<'a>,
) -> Result<Showing<'a>, AllocError>
    ensures { IfOk result (λ showing. web_seen showing ≡ web_of (rows_of (found_of found.now))) }
{
    Ok(Showing {
        servers: texts_in(alloc, found, "server")?,
        count: count_in(found),
        asks: text_if_given(found, "session"),
        key: text_if_given(found, "key"),
        state: text_in(found, "state"),
        name: text_if_given(found, "name"),
        listen: listen_in(found),
        timeout_seconds: number_in(found, "timeout", 1, MAX_SECONDS, DEFAULT_TIMEOUT_SECONDS),
    })
}
