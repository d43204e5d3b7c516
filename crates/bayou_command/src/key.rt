//! The words after `key`: its options.
ghost use Rattle.std.specs.Prelude.{◌≡◌, IfOk, false};
ghost use Rattle.clap.specs.declared.builder.command.Command.TheViews.{out-Command as fields_of};
ghost use Rattle.clap.specs.Words.{app_of};
ghost use Rattle.bayou_command.specs.Key.{key_app};

use crate::options::value_option;
use clap::builder::ValueParser;
use clap::{Arg, Command};
use std::alloc::{AllocError, Global};

const KEY_ABOUT: &str = "Makes the key of a store, in a file: who has that file is of the store.";

const NAME: &str = "The name of the store, 1 to 32 bytes of a-z 0-9 . _ - /";

const FILE: &str = "The file that is made; it must not exist";

const KEY_FORM: &str =
    r#"The file has one line: `bayou-key-1`, NAME, and 32 bytes that the system drew at random. Who runs the program can read it, and nobody else (its mode
is 0600). A file that is there is never written over.

Give it to each server of the store, and to each who is to ask them, over a way that nobody listens at:

      bayou key room.key --name room
      bayou serve --key room.key --id 0 --servers 1 --dir store --listen 127.0.0.1:7000 --new
      bayou connect --key room.key --server 0=127.0.0.1:7000

Who hasn't got the file can't ask such a server anything, and a server that hasn't got it is pulled from by none. It is no cipher: what goes over the
network can be read on its way, so between machines use a tunnel (docs/SERVE.md).

It prints one line, once the key is on the disk:

  key NAME in FILE

A fault is one line on standard error. Exit status: 0 it is made; 2 the command line is refused; 3 the file is there already, or can't
be made, or the system draws nothing."#;

pub(crate) fn key_command<'a>(alloc: Global) -> Result<Command<'a>, AllocError>
    ensures app { IfOk result (λ command. app_of command ≡ key_app) }
    ensures local { IfOk result (λ command. (fields_of command).has_globals ≡ false) }
{
    let name = value_option(alloc, "name", "NAME", NAME);
    let file = Arg::new(alloc, "FILE")
        .help(FILE)
        .value_parser(ValueParser::NonEmptyString)
        .required(true);
    Command::new(alloc, "key")
        .about(KEY_ABOUT)
        .after_help(KEY_FORM)
        .arg(name.required(true))?
        .arg(file)
}
