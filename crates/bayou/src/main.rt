//! The program `bayou`: its real words and streams, and nothing else.
#![tactic(auto)]

ghost use Rattle.std.specs.Prelude.{◌≡◌, IfSome};
ghost use Rattle.std.specs.Thread.{IsSend};

mod more;
mod progress;

use bayou_connect::Input;
use bayou_errands::{
    run_connected, run_exported, run_imported, run_key, run_renewed, run_served, run_web,
    tell_device,
};
use bayou_shell::{Errand, Files, refuse_words, run_main, run_net};
use bayou_streams::{CountedChannel, Output};
use bayou_tasks::{run_checked, run_explained};
use more::{More, tell_more};
use progress::{Counted, Screen, tell_progress};
use std::alloc::Global;
use std::fs::{File, OpenOptions};
use std::io::{IsTerminal, Stderr, Stdin, Stdout, Write};
use std::net::{Net, TcpListener, TcpStream};
use std::process::ExitCode;
use std::random::RandomSource;
use std::sync::{Mutex, Wait};
use std::thread::Threads;
use std::time::{Clock, Duration};
use std::{array, env, fs, io, thread};

/// How many standard streams there are: input, output and errors.
const STREAMS: usize = 3;

/// Which gives nothing and takes all.
const NULL_DEVICE: &str = "/dev/null";

/// The files of this machine, of whose content nothing is known.
#[derive(Drop)]
struct NamedFiles<'a, T> {
    rt: &'a T,
    /// The file that was read.
    file: Option<CountedChannel<File, ()>>,
    /// What else is known of it.
    more: More,
}

impl<T: fs::Files<File = File>> Files for NamedFiles<'_, T> {
    type Reader = File;

    ghost opens = { λ name reader. Unit {0} };

    ghost refuses = { λ name. Unit {0} };

    fn open(&mut self, alloc: Global, name: &str) -> io::Result<File> {
        self.more.note(alloc, name);
        let opened = File::open(self.rt, name);
        match &opened {
            Ok(_) if is_folder(self.rt, name) => self.more.refuse(alloc, &"it is a folder"),
            Ok(_) => {}
            Err(error) => self.more.refuse(alloc, error),
        }
        opened
    }

    ghost kept = { λ files has_failed turns_left. IfSome files.file (λ file. (has_failed ≡ file.read_failed) × (turns_left ≡ file.turns_left)) };

    fn keep(&mut self, file: CountedChannel<File, ()>)
        ensures { IfSome self.new.file (λ kept. (file.read_failed ≡ kept.read_failed) × (file.turns_left ≡ kept.turns_left)) }
    {
        self.file = Some(file);
    }
}

// Whether it is a folder, which is opened and can't be read.
fn is_folder<T: fs::Files<File = File>>(rt: &T, name: &str) -> bool {
    match fs::metadata(rt, name) {
        Ok(found) => found.is_dir(),
        Err(_) => false,
    }
}

// Has descriptors 0, 1 and 2 in use from here on: what is opened takes the least that is free, and a file of a store that got one of them would
// have lines written into it. Where nothing is there the null device is. Those that it doesn't need are held too: which they are can't be seen.
fn hold_streams<T: fs::Files<File = File>>(rt: &T) -> [Option<File>; STREAMS] {
    let mut null = OpenOptions::new();
    null.read(true);
    null.write(true);
    array::from_fn(|_| null.open(rt, NULL_DEVICE).ok())
}

fn words_of(rt: &HostRuntime) -> io::Result<Vec<String>> {
    Ok(env::args(rt)?.collect(rt.alloc())?)
}

// The streams of the program, but the screen.
#[derive(Drop)]
struct Streams {
    input: Stdin,
    output: Stdout,
    errors: Stderr,
    /// Where a server that lives tells what becomes of it.
    told: Stderr,
}

// Does what the words say beside a screen, and gives the exit status.
fn run<
    'a,
    T: Threads
        + Wait
        + Clock
        + RandomSource
        + fs::Files<File = File>
        + Net<Stream = TcpStream, Listener = TcpListener>
        + Send
        + Sync,
>(
    rt: &'a T,
    alloc: Global,
    words: &[String],
    streams: Streams,
    screen: &'a Mutex<Screen<Stderr>>,
) -> u8 {
    let Streams {
        input,
        output,
        errors,
        told,
    } = streams;
    let mut files = NamedFiles {
        rt,
        file: None,
        more: More::new(),
    };
    let mut output = Output::new(Counted::new(output, rt, screen));
    let mut errors = Output::new(Counted::new(errors, rt, screen));
    let mut input = CountedChannel::new(input, ());
    let errand = run_main(
        alloc,
        words,
        &mut files,
        &mut input,
        &mut output,
        &mut errors,
    );
    match errand {
        Errand::Done(status) => {
            let is_refused = screen.lock(rt).is_refused() && told.is_terminal();
            tell_more(&files.more, words, status, is_refused, &mut errors);
            status
        }
        Errand::Net { folder, script } => {
            let mut told = Output::new(Counted::new(told, rt, screen));
            let servers = script.servers;
            let folder = folder.as_str();
            let status = run_net(
                rt,
                alloc,
                folder,
                script,
                &mut output,
                &mut errors,
                &mut told,
            );
            if screen.lock(rt).is_unbegun() {
                tell_device(rt, alloc, folder, servers, &mut errors);
            }
            status
        }
        Errand::Check(checkup) => {
            run_checked(rt, alloc, &checkup, &mut input, &mut output, &mut errors)
        }
        Errand::Explain(explaining) => run_explained(
            rt,
            alloc,
            &explaining,
            &mut input,
            &mut output,
            &mut errors,
        ),
        Errand::Serve(service) => {
            // A server that lives is at work for as long as it does, which is no news.
            screen.lock(rt).end();
            let (input, ()) = input.into_parts();
            run_served(rt, alloc, service, input, &mut output, told)
        }
        Errand::Key(wish) => run_key(rt, alloc, wish, &mut output, told),
        Errand::Renew(renewal) => run_renewed(rt, alloc, renewal, &mut output, told),
        Errand::Export(extract) => run_exported(rt, alloc, extract, &mut output, told),
        Errand::Import(intake) => {
            // An import tells itself how far it is.
            screen.lock(rt).end();
            let is_terminal = told.is_terminal();
            run_imported(rt, alloc, intake, is_terminal, &mut output, told)
        }
        Errand::Web(window) => {
            // So is a page, as long as it is served.
            screen.lock(rt).end();
            run_web(rt, alloc, window, &mut output, told)
        }
        Errand::Connect(call) => {
            // So is a person.
            screen.lock(rt).end();
            let (reader, ()) = input.into_parts();
            let is_terminal = reader.is_terminal();
            let input = Input {
                reader,
                is_terminal,
            };
            run_connected(rt, alloc, call, input, &mut output, told)
        }
    }
}

// The same, while progress is shown at the terminal. Where no thread begins, none is shown.
fn run_told<
    'a,
    T: Threads
        + Wait
        + Clock
        + RandomSource
        + fs::Files<File = File>
        + Net<Stream = TcpStream, Listener = TcpListener>
        + Send
        + Sync,
>(
    rt: &'a T,
    alloc: Global,
    words: &[String],
    streams: Streams,
    screen: &'a Mutex<Screen<Stderr>>,
) -> u8 {
    thread::scope(
        thread::scope_env(),
        rt,
        move |scope| -> u8
            requires { IsSend T.row }
        {
            let _ = scope.spawn(move || tell_progress(rt, alloc, screen));
            let status = run(rt, alloc, words, streams, screen);
            screen.lock(rt).end();
            status
        },
    )
}

fn main(rt: HostRuntime) -> ExitCode {
    let _streams = hold_streams(&rt);
    let words = match words_of(&rt) {
        Ok(words) => words,
        Err(error) => return ExitCode::from(refuse_words(&mut Output::new(rt.stderr()), &error)),
    };
    let streams = Streams {
        input: rt.stdin(),
        output: rt.stdout(),
        errors: rt.stderr(),
        told: rt.stderr(),
    };
    let now = rt.monotonic().unwrap_or(Duration::from_secs(0));
    let screen = Mutex::new(Screen::new(rt.stderr(), now));
    let status = if rt.stderr().is_terminal() {
        run_told(&rt, rt.alloc(), words.as_slice(), streams, &screen)
    } else {
        run(&rt, rt.alloc(), words.as_slice(), streams, &screen)
    };
    ExitCode::from(status)
}
