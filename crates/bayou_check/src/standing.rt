//! Where a line stands in its text: what the lines before it started and opened.
use crate::expected::Expected;
use crate::found::Found;
use crate::kind::TextKind;
use crate::told::{Mistake, Step};
use bayou_base::{Entry, MAX_ENTRIES, MAX_LINES, SERVERS, SESSIONS, ServerId, SessionId};
use bayou_script::ScriptFault;
use bayou_text::{Attempt, AuditLine, Command, Exchange, Line, Operation, Question, Trial};
use std::alloc::{AllocError, Global};

/// The servers that a line starts.
#[derive(Clone, Copy, Debug, PartialEq, Eq)]
struct Started {
    count: u8,
    line: u64,
    /// No line starts them: so many are presumed, since a line speaks of some.
    is_presumed: bool,
}

/// How many lines say what.
#[derive(Clone, Copy, Debug, Default, PartialEq, Eq)]
pub struct LineCounts {
    /// How many servers are started.
    pub servers: u8,
    pub sessions: u64,
    pub writes: u64,
    pub reads: u64,
    /// Pulls, and sendings of all that a server holds.
    pub pulls: u64,
    pub entries: u64,
    pub held: u64,
    pub others: u64,
}

/// What the lines said so far.
#[derive(Drop)]
pub(crate) struct LinesStanding {
    started: Option<Started>,
    /// The line that opened each session; 0 where none did.
    opened: [u64; SESSIONS],
    /// The first line that opens each session, wherever it stands; 0 where none does.
    opens: [u64; SESSIONS],
    pub counts: LineCounts,
}

/// A line that has no place: what was found, what is expected, and which member it is.
#[derive(Drop)]
struct Misplaced {
    path: [Option<usize>; 2],
    found: Found,
    expected: Expected,
}

fn at_member(member: usize, found: Found, expected: Expected) -> Option<Misplaced> {
    Some(Misplaced {
        path: [Some(member), None],
        found,
        expected,
    })
}

fn of_line(found: Found, expected: Expected) -> Option<Misplaced> {
    Some(Misplaced {
        path: [None, None],
        found,
        expected,
    })
}

impl LinesStanding {
    /// Nothing was said; the sessions are opened by these lines, where they are.
    pub(crate) fn new(opens: [u64; SESSIONS]) -> LinesStanding {
        LinesStanding {
            started: None,
            opened: [0; SESSIONS],
            opens,
            counts: LineCounts::default(),
        }
    }

    // A server that isn't there, as this member of a line.
    fn no_server(&self, started: Started, server: ServerId, member: usize) -> Option<Misplaced> {
        if server.index < started.count {
            return None;
        }
        let found = Found::NoServer {
            server: server.index,
            last: started.count.saturating_sub(1),
            line: started.line,
        };
        at_member(member, found, Expected::StartedServer)
    }

    // A session that isn't open.
    fn not_open(&self, session: SessionId) -> Option<Misplaced> {
        let who = usize::from(session.index);
        if self.opened[who] > 0 {
            return None;
        }
        let found = match self.opens[who] {
            0 => Found::NeverOpened(session.index),
            line => Found::OpenedLater {
                session: session.index,
                line,
            },
        };
        at_member(1, found, Expected::OpenSession(session.index))
    }

    fn opened_before(&self, session: SessionId) -> Option<Misplaced> {
        match self.opened[usize::from(session.index)] {
            0 => None,
            line => at_member(
                1,
                Found::OpenedBefore {
                    session: session.index,
                    line,
                },
                Expected::NewSession,
            ),
        }
    }

    fn misplaced_operation(&self, started: Started, operation: &Operation) -> Option<Misplaced> {
        let not_open = self.not_open(operation.session);
        if not_open.is_some() {
            return not_open;
        }
        match &operation.attempt {
            Attempt::Write { server, .. } | Attempt::Read { server, .. } => {
                self.no_server(started, *server, 2)
            }
            Attempt::Again => None,
        }
    }

    fn misplaced_exchange(&self, started: Started, exchange: &Exchange) -> Option<Misplaced> {
        let to = self.no_server(started, exchange.to, 1);
        if to.is_some() {
            return to;
        }
        let from = self.no_server(started, exchange.from, 2);
        if from.is_some() {
            return from;
        }
        if exchange.to.index == exchange.from.index {
            let found = Found::SameServer(exchange.to.index);
            return at_member(2, found, Expected::OtherServer);
        }
        None
    }

    fn misplaced_command(&self, started: Started, command: &Command) -> Option<Misplaced> {
        match command {
            Command::Session { session, .. } => self.opened_before(*session),
            Command::Operation(operation) => self.misplaced_operation(started, operation),
            Command::Drop(session) => self.not_open(*session),
            Command::Trial(Trial { server, .. }) => self.no_server(started, *server, 1),
            Command::Exchange(exchange) => self.misplaced_exchange(started, exchange),
            Command::Question(Question::Log(server)) => self.no_server(started, *server, 1),
            Command::Question(_) | Command::Phase => None,
        }
    }

    // A vector that hasn't one count for each server.
    fn miscounted(
        &self,
        started: Started,
        told: u8,
        path: [Option<usize>; 2],
    ) -> Option<Misplaced> {
        if told == started.count {
            return None;
        }
        Some(Misplaced {
            path,
            found: Found::Counts {
                told,
                count: started.count,
                line: started.line,
            },
            expected: Expected::Counts(started.count),
        })
    }

    fn misplaced_entry(
        &self,
        started: Started,
        entry: &Entry,
        counts: Option<u8>,
    ) -> Option<Misplaced> {
        let server = self.no_server(started, entry.server, 4);
        if server.is_some() {
            return server;
        }
        if let Some(told) = counts {
            let last = match entry.what {
                bayou_base::What::Read(_, _) => 7,
                _ => 8,
            };
            let vector = self.miscounted(started, told, [Some(last), None]);
            if vector.is_some() {
                return vector;
            }
        }
        if self.counts.entries >= MAX_ENTRIES as u64 {
            return of_line(Found::OneMore, Expected::FewEntries);
        }
        None
    }

    fn misplaced_told(&self, started: Started, told: &AuditLine) -> Option<Misplaced> {
        match told {
            AuditLine::Entry { entry, counts } => self.misplaced_entry(started, entry, *counts),
            AuditLine::Held {
                server,
                write,
                counts,
            } => {
                let place = self.no_server(started, *server, 1);
                if place.is_some() {
                    return place;
                }
                let origin = self.no_server(started, write.wid().origin, 2);
                if let Some(origin) = origin {
                    return Some(Misplaced {
                        path: [Some(2), Some(0)],
                        ..origin
                    });
                }
                self.miscounted(started, *counts, [Some(2), Some(3)])
            }
        }
    }

    // Why the line of this number has no place in a text of this kind, if it hasn't.
    fn misplaced(&self, kind: TextKind, number: u64, line: &Line) -> Option<Misplaced> {
        if kind == TextKind::Script && number > MAX_LINES {
            return of_line(Found::OneMore, Expected::FewLines);
        }
        let Some(started) = self.started else {
            return match line {
                Line::Servers { .. } => None,
                Line::Audit(_) if kind == TextKind::Script => {
                    of_line(Found::AuditLine, Expected::OnlyScript)
                }
                _ => of_line(Found::BeforeServers, Expected::ServersFirst),
            };
        };
        match (line, kind) {
            (Line::Servers { .. }, _) if started.is_presumed => None,
            (Line::Servers { .. }, _) => {
                of_line(Found::ServersAgain(started.line), Expected::ServersOnce)
            }
            (Line::Command(command), TextKind::Script) => self.misplaced_command(started, command),
            (Line::Audit(told), TextKind::Audit) => self.misplaced_told(started, told),
            (Line::Command(_), TextKind::Audit) => of_line(Found::ScriptLine, Expected::OnlyAudit),
            (Line::Audit(_), TextKind::Script) => of_line(Found::AuditLine, Expected::OnlyScript),
        }
    }

    /// Why the line of this number has no place in a text of this kind, as it is reported, if it hasn't.
    pub(crate) fn look(
        &self,
        alloc: Global,
        kind: TextKind,
        number: u64,
        line: &Line,
    ) -> Result<Option<Mistake>, AllocError> {
        let Some(misplaced) = self.misplaced(kind, number, line) else {
            return Ok(None);
        };
        let Misplaced {
            path,
            found,
            expected,
        } = misplaced;
        let mut mistake = Mistake::new(alloc, ScriptFault::OutOfPlace, found, expected);
        for step in path.into_iter().rev().flatten() {
            mistake.path.push(Step::At(step))?;
        }
        Ok(Some(mistake))
    }

    // Has so many servers started by this line.
    fn start(&mut self, number: u64, count: u8) {
        self.started = Some(Started {
            count,
            line: number,
            is_presumed: false,
        });
        self.counts.servers = count;
    }

    // Has the session opened by this line, where it isn't.
    fn open(&mut self, number: u64, session: SessionId) {
        let who = usize::from(session.index);
        if self.opened[who] == 0 {
            self.opened[who] = number;
        }
    }

    /// Goes on after a `servers` line with a fault: so many are started, where none were.
    pub(crate) fn presume_servers(&mut self, number: u64, count: u8) {
        if self.started.is_none() {
            self.start(number, count);
        }
    }

    /// Goes on after a `session` line with a fault: the session is open.
    pub(crate) fn presume_session(&mut self, number: u64, session: SessionId) {
        self.open(number, session);
    }

    /// Goes on after a line that has no place: where no servers were started as many as may be are presumed, until a line starts some.
    pub(crate) fn presume_start(&mut self, number: u64) {
        if self.started.is_none() {
            self.started = Some(Started {
                count: SERVERS as u8,
                line: number,
                is_presumed: true,
            });
        }
    }

    fn count_command(&mut self, command: &Command) {
        let counts = &mut self.counts;
        match command {
            Command::Session { .. } => counts.sessions = counts.sessions.saturating_add(1),
            Command::Operation(
                Operation {
                    attempt: Attempt::Read { .. },
                    ..
                },
            ) => counts.reads = counts.reads.saturating_add(1),
            Command::Operation(_) => counts.writes = counts.writes.saturating_add(1),
            Command::Exchange(_) => counts.pulls = counts.pulls.saturating_add(1),
            _ => counts.others = counts.others.saturating_add(1),
        }
    }

    /// Takes the line of this number, which has its place.
    pub(crate) fn take(&mut self, number: u64, line: &Line) {
        match line {
            Line::Servers { count, .. } => self.start(number, *count),
            Line::Command(command) => {
                if let Command::Session { session, .. } = command {
                    self.open(number, *session);
                }
                self.count_command(command);
            }
            Line::Audit(AuditLine::Entry { .. }) => {
                self.counts.entries = self.counts.entries.saturating_add(1);
            }
            Line::Audit(AuditLine::Held { .. }) => {
                self.counts.held = self.counts.held.saturating_add(1);
            }
        }
    }
}
