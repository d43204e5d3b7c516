//! What is seen, as servers tell it.

use bayou_connect::{ConnectFault, LinesEnded, OpenDesk, SeenRow, SeenRows};
use bayou_net::Sockets;
use bayou_session::Session;
use bayou_streams::Output;
use bayou_web_serve::SiteHall;
use bayou_web_state::{LineDone, OwnTold, Row, SeenSession, StoreSeen, done_text};
use std::alloc::{AllocError, Global};
use std::fs::{File, Files};
use std::str;
use std::sync::Wait;
use std::time::Clock;

/// The status where some operation wasn't served.
const UNSERVED: u8 = 1;

/// The status of a line that can't be done.
const REFUSED: u8 = 2;

/// What threads share, and the desk.
#[derive(Drop)]
pub(crate) struct Looking<'a, T> {
    pub(crate) rt: &'a T,
    pub(crate) alloc: Global,
    pub(crate) hall: &'a SiteHall,
    pub(crate) desk: OpenDesk,
}

fn status_of(ended: LinesEnded) -> u8 {
    match ended {
        LinesEnded::Served => 0,
        LinesEnded::Unserved => UNSERVED,
        LinesEnded::Refused => REFUSED,
    }
}

// The rows, as they are shown.
fn shown_rows(alloc: Global, rows: Vec<SeenRow>) -> Result<Vec<Row>, AllocError> {
    let mut shown = Vec::with_capacity(alloc, rows.len())?;
    for row in rows {
        let SeenRow {
            key,
            value,
            standing,
        } = row;
        shown.push(Row {
            key,
            value,
            standing,
        })?;
    }
    Ok(shown)
}

fn shown_session(session: &Session) -> SeenSession {
    let past = session.past();
    SeenSession {
        asks: session.asks(),
        reads: past.reads,
        writes: past.writes,
    }
}

// Each line of a text is a notice.
fn note_each(alloc: Global, seen: &mut StoreSeen, text: &[u8]) -> Result<(), AllocError> {
    let text = str::from_utf8(text).unwrap_or("");
    for line in text.lines() {
        seen.note(alloc, line)?;
    }
    Ok(())
}

impl<T: Files<File = File> + Sockets + Wait + Clock> Looking<'_, T> {
    // The session, as it is now, and the own Writes; the last of them was made by the line, if one is there.
    fn show_own(&self, seen: &mut StoreSeen, line: Option<&str>) -> Result<(), AllocError> {
        let mut own = Vec::with_capacity(self.alloc, self.desk.own().len())?;
        for write in self.desk.own() {
            own.push(OwnTold {
                wid: write.wid,
                told: write.told,
            })?;
        }
        seen.own_now(self.alloc, &own, line)?;
        seen.session_now(self.desk.session().map(|session| shown_session(&session)));
        Ok(())
    }

    // The servers, as they were asked last.
    fn show_servers(&self, seen: &mut StoreSeen) -> Result<(), AllocError> {
        let views = self.desk.views();
        let mut at: usize = 0;
        for server in self.desk.servers()? {
            let view = match views.get(at) {
                Some(view) => *view,
                None => None,
            };
            seen.server_now(server.place.id, server.place.address, view, server.limit)?;
            at = at.saturating_add(1);
        }
        Ok(())
    }

    // The rows that came, if any did.
    fn show_rows(&self, seen: &mut StoreSeen, rows: Option<SeenRows>) -> Result<(), AllocError> {
        let Some(told) = rows else {
            seen.rows_untold();
            return Ok(());
        };
        let rows = shown_rows(self.alloc, told.rows)?;
        seen.rows_now(rows, told.server, told.vector);
        Ok(())
    }

    /// Asks servers what they hold, and shows that: all rows where something changed, or where they didn't come last time.
    pub(crate) fn look(&mut self) -> Result<(), ConnectFault> {
        let (mut news, mut told) = (Vec::new(self.alloc), Vec::new(self.alloc));
        let is_new = self.desk.look(self.rt, &mut Output::new(&mut news))?;
        self.desk.tell_strangers(&mut told)?;
        if !is_new && told.is_empty() && self.hall.shown.lock(self.rt).is_current() {
            return Ok(());
        }
        let rows = self.desk.rows(self.rt)?;
        let mut shown = self.hall.shown.lock(self.rt);
        let seen = shown.changed();
        note_each(self.alloc, seen, &told)?;
        note_each(self.alloc, seen, &news)?;
        self.show_own(seen, None)?;
        self.show_servers(seen)?;
        Ok(self.show_rows(seen, rows)?)
    }

    // What is seen after a line: what it made is its own.
    fn show_done(&self, line: &str) -> Result<(), AllocError> {
        let mut shown = self.hall.shown.lock(self.rt);
        let seen = shown.changed();
        self.show_own(seen, Some(line))
    }

    /// Does a line that was handed in, and tells what became of it.
    pub(crate) fn do_line(&mut self, line: &str) -> Result<Vec<u8>, ConnectFault> {
        let (mut printed, mut told) = (Vec::new(self.alloc), Vec::new(self.alloc));
        let mut output = Output::new(&mut printed);
        let ended = self
            .desk
            .do_line(self.rt, line.as_bytes(), &mut output, &mut told)?;
        drop(output);
        self.show_done(line)?;
        let status = status_of(ended);
        let done = LineDone {
            printed: &printed,
            told: &told,
            status,
        };
        Ok(done_text(self.alloc, &done)?)
    }
}
