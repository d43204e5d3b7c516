//! Rows of a database, which a server tells page after page.
ghost use Rattle.std.specs.Prelude.{◌≡◌, ◌&&◌, [], ◌++◌, IfOk, MatchOption, None, Ok, OnOk, false, nat_eq, option_copied, string_bytes};
ghost use Rattle.std.specs.List.{starts_with};
ghost use Rattle.bayou_connect.specs.Desks.{IsSameDesk, IsSameSeat};
ghost use Rattle.bayou_connect.specs.Finals.{keeps_finals, outlook_of};
ghost use Rattle.bayou_connect.specs.Listing.{AreListed, Lists, PrintsList, do_follow, is_behind, last_key as key_last, lost_told, prefix_named, refused_told, row_told, rows_told, standing_told};
ghost use Rattle.bayou_streams.specs.Account.{TakesBytes, account};

use crate::anywhere::anywhere;
use crate::asking::Requested;
use crate::desk::{PersonDesk, print};
use crate::fault::ConnectFault;
use crate::looking::Beyond;
use crate::objects::{lost_object, refused_object, row_object, rows_object};
use crate::saying::told_line;
use crate::told::ServerTold;
use bayou_base::{Key, MAX_OPS, MAX_WRITES, Prefix, Refusal, SessionId, Value, Vector};
use bayou_final::Standing;
use bayou_net::Sockets;
use bayou_print::{Counts, LIST_LOST, row_line, rows_line, standing_row_line};
use bayou_streams::Output;
use bayou_wire::layout::ROWS_AT_ONCE;
use bayou_wire::{Page, RowsAsked};
use std::alloc::{AllocError, Global};
use std::fs::{File, Files};
use std::io::Write;
use std::sync::Wait;
use std::time::Clock;

/// How often a list is begun anew whose pages are of several databases.
const TIMES_ANEW: u32 = 2;

/// How many pages a list has at the most: each but the last is full, and each Write changes at most so many keys.
const MAX_PAGES: usize = MAX_WRITES as usize * MAX_OPS / ROWS_AT_ONCE + 1;

/// What servers listed of rows.
#[derive(Drop)]
pub(crate) struct ListedRows {
    pub(crate) each: Vec<(Key, Value)>,
    /// What the server held that told the last of them.
    pub(crate) vector: Vector,
    /// Whether some of them came of a server that held less.
    pub(crate) is_mixed: bool,
}

/// How a list goes on.
#[derive(Drop)]
enum Paged {
    /// All rows came.
    Whole,
    /// The next are of another database than those before.
    Changed,
    /// The next didn't come.
    Untold(ServerTold),
}

// Whether the key comes after that one, if there is one.
fn comes_behind(last: Option<&Key>, key: &Key) -> bool
    ensures { result ≡ is_behind (option_copied last.entry) key.now }
{
    match last {
        Some(last) => *last < *key,
        None => true,
    }
}

// Whether the key begins so.
fn begins(prefix: &Prefix, key: &Key) -> bool
    ensures { result ≡ starts_with nat_eq key.now prefix.now }
{
    let (key, prefix) = (key.as_str().as_bytes(), prefix.as_str().as_bytes());
    key.starts_with(prefix)
}

// Whether the key comes after that one, if there is one, and begins so.
fn is_next(prefix: &Prefix, last: Option<&Key>, key: &Key) -> bool
    ensures { result ≡ (is_behind (option_copied last.entry) key.now && starts_with nat_eq key.now prefix.now) }
{
    comes_behind(last, key) && begins(prefix, key)
}

// Whether the rows begin so, and come one after another after this key, if there is one.
fn follow(prefix: &Prefix, after: Option<&Key>, rows: &[(Key, Value)]) -> bool
    ensures { result ≡ do_follow prefix.now (option_copied after.entry) rows.now }
{
    let mut last = after;
    for row in rows {
        if !is_next(prefix, last, &row.0) {
            return false;
        }
        last = Some(&row.0);
    }
    true
}

// The rows that are asked for: those after this key, if there is one, of what holds this.
fn asked(prefix: &Prefix, need: Vector, after: Option<Key>) -> RowsAsked
    ensures { (result.need ≡ need) × (result.prefix ≡ prefix.now) × (result.after ≡ after) }
{
    RowsAsked {
        need,
        prefix: prefix.copy(),
        after,
        most: ROWS_AT_ONCE as u16,
    }
}

// Puts these rows after the others.
fn add_rows(each: &mut Vec<(Key, Value)>, rows: &[(Key, Value)]) -> Result<(), AllocError>
    ensures { OnOk result (each.new.items ≡ each.old.items ++ rows.now) }
{
    for row in rows {
        each.push((row.0.copy(), row.1.copy()))?;
    }
    Ok(())
}

impl ListedRows {
    // None came yet.
    fn none(alloc: Global) -> Self
        ensures { result.each.items ≡ [] }
    {
        ListedRows {
            each: Vec::new(alloc),
            vector: Vector::zero(),
            is_mixed: false,
        }
    }

    // The last key that came.
    fn last_key(&self) -> Option<Key>
        ensures { result ≡ key_last self.now.each.items }
    {
        match self.each.last() {
            Some(row) => Some(row.0.copy()),
            None => None,
        }
    }

    // Forgets what came, but for what is held.
    fn begin_anew(&mut self)
        ensures { (self.new.each.items ≡ []) × (self.new.vector ≡ self.old.vector) }
    {
        self.each.clear();
        self.is_mixed = false;
    }

    // Puts the rows of a page after the others, and tells whether more are left; or nothing where they don't follow those, or there was room for more:
    // then what came is none that was asked for.
    fn add(&mut self, prefix: &Prefix, page: Page) -> Result<Option<bool>, AllocError>
        ensures added { IfOk result (λ more. MatchOption more (self.new ≡ self.old)
            (λ more. (self.new.each.items ≡ self.old.each.items ++ page.rows.items) × (self.new.vector ≡ page.vector) × (more ≡ page.more))) }
        ensures listed { AreListed prefix.now self.old.each.items → IfOk result (λ more. AreListed prefix.now self.new.each.items) }
    {
        let rows = page.rows.as_slice();
        let last = self.last_key();
        if !follow(prefix, last.as_ref(), rows) || (rows.len() < ROWS_AT_ONCE && page.more) {
            return Ok(None);
        }
        add_rows(&mut self.each, rows)?;
        self.vector = page.vector;
        Ok(Some(page.more))
    }
}

// What is printed of a row, and of how its value stands, where that is kept: a line, or an object.
fn row_text(
    alloc: Global,
    is_json: bool,
    row: &(Key, Value),
    standing: Option<Standing>,
) -> Result<String, AllocError>
    ensures { IfOk result (λ text. string_bytes text ≡ row_told is_json standing row.now) }
{
    if is_json {
        return row_object(alloc, row, standing);
    }
    let value = Some(row.1.copy());
    match standing {
        None => row_line(alloc, &row.0, &value),
        Some(standing) => standing_row_line(alloc, &row.0, &value, standing),
    }
}

// What is printed of a list of which nothing, or not all, came: a line, or an object.
fn lost_text(is_json: bool) -> &'static str
    ensures { result.now ≡ lost_told is_json }
{
    if is_json { lost_object() } else { LIST_LOST }
}

impl PersonDesk {
    // Asks for the rows after those that came, of the server that sent them: up to the last, or to one of another database, unless they may be
    // mixed.
    fn list_on<T: Files<File = File> + Sockets + Wait + Clock>(
        &mut self,
        rt: &T,
        who: SessionId,
        prefix: &Prefix,
        first: Page,
        may_mix: bool,
        rows: &mut ListedRows,
    ) -> Result<Paged, ConnectFault>
        ensures same { IsSameSeat self.old self.new × (self.new.is_served ≡ self.old.is_served) }
        ensures listed { AreListed prefix.now rows.old.each.items → IfOk result (λ paged. AreListed prefix.now rows.new.each.items) }
    {
        let at = self.store.asked_last();
        let mut more = rows.add(prefix, first)?;
        for _ in 0..=MAX_PAGES {
            match more {
                None => return Ok(Paged::Untold(ServerTold::Lost)),
                Some(false) => return Ok(Paged::Whole),
                Some(true) => {}
            }
            let next = Requested::List(asked(prefix, rows.vector, rows.last_key()));
            let page = match self.store.ask_at(rt, who, at, next)? {
                ServerTold::Rows(page) => page,
                told => return Ok(Paged::Untold(told)),
            };
            if page.vector != rows.vector {
                if !may_mix {
                    return Ok(Paged::Changed);
                }
                rows.is_mixed = true;
            }
            more = rows.add(prefix, page)?;
        }
        Ok(Paged::Untold(ServerTold::Lost))
    }

    // The rows whose keys begin so, of one database, unless it is another again and again: then of several, each of which had what the session asks for;
    // or why they didn't come.
    pub(crate) fn rows_of<T: Files<File = File> + Sockets + Wait + Clock>(
        &mut self,
        rt: &T,
        who: SessionId,
        prefix: &Prefix,
    ) -> Result<Result<ListedRows, ServerTold>, ConnectFault>
        ensures same { IsSameSeat self.old self.new × (self.new.is_served ≡ self.old.is_served) }
        ensures listed { IfOk result (λ told. IfOk told (λ rows. AreListed prefix.now rows.each.items)) }
    {
        let mut rows = ListedRows::none(self.alloc);
        for time in 0..=TIMES_ANEW {
            rows.begin_anew();
            let attempt = Requested::List(asked(prefix, rows.vector, None));
            let told = anywhere(rt, &mut self.store, who, &attempt, self.first, self.rounds)?;
            let ServerTold::Rows(first) = told else {
                return Ok(Err(told));
            };
            match self.list_on(rt, who, prefix, first, time == TIMES_ANEW, &mut rows)? {
                Paged::Whole => return Ok(Ok(rows)),
                Paged::Changed => {}
                Paged::Untold(told) => return Ok(Err(told)),
            }
        }
        Ok(Err(ServerTold::Lost))
    }

    // Which keys may change yet where these rows came from, as far as that is known.
    pub(crate) fn beyond<T: Sockets + Clock>(
        &mut self,
        rt: &T,
        rows: &ListedRows,
    ) -> Result<Option<Beyond>, ConnectFault>
        ensures none { keeps_finals (outlook_of self.old.store.views) ≡ false → (result ≡ Ok None) × (self.new ≡ self.old) }
        ensures same { IsSameDesk self.old self.new × (self.new.is_served ≡ self.old.is_served) }
    {
        if rows.is_mixed || !self.store.keeps_finals() {
            return Ok(None);
        }
        self.store
            .beyond_at(rt, self.store.asked_last(), &rows.vector)
    }

    // Prints a row, and how its value stands, where that is known.
    fn print_row<W: Write>(
        &mut self,
        output: &mut Output<W>,
        row: &(Key, Value),
        beyond: &Option<Beyond>,
    ) -> Result<(), ConnectFault>
        ensures printed { OnOk result (TakesBytes (account W.contents output.old) (account W.contents output.new)
            (row_told self.old.is_json (standing_told (keeps_finals (outlook_of self.old.store.views)) beyond.now row.now.0) row.now)) }
        ensures same { self.new ≡ self.old }
    {
        let standing = self.standing(beyond, &row.0);
        let text = row_text(self.alloc, self.is_json, row, standing)?;
        print(output, text.as_str())
    }

    // What is printed of how many rows there are, and of what was held: a line, or an object.
    fn rows_text(
        &self,
        prefix: Option<&Key>,
        keys: usize,
        is_mixed: bool,
        vector: &Vector,
    ) -> Result<String, AllocError>
        ensures { IfOk result (λ text. string_bytes text ≡ rows_told self.now.is_json (option_copied prefix.entry) keys is_mixed self.now.servers vector.now) }
    {
        let servers = self.servers;
        if self.is_json {
            let counts = Counts { vector, servers };
            return rows_object(self.alloc, prefix, keys, is_mixed, counts);
        }
        rows_line(self.alloc, prefix, keys, is_mixed, servers, vector)
    }

    // What is printed of a list that was refused: a line, or an object.
    fn refused_text(&self, who: SessionId, refusal: Refusal) -> Result<String, AllocError>
        ensures { IfOk result (λ text. string_bytes text ≡ refused_told self.now.is_json self.now.servers who refusal) }
    {
        if self.is_json {
            return refused_object(self.alloc, self.servers, who, &refusal);
        }
        told_line(
            self.alloc,
            self.servers,
            who,
            &None,
            ServerTold::Refused(refusal),
        )
    }

    // Prints the rows, with how each value stands where that is known, and after them how many there are and what was held.
    fn print_rows<W: Write>(
        &mut self,
        output: &mut Output<W>,
        prefix: Option<&Key>,
        rows: ListedRows,
        beyond: &Option<Beyond>,
    ) -> Result<(), ConnectFault>
        ensures printed { OnOk result (PrintsList self.old.is_json (keeps_finals (outlook_of self.old.store.views)) self.old.servers (option_copied prefix.entry) beyond.now rows (account W.contents output.old) (account W.contents output.new)) }
        ensures same { self.new ≡ self.old }
    {
        let ListedRows {
            each,
            vector,
            is_mixed,
        } = rows;
        for row in &each {
            self.print_row(output, row, beyond)?;
        }
        let text = self.rows_text(prefix, each.len(), is_mixed, &vector)?;
        print(output, text.as_str())
    }

    /// Prints each key that begins so, or each where nothing is named, with its value, in order, under what the session asks for; and how many there
    /// are.
    pub(crate) fn list<W: Write, T: Files<File = File> + Sockets + Wait + Clock>(
        &mut self,
        rt: &T,
        output: &mut Output<W>,
        who: SessionId,
        prefix: Option<&Key>,
    ) -> Result<(), ConnectFault>
        ensures listed { OnOk result (Lists who (option_copied prefix.entry) self.old self.new (account W.contents output.old) (account W.contents output.new)) }
        ensures same { IsSameSeat self.old self.new }
    {
        let begins = prefix_of(prefix);
        match self.rows_of(rt, who, &begins)? {
            Ok(rows) => {
                let beyond = self.beyond(rt, &rows)?;
                self.print_rows(output, prefix, rows, &beyond)
            }
            Err(ServerTold::Refused(refusal)) => {
                self.is_served = false;
                let text = self.refused_text(who, refusal)?;
                print(output, text.as_str())
            }
            Err(_) => {
                self.is_served = false;
                print(output, lost_text(self.is_json))
            }
        }
    }
}

// What keys begin with that begin like this one, or all keys.
pub(crate) fn prefix_of(named: Option<&Key>) -> Prefix
    ensures { result ≡ prefix_named (option_copied named.entry) }
{
    let text = match named {
        Some(key) => key.as_str(),
        None => "",
    };
    let Ok(prefix) = Prefix::new(text) else {
        unreachable!();
    };
    prefix
}
