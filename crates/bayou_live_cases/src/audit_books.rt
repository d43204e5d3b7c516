//! The book of what was served: what is filed in it, when it is full, when it is settled, and two threads that file at once.
ghost use Rattle.std.specs.Prelude.{◌≡◌, ◌<◌, ◌≤◌, length};
ghost use Rattle.bayou_audit.specs.Blanks.{AreBlanksOf, named};
ghost use Rattle.bayou_base.specs.declared.limits.TheConstants.{SESSIONS};

use crate::fixtures::must_be_so;
use bayou_audit::{
    AuditBook, Blanks, BookSettled, Four, Ledgers, SettleFault, Share, Totals, Unsettled,
};
use bayou_base::{Asks, Entry, Key, SERVERS, ServerId, Stamp, Vector, What, Wid};
use bayou_fakes::books::blanks;
use std::alloc::{AllocError, Global};
use std::marker::Brand;
use std::process::Abort;
use std::sync::Wait;
use std::sync::ledger::{Blank, Ledger};
use std::thread;
use std::thread::Threads;

/// The server at which all is done.
fn server(rt: &impl Abort) -> ServerId {
    ServerId::new(1).expect(rt, "there is no server 1")
}

/// So many Writes of the first server, and two of the second.
fn counts(rt: &impl Abort, number: u32) -> Vector {
    let mut all = [0; SERVERS];
    all[0] = number;
    all[1] = 2;
    Vector::from_counts(all).expect(rt, "there is no such vector")
}

/// A read, a Write or a refusal, by turns.
fn what(rt: &impl Abort, number: u32) -> What {
    match number % 3 {
        0 => What::Read(
            Key::new("a").expect(rt, "there is no such key"),
            counts(rt, number),
        ),
        1 => What::Write(
            Wid::new(server(rt), 7).expect(rt, "there is no seventh Write"),
            Stamp::new(9, server(rt)).expect(rt, "there is no ninth clock"),
            counts(rt, number),
        ),
        _ => What::Refused,
    }
}

/// The entry of what the session of this share did at its place of this number, counted from 0.
fn entry<K: Ledgers>(rt: &impl Abort, share: &Share<K>, number: u32) -> Entry
    ensures { result.session ≡ share.now.session }
{
    Entry {
        session: share.session(),
        place: (number % 1000) + 1,
        asks: Asks::default(),
        server: server(rt),
        what: what(rt, number),
    }
}

/// Files what the session did at its place of this number. Whether there is room for it.
fn files<K: Ledgers, R: Wait + Abort>(
    rt: &R,
    book: &AuditBook<K>,
    share: &mut Share<K>,
    number: u32,
) -> bool {
    let Ok(slip) = book.claim(rt, share) else {
        return false;
    };
    let entry = entry(rt, share, number);
    book.file(rt, slip, share, entry);
    true
}

/// Files so many reads at a book that others may file at.
fn file_reads<K: Ledgers, R: Wait + Abort>(
    rt: &R,
    book: &AuditBook<K>,
    share: &mut Share<K>,
    count: u32,
) {
    for number in 0..count {
        must_be_so(
            rt,
            files(rt, book, share, (number % 1000) * 3),
            number as usize,
        );
    }
}

/// What the book counts while a slip is out, which is voided.
fn totals_with_slip<K: Ledgers, R: Wait + Abort>(
    rt: &R,
    book: &AuditBook<K>,
    share: &mut Share<K>,
) -> Totals {
    let Ok(slip) = book.claim(rt, share) else {
        rt.abort();
    };
    let totals = book.totals(rt);
    book.void(rt, slip, share);
    totals
}

/// Two threads file at the book with these two shares, three reads and two, and a slip of the first is voided.
fn file_by_two<S, T, U, V, R>(
    rt: &R,
    book: &AuditBook<Four<S, T, U, V>>,
    shares: &mut [Share<Four<S, T, U, V>>],
)
where
    S: Ledger + Send + Sync,
    T: Ledger + Send + Sync,
    U: Ledger + Send + Sync,
    V: Ledger + Send + Sync,
    R: Threads + Wait + Abort + Sync,
{
    thread::for_each_mut(
        rt,
        shares,
        2,
        &|at, share| file_reads(rt, book, share, if at == 0 { 3 } else { 2 }),
    );
    let Some(first) = shares.first_mut() else {
        rt.abort();
    };
    let _ = totals_with_slip(rt, book, first);
}

/// What the book comes to with these shares.
fn settled<K: Ledgers>(rt: &impl Abort, book: AuditBook<K>, shares: Vec<Share<K>>) -> BookSettled {
    match book.settle(shares) {
        Ok(settled) => settled,
        Err(_) => rt.abort(),
    }
}

/// What a book with room for eight entries comes to at which two threads filed, three reads and two, and a slip was voided.
fn file_at_once<S, T, U, V, R>(rt: &R, alloc: Global, blanks: Blanks) -> BookSettled
where
    S: Ledger + Send + Sync,
    T: Ledger + Send + Sync,
    U: Ledger + Send + Sync,
    V: Ledger + Send + Sync,
    R: Threads + Wait + Abort + Sync,
    requires blanks { AreBlanksOf blanks (named S.name S.parts) (named T.name T.parts) (named U.name U.parts) (named V.name V.parts) 2 }
{
    let Ok((book, mut shares)) = AuditBook::<Four<S, T, U, V>>::new(alloc, blanks, 2, 8) else {
        rt.abort();
    };
    file_by_two(rt, &book, &mut shares);
    settled(rt, book, shares)
}

/// The places of the entries of this session, in the order in which they were filed.
fn places_of(entries: &[Entry], session: u8) -> [u32; 4] {
    let mut places = [0; 4];
    let mut count = 0;
    for entry in entries {
        if entry.session.index == session && count < places.len() {
            places[count] = entry.place;
            count += 1;
        }
    }
    places
}

#[test]
fn two_threads_file_at_once(rt: HostRuntime) {
    let settled = file_at_once::<Brand, Brand, Brand, Brand, HostRuntime>(
        &rt,
        rt.alloc(),
        blanks(2),
    );
    let reads = Totals {
        slips: 0,
        reads: 5,
        writes: 0,
        refusals: 0,
    };
    let entries = settled.entries.as_slice();
    let in_order = places_of(entries, 0) == [1, 4, 7, 0] && places_of(entries, 1) == [1, 4, 0, 0];
    assert!(rt; settled.totals == reads && entries.len() == 5 && in_order);
}

/// Why a book isn't settled with one of two shares kept back.
fn settle_without<S, T, U, V>(rt: &impl Abort, alloc: Global, blanks: Blanks) -> SettleFault
where
    S: Ledger + Send + Sync,
    T: Ledger + Send + Sync,
    U: Ledger + Send + Sync,
    V: Ledger + Send + Sync,
    requires blanks { AreBlanksOf blanks (named S.name S.parts) (named T.name T.parts) (named U.name U.parts) (named V.name V.parts) 2 }
{
    let Ok((book, mut shares)) = AuditBook::<Four<S, T, U, V>>::new(alloc, blanks, 2, 8) else {
        rt.abort();
    };
    let Some(_) = shares.pop() else {
        rt.abort();
    };
    let Err(left) = book.settle(shares) else {
        rt.abort();
    };
    left.fault
}

/// Why the book isn't settled with a slip of its one share out, and what it comes to once that is spent.
fn settle_twice<K: Ledgers, R: Wait + Abort>(
    rt: &R,
    book: AuditBook<K>,
    shares: Vec<Share<K>>,
) -> (SettleFault, BookSettled)
    requires { length shares.items ≡ 1 }
{
    let mut shares = shares;
    let Ok(slip) = book.claim(rt, &mut shares[0]) else {
        rt.abort();
    };
    let Err(left) = book.settle(shares) else {
        rt.abort();
    };
    let Unsettled {
        fault,
        book,
        mut shares,
    } = left;
    book.void(rt, slip, &mut shares[0]);
    (fault, settled(rt, book, shares))
}

/// The same of a new book.
fn settle_with_slip<S, T, U, V, R>(
    rt: &R,
    alloc: Global,
    blanks: Blanks,
) -> (SettleFault, BookSettled)
where
    S: Ledger + Send + Sync,
    T: Ledger + Send + Sync,
    U: Ledger + Send + Sync,
    V: Ledger + Send + Sync,
    R: Wait + Abort,
    requires blanks { AreBlanksOf blanks (named S.name S.parts) (named T.name T.parts) (named U.name U.parts) (named V.name V.parts) 1 }
{
    let Ok((book, shares)) = AuditBook::<Four<S, T, U, V>>::new(alloc, blanks, 1, 8) else {
        rt.abort();
    };
    settle_twice(rt, book, shares)
}

#[test]
fn a_share_or_a_slip_is_missed(rt: HostRuntime) {
    let alloc = rt.alloc();
    let missing = settle_without::<Brand, Brand, Brand, Brand>(&rt, alloc, blanks(2));
    let (out, settled) = settle_with_slip::<Brand, Brand, Brand, Brand, HostRuntime>(
        &rt,
        alloc,
        blanks(1),
    );
    assert!(rt;
        (missing, out) == (SettleFault::ShareMissing, SettleFault::SlipOut)
            && settled.totals == Totals::default()
            && settled.entries.is_empty()
    );
}

/// Whether the entries are the first seven of the session of this share.
fn are_first<K: Ledgers>(rt: &impl Abort, entries: &[Entry], share: &Share<K>) -> bool {
    for number in 0..7 {
        if !is_entry(rt, entries.get(number as usize), share, number) {
            return false;
        }
    }
    entries.len() == 7
}

/// Whether it is the entry of this number of the session of this share.
fn is_entry<K: Ledgers>(
    rt: &impl Abort,
    kept: Option<&Entry>,
    share: &Share<K>,
    number: u32,
) -> bool {
    match kept {
        Some(kept) => *kept == entry(rt, share, number),
        None => false,
    }
}

/// Whether a book behind its lock counts and keeps what is filed, of each kind, and a slip that is out.
fn keeps<K: Ledgers, R: Wait + Abort>(
    rt: &R,
    alloc: Global,
    book: &AuditBook<K>,
    share: &mut Share<K>,
) -> Result<bool, AllocError> {
    let are_filed = files_seven(rt, book, share);
    let are_counted = counts_seven(rt, book, share);
    let entries = book.entries(rt, alloc)?;
    Ok(are_filed && are_counted && are_first(rt, &entries, share))
}

/// Files the first seven of the session. Whether there is room for each.
fn files_seven<K: Ledgers, R: Wait + Abort>(
    rt: &R,
    book: &AuditBook<K>,
    share: &mut Share<K>,
) -> bool {
    let mut are_filed = true;
    for number in 0..7 {
        are_filed &= files(rt, book, share, number);
    }
    are_filed
}

/// Whether the book counts the seven, and a slip that is out.
fn counts_seven<K: Ledgers, R: Wait + Abort>(
    rt: &R,
    book: &AuditBook<K>,
    share: &mut Share<K>,
) -> bool {
    let counts = Totals {
        slips: 1,
        reads: 3,
        writes: 2,
        refusals: 2,
    };
    totals_with_slip(rt, book, share) == counts && book.totals(rt).slips == 0
}

/// The same of a new book.
fn keeps_all<S, T, U, V, R>(rt: &R, alloc: Global, blanks: Blanks) -> Result<bool, AllocError>
where
    S: Ledger + Send + Sync,
    T: Ledger + Send + Sync,
    U: Ledger + Send + Sync,
    V: Ledger + Send + Sync,
    R: Wait + Abort,
    requires blanks { AreBlanksOf blanks (named S.name S.parts) (named T.name T.parts) (named U.name U.parts) (named V.name V.parts) 1 }
{
    let (book, mut shares) = AuditBook::<Four<S, T, U, V>>::new(alloc, blanks, 1, 8)?;
    keeps(rt, alloc, &book, &mut shares[0])
}

/// Want of memory, once, is answered by what takes memory, and the next try succeeds.
#[test]
fn one_want_of_memory_costs_no_entry(rt: HostRuntime) {
    let alloc = rt.alloc();
    let mut is_kept = keeps_all::<Brand, Brand, Brand, Brand, HostRuntime>(&rt, alloc, blanks(1));
    if is_kept.is_err() {
        is_kept = keeps_all::<Brand, Brand, Brand, Brand, HostRuntime>(&rt, alloc, blanks(1));
    }
    assert!(rt; is_kept == Ok(true));
}
