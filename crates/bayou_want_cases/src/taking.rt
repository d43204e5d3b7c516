//! Several Writes that a server takes together, where memory is refused.
use crate::fixtures::{
    begun_at_last, key, must_be_so, plus, put, reopen_at_last, resting, tag_behind, vector,
};
use bayou_base::Vector;
use bayou_fakes::sites::Served;
use bayou_lang::{Program, RestingWrite};
use bayou_log::plain::replayed;
use bayou_server::{TakeFault, TookAll, Written};
use std::alloc::Global;
use std::process::Abort;

/// How many Writes each of two servers makes apart.
const APART: u32 = 12;

/// Puts and sums in turn, so that another order of them has another end.
fn program(rt: &impl Abort, server: u8, number: u32) -> Program {
    if number % 3 == u32::from(server) {
        put(rt, i64::from(number))
    } else {
        plus(rt, i64::from(number) * 100)
    }
}

/// Whether the server makes a Write of the program.
fn makes(rt: &impl Abort, alloc: Global, server: &mut Served, program: &Program) -> bool {
    let program = resting(rt, alloc, program);
    let tag = tag_behind(rt, server.receipts().len());
    let answer = server.write(alloc, tag, &Vector::zero(), &program);
    matches!(answer, Ok(Written::New(_)))
}

/// Makes the Writes of a server that holds no other's, each again where it was refused.
fn write_apart(rt: &impl Abort, alloc: Global, index: u8, server: &mut Served) {
    for number in 0..APART {
        let program = program(rt, index, number);
        let is_made = makes(rt, alloc, server, &program)
            || (reopen_at_last(alloc, server) && makes(rt, alloc, server, &program));
        must_be_so(rt, is_made, number as usize);
    }
}

/// The first or the second server of two, which made its Writes apart.
fn apart(rt: &impl Abort, alloc: Global, index: u8) -> Box<Served> {
    let mut server = begun_at_last(rt, alloc, (index, 2, 100));
    write_apart(rt, alloc, index, &mut server);
    server
}

/// The Writes of the second server, again where that was refused.
fn given(rt: &impl Abort, alloc: Global) -> Vec<RestingWrite> {
    let server = apart(rt, alloc, 1);
    match server.dump(alloc) {
        Ok(writes) => writes,
        Err(_) => server.dump(alloc).expect(rt, "no Writes"),
    }
}

/// Whether the server reads at `a` what the plain replay of its Writes has, and holds those of both.
fn is_replayed(rt: &impl Abort, alloc: Global, server: &Served) -> bool {
    let a = key(rt);
    match (
        replayed(alloc, server.receipts()),
        server.read(&Vector::zero(), &a),
    ) {
        (Ok(plain), Ok(seen)) => {
            plain.get(&a) == seen.value && seen.vector == vector(rt, APART, APART)
        }
        _ => false,
    }
}

/// Whether it tells of want of memory: of the server's, or of its device's.
fn is_want(fault: TakeFault) -> bool {
    matches!(fault, TakeFault::OutOfMemory | TakeFault::Journal)
}

/// Gives the Writes until all are held, again where a growth was refused. Whether that was reported once at most and nothing else was, and all
/// are held.
fn is_taken_at_last(rt: &impl Abort, alloc: Global, server: &mut Served) -> bool {
    let mut is_so = true;
    let mut had_want = false;
    for _ in 0..3 {
        let told = server.take_next(alloc, &mut given(rt, alloc).into_iter(), APART);
        if let Some(refused) = told.refused {
            is_so &= !had_want && is_want(refused.fault);
            had_want = true;
        }
        is_so &= reopen_at_last(alloc, server);
    }
    is_so && server.vector() == vector(rt, APART, APART)
}

/// For runs in which any one allocation is refused: Writes that were refused for it aren't held, and can be given again.
#[test]
fn one_want_of_memory_costs_none_of_several_writes(rt: HostRuntime) {
    let mut server = apart(&rt, rt.alloc(), 0);
    let is_taken = is_taken_at_last(&rt, rt.alloc(), &mut server);
    let is_replayed = is_replayed(&rt, rt.alloc(), &server)
        || is_replayed(&rt, rt.alloc(), &server);
    assert!(rt; is_taken && is_replayed);
}
