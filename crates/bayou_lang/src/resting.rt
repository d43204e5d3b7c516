//! Programs and Writes at rest: each takes memory at the size of what it says. By their value they are the programs and
//! the Writes themselves, so that no contract tells the one form from the other.
ghost use Rattle.std.specs.Prelude.{◌≡◌, ◌≤◌, [], IfOk, length};
ghost use Rattle.bayou_base.specs.declared.limits.TheConstants.{MAX_CONDITIONS, MAX_OPS, MAX_ALTERNATIVES};
ghost use Rattle.bayou_lang.specs.Changes.{most_changes, most_ops};

use crate::program::{Alt, Cond, Op, Program, conditions_of, ops_of};
use crate::rare::RareList;
use crate::write::Write;
use arrayvec::ArrayVec;
use bayou_base::{MAX_ALTERNATIVES, MAX_CONDITIONS, MAX_OPS, Stamp, Vector, Wid};
use std::alloc::{AllocError, Global};
use std::marker::Model;

/// An alternative of a program at rest.
#[derive(Debug, Drop)]
pub struct RestingAlt {
    when: Vec<Cond>,
    ops: Vec<Op>,
}

impl Model for RestingAlt {
    ghost use Rattle.std.specs.Prelude.{◌≤◌, length};
    ghost use Rattle.bayou_base.specs.declared.limits.TheConstants.{MAX_CONDITIONS, MAX_OPS};
    ghost use Rattle.bayou_lang.specs.declared.program.Alt.{Alt};

    ghost Value = { Alt };

    ghost view = { λ a. record { when = record { items = a.when.items }; ops = record { items = a.ops.items } } };

    ghost invariant = { λ a. (length a.when.items ≤ MAX_CONDITIONS) × (length a.ops.items ≤ MAX_OPS) };
}

/// A program at rest.
#[derive(Debug, Drop)]
pub struct RestingProgram {
    check: RareList<Cond>,
    update: Vec<Op>,
    merge: RareList<RestingAlt>,
}

impl Model for RestingProgram {
    ghost use Rattle.std.specs.Prelude.{◌≤◌, length};
    ghost use Rattle.bayou_base.specs.declared.limits.TheConstants.{MAX_CONDITIONS, MAX_OPS, MAX_ALTERNATIVES};
    ghost use Rattle.bayou_lang.specs.declared.program.Program.{Program};

    ghost Value = { Program };

    ghost view = { λ p. record { check = record { items = p.check }; update = record { items = p.update.items }; merge = record { items = p.merge } } };

    ghost invariant = { λ p. (length p.check ≤ MAX_CONDITIONS) × (length p.update.items ≤ MAX_OPS) × (length p.merge ≤ MAX_ALTERNATIVES) };
}

/// A Write at rest: 136 bytes, and 104 for each op and 96 for each condition of its program, and 24 more for the list of its conditions and for that
/// of its alternatives, where it has some.
#[derive(Debug, Drop)]
pub struct RestingWrite {
    wid: Wid,
    stamp: Stamp,
    deps: Vector,
    program: RestingProgram,
    ghost one_origin: { wid.origin ≡ stamp.origin },
}

impl Model for RestingWrite {
    ghost use Rattle.bayou_lang.specs.declared.write.Write.{Write};

    ghost Value = { Write };

    ghost view = { λ w. record { wid = w.wid; stamp = w.stamp; deps = w.deps; program = w.program; one_origin = w.one_origin } };
}

fn resting_conditions(alloc: Global, conditions: &[Cond]) -> Result<Vec<Cond>, AllocError>
    ensures { IfOk result (λ list. list.items ≡ conditions.now) }
{
    let mut list = Vec::with_capacity(alloc, conditions.len())?;
    for condition in conditions {
        list.push_reserved(condition.copy());
    }
    Ok(list)
}

fn resting_ops(alloc: Global, ops: &[Op]) -> Result<Vec<Op>, AllocError>
    ensures { IfOk result (λ list. list.items ≡ ops.now) }
{
    let mut list = Vec::with_capacity(alloc, ops.len())?;
    for op in ops {
        list.push_reserved(op.copy());
    }
    Ok(list)
}

fn resting_alternatives(alloc: Global, alternatives: &[Alt]) -> Result<Vec<RestingAlt>, AllocError>
    ensures { IfOk result (λ list. list.items ≡ alternatives.now) }
{
    let mut list = Vec::with_capacity(alloc, alternatives.len())?;
    for alternative in alternatives {
        list.push_reserved(alternative.rest(alloc)?);
    }
    Ok(list)
}

fn copied_alternatives(
    alloc: Global,
    alternatives: &[RestingAlt],
) -> Result<Vec<RestingAlt>, AllocError>
    ensures { IfOk result (λ list. list.items ≡ alternatives.now) }
{
    let mut list = Vec::with_capacity(alloc, alternatives.len())?;
    for alternative in alternatives {
        list.push_reserved(alternative.copy(alloc)?);
    }
    Ok(list)
}

fn unfolded_alternatives(alternatives: &[RestingAlt]) -> ArrayVec<Alt, MAX_ALTERNATIVES>
    requires { length alternatives.now ≤ MAX_ALTERNATIVES }
    ensures { result.items ≡ alternatives.now }
{
    let mut list = ArrayVec::new();
    for alternative in alternatives {
        list.push(alternative.unfold());
    }
    list
}

/// The greatest number of ops that one of them has.
fn most_ops_of(alternatives: &[RestingAlt]) -> usize
    ensures value { result ≡ most_ops alternatives.now }
    ensures within { result ≤ MAX_OPS }
{
    let mut most = 0;
    for alternative in alternatives {
        most = most.max(alternative.ops().len());
    }
    most
}

impl Alt {
    /// The alternative at rest.
    pub fn rest(&self, alloc: Global) -> Result<RestingAlt, AllocError>
        ensures { IfOk result (λ alt. alt ≡ self.now) }
    {
        Ok(RestingAlt {
            when: resting_conditions(alloc, &self.when)?,
            ops: resting_ops(alloc, &self.ops)?,
        })
    }
}

impl RestingAlt {
    /// The alternative of these conditions and ops, whose lists it keeps. It takes no memory.
    pub fn new(when: Vec<Cond>, ops: Vec<Op>) -> Self
        requires conditions { length when.items ≤ MAX_CONDITIONS }
        requires ops { length ops.items ≤ MAX_OPS }
        ensures { (result.when.items ≡ when.items) × (result.ops.items ≡ ops.items) }
    {
        RestingAlt { when, ops }
    }

    /// Its conditions.
    pub fn when(&self) -> &[Cond]
        ensures value { result.now ≡ self.now.when.items }
        ensures within { length result.now ≤ MAX_CONDITIONS }
    {
        self.when.as_slice()
    }

    /// Its ops.
    pub fn ops(&self) -> &[Op]
        ensures value { result.now ≡ self.now.ops.items }
        ensures within { length result.now ≤ MAX_OPS }
    {
        self.ops.as_slice()
    }

    /// The same alternative again, at rest.
    pub fn copy(&self, alloc: Global) -> Result<Self, AllocError>
        ensures { IfOk result (λ alt. alt ≡ self.now) }
    {
        Ok(RestingAlt {
            when: resting_conditions(alloc, self.when())?,
            ops: resting_ops(alloc, self.ops())?,
        })
    }

    /// The same alternative as plain data, which takes no memory.
    pub fn unfold(&self) -> Alt
        ensures { result ≡ self.now }
    {
        Alt {
            when: conditions_of(&self.when),
            ops: ops_of(&self.ops),
        }
    }
}

impl Program {
    /// The program at rest.
    pub fn rest(&self, alloc: Global) -> Result<RestingProgram, AllocError>
        ensures { IfOk result (λ program. program ≡ self.now) }
    {
        RestingProgram::new(
            alloc,
            resting_conditions(alloc, &self.check)?,
            resting_ops(alloc, &self.update)?,
            resting_alternatives(alloc, &self.merge)?,
        )
    }
}

impl RestingProgram {
    /// The program of this dependency check, update and merge procedure, whose lists it keeps. It takes memory where it has a check or a merge
    /// procedure, which most have not.
    pub fn new(
        alloc: Global,
        check: Vec<Cond>,
        update: Vec<Op>,
        merge: Vec<RestingAlt>,
    ) -> Result<Self, AllocError>
        requires conditions { length check.items ≤ MAX_CONDITIONS }
        requires ops { length update.items ≤ MAX_OPS }
        requires alternatives { length merge.items ≤ MAX_ALTERNATIVES }
        ensures { IfOk result (λ program. (program.check.items ≡ check.items) × (program.update.items ≡ update.items) × (program.merge.items ≡ merge.items)) }
    {
        Ok(RestingProgram {
            check: RareList::new(alloc, check)?,
            update,
            merge: RareList::new(alloc, merge)?,
        })
    }

    /// The program of this update alone. It takes no memory.
    pub fn of_update(update: Vec<Op>) -> Self
        requires { length update.items ≤ MAX_OPS }
        ensures { (result.check.items ≡ []) × (result.update.items ≡ update.items) × (result.merge.items ≡ []) }
    {
        RestingProgram {
            check: RareList::empty(),
            update,
            merge: RareList::empty(),
        }
    }

    /// Its dependency check.
    pub fn check(&self) -> &[Cond]
        ensures value { result.now ≡ self.now.check.items }
        ensures within { length result.now ≤ MAX_CONDITIONS }
    {
        self.check.as_slice()
    }

    /// Its update.
    pub fn update(&self) -> &[Op]
        ensures value { result.now ≡ self.now.update.items }
        ensures within { length result.now ≤ MAX_OPS }
    {
        self.update.as_slice()
    }

    /// Its merge procedure.
    pub fn merge(&self) -> &[RestingAlt]
        ensures value { result.now ≡ self.now.merge.items }
        ensures within { length result.now ≤ MAX_ALTERNATIVES }
    {
        self.merge.as_slice()
    }

    /// How many keys it changes at the most.
    pub fn most_changes(&self) -> usize
        ensures value { result ≡ most_changes self.now }
        ensures within { result ≤ MAX_OPS }
    {
        self.update.len().max(most_ops_of(self.merge()))
    }

    /// The same program again, at rest.
    pub fn copy(&self, alloc: Global) -> Result<Self, AllocError>
        ensures { IfOk result (λ program. program ≡ self.now) }
    {
        RestingProgram::new(
            alloc,
            resting_conditions(alloc, self.check())?,
            resting_ops(alloc, self.update())?,
            copied_alternatives(alloc, self.merge())?,
        )
    }

    /// The same program as plain data, which takes no memory.
    pub fn unfold(&self) -> Program
        ensures { result ≡ self.now }
    {
        Program {
            check: conditions_of(self.check()),
            update: ops_of(self.update()),
            merge: unfolded_alternatives(self.merge()),
        }
    }
}

impl Write {
    /// The Write at rest.
    pub fn rest(&self, alloc: Global) -> Result<RestingWrite, AllocError>
        ensures { IfOk result (λ write. write ≡ self.now) }
    {
        Ok(RestingWrite {
            wid: self.wid,
            stamp: self.stamp,
            deps: self.deps,
            program: self.program.rest(alloc)?,
        })
    }
}

impl RestingWrite {
    /// The Write of this name, stamp and past, and of this program. It takes no memory.
    pub fn new(wid: Wid, stamp: Stamp, deps: Vector, program: RestingProgram) -> Self
        requires { wid.origin ≡ stamp.origin }
        ensures { (result.wid ≡ wid) × (result.stamp ≡ stamp) × (result.deps ≡ deps) × (result.program ≡ program) }
    {
        RestingWrite {
            wid,
            stamp,
            deps,
            program,
        }
    }

    /// Its name.
    pub fn wid(&self) -> Wid
        ensures { result ≡ self.now.wid }
    {
        self.wid
    }

    /// Its stamp.
    pub fn stamp(&self) -> Stamp
        ensures { result ≡ self.now.stamp }
    {
        self.stamp
    }

    /// What its server held as it accepted it.
    pub fn deps(&self) -> &Vector
        ensures { result.now ≡ self.now.deps }
    {
        &self.deps
    }

    /// Its program.
    pub fn program(&self) -> &RestingProgram
        ensures { result.now ≡ self.now.program }
    {
        &self.program
    }

    /// The same Write again, at rest.
    pub fn copy(&self, alloc: Global) -> Result<Self, AllocError>
        ensures { IfOk result (λ write. write ≡ self.now) }
    {
        Ok(RestingWrite {
            wid: self.wid,
            stamp: self.stamp,
            deps: self.deps,
            program: self.program.copy(alloc)?,
        })
    }

    /// The same Write as plain data, which takes no memory.
    pub fn unfold(&self) -> Write
        ensures { result ≡ self.now }
    {
        Write {
            wid: self.wid,
            stamp: self.stamp,
            deps: self.deps,
            program: self.program.unfold(),
        }
    }
}

impl PartialEq for RestingAlt {
    ghost use Rattle.std.specs.Cmp.{decided, partial_equiv_from_equiv};
    ghost use Rattle.bayou_lang.specs.Equality.{same_alternative};
    ghost use Rattle.bayou_lang.specs.Laws.Equality.{same_alternative-decides};

    ghost eq = { same_alternative };

    ghost laws = { partial_equiv_from_equiv (decided same_alternative same_alternative-decides) };

    fn eq(&self, other: &Self) -> bool {
        self.when == other.when && self.ops == other.ops
    }
}

impl Eq for RestingAlt {
    ghost use Rattle.std.specs.Cmp.{decided};
    ghost use Rattle.bayou_lang.specs.Equality.{same_alternative};
    ghost use Rattle.bayou_lang.specs.Laws.Equality.{same_alternative-decides};

    ghost laws = { decided same_alternative same_alternative-decides };
}

impl PartialEq for RestingProgram {
    ghost use Rattle.std.specs.Cmp.{decided, partial_equiv_from_equiv};
    ghost use Rattle.bayou_lang.specs.Equality.{same_program};
    ghost use Rattle.bayou_lang.specs.Laws.Equality.{same_program-decides};

    ghost eq = { same_program };

    ghost laws = { partial_equiv_from_equiv (decided same_program same_program-decides) };

    fn eq(&self, other: &Self) -> bool {
        self.check() == other.check()
            && self.update() == other.update()
            && self.merge() == other.merge()
    }
}

impl Eq for RestingProgram {
    ghost use Rattle.std.specs.Cmp.{decided};
    ghost use Rattle.bayou_lang.specs.Equality.{same_program};
    ghost use Rattle.bayou_lang.specs.Laws.Equality.{same_program-decides};

    ghost laws = { decided same_program same_program-decides };
}

impl PartialEq for RestingWrite {
    ghost use Rattle.std.specs.Cmp.{decided, partial_equiv_from_equiv};
    ghost use Rattle.bayou_lang.specs.Equality.{same_write};
    ghost use Rattle.bayou_lang.specs.Laws.Equality.{same_write-decides};

    ghost eq = { same_write };

    ghost laws = { partial_equiv_from_equiv (decided same_write same_write-decides) };

    fn eq(&self, other: &Self) -> bool {
        self.deps == other.deps
            && self.wid == other.wid
            && self.stamp == other.stamp
            && self.program == other.program
    }
}

impl Eq for RestingWrite {
    ghost use Rattle.std.specs.Cmp.{decided};
    ghost use Rattle.bayou_lang.specs.Equality.{same_write};
    ghost use Rattle.bayou_lang.specs.Laws.Equality.{same_write-decides};

    ghost laws = { decided same_write same_write-decides };
}
