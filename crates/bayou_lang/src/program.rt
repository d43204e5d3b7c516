ghost use Rattle.std.specs.Prelude.{◌≡◌, ◌≤◌, [], None, Some, length, MatchResult};
ghost use Rattle.bayou_lang.specs.Program.{program_fault};
ghost use Rattle.bayou_base.specs.declared.limits.TheConstants.{MAX_CONDITIONS, MAX_OPS, MAX_ALTERNATIVES};

use arrayvec::ArrayVec;
use bayou_base::{Key, MAX_ALTERNATIVES, MAX_CONDITIONS, MAX_OPS, Prefix, Value};

/// What a `Put` sets.
#[derive(Clone, Debug, Drop, PartialEq, Eq)]
pub enum Term {
    /// This value.
    Lit(Value),
    /// What the key has. It has no value where the key is absent.
    Copy(Key),
    /// The sum of the key's number and this one. It has no value where the key is absent or has a text, or where the
    /// sum is outside of `i64`.
    Plus(Key, i64),
}

/// A step of an update or of an alternative.
#[derive(Clone, Debug, Drop, PartialEq, Eq)]
pub enum Op {
    /// Sets the key.
    Put(Key, Term),
    /// Removes the key, which may be absent.
    Del(Key),
}

/// A condition of a dependency check or of an alternative.
#[derive(Clone, Debug, Drop, PartialEq, Eq)]
pub enum Cond {
    /// The key is present with this value.
    Equals(Key, Value),
    /// The key is absent.
    Absent(Key),
    /// The key has a number that isn't less than this one.
    AtLeast(Key, i64),
    /// So many keys at the most that are present begin so.
    AtMost(Prefix, u32),
}

/// An alternative of a merge procedure: the ops that are applied where the conditions hold.
#[derive(Clone, Debug, Drop, PartialEq, Eq)]
pub struct Alt {
    pub when: ArrayVec<Cond, MAX_CONDITIONS>,
    pub ops: ArrayVec<Op, MAX_OPS>,
}

/// What a Write does: its dependency check, its update, and its merge procedure (Terry et al. 1995).
///
/// A program has about eight thousand bytes: keep it behind a reference, and move it once.
#[derive(Clone, Debug, Drop, PartialEq, Eq)]
pub struct Program {
    pub check: ArrayVec<Cond, MAX_CONDITIONS>,
    pub update: ArrayVec<Op, MAX_OPS>,
    pub merge: ArrayVec<Alt, MAX_ALTERNATIVES>,
}

/// Why lists make no program or alternative.
#[derive(Clone, Copy, Debug, PartialEq, Eq)]
pub enum ProgramFault {
    /// There are more than [`MAX_CONDITIONS`] conditions.
    TooManyConds,
    /// There are more than [`MAX_OPS`] ops.
    TooManyOps,
    /// There are more than [`MAX_ALTERNATIVES`] alternatives.
    TooManyAlts,
}

impl Default for Term {
    fn default() -> Self {
        Term::Lit(Value::default())
    }
}

impl Default for Op {
    fn default() -> Self {
        Op::Del(Key::default())
    }
}

impl Default for Cond {
    fn default() -> Self {
        Cond::Absent(Key::default())
    }
}

impl Default for Alt {
    fn default() -> Self {
        Alt {
            when: ArrayVec::new(),
            ops: ArrayVec::new(),
        }
    }
}

pub(crate) fn conditions_of(conditions: &[Cond]) -> ArrayVec<Cond, MAX_CONDITIONS>
    requires { length conditions.now ≤ MAX_CONDITIONS }
    ensures { result.items ≡ conditions.now }
{
    let mut list = ArrayVec::new();
    for condition in conditions {
        list.push(condition.copy());
    }
    list
}

pub(crate) fn ops_of(ops: &[Op]) -> ArrayVec<Op, MAX_OPS>
    requires { length ops.now ≤ MAX_OPS }
    ensures { result.items ≡ ops.now }
{
    let mut list = ArrayVec::new();
    for op in ops {
        list.push(op.copy());
    }
    list
}

fn alternatives_of(alternatives: &[Alt]) -> ArrayVec<Alt, MAX_ALTERNATIVES>
    requires { length alternatives.now ≤ MAX_ALTERNATIVES }
    ensures { result.items ≡ alternatives.now }
{
    let mut list = ArrayVec::new();
    for alternative in alternatives {
        list.push(alternative.copy());
    }
    list
}

impl Term {
    /// The same term again, which takes no memory.
    pub fn copy(&self) -> Self
        ensures { result ≡ self.now }
    {
        match self {
            Term::Lit(value) => Term::Lit(value.copy()),
            Term::Copy(key) => Term::Copy(key.copy()),
            Term::Plus(key, number) => Term::Plus(key.copy(), *number),
        }
    }
}

impl Op {
    /// The same op again, which takes no memory.
    pub fn copy(&self) -> Self
        ensures { result ≡ self.now }
    {
        match self {
            Op::Put(key, term) => Op::Put(key.copy(), term.copy()),
            Op::Del(key) => Op::Del(key.copy()),
        }
    }
}

impl Cond {
    /// The same condition again, which takes no memory.
    pub fn copy(&self) -> Self
        ensures { result ≡ self.now }
    {
        match self {
            Cond::Equals(key, value) => Cond::Equals(key.copy(), value.copy()),
            Cond::Absent(key) => Cond::Absent(key.copy()),
            Cond::AtLeast(key, number) => Cond::AtLeast(key.copy(), *number),
            Cond::AtMost(prefix, most) => Cond::AtMost(prefix.copy(), *most),
        }
    }
}

impl Alt {
    /// The alternative of these conditions and ops. The first list that is too long is reported.
    pub fn new(when: &[Cond], ops: &[Op]) -> Result<Self, ProgramFault>
        ensures { MatchResult result
            (λ alt. (program_fault when.now ops.now [] ≡ None) × (alt.when.items ≡ when.now) × (alt.ops.items ≡ ops.now))
            (λ fault. program_fault when.now ops.now [] ≡ Some fault) }
    {
        if when.len() > MAX_CONDITIONS {
            return Err(ProgramFault::TooManyConds);
        }
        if ops.len() > MAX_OPS {
            return Err(ProgramFault::TooManyOps);
        }
        Ok(Alt {
            when: conditions_of(when),
            ops: ops_of(ops),
        })
    }

    /// The same alternative again, which takes no memory.
    pub fn copy(&self) -> Self
        ensures { result ≡ self.now }
    {
        Alt {
            when: conditions_of(&self.when),
            ops: ops_of(&self.ops),
        }
    }
}

impl Program {
    /// The program of this dependency check, update and merge procedure. The first list that is too long is reported.
    pub fn new(check: &[Cond], update: &[Op], merge: &[Alt]) -> Result<Self, ProgramFault>
        ensures { MatchResult result
            (λ program. (program_fault check.now update.now merge.now ≡ None)
            × (program.check.items ≡ check.now) × (program.update.items ≡ update.now) × (program.merge.items ≡ merge.now))
            (λ fault. program_fault check.now update.now merge.now ≡ Some fault) }
    {
        if check.len() > MAX_CONDITIONS {
            return Err(ProgramFault::TooManyConds);
        }
        if update.len() > MAX_OPS {
            return Err(ProgramFault::TooManyOps);
        }
        if merge.len() > MAX_ALTERNATIVES {
            return Err(ProgramFault::TooManyAlts);
        }
        Ok(Program {
            check: conditions_of(check),
            update: ops_of(update),
            merge: alternatives_of(merge),
        })
    }

    /// The same program again, which takes no memory.
    pub fn copy(&self) -> Self
        ensures { result ≡ self.now }
    {
        Program {
            check: conditions_of(&self.check),
            update: ops_of(&self.update),
            merge: alternatives_of(&self.merge),
        }
    }
}
