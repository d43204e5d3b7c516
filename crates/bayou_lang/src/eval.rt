ghost use Rattle.std.specs.Prelude.{◌≡◌, ◌+◌, false, None, Some, ◌<◌, ◌≤◌, ◌∷◌, IfSome, length, map, nat_le, not};
ghost use Rattle.std.specs.List.{filter, flat_map};
ghost use Rattle.std.specs.Option.{option_map};
ghost use Rattle.arrayvec.specs.ArrayVec.{array_vec_len};
ghost use Rattle.bayou_base.specs.declared.limits.TheConstants.{MAX_ALTERNATIVES, MAX_OPS};
ghost use Rattle.bayou_lang.specs.declared.program.Alt.{Alt};
ghost use Rattle.bayou_lang.specs.Database.{Database, changed, number_with, same_key, value_at};
ghost use Rattle.bayou_lang.specs.Changes.{ChangeOnly, after_changes, most_changes, most_ops, op_key, program_writes};
ghost use Rattle.bayou_lang.specs.Meaning as meaning;

use crate::change::{Change, Changes};
use crate::program::{Alt, Cond, Op, Program, Term};
use crate::resting::{RestingAlt, RestingProgram};
use arrayvec::ArrayVec;
use bayou_base::{Key, Prefix, Value};

/// How a program was applied.
#[derive(Clone, Copy, Debug, PartialEq, Eq)]
pub enum Outcome {
    /// The dependency check held, and the update was applied.
    Updated,
    /// The check failed, and this alternative, from 0 on, was applied.
    Merged(u8),
    /// Nothing was applied.
    Nothing,
}

/// A database as a program sees it.
pub trait Look {
    ghost database: { Self → Database };

    /// What the key has, if anything.
    fn look(&self, key: &Key) -> Option<Value>
        ensures { result ≡ value_at (database self.now) key.now };

    /// Whether at most so many of the keys that are present begin so. It may stop counting after those.
    fn has_at_most(&self, prefix: &Prefix, most: u32) -> bool
        ensures { result ≡ nat_le (number_with prefix.now (database self.now)) most };
}

/// What the key has, if anything, in a database with these changes.
fn look_over<L: Look>(look: &L, changes: &Changes, key: &Key) -> Option<Value>
    ensures { result ≡ value_at (after_changes changes.now.items (L.database look.now)) key.now }
{
    for change in changes.as_slice() {
        if change.key == *key {
            return change.copy_value();
        }
    }
    look.look(key)
}

fn holds<L: Look>(condition: &Cond, look: &L) -> bool
    ensures { result ≡ meaning.holds condition.now (L.database look.now) }
{
    match condition {
        Cond::Equals(key, value) => look.look(key).is_some_and(|found| found == *value),
        Cond::Absent(key) => look.look(key).is_none(),
        Cond::AtLeast(key, number) => match look.look(key) {
            Some(Value::Num(found)) => *number <= found,
            _ => false,
        },
        Cond::AtMost(prefix, most) => look.has_at_most(prefix, *most),
    }
}

fn all_hold<L: Look>(conditions: &[Cond], look: &L) -> bool
    ensures { result ≡ meaning.all_hold conditions.now (L.database look.now) }
{
    for condition in conditions {
        if !holds(condition, look) {
            return false;
        }
    }
    true
}

fn sum_with(number: i64, value: &Value) -> Option<Value>
    ensures { result ≡ meaning.sum_with number value.now }
{
    match value {
        Value::Num(found) => found.checked_add(number).map(Value::Num),
        Value::Text(_) => None,
    }
}

/// What a term has in a database with these changes.
fn term_value<L: Look>(term: &Term, look: &L, changes: &Changes) -> Option<Value>
    ensures { result ≡ meaning.term_value term.now (after_changes changes.now.items (L.database look.now)) }
{
    match term {
        Term::Lit(value) => Some(value.copy()),
        Term::Copy(key) => look_over(look, changes, key),
        Term::Plus(key, number) => sum_with(*number, &look_over(look, changes, key)?),
    }
}

/// The changes of the other keys, in their order.
fn others(changes: &Changes, key: &Key) -> Changes
    ensures items { result.items ≡ filter (λ change. not (same_key change.key key.now)) changes.now.items }
    ensures no_more { array_vec_len result ≤ array_vec_len changes.now }
{
    let mut others = Changes::new();
    for change in changes.as_slice() {
        if change.key != *key {
            others.push(change.copy());
        }
    }
    others
}

/// Whether one of the changes is of the key. Where none is, each is of another.
fn is_changed(changes: &Changes, key: &Key) -> bool
    ensures { result ≡ false → filter (λ change. not (same_key change.key key.now)) changes.now.items ≡ changes.now.items }
{
    for change in changes.as_slice() {
        if change.key == *key {
            return true;
        }
    }
    false
}

/// Puts the change first, in the place of an older one of its key.
fn set_change(changes: &mut Changes, change: Change)
    requires { array_vec_len changes.old < MAX_OPS }
    ensures items { changes.new.items ≡ change ∷ filter (λ older. not (same_key older.key change.key)) changes.old.items }
    ensures one_more { array_vec_len changes.new ≤ array_vec_len changes.old + 1 }
{
    if is_changed(changes, &change.key) {
        *changes = others(changes, &change.key);
    }
    changes.insert(0, change);
}

/// What an op changes where it is applied to a database with these changes, or `None` where it has no value.
fn op_change<L: Look>(op: &Op, look: &L, changes: &Changes) -> Option<Change>
    ensures value { meaning.after_op op.now (after_changes changes.now.items (L.database look.now))
        ≡ option_map (λ change. changed change.key change.value (after_changes changes.now.items (L.database look.now))) result }
    ensures key { IfSome result (λ change. change.key ≡ op_key op.now) }
{
    match op {
        Op::Put(key, term) => Some(Change {
            key: key.copy(),
            value: Some(term_value(term, look, changes)?),
        }),
        Op::Del(key) => Some(Change {
            key: key.copy(),
            value: None,
        }),
    }
}

/// Lists what ops change, in order, each seeing those before it. It answers `None` where one has no value, and then lists nothing of use.
fn ops_changes<L: Look>(ops: &[Op], look: &L, changes: &mut Changes) -> Option<()>
    requires { length ops.now ≤ MAX_OPS }
    ensures value { meaning.after_ops ops.now (L.database look.now)
        ≡ option_map (λ _. after_changes changes.new.items (L.database look.now)) result }
    ensures only { IfSome result (λ _. ChangeOnly (map op_key ops.now) changes.new.items) }
    ensures few { IfSome result (λ _. array_vec_len changes.new ≤ length ops.now) }
{
    changes.clear();
    for op in ops {
        let change = op_change(op, look, changes)?;
        set_change(changes, change);
    }
    Some(())
}

/// An alternative in either of its forms.
trait Alternative {
    ghost alternative: { Self → Alt };

    /// Its conditions, and its ops.
    fn parts(&self) -> (&[Cond], &[Op])
        ensures when { result.0.now ≡ (alternative self.now).when.items }
        ensures ops { result.1.now ≡ (alternative self.now).ops.items }
        ensures within { length result.1.now ≤ MAX_OPS };
}

impl Alternative for Alt {
    ghost alternative = { λ alternative. alternative };

    fn parts(&self) -> (&[Cond], &[Op]) {
        (self.when.as_slice(), self.ops.as_slice())
    }
}

impl Alternative for RestingAlt {
    ghost alternative = { λ alternative. alternative };

    fn parts(&self) -> (&[Cond], &[Op]) {
        (self.when(), self.ops())
    }
}

/// Lists what an alternative changes, where it fits, else answers `None`.
fn alternative_changes<A: Alternative, L: Look>(
    alternative: &A,
    look: &L,
    changes: &mut Changes,
) -> Option<()>
    ensures value { meaning.after_alternative (A.alternative alternative.now) (L.database look.now)
        ≡ option_map (λ _. after_changes changes.new.items (L.database look.now)) result }
    ensures only { IfSome result (λ _. ChangeOnly (map op_key (A.alternative alternative.now).ops.items) changes.new.items) }
    ensures few { IfSome result (λ _. array_vec_len changes.new ≤ length (A.alternative alternative.now).ops.items) }
{
    let (when, ops) = alternative.parts();
    if all_hold(when, look) {
        ops_changes(ops, look, changes)
    } else {
        None
    }
}

/// The first alternative that fits. It lists what that changes, or nothing.
fn merge_changes<A: Alternative, L: Look>(
    alternatives: &[A],
    look: &L,
    changes: &mut Changes,
) -> Outcome
    requires { length alternatives.now ≤ MAX_ALTERNATIVES }
    ensures value { meaning.merged 0 (map A.alternative alternatives.now) (L.database look.now)
        ≡ (result, after_changes changes.new.items (L.database look.now)) }
    ensures only { ChangeOnly (flat_map (λ alt. map op_key alt.ops.items) (map A.alternative alternatives.now)) changes.new.items }
    ensures few { array_vec_len changes.new ≤ most_ops (map A.alternative alternatives.now) }
{
    let mut number = 0;
    for alternative in alternatives {
        if let Some(()) = alternative_changes(alternative, look, changes) {
            return Outcome::Merged(number);
        }
        number += 1;
    }
    changes.clear();
    Outcome::Nothing
}

/// Lists what an update changes, where its ops all have a value, else nothing.
fn update_changes<L: Look>(ops: &[Op], look: &L, changes: &mut Changes) -> Outcome
    requires { length ops.now ≤ MAX_OPS }
    ensures value { meaning.updated ops.now (L.database look.now)
        ≡ (result, after_changes changes.new.items (L.database look.now)) }
    ensures only { ChangeOnly (map op_key ops.now) changes.new.items }
    ensures few { array_vec_len changes.new ≤ length ops.now }
{
    match ops_changes(ops, look, changes) {
        Some(()) => Outcome::Updated,
        None => {
            changes.clear();
            Outcome::Nothing
        }
    }
}

impl RestingProgram {
    /// What the program does to a database: how it is applied. It lists what it changes, and nothing that was listed before.
    pub fn eval<L: Look>(&self, look: &L, changes: &mut Changes) -> Outcome
        ensures value { meaning.mean self.now (L.database look.now)
            ≡ (result, after_changes changes.new.items (L.database look.now)) }
        ensures only { ChangeOnly (program_writes self.now) changes.new.items }
        ensures few { array_vec_len changes.new ≤ most_changes self.now }
    {
        if all_hold(self.check(), look) {
            update_changes(self.update(), look, changes)
        } else {
            merge_changes(self.merge(), look, changes)
        }
    }
}

impl Program {
    /// What the program does to a database: how it is applied. It lists what it changes, and nothing that was listed before.
    pub fn eval<L: Look>(&self, look: &L, changes: &mut Changes) -> Outcome
        ensures value { meaning.mean self.now (L.database look.now)
            ≡ (result, after_changes changes.new.items (L.database look.now)) }
        ensures only { ChangeOnly (program_writes self.now) changes.new.items }
    {
        if all_hold(self.check.as_slice(), look) {
            update_changes(self.update.as_slice(), look, changes)
        } else {
            merge_changes(self.merge.as_slice(), look, changes)
        }
    }
}
