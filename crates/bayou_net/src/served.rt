ghost use Rattle.std.specs.Prelude.{◌≡◌, ◌≤◌, ℕ, List, Result, IfOk, IfSome, drop, length, take};
ghost use Rattle.bayou_base.specs.declared.answer.Seen.{Seen as Told};
ghost use Rattle.bayou_base.specs.declared.tag.Tag.{Tag as Name};
ghost use Rattle.bayou_lang.specs.declared.program.Program.{Program as Asked};
ghost use Rattle.bayou_server.specs.declared.answer.Reopened.{Reopened as Up};
ghost use Rattle.bayou_server.specs.declared.answer.Written.{Written as Made};
ghost use Rattle.bayou_server.specs.declared.fault.Behind.{Behind as Less};
ghost use Rattle.bayou_server.specs.declared.fault.ReopenFault.{ReopenFault as StaysDown};
ghost use Rattle.bayou_server.specs.declared.fault.WriteFault.{WriteFault as Refusal};

use bayou_base::{Key, Seen, Tag, Vector};
use bayou_lang::{RestingProgram, RestingWrite};
use bayou_peer::Replica;
use bayou_server::{Behind, ReopenFault, Reopened, WriteFault, Written};
use std::alloc::{AllocError, Global};

/// What does requests: a replica that serves sessions too.
pub trait Served: Replica {
    /// What it answers to a read, with this need, of this key.
    ghost reads: { Self → List ℕ → List ℕ → Result Told Less → Type 0 };

    /// What it makes of a program, with this tag and this need, and what it answers.
    ghost writes: { Self → Name → List ℕ → Asked → Result Made Refusal → Self → Type 0 };

    /// What becomes of it as its journal is opened again, and what it answers.
    ghost reopens: { Self → Result Up StaysDown → Self → Type 0 };

    fn read(&mut self, need: &Vector, key: &Key) -> Result<Seen, Behind>
        ensures same { self.new ≡ self.old }
        ensures reads { reads self.old need.now key.now result };

    fn write(
        &mut self,
        alloc: Global,
        tag: Tag,
        need: &Vector,
        program: &RestingProgram,
    ) -> Result<Written, WriteFault>
        ensures { writes self.old tag need.now program.now result self.new };

    fn reopen(&mut self, alloc: Global) -> Result<Reopened, ReopenFault>
        ensures { reopens self.old result self.new };

    /// Copies of the Writes held from this place on in order of receipt, the first of which is at 0, and so many at the most.
    fn dump_part(
        &mut self,
        alloc: Global,
        place: usize,
        most: usize,
    ) -> Result<Vec<RestingWrite>, AllocError>
        ensures same { self.new ≡ self.old }
        ensures few { IfOk result (λ writes. length writes.items ≤ most) }
        ensures value { IfSome (Self.list self.old) (λ held. IfOk result (λ writes. writes.items ≡ take most (drop place held))) };
}
