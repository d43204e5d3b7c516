ghost use Rattle.std.specs.Prelude.{◌≡◌, ◌<◌, ◌≤◌, ◌^◌, List, [], None, Option, Result, IfOk, IfSome, drop, length, take};
ghost use Rattle.bayou_lang.specs.declared.write.Write.{Write as Written};
ghost use Rattle.bayou_lang.specs.Writes.{count_of, lacking_of, raised_by};
ghost use Rattle.bayou_peer.specs.Taking.{TakenBy};
ghost use Rattle.bayou_server.specs.TakesAll.{TakesAll};
ghost use Rattle.bayou_server.specs.declared.answer.Took.{Took as Taken};
ghost use Rattle.bayou_server.specs.declared.fault.TakeFault.{TakeFault as Refusal};

use bayou_base::Vector;
use bayou_lang::RestingWrite;
use bayou_server::TookAll;
use std::alloc::{AllocError, Global};

/// What takes part in anti-entropy (Petersen et al. 1997): something that holds Writes, says which, and takes others.
pub trait Replica {
    /// The Writes that it holds, in order of receipt. `None` claims nothing: so says one that others may change between two
    /// calls.
    ghost list: { Self → Option (List Written) };

    /// What it makes of a Write that it is given, and what it answers.
    ghost takes: { Self → Written → Result Taken Refusal → Self → Type 0 };

    /// For each server the number of its Writes that are held.
    fn offer(&mut self) -> Vector
        ensures same { self.new ≡ self.old }
        ensures value { IfSome (list self.old) (λ held. result ≡ count_of held) };

    /// Copies of the first `most` of the Writes held, in stamp order, that the vector doesn't count.
    fn lacking(
        &mut self,
        alloc: Global,
        counts: &Vector,
        most: usize,
    ) -> Result<Vec<RestingWrite>, AllocError>
        ensures same { self.new ≡ self.old }
        ensures few { IfOk result (λ writes. length writes.items ≤ most) }
        ensures value { IfSome (list self.old) (λ held. IfOk result (λ writes. writes.items ≡ take most (lacking_of counts.now held))) }
        // Once those are counted, the others are lacking.
        ensures goes_on { IfSome (list self.old) (λ held. IfOk result (λ writes.
            lacking_of (raised_by counts.now writes.items) held ≡ drop most (lacking_of counts.now held))) };

    /// Takes the Writes, which other servers accepted, one after another, up to one that is refused. A refusal leaves the Writes held as they were.
    fn take_all(&mut self, alloc: Global, writes: Vec<RestingWrite>) -> TookAll
        requires few { length writes.items < 2 ^ 32 }
        ensures took { (left : List Written) × TakesAll (TakenBy list takes) self.old writes.items left result self.new
            × (result.refused ≡ None → left ≡ []) };
}
