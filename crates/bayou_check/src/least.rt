//! The least line with a fault, by the reader that runs and audits have.
ghost use Rattle.std.specs.Prelude.{◌≡◌, ℕ, IfOk, List};
ghost use Rattle.bayou_script.specs.Order.{lines_of};
ghost use Rattle.bayou_script.specs.Reading.{HasReadBy};
ghost use Rattle.bayou_script.specs.declared.fault.InputRefusal.TheVariants.{Line};
ghost use Rattle.bayou_check.specs.Least.{Checks};

use bayou_script::{Front, InputRefusal, ScriptFault, TextReader};
use std::alloc::{AllocError, Global};

/// The least line with a fault.
#[derive(Clone, Copy, Debug, PartialEq, Eq)]
pub struct Least {
    /// The number of the line, from 1 on.
    pub number: u64,
    pub fault: ScriptFault,
}

fn least_of(refusal: InputRefusal) -> Result<Least, AllocError>
    ensures { IfOk result (λ least. refusal ≡ Line least.number least.fault) }
{
    match refusal {
        InputRefusal::Line { number, fault } => Ok(Least { number, fault }),
        InputRefusal::OutOfMemory => Err(AllocError),
    }
}

// The same of a text that was read to its end.
fn at_end<F: Front>(alloc: Global, reader: TextReader<F>) -> Result<Option<Least>, AllocError>
    ensures { (bytes : List ℕ) → HasReadBy F.order F.keeps reader bytes → IfOk result (Checks F.order F.says (lines_of bytes)) }
{
    match reader.finish(alloc) {
        Ok(_) => Ok(None),
        Err(refusal) => Ok(Some(least_of(refusal)?)),
    }
}

/// The least line with a fault of a text of this kind, or none where the text is of this kind.
pub fn least_fault<F: Front>(alloc: Global, text: &[u8]) -> Result<Option<Least>, AllocError>
    ensures { IfOk result (Checks F.order F.says (lines_of text.now)) }
{
    let mut reader = TextReader::<F>::new(alloc);
    match reader.feed(alloc, text) {
        Ok(()) => at_end(alloc, reader),
        Err(refusal) => Ok(Some(least_of(refusal)?)),
    }
}
