//! Lines wait for one another, and are written in pieces.
ghost use Rattle.std.specs.Prelude.{◌≡◌, ◌≤◌, ◌⊎◌, [], Err, List, Ok, ℕ, IfErr, IfOk, OnOk};
ghost use Rattle.std.specs.Io.{IsEmptyOrEndsWith};
ghost use Rattle.bayou_streams.specs.Account.{TakesBytes, TakesFront};

use crate::fault::RunFault;
use crate::writing::write_text;
use bayou_base::limits::PIECE_BYTES;
use bayou_streams::Output;
use std::alloc::{AllocError, Global};
use std::io::Write;

/// Lines that wait to be written.
#[derive(Drop)]
pub struct Waiting {
    lines: Vec<u8>,
    ghost whole: { IsEmptyOrEndsWith lines.items 10 },
}

impl Waiting {
    ghost use Rattle.bayou_streams.specs.Account.{account};
    ghost use Rattle.bayou_print.specs.Waiting.{Gathers, stage};
    ghost use Rattle.bayou_print.specs.Faults.{IsRunFault};
    ghost use Rattle.bayou_print.specs.declared.fault.RunFault.TheVariants.{Output as OutputFault};
    ghost use Rattle.bayou_print.specs.Turns.{EndsWriting};

    /// None, with room for a piece.
    pub fn new(alloc: Global) -> Result<Self, AllocError>
        ensures { IfOk result (λ waiting. waiting.lines.items ≡ []) }
    {
        let lines = Vec::with_capacity(alloc, PIECE_BYTES)?;
        Ok(Waiting { lines })
    }

    /// Writes them. Where that fails, those that weren't taken are gone.
    pub fn write<W: Write>(&mut self, output: &mut Output<W>) -> Result<(), RunFault>
        ensures whole { OnOk result (TakesBytes (account W.contents output.old) (account W.contents output.new) self.old.lines.items) }
        ensures part { TakesFront (account W.contents output.old) (account W.contents output.new) self.old.lines.items }
        ensures none { self.new.lines.items ≡ [] }
        ensures fault { IfErr result IsRunFault }
        ensures at_output { IfErr result (λ fault. fault ≡ OutputFault) }
        ensures ended { IfErr result (EndsWriting output.new.channel.write_failed output.new.channel.turns_left) }
        ensures ready { OnOk result (output.old.channel.turns_left ≤ output.new.channel.turns_left) }
    {
        let written = write_text(output, self.lines.as_slice());
        self.lines.clear();
        written
    }

    /// Writes them where they would be more than a piece with so many bytes more.
    fn make_room<W: Write>(&mut self, output: &mut Output<W>, more: usize) -> Result<(), RunFault>
        ensures whole { OnOk result (Gathers (stage W.contents output.old self.old) (stage W.contents output.new self.new) [] []) }
        ensures part { (missing : List ℕ) × Gathers (stage W.contents output.old self.old) (stage W.contents output.new self.new) [] missing }
        ensures fault { IfErr result IsRunFault }
        ensures ended { IfErr result (EndsWriting output.new.channel.write_failed output.new.channel.turns_left) }
        ensures ready { OnOk result (output.old.channel.turns_left ≤ output.new.channel.turns_left) }
    {
        if more > PIECE_BYTES.saturating_sub(self.lines.len()) {
            return self.write(output);
        }
        Ok(())
    }

    /// Puts a line, or nothing, after them.
    pub fn print<W: Write>(&mut self, output: &mut Output<W>, line: &[u8]) -> Result<(), RunFault>
        requires { IsEmptyOrEndsWith line.now 10 }
        ensures whole { OnOk result (Gathers (stage W.contents output.old self.old) (stage W.contents output.new self.new) line.now []) }
        ensures part { (missing : List ℕ) × Gathers (stage W.contents output.old self.old) (stage W.contents output.new self.new) line.now missing }
        ensures fault { IfErr result IsRunFault }
        ensures ended { IfErr result (EndsWriting output.new.channel.write_failed output.new.channel.turns_left) }
        ensures ready { OnOk result (output.old.channel.turns_left ≤ output.new.channel.turns_left) }
    {
        self.make_room(output, line.len())?;
        self.lines.extend_from_slice(line)?;
        Ok(())
    }

    /// Writes them, once a run has ended so, unless the output is at fault, and tells how the run ended then. What was printed before want of
    /// memory, or before a fault of the network, is written too; where that fails, that fault still came first.
    pub fn end<A: Drop, W: Write>(
        self,
        ended: Result<A, RunFault>,
        output: &mut Output<W>,
    ) -> Result<A, RunFault>
        requires ended { IfErr ended (EndsWriting output.old.channel.write_failed output.old.channel.turns_left) }
        ensures whole { OnOk result (TakesBytes (account W.contents output.old) (account W.contents output.new) self.lines.items) }
        ensures part { TakesFront (account W.contents output.old) (account W.contents output.new) self.lines.items }
        ensures same { IfOk result (λ told. ended ≡ Ok told) }
        ensures cause { IfErr result (λ fault. (ended ≡ Err fault) ⊎ (fault ≡ OutputFault)) }
        ensures ended { IfErr result (EndsWriting output.new.channel.write_failed output.new.channel.turns_left) }
        ensures ready { OnOk result (output.old.channel.turns_left ≤ output.new.channel.turns_left) }
    {
        let mut waiting = self;
        match ended {
            Ok(told) => {
                waiting.write(output)?;
                Ok(told)
            }
            Err(RunFault::Memory) => {
                let _ = waiting.write(output);
                Err(RunFault::Memory)
            }
            Err(RunFault::Network) => {
                let _ = waiting.write(output);
                Err(RunFault::Network)
            }
            Err(fault) => Err(fault),
        }
    }
}
