ghost use Rattle.std.specs.Prelude.{◌≡◌, ◌≤◌, true, OnOk, IfErr};
ghost use Rattle.std.specs.Io.{IsEmptyOrEndsWith};
ghost use Rattle.bayou_streams.specs.Account.{TakesBytes, TakesFront, account};
ghost use Rattle.bayou_print.specs.declared.fault.RunFault.TheVariants.{Output as OutputFault};
ghost use Rattle.bayou_print.specs.Telling.{IsPut};
ghost use Rattle.bayou_print.specs.Turns.{HasEnded};

use crate::fault::RunFault;
use bayou_streams::{Output, StreamFault};
use std::io::Write;

/// Writes the whole text. It ends with `Output` only where a call of the writer failed or all turns of a line were taken.
pub fn write_text<W: Write>(output: &mut Output<W>, text: &[u8]) -> Result<(), RunFault>
    ensures whole { OnOk result (TakesBytes (account W.contents output.old) (account W.contents output.new) text.now) }
    ensures fault { IfErr result (λ fault. fault ≡ OutputFault) }
    ensures ended { IfErr result (λ fault. HasEnded output.new.channel.write_failed output.new.channel.turns_left) }
    // No call of it failed where the whole was written.
    ensures clean { OnOk result (output.new.channel.write_failed ≡ true → output.old.channel.write_failed ≡ true) }
    ensures part { TakesFront (account W.contents output.old) (account W.contents output.new) text.now }
    ensures put { IsPut text.now (account W.contents output.old) (account W.contents output.new) output.new.channel.write_failed }
    // After a whole line there are as many turns left as there may be.
    ensures ready { OnOk result (IsEmptyOrEndsWith text.now 10 → output.old.channel.turns_left ≤ output.new.channel.turns_left) }
{
    match output.write_lines(text) {
        Ok(()) => Ok(()),
        Err(StreamFault::Failed | StreamFault::TooManyTurns) => Err(RunFault::Output),
    }
}
