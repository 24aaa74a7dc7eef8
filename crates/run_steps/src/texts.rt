//! Writing texts.

ghost use Rattle.std.specs.Prelude.{IfErr, OnOk};
ghost use Rattle.plan_base.specs.Sinks.{Appended};
ghost use Rattle.run_steps.specs.Working.{IsTextOutcome};

use crate::outcome::Outcome;
use plan_base::{Sink, write_all};

/// Writes a text.
pub fn write_text<O: Sink>(out: &mut O, text: &[u8]) -> Result<(), Outcome>
    ensures ok { OnOk result (Appended (O.meaning out.old) (O.meaning out.new) text.now) }
    ensures err { IfErr result (IsTextOutcome (O.meaning out.old) (O.meaning out.new) text.now) }
{
    match write_all(out, text) {
        Ok(()) => Ok(()),
        Err(_) => Err(Outcome::WriteFault),
    }
}
