ghost use Rattle.std.specs.Prelude.{◌≡◌, List, ℕ, OnOk, OnErr};
ghost use Rattle.std.specs.Io.KnownBytes.{Appends};
ghost use Rattle.cga_script.specs.Pending.{kept_of};
ghost use Rattle.cga_script.specs.declared.ending.Ending.TheVariants as ending;
ghost use Rattle.cga_top.specs.State.{State};
ghost use Rattle.cga_top.specs.Replies.{at_end};
ghost use Rattle.cga_top.specs.Faults.{FaultsBy};
ghost use Rattle.cga_top.specs.Lived.{Begun, Finished, IsHere, Lived, Unfinished};
ghost use Rattle.cga_top.specs.Session.{IsAt};
ghost use Rattle.cga_top.specs.Ready.{IsReady};
ghost use Rattle.cga_top.specs.Prefixes.{AppendsSome};
ghost use Rattle.cga_top.specs.Turns.{last_of};

use crate::halt::Halt;
use crate::pump::{take_line, write_all};
use crate::session::Session;
use crate::talker::Talker;
use cga_expand::Expansions;
use cga_fraction::{NoMemory, Tests};
use cga_outside::{Failed, Sink};
use cga_script::{Lines, Refused, refusal_text};
use std::sync::ledger::Ledger;

// The line after the last LF, if there is one.
fn end_line<W: Talker, K: Sink, E: Ledger, T: Ledger>(
    session: &mut Session,
    lines: &mut Lines,
    out: &mut K,
    expansions: &mut Expansions<E>,
    tests: &mut Tests<T>,
) -> Result<(), Halt>
    requires goes_on { lines.old.ending ≡ ending.Open }
    requires ready { IsReady session.old }
    ensures ok { (s : State) (rest : List ℕ) → IsHere s session.old
        → lines.old.kept ≡ kept_of rest
        → OnOk result (Lived W.told s (last_of rest) session.new (K.held out.old) (K.held out.new)
        expansions.old expansions.new) }
    ensures err { (s : State) (rest : List ℕ) → IsHere s session.old
        → lines.old.kept ≡ kept_of rest
        → OnErr result (Begun W.told s (last_of rest) (K.held out.old) (K.held out.new)) }
    ensures faults { FaultsBy result (K.faults out.old) (K.faults out.new) }
{
    if lines.finish() {
        match take_line::<W, _, _, _>(session, lines, out, expansions, tests) {
            Ok(()) => {}
            Err(halt) => return Err(halt),
        }
    }
    Ok(())
}

// Refuses a block that is still open.
fn end_block<K: Sink>(session: &Session, out: &mut K) -> Result<(), Halt>
    ensures ok { (s : State) → IsAt s session.now
        → OnOk result (Appends (K.held out.old) (K.held out.new) (at_end s).reply) }
    ensures err { (s : State) → IsAt s session.now
        → OnErr result (AppendsSome (K.held out.old) (K.held out.new) (at_end s).reply) }
    ensures faults { FaultsBy result (K.faults out.old) (K.faults out.new) }
{
    if session.block.is_some() {
        let text = match refusal_text(session.alloc, &Refused::OpenBlock) {
            Ok(text) => text,
            Err(NoMemory) => return Err(Halt::NoMemory),
        };
        match write_all(out, text.as_slice()) {
            Ok(()) => {}
            Err(Failed) => return Err(Halt::WriteFault),
        }
    }
    Ok(())
}

/// What comes after the last line that an LF ends.
pub(crate) fn end_script<W: Talker, K: Sink, E: Ledger, T: Ledger>(
    session: &mut Session,
    lines: &mut Lines,
    out: &mut K,
    expansions: &mut Expansions<E>,
    tests: &mut Tests<T>,
) -> Result<(), Halt>
    requires goes_on { lines.old.ending ≡ ending.Open }
    requires ready { IsReady session.old }
    ensures ok { (s : State) (rest : List ℕ) → IsHere s session.old
        → lines.old.kept ≡ kept_of rest
        → OnOk result (Finished W.told s (last_of rest) session.new (K.held out.old) (K.held out.new)
        expansions.old expansions.new) }
    ensures err { (s : State) (rest : List ℕ) → IsHere s session.old
        → lines.old.kept ≡ kept_of rest
        → OnErr result (Unfinished W.told s (last_of rest) (K.held out.old) (K.held out.new)) }
    ensures faults { FaultsBy result (K.faults out.old) (K.faults out.new) }
{
    match end_line::<W, _, _, _>(session, lines, out, expansions, tests) {
        Ok(()) => {}
        Err(halt) => return Err(halt),
    }
    match end_block(session, out) {
        Ok(()) => Ok(()),
        Err(halt) => Err(halt),
    }
}
