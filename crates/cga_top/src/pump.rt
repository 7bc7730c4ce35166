ghost use Rattle.std.specs.Prelude.{◌≡◌, ◌<◌, ◌≤◌, ◌++◌, ◌∷◌, ℕ, None, OnOk, OnErr, IsTrue, [], length};
ghost use Rattle.std.specs.Io.KnownBytes.{Appends, Keeps};
ghost use Rattle.cga_outside.specs.Causes.{HasCause};
ghost use Rattle.cga_script.specs.Lines.{Line, cut, lines_of};
ghost use Rattle.cga_script.specs.Pending.{IsBlankFront, kept_of, ready_line};
ghost use Rattle.cga_script.specs.declared.ending.Ending.TheVariants as ending;
ghost use Rattle.cga_top.specs.State.{State};
ghost use Rattle.cga_top.specs.Lived.{Begun, IsHere, Lived};
ghost use Rattle.cga_top.specs.Replied.{Replied};
ghost use Rattle.cga_top.specs.Replies.{begun, effect};
ghost use Rattle.cga_top.specs.Reported.{reported};
ghost use Rattle.cga_top.specs.Session.{IsAt};
ghost use Rattle.cga_top.specs.Turns.{Talk};
ghost use Rattle.cga_top.specs.Ready.{IsReady};
ghost use Rattle.cga_top.specs.KeptPart.{IsKeptPart};
ghost use Rattle.cga_top.specs.Prefixes.{AppendsSome};
ghost use Rattle.cga_top.specs.Faults.{FaultsBy};

use crate::halt::Halt;
use crate::report::{Report, write_report};
use crate::session::Session;
use crate::talker::Talker;
use crate::turns::{asks_report, do_line};
use cga_expand::Expansions;
use cga_fraction::{NoMemory, Tests};
use cga_outside::{Failed, Sink};
use cga_script::{Lines, blank_front};
use cga_shape::Changes;
use cga_word::Name;
use std::alloc::Global;
use std::sync::ledger::Ledger;

/// Writes all of the bytes.
pub(crate) fn write_all<K: Sink>(out: &mut K, bytes: &[u8]) -> Result<(), Failed>
    ensures ok { OnOk result (Appends (K.held out.old) (K.held out.new) bytes.now) }
    ensures err { OnErr result (AppendsSome (K.held out.old) (K.held out.new) bytes.now) }
    ensures cause { HasCause (K.faults out.old) (K.faults out.new) result }
{
    let mut rest = bytes;
    while !rest.is_empty() {
        match out.write(rest) {
            Ok(count) => rest = rest.split_at(count).1,
            Err(Failed) => return Err(Failed),
        }
    }
    Ok(())
}

// Writes what is told of the changes.
fn tell<W: Talker, K: Sink>(alloc: Global, changes: &Changes, out: &mut K) -> Result<(), Halt>
    ensures ok { OnOk result (Appends (K.held out.old) (K.held out.new) (W.told changes.now)) }
    ensures err { OnErr result (AppendsSome (K.held out.old) (K.held out.new) (W.told changes.now)) }
    ensures faults { FaultsBy result (K.faults out.old) (K.faults out.new) }
{
    let text = match W::text(alloc, changes) {
        Ok(text) => text,
        Err(NoMemory) => return Err(Halt::NoMemory),
    };
    match write_all(out, text.as_slice()) {
        Ok(()) => Ok(()),
        Err(Failed) => Err(Halt::WriteFault),
    }
}

// Does what the line that is ready asks for, and writes the reply as one text.
fn reply_as_text<K: Sink, E: Ledger, T: Ledger>(
    session: &mut Session,
    lines: &Lines,
    out: &mut K,
    expansions: &mut Expansions<E>,
    tests: &mut Tests<T>,
) -> Result<(), Halt>
    requires { IsReady session.old }
    ensures ok { (s : State) → IsAt s session.old
        → OnOk result (Replied (effect s (ready_line lines.now)) session.old.city.changes session.new (K.held out.old) (K.held out.new)
        expansions.old expansions.new) }
    ensures err { (s : State) (told : Talk) → IsHere s session.old
        → OnErr result (Begun told s (ready_line lines.now ∷ []) (K.held out.old) (K.held out.new)) }
    ensures faults { FaultsBy result (K.faults out.old) (K.faults out.new) }
    ensures ready { OnOk result (IsReady session.new) }
{
    let reply = match do_line(session, lines.line(), lines.is_long(), expansions, tests) {
        Ok(reply) => reply,
        Err(NoMemory) => return Err(Halt::NoMemory),
    };
    match write_all(out, reply.as_slice()) {
        Ok(()) => Ok(()),
        Err(Failed) => Err(Halt::WriteFault),
    }
}

// Replies to a line that asks for a report, lot by lot.
fn reply_by_lots<K: Sink>(
    session: &mut Session,
    out: &mut K,
    report: Report,
    name: Option<Name>,
) -> Result<(), Halt>
    requires { IsReady session.old }
    ensures ok { (s : State) (line : Line) (n : ℕ) → IsAt s session.old → effect s line ≡ reported (begun s) report name
        → OnOk result (Replied (effect s line) session.old.city.changes session.new (K.held out.old) (K.held out.new) n n) }
    ensures err { (s : State) (line : Line) (told : Talk) → IsHere s session.old → effect s line ≡ reported (begun s) report name
        → OnErr result (Begun told s (line ∷ []) (K.held out.old) (K.held out.new)) }
    ensures faults { FaultsBy result (K.faults out.old) (K.faults out.new) }
    ensures ready { OnOk result (IsReady session.new) }
{
    session.fresh = false;
    match write_report(session, out, report, name) {
        Ok(()) => Ok(()),
        Err(halt) => Err(halt),
    }
}

// Does what the line that is ready asks for, and writes the reply.
fn reply_line<K: Sink, E: Ledger, T: Ledger>(
    session: &mut Session,
    lines: &Lines,
    out: &mut K,
    expansions: &mut Expansions<E>,
    tests: &mut Tests<T>,
) -> Result<(), Halt>
    requires { IsReady session.old }
    ensures ok { (s : State) → IsAt s session.old
        → OnOk result (Replied (effect s (ready_line lines.now)) session.old.city.changes session.new (K.held out.old) (K.held out.new)
        expansions.old expansions.new) }
    ensures err { (s : State) (told : Talk) → IsHere s session.old
        → OnErr result (Begun told s (ready_line lines.now ∷ []) (K.held out.old) (K.held out.new)) }
    ensures faults { FaultsBy result (K.faults out.old) (K.faults out.new) }
    ensures ready { OnOk result (IsReady session.new) }
{
    match asks_report(session, lines.line(), lines.is_long()) {
        Ok(Some((report, name))) => reply_by_lots(session, out, report, name),
        Ok(None) => reply_as_text(session, lines, out, expansions, tests),
        Err(NoMemory) => Err(Halt::NoMemory),
    }
}

/// Does what the line that is ready asks for, and writes the reply and what is told of its changes, which are forgotten then.
pub(crate) fn take_line<W: Talker, K: Sink, E: Ledger, T: Ledger>(
    session: &mut Session,
    lines: &mut Lines,
    out: &mut K,
    expansions: &mut Expansions<E>,
    tests: &mut Tests<T>,
) -> Result<(), Halt>
    requires { IsReady session.old }
    ensures ok { (s : State) → IsHere s session.old
        → OnOk result (Lived W.told s (ready_line lines.old ∷ []) session.new (K.held out.old) (K.held out.new)
        expansions.old expansions.new) }
    ensures err { (s : State) → IsHere s session.old
        → OnErr result (Begun W.told s (ready_line lines.old ∷ []) (K.held out.old) (K.held out.new)) }
    ensures faults { FaultsBy result (K.faults out.old) (K.faults out.new) }
    ensures ready { OnOk result (IsReady session.new) }
    ensures lines { OnOk result (lines.new ≡ record { kept = []; ending = ending.Open }) }
{
    match reply_line(session, lines, out, expansions, tests) {
        Ok(()) => {}
        Err(halt) => return Err(halt),
    }
    match tell::<W, _>(session.alloc, session.changes(), out) {
        Ok(()) => {}
        Err(halt) => return Err(halt),
    }
    lines.clear();
    session.forget_changes();
    Ok(())
}

// How many bytes at the front of a piece are a line that asks for nothing, seen before it is cut and read: a blank one
// outside of a block, of which nothing is kept yet. Otherwise 0.
fn passed_over(session: &Session, lines: &Lines, piece: &[u8]) -> usize
    ensures within { result ≤ length piece.now }
    ensures blank { 0 < result → (lines.now.kept ≡ []) × (session.now.block ≡ None) × IsBlankFront piece.now result }
{
    if lines.is_empty() && session.block.is_none() {
        blank_front(piece)
    } else {
        0
    }
}

/// Does what the lines of a piece ask for, each as it is complete, and writes the replies and what is told.
pub(crate) fn take_piece<W: Talker, K: Sink, E: Ledger, T: Ledger>(
    session: &mut Session,
    lines: &mut Lines,
    piece: &[u8],
    out: &mut K,
    expansions: &mut Expansions<E>,
    tests: &mut Tests<T>,
) -> Result<(), Halt>
    requires part { IsKeptPart lines.old }
    requires ready { IsReady session.old }
    ensures ok { (s : State) → IsHere s session.old
        → OnOk result (Lived W.told s (lines_of (lines.old.kept ++ piece.now)) session.new (K.held out.old)
        (K.held out.new) expansions.old expansions.new) }
    ensures err { (s : State) → IsHere s session.old
        → OnErr result (Begun W.told s (lines_of (lines.old.kept ++ piece.now)) (K.held out.old) (K.held out.new)) }
    ensures faults { FaultsBy result (K.faults out.old) (K.faults out.new) }
    ensures ready { OnOk result (IsReady session.new) }
    ensures lines { OnOk result (lines.new ≡ record {
      kept = kept_of (cut
          (lines.old.kept ++ piece.now)).rest;
      ending = ending.Open;
    }) }
{
    W::tells_changes();
    let mut rest = piece;
    while !rest.is_empty() {
        let passed = passed_over(session, lines, rest);
        if passed > 0 {
            rest = rest.split_at(passed).1;
            continue;
        }
        let fed = lines.feed(rest);
        rest = rest.split_at(fed.taken).1;
        if fed.ready {
            match take_line::<W, _, _, _>(session, lines, out, expansions, tests) {
                Ok(()) => {}
                Err(halt) => return Err(halt),
            }
        }
    }
    Ok(())
}

/// Sends the replies on.
pub(crate) fn send_on<K: Sink>(out: &mut K) -> Result<(), Halt>
    ensures flushed { OnOk result (IsTrue (K.flushed out.new)) }
    ensures faults { FaultsBy result (K.faults out.old) (K.faults out.new) }
    ensures bytes { Keeps (K.held out.old) (K.held out.new) }
{
    match out.flush() {
        Ok(()) => Ok(()),
        Err(Failed) => Err(Halt::WriteFault),
    }
}

/// Replies to the lines that a piece ends, and sends the replies on.
pub(crate) fn reply_to<W: Talker, K: Sink, E: Ledger, T: Ledger>(
    session: &mut Session,
    lines: &mut Lines,
    piece: &[u8],
    out: &mut K,
    expansions: &mut Expansions<E>,
    tests: &mut Tests<T>,
) -> Result<(), Halt>
    requires part { IsKeptPart lines.old }
    requires ready { IsReady session.old }
    ensures ok { (s : State) → IsHere s session.old
        → OnOk result (Lived W.told s (lines_of (lines.old.kept ++ piece.now)) session.new (K.held out.old)
        (K.held out.new) expansions.old expansions.new) }
    ensures err { (s : State) → IsHere s session.old
        → OnErr result (Begun W.told s (lines_of (lines.old.kept ++ piece.now)) (K.held out.old) (K.held out.new)) }
    ensures flushed { OnOk result (IsTrue (K.flushed out.new)) }
    ensures faults { FaultsBy result (K.faults out.old) (K.faults out.new) }
    ensures ready { OnOk result (IsReady session.new) }
    ensures lines { OnOk result (lines.new ≡ record {
      kept = kept_of (cut
          (lines.old.kept ++ piece.now)).rest;
      ending = ending.Open;
    }) }
{
    match take_piece::<W, _, _, _>(session, lines, piece, out, expansions, tests) {
        Ok(()) => {}
        Err(halt) => return Err(halt),
    }
    match send_on(out) {
        Ok(()) => Ok(()),
        Err(halt) => Err(halt),
    }
}
