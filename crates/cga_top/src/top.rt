ghost use Rattle.std.specs.Prelude.{◌≡◌, ◌≢◌, ◌⊎◌, ◌++◌, List, ℕ, Bool, Option, [], map, string_bytes, unwrap_or, OnOk, OnErr, IfSome, IsTrue, IsFalse};
ghost use Rattle.std.specs.Io.KnownBytes.{Keeps, Appends};
ghost use Rattle.cga_outside.specs.Causes.{Rose};
ghost use Rattle.clap.specs.Words.{fault_of};
ghost use Rattle.cga_words.specs.Plain.{IsPlain, plain_words};
ghost use Rattle.cga_words.specs.Town.{town_text};
ghost use Rattle.cga_words.specs.Words.{command_app, decimals_of, town_of, IsTown};
ghost use Rattle.cga_top.specs.State.{start};
ghost use Rattle.cga_top.specs.Output.{effect_of_script, output_of};
ghost use Rattle.cga_top.specs.Outside.{outside_of};
ghost use Rattle.cga_top.specs.Faults.{FaultsBy};
ghost use Rattle.cga_top.specs.Effect.{HasSpent};
ghost use Rattle.cga_top.specs.Lived.{IsHere};
ghost use Rattle.cga_top.specs.Session.{IsAt};
ghost use Rattle.cga_top.specs.Ready.{IsReady};
ghost use Rattle.cga_top.specs.Prefixes.{AppendsSome};
ghost use Rattle.cga_top.specs.Reads.{pending_after};
ghost use Rattle.cga_top.specs.Statuses.{HoldsFew, StatusMeans};
ghost use Rattle.cga_top.specs.Talks.{TalkMeans};
ghost use Rattle.cga_top.specs.Runs.{GivenMeans, RunMeans, HoldsFewOr, IsScript, script_of, sunk_in};

use crate::decimals::Decimals;
use crate::halt::Halt;
use crate::pump::take_piece;
use crate::read_end::ReadEnd;
use crate::reads::read_lines;
use crate::script_end::end_script;
use crate::session::{Session, new_session};
use crate::talker::{Silent, Talker};
use cga_expand::Expansions;
use cga_fraction::{NoMemory, Tests};
use cga_outside::{Failed, Sink, Source};
use cga_script::Lines;
use cga_words::{Status, WordsFault, read_words, town_script};
use std::alloc::Global;
use std::mem::forget;
use std::sync::ledger::Ledger;

// How a run ends that stops.
fn status_of(halt: Halt) -> Status
    ensures write { halt ≡ Halt.WriteFault → result ≡ Status.WriteFault }
    ensures memory { halt ≡ Halt.NoMemory → result ≡ Status.NoMemory }
    ensures used { result ≢ Status.Usage }
    ensures done { result ≢ Status.Done }
{
    match halt {
        Halt::WriteFault => Status::WriteFault,
        Halt::NoMemory => Status::NoMemory,
    }
}

/// Flushes, and gives the status where that is done.
pub(crate) fn flushed<K: Sink>(out: &mut K, status: Status) -> Status
    ensures answers { (result ≡ status) ⊎ (result ≡ Status.WriteFault) }
    ensures done { result ≢ Status.WriteFault → IsTrue (K.flushed out.new) }
    ensures fault { result ≢ status → Rose (K.faults out.old) (K.faults out.new) }
    ensures calm { result ≢ Status.WriteFault → K.faults out.new ≡ K.faults out.old }
    ensures bytes { Keeps (K.held out.old) (K.held out.new) }
{
    match out.flush() {
        Ok(()) => status,
        Err(Failed) => Status::WriteFault,
    }
}

/// Replies to a script while it is read, and tells behind each reply what the talker tells.
pub(crate) fn run_in<W: Talker, S: Source, K: Sink, E: Ledger, T: Ledger>(
    session: &mut Session,
    script: &mut S,
    out: &mut K,
    expansions: &mut Expansions<E>,
    tests: &mut Tests<T>,
) -> Status
    requires session { IsHere (start session.old.decimals) session.old }
    requires ready { IsReady session.old }
    ensures means { TalkMeans W.told session.old.decimals result
        (outside_of S.Source K.Sink script.old out.old expansions.old)
        (outside_of S.Source K.Sink script.new out.new expansions.new) }
    ensures used { result ≢ Status.Usage }
    ensures complete { HoldsFew (S.left script.old)
        → (Rose (S.faults script.old) (S.faults script.new) → ⊥)
        → (Rose (K.faults out.old) (K.faults out.new) → ⊥)
        → (result ≡ Status.Done) ⊎ (result ≡ Status.NoMemory) }
    ensures warm { result ≡ Status.Done → IsTrue session.new.city.warm }
    ensures came { result ≡ Status.Done → (bytes : List ℕ)
        × (S.given script.new ≡ S.given script.old ++ bytes)
        × IsAt (effect_of_script session.old.decimals bytes).state session.new }
{
    let mut lines = match Lines::new(session.alloc) {
        Ok(lines) => lines,
        Err(NoMemory) => return Status::NoMemory,
    };
    match read_lines::<W, _, _, _, _>(session, &mut lines, script, out, expansions, tests) {
        ReadEnd::Ended => match end_script::<W, _, _, _>(
            session, &mut lines, out, expansions, tests,
        ) {
            Ok(()) => flushed(out, Status::Done),
            Err(halt) => status_of(halt),
        },
        ReadEnd::Failed => flushed(out, Status::ReadFault),
        ReadEnd::TooLong => flushed(out, Status::TooLong),
        ReadEnd::Halted(halt) => status_of(halt),
    }
}

/// Replies to a script while it is read, with a session of its own, and writes behind each reply what the talker tells of
/// the line. `means` says when each status comes, and what was read and written then. Takes memory.
pub fn run_script<W: Talker, S: Source, K: Sink, E: Ledger, T: Ledger>(
    alloc: Global,
    decimals: Decimals,
    script: &mut S,
    out: &mut K,
    expansions: &mut Expansions<E>,
    tests: &mut Tests<T>,
) -> Status
    ensures means { TalkMeans W.told decimals result
        (outside_of S.Source K.Sink script.old out.old expansions.old)
        (outside_of S.Source K.Sink script.new out.new expansions.new) }
    ensures used { result ≢ Status.Usage }
    ensures complete { HoldsFew (S.left script.old)
        → (Rose (S.faults script.old) (S.faults script.new) → ⊥)
        → (Rose (K.faults out.old) (K.faults out.new) → ⊥)
        → (result ≡ Status.Done) ⊎ (result ≡ Status.NoMemory) }
{
    let mut session = match new_session(alloc, decimals) {
        Ok(session) => session,
        Err(NoMemory) => return Status::NoMemory,
    };
    let status = run_in::<W, _, _, _, _>(&mut session, script, out, expansions, tests);
    forget(session);
    status
}

// Runs a script, and tells nothing beside the replies.
fn run_silent<S: Source, K: Sink, E: Ledger, T: Ledger>(
    alloc: Global,
    decimals: Decimals,
    script: &mut S,
    out: &mut K,
    expansions: &mut Expansions<E>,
    tests: &mut Tests<T>,
) -> Status
    ensures means { StatusMeans decimals result
        (outside_of S.Source K.Sink script.old out.old expansions.old)
        (outside_of S.Source K.Sink script.new out.new expansions.new) }
    ensures used { result ≢ Status.Usage }
    ensures complete { HoldsFew (S.left script.old)
        → (Rose (S.faults script.old) (S.faults script.new) → ⊥)
        → (Rose (K.faults out.old) (K.faults out.new) → ⊥)
        → (result ≡ Status.Done) ⊎ (result ≡ Status.NoMemory) }
{
    run_script::<Silent, _, _, _, _>(alloc, decimals, script, out, expansions, tests)
}

// Replies to lines that are all there, up to the end of their script.
fn take_all<K: Sink, E: Ledger, T: Ledger>(
    session: &mut Session,
    lines: &mut Lines,
    script: &[u8],
    out: &mut K,
    expansions: &mut Expansions<E>,
    tests: &mut Tests<T>,
) -> Result<(), Halt>
    requires session { IsHere (start session.old.decimals) session.old }
    requires ready { IsReady session.old }
    requires lines { lines.old ≡ pending_after [] }
    ensures ok { OnOk result (Appends (K.held out.old) (K.held out.new)
        (output_of session.old.decimals script.now)) }
    ensures spent { OnOk result (HasSpent (effect_of_script session.old.decimals script.now).works
        expansions.old expansions.new) }
    ensures err { OnErr result (AppendsSome (K.held out.old) (K.held out.new)
        (output_of session.old.decimals script.now)) }
    ensures faults { FaultsBy result (K.faults out.old) (K.faults out.new) }
{
    match take_piece::<Silent, _, _, _>(session, lines, script, out, expansions, tests) {
        Ok(()) => {}
        Err(halt) => return Err(halt),
    }
    match end_script::<Silent, _, _, _>(session, lines, out, expansions, tests) {
        Ok(()) => Ok(()),
        Err(halt) => Err(halt),
    }
}

// Replies to a script that is there as a whole.
fn given_in<K: Sink, E: Ledger, T: Ledger>(
    session: &mut Session,
    script: &[u8],
    out: &mut K,
    expansions: &mut Expansions<E>,
    tests: &mut Tests<T>,
) -> Status
    requires session { IsHere (start session.old.decimals) session.old }
    requires ready { IsReady session.old }
    ensures means { GivenMeans session.old.decimals script.now result
        (sunk_in K.Sink out.old expansions.old) (sunk_in K.Sink out.new expansions.new) }
    ensures used { result ≢ Status.Usage }
{
    let mut lines = match Lines::new(session.alloc) {
        Ok(lines) => lines,
        Err(NoMemory) => return Status::NoMemory,
    };
    match take_all(session, &mut lines, script, out, expansions, tests) {
        Ok(()) => flushed(out, Status::Done),
        Err(halt) => status_of(halt),
    }
}

// Runs a script with a session of its own.
pub(crate) fn run_given<K: Sink, E: Ledger, T: Ledger>(
    alloc: Global,
    decimals: Decimals,
    script: &[u8],
    out: &mut K,
    expansions: &mut Expansions<E>,
    tests: &mut Tests<T>,
) -> Status
    ensures means { GivenMeans decimals script.now result
        (sunk_in K.Sink out.old expansions.old) (sunk_in K.Sink out.new expansions.new) }
    ensures used { result ≢ Status.Usage }
{
    let mut session = match new_session(alloc, decimals) {
        Ok(session) => session,
        Err(NoMemory) => return Status::NoMemory,
    };
    let status = given_in(&mut session, script, out, expansions, tests);
    drop(session);
    status
}

// Replies to the script of a town.
fn run_town<K: Sink, E: Ledger, T: Ledger>(
    alloc: Global,
    decimals: Decimals,
    lots: u32,
    out: &mut K,
    expansions: &mut Expansions<E>,
    tests: &mut Tests<T>,
) -> Status
    requires { IsTown lots }
    ensures means { GivenMeans decimals (town_text lots) result
        (sunk_in K.Sink out.old expansions.old) (sunk_in K.Sink out.new expansions.new) }
    ensures used { result ≢ Status.Usage }
{
    match town_script(alloc, lots) {
        Ok(script) => run_given(alloc, decimals, script.as_slice(), out, expansions, tests),
        Err(NoMemory) => Status::NoMemory,
    }
}

/// Replies to a script, each line as it is complete. The words are the whole command line, the program's name
/// first: `--decimals N`, 0 to 9, and `--town N`, 1 to 200, with which the script is that of the town and the source
/// isn't read. The source is read in pieces of at most 4,096 bytes, and no more than 67,108,864 bytes of it are
/// replied to. The memory that is taken grows with the city, the longest reply other than a print and the block that is
/// being read, and not with the rest of the script.
///
/// What a read completes is replied to, and the replies are flushed, before the next read. That is tested: no
/// clause ties the reads of the source to the flushes of the sink.
///
/// The reply to a script is `output_of` its bytes: line by line, that of deriving the sources of then from nothing.
pub fn run_city<S: Source, K: Sink, E: Ledger, T: Ledger>(
    alloc: Global,
    words: &[String],
    script: &mut S,
    out: &mut K,
    expansions: &mut Expansions<E>,
    tests: &mut Tests<T>,
) -> Status
    requires { IsFalse (S.ended script.old) }

    // Where all was done, what the sink holds is what it held and the output of what the source gave.
    ensures given { let texts = map string_bytes words.now in result ≡ Status.Done → (bytes : List ℕ)
        × IsScript (town_of texts) (S.given script.old) (S.given script.new) bytes
        × Appends (K.held out.old) (K.held out.new) (output_of (decimals_of texts) bytes) }

    // Where the source tells what is left, that is the script.
    ensures headline { let texts = map string_bytes words.now in result ≡ Status.Done
        → IfSome (script_of (town_of texts) (S.left script.old)) (λ bytes.
        Appends (K.held out.old) (K.held out.new) (output_of (decimals_of texts) bytes)) }

    // When each status comes, and what was read and written then.
    ensures means { let texts = map string_bytes words.now in
        RunMeans (decimals_of texts) (town_of texts) result
        (outside_of S.Source K.Sink script.old out.old expansions.old)
        (outside_of S.Source K.Sink script.new out.new expansions.new) }

    // Usage comes where `clap` refuses the words, and then nothing else does, but for memory.
    ensures usage { result ≡ Status.Usage → fault_of command_app (map string_bytes words.now) ≢ [] }
    ensures refused { fault_of command_app (map string_bytes words.now) ≢ []
        → (result ≡ Status.Usage) ⊎ (result ≡ Status.NoMemory) }

    // Words that are written plainly aren't refused, and say what they seem to.
    ensures plain { (name : List ℕ) (first : Bool) (decimals town : Option ℕ)
        → IsPlain decimals town
        → map string_bytes words.now ≡ plain_words name first decimals town
        → (result ≢ Status.Usage)
        × (decimals_of (map string_bytes words.now) ≡ unwrap_or decimals 6)
        × (town_of (map string_bytes words.now) ≡ town) }

    // Nothing but a fault, a script that is too long and want of memory keeps a script from being done.
    ensures complete { let texts = map string_bytes words.now in fault_of command_app texts ≡ []
        → HoldsFewOr (town_of texts) (S.left script.old)
        → (Rose (S.faults script.old) (S.faults script.new) → ⊥)
        → (Rose (K.faults out.old) (K.faults out.new) → ⊥)
        → (result ≡ Status.Done) ⊎ (result ≡ Status.NoMemory) }
{
    let wanted = match read_words(alloc, words) {
        Ok(wanted) => wanted,
        Err(WordsFault::Usage) => return Status::Usage,
        Err(WordsFault::NoMemory) => return Status::NoMemory,
    };
    let decimals = Decimals::new(wanted.decimals);
    match wanted.town {
        Some(lots) => run_town(alloc, decimals, lots, out, expansions, tests),
        None => run_silent(alloc, decimals, script, out, expansions, tests),
    }
}
