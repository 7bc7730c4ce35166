ghost use Rattle.std.specs.Prelude.{◌≡◌, ◌≢◌, ◌⊎◌, ◌≤◌, ◌++◌, List, ℕ, Option, None, map, string_bytes, true, unwrap_or, IfSome, IsTrue};
ghost use Rattle.std.specs.Io.KnownBytes.{Appends};
ghost use Rattle.cga_city.specs.Derived.{members};
ghost use Rattle.cga_outside.specs.Causes.{Rose};
ghost use Rattle.cga_top.specs.Hulls.{IsHullText, IsToldOf};
ghost use Rattle.cga_top.specs.Output.{output_of};
ghost use Rattle.cga_top.specs.Outside.{Outside, outside_of};
ghost use Rattle.cga_top.specs.Ready.{IsReady};
ghost use Rattle.cga_top.specs.Lived.{IsHere};
ghost use Rattle.cga_top.specs.State.{start};
ghost use Rattle.cga_top.specs.Statuses.{HoldsFew};
ghost use Rattle.cga_top.specs.Telling.{TellMeans, TellingMeans, sunk_at};
ghost use Rattle.cga_words.specs.Plain.{plain_words};
ghost use Rattle.cga_words.specs.Words.{IsTownless, decimals_of};

use crate::decimals::Decimals;
use crate::hulls::hulls_text;
use crate::pump::write_all;
use crate::session::{Session, new_session};
use crate::talker::Silent;
use crate::top::{flushed, run_in};
use cga_expand::Expansions;
use cga_fraction::{NoMemory, Tests};
use cga_outside::{Failed, Sink, Source};
use cga_words::{Status, WordsFault, read_decimals};
use std::alloc::Global;
use std::mem::forget;
use std::sync::ledger::Ledger;

// Tells the boxes of the lots.
fn tell<K: Sink>(session: &Session, out: &mut K) -> Status
    requires { IsTrue session.now.city.warm }
    ensures told { result ≡ Status.Done → (text : List ℕ)
        × IsHullText (members session.now.city.budget session.now.city.sources) session.now.city.sources.lots text
        × Appends (K.held out.old) (K.held out.new) text }
    ensures means { (o : Outside) → TellMeans (IsHullText (members session.now.city.budget session.now.city.sources) session.now.city.sources.lots) result
        (sunk_at K.Sink o out.old) (sunk_at K.Sink o out.new) }
    ensures used { result ≢ Status.Usage }
{
    let text = match hulls_text(session.alloc, &session.city) {
        Ok(text) => text,
        Err(NoMemory) => return Status::NoMemory,
    };
    match write_all(out, text.as_slice()) {
        Ok(()) => flushed(out, Status::Done),
        Err(Failed) => Status::WriteFault,
    }
}

// Replies to a script, and then tells the boxes.
fn run_and_tell<S: Source, K: Sink, E: Ledger, T: Ledger>(
    session: &mut Session,
    script: &mut S,
    out: &mut K,
    expansions: &mut Expansions<E>,
    tests: &mut Tests<T>,
) -> Status
    requires session { IsHere (start session.old.decimals) session.old }
    requires ready { IsReady session.old }
    ensures told { result ≡ Status.Done → IfSome (S.left script.old) (λ bytes. (text : List ℕ)
        × IsToldOf session.old.decimals bytes text
        × Appends (K.held out.old) (K.held out.new) (output_of session.old.decimals bytes ++ text)) }
    ensures means { TellingMeans session.old.decimals result
        (outside_of S.Source K.Sink script.old out.old expansions.old)
        (outside_of S.Source K.Sink script.new out.new expansions.new) }
    ensures used { result ≢ Status.Usage }
    ensures complete { HoldsFew (S.left script.old)
        → (Rose (S.faults script.old) (S.faults script.new) → ⊥)
        → (Rose (K.faults out.old) (K.faults out.new) → ⊥)
        → (result ≡ Status.Done) ⊎ (result ≡ Status.NoMemory) }
{
    match run_in::<Silent, _, _, _, _>(session, script, out, expansions, tests) {
        Status::Done => tell(session, out),
        other => other,
    }
}

// Runs a script and tells its changes, with a session of its own.
fn told_of<S: Source, K: Sink, E: Ledger, T: Ledger>(
    alloc: Global,
    decimals: Decimals,
    script: &mut S,
    out: &mut K,
    expansions: &mut Expansions<E>,
    tests: &mut Tests<T>,
) -> Status
    ensures told { result ≡ Status.Done → IfSome (S.left script.old) (λ bytes. (text : List ℕ)
        × IsToldOf decimals bytes text
        × Appends (K.held out.old) (K.held out.new) (output_of decimals bytes ++ text)) }
    ensures means { TellingMeans decimals result
        (outside_of S.Source K.Sink script.old out.old expansions.old)
        (outside_of S.Source K.Sink script.new out.new expansions.new) }
    ensures used { result ≢ Status.Usage }
    ensures complete { HoldsFew (S.left script.old)
        → (Rose (S.faults script.old) (S.faults script.new) → ⊥)
        → (Rose (K.faults out.old) (K.faults out.new) → ⊥)
        → (result ≡ Status.Done) ⊎ (result ≡ Status.NoMemory) }
{
    let mut session = match new_session(alloc, decimals) {
        Ok(session) => session,
        Err(NoMemory) => return Status::NoMemory,
    };
    let status = run_and_tell(&mut session, script, out, expansions, tests);
    forget(session);
    status
}

/// Replies to a script as `run_city` does, and behind all replies writes for each lot the least box that holds the boxes
/// of all its shapes, drawn or not, as exact numbers. The words are the whole command line, the program's name first:
/// `--decimals N`, 0 to 9. Only Done says that all was written. Takes memory.
pub fn run_with_hulls<S: Source, K: Sink, E: Ledger, T: Ledger>(
    alloc: Global,
    words: &[String],
    script: &mut S,
    out: &mut K,
    expansions: &mut Expansions<E>,
    tests: &mut Tests<T>,
) -> Status
    // Where all was done, what was written is the output and behind it the boxes.
    ensures told { let texts = map string_bytes words.now in result ≡ Status.Done → IfSome (S.left script.old) (λ bytes. (text : List ℕ)
        × IsToldOf (decimals_of texts) bytes text
        × Appends (K.held out.old) (K.held out.new) (output_of (decimals_of texts) bytes ++ text)) }

    // When each status comes, and what was read and written then: as that of `run_city`, with what is told behind the output.
    ensures means { TellingMeans (decimals_of (map string_bytes words.now)) result
        (outside_of S.Source K.Sink script.old out.old expansions.old)
        (outside_of S.Source K.Sink script.new out.new expansions.new) }

    // Usage comes where `clap` refuses the words or they ask for a town, and then nothing else does, but for memory.
    ensures usage { result ≡ Status.Usage → IsTownless (map string_bytes words.now) → ⊥ }
    ensures refused { (IsTownless (map string_bytes words.now) → ⊥)
        → (result ≡ Status.Usage) ⊎ (result ≡ Status.NoMemory) }

    // Words that are written plainly aren't refused, and say what they seem to.
    ensures plain { (name : List ℕ) (decimals : Option ℕ)
        → IfSome decimals (λ n. n ≤ 9)
        → map string_bytes words.now ≡ plain_words name true decimals None
        → (result ≢ Status.Usage)
        × (decimals_of (map string_bytes words.now) ≡ unwrap_or decimals 6) }

    // Nothing but a fault, a script that is too long and want of memory keeps a script from being done.
    ensures complete { IsTownless (map string_bytes words.now)
        → HoldsFew (S.left script.old)
        → (Rose (S.faults script.old) (S.faults script.new) → ⊥)
        → (Rose (K.faults out.old) (K.faults out.new) → ⊥)
        → (result ≡ Status.Done) ⊎ (result ≡ Status.NoMemory) }
{
    let decimals = match read_decimals(alloc, words) {
        Ok(decimals) => decimals,
        Err(WordsFault::Usage) => return Status::Usage,
        Err(WordsFault::NoMemory) => return Status::NoMemory,
    };
    let decimals = Decimals::new(decimals);
    told_of(alloc, decimals, script, out, expansions, tests)
}
