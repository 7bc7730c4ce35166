//! A program beside `cga_city`: it replies to a script in the same way, and after the reply to each accepted edit tells
//! which instances went and which came by it.
//!
//! It must not know rules, lots, lines or how an edit is worked. It gives the run of a script what is told of changes.
//! Whoever applies what is told to the instances that are kept, none at first, has those that a `print` would
//! draw.
//!
//! What callers get wrong: without the exit status 0 the last of what was told may be there in part.
#![tactic(auto)]

mod changed;

ghost use Rattle.std.specs.Prelude.{◌≡◌, ◌≢◌, ◌<◌, ◌⊎◌, ◌++◌, List, ℕ, [], ◌∷◌, map, string_bytes, IfErr, IfOk, IfSome};
ghost use Rattle.std.specs.Io.KnownBytes.{Appends};
ghost use Rattle.std.specs.IoError.{error_kind};
ghost use Rattle.std.specs.Vec.Iter.{into_iter_items};
ghost use Rattle.cga_live.specs.Live.{IsLiveOf};
ghost use Rattle.cga_live.specs.Means.{LiveMeans};
ghost use Rattle.cga_live.specs.Program.{IsEnd};
ghost use Rattle.cga_outside.specs.Causes.{Rose};
ghost use Rattle.cga_top.specs.Hulls.{usual};
ghost use Rattle.cga_top.specs.Outside.{outside_of};
ghost use Rattle.cga_top.specs.Statuses.{HoldsFew};
ghost use Rattle.cga_words.specs.Exits.{line_in, refusal_line, refusal_of};
ghost use Rattle.cga_words.specs.Words.{wordless_app};
ghost use Rattle.clap.specs.Words.{fault_of};

use crate::changed::Changed;
use cga_expand::Expansions;
use cga_fraction::{NoMemory, Tests};
use cga_outside::{BufferedSink, Sink, Source, StdSink, StdSource};
use cga_top::{Decimals, Status, run_script};
use cga_words::{Exit, ProgramName, WordsFault, end, exit_of, given_words, read_none};
use std::alloc::Global;
use std::env::Args;
use std::marker::Brand;
use std::process::ExitCode;
use std::sync::ledger::{Blank, Ledger};
use std::{env, io};

// The most bytes that wait before they are written.
const ROOM: usize = 8192;

// Replies to the script, and tells what its edits change, where there is no word.
fn run<S: Source, K: Sink, E: Ledger, T: Ledger>(
    alloc: Global,
    words: &[String],
    script: &mut S,
    out: &mut K,
    expansions: &mut Expansions<E>,
    tests: &mut Tests<T>,
) -> Status
    // Where all was done, what was written is each line's reply and behind it what the line changed, of the bytes that the
    // source gave.
    ensures given { result ≡ Status.Done → (bytes : List ℕ) × (text : List ℕ)
        × (S.given script.new ≡ S.given script.old ++ bytes)
        × IsLiveOf usual bytes text
        × Appends (K.held out.old) (K.held out.new) text }

    // Where the source tells what is left, those bytes are the script.
    ensures headline { result ≡ Status.Done → IfSome (S.left script.old) (λ bytes. (text : List ℕ)
        × IsLiveOf usual bytes text
        × Appends (K.held out.old) (K.held out.new) text) }

    // When each status comes, and what was read, written and expanded then.
    ensures means { LiveMeans usual result
        (outside_of S.Source K.Sink script.old out.old expansions.old)
        (outside_of S.Source K.Sink script.new out.new expansions.new) }

    // Usage comes where `clap` refuses the words, and never where there is no word.
    ensures usage { result ≡ Status.Usage → fault_of wordless_app (map string_bytes words.now) ≢ [] }
    ensures refused { fault_of wordless_app (map string_bytes words.now) ≢ []
        → (result ≡ Status.Usage) ⊎ (result ≡ Status.NoMemory) }
    ensures alone { (name : List ℕ) → map string_bytes words.now ≡ name ∷ []
        → result ≢ Status.Usage }

    // Nothing but a fault, a script that is too long and want of memory keeps a script from being done.
    ensures complete { fault_of wordless_app (map string_bytes words.now) ≡ []
        → HoldsFew (S.left script.old)
        → (Rose (S.faults script.old) (S.faults script.new) → ⊥)
        → (Rose (K.faults out.old) (K.faults out.new) → ⊥)
        → (result ≡ Status.Done) ⊎ (result ≡ Status.NoMemory) }
{
    match read_none(alloc, words) {
        Ok(()) => {}
        Err(WordsFault::Usage) => return Status::Usage,
        Err(WordsFault::NoMemory) => return Status::NoMemory,
    }
    let decimals = Decimals::new(6);
    run_script::<Changed, _, _, _, _>(alloc, decimals, script, out, expansions, tests)
}

// The whole program but for the system's own part: reads the words, replies to the script and tells it, and says how it
// ended. Where the system doesn't give the words, nothing is read, written or expanded. Without the runtime it makes no
// counter.
fn program<S: Source, K: Sink, E: Ledger, T: Ledger>(
    alloc: Global,
    found: io::Result<Args>,
    script: &mut S,
    out: &mut K,
    expansions: &mut Expansions<E>,
    tests: &mut Tests<T>,
) -> Exit
    ensures given { IfOk found (λ given. IsEnd (map string_bytes (into_iter_items given))
        (outside_of S.Source K.Sink script.old out.old expansions.old)
        (outside_of S.Source K.Sink script.new out.new expansions.new) result.status (line_in result)) }
    ensures refused { IfErr found (λ error. (result.status ≡ refusal_of (error_kind error))
        × (line_in result ≡ refusal_line ProgramName.Live (error_kind error))
        × (outside_of S.Source K.Sink script.new out.new expansions.new
        ≡ outside_of S.Source K.Sink script.old out.old expansions.old)) }
{
    match given_words(alloc, ProgramName::Live, found) {
        Ok(words) => {
            let texts = words.as_slice();
            let status = run(alloc, texts, script, out, expansions, tests);
            exit_of(ProgramName::Live, status)
        }
        Err(exit) => exit,
    }
}

// Makes the counters, over these ledgers, and hands them to the program. `main` can't, since the type of a counter names
// its ledger.
fn with_counters<S: Source, K: Sink, E: Ledger, T: Ledger>(
    rt: &mut HostRuntime,
    found: io::Result<Args>,
    script: &mut S,
    out: &mut K,
    expansions: Blank,
    tests: Blank,
) -> Exit
    requires expansions_name { expansions.name ≡ E.name }
    requires expansions_parts { expansions.parts ≡ E.parts }
    requires expansions_some { 0 < expansions.parts }
    requires tests_name { tests.name ≡ T.name }
    requires tests_parts { tests.parts ≡ T.parts }
    requires tests_some { 0 < tests.parts }
{
    let mut expansions = Expansions::<E>::new(rt, expansions);
    let mut tests = Tests::<T>::new(rt, tests);
    program(rt.alloc(), found, script, out, &mut expansions, &mut tests)
}

fn main(mut rt: HostRuntime) -> ExitCode {
    let found = env::args(&rt);
    let exit = match BufferedSink::new(rt.alloc(), ROOM, StdSink::new(rt.stdout())) {
        Ok(sink) => {
            let mut script = StdSource::new(rt.reader());
            let mut out = sink;
            with_counters::<_, _, Brand, Brand>(
                &mut rt,
                found,
                &mut script,
                &mut out,
                Blank::new(1),
                Blank::new(1),
            )
        }
        Err(NoMemory) => exit_of(ProgramName::Live, Status::NoMemory),
    };
    end(&rt, exit)
}
