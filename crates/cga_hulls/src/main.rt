//! A program beside `cga_city`: it replies to a script in the same way, and then says of each lot the least box that
//! holds all of its shapes, drawn or not.
//!
//! It must not know lots, boxes or rules. By these boxes it is known whether two districts are apart.
//!
//! What callers get wrong: without the exit status 0 not all of the boxes are there.
#![tactic(auto)]

ghost use Rattle.std.specs.Prelude.{◌≡◌, ◌<◌, map, string_bytes, IfErr, IfOk};
ghost use Rattle.std.specs.IoError.{error_kind};
ghost use Rattle.std.specs.Vec.Iter.{into_iter_items};
ghost use Rattle.cga_hulls.specs.Program.{IsEnd};
ghost use Rattle.cga_top.specs.Outside.{outside_of};
ghost use Rattle.cga_words.specs.Exits.{line_in, refusal_line, refusal_of};

use cga_expand::Expansions;
use cga_fraction::{NoMemory, Tests};
use cga_outside::{BufferedSink, Sink, Source, StdSink, StdSource};
use cga_top::{Status, run_with_hulls};
use cga_words::{Exit, ProgramName, end, exit_of, given_words};
use std::alloc::Global;
use std::env::Args;
use std::marker::Brand;
use std::process::ExitCode;
use std::sync::ledger::{Blank, Ledger};
use std::{env, io};

// The most bytes that wait before they are written.
const ROOM: usize = 8192;

// The whole program but for the system's own part: reads the words, replies to the script, tells of its lots, and says how
// it ended. Where the system doesn't give the words, nothing is read, written or expanded. Without the runtime it makes
// no counter.
fn program<S: Source, K: Sink, E: Ledger, T: Ledger>(
    alloc: Global,
    found: io::Result<Args>,
    script: &mut S,
    out: &mut K,
    expansions: &mut Expansions<E>,
    tests: &mut Tests<T>,
) -> Exit
    ensures given { IfOk found (λ given. IsEnd (map string_bytes (into_iter_items given))
        (outside_of S.Source K.Sink script.old out.old expansions.old)
        (outside_of S.Source K.Sink script.new out.new expansions.new) result.status (line_in result)) }
    ensures refused { IfErr found (λ error. (result.status ≡ refusal_of (error_kind error))
        × (line_in result ≡ refusal_line ProgramName.Hulls (error_kind error))
        × (outside_of S.Source K.Sink script.new out.new expansions.new
        ≡ outside_of S.Source K.Sink script.old out.old expansions.old)) }
{
    match given_words(alloc, ProgramName::Hulls, found) {
        Ok(words) => {
            let texts = words.as_slice();
            let status = run_with_hulls(alloc, texts, script, out, expansions, tests);
            exit_of(ProgramName::Hulls, status)
        }
        Err(exit) => exit,
    }
}

// Makes the counters, over these ledgers, and hands them to the program. `main` can't, since the type of a counter names
// its ledger.
fn with_counters<S: Source, K: Sink, E: Ledger, T: Ledger>(
    rt: &mut HostRuntime,
    found: io::Result<Args>,
    script: &mut S,
    out: &mut K,
    expansions: Blank,
    tests: Blank,
) -> Exit
    requires expansions_name { expansions.name ≡ E.name }
    requires expansions_parts { expansions.parts ≡ E.parts }
    requires expansions_some { 0 < expansions.parts }
    requires tests_name { tests.name ≡ T.name }
    requires tests_parts { tests.parts ≡ T.parts }
    requires tests_some { 0 < tests.parts }
{
    let mut expansions = Expansions::<E>::new(rt, expansions);
    let mut tests = Tests::<T>::new(rt, tests);
    program(rt.alloc(), found, script, out, &mut expansions, &mut tests)
}

fn main(mut rt: HostRuntime) -> ExitCode {
    let found = env::args(&rt);
    let exit = match BufferedSink::new(rt.alloc(), ROOM, StdSink::new(rt.stdout())) {
        Ok(sink) => {
            let mut script = StdSource::new(rt.reader());
            let mut out = sink;
            with_counters::<_, _, Brand, Brand>(
                &mut rt,
                found,
                &mut script,
                &mut out,
                Blank::new(1),
                Blank::new(1),
            )
        }
        Err(NoMemory) => exit_of(ProgramName::Hulls, Status::NoMemory),
    };
    end(&rt, exit)
}
