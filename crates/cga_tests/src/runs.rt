//! Runs over a script in memory and a sink in memory.
ghost use Rattle.std.specs.Prelude.{◌≡◌, ◌<◌, IsFalse};

use cga_expand::Expansions;
use cga_fraction::{List, NoMemory, Tests};
use cga_outside::{MemorySink, MemorySource, Sink, Source};
use cga_top::{Status, run_city};
use std::marker::Brand;
use std::sync::ledger::{Blank, Ledger};

// How a script is read and what the sink takes.
#[derive(Clone, Copy)]
pub(crate) struct Outside<'a> {
    pub(crate) script: &'a [u8],
    pub(crate) most: usize,
    pub(crate) failed_reads: &'a [u64],
    pub(crate) room: usize,
    pub(crate) failed_writes: &'a [u64],
}

// A script that is read in one piece, and a sink that takes all.
pub(crate) fn calm(script: &[u8]) -> Outside<'_> {
    Outside {
        script,
        most: 4096,
        failed_reads: &[],
        room: 4096,
        failed_writes: &[],
    }
}

#[derive(Drop)]
pub(crate) struct Run {
    pub(crate) status: Status,
    pub(crate) held: Vec<u8>,
}

fn counted<S: Source, K: Sink, E: Ledger, T: Ledger>(
    rt: &mut HostRuntime,
    script: &mut S,
    out: &mut K,
    expansions: Blank,
    tests: Blank,
) -> Status
    requires open { IsFalse (S.ended script.old) }
    requires expansions_name { expansions.name ≡ E.name }
    requires expansions_parts { expansions.parts ≡ E.parts }
    requires expansions_some { 0 < expansions.parts }
    requires tests_name { tests.name ≡ T.name }
    requires tests_parts { tests.parts ≡ T.parts }
    requires tests_some { 0 < tests.parts }
{
    let mut expansions = Expansions::<E>::new(rt, expansions);
    let mut tests = Tests::<T>::new(rt, tests);
    run_city(rt.alloc(), &[], script, out, &mut expansions, &mut tests)
}

pub(crate) fn run_on<S: Source, K: Sink>(
    rt: &mut HostRuntime,
    script: &mut S,
    out: &mut K,
) -> Status
    requires { IsFalse (S.ended script.old) }
{
    counted::<_, _, Brand, Brand>(rt, script, out, Blank::new(1), Blank::new(1))
}

pub(crate) fn run_of(rt: &mut HostRuntime, outside: Outside) -> Result<Run, NoMemory> {
    let alloc = rt.alloc();
    let mut script = MemorySource::new(
        List::from_vec(Vec::from_slice(alloc, outside.script)?),
        outside.most.max(1),
        List::from_vec(Vec::from_slice(alloc, outside.failed_reads)?),
    );
    let failed_writes = List::from_vec(Vec::from_slice(alloc, outside.failed_writes)?);
    let mut out = MemorySink::new(alloc, outside.room, failed_writes)?;
    let status = run_on(rt, &mut script, &mut out);
    Ok(Run {
        status,
        held: Vec::from_slice(alloc, out.held())?,
    })
}
