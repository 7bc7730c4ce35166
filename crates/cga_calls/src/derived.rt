//! Worked rows by `derive` alone, over the sources that the lines of a block of a city say: how many shapes, solids
//! and faults the list has, where it is within a budget.
ghost use Rattle.std.specs.Prelude.{◌≡◌, ◌<◌, IsTrue};
ghost use Rattle.cga_expand.specs.Derivation.{NamesDiffer};
ghost use Rattle.cga_expand.specs.Validity.{RootsExist};

use cga_derive::derive;
use cga_expand::Expansions;
use cga_fraction::{NoMemory, Tests};
use cga_script::CityReader;
use cga_shape::{Kind, Lot, Placed, Sources};
use std::alloc::Global;
use std::marker::Brand;
use std::sync::ledger::{Blank, Ledger};
use std::test::Fail;

/// The lines of a city, a budget, and the three numbers.
type Row = (&'static str, u32, Option<[usize; 3]>);

const FOUR: &str = "PRIORITY 1:
1: a -> b c
4: d -> NIL
PRIORITY 2:
3: c -> d
PRIORITY 3:
2: b -> NIL
lot p 1 0 0 1 1 a";

const WINDOW_AND_NEIGHBOUR: &str = "PRIORITY 1:
1: early -> S(1r, 6, 1r) mass
PRIORITY 2:
2: mass -> Comp(\"face\", \"front\") { facade }
PRIORITY 3:
3: facade -> Subdiv(\"X\", 1r, 2, 1r) { NIL | window | NIL }
PRIORITY 4:
4: window : Scope.occ(\"noparent\") == \"none\" -> I(\"quad\")
5: window : Scope.occ(\"noparent\") == \"full\" -> NIL
6: window -> S(1r, 1r, 0.5) I(\"cube\")
lot a 1 0 0 10 8 early
lot b 1 0 6 10 8 early";

const HOUSE: &str = "1: house -> S(1r, 6, 1r) I(\"cube\")
lot a 1 0 0 10 8 house";

const DOUBLED: &str = "1: house -> house house
lot a 1 0 0 10 8 house";

const ROWS: &[Row] = &[
    (FOUR, 1000, Some([4, 0, 0])),
    (WINDOW_AND_NEIGHBOUR, 1000, Some([9, 1, 0])),
    (HOUSE, 1, None),
    (HOUSE, 2, Some([2, 1, 0])),
    (DOUBLED, 1000, None),
];

fn sources_of(alloc: Global, lines: &str) -> Result<Option<Sources>, NoMemory> {
    let mut reader = CityReader::new(alloc);
    for line in lines.split('\n') {
        reader.line(line.as_bytes(), false)?;
    }
    Ok(reader.finish()?.ok())
}

// One lot, or two of two names, whose roots exist.
fn may_be_derived(lots: &[Lot]) -> bool
    ensures names { IsTrue result → NamesDiffer lots.now }
    ensures roots { IsTrue result → RootsExist lots.now }
{
    match lots {
        [lot] => lot.root_scope().is_ok(),
        [lot, other] => {
            if lot.name == other.name {
                return false;
            }
            lot.root_scope().is_ok() && other.root_scope().is_ok()
        }
        _ => false,
    }
}

fn numbers(list: &[Placed]) -> [usize; 3] {
    let solids = list
        .iter()
        .filter(|one| matches!(one.kind, Kind::Instance(_)));
    let faults = list
        .iter()
        .filter(|one| matches!(one.kind, Kind::Faulted(_)));
    [list.len(), solids.count(), faults.count()]
}

fn counted<E: Ledger, T: Ledger>(
    rt: &mut HostRuntime,
    sources: &Sources,
    budget: u32,
    expansions: Blank,
    tests: Blank,
) -> Result<Option<[usize; 3]>, NoMemory>
    requires names { NamesDiffer sources.now.lots }
    requires roots { RootsExist sources.now.lots }
    requires expansions_name { expansions.name ≡ E.name }
    requires expansions_parts { expansions.parts ≡ E.parts }
    requires expansions_some { 0 < expansions.parts }
    requires tests_name { tests.name ≡ T.name }
    requires tests_parts { tests.parts ≡ T.parts }
    requires tests_some { 0 < tests.parts }
{
    let mut expansions = Expansions::<E>::new(rt, expansions);
    let mut tests = Tests::<T>::new(rt, tests);
    match derive(rt.alloc(), sources, budget, &mut expansions, &mut tests)? {
        Ok(list) => Ok(Some(numbers(list.as_slice()))),
        Err(_) => Ok(None),
    }
}

fn derived(
    rt: &mut HostRuntime,
    sources: &Sources,
    budget: u32,
) -> Result<Option<[usize; 3]>, NoMemory>
    requires names { NamesDiffer sources.now.lots }
    requires roots { RootsExist sources.now.lots }
{
    counted::<Brand, Brand>(rt, sources, budget, Blank::new(1), Blank::new(1))
}

#[test]
fn rows_are_derived(mut rt: HostRuntime) -> Result<(), Fail> {
    for (lines, budget, wanted) in ROWS {
        let sources = sources_of(rt.alloc(), lines)?.expect(&rt, lines);
        let lots = sources.lots.to_vec(rt.alloc())?;
        assert!(rt; may_be_derived(lots.as_slice()), "{lines}");
        assert_eq!(rt; derived(&mut rt, &sources, *budget)?, *wanted);
    }
    Ok(())
}
