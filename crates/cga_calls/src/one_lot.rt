ghost use Rattle.std.specs.Prelude.{◌≡◌, ◌<◌, ℕ};
ghost use Rattle.cga_agenda.specs.OneLot.{means_one_lot};

use cga_agenda::{Ended, Turned, Worker, work};
use cga_fraction::{NoMemory, Steps, Tests};
use std::marker::Brand;
use std::sync::ledger::{Blank, Ledger};
use std::test::Fail;

// One root, which is on the agenda until it is done.
#[derive(Drop)]
struct OneLot {
    done: bool,
}

// What a turn of it shows.
#[derive(Drop)]
struct Turning;

impl Worker for OneLot {
    type Key = Turning;

    ghost Shape = { ℕ };

    ghost Answers = { ℕ };

    ghost Setting = { ℕ };

    ghost Fault = { ℕ };

    ghost Solid = { ℕ };

    ghost means = { λ w. means_one_lot w.done };

    ghost keeps = { λ v w. Unit {0} };

    fn turn<E: Ledger, T: Ledger>(
        &mut self,
        expansions: &mut Steps<E, Turning>,
        _tests: &mut Tests<T>,
    ) -> Result<Option<Turned>, NoMemory> {
        if self.done {
            return Ok(None);
        }
        self.done = true;
        expansions.tick(&Turning);
        Ok(Some(Turned {
            children: 0,
            expanded: true,
        }))
    }

    fn count(&self) -> usize {
        1
    }

    ghost keeps_itself = { λ w. tt };

    ghost keeps_on = { λ u v w k l. tt };
}

fn worked<E: Ledger, T: Ledger>(
    rt: &mut HostRuntime,
    expansions: Blank,
    tests: Blank,
) -> Result<Ended, NoMemory>
    requires expansions_name { expansions.name ≡ E.name }
    requires expansions_parts { expansions.parts ≡ E.parts }
    requires expansions_some { 0 < expansions.parts }
    requires tests_name { tests.name ≡ T.name }
    requires tests_parts { tests.parts ≡ T.parts }
    requires tests_some { 0 < tests.parts }
{
    let mut expansions = Steps::<E, Turning>::new(rt, expansions);
    let mut tests = Tests::<T>::new(rt, tests);
    let mut worker = OneLot { done: false };
    work(&mut worker, 1, 1, &mut expansions, &mut tests)
}

#[test]
fn a_lot_comes(mut rt: HostRuntime) -> Result<(), Fail> {
    let ended = worked::<Brand, Brand>(&mut rt, Blank::new(1), Blank::new(1))?;
    assert_eq!(rt; ended, Ended::Within(1));
    Ok(())
}
