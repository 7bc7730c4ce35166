ghost use Rattle.std.specs.Prelude.{◌≡◌, ◌+◌, ◌≤◌, IfOk, IsSome, length};
ghost use Rattle.cga_derivation.specs.Derivation.{derive};
ghost use Rattle.cga_expand.specs.Derivation.{derivation_of, NamesDiffer};
ghost use Rattle.cga_expand.specs.Validity.{RootsExist};
ghost use Rattle.cga_judge.specs.Judged.{IsJudged};
ghost use Rattle.cga_judge.specs.declared.limits.TheConstants.{MOST_SHAPES};

use crate::same::is_same;
use crate::verdict::Verdict;
use cga_derive::Run;
use cga_expand::Expansions;
use cga_fraction::{NoMemory, Tests};
use cga_shape::{Sources, TraceStep};
use std::alloc::Global;
use std::sync::ledger::Ledger;

/// Whether the steps are the run of the sources. The sources are derived from nothing, as far as the
/// steps are right, and each expansion ticks `expansions`. `tests` counts boxes that a walk of hulls
/// reads, and there is none here. Takes memory for the shapes, as the derivation does.
pub fn judge<E: Ledger, T: Ledger>(
    alloc: Global,
    sources: &Sources,
    steps: &[TraceStep],
    expansions: &mut Expansions<E>,
    tests: &mut Tests<T>,
) -> Result<Verdict, NoMemory>
    requires names { NamesDiffer sources.now.lots }
    requires roots { RootsExist sources.now.lots }
    requires within { IsSome (derive (derivation_of sources.now) MOST_SHAPES) }
    ensures value { IfOk result (λ verdict. IsJudged sources.now steps.now verdict) }
    // An accepted trace costs one expansion for each step, and a rejected one at most that.
    ensures accepted { IfOk result (λ verdict. verdict ≡ Verdict.Accepted
        → expansions.new ≡ expansions.old + length steps.now) }
    ensures counted { expansions.old ≤ expansions.new }
    ensures most { expansions.new ≤ expansions.old + length steps.now }
    ensures tests { tests.new ≡ tests.old }
{
    let mut run = Run::start(alloc, sources)?;
    let mut place: u32 = 1;
    for given in steps {
        let next = run.next(alloc, sources, expansions)?;
        let Some(step) = next else {
            return Ok(Verdict::Rejected(place));
        };
        if !is_same(given, &step) {
            return Ok(Verdict::Rejected(place));
        }
        place += 1;
    }
    if run.is_over() {
        Ok(Verdict::Accepted)
    } else {
        Ok(Verdict::Rejected(place))
    }
}
