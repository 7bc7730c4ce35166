ghost use Rattle.std.specs.Prelude.{◌≡◌, ◌≤◌, ◌<◌, ℕ, IfOk, IsTrue, pos, unsigned_abs, false};
ghost use Rattle.cga_fraction.specs.Rat.{zero_rat};
ghost use Rattle.cga_fraction.specs.Order.{rat_lt};
ghost use Rattle.cga_fraction.specs.Arithmetic.{times, divided};
ghost use Rattle.cga_fraction.specs.Rounding.{IsCeil};
ghost use Rattle.cga_frame.specs.Points.{coordinate};
ghost use Rattle.cga_frame.specs.Scope.{part_of};
ghost use Rattle.cga_split.specs.Faults.{within};
ghost use Rattle.cga_split.specs.Cuts.{IsCut};
ghost use Rattle.cga_split.specs.Repeat.{whole, count_of, counted, repeats_from, repeat_cuts};
ghost use Rattle.cga_split.specs.Split.{part_at, repeat_of};
ghost use Rattle.cga_fraction.specs.Stops.{Makes};

use crate::split_fault::SplitFault;
use crate::subdivide::part;
use cga_fraction::{Fraction, List, NoMemory, Stop, settled};
use cga_frame::Scope;
use cga_word::Axis;
use std::alloc::Global;

// The most parts of one Repeat.
const MOST_PARTS: u64 = 10_000;

fn product(step: Fraction, number: u32) -> Result<Fraction, SplitFault>
    ensures { result ≡ within (times step (whole number)) }
{
    step.mul(Fraction::from(number))
        .map_err(|_| SplitFault::Overflow)
}

// By a number above 0.
fn quotient(number: Fraction, by: Fraction) -> Result<Fraction, SplitFault>
    requires { IsTrue (rat_lt zero_rat by) }
    ensures { result ≡ within (divided number by) }
{
    match number.div(by) {
        Ok(quotient) => Ok(quotient),
        Err(_) => Err(SplitFault::Overflow),
    }
}

// So many parts of one length, one after the other.
fn parts(
    alloc: Global,
    scope: &Scope,
    axis: Axis,
    step: Fraction,
    count: u32,
) -> Result<List<Scope>, Stop<SplitFault>>
    requires { rat_lt step zero_rat ≡ false }
    ensures { Makes (repeats_from (part_at scope.now axis) step 0 count) result }
{
    let mut made = List::new(alloc);
    for number in 0..count {
        let from = match product(step, number) {
            Ok(from) => from,
            Err(fault) => return Err(Stop::Fault(fault)),
        };
        match part(scope, axis, from, step) {
            Ok(part) => made.push(part)?,
            Err(fault) => return Err(Stop::Fault(fault)),
        }
    }
    Ok(made)
}

fn magnitude(number: i64) -> u64
    ensures { result ≡ unsigned_abs number }
{
    number.unsigned_abs()
}

// So many parts of a size.
fn counted(
    alloc: Global,
    scope: &Scope,
    axis: Axis,
    length: Fraction,
    count: u64,
) -> Result<List<Scope>, Stop<SplitFault>>
    requires length { IsTrue (rat_lt zero_rat length) }
    requires count { 0 < count }
    ensures { Makes (counted (part_at scope.now axis) length count) result }
{
    if count > MOST_PARTS {
        return Err(Stop::Fault(SplitFault::RepeatCount));
    }
    let count = count as u32;
    match quotient(length, Fraction::from(count)) {
        Ok(step) => parts(alloc, scope, axis, step, count),
        Err(fault) => Err(Stop::Fault(fault)),
    }
}

#[tactic(auto, unfolding(crate::specs::Repeat::repeated))]
fn repeated(
    alloc: Global,
    scope: &Scope,
    axis: Axis,
    step: Fraction,
) -> Result<List<Scope>, Stop<SplitFault>>
    ensures { Makes (repeat_of scope.now axis step) result }
{
    let length = scope.size().along(axis);
    if !length.is_positive() {
        return Err(Stop::Fault(SplitFault::FlatScope));
    }
    if !step.is_positive() {
        return Err(Stop::Fault(SplitFault::PartNotPositive));
    }
    match quotient(length, step) {
        Ok(count) => counted(alloc, scope, axis, length, magnitude(count.ceil())),
        Err(fault) => Err(Stop::Fault(fault)),
    }
}

/// The parts of a scope along one of its axes, in order: as many of one length as are needed so that none is longer
/// than the given length (Repeat of the SIGGRAPH paper). Takes memory.
pub fn repeat(
    alloc: Global,
    scope: &Scope,
    axis: Axis,
    length: Fraction,
) -> Result<Result<List<Scope>, SplitFault>, NoMemory>
    ensures value { IfOk result (λ made. made ≡ repeat_of scope.now axis length) }
    ensures cut { IfOk result (λ made. IfOk made (λ parts. (n : ℕ)
        × IsCeil (divided (coordinate scope.now.size axis) length) (pos n)
        × IsCut (part_of scope.now axis) (repeat_cuts (coordinate scope.now.size axis) n)
        (coordinate scope.now.size axis) parts)) }
{
    settled(repeated(alloc, scope, axis, length))
}
