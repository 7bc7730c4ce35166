ghost use Rattle.std.specs.Prelude.{◌≡◌, ◌<◌, IfOk, OnOk, IsTrue, length, false};
ghost use Rattle.std.specs.List.{list_all, list_any};
ghost use Rattle.cga_fraction.specs.Rat.{zero_rat, IsFraction};
ghost use Rattle.cga_fraction.specs.Order.{rat_lt};
ghost use Rattle.cga_fraction.specs.Arithmetic.{plus, minus};
ghost use Rattle.cga_frame.specs.Points.{coordinate};
ghost use Rattle.cga_frame.specs.Scope.{part_of};
ghost use Rattle.cga_split.specs.Faults.{within};
ghost use Rattle.cga_split.specs.Cuts.{IsCut};
ghost use Rattle.cga_split.specs.Subdiv.{number_of, AllFractions, is_positive, is_relative, is_off, absolute_total, relative_total, checked_length, parts_from, subdiv_cuts};
ghost use Rattle.cga_split.specs.Split.{part_at, subdiv_of};
ghost use Rattle.cga_fraction.specs.Stops.{Makes};

use crate::part_size::PartSize;
use crate::split_fault::SplitFault;
use cga_fraction::{Fraction, List, NoMemory, Stop, settled};
use cga_frame::Scope;
use cga_word::Axis;
use std::alloc::Global;

fn number_of(size: PartSize) -> Fraction
    ensures { result ≡ number_of size }
{
    match size {
        PartSize::Absolute(length) => length,
        PartSize::Relative(factor) => factor,
    }
}

// Whether a size is above 0. What is a size is a number in lowest terms.
#[tactic(auto, using(cga_fraction::proofs::Door::positive_is))]
fn is_positive(size: PartSize) -> bool
    ensures value { result ≡ is_positive size }
    ensures fraction { IsFraction (number_of size) }
{
    number_of(size).numerator() > 0
}

fn are_positive(sizes: &[PartSize]) -> bool
    ensures value { result ≡ list_all is_positive sizes.now }
    ensures fractions { IsTrue result → AllFractions sizes.now }
{
    for size in sizes {
        if !is_positive(*size) {
            return false;
        }
    }
    true
}

fn has_relative(sizes: &[PartSize]) -> bool
    ensures { result ≡ list_any is_relative sizes.now }
{
    sizes
        .iter()
        .any(|size| matches!(*size, PartSize::Relative(_)))
}

fn is_off(length: Fraction, sum: Fraction, sizes: &[PartSize]) -> bool
    ensures { result ≡ is_off length sum sizes.now }
{
    if has_relative(sizes) {
        return length.is_at_most(sum);
    }
    length.is_less(sum) || sum.is_less(length)
}

fn sum(a: Fraction, b: Fraction) -> Result<Fraction, SplitFault>
    ensures { result ≡ within (plus a b) }
{
    a.add(b).map_err(|_| SplitFault::Overflow)
}

// The sum of the absolute sizes, from the left.
fn absolute_total(sizes: &[PartSize]) -> Result<Fraction, SplitFault>
    ensures { result ≡ absolute_total zero_rat sizes.now }
{
    let mut total = Fraction::zero();
    for size in sizes {
        if let PartSize::Absolute(length) = size {
            total = sum(total, *length)?;
        }
    }
    Ok(total)
}

// The sum of the relative factors, from the left.
fn relative_total(sizes: &[PartSize]) -> Result<Fraction, SplitFault>
    ensures { result ≡ relative_total zero_rat sizes.now }
{
    let mut total = Fraction::zero();
    for size in sizes {
        if let PartSize::Relative(factor) = size {
            total = sum(total, *factor)?;
        }
    }
    Ok(total)
}

// The length of one part, of what the absolute sizes leave and the sum of the factors.
fn length_of(size: PartSize, rest: Fraction, total: Fraction) -> Result<Fraction, SplitFault>
    requires some { IsTrue (is_positive size) }
    requires rest { rat_lt rest zero_rat ≡ false }
    requires total { IsTrue (is_relative size) → IsTrue (rat_lt zero_rat total) }
    ensures value { result ≡ checked_length rest total size }
    ensures sign { IfOk result (λ length. rat_lt length zero_rat ≡ false) }
{
    match size {
        PartSize::Absolute(length) => Ok(length),
        PartSize::Relative(factor) => share(rest, factor, total),
    }
}

// The rest times the factor, divided by the sum of the factors.
fn share(rest: Fraction, factor: Fraction, total: Fraction) -> Result<Fraction, SplitFault>
    requires some { IsTrue (rat_lt zero_rat factor) }
    requires rest { rat_lt rest zero_rat ≡ false }
    requires total { IsTrue (rat_lt zero_rat total) }
    ensures value { result ≡ checked_length rest total (PartSize.Relative factor) }
    ensures sign { IfOk result (λ length. rat_lt length zero_rat ≡ false) }
{
    let product = match rest.mul(factor) {
        Ok(product) => product,
        Err(_) => return Err(SplitFault::Overflow),
    };
    match product.div(total) {
        Ok(length) => Ok(length),
        Err(_) => Err(SplitFault::Overflow),
    }
}

pub(crate) fn part(
    scope: &Scope,
    axis: Axis,
    from: Fraction,
    length: Fraction,
) -> Result<Scope, SplitFault>
    requires { rat_lt length zero_rat ≡ false }
    ensures { result ≡ part_at scope.now axis from length }
{
    match scope.part(axis, from, length) {
        Ok(part) => Ok(part),
        Err(_) => Err(SplitFault::Overflow),
    }
}

// The parts one after the other, each at the sum of the lengths before it.
fn parts(
    alloc: Global,
    scope: &Scope,
    axis: Axis,
    sizes: &[PartSize],
    rest: Fraction,
    total: Fraction,
) -> Result<List<Scope>, Stop<SplitFault>>
    requires some { IsTrue (list_all is_positive sizes.now) }
    requires rest { rat_lt rest zero_rat ≡ false }
    requires total { IsTrue (list_any is_relative sizes.now) → IsTrue (rat_lt zero_rat total) }
    ensures { Makes (parts_from (part_at scope.now axis) rest total zero_rat sizes.now) result }
{
    let mut made = List::new(alloc);
    let mut from = Fraction::zero();
    for size in sizes {
        let length = length_of(*size, rest, total)?;
        let one = part(scope, axis, from, length)?;
        from = sum(from, length)?;
        made.push(one)?;
    }
    Ok(made)
}

fn difference(a: Fraction, b: Fraction) -> Result<Fraction, SplitFault>
    ensures { result ≡ within (minus a b) }
{
    a.sub(b).map_err(|_| SplitFault::Overflow)
}

#[tactic(auto, unfolding(crate::specs::Subdiv::subdivided))]
fn divide(
    alloc: Global,
    scope: &Scope,
    axis: Axis,
    sizes: &[PartSize],
) -> Result<List<Scope>, Stop<SplitFault>>
    ensures value { Makes (subdiv_of scope.now axis sizes.now) result }
    ensures fractions { OnOk result (AllFractions sizes.now) }
{
    let length = scope.size().along(axis);
    if !length.is_positive() {
        return Err(Stop::Fault(SplitFault::FlatScope));
    }
    if !are_positive(sizes) {
        return Err(Stop::Fault(SplitFault::PartNotPositive));
    }
    let absolute = absolute_total(sizes)?;
    let relative = relative_total(sizes)?;
    if is_off(length, absolute, sizes) {
        return Err(Stop::Fault(SplitFault::SubdivSum));
    }
    let rest = difference(length, absolute)?;
    parts(alloc, scope, axis, sizes, rest, relative)
}

/// The parts of a scope along one of its axes, in order, by their sizes: an absolute size has its own length, and
/// the relative ones share what those leave by their factors (Subdiv of the SIGGRAPH paper). No sizes at all are too
/// little. Takes memory.
pub fn subdiv(
    alloc: Global,
    scope: &Scope,
    axis: Axis,
    sizes: &[PartSize],
) -> Result<Result<List<Scope>, SplitFault>, NoMemory>
    ensures value { IfOk result (λ made. made ≡ subdiv_of scope.now axis sizes.now) }
    ensures cut { IfOk result (λ made. IfOk made
        (IsCut (part_of scope.now axis) (subdiv_cuts (coordinate scope.now.size axis) sizes.now)
        (coordinate scope.now.size axis))) }
{
    settled(divide(alloc, scope, axis, sizes))
}
