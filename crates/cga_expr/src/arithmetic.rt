//! The operations of expressions, each with the fault that refuses it.
ghost use Rattle.std.specs.Prelude.{◌≡◌, pos};
ghost use Rattle.cga_fraction.specs.Rat.{of_int};
ghost use Rattle.cga_fraction.specs.Results.{or_err};
ghost use Rattle.cga_expr.specs.Arithmetic.{added, ceiled, drawn, exact, floored, or_fault, scaled, signed, step_of};

use crate::expr_fault::ExprFault;
use cga_fraction::{DivFault, Fraction, Overflow};

fn or_overflow(outcome: Result<Fraction, Overflow>) -> Result<Fraction, ExprFault>
    ensures { result ≡ or_err ExprFault.Overflow outcome }
{
    outcome.map_err(|_| ExprFault::Overflow)
}

fn or_fault(outcome: Result<Fraction, DivFault>) -> Result<Fraction, ExprFault>
    ensures { result ≡ or_fault outcome }
{
    match outcome {
        Ok(number) => Ok(number),
        Err(DivFault::ZeroDivide) => Err(ExprFault::ZeroDivide),
        Err(DivFault::Overflow) => Err(ExprFault::Overflow),
    }
}

pub(crate) fn added(minus: bool, left: Fraction, right: Fraction) -> Result<Fraction, ExprFault>
    ensures { result ≡ added minus left right }
{
    if minus {
        return or_overflow(left.sub(right));
    }
    or_overflow(left.add(right))
}

pub(crate) fn scaled(divide: bool, left: Fraction, right: Fraction) -> Result<Fraction, ExprFault>
    ensures { result ≡ scaled divide left right }
{
    if divide {
        return or_fault(left.div(right));
    }
    or_overflow(left.mul(right))
}

pub(crate) fn signed(minus: bool, number: Fraction) -> Fraction
    ensures { result ≡ signed minus number }
{
    if minus { number.neg() } else { number }
}

pub(crate) fn floor(number: Fraction) -> Result<Fraction, ExprFault>
    ensures { result ≡ floored number }
{
    whole(number.floor())
}

pub(crate) fn ceil(number: Fraction) -> Result<Fraction, ExprFault>
    ensures { result ≡ ceiled number }
{
    whole(number.ceil())
}

#[tactic(auto, using(crate::proofs::Whole::whole_is))]
fn whole(number: i64) -> Result<Fraction, ExprFault>
    ensures { result ≡ exact (of_int number) }
{
    or_fault(Fraction::new(number, 1))
}

/// The number between two others that a word picks, among `steps` + 1 at equal distances.
#[tactic(auto, unfolding(crate::specs::Arithmetic::drawn))]
pub(crate) fn drawn(
    word: u32,
    steps: u32,
    low: Fraction,
    high: Fraction,
) -> Result<Fraction, ExprFault>
    ensures { result ≡ drawn word steps low high }
{
    let span = or_overflow(high.sub(low))?;
    let share = or_fault(Fraction::new(step(word, steps), i64::from(steps)))?;
    let above = or_overflow(span.mul(share))?;
    or_overflow(low.add(above))
}

fn step(word: u32, steps: u32) -> i64
    ensures { result ≡ pos (step_of word steps) }
{
    let picked = u64::from(word) * (u64::from(steps) + 1) / (1 << 32);
    picked as i64
}
