ghost use Rattle.std.specs.Prelude.{◌≡◌, ◌≢◌, ◌<◌, ◌≤◌, ◌^◌, ◌+ℤ◌, ◌*ℤ◌, neg_ℤ, pos, unsigned_abs};
ghost use Rattle.cga_fraction.specs.Arithmetic.{reduced};
ghost use Rattle.cga_fraction.specs.Refusals.{checked};
ghost use Rattle.cga_fraction.specs.Results.{or_err};

use super::{Fraction, product};
use crate::overflow::{DivFault, Overflow};

impl Fraction {
    ghost use Rattle.cga_fraction.specs.Rat.{IsFraction, of_int};
    ghost use Rattle.cga_fraction.specs.Arithmetic.{plus, minus, times, negated, inverse};
    ghost use Rattle.cga_fraction.specs.Refusals.{quotient_of};

    /// n divided by d.
    pub fn new(n: i64, d: i64) -> Result<Fraction, DivFault>
        ensures { result ≡ quotient_of (of_int n) (of_int d) }
    {
        if d == 0 {
            return Err(DivFault::ZeroDivide);
        }
        if d < 0 {
            return as_quotient(Fraction::in_lowest_terms(negated(n), d.unsigned_abs() as u128));
        }
        as_quotient(Fraction::in_lowest_terms(n as i128, d.unsigned_abs() as u128))
    }

    pub fn add(self, other: Fraction) -> Result<Fraction, Overflow>
        ensures value { result ≡ checked (plus self other) }
        ensures left { IsFraction self }
        ensures right { IsFraction other }
    {
        if other.numerator == 0 {
            return Ok(self);
        }
        if self.numerator == 0 {
            return Ok(other);
        }
        if self.denominator == other.denominator {
            return over_one(self.numerator, other.numerator, self.denominator);
        }
        self.crossed(other)
    }

    // The sum by cross products.
    #[tactic(auto, unfolding(crate::specs::Arithmetic::plus))]
    fn crossed(self, other: Fraction) -> Result<Fraction, Overflow>
        ensures { result ≡ checked (plus self other) }
    {
        let left = product(self.numerator, other.denominator);
        let right = product(other.numerator, self.denominator);
        Fraction::in_lowest_terms(
            sum(left, right),
            self.denominator as u128 * other.denominator as u128,
        )
    }

    #[tactic(auto, using(crate::proofs::Quotients::difference_is))]
    pub fn sub(self, other: Fraction) -> Result<Fraction, Overflow>
        ensures value { result ≡ checked (minus self other) }
        ensures left { IsFraction self }
        ensures right { IsFraction other }
    {
        self.add(other.neg())
    }

    #[tactic(auto, unfolding(crate::specs::Arithmetic::times))]
    pub fn mul(self, other: Fraction) -> Result<Fraction, Overflow>
        ensures value { result ≡ checked (times self other) }
        ensures left { IsFraction self }
        ensures right { IsFraction other }
    {
        let numerator = self.numerator as i128 * other.numerator as i128;
        let denominator = self.denominator as u128 * other.denominator as u128;
        Fraction::in_lowest_terms(numerator, denominator)
    }

    /// This number divided by the other.
    pub fn div(self, other: Fraction) -> Result<Fraction, DivFault>
        ensures { result ≡ quotient_of self other }
    {
        if other.numerator == 0 {
            return Err(DivFault::ZeroDivide);
        }
        as_quotient(self.mul(other.inverted()))
    }

    pub fn neg(self) -> Fraction
        ensures { result ≡ negated self }
    {
        Fraction {
            numerator: -self.numerator,
            denominator: self.denominator,
        }
    }

    // 1 over this number.
    fn inverted(self) -> Fraction
        requires { self.num ≢ pos 0 }
        ensures { result ≡ inverse self }
    {
        let magnitude = self.denominator as i64;
        let denominator = self.numerator.unsigned_abs();
        if self.numerator < 0 {
            return Fraction {
                numerator: -magnitude,
                denominator,
            };
        }
        Fraction {
            numerator: magnitude,
            denominator,
        }
    }
}

// The sum of two numbers over one denominator.
fn over_one(a: i64, b: i64, d: u64) -> Result<Fraction, Overflow>
    requires { 0 < d }
    ensures { result ≡ checked (reduced (a +ℤ b) d) }
{
    Fraction::in_lowest_terms(a as i128 + b as i128, d as u128)
}

fn as_quotient(outcome: Result<Fraction, Overflow>) -> Result<Fraction, DivFault>
    ensures { result ≡ or_err DivFault.Overflow outcome }
{
    match outcome {
        Ok(quotient) => Ok(quotient),
        Err(Overflow) => Err(DivFault::Overflow),
    }
}

fn negated(n: i64) -> i128
    ensures { result ≡ neg_ℤ n }
{
    -(n as i128)
}

fn sum(a: i128, b: i128) -> i128
    requires small_a { unsigned_abs a ≤ 2 ^ 124 }
    requires small_b { unsigned_abs b ≤ 2 ^ 124 }
    ensures { result ≡ a +ℤ b }
{
    a + b
}
