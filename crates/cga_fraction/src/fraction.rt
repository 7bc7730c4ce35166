ghost use Rattle.std.specs.Prelude.{◌≡◌, ◌<◌, ◌≤◌, ◌/◌, ◌^◌, ◌*ℤ◌, pos, unsigned_abs};
ghost use Rattle.cga_fraction.specs.Rat.{den, zero_rat, IsFraction};
ghost use Rattle.cga_fraction.specs.Arithmetic.{reduced, with_sign};
ghost use Rattle.cga_fraction.specs.Refusals.{checked};

mod arithmetic;
mod decimal;
mod order;
mod rounding;
mod text;

use crate::gcd::{common_divisor, narrow_divisor};
use crate::overflow::Overflow;
pub use decimal::DecimalFault;
use std::marker::Model;

/// A number in lowest terms, each of whose parts is at most 2^62. There is no `Ord`: its laws would have to
/// hold of numbers that aren't in lowest terms.
#[derive(Clone, Copy, Debug, PartialEq, Eq)]
pub struct Fraction {
    numerator: i64,
    denominator: u64,
}

impl Model for Fraction {
    ghost use Rattle.std.specs.Prelude.{◌-◌, ◌+◌};
    ghost use Rattle.cga_fraction.specs.Rat.{Rat, IsReduced};

    ghost Value = { Rat };

    ghost use Rattle.cga_fraction.specs.FromValue.{inverse_ok};

    ghost view = { λ f. record { num = f.numerator; above = f.denominator - 1 } };

    ghost invariant = { λ f. IsReduced f.numerator f.denominator };

    ghost inverse = { λ a. record { numerator = a.num; denominator = a.above + 1 } };

    ghost inverse_ok = { inverse_ok };
}

impl Fraction {
    #[tactic(auto, using(crate::proofs::Lowest::zero_is_reduced))]
    pub fn zero() -> Fraction
        ensures { result ≡ zero_rat }
    {
        Fraction {
            numerator: 0,
            denominator: 1,
        }
    }

    /// Of the number in lowest terms.
    pub fn numerator(self) -> i64
        ensures value { result ≡ self.num }
        ensures fraction { IsFraction self }
    {
        self.numerator
    }

    /// Of the number in lowest terms; it is above 0.
    pub fn denominator(self) -> i64
        ensures value { result ≡ pos (den self) }
        ensures fraction { IsFraction self }
    {
        self.denominator as i64
    }

    // n over d in lowest terms, where both are small.
    fn lowest(n: u64, d: u64) -> Fraction
        requires above_zero { 0 < d }
        requires small { n ≤ 2 ^ 62 }
        requires few { d ≤ 2 ^ 62 }
        ensures { result ≡ reduced (pos n) d }
    {
        let common = narrow_divisor(n, d);
        Fraction {
            numerator: (n / common) as i64,
            denominator: d / common,
        }
    }

    // n over d in lowest terms, where that is in range.
    fn in_lowest_terms(n: i128, d: u128) -> Result<Fraction, Overflow>
        requires { 0 < d }
        ensures { result ≡ checked (reduced n d) }
    {
        let common = common_divisor(n.unsigned_abs(), d);
        let magnitude = quotient(n.unsigned_abs(), common);
        let denominator = quotient(d, common);
        if magnitude > LIMIT || denominator > LIMIT {
            return Err(Overflow);
        }
        Ok(Fraction {
            numerator: signed_like(n, magnitude),
            denominator: denominator as u64,
        })
    }
}

impl From<u32> for Fraction {
    ghost use Rattle.std.specs.Prelude.{◌≡◌, pos};
    ghost use Rattle.cga_fraction.specs.Rat.{of_int};

    ghost from_gives = { λ n f. f ≡ of_int (pos n) };

    #[tactic(auto, using(crate::proofs::Lowest::whole_is_reduced))]
    fn from(n: u32) -> Fraction {
        Fraction {
            numerator: n as i64,
            denominator: 1,
        }
    }
}

impl From<i32> for Fraction {
    ghost use Rattle.std.specs.Prelude.{◌≡◌};
    ghost use Rattle.cga_fraction.specs.Rat.{of_int};

    ghost from_gives = { λ n f. f ≡ of_int n };

    #[tactic(auto, using(crate::proofs::Lowest::whole_is_reduced))]
    fn from(n: i32) -> Fraction {
        Fraction {
            numerator: n as i64,
            denominator: 1,
        }
    }
}

const LIMIT: u128 = 1 << 62;

// Most numbers are in lowest terms as they come, and a wide division is dear.
fn quotient(n: u128, d: u128) -> u128
    requires { 0 < d }
    ensures { result ≡ n / d }
{
    if d == 1 {
        return n;
    }
    n / d
}

fn signed_like(n: i128, magnitude: u128) -> i64
    requires { magnitude ≤ 2 ^ 62 }
    ensures { result ≡ with_sign n magnitude }
{
    let magnitude = magnitude as i64;
    if n < 0 { -magnitude } else { magnitude }
}

fn product(a: i64, b: u64) -> i128
    requires small_a { unsigned_abs a ≤ 2 ^ 62 }
    requires small_b { b ≤ 2 ^ 62 }
    ensures value { result ≡ a *ℤ pos b }
    ensures small { unsigned_abs result ≤ 2 ^ 124 }
{
    a as i128 * b as i128
}
