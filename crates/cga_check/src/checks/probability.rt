//! The probabilities of the alternatives of a rule.
ghost use Rattle.std.specs.Prelude.{◌≡◌, ◌<◌, ◌≤◌, ◌*◌, ◌^◌, nat_eq, unsigned_abs};
ghost use Rattle.std.specs.List.{list_all};
ghost use Rattle.cga_fraction.specs.Rat.{den};
ghost use Rattle.cga_rule.specs.declared.rule.Alternative.{Alternative};
ghost use Rattle.cga_check.specs.Probabilities as spec;

use cga_fraction::Fraction;
use cga_rule::Alternative;

/// A probability of 1, in millionths.
pub const MILLIONTHS: u128 = 1_000_000;

pub(super) fn are_probabilities(alternatives: &[Alternative]) -> bool
    ensures { result ≡ spec.are_probabilities alternatives.now }
{
    each_is_one(alternatives) && add_up(alternatives)
}

fn each_is_one(alternatives: &[Alternative]) -> bool
    ensures { result ≡ list_all (λ (a : Alternative). spec.is_probability a.prob) alternatives.now }
{
    alternatives
        .iter()
        .all(|alternative| is_probability(alternative.prob))
}

// Counts down, since the sum of any fractions may be too large for a number.
fn add_up(alternatives: &[Alternative]) -> bool
    ensures { result ≡ nat_eq (spec.total alternatives.now) MILLIONTHS }
{
    let mut left = MILLIONTHS;
    for alternative in alternatives {
        match left.checked_sub(millionths(alternative.prob)) {
            Some(rest) => left = rest,
            None => return false,
        }
    }
    left == 0
}

#[tactic(auto, unfolding(crate::specs::Probabilities::is_probability))]
fn is_probability(prob: Fraction) -> bool
    ensures { result ≡ spec.is_probability prob }
{
    prob.numerator() > 0 && enlarged(prob) % denominator(prob) == 0
}

#[tactic(auto, unfolding(crate::specs::Probabilities::millionths))]
fn millionths(prob: Fraction) -> u128
    ensures { result ≡ spec.millionths prob }
{
    enlarged(prob) / denominator(prob)
}

fn enlarged(prob: Fraction) -> u128
    ensures { result ≡ unsigned_abs prob.num * MILLIONTHS }
{
    u128::from(prob.numerator().unsigned_abs()) * MILLIONTHS
}

fn denominator(prob: Fraction) -> u128
    ensures value { result ≡ den prob }
    ensures above_zero { 0 < result }
{
    u128::from(prob.denominator().unsigned_abs())
}
