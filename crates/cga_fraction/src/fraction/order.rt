ghost use Rattle.std.specs.Prelude.{◌≡◌};
ghost use Rattle.cga_fraction.specs.Rat.{zero_rat};
ghost use Rattle.cga_fraction.specs.Order.{rat_cmp, rat_le, rat_lt, rat_max, rat_min};

use super::{Fraction, product};
use std::cmp::Ordering;

impl Fraction {
    /// The order of numbers.
    pub fn compare(self, other: Fraction) -> Ordering
        ensures { result ≡ rat_cmp self other }
    {
        if self.denominator == other.denominator {
            return self.numerator.cmp(&other.numerator);
        }
        let left = product(self.numerator, other.denominator);
        let right = product(other.numerator, self.denominator);
        left.cmp(&right)
    }

    pub fn is_at_most(self, other: Fraction) -> bool
        ensures { result ≡ rat_le self other }
    {
        if self.denominator == other.denominator {
            return self.numerator <= other.numerator;
        }
        let left = product(self.numerator, other.denominator);
        let right = product(other.numerator, self.denominator);
        left <= right
    }

    pub fn is_less(self, other: Fraction) -> bool
        ensures { result ≡ rat_lt self other }
    {
        !other.is_at_most(self)
    }

    pub fn is_negative(self) -> bool
        ensures { result ≡ rat_lt self zero_rat }
    {
        self.numerator < 0
    }

    pub fn is_positive(self) -> bool
        ensures { result ≡ rat_lt zero_rat self }
    {
        self.numerator > 0
    }

    #[tactic(auto, unfolding(crate::specs::Order::rat_min))]
    pub fn min(self, other: Fraction) -> Fraction
        ensures { result ≡ rat_min self other }
    {
        if self.is_at_most(other) { self } else { other }
    }

    #[tactic(auto, unfolding(crate::specs::Order::rat_max))]
    pub fn max(self, other: Fraction) -> Fraction
        ensures { result ≡ rat_max self other }
    {
        if self.is_at_most(other) { other } else { self }
    }
}
