ghost use Rattle.std.specs.Prelude.{◌≡◌, ◌<◌, ◌≤◌, ◌^◌, unsigned_abs, neg_ℤ};
ghost use Rattle.cga_fraction.specs.Rounding.{IsCeil, IsFloor, ceil_of, floor_div, floor_of};

use super::Fraction;

impl Fraction {
    /// The greatest whole number that is at most this one, below 0 too.
    #[tactic(auto, unfolding(crate::specs::Rounding::floor_of))]
    pub fn floor(self) -> i64
        ensures value { result ≡ floor_of self }
        ensures floor { IsFloor self result }
    {
        floor_quotient(self.numerator, self.denominator)
    }

    /// The least whole number that is at least this one.
    #[tactic(auto, unfolding(crate::specs::Rounding::floor_of))]
    pub fn ceil(self) -> i64
        ensures value { result ≡ ceil_of self }
        ensures ceil { IsCeil self result }
    {
        -floor_quotient(-self.numerator, self.denominator)
    }
}

fn floor_quotient(n: i64, d: u64) -> i64
    requires above_zero { 0 < d }
    requires small { unsigned_abs n ≤ 2 ^ 62 }
    ensures value { result ≡ floor_div n d }
    ensures small { unsigned_abs result ≤ 2 ^ 62 }
{
    if n >= 0 {
        return (n.unsigned_abs() / d) as i64;
    }
    let below = (n.unsigned_abs() - 1) / d;
    -(below as i64) - 1
}
