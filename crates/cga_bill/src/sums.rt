ghost use Rattle.std.specs.Prelude.{◌≡◌, ◌∷◌, []};
ghost use Rattle.cga_bill.specs.Bill.{sums_of};

use crate::measure::measured;
use cga_fraction::Overflow;
use cga_shape::Drawn;

/// What a bill says of a symbol.
#[derive(Clone, Copy, Debug, PartialEq, Eq)]
pub struct Sums {
    /// How many instances there are.
    pub number: u64,
    /// The sum of the areas of their fronts, in millionths. One that isn't measured adds nothing.
    pub front: u128,
    /// The sum of their volumes, in millionths.
    pub volume: u128,
    /// How many of them aren't measured, since the area or the volume leaves the range.
    pub unmeasured: u64,
}

impl Sums {
    ghost use Rattle.std.specs.Prelude.{◌≡◌};
    ghost use Rattle.cga_bill.specs.Amounts.{Holds, HasRoom, minus_sums, no_sums, plus_sums};

    pub(crate) fn zero() -> Sums
        ensures { result ≡ no_sums }
    {
        Sums {
            number: 0,
            front: 0,
            volume: 0,
            unmeasured: 0,
        }
    }

    pub(crate) fn plus(self, more: Sums) -> Sums
        requires { HasRoom self more }
        ensures { result ≡ plus_sums self more }
    {
        Sums {
            number: self.number + more.number,
            front: self.front + more.front,
            volume: self.volume + more.volume,
            unmeasured: self.unmeasured + more.unmeasured,
        }
    }

    pub(crate) fn minus(self, less: Sums) -> Sums
        requires { Holds self less }
        ensures { result ≡ minus_sums self less }
    {
        Sums {
            number: self.number - less.number,
            front: self.front - less.front,
            volume: self.volume - less.volume,
            unmeasured: self.unmeasured - less.unmeasured,
        }
    }
}

/// The sums of one instance.
pub(crate) fn sums_of(drawn: &Drawn) -> Sums
    ensures { result ≡ sums_of (drawn.now ∷ []) }
{
    match measured(&drawn.scope) {
        Ok(measure) => Sums {
            number: 1,
            front: measure.front,
            volume: measure.volume,
            unmeasured: 0,
        },
        Err(Overflow) => Sums {
            number: 1,
            front: 0,
            volume: 0,
            unmeasured: 1,
        },
    }
}
