ghost use Rattle.std.specs.Prelude.{◌≡◌};
ghost use Rattle.cga_bill.specs.Measures.{measure_of, millionths_of};

use cga_fraction::{Fraction, Overflow};
use cga_frame::Scope;

/// The area of a scope's front and its volume, in millionths.
#[derive(Clone, Copy, Debug, PartialEq, Eq)]
pub struct Measure {
    pub front: u128,
    pub volume: u128,
}

// Twice the millionths of a numerator below this fit in 64 bits, also with a denominator.
const SMALL: u64 = 1 << 42;

/// Refused where the area or the volume leaves the range.
#[tactic(auto, unfolding(crate::specs::Measures::measure_of))]
pub fn measured(scope: &Scope) -> Result<Measure, Overflow>
    ensures { result ≡ measure_of scope.now }
{
    let size = scope.size();
    let area = size.x.mul(size.y)?;
    let volume = area.mul(size.z)?;
    Ok(Measure {
        front: millionths(area),
        volume: millionths(volume),
    })
}

// The magnitude of the whole number nearest to so many millionths, and of two equally near ones the one farther from zero.
fn millionths(number: Fraction) -> u128
    ensures { result ≡ millionths_of number }
{
    let numerator = number.numerator().unsigned_abs();
    let denominator = number.denominator().unsigned_abs();
    if numerator < SMALL {
        ((2 * (numerator * 1_000_000) + denominator) / (2 * denominator)) as u128
    } else {
        let (above, below) = (numerator as u128, denominator as u128);
        (2 * (above * 1_000_000) + below) / (2 * below)
    }
}
