ghost use Rattle.std.specs.Prelude.{◌≡◌, ◌∷◌, false};
ghost use Rattle.cga_fraction.specs.Arithmetic.{divided};
ghost use Rattle.cga_fraction.specs.Refusals.{checked, is_zero};
ghost use Rattle.cga_asset.specs.Fit.{box_of, local_of, point_in, span_of};

use cga_fraction::{Fraction, Overflow};
use cga_frame::Point;
use cga_word::Axis;

/// The least coordinate along an axis, and how far the greatest is from it.
#[derive(Clone, Copy)]
pub(crate) struct Span {
    low: Fraction,
    extent: Fraction,
}

/// The spans along the three axes.
#[derive(Clone, Copy)]
pub(crate) struct Spans {
    x: Span,
    y: Span,
    z: Span,
}

// Along one axis, of a first point and others.
fn spanned(first: Point, rest: &[Point], axis: Axis) -> Result<Span, Overflow>
    ensures { result ≡ span_of axis (first ∷ rest.now) }
{
    let mut low = first.along(axis);
    let mut high = low;
    for point in rest {
        low = low.min(point.along(axis));
        high = high.max(point.along(axis));
    }
    let extent = high.sub(low)?;
    Ok(Span { low, extent })
}

// Along one axis; of no points it is that of one at 0.
fn span_along(points: &[Point], axis: Axis) -> Result<Span, Overflow>
    ensures { result ≡ span_of axis points.now }
{
    match points {
        [first, rest @ ..] => spanned(*first, rest, axis),
        [] => Ok(Span {
            low: Fraction::zero(),
            extent: Fraction::zero(),
        }),
    }
}

fn is_zero(number: Fraction) -> bool
    ensures { result ≡ is_zero number.num }
{
    number.numerator() == 0
}

#[tactic(auto, unfolding(cga_fraction::specs::Refusals::quotient_of))]
fn share_of(part: Fraction, whole: Fraction) -> Result<Fraction, Overflow>
    requires { is_zero whole.num ≡ false }
    ensures { result ≡ checked (divided part whole) }
{
    match part.div(whole) {
        Ok(share) => Ok(share),
        Err(_) => Err(Overflow),
    }
}

// A coordinate stretched from the span to a size.
fn stretched(span: Span, size: Fraction, at: Fraction) -> Result<Fraction, Overflow>
    ensures { result ≡ local_of span size at }
{
    if is_zero(span.extent) {
        return Ok(Fraction::zero());
    }
    let from_low = at.sub(span.low)?;
    let share = share_of(from_low, span.extent)?;
    share.mul(size)
}

impl Spans {
    pub(crate) fn of(points: &[Point]) -> Result<Spans, Overflow>
        ensures { result ≡ box_of points.now }
    {
        let x = span_along(points, Axis::X)?;
        let y = span_along(points, Axis::Y)?;
        let z = span_along(points, Axis::Z)?;
        Ok(Spans { x, y, z })
    }

    /// A point stretched from the spans to three sizes.
    pub(crate) fn stretch(&self, size: &Point, at: &Point) -> Result<Point, Overflow>
        ensures { result ≡ point_in self.now size.now at.now }
    {
        let x = stretched(self.x, size.x, at.x)?;
        let y = stretched(self.y, size.y, at.y)?;
        let z = stretched(self.z, size.z, at.z)?;
        Ok(Point { x, y, z })
    }
}
