ghost use Rattle.std.specs.Prelude.{◌≡◌, IfSome, IsTrue};
ghost use Rattle.cga_fraction.specs.Rat.{zero_rat};
ghost use Rattle.cga_frame.specs.Scope.{world_point};
ghost use Rattle.cga_obj.specs.Boxes.{AreNarrow, AreSpans, IsFarOf, local_point};

use crate::piece::is_narrow;
use cga_fraction::Fraction;
use cga_frame::{Point, Scope};
use cga_word::Axis;

/// What a box takes of a world axis: both ends, and the axis of the box that lies there.
#[derive(Drop)]
pub(crate) struct Span {
    pub(crate) axis: Axis,
    pub(crate) near: Fraction,
    pub(crate) far: Fraction,
}

// One end, and the same coordinate of the neighbours of the near corner along each axis of the box.
fn span_by(near: Fraction, x: Fraction, y: Fraction, z: Fraction) -> Span
    ensures near { result.near ≡ near }
    ensures far { IsFarOf result.axis near x y z result.far }
{
    if x != near {
        return Span {
            axis: Axis::X,
            near,
            far: x,
        };
    }
    if y != near {
        return Span {
            axis: Axis::Y,
            near,
            far: y,
        };
    }
    Span {
        axis: Axis::Z,
        near,
        far: z,
    }
}

fn is_narrow_span(span: &Span) -> bool
    ensures { IsTrue result → AreNarrow span.now }
{
    is_narrow(span.near) && is_narrow(span.far)
}

// The world point of local coordinates, where it is in range.
#[tactic(auto, using(crate::proofs::Spans::placed_at))]
fn placed(scope: &Scope, x: Fraction, y: Fraction, z: Fraction) -> Option<Point>
    ensures { IfSome result (λ p. p ≡ world_point scope.now.at scope.now.frame (local_point x y z)) }
{
    match scope.place(Point { x, y, z }) {
        Ok(point) => Some(point),
        Err(_) => None,
    }
}

// The spans by the neighbours of the near corner.
fn spans_by(scope: &Scope, x: &Point, y: &Point, z: &Point) -> (Span, Span, Span)
    requires x { x.now ≡ world_point scope.now.at scope.now.frame (local_point scope.now.size.x zero_rat zero_rat) }
    requires y { y.now ≡ world_point scope.now.at scope.now.frame (local_point zero_rat scope.now.size.y zero_rat) }
    requires z { z.now ≡ world_point scope.now.at scope.now.frame (local_point zero_rat zero_rat scope.now.size.z) }
    ensures { AreSpans scope.now result.0 result.1 result.2 }
{
    let near = scope.at();
    let along_x = span_by(near.x, x.x, y.x, z.x);
    let along_y = span_by(near.y, x.y, y.y, z.y);
    let along_z = span_by(near.z, x.z, y.z, z.z);
    (along_x, along_y, along_z)
}

/// The three spans of a scope, if all their numbers are narrow.
pub(crate) fn spans(scope: &Scope) -> Option<(Span, Span, Span)>
    ensures spans { IfSome result (λ s. AreSpans scope.now s.0 s.1 s.2) }
    ensures narrow { IfSome result (λ s. AreNarrow s.0 × AreNarrow s.1 × AreNarrow s.2) }
{
    let size = scope.size();
    let zero = Fraction::zero();
    let Some(x) = placed(scope, size.x, zero, zero) else {
        return None;
    };
    let Some(y) = placed(scope, zero, size.y, zero) else {
        return None;
    };
    let Some(z) = placed(scope, zero, zero, size.z) else {
        return None;
    };
    let along = spans_by(scope, &x, &y, &z);
    if is_narrow_span(&along.0) && is_narrow_span(&along.1) && is_narrow_span(&along.2) {
        return Some(along);
    }
    None
}
