//! A box round many boxes.
ghost use Rattle.std.specs.Prelude.{◌≡◌, IfOk, IfSome};
ghost use Rattle.cga_index.specs.Around.{IsAround, IsWider, shifted_by};

use cga_fraction::{Fraction, Overflow};
use cga_frame::{Point, WorldBox};

/// A box that everyone meets who meets one of the areas. None where there is no area, or where its corners would leave the
/// range of fractions.
pub fn box_around(areas: &[WorldBox]) -> Option<WorldBox>
    ensures { IfSome result (IsAround areas.now) }
{
    let mut hull = *areas.first()?;
    for area in areas {
        hull = hull.hull(area);
    }
    widened(&hull).ok()
}

/// The box and a margin of one unit on each side. A flat box in a plane that bounds a hull may meet what is flat there,
/// and doesn't meet the hull.
fn widened(inner: &WorldBox) -> Result<WorldBox, Overflow>
    ensures { IfOk result (IsWider inner.now) }
{
    let low = shifted(inner.low, Fraction::from(-1))?;
    let high = shifted(inner.high, Fraction::from(1))?;
    Ok(WorldBox { low, high })
}

fn shifted(point: Point, by: Fraction) -> Result<Point, Overflow>
    ensures { IfOk result (λ there. there ≡ shifted_by by point) }
{
    Ok(Point {
        x: point.x.add(by)?,
        y: point.y.add(by)?,
        z: point.z.add(by)?,
    })
}
