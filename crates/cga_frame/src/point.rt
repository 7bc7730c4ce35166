use cga_fraction::Fraction;
use cga_word::Axis;

/// A position, a displacement or three sizes, in the lot's unit. Y is up.
#[derive(Clone, Copy, Debug, PartialEq, Eq)]
pub struct Point {
    pub x: Fraction,
    pub y: Fraction,
    pub z: Fraction,
}

impl Point {
    ghost use Rattle.std.specs.Prelude.{◌≡◌};
    ghost use Rattle.cga_frame.specs.Points.{coordinate, point_max, point_min, whole_point, with_coordinate};

    pub fn whole(x: i32, y: i32, z: i32) -> Point
        ensures { result ≡ whole_point x y z }
    {
        Point {
            x: Fraction::from(x),
            y: Fraction::from(y),
            z: Fraction::from(z),
        }
    }

    /// The coordinate along an axis.
    pub fn along(self, axis: Axis) -> Fraction
        ensures { result ≡ coordinate self axis }
    {
        match axis {
            Axis::X => self.x,
            Axis::Y => self.y,
            Axis::Z => self.z,
        }
    }

    /// The point with another coordinate along an axis.
    pub fn with(self, axis: Axis, value: Fraction) -> Point
        ensures { result ≡ with_coordinate self axis value }
    {
        match axis {
            Axis::X => Point { x: value, ..self },
            Axis::Y => Point { y: value, ..self },
            Axis::Z => Point { z: value, ..self },
        }
    }

    /// The least of both on each axis.
    pub(crate) fn min(self, other: Point) -> Point
        ensures { result ≡ point_min self other }
    {
        Point {
            x: self.x.min(other.x),
            y: self.y.min(other.y),
            z: self.z.min(other.z),
        }
    }

    /// The greatest of both on each axis.
    pub(crate) fn max(self, other: Point) -> Point
        ensures { result ≡ point_max self other }
    {
        Point {
            x: self.x.max(other.x),
            y: self.y.max(other.y),
            z: self.z.max(other.z),
        }
    }
}
