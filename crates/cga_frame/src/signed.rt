use crate::direction::Direction;
use cga_word::Axis;

/// An axis, or its opposite.
#[derive(Clone, Copy, Debug, PartialEq, Eq)]
pub struct Signed {
    pub axis: Axis,
    pub against: bool,
}

impl Signed {
    ghost use Rattle.std.specs.Prelude.{◌≡◌};
    ghost use Rattle.cga_frame.specs.Axes.{differ, direction, flipped, minus_of, plus_of, same_axis};

    pub(crate) fn plus(axis: Axis) -> Signed
        ensures { result ≡ plus_of axis }
    {
        Signed {
            axis,
            against: false,
        }
    }

    pub(crate) fn minus(axis: Axis) -> Signed
        ensures { result ≡ minus_of axis }
    {
        Signed {
            axis,
            against: true,
        }
    }

    pub(crate) fn lies_along(self, axis: Axis) -> bool
        ensures { result ≡ same_axis self.axis axis }
    {
        match (self.axis, axis) {
            (Axis::X, Axis::X) => true,
            (Axis::Y, Axis::Y) => true,
            (Axis::Z, Axis::Z) => true,
            _ => false,
        }
    }

    // The other side of it where the flag says so.
    pub(crate) fn flipped(self, flip: bool) -> Signed
        ensures { result ≡ flipped flip self }
    {
        Signed {
            axis: self.axis,
            against: flip != self.against,
        }
    }

    pub(crate) fn direction(self) -> Direction
        ensures { result ≡ direction self }
    {
        match (self.axis, self.against) {
            (Axis::X, false) => Direction::PlusX,
            (Axis::X, true) => Direction::MinusX,
            (Axis::Y, false) => Direction::PlusY,
            (Axis::Y, true) => Direction::MinusY,
            (Axis::Z, false) => Direction::PlusZ,
            (Axis::Z, true) => Direction::MinusZ,
        }
    }
}
