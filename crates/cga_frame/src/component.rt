use crate::signed::Signed;
use cga_fraction::Fraction;
use cga_word::{Axis, Turn};

/// Where a component lies in a scope, along the scope's own axes.
#[derive(Clone, Copy, Debug, PartialEq, Eq)]
pub struct Component {
    /// Whether it begins at the scope's far end along X, and so along Y and Z.
    pub x_high: bool,
    pub y_high: bool,
    pub z_high: bool,
    /// The turn that makes the component's axes of the scope's.
    pub axis: Axis,
    pub by: Turn,
    /// Which of the scope's sizes the component has along its own X, Y and Z; `None` is flat.
    pub width: Option<Axis>,
    pub height: Option<Axis>,
    pub depth: Option<Axis>,
}

/// Where a component begins and ends along a world axis.
#[derive(Clone, Copy)]
pub(crate) struct Ends {
    pub(crate) near: Fraction,
    pub(crate) far: Fraction,
}

impl Component {
    ghost use Rattle.std.specs.Prelude.{◌≡◌};
    ghost use Rattle.cga_frame.specs.Component.{corner, end_of, extent, is_high};

    fn is_high(self, axis: Axis) -> bool
        ensures { result ≡ is_high self axis }
    {
        match axis {
            Axis::X => self.x_high,
            Axis::Y => self.y_high,
            Axis::Z => self.z_high,
        }
    }

    fn extent(self, axis: Axis) -> Option<Axis>
        ensures { result ≡ extent self axis }
    {
        match axis {
            Axis::X => self.width,
            Axis::Y => self.height,
            Axis::Z => self.depth,
        }
    }

    // Both ends on a world axis along which these axes of the scope and of the component lie.
    pub(crate) fn ends(self, outer: Signed, inner: Signed, near: Fraction, far: Fraction) -> Ends
        ensures near { result.near ≡ corner self outer near far }
        ensures far { result.far ≡ end_of self outer inner near far }
    {
        let high = self.is_high(outer.axis);
        let begin = if high { far } else { near };
        let other = if high { near } else { far };
        match self.extent(inner.axis) {
            Some(_) => Ends {
                near: begin,
                far: other,
            },
            None => Ends {
                near: begin,
                far: begin,
            },
        }
    }
}
