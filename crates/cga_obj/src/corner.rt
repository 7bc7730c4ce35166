ghost use Rattle.std.specs.Prelude.{◌≡◌};
ghost use Rattle.cga_obj.specs.Boxes as spec;

use cga_word::Axis;

/// A corner of a box: whether it is at the far end along each axis of the box.
#[derive(Clone, Copy)]
pub(crate) struct Corner {
    pub(crate) x: bool,
    pub(crate) y: bool,
    pub(crate) z: bool,
}

pub(crate) fn is_far(corner: Corner, axis: Axis) -> bool
    ensures { result ≡ spec.is_far corner axis }
{
    match axis {
        Axis::X => corner.x,
        Axis::Y => corner.y,
        Axis::Z => corner.z,
    }
}
