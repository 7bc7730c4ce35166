use cga_fraction::Fraction;
use cga_frame::{Frame, Point, Scope, ScopeFault};
use cga_word::Name;

/// A piece of ground from (x, z) to (x + width, z + depth), in the unit of all lots, and the symbol
/// and the seed of its root shape.
#[derive(Clone, Copy, Debug)]
pub struct Lot {
    pub name: Name,
    pub seed: u64,
    pub x: Fraction,
    pub z: Fraction,
    pub width: Fraction,
    pub depth: Fraction,
    pub symbol: Name,
}

impl Lot {
    ghost use Rattle.std.specs.Prelude.{◌≡◌};
    ghost use Rattle.cga_shape.specs.Root.{root_scope};

    /// The scope of the lot's root: flat on the ground, along the world's axes. It doesn't exist where
    /// an extent is below 0, or the far corner leaves the range.
    pub fn root_scope(&self) -> Result<Scope, ScopeFault>
        ensures { result ≡ root_scope self.now }
    {
        let zero = Fraction::zero();
        let at = Point {
            x: self.x,
            y: zero,
            z: self.z,
        };
        let size = Point {
            x: self.width,
            y: zero,
            z: self.depth,
        };
        Scope::new(at, Frame::base(), size)
    }
}
