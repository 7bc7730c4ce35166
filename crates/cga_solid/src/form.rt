use cga_fraction::Fraction;
use cga_frame::Point;
use cga_word::Primitive;

/// A solid with the way that its ridge lies: a row of the table of solids.
#[derive(Clone, Copy, PartialEq, Eq)]
pub(crate) enum Form {
    Cube,
    Shed,
    GableAlongX,
    GableAlongZ,
    HipAlongX,
    HipAlongZ,
    Pyramid,
    Quad,
}

impl Form {
    ghost use Rattle.std.specs.Prelude.{◌≡◌};
    ghost use Rattle.cga_solid.specs.Solids.{form_of, gable_form, hip_form, is_cornered};

    /// The form of a solid in a scope of this size.
    pub(crate) fn of(primitive: Primitive, size: &Point) -> Form
        ensures { result ≡ form_of primitive size.now }
    {
        match primitive {
            Primitive::Cube => Form::Cube,
            Primitive::Quad => Form::Quad,
            Primitive::Shed => Form::Shed,
            Primitive::Gable => Form::of_gable(size.x, size.z),
            Primitive::Hip => Form::of_hip(size.x, size.z),
        }
    }

    /// Whether its corners are corners of the scope's box, of which none leaves the range.
    pub(crate) fn is_cornered(self) -> bool
        ensures { result ≡ is_cornered self }
    {
        matches!(self, Form::Cube | Form::Shed | Form::Quad)
    }

    fn of_gable(width: Fraction, depth: Fraction) -> Form
        ensures { result ≡ gable_form width depth }
    {
        if depth.is_at_most(width) {
            return Form::GableAlongX;
        }
        Form::GableAlongZ
    }

    fn of_hip(width: Fraction, depth: Fraction) -> Form
        ensures { result ≡ hip_form width depth }
    {
        if depth.is_less(width) {
            return Form::HipAlongX;
        }
        if width.is_less(depth) {
            return Form::HipAlongZ;
        }
        Form::Pyramid
    }
}
