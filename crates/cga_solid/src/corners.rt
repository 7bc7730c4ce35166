ghost use Rattle.std.specs.Prelude.{◌≡◌, ◌∷◌, [], Ok};
ghost use Rattle.cga_fraction.specs.Arithmetic.{minus};
ghost use Rattle.cga_solid.specs.Faults.{within};
ghost use Rattle.cga_solid.specs.Corners.{corners_of, half_of, over_base, point};
ghost use Rattle.cga_solid.specs.Listed.{listed, Lists};
ghost use Rattle.cga_solid.specs.declared.form.Form.TheVariants as form;

use crate::form::Form;
use crate::solid_fault::SolidFault;
use cga_fraction::Fraction;
use cga_frame::Point;

/// The corners of a solid in local coordinates, in order.
#[derive(Clone, Copy)]
pub(crate) enum Corners {
    Four([Point; 4]),
    Five([Point; 5]),
    Six([Point; 6]),
    Eight([Point; 8]),
}

impl Corners {
    /// Those of a form in a scope of this size.
    #[tactic(auto, unfolding(crate::specs::Corners::corners_of))]
    pub(crate) fn of(form: Form, size: &Point) -> Result<Corners, SolidFault>
        ensures { Lists (corners_of form size.now) result }
    {
        match form {
            Form::Cube => Ok(cube(size)),
            Form::Shed => Ok(shed(size)),
            Form::GableAlongX => gable_along_x(size),
            Form::GableAlongZ => gable_along_z(size),
            Form::HipAlongX => hip_along_x(size),
            Form::HipAlongZ => hip_along_z(size),
            Form::Pyramid => pyramid(size),
            Form::Quad => Ok(quad(size)),
        }
    }

    pub(crate) fn as_slice(&self) -> &[Point]
        ensures { result.now ≡ listed self.now }
    {
        match self {
            Corners::Four(points) => points,
            Corners::Five(points) => points,
            Corners::Six(points) => points,
            Corners::Eight(points) => points,
        }
    }
}

fn point(x: Fraction, y: Fraction, z: Fraction) -> Point
    ensures { result ≡ point x y z }
{
    Point { x, y, z }
}

fn half(size: Fraction) -> Result<Fraction, SolidFault>
    ensures { result ≡ half_of size }
{
    match size.div(Fraction::from(2)) {
        Ok(half) => Ok(half),
        Err(_) => Err(SolidFault::Overflow),
    }
}

fn difference(a: Fraction, b: Fraction) -> Result<Fraction, SolidFault>
    ensures { result ≡ within (minus a b) }
{
    a.sub(b).map_err(|_| SolidFault::Overflow)
}

// A roof over the base, with the two ends of its ridge.
fn with_ridge(size: &Point, first: Point, second: Point) -> Corners
    ensures { listed result ≡ over_base size.now (first ∷ second ∷ []) }
{
    let zero = Fraction::zero();
    Corners::Six([
        point(zero, zero, zero),
        point(size.x, zero, zero),
        point(size.x, zero, size.z),
        point(zero, zero, size.z),
        first,
        second,
    ])
}

#[tactic(auto, unfolding(crate::specs::Corners::corners_of))]
fn cube(size: &Point) -> Corners
    ensures { corners_of form.Cube size.now ≡ Ok (listed result) }
{
    let zero = Fraction::zero();
    Corners::Eight([
        point(zero, zero, zero),
        point(size.x, zero, zero),
        point(size.x, zero, size.z),
        point(zero, zero, size.z),
        point(zero, size.y, zero),
        point(size.x, size.y, zero),
        *size,
        point(zero, size.y, size.z),
    ])
}

#[tactic(auto, unfolding(crate::specs::Corners::corners_of))]
fn shed(size: &Point) -> Corners
    ensures { corners_of form.Shed size.now ≡ Ok (listed result) }
{
    with_ridge(size, *size, point(Fraction::zero(), size.y, size.z))
}

#[tactic(auto, unfolding(crate::specs::Corners::corners_of))]
fn gable_along_x(size: &Point) -> Result<Corners, SolidFault>
    ensures { Lists (corners_of form.GableAlongX size.now) result }
{
    let middle = half(size.z)?;
    let first = point(Fraction::zero(), size.y, middle);
    Ok(with_ridge(size, first, point(size.x, size.y, middle)))
}

#[tactic(auto, unfolding(crate::specs::Corners::corners_of))]
fn gable_along_z(size: &Point) -> Result<Corners, SolidFault>
    ensures { Lists (corners_of form.GableAlongZ size.now) result }
{
    let middle = half(size.x)?;
    let first = point(middle, size.y, Fraction::zero());
    Ok(with_ridge(size, first, point(middle, size.y, size.z)))
}

// Each end of the ridge is half of the depth away from its side.
#[tactic(auto, unfolding(crate::specs::Corners::corners_of))]
fn hip_along_x(size: &Point) -> Result<Corners, SolidFault>
    ensures { Lists (corners_of form.HipAlongX size.now) result }
{
    let inset = half(size.z)?;
    let far = difference(size.x, inset)?;
    let first = point(inset, size.y, inset);
    Ok(with_ridge(size, first, point(far, size.y, inset)))
}

#[tactic(auto, unfolding(crate::specs::Corners::corners_of))]
fn hip_along_z(size: &Point) -> Result<Corners, SolidFault>
    ensures { Lists (corners_of form.HipAlongZ size.now) result }
{
    let inset = half(size.x)?;
    let far = difference(size.z, inset)?;
    let first = point(inset, size.y, inset);
    Ok(with_ridge(size, first, point(inset, size.y, far)))
}

#[tactic(auto, unfolding(crate::specs::Corners::corners_of))]
fn pyramid(size: &Point) -> Result<Corners, SolidFault>
    ensures { Lists (corners_of form.Pyramid size.now) result }
{
    let zero = Fraction::zero();
    let middle = half(size.x)?;
    Ok(Corners::Five([
        point(zero, zero, zero),
        point(size.x, zero, zero),
        point(size.x, zero, size.z),
        point(zero, zero, size.z),
        point(middle, size.y, middle),
    ]))
}

#[tactic(auto, unfolding(crate::specs::Corners::corners_of))]
fn quad(size: &Point) -> Corners
    ensures { corners_of form.Quad size.now ≡ Ok (listed result) }
{
    let zero = Fraction::zero();
    Corners::Four([
        point(zero, zero, zero),
        point(size.x, zero, zero),
        point(size.x, size.y, zero),
        point(zero, size.y, zero),
    ])
}
