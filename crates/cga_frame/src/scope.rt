ghost use Rattle.std.specs.Prelude.{◌≡◌, IfOk};
ghost use Rattle.cga_fraction.specs.Rat.{IsFraction};
ghost use Rattle.cga_fraction.specs.Refusals.{checked};
ghost use Rattle.cga_frame.specs.Points.{checked_point, InRange};
ghost use Rattle.cga_frame.specs.Component.{size_by};
ghost use Rattle.cga_frame.specs.Scope.{has_negative, joined, moved_along, world_point, stepped};

use crate::component::Component;
use crate::frame::Frame;
use crate::point::Point;
use crate::scope_fault::ScopeFault;
use crate::signed::Signed;
use crate::world_box::{WorldBox, in_order, span_holds, span_meets, span_touches};
use cga_fraction::{Fraction, Overflow};
use cga_word::{Axis, Turn};
use std::marker::Model;

/// An oriented box whose world box is in range: a position, a frame and three sizes that aren't below 0. It
/// keeps the corner opposite to the position, so that its world box takes no arithmetic.
#[derive(Clone, Copy, Debug, PartialEq, Eq)]
pub struct Scope {
    at: Point,
    frame: Frame,
    size: Point,
    far: Point,
}

impl Model for Scope {
    ghost use Rattle.cga_frame.specs.Scope.{Scope, far_of};
    ghost use Rattle.cga_frame.specs.Standing.{IsStanding};

    ghost Value = { Scope };

    ghost view = { λ s. record { at = s.at; frame = s.frame; size = s.size } };

    ghost invariant = { λ s. IsStanding (record { at = s.at; frame = s.frame; size = s.size }) s.far };

    ghost inverse = { λ s. record { at = s.at; frame = s.frame; size = s.size; far = far_of s } };

    ghost use Rattle.cga_frame.specs.Standing.{inverse_ok};

    ghost inverse_ok = { inverse_ok };
}

impl Scope {
    ghost use Rattle.std.specs.Prelude.{true, false};
    ghost use Rattle.cga_fraction.specs.Rat.{zero_rat};
    ghost use Rattle.cga_fraction.specs.Order.{rat_lt};
    ghost use Rattle.cga_frame.specs.Points.{checked_point};
    ghost use Rattle.cga_frame.specs.Scope.{existing, part_of, scope_of, step_of, translated, turned_scope, Exists};
    ghost use Rattle.cga_frame.specs.Box.{box_of, holds, is_box, meets, touches};
    ghost use Rattle.cga_frame.specs.Component.{component_of, IsFitting};

    /// The scope with its corner of all zero coordinates there.
    pub fn new(at: Point, frame: Frame, size: Point) -> Result<Scope, ScopeFault>
        ensures value { result ≡ scope_of at frame size }
        ensures exists { IfOk result Exists }
    {
        if has_negative(&size) {
            return Err(ScopeFault::NegativeSize);
        }
        match Scope::standing(at, frame, size) {
            Ok(scope) => Ok(scope),
            Err(Overflow) => Err(ScopeFault::Overflow),
        }
    }

    /// The corner of all zero coordinates.
    pub fn at(&self) -> Point
        ensures value { result ≡ self.now.at }
        ensures exists { Exists self.now }
    {
        self.at
    }

    pub fn frame(&self) -> Frame
        ensures { result ≡ self.now.frame }
    {
        self.frame
    }

    /// Along the scope's own axes.
    pub fn size(&self) -> Point
        ensures value { result ≡ self.now.size }
        ensures sizes { has_negative self.now.size ≡ false }
        ensures exists { Exists self.now }
    {
        self.size
    }

    /// On each world axis the interval between the position and the position plus the signed size.
    pub fn world_box(&self) -> WorldBox
        ensures value { result ≡ box_of self.now }
        ensures ordered { is_box result ≡ true }
        ensures exists { Exists self.now }
    {
        let x = in_order(self.at.x, self.far.x);
        let y = in_order(self.at.y, self.far.y);
        let z = in_order(self.at.z, self.far.z);
        WorldBox {
            low: Point {
                x: x.0,
                y: y.0,
                z: z.0,
            },
            high: Point {
                x: x.1,
                y: y.1,
                z: z.1,
            },
        }
    }

    /// Whether that box touches another one, by the two corners: the box isn't made.
    #[tactic(auto, unfolding(crate::specs::Box::touches), using(crate::proofs::Flags::last_first))]
    pub fn touches(&self, area: &WorldBox) -> bool
        ensures { result ≡ touches (box_of self.now) area.now }
    {
        span_touches(self.at.x, self.far.x, area.low.x, area.high.x)
            && span_touches(self.at.z, self.far.z, area.low.z, area.high.z)
            && span_touches(self.at.y, self.far.y, area.low.y, area.high.y)
    }

    /// Whether that box meets another one.
    #[tactic(auto, unfolding(crate::specs::Box::meets), using(crate::proofs::Flags::last_first))]
    pub fn meets(&self, area: &WorldBox) -> bool
        ensures { result ≡ meets (box_of self.now) area.now }
    {
        span_meets(self.at.x, self.far.x, area.low.x, area.high.x)
            && span_meets(self.at.z, self.far.z, area.low.z, area.high.z)
            && span_meets(self.at.y, self.far.y, area.low.y, area.high.y)
    }

    /// Whether that box holds another one.
    #[tactic(auto, unfolding(crate::specs::Box::holds))]
    pub fn holds(&self, area: &WorldBox) -> bool
        ensures { result ≡ holds (box_of self.now) area.now }
    {
        span_holds(self.at.x, self.far.x, area.low.x, area.high.x)
            && span_holds(self.at.y, self.far.y, area.low.y, area.high.y)
            && span_holds(self.at.z, self.far.z, area.low.z, area.high.z)
    }

    /// The scope of a component, which begins at one corner of this one and is flat or of its size along each
    /// axis: its far corner is another of these corners, so nothing can be refused.
    pub fn component(&self, part: Component) -> Scope
        requires { IsFitting part }
        ensures value { result ≡ component_of self.now part }
        ensures exists { Exists result }
    {
        let frame = self.frame.turn(part.axis, part.by);
        let x = part.ends(
            self.frame.along(Axis::X),
            frame.along(Axis::X),
            self.at.x,
            self.far.x,
        );
        let y = part.ends(
            self.frame.along(Axis::Y),
            frame.along(Axis::Y),
            self.at.y,
            self.far.y,
        );
        let z = part.ends(
            self.frame.along(Axis::Z),
            frame.along(Axis::Z),
            self.at.z,
            self.far.z,
        );
        Scope {
            at: Point {
                x: x.near,
                y: y.near,
                z: z.near,
            },
            frame,
            size: Point {
                x: size_by(&self.size, part.width),
                y: size_by(&self.size, part.height),
                z: size_by(&self.size, part.depth),
            },
            far: Point {
                x: x.far,
                y: y.far,
                z: z.far,
            },
        }
    }

    // The scope, where it exists.
    fn standing(at: Point, frame: Frame, size: Point) -> Result<Scope, Overflow>
        requires { has_negative size ≡ false }
        ensures value { result ≡ existing (record { at = at; frame = frame; size = size }) }
        ensures exists { IfOk result Exists }
    {
        match placed(&at, &frame, &size) {
            Ok(far) => Ok(Scope {
                at,
                frame,
                size,
                far,
            }),
            Err(Overflow) => Err(Overflow),
        }
    }

    /// The world point of local coordinates.
    pub fn place(&self, local: Point) -> Result<Point, Overflow>
        ensures { result ≡ checked_point (world_point self.now.at self.now.frame local) }
    {
        placed(&self.at, &self.frame, &local)
    }

    /// Moved along its own axes.
    pub fn translate(&self, by: Point) -> Result<Scope, Overflow>
        ensures value { result ≡ existing (translated self.now by) }
        ensures exists { IfOk result Exists }
    {
        match self.place(by) {
            Ok(at) => Scope::standing(at, self.frame, self.size),
            Err(Overflow) => Err(Overflow),
        }
    }

    /// Turned about one of its own axes; the sizes stay as they are.
    pub fn turn(&self, axis: Axis, by: Turn) -> Result<Scope, Overflow>
        ensures value { result ≡ existing (turned_scope self.now axis by) }
        ensures exists { IfOk result Exists }
    {
        Scope::standing(self.at, self.frame.turn(axis, by), self.size)
    }

    /// With another size.
    pub fn resize(&self, size: Point) -> Result<Scope, ScopeFault>
        ensures value { result ≡ scope_of self.now.at self.now.frame size }
        ensures exists { IfOk result Exists }
    {
        Scope::new(self.at, self.frame, size)
    }

    /// Moved along one of its axes, and with another size along it.
    pub fn part(&self, axis: Axis, from: Fraction, length: Fraction) -> Result<Scope, Overflow>
        requires { rat_lt length zero_rat ≡ false }
        ensures value { result ≡ existing (part_of self.now axis from length) }
        ensures exists { IfOk result Exists }
    {
        match self.stepped(axis, from) {
            Ok(at) => Scope::standing(at, self.frame, self.size.with(axis, length)),
            Err(Overflow) => Err(Overflow),
        }
    }

    // The position moved along one of the axes.
    fn stepped(&self, axis: Axis, by: Fraction) -> Result<Point, Overflow>
        ensures { result ≡ checked_point (step_of self.now axis by) }
    {
        let x = stepped(self.at.x, self.frame.along(Axis::X), axis, by);
        let y = stepped(self.at.y, self.frame.along(Axis::Y), axis, by);
        let z = stepped(self.at.z, self.frame.along(Axis::Z), axis, by);
        joined(x, y, z)
    }
}

// The size that a component has along an axis of its own.
fn size_by(size: &Point, extent: Option<Axis>) -> Fraction
    ensures { result ≡ size_by size.now extent }
{
    match extent {
        Some(axis) => size.along(axis),
        None => Fraction::zero(),
    }
}

fn has_negative(size: &Point) -> bool
    ensures { result ≡ has_negative size.now }
{
    size.x.is_negative() || size.y.is_negative() || size.z.is_negative()
}

// The world point of local coordinates.
fn placed(at: &Point, frame: &Frame, local: &Point) -> Result<Point, Overflow>
    ensures value { result ≡ checked_point (world_point at.now frame.now local.now) }
    ensures at { InRange at.now }
    ensures in_range { IfOk result InRange }
{
    let x = moved(at.x, frame.along(Axis::X), local);
    let y = moved(at.y, frame.along(Axis::Y), local);
    let z = moved(at.z, frame.along(Axis::Z), local);
    joined(x, y, z)
}

// The point of three coordinates, none of which is refused.
fn joined(
    x: Result<Fraction, Overflow>,
    y: Result<Fraction, Overflow>,
    z: Result<Fraction, Overflow>,
) -> Result<Point, Overflow>
    ensures { result ≡ joined x y z }
{
    match (x, y, z) {
        (Ok(x), Ok(y), Ok(z)) => Ok(Point { x, y, z }),
        _ => Err(Overflow),
    }
}

// A world coordinate moved by the local one along the axis that lies there.
fn moved(from: Fraction, along: Signed, local: &Point) -> Result<Fraction, Overflow>
    ensures value { result ≡ checked (moved_along along from local.now) }
    ensures from { IsFraction from }
    ensures fraction { IfOk result IsFraction }
{
    let by = local.along(along.axis);
    if along.against {
        return from.sub(by);
    }
    from.add(by)
}

// A world coordinate moved where the axis lies there.
fn stepped(from: Fraction, along: Signed, axis: Axis, by: Fraction) -> Result<Fraction, Overflow>
    requires { IsFraction from }
    ensures { result ≡ checked (stepped along axis from by) }
{
    if !along.lies_along(axis) {
        return Ok(from);
    }
    if along.against {
        return from.sub(by);
    }
    from.add(by)
}
