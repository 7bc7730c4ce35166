ghost use Rattle.std.specs.Prelude.{◌≡◌, Some};
ghost use Rattle.cga_frame.specs.Component.{IsFitting};
ghost use Rattle.cga_word.specs.declared.axis.Axis.TheVariants as axis;
ghost use Rattle.cga_comp.specs.Table.{row, face_of, edge_of, vertex_of};

use cga_frame::Component;
use cga_word::{Axis, Side, Turn};

const LOW: bool = false;

const HIGH: bool = true;

/// The vertex at these ends of X, Y and Z.
#[tactic(auto, using(crate::proofs::Fits::vertex_fits))]
pub(crate) fn vertex(x_high: bool, y_high: bool, z_high: bool) -> Component
    ensures value { result ≡ vertex_of x_high y_high z_high }
    ensures fits { IsFitting result }
{
    Component {
        x_high,
        y_high,
        z_high,
        axis: Axis::X,
        by: Turn::By0,
        width: None,
        height: None,
        depth: None,
    }
}

// What begins at a corner, with turned axes, and has these of the scope's sizes along its own X and Y.
fn at(
    corner: Component,
    axis: Axis,
    by: Turn,
    width: Option<Axis>,
    height: Option<Axis>,
) -> Component
    ensures { result ≡ row corner.x_high corner.y_high corner.z_high axis by width height }
{
    Component {
        x_high: corner.x_high,
        y_high: corner.y_high,
        z_high: corner.z_high,
        axis,
        by,
        width,
        height,
        depth: None,
    }
}

fn upright(corner: Component, by: Turn, width: Axis) -> Component
    ensures { result ≡ row corner.x_high corner.y_high corner.z_high axis.Y by (Some width) (Some axis.Y) }
{
    at(corner, Axis::Y, by, Some(width), Some(Axis::Y))
}

fn lying(corner: Component, by: Turn) -> Component
    ensures { result ≡ row corner.x_high corner.y_high corner.z_high axis.X by (Some axis.X) (Some axis.Z) }
{
    at(corner, Axis::X, by, Some(Axis::X), Some(Axis::Z))
}

/// A face, whose Z points outwards.
#[tactic(auto, using(crate::proofs::Fits::face_fits))]
pub(crate) fn face(side: Side) -> Component
    ensures value { result ≡ face_of side }
    ensures fits { IsFitting result }
{
    match side {
        Side::Front => upright(vertex(LOW, LOW, HIGH), Turn::By0, Axis::X),
        Side::Right => upright(vertex(HIGH, LOW, HIGH), Turn::By90, Axis::Z),
        Side::Back => upright(vertex(HIGH, LOW, LOW), Turn::By180, Axis::X),
        Side::Left => upright(vertex(LOW, LOW, LOW), Turn::By270, Axis::Z),
        Side::Top => lying(vertex(LOW, HIGH, HIGH), Turn::By270),
        Side::Bottom => lying(vertex(LOW, LOW, LOW), Turn::By90),
    }
}

/// The edge along an axis at these ends of the two others.
#[tactic(auto, using(crate::proofs::Fits::edge_fits))]
pub(crate) fn edge(along: Axis, first: bool, second: bool) -> Component
    ensures value { result ≡ edge_of along first second }
    ensures fits { IsFitting result }
{
    let size = Some(along);
    match along {
        Axis::X => at(vertex(LOW, first, second), Axis::X, Turn::By0, size, None),
        Axis::Y => at(vertex(first, LOW, second), Axis::Z, Turn::By90, size, None),
        Axis::Z => at(vertex(first, second, LOW), Axis::Y, Turn::By270, size, None),
    }
}
