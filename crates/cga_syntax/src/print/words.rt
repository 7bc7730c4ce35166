//! The words and quoted texts that the language knows.
ghost use Rattle.std.specs.Prelude.{◌≡◌, IsTrue};
ghost use Rattle.cga_word.specs.Name.{is_name};
ghost use Rattle.cga_syntax.specs.Pieces as spec;

use crate::keyword::Keyword;
use cga_word::{Answer, Axis, Name, Primitive, Side, Target};

/// The name with these bytes, which are one.
pub(crate) fn known(bytes: &[u8]) -> Name
    requires { IsTrue (is_name bytes.now) }
    ensures { result ≡ bytes.now }
{
    Name::read(bytes).unwrap()
}

pub(crate) fn size_word(axis: Axis) -> Name
    ensures { result ≡ spec.size_word axis }
{
    match axis {
        Axis::X => known(b"sx"),
        Axis::Y => known(b"sy"),
        Axis::Z => known(b"sz"),
    }
}

pub(crate) fn axis_text(axis: Axis) -> Name
    ensures { result ≡ spec.axis_text axis }
{
    match axis {
        Axis::X => known(b"X"),
        Axis::Y => known(b"Y"),
        Axis::Z => known(b"Z"),
    }
}

pub(crate) fn turn_keyword(axis: Axis) -> Keyword
    ensures { result ≡ spec.turn_keyword axis }
{
    match axis {
        Axis::X => Keyword::Rx,
        Axis::Y => Keyword::Ry,
        Axis::Z => Keyword::Rz,
    }
}

pub(crate) fn target_text(target: Target) -> Name
    ensures { result ≡ spec.target_text target }
{
    match target {
        Target::Noparent => known(b"noparent"),
        Target::Active => known(b"active"),
    }
}

pub(crate) fn state_text(state: Answer) -> Name
    ensures { result ≡ spec.state_text state }
{
    match state {
        Answer::Nothing => known(b"none"),
        Answer::Part => known(b"part"),
        Answer::Full => known(b"full"),
    }
}

pub(crate) fn solid_text(solid: Primitive) -> Name
    ensures { result ≡ spec.solid_text solid }
{
    match solid {
        Primitive::Cube => known(b"cube"),
        Primitive::Quad => known(b"quad"),
        Primitive::Shed => known(b"shed"),
        Primitive::Gable => known(b"gable"),
        Primitive::Hip => known(b"hip"),
    }
}

pub(crate) fn side_text(side: Side) -> Name
    ensures { result ≡ spec.side_text side }
{
    match side {
        Side::Front => known(b"front"),
        Side::Right => known(b"right"),
        Side::Back => known(b"back"),
        Side::Left => known(b"left"),
        Side::Top => known(b"top"),
        Side::Bottom => known(b"bottom"),
    }
}
