//! The words of an instance.
ghost use Rattle.std.specs.Prelude.{◌≡◌};
ghost use Rattle.cga_obj.specs.DeltaWords as spec;

use cga_frame::Direction;
use cga_word::Primitive;

#[tactic(auto, unfolding(crate::specs::DeltaWords::primitive_word))]
pub(crate) fn primitive_word(primitive: Primitive) -> &'static [u8]
    ensures { result.now ≡ spec.primitive_word primitive }
{
    match primitive {
        Primitive::Cube => b"cube",
        Primitive::Quad => b"quad",
        Primitive::Shed => b"shed",
        Primitive::Gable => b"gable",
        Primitive::Hip => b"hip",
    }
}

#[tactic(auto, unfolding(crate::specs::DeltaWords::direction_word))]
pub(crate) fn direction_word(direction: Direction) -> &'static [u8]
    ensures { result.now ≡ spec.direction_word direction }
{
    match direction {
        Direction::PlusX => b"+X",
        Direction::MinusX => b"-X",
        Direction::PlusY => b"+Y",
        Direction::MinusY => b"-Y",
        Direction::PlusZ => b"+Z",
        Direction::MinusZ => b"-Z",
    }
}
