//! What texts in quotes stand for.
ghost use Rattle.std.specs.Prelude.{◌≡◌};
ghost use Rattle.cga_form.specs.Reader.{decoded};
ghost use Rattle.cga_form.specs.Words as spec;

use crate::chosen::{Kind, chosen};
use crate::heads::SelectorHead;
use cga_syntax::Lexeme;
use cga_word::{Answer, Axis, Primitive, Side, Target};

pub fn target(next: Option<Lexeme>) -> Option<Target>
    ensures { result ≡ decoded spec.a_target next }
{
    chosen(
        next,
        Kind::Text,
        &[(b"noparent", Target::Noparent), (b"active", Target::Active)],
    )
}

pub fn state(next: Option<Lexeme>) -> Option<Answer>
    ensures { result ≡ decoded spec.a_state next }
{
    chosen(
        next,
        Kind::Text,
        &[
            (b"none", Answer::Nothing),
            (b"part", Answer::Part),
            (b"full", Answer::Full),
        ],
    )
}

pub fn axis(next: Option<Lexeme>) -> Option<Axis>
    ensures { result ≡ decoded spec.an_axis next }
{
    chosen(
        next,
        Kind::Text,
        &[(b"X", Axis::X), (b"Y", Axis::Y), (b"Z", Axis::Z)],
    )
}

pub fn solid(next: Option<Lexeme>) -> Option<Primitive>
    ensures { result ≡ decoded spec.a_solid next }
{
    chosen(
        next,
        Kind::Text,
        &[
            (b"cube", Primitive::Cube),
            (b"quad", Primitive::Quad),
            (b"shed", Primitive::Shed),
            (b"gable", Primitive::Gable),
            (b"hip", Primitive::Hip),
        ],
    )
}

pub fn side(next: Option<Lexeme>) -> Option<Side>
    ensures { result ≡ decoded spec.a_side next }
{
    chosen(
        next,
        Kind::Text,
        &[
            (b"front", Side::Front),
            (b"right", Side::Right),
            (b"back", Side::Back),
            (b"left", Side::Left),
            (b"top", Side::Top),
            (b"bottom", Side::Bottom),
        ],
    )
}

pub fn selector(next: Option<Lexeme>) -> Option<SelectorHead>
    ensures { result ≡ decoded spec.a_selector next }
{
    chosen(
        next,
        Kind::Text,
        &[
            (b"faces", SelectorHead::Faces),
            (b"sidefaces", SelectorHead::Sidefaces),
            (b"face", SelectorHead::Face),
            (b"edges", SelectorHead::Edges),
            (b"edge", SelectorHead::Edge),
            (b"vertices", SelectorHead::Vertices),
        ],
    )
}
