//! The tokens of items without their bodies.
ghost use Rattle.std.specs.Prelude.{◌≡◌, ◌∷◌, [], OnOk, map};
ghost use Rattle.cga_syntax.specs.Pieces as spec;
ghost use Rattle.cga_syntax.specs.Forms as forms;
ghost use Rattle.cga_syntax.specs.Printing.{printed_on};

use crate::keyword::Keyword;
use crate::lexeme::Lexeme;
use crate::limits::LAST_EDGE;
use crate::print::expr::push_expr;
use crate::print::mark::Mark;
use crate::print::token::{
    push_in_round, push_keyword, push_lexeme, push_opened, push_sign, push_text, push_turn,
    push_whole,
};
use crate::print::words::{axis_text, known, side_text, solid_text, turn_keyword};
use cga_fraction::{List, NoMemory};
use cga_lexer::Sign;
use cga_rule::{Expr, Size};
use cga_word::{Axis, Primitive, Selector, Turn};

#[tactic(auto, using(crate::proofs::Printed::on_join))]
pub(crate) fn push_move(
    marks: &mut List<Mark>,
    x: &Expr,
    y: &Expr,
    z: &Expr,
) -> Result<(), NoMemory>
    ensures { OnOk result (marks.new ≡ printed_on marks.old (spec.keyword Keyword.T ∷ spec.three (spec.expr_pieces x.now) (spec.expr_pieces y.now) (spec.expr_pieces z.now))) }
{
    push_opened(marks, Keyword::T)?;
    push_value(marks, x, Sign::Comma)?;
    push_value(marks, y, Sign::Comma)?;
    push_value(marks, z, Sign::RightRound)
}

/// A value with the sign after it.
#[tactic(auto, using(crate::proofs::Printed::on_join))]
fn push_value(marks: &mut List<Mark>, value: &Expr, after: Sign) -> Result<(), NoMemory>
    ensures { OnOk result (marks.new ≡ printed_on (printed_on marks.old (spec.expr_pieces value.now)) (spec.sign after ∷ [])) }
{
    push_expr(marks, value)?;
    push_sign(marks, after)
}

#[tactic(auto, using(crate::proofs::Printed::on_join))]
pub(crate) fn push_resize(
    marks: &mut List<Mark>,
    x: &Size,
    y: &Size,
    z: &Size,
) -> Result<(), NoMemory>
    ensures { OnOk result (marks.new ≡ printed_on marks.old (spec.keyword Keyword.S ∷ spec.three (spec.size_pieces x.now) (spec.size_pieces y.now) (spec.size_pieces z.now))) }
{
    push_opened(marks, Keyword::S)?;
    push_extent(marks, x, Sign::Comma)?;
    push_extent(marks, y, Sign::Comma)?;
    push_extent(marks, z, Sign::RightRound)
}

/// A size with the sign after it.
#[tactic(auto, using(crate::proofs::Printed::on_join))]
fn push_extent(marks: &mut List<Mark>, size: &Size, after: Sign) -> Result<(), NoMemory>
    ensures { OnOk result (marks.new ≡ printed_on (printed_on marks.old (spec.size_pieces size.now)) (spec.sign after ∷ [])) }
{
    push_size(marks, size)?;
    push_sign(marks, after)
}

#[tactic(auto, unfolding(crate::specs::Pieces::size_pieces))]
fn push_size(marks: &mut List<Mark>, size: &Size) -> Result<(), NoMemory>
    ensures { OnOk result (marks.new ≡ printed_on marks.old (spec.size_pieces size.now)) }
{
    match size {
        Size::Relative(factor) => push_lexeme(marks, Lexeme::Relative(*factor)),
        Size::Absolute(value) => push_expr(marks, value),
    }
}

pub(crate) fn push_rotate(marks: &mut List<Mark>, axis: Axis, by: Turn) -> Result<(), NoMemory>
    ensures { OnOk result (marks.new ≡ printed_on marks.old (forms.rotated axis by)) }
{
    push_opened(marks, turn_keyword(axis))?;
    push_turn(marks, by)?;
    push_sign(marks, Sign::RightRound)
}

pub(crate) fn push_solid(marks: &mut List<Mark>, solid: Primitive) -> Result<(), NoMemory>
    ensures { OnOk result (marks.new ≡ printed_on marks.old (forms.solid_of solid)) }
{
    push_keyword(marks, Keyword::I)?;
    push_in_round(marks, solid_text(solid))
}

/// A Subdiv up to its bodies.
#[tactic(auto, using(crate::proofs::Printed::preceded_cut))]
pub(crate) fn push_subdiv(
    marks: &mut List<Mark>,
    axis: Axis,
    sizes: &[Size],
) -> Result<(), NoMemory>
    ensures { OnOk result (marks.new ≡ printed_on marks.old (forms.subdivided axis (map spec.size_pieces sizes.now))) }
{
    push_opened(marks, Keyword::Subdiv)?;
    push_text(marks, axis_text(axis))?;
    push_sizes(marks, sizes)?;
    push_sign(marks, Sign::RightRound)
}

/// Sizes, each after a comma.
fn push_sizes(marks: &mut List<Mark>, sizes: &[Size]) -> Result<(), NoMemory>
    ensures { OnOk result (marks.new ≡ printed_on marks.old (spec.after_each (spec.sign Sign.Comma) (map spec.size_pieces sizes.now))) }
{
    for size in sizes {
        push_sign(marks, Sign::Comma)?;
        push_size(marks, size)?;
    }
    Ok(())
}

/// A Repeat up to its body.
#[tactic(auto, using(crate::proofs::Printed::on_join))]
pub(crate) fn push_repeat(marks: &mut List<Mark>, axis: Axis, length: &Expr) -> Result<(), NoMemory>
    ensures { OnOk result (marks.new ≡ printed_on marks.old (forms.repeated axis (spec.expr_pieces length.now))) }
{
    push_opened(marks, Keyword::Repeat)?;
    push_text(marks, axis_text(axis))?;
    push_sign(marks, Sign::Comma)?;
    push_value(marks, length, Sign::RightRound)
}

/// A Comp up to its body.
#[tactic(auto, using(crate::proofs::Printed::on_join))]
pub(crate) fn push_comp(marks: &mut List<Mark>, selector: Selector) -> Result<(), NoMemory>
    ensures { OnOk result (marks.new ≡ printed_on marks.old (forms.selected selector)) }
{
    push_opened(marks, Keyword::Comp)?;
    push_selector(marks, selector)?;
    push_sign(marks, Sign::RightRound)
}

fn push_selector(marks: &mut List<Mark>, selector: Selector) -> Result<(), NoMemory>
    ensures { OnOk result (marks.new ≡ printed_on marks.old (spec.selector_pieces selector)) }
{
    match selector {
        Selector::Faces => push_text(marks, known(b"faces")),
        Selector::Sidefaces => push_text(marks, known(b"sidefaces")),
        Selector::Face(side) => {
            push_text(marks, known(b"face"))?;
            push_sign(marks, Sign::Comma)?;
            push_text(marks, side_text(side))
        }
        Selector::Edges => push_text(marks, known(b"edges")),
        Selector::Edge(n) => {
            push_text(marks, known(b"edge"))?;
            push_sign(marks, Sign::Comma)?;
            push_whole(marks, 1, LAST_EDGE, u32::from(n))
        }
        Selector::Vertices => push_text(marks, known(b"vertices")),
    }
}
