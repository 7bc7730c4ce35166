//! The tokens of items and of the bodies of alternatives and splits.
ghost use Rattle.std.specs.Prelude.{◌≡◌, ◌∷◌, [], OnOk, map};
ghost use Rattle.cga_syntax.specs.Pieces as spec;
ghost use Rattle.cga_syntax.specs.Forms as forms;
ghost use Rattle.cga_syntax.specs.Printing.{printed_on};

use crate::keyword::Keyword;
use crate::lexeme::Lexeme;
use crate::print::list::push_arguments;
use crate::print::mark::Mark;
use crate::print::parts::{
    push_comp, push_move, push_repeat, push_resize, push_rotate, push_solid, push_subdiv,
};
use crate::print::token::{push_between, push_keyword, push_named, push_sign};
use cga_fraction::{List, NoMemory};
use cga_lexer::Sign;
use cga_rule::{Body, Expr, Item};
use cga_word::Name;

#[cycle(print)]
#[tactic(auto, using(crate::proofs::Printed::on_join, crate::proofs::Printed::nonempty_cut), unfolding(crate::specs::Pieces::item_pieces, crate::specs::Pieces::body_pieces))]
fn push_item(marks: &mut List<Mark>, item: &Item) -> Result<(), NoMemory>
    ensures { OnOk result (marks.new ≡ printed_on marks.old (spec.item_pieces item.now)) }
{
    match item {
        Item::Move(x, y, z) => push_move(marks, x.get(), y.get(), z.get()),
        Item::Resize(x, y, z) => push_resize(marks, x.get(), y.get(), z.get()),
        Item::Rotate { axis, by } => push_rotate(marks, *axis, *by),
        Item::Scoped(items) => push_scoped(marks, items.as_slice()),
        Item::Solid(solid) => push_solid(marks, *solid),
        Item::Subdiv {
            axis,
            sizes,
            bodies,
        } => {
            push_subdiv(marks, *axis, sizes.as_slice())?;
            push_bodies(marks, bodies.as_slice())
        }
        Item::Repeat { axis, length, body } => {
            push_repeat(marks, *axis, length.get())?;
            push_in_curly(marks, body)
        }
        Item::Comp { selector, body } => {
            push_comp(marks, *selector)?;
            push_in_curly(marks, body)
        }
        Item::Child { symbol, args } => push_child(marks, *symbol, args.as_slice()),
    }
}

fn push_child(marks: &mut List<Mark>, symbol: Name, args: &[Expr]) -> Result<(), NoMemory>
    ensures { OnOk result (marks.new ≡ printed_on marks.old (spec.named symbol ∷ spec.arguments (map spec.expr_pieces args.now))) }
{
    push_named(marks, symbol)?;
    push_arguments(marks, args)
}

#[cycle(print)]
#[tactic(auto, using(crate::proofs::Printed::on_join, crate::proofs::Printed::nonempty_cut))]
fn push_scoped(marks: &mut List<Mark>, items: &[Item]) -> Result<(), NoMemory>
    ensures { OnOk result (marks.new ≡ printed_on marks.old (forms.scoped (map spec.item_pieces items.now))) }
{
    push_sign(marks, Sign::LeftSquare)?;
    push_items(marks, items)?;
    push_sign(marks, Sign::RightSquare)
}

#[cycle(print)]
fn push_items(marks: &mut List<Mark>, items: &[Item]) -> Result<(), NoMemory>
    ensures { OnOk result (marks.new ≡ printed_on marks.old (spec.concat (map spec.item_pieces items.now))) }
{
    for item in items {
        push_item(marks, item)?;
    }
    Ok(())
}

/// The items of a body; `NIL` where there are none.
#[cycle(print)]
#[tactic(auto, using(crate::proofs::Printed::body_some, crate::proofs::Printed::body_none))]
pub(crate) fn push_body_items(marks: &mut List<Mark>, items: &[Item]) -> Result<(), NoMemory>
    ensures { OnOk result (marks.new ≡ printed_on marks.old (spec.body_of (map spec.item_pieces items.now))) }
{
    if items.is_empty() {
        push_keyword(marks, Keyword::Nil)
    } else {
        push_items(marks, items)
    }
}

#[cycle(print)]
#[tactic(auto, using(crate::proofs::ItemLayers::body_out))]
fn push_body(marks: &mut List<Mark>, body: &Body) -> Result<(), NoMemory>
    ensures { OnOk result (marks.new ≡ printed_on marks.old (spec.body_pieces body.now)) }
{
    push_body_items(marks, body.items.as_slice())
}

#[cycle(print)]
#[tactic(auto, using(crate::proofs::Printed::on_join))]
fn push_in_curly(marks: &mut List<Mark>, body: &Body) -> Result<(), NoMemory>
    ensures { OnOk result (marks.new ≡ printed_on marks.old (spec.in_curly (spec.body_pieces body.now))) }
{
    push_sign(marks, Sign::LeftCurly)?;
    push_body(marks, body)?;
    push_sign(marks, Sign::RightCurly)
}

#[cycle(print)]
#[tactic(auto, using(crate::proofs::Printed::on_join, crate::proofs::Printed::separated_cut))]
fn push_bodies(marks: &mut List<Mark>, bodies: &[Body]) -> Result<(), NoMemory>
    ensures { OnOk result (marks.new ≡ printed_on marks.old (forms.bodies_of (map spec.body_pieces bodies.now))) }
{
    push_sign(marks, Sign::LeftCurly)?;
    push_all_bodies(marks, bodies)?;
    push_sign(marks, Sign::RightCurly)
}

#[cycle(print)]
fn push_all_bodies(marks: &mut List<Mark>, bodies: &[Body]) -> Result<(), NoMemory>
    ensures { OnOk result (marks.new ≡ printed_on marks.old (spec.separated (spec.sign Sign.Bar) (map spec.body_pieces bodies.now) [])) }
{
    let mut between = false;
    for body in bodies {
        push_between(marks, between, Lexeme::Sign(Sign::Bar))?;
        push_body(marks, body)?;
        between = true;
    }
    Ok(())
}
