//! The tokens of expressions.
ghost use Rattle.std.specs.Prelude.{◌≡◌, OnOk, map, [], ◌∷◌};
ghost use Rattle.cga_syntax.specs.Pieces as spec;
ghost use Rattle.cga_syntax.specs.Forms.{scope_size};
ghost use Rattle.cga_syntax.specs.Limits.{most_steps};
ghost use Rattle.cga_syntax.specs.Printing.{printed_on};

use crate::keyword::Keyword;
use crate::lexeme::Lexeme;
use crate::limits::MOST_STEPS;
use crate::print::mark::Mark;
use crate::print::space::Space;
use crate::print::token::{
    push_close, push_keyword, push_lexeme, push_named, push_of_scope, push_opened, push_sign,
    push_whole,
};
use crate::print::words::size_word;
use cga_fraction::{List, NoMemory};
use cga_lexer::Sign;
use cga_rule::{Added, Expr, Factor, Primary, Scaled, Term};
use cga_word::Axis;

#[cycle(print)]
#[tactic(auto, using(crate::proofs::Printed::on_join, crate::proofs::Layers::expr_out))]
pub(crate) fn push_expr(marks: &mut List<Mark>, expr: &Expr) -> Result<(), NoMemory>
    ensures { OnOk result (marks.new ≡ printed_on marks.old (spec.expr_pieces expr.now)) }
{
    push_term(marks, &expr.first)?;
    push_all_added(marks, expr.rest.as_slice())
}

#[cycle(print)]
fn push_all_added(marks: &mut List<Mark>, rest: &[Added]) -> Result<(), NoMemory>
    ensures { OnOk result (marks.new ≡ printed_on marks.old (spec.concat (map spec.added_pieces rest.now))) }
{
    for more in rest {
        push_added(marks, more)?;
    }
    Ok(())
}

#[cycle(print)]
#[tactic(auto, using(crate::proofs::Printed::on_join, crate::proofs::Layers::added_out))]
fn push_added(marks: &mut List<Mark>, more: &Added) -> Result<(), NoMemory>
    ensures { OnOk result (marks.new ≡ printed_on marks.old (spec.added_pieces more.now)) }
{
    push_sign(marks, if more.minus { Sign::Minus } else { Sign::Plus })?;
    push_term(marks, &more.term)
}

#[cycle(print)]
#[tactic(auto, using(crate::proofs::Printed::on_join, crate::proofs::Layers::term_out))]
fn push_term(marks: &mut List<Mark>, term: &Term) -> Result<(), NoMemory>
    ensures { OnOk result (marks.new ≡ printed_on marks.old (spec.term_pieces term.now)) }
{
    push_factor(marks, &term.first)?;
    push_all_scaled(marks, term.rest.as_slice())
}

#[cycle(print)]
fn push_all_scaled(marks: &mut List<Mark>, rest: &[Scaled]) -> Result<(), NoMemory>
    ensures { OnOk result (marks.new ≡ printed_on marks.old (spec.concat (map spec.scaled_pieces rest.now))) }
{
    for more in rest {
        push_scaled(marks, more)?;
    }
    Ok(())
}

#[cycle(print)]
#[tactic(auto, using(crate::proofs::Printed::on_join), unfolding(crate::specs::Pieces::scaled_pieces, crate::specs::Pieces::factor_pieces))]
fn push_scaled(marks: &mut List<Mark>, more: &Scaled) -> Result<(), NoMemory>
    ensures { OnOk result (marks.new ≡ printed_on marks.old (spec.scaled_pieces more.now)) }
{
    push_sign(marks, if more.divide { Sign::Slash } else { Sign::Star })?;
    push_factor(marks, &more.factor)
}

#[cycle(print)]
#[tactic(auto, using(crate::proofs::Printed::on_join), unfolding(crate::specs::Pieces::factor_pieces, crate::specs::Pieces::primary_pieces))]
fn push_factor(marks: &mut List<Mark>, factor: &Factor) -> Result<(), NoMemory>
    ensures { OnOk result (marks.new ≡ printed_on marks.old (spec.factor_pieces factor.now)) }
{
    if factor.minus {
        push_close(marks, Space::NoneAfter, Sign::Minus)?;
    }
    push_primary(marks, &factor.primary)
}

#[cycle(print)]
#[tactic(auto, using(crate::proofs::Printed::on_join))]
fn push_group(marks: &mut List<Mark>, expr: &Expr) -> Result<(), NoMemory>
    ensures { OnOk result (marks.new ≡ printed_on marks.old (spec.grouped (spec.expr_pieces expr.now))) }
{
    push_sign(marks, Sign::LeftRound)?;
    push_expr(marks, expr)?;
    push_sign(marks, Sign::RightRound)
}

#[cycle(print)]
#[tactic(auto, using(crate::proofs::Printed::on_join), unfolding(crate::specs::Pieces::primary_pieces, crate::specs::Pieces::expr_pieces))]
fn push_primary(marks: &mut List<Mark>, primary: &Primary) -> Result<(), NoMemory>
    ensures { OnOk result (marks.new ≡ printed_on marks.old (spec.primary_pieces primary.now)) }
{
    match primary {
        Primary::Number(value) => push_lexeme(marks, Lexeme::Number(*value)),
        Primary::Named(name) => push_named(marks, *name),
        Primary::ScopeSize(axis) => push_scope_size(marks, *axis),
        Primary::Group(inner) => push_group(marks, inner.get()),
        Primary::Floor(inner) => {
            push_keyword(marks, Keyword::Floor)?;
            push_group(marks, inner.get())
        }
        Primary::Ceil(inner) => {
            push_keyword(marks, Keyword::Ceil)?;
            push_group(marks, inner.get())
        }
        Primary::Rand {
            number: _,
            low,
            high,
            steps,
        } => {
            push_opened(marks, Keyword::Rand)?;
            push_bound(marks, low.get())?;
            push_bound(marks, high.get())?;
            push_steps(marks, *steps)
        }
    }
}

/// A bound of a rand with the comma after it.
#[cycle(print)]
#[tactic(auto, using(crate::proofs::Printed::on_join))]
fn push_bound(marks: &mut List<Mark>, bound: &Expr) -> Result<(), NoMemory>
    ensures { OnOk result (marks.new ≡ printed_on (printed_on marks.old (spec.expr_pieces bound.now)) (spec.sign Sign.Comma ∷ [])) }
{
    push_expr(marks, bound)?;
    push_sign(marks, Sign::Comma)
}

fn push_steps(marks: &mut List<Mark>, steps: u32) -> Result<(), NoMemory>
    ensures { OnOk result (marks.new ≡ printed_on marks.old (spec.whole 1 most_steps steps ∷ spec.sign Sign.RightRound ∷ [])) }
{
    push_whole(marks, 1, MOST_STEPS, steps)?;
    push_sign(marks, Sign::RightRound)
}

fn push_scope_size(marks: &mut List<Mark>, axis: Axis) -> Result<(), NoMemory>
    ensures { OnOk result (marks.new ≡ printed_on marks.old (scope_size axis)) }
{
    push_of_scope(marks, size_word(axis))
}
