//! The tokens of arguments and parameters: none where there are none, and otherwise in brackets. Of
//! more than four, which no line spells, only the first is printed.
ghost use Rattle.std.specs.Prelude.{◌≡◌, ◌∷◌, [], OnOk, map};
ghost use Rattle.cga_syntax.specs.Pieces as spec;
ghost use Rattle.cga_syntax.specs.Forms.{name_pieces};
ghost use Rattle.cga_syntax.specs.Limits.{most_further};
ghost use Rattle.cga_syntax.specs.Printing.{printed_on};

use crate::limits::MOST_FURTHER;
use crate::print::expr::push_expr;
use crate::print::mark::Mark;
use crate::print::token::{push_named, push_sign};
use cga_fraction::{List, NoMemory};
use cga_lexer::Sign;
use cga_rule::Expr;
use cga_word::Name;

pub(crate) fn push_arguments(marks: &mut List<Mark>, args: &[Expr]) -> Result<(), NoMemory>
    ensures { OnOk result (marks.new ≡ printed_on marks.old (spec.arguments (map spec.expr_pieces args.now))) }
{
    match args {
        [] => Ok(()),
        [first, rest @ ..] => {
            push_sign(marks, Sign::LeftRound)?;
            push_expr(marks, first)?;
            push_further_arguments(marks, rest)?;
            push_sign(marks, Sign::RightRound)
        }
    }
}

#[tactic(auto, using(crate::proofs::Printed::at_most_few, crate::proofs::Printed::at_most_many))]
fn push_further_arguments(marks: &mut List<Mark>, rest: &[Expr]) -> Result<(), NoMemory>
    ensures { OnOk result (marks.new ≡ printed_on marks.old (spec.at_most most_further (spec.sign Sign.Comma) (map spec.expr_pieces rest.now))) }
{
    if rest.len() > MOST_FURTHER {
        return Ok(());
    }
    push_exprs(marks, rest)
}

fn push_exprs(marks: &mut List<Mark>, rest: &[Expr]) -> Result<(), NoMemory>
    ensures { OnOk result (marks.new ≡ printed_on marks.old (spec.after_each (spec.sign Sign.Comma) (map spec.expr_pieces rest.now))) }
{
    for expr in rest {
        push_sign(marks, Sign::Comma)?;
        push_expr(marks, expr)?;
    }
    Ok(())
}

pub(crate) fn push_params(marks: &mut List<Mark>, params: &[Name]) -> Result<(), NoMemory>
    ensures { OnOk result (marks.new ≡ printed_on marks.old (spec.arguments (map name_pieces params.now))) }
{
    match params {
        [] => Ok(()),
        [first, rest @ ..] => {
            push_sign(marks, Sign::LeftRound)?;
            push_named(marks, *first)?;
            push_further_params(marks, rest)?;
            push_sign(marks, Sign::RightRound)
        }
    }
}

#[tactic(auto, using(crate::proofs::Printed::at_most_few, crate::proofs::Printed::at_most_many))]
fn push_further_params(marks: &mut List<Mark>, rest: &[Name]) -> Result<(), NoMemory>
    ensures { OnOk result (marks.new ≡ printed_on marks.old (spec.at_most most_further (spec.sign Sign.Comma) (map name_pieces rest.now))) }
{
    if rest.len() > MOST_FURTHER {
        return Ok(());
    }
    push_names(marks, rest)
}

fn push_names(marks: &mut List<Mark>, rest: &[Name]) -> Result<(), NoMemory>
    ensures { OnOk result (marks.new ≡ printed_on marks.old (spec.after_each (spec.sign Sign.Comma) (map name_pieces rest.now))) }
{
    for name in rest {
        push_sign(marks, Sign::Comma)?;
        push_named(marks, *name)?;
    }
    Ok(())
}
