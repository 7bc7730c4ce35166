//! The tokens of conditions.
ghost use Rattle.std.specs.Prelude.{◌≡◌, ◌∷◌, [], OnOk, map};
ghost use Rattle.cga_syntax.specs.Pieces as spec;
ghost use Rattle.cga_syntax.specs.Forms.{occ_pieces, compared};
ghost use Rattle.cga_syntax.specs.Printing.{printed_on};

use crate::keyword::Keyword;
use crate::lexeme::Lexeme;
use crate::print::expr::push_expr;
use crate::print::mark::Mark;
use crate::print::token::{
    push_between, push_in_round, push_keyword, push_of_scope, push_sign, push_text,
};
use crate::print::words::{known, state_text, target_text};
use cga_fraction::{List, NoMemory};
use cga_lexer::Sign;
use cga_rule::{Cond, Conj, Expr, Relation, Test};
use cga_word::{Answer, Target};

#[cycle(print)]
#[tactic(auto, using(crate::proofs::Printed::on_join, crate::proofs::CondLayers::cond_out))]
pub(crate) fn push_cond(marks: &mut List<Mark>, cond: &Cond) -> Result<(), NoMemory>
    ensures { OnOk result (marks.new ≡ printed_on marks.old (spec.cond_pieces cond.now)) }
{
    push_conjs(marks, cond.conjs.as_slice())
}

#[cycle(print)]
fn push_conjs(marks: &mut List<Mark>, conjs: &[Conj]) -> Result<(), NoMemory>
    ensures { OnOk result (marks.new ≡ printed_on marks.old (spec.separated (spec.keyword Keyword.Or) (map spec.conj_pieces conjs.now) [])) }
{
    let mut between = false;
    for conj in conjs {
        push_between(marks, between, Lexeme::Keyword(Keyword::Or))?;
        push_conj(marks, conj)?;
        between = true;
    }
    Ok(())
}

#[cycle(print)]
#[tactic(auto, using(crate::proofs::Printed::on_join, crate::proofs::CondLayers::conj_out))]
fn push_conj(marks: &mut List<Mark>, conj: &Conj) -> Result<(), NoMemory>
    ensures { OnOk result (marks.new ≡ printed_on marks.old (spec.conj_pieces conj.now)) }
{
    push_tests(marks, conj.tests.as_slice())
}

#[cycle(print)]
fn push_tests(marks: &mut List<Mark>, tests: &[Test]) -> Result<(), NoMemory>
    ensures { OnOk result (marks.new ≡ printed_on marks.old (spec.separated (spec.keyword Keyword.And) (map spec.test_pieces tests.now) [])) }
{
    let mut between = false;
    for test in tests {
        push_between(marks, between, Lexeme::Keyword(Keyword::And))?;
        push_test(marks, test)?;
        between = true;
    }
    Ok(())
}

#[cycle(print)]
#[tactic(auto, using(crate::proofs::Printed::on_join), unfolding(crate::specs::Pieces::test_pieces, crate::specs::Pieces::cond_pieces))]
fn push_test(marks: &mut List<Mark>, test: &Test) -> Result<(), NoMemory>
    ensures { OnOk result (marks.new ≡ printed_on marks.old (spec.test_pieces test.now)) }
{
    match test {
        Test::Group(cond) => push_squared(marks, cond),
        Test::Not(cond) => {
            push_keyword(marks, Keyword::Not)?;
            push_squared(marks, cond)
        }
        Test::Occ {
            target,
            equal,
            state,
        } => push_occ(marks, *target, *equal, *state),
        Test::Compare {
            left,
            relation,
            right,
        } => push_compared(marks, left, *relation, right),
    }
}

#[tactic(auto, using(crate::proofs::Printed::on_join))]
fn push_compared(
    marks: &mut List<Mark>,
    left: &Expr,
    relation: Relation,
    right: &Expr,
) -> Result<(), NoMemory>
    ensures { OnOk result (marks.new ≡ printed_on marks.old (compared (spec.expr_pieces left.now) relation (spec.expr_pieces right.now))) }
{
    push_expr(marks, left)?;
    push_sign(marks, relation_sign(relation))?;
    push_expr(marks, right)
}

#[cycle(print)]
#[tactic(auto, using(crate::proofs::Printed::on_join))]
fn push_squared(marks: &mut List<Mark>, cond: &Cond) -> Result<(), NoMemory>
    ensures { OnOk result (marks.new ≡ printed_on marks.old (spec.squared (spec.cond_pieces cond.now))) }
{
    push_sign(marks, Sign::LeftSquare)?;
    push_cond(marks, cond)?;
    push_sign(marks, Sign::RightSquare)
}

fn push_occ(
    marks: &mut List<Mark>,
    target: Target,
    equal: bool,
    state: Answer,
) -> Result<(), NoMemory>
    ensures { OnOk result (marks.new ≡ printed_on marks.old (occ_pieces target equal state)) }
{
    push_of_scope(marks, known(b"occ"))?;
    push_in_round(marks, target_text(target))?;
    push_sign(marks, equality_sign(equal))?;
    push_text(marks, state_text(state))
}

fn equality_sign(equal: bool) -> Sign
    ensures { result ≡ spec.equality_sign equal }
{
    if equal { Sign::Equal } else { Sign::Unequal }
}

fn relation_sign(relation: Relation) -> Sign
    ensures { result ≡ spec.relation_sign relation }
{
    match relation {
        Relation::Equal => Sign::Equal,
        Relation::Unequal => Sign::Unequal,
        Relation::Less => Sign::Less,
        Relation::AtMost => Sign::AtMost,
        Relation::Greater => Sign::Greater,
        Relation::AtLeast => Sign::AtLeast,
    }
}
