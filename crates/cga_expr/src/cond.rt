ghost use Rattle.std.specs.Prelude.{◌≡◌};
ghost use Rattle.cga_fraction.specs.Order.{rat_cmp};
ghost use Rattle.cga_expr.specs.Names.{seen};
ghost use Rattle.cga_expr.specs.Value.{expr_value};
ghost use Rattle.cga_expr.specs.Holds.{answer_to, compared, cond_holds, conj_holds, is_answered, relates, test_holds};

use crate::expr::value;
use crate::expr_fault::ExprFault;
use crate::names::Names;
use cga_fraction::Fraction;
use cga_rule::{Cond, Conj, Expr, Relation, Test};
use cga_word::{Answer, Answers, Target};
use std::cmp::Ordering;

/// Whether a condition holds. `and` stops at the first test that doesn't hold, `or` at the first
/// conjunction that does, and what is not reached can't be refused. A target without an answer is
/// in no state.
#[cycle(holds)]
#[tactic(auto, using(crate::proofs::Layers::layers))]
pub fn holds(cond: &Cond, names: &Names, answers: &Answers) -> Result<bool, ExprFault>
    ensures { result ≡ cond_holds cond.now (seen names.now) answers.now }
{
    for conj in cond.conjs.as_slice() {
        if conj_holds(conj, names, answers)? {
            return Ok(true);
        }
    }
    Ok(false)
}

#[cycle(holds)]
#[tactic(auto, using(crate::proofs::Layers::layers))]
fn conj_holds(conj: &Conj, names: &Names, answers: &Answers) -> Result<bool, ExprFault>
    ensures { result ≡ conj_holds conj.now (seen names.now) answers.now }
{
    for test in conj.tests.as_slice() {
        if !test_holds(test, names, answers)? {
            return Ok(false);
        }
    }
    Ok(true)
}

#[cycle(holds)]
#[tactic(auto, using(crate::proofs::Layers::layers))]
fn test_holds(test: &Test, names: &Names, answers: &Answers) -> Result<bool, ExprFault>
    ensures { result ≡ test_holds test.now (seen names.now) answers.now }
{
    match test {
        Test::Group(cond) => holds(cond, names, answers),
        Test::Not(cond) => Ok(!holds(cond, names, answers)?),
        Test::Occ {
            target,
            equal,
            state,
        } => Ok(is_answered(answers, *target, *state) == *equal),
        Test::Compare {
            left,
            relation,
            right,
        } => compare(left, *relation, right, names),
    }
}

fn compare(left: &Expr, relation: Relation, right: &Expr, names: &Names) -> Result<bool, ExprFault>
    ensures { result ≡ compared (expr_value left.now) relation (expr_value right.now) (seen names.now) }
{
    let left = value(left, names)?;
    let right = value(right, names)?;
    Ok(relates(relation, left.compare(right)))
}

fn relates(relation: Relation, order: Ordering) -> bool
    ensures { result ≡ relates relation order }
{
    match relation {
        Relation::Equal => order.is_eq(),
        Relation::Unequal => order.is_ne(),
        Relation::Less => order.is_lt(),
        Relation::AtMost => order.is_le(),
        Relation::Greater => order.is_gt(),
        Relation::AtLeast => order.is_ge(),
    }
}

fn is_answered(answers: &Answers, target: Target, state: Answer) -> bool
    ensures { result ≡ is_answered answers.now target state }
{
    match target {
        Target::Noparent => answers.noparent == Some(state),
        Target::Active => answers.active == Some(state),
    }
}
