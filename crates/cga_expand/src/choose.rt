//! The rule that a shape takes.
ghost use Rattle.std.specs.Prelude.{◌≡◌, MatchResult};
ghost use Rattle.cga_expr.specs.Names.{seen};
ghost use Rattle.cga_expand.specs.Choices.{comes_first, found_of, tried};
ghost use Rattle.cga_check.specs.Groups.{by_id, rules_of};
ghost use Rattle.cga_expand.specs.Rules.{chosen, known_to, optional_holds};

use crate::choice::Choice;
use crate::faults::or_expr;
use cga_expr::{Names, holds};
use cga_fraction::SharedBox;
use cga_rule::{Attribute, Cond, Entry, Rule};
use cga_shape::{Answers, Shape, ShapeFault};

pub(crate) fn names_of<'a>(
    attributes: &'a [Attribute],
    shape: &'a Shape,
    rule: &'a Rule,
) -> Names<'a>
    ensures { seen result ≡ known_to attributes.now shape.now rule.now }
{
    Names {
        params: rule.params.as_slice(),
        args: shape.args.as_slice(),
        attributes,
        size: shape.scope.size(),
        seed: shape.seed,
    }
}

fn optional_holds(
    cond: &Option<SharedBox<Cond>>,
    names: &Names,
    answers: &Answers,
) -> Result<bool, ShapeFault>
    ensures { result ≡ optional_holds cond.now (seen names.now) answers.now }
{
    match cond {
        None => Ok(true),
        Some(cond) => or_expr(holds(cond.get(), names, answers)),
    }
}

fn comes_first(id: u32, found: Option<u32>) -> bool
    ensures { result ≡ comes_first id found }
{
    match found {
        None => true,
        Some(other) => id < other,
    }
}

fn tried<'a>(
    attributes: &[Attribute],
    shape: &Shape,
    answers: &Answers,
    choice: Choice<'a>,
    rule: &'a Rule,
) -> Choice<'a>
    ensures { found_of result ≡ tried attributes.now shape.now answers.now (found_of choice.entry) rule.now }
{
    if !comes_first(rule.id, choice.id) {
        return choice;
    }
    let id = Some(rule.id);
    match optional_holds(&rule.cond, &names_of(attributes, shape, rule), answers) {
        Ok(true) => Choice { id, rule: Ok(rule) },
        Ok(false) => choice,
        Err(fault) => Choice {
            id,
            rule: Err(fault),
        },
    }
}

/// The first rule of the shape's symbol by rising id whose condition holds. The entries stand in any order, and some may
/// be of other symbols; the condition of a rule that comes behind the choice so far isn't looked at.
pub(crate) fn chosen_rule<'a>(
    attributes: &[Attribute],
    entries: &'a [Entry],
    shape: &Shape,
    answers: &Answers,
) -> Result<&'a Rule, ShapeFault>
    ensures { MatchResult result
        (λ rule. chosen attributes.now shape.now answers.now (by_id (rules_of entries.now shape.now.symbol)) ≡ Ok rule.now)
        (λ fault. chosen attributes.now shape.now answers.now (by_id (rules_of entries.now shape.now.symbol)) ≡ Err fault) }
{
    let mut choice = Choice {
        id: None,
        rule: Err(ShapeFault::Unmatched),
    };
    for entry in entries {
        if entry.rule.symbol == shape.symbol {
            choice = tried(attributes, shape, answers, choice, &entry.rule);
        }
    }
    choice.rule
}
