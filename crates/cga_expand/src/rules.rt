//! Which alternative a shape takes, and what it becomes.
ghost use Rattle.std.specs.Prelude.{◌≡◌, ◌+◌, ◌≤◌, IfOk, length};
ghost use Rattle.std.specs.Option.{option_copied};
ghost use Rattle.cga_check.specs.Groups.{by_id, rules_of};
ghost use Rattle.cga_expand.specs.Expand.{expand_of};
ghost use Rattle.cga_expand.specs.Rules.{drawn_number, expansion, millionths, picked};

use crate::by_place::RulesByPlace;
use crate::choose::{chosen_rule, names_of};
use crate::limits::{MILLIONTHS, MOST_CHILDREN, MOST_DEPTH};
use crate::progress::Progress;
use crate::walk::walk_items;
use cga_fraction::{Fraction, List, NoMemory, Steps, Stop};
use cga_rule::{Alternative, Attribute, Entry, Grammar, Item};
use cga_shape::{Answers, Emitted, Shape, ShapeFault};
use cga_word::word;
use std::alloc::Global;
use std::sync::ledger::Ledger;

fn drawn_number(shape: &Shape) -> u64
    ensures { result ≡ drawn_number shape.now }
{
    u64::from(word(shape.seed, 0)) * MILLIONTHS / (1 << 32)
}

fn millionths(prob: Fraction) -> u128
    ensures { result ≡ millionths prob }
{
    let numerator = u128::from(prob.numerator().unsigned_abs());
    let denominator = u128::from(prob.denominator().unsigned_abs());
    numerator * u128::from(MILLIONTHS) / denominator
}

fn picked_items(alternatives: &[Alternative], number: u64) -> Option<&List<Item>>
    ensures { option_copied result ≡ picked number 0 alternatives.now }
{
    let mut before: u128 = 0;
    for alternative in alternatives {
        let after = before.saturating_add(millionths(alternative.prob));
        if u128::from(number) < after {
            return Some(&alternative.items);
        }
        before = after;
    }
    None
}

#[tactic(auto, unfolding(crate::specs::Rules::expansion))]
fn expansion(
    alloc: Global,
    attributes: &[Attribute],
    entries: &[Entry],
    shape: &Shape,
    answers: &Answers,
) -> Result<Result<List<Emitted>, ShapeFault>, NoMemory>
    ensures { IfOk result (λ made. made ≡ expansion attributes.now (by_id (rules_of entries.now shape.now.symbol)) shape.now answers.now) }
{
    if shape.path.len() == MOST_DEPTH {
        return Ok(Err(ShapeFault::TooDeep));
    }
    let rule = match chosen_rule(attributes, entries, shape, answers) {
        Ok(rule) => rule,
        Err(fault) => return Ok(Err(fault)),
    };
    let Some(items) = picked_items(rule.alternatives.as_slice(), drawn_number(shape)) else {
        return Ok(Err(ShapeFault::Unmatched));
    };
    let mut state = Progress {
        scope: shape.scope,
        children: List::new(alloc),
        parts: 0,
    };
    let names = names_of(attributes, shape, rule);
    match walk_items(alloc, items.as_slice(), &names, &mut state) {
        Ok(()) => {
            let Progress { children, .. } = state;
            Ok(Ok(children))
        }
        Err(Stop::Fault(fault)) => Ok(Err(fault)),
        Err(Stop::NoMemory) => Err(NoMemory),
    }
}

/// What the counter of expansions is shown to rise. None can be made outside this module, so that it rises by calls
/// of `expand` and `expand_by_place`, and by nothing else.
#[derive(Drop)]
pub struct ExpandKey(());

/// The counter of expansions.
pub type Expansions<E> = Steps<E, ExpandKey>;

/// One expansion, by entries among which are the rules of the shape's symbol.
fn counted<E: Ledger>(
    alloc: Global,
    attributes: &[Attribute],
    entries: &[Entry],
    shape: &Shape,
    answers: &Answers,
    expansions: &mut Expansions<E>,
) -> Result<Result<List<Emitted>, ShapeFault>, NoMemory>
    ensures value { IfOk result (λ made. made ≡ expansion attributes.now (by_id (rules_of entries.now shape.now.symbol)) shape.now answers.now) }
    ensures ticked { expansions.new ≡ expansions.old + 1 }
{
    expansions.tick(&ExpandKey(()));
    expansion(alloc, attributes, entries, shape, answers)
}

/// What a shape becomes by the rules of its symbol: its children in order of emission, at most
/// `MOST_CHILDREN`, or its first fault. No rule of the grammar is copied, and those of the symbol are
/// found in time linear in the number of rules. Takes memory.
pub fn expand<E: Ledger>(
    alloc: Global,
    grammar: &Grammar,
    shape: &Shape,
    answers: &Answers,
    expansions: &mut Expansions<E>,
) -> Result<Result<List<Emitted>, ShapeFault>, NoMemory>
    ensures value { IfOk result (λ made. made ≡ expand_of grammar.now shape.now answers.now) }
    ensures few { IfOk result (λ made. IfOk made (λ children. length children ≤ MOST_CHILDREN)) }
    ensures ticked { expansions.new ≡ expansions.old + 1 }
{
    let attributes = grammar.attributes.as_slice();
    let entries = grammar.rules.as_slice();
    counted(alloc, attributes, entries, shape, answers, expansions)
}

/// What `expand` returns, by the places of the rules of the symbol: rules of other symbols cost no time.
pub fn expand_by_place<E: Ledger>(
    alloc: Global,
    rules: &RulesByPlace,
    shape: &Shape,
    answers: &Answers,
    expansions: &mut Expansions<E>,
) -> Result<Result<List<Emitted>, ShapeFault>, NoMemory>
    ensures value { IfOk result (λ made. made ≡ expand_of rules.now shape.now answers.now) }
    ensures few { IfOk result (λ made. IfOk made (λ children. length children ≤ MOST_CHILDREN)) }
    ensures ticked { expansions.new ≡ expansions.old + 1 }
{
    let attributes = rules.grammar().attributes.as_slice();
    let entries = rules.entries(shape.symbol);
    counted(alloc, attributes, entries, shape, answers, expansions)
}
