//! The head of a rule: its id, its symbol, its parameters and its probabilities.
ghost use Rattle.std.specs.Prelude.{◌≡◌, []};
ghost use Rattle.cga_check.specs.Faults as spec;

use super::probability::are_probabilities;
use super::{is_attribute, refuse_if};
use cga_rule::{CheckFault, Entry, Grammar};
use cga_word::Name;

#[tactic(auto, using(crate::proofs::Firsts::firsts), unfolding(crate::specs::Faults::head_faults))]
pub(super) fn check_head(
    grammar: &Grammar,
    before: &[Entry],
    entry: &Entry,
) -> Result<(), CheckFault>
    ensures { result ≡ spec.first (spec.head_faults grammar.now before.now entry.now) }
{
    let rule = &entry.rule;
    check_symbol(before, entry)?;
    check_params(grammar, rule.id, rule.params.as_slice())?;
    refuse_if(
        !are_probabilities(rule.alternatives.as_slice()),
        CheckFault::BadProbability(rule.id),
    )
}

#[tactic(auto, using(crate::proofs::Firsts::firsts))]
fn check_symbol(before: &[Entry], entry: &Entry) -> Result<(), CheckFault>
    ensures { result ≡ spec.first (spec.symbol_faults before.now entry.now) }
{
    let id = entry.rule.id;
    let symbol = entry.rule.symbol;
    refuse_if(id_is_taken(before, id), CheckFault::DoubleId(id))?;
    refuse_if(
        splits_priority(before, entry),
        CheckFault::SplitPriority(id, symbol),
    )?;
    refuse_if(
        differs_in_arity(before, entry),
        CheckFault::WrongArity(id, symbol),
    )
}

fn id_is_taken(before: &[Entry], id: u32) -> bool
    ensures { result ≡ spec.id_is_taken before.now id }
{
    before.iter().any(|other| other.rule.id == id)
}

fn splits_priority(before: &[Entry], entry: &Entry) -> bool
    ensures { result ≡ spec.splits_priority before.now entry.now }
{
    before.iter().any(|other| {
        other.rule.symbol == entry.rule.symbol && other.priority != entry.priority
    })
}

fn differs_in_arity(before: &[Entry], entry: &Entry) -> bool
    ensures { result ≡ spec.differs_in_arity before.now entry.now }
{
    before.iter().any(|other| {
        other.rule.symbol == entry.rule.symbol && other.rule.params.len() != entry.rule.params.len()
    })
}

fn check_params(grammar: &Grammar, id: u32, params: &[Name]) -> Result<(), CheckFault>
    ensures { result ≡ spec.first (spec.each_after (spec.param_faults grammar.now id) [] params.now) }
{
    for (i, param) in params.iter().enumerate() {
        check_param(grammar, id, &params[..i], *param)?;
    }
    Ok(())
}

fn check_param(grammar: &Grammar, id: u32, before: &[Name], name: Name) -> Result<(), CheckFault>
    ensures { result ≡ spec.first (spec.param_faults grammar.now id before.now name) }
{
    refuse_if(
        before.contains(&name) || is_attribute(grammar.attributes.as_slice(), name),
        CheckFault::DoubleName(id, name),
    )
}
