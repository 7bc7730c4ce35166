//! The first fault of a grammar.
ghost use Rattle.std.specs.Prelude.{◌≡◌, [], flat_map};
ghost use Rattle.cga_check.specs.Faults as spec;

mod head;
mod probability;
mod uses;

use cga_rule::{Attribute, CheckFault, Entry, Grammar};
use cga_word::Name;
use head::check_head;
use uses::check_uses;

/// The most rules that a grammar may have.
pub const MOST_RULES: usize = 512;

/// The most attributes that a grammar may have.
pub const MOST_ATTRIBUTES: usize = 128;

/// The first fault, with the rules and attributes as they stand in their lists. No memory is taken.
/// The time goes by the square of the number of rules.
#[tactic(auto, using(crate::proofs::Firsts::firsts), unfolding(crate::specs::Faults::check_fault))]
pub fn check(grammar: &Grammar) -> Result<(), CheckFault>
    ensures { result ≡ spec.check_fault grammar.now }
{
    refuse_if(grammar.rules.len() > MOST_RULES, CheckFault::TooManyRules)?;
    refuse_if(
        grammar.attributes.len() > MOST_ATTRIBUTES,
        CheckFault::TooManyAttributes,
    )?;
    check_attributes(grammar.attributes.as_slice())?;
    check_rules(grammar)
}

fn refuse_if(bad: bool, fault: CheckFault) -> Result<(), CheckFault>
    ensures { result ≡ spec.first (spec.fault_if bad fault) }
{
    if bad { Err(fault) } else { Ok(()) }
}

fn check_attributes(attributes: &[Attribute]) -> Result<(), CheckFault>
    ensures { result ≡ spec.first (spec.each_after spec.attribute_faults [] attributes.now) }
{
    for (i, attribute) in attributes.iter().enumerate() {
        check_attribute(&attributes[..i], attribute)?;
    }
    Ok(())
}

fn check_attribute(before: &[Attribute], attribute: &Attribute) -> Result<(), CheckFault>
    ensures { result ≡ spec.first (spec.attribute_faults before.now attribute.now) }
{
    let name = attribute.name;
    refuse_if(
        is_attribute(before, name),
        CheckFault::DoubleAttribute(name),
    )
}

fn is_attribute(attributes: &[Attribute], name: Name) -> bool
    ensures { result ≡ spec.is_attribute attributes.now name }
{
    attributes.iter().any(|attribute| attribute.name == name)
}

fn check_rules(grammar: &Grammar) -> Result<(), CheckFault>
    ensures { result ≡ spec.first (spec.each_after (spec.rule_faults grammar.now) [] grammar.now.rules) }
{
    let entries = grammar.rules.as_slice();
    for (i, entry) in entries.iter().enumerate() {
        check_rule(grammar, &entries[..i], entry)?;
    }
    Ok(())
}

#[tactic(auto, using(crate::proofs::Firsts::firsts), unfolding(crate::specs::Faults::rule_faults))]
fn check_rule(grammar: &Grammar, before: &[Entry], entry: &Entry) -> Result<(), CheckFault>
    ensures { result ≡ spec.first (spec.rule_faults grammar.now before.now entry.now) }
{
    check_head(grammar, before, entry)?;
    check_uses(grammar, &entry.rule)
}
