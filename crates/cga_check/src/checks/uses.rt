//! The first fault of what a rule uses.
ghost use Rattle.std.specs.Prelude.{◌≡◌, flat_map};
ghost use Rattle.cga_check.specs.Faults as spec;
ghost use Rattle.cga_check.specs.Groups.{first_entry};
ghost use Rattle.cga_check.specs.Uses.{rule_uses};

use super::{is_attribute, refuse_if};
use crate::groups::first_entry;
use crate::sieve::{Sieve, sift_rule};
use crate::usage::Use;
use cga_rule::{CheckFault, Grammar, Rule};
use cga_word::Name;

/// Catches the uses of a rule that have a fault.
#[derive(Clone, Copy)]
struct Faulty<'a> {
    grammar: &'a Grammar,
    rule: &'a Rule,
}

impl Sieve for Faulty<'_> {
    ghost use Rattle.cga_check.specs.Faults.{is_faulty};

    ghost is_caught = { λ sieve at. is_faulty sieve.grammar.now sieve.rule.now at };

    fn catches(&self, at: &Use) -> bool {
        check_use(self.grammar, self.rule, *at).is_err()
    }
}

pub(super) fn check_uses(grammar: &Grammar, rule: &Rule) -> Result<(), CheckFault>
    ensures { result ≡ spec.first (flat_map (spec.use_faults grammar.now rule.now) (rule_uses rule.now)) }
{
    match sift_rule(rule, &Faulty { grammar, rule }) {
        Ok(()) => Ok(()),
        Err(at) => check_use(grammar, rule, at),
    }
}

fn check_use(grammar: &Grammar, rule: &Rule, at: Use) -> Result<(), CheckFault>
    ensures { result ≡ spec.first (spec.use_faults grammar.now rule.now at) }
{
    match at {
        Use::Answer(_) => Ok(()),
        Use::Child { symbol, args } => check_child(grammar, rule.id, symbol, args),
        Use::Parts { sizes, bodies } => refuse_if(
            sizes == 0 || sizes != bodies,
            CheckFault::PartsDiffer(rule.id),
        ),
        Use::Named(name) => refuse_if(
            !is_known(grammar, rule, name),
            CheckFault::UnknownName(rule.id, name),
        ),
    }
}

fn check_child(grammar: &Grammar, id: u32, symbol: Name, args: usize) -> Result<(), CheckFault>
    ensures { result ≡ spec.first (spec.child_faults id symbol args (first_entry grammar.now.rules symbol)) }
{
    match first_entry(grammar.rules.as_slice(), symbol) {
        None => Err(CheckFault::UnknownSymbol(id, symbol)),
        Some(entry) => refuse_if(
            entry.rule.params.len() != args,
            CheckFault::WrongArity(id, symbol),
        ),
    }
}

fn is_known(grammar: &Grammar, rule: &Rule, name: Name) -> bool
    ensures { result ≡ spec.is_known grammar.now rule.now name }
{
    rule.params.as_slice().contains(&name) || is_attribute(grammar.attributes.as_slice(), name)
}
