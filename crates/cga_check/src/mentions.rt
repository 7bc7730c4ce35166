//! What the rules of a group mention.
ghost use Rattle.std.specs.Prelude.{◌≡◌};
ghost use Rattle.std.specs.Prelude.{◌&&◌};
ghost use Rattle.std.specs.List.{list_any};
ghost use Rattle.cga_check.specs.Groups as spec;

use crate::sieve::{Sieve, sift_rule};
use crate::usage::Use;
use cga_rule::{Entry, Grammar, Group, Rule};
use cga_word::{Name, Target};

/// Whether an expression of the group names the attribute. A parameter of that name hides it in its
/// rule. No memory is taken.
#[tactic(auto, unfolding(crate::specs::Groups::mentions_attribute))]
pub fn mentions_attribute(group: &Group, name: Name) -> bool
    ensures { result ≡ spec.mentions_attribute group.now name }
{
    group.rules.as_slice().iter().any(|rule| names(rule, name))
}

/// Whether a condition of the group asks for the answer of the target. No memory is taken.
#[tactic(auto, unfolding(crate::specs::Groups::mentions_target))]
pub fn mentions_target(group: &Group, target: Target) -> bool
    ensures { result ≡ spec.mentions_target group.now target }
{
    group.rules.as_slice().iter().any(|rule| asks(rule, target))
}

/// Whether a condition of a rule of the symbol asks for the answer of the target. No rule is copied and no memory is
/// taken; the time goes by the rules.
pub fn symbol_asks(grammar: &Grammar, symbol: Name, target: Target) -> bool
    ensures { result ≡ spec.group_asks (spec.group grammar.now symbol) target }
{
    entries_ask(grammar.rules.as_slice(), symbol, target)
}

fn entries_ask(entries: &[Entry], symbol: Name, target: Target) -> bool
    ensures { result ≡ list_any (λ e. spec.is_of symbol e && spec.asks target e.rule) entries.now }
{
    entries.iter().any(|entry| entry.rule.symbol == symbol && asks(&entry.rule, target))
}

/// Whether an expression of a rule of the symbol names the attribute, and no parameter of its rule hides it. No rule is
/// copied and no memory is taken; the time goes by the rules.
pub fn symbol_names(grammar: &Grammar, symbol: Name, name: Name) -> bool
    ensures { result ≡ spec.group_names (spec.group grammar.now symbol) name }
{
    entries_name(grammar.rules.as_slice(), symbol, name)
}

fn entries_name(entries: &[Entry], symbol: Name, name: Name) -> bool
    ensures { result ≡ list_any (λ e. spec.is_of symbol e && spec.names name e.rule) entries.now }
{
    entries.iter().any(|entry| entry.rule.symbol == symbol && names(&entry.rule, name))
}

#[tactic(auto, using(crate::proofs::Sifted::sifted_any))]
fn names(rule: &Rule, name: Name) -> bool
    ensures { result ≡ spec.names name rule.now }
{
    !rule.params.as_slice().contains(&name) && sift_rule(rule, &Naming { name }).is_err()
}

#[tactic(auto, using(crate::proofs::Sifted::sifted_any))]
pub(crate) fn asks(rule: &Rule, target: Target) -> bool
    ensures { result ≡ spec.asks target rule.now }
{
    sift_rule(rule, &Asking { target }).is_err()
}

/// Catches uses of a name.
#[derive(Clone, Copy)]
struct Naming {
    name: Name,
}

impl Sieve for Naming {
    ghost use Rattle.cga_check.specs.Groups.{is_name};

    ghost is_caught = { λ sieve at. is_name sieve.name at };

    fn catches(&self, at: &Use) -> bool {
        match at {
            Use::Named(name) => *name == self.name,
            Use::Answer(_) | Use::Child { .. } | Use::Parts { .. } => false,
        }
    }
}

/// Catches questions for a target.
#[derive(Clone, Copy)]
struct Asking {
    target: Target,
}

impl Sieve for Asking {
    ghost use Rattle.cga_check.specs.Groups.{asks_for};

    ghost is_caught = { λ sieve at. asks_for sieve.target at };

    fn catches(&self, at: &Use) -> bool {
        match at {
            Use::Answer(target) => *target == self.target,
            Use::Named(_) | Use::Child { .. } | Use::Parts { .. } => false,
        }
    }
}
