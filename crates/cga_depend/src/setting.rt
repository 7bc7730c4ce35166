//! Whether what the shapes of a symbol read of a grammar is the same in two grammars.
ghost use Rattle.std.specs.Prelude.{◌≡◌, ◌↔◌, IsTrue, All};
ghost use Rattle.cga_check.specs.Groups.{group};
ghost use Rattle.cga_expr.specs.Names.{attribute_of};
ghost use Rattle.cga_depend.specs.Ends.{AreApart};
ghost use Rattle.cga_depend.specs.Agreement.{AgreeOn, IsAlike, IsSameSetting, SameValue, SameValues};

use crate::apart::{Apart, between};
use crate::group::same_group;
use cga_check::symbol_names;
use cga_fraction::Fraction;
use cga_rule::{Attribute, Grammar};
use cga_word::Name;

/// Whether the group of the symbol, with its priority, and the values of the attributes that it
/// mentions are the same in both grammars. Takes no memory.
pub fn same_setting(old: &Grammar, new: &Grammar, symbol: Name) -> bool
    ensures { IsTrue result ↔ IsSameSetting old.now new.now symbol }
{
    let apart = between(old.attributes.as_slice(), new.attributes.as_slice());
    same_group(old, new, symbol) && same_values(old, new, apart, symbol)
}

/// Whether the attributes that the new group mentions have the same values in both grammars, or none in both. An edit of
/// a value leaves the names in their order, and one walk of what both lists don't share answers.
pub(crate) fn same_values(old: &Grammar, new: &Grammar, apart: Apart<'_>, symbol: Name) -> bool
    requires { AreApart old.now.attributes new.now.attributes apart.old.now apart.new.now }
    ensures { IsTrue result ↔ SameValues (group new.now symbol) old.now new.now }
{
    same_in_order(apart.old, apart.new, new, symbol) || same_by_name(old, new, symbol)
}

// Whether both lists have the same names in the same order, and the group mentions none whose values differ.
fn same_in_order(old: &[Attribute], new: &[Attribute], grammar: &Grammar, symbol: Name) -> bool
    ensures { IsTrue result → AgreeOn (group grammar.now symbol) old.now new.now }
{
    let Some((a, old_rest)) = old.split_first() else {
        return new.is_empty();
    };
    let Some((b, new_rest)) = new.split_first() else {
        return false;
    };
    is_alike(a, b, grammar, symbol) && same_in_order(old_rest, new_rest, grammar, symbol)
}

// Whether both have one name, and one value if the group mentions it.
fn is_alike(a: &Attribute, b: &Attribute, grammar: &Grammar, symbol: Name) -> bool
    ensures { IsTrue result → IsAlike (group grammar.now symbol) a.now b.now }
{
    a.name == b.name && (a.value == b.value || !symbol_names(grammar, symbol, a.name))
}

// As `same_values`, for names in any order. Each name is looked up in both lists.
fn same_by_name(old: &Grammar, new: &Grammar, symbol: Name) -> bool
    ensures { IsTrue result ↔ SameValues (group new.now symbol) old.now new.now }
{
    same_among(old.attributes.as_slice(), old, new, symbol)
        && same_among(new.attributes.as_slice(), old, new, symbol)
}

fn same_among(among: &[Attribute], old: &Grammar, new: &Grammar, symbol: Name) -> bool
    ensures { IsTrue result ↔ All (λ a. SameValue (group new.now symbol) old.now new.now a.name) among.now }
{
    for attribute in among {
        if !same_value(old, new, symbol, attribute.name) {
            return false;
        }
    }
    true
}

// The rules are looked through only for names whose values differ.
fn same_value(old: &Grammar, new: &Grammar, symbol: Name, name: Name) -> bool
    ensures { IsTrue result ↔ SameValue (group new.now symbol) old.now new.now name }
{
    same_number(value_of(old, name), value_of(new, name)) || !symbol_names(new, symbol, name)
}

fn same_number(a: Option<Fraction>, b: Option<Fraction>) -> bool
    ensures { IsTrue result ↔ (a ≡ b) }
{
    match (a, b) {
        (None, None) => true,
        (Some(x), Some(y)) => x == y,
        _ => false,
    }
}

fn value_of(grammar: &Grammar, name: Name) -> Option<Fraction>
    ensures { result ≡ attribute_of grammar.now.attributes name }
{
    grammar
        .attributes
        .as_slice()
        .iter()
        .find(|attribute| attribute.name == name)
        .map(|attribute| attribute.value)
}
