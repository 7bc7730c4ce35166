//! For which symbols the two grammars of an edit differ.
ghost use Rattle.std.specs.Prelude.{◌≡◌, true};
ghost use Rattle.std.specs.List.{list_any};
ghost use Rattle.cga_check.specs.Uses.{same_name};
ghost use Rattle.cga_depend.specs.Ends.{AreApart};
ghost use Rattle.cga_depend.specs.Changed.{AreFacts};

use crate::apart::{Apart, between};
use crate::setting::{same_setting, same_values};
use cga_check::{Latest, symbol_priority};
use cga_fraction::NoMemory;
use cga_rule::{Entry, Grammar};
use cga_word::Name;
use indexmap::IndexMap;
use std::alloc::Global;
use std::marker::Model;

/// Whether the two grammars of an edit say the same of the shapes of a symbol.
#[derive(Clone, Copy)]
pub struct Facts {
    /// Whether the group and the attributes that it mentions are the old ones.
    pub same_setting: bool,
    pub same_priority: bool,
}

/// The two grammars of an edit, with the facts of the symbols that were asked for so far.
#[derive(Drop)]
pub struct Grammars<'a> {
    before: &'a Grammar,
    after: &'a Grammar,
    /// Whether both have one list of rules, as where an attribute or a lot is edited: then no group is compared.
    same_rules: bool,
    /// What the lists of attributes don't share, so that no symbol looks at what they do.
    apart: Apart<'a>,
    known: IndexMap<Name, Facts>,
    latest: Latest<Facts>,
}

impl<'a> Model for Grammars<'a> {
    ghost use Rattle.std.specs.Prelude.{refl};
    ghost use Rattle.std.specs.Coded.{code_by, coded×};
    ghost use Rattle.cga_rule.specs.declared.grammar.Grammar.{Grammar};
    ghost use Rattle.cga_rule.specs.contracts.grammar.Grammar as of_grammar;
    ghost use Rattle.cga_depend.specs.Both.{BothGrammars};

    ghost Value = { BothGrammars };

    ghost coded = { code_by (Grammar × Grammar) (coded× of_grammar.the_row.coded of_grammar.the_row.coded) (λ g. (g.before, g.after)) (λ p. record { before = p.0; after = p.1 }) (λ _. refl) };

    ghost use Rattle.cga_depend.specs.Changed.{AreCompared};

    ghost view = { λ g. record { before = g.before.now; after = g.after.now } };

    ghost invariant = { λ g. AreCompared g.before.now g.after.now g.same_rules g.apart.old.now g.apart.new.now g.known g.latest };
}

impl<'a> Grammars<'a> {
    ghost use Rattle.std.specs.Prelude.{◌≡◌, ℕ, List, Some, slice_get, IfOk, OnOk};
    ghost use Rattle.cga_rule.specs.declared.grammar.Entry.{Entry};
    ghost use Rattle.cga_depend.specs.Both.{both};
    ghost use Rattle.cga_depend.specs.Changed.{AreFacts, IsNoted, KeepsNoted};

    /// Takes no memory; the time goes by the rules, which are compared.
    pub fn new(alloc: Global, before: &'a Grammar, after: &'a Grammar) -> Grammars<'a>
        ensures { result ≡ both before.now after.now }
    {
        Grammars {
            before,
            after,
            same_rules: before.rules == after.rules,
            apart: between(before.attributes.as_slice(), after.attributes.as_slice()),
            known: IndexMap::new(alloc),
            latest: Latest::new(),
        }
    }

    /// Takes memory where the symbol comes for the first time; the time goes then by the rules of both grammars, or where
    /// they are the same by the attributes. The latest symbols are told without a look at the table.
    pub fn of(&mut self, symbol: Name) -> Result<Facts, NoMemory>
        ensures facts { IfOk result (λ facts. AreFacts self.old.before self.old.after symbol facts) }
        ensures grammars { self.new ≡ self.old }
    {
        if let Some(facts) = self.latest.get(symbol) {
            return Ok(facts);
        }
        let facts = self.look_up(symbol)?;
        self.latest.note(symbol, facts);
        Ok(facts)
    }

    fn look_up(&mut self, symbol: Name) -> Result<Facts, NoMemory>
        ensures facts { IfOk result (λ facts. AreFacts self.old.before self.old.after symbol facts) }
        ensures grammars { self.new ≡ self.old }
    {
        if let Some(facts) = self.known.get(&symbol) {
            return Ok(*facts);
        }
        let facts = facts_of(self.before, self.after, self.same_rules, self.apart, symbol);
        self.known.insert(symbol, facts)?;
        Ok(facts)
    }

    /// The symbols whose setting changed, each once: none where the grammar is the same. Takes memory; the time goes by
    /// the square of the rules where they differ.
    pub fn changed(&mut self, alloc: Global) -> Result<Vec<Name>, NoMemory>
        ensures listed { IfOk result (λ list. (symbol : List ℕ) → IsNoted self.old.before self.old.after list.items symbol) }
        ensures grammars { self.new ≡ self.old }
    {
        let (before, after) = (self.before, self.after);
        if self.same_rules && before.attributes == after.attributes {
            return Ok(Vec::new(alloc));
        }
        let mut list = Vec::new(alloc);
        self.note_all(before.rules.as_slice(), &mut list)?;
        self.note_all(after.rules.as_slice(), &mut list)?;
        Ok(list)
    }

    /// Lists the symbols of rules whose setting changed.
    fn note_all(&mut self, entries: &[Entry], list: &mut Vec<Name>) -> Result<(), NoMemory>
        ensures noted { OnOk result ((i : ℕ) (e : Entry) → slice_get entries.now i ≡ Some e → IsNoted self.old.before self.old.after list.new.items e.rule.symbol) }
        ensures kept { OnOk result (KeepsNoted self.old.before self.old.after list.old.items list.new.items) }
        ensures grammars { self.new ≡ self.old }
    {
        for entry in entries {
            self.note(entry.rule.symbol, list)?;
        }
        Ok(())
    }

    /// Lists a symbol, where its setting changed and it isn't there.
    fn note(&mut self, symbol: Name, list: &mut Vec<Name>) -> Result<(), NoMemory>
        ensures noted { OnOk result (IsNoted self.old.before self.old.after list.new.items symbol) }
        ensures kept { OnOk result (KeepsNoted self.old.before self.old.after list.old.items list.new.items) }
        ensures grammars { self.new ≡ self.old }
    {
        let facts = self.of(symbol)?;
        if facts.same_setting {
            return Ok(());
        }
        if has_name(list.as_slice(), symbol) {
            return Ok(());
        }
        list.push(symbol)?;
        Ok(())
    }
}

fn has_name(names: &[Name], name: Name) -> bool
    ensures { result ≡ list_any (same_name name) names.now }
{
    names.iter().any(|other| name == *other)
}

fn facts_of(old: &Grammar, new: &Grammar, same_rules: bool, apart: Apart<'_>, symbol: Name) -> Facts
    requires rules { same_rules ≡ true → old.now.rules ≡ new.now.rules }
    requires apart { AreApart old.now.attributes new.now.attributes apart.old.now apart.new.now }
    ensures { AreFacts old.now new.now symbol result }
{
    if same_rules {
        return Facts {
            same_setting: same_values(old, new, apart, symbol),
            same_priority: true,
        };
    }
    let before = symbol_priority(old, symbol).unwrap_or(0);
    let after = symbol_priority(new, symbol).unwrap_or(0);
    Facts {
        same_setting: same_setting(old, new, symbol),
        same_priority: before == after,
    }
}
