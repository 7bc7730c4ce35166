//! The rules of symbols, each found by its place.
ghost use Rattle.std.specs.Prelude.{◌≡◌, ◌≤◌, IfOk, length, slice_range};
ghost use Rattle.cga_check.specs.Groups.{rules_of};
ghost use Rattle.cga_expand.specs.Places.{AreAround};

use crate::places::{Places, places_of};
use cga_check::Latest;
use cga_fraction::NoMemory;
use cga_rule::{Entry, Grammar};
use cga_word::Name;
use indexmap::IndexMap;
use std::alloc::Global;
use std::marker::Model;

/// A grammar, with the places of the rules of the symbols that were looked for so far.
#[derive(Drop)]
pub struct RulesByPlace<'a> {
    grammar: &'a Grammar,
    read: IndexMap<Name, Places>,
    latest: Latest<Places>,
}

impl<'a> Model for RulesByPlace<'a> {
    ghost use Rattle.cga_rule.specs.declared.grammar.Grammar.{Grammar};
    ghost use Rattle.cga_rule.specs.contracts.grammar.Grammar as of_grammar;

    ghost Value = { Grammar };

    ghost coded = { of_grammar.the_row.coded };

    ghost use Rattle.cga_expand.specs.Places.{AreRead};

    ghost view = { λ s. s.grammar.now };

    ghost invariant = { λ s. AreRead s.grammar.now.rules s.read s.latest };
}

impl<'a> RulesByPlace<'a> {
    /// Takes no memory.
    pub fn new(alloc: Global, grammar: &'a Grammar) -> RulesByPlace<'a>
        ensures { result ≡ grammar.now }
    {
        RulesByPlace {
            grammar,
            read: IndexMap::new(alloc),
            latest: Latest::new(),
        }
    }

    pub(crate) fn grammar(&self) -> &'a Grammar
        ensures { result.now ≡ self.now }
    {
        self.grammar
    }

    /// Finds the rules of a symbol. Takes memory where the symbol comes for the first time; the time goes then by the rules
    /// of the grammar.
    pub fn find(&mut self, symbol: Name) -> Result<(), NoMemory>
        ensures { self.new ≡ self.old }
    {
        if self.latest.get(symbol).is_some() {
            return Ok(());
        }
        let found = self.read(symbol)?;
        self.latest.note(symbol, found);
        Ok(())
    }

    fn read(&mut self, symbol: Name) -> Result<Places, NoMemory>
        ensures places { IfOk result (λ found. AreAround self.old.rules symbol found) }
        ensures grammar { self.new ≡ self.old }
    {
        if let Some(found) = self.read.get(&symbol) {
            return Ok(*found);
        }
        let found = places_of(self.grammar.rules.as_slice(), symbol);
        self.read.insert(symbol, found)?;
        Ok(found)
    }

    /// Entries among which are all rules of a symbol, in their order: of one of the latest that were found those from
    /// its first rule to its last one, of another symbol all.
    pub(crate) fn entries(&self, symbol: Name) -> &'a [Entry]
        ensures { rules_of result.now symbol ≡ rules_of self.now.rules symbol }
    {
        let entries = self.grammar.rules.as_slice();
        match self.latest.get(symbol) {
            Some(places) => between(entries, places),
            None => entries,
        }
    }
}

fn between(entries: &[Entry], places: Places) -> &[Entry]
    requires { (places.from ≤ places.past) × (places.past ≤ length entries.now) }
    ensures { result.now ≡ slice_range entries.now places.from places.past }
{
    &entries[places.from..places.past]
}
