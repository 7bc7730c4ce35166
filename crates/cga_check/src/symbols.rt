//! What the rules of symbols say, read once for each symbol.
ghost use Rattle.std.specs.Prelude.{◌≡◌, IfOk};
ghost use Rattle.cga_check.specs.Said.{said};

use crate::latest::Latest;
use crate::said::{Said, said_of};
use cga_fraction::NoMemory;
use cga_rule::Grammar;
use cga_word::Name;
use indexmap::IndexMap;
use std::alloc::Global;
use std::marker::Model;

/// A grammar, with what its rules say of the symbols that were asked for so far.
#[derive(Drop)]
pub struct Symbols<'a> {
    grammar: &'a Grammar,
    read: IndexMap<Name, Said>,
    latest: Latest<Said>,
}

impl<'a> Model for Symbols<'a> {
    ghost use Rattle.cga_rule.specs.declared.grammar.Grammar.{Grammar};
    ghost use Rattle.cga_rule.specs.contracts.grammar.Grammar as of_grammar;

    ghost Value = { Grammar };

    ghost coded = { of_grammar.the_row.coded };

    ghost use Rattle.cga_check.specs.Symbols.{AreRead};

    ghost view = { λ s. s.grammar.now };

    ghost invariant = { λ s. AreRead s.grammar.now s.read s.latest };
}

impl<'a> Symbols<'a> {
    /// Takes no memory.
    pub fn new(alloc: Global, grammar: &'a Grammar) -> Symbols<'a>
        ensures { result ≡ grammar.now }
    {
        Symbols {
            grammar,
            read: IndexMap::new(alloc),
            latest: Latest::new(),
        }
    }

    /// What the rules of a symbol say. Takes memory where the symbol comes for the first time; the time goes then by the
    /// rules. The latest symbols are told without a look at the table.
    pub fn of(&mut self, symbol: Name) -> Result<Said, NoMemory>
        ensures value { IfOk result (λ found. found ≡ said self.old symbol) }
        ensures grammar { self.new ≡ self.old }
    {
        if let Some(found) = self.latest.get(symbol) {
            return Ok(found);
        }
        let found = self.read(symbol)?;
        self.latest.note(symbol, found);
        Ok(found)
    }

    fn read(&mut self, symbol: Name) -> Result<Said, NoMemory>
        ensures value { IfOk result (λ found. found ≡ said self.old symbol) }
        ensures grammar { self.new ≡ self.old }
    {
        if let Some(found) = self.read.get(&symbol) {
            return Ok(*found);
        }
        let found = said_of(self.grammar, symbol);
        self.read.insert(symbol, found)?;
        Ok(found)
    }
}
