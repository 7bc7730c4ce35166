ghost use Rattle.std.specs.Prelude.{◌≡◌, IfOk};

use crate::rule::Rule;
use cga_fraction::{Fraction, List, NoMemory, Shared};
use cga_word::Name;
use std::alloc::Global;

/// A named number that rules may use.
#[derive(Clone, Copy, Debug, PartialEq, Eq)]
pub struct Attribute {
    pub name: Name,
    pub value: Fraction,
}

/// A rule with the priority that its symbol has by it. Smaller is taken first.
#[derive(Drop, PartialEq, Eq)]
pub struct Entry {
    pub priority: u16,
    pub rule: Rule,
}

/// Attributes and rules, in the order of their lines. Nothing says that they are valid. Equal grammars may share
/// their rules.
#[derive(Drop, PartialEq, Eq)]
pub struct Grammar {
    pub attributes: List<Attribute>,
    pub rules: Shared<Entry>,
}

/// The rules of one symbol by rising id, with its priority.
#[derive(Drop, PartialEq, Eq)]
pub struct Group {
    pub symbol: Name,
    pub priority: u16,
    pub rules: List<Rule>,
}

impl Grammar {
    /// An equal grammar, which shares the rules. Takes memory for the attributes alone.
    pub fn copy(&self, alloc: Global) -> Result<Grammar, NoMemory>
        ensures { IfOk result (λ copy. copy ≡ self.now) }
    {
        let rules = self.rules.share()?;
        let attributes = List::from_vec(Vec::from_slice(alloc, self.attributes.as_slice())?);
        Ok(Grammar { attributes, rules })
    }

    /// Each of the rules, which share their parts with those of the grammar. Takes memory for the list of them alone.
    pub fn copy_rules(&self, alloc: Global) -> Result<Vec<Entry>, NoMemory>
        ensures { IfOk result (λ copy. copy.items ≡ self.now.rules) }
    {
        let mut copy = Vec::with_capacity(alloc, self.rules.len())?;
        for entry in self.rules.as_slice() {
            let rule = entry.rule.copy()?;
            copy.push(Entry {
                priority: entry.priority,
                rule,
            })?;
        }
        Ok(copy)
    }
}
