//! What the rules of a symbol say of its shapes.
ghost use Rattle.std.specs.Prelude.{◌≡◌, Some};
ghost use Rattle.cga_check.specs.Said.{asks_any, said, said_among, with_rule};

use crate::mentions::asks;
use cga_rule::{Entry, Grammar};
use cga_word::{Name, Target};

/// What the rules of a symbol say of its shapes.
#[derive(Clone, Copy, Debug)]
pub struct Said {
    /// 0 where the symbol has no rule.
    pub priority: u16,
    /// Whether a condition asks for the target.
    pub noparent: bool,
    pub active: bool,
}

impl Said {
    /// Whether a condition asks for any target.
    pub fn asks(self) -> bool
        ensures { result ≡ asks_any self }
    {
        self.noparent || self.active
    }
}

const NOTHING: Said = Said {
    priority: 0,
    noparent: false,
    active: false,
};

/// One walk over the rules. Takes no memory.
pub fn said_of(grammar: &Grammar, symbol: Name) -> Said
    ensures { result ≡ said grammar.now symbol }
{
    said_among(grammar.rules.as_slice(), symbol).unwrap_or(NOTHING)
}

/// None where no entry is of the symbol.
fn said_among(entries: &[Entry], symbol: Name) -> Option<Said>
    ensures { result ≡ said_among symbol entries.now }
{
    let mut said = None;
    for entry in entries {
        if entry.rule.symbol == symbol {
            said = Some(with_rule(said, entry));
        }
    }
    said
}

/// What is said with one more rule. The first rule has the priority.
fn with_rule(said: Option<Said>, entry: &Entry) -> Said
    ensures { result ≡ with_rule said entry.now }
{
    let noparent = asks(&entry.rule, Target::Noparent);
    let active = asks(&entry.rule, Target::Active);
    match said {
        None => Said {
            priority: entry.priority,
            noparent,
            active,
        },
        Some(before) => Said {
            priority: before.priority,
            noparent: before.noparent || noparent,
            active: before.active || active,
        },
    }
}
