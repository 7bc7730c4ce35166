use crate::lot::Lot;
use crate::sources::Sources;
use cga_fraction::Fraction;
use cga_rule::{Grammar, Rule};
use cga_word::{Mode, Name};

/// One change of a city's sources.
#[derive(Drop)]
pub enum Edit {
    /// Another grammar.
    Rules(Grammar),
    /// A rule with the priority of its symbol, in place of the one of its id.
    Put(u16, Rule),
    /// No rule of this id.
    Drop(u32),
    SetAttribute(Name, Fraction),
    /// Of a symbol.
    SetPriority(Name, u16),
    /// A lot, in the place of the one of its name, or behind all others.
    SetLot(Lot),
    Unlot(Name),
    SetOrder(Mode),
    /// Other sources.
    Whole(Sources),
}
