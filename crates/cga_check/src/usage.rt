use cga_word::{Name, Target};

/// What a rule uses at one place.
#[derive(Clone, Copy, Debug, PartialEq, Eq)]
pub enum Use {
    /// A condition asks for the answer of a target.
    Answer(Target),
    /// A child of a symbol, with so many arguments.
    Child { symbol: Name, args: usize },
    /// A Subdiv with so many sizes and bodies.
    Parts { sizes: usize, bodies: usize },
    /// A name in an expression.
    Named(Name),
}
