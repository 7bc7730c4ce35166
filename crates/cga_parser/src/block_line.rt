use cga_syntax::{Attribute, Rule};

/// What a line of a block says.
#[derive(Drop)]
pub enum BlockLine {
    Attribute(Attribute),
    /// The priority of the rules that follow.
    Priority(u16),
    Rule(Rule),
    /// The line `end`, which ends the block.
    End,
}
