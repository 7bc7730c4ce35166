//! What the first token of a form says of the rest.
use cga_fraction::Fraction;
use cga_word::{Axis, Name};

#[derive(Clone, Copy)]
pub enum PrimaryHead {
    Number(Fraction),
    Named(Name),
    Scope,
    Floor,
    Ceil,
}

#[derive(Clone, Copy)]
pub enum ScopeWord {
    Occ,
    Size(Axis),
}

#[derive(Clone, Copy)]
pub enum ItemHead {
    Move,
    Resize,
    Rotate(Axis),
    Solid,
    Subdiv,
    Repeat,
    Comp,
    Child(Name),
}

#[derive(Clone, Copy)]
pub enum SelectorHead {
    Faces,
    Sidefaces,
    Face,
    Edges,
    Edge,
    Vertices,
}
