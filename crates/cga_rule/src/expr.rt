use cga_fraction::{Boxed, Fraction, List};
use cga_word::{Axis, Name};

/// A sum. Its terms are added from the left.
#[cycle(expr)]
#[derive(Drop, PartialEq, Eq)]
pub struct Expr {
    pub first: Term,
    pub rest: List<Added>,
}

/// A further term of a sum, with the sign before it.
#[cycle(expr)]
#[derive(Drop, PartialEq, Eq)]
pub struct Added {
    pub minus: bool,
    pub term: Term,
}

/// A product. Its factors are multiplied, or divided by, from the left.
#[cycle(expr)]
#[derive(Drop, PartialEq, Eq)]
pub struct Term {
    pub first: Factor,
    pub rest: List<Scaled>,
}

/// A further factor of a product, with `/` or `*` before it.
#[cycle(expr)]
#[derive(Drop, PartialEq, Eq)]
pub struct Scaled {
    pub divide: bool,
    pub factor: Factor,
}

/// A value, negated where `minus` is set.
#[cycle(expr)]
#[derive(Drop, PartialEq, Eq)]
pub struct Factor {
    pub minus: bool,
    pub primary: Primary,
}

/// What a factor is made of. `Named` is a parameter or an attribute, `ScopeSize` the current size
/// of the scope along an axis. The number of a `Rand` is its place among the rands of its rule,
/// from 1 and by the word `rand`.
#[cycle(expr)]
#[derive(Drop, PartialEq, Eq)]
pub enum Primary {
    Number(Fraction),
    Named(Name),
    ScopeSize(Axis),
    Group(Boxed<Expr>),
    Floor(Boxed<Expr>),
    Ceil(Boxed<Expr>),
    Rand {
        number: u16,
        low: Boxed<Expr>,
        high: Boxed<Expr>,
        steps: u32,
    },
}
