use crate::expr::Expr;
use cga_fraction::{Boxed, Fraction, List};
use cga_word::{Axis, Name, Primitive, Selector, Turn};

/// What a split makes of one of its parts. It is `NIL` where it has no items.
#[cycle(item)]
#[derive(Drop, PartialEq, Eq)]
pub struct Body {
    pub items: List<Item>,
}

/// A step of a successor. `Move`, `Resize` and `Rotate` are T, S and Rx, Ry, Rz of the paper, and
/// `Solid` is its I. The items of a `Scoped` leave the scope as it was.
#[cycle(item)]
#[derive(Drop, PartialEq, Eq)]
pub enum Item {
    Move(Boxed<Expr>, Boxed<Expr>, Boxed<Expr>),
    Resize(Boxed<Size>, Boxed<Size>, Boxed<Size>),
    Rotate {
        axis: Axis,
        by: Turn,
    },
    Scoped(List<Item>),
    Solid(Primitive),
    Subdiv {
        axis: Axis,
        sizes: List<Size>,
        bodies: List<Body>,
    },
    Repeat {
        axis: Axis,
        length: Boxed<Expr>,
        body: Body,
    },
    Comp {
        selector: Selector,
        body: Body,
    },
    Child {
        symbol: Name,
        args: List<Expr>,
    },
}

/// A size of a part or of a scope: a factor, as `1r`, or a value.
#[derive(Drop, PartialEq, Eq)]
pub enum Size {
    Relative(Fraction),
    Absolute(Expr),
}
