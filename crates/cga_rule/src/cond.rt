use crate::expr::Expr;
use cga_fraction::List;
use cga_word::{Answer, Target};

/// A condition: it holds where one of its conjunctions does.
#[cycle(cond)]
#[derive(Drop, PartialEq, Eq)]
pub struct Cond {
    pub conjs: List<Conj>,
}

/// A conjunction: it holds where all of its tests do.
#[cycle(cond)]
#[derive(Drop, PartialEq, Eq)]
pub struct Conj {
    pub tests: List<Test>,
}

/// `equal` is true for `==` and false for `!=`.
#[cycle(cond)]
#[derive(Drop, PartialEq, Eq)]
pub enum Test {
    Group(Cond),
    Not(Cond),
    Occ {
        target: Target,
        equal: bool,
        state: Answer,
    },
    Compare {
        left: Expr,
        relation: Relation,
        right: Expr,
    },
}

#[derive(Clone, Copy, Debug, PartialEq, Eq)]
pub enum Relation {
    Equal,
    Unequal,
    Less,
    AtMost,
    Greater,
    AtLeast,
}
