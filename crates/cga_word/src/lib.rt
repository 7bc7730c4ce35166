//! Names, the small enumerations that rules, shapes and the engine share, and the random words of shapes.
//!
//! It must not know grammars: a reserved word is a name here. It stands on no other crate of the repository. A word
//! that the rule language reserves, as `T`, is a name like any other here, and refusing it is the parser's matter.
//! Nothing takes memory.
#![tactic(auto)]

mod answer;
mod answers;
mod axis;
mod mode;
mod name;
mod primitive;
mod seed;
mod selector;
mod side;
mod target;
mod turn;

pub use answer::Answer;
pub use answers::Answers;
pub use axis::Axis;
pub use mode::Mode;
pub use name::Name;
pub use primitive::Primitive;
pub use seed::{child_seed, word};
pub use selector::Selector;
pub use side::Side;
pub use target::Target;
pub use turn::Turn;
