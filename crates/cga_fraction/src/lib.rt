//! Exact fractions, and the small types that every crate above shares. Lists and boxes, with one owner or with several,
//! are such types, which contracts see as what they hold, and so are texts that grow and counters of expansions and of
//! box tests. The answers for want of memory and for an early stop stand here, too.
//!
//! It must not know shapes or scopes.
//!
//! What callers get wrong: a result that leaves the range is refused, and never rounded.
#![tactic(auto)]

mod box_tests;
mod boxed;
mod fraction;
mod gcd;
mod list;
mod memory;
mod overflow;
mod shared;
mod shared_box;
mod steps;
mod stop;
mod text;

pub use box_tests::Tests;
pub use boxed::Boxed;
pub use fraction::{DecimalFault, Fraction};
pub use list::List;
pub use memory::NoMemory;
pub use overflow::{DivFault, Overflow};
pub use shared::Shared;
pub use shared_box::SharedBox;
pub use steps::Steps;
pub use stop::{Stop, settled};
pub use text::Text;
