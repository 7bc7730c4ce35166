//! Values of expressions, and whether conditions hold, for one shape: exact, or the first operation in reading order
//! that is refused.
//!
//! It must not know symbols, how scopes change or what a fault does to a shape. Takes no memory.
//!
//! What callers get wrong: whose sizes are read. An item reads the current scope, a condition the shape's own; the
//! caller says which.
#![tactic(auto)]

mod arithmetic;
mod cond;
mod expr;
mod expr_fault;
mod names;

pub use cond::holds;
pub use expr::value;
pub use expr_fault::ExprFault;
pub use names::Names;
