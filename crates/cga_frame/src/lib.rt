//! Scopes and boxes: positions, frames of signed axes, oriented boxes and what of them meets in the world.
//!
//! It must not know symbols, rules or trees. It takes no memory.
//!
//! What callers get wrong: boxes that only touch don't meet, but two that are flat in one plane may.
#![tactic(auto)]

mod component;
mod direction;
mod frame;
mod point;
mod scope;
mod scope_fault;
mod signed;
mod world_box;

pub use component::Component;
pub use direction::Direction;
pub use frame::Frame;
pub use point::Point;
pub use scope::Scope;
pub use scope_fault::ScopeFault;
pub use world_box::WorldBox;
