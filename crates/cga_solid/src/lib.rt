//! Solids drawn into scopes: their vertices and faces, exact, or the reason why there are none.
//!
//! It must not know shapes, rules or texts.
//!
//! What callers get wrong: faces name vertices from 1 on, and a quad is one face and no closed solid.
#![tactic(auto)]

mod corners;
mod faces;
mod form;
mod solid;
mod solid_fault;
mod solid_mesh;

pub use solid::{check_solid, mesh};
pub use solid_fault::SolidFault;
pub use solid_mesh::SolidMesh;
