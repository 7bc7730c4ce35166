//! The texts that show a city: the OBJ text of what is drawn in lots, the list of faults, and the text of what an edit
//! changed: how many instances went and came, and each of them on a line, by its lot, symbol, primitive and exact scope.
//!
//! It must not know how shapes or changes come about, or what writes a text.
//!
//! What callers get wrong: two things. What is drawn must stand lot by lot, in the order of the lots; vertex numbers run
//! over the whole text, so texts of single lots can't be joined. And where nothing changed there is no text of changes at
//! all, and no line that says so.
#![tactic(auto)]

mod boxes;
mod corner;
mod delta;
mod delta_words;
mod ends;
mod faults;
pub mod laws;
mod mesh;
mod meshes;
mod names;
mod obj;
mod piece;
mod span;

pub use delta::delta_text;
pub use faults::{fault_code, fault_text, push_path};
pub use meshes::{Meshes, Solids};
pub use names::are_named;
pub use obj::{obj_text, push_instances, text_by};
