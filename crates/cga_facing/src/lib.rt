//! Which way the faces of a solid look: outwards, each in one plane, with the whole solid behind it.
//!
//! It must not know shapes, rules or texts. The crate holds definitions and a law alone, over the corners and the faces
//! that cga_solid defines.
//!
//! What callers get wrong: that each edge has its reverse says nothing of sides. A closed solid may be turned inside
//! out as a whole, and a face may be bent.
#![tactic(auto)]

mod laws;

pub use laws::solids_face_out;
