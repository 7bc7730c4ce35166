//! What a city is made of, as plain types: the sources (a grammar, lots and a mode), the shapes that come of them, what
//! each shape gave, the edits of the sources, and what is reported.
//!
//! It must not know rules, how shapes come about or how they are printed.
//!
//! What callers get wrong: two things. The symbol of an instance, and of what is drawn for it, is that of the shape
//! that emitted it; and a path of no indices is a lot's root.
#![tactic(auto)]

mod changes;
mod counts;
mod drawn;
mod edit;
mod edit_refused;
mod emitted;
mod fault_line;
mod laws;
mod lot;
mod lots;
mod placed;
mod shape;
mod shape_fault;
mod sources;
mod trace_step;

pub use cga_order::Path;
pub use cga_word::Answers;
pub use changes::Changes;
pub use counts::Counts;
pub use drawn::Drawn;
pub use edit::Edit;
pub use edit_refused::EditRefused;
pub use emitted::Emitted;
pub use fault_line::FaultLine;
pub use laws::equal_exactly;
pub use lot::Lot;
pub use lots::Lots;
pub use placed::{Kind, Placed};
pub use shape::{Shape, root_shape};
pub use shape_fault::ShapeFault;
pub use sources::Sources;
pub use trace_step::{Outcome, TraceStep};
