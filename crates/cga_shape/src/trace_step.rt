use crate::shape_fault::ShapeFault;
use cga_order::Path;
use cga_word::{Answers, Name};

/// What an expansion came to: so many children, or a fault.
#[derive(Clone, Copy, Debug, PartialEq, Eq)]
pub enum Outcome {
    Grew(u16),
    Faulted(ShapeFault),
}

/// The expansion of one shape, with what it was answered then.
#[derive(Drop)]
pub struct TraceStep {
    pub lot: Name,
    pub path: Path,
    pub symbol: Name,
    pub answers: Answers,
    pub outcome: Outcome,
}
