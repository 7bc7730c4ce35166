use crate::shape_fault::ShapeFault;
use cga_order::Path;
use cga_word::Name;

/// A shape that has no children, and why.
#[derive(Drop)]
pub struct FaultLine {
    pub lot: Name,
    pub path: Path,
    pub symbol: Name,
    pub fault: ShapeFault,
}
