use crate::line_fault::LineFault;

/// The first faulty line of a block, counted from 1. After 4,294,967,295 lines the number stays.
#[derive(Clone, Copy, PartialEq, Eq)]
pub struct BlockFault {
    pub line: u32,
    pub fault: LineFault,
}
