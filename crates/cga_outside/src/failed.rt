/// A read, a write or a flush failed. The count of faults of the object that failed rose.
#[derive(Clone, Copy, Debug, PartialEq, Eq)]
pub struct Failed;
