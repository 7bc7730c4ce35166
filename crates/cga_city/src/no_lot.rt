/// No lot has the name.
#[derive(Clone, Copy, Debug, PartialEq, Eq)]
pub struct NoLot;
