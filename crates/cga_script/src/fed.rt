/// How many bytes of a piece were taken, and whether a line is ready.
#[derive(Clone, Copy, PartialEq, Eq)]
pub struct Fed {
    pub taken: usize,
    pub ready: bool,
}
