use cga_frame::Scope;
use cga_word::{Name, Primitive};

/// A solid to be drawn into its scope: what a print shows of an instance.
#[derive(Clone, Copy, Debug)]
pub struct Drawn {
    pub lot: Name,
    /// That of the shape that emitted the instance.
    pub symbol: Name,
    pub primitive: Primitive,
    pub scope: Scope,
}
