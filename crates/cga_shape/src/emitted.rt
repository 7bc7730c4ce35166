use cga_fraction::{Fraction, List};
use cga_frame::Scope;
use cga_word::{Name, Primitive};

/// What an expansion gives, in order: shapes that wait, and solids that are drawn. Its place in the
/// list is its index, and so the last of its path.
#[derive(Drop)]
pub enum Emitted {
    Child {
        symbol: Name,
        args: List<Fraction>,
        scope: Scope,
        seed: u64,
    },
    Solid {
        primitive: Primitive,
        scope: Scope,
        seed: u64,
    },
}
