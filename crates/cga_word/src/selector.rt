use crate::side::Side;

/// Which components of a scope a component split makes shapes of. An edge is given by its number,
/// from 1 to 12.
#[derive(Clone, Copy, PartialEq, Eq, Debug)]
pub enum Selector {
    Faces,
    Sidefaces,
    Face(Side),
    Edges,
    Edge(u8),
    Vertices,
}
