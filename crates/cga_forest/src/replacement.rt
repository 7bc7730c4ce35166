use crate::former_box::FormerBox;
use crate::node::{Node, NodeState};

/// What a node gets: another state and other children, with the memory that is taken ahead for it.
#[derive(Drop)]
pub struct Replacement {
    pub state: NodeState,
    /// What the children are to be, in their order.
    pub news: Vec<Node>,
    /// Room for their numbers.
    pub made: Vec<usize>,
    /// A box for what the node was, where that is to be kept.
    pub spare: Option<FormerBox>,
}
