use crate::node::NodeState;

/// The state and the children of a node as they stood at the mark.
#[derive(Drop)]
pub struct Former {
    pub state: NodeState,
    pub children: Vec<usize>,
}
