use crate::node_change::NodeChange;
use cga_fraction::List;

/// What a change of a node's children takes away and brings: each node that went, and each that came, once. An old child
/// that stays is in neither list, nor is what stands below it.
#[derive(Drop)]
pub struct Change {
    pub removed: List<NodeChange>,
    pub created: List<NodeChange>,
}
