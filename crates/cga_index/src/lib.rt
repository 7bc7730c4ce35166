//! What lies near a shape: occlusion answers, and who asks there, over any tree of nodes whose hulls hold what is below
//! them.
//!
//! It must not know shapes, symbols or how a tree is kept. Only nodes whose parent's hull touches the box are looked
//! at, and of the roots only those of blocks that the tree doesn't tell to be apart from it.
//!
//! What callers get wrong: a node is compared by its standing towards the asker, which a tree has to give for every
//! pair; who asks is not who is answered.
#![tactic(auto)]

mod around;
mod compare;
mod hull_tree;
mod lasting;
mod lasting_askers;
mod limits;
mod listing;
mod near;
mod node_id;
mod nodes;
mod of_two;
mod standing;
mod steps;
mod visitor;
mod visits;
mod walk;

pub use around::box_around;
pub use hull_tree::HullTree;
pub use lasting::Lasting;
pub use lasting_askers::LastingAskers;
pub use limits::{BLOCK, GROUP, LEVELS, MOST_DEPTH};
pub use listing::queriers_meeting;
pub use near::queriers_near;
pub use node_id::NodeId;
pub use nodes::{all_nodes, nodes_from};
pub use of_two::{is_full, joined};
pub use standing::Standing;
pub use steps::{child_of, root_of};
pub use visitor::Visitor;
pub use visits::visit_all;
pub use walk::answer;
