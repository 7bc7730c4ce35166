use crate::former_box::FormerBox;
use crate::node::NodeState;
use crate::slot_entry::SlotEntry;
use cga_marked::Change;

/// Another state and other children for a node, with a box for the former ones. Under a mark
/// the first such change keeps them.
#[derive(Drop)]
pub struct NewContent {
    pub state: NodeState,
    pub children: Vec<usize>,
    pub spare: Option<FormerBox>,
}

impl Change<SlotEntry> for NewContent {
    ghost use Rattle.std.specs.Prelude.{is_some};
    ghost use Rattle.cga_forest.specs.View.{IsRewritten};

    ghost changes = { λ marking change x y. IsRewritten marking (is_some change.spare) change.state change.children.items x y };

    fn apply(self, marking: bool, entry: &mut SlotEntry) {
        entry.rewrite(marking, self.state, self.children, self.spare);
    }
}
