use crate::slot_entry::SlotEntry;
use cga_kept_hulls::{Hulls, HullsBox};
use cga_marked::Change;

/// Other hulls for a node, with a box for them. Under a mark the first such change keeps the former ones.
#[derive(Drop)]
pub struct NewHulls {
    pub hulls: Hulls,
    pub spare: HullsBox,
}

impl Change<SlotEntry> for NewHulls {
    ghost use Rattle.cga_forest.specs.View.{IsRehulled};

    ghost changes = { λ marking change x y. IsRehulled marking change.hulls x y };

    fn apply(self, marking: bool, entry: &mut SlotEntry) {
        entry.set_hulls(marking, self.hulls, self.spare);
    }
}
