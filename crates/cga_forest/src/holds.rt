//! What holds of each forest.
ghost use Rattle.cga_forest.specs.Tree.{IsForest};

use crate::Forest;

impl Forest {
    /// What holds of each forest. Does nothing: its contract is the law, which a caller's proof can cite.
    pub fn laws(&self)
        ensures { IsForest self.now }
    {
        let _marking = self.marking; // for the proof
    }
}
