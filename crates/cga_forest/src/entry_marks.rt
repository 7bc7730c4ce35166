//! What an entry keeps for the mark.
use crate::slot_entry::SlotEntry;
use cga_marked::{Marked, Sort};
use cga_shape::Kind;

impl Marked for SlotEntry {
    ghost use Rattle.cga_forest.specs.View.{IsPlain, aside_of, touched_of, touched_entry, hidden_entry, settled_entry, rolled_entry};
    ghost use Rattle.cga_forest.specs.Count.{entry_counts};
    ghost use Rattle.cga_forest.specs.Marks as entry;

    ghost touched = { touched_of };

    ghost aside = { aside_of };

    ghost counts = { entry_counts };

    ghost plain = { IsPlain };

    ghost touching = { touched_entry };

    ghost hiding = { hidden_entry };

    ghost settled = { settled_entry };

    ghost rolled = { rolled_entry };

    fn counts_as(&self) -> Sort {
        if self.aside {
            return Sort::Other;
        }
        match self.node.kind {
            Kind::Instance(_) => Sort::First,
            Kind::Faulted(_) => Sort::Second,
            Kind::Waiting | Kind::Done => Sort::Other,
        }
    }

    fn touch(&mut self) -> bool {
        let fresh = !self.touched;
        self.touched = true;
        fresh
    }

    fn set_aside(&mut self) -> bool {
        let fresh = !self.aside;
        self.aside = true;
        fresh
    }

    /// False where the node was set aside.
    fn settle(&mut self) -> bool {
        self.created = false;
        self.touched = false;
        self.former = None;
        self.former_hulls = None;
        !self.aside
    }

    /// False where the node came after the mark.
    fn roll_back(&mut self) -> bool {
        let created = self.created;
        self.aside = false;
        self.created = false;
        self.touched = false;
        if let Some(former) = self.former.take() {
            let former = former.into_inner();
            self.node.set_state(former.state);
            self.children = former.children;
        }
        if let Some(hulls) = self.former_hulls.take() {
            self.hulls = hulls;
        }
        !created
    }

    ghost marks = { entry.marks };
}
