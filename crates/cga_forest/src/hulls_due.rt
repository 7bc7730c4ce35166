ghost use Rattle.std.specs.Prelude.{◌≡◌};
ghost use Rattle.cga_forest.specs.HullsDue.{due_above};

use cga_kept_hulls::Hulls;

/// What is known of a node whose hulls are brought up to date.
#[derive(Clone, Copy)]
pub enum HullsDue {
    /// Nothing.
    All,
    /// The hulls of one child alone changed, and grew to these.
    Grown(Hulls),
    /// Those of the child at this place alone changed, to these, and not by growing.
    Changed(usize, Hulls),
}

impl HullsDue {
    /// What is known of the parent of a node, whose hulls alone changed and which stands at this place.
    pub fn above(new: &Hulls, old: &Hulls, place: usize) -> HullsDue
        ensures { result ≡ due_above new.now old.now place }
    {
        if new.holds(old) {
            HullsDue::Grown(*new)
        } else {
            HullsDue::Changed(place, *new)
        }
    }
}
