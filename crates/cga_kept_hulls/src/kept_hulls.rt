ghost use Rattle.std.specs.Prelude.{◌≡◌, Some};
ghost use Rattle.cga_frame.specs.Box.{box_of, touches};
ghost use Rattle.cga_kept_hulls.specs.Blocks.{opt_touches};
ghost use Rattle.cga_kept_hulls.specs.Hull.{holds_hulls, hulls_from, with_hulls};

use crate::hulls::Hulls;
use crate::hulls_box::HullsBox;
use cga_frame::{Scope, WorldBox};

/// What is kept of a node's hulls. Most nodes have those of their own box alone, which needn't be kept. Each call is given
/// the node's scope.
#[derive(Drop)]
pub enum KeptHulls {
    /// Those of the node alone, and whether it asks.
    Own(bool),
    Other(HullsBox),
}

impl KeptHulls {
    pub fn of(&self, scope: &Scope) -> Hulls
        ensures { result ≡ hulls_from (box_of scope.now) self.now }
    {
        match self {
            KeptHulls::Own(asks) => Hulls::alone(scope.world_box(), *asks),
            KeptHulls::Other(kept) => *kept.get(),
        }
    }

    /// Takes them into others.
    pub fn join(&self, scope: &Scope, hulls: &mut Hulls)
        ensures { hulls.new ≡ with_hulls hulls.old (Some (hulls_from (box_of scope.now) self.now)) }
    {
        match self {
            KeptHulls::Own(asks) => hulls.take_in_box(&scope.world_box(), *asks),
            KeptHulls::Other(kept) => hulls.take_in(kept.get()),
        }
    }

    /// Whether others hold them.
    pub fn lie_in(&self, scope: &Scope, outer: &Hulls) -> bool
        ensures { result ≡ holds_hulls outer.now (hulls_from (box_of scope.now) self.now) }
    {
        match self {
            KeptHulls::Own(asks) => outer.hold_box(&scope.world_box(), *asks),
            KeptHulls::Other(kept) => outer.holds(kept.get()),
        }
    }

    /// Their box round all.
    pub fn hull(&self, scope: &Scope) -> WorldBox
        ensures { result ≡ (hulls_from (box_of scope.now) self.now).all }
    {
        match self {
            KeptHulls::Own(_) => scope.world_box(),
            KeptHulls::Other(kept) => kept.get().all,
        }
    }

    /// Their box round those that ask.
    pub fn asking_hull(&self, scope: &Scope) -> Option<WorldBox>
        ensures { result ≡ (hulls_from (box_of scope.now) self.now).asking }
    {
        match self {
            KeptHulls::Own(asks) => { if *asks { Some(scope.world_box()) } else { None } }
            KeptHulls::Other(kept) => kept.get().asking,
        }
    }

    /// Whether their box round all touches an area. No box is copied.
    pub fn touches(&self, scope: &Scope, area: &WorldBox) -> bool
        ensures { result ≡ touches (hulls_from (box_of scope.now) self.now).all area.now }
    {
        match self {
            KeptHulls::Own(_) => scope.touches(area),
            KeptHulls::Other(kept) => kept.get().all.touches(area),
        }
    }

    /// Whether their box round those that ask does, where there is one.
    pub fn asks_near(&self, scope: &Scope, area: &WorldBox) -> bool
        ensures { result ≡ opt_touches (hulls_from (box_of scope.now) self.now).asking area.now }
    {
        match self {
            KeptHulls::Own(asks) => *asks && scope.touches(area),
            KeptHulls::Other(kept) => match &kept.get().asking {
                Some(hull) => hull.touches(area),
                None => false,
            },
        }
    }
}
