ghost use Rattle.std.specs.Prelude.{◌≡◌, Some};
ghost use Rattle.cga_kept_hulls.specs.Hull.{hulls_alone, joined, with_hulls, opt_within, holds_hulls, alike, grown_from};

use cga_frame::WorldBox;

/// The least box that holds the boxes of a node and of all below it, and of those of them that ask.
#[derive(Clone, Copy, Debug)]
pub struct Hulls {
    pub all: WorldBox,
    pub asking: Option<WorldBox>,
}

impl Hulls {
    /// Those of one box, which asks or not.
    pub fn alone(bounds: WorldBox, asks: bool) -> Hulls
        ensures { result ≡ hulls_alone bounds asks }
    {
        Hulls {
            all: bounds,
            asking: if asks { Some(bounds) } else { None },
        }
    }

    pub fn with(&self, other: &Option<Hulls>) -> Hulls
        ensures { result ≡ with_hulls self.now other.now }
    {
        match other {
            None => *self,
            Some(other) => Hulls {
                all: self.all.hull(&other.all),
                asking: joined(&self.asking, &other.asking),
            },
        }
    }

    /// Takes others in.
    pub fn take_in(&mut self, other: &Hulls)
        ensures { self.new ≡ with_hulls self.old (Some other.now) }
    {
        self.all.take_in(&other.all);
        if let Some(asking) = &other.asking {
            widen(&mut self.asking, asking);
        }
    }

    /// Takes one box in, which asks or not.
    pub fn take_in_box(&mut self, bounds: &WorldBox, asks: bool)
        ensures { self.new ≡ with_hulls self.old (Some (hulls_alone bounds.now asks)) }
    {
        self.all.take_in(bounds);
        if asks {
            widen(&mut self.asking, bounds);
        }
    }

    pub fn holds(&self, other: &Hulls) -> bool
        ensures { result ≡ holds_hulls self.now other.now }
    {
        self.all.holds(&other.all) && within(&self.asking, &other.asking)
    }

    /// Whether they hold one box, which asks or not.
    pub fn hold_box(&self, bounds: &WorldBox, asks: bool) -> bool
        ensures { result ≡ holds_hulls self.now (hulls_alone bounds.now asks) }
    {
        self.all.holds(bounds)
            && (!asks
                || match &self.asking {
                    Some(hull) => hull.holds(bounds),
                    None => false,
                })
    }

    /// Whether each holds the other.
    pub fn is_like(&self, other: &Hulls) -> bool
        ensures { result ≡ alike self.now other.now }
    {
        self.holds(other) && other.holds(self)
    }

    /// These, where they only grew.
    pub fn grown_from(&self, old: &Hulls) -> Option<Hulls>
        ensures { result ≡ grown_from self.now old.now }
    {
        if self.holds(old) { Some(*self) } else { None }
    }
}

fn within(outer: &Option<WorldBox>, inner: &Option<WorldBox>) -> bool
    ensures { result ≡ opt_within outer.now inner.now }
{
    match inner {
        None => true,
        Some(b) => match outer {
            None => false,
            Some(a) => a.holds(b),
        },
    }
}

fn joined(first: &Option<WorldBox>, second: &Option<WorldBox>) -> Option<WorldBox>
    ensures { result ≡ joined first.now second.now }
{
    match first {
        None => *second,
        Some(a) => match second {
            None => Some(*a),
            Some(b) => Some(a.hull(b)),
        },
    }
}

fn widen(hull: &mut Option<WorldBox>, by: &WorldBox)
    ensures { hull.new ≡ joined hull.old (Some by.now) }
{
    match hull {
        None => *hull = Some(*by),
        Some(hull) => hull.take_in(by),
    }
}
