ghost use Rattle.std.specs.Prelude.{◌≡◌, true};
ghost use Rattle.cga_fraction.specs.Order.{rat_max, rat_min};
ghost use Rattle.cga_frame.specs.Box.{along_holds, along_meets, along_touches, holds, is_box, meets, touches};

use crate::point::Point;
use cga_fraction::Fraction;
use std::marker::Model;

/// An axis-aligned box of the world, flat ones included: on each axis the closed interval from low to high.
#[derive(Clone, Copy, Debug, PartialEq, Eq)]
pub struct WorldBox {
    pub low: Point,
    pub high: Point,
}

impl Model for WorldBox {
    ghost use Rattle.std.specs.Prelude.{◌≡◌, true};
    ghost use Rattle.cga_frame.specs.Box.{Box, is_box};

    ghost Value = { Box };

    ghost view = { λ b. record { low = b.low; high = b.high } };

    ghost invariant = { λ b. is_box (record { low = b.low; high = b.high }) ≡ true };

    ghost inverse = { λ b. record { low = b.low; high = b.high } };
}

impl WorldBox {
    ghost use Rattle.std.specs.Prelude.{◌≡◌, ◌↔◌, IsTrue};
    ghost use Rattle.cga_frame.specs.Box.{holds, hull, meets, touches};
    ghost use Rattle.cga_frame.specs.Meeting.{Holds, IsHull, Meets, Touches};

    /// Whether the relative interiors share a point on each axis. Boxes that only touch don't meet; two that
    /// are flat in one plane may.
    pub fn meets(&self, other: &WorldBox) -> bool
        ensures value { result ≡ meets self.now other.now }
        ensures points { IsTrue result ↔ Meets self.now other.now }
    {
        bounds_meet(self, other)
    }

    /// Whether each point of the other lies in this one.
    pub fn holds(&self, other: &WorldBox) -> bool
        ensures value { result ≡ holds self.now other.now }
        ensures points { IsTrue result ↔ Holds self.now other.now }
    {
        bounds_hold(self, other)
    }

    /// Whether the closed boxes share a point.
    pub fn touches(&self, other: &WorldBox) -> bool
        ensures value { result ≡ touches self.now other.now }
        ensures points { IsTrue result ↔ Touches self.now other.now }
    {
        bounds_touch(self, other)
    }

    /// The least box that holds both.
    #[tactic(auto, unfolding(crate::specs::Box::hull))]
    pub fn hull(&self, other: &WorldBox) -> WorldBox
        ensures value { result ≡ hull self.now other.now }
        ensures least { IsHull self.now other.now result }
    {
        WorldBox {
            low: self.low.min(other.low),
            high: self.high.max(other.high),
        }
    }

    /// Grows to the least box that holds both. Where it holds the other one, nothing is written.
    #[tactic(auto, unfolding(crate::specs::Box::hull))]
    pub fn take_in(&mut self, other: &WorldBox)
        ensures { self.new ≡ hull self.old other.now }
    {
        lower(&mut self.low.x, other.low.x);
        lower(&mut self.low.y, other.low.y);
        lower(&mut self.low.z, other.low.z);
        raise(&mut self.high.x, other.high.x);
        raise(&mut self.high.y, other.high.y);
        raise(&mut self.high.z, other.high.z);
    }
}

#[tactic(auto, unfolding(cga_fraction::specs::Order::rat_min))]
fn lower(bound: &mut Fraction, by: Fraction)
    ensures { bound.new ≡ rat_min bound.old by }
{
    if !bound.is_at_most(by) {
        *bound = by;
    }
}

#[tactic(auto, unfolding(cga_fraction::specs::Order::rat_max))]
fn raise(bound: &mut Fraction, by: Fraction)
    ensures { bound.new ≡ rat_max bound.old by }
{
    if bound.is_at_most(by) {
        *bound = by;
    }
}

// Height comes last, here and below: it tells the boxes of a town apart least often.
#[tactic(auto, unfolding(crate::specs::Box::meets), using(crate::proofs::Flags::last_first))]
fn bounds_meet(first: &WorldBox, second: &WorldBox) -> bool
    ensures value { result ≡ meets first.now second.now }
    ensures first { is_box first.now ≡ true }
    ensures second { is_box second.now ≡ true }
{
    along_meets(first.low.x, first.high.x, second.low.x, second.high.x)
        && along_meets(first.low.z, first.high.z, second.low.z, second.high.z)
        && along_meets(first.low.y, first.high.y, second.low.y, second.high.y)
}

#[tactic(auto, unfolding(crate::specs::Box::holds))]
fn bounds_hold(first: &WorldBox, second: &WorldBox) -> bool
    ensures value { result ≡ holds first.now second.now }
    ensures first { is_box first.now ≡ true }
    ensures second { is_box second.now ≡ true }
{
    along_holds(first.low.x, first.high.x, second.low.x, second.high.x)
        && along_holds(first.low.y, first.high.y, second.low.y, second.high.y)
        && along_holds(first.low.z, first.high.z, second.low.z, second.high.z)
}

#[tactic(auto, unfolding(crate::specs::Box::touches), using(crate::proofs::Flags::last_first))]
fn bounds_touch(first: &WorldBox, second: &WorldBox) -> bool
    ensures value { result ≡ touches first.now second.now }
    ensures first { is_box first.now ≡ true }
    ensures second { is_box second.now ≡ true }
{
    along_touches(first.low.x, first.high.x, second.low.x, second.high.x)
        && along_touches(first.low.z, first.high.z, second.low.z, second.high.z)
        && along_touches(first.low.y, first.high.y, second.low.y, second.high.y)
}

fn along_meets(low: Fraction, high: Fraction, lower: Fraction, upper: Fraction) -> bool
    ensures { result ≡ along_meets low high lower upper }
{
    low.is_less(upper) && lower.is_less(high)
        || low.is_at_most(lower)
            && lower.is_at_most(low)
            && high.is_at_most(upper)
            && upper.is_at_most(high)
}

fn along_holds(low: Fraction, high: Fraction, lower: Fraction, upper: Fraction) -> bool
    ensures { result ≡ along_holds low high lower upper }
{
    low.is_at_most(lower) && upper.is_at_most(high)
}

fn along_touches(low: Fraction, high: Fraction, lower: Fraction, upper: Fraction) -> bool
    ensures { result ≡ along_touches low high lower upper }
{
    low.is_at_most(upper) && lower.is_at_most(high)
}

/// Whether the interval between two numbers shares a point with the one from low to high.
#[tactic(auto, using(crate::proofs::Spans::span_touches))]
pub(crate) fn span_touches(one: Fraction, other: Fraction, low: Fraction, high: Fraction) -> bool
    ensures { result ≡ along_touches (rat_min one other) (rat_max one other) low high }
{
    (one.is_at_most(high) || other.is_at_most(high))
        && (low.is_at_most(one) || low.is_at_most(other))
}

/// Whether the relative interiors of these two intervals share a point.
#[tactic(auto, unfolding(cga_fraction::specs::Order::rat_min, cga_fraction::specs::Order::rat_max))]
pub(crate) fn span_meets(one: Fraction, other: Fraction, low: Fraction, high: Fraction) -> bool
    ensures { result ≡ along_meets (rat_min one other) (rat_max one other) low high }
{
    if one.is_at_most(other) {
        along_meets(one, other, low, high)
    } else {
        along_meets(other, one, low, high)
    }
}

/// Whether the one from low to high lies in the interval between two numbers.
#[tactic(auto, using(crate::proofs::Spans::span_holds))]
pub(crate) fn span_holds(one: Fraction, other: Fraction, low: Fraction, high: Fraction) -> bool
    ensures { result ≡ along_holds (rat_min one other) (rat_max one other) low high }
{
    (one.is_at_most(low) || other.is_at_most(low))
        && (high.is_at_most(one) || high.is_at_most(other))
}

/// Two numbers, the lower one first.
#[tactic(auto, unfolding(cga_fraction::specs::Order::rat_min, cga_fraction::specs::Order::rat_max))]
pub(crate) fn in_order(one: Fraction, other: Fraction) -> (Fraction, Fraction)
    ensures { result ≡ (rat_min one other, rat_max one other) }
{
    if one.is_at_most(other) {
        (one, other)
    } else {
        (other, one)
    }
}
