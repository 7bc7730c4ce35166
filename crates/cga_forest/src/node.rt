ghost use Rattle.cga_order.specs.Head.{IsHead};

use crate::fitting::are_alike;
use cga_frame::WorldBox;
use cga_kept_hulls::Hulls;
use cga_order::{Chain, Path};
use cga_shape::{Answers, Kind, Shape};
use cga_word::{Answer, Name};

/// A shape that the forest keeps, and what is known of it.
#[derive(Drop)]
pub struct Node {
    pub shape: Shape,
    pub kind: Kind,
    /// That of its symbol, or of an instance's, when it was placed.
    pub priority: u16,
    /// At which depth the head of its chain stands. Here it takes no memory.
    pub head: u16,
    pub answers: Answers,
    /// Whether its answers depend on what lies near.
    pub asks: bool,
    /// The priorities on the way from the root, its own the last.
    pub line: Path,
    ghost headed: { IsHead line head },
}

/// What of a node may change while it stays.
#[derive(Clone, Copy, Debug)]
pub struct NodeState {
    pub kind: Kind,
    pub answers: Answers,
    pub asks: bool,
}

impl Node {
    ghost use Rattle.std.specs.Prelude.{◌≡◌, ◌↔◌, ◌∷◌, [], IsTrue};
    ghost use Rattle.cga_frame.specs.Box.{touches};
    ghost use Rattle.cga_index.specs.Occlusion.{answer_of};
    ghost use Rattle.cga_order.specs.Seen.{chain_of};
    ghost use Rattle.cga_forest.specs.Hull.{own_hulls};
    ghost use Rattle.cga_forest.specs.Node.{AreAlike, bounds, chain_kept, fits, state_of, with_state};

    pub fn lot(&self) -> Name
        ensures { result ≡ self.now.shape.lot }
    {
        self.shape.lot
    }

    #[tactic(auto, unfolding(crate::specs::Node::bounds))]
    pub fn bounds(&self) -> WorldBox
        ensures { result ≡ bounds self.now }
    {
        self.shape.scope.world_box()
    }

    /// Whether that box touches another one. The box isn't made.
    #[tactic(auto, unfolding(crate::specs::Node::bounds))]
    pub fn touches(&self, area: &WorldBox) -> bool
        ensures { result ≡ touches (bounds self.now) area.now }
    {
        self.shape.scope.touches(area)
    }

    /// What that box answers for another one. The box isn't made.
    #[tactic(auto, unfolding(crate::specs::Node::bounds, cga_index::specs::Occlusion::answer_of))]
    pub fn compares(&self, area: &WorldBox) -> Answer
        ensures { result ≡ answer_of area.now (bounds self.now ∷ []) }
    {
        let scope = &self.shape.scope;
        if scope.meets(area) {
            if scope.holds(area) {
                Answer::Full
            } else {
                Answer::Part
            }
        } else {
            Answer::Nothing
        }
    }

    /// Its hulls, where nothing stands below it.
    pub fn own_hulls(&self) -> Hulls
        ensures { result ≡ own_hulls self.now }
    {
        Hulls::alone(self.bounds(), self.asks)
    }

    /// Where it stands, with the priorities kept on the way there.
    pub fn chain(&self) -> Chain<'_>
        ensures { chain_of result ≡ chain_kept self.now }
    {
        Chain {
            lot: self.shape.lot,
            path: self.shape.path.as_slice(),
            priorities: self.line.as_slice(),
            head: self.head as usize,
        }
    }

    pub fn state(&self) -> NodeState
        ensures { result ≡ state_of self.now }
    {
        NodeState {
            kind: self.kind,
            answers: self.answers,
            asks: self.asks,
        }
    }

    pub fn set_state(&mut self, state: NodeState)
        ensures { self.new ≡ with_state state self.old }
    {
        self.kind = state.kind;
        self.answers = state.answers;
        self.asks = state.asks;
    }

    /// Whether an old child stays where this one is asked for.
    pub fn fits(&self, new: &Node) -> bool
        ensures value { result ≡ fits self.now new.now }
        ensures exact { IsTrue result ↔ AreAlike self.now new.now }
    {
        are_alike(self, new)
    }
}
