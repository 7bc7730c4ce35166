// A tree of two roots, each with two leaves: what the first leaf is answered, after how many tests, and who asks near it.
ghost use Rattle.std.specs.Prelude.{◌≡◌, ◌≤◌, ◌+◌, ◌<◌};
ghost use Rattle.cga_index.specs.Tree.{InTree, IsHullTree};
ghost use Rattle.cga_calls.specs.TwoRoots.{box_at, standing_of, two_roots};

use cga_fraction::{List, NoMemory, Tests};
use cga_frame::{Point, WorldBox};
use cga_index::{HullTree, NodeId, Standing, answer, queriers_meeting};
use cga_word::{Answer, Target};
use std::alloc::Global;
use std::marker::Brand;
use std::sync::ledger::{Blank, Ledger};
use std::test::Fail;

struct TwoRoots;

// The box of a node, one unit high and deep.
#[tactic(auto, unfolding(cga_fraction::specs::Order::rat_le))]
fn box_of(node: NodeId) -> WorldBox
    ensures { result ≡ box_at node }
{
    let (from, to) = match node.number() {
        0 => (Point::whole(0, 0, 0), Point::whole(10, 1, 1)),
        1 => (Point::whole(20, 0, 0), Point::whole(30, 1, 1)),
        2 => (Point::whole(0, 0, 0), Point::whole(4, 1, 1)),
        3 => (Point::whole(3, 0, 0), Point::whole(10, 1, 1)),
        4 => (Point::whole(20, 0, 0), Point::whole(24, 1, 1)),
        _ => (Point::whole(24, 0, 0), Point::whole(30, 1, 1)),
    };
    WorldBox {
        low: from,
        high: to,
    }
}

// A root is done with its expansion and is hidden from its own leaves; a leaf waits.
fn standing(node: u64, by: u64) -> Standing
    ensures { result ≡ standing_of node by }
{
    let own = node == 0 && (by == 2 || by == 3) || node == 1 && (by == 4 || by == 5);
    if node == by || own {
        Standing::Hidden
    } else if node < 2 {
        Standing::Finished
    } else {
        Standing::Waiting
    }
}

impl HullTree for TwoRoots {
    ghost view = { λ _. two_roots };

    fn roots(&self) -> usize {
        2
    }

    fn root(&self, place: usize) -> NodeId {
        NodeId::new(place as u64)
    }

    fn children(&self, node: NodeId) -> usize {
        if node.number() < 2 { 2 } else { 0 }
    }

    fn child(&self, node: NodeId, place: usize) -> NodeId {
        match (node.number(), place) {
            (0, 0) => NodeId::new(2),
            (0, _) => NodeId::new(3),
            (_, 0) => NodeId::new(4),
            _ => NodeId::new(5),
        }
    }

    fn own_box<T: Ledger>(&self, node: NodeId, tests: &mut Tests<T>) -> WorldBox {
        tests.tick();
        box_of(node)
    }

    fn hull(&self, node: NodeId) -> WorldBox {
        box_of(node)
    }

    fn asking_hull(&self, node: NodeId) -> Option<WorldBox> {
        Some(box_of(node))
    }

    fn asks(&self, _node: NodeId) -> bool {
        true
    }

    fn standing(&self, node: NodeId, by: NodeId) -> Standing {
        standing(node.number(), by.number())
    }
}

// Two roots, and the two children of the first: at most four tests.
#[tactic(auto, using(crate::proofs::TwoRoots::keeps_laws, crate::proofs::TwoRoots::first_leaf, crate::proofs::TwoRoots::near_is))]
fn ask_first_leaf<T: Ledger>(target: Target, tests: &mut Tests<T>) -> Answer
    ensures { tests.new ≤ tests.old + 4 }
{
    answer(&TwoRoots, NodeId::new(2), target, tests)
}

#[tactic(auto, using(crate::proofs::TwoRoots::keeps_laws))]
fn askers<T: Ledger>(alloc: Global, tests: &mut Tests<T>) -> Result<List<NodeId>, NoMemory> {
    queriers_meeting(alloc, &TwoRoots, &box_of(NodeId::new(2)), tests, &mut 0)
}

// What the first leaf is answered for each target, and how many ask where its box is.
fn asked<T: Ledger>(rt: &mut HostRuntime, blank: Blank) -> Result<(Answer, Answer, usize), NoMemory>
    requires name { blank.name ≡ T.name }
    requires parts { blank.parts ≡ T.parts }
    requires some { 0 < blank.parts }
{
    let mut tests = Tests::<T>::new(rt, blank);
    let noparent = ask_first_leaf(Target::Noparent, &mut tests);
    let active = ask_first_leaf(Target::Active, &mut tests);
    let near = askers(rt.alloc(), &mut tests)?;
    Ok((noparent, active, near.len()))
}

// The second leaf overlaps the first, which lies in the first root, as does the second leaf.
#[test]
fn a_leaf_sees_its_sibling_alone(mut rt: HostRuntime) -> Result<(), Fail> {
    let (noparent, active, near) = asked::<Brand>(&mut rt, Blank::new(1))?;
    assert_eq!(rt; noparent, Answer::Part);
    assert_eq!(rt; active, Answer::Part);
    assert_eq!(rt; near, 3);
    Ok(())
}
