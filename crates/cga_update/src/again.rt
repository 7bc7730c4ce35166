//! The outcome that a node had, for its children to be placed anew.
ghost use Rattle.std.specs.Prelude.{◌≡◌, ◌≤◌, ◌⊎◌, [], length, false, Some, IsSome, IfOk};
ghost use Rattle.cga_order.specs.World.{is_instance, is_waiting};
ghost use Rattle.cga_order.specs.declared.placed.Kind.TheVariants.{Done};
ghost use Rattle.cga_expand.specs.declared.limits.TheConstants.{MOST_CHILDREN as MOST};
ghost use Rattle.cga_forest.specs.Placing.{emitted};
ghost use Rattle.cga_forest.specs.View.{Seen};
ghost use Rattle.cga_forest.specs.Tree.{node_at};
ghost use Rattle.cga_update.specs.Turned.{AreEmitted, IsAgain, emitted_of, fault_in};

use cga_forest::{Forest, Node};
use cga_fraction::{List, NoMemory};
use cga_index::{HullTree, NodeId};
use cga_shape::{Emitted, Kind, ShapeFault};
use std::alloc::Global;

/// What was emitted for a node. Takes memory.
fn emitted_again(alloc: Global, node: &Node) -> Result<Emitted, NoMemory>
    ensures { IfOk result (λ made. made ≡ emitted_of node.now) }
{
    let shape = &node.shape;
    match node.kind {
        Kind::Instance(primitive) => Ok(Emitted::Solid {
            primitive,
            scope: shape.scope,
            seed: shape.seed,
        }),
        _ => Ok(Emitted::Child {
            symbol: shape.symbol,
            args: List::from_vec(Vec::from_slice(alloc, shape.args.as_slice())?),
            scope: shape.scope,
            seed: shape.seed,
        }),
    }
}

fn child_again(alloc: Global, forest: &Forest, id: NodeId) -> Result<Emitted, NoMemory>
    requires here { IsSome (node_at forest.now id) }
    ensures { IfOk result (λ made. (d : Seen) → node_at forest.now id ≡ Some d → made ≡ emitted_of d.node) }
{
    emitted_again(alloc, forest.node_of(id))
}

/// What was emitted for the children of a node. Takes memory.
fn children_again(alloc: Global, forest: &Forest, id: NodeId) -> Result<List<Emitted>, NoMemory>
    requires here { IsSome (node_at forest.now id) }
    ensures emitted { IfOk result (λ made. (e : Seen) → node_at forest.now id ≡ Some e → AreEmitted forest.now e (length e.children) made) }
    ensures few { IfOk result (λ made. length made ≤ MOST) }
{
    forest.laws(); // for the proof
    let count = forest.children(id);
    let mut made = Vec::new(alloc);
    for place in 0..count {
        let child = forest.child(id, place);
        made.push(child_again(alloc, forest, child)?)?;
    }
    Ok(List::from_vec(made))
}

/// The outcome that a node had that isn't waiting. Takes memory.
pub fn outcome_again(
    alloc: Global,
    forest: &Forest,
    id: NodeId,
) -> Result<Result<List<Emitted>, ShapeFault>, NoMemory>
    requires here { IsSome (node_at forest.now id) }
    ensures again { IfOk result (λ made. (e : Seen) → node_at forest.now id ≡ Some e → is_instance e.node.kind ≡ false → is_waiting e.node.kind ≡ false
        → ((e.node.kind ≡ Done) ⊎ (e.children ≡ [])) → IsAgain forest.now e made) }
    ensures few { IfOk result (λ made. length (emitted made) ≤ MOST) }
    ensures no_more { IfOk result (λ made. (e : Seen) → node_at forest.now id ≡ Some e → length (emitted made) ≤ length e.children) }
{
    match fault_of(forest, id) {
        Some(fault) => Ok(Err(fault)),
        None => Ok(Ok(children_again(alloc, forest, id)?)),
    }
}

/// The fault that a node met, if it met one.
fn fault_of(forest: &Forest, id: NodeId) -> Option<ShapeFault>
    requires here { IsSome (node_at forest.now id) }
    ensures { (e : Seen) → node_at forest.now id ≡ Some e → result ≡ fault_in e.node.kind }
{
    match forest.node_of(id).kind {
        Kind::Faulted(fault) => Some(fault),
        _ => None,
    }
}
