//! The run that a kept forest tells.
ghost use Rattle.std.specs.Prelude.{◌≡◌, ◌≤◌, ℕ, All, IfOk, IsSome, Some};
ghost use Rattle.std.specs.List.{AllZip};
ghost use Rattle.cga_shape.specs.declared.sources.Sources.{Sources};
ghost use Rattle.cga_expand.specs.Run.{IsRun};
ghost use Rattle.cga_forest.specs.View.{Seen};
ghost use Rattle.cga_forest.specs.Tree.{node_at};
ghost use Rattle.cga_trace.specs.Kept.{outcome_from, step_of_node};
ghost use Rattle.cga_trace.specs.Order.{IsKnown, IsStepOf, IsTurn};
ghost use Rattle.cga_trace.specs.Text.{AreSteps};

use crate::fields::is_step;
use crate::traced_turn::TracedTurn;
use crate::turns::{sort_turns, turns_of};
use cga_forest::{Forest, Node};
use cga_fraction::{List, NoMemory};
use cga_index::{HullTree, NodeId, all_nodes};
use cga_shape::{Kind, Outcome, Path, TraceStep};
use std::alloc::Global;

fn outcome_from(kind: Kind, children: usize) -> Outcome
    requires few { children ≤ 4096 }
    ensures { result ≡ outcome_from kind children }
{
    match kind {
        Kind::Faulted(fault) => Outcome::Faulted(fault),
        _ => Outcome::Grew(children as u16),
    }
}

fn step_of(alloc: Global, node: &Node, children: usize) -> Result<TraceStep, NoMemory>
    requires few { children ≤ 4096 }
    ensures { IfOk result (λ step. step ≡ record {
      lot = node.now.shape.lot;
      path = node.now.shape.path;
      symbol = node.now.shape.symbol;
      answers = node.now.answers;
      outcome = outcome_from node.now.kind children;
    }) }
{
    let path = Path::from_slice(alloc, node.shape.path.as_slice())?;
    Ok(TraceStep {
        lot: node.shape.lot,
        path,
        symbol: node.shape.symbol,
        answers: node.answers,
        outcome: outcome_from(node.kind, children),
    })
}

// The step that a node is kept of.
fn step_at(alloc: Global, forest: &Forest, id: NodeId) -> Result<TraceStep, NoMemory>
    requires here { IsSome (node_at forest.now id) }
    ensures { IfOk result (λ step. (d : Seen) → node_at forest.now id ≡ Some d → step ≡ step_of_node d) }
{
    forest.laws(); // for the proof
    let children = forest.children(id);
    step_of(alloc, forest.node_of(id), children)
}

// The steps of these turns, one after the other.
fn steps_of(
    alloc: Global,
    forest: &Forest,
    turns: &[TracedTurn<'_>],
) -> Result<Vec<TraceStep>, NoMemory>
    requires turns { All (IsTurn forest.now) turns.now }
    ensures steps { IfOk result (λ steps. AllZip (IsStepOf forest.now) turns.now steps.items) }
    ensures fields { IfOk result (λ steps. AreSteps steps.items) }
{
    let mut steps = Vec::with_capacity(alloc, turns.len())?;
    for turn in turns {
        let step = step_at(alloc, forest, turn.id)?;
        is_step(&step);
        steps.push(step)?;
    }
    Ok(steps)
}

/// The run of sources for which the forest stands. Each of its steps has a text that no other step has. Takes memory. The
/// time goes by the number of nodes.
pub fn trace(alloc: Global, forest: &Forest) -> Result<List<TraceStep>, NoMemory>
    ensures run { IfOk result (λ steps. (sources : Sources) (end : ℕ) → IsKnown sources end forest.now → IsRun sources steps) }
    ensures fields { IfOk result AreSteps }
{
    forest.laws(); // for the proof
    let nodes = all_nodes(alloc, forest)?;
    let mut turns = turns_of(alloc, forest, nodes.as_slice())?;
    sort_turns(forest.mode(), &mut turns)?;
    let steps = steps_of(alloc, forest, turns.as_slice())?;
    Ok(List::from_vec(steps))
}
