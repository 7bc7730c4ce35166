//! What a node is answered at its turn.
ghost use Rattle.std.specs.Prelude.{◌≡◌, ◌≤◌, Some, IsSome};
ghost use Rattle.cga_word.specs.declared.target.Target.TheVariants.{Noparent, Active};
ghost use Rattle.cga_shape.specs.declared.sources.Sources.{Sources};
ghost use Rattle.cga_order.specs.Agenda as kept;
ghost use Rattle.cga_agenda.specs.Edit.{new_world};
ghost use Rattle.cga_expand.specs.Asked.{asks_for};
ghost use Rattle.cga_forest.specs.View.{Seen};
ghost use Rattle.cga_forest.specs.Tree.{node_at};
ghost use Rattle.cga_update.specs.Asked.{answered};
ghost use Rattle.cga_update.specs.Edit.{the_edit, kept_nodes, ranked};

use cga_check::Said;
use cga_forest::Forest;
use cga_fraction::Tests;
use cga_index::NodeId;
use cga_shape::Answers;
use cga_word::{Answer, Target};
use std::sync::ledger::Ledger;

/// The answers of a node by the kept stamps, for the targets for which the rules of its symbol are said to ask.
pub fn asked<T: Ledger>(forest: &Forest, id: NodeId, said: Said, tests: &mut Tests<T>) -> Answers
    requires here { IsSome (node_at forest.now id) }
    // It is what the theory asks, of any sources in whose mode the forest stands.
    ensures { (old new : Sources) (d : Seen) → forest.now.mode ≡ new.mode → node_at forest.now id ≡ Some d
        → said.noparent ≡ asks_for new.grammar d.node.shape.symbol Noparent
        → said.active ≡ asks_for new.grammar d.node.shape.symbol Active
        → result ≡ kept.asked (new_world (the_edit old new)) (kept_nodes forest.now) (ranked d.node) }
{
    forest.laws(); // for the proof
    let noparent = answered(forest, id, Target::Noparent, said.noparent, tests);
    let active = answered(forest, id, Target::Active, said.active, tests);
    Answers { noparent, active }
}

fn answered<T: Ledger>(
    forest: &Forest,
    id: NodeId,
    target: Target,
    mentioned: bool,
    tests: &mut Tests<T>,
) -> Option<Answer>
    requires here { IsSome (node_at forest.now id) }
    ensures { result ≡ answered forest.now id target mentioned }
{
    if mentioned {
        Some(forest.ask(id, target, tests))
    } else {
        None
    }
}
