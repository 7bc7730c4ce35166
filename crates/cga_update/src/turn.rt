//! One turn of the agenda.
ghost use Rattle.std.specs.Prelude.{◌≡◌, ◌+◌, ◌≤◌, ◌⊎◌, length, true, false, Some, IfOk, IsSome, OnOk};
ghost use Rattle.cga_order.specs.World as world;
ghost use Rattle.cga_order.specs.declared.placed.Kind.TheVariants.{Waiting};
ghost use Rattle.cga_agenda.specs.Loop.{TellsEach, calls_of, calls_told, children_told};
ghost use Rattle.cga_expand.specs.Expand.{expand_of};
ghost use Rattle.cga_expand.specs.declared.limits.TheConstants.{MOST_CHILDREN};
ghost use Rattle.cga_forest.specs.Placing.{MayGrow, Outcome, emitted};
ghost use Rattle.cga_forest.specs.View.{Seen};
ghost use Rattle.cga_forest.specs.Tree.{node_at};
ghost use Rattle.cga_check.specs.Said.{asks_any, said};
ghost use Rattle.cga_depend.specs.Changed.{AreFacts};
ghost use Rattle.cga_update.specs.Means.{KeepsBounds, Means};
ghost use Rattle.cga_update.specs.Plain.{IsPlain};
ghost use Rattle.cga_update.specs.Turned.{HasNobodyLeft, HasPlaced, IsAgain, IsTurned, MayTurn};

use crate::again::outcome_again;
use crate::asked::asked;
use crate::clear::{needs_nobody, still_clear};
use crate::follow::{follow, forget_all, queue_rest};
use crate::log::{note_created, note_removed};
use crate::work::Work;
use crate::worked::Worked;
use cga_agenda::Turned;
use cga_check::Said;
use cga_depend::Facts;
use cga_expand::{Expansions, expand_by_place};
use cga_forest::{Forest, Node};
use cga_fraction::{List, NoMemory, Tests};
use cga_index::NodeId;
use cga_queue::take;
use cga_shape::{Answers, Emitted, Kind, ShapeFault};
use cga_word::Name;
use std::sync::ledger::Ledger;

/// What a turn comes to where nothing is expanded.
const NOT_EXPANDED: Turned = Turned {
    children: 0,
    expanded: false,
};

/// Whether each of the mark that asks later than this one is on the agenda, or none does.
fn has_nobody_left(work: &Work, id: NodeId) -> bool
    requires here { IsSome (node_at work.now.forest id) }
    ensures { result ≡ true → HasNobodyLeft work.now id }
{
    if work.all_queued {
        return true;
    }
    let mode = work.renewal.new.mode;
    work.last.is_past(mode, &work.forest.chain(id))
}

/// Gives a node its outcome, notes what went and came, and follows it on the agenda. Takes memory.
fn place<T: Ledger>(
    work: &mut Work,
    id: NodeId,
    answers: Answers,
    outcome: &Result<List<Emitted>, ShapeFault>,
    tests: &mut Tests<T>,
) -> Result<(), NoMemory>
    requires here { (e : Seen) × (node_at work.now.forest id ≡ Some e) × MayGrow e outcome.now }
    ensures placed { OnOk result (HasPlaced work.entry.now work.exit.now id answers outcome.now) }
    ensures bounds { KeepsBounds work.entry.now work.exit.now }
{
    let nobody = has_nobody_left(work, id);
    let symbols = &mut work.symbols;
    let change = work.forest.replace_children(id, answers, outcome, symbols)?;
    work.forest.laws(); // for the proof
    note_removed(change.removed.as_slice(), &mut work.log, &mut work.gone)?;
    note_created(change.created.as_slice(), &mut work.log, &mut work.come)?;
    forget_all(&mut work.remembered, change.removed.as_slice());
    work.clear = still_clear(&work.forest, id, work.clear);
    let nobody = needs_nobody(nobody, &work.clear, &change);
    follow(
        &mut work.agenda,
        &mut work.remembered,
        &work.forest,
        id,
        &change,
        nobody,
        tests,
        &mut work.looked,
    )?;
    queue_rest(
        &mut work.agenda,
        &mut work.remembered,
        &work.forest,
        id,
        work.looked,
        &mut work.all_queued,
    )
}

/// The symbol of the node of an id.
fn symbol_at(forest: &Forest, id: NodeId) -> Name
    requires here { IsSome (node_at forest.now id) }
    ensures { (d : Seen) → node_at forest.now id ≡ Some d → result ≡ d.node.shape.symbol }
{
    forest.node_of(id).shape.symbol
}

/// What the new grammar says of a node's symbol, whose rules are found. Takes memory where the symbol comes for the first
/// time.
fn said_at(work: &mut Work, id: NodeId) -> Result<Said, NoMemory>
    requires here { IsSome (node_at work.now.forest id) }
    ensures told { IfOk result (λ told. (d : Seen) → node_at work.entry.now.forest id ≡ Some d
        → told ≡ said work.entry.now.symbols d.node.shape.symbol) }
    ensures same { work.exit.now ≡ work.entry.now }
{
    let symbol = symbol_at(&work.forest, id);
    work.rules.find(symbol)?;
    work.symbols.of(symbol)
}

/// Whether the old grammar says the same of it. Takes memory where the symbol comes for the first time.
fn facts_at(work: &mut Work, id: NodeId) -> Result<Facts, NoMemory>
    requires here { IsSome (node_at work.now.forest id) }
    ensures facts { IfOk result (λ facts. (d : Seen) → node_at work.entry.now.forest id ≡ Some d
        → AreFacts work.entry.now.grammars.before work.entry.now.grammars.after d.node.shape.symbol facts) }
    ensures same { work.exit.now ≡ work.entry.now }
{
    let symbol = symbol_at(&work.forest, id);
    work.grammars.of(symbol)
}

/// Whether a node waits, or its inputs differ.
fn is_changed(node: &Node, same_setting: bool, answers: &Answers) -> bool
    ensures changed { result ≡ true → (node.now.kind ≡ Waiting) ⊎ ((same_setting ≡ true) × (node.now.answers ≡ answers.now) → ⊥) }
    ensures same { result ≡ false → (world.is_waiting node.now.kind ≡ false) × (same_setting ≡ true) × (node.now.answers ≡ answers.now) }
{
    if matches!(node.kind, Kind::Waiting) {
        return true;
    }
    !same_setting || node.answers != *answers
}

/// Whether the node of an id waits, or its inputs differ.
fn must_expand(forest: &Forest, id: NodeId, same_setting: bool, answers: &Answers) -> bool
    requires here { IsSome (node_at forest.now id) }
    ensures changed { (d : Seen) → node_at forest.now id ≡ Some d → result ≡ true → (d.node.kind ≡ Waiting) ⊎ ((same_setting ≡ true) × (d.node.answers ≡ answers.now) → ⊥) }
    ensures same { (d : Seen) → node_at forest.now id ≡ Some d → result ≡ false → (world.is_waiting d.node.kind ≡ false) × (same_setting ≡ true) × (d.node.answers ≡ answers.now) }
{
    is_changed(forest.node_of(id), same_setting, answers)
}

fn child_count(outcome: &Result<List<Emitted>, ShapeFault>) -> u16
    requires few { length (emitted outcome.now) ≤ MOST_CHILDREN }
    ensures { result ≡ length (emitted outcome.now) }
{
    match outcome {
        Ok(children) => children.len() as u16,
        Err(_) => 0,
    }
}

/// Whether a node asks what its symbol asks for today.
fn asks_right(forest: &Forest, id: NodeId, said: Said) -> bool
    requires here { IsSome (node_at forest.now id) }
    ensures { (d : Seen) → node_at forest.now id ≡ Some d → result ≡ true → d.node.asks ≡ asks_any said }
{
    forest.node_of(id).asks == said.asks()
}

/// What a node is expanded to with these answers. Takes memory.
fn outcome_of<E: Ledger>(
    work: &Work,
    id: NodeId,
    answers: &Answers,
    expansions: &mut Expansions<E>,
) -> Result<Result<List<Emitted>, ShapeFault>, NoMemory>
    requires here { IsSome (node_at work.now.forest id) }
    ensures value { IfOk result (λ made. (d : Seen) → node_at work.now.forest id ≡ Some d
        → made ≡ expand_of work.now.rules d.node.shape answers.now) }
    ensures few { IfOk result (λ made. length (emitted made) ≤ MOST_CHILDREN) }
    ensures ticked { expansions.new ≡ expansions.old + 1 }
{
    let shape = &work.forest.node_of(id).shape;
    expand_by_place(work.alloc, &work.rules, shape, answers, expansions)
}

/// A node is expanded. Takes memory.
fn expand_at<E: Ledger, T: Ledger>(
    work: &mut Work,
    id: NodeId,
    answers: Answers,
    expansions: &mut Expansions<E>,
    tests: &mut Tests<T>,
) -> Result<Turned, NoMemory>
    requires here { (e : Seen) × (node_at work.now.forest id ≡ Some e) × (world.is_instance e.node.kind ≡ false) }
    ensures placed { IfOk result (λ turned. (outcome : Outcome) × HasPlaced work.entry.now work.exit.now id answers outcome
        × ((d : Seen) → node_at work.entry.now.forest id ≡ Some d → outcome ≡ expand_of work.entry.now.rules d.node.shape answers)
        × (turned.expanded ≡ true) × (turned.children ≡ length (emitted outcome))) }
    ensures ticked { expansions.new ≡ expansions.old + 1 }
    ensures bounds { KeepsBounds work.entry.now work.exit.now }
{
    let outcome = outcome_of(work, id, &answers, expansions)?;
    let children = child_count(&outcome);
    work.forest.laws(); // for the proof
    place(work, id, answers, &outcome, tests)?;
    Ok(Turned {
        children,
        expanded: true,
    })
}

/// A node's children are placed anew. Takes memory.
fn place_again<T: Ledger>(
    work: &mut Work,
    id: NodeId,
    answers: Answers,
    tests: &mut Tests<T>,
) -> Result<Turned, NoMemory>
    requires here { (e : Seen) × (node_at work.now.forest id ≡ Some e) × (world.is_instance e.node.kind ≡ false) }
    ensures placed { IfOk result (λ turned. (outcome : Outcome) × HasPlaced work.entry.now work.exit.now id answers outcome
        × ((d : Seen) → node_at work.entry.now.forest id ≡ Some d → world.is_waiting d.node.kind ≡ false → IsPlain d → IsAgain work.entry.now.forest d outcome)
        × (turned.expanded ≡ false) × (turned.children ≡ 0)) }
    ensures bounds { KeepsBounds work.entry.now work.exit.now }
{
    let outcome = outcome_again(work.alloc, &work.forest, id)?;
    work.forest.laws(); // for the proof
    place(work, id, answers, &outcome, tests)?;
    Ok(NOT_EXPANDED)
}

/// The turn of a node. Takes memory.
fn turn_of<E: Ledger, T: Ledger>(
    work: &mut Work,
    id: NodeId,
    expansions: &mut Expansions<E>,
    tests: &mut Tests<T>,
) -> Result<Turned, NoMemory>
    requires here { (e : Seen) × (node_at work.now.forest id ≡ Some e) × (world.is_instance e.node.kind ≡ false) }
    ensures turned { IfOk result (λ turned. MayTurn work.entry.now → IsTurned work.entry.now work.exit.now id turned) }
    ensures called { IfOk result (λ turned. expansions.new ≡ expansions.old + calls_of turned.expanded) }
    ensures kept { KeepsBounds work.entry.now work.exit.now }
    ensures counted { expansions.old ≤ expansions.new }
    ensures once { expansions.new ≤ expansions.old + 1 }
{
    let said = said_at(work, id)?;
    let facts = facts_at(work, id)?;
    let answers = asked(&work.forest, id, said, tests);
    if must_expand(&work.forest, id, facts.same_setting, &answers) {
        return expand_at(work, id, answers, expansions, tests);
    }
    // Its children would all stay.
    if work.priced && asks_right(&work.forest, id, said) {
        return Ok(NOT_EXPANDED);
    }
    place_again(work, id, answers, tests)
}

/// One turn of the least stamp on the agenda, and none where no node is on it. Takes memory.
pub fn turn<E: Ledger, T: Ledger>(
    work: &mut Work,
    expansions: &mut Expansions<E>,
    tests: &mut Tests<T>,
) -> Result<Option<Turned>, NoMemory>
    ensures turned { IfOk result (λ turned. TellsEach (Means work.entry.now) (Means work.exit.now) expansions.old expansions.new (children_told turned)) }
    ensures called { IfOk result (λ turned. expansions.new ≡ expansions.old + calls_told turned) }
    ensures kept { KeepsBounds work.entry.now work.exit.now }
    ensures counted { expansions.old ≤ expansions.new }
    ensures once { expansions.new ≤ expansions.old + 1 }
{
    work.forest.laws(); // for the proof
    let worked = Worked {
        forest: &work.forest,
    };
    match take(&mut work.agenda, &worked) {
        None => Ok(None),
        Some(id) => {
            work.remembered.forget(id);
            Ok(Some(turn_of(work, id, expansions, tests)?))
        }
    }
}
