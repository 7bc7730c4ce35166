//! The nodes that a grammar places: the root of a lot, and the children of an expansion.
ghost use Rattle.std.specs.Prelude.{◌≡◌, ◌<◌, ◌≤◌, ◌++◌, [], ◌∷◌, length, IfOk, IsOk};
ghost use Rattle.cga_order.specs.Head.{child_head};
ghost use Rattle.cga_shape.specs.Root.{root_scope};
ghost use Rattle.cga_index.specs.declared.limits.TheConstants.{MOST_DEPTH};
ghost use Rattle.cga_forest.specs.Placing.{IsRootNode, child_asks, child_kind, child_node, child_shape, children_after, children_from, emitted, kind_after, unasked};

use crate::node::Node;
use cga_check::{Said, Symbols};
use cga_fraction::{List, NoMemory};
use cga_order::{Path, child_head};
use cga_shape::{Answers, Emitted, Kind, Lot, Shape, ShapeFault, root_shape};
use std::alloc::Global;

fn unasked() -> Answers
    ensures { result ≡ unasked }
{
    Answers {
        noparent: None,
        active: None,
    }
}

/// The waiting root of a lot. Takes memory.
pub fn root_node(alloc: Global, lot: &Lot, symbols: &mut Symbols) -> Result<Node, NoMemory>
    requires scope { IsOk (root_scope lot.now) }
    ensures made { IfOk result (λ made. IsRootNode symbols.old lot.now made) }
    ensures symbols { symbols.new ≡ symbols.old }
{
    let said = symbols.of(lot.symbol)?;
    let line = Path::extended(alloc, &[], said.priority)?;
    Ok(Node {
        shape: root_shape(alloc, lot),
        kind: Kind::Waiting,
        priority: said.priority,
        head: 0,
        answers: unasked(),
        asks: said.asks(),
        line,
    })
}

/// What becomes of a node that had this outcome.
pub fn kind_after(outcome: &Result<List<Emitted>, ShapeFault>) -> Kind
    ensures { result ≡ kind_after outcome.now }
{
    match outcome {
        Ok(_) => Kind::Done,
        Err(fault) => Kind::Faulted(*fault),
    }
}

/// The children of a node that had this outcome. Takes memory.
pub fn children_after(
    alloc: Global,
    parent: &Node,
    outcome: &Result<List<Emitted>, ShapeFault>,
    symbols: &mut Symbols,
) -> Result<Vec<Node>, NoMemory>
    requires few { length (emitted outcome.now) ≤ 4096 }
    requires low { 0 < length (emitted outcome.now) → length parent.now.line ≤ MOST_DEPTH }
    ensures made { IfOk result (λ made. made.items ≡ children_after symbols.old parent.now outcome.now) }
    ensures symbols { symbols.new ≡ symbols.old }
{
    match outcome {
        Ok(emitted) => children(alloc, parent, emitted.as_slice(), symbols),
        Err(_) => Ok(Vec::new(alloc)),
    }
}

fn children(
    alloc: Global,
    parent: &Node,
    emitted: &[Emitted],
    symbols: &mut Symbols,
) -> Result<Vec<Node>, NoMemory>
    requires few { length emitted.now ≤ 4096 }
    requires low { 0 < length emitted.now → length parent.now.line ≤ MOST_DEPTH }
    ensures made { IfOk result (λ made. made.items ≡ children_from symbols.old parent.now 0 emitted.now) }
    ensures symbols { symbols.new ≡ symbols.old }
{
    let mut made = Vec::with_capacity(alloc, emitted.len())?;
    for index in 0..emitted.len() {
        let new = child(alloc, parent, index as u16, &emitted[index], symbols)?;
        made.push(new)?;
    }
    Ok(made)
}

fn child(
    alloc: Global,
    parent: &Node,
    index: u16,
    emitted: &Emitted,
    symbols: &mut Symbols,
) -> Result<Node, NoMemory>
    requires low { length parent.now.line ≤ MOST_DEPTH }
    ensures made { IfOk result (λ made. made ≡ child_node symbols.old parent.now index emitted.now) }
    ensures symbols { symbols.new ≡ symbols.old }
{
    let shape = child_shape(alloc, parent, index, emitted)?;
    let said = symbols.of(shape.symbol)?;
    let line = Path::extended(alloc, parent.line.as_slice(), said.priority)?;
    Ok(Node {
        shape,
        kind: child_kind(emitted),
        priority: said.priority,
        head: head_below(parent, said.priority),
        answers: unasked(),
        asks: child_asks(said, emitted),
        line,
    })
}

/// The head of a child's chain, whose symbol has this priority.
fn head_below(parent: &Node, priority: u16) -> u16
    requires low { length parent.now.line ≤ MOST_DEPTH }
    ensures { result ≡ child_head parent.now.line parent.now.head priority }
{
    child_head(parent.line.as_slice(), parent.head as usize, priority) as u16
}

fn child_shape(
    alloc: Global,
    parent: &Node,
    index: u16,
    emitted: &Emitted,
) -> Result<Shape, NoMemory>
    ensures { IfOk result (λ made. made ≡ child_shape parent.now index emitted.now) }
{
    let lot = parent.shape.lot;
    let path = Path::extended(alloc, parent.shape.path.as_slice(), index)?;
    match emitted {
        Emitted::Child {
            symbol,
            args,
            scope,
            seed,
        } => Ok(Shape {
            lot,
            path,
            symbol: *symbol,
            args: List::from_vec(Vec::from_slice(alloc, args.as_slice())?),
            scope: *scope,
            seed: *seed,
        }),
        Emitted::Solid { scope, seed, .. } => Ok(Shape {
            lot,
            path,
            symbol: parent.shape.symbol,
            args: List::new(alloc),
            scope: *scope,
            seed: *seed,
        }),
    }
}

fn child_kind(emitted: &Emitted) -> Kind
    ensures { result ≡ child_kind emitted.now }
{
    match emitted {
        Emitted::Child { .. } => Kind::Waiting,
        Emitted::Solid { primitive, .. } => Kind::Instance(*primitive),
    }
}

fn child_asks(said: Said, emitted: &Emitted) -> bool
    ensures { result ≡ child_asks said emitted.now }
{
    match emitted {
        Emitted::Child { .. } => said.asks(),
        Emitted::Solid { .. } => false,
    }
}
