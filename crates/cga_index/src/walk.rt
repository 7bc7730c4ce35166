ghost use Rattle.std.specs.Prelude.{◌≡◌, ◌≤◌, ◌+◌, ◌*◌, [], ◌∷◌, length, drop, cond, nat_eq};
ghost use Rattle.std.specs.List.{flat_map};
ghost use Rattle.cga_index.specs.Occlusion.{answer_of, join};
ghost use Rattle.cga_index.specs.Tree.{IsHullTree, InTree, below, all_nodes, near, counts_for, asked, answer_over, reads, total};

use crate::compare::compare;
use crate::hull_tree::HullTree;
use crate::limits::{BLOCK, GROUP, LEVELS, MOST_DEPTH};
use crate::node_id::NodeId;
use crate::of_two::{adds, is_full, is_nothing, joined};
use crate::standing::Standing;
use crate::steps::{block_end, child_of, root_of};
use cga_fraction::Tests;
use cga_frame::WorldBox;
use cga_word::{Answer, Target};
use std::sync::ledger::Ledger;

/// Whether a node of this standing is asked about.
fn counts_for(target: Target, standing: Standing) -> bool
    ensures { result ≡ counts_for target standing }
{
    match target {
        Target::Noparent => match standing {
            Standing::Hidden => false,
            Standing::Waiting => true,
            Standing::Finished => true,
        },
        Target::Active => match standing {
            Standing::Hidden => false,
            Standing::Waiting => true,
            Standing::Finished => false,
        },
    }
}

/// What a node's own box answers. The asking node's box is at hand, and isn't read again.
fn own_answer<H: HullTree, T: Ledger>(
    tree: &H,
    node: NodeId,
    by: NodeId,
    area: &WorldBox,
    tests: &mut Tests<T>,
) -> Answer
    requires node { InTree (H.view tree.now) node }
    requires area { area.now ≡ (H.view tree.now).own by }
    ensures found { result ≡ answer_of ((H.view tree.now).own by) ((H.view tree.now).own node ∷ []) }
    ensures counted { tests.new ≤ tests.old + cond (nat_eq node by) 0 1 }
{
    if node.same(by) {
        compare(area, area)
    } else {
        tree.compares(node, area, tests)
    }
}

/// What is found once one node is asked too. What is hidden at once comes first, and boxes come before the standing, since few
/// of those that are looked at meet. Where something was found, only a full answer adds to it.
fn look<H: HullTree, T: Ledger>(
    tree: &H,
    node: NodeId,
    before: Answer,
    by: NodeId,
    target: Target,
    area: &WorldBox,
    tests: &mut Tests<T>,
) -> Answer
    requires node { InTree (H.view tree.now) node }
    requires by { InTree (H.view tree.now) by }
    requires area { area.now ≡ (H.view tree.now).own by }
    ensures found { result ≡ join before (answer_over (H.view tree.now) by target (node ∷ [])) }
    ensures counted { tests.new ≤ tests.old + cond (nat_eq node by) 0 1 }
{
    if tree.hides(node, by) {
        return before;
    }
    let found = own_answer(tree, node, by, area, tests);
    if !adds(before, found) {
        return before;
    }
    if counts_for(target, tree.standing(node, by)) {
        return joined(before, found);
    }
    before
}

/// What is found once a node and those below it are asked too. It is what was found before where its hull is apart, before the
/// node itself is looked at, but that one with nobody below it is looked at at once. Where something was found, only who holds
/// the asking box adds to it, so that each node is passed by whose hull doesn't. Nobody is looked at behind a full answer.
/// `left` bounds the levels from the node on.
#[cycle(visit)]
fn visit<H: HullTree, T: Ledger>(
    tree: &H,
    node: NodeId,
    left: usize,
    before: Answer,
    by: NodeId,
    target: Target,
    area: &WorldBox,
    tests: &mut Tests<T>,
) -> Answer
    requires laws { IsHullTree (H.view tree.now) }
    requires node { InTree (H.view tree.now) node }
    requires by { InTree (H.view tree.now) by }
    requires area { area.now ≡ (H.view tree.now).own by }
    requires left { left + (H.view tree.now).depth node ≡ LEVELS }
    ensures found { result ≡ join before (answer_over (H.view tree.now) by target (below (H.view tree.now) left node)) }
    ensures counted { tests.new ≤ tests.old + reads (H.view tree.now) by left node }
{
    if tree.children(node) == 0 {
        return look(tree, node, before, by, target, area, tests);
    }
    if !tree.touches(node, area) {
        return before;
    }
    if !is_nothing(before) && !tree.hull(node).holds(area) {
        return before;
    }
    let first = look(tree, node, before, by, target, area, tests);
    if is_full(first) {
        return first;
    }
    visit_children(tree, node, left - 1, first, by, target, area, tests)
}

/// What is found once those below a node are asked too. `left` bounds their levels.
#[cycle(visit)]
fn visit_children<H: HullTree, T: Ledger>(
    tree: &H,
    node: NodeId,
    left: usize,
    before: Answer,
    by: NodeId,
    target: Target,
    area: &WorldBox,
    tests: &mut Tests<T>,
) -> Answer
    requires laws { IsHullTree (H.view tree.now) }
    requires node { InTree (H.view tree.now) node }
    requires by { InTree (H.view tree.now) by }
    requires area { area.now ≡ (H.view tree.now).own by }
    requires left { left + (H.view tree.now).depth node ≡ MOST_DEPTH }
    ensures found { result ≡ join before (answer_over (H.view tree.now) by target (flat_map (below (H.view tree.now) left) ((H.view tree.now).children node))) }
    ensures counted { tests.new ≤ tests.old + total (reads (H.view tree.now) by left) ((H.view tree.now).children node) }
{
    let mut found = before;
    for place in 0..tree.children(node) {
        let child = child_of(tree, node, place);
        found = visit(tree, child, left, found, by, target, area, tests);
        if is_full(found) {
            return found;
        }
    }
    found
}

/// What is found once the roots of a block and those below them are asked too.
fn visit_block<H: HullTree, T: Ledger>(
    tree: &H,
    block: usize,
    before: Answer,
    by: NodeId,
    target: Target,
    area: &WorldBox,
    tests: &mut Tests<T>,
) -> Answer
    requires laws { IsHullTree (H.view tree.now) }
    requires block { BLOCK * block ≤ length (H.view tree.now).roots }
    requires by { InTree (H.view tree.now) by }
    requires area { area.now ≡ (H.view tree.now).own by }
    ensures found { join before (answer_over (H.view tree.now) by target
        (flat_map (below (H.view tree.now) LEVELS) (drop (BLOCK * block) (H.view tree.now).roots))) ≡ join result
        (answer_over (H.view tree.now) by target (flat_map (below (H.view tree.now) LEVELS) (drop (BLOCK * (block + 1)) (H.view tree.now).roots))) }
    ensures counted { tests.new + total (reads (H.view tree.now) by LEVELS)
        (drop (BLOCK * (block + 1)) (H.view tree.now).roots) ≤ tests.old + total
        (reads (H.view tree.now) by LEVELS) (drop (BLOCK * block) (H.view tree.now).roots) }
{
    if is_full(before) {
        return before;
    }
    if !tree.block_touches(block, area) {
        return before;
    }
    let roots = tree.roots();
    let from = BLOCK * block;
    let mut found = before;
    for place in from..block_end(from, roots) {
        let root = root_of(tree, place);
        found = visit(tree, root, LEVELS, found, by, target, area, tests);
        if is_full(found) {
            return found;
        }
    }
    found
}

/// What is found once the roots of the blocks of a group, and those below them, are asked too.
fn visit_group<H: HullTree, T: Ledger>(
    tree: &H,
    group: usize,
    before: Answer,
    by: NodeId,
    target: Target,
    area: &WorldBox,
    tests: &mut Tests<T>,
) -> Answer
    requires laws { IsHullTree (H.view tree.now) }
    requires group { GROUP * group ≤ length (H.view tree.now).roots }
    requires by { InTree (H.view tree.now) by }
    requires area { area.now ≡ (H.view tree.now).own by }
    ensures found { join before (answer_over (H.view tree.now) by target
        (flat_map (below (H.view tree.now) LEVELS) (drop (GROUP * group) (H.view tree.now).roots))) ≡ join result
        (answer_over (H.view tree.now) by target (flat_map (below (H.view tree.now) LEVELS) (drop (GROUP * (group + 1)) (H.view tree.now).roots))) }
    ensures counted { tests.new + total (reads (H.view tree.now) by LEVELS)
        (drop (GROUP * (group + 1)) (H.view tree.now).roots) ≤ tests.old + total
        (reads (H.view tree.now) by LEVELS) (drop (GROUP * group) (H.view tree.now).roots) }
{
    if is_full(before) {
        return before;
    }
    if !tree.group_touches(group, area) {
        return before;
    }
    let blocks = tree.roots() / BLOCK + 1;
    let from = BLOCK * group;
    let mut found = before;
    for block in from..block_end(from, blocks) {
        found = visit_block(tree, block, found, by, target, area, tests);
    }
    found
}

/// The answer for a node.
pub fn answer<H: HullTree, T: Ledger>(
    tree: &H,
    node: NodeId,
    target: Target,
    tests: &mut Tests<T>,
) -> Answer
    requires laws { IsHullTree (H.view tree.now) }
    requires node { InTree (H.view tree.now) node }
    ensures found { result ≡ answer_of ((H.view tree.now).own node) (asked (H.view tree.now) node target (all_nodes (H.view tree.now))) }
    ensures counted { tests.new ≤ tests.old + near (H.view tree.now) node }
{
    let area = tree.own_box(node, tests);
    let mut found = Answer::Nothing;
    for group in 0..tree.roots() / GROUP + 1 {
        found = visit_group(tree, group, found, node, target, &area, tests);
    }
    found
}
