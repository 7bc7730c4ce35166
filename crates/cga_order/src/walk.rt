ghost use Rattle.std.specs.Prelude.{◌≡◌, ℕ, ◌<◌, ◌≤◌, ◌+◌, true, Some, length, take};
ghost use Rattle.std.specs.Ordering.{is_eq, nat_cmp, ordering_then};
ghost use Rattle.std.specs.Cmp.Lexicographic.{slice_cmp};
ghost use Rattle.cga_word.specs.declared.mode.Mode.{Mode};
ghost use Rattle.cga_order.specs.Chain.{IsWhole, rank_at};
ghost use Rattle.cga_order.specs.Rank.{rank_cmp};
ghost use Rattle.cga_order.specs.Seen.{chain_of};
ghost use Rattle.cga_order.specs.Stamp.{stamp_cmp};
ghost use Rattle.cga_order.specs.Walk.{IsParting, IsTop, IsWithin, SharesRanks, tops_cmp};

use crate::chain::Chain;
use crate::runs::{cmp_prefixes, common_length, same_steps};
use cga_word::Mode;
use std::cmp::Ordering;

/// How the lots of two chains compare, and how long the common part of their paths is. With it
/// any two ranks on them are compared in constant time.
#[derive(Clone, Copy)]
struct Parting {
    lots: Ordering,
    common: usize,
}

/// The order of the stamps of two shapes. Their heads, which are their greatest ranks, decide it unless
/// they are one rank; only then both chains are looked at as a whole, which takes time linear in the two paths. It
/// takes no memory.
pub fn cmp_stamp(mode: Mode, a: &Chain, b: &Chain) -> Ordering
    requires left { IsWhole (chain_of a.now) }
    requires right { IsWhole (chain_of b.now) }
    ensures { result ≡ stamp_cmp mode (chain_of a.now) (chain_of b.now) }
{
    match cmp_heads(mode, a, a.head, b, b.head) {
        Ordering::Equal => cmp_whole(mode, a, b),
        decided => decided,
    }
}

/// Whether two shapes have one stamp. Mostly one shape is compared with itself, and then no ranks are.
pub fn have_one_stamp(mode: Mode, a: &Chain, b: &Chain) -> bool
    requires left { IsWhole (chain_of a.now) }
    requires right { IsWhole (chain_of b.now) }
    ensures { result ≡ is_eq (stamp_cmp mode (chain_of a.now) (chain_of b.now)) }
{
    is_alike(a, b) || matches!(cmp_stamp(mode, a, b), Ordering::Equal)
}

/// Whether two chains are written alike. Then they have one stamp, which no rank needs to be compared for.
fn is_alike(a: &Chain, b: &Chain) -> bool
    ensures { result ≡ true → chain_of a.now ≡ chain_of b.now }
{
    same_steps(a.path, b.path) && same_steps(a.priorities, b.priorities) && a.lot == b.lot
}

/// Two chains of one head, so of one lot, are mostly those of one shape, and then no ranks are compared. Else they have ancestors in
/// common, and mostly the greatest ranks below these decide.
fn cmp_whole(mode: Mode, a: &Chain, b: &Chain) -> Ordering
    requires left { IsWhole (chain_of a.now) }
    requires right { IsWhole (chain_of b.now) }
    requires lots { a.now.lot ≡ b.now.lot }
    ensures { result ≡ stamp_cmp mode (chain_of a.now) (chain_of b.now) }
{
    if is_alike(a, b) {
        return Ordering::Equal;
    }
    let parting = parting_of(a, b);
    let shared = shared_ranks(parting, a, b);
    match cmp_tops(
        mode,
        parting,
        a,
        top_from(a, shared),
        b,
        top_from(b, shared),
    ) {
        Ordering::Equal => cmp_by_walk(mode, parting, a, b),
        decided => decided,
    }
}

/// From the root down so many ranks of two chains of a lot are the same.
fn shared_ranks(parting: Parting, a: &Chain, b: &Chain) -> usize
    requires parting { IsParting (chain_of a.now) (chain_of b.now) parting }
    requires left { IsWhole (chain_of a.now) }
    requires right { IsWhole (chain_of b.now) }
    requires lots { a.now.lot ≡ b.now.lot }
    ensures { SharesRanks (chain_of a.now) (chain_of b.now) result }
{
    common_length(a.priorities, b.priorities).min(parting.common + 1)
}

/// At which depth the greatest rank of those from a depth on is.
fn top_from(chain: &Chain, from: usize) -> Option<usize>
    requires whole { IsWhole (chain_of chain.now) }
    requires within { from ≤ length chain.now.priorities.now }
    ensures { (mode : Mode) → IsTop mode (chain_of chain.now) from result }
{
    let mut top_below = None;
    let mut depth = chain.priorities.len();
    while depth > from {
        depth -= 1;
        top_below = top(chain, depth, top_below);
    }
    top_below
}

/// Depths count in the mode Breadth alone.
fn cmp_depths(mode: Mode, i: usize, j: usize) -> Ordering
    ensures { (mode ≡ Mode.Breadth → result ≡ nat_cmp i j) × (mode ≡ Mode.Depth → result ≡ Ordering.Equal) }
{
    match mode {
        Mode::Breadth => i.cmp(&j),
        Mode::Depth => Ordering::Equal,
    }
}

/// The ranks at two depths, where places are looked at only if all before them ties.
fn cmp_heads(mode: Mode, a: &Chain, i: usize, b: &Chain, j: usize) -> Ordering
    requires whole_left { IsWhole (chain_of a.now) }
    requires whole_right { IsWhole (chain_of b.now) }
    requires left { i < length a.now.priorities.now }
    requires right { j < length b.now.priorities.now }
    ensures { result ≡ rank_cmp mode (rank_at (chain_of a.now) i) (rank_at (chain_of b.now) j) }
{
    let priorities = a.priorities[i].cmp(&b.priorities[j]);
    match priorities.then(cmp_depths(mode, i, j)) {
        Ordering::Equal => cmp_places(a, i, b, j),
        decided => decided,
    }
}

/// The places at two depths: paths are looked at only within one lot.
fn cmp_places(a: &Chain, i: usize, b: &Chain, j: usize) -> Ordering
    requires left { i ≤ length a.now.path.now }
    requires right { j ≤ length b.now.path.now }
    ensures { result ≡ ordering_then (slice_cmp nat_cmp a.now.lot b.now.lot) (slice_cmp nat_cmp (take i a.now.path.now) (take j b.now.path.now)) }
{
    match a.lot.cmp(&b.lot) {
        Ordering::Equal => a.path[..i].cmp(&b.path[..j]),
        decided => decided,
    }
}

/// The order of two stamps by all their ranks, from the deepest up.
fn cmp_by_walk(mode: Mode, parting: Parting, a: &Chain, b: &Chain) -> Ordering
    requires parting { IsParting (chain_of a.now) (chain_of b.now) parting }
    requires left { IsWhole (chain_of a.now) }
    requires right { IsWhole (chain_of b.now) }
    ensures { result ≡ stamp_cmp mode (chain_of a.now) (chain_of b.now) }
{
    let mut order = Ordering::Equal;
    let mut left = None;
    let mut right = None;
    let mut depth = a.priorities.len().max(b.priorities.len());
    while depth > 0 {
        depth -= 1;
        left = top(a, depth, left);
        right = top(b, depth, right);
        order = cmp_tops(mode, parting, a, left, b, right).then(order);
    }
    order
}

fn parting_of(a: &Chain, b: &Chain) -> Parting
    requires lots { a.now.lot ≡ b.now.lot }
    ensures { IsParting (chain_of a.now) (chain_of b.now) result }
{
    Parting {
        lots: Ordering::Equal,
        common: common_length(a.path, b.path),
    }
}

/// At which depth the greatest rank of those from `depth` on stands, given that of those below it.
/// On one chain a rank is greater by its priority, and among equal ones by its depth.
fn top(chain: &Chain, depth: usize, below: Option<usize>) -> Option<usize>
    requires { IsWithin (chain_of chain.now) below }
    ensures { (mode : Mode) → IsWhole (chain_of chain.now)
        → IsTop mode (chain_of chain.now) (depth + 1) below
        → IsTop mode (chain_of chain.now) depth result }
{
    if chain.priorities.len() <= depth {
        return None;
    }
    match below {
        Some(top) if chain.priorities[depth] <= chain.priorities[top] => below,
        _ => Some(depth),
    }
}

fn cmp_tops(
    mode: Mode,
    parting: Parting,
    a: &Chain,
    left: Option<usize>,
    b: &Chain,
    right: Option<usize>,
) -> Ordering
    requires parting { IsParting (chain_of a.now) (chain_of b.now) parting }
    requires whole_left { IsWhole (chain_of a.now) }
    requires whole_right { IsWhole (chain_of b.now) }
    requires left { IsWithin (chain_of a.now) left }
    requires right { IsWithin (chain_of b.now) right }
    ensures { result ≡ tops_cmp mode (chain_of a.now) left (chain_of b.now) right }
{
    match (left, right) {
        (None, None) => Ordering::Equal,
        (None, Some(_)) => Ordering::Less,
        (Some(_), None) => Ordering::Greater,
        (Some(i), Some(j)) => cmp_ranks_at(mode, parting, a, i, b, j),
    }
}

fn cmp_ranks_at(mode: Mode, parting: Parting, a: &Chain, i: usize, b: &Chain, j: usize) -> Ordering
    requires parting { IsParting (chain_of a.now) (chain_of b.now) parting }
    requires whole_left { IsWhole (chain_of a.now) }
    requires whole_right { IsWhole (chain_of b.now) }
    requires left { i < length a.now.priorities.now }
    requires right { j < length b.now.priorities.now }
    ensures { result ≡ rank_cmp mode (rank_at (chain_of a.now) i) (rank_at (chain_of b.now) j) }
{
    a.priorities[i]
        .cmp(&b.priorities[j])
        .then(cmp_depths(mode, i, j))
        .then(parting.lots)
        .then(cmp_prefixes(a.path, i, b.path, j, parting.common))
}
