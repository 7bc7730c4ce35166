//! The last of some nodes: when none of them is left to be looked at.
ghost use Rattle.std.specs.Prelude.{◌≡◌, ℕ, true, Some, IfOk};
ghost use Rattle.std.specs.Ordering.{is_lt};
ghost use Rattle.cga_order.specs.Key.{chain_of_key};
ghost use Rattle.cga_order.specs.Chain.{Chain as Along, IsWhole};
ghost use Rattle.cga_order.specs.Seen.{chain_of};
ghost use Rattle.cga_order.specs.Stamp.{stamp_cmp};
ghost use Rattle.cga_order.specs.World.{Among};
ghost use Rattle.cga_queue.specs.Last.{IsBound, IsPast, IsUpTo, chain_at, is_after, is_next};

use crate::chained::Chained;
use cga_fraction::NoMemory;
use cga_index::NodeId;
use cga_order::{Chain, StampKey, cmp_stamp};
use cga_word::Mode;
use std::alloc::Global;
use std::cmp::Ordering;

/// When the last of some nodes is looked at.
#[derive(Drop)]
pub enum Last {
    /// It wasn't looked for.
    Unknown,
    /// There are none.
    Nobody,
    At(StampKey),
}

impl Last {
    /// Whether none of them comes later than a chain.
    pub fn is_past(&self, mode: Mode, chain: &Chain) -> bool
        requires { IsWhole (chain_of chain.now) }
        ensures { result ≡ true → IsPast mode self.now (chain_of chain.now) }
    {
        match self {
            Last::Unknown => false,
            Last::Nobody => true,
            Last::At(key) => !is_before(mode, chain, key),
        }
    }
}

fn is_before(mode: Mode, chain: &Chain, key: &StampKey) -> bool
    requires { IsWhole (chain_of chain.now) }
    ensures { result ≡ is_lt (stamp_cmp mode (chain_of chain.now) (chain_of_key key.now)) }
{
    matches!(cmp_stamp(mode, chain, &key.chain()), Ordering::Less)
}

/// Whether a chain comes later than that of a node, or there is no such node.
fn is_behind<N: Chained>(mode: Mode, nodes: &N, id: NodeId, next: &Chain) -> bool
    requires { IsWhole (chain_of next.now) }
    ensures { result ≡ is_after mode (N.chains nodes.now id) (chain_of next.now) }
{
    match nodes.chain(id) {
        Some(chain) => matches!(cmp_stamp(mode, &chain, next), Ordering::Less),
        None => true,
    }
}

/// Whether a chain comes later than that of the last node so far, or there is none.
fn is_last<N: Chained>(mode: Mode, nodes: &N, last: Option<NodeId>, next: &Chain) -> bool
    requires { IsWhole (chain_of next.now) }
    ensures { result ≡ is_after mode (chain_at (N.chains nodes.now) last) (chain_of next.now) }
{
    match last {
        Some(id) => is_behind(mode, nodes, id, next),
        None => true,
    }
}

/// Whether a node may be on an agenda and comes later than the last one so far.
fn is_later<N: Chained>(mode: Mode, nodes: &N, last: Option<NodeId>, id: NodeId) -> bool
    ensures { result ≡ is_next mode (chain_at (N.chains nodes.now) last) (N.chains nodes.now id) }
{
    match nodes.chain(id) {
        Some(next) => is_last(mode, nodes, last, &next),
        None => false,
    }
}

/// The later of the last node so far and of another one.
fn later<N: Chained>(mode: Mode, nodes: &N, last: Option<NodeId>, id: NodeId) -> Option<NodeId>
    ensures next { (x : Along) → N.chains nodes.now id ≡ Some x → IsUpTo mode (chain_at (N.chains nodes.now) result) x }
    ensures kept { (x : Along) → IsUpTo mode (chain_at (N.chains nodes.now) last) x → IsUpTo mode (chain_at (N.chains nodes.now) result) x }
{
    let first = last;
    if is_later(mode, nodes, last, id) {
        Some(id)
    } else {
        first
    }
}

/// The last of these nodes, or the last one so far.
pub fn last_among<N: Chained>(
    mode: Mode,
    nodes: &N,
    first: Option<NodeId>,
    ids: &[NodeId],
) -> Option<NodeId>
    ensures all { (c : ℕ) (x : Along) → Among c ids.now → N.chains nodes.now c ≡ Some x → IsUpTo mode (chain_at (N.chains nodes.now) result) x }
    ensures kept { (x : Along) → IsUpTo mode (chain_at (N.chains nodes.now) first) x → IsUpTo mode (chain_at (N.chains nodes.now) result) x }
{
    let mut last = first;
    for id in ids {
        last = later(mode, nodes, last, *id);
    }
    last
}

/// What is known where this node is the last. Takes memory.
pub fn last_at<N: Chained>(
    alloc: Global,
    mode: Mode,
    nodes: &N,
    last: Option<NodeId>,
) -> Result<Last, NoMemory>
    ensures { IfOk result (λ known. (x : Along) → IsUpTo mode (chain_at (N.chains nodes.now) last) x → IsBound mode known x) }
{
    let Some(id) = last else {
        return Ok(Last::Nobody);
    };
    match nodes.chain(id) {
        Some(chain) => Ok(Last::At(StampKey::of(alloc, mode, &chain)?)),
        None => Ok(Last::Nobody),
    }
}
