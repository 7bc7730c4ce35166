ghost use Rattle.std.specs.Prelude.{◌≡◌};
ghost use Rattle.cga_order.specs.Chain.{IsWhole, rank};
ghost use Rattle.cga_order.specs.Rank.{rank_cmp};
ghost use Rattle.cga_order.specs.Seen.{chain_of};

use crate::chain::Chain;
use cga_word::Mode;
use std::cmp::Ordering;

/// Which of two waiting shapes is expanded first.
pub fn cmp_rank(mode: Mode, a: &Chain, b: &Chain) -> Ordering
    requires left { IsWhole (chain_of a.now) }
    requires right { IsWhole (chain_of b.now) }
    ensures { result ≡ rank_cmp mode (rank (chain_of a.now)) (rank (chain_of b.now)) }
{
    let depth = match mode {
        Mode::Breadth => a.path.len().cmp(&b.path.len()),
        Mode::Depth => Ordering::Equal,
    };
    let priority = a.priorities[a.path.len()].cmp(&b.priorities[b.path.len()]);
    priority
        .then(depth)
        .then(a.lot.cmp(&b.lot))
        .then(a.path.cmp(b.path))
}
