ghost use Rattle.std.specs.Prelude.{◌≡◌, ◌+◌, length};
ghost use Rattle.cga_order.specs.Head.{IsHead};

use crate::chain::Chain;
use crate::path::Path;
use crate::walk::cmp_stamp;
use cga_fraction::NoMemory;
use cga_word::{Mode, Name};
use std::alloc::Global;
use std::cmp::Ordering;

/// When a shape is expanded: keys of one mode are ordered by the stamps of their shapes. There is one
/// priority for each shape from the root down to the shape itself.
#[derive(Drop)]
pub struct StampKey {
    pub mode: Mode,
    pub lot: Name,
    pub path: Path,
    pub priorities: Path,
    /// At which depth the head of its chain stands.
    pub head: usize,
    ghost whole: { length priorities ≡ length path + 1 },
    ghost headed: { IsHead priorities head },
}

impl StampKey {
    ghost use Rattle.std.specs.Prelude.{IfOk};
    ghost use Rattle.cga_order.specs.Chain.{IsWhole};
    ghost use Rattle.cga_order.specs.Seen.{chain_of};
    ghost use Rattle.cga_order.specs.Key.{chain_of_key};

    /// The key of a shape of this chain. Takes memory for both paths, where they are long.
    pub fn of(alloc: Global, mode: Mode, chain: &Chain) -> Result<StampKey, NoMemory>
        requires { IsWhole (chain_of chain.now) }
        ensures mode { IfOk result (λ key. key.mode ≡ mode) }
        ensures chain { IfOk result (λ key. chain_of_key key ≡ chain_of chain.now) }
    {
        let path = Path::from_slice(alloc, chain.path)?;
        let priorities = Path::from_slice(alloc, chain.priorities)?;
        Ok(StampKey {
            mode,
            lot: chain.lot,
            path,
            priorities,
            head: chain.head,
        })
    }

    /// Where the shape stands, lent. Takes no memory.
    pub fn chain(&self) -> Chain<'_>
        ensures { chain_of result ≡ chain_of_key self.now }
    {
        Chain {
            lot: self.lot,
            path: self.path.as_slice(),
            priorities: self.priorities.as_slice(),
            head: self.head,
        }
    }
}

fn mode_number(mode: Mode) -> u8
    ensures { (mode ≡ Mode.Breadth → result ≡ 0) × (mode ≡ Mode.Depth → result ≡ 1) }
{
    match mode {
        Mode::Breadth => 0,
        Mode::Depth => 1,
    }
}

impl PartialEq for StampKey {
    ghost use Rattle.std.specs.Ordering.{eq_by_cmp};
    ghost use Rattle.cga_order.specs.Key.{key_cmp};
    ghost use Rattle.cga_order.specs.KeyLaws.{key_partial};

    ghost eq = { eq_by_cmp key_cmp };

    ghost laws = { key_partial };

    fn eq(&self, other: &StampKey) -> bool {
        matches!(self.cmp(other), Ordering::Equal)
    }
}

impl Eq for StampKey {
    ghost use Rattle.cga_order.specs.KeyLaws.{key_equiv};

    ghost laws = { key_equiv };
}

impl PartialOrd for StampKey {
    ghost use Rattle.std.specs.Ordering.{as_partial_cmp};
    ghost use Rattle.cga_order.specs.Key.{key_cmp};
    ghost use Rattle.cga_order.specs.KeyLaws.{key_order};

    ghost partial_cmp = { as_partial_cmp key_cmp };

    ghost laws = { key_order };

    fn partial_cmp(&self, other: &StampKey) -> Option<Ordering> {
        Some(self.cmp(other))
    }
}

impl Ord for StampKey {
    ghost use Rattle.std.specs.Cmp.Rules.{comparing};
    ghost use Rattle.std.proofs.Common.{rules};
    ghost use Rattle.cga_order.specs.Key.{key_cmp};
    ghost use Rattle.cga_order.specs.KeyLaws.{key_total};

    ghost cmp = { key_cmp };

    ghost total = { key_total };

    ghost matches_partial_cmp = { Prim.search (comparing, rules) };

    ghost matches_eq = { Prim.search (comparing, rules) };

    fn cmp(&self, other: &StampKey) -> Ordering {
        mode_number(self.mode)
            .cmp(&mode_number(other.mode))
            .then(cmp_stamp(self.mode, &self.chain(), &other.chain()))
    }
}
