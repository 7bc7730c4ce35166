ghost use Rattle.std.specs.Prelude.{◌≡◌, [], ◌∷◌, ◌++◌, length, IfOk};

use crate::runs::same_steps;
use cga_fraction::NoMemory;
use smallvec::SmallVec;
use std::alloc::Global;
use std::marker::Model;

/// So many numbers stand in a path's value.
const FEW: usize = 8;

/// Numbers on the way from a lot's root to a shape, which contracts see as their list: the indices of children, of which
/// a root has none, or the priorities, of which it has one. Up to eight stand in the value itself; more take memory.
#[derive(Drop)]
pub struct Path {
    steps: SmallVec<u16, FEW>,
}

impl Model for Path {
    ghost use Rattle.std.specs.Prelude.{List, ℕ};

    ghost Value = { List ℕ };

    ghost view = { λ p. p.steps.items };
}

impl PartialEq for Path {
    ghost use Rattle.std.specs.Prelude.{nat_eq};
    ghost use lib.Pointwise.{pointwise};
    ghost use Rattle.std.proofs.Common.{rules};
    ghost use Rattle.std.specs.Cmp.Rules.{comparing};

    ghost eq = { pointwise nat_eq };

    ghost laws = { Prim.search (comparing, rules) };

    fn eq(&self, other: &Path) -> bool {
        same_steps(self.as_slice(), other.as_slice())
    }
}

impl Eq for Path {
    ghost use Rattle.std.proofs.Common.{rules};
    ghost use Rattle.std.specs.Cmp.Rules.{comparing};

    ghost laws = { Prim.search (comparing, rules) };
}

impl Path {
    /// Takes no memory.
    pub fn new(alloc: Global) -> Path
        ensures { result ≡ [] }
    {
        Path {
            steps: SmallVec::new(alloc),
        }
    }

    pub fn from_slice(alloc: Global, steps: &[u16]) -> Result<Path, NoMemory>
        ensures { IfOk result (λ path. path ≡ steps.now) }
    {
        Ok(Path {
            steps: SmallVec::from_slice(alloc, steps)?,
        })
    }

    /// One with another number behind these.
    pub fn extended(alloc: Global, steps: &[u16], last: u16) -> Result<Path, NoMemory>
        ensures { IfOk result (λ path. path ≡ steps.now ++ last ∷ []) }
    {
        if steps.len() >= FEW {
            return extended_far(alloc, steps, last);
        }
        let mut all = SmallVec::new(alloc);
        all.extend_from_slice(steps)?;
        all.push(last)?;
        Ok(Path { steps: all })
    }

    pub fn as_slice(&self) -> &[u16]
        ensures { result.now ≡ self.now }
    {
        self.steps.as_slice()
    }

    pub fn len(&self) -> usize
        ensures { result ≡ length self.now }
    {
        self.steps.len()
    }
}

/// A path with one number more, for a path of many numbers: these are copied in one piece.
fn extended_far(alloc: Global, steps: &[u16], last: u16) -> Result<Path, NoMemory>
    ensures { IfOk result (λ path. path ≡ steps.now ++ last ∷ []) }
{
    let mut all = Vec::with_capacity(alloc, steps.len() + 1)?;
    all.extend_from_slice(steps)?;
    all.push(last)?;
    Ok(Path {
        steps: SmallVec::from_vec(all),
    })
}
