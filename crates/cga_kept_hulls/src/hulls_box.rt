ghost use Rattle.std.specs.Prelude.{◌≡◌, IfOk};

use crate::hulls::Hulls;
use cga_fraction::NoMemory;
use std::alloc::Global;
use std::marker::Model;

/// Hulls in a box, which can be taken ahead and filled later. Contracts see it as the hulls.
#[derive(Drop)]
pub struct HullsBox {
    inner: Box<Hulls>,
}

impl Model for HullsBox {
    ghost use Rattle.cga_kept_hulls.specs.declared.hulls.Hulls.{Hulls};

    ghost Value = { Hulls };

    ghost view = { λ b. b.inner.value };
}

impl HullsBox {
    /// Takes memory.
    pub fn new(alloc: Global, hulls: Hulls) -> Result<HullsBox, NoMemory>
        ensures { IfOk result (λ b. b ≡ hulls) }
    {
        Ok(HullsBox {
            inner: Box::new(alloc, hulls)?,
        })
    }

    pub fn get(&self) -> &Hulls
        ensures { result.now ≡ self.now }
    {
        &self.inner
    }

    /// The box with these hulls in it. Takes no memory.
    pub fn filled(self, hulls: Hulls) -> HullsBox
        ensures { result ≡ hulls }
    {
        let HullsBox { mut inner } = self;
        *inner = hulls;
        HullsBox { inner }
    }
}
