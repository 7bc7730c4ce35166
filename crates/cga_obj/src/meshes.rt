ghost use Rattle.std.specs.Prelude.{◌≡◌, IfOk, IsOk, IsTrue};
ghost use Rattle.cga_solid.specs.Solids.{check_solid_of};
ghost use Rattle.cga_obj.specs.Meshes.{mesh_drawn};

use cga_fraction::NoMemory;
use cga_shape::Drawn;
use cga_solid::{SolidMesh, mesh};
use std::alloc::Global;

/// The meshes that stand for what is drawn.
pub trait Meshes {
    ghost use Rattle.cga_shape.specs.declared.drawn.Drawn.{Drawn};
    ghost use Rattle.cga_solid.specs.declared.solid_mesh.SolidMesh.{SolidMesh};

    /// The mesh that stands for it.
    ghost mesh_of: { Self → Drawn → SolidMesh };

    /// Whether that is known to be its solid.
    fn is_solid(&self, drawn: &Drawn) -> bool
        ensures { IsTrue result → mesh_of self.now drawn.now ≡ mesh_drawn drawn.now };

    /// Takes memory.
    fn mesh(&self, alloc: Global, drawn: &Drawn) -> Result<SolidMesh, NoMemory>
        requires { IsOk (check_solid_of drawn.now.primitive drawn.now.scope) }
        ensures { IfOk result (λ mesh. mesh ≡ mesh_of self.now drawn.now) };
}

/// The solids that are drawn.
#[derive(Clone, Copy)]
pub struct Solids;

impl Meshes for Solids {
    ghost mesh_of = { λ _ drawn. mesh_drawn drawn };

    fn is_solid(&self, _drawn: &Drawn) -> bool {
        true
    }

    fn mesh(&self, alloc: Global, drawn: &Drawn) -> Result<SolidMesh, NoMemory> {
        match mesh(alloc, drawn.primitive, &drawn.scope)? {
            Ok(mesh) => Ok(mesh),
            Err(_) => unreachable!(),
        }
    }
}
