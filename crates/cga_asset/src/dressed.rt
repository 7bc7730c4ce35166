ghost use Rattle.std.specs.Prelude.{◌≡◌, ◌≤◌, IfOk, IsOk, bytes_eq};
ghost use Rattle.std.specs.List.{IsDistinct};
ghost use Rattle.cga_obj.specs.Lots.{AreSolid, StandsBy};
ghost use Rattle.cga_obj.specs.Meshes.{mesh_drawn};
ghost use Rattle.cga_solid.specs.Solids.{check_solid_of};
ghost use Rattle.cga_asset.specs.Dressed.{fitted_or_solid, model_text_of};
ghost use Rattle.cga_asset.specs.Fit.{fit_of};

use crate::asset::Asset;
use crate::fitting::fit;
use crate::model_size::ModelSize;
use crate::too_large::ModelTooLarge;
use crate::wardrobe::Wardrobe;
use cga_fraction::{List, NoMemory, Overflow};
use cga_obj::{Meshes, Solids, text_by};
use cga_shape::Drawn;
use cga_solid::SolidMesh;
use cga_word::Name;
use std::alloc::Global;

fn solid(alloc: Global, drawn: &Drawn) -> Result<SolidMesh, NoMemory>
    requires { IsOk (check_solid_of drawn.now.primitive drawn.now.scope) }
    ensures { IfOk result (λ mesh. mesh ≡ mesh_drawn drawn.now) }
{
    Solids.mesh(alloc, drawn)
}

// The asset in the scope of what is drawn, or its solid.
fn worn_mesh(alloc: Global, asset: &Asset, drawn: &Drawn) -> Result<SolidMesh, NoMemory>
    requires { IsOk (check_solid_of drawn.now.primitive drawn.now.scope) }
    ensures { IfOk result (λ mesh. mesh ≡ fitted_or_solid (fit_of asset.now drawn.now.scope) drawn.now) }
{
    match fit(alloc, asset, &drawn.scope)? {
        Ok(mesh) => Ok(mesh),
        Err(Overflow) => solid(alloc, drawn),
    }
}

impl Meshes for Wardrobe {
    ghost use Rattle.cga_asset.specs.Dressed.{dressed_mesh};

    ghost mesh_of = { dressed_mesh };

    #[tactic(auto, unfolding(crate::specs::Dressed::dressed_mesh))]
    fn is_solid(&self, drawn: &Drawn) -> bool {
        self.worn(&drawn.symbol).is_none()
    }

    #[tactic(auto, unfolding(crate::specs::Dressed::dressed_mesh))]
    fn mesh(&self, alloc: Global, drawn: &Drawn) -> Result<SolidMesh, NoMemory> {
        match self.worn(&drawn.symbol) {
            Some(asset) => worn_mesh(alloc, asset, drawn),
            None => solid(alloc, drawn),
        }
    }
}

/// The OBJ text of what is drawn, with what is dressed drawn by its assets; or that there is too much of it. Takes memory,
/// and makes each mesh twice.
#[tactic(auto, unfolding(crate::specs::Dressed::model_text_of))]
pub fn model_text(
    alloc: Global,
    wardrobe: &Wardrobe,
    lots: &[Name],
    drawn: &[Drawn],
    decimals: u8,
) -> Result<Result<List<u8>, ModelTooLarge>, NoMemory>
    requires few { decimals ≤ 9 }
    requires order { StandsBy lots.now drawn.now }
    requires distinct { IsDistinct bytes_eq lots.now }
    requires solid { AreSolid drawn.now }
    ensures { IfOk result (λ text. text ≡ model_text_of wardrobe.now lots.now drawn.now decimals) }
{
    match ModelSize::zero().with_drawn(alloc, wardrobe, drawn)? {
        Ok(_) => Ok(Ok(text_by(alloc, wardrobe, lots, drawn, decimals)?)),
        Err(ModelTooLarge) => Ok(Err(ModelTooLarge)),
    }
}
