ghost use Rattle.std.specs.Prelude.{◌≡◌, ◌≤◌, ◌*◌, ◌||◌, IfOk, false, length, nat_lt, sum_by};
ghost use Rattle.cga_obj.specs.Lots.{AreSolid};
ghost use Rattle.cga_asset.specs.Dressed.{is_over, no_size, with_drawn, within_limit};

use crate::too_large::ModelTooLarge;
use cga_fraction::{List, NoMemory};
use cga_obj::Meshes;
use cga_shape::Drawn;
use std::alloc::Global;

const MOST_VERTICES: u128 = 4_000_000;

const MOST_ENTRIES: u128 = 16_000_000;

/// How large some meshes are together.
#[derive(Clone, Copy, Debug)]
pub struct ModelSize {
    pub vertices: u128,
    /// The numbers on all lines of faces.
    pub entries: u128,
}

fn entries(faces: &[List<u32>]) -> u128
    ensures value { result ≡ sum_by (λ f. length f) faces.now }
    ensures small { result ≤ length faces.now * 18446744073709551615 }
{
    let mut entries = 0;
    for face in faces {
        entries += face.len() as u128;
    }
    entries
}

fn exceeds(vertices: u128, entries: u128) -> bool
    ensures { result ≡ (nat_lt 4000000 vertices || nat_lt 16000000 entries) }
{
    vertices > MOST_VERTICES || entries > MOST_ENTRIES
}

impl ModelSize {
    /// The size of no mesh.
    pub fn zero() -> ModelSize
        ensures { result ≡ no_size }
    {
        ModelSize {
            vertices: 0,
            entries: 0,
        }
    }

    /// The size with the meshes of what is drawn, or that this is too large. Takes memory, for one mesh at a time.
    pub fn with_drawn<M: Meshes>(
        self,
        alloc: Global,
        meshes: &M,
        drawn: &[Drawn],
    ) -> Result<Result<ModelSize, ModelTooLarge>, NoMemory>
        requires small { is_over self ≡ false }
        requires solid { AreSolid drawn.now }
        ensures { IfOk result (λ size. size ≡ within_limit (with_drawn (M.mesh_of meshes.now) drawn.now self)) }
    {
        let mut vertices = self.vertices;
        let mut numbers = self.entries;
        for instance in drawn {
            let mesh = meshes.mesh(alloc, instance)?;
            vertices += mesh.vertices.len() as u128;
            numbers += entries(mesh.faces.as_slice());
            if exceeds(vertices, numbers) {
                return Ok(Err(ModelTooLarge));
            }
        }
        Ok(Ok(ModelSize {
            vertices,
            entries: numbers,
        }))
    }
}
