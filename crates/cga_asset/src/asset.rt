use cga_fraction::List;
use cga_frame::Point;
use cga_solid::SolidMesh;
use std::marker::Model;

/// A mesh in coordinates of its own.
#[derive(Drop)]
pub struct Asset {
    mesh: SolidMesh,
}

impl Model for Asset {
    ghost use Rattle.cga_solid.specs.declared.solid_mesh.SolidMesh.{SolidMesh};

    ghost Value = { SolidMesh };

    ghost view = { λ a. a.mesh };
}

impl Asset {
    ghost use Rattle.std.specs.Prelude.{◌≡◌};

    pub(crate) fn new(mesh: SolidMesh) -> Asset
        ensures { result ≡ mesh }
    {
        Asset { mesh }
    }

    pub fn vertices(&self) -> &[Point]
        ensures { result.now ≡ self.now.vertices }
    {
        self.mesh.vertices.as_slice()
    }

    /// Each by the numbers of its vertices, from 1.
    pub fn faces(&self) -> &[List<u32>]
        ensures { result.now ≡ self.now.faces }
    {
        self.mesh.faces.as_slice()
    }
}
