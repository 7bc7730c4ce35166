ghost use Rattle.std.specs.Prelude.{◌≡◌, ◌≢◌, IfOk, OnOk, All, false};
ghost use Rattle.cga_frame.specs.Box.{box_of};
ghost use Rattle.cga_frame.specs.Meeting.{IsIn};
ghost use Rattle.cga_frame.specs.Scope.{has_negative};
ghost use Rattle.cga_fraction.specs.Results.{and_then};
ghost use Rattle.cga_solid.specs.Corners.{corners_of};
ghost use Rattle.cga_solid.specs.Faces.{IsClosed};
ghost use Rattle.cga_solid.specs.Solids.{all_placed, check_solid_of, fault_of, form_of, is_flat, lacks_size, mesh_of, placed, vertices_of};
ghost use Rattle.cga_fraction.specs.Stops.{Makes};
ghost use Rattle.cga_word.specs.declared.primitive.Primitive.TheVariants as solid;

use crate::corners::Corners;
use crate::faces::faces;
use crate::form::Form;
use crate::solid_fault::SolidFault;
use crate::solid_mesh::SolidMesh;
use cga_fraction::{Fraction, List, NoMemory, Stop, settled};
use cga_frame::{Point, Scope};
use cga_word::Primitive;
use std::alloc::Global;

fn is_flat(size: Fraction) -> bool
    ensures { result ≡ is_flat size }
{
    !size.is_positive()
}

// Whether a size that the solid needs is 0.
fn lacks_size(primitive: Primitive, size: &Point) -> bool
    ensures { result ≡ lacks_size primitive size.now }
{
    match primitive {
        Primitive::Quad => is_flat(size.x) || is_flat(size.y),
        _ => is_flat(size.x) || is_flat(size.y) || is_flat(size.z),
    }
}

fn placed(scope: &Scope, local: Point) -> Result<Point, SolidFault>
    ensures { result ≡ placed scope.now local }
{
    match scope.place(local) {
        Ok(point) => Ok(point),
        Err(_) => Err(SolidFault::Overflow),
    }
}

fn check_corners(scope: &Scope, corners: &[Point]) -> Result<(), SolidFault>
    ensures { result ≡ fault_of (all_placed scope.now corners.now) }
{
    for corner in corners {
        placed(scope, *corner)?;
    }
    Ok(())
}

/// Whether there is a mesh of the solid in the scope, and why not. Takes no memory.
#[tactic(auto, unfolding(crate::specs::Solids::mesh_of))]
pub fn check_solid(primitive: Primitive, scope: &Scope) -> Result<(), SolidFault>
    ensures { result ≡ check_solid_of primitive scope.now }
{
    let size = scope.size();
    if lacks_size(primitive, &size) {
        return Err(SolidFault::FlatScope);
    }
    let form = Form::of(primitive, &size);
    if form.is_cornered() {
        return Ok(());
    }
    let corners = Corners::of(form, &size)?;
    check_corners(scope, corners.as_slice())
}

fn place_corners(
    alloc: Global,
    scope: &Scope,
    corners: &[Point],
) -> Result<List<Point>, Stop<SolidFault>>
    ensures { Makes (all_placed scope.now corners.now) result }
{
    let mut vertices = List::new(alloc);
    for corner in corners {
        let vertex = placed(scope, *corner)?;
        vertices.push(vertex)?;
    }
    Ok(vertices)
}

// The vertices of a form, in order.
fn vertices(
    alloc: Global,
    scope: &Scope,
    form: Form,
    size: &Point,
) -> Result<List<Point>, Stop<SolidFault>>
    requires { size.now ≡ scope.now.size }
    ensures { Makes (vertices_of form scope.now) result }
{
    let corners = Corners::of(form, size)?;
    place_corners(alloc, scope, corners.as_slice())
}

#[tactic(auto, unfolding(crate::specs::Solids::mesh_of))]
fn made(alloc: Global, primitive: Primitive, scope: &Scope) -> Result<SolidMesh, Stop<SolidFault>>
    ensures value { Makes (mesh_of primitive scope.now) result }
    ensures sizes { OnOk result (has_negative scope.now.size ≡ false) }
{
    let size = scope.size();
    if lacks_size(primitive, &size) {
        return Err(Stop::Fault(SolidFault::FlatScope));
    }
    let form = Form::of(primitive, &size);
    let vertices = vertices(alloc, scope, form, &size)?;
    Ok(SolidMesh {
        vertices,
        faces: faces(alloc, form)?,
    })
}

/// The vertices and the faces of the solid in the scope. Takes memory.
pub fn mesh(
    alloc: Global,
    primitive: Primitive,
    scope: &Scope,
) -> Result<Result<SolidMesh, SolidFault>, NoMemory>
    ensures value { IfOk result (λ mesh. mesh ≡ mesh_of primitive scope.now) }
    ensures closed { IfOk result (λ mesh. primitive ≢ solid.Quad →
        IfOk mesh (λ mesh. IsClosed mesh.faces)) }
    ensures inside { IfOk result (λ mesh. IfOk mesh (λ mesh.
        All (λ vertex. IsIn vertex (box_of scope.now)) mesh.vertices)) }
{
    settled(made(alloc, primitive, scope))
}
