ghost use Rattle.std.specs.Prelude.{◌≡◌, ◌++◌, ◌∷◌, [], IfOk, OnOk};
ghost use Rattle.cga_solid.specs.Faces.{faces_of, ridge_along_x, ridge_along_z};
ghost use Rattle.cga_solid.specs.declared.form.Form.TheVariants as form;

use crate::form::Form;
use cga_fraction::{List, NoMemory};
use std::alloc::Global;

fn add_face(alloc: Global, faces: &mut List<List<u32>>, corners: &[u32]) -> Result<(), NoMemory>
    ensures { OnOk result (faces.new ≡ faces.old ++ corners.now ∷ []) }
{
    let mut face = List::new(alloc);
    for corner in corners {
        face.push(*corner)?;
    }
    faces.push(face)
}

/// The faces of a form, by the numbers of their corners. Takes memory.
#[tactic(auto, unfolding(crate::specs::Faces::faces_of))]
pub(crate) fn faces(alloc: Global, form: Form) -> Result<List<List<u32>>, NoMemory>
    ensures { IfOk result (λ faces. faces ≡ faces_of form) }
{
    match form {
        Form::Cube => cube(alloc),
        Form::Shed => shed(alloc),
        Form::GableAlongX => along_x(alloc),
        Form::HipAlongX => along_x(alloc),
        Form::GableAlongZ => along_z(alloc),
        Form::HipAlongZ => along_z(alloc),
        Form::Pyramid => pyramid(alloc),
        Form::Quad => quad(alloc),
    }
}

#[tactic(auto, unfolding(crate::specs::Faces::faces_of))]
fn cube(alloc: Global) -> Result<List<List<u32>>, NoMemory>
    ensures { IfOk result (λ faces. faces ≡ faces_of form.Cube) }
{
    let mut faces = List::new(alloc);
    add_face(alloc, &mut faces, &[4, 3, 7, 8])?;
    add_face(alloc, &mut faces, &[3, 2, 6, 7])?;
    add_face(alloc, &mut faces, &[2, 1, 5, 6])?;
    add_face(alloc, &mut faces, &[1, 4, 8, 5])?;
    add_face(alloc, &mut faces, &[8, 7, 6, 5])?;
    add_face(alloc, &mut faces, &[1, 2, 3, 4])?;
    Ok(faces)
}

#[tactic(auto, unfolding(crate::specs::Faces::faces_of))]
fn shed(alloc: Global) -> Result<List<List<u32>>, NoMemory>
    ensures { IfOk result (λ faces. faces ≡ faces_of form.Shed) }
{
    let mut faces = List::new(alloc);
    add_face(alloc, &mut faces, &[4, 3, 5, 6])?;
    add_face(alloc, &mut faces, &[3, 2, 5])?;
    add_face(alloc, &mut faces, &[2, 1, 6, 5])?;
    add_face(alloc, &mut faces, &[1, 4, 6])?;
    add_face(alloc, &mut faces, &[1, 2, 3, 4])?;
    Ok(faces)
}

fn along_x(alloc: Global) -> Result<List<List<u32>>, NoMemory>
    ensures { IfOk result (λ faces. faces ≡ ridge_along_x) }
{
    let mut faces = List::new(alloc);
    add_face(alloc, &mut faces, &[4, 3, 6, 5])?;
    add_face(alloc, &mut faces, &[3, 2, 6])?;
    add_face(alloc, &mut faces, &[2, 1, 5, 6])?;
    add_face(alloc, &mut faces, &[1, 4, 5])?;
    add_face(alloc, &mut faces, &[1, 2, 3, 4])?;
    Ok(faces)
}

fn along_z(alloc: Global) -> Result<List<List<u32>>, NoMemory>
    ensures { IfOk result (λ faces. faces ≡ ridge_along_z) }
{
    let mut faces = List::new(alloc);
    add_face(alloc, &mut faces, &[4, 3, 6])?;
    add_face(alloc, &mut faces, &[3, 2, 5, 6])?;
    add_face(alloc, &mut faces, &[2, 1, 5])?;
    add_face(alloc, &mut faces, &[1, 4, 6, 5])?;
    add_face(alloc, &mut faces, &[1, 2, 3, 4])?;
    Ok(faces)
}

#[tactic(auto, unfolding(crate::specs::Faces::faces_of))]
fn pyramid(alloc: Global) -> Result<List<List<u32>>, NoMemory>
    ensures { IfOk result (λ faces. faces ≡ faces_of form.Pyramid) }
{
    let mut faces = List::new(alloc);
    add_face(alloc, &mut faces, &[4, 3, 5])?;
    add_face(alloc, &mut faces, &[3, 2, 5])?;
    add_face(alloc, &mut faces, &[2, 1, 5])?;
    add_face(alloc, &mut faces, &[1, 4, 5])?;
    add_face(alloc, &mut faces, &[1, 2, 3, 4])?;
    Ok(faces)
}

#[tactic(auto, unfolding(crate::specs::Faces::faces_of))]
fn quad(alloc: Global) -> Result<List<List<u32>>, NoMemory>
    ensures { IfOk result (λ faces. faces ≡ faces_of form.Quad) }
{
    let mut faces = List::new(alloc);
    add_face(alloc, &mut faces, &[1, 2, 3, 4])?;
    Ok(faces)
}
