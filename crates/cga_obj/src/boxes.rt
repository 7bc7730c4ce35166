ghost use Rattle.std.specs.Prelude.{◌≡◌, ◌≤◌, ◌<◌, ◌+◌, ◌^◌, ◌++◌, IfOk, IsOk, OnOk, flat_map, length, map};
ghost use Rattle.cga_solid.specs.Solids.{check_solid_of, mesh_of};
ghost use Rattle.cga_word.specs.declared.primitive.Primitive.TheVariants as solid;
ghost use Rattle.cga_obj.specs.Boxes.{AreNarrow, AreSpans, corner_line, face_by, point_at};
ghost use Rattle.cga_obj.specs.Meshes.{corner_text, face_line, mesh_or_none, mesh_text, vertex_line};
ghost use Rattle.cga_obj.specs.Plain.{IsPushed, cube_faces, quad_faces};

use crate::corner::Corner;
use crate::ends::Ends;
use crate::mesh::number_of;
use crate::piece::Piece;
use crate::span::{Span, spans};
use cga_fraction::{NoMemory, Text};
use cga_frame::Scope;
use cga_word::Primitive;

fn push_corner(
    text: &mut Text,
    x: &Ends,
    y: &Ends,
    z: &Ends,
    corner: Corner,
) -> Result<(), NoMemory>
    ensures { OnOk result (text.new ≡ text.old ++ corner_line x.now y.now z.now corner) }
{
    text.push(x.at(corner))?;
    text.push(y.at(corner))?;
    text.push(z.at(corner))
}

fn push_corners(
    text: &mut Text,
    x: &Ends,
    y: &Ends,
    z: &Ends,
    corners: &[Corner],
) -> Result<(), NoMemory>
    ensures { OnOk result
        (text.new ≡ text.old ++ flat_map (corner_line x.now y.now z.now) corners.now) }
{
    for corner in corners {
        push_corner(text, x, y, z, *corner)?;
    }
    Ok(())
}

const CUBE: [Corner; 8] = [
    Corner {
        x: false,
        y: false,
        z: false,
    },
    Corner {
        x: true,
        y: false,
        z: false,
    },
    Corner {
        x: true,
        y: false,
        z: true,
    },
    Corner {
        x: false,
        y: false,
        z: true,
    },
    Corner {
        x: false,
        y: true,
        z: false,
    },
    Corner {
        x: true,
        y: true,
        z: false,
    },
    Corner {
        x: true,
        y: true,
        z: true,
    },
    Corner {
        x: false,
        y: true,
        z: true,
    },
];

const QUAD: [Corner; 4] = [
    Corner {
        x: false,
        y: false,
        z: false,
    },
    Corner {
        x: true,
        y: false,
        z: false,
    },
    Corner {
        x: true,
        y: true,
        z: false,
    },
    Corner {
        x: false,
        y: true,
        z: false,
    },
];

// The number of a corner, where so many vertices stand before the box.
#[tactic(auto, unfolding(crate::specs::Meshes::corner_text))]
fn number(before: u64, corner: u64) -> Piece
    requires { before + corner < 2 ^ 64 }
    ensures { result ≡ corner_text before corner }
{
    number_of(before + corner)
}

// Adds a face by the texts of its numbers.
fn push_face(text: &mut Text, a: &Piece, b: &Piece, c: &Piece, d: &Piece) -> Result<(), NoMemory>
    ensures { OnOk result (text.new ≡ text.old ++ face_by a.now b.now c.now d.now) }
{
    text.push_byte(b'f')?;
    text.push(a.as_slice())?;
    text.push(b.as_slice())?;
    text.push(c.as_slice())?;
    text.push(d.as_slice())?;
    text.push_byte(b'\n')
}

fn push_cube_faces(text: &mut Text, before: u64) -> Result<(), NoMemory>
    requires { before + 8 < 2 ^ 64 }
    ensures { OnOk result
        (text.new ≡ text.old ++ flat_map (face_line before) cube_faces) }
{
    let one = number(before, 1);
    let two = number(before, 2);
    let three = number(before, 3);
    let four = number(before, 4);
    let five = number(before, 5);
    let six = number(before, 6);
    let seven = number(before, 7);
    let eight = number(before, 8);
    push_face(text, &four, &three, &seven, &eight)?;
    push_face(text, &three, &two, &six, &seven)?;
    push_face(text, &two, &one, &five, &six)?;
    push_face(text, &one, &four, &eight, &five)?;
    push_face(text, &eight, &seven, &six, &five)?;
    push_face(text, &one, &two, &three, &four)?;
    Ok(())
}

fn push_quad_faces(text: &mut Text, before: u64) -> Result<(), NoMemory>
    requires { before + 8 < 2 ^ 64 }
    ensures { OnOk result
        (text.new ≡ text.old ++ flat_map (face_line before) quad_faces) }
{
    let a = number(before, 1);
    let b = number(before, 2);
    let c = number(before, 3);
    let d = number(before, 4);
    push_face(text, &a, &b, &c, &d)?;
    Ok(())
}

// Adds the vertices of these corners.
fn push_vertices(
    text: &mut Text,
    decimals: u8,
    along: &(Span, Span, Span),
    corners: &[Corner],
) -> Result<(), NoMemory>
    requires few { decimals ≤ 9 }
    requires narrow { AreNarrow along.now.0 × AreNarrow along.now.1 × AreNarrow along.now.2 }
    ensures { OnOk result
        (text.new ≡ text.old ++ flat_map (vertex_line decimals) (map (point_at along.now.0 along.now.1 along.now.2) corners.now)) }
{
    let x = Ends::first(decimals, &along.0);
    let y = Ends::further(decimals, b' ', &along.1);
    let z = Ends::further(decimals, b'\n', &along.2);
    push_corners(text, &x, &y, &z, corners)?;
    Ok(())
}

// Adds the lines of a cube, and gives the number of its vertices.
fn push_cube(
    text: &mut Text,
    decimals: u8,
    before: u64,
    scope: &Scope,
    along: &(Span, Span, Span),
) -> Result<usize, NoMemory>
    requires few { decimals ≤ 9 }
    requires room { before + 8 < 2 ^ 64 }
    requires solid { IsOk (check_solid_of solid.Cube scope.now) }
    requires spans { AreSpans scope.now along.now.0 along.now.1 along.now.2 }
    requires narrow { AreNarrow along.now.0 × AreNarrow along.now.1 × AreNarrow along.now.2 }
    ensures text { OnOk result
        (text.new ≡ text.old ++ mesh_text decimals before (mesh_or_none (mesh_of solid.Cube scope.now))) }
    ensures count { IfOk result (λ count. count ≡ length (mesh_or_none (mesh_of solid.Cube scope.now)).vertices) }
{
    push_vertices(text, decimals, along, &CUBE)?;
    push_cube_faces(text, before)?;
    Ok(8)
}

// Pushes a quad from its scope.
fn push_quad(
    text: &mut Text,
    decimals: u8,
    before: u64,
    scope: &Scope,
    along: &(Span, Span, Span),
) -> Result<usize, NoMemory>
    requires few { decimals ≤ 9 }
    requires room { before + 8 < 2 ^ 64 }
    requires solid { IsOk (check_solid_of solid.Quad scope.now) }
    requires spans { AreSpans scope.now along.now.0 along.now.1 along.now.2 }
    requires narrow { AreNarrow along.now.0 × AreNarrow along.now.1 × AreNarrow along.now.2 }
    ensures text { OnOk result
        (text.new ≡ text.old ++ mesh_text decimals before (mesh_or_none (mesh_of solid.Quad scope.now))) }
    ensures count { IfOk result (λ count. count ≡ length (mesh_or_none (mesh_of solid.Quad scope.now)).vertices) }
{
    push_vertices(text, decimals, along, &QUAD)?;
    push_quad_faces(text, before)?;
    Ok(4)
}

/// Adds the lines of a cube or a quad by the ends of its scope, without a mesh, and gives the number of its vertices.
/// It gives none, and adds nothing, for another solid, and where a number isn't narrow.
pub(crate) fn push_box(
    text: &mut Text,
    decimals: u8,
    before: u64,
    primitive: Primitive,
    scope: &Scope,
) -> Result<Option<usize>, NoMemory>
    requires few { decimals ≤ 9 }
    requires room { before + 8 < 2 ^ 64 }
    requires solid { IsOk (check_solid_of primitive scope.now) }
    ensures { IfOk result (IsPushed text.old text.new decimals before (mesh_or_none (mesh_of primitive scope.now))) }
{
    let Some(along) = spans(scope) else {
        return Ok(None);
    };
    match primitive {
        Primitive::Cube => {
            let count = push_cube(text, decimals, before, scope, &along)?;
            Ok(Some(count))
        }
        Primitive::Quad => {
            let count = push_quad(text, decimals, before, scope, &along)?;
            Ok(Some(count))
        }
        _ => Ok(None),
    }
}
