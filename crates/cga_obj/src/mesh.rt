ghost use Rattle.std.specs.Prelude.{◌≡◌, ◌≤◌, ◌+◌, ◌^◌, ◌++◌, OnOk, codes, decimal, flat_map};
ghost use Rattle.cga_obj.specs.Meshes.{corner_text, face_line, mesh_text, vertex_line};
ghost use Rattle.cga_obj.specs.Narrow.{IsNarrow};

use crate::piece::{Piece, is_narrow};
use cga_fraction::{List, NoMemory, Text};
use cga_frame::Point;
use cga_solid::SolidMesh;

// The line of a vertex of narrow numbers, which is written from its end.
#[tactic(auto, unfolding(crate::specs::Meshes::vertex_line))]
fn narrow_line(decimals: u8, vertex: &Point) -> Piece
    requires few { decimals ≤ 9 }
    requires narrow { IsNarrow vertex.now.x × IsNarrow vertex.now.y × IsNarrow vertex.now.z }
    ensures { result ≡ vertex_line decimals vertex.now }
{
    let mut line = Piece::empty();
    line.put(b'\n');
    line.put_decimal(vertex.z, decimals);
    line.put(b' ');
    line.put_decimal(vertex.y, decimals);
    line.put(b' ');
    line.put_decimal(vertex.x, decimals);
    line.put(b' ');
    line.put(b'v');
    line
}

#[tactic(auto, unfolding(crate::specs::Meshes::vertex_line))]
fn push_vertex(text: &mut Text, decimals: u8, vertex: &Point) -> Result<(), NoMemory>
    requires { decimals ≤ 9 }
    ensures { OnOk result (text.new ≡ text.old ++ vertex_line decimals vertex.now) }
{
    if is_narrow(vertex.x) && is_narrow(vertex.y) && is_narrow(vertex.z) {
        return text.push(narrow_line(decimals, vertex).as_slice());
    }
    text.push(b"v ")?;
    text.push_decimal(vertex.x, decimals)?;
    text.push_byte(b' ')?;
    text.push_decimal(vertex.y, decimals)?;
    text.push_byte(b' ')?;
    text.push_decimal(vertex.z, decimals)?;
    text.push_byte(b'\n')
}

fn push_vertices(text: &mut Text, decimals: u8, vertices: &[Point]) -> Result<(), NoMemory>
    requires { decimals ≤ 9 }
    ensures { OnOk result
        (text.new ≡ text.old ++ flat_map (vertex_line decimals) vertices.now) }
{
    for vertex in vertices {
        push_vertex(text, decimals, vertex)?;
    }
    Ok(())
}

const NARROW: u128 = 1 << 64;

/// A number behind a space.
pub(crate) fn number_of(number: u64) -> Piece
    ensures { result ≡ codes " " ++ decimal number }
{
    let mut piece = Piece::empty();
    piece.put_whole(number);
    piece.put(b' ');
    piece
}

#[tactic(auto, unfolding(crate::specs::Meshes::corner_text))]
fn push_corner(text: &mut Text, before: u128, corner: u32) -> Result<(), NoMemory>
    requires { before + 2 ^ 64 ≤ 2 ^ 128 }
    ensures { OnOk result (text.new ≡ text.old ++ corner_text before corner) }
{
    let number = before + u128::from(corner);
    if number < NARROW {
        return text.push(number_of(number as u64).as_slice());
    }
    text.push_byte(b' ')?;
    text.push_whole(number)
}

fn push_corners(text: &mut Text, before: u128, corners: &[u32]) -> Result<(), NoMemory>
    requires { before + 2 ^ 64 ≤ 2 ^ 128 }
    ensures { OnOk result
        (text.new ≡ text.old ++ flat_map (corner_text before) corners.now) }
{
    for corner in corners {
        push_corner(text, before, *corner)?;
    }
    Ok(())
}

#[tactic(auto, unfolding(crate::specs::Meshes::face_line))]
fn push_face(text: &mut Text, before: u128, corners: &[u32]) -> Result<(), NoMemory>
    requires { before + 2 ^ 64 ≤ 2 ^ 128 }
    ensures { OnOk result (text.new ≡ text.old ++ face_line before corners.now) }
{
    text.push_byte(b'f')?;
    push_corners(text, before, corners)?;
    text.push_byte(b'\n')
}

fn push_faces(text: &mut Text, before: u128, faces: &[List<u32>]) -> Result<(), NoMemory>
    requires { before + 2 ^ 64 ≤ 2 ^ 128 }
    ensures { OnOk result
        (text.new ≡ text.old ++ flat_map (face_line before) faces.now) }
{
    for face in faces {
        push_face(text, before, face.as_slice())?;
    }
    Ok(())
}

/// Adds the lines of a mesh, where so many vertices stand before it.
#[tactic(auto, unfolding(crate::specs::Meshes::mesh_text))]
pub(crate) fn push_mesh(
    text: &mut Text,
    decimals: u8,
    before: u128,
    mesh: &SolidMesh,
) -> Result<(), NoMemory>
    requires few { decimals ≤ 9 }
    requires room { before + 2 ^ 64 ≤ 2 ^ 128 }
    ensures { OnOk result
        (text.new ≡ text.old ++ mesh_text decimals before mesh.now) }
{
    push_vertices(text, decimals, mesh.vertices.as_slice())?;
    push_faces(text, before, mesh.faces.as_slice())
}
