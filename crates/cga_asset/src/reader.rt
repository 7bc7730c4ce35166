ghost use Rattle.std.specs.Prelude.{◌≡◌, ◌≤◌, ◌+◌, length, nat_le, unwrap_or, if◌then◌else◌};
ghost use Rattle.cga_form.specs.Lines.{is_long};
ghost use Rattle.cga_fraction.specs.Results.{and_then};
ghost use Rattle.cga_asset.specs.Lines.{counted, fits, most_faces, unless_faceless};
ghost use Rattle.cga_asset.specs.Pending.{pending, unless_faulty};

use crate::asset::Asset;
use crate::asset_line::{AssetLine, begins_vertex, said_by};
use crate::fault::AssetFault;
use crate::words::words;
use cga_form::limits::LINE_LIMIT;
use cga_fraction::{List, NoMemory};
use cga_solid::SolidMesh;
use std::alloc::Global;

/// The most vertices of an asset, and the most faces.
const MOST_VERTICES: usize = 10_000;

const MOST_FACES: usize = 10_000;

/// Reads the lines of an asset one after the other. A number on a face may name a vertex of a later line, so that whether it
/// names any is known only at the end.
#[derive(Drop)]
pub struct AssetReader {
    alloc: Global,
    lines: u32,
    vertex_lines: u32,
    mesh: SolidMesh,
    /// The lines of the faces.
    face_lines: List<u32>,
    /// The first fault but for numbers that name no vertex.
    fault: Option<AssetFault>,
    ghost few: { length mesh.vertices ≤ 10000 },
}

impl AssetReader {
    ghost use Rattle.std.specs.Prelude.{◌≡◌, ℕ, [], ◌∷◌, ◌++◌, List, None, Some, IsOk, OnOk, length};
    ghost use Rattle.cga_form.specs.Lines.{Line};
    ghost use Rattle.cga_fraction.specs.Results.{and_then};
    ghost use Rattle.cga_asset.specs.Lines.{added, asset_of};
    ghost use Rattle.cga_asset.specs.Reader.{StandsFor, outcome};

    /// A reader of no lines yet. Takes no memory.
    pub fn new(alloc: Global) -> AssetReader
        ensures { StandsFor result [] }
    {
        AssetReader {
            alloc,
            lines: 0,
            vertex_lines: 0,
            mesh: SolidMesh {
                vertices: List::new(alloc),
                faces: List::new(alloc),
            },
            face_lines: List::new(alloc),
            fault: None,
        }
    }

    /// Takes the next line of the block, without its end. The bytes of a long one aren't looked at. After NoMemory the
    /// reader stands for nothing.
    pub fn line(&mut self, bytes: &[u8], long: bool) -> Result<(), NoMemory>
        ensures { (lines : List Line) → StandsFor self.old lines
            → OnOk result (StandsFor self.new (lines ++ record { bytes = bytes.now; long = long } ∷ [])) }
    {
        self.lines = next(self.lines);
        if is_long(bytes, long) {
            self.fault = Some(first(self.fault, AssetFault::LineTooLong(self.lines)));
            return Ok(());
        }
        let words = words(self.alloc, bytes)?;
        self.vertex_lines = next_if(self.vertex_lines, begins_vertex(words.as_slice()));
        match self.fault {
            Some(_) => Ok(()),
            None => {
                let before = self.mesh.vertices.len() as u32;
                let said = said_by(self.alloc, before, words.as_slice())?;
                self.add(said)
            }
        }
    }

    // Adds what the last line says, where none before it is faulty.
    fn add(&mut self, said: AssetLine) -> Result<(), NoMemory>
        requires { self.old.fault ≡ None }
        ensures gives { length self.old.mesh.faces ≡ length self.old.face_lines
            → OnOk result ((total : ℕ) → outcome self.new total ≡ and_then (outcome self.old total) (λ a. added total self.old.lines a said)) }
        ensures paired { length self.old.mesh.faces ≡ length self.old.face_lines → OnOk result (length self.new.mesh.faces ≡ length self.new.face_lines) }
        ensures lines { self.new.lines ≡ self.old.lines }
        ensures vertices { self.new.vertex_lines ≡ self.old.vertex_lines }
    {
        let line = self.lines;
        match said {
            AssetLine::Passed => Ok(()),
            AssetLine::Unknown => self.refuse(AssetFault::UnknownLine(line)),
            AssetLine::Vertex(None) => self.refuse(AssetFault::BadVertex(line)),
            AssetLine::Vertex(Some(vertex)) => {
                if self.mesh.vertices.len() >= MOST_VERTICES {
                    return self.refuse(AssetFault::TooManyVertices(line));
                }
                self.mesh.vertices.push(vertex)?;
                Ok(())
            }
            AssetLine::Face(None) => self.refuse(AssetFault::BadFace(line)),
            AssetLine::Face(Some(corners)) => {
                self.fault = faces_fault(self.mesh.faces.len(), line);
                self.mesh.faces.push(corners)?;
                self.face_lines.push(line)?;
                Ok(())
            }
        }
    }

    fn refuse(&mut self, fault: AssetFault) -> Result<(), NoMemory>
        ensures value { self.new ≡ record self.old { fault = Some fault } }
        ensures ok { IsOk result }
    {
        self.fault = Some(fault);
        Ok(())
    }

    /// The asset, or the first fault. Takes no memory.
    pub fn finish(self) -> Result<Asset, AssetFault>
        ensures { (lines : List Line) → StandsFor self lines → result ≡ asset_of lines }
    {
        let AssetReader {
            vertex_lines,
            mesh,
            face_lines,
            fault,
            ..
        } = self;
        match check_faces(mesh.faces.as_slice(), face_lines.as_slice(), vertex_lines) {
            Ok(()) => finished(mesh, fault),
            Err(fault) => Err(fault),
        }
    }
}

fn is_long(bytes: &[u8], long: bool) -> bool
    ensures { result ≡ is_long (record { bytes = bytes.now; long = long }) }
{
    long || bytes.len() > LINE_LIMIT
}

// One more, up to the last number that there is.
fn next(count: u32) -> u32
    ensures { result ≡ counted (count + 1) }
{
    count.saturating_add(1)
}

fn next_if(count: u32, one_more: bool) -> u32
    ensures { result ≡ (if one_more then counted (count + 1) else count) }
{
    if one_more { next(count) } else { count }
}

// The fault of an earlier line, if there is one.
fn first(kept: Option<AssetFault>, fault: AssetFault) -> AssetFault
    ensures { result ≡ unwrap_or kept fault }
{
    match kept {
        Some(earlier) => earlier,
        None => fault,
    }
}

// The fault of one more face on a line, where it has room for no more.
fn faces_fault(faces: usize, line: u32) -> Option<AssetFault>
    ensures { result ≡ (if nat_le most_faces faces then Some (AssetFault.TooManyFaces line) else None) }
{
    if faces >= MOST_FACES {
        Some(AssetFault::TooManyFaces(line))
    } else {
        None
    }
}

// The asset, unless a line is faulty or there is no face.
fn finished(mesh: SolidMesh, fault: Option<AssetFault>) -> Result<Asset, AssetFault>
    ensures { result ≡ and_then (unless_faulty fault mesh) unless_faceless }
{
    match fault {
        Some(fault) => Err(fault),
        None => {
            if mesh.faces.is_empty() {
                return Err(AssetFault::NoFace);
            }
            Ok(Asset::new(mesh))
        }
    }
}

fn fits(total: u32, corners: &[u32]) -> bool
    ensures { result ≡ fits total corners.now }
{
    corners.iter().all(|corner| *corner <= total)
}

// The first face with a number that names no vertex is refused by its line.
fn check_faces(faces: &[List<u32>], lines: &[u32], total: u32) -> Result<(), AssetFault>
    ensures { result ≡ pending total faces.now lines.now }
{
    for (at, face) in faces.iter().enumerate() {
        let Some(line) = lines.get(at) else {
            return Ok(());
        };
        if !fits(total, face.as_slice()) {
            return Err(AssetFault::BadFace(*line));
        }
    }
    Ok(())
}
