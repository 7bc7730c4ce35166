//! What one line of an asset says.
ghost use Rattle.std.specs.Prelude.{◌≡◌, ◌≤◌, IfOk, bytes_eq};
ghost use Rattle.cga_asset.specs.Lines as spec;
ghost use Rattle.cga_asset.specs.Views.{texts};

use crate::numbers::{coordinate, corner};
use cga_fraction::{Fraction, List, NoMemory};
use cga_frame::Point;
use std::alloc::Global;

/// What a line of an asset says.
#[derive(Drop)]
pub enum AssetLine {
    /// It is passed over.
    Passed,
    /// None where it isn't three coordinates.
    Vertex(Option<Point>),
    /// The numbers of its corners, from 1; None where a word is no corner, or there are too few or too many.
    Face(Option<List<u32>>),
    Unknown,
}

fn is(word: &[u8], text: &[u8]) -> bool
    ensures { result ≡ bytes_eq word.now text.now }
{
    word == text
}

fn is_comment(word: &[u8]) -> bool
    ensures { result ≡ spec.is_comment word.now }
{
    match word {
        [first, ..] => *first == b'#',
        [] => false,
    }
}

fn is_passed(word: &[u8]) -> bool
    ensures { result ≡ spec.is_passed word.now }
{
    is_comment(word)
        || is(word, b"o")
        || is(word, b"g")
        || is(word, b"s")
        || is(word, b"l")
        || is(word, b"vn")
        || is(word, b"vt")
        || is(word, b"vp")
        || is(word, b"usemtl")
        || is(word, b"mtllib")
}

/// Whether the first word is that of a vertex.
pub(crate) fn begins_vertex(words: &[&[u8]]) -> bool
    ensures { result ≡ spec.begins_vertex (texts words.now) }
{
    match words {
        [first, ..] => is(first, b"v"),
        [] => false,
    }
}

fn point(x: Option<Fraction>, y: Option<Fraction>, z: Option<Fraction>) -> Option<Point>
    ensures { result ≡ spec.point_of x y z }
{
    match (x, y, z) {
        (Some(x), Some(y), Some(z)) => Some(Point { x, y, z }),
        _ => None,
    }
}

fn vertex(words: &[&[u8]]) -> Option<Point>
    ensures { result ≡ spec.vertex_of (texts words.now) }
{
    match words {
        [x, y, z, ..] => point(coordinate(x), coordinate(y), coordinate(z)),
        _ => None,
    }
}

fn corners(alloc: Global, before: u32, words: &[&[u8]]) -> Result<Option<List<u32>>, NoMemory>
    requires { before ≤ 10000 }
    ensures { IfOk result (λ corners. corners ≡ spec.corners_of before (texts words.now)) }
{
    let mut corners = List::new(alloc);
    for word in words {
        match corner(before, word) {
            Some(number) => corners.push(number)?,
            None => return Ok(None),
        }
    }
    Ok(Some(corners))
}

fn face(alloc: Global, before: u32, words: &[&[u8]]) -> Result<Option<List<u32>>, NoMemory>
    requires { before ≤ 10000 }
    ensures { IfOk result (λ corners. corners ≡ spec.face_of before (texts words.now)) }
{
    if words.len() < 3 || words.len() > 64 {
        return Ok(None);
    }
    corners(alloc, before, words)
}

/// What these words say, where so many vertices stand before their line. Takes memory for a face.
#[tactic(auto, unfolding(crate::specs::Lines::said_of))]
pub(crate) fn said_by(alloc: Global, before: u32, words: &[&[u8]]) -> Result<AssetLine, NoMemory>
    requires { before ≤ 10000 }
    ensures { IfOk result (λ said. said ≡ spec.said_of before (texts words.now)) }
{
    let [first, rest @ ..] = words else {
        return Ok(AssetLine::Passed);
    };
    if is_passed(first) {
        return Ok(AssetLine::Passed);
    }
    if is(first, b"v") {
        return Ok(AssetLine::Vertex(vertex(rest)));
    }
    if is(first, b"f") {
        return Ok(AssetLine::Face(face(alloc, before, rest)?));
    }
    Ok(AssetLine::Unknown)
}
