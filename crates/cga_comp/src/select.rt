ghost use Rattle.std.specs.Prelude.{◌≡◌, ◌++◌, ◌∷◌, [], IfOk, OnOk};
ghost use Rattle.cga_frame.specs.Component.{component_of, IsFitting};
ghost use Rattle.cga_comp.specs.Table.{vertex_of};
ghost use Rattle.cga_comp.specs.Components.{is_flat, is_solid, is_sheet, side_faces, faces, has_ends, present, of_pairs, edges_along, edges, vertices, numbered, one_of, has_all, components_of};

use crate::flat_scope::FlatScope;
use crate::rows::{edge, face, vertex};
use cga_fraction::{List, NoMemory};
use cga_frame::{Component, Point, Scope};
use cga_word::{Axis, Selector, Side};
use std::alloc::Global;

fn is_flat(size: &Point, axis: Axis) -> bool
    ensures { result ≡ is_flat size.now axis }
{
    !size.along(axis).is_positive()
}

// Whether the size is flat along no axis.
fn is_solid(size: &Point) -> bool
    ensures { result ≡ is_solid size.now }
{
    !(is_flat(size, Axis::X) || is_flat(size, Axis::Y) || is_flat(size, Axis::Z))
}

// Whether the size is flat along at most one axis.
fn is_sheet(size: &Point) -> bool
    ensures { result ≡ is_sheet size.now }
{
    let (x, y, z) = (
        is_flat(size, Axis::X),
        is_flat(size, Axis::Y),
        is_flat(size, Axis::Z),
    );
    !((x && (y || z)) || (y && z))
}

// Whether the size has the ends at which the component begins: a flat axis has no high end.
fn has_ends(size: &Point, part: Component) -> bool
    ensures { result ≡ has_ends size.now part }
{
    !((part.x_high && is_flat(size, Axis::X))
        || (part.y_high && is_flat(size, Axis::Y))
        || (part.z_high && is_flat(size, Axis::Z)))
}

// Adds the component, if the scope has the ends at which it begins.
fn add(scope: &Scope, part: Component, made: &mut List<Scope>) -> Result<(), NoMemory>
    requires { IsFitting part }
    ensures { OnOk result (made.new ≡ made.old ++ present scope.now part) }
{
    if !has_ends(&scope.size(), part) {
        return Ok(());
    }
    made.push(scope.component(part))
}

fn side_faces(alloc: Global, scope: &Scope) -> Result<List<Scope>, NoMemory>
    ensures { IfOk result (λ made. made ≡ side_faces scope.now) }
{
    let mut made = List::new(alloc);
    made.push(scope.component(face(Side::Front)))?;
    made.push(scope.component(face(Side::Right)))?;
    made.push(scope.component(face(Side::Back)))?;
    made.push(scope.component(face(Side::Left)))?;
    Ok(made)
}

fn faces(alloc: Global, scope: &Scope) -> Result<List<Scope>, NoMemory>
    ensures { IfOk result (λ made. made ≡ faces scope.now) }
{
    let mut made = side_faces(alloc, scope)?;
    made.push(scope.component(face(Side::Top)))?;
    made.push(scope.component(face(Side::Bottom)))?;
    Ok(made)
}

fn add_edges(scope: &Scope, along: Axis, made: &mut List<Scope>) -> Result<(), NoMemory>
    ensures { OnOk result (made.new ≡ made.old ++ edges_along scope.now along) }
{
    if is_flat(&scope.size(), along) {
        return Ok(());
    }
    add(scope, edge(along, false, false), made)?;
    add(scope, edge(along, false, true), made)?;
    add(scope, edge(along, true, false), made)?;
    add(scope, edge(along, true, true), made)
}

fn edges(alloc: Global, scope: &Scope) -> Result<List<Scope>, NoMemory>
    ensures { IfOk result (λ made. made ≡ edges scope.now) }
{
    let mut made = List::new(alloc);
    add_edges(scope, Axis::X, &mut made)?;
    add_edges(scope, Axis::Y, &mut made)?;
    add_edges(scope, Axis::Z, &mut made)?;
    Ok(made)
}

fn add_vertices(scope: &Scope, x_high: bool, made: &mut List<Scope>) -> Result<(), NoMemory>
    ensures { OnOk result (made.new ≡ made.old ++ of_pairs scope.now (vertex_of x_high)) }
{
    add(scope, vertex(x_high, false, false), made)?;
    add(scope, vertex(x_high, false, true), made)?;
    add(scope, vertex(x_high, true, false), made)?;
    add(scope, vertex(x_high, true, true), made)
}

fn vertices(alloc: Global, scope: &Scope) -> Result<List<Scope>, NoMemory>
    ensures { IfOk result (λ made. made ≡ vertices scope.now) }
{
    let mut made = List::new(alloc);
    add_vertices(scope, false, &mut made)?;
    add_vertices(scope, true, &mut made)?;
    Ok(made)
}

fn one(alloc: Global, scope: Scope) -> Result<List<Scope>, NoMemory>
    ensures { IfOk result (λ made. made ≡ scope ∷ []) }
{
    let mut made = List::new(alloc);
    made.push(scope)?;
    Ok(made)
}

// The one with this number, from 1.
fn numbered(number: u8, scopes: &[Scope]) -> Option<Scope>
    ensures { result ≡ numbered number scopes.now }
{
    let index = number.checked_sub(1)?;
    scopes.get(index as usize).copied()
}

fn edge_by_number(
    alloc: Global,
    scope: &Scope,
    number: u8,
) -> Result<Result<List<Scope>, FlatScope>, NoMemory>
    ensures { IfOk result (λ made. made ≡ one_of (numbered number (edges scope.now))) }
{
    let scopes = edges(alloc, scope)?;
    match numbered(number, scopes.as_slice()) {
        Some(edge) => Ok(Ok(one(alloc, edge)?)),
        None => Ok(Err(FlatScope)),
    }
}

fn has_all(size: &Point, selector: Selector) -> bool
    ensures { result ≡ has_all size.now selector }
{
    match selector {
        Selector::Faces | Selector::Sidefaces | Selector::Face(_) => is_solid(size),
        Selector::Edges | Selector::Edge(_) | Selector::Vertices => is_sheet(size),
    }
}

/// The scopes of the selected components, in the order of the table of components. A face's Z points outwards and
/// its third size is 0; an edge has its length along its X alone; a vertex has no size. Takes memory.
#[tactic(auto, unfolding(crate::specs::Components::components_of))]
pub fn components(
    alloc: Global,
    scope: &Scope,
    selector: Selector,
) -> Result<Result<List<Scope>, FlatScope>, NoMemory>
    ensures { IfOk result (λ made. made ≡ components_of scope.now selector) }
{
    if !has_all(&scope.size(), selector) {
        return Ok(Err(FlatScope));
    }
    match selector {
        Selector::Faces => Ok(Ok(faces(alloc, scope)?)),
        Selector::Sidefaces => Ok(Ok(side_faces(alloc, scope)?)),
        Selector::Face(side) => Ok(Ok(one(alloc, scope.component(face(side)))?)),
        Selector::Edges => Ok(Ok(edges(alloc, scope)?)),
        Selector::Edge(number) => edge_by_number(alloc, scope, number),
        Selector::Vertices => Ok(Ok(vertices(alloc, scope)?)),
    }
}
