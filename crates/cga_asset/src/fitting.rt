ghost use Rattle.std.specs.Prelude.{◌≡◌, IfOk};
ghost use Rattle.cga_fraction.specs.Stops.{Makes};
ghost use Rattle.cga_asset.specs.Fit.{all_fitted, fit_of, fitted_point};

use crate::asset::Asset;
use crate::span::Spans;
use cga_fraction::{List, NoMemory, Overflow, Stop, settled};
use cga_frame::{Point, Scope};
use cga_solid::SolidMesh;
use std::alloc::Global;

#[tactic(auto, unfolding(crate::specs::Fit::fitted_point))]
fn fitted_point(spans: &Spans, scope: &Scope, point: &Point) -> Result<Point, Overflow>
    ensures { result ≡ fitted_point spans.now scope.now point.now }
{
    let local = spans.stretch(&scope.size(), point)?;
    scope.place(local)
}

fn fit_points(
    alloc: Global,
    spans: &Spans,
    scope: &Scope,
    points: &[Point],
) -> Result<List<Point>, Stop<Overflow>>
    ensures { Makes (all_fitted spans.now scope.now points.now) result }
{
    let mut fitted = List::new(alloc);
    for point in points {
        match fitted_point(spans, scope, point) {
            Ok(at) => fitted.push(at)?,
            Err(Overflow) => return Err(Stop::Fault(Overflow)),
        }
    }
    Ok(fitted)
}

fn copy_faces(alloc: Global, faces: &[List<u32>]) -> Result<List<List<u32>>, NoMemory>
    ensures { IfOk result (λ copy. copy ≡ faces.now) }
{
    let mut copy = List::new(alloc);
    for face in faces {
        copy.push(List::from_vec(Vec::from_slice(alloc, face.as_slice())?))?;
    }
    Ok(copy)
}

#[tactic(auto, unfolding(crate::specs::Fit::fit_of))]
fn made(alloc: Global, asset: &Asset, scope: &Scope) -> Result<SolidMesh, Stop<Overflow>>
    ensures { Makes (fit_of asset.now scope.now) result }
{
    match Spans::of(asset.vertices()) {
        Ok(spans) => {
            let vertices = fit_points(alloc, &spans, scope, asset.vertices())?;
            let faces = copy_faces(alloc, asset.faces())?;
            Ok(SolidMesh { vertices, faces })
        }
        Err(Overflow) => Err(Stop::Fault(Overflow)),
    }
}

/// The asset, moved and stretched so that it fills the scope; along an axis where it is flat it lies at the scope's
/// beginning. Takes memory.
pub fn fit(
    alloc: Global,
    asset: &Asset,
    scope: &Scope,
) -> Result<Result<SolidMesh, Overflow>, NoMemory>
    ensures { IfOk result (λ fitted. fitted ≡ fit_of asset.now scope.now) }
{
    settled(made(alloc, asset, scope))
}
