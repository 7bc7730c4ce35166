ghost use Rattle.std.specs.Prelude.{◌≡◌, ◌++◌, IfOk, IsTrue, OnOk};
ghost use Rattle.cga_city.specs.Derived.{members};
ghost use Rattle.cga_top.specs.Hulls.{corner, hull_line, IsHullText};

use cga_city::City;
use cga_fraction::{List, NoMemory, Text};
use cga_frame::{Point, WorldBox};
use cga_word::Name;
use std::alloc::Global;

#[tactic(auto, unfolding(crate::specs::Hulls::corner))]
fn push_corner(text: &mut Text, point: Point) -> Result<(), NoMemory>
    ensures { OnOk result (text.new ≡ text.old ++ corner point) }
{
    text.push(b" ")?;
    text.push_exact(point.x)?;
    text.push(b" ")?;
    text.push_exact(point.y)?;
    text.push(b" ")?;
    text.push_exact(point.z)
}

#[tactic(auto, unfolding(crate::specs::Hulls::hull_line))]
fn push_hull(text: &mut Text, lot: Name, hull: WorldBox) -> Result<(), NoMemory>
    ensures { OnOk result (text.new ≡ text.old ++ hull_line lot hull) }
{
    text.push(b"# hull ")?;
    text.push(lot.bytes())?;
    push_corner(text, hull.low)?;
    push_corner(text, hull.high)?;
    text.push(b"\n")
}

/// A line for each lot, in their order. Takes memory.
pub(crate) fn hulls_text(alloc: Global, city: &City) -> Result<List<u8>, NoMemory>
    requires { IsTrue city.now.warm }
    ensures { IfOk result (IsHullText (members city.now.budget city.now.sources) city.now.sources.lots) }
{
    let mut text = Text::new(alloc);
    let lots = city.lots();
    for place in 0..lots.len() {
        let Some(lot) = lots.get(place) else {
            unreachable!();
        };
        push_hull(&mut text, lot.name, city.hull(place))?;
    }
    Ok(text.into_list())
}
