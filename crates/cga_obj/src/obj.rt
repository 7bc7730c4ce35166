ghost use Rattle.std.specs.Prelude.{◌≡◌, ◌≤◌, ◌^◌, ◌+◌, ◌*◌, ◌++◌, IfOk, IsOk, OnOk, bytes_eq, codes, length};
ghost use Rattle.std.specs.List.{IsDistinct, prefix_len};
ghost use Rattle.cga_solid.specs.Solids.{check_solid_of};
ghost use Rattle.cga_obj.specs.Meshes.{mesh_text};
ghost use Rattle.cga_obj.specs.Lots.{AreSolid, StandsBy, instance_text, instances_text, is_of, lot_text, lots_text, obj_text_of, text_by, vertex_count, vertices_in};

use crate::boxes::push_box;
use crate::mesh::push_mesh;
use crate::meshes::{Meshes, Solids};
use cga_fraction::{List, NoMemory, Text};
use cga_shape::Drawn;
use cga_word::Name;
use std::alloc::Global;

// Adds a line of a word and a name.
fn push_name(text: &mut Text, word: &[u8], name: &Name) -> Result<(), NoMemory>
    ensures { OnOk result
        (text.new ≡ text.old ++ (word.now ++ (name.now ++ codes "\n"))) }
{
    text.push(word)?;
    text.push(name.bytes())?;
    text.push_byte(b'\n')
}

// Where fewer vertices stand before a box, the numbers of its corners have 64 bits.
const MOST_BEFORE: u128 = 1 << 60;

// Adds the lines of the mesh that stands for an instance, and gives the number of its vertices.
fn push_meshed<M: Meshes>(
    alloc: Global,
    meshes: &M,
    text: &mut Text,
    decimals: u8,
    before: u128,
    drawn: &Drawn,
) -> Result<usize, NoMemory>
    requires few { decimals ≤ 9 }
    requires room { before + 2 ^ 64 ≤ 2 ^ 128 }
    requires solid { IsOk (check_solid_of drawn.now.primitive drawn.now.scope) }
    ensures text { OnOk result
        (text.new ≡ text.old ++ mesh_text decimals before (M.mesh_of meshes.now drawn.now)) }
    ensures count { IfOk result (λ count. count ≡ vertex_count (M.mesh_of meshes.now) drawn.now) }
{
    let mesh = meshes.mesh(alloc, drawn)?;
    push_mesh(text, decimals, before, &mesh)?;
    Ok(mesh.vertices.len())
}

// Pushes an instance, without a mesh where that is known to be a cube or a quad.
fn push_shown<M: Meshes>(
    alloc: Global,
    meshes: &M,
    text: &mut Text,
    decimals: u8,
    before: u128,
    drawn: &Drawn,
) -> Result<usize, NoMemory>
    requires few { decimals ≤ 9 }
    requires room { before + 2 ^ 64 ≤ 2 ^ 128 }
    requires solid { IsOk (check_solid_of drawn.now.primitive drawn.now.scope) }
    ensures text { OnOk result
        (text.new ≡ text.old ++ mesh_text decimals before (M.mesh_of meshes.now drawn.now)) }
    ensures count { IfOk result (λ count. count ≡ vertex_count (M.mesh_of meshes.now) drawn.now) }
{
    if before >= MOST_BEFORE || !meshes.is_solid(drawn) {
        return push_meshed(alloc, meshes, text, decimals, before, drawn);
    }
    let added = push_box(text, decimals, before as u64, drawn.primitive, &drawn.scope)?;
    match added {
        Some(count) => Ok(count),
        None => push_meshed(alloc, meshes, text, decimals, before, drawn),
    }
}

// Adds an instance, and gives the number of its vertices.
#[tactic(auto, unfolding(crate::specs::Lots::instance_text))]
fn push_instance<M: Meshes>(
    alloc: Global,
    meshes: &M,
    text: &mut Text,
    decimals: u8,
    before: u128,
    drawn: &Drawn,
) -> Result<usize, NoMemory>
    requires few { decimals ≤ 9 }
    requires room { before + 2 ^ 64 ≤ 2 ^ 128 }
    requires solid { IsOk (check_solid_of drawn.now.primitive drawn.now.scope) }
    ensures text { OnOk result
        (text.new ≡ text.old ++ instance_text (M.mesh_of meshes.now) decimals before drawn.now) }
    ensures count { IfOk result (λ count. count ≡ vertex_count (M.mesh_of meshes.now) drawn.now) }
{
    push_name(text, b"g ", &drawn.symbol)?;
    push_shown(alloc, meshes, text, decimals, before, drawn)
}

/// Adds these, where so many vertices stand before them, and gives the number of vertices behind them. Takes memory.
pub fn push_instances<M: Meshes>(
    alloc: Global,
    meshes: &M,
    text: &mut Text,
    decimals: u8,
    before: u128,
    drawn: &[Drawn],
) -> Result<u128, NoMemory>
    requires few { decimals ≤ 9 }
    requires room { before + length drawn.now * 2 ^ 64 + 2 ^ 64 ≤ 2 ^ 128 }
    requires solid { AreSolid drawn.now }
    ensures text { OnOk result
        (text.new ≡ text.old ++ instances_text (M.mesh_of meshes.now) decimals before drawn.now) }
    ensures count { IfOk result (λ after. after ≡ before + vertices_in (M.mesh_of meshes.now) drawn.now) }
    ensures room { IfOk result (λ after. after ≤ before + length drawn.now * 2 ^ 64) }
{
    let mut after = before;
    for instance in drawn {
        after += push_instance(alloc, meshes, text, decimals, after, instance)? as u128;
    }
    Ok(after)
}

#[tactic(auto, unfolding(crate::specs::Lots::lot_text))]
fn push_lot<M: Meshes>(
    alloc: Global,
    meshes: &M,
    text: &mut Text,
    decimals: u8,
    before: u128,
    lot: &Name,
    drawn: &[Drawn],
) -> Result<u128, NoMemory>
    requires few { decimals ≤ 9 }
    requires room { before + length drawn.now * 2 ^ 64 + 2 ^ 64 ≤ 2 ^ 128 }
    requires solid { AreSolid drawn.now }
    ensures text { OnOk result
        (text.new ≡ text.old ++ lot_text (M.mesh_of meshes.now) decimals before lot.now drawn.now) }
    ensures count { IfOk result (λ after. after ≡ before + vertices_in (M.mesh_of meshes.now) drawn.now) }
    ensures room { IfOk result (λ after. after ≤ before + length drawn.now * 2 ^ 64) }
{
    push_name(text, b"o ", lot)?;
    push_instances(alloc, meshes, text, decimals, before, drawn)
}

// How many at the front are the lot's.
fn own_count(lot: &Name, drawn: &[Drawn]) -> usize
    ensures { result ≡ prefix_len (is_of lot.now) drawn.now }
{
    drawn
        .iter()
        .take_while(|instance| *lot == instance.lot)
        .count()
}

fn push_lots<M: Meshes>(
    alloc: Global,
    meshes: &M,
    text: &mut Text,
    decimals: u8,
    lots: &[Name],
    drawn: &[Drawn],
) -> Result<(), NoMemory>
    requires few { decimals ≤ 9 }
    requires order { StandsBy lots.now drawn.now }
    requires distinct { IsDistinct bytes_eq lots.now }
    requires solid { AreSolid drawn.now }
    ensures { OnOk result
        (text.new ≡ text.old ++ lots_text (M.mesh_of meshes.now) decimals drawn.now 0 lots.now) }
{
    let mut rest = drawn;
    let mut before = 0;
    for lot in lots {
        let (own, others) = rest.split_at(own_count(lot, rest));
        before = push_lot(alloc, meshes, text, decimals, before, lot, own)?;
        rest = others;
    }
    Ok(())
}

/// The text of lots and of what is drawn in them, where these meshes stand for it: `o NAME` for each lot, then for each of
/// its instances `g SYMBOL`, lines `v X Y Z` with so many decimals, and lines `f I J K ..`. Takes memory, for one mesh at a
/// time beside the text.
#[tactic(auto, unfolding(crate::specs::Lots::text_by))]
pub fn text_by<M: Meshes>(
    alloc: Global,
    meshes: &M,
    lots: &[Name],
    drawn: &[Drawn],
    decimals: u8,
) -> Result<List<u8>, NoMemory>
    requires few { decimals ≤ 9 }
    requires order { StandsBy lots.now drawn.now }
    requires distinct { IsDistinct bytes_eq lots.now }
    requires solid { AreSolid drawn.now }
    ensures { IfOk result (λ text. text ≡ text_by (M.mesh_of meshes.now) lots.now drawn.now decimals) }
{
    let mut text = Text::new(alloc);
    text.push(b"# cga_city obj\n")?;
    push_lots(alloc, meshes, &mut text, decimals, lots, drawn)?;
    Ok(text.into_list())
}

/// The OBJ text, with the meshes of the solids themselves.
#[tactic(auto, unfolding(crate::specs::Lots::obj_text_of))]
pub fn obj_text(
    alloc: Global,
    lots: &[Name],
    drawn: &[Drawn],
    decimals: u8,
) -> Result<List<u8>, NoMemory>
    requires few { decimals ≤ 9 }
    requires order { StandsBy lots.now drawn.now }
    requires distinct { IsDistinct bytes_eq lots.now }
    requires solid { AreSolid drawn.now }
    ensures { IfOk result (λ text. text ≡ obj_text_of lots.now drawn.now decimals) }
{
    text_by(alloc, &Solids, lots, drawn, decimals)
}
