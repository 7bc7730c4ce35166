//! Writes the OBJ text of lots, lot by lot: no more than a lot's solids and the text of some of them is in memory.
ghost use Rattle.std.specs.Prelude.{◌≡◌, ◌≢◌, ◌≤◌, ◌<◌, ◌+◌, ◌*◌, ◌^◌, ◌++◌, IfOk, OnErr, OnOk, bytes_eq, codes, length};
ghost use Rattle.std.specs.List.{IsDistinct};
ghost use Rattle.std.specs.Io.KnownBytes.{Appends};
ghost use Rattle.cga_obj.specs.Lots.{AreSolid, instances_text, vertices_in};
ghost use Rattle.cga_script.specs.Refusals.{refusal_text_of};
ghost use Rattle.cga_script.specs.declared.refused.Refused.TheVariants as refused;
ghost use Rattle.cga_asset.specs.declared.wardrobe_fault.WardrobeFault.TheVariants as wardrobe;
ghost use Rattle.cga_shape.specs.declared.edit_refused.EditRefused.TheVariants as cause;
ghost use Rattle.cga_top.specs.Faults.{FaultsBy};
ghost use Rattle.cga_top.specs.Prefixes.{AppendsSome};
ghost use Rattle.cga_top.specs.Ready.{IsReady};
ghost use Rattle.cga_top.specs.Prints.{in_lot, lot_in, lots_in, text_in};

use crate::halt::Halt;
use crate::pump::write_all;
use crate::session::Session;
use cga_fraction::{List, NoMemory, Text};
use cga_obj::{Meshes, push_instances};
use cga_outside::{Failed, Sink};
use cga_script::{Refused, refusal_text};
use cga_shape::Drawn;
use cga_word::Name;
use std::alloc::Global;

// The most instances whose text is in memory.
const PIECE: usize = 64;

fn write<K: Sink>(out: &mut K, bytes: &[u8]) -> Result<(), Halt>
    ensures ok { OnOk result (Appends (K.held out.old) (K.held out.new) bytes.now) }
    ensures err { OnErr result (AppendsSome (K.held out.old) (K.held out.new) bytes.now) }
    ensures faults { FaultsBy result (K.faults out.old) (K.faults out.new) }
{
    match write_all(out, bytes) {
        Ok(()) => Ok(()),
        Err(Failed) => Err(Halt::WriteFault),
    }
}

// The text of instances, and the number of vertices behind them.
fn piece<M: Meshes>(
    alloc: Global,
    meshes: &M,
    decimals: u8,
    before: u128,
    drawn: &[Drawn],
) -> Result<(List<u8>, u128), NoMemory>
    requires few { decimals ≤ 9 }
    requires room { before + length drawn.now * 2 ^ 64 + 2 ^ 64 ≤ 2 ^ 128 }
    requires solid { AreSolid drawn.now }
    ensures text { IfOk result (λ made. made.0 ≡ instances_text (M.mesh_of meshes.now) decimals before drawn.now) }
    ensures count { IfOk result (λ made. made.1 ≡ before + vertices_in (M.mesh_of meshes.now) drawn.now) }
    ensures room { IfOk result (λ made. made.1 ≤ before + length drawn.now * 2 ^ 64) }
{
    let mut text = Text::new(alloc);
    let after = push_instances(alloc, meshes, &mut text, decimals, before, drawn)?;
    Ok((text.into_list(), after))
}

// Writes the text of instances, and gives the number of vertices behind them.
fn write_instances<M: Meshes, K: Sink>(
    alloc: Global,
    meshes: &M,
    out: &mut K,
    decimals: u8,
    before: u128,
    drawn: &[Drawn],
) -> Result<u128, Halt>
    requires few { decimals ≤ 9 }
    requires room { before + length drawn.now * 2 ^ 64 + 2 ^ 64 ≤ 2 ^ 128 }
    requires solid { AreSolid drawn.now }
    ensures ok { OnOk result (Appends (K.held out.old) (K.held out.new)
        (instances_text (M.mesh_of meshes.now) decimals before drawn.now)) }
    ensures err { OnErr result (AppendsSome (K.held out.old) (K.held out.new)
        (instances_text (M.mesh_of meshes.now) decimals before drawn.now)) }
    ensures faults { FaultsBy result (K.faults out.old) (K.faults out.new) }
    ensures count { IfOk result (λ after. after ≡ before + vertices_in (M.mesh_of meshes.now) drawn.now) }
    ensures room { IfOk result (λ after. after ≤ before + length drawn.now * 2 ^ 64) }
{
    let mut rest = drawn;
    let mut after = before;
    while !rest.is_empty() {
        let (some, others) = rest.split_at(usize::min(PIECE, rest.len()));
        let (text, next) = match piece(alloc, meshes, decimals, after, some) {
            Ok(made) => made,
            Err(NoMemory) => return Err(Halt::NoMemory),
        };
        match write(out, text.as_slice()) {
            Ok(()) => {}
            Err(halt) => return Err(halt),
        }
        after = next;
        rest = others;
    }
    Ok(after)
}

// The first line of a lot's text.
fn head(alloc: Global, lot: Name) -> Result<List<u8>, NoMemory>
    ensures { IfOk result (λ text. text ≡ codes "o " ++ lot ++ codes "\n") }
{
    let mut text = Text::new(alloc);
    text.push(b"o ")?;
    text.push(lot.bytes())?;
    text.push(b"\n")?;
    Ok(text.into_list())
}

// Writes the text of a lot, and gives the number of vertices behind it.
fn write_lot<M: Meshes, K: Sink>(
    session: &Session,
    meshes: &M,
    out: &mut K,
    before: u128,
    lot: Name,
) -> Result<u128, Halt>
    requires ready { IsReady session.now }
    requires room { before + 2 ^ 95 ≤ 2 ^ 128 }
    ensures ok { OnOk result (Appends (K.held out.old) (K.held out.new) (lot_in (M.mesh_of meshes.now) session.now.city session.now.decimals before lot)) }
    ensures err { OnErr result (AppendsSome (K.held out.old) (K.held out.new) (lot_in (M.mesh_of meshes.now) session.now.city session.now.decimals before lot)) }
    ensures faults { FaultsBy result (K.faults out.old) (K.faults out.new) }
    ensures count { IfOk result (λ after. after ≡ before + vertices_in (M.mesh_of meshes.now) (in_lot session.now.city lot)) }
    ensures room { IfOk result (λ after. after ≤ before + 2 ^ 95) }
{
    let head = match head(session.alloc, lot) {
        Ok(text) => text,
        Err(NoMemory) => return Err(Halt::NoMemory),
    };
    match write(out, head.as_slice()) {
        Ok(()) => {}
        Err(halt) => return Err(halt),
    }
    let drawn = match session.city.lot_instances(lot) {
        Ok(drawn) => drawn,
        Err(NoMemory) => return Err(Halt::NoMemory),
    };
    let decimals = session.decimals.get();
    match write_instances(
        session.alloc,
        meshes,
        out,
        decimals,
        before,
        drawn.as_slice(),
    ) {
        Ok(after) => Ok(after),
        Err(halt) => Err(halt),
    }
}

// Writes the texts of lots.
fn write_lots<M: Meshes, K: Sink>(
    session: &Session,
    meshes: &M,
    out: &mut K,
    lots: &[Name],
) -> Result<(), Halt>
    requires ready { IsReady session.now }
    requires distinct { IsDistinct bytes_eq lots.now }
    requires few { length lots.now < 2 ^ 32 }
    ensures ok { OnOk result (Appends (K.held out.old) (K.held out.new) (lots_in (M.mesh_of meshes.now) session.now.city session.now.decimals lots.now)) }
    ensures err { OnErr result (AppendsSome (K.held out.old) (K.held out.new) (lots_in (M.mesh_of meshes.now) session.now.city session.now.decimals lots.now)) }
    ensures faults { FaultsBy result (K.faults out.old) (K.faults out.new) }
{
    let mut before = 0;
    for lot in lots {
        match write_lot(session, meshes, out, before, *lot) {
            Ok(after) => before = after,
            Err(halt) => return Err(halt),
        }
    }
    Ok(())
}

/// Writes the OBJ text of lots, where these meshes stand for what is drawn. Takes memory for a lot's solids.
pub(crate) fn write_text<M: Meshes, K: Sink>(
    session: &Session,
    meshes: &M,
    out: &mut K,
    lots: &[Name],
) -> Result<(), Halt>
    requires ready { IsReady session.now }
    requires distinct { IsDistinct bytes_eq lots.now }
    requires few { length lots.now < 2 ^ 32 }
    ensures ok { OnOk result (Appends (K.held out.old) (K.held out.new) (text_in (M.mesh_of meshes.now) session.now.city session.now.decimals lots.now)) }
    ensures err { OnErr result (AppendsSome (K.held out.old) (K.held out.new) (text_in (M.mesh_of meshes.now) session.now.city session.now.decimals lots.now)) }
    ensures faults { FaultsBy result (K.faults out.old) (K.faults out.new) }
{
    match write(out, b"# cga_city obj\n") {
        Ok(()) => {}
        Err(halt) => return Err(halt),
    }
    match write_lots(session, meshes, out, lots) {
        Ok(()) => Ok(()),
        Err(halt) => Err(halt),
    }
}

/// Writes a refusal. Takes memory.
pub(crate) fn write_refusal<K: Sink>(alloc: Global, out: &mut K, why: &Refused) -> Result<(), Halt>
    requires edit { why.now ≢ refused.Edit cause.NoMemory }
    requires wardrobe { why.now ≢ refused.Wardrobe wardrobe.NoMemory }
    ensures ok { OnOk result (Appends (K.held out.old) (K.held out.new) (refusal_text_of why.now)) }
    ensures err { OnErr result (AppendsSome (K.held out.old) (K.held out.new) (refusal_text_of why.now)) }
    ensures faults { FaultsBy result (K.faults out.old) (K.faults out.new) }
{
    let text = match refusal_text(alloc, why) {
        Ok(text) => text,
        Err(NoMemory) => return Err(Halt::NoMemory),
    };
    write(out, text.as_slice())
}
