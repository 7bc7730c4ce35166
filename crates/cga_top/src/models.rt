//! Writes models, lot by lot: what is drawn, with assets in the place of solids.
ghost use Rattle.std.specs.Prelude.{◌≡◌, ◌<◌, ◌^◌, IfOk, OnErr, OnOk, bytes_eq, length};
ghost use Rattle.std.specs.List.{IsDistinct};
ghost use Rattle.std.specs.Io.KnownBytes.{Appends};
ghost use Rattle.cga_asset.specs.Dressed.{dressed_mesh, is_too_large};
ghost use Rattle.cga_top.specs.Faults.{FaultsBy};
ghost use Rattle.cga_top.specs.Prefixes.{AppendsSome};
ghost use Rattle.cga_top.specs.Prints.{in_lots};
ghost use Rattle.cga_top.specs.Ready.{IsReady};
ghost use Rattle.cga_top.specs.Replies.{model_of, modelled};
ghost use Rattle.cga_top.specs.Session.{IsAt};
ghost use Rattle.cga_top.specs.State.{State};

use crate::halt::Halt;
use crate::print_lots::{write_refusal, write_text};
use crate::session::Session;
use cga_asset::{ModelSize, ModelTooLarge};
use cga_fraction::NoMemory;
use cga_outside::Sink;
use cga_script::Refused;
use cga_word::Name;

// Whether the models of lots are too large together.
fn is_large(session: &Session, lots: &[Name]) -> Result<bool, NoMemory>
    requires { IsReady session.now }
    ensures { IfOk result (λ large. large ≡ is_too_large (dressed_mesh session.now.wardrobe) (in_lots session.now.city lots.now)) }
{
    let mut size = ModelSize::zero();
    for lot in lots {
        let drawn = session.city.lot_instances(*lot)?;
        match size.with_drawn(session.alloc, &session.wardrobe, drawn.as_slice())? {
            Ok(more) => size = more,
            Err(ModelTooLarge) => return Ok(true),
        }
    }
    Ok(false)
}

/// Writes the model of lots, or that it is too large. Takes memory for a lot's solids and one mesh, and makes each mesh
/// twice.
pub(crate) fn write_model<K: Sink>(
    session: &Session,
    out: &mut K,
    lots: &[Name],
) -> Result<(), Halt>
    requires ready { IsReady session.now }
    requires distinct { IsDistinct bytes_eq lots.now }
    requires few { length lots.now < 2 ^ 32 }
    ensures ok { (s : State) → IsAt s session.now
        → OnOk result (Appends (K.held out.old) (K.held out.new) (modelled s (model_of s lots.now)).reply) }
    ensures err { (s : State) → IsAt s session.now
        → OnErr result (AppendsSome (K.held out.old) (K.held out.new) (modelled s (model_of s lots.now)).reply) }
    ensures faults { FaultsBy result (K.faults out.old) (K.faults out.new) }
{
    match is_large(session, lots) {
        Ok(true) => write_refusal(session.alloc, out, &Refused::ModelTooLarge),
        Ok(false) => write_text(session, &session.wardrobe, out, lots),
        Err(NoMemory) => Err(Halt::NoMemory),
    }
}
