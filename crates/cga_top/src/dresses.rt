//! Assets, and the symbols that they dress.
ghost use Rattle.std.specs.Prelude.{◌≡◌, IfOk, OnOk, ℕ};
ghost use Rattle.cga_asset.specs.Wardrobe.{dressed};
ghost use Rattle.cga_top.specs.State.{State};
ghost use Rattle.cga_top.specs.Replies.{clothed, given, stripped, WardrobeReplies};
ghost use Rattle.cga_top.specs.Session.{IsAt, Did};
ghost use Rattle.cga_top.specs.Ready.{IsReady};

use crate::session::{Session, accepted};
use cga_asset::{Asset, AssetFault, WardrobeFault};
use cga_fraction::{List, NoMemory};
use cga_script::{Refused, refusal_text};
use cga_word::Name;
use std::alloc::Global;

// The reply to what a wardrobe answers.
fn reply_to(
    alloc: Global,
    quiet: bool,
    done: Result<(), WardrobeFault>,
) -> Result<List<u8>, NoMemory>
    ensures { IfOk result (WardrobeReplies quiet done) }
{
    match done {
        Ok(()) => accepted(alloc, quiet),
        Err(WardrobeFault::NoMemory) => Err(NoMemory),
        Err(fault) => refusal_text(alloc, &Refused::Wardrobe(fault)),
    }
}

/// Has a symbol drawn as an asset.
pub(crate) fn dress(session: &mut Session, symbol: Name, name: Name) -> Result<List<u8>, NoMemory>
    requires { IsReady session.old }
    ensures did { (s : State) (n : ℕ) → IsAt s session.old
        → IfOk result (λ reply. Did (clothed s (dressed s.wardrobe symbol name)) session.old.city.changes session.new reply n n) }
    ensures ready { OnOk result (IsReady session.new) }
{
    let done = session.wardrobe.dress(symbol, name);
    reply_to(session.alloc, session.quiet, done)
}

/// Has a symbol drawn as its solids again.
pub(crate) fn undress(session: &mut Session, symbol: Name) -> Result<List<u8>, NoMemory>
    requires { IsReady session.old }
    ensures did { (s : State) (n : ℕ) → IsAt s session.old
        → IfOk result (λ reply. Did (stripped s symbol) session.old.city.changes session.new reply n n) }
    ensures ready { OnOk result (IsReady session.new) }
{
    if session.wardrobe.undress(symbol) {
        return accepted(session.alloc, session.quiet);
    }
    refusal_text(session.alloc, &Refused::NoDress(symbol))
}

/// Keeps the asset that a block states, or refuses the block by its first faulty line.
pub(crate) fn keep_asset(
    session: &mut Session,
    name: Name,
    made: Result<Asset, AssetFault>,
) -> Result<List<u8>, NoMemory>
    requires { IsReady session.old }
    ensures did { (s : State) (n : ℕ) → IsAt s session.old
        → IfOk result (λ reply. Did (given s name made) session.old.city.changes session.new reply n n) }
    ensures ready { OnOk result (IsReady session.new) }
{
    match made {
        Ok(asset) => {
            let done = session.wardrobe.set(name, asset);
            reply_to(session.alloc, session.quiet, done)
        }
        Err(fault) => refusal_text(session.alloc, &Refused::Asset(fault)),
    }
}
