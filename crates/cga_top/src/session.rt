ghost use Rattle.std.specs.Prelude.{◌≡◌, IfOk};
ghost use Rattle.cga_top.specs.Changed.{no_changes};
ghost use Rattle.cga_top.specs.State.{State, start};
ghost use Rattle.cga_top.specs.Replies.{ok_reply};
ghost use Rattle.cga_top.specs.Session.{IsAt};
ghost use Rattle.cga_top.specs.Ready.{IsReady};

use crate::decimals::Decimals;
use crate::open_block::OpenBlock;
use cga_asset::Wardrobe;
use cga_bill::Bill;
use cga_city::City;
use cga_city::limits::BUDGET;
use cga_fraction::{List, NoMemory, Text};
use cga_script::Version;
use cga_shape::Changes;
use cga_undo::History;
use std::alloc::Global;

/// What a script has come to.
#[derive(Drop)]
pub struct Session {
    pub(crate) alloc: Global,
    pub(crate) decimals: Decimals,
    /// Only blank lines came.
    pub(crate) fresh: bool,
    pub(crate) version: Version,
    pub(crate) city: City,
    /// Of all that the city draws.
    pub(crate) bill: Bill,
    pub(crate) history: History,
    pub(crate) wardrobe: Wardrobe,
    pub(crate) block: Option<OpenBlock>,
    pub(crate) quiet: bool,
}

impl Session {
    /// What the last line changed where it was an accepted edit, until it is forgotten.
    pub fn changes(&self) -> &Changes
        ensures { result.now ≡ self.now.city.changes }
    {
        self.city.changes()
    }

    /// Forgets what was changed, which is long after a long edit. Frees its memory.
    pub fn forget_changes(&mut self)
        ensures none { self.new.city.changes ≡ no_changes }
        ensures at { (s : State) → IsAt s self.old → IsAt s self.new }
        ensures ready { IsReady self.old → IsReady self.new }
    {
        self.city.forget_changes();
    }
}

/// A session that no line has come to. Takes memory.
pub fn new_session(alloc: Global, decimals: Decimals) -> Result<Session, NoMemory>
    ensures start { IfOk result (IsAt (start decimals)) }
    ensures ready { IfOk result IsReady }
    ensures none { IfOk result (λ session. session.city.changes ≡ no_changes) }
{
    let history = History::new(alloc)?;
    Ok(Session {
        alloc,
        decimals,
        fresh: true,
        version: Version::One,
        city: City::new(alloc, BUDGET),
        bill: Bill::new(alloc),
        history,
        wardrobe: Wardrobe::new(alloc),
        block: None,
        quiet: false,
    })
}

/// Puts a value in a place; what was there is let go. A large value's parts are then let go in one function and not
/// in each that assigns to the place.
pub(crate) fn put<T: Drop>(place: &mut T, value: T)
    ensures { place.new ≡ value }
{
    *place = value;
}

/// The reply to what is accepted. Takes memory.
pub(crate) fn accepted(alloc: Global, quiet: bool) -> Result<List<u8>, NoMemory>
    ensures { IfOk result (λ text. text ≡ ok_reply quiet) }
{
    let mut text = Text::new(alloc);
    if !quiet {
        text.push(b"# ok\n")?;
    }
    Ok(text.into_list())
}
