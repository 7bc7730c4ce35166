ghost use Rattle.std.specs.Prelude.{◌≢◌, ◌≡◌, ℕ, true, not, option_map, option_and_then};
ghost use Rattle.slab.specs.Slab.{get};
ghost use Rattle.cga_marked.specs.Marked.{KeepsBooks};
ghost use Rattle.cga_marked.specs.Slab.{Listed, OnlyTouched, Relates, passes};

use crate::change::Change;
use crate::counted_slab::CountedSlab;
use crate::marked::Marked;
use slab::Slab;

/// Marks an entry as touched. True where it wasn't.
pub fn touch_entry<E: Marked>(entries: &mut Slab<E>, id: usize) -> bool
    ensures here { get entries.new id ≡ option_map E.touching (get entries.old id) }
    ensures others { (c : ℕ) → c ≢ id → get entries.new c ≡ get entries.old c }
    ensures fresh { result ≡ passes (λ e. not (E.touched e)) (get entries.old id) }
    ensures capacity { entries.new.capacity ≡ entries.old.capacity }
{
    match entries.get_mut(id) {
        Some(entry) => entry.touch(),
        None => false,
    }
}

/// Sets an entry aside. True where it wasn't.
pub fn hide_entry<E: Marked>(entries: &mut Slab<E>, id: usize) -> bool
    ensures here { get entries.new id ≡ option_map E.hiding (get entries.old id) }
    ensures others { (c : ℕ) → c ≢ id → get entries.new c ≡ get entries.old c }
    ensures fresh { result ≡ passes (λ e. not (E.aside e)) (get entries.old id) }
    ensures capacity { entries.new.capacity ≡ entries.old.capacity }
{
    match entries.get_mut(id) {
        Some(entry) => entry.set_aside(),
        None => false,
    }
}

/// Changes an entry, which is touched where a mark stands.
pub fn change_entry<E: Marked, C: Change<E>>(
    entries: &mut Slab<E>,
    id: usize,
    marking: bool,
    change: C,
)
    requires touched { marking ≡ true → OnlyTouched E.touched (get entries.old id) }
    ensures here { Relates (C.changes marking change) (get entries.old id) (get entries.new id) }
    ensures others { (c : ℕ) → c ≢ id → get entries.new c ≡ get entries.old c }
    ensures books { Relates (KeepsBooks E.touched E.aside E.plain) (get entries.old id) (get entries.new id) }
    ensures capacity { entries.new.capacity ≡ entries.old.capacity }
{
    if let Some(entry) = entries.get_mut(id) {
        change.apply(marking, entry);
    }
}

/// Drops what an entry keeps for the mark, or the entry if it is set aside.
pub fn settle_entry<E: Marked>(entries: &mut Slab<E>, id: usize)
    ensures here { get entries.new id ≡ option_and_then E.settled (get entries.old id) }
    ensures others { (c : ℕ) → c ≢ id → get entries.new c ≡ get entries.old c }
    ensures capacity { entries.new.capacity ≡ entries.old.capacity }
{
    let stays = match entries.get_mut(id) {
        Some(entry) => entry.settle(),
        None => true,
    };
    if !stays {
        entries.try_remove(id);
    }
}

/// Puts an entry back as it was at the mark, or drops it if it came since.
pub fn roll_back_entry<E: Marked>(entries: &mut Slab<E>, id: usize)
    ensures here { get entries.new id ≡ option_and_then E.rolled (get entries.old id) }
    ensures others { (c : ℕ) → c ≢ id → get entries.new c ≡ get entries.old c }
    ensures capacity { entries.new.capacity ≡ entries.old.capacity }
{
    let stays = match entries.get_mut(id) {
        Some(entry) => entry.roll_back(),
        None => true,
    };
    if !stays {
        entries.try_remove(id);
    }
}

/// Settles the entries on a list, which has all that are touched.
pub fn settle_listed<E: Marked>(entries: &mut CountedSlab<E>, list: &[usize])
    requires listed { Listed E.touched E.plain entries.old.slots list.now }
    ensures each { (c : ℕ) → get entries.new c ≡ option_and_then E.settled (get entries.old c) }
    ensures capacity { entries.new.capacity ≡ entries.old.capacity }
{
    for id in list {
        entries.settle(*id);
    }
}

/// Puts the entries on such a list back as they were at the mark.
pub fn roll_back_listed<E: Marked>(entries: &mut CountedSlab<E>, list: &[usize])
    requires listed { Listed E.touched E.plain entries.old.slots list.now }
    ensures each { (c : ℕ) → get entries.new c ≡ option_and_then E.rolled (get entries.old c) }
    ensures capacity { entries.new.capacity ≡ entries.old.capacity }
{
    for id in list {
        entries.roll_back(*id);
    }
}

/// Gives room back if a quarter of it is empty, and if no fewer entries were looked at than there are: a walk over all of it then
/// costs no more than the edit did. An edit that makes each entry again gives the new ones other numbers. Once a later edit
/// removes these in their turn, the room behind the old numbers is empty.
pub fn give_back<E: Marked>(entries: &mut CountedSlab<E>, looked_at: usize)
    ensures { (c : ℕ) → get entries.new c ≡ get entries.old c }
{
    let count = entries.len();
    let room = entries.capacity();
    if count <= looked_at && count <= room - room / 4 {
        entries.shrink();
    }
}
