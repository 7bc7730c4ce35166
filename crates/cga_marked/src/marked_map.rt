ghost use Rattle.std.specs.Prelude.{◌≡◌, ◌<◌, ◌≤◌, ◌+◌, ◌++◌, [], ◌∷◌, length, slice_get, None, Some, OnOk, IfSome, IfNone, if◌then◌else◌};
ghost use Rattle.std.specs.Option.{option_map};
ghost use Rattle.std.specs.List.{swap};
ghost use Rattle.std.specs.List.Sorted.{IsPermutation};
ghost use Rattle.cga_marked.specs.Map.{MapView, HasSpace, KeepsPlaces, AreApart, AreUndoable, IsUndoable, ids, put_back, id_under, undo, undone};

use crate::step::Step;
use cga_fraction::NoMemory;
use cga_word::Name;
use indexmap::IndexMap;
use std::alloc::Global;
use std::marker::Model;

/// Names with ids. Those that went since the mark stand behind those that are there, and the steps
/// since then are noted, so that the way back takes no memory and only as long as these steps.
#[derive(Drop)]
pub struct MarkedMap {
    map: IndexMap<Name, usize>,
    shown: usize,
    steps: Vec<Step>,
}

impl Model for MarkedMap {
    ghost use Rattle.std.specs.Prelude.{length};
    ghost use Rattle.indexmap.specs.IndexMap.{spare};
    ghost use Rattle.cga_marked.specs.Map.{MapView, IsMap, listed, undone};

    ghost Value = { MapView };

    ghost view = { λ r. record {
      list = listed (record { entries = r.map.entries; shown = r.shown });
      former = listed (undone r.steps.items (record { entries = r.map.entries; shown = r.shown }));
      spare = spare r.map;
      noted = length r.steps.items;
      cap = r.steps.cap;
    } };

    ghost invariant = { λ r. IsMap (record { entries = r.map.entries; shown = r.shown }) r.steps.items r.steps.cap };
}

impl MarkedMap {
    pub fn new(alloc: Global) -> MarkedMap
        ensures list { result.list ≡ [] }
        ensures former { result.former ≡ [] }
    {
        MarkedMap {
            map: IndexMap::new(alloc),
            shown: 0,
            steps: Vec::new(alloc),
        }
    }

    pub fn len(&self) -> usize
        ensures { result ≡ length self.now.list }
    {
        self.shown
    }

    pub fn id(&self, place: usize) -> usize
        requires { place < length self.now.list }
        ensures { slice_get (ids self.now.list) place ≡ Some result }
    {
        self.map[place]
    }

    /// The place of a name, and its id.
    pub fn place_and_id(&self, name: Name) -> Option<(usize, usize)>
        ensures id { option_map (λ p. p.1) result ≡ id_under self.now.list name }
        ensures place { IfSome result (λ p. slice_get self.now.list p.0 ≡ Some (name, p.1)) }
    {
        let _entries = self.map.len(); // for the proof
        match self.map.get_full(&name) {
            Some((place, _, id)) => {
                if place < self.shown {
                    Some((place, *id))
                } else {
                    None
                }
            }
            None => None,
        }
    }

    pub fn find(&self, name: Name) -> Option<usize>
        ensures { result ≡ id_under self.now.list name }
    {
        let (_, id) = self.place_and_id(name)?;
        Some(id)
    }

    /// Makes room for one more name.
    pub fn reserve(&mut self) -> Result<(), NoMemory>
        ensures list { self.new.list ≡ self.old.list }
        ensures former { self.new.former ≡ self.old.former }
        ensures space { OnOk result (HasSpace self.new) }
    {
        self.map.reserve(1)?;
        self.steps.reserve(self.shown + 2)?;
        Ok(())
    }

    /// Adds a name, and answers its place. What stood there stands behind all others then, so that a name that goes and
    /// comes again stands where it stood, and so do all others.
    pub fn push(&mut self, name: Name, id: usize) -> usize
        requires space { HasSpace self.old }
        requires absent { id_under self.old.list name ≡ None }
        ensures place { result ≤ length self.old.list }
        ensures list { self.new.list ≡ swap (self.old.list ++ (name, id) ∷ []) result (length self.old.list) }
        ensures former { self.new.former ≡ self.old.former }
        ensures apart { AreApart self.new.list }
    {
        let _entries = self.map.len(); // for the proof
        let gap = gap_of(self.steps.as_slice(), self.shown);
        let (place, former) = self.map.insert_full(name, id).unwrap();
        self.map.swap_indices(self.shown, place);
        self.map.swap_indices(gap, self.shown);
        self.shown += 1;
        self.steps
            .push_reserved(Step::Created { place, former, gap });
        gap
    }

    /// Takes a name out, and answers the place where it stood, to which the last one comes, and its id.
    pub fn take_out(&mut self, name: Name) -> Option<(usize, usize)>
        ensures id { option_map (λ p. p.1) result ≡ id_under self.old.list name }
        ensures gone { IfSome result (λ p. IsPermutation self.old.list ((name, p.1) ∷ self.new.list)) }
        ensures kept { IfSome result (λ p. KeepsPlaces p.0 self.old.list self.new.list) }
        ensures same { IfNone result (self.new ≡ self.old) }
        ensures former { self.new.former ≡ self.old.former }
        ensures apart { AreApart self.new.list }
    {
        let _entries = self.map.len(); // for the proof
        match self.place_and_id(name) {
            Some((place, id)) => {
                self.shown -= 1;
                self.map.swap_indices(place, self.shown);
                self.steps.push_reserved(Step::Removed { place });
                Some((place, id))
            }
            None => None,
        }
    }

    /// Drops those that went, and the way back.
    pub fn settle(&mut self)
        ensures list { self.new.list ≡ self.old.list }
        ensures former { self.new.former ≡ self.old.list }
    {
        self.map.truncate(self.shown);
        self.steps.clear();
    }

    /// Settles if no mark stands.
    pub fn settle_unless(&mut self, marking: bool)
        ensures list { self.new.list ≡ self.old.list }
        ensures former { self.new.former ≡ (if marking then self.old.former else self.old.list) }
    {
        if !marking {
            self.settle();
        }
    }

    /// Goes back to the mark.
    pub fn roll_back(&mut self)
        ensures list { self.new.list ≡ self.old.former }
        ensures former { self.new.former ≡ self.old.former }
        ensures apart { AreApart self.new.list }
    {
        self.shown = take_back_all(&mut self.map, self.shown, &mut self.steps);
        let _entries = self.map.len(); // for the proof
    }
}

/// Where the name stood that went last, if none came since, and else behind them all.
fn gap_of(steps: &[Step], end: usize) -> usize
    ensures { result ≤ end }
{
    match steps.last() {
        Some(Step::Removed { place }) => { if *place < end { *place } else { end } }
        _ => end,
    }
}

/// Takes a step back. Answers how many names are there then.
fn take_back(map: &mut IndexMap<Name, usize>, shown: usize, step: Step) -> usize
    requires { IsUndoable step (record { entries = map.old.entries; shown = shown }) }
    ensures { undo step (record { entries = map.old.entries; shown = shown }) ≡ record { entries = map.new.entries; shown = result } }
{
    let _entries = map.len(); // for the proof
    match step {
        Step::Created { place, former, gap } => {
            map.swap_indices(gap, shown - 1);
            map.swap_indices(shown - 1, place);
            put_back(map, place, former);
            shown - 1
        }
        Step::Removed { place } => {
            map.swap_indices(place, shown);
            shown + 1
        }
    }
}

/// Puts a name's former id back, or drops its entry, which is the last one.
fn put_back(map: &mut IndexMap<Name, usize>, place: usize, former: Option<usize>)
    requires { place < length map.old.entries }
    ensures { map.new.entries ≡ put_back former place map.old.entries }
{
    match former {
        Some(id) => {
            map[place] = id;
        }
        None => {
            map.pop();
        }
    }
}

/// Takes the last step back. Answers how many names are there then.
fn take_last_back(map: &mut IndexMap<Name, usize>, shown: usize, steps: &mut Vec<Step>) -> usize
    requires some { 0 < length steps.old.items }
    requires ready { AreUndoable steps.old.items (record { entries = map.old.entries; shown = shown }) }
    ensures shelf { undone steps.new.items (record { entries = map.new.entries; shown = result }) ≡ undone steps.old.items (record { entries = map.old.entries; shown = shown }) }
    ensures ready { AreUndoable steps.new.items (record { entries = map.new.entries; shown = result }) }
    ensures fewer { length steps.new.items + 1 ≡ length steps.old.items }
    ensures cap { steps.new.cap ≡ steps.old.cap }
{
    match steps.pop() {
        Some(step) => take_back(map, shown, step),
        None => shown,
    }
}

/// Takes all steps back, the last one first. Answers how many names are there then.
fn take_back_all(map: &mut IndexMap<Name, usize>, shown: usize, steps: &mut Vec<Step>) -> usize
    requires { AreUndoable steps.old.items (record { entries = map.old.entries; shown = shown }) }
    ensures shelf { undone steps.old.items (record { entries = map.old.entries; shown = shown }) ≡ record { entries = map.new.entries; shown = result } }
    ensures steps { steps.new.items ≡ [] }
    ensures cap { steps.new.cap ≡ steps.old.cap }
{
    let mut shown = shown;
    for _ in 0..steps.len() {
        shown = take_last_back(map, shown, steps);
    }
    shown
}
