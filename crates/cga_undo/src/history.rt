ghost use Rattle.std.specs.Prelude.{◌≡◌, ◌+◌, ◌-◌, ◌<◌, ◌≤◌, ◌++◌, ◌∷◌, [], IfOk, IfSome, IsNone, slice_get, take, vec_capacity, vec_len};
ghost use Rattle.cga_undo.specs.History as spec;

use crate::limits::MOST_KEPT;
use cga_fraction::NoMemory;
use cga_shape::Sources;
use std::alloc::Global;
use std::marker::Model;

/// The sources that edits and undos left, the latest last.
#[derive(Drop)]
pub struct History {
    past: Vec<Sources>,
    future: Vec<Sources>,
}

impl Model for History {
    ghost use Rattle.std.specs.Prelude.{refl, vec_capacity, List};
    ghost use Rattle.std.specs.Coded.{code_by, coded_list, coded×};
    ghost use Rattle.cga_shape.specs.declared.sources.Sources.{Sources};
    ghost use Rattle.cga_shape.specs.contracts.sources.Sources as sources;
    ghost use Rattle.cga_undo.specs.History.{Kept};

    ghost Value = { Kept };

    ghost coded = { code_by (List Sources × List Sources)
        (coded× (coded_list sources.the_row.coded) (coded_list sources.the_row.coded)) (λ k. (k.past, k.future))
        (λ p. record { past = p.0; future = p.1 }) (λ _. refl) };

    ghost use Rattle.cga_undo.specs.Inside.{IsKept};

    ghost view = { λ h. record { past = h.past.items; future = h.future.items } };

    ghost invariant = { λ h. IsKept h.past.items h.future.items (vec_capacity h.past) (vec_capacity h.future) };
}

fn put(list: &mut Vec<Sources>, sources: Sources)
    requires { vec_len list.old < vec_capacity list.old }
    ensures items { list.new.items ≡ list.old.items ++ sources ∷ [] }
    ensures room { vec_capacity list.old ≤ vec_capacity list.new }
{
    match list.push(sources) {
        Ok(()) => {}
        Err(_) => unreachable!(),
    }
}

// Puts them at the end, and drops the first where there would be too many.
fn put_latest(list: &mut Vec<Sources>, sources: Sources)
    requires few { vec_len list.old ≤ MOST_KEPT }
    requires room { MOST_KEPT ≤ vec_capacity list.old }
    ensures items { list.new.items ≡ spec.latest (list.old.items ++ sources ∷ []) }
    ensures few { vec_len list.new ≤ MOST_KEPT }
    ensures room { MOST_KEPT ≤ vec_capacity list.new }
{
    if list.len() == MOST_KEPT {
        list.remove(0);
    }
    put(list, sources);
}

fn take_last(list: &mut Vec<Sources>) -> Option<Sources>
    ensures last { result ≡ slice_get list.old.items (vec_len list.old - 1) }
    ensures rest { list.new.items ≡ take (vec_len list.old - 1) list.old.items }
    ensures len { IfSome result (λ last. vec_len list.new + 1 ≡ vec_len list.old) }
    ensures none { IsNone result → vec_len list.old ≡ 0 }
    ensures room { vec_capacity list.new ≡ vec_capacity list.old }
{
    list.pop()
}

// Takes the last of a list, and puts the current sources at the end of another.
#[tactic(auto, unfolding(crate::specs::History::undone))]
fn step(from: &mut Vec<Sources>, to: &mut Vec<Sources>, now: Sources) -> Result<Sources, Sources>
    requires few { vec_len from.old + vec_len to.old ≤ MOST_KEPT }
    requires room { MOST_KEPT ≤ vec_capacity to.old }
    ensures gives { spec.StepGives (spec.undone (record { past = from.old.items; future = to.old.items }) now)
        (record { past = from.old.items; future = to.old.items }) now
        result (record { past = from.new.items; future = to.new.items }) }
    ensures few { vec_len from.new + vec_len to.new ≤ MOST_KEPT }
    ensures from_room { vec_capacity from.new ≡ vec_capacity from.old }
    ensures to_room { vec_capacity to.old ≤ vec_capacity to.new }
{
    match take_last(from) {
        Some(taken) => {
            put(to, now);
            Ok(taken)
        }
        None => Err(now),
    }
}

impl History {
    /// Keeps nothing yet. Takes memory for all that is ever kept, but for what the sources themselves take.
    pub fn new(alloc: Global) -> Result<History, NoMemory>
        ensures { IfOk result (λ h. h ≡ spec.nothing) }
    {
        let past = Vec::with_capacity(alloc, MOST_KEPT)?;
        let future = Vec::with_capacity(alloc, MOST_KEPT)?;
        Ok(History { past, future })
    }

    /// Keeps the sources before an edit that was accepted. Takes no memory.
    pub fn note(&mut self, before: Sources)
        ensures { self.new ≡ spec.noted self.old before }
    {
        put_latest(&mut self.past, before);
        self.future.clear();
    }

    /// The sources to go back to from the current ones, which are kept for a redo; or the current ones, where there is
    /// no past. Takes no memory.
    pub fn undo(&mut self, now: Sources) -> Result<Sources, Sources>
        ensures { spec.StepGives (spec.undone self.old now) self.old now result self.new }
    {
        step(&mut self.past, &mut self.future, now)
    }

    /// The sources to go on to again, and the same of the future.
    pub fn redo(&mut self, now: Sources) -> Result<Sources, Sources>
        ensures { spec.StepGives (spec.redone self.old now) self.old now result self.new }
    {
        step(&mut self.future, &mut self.past, now)
    }

    /// Takes no memory.
    pub fn past(&self) -> &[Sources]
        ensures value { result.now ≡ self.now.past }
        ensures few { spec.IsFew self.now }
    {
        self.past.as_slice()
    }

    /// Takes no memory.
    pub fn future(&self) -> &[Sources]
        ensures value { result.now ≡ self.now.future }
        ensures few { spec.IsFew self.now }
    {
        self.future.as_slice()
    }
}
