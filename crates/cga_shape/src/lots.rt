ghost use Rattle.std.specs.Prelude.{◌≡◌, ℕ, ◌<◌, ◌≤◌, ◌++◌, ◌∷◌, [], length, remove, slice_get, slice_index, slice_set, IfNone, IfOk, IfSome, IsTrue, OnOk, ◌↔◌};
ghost use Rattle.std.specs.Option.{option_copied};
ghost use Rattle.cga_shape.specs.Runs.{IsSpot, joined};

use crate::lot::Lot;
use cga_fraction::{NoMemory, Shared};
use std::alloc::Global;
use std::marker::Model;

/// The most lots of a run that was filled from behind.
const MOST_OF_RUN: usize = 64;

/// A list of lots that several owners hold at once and that nobody changes. Contracts see it as the list. The lots are
/// kept in runs of up to 64, and a list with one lot changed shares all runs but one. An empty one takes no memory.
#[derive(Drop)]
pub struct Lots {
    runs: Shared<Shared<Lot>>,
    len: usize,
}

impl Model for Lots {
    ghost use Rattle.std.specs.Prelude.{◌≡◌, List, length};
    ghost use Rattle.cga_shape.specs.declared.lot.Lot.{Lot};
    ghost use Rattle.cga_shape.specs.Runs.{joined};

    ghost Value = { List Lot };

    ghost view = { λ l. joined l.runs };

    ghost invariant = { λ l. l.len ≡ length (joined l.runs) };
}

/// The run in which a place is, and the place there. Takes the time of the runs before.
fn spot(runs: &[Shared<Lot>], place: usize) -> Option<(usize, usize)>
    ensures found { IfSome result (λ at. IsSpot runs.now place at.0 at.1) }
    ensures past { IfNone result (length (joined runs.now) ≤ place) }
{
    let mut index = 0;
    let mut rest = place;
    while index < runs.len() {
        let len = runs[index].len();
        if rest < len {
            return Some((index, rest));
        }
        rest -= len;
        index += 1;
    }
    None
}

fn lot_of(run: &Shared<Lot>, place: usize) -> Option<&Lot>
    ensures { option_copied result ≡ slice_get run.now place }
{
    run.as_slice().get(place)
}

/// The runs, shared: no lot is copied. Takes memory.
fn shared(alloc: Global, runs: &[Shared<Lot>]) -> Result<Vec<Shared<Lot>>, NoMemory>
    ensures { IfOk result (λ same. same.items ≡ runs.now) }
{
    let mut same = Vec::with_capacity(alloc, runs.len())?;
    for run in runs {
        same.push(run.share()?)?;
    }
    Ok(same)
}

/// A run with another lot at a place. Takes memory.
fn run_with(
    alloc: Global,
    run: &Shared<Lot>,
    place: usize,
    lot: Lot,
) -> Result<Shared<Lot>, NoMemory>
    requires { place < length run.now }
    ensures { IfOk result (λ new. new ≡ slice_set run.now place lot) }
{
    let mut lots = Vec::from_slice(alloc, run.as_slice())?;
    lots[place] = lot;
    Shared::from_vec(alloc, lots)
}

/// A run without the lot at a place. Takes memory.
fn run_without(alloc: Global, run: &Shared<Lot>, place: usize) -> Result<Shared<Lot>, NoMemory>
    requires { place < length run.now }
    ensures { IfOk result (λ new. new ≡ remove run.now place) }
{
    let mut lots = Vec::from_slice(alloc, run.as_slice())?;
    lots.remove(place);
    Shared::from_vec(alloc, lots)
}

/// A run with one more lot at its end. Takes memory.
fn run_and(alloc: Global, run: &Shared<Lot>, lot: Lot) -> Result<Shared<Lot>, NoMemory>
    ensures { IfOk result (λ new. new ≡ run.now ++ lot ∷ []) }
{
    let mut lots = Vec::with_capacity(alloc, MOST_OF_RUN)?;
    lots.extend_from_slice(run.as_slice())?;
    lots.push(lot)?;
    Shared::from_vec(alloc, lots)
}

/// Puts a run in the place of another. One of no lots isn't kept.
fn replace(runs: &mut Vec<Shared<Lot>>, at: usize, run: Shared<Lot>)
    requires { at < length runs.old.items }
    ensures { joined runs.new.items ≡ joined (slice_set runs.old.items at run) }
{
    if run.is_empty() {
        runs.remove(at);
    } else {
        runs[at] = run;
    }
}

/// The last run, which is taken off, where it has room for one more, and else a run of no lots. Takes memory.
fn begun(runs: &mut Vec<Shared<Lot>>) -> Result<Shared<Lot>, NoMemory>
    ensures { IfOk result (λ run. joined runs.old.items ≡ joined runs.new.items ++ run) }
{
    match runs.pop() {
        Some(last) => {
            if last.len() < MOST_OF_RUN {
                return Ok(last);
            }
            runs.push(last)?;
            Ok(Shared::new())
        }
        None => Ok(Shared::new()),
    }
}

/// Lots cut into runs. Takes memory.
fn cut(alloc: Global, lots: &[Lot]) -> Result<Vec<Shared<Lot>>, NoMemory>
    ensures { IfOk result (λ runs. joined runs.items ≡ lots.now) }
{
    let mut runs = Vec::new(alloc);
    let mut done = 0;
    while done < lots.len() {
        let end = done + MOST_OF_RUN.min(lots.len() - done);
        let run = Vec::from_slice(alloc, &lots[done..end])?;
        runs.push(Shared::from_vec(alloc, run)?)?;
        done = end;
    }
    Ok(runs)
}

impl Lots {
    /// Takes no memory.
    pub fn new() -> Lots
        ensures { result ≡ [] }
    {
        Lots {
            runs: Shared::new(),
            len: 0,
        }
    }

    /// Takes memory.
    pub fn from_vec(alloc: Global, lots: Vec<Lot>) -> Result<Lots, NoMemory>
        ensures { IfOk result (λ shared. shared ≡ lots.items) }
    {
        let runs = cut(alloc, lots.as_slice())?;
        Ok(Lots {
            runs: Shared::from_vec(alloc, runs)?,
            len: lots.len(),
        })
    }

    /// The list, shared: no lot is copied. In constant time. Takes no memory: NoMemory comes if its owners can't be
    /// counted any more.
    pub fn share(&self) -> Result<Lots, NoMemory>
        ensures { IfOk result (λ shared. shared ≡ self.now) }
    {
        Ok(Lots {
            runs: self.runs.share()?,
            len: self.len,
        })
    }

    /// Takes constant time.
    pub fn len(&self) -> usize
        ensures { result ≡ length self.now }
    {
        self.len
    }

    /// The lots in runs, one after the other, for walks over all.
    pub fn runs(&self) -> &[Shared<Lot>]
        ensures { joined result.now ≡ self.now }
    {
        self.runs.as_slice()
    }

    /// The lot at a place, where there is one. Takes the time of the runs before it.
    pub fn get(&self, place: usize) -> Option<&Lot>
        ensures { option_copied result ≡ slice_get self.now place }
    {
        let runs = self.runs();
        match spot(runs, place) {
            Some((run, place)) => lot_of(&runs[run], place),
            None => None,
        }
    }

    /// The lots in one piece. Takes memory for all.
    pub fn to_vec(&self, alloc: Global) -> Result<Vec<Lot>, NoMemory>
        ensures { IfOk result (λ lots. lots.items ≡ self.now) }
    {
        let mut lots = Vec::with_capacity(alloc, self.len)?;
        for run in self.runs() {
            lots.extend_from_slice(run.as_slice())?;
        }
        Ok(lots)
    }

    /// The list with another lot at a place. Takes memory for one run, and for a pointer to each.
    pub fn with(&self, alloc: Global, place: usize, lot: Lot) -> Result<Lots, NoMemory>
        requires { place < length self.now }
        ensures { IfOk result (λ new. new ≡ slice_set self.now place lot) }
    {
        let kept = self.runs();
        let mut runs = shared(alloc, kept)?;
        let Some((run, place)) = spot(kept, place) else {
            unreachable!();
        };
        let changed = run_with(alloc, &runs[run], place, lot)?;
        replace(&mut runs, run, changed);
        Ok(Lots {
            runs: Shared::from_vec(alloc, runs)?,
            len: self.len,
        })
    }

    /// The list with one more lot, behind all others. Takes memory for one run, and for a pointer to each.
    pub fn with_last(&self, alloc: Global, lot: Lot) -> Result<Lots, NoMemory>
        ensures { IfOk result (λ new. new ≡ self.now ++ lot ∷ []) }
    {
        let Some(len) = self.len.checked_add(1) else {
            return Err(NoMemory);
        };
        let mut runs = shared(alloc, self.runs())?;
        let last = begun(&mut runs)?;
        runs.push(run_and(alloc, &last, lot)?)?;
        Ok(Lots {
            runs: Shared::from_vec(alloc, runs)?,
            len,
        })
    }

    /// The list without the lot at a place. Takes memory for one run, and for a pointer to each.
    pub fn without(&self, alloc: Global, place: usize) -> Result<Lots, NoMemory>
        requires { place < length self.now }
        ensures { IfOk result (λ new. new ≡ remove self.now place) }
    {
        let kept = self.runs();
        let mut runs = shared(alloc, kept)?;
        let Some((run, place)) = spot(kept, place) else {
            unreachable!();
        };
        let rest = run_without(alloc, &runs[run], place)?;
        replace(&mut runs, run, rest);
        Ok(Lots {
            runs: Shared::from_vec(alloc, runs)?,
            len: self.len - 1,
        })
    }
}
