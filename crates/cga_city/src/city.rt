//! The city.
ghost use Rattle.std.specs.Prelude.{◌≡◌, ◌+◌, ◌<◌, ◌≤◌, [], ◌∷◌, IfOk, IfSome, IsOk, OnErr, OnOk, IsFalse, IsTrue, Some, bytes_eq, is_some, length, slice_get, true};
ghost use Rattle.std.specs.List.{IsDistinct};
ghost use Rattle.cga_expand.specs.Run.{IsRun};
ghost use Rattle.cga_obj.specs.Lots.{AreSolid, StandsBy};
ghost use Rattle.cga_city.specs.City.{EditGives, HandsOut, HasDistinctLots, IsWarmed, empty_city};
ghost use Rattle.cga_city.specs.Derived.{derived, members};
ghost use Rattle.cga_city.specs.Hulls.{IsHullOf};
ghost use Rattle.cga_city.specs.Inside.{AreSound};
ghost use Rattle.cga_city.specs.Lots.{lot_place, names_of};
ghost use Rattle.cga_city.specs.Reports as spec;
ghost use Rattle.cga_trace.specs.Text.{AreSteps};

use crate::changed_sources::changed_sources;
use crate::edited::Edited;
use crate::empty::{empty_sources, no_changes, no_shapes};
use crate::lots::lot_place;
use crate::no_lot::NoLot;
use crate::reports::{all_faults, lot_drawn, told};
use crate::within::within_budget;
use cga_expand::Expansions;
use cga_fraction::{List, NoMemory, Tests};
use cga_frame::WorldBox;
use cga_rule::Grammar;
use cga_shape::{Changes, Counts, Drawn, Edit, EditRefused, FaultLine, Lots, Sources, TraceStep};
use cga_trace::trace;
use cga_update::{ChangedLots, Kept, Renewal, UpdateRefused, update};
use cga_word::{Mode, Name};
use std::alloc::Global;
use std::marker::Model;
use std::mem::replace;
use std::sync::ledger::Ledger;

/// Sources, and the forest of the shapes that are derived from them.
#[derive(Drop)]
pub struct City {
    alloc: Global,
    sources: Sources,
    budget: u32,
    kept: Kept,
    changes: Changes,
    expanded: u64,
    warm: bool,
}

impl Model for City {
    ghost use Rattle.std.specs.Prelude.{ℕ, Bool, true, refl};
    ghost use Rattle.std.specs.Coded.{code_by, coded_bool, coded_ℕ, coded×};
    ghost use Rattle.cga_shape.specs.declared.sources.Sources.{Sources};
    ghost use Rattle.cga_shape.specs.contracts.sources.Sources as of_sources;
    ghost use Rattle.cga_shape.specs.declared.changes.Changes.{Changes};
    ghost use Rattle.cga_shape.specs.contracts.changes.Changes as of_changes;
    ghost use Rattle.cga_city.specs.City.{CityState};

    ghost Value = { CityState };

    ghost coded = { code_by (Sources × (ℕ × (Bool × (ℕ × Changes))))
        (coded× of_sources.the_row.coded
        (coded× coded_ℕ (coded× coded_bool (coded× coded_ℕ of_changes.the_row.coded))))
        (λ c. (c.sources, (c.budget, (c.warm, (c.expanded, c.changes)))))
        (λ p. record { sources = p.0; budget = p.1.0; warm = p.1.1.0; expanded = p.1.1.1.0; changes = p.1.1.1.1 }) (λ _. refl) };

    ghost use Rattle.cga_city.specs.Kept.{IsCity};

    ghost view = { λ c. record { sources = c.sources; budget = c.budget; warm = c.warm; expanded = c.expanded; changes = c.changes } };

    ghost invariant = { λ c. IsCity c.sources c.budget c.warm c.kept };
}

impl City {
    /// A city without attributes, rules and lots, which comes to at most so many shapes. Takes no memory.
    pub fn new(alloc: Global, budget: u32) -> City
        ensures { result ≡ empty_city budget }
    {
        City {
            alloc,
            sources: empty_sources(alloc, Mode::Breadth),
            budget,
            kept: no_shapes(alloc, Mode::Breadth),
            changes: no_changes(alloc),
            expanded: 0,
            warm: true,
        }
    }

    /// Does an edit: the sources are the new ones if and only if it answers Ok. Each expansion of a shape ticks
    /// `expansions`, as often as shapes are touched. After want of memory the city may be cold. Takes memory.
    pub fn edit<E: Ledger, T: Ledger>(
        &mut self,
        edit: Edit,
        expansions: &mut Expansions<E>,
        tests: &mut Tests<T>,
    ) -> Result<(), EditRefused>
        requires warm { IsTrue self.old.warm }
        requires lots { HasDistinctLots edit }
        ensures { EditGives self.old edit result self.new expansions.old expansions.new }
    {
        match self.hand_out(edit, expansions, tests) {
            Ok(_former) => Ok(()),
            Err(refused) => Err(refused),
        }
    }

    /// Does an edit as `edit` does, and returns the former sources, to which an undo goes back. Copies none of them.
    pub fn hand_out<E: Ledger, T: Ledger>(
        &mut self,
        edit: Edit,
        expansions: &mut Expansions<E>,
        tests: &mut Tests<T>,
    ) -> Result<Sources, EditRefused>
        requires warm { IsTrue self.old.warm }
        requires lots { HasDistinctLots edit }
        ensures { HandsOut self.old edit result self.new expansions.old expansions.new }
    {
        let Edited { sources, lots } = match changed_sources(self.alloc, &self.sources, edit) {
            Ok(edited) => edited,
            Err(refused) => return Err(refused),
        };
        let renewal = Renewal {
            old: &self.sources,
            new: &sources,
            changed: lots,
            budget: self.budget,
        };
        let mut changes = no_changes(self.alloc);
        match update(
            self.alloc,
            &mut self.kept,
            renewal,
            &mut changes,
            expansions,
            tests,
        ) {
            Ok(count) => {
                self.changes = changes;
                self.expanded = count;
                Ok(replace(&mut self.sources, sources))
            }
            Err(UpdateRefused::OverBudget) => Err(EditRefused::OverBudget),
            Err(UpdateRefused::NoMemory) => {
                self.warm = false;
                Err(EditRefused::NoMemory)
            }
        }
    }

    /// Whether reports may be asked for.
    pub fn is_warm(&self) -> bool
        ensures { result ≡ self.now.warm }
    {
        self.warm
    }

    /// Makes a cold city warm again, by a derivation from no lots: each expansion of a shape ticks `expansions`. What is
    /// told of the last accepted edit stays. Takes memory where the city is cold.
    pub fn rewarm<E: Ledger, T: Ledger>(
        &mut self,
        expansions: &mut Expansions<E>,
        tests: &mut Tests<T>,
    ) -> Result<(), NoMemory>
        ensures ok { OnOk result (self.new ≡ record self.old { warm = true }) }
        ensures err { OnErr result (self.new ≡ self.old) }
        ensures warm { IsTrue self.old.warm → IsOk result }
        ensures unspent { IsTrue self.old.warm → expansions.new ≡ expansions.old }
        ensures spent { IsFalse self.old.warm → OnOk result (IsWarmed self.old expansions.old expansions.new) }
        ensures later { expansions.old ≤ expansions.new }
        ensures bounded { expansions.new ≤ expansions.old + (self.old.budget + 1) }
    {
        if self.warm {
            return Ok(());
        }
        let (alloc, mode) = (self.alloc, self.sources.mode);
        let empty = empty_sources(alloc, mode);
        let renewal = Renewal {
            old: &empty,
            new: &self.sources,
            changed: ChangedLots::All,
            budget: self.budget,
        };
        let mut made = no_changes(alloc);
        drop(replace(&mut self.kept, no_shapes(alloc, mode)));
        let told = update(alloc, &mut self.kept, renewal, &mut made, expansions, tests);
        drop(made);
        drop(empty);
        within_budget(told)?;
        self.warm = true;
        Ok(())
    }

    /// What is drawn, of all lots or of the one that is named, by the order of the lots and in a lot by paths. Takes
    /// memory.
    pub fn instances(&self, lot: Option<Name>) -> Result<Result<List<Drawn>, NoLot>, NoMemory>
        requires { IsTrue self.now.warm }
        ensures value { IfOk result (λ told. told ≡ spec.instances_of self.now.sources.lots lot (members self.now.budget self.now.sources)) }
        ensures order { IfOk result (λ told. IfOk told (λ drawn. IfOk (spec.chosen self.now.sources.lots lot) (λ lots. StandsBy lots drawn))) }
        ensures solid { IfOk result (λ told. IfOk told AreSolid) }
    {
        told(self.alloc, &self.sources.lots, lot, &self.kept.forest)
    }

    /// Whether a lot has the name.
    pub fn has_lot(&self, name: Name) -> bool
        ensures { result ≡ is_some (lot_place name self.now.sources.lots) }
    {
        lot_place(&self.sources.lots, name).is_some()
    }

    /// What is drawn in the lot that is named, by paths; where no lot has the name, nothing. Takes memory, and no walk over
    /// other lots.
    pub fn lot_instances(&self, lot: Name) -> Result<List<Drawn>, NoMemory>
        requires { IsTrue self.now.warm }
        ensures value { IfOk result (λ drawn. drawn ≡ spec.drawn_in (lot ∷ []) (members self.now.budget self.now.sources)) }
        ensures solid { IfOk result AreSolid }
        ensures few { IfOk result (λ drawn. length drawn ≤ self.now.budget) }
    {
        lot_drawn(self.alloc, lot, &self.kept.forest)
    }

    /// The shapes that have no children, and why, in the same order. Takes memory.
    pub fn faults(&self) -> Result<List<FaultLine>, NoMemory>
        requires { IsTrue self.now.warm }
        ensures { IfOk result (λ faults. faults ≡ spec.faults_of self.now.sources.lots (members self.now.budget self.now.sources)) }
    {
        all_faults(self.alloc, &self.sources.lots, &self.kept.forest)
    }

    /// The run of the sources: what the expansion of each shape told, in order. Takes memory.
    pub fn trace(&self) -> Result<List<TraceStep>, NoMemory>
        requires { IsTrue self.now.warm }
        ensures run { IfOk result (IsRun self.now.sources) }
        ensures fields { IfOk result AreSteps }
    {
        trace(self.alloc, &self.kept.forest)
    }

    /// The least box that holds the boxes of all shapes of the lot at this place, drawn or not. Takes no memory.
    pub fn hull(&self, place: usize) -> WorldBox
        requires warm { IsTrue self.now.warm }
        requires place { place < length self.now.sources.lots }
        ensures { IfSome (slice_get self.now.sources.lots place) (λ lot. IsHullOf lot.name (members self.now.budget self.now.sources) result) }
    {
        self.kept.forest.laws(); // for the proof
        let Some(lot) = self.sources.lots.get(place) else {
            unreachable!();
        };
        match self.kept.forest.root_of(lot.name) {
            Some(root) => self.kept.forest.hull(root),
            None => unreachable!(),
        }
    }

    /// How many there are of each, and how many shapes the last accepted edit touched. Takes no memory, and no walk.
    pub fn counts(&self) -> Counts
        requires { IsTrue self.now.warm }
        ensures lots { result.lots ≡ length self.now.sources.lots }
        ensures shapes { result.shapes ≡ length (members self.now.budget self.now.sources) }
        ensures instances { result.instances ≡ spec.instance_count (members self.now.budget self.now.sources) }
        ensures faults { result.faults ≡ spec.fault_count (members self.now.budget self.now.sources) }
        ensures expanded { result.expanded ≡ self.now.expanded }
    {
        let _most = self.budget; // for the proof
        self.kept.forest.laws(); // for the proof
        Counts {
            lots: self.sources.lots.len() as u32,
            shapes: self.kept.forest.count() as u32,
            instances: self.kept.forest.instances() as u32,
            faults: self.kept.forest.faults() as u32,
            expanded: self.expanded,
        }
    }

    /// What the last accepted edit took from the instances, and what it added.
    pub fn changes(&self) -> &Changes
        ensures { result.now ≡ self.now.changes }
    {
        &self.changes
    }

    /// Forgets that record, which is long after a long edit. Frees its memory.
    pub fn forget_changes(&mut self)
        ensures { self.new ≡ record self.old { changes = record { gone = []; come = [] } } }
    {
        self.changes = no_changes(self.alloc);
    }

    pub fn grammar(&self) -> &Grammar
        ensures { result.now ≡ self.now.sources.grammar }
    {
        &self.sources.grammar
    }

    pub fn lots(&self) -> &Lots
        ensures value { result.now ≡ self.now.sources.lots }
        ensures distinct { IsDistinct bytes_eq (names_of result.now) }
    {
        &self.sources.lots
    }

    pub fn sources(&self) -> &Sources
        ensures value { result.now ≡ self.now.sources }
        ensures sound { AreSound result.now }
        ensures within { derived self.now.budget result.now ≡ Some (members self.now.budget result.now) }
    {
        &self.sources
    }

    pub fn mode(&self) -> Mode
        ensures { result ≡ self.now.sources.mode }
    {
        self.sources.mode
    }
}
