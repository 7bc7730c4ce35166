ghost use Rattle.std.specs.Prelude.{◌≡◌, ◌+◌, ◌<◌, ◌≤◌, ℕ, ◌++◌, ◌∷◌, [], ◌↔◌, IsTrue, OnOk, IfOk, length, vec_len, suc};
ghost use Rattle.cga_derivation.specs.Derivation.{reached, NothingWaits};
ghost use Rattle.cga_derivation.specs.Sites.{sited};
ghost use Rattle.cga_shape.specs.declared.sources.Sources.{Sources};
ghost use Rattle.cga_expand.specs.Children.{placed_at, placed_from};
ghost use Rattle.cga_expand.specs.Derivation.{derivation_of, NamesDiffer, priority_of};
ghost use Rattle.cga_expand.specs.Validity.{RootsExist};
ghost use Rattle.cga_expand.specs.declared.limits.TheConstants.{MOST_CHILDREN};
ghost use Rattle.cga_derive.specs.Streaks.{IsBoxed};
ghost use Rattle.cga_derive.specs.Run.{AddsKey, IsAfter, IsInTurnOf, KeepsKeys, sited_children};
ghost use Rattle.cga_derive.specs.Underway.{IsNext, IsStepAfter, IsUnderway, turned};

use crate::answers::asked;
use crate::members::{member_of, waiting_symbol};
use crate::streak::{Streak, next_streak};
use cga_check::Symbols;
use cga_expand::{Expansions, expand};
use cga_fraction::{List, NoMemory};
use cga_order::{StampKey, child_key, child_path, root_key};
use cga_shape::{Answers, Emitted, Kind, Outcome, Placed, Sources, TraceStep, root_shape};
use cga_word::Name;
use std::alloc::Global;
use std::collections::BTreeMap;
use std::sync::ledger::Ledger;

/// A derivation under way: the list so far with the streak that ends with each member, and the
/// place in it of each waiting member, by stamp.
#[derive(Drop)]
pub struct Run<'a> {
    pub list: Vec<Placed>,
    pub streaks: Vec<Streak>,
    pub waiting: BTreeMap<StampKey, usize>,
    pub symbols: Symbols<'a>,
}

impl<'a> Run<'a> {
    /// The key of child `index` of the shape of a key, for the place behind the list.
    fn wait(
        &mut self,
        alloc: Global,
        parent: &StampKey,
        index: u16,
        symbol: Name,
    ) -> Result<(), NoMemory>
        ensures key { OnOk result (AddsKey parent.now index (priority_of self.old.symbols symbol)
            (length self.old.list.items) self.old.waiting.entries self.new.waiting.entries) }
        ensures list { self.new.list ≡ self.old.list }
        ensures streaks { self.new.streaks ≡ self.old.streaks }
        ensures symbols { self.new.symbols ≡ self.old.symbols }
    {
        let found = self.symbols.of(symbol)?;
        let key = child_key(alloc, parent, index, found.priority)?;
        let place = self.list.len();
        self.waiting.insert(key, place)?;
        Ok(())
    }

    /// One emitted child is placed behind the list.
    fn place(
        &mut self,
        alloc: Global,
        parent: &StampKey,
        own: Name,
        index: u16,
        emitted: Emitted,
    ) -> Result<(), NoMemory>
        requires boxed { IsBoxed self.old.list.items self.old.streaks.items }
        ensures list { OnOk result (self.new.list.items ≡ self.old.list.items
            ++ placed_at parent.now.lot parent.now.path own index emitted ∷ []) }
        ensures keys { OnOk result ((sources : Sources) → self.old.symbols ≡ sources.grammar
            → KeepsKeys sources parent.now
            (sited parent.now.priorities (placed_at parent.now.lot parent.now.path own index emitted) ∷ [])
            self.old.list.items self.old.waiting.entries self.new.waiting.entries) }
        ensures symbols { self.new.symbols ≡ self.old.symbols }
        ensures boxed { OnOk result (IsBoxed self.new.list.items self.new.streaks.items) }
    {
        let path = child_path(alloc, &parent.path, index)?;
        if let Some(symbol) = waiting_symbol(&emitted) {
            self.wait(alloc, parent, index, symbol)?;
        }
        let member = member_of(alloc, parent, path, own, index, emitted);
        let streak = next_streak(self.streaks.as_slice(), member.shape.scope.world_box());
        self.list.push(member)?;
        self.streaks.push(streak)?;
        Ok(())
    }

    /// The emitted children of the shape of a key are placed behind the list.
    fn place_all(
        &mut self,
        alloc: Global,
        parent: &StampKey,
        own: Name,
        emitted: List<Emitted>,
    ) -> Result<(), NoMemory>
        requires few { length emitted ≤ MOST_CHILDREN }
        requires boxed { IsBoxed self.old.list.items self.old.streaks.items }
        ensures list { OnOk result (self.new.list.items ≡ self.old.list.items
            ++ placed_from parent.now.lot parent.now.path own 0 emitted) }
        ensures keys { OnOk result ((sources : Sources) → self.old.symbols ≡ sources.grammar
            → KeepsKeys sources parent.now
            (sited_children parent.now own 0 emitted)
            self.old.list.items self.old.waiting.entries self.new.waiting.entries) }
        ensures symbols { self.new.symbols ≡ self.old.symbols }
        ensures boxed { OnOk result (IsBoxed self.new.list.items self.new.streaks.items) }
    {
        let mut index: u16 = 0;
        for child in emitted.into_vec() {
            self.place(alloc, parent, own, index, child)?;
            index += 1;
        }
        Ok(())
    }

    /// The shape of the least key, which was taken off, is expanded.
    fn turn<E: Ledger>(
        &mut self,
        alloc: Global,
        sources: &Sources,
        key: StampKey,
        place: usize,
        expansions: &mut Expansions<E>,
    ) -> Result<TraceStep, NoMemory>
        requires names { NamesDiffer sources.now.lots }
        requires within { place < vec_len self.old.list }
        requires symbols { self.old.symbols ≡ sources.now.grammar }
        requires boxed { IsBoxed self.old.list.items self.old.streaks.items }
        ensures turn { OnOk result ((n : ℕ)
            → IsInTurnOf sources.now n key place self.old.list.items self.old.waiting.entries
            → IsAfter sources.now (suc n) self.new.list.items self.new.waiting.entries) }
        ensures told { IfOk result (λ step. (n : ℕ)
            → IsInTurnOf sources.now n key place self.old.list.items self.old.waiting.entries
            → IsStepAfter sources.now n step) }
        ensures symbols { self.new.symbols ≡ self.old.symbols }
        ensures boxed { OnOk result (IsBoxed self.new.list.items self.new.streaks.items) }
        ensures ticks { OnOk result (expansions.new ≡ expansions.old + 1) }
        ensures counted { expansions.old ≤ expansions.new }
        ensures most { expansions.new ≤ expansions.old + 1 }
    {
        let own = self.list[place].shape.symbol;
        let said = self.symbols.of(own)?;
        let shape = &self.list[place].shape;
        let answers = asked(said, self.list.as_slice(), self.streaks.as_slice(), shape);
        match expand(alloc, &sources.grammar, shape, &answers, expansions)? {
            Ok(emitted) => {
                let grown = Outcome::Grew(emitted.len() as u16);
                self.list[place].kind = Kind::Done;
                self.place_all(alloc, &key, own, emitted)?;
                Ok(told(key, own, answers, grown))
            }
            Err(fault) => {
                self.list[place].kind = Kind::Faulted(fault);
                Ok(told(key, own, answers, Outcome::Faulted(fault)))
            }
        }
    }

    /// The waiting shape of least rank is expanded, and what that told is answered; None where nothing
    /// waits. Takes memory.
    pub fn next<E: Ledger>(
        &mut self,
        alloc: Global,
        sources: &Sources,
        expansions: &mut Expansions<E>,
    ) -> Result<Option<TraceStep>, NoMemory>
        requires names { NamesDiffer sources.now.lots }
        requires underway { (n : ℕ) × IsUnderway sources.now n self.old }
        ensures step { IfOk result (λ step. (n : ℕ) → IsUnderway sources.now n self.old
            → IsNext sources.now n step) }
        ensures underway { IfOk result (λ step. (n : ℕ) → IsUnderway sources.now n self.old
            → IsUnderway sources.now (turned n step) self.new) }
        ensures ticks { IfOk result (λ step. expansions.new ≡ turned expansions.old step) }
        ensures counted { expansions.old ≤ expansions.new }
        ensures most { expansions.new ≤ expansions.old + 1 }
    {
        let Some((key, place)) = self.waiting.pop_first() else {
            return Ok(None);
        };
        let step = self.turn(alloc, sources, key, place, expansions)?;
        Ok(Some(step))
    }

    /// Whether nothing waits. Takes no memory.
    pub fn is_over(&self) -> bool
        ensures { (sources : Sources) (n : ℕ) → IsUnderway sources n self.now
            → (IsTrue result ↔ NothingWaits (derivation_of sources) (reached (derivation_of sources) n)) }
    {
        self.waiting.is_empty()
    }

    /// The roots, all waiting.
    pub fn start(alloc: Global, sources: &'a Sources) -> Result<Run<'a>, NoMemory>
        requires names { NamesDiffer sources.now.lots }
        requires roots { RootsExist sources.now.lots }
        ensures { IfOk result (λ run. IsUnderway sources.now 0 run) }
    {
        let mut list = Vec::new(alloc);
        let mut streaks = Vec::new(alloc);
        let mut waiting = BTreeMap::new(alloc);
        let mut symbols = Symbols::new(alloc, &sources.grammar);
        let lots = sources.lots.to_vec(alloc)?;
        for lot in lots.as_slice() {
            let found = symbols.of(lot.symbol)?;
            let key = root_key(alloc, sources.mode, lot.name, found.priority)?;
            let place = list.len();
            waiting.insert(key, place)?;
            let shape = root_shape(alloc, lot);
            let streak = next_streak(streaks.as_slice(), shape.scope.world_box());
            list.push(Placed {
                shape,
                kind: Kind::Waiting,
            })?;
            streaks.push(streak)?;
        }
        Ok(Run {
            list,
            streaks,
            waiting,
            symbols,
        })
    }

    pub fn into_list(self) -> List<Placed>
        ensures { result ≡ self.entry.list.items }
    {
        let Run {
            list,
            streaks: _,
            waiting: _,
            symbols: _,
        } = self;
        List::from_vec(list)
    }
}

/// What the expansion of the shape of a key told, whose symbol is `own`.
fn told(key: StampKey, own: Name, answers: Answers, outcome: Outcome) -> TraceStep
    ensures { result ≡ record { lot = key.lot; path = key.path; symbol = own; answers = answers; outcome = outcome } }
{
    let StampKey {
        mode: _,
        lot,
        path,
        priorities: _,
        head: _,
    } = key;
    TraceStep {
        lot,
        path,
        symbol: own,
        answers,
        outcome,
    }
}
