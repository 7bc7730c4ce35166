//! Sources as edits change them.
ghost use Rattle.cga_city.specs.Apply.{ruled, with_accepted, with_checked, with_grammar};
ghost use Rattle.cga_city.specs.City.{ChangeGives, Changes};
ghost use Rattle.cga_city.specs.Lots.{lot_place};
ghost use Rattle.std.specs.Prelude.{◌≡◌};

use crate::grammars::{
    attribute_place, checked, has_rule, is_plain, put_rule, ranked, reprioritized, rule_place,
};
use crate::limits::MOST_LOTS;
use crate::lots::{accepted, finds_no_room, is_bad, put_lot, rooted};
use cga_fraction::{Fraction, List, Shared};
use cga_rule::{Attribute, Entry, Grammar, Rule};
use cga_shape::{Edit, EditRefused, Lot, Sources};
use cga_word::{Mode, Name};
use std::alloc::Global;

// The sources with another grammar, which was checked.
fn with_grammar(alloc: Global, sources: &Sources, grammar: Grammar) -> Result<Sources, EditRefused>
    ensures { Changes (with_grammar sources.now grammar) result }
{
    rooted(&grammar, &sources.lots)?;
    Ok(Sources {
        grammar,
        lots: sources.lots.share()?,
        mode: sources.mode,
    })
}

// The sources with another grammar.
fn with_checked(alloc: Global, sources: &Sources, grammar: Grammar) -> Result<Sources, EditRefused>
    ensures { Changes (with_checked sources.now grammar) result }
{
    checked(&grammar)?;
    with_grammar(alloc, sources, grammar)
}

// The sources with other rules.
fn ruled(alloc: Global, sources: &Sources, rules: Vec<Entry>) -> Result<Sources, EditRefused>
    ensures { Changes (ruled sources.now rules.items) result }
{
    let rules = Shared::from_vec(alloc, rules)?;
    let Grammar { attributes, .. } = sources.grammar.copy(alloc)?;
    with_checked(alloc, sources, Grammar { attributes, rules })
}

pub(crate) fn rules(
    alloc: Global,
    sources: &Sources,
    given: Grammar,
) -> Result<Sources, EditRefused>
    ensures { ChangeGives sources.now (Edit.Rules given) result }
{
    checked(&given)?;
    let grammar = ranked(alloc, &given)?;
    with_grammar(alloc, sources, grammar)
}

pub(crate) fn put(
    alloc: Global,
    sources: &Sources,
    priority: u16,
    rule: Rule,
) -> Result<Sources, EditRefused>
    ensures { ChangeGives sources.now (Edit.Put priority rule) result }
{
    let mut rules = sources.grammar.copy_rules(alloc)?;
    put_rule(&mut rules, Entry { priority, rule })?;
    ruled(alloc, sources, rules)
}

pub(crate) fn drop_rule(alloc: Global, sources: &Sources, id: u32) -> Result<Sources, EditRefused>
    ensures { ChangeGives sources.now (Edit.Drop id) result }
{
    let Some(place) = rule_place(sources.grammar.rules.as_slice(), id) else {
        return Err(EditRefused::NoRule(id));
    };
    let mut rules = sources.grammar.copy_rules(alloc)?;
    rules.remove(place);
    ruled(alloc, sources, rules)
}

pub(crate) fn set_attribute(
    alloc: Global,
    sources: &Sources,
    name: Name,
    value: Fraction,
) -> Result<Sources, EditRefused>
    ensures { ChangeGives sources.now (Edit.SetAttribute name value) result }
{
    let Some(place) = attribute_place(sources.grammar.attributes.as_slice(), name) else {
        return Err(EditRefused::NoAttribute(name));
    };
    let Sources {
        grammar,
        lots,
        mode,
    } = sources.copy(alloc)?;
    let Grammar { attributes, rules } = grammar;
    let mut values = attributes.into_vec();
    values[place] = Attribute { name, value };
    let attributes = List::from_vec(values);
    Ok(Sources {
        grammar: Grammar { attributes, rules },
        lots,
        mode,
    })
}

pub(crate) fn set_priority(
    alloc: Global,
    sources: &Sources,
    symbol: Name,
    priority: u16,
) -> Result<Sources, EditRefused>
    ensures { ChangeGives sources.now (Edit.SetPriority symbol priority) result }
{
    if !has_rule(&sources.grammar, symbol) {
        return Err(EditRefused::NoSymbol(symbol));
    }
    let grammar = reprioritized(alloc, &sources.grammar, symbol, priority)?;
    Ok(Sources {
        grammar,
        lots: sources.lots.share()?,
        mode: sources.mode,
    })
}

// A lot, with the place of the one of its name.
pub(crate) fn set_lot(
    alloc: Global,
    sources: &Sources,
    lot: Lot,
    place: Option<usize>,
) -> Result<Sources, EditRefused>
    requires place { place ≡ lot_place lot.name sources.now.lots }
    ensures { ChangeGives sources.now (Edit.SetLot lot) result }
{
    if !is_plain(&sources.grammar, lot.symbol) {
        return Err(EditRefused::NoSymbol(lot.symbol));
    }
    if is_bad(&lot) {
        return Err(EditRefused::BadLot(lot.name));
    }
    if finds_no_room(&lot, &sources.lots, place) {
        return Err(EditRefused::TooManyLots);
    }
    let grammar = sources.grammar.copy(alloc)?;
    let lots = put_lot(alloc, &sources.lots, lot, place)?;
    Ok(Sources {
        grammar,
        lots,
        mode: sources.mode,
    })
}

// Without the lot of a name, with its place.
pub(crate) fn unlot(
    alloc: Global,
    sources: &Sources,
    name: Name,
    place: Option<usize>,
) -> Result<Sources, EditRefused>
    requires place { place ≡ lot_place name sources.now.lots }
    ensures { ChangeGives sources.now (Edit.Unlot name) result }
{
    let Some(place) = place else {
        return Err(EditRefused::NoLot(name));
    };
    let grammar = sources.grammar.copy(alloc)?;
    Ok(Sources {
        grammar,
        lots: sources.lots.without(alloc, place)?,
        mode: sources.mode,
    })
}

pub(crate) fn set_order(
    alloc: Global,
    sources: &Sources,
    mode: Mode,
) -> Result<Sources, EditRefused>
    ensures { ChangeGives sources.now (Edit.SetOrder mode) result }
{
    let mut new = sources.copy(alloc)?;
    new.mode = mode;
    Ok(new)
}

// The sources with another grammar, which was checked, if each lot is accepted.
fn with_accepted(sources: &Sources, grammar: Grammar) -> Result<Sources, EditRefused>
    ensures { Changes (with_accepted sources.now grammar) result }
{
    accepted(&grammar, &sources.lots)?;
    let lots = sources.lots.share()?;
    Ok(Sources {
        grammar,
        lots,
        mode: sources.mode,
    })
}

pub(crate) fn whole(
    alloc: Global,
    sources: &Sources,
    other: Sources,
) -> Result<Sources, EditRefused>
    ensures { ChangeGives sources.now (Edit.Whole other) result }
{
    checked(&other.grammar)?;
    if other.lots.len() > MOST_LOTS {
        return Err(EditRefused::TooManyLots);
    }
    let grammar = ranked(alloc, &other.grammar)?;
    with_accepted(&other, grammar)
}
