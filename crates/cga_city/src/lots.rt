//! Lots as edits change them.
ghost use Rattle.std.specs.Prelude.{◌≡◌, ℕ, Some, IfOk, slice_get, is_ok, true};
ghost use Rattle.cga_city.specs.Lots as spec;

use crate::grammars::is_plain;
use crate::limits::MOST_LOTS;
use cga_fraction::NoMemory;
use cga_rule::Grammar;
use cga_shape::{EditRefused, Lot, Lots};
use cga_word::Name;
use std::alloc::Global;

fn place_in(lots: &[Lot], name: Name) -> Option<usize>
    ensures { result ≡ spec.lot_place name lots.now }
{
    lots.iter().position(|lot| lot.name == name)
}

/// The place of the lot of a name. No walk goes over the lots behind it.
pub(crate) fn lot_place(lots: &Lots, name: Name) -> Option<usize>
    ensures { result ≡ spec.lot_place name lots.now }
{
    let _all = lots.len(); // for the proof
    let mut before = 0;
    for run in lots.runs() {
        if let Some(place) = place_in(run.as_slice(), name) {
            return Some(before + place);
        }
        before += run.len();
    }
    None
}

pub(crate) fn is_bad(lot: &Lot) -> bool
    ensures { result ≡ spec.is_bad lot.now }
{
    !lot.width.is_positive() || !lot.depth.is_positive() || lot.root_scope().is_err()
}

fn has_symbol_in(lots: &[Lot], symbol: Name) -> bool
    ensures { result ≡ spec.has_symbol symbol lots.now }
{
    lots.iter().any(|lot| lot.symbol == symbol)
}

/// Whether a lot has the symbol.
pub(crate) fn has_symbol(lots: &Lots, symbol: Name) -> bool
    ensures { result ≡ spec.has_symbol symbol lots.now }
{
    for run in lots.runs() {
        if has_symbol_in(run.as_slice(), symbol) {
            return true;
        }
    }
    false
}

/// Whether a lot, whose place is given, would be one too many.
pub(crate) fn finds_no_room(lot: &Lot, lots: &Lots, place: Option<usize>) -> bool
    requires place { place ≡ spec.lot_place lot.now.name lots.now }
    ensures { result ≡ spec.finds_no_room lot.now lots.now }
{
    place.is_none() && lots.len() >= MOST_LOTS
}

/// Whether two lots are the same.
fn same_lot(a: &Lot, b: &Lot) -> bool
    ensures { result ≡ true → a.now ≡ b.now }
{
    a.name == b.name
        && a.seed == b.seed
        && a.x == b.x
        && a.z == b.z
        && a.width == b.width
        && a.depth == b.depth
        && a.symbol == b.symbol
}

/// Whether a lot stands at a place already.
fn stands_at(lots: &Lots, lot: &Lot, place: Option<usize>) -> bool
    ensures { result ≡ true → (i : ℕ) × (place ≡ Some i) × (slice_get lots.now i ≡ Some lot.now) }
{
    match place {
        Some(place) => match lots.get(place) {
            Some(other) => same_lot(other, lot),
            None => false,
        },
        None => false,
    }
}

/// A lot in the place of the one of its name, which is given, or behind all others. A list that has it there is shared
/// whole, and else all runs of it are but one.
pub(crate) fn put_lot(
    alloc: Global,
    lots: &Lots,
    lot: Lot,
    place: Option<usize>,
) -> Result<Lots, NoMemory>
    requires place { place ≡ spec.lot_place lot.name lots.now }
    ensures { IfOk result (λ new. new ≡ spec.with_lot lot lots.now) }
{
    if stands_at(lots, &lot, place) {
        return lots.share();
    }
    match place {
        Some(place) => lots.with(alloc, place, lot),
        None => lots.with_last(alloc, lot),
    }
}

fn rooted_in(grammar: &Grammar, lots: &[Lot]) -> Result<(), EditRefused>
    ensures { result ≡ spec.rooted grammar.now lots.now }
{
    for lot in lots {
        if !is_plain(grammar, lot.symbol) {
            return Err(EditRefused::NoSymbol(lot.symbol));
        }
    }
    Ok(())
}

fn are_rooted(grammar: &Grammar, lots: &[Lot]) -> bool
    ensures { result ≡ is_ok (spec.rooted grammar.now lots.now) }
{
    rooted_in(grammar, lots).is_ok()
}

/// The first lot whose symbol has no rules without parameters.
pub(crate) fn rooted(grammar: &Grammar, lots: &Lots) -> Result<(), EditRefused>
    ensures { result ≡ spec.rooted grammar.now lots.now }
{
    for run in lots.runs() {
        if !are_rooted(grammar, run.as_slice()) {
            return rooted_in(grammar, run.as_slice());
        }
    }
    Ok(())
}

fn accepted_in(grammar: &Grammar, lots: &[Lot]) -> Result<(), EditRefused>
    ensures { result ≡ spec.accepted grammar.now lots.now }
{
    for lot in lots {
        if !is_plain(grammar, lot.symbol) {
            return Err(EditRefused::NoSymbol(lot.symbol));
        }
        if is_bad(lot) {
            return Err(EditRefused::BadLot(lot.name));
        }
    }
    Ok(())
}

fn are_accepted(grammar: &Grammar, lots: &[Lot]) -> bool
    ensures { result ≡ is_ok (spec.accepted grammar.now lots.now) }
{
    accepted_in(grammar, lots).is_ok()
}

/// The first lot that would be refused, and why.
pub(crate) fn accepted(grammar: &Grammar, lots: &Lots) -> Result<(), EditRefused>
    ensures { result ≡ spec.accepted grammar.now lots.now }
{
    for run in lots.runs() {
        if !are_accepted(grammar, run.as_slice()) {
            return accepted_in(grammar, run.as_slice());
        }
    }
    Ok(())
}
