//! Where the rules of a symbol stand in a grammar.
ghost use Rattle.std.specs.Prelude.{◌≡◌, position};
ghost use Rattle.cga_check.specs.Groups.{is_of};
ghost use Rattle.cga_expand.specs.Places.{AreAround, BeginsAt, EndsAt};

use cga_rule::Entry;
use cga_word::Name;

/// The places from the first rule of a symbol to behind its last one. Rules of other symbols may stand between.
#[derive(Clone, Copy)]
pub struct Places {
    pub(crate) from: usize,
    pub(crate) past: usize,
}

/// One walk over the rules. Takes no memory.
pub(crate) fn places_of(entries: &[Entry], symbol: Name) -> Places
    ensures { AreAround entries.now symbol result }
{
    let from = begin_of(entries, symbol);
    let past = from + end_of(&entries[from..], symbol);
    Places { from, past }
}

/// The place of the first rule of the symbol, or the end where there is none.
fn begin_of(entries: &[Entry], symbol: Name) -> usize
    ensures { BeginsAt entries.now symbol result }
{
    first_place(entries, symbol).unwrap_or(entries.len())
}

fn first_place(entries: &[Entry], symbol: Name) -> Option<usize>
    ensures { result ≡ position (is_of symbol) entries.now }
{
    entries.iter().position(|entry| entry.rule.symbol == symbol)
}

/// The place behind the last rule of the symbol, or the beginning where there is none.
fn end_of(entries: &[Entry], symbol: Name) -> usize
    ensures { EndsAt entries.now symbol result }
{
    let mut end = entries.len();
    while end > 0 && entries[end - 1].rule.symbol != symbol {
        end -= 1;
    }
    end
}
