//! Whether the rules of a symbol are the same in two grammars.
ghost use Rattle.std.specs.Prelude.{◌≡◌, ◌↔◌, IsTrue, All, position};
ghost use Rattle.cga_check.specs.Groups.{by_id, group, rules_of};
ghost use Rattle.cga_depend.specs.Agreement.{AgreesAt, is_one, rules_with};

use cga_check::symbol_priority;
use cga_rule::{Entry, Grammar};
use cga_word::Name;

/// Whether the group of the symbol is the same in both grammars: its rules by rising id, and its
/// priority. Or the symbol has no rule in either. The rules may stand in another order. Takes no
/// memory, and for each rule of the symbol a walk of both lists.
pub fn same_group(old: &Grammar, new: &Grammar, symbol: Name) -> bool
    ensures { IsTrue result ↔ (group old.now symbol ≡ group new.now symbol) }
{
    same_priority(symbol_priority(old, symbol), symbol_priority(new, symbol))
        && same_rules(old.rules.as_slice(), new.rules.as_slice(), symbol)
}

fn same_priority(a: Option<u16>, b: Option<u16>) -> bool
    ensures { IsTrue result ↔ (a ≡ b) }
{
    a == b
}

fn same_rules(old: &[Entry], new: &[Entry], symbol: Name) -> bool
    ensures { IsTrue result ↔ (by_id (rules_of old.now symbol) ≡ by_id (rules_of new.now symbol)) }
{
    agree_at(old, old, new, symbol) && agree_at(new, old, new, symbol)
}

// Whether both lists have the same rules of the symbol with the ids of these.
fn agree_at(ids: &[Entry], old: &[Entry], new: &[Entry], symbol: Name) -> bool
    ensures { IsTrue result ↔ All (λ e. AgreesAt symbol old.now new.now e) ids.now }
{
    for entry in ids {
        if entry.rule.symbol == symbol && !agree(old, new, symbol, entry.rule.id) {
            return false;
        }
    }
    true
}

// In a valid grammar a symbol has at most one rule of an id, so that this is one step deep.
fn agree(old: &[Entry], new: &[Entry], symbol: Name, id: u32) -> bool
    ensures { IsTrue result ↔ (rules_with symbol id old.now ≡ rules_with symbol id new.now) }
{
    match (place(old, symbol, id), place(new, symbol, id)) {
        (None, None) => true,
        (Some(i), Some(j)) => {
            old[i].rule == new[j].rule && agree(&old[i + 1..], &new[j + 1..], symbol, id)
        }
        _ => false,
    }
}

fn place(entries: &[Entry], symbol: Name, id: u32) -> Option<usize>
    ensures { result ≡ position (is_one symbol id) entries.now }
{
    entries
        .iter()
        .position(|entry| entry.rule.symbol == symbol && entry.rule.id == id)
}
