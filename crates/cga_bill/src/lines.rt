//! The lines of a bill, by the bytes of their symbols.
ghost use Rattle.std.specs.Prelude.{◌≡◌, ◌∷◌, ◌+◌, ◌<◌, ◌^◌, ◌++◌, [], List, OnOk, Some, length};
ghost use Rattle.std.specs.Ordering.{nat_cmp};
ghost use Rattle.std.specs.BTreeMap.{IsOrdered, Updates};
ghost use Rattle.std.specs.Cmp.Lexicographic.{slice_cmp};
ghost use Rattle.cga_shape.specs.declared.drawn.Drawn.{Drawn};
ghost use Rattle.cga_bill.specs.Amounts.{HasRoom, Holds, minus_sums, plus_sums};
ghost use Rattle.cga_bill.specs.Bill.{IsBill, sums_of};
ghost use Rattle.cga_bill.specs.Lines.{left, sums_at};

use crate::sums::{Sums, sums_of};
use cga_fraction::NoMemory;
use cga_shape::Drawn;
use cga_word::Name;
use std::collections::BTreeMap;

pub type BillLines = BTreeMap<Name, Sums>;

fn add(lines: &mut BillLines, drawn: &Drawn) -> Result<(), NoMemory>
    requires { HasRoom (sums_at lines.old.entries drawn.now.symbol) (sums_of (drawn.now ∷ [])) }
    ensures updates { OnOk result (Updates (slice_cmp nat_cmp) lines.old lines.new drawn.now.symbol (Some (plus_sums (sums_at lines.old.entries drawn.now.symbol) (sums_of (drawn.now ∷ []))))) }
    ensures ordered { IsOrdered (slice_cmp nat_cmp) lines.new }
{
    let more = sums_of(drawn);
    match lines.get_mut(&drawn.symbol) {
        Some(sums) => {
            *sums = sums.plus(more);
            Ok(())
        }
        None => {
            lines.insert(drawn.symbol, Sums::zero().plus(more))?;
            Ok(())
        }
    }
}

// Takes no memory.
fn take(lines: &mut BillLines, drawn: &Drawn)
    requires { Holds (sums_at lines.old.entries drawn.now.symbol) (sums_of (drawn.now ∷ [])) }
    ensures updates { Updates (slice_cmp nat_cmp) lines.old lines.new drawn.now.symbol (left (minus_sums (sums_at lines.old.entries drawn.now.symbol) (sums_of (drawn.now ∷ [])))) }
    ensures ordered { IsOrdered (slice_cmp nat_cmp) lines.new }
{
    let Some(sums) = lines.get_mut(&drawn.symbol) else {
        unreachable!();
    };
    let left = sums.minus(sums_of(drawn));
    if left.number == 0 {
        lines.remove(&drawn.symbol);
    } else {
        *sums = left;
    }
}

/// Adds each of these.
pub fn add_all(lines: &mut BillLines, come: &[Drawn]) -> Result<(), NoMemory>
    requires { (list : List Drawn) × IsBill lines.old.entries list × (length list + length come.now < 2 ^ 32) }
    ensures { (list : List Drawn) → IsBill lines.old.entries list → OnOk result (IsBill lines.new.entries (list ++ come.now)) }
{
    for drawn in come {
        add(lines, drawn)?;
    }
    Ok(())
}

/// Takes each of these away. Takes no memory.
pub fn take_all(lines: &mut BillLines, gone: &[Drawn])
    requires { (rest : List Drawn) × IsBill lines.old.entries (rest ++ gone.now) }
    ensures { (rest : List Drawn) → IsBill lines.old.entries (rest ++ gone.now) → IsBill lines.new.entries rest }
{
    for drawn in gone {
        take(lines, drawn);
    }
}
