ghost use Rattle.std.specs.Prelude.{◌≡◌, ◌≤◌, ◌++◌, IfOk, OnOk, decimal};
ghost use Rattle.cga_words.specs.Words.{IsTown};
ghost use Rattle.cga_words.specs.Town.{lot_line, lot_lines, town_text};

use cga_fraction::{List, NoMemory, Text};
use std::alloc::Global;

const HEAD: &[u8] = b"quiet
rules
attr storey = 3
attr bay = 2.5
PRIORITY 1:
1: lot -> S(1r, 3 * storey, 1r) mass T(0, 3 * storey, 0) S(1r, 2, 1r) roof
2: mass -> Comp(\"sidefaces\") { facade }
PRIORITY 2:
3: roof -> I(\"hip\") : 0.5 -> I(\"gable\") : 0.5
4: facade -> Repeat(\"Y\", storey) { level }
5: level -> Repeat(\"X\", bay) { tile }
6: tile : Scope.occ(\"noparent\") == \"none\" -> Subdiv(\"X\", 1r, 1, 1r) { wall | window | wall }
7: tile -> wall
8: window -> S(1r, 1r, 0.25) I(\"cube\")
9: wall -> I(\"quad\")
end
";

const TAIL: &[u8] = b"stats
put 2 8: window -> S(1r, 1r, 0.5) I(\"cube\")
stats
lot t0 7 0 0 12 9 lot
stats
faults
";

fn push_number(text: &mut Text, number: u32) -> Result<(), NoMemory>
    ensures { OnOk result (text.new ≡ text.old ++ decimal number) }
{
    text.push_whole(u128::from(number))
}

// The line of the lot of this number.
fn push_lot(text: &mut Text, k: u32) -> Result<(), NoMemory>
    requires { k ≤ 200 }
    ensures { OnOk result (text.new ≡ text.old ++ lot_line k) }
{
    text.push(b"lot t")?;
    push_number(text, k)?;
    text.push(b" ")?;
    push_number(text, 1000 + k)?;
    text.push(b" ")?;
    push_number(text, 14 * (k % 20))?;
    text.push(b" ")?;
    push_number(text, 12 * (k / 20))?;
    text.push(b" ")?;
    push_number(text, 10 + k % 3)?;
    text.push(b" ")?;
    push_number(text, 8 + k % 2)?;
    text.push(b" lot\n")
}

#[tactic(auto, unfolding(crate::specs::Town::lot_lines))]
fn push_lots(text: &mut Text, n: u32) -> Result<(), NoMemory>
    requires { n ≤ 200 }
    ensures { OnOk result (text.new ≡ text.old ++ lot_lines n) }
{
    for k in 0..n {
        push_lot(text, k)?;
    }
    Ok(())
}

/// The script of a town of so many lots, with counts before and after two edits. Takes memory.
#[tactic(auto, unfolding(crate::specs::Town::town_text))]
pub fn town_script(alloc: Global, n: u32) -> Result<List<u8>, NoMemory>
    requires { IsTown n }
    ensures { IfOk result (λ script. script ≡ town_text n) }
{
    let mut text = Text::new(alloc);
    text.push(HEAD)?;
    push_lots(&mut text, n)?;
    text.push(TAIL)?;
    Ok(text.into_list())
}
