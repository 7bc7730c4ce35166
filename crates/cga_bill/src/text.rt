ghost use Rattle.std.specs.Prelude.{◌≡◌, ◌++◌, ◌≤◌, ◌<◌, ◌^◌, OnOk, flat_map};
ghost use Rattle.cga_fraction.specs.Texts.{padded, pointed};
ghost use Rattle.cga_bill.specs.Texts.{bill_text_of, line_text};

use crate::lines::BillLines;
use crate::sums::Sums;
use cga_fraction::{NoMemory, Text};
use cga_word::Name;

const PLACES: u8 = 6;

const MILLION: u128 = 1_000_000;

#[tactic(auto, using(cga_fraction::proofs::Door::ten_positive))]
fn power_of_ten(exponent: u8) -> u128
    requires { exponent ≤ 6 }
    ensures value { result ≡ 10 ^ exponent }
    ensures positive { 0 < result }
{
    10u128.pow(exponent as u32)
}

// Adds the last so many digits of a number of millionths.
fn push_padded(text: &mut Text, number: u128) -> Result<(), NoMemory>
    ensures { OnOk result (text.new ≡ text.old ++ padded 6 number) }
{
    let mut left = PLACES;
    while left > 0 {
        left -= 1;
        let digit = number / power_of_ten(left) % 10;
        text.push(&[b'0' + digit as u8])?;
    }
    Ok(())
}

#[tactic(auto, unfolding(cga_fraction::specs::Texts::pointed))]
// Adds millionths as units with six places.
fn push_amount(text: &mut Text, number: u128) -> Result<(), NoMemory>
    ensures { OnOk result (text.new ≡ text.old ++ pointed 6 number) }
{
    text.push_whole(number / MILLION)?;
    text.push_byte(b'.')?;
    push_padded(text, number)
}

#[tactic(auto, unfolding(crate::specs::Texts::line_text))]
fn push_line(text: &mut Text, symbol: &Name, sums: &Sums) -> Result<(), NoMemory>
    ensures { OnOk result (text.new ≡ text.old ++ line_text (symbol.now, sums.now)) }
{
    text.push(b"# bill ")?;
    text.push(symbol.bytes())?;
    text.push_byte(b' ')?;
    text.push_whole(u128::from(sums.number))?;
    text.push_byte(b' ')?;
    push_amount(text, sums.front)?;
    text.push_byte(b' ')?;
    push_amount(text, sums.volume)?;
    text.push_byte(b' ')?;
    text.push_whole(u128::from(sums.unmeasured))?;
    text.push_byte(b'\n')
}

fn push_lines(text: &mut Text, lines: &BillLines) -> Result<(), NoMemory>
    ensures { OnOk result (text.new ≡ text.old ++ flat_map line_text lines.now.entries) }
{
    for (symbol, sums) in lines {
        push_line(text, symbol, sums)?;
    }
    Ok(())
}

#[tactic(auto, unfolding(crate::specs::Texts::bill_text_of))]
pub fn push_bill(text: &mut Text, lines: &BillLines) -> Result<(), NoMemory>
    ensures { OnOk result (text.new ≡ text.old ++ bill_text_of lines.now.entries) }
{
    text.push(b"# bill ")?;
    text.push_whole(lines.len() as u128)?;
    text.push_byte(b'\n')?;
    push_lines(text, lines)
}
