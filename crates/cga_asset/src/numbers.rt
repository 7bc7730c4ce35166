//! The numbers of words.
ghost use Rattle.std.specs.Prelude.{◌≡◌, ◌==◌, ◌≤◌, Some, None, true, nat_le, if◌then◌else◌};
ghost use Rattle.std.specs.Char.{is_ascii_digit};
ghost use Rattle.std.specs.List.{list_all, position_or_len};
ghost use Rattle.std.specs.Str.Parse.{digits_value};
ghost use Rattle.cga_fraction.specs.Decimals.{decimal_of, is_numeral};
ghost use Rattle.cga_asset.specs.Words as spec;

use cga_fraction::Fraction;

/// The greatest number of lines that is counted.
const MOST_LINES: u64 = 4_294_967_295;

fn decimal(text: &[u8]) -> Option<Fraction>
    ensures { result ≡ spec.if_number (decimal_of text.now) }
{
    match Fraction::of_decimal(text) {
        Ok(number) => Some(number),
        Err(_) => None,
    }
}

/// An optional minus and a decimal.
pub(crate) fn coordinate(word: &[u8]) -> Option<Fraction>
    ensures { result ≡ spec.coordinate_of word.now }
{
    match word {
        [] => None,
        [b'-', digits @ ..] => match decimal(digits) {
            Some(number) => Some(number.neg()),
            None => None,
        },
        _ => decimal(word),
    }
}

fn is_numeral(text: &[u8]) -> bool
    ensures { result ≡ is_numeral text.now }
{
    !text.is_empty() && are_digits(text)
}

fn are_digits(text: &[u8]) -> bool
    ensures { result ≡ list_all is_ascii_digit text.now }
{
    text.iter().all(|c| c.is_ascii_digit())
}

// The number that digits write, where it isn't greater than any count of lines.
fn value(digits: &[u8]) -> Option<u32>
    requires { list_all is_ascii_digit digits.now ≡ true }
    ensures { result ≡ (if nat_le (digits_value 10 digits.now) spec.most_lines then Some (digits_value 10 digits.now) else None) }
{
    let mut value: u64 = 0;
    for digit in digits {
        value = value * 10 + (*digit - b'0') as u64;
        if value > MOST_LINES {
            return None;
        }
    }
    Some(value as u32)
}

#[tactic(auto, unfolding(crate::specs::Words::whole_of))]
fn whole(text: &[u8]) -> Option<u32>
    ensures { result ≡ spec.whole_of text.now }
{
    if is_numeral(text) { value(text) } else { None }
}

fn unless_zero(number: Option<u32>) -> Option<u32>
    ensures { result ≡ spec.unless_zero number }
{
    match number {
        Some(0) => None,
        other => other,
    }
}

fn backwards(before: u32, number: Option<u32>) -> Option<u32>
    requires { before ≤ 10000 }
    ensures { result ≡ spec.backwards before number }
{
    match number {
        Some(number) if number <= before => Some(before + 1 - number),
        _ => None,
    }
}

fn by_sign(before: u32, text: &[u8]) -> Option<u32>
    requires { before ≤ 10000 }
    ensures { result ≡ spec.by_sign before text.now }
{
    match text {
        [] => None,
        [b'-', digits @ ..] => backwards(before, unless_zero(whole(digits))),
        _ => unless_zero(whole(text)),
    }
}

/// The number of a vertex, from 1: of one of so many before the line where there is a minus.
#[tactic(auto, unfolding(crate::specs::Words::corner_of))]
pub(crate) fn corner(before: u32, word: &[u8]) -> Option<u32>
    requires { before ≤ 10000 }
    ensures { result ≡ spec.corner_of before word.now }
{
    let end = stroke(word);
    by_sign(before, word.split_at(end).0)
}

// Where the first stroke stands, or the end.
fn stroke(word: &[u8]) -> usize
    ensures { result ≡ position_or_len (λ b. b == 47) word.now }
{
    for (at, byte) in word.iter().enumerate() {
        if *byte == b'/' {
            return at;
        }
    }
    word.len()
}
