ghost use Rattle.std.specs.Prelude.{◌≡◌, ◌≤◌, ◌<◌, ◌+◌, ◌*◌, ◌^◌, length, true};
ghost use Rattle.std.specs.Char.{is_ascii_digit};
ghost use Rattle.std.specs.List.{list_all, position};
ghost use Rattle.std.specs.Str.Parse.{digits_value_after};
ghost use Rattle.cga_fraction.specs.Decimals.{decimal_of, is_numeral, is_point, read_of};
ghost use Rattle.cga_fraction.specs.Arithmetic.{reduced};

use super::Fraction;
use super::text::power_of_ten;
use crate::gcd::narrow_divisor;

/// Why a text is read as no number.
#[derive(Clone, Copy, Debug, PartialEq, Eq)]
pub enum DecimalFault {
    NotNumber,
    /// More than 18, leading zeros and both sides of the point counted.
    TooManyDigits,
}

impl Fraction {
    #[tactic(auto, unfolding(crate::specs::Decimals::decimal_of))]
    /// Reads digits, then optionally a point and digits. There is no sign and no exponent.
    pub fn of_decimal(text: &[u8]) -> Result<Fraction, DecimalFault>
        ensures { result ≡ decimal_of text.now }
    {
        let Some(point) = point_of(text) else {
            return read_digits(text, b"");
        };
        let (whole, rest) = text.split_at(point);
        let places = rest.split_at(1).1;
        if !is_digits(places) {
            return Err(DecimalFault::NotNumber);
        }
        read_digits(whole, places)
    }
}

fn point_of(text: &[u8]) -> Option<usize>
    ensures { result ≡ position is_point text.now }
{
    text.iter().position(|c| *c == b'.')
}

fn is_digits(text: &[u8]) -> bool
    ensures { result ≡ is_numeral text.now }
{
    !text.is_empty() && are_digits(text)
}

fn are_digits(text: &[u8]) -> bool
    ensures { result ≡ list_all is_ascii_digit text.now }
{
    text.iter().all(|c| c.is_ascii_digit())
}

// Reads digits on both sides of a point, of which those after it are known to be digits.
fn read_digits(whole: &[u8], places: &[u8]) -> Result<Fraction, DecimalFault>
    requires { list_all is_ascii_digit places.now ≡ true }
    ensures { result ≡ read_of whole.now places.now }
{
    if !is_digits(whole) {
        return Err(DecimalFault::NotNumber);
    }
    if whole.len() > MOST_DIGITS || places.len() > MOST_DIGITS - whole.len() {
        return Err(DecimalFault::TooManyDigits);
    }
    let numerator = value_after(value_after(0, whole), places);
    Ok(Fraction::lowest(numerator, power_of_ten(places.len() as u8) as u64))
}

const MOST_DIGITS: usize = 18;

// The number that the digits write behind those of another number.
fn value_after(start: u64, digits: &[u8]) -> u64
    requires digits { list_all is_ascii_digit digits.now ≡ true }
    requires small { (start + 1) * 10 ^ length digits.now ≤ 10 ^ 18 }
    ensures value { result ≡ digits_value_after 10 start digits.now }
    ensures small { result + 1 ≤ (start + 1) * 10 ^ length digits.now }
{
    let mut value = start;
    for digit in digits {
        value = value * 10 + (*digit - b'0') as u64;
    }
    value
}
