ghost use Rattle.std.specs.Prelude.{◌≡◌, ◌≤◌, ◌<◌, ◌+◌, ◌*◌, ◌/◌, ◌^◌, ◌∷◌, ◌++◌, OnOk, IfOk, unsigned_abs};
ghost use Rattle.cga_fraction.specs.Arithmetic.{with_sign};
ghost use Rattle.cga_fraction.specs.Texts.{minus_of, padded, places_from, pointed};

use super::Fraction;
use crate::list::List;
use crate::memory::NoMemory;
use itoa::Buffer;
use std::alloc::Global;

impl Fraction {
    ghost use Rattle.cga_fraction.specs.Texts.{decimal_text_of, exact_text_of, literal_text_of, round_of, IsNearest};
    ghost use Rattle.cga_fraction.specs.Decimals.{IsLiteral, IsShortest};

    /// The decimal text with so many places: the nearest, and of two equally near ones the one farther from
    /// zero. Takes memory.
    #[tactic(auto, using(crate::proofs::Nearest::is_nearest))]
    pub fn decimal_text(self, alloc: Global, places: u8) -> Result<List<u8>, NoMemory>
        requires { places ≤ 9 }
        ensures value { IfOk result (λ text. text ≡ decimal_text_of self places) }
        ensures nearest { IsNearest self places (round_of self places) }
    {
        let mut text = Vec::new(alloc);
        self.push_decimal(&mut text, places)?;
        Ok(List::from_vec(text))
    }

    #[tactic(auto, unfolding(crate::specs::Texts::decimal_text_of))]
    pub(crate) fn push_decimal(self, text: &mut Vec<u8>, places: u8) -> Result<(), NoMemory>
        requires { places ≤ 9 }
        ensures { OnOk result (text.new.items ≡ text.old.items ++ decimal_text_of self places) }
    {
        let magnitude = self.rounded_magnitude(places);
        push_minus(text, self.numerator, magnitude)?;
        push_pointed(text, magnitude, places)
    }

    /// `n` where the denominator is 1, otherwise `n/d`. Takes memory.
    pub fn exact_text(self, alloc: Global) -> Result<List<u8>, NoMemory>
        ensures { IfOk result (λ text. text ≡ exact_text_of self) }
    {
        let mut text = Vec::new(alloc);
        self.push_exact(&mut text)?;
        Ok(List::from_vec(text))
    }

    #[tactic(auto, unfolding(crate::specs::Texts::exact_text_of))]
    pub(crate) fn push_exact(self, text: &mut Vec<u8>) -> Result<(), NoMemory>
        ensures { OnOk result (text.new.items ≡ text.old.items ++ exact_text_of self) }
    {
        text.extend_from_slice(Buffer::new().format(self.numerator).as_bytes())?;
        if self.denominator != 1 {
            text.push(b'/')?;
            text.extend_from_slice(Buffer::new().format(self.denominator).as_bytes())?;
        }
        Ok(())
    }

    /// The shortest text that `of_decimal` reads as this number. Takes memory.
    pub fn literal_text(self, alloc: Global) -> Result<List<u8>, NoMemory>
        requires { IsLiteral self }
        ensures value { IfOk result (λ text. text ≡ literal_text_of self) }
        ensures shortest { IfOk result (IsShortest self) }
    {
        let mut text = Vec::new(alloc);
        self.push_literal(&mut text)?;
        Ok(List::from_vec(text))
    }

    pub(crate) fn push_literal(self, text: &mut Vec<u8>) -> Result<(), NoMemory>
        requires { IsLiteral self }
        ensures { OnOk result (text.new.items ≡ text.old.items ++ literal_text_of self) }
    {
        let places = least_places_of(self.denominator);
        let numerator = self.numerator.unsigned_abs() as u128;
        let digits = numerator * power_of_ten(places) / self.denominator as u128;
        push_pointed(text, digits, places)
    }

    // The magnitude of the whole number nearest to 10 ^ places times this one.
    fn rounded_magnitude(self, places: u8) -> u128
        requires { places ≤ 17 }
        ensures { with_sign self.num result ≡ round_of self places }
    {
        let numerator = self.numerator.unsigned_abs();
        if places <= MOST_NARROW && numerator < SMALL && self.denominator < SMALL {
            return narrow_nearest(numerator, self.denominator, places) as u128;
        }
        nearest(numerator, self.denominator, places)
    }
}

// Where both parts of a number are below this, and there are at most so many places, 64 bits are enough.
const SMALL: u64 = 1 << 32;

const MOST_NARROW: u8 = 9;

const NARROW: u128 = u64::MAX as u128;

// The whole number nearest to 10 ^ places times a quotient.
fn nearest(numerator: u64, denominator: u64, places: u8) -> u128
    requires top { numerator ≤ 2 ^ 62 }
    requires some { 0 < denominator }
    requires bottom { denominator ≤ 2 ^ 62 }
    requires places { places ≤ 17 }
    ensures { result ≡ (2 * (numerator * 10 ^ places) + denominator) / (2 * denominator) }
{
    let numerator = numerator as u128;
    let denominator = denominator as u128;
    (2 * (numerator * power_of_ten(places)) + denominator) / (2 * denominator)
}

fn narrow_nearest(numerator: u64, denominator: u64, places: u8) -> u64
    requires top { numerator < 2 ^ 32 }
    requires some { 0 < denominator }
    requires bottom { denominator < 2 ^ 32 }
    requires places { places ≤ 9 }
    ensures { result ≡ (2 * (numerator * 10 ^ places) + denominator) / (2 * denominator) }
{
    (2 * (numerator * narrow_power_of_ten(places)) + denominator) / (2 * denominator)
}

fn narrow_power_of_ten(exponent: u8) -> u64
    requires { exponent ≤ 9 }
    ensures value { result ≡ 10 ^ exponent }
    ensures positive { 0 < result }
    ensures small { result ≤ 10 ^ 9 }
{
    match exponent {
        0 => 1,
        1 => 10,
        2 => 100,
        3 => 1_000,
        4 => 10_000,
        5 => 100_000,
        6 => 1_000_000,
        7 => 10_000_000,
        8 => 100_000_000,
        _ => 1_000_000_000,
    }
}

// Appends a minus before a number below 0, and none before zero.
fn push_minus(out: &mut Vec<u8>, numerator: i64, magnitude: u128) -> Result<(), NoMemory>
    ensures { OnOk result (out.new.items ≡ out.old.items ++ minus_of (with_sign numerator magnitude)) }
{
    if numerator < 0 && magnitude != 0 {
        out.push(b'-')?;
    }
    Ok(())
}

#[tactic(auto, using(crate::proofs::Texts::ten_positive))]
pub(super) fn power_of_ten(exponent: u8) -> u128
    requires { exponent ≤ 17 }
    ensures value { result ≡ 10 ^ exponent }
    ensures positive { 0 < result }
{
    10u128.pow(exponent as u32)
}

// The least number of places, up to 17, in which a number over d is exact.
fn least_places_of(d: u64) -> u8
    requires { 0 < d }
    ensures value { result ≡ places_from 17 0 d }
    ensures few { result ≤ 17 }
{
    let mut places = 0;
    while places < 17 && power_of_ten(places) % d as u128 != 0 {
        places += 1;
    }
    places
}

fn push_pointed(out: &mut Vec<u8>, number: u128, places: u8) -> Result<(), NoMemory>
    requires { places ≤ 17 }
    ensures { OnOk result (out.new.items ≡ out.old.items ++ pointed places number) }
{
    if places <= MOST_NARROW && number <= NARROW {
        return push_narrow(out, number as u64, places);
    }
    push_wide(out, number, places)
}

fn push_wide(out: &mut Vec<u8>, number: u128, places: u8) -> Result<(), NoMemory>
    requires { places ≤ 17 }
    ensures { OnOk result (out.new.items ≡ out.old.items ++ pointed places number) }
{
    let whole = number / power_of_ten(places);
    out.extend_from_slice(Buffer::new().format(whole).as_bytes())?;
    if places == 0 {
        return Ok(());
    }
    out.push(b'.')?;
    push_padded(out, number, places)?;
    Ok(())
}

// Appends the last so many digits of a number.
fn push_padded(out: &mut Vec<u8>, number: u128, places: u8) -> Result<(), NoMemory>
    requires { places ≤ 17 }
    ensures { OnOk result (out.new.items ≡ out.old.items ++ padded places number) }
{
    let mut left = places;
    while left > 0 {
        left -= 1;
        let digit = number / power_of_ten(left) % 10;
        out.push(b'0' + digit as u8)?;
    }
    Ok(())
}

fn push_narrow(out: &mut Vec<u8>, number: u64, places: u8) -> Result<(), NoMemory>
    requires { places ≤ 9 }
    ensures { OnOk result (out.new.items ≡ out.old.items ++ pointed places number) }
{
    let whole = number / narrow_power_of_ten(places);
    out.extend_from_slice(Buffer::new().format(whole).as_bytes())?;
    if places == 0 {
        return Ok(());
    }
    push_places(out, number, places)?;
    Ok(())
}

// Appends a point and the last so many digits of a number, as one piece.
fn push_places(out: &mut Vec<u8>, number: u64, places: u8) -> Result<(), NoMemory>
    requires { places ≤ 9 }
    ensures { OnOk result (out.new.items ≡ out.old.items ++ (46 ∷ padded places number)) }
{
    let mut digits = last_ten(number);
    let point = 9 - places as usize;
    digits[point] = b'.';
    out.extend_from_slice(&digits[point..])?;
    Ok(())
}

fn last_ten(number: u64) -> [u8; 10]
    ensures { result ≡ padded 10 number }
{
    let [a, b] = last_two(number / 100_000_000);
    let [c, d] = last_two(number / 1_000_000);
    let [e, f] = last_two(number / 10_000);
    let [g, h] = last_two(number / 100);
    let [i, j] = last_two(number);
    [a, b, c, d, e, f, g, h, i, j]
}

fn last_two(number: u64) -> [u8; 2]
    ensures { result ≡ padded 2 number }
{
    let pair = number % 100;
    [b'0' + (pair / 10) as u8, b'0' + (pair % 10) as u8]
}
