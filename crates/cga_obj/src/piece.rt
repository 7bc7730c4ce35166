ghost use Rattle.std.specs.Prelude.{◌≡◌, ◌<◌, ◌≤◌, ◌+◌, ◌*◌, ◌/◌, ◌^◌, [], ◌∷◌, ◌++◌, IsTrue, decimal, length, unsigned_abs};
ghost use Rattle.cga_fraction.specs.Rat.{den};
ghost use Rattle.cga_fraction.specs.Arithmetic.{with_sign};
ghost use Rattle.cga_fraction.specs.Texts.{decimal_text_of, minus_of, padded, pointed};
ghost use Rattle.cga_obj.specs.Narrow.{IsNarrow};

use cga_fraction::Fraction;
use itoa::write_digits;
use std::marker::Model;

/// A piece of a line, which is written from its end. Contracts see it as the list of its bytes.
#[derive(Drop)]
pub(crate) struct Piece {
    bytes: [u8; 112],
    from: usize,
}

impl Model for Piece {
    ghost use Rattle.std.specs.Prelude.{List, ℕ, ◌≤◌, drop};

    ghost Value = { List ℕ };

    ghost view = { λ p. drop p.from p.bytes };

    ghost invariant = { λ p. p.from ≤ 112 };
}

impl Piece {
    pub(crate) fn empty() -> Piece
        ensures { result ≡ [] }
    {
        Piece {
            bytes: [0; 112],
            from: 112,
        }
    }

    pub(crate) fn as_slice(&self) -> &[u8]
        ensures { result.now ≡ self.now }
    {
        &self.bytes[self.from..]
    }

    /// Puts a byte before it.
    pub(crate) fn put(&mut self, byte: u8)
        requires { length self.old < 112 }
        ensures { self.new ≡ byte ∷ self.old }
    {
        self.from -= 1;
        self.bytes[self.from] = byte;
    }

    /// Puts a whole number before it.
    pub(crate) fn put_whole(&mut self, number: u64)
        requires { length self.old + 20 ≤ 112 }
        ensures value { self.new ≡ decimal number ++ self.old }
        ensures room { length self.new ≤ length self.old + 20 }
    {
        self.from = write_digits(number, &mut self.bytes, self.from);
    }

    // Puts the last so many digits of a number before it, and gives what is left of the number.
    fn put_places(&mut self, number: u64, places: u8) -> u64
        requires { length self.old + places ≤ 112 }
        ensures value { self.new ≡ padded places number ++ self.old }
        ensures room { length self.new ≡ length self.old + places }
        ensures left { result ≡ number / 10 ^ places }
    {
        let mut left = number;
        for _place in 0..places {
            self.put(b'0' + (left % 10) as u8);
            left /= 10;
        }
        left
    }

    // Puts the digits of a number before it, with a point before the last so many.
    #[tactic(auto, unfolding(cga_fraction::specs::Texts::pointed))]
    fn put_pointed(&mut self, number: u64, places: u8)
        requires { length self.old + places + 21 ≤ 112 }
        ensures value { self.new ≡ pointed places number ++ self.old }
        ensures room { length self.new ≤ length self.old + places + 21 }
    {
        if places == 0 {
            self.put_whole(number);
        } else {
            let whole = self.put_places(number, places);
            self.put(b'.');
            self.put_whole(whole);
        }
    }

    /// Puts the decimal text of a number before it.
    pub(crate) fn put_decimal(&mut self, number: Fraction, places: u8)
        requires few { places ≤ 9 }
        requires narrow { IsNarrow number }
        requires room { length self.old + 31 ≤ 112 }
        ensures value { self.new ≡ decimal_text_of number places ++ self.old }
        ensures room { length self.new ≤ length self.old + 31 }
    {
        let rounded = narrow_rounded(number, places);
        self.put_pointed(rounded, places);
        self.put_minus(number, rounded);
    }

    // Puts a minus before it where a number is below 0, and none where that is rounded to 0.
    fn put_minus(&mut self, number: Fraction, rounded: u64)
        requires { length self.old < 112 }
        ensures value { self.new ≡ minus_of (with_sign number.num rounded) ++ self.old }
        ensures room { length self.new ≤ length self.old + 1 }
    {
        if number.numerator() < 0 && rounded != 0 {
            self.put(b'-');
        }
    }
}

const SMALL: u64 = 1 << 32;

/// Whether 64 bits are enough for the decimals of a number.
pub(crate) fn is_narrow(number: Fraction) -> bool
    ensures { IsTrue result → IsNarrow number }
{
    number.numerator().unsigned_abs() < SMALL && number.denominator().unsigned_abs() < SMALL
}

// The magnitude of the whole number nearest to 10 ^ places times a number.
fn narrow_rounded(number: Fraction, places: u8) -> u64
    requires few { places ≤ 9 }
    requires narrow { IsNarrow number }
    ensures { result ≡ (2 * (unsigned_abs number.num * 10 ^ places) + den number) / (2 * den number) }
{
    let numerator = number.numerator().unsigned_abs();
    let denominator = number.denominator().unsigned_abs();
    (2 * (numerator * 10u64.pow(places as u32)) + denominator) / (2 * denominator)
}
