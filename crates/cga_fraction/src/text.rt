ghost use Rattle.std.specs.Prelude.{◌≡◌, ◌≤◌, [], ◌∷◌, ◌++◌, OnOk, decimal};
ghost use Rattle.cga_fraction.specs.Decimals.{IsLiteral};
ghost use Rattle.cga_fraction.specs.Texts.{decimal_text_of, exact_text_of, literal_text_of};

use crate::fraction::Fraction;
use crate::list::List;
use crate::memory::NoMemory;
use itoa::Buffer;
use std::alloc::Global;
use std::marker::Model;

/// A text that grows. Contracts see it as the list of its bytes. After want of memory a part of what was pushed may
/// stand at its end.
#[derive(Drop)]
pub struct Text {
    bytes: Vec<u8>,
}

impl Model for Text {
    ghost use Rattle.std.specs.Prelude.{List, ℕ};

    ghost Value = { List ℕ };

    ghost view = { λ t. t.bytes.items };
}

impl Text {
    /// Takes no memory.
    pub fn new(alloc: Global) -> Text
        ensures { result ≡ [] }
    {
        Text {
            bytes: Vec::new(alloc),
        }
    }

    /// Takes no memory.
    pub fn into_list(self) -> List<u8>
        ensures { result ≡ self }
    {
        let Text { bytes } = self;
        List::from_vec(bytes)
    }

    /// Adds bytes. Takes memory, as each call below.
    pub fn push(&mut self, bytes: &[u8]) -> Result<(), NoMemory>
        ensures { OnOk result (self.new ≡ self.old ++ bytes.now) }
    {
        self.bytes.extend_from_slice(bytes)?;
        Ok(())
    }

    /// Adds one byte, in less time than a slice of one takes.
    pub fn push_byte(&mut self, byte: u8) -> Result<(), NoMemory>
        ensures { OnOk result (self.new ≡ self.old ++ byte ∷ []) }
    {
        self.bytes.push(byte)?;
        Ok(())
    }

    /// Adds a whole number in decimal digits.
    pub fn push_whole(&mut self, number: u128) -> Result<(), NoMemory>
        ensures { OnOk result (self.new ≡ self.old ++ decimal number) }
    {
        self.push(Buffer::new().format(number).as_bytes())
    }

    /// Adds the decimal text of a number with so many places.
    pub fn push_decimal(&mut self, number: Fraction, places: u8) -> Result<(), NoMemory>
        requires { places ≤ 9 }
        ensures { OnOk result (self.new ≡ self.old ++ decimal_text_of number places) }
    {
        number.push_decimal(&mut self.bytes, places)
    }

    /// Adds the shortest text that is read as a number.
    pub fn push_literal(&mut self, number: Fraction) -> Result<(), NoMemory>
        requires { IsLiteral number }
        ensures { OnOk result (self.new ≡ self.old ++ literal_text_of number) }
    {
        number.push_literal(&mut self.bytes)
    }

    /// Adds a number as `n` or `n/d`.
    pub fn push_exact(&mut self, number: Fraction) -> Result<(), NoMemory>
        ensures { OnOk result (self.new ≡ self.old ++ exact_text_of number) }
    {
        number.push_exact(&mut self.bytes)
    }
}
