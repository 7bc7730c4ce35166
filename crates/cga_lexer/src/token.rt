use crate::sign::Sign;
use cga_fraction::Fraction;
use cga_word::Name;

/// What a token is. `Relative` is a number with an `r` right behind it, `Text` a name in quotes.
#[derive(Clone, Copy, Debug, PartialEq, Eq)]
pub enum TokenKind {
    Number(Fraction),
    Relative(Fraction),
    Word(Name),
    Text(Name),
    Sign(Sign),
}

/// A token with the places of its first byte and of the byte after it, counted from 1.
#[derive(Clone, Copy, Debug, PartialEq, Eq)]
pub struct Token {
    pub kind: TokenKind,
    pub from: u32,
    pub to: u32,
}
