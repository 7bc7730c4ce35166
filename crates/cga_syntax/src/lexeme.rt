ghost use Rattle.std.specs.Prelude.{◌≡◌};
ghost use Rattle.cga_syntax.specs.Lexemes.{lexeme_of};

use crate::keyword::{Keyword, keyword_of};
use cga_fraction::Fraction;
use cga_lexer::{Sign, TokenKind};
use cga_word::Name;

/// A token as the forms of the language see it: a word is a keyword where it is reserved, and a
/// name where it isn't. The other words that forms name, as `sx`, are names here.
#[derive(Clone, Copy, PartialEq, Eq)]
pub enum Lexeme {
    Number(Fraction),
    Relative(Fraction),
    Keyword(Keyword),
    Name(Name),
    Text(Name),
    Sign(Sign),
}

impl Lexeme {
    pub fn of(kind: TokenKind) -> Lexeme
        ensures { result ≡ lexeme_of kind }
    {
        match kind {
            TokenKind::Number(value) => Lexeme::Number(value),
            TokenKind::Relative(value) => Lexeme::Relative(value),
            TokenKind::Text(name) => Lexeme::Text(name),
            TokenKind::Sign(sign) => Lexeme::Sign(sign),
            TokenKind::Word(word) => match keyword_of(word) {
                Some(keyword) => Lexeme::Keyword(keyword),
                None => Lexeme::Name(word),
            },
        }
    }
}
