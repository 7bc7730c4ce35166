ghost use Rattle.std.specs.Prelude.{◌≡◌, ◌+◌, ◌≤◌, ◌<◌, ℕ, length, map, IsTrue, ◌↔◌, OnOk};
ghost use Rattle.cga_form.specs.Tokens as spec;
ghost use Rattle.cga_syntax.specs.Lexemes.{lexeme_of};

use crate::fault::Fault;
use crate::words;
use cga_lexer::{Sign, Token, TokenKind};
use cga_syntax::{Keyword, Lexeme};

/// The tokens that are left, and how many rands were read.
#[derive(Clone, Copy)]
pub struct Tokens<'a> {
    pub rest: &'a [Token],
    pub rands: u16,
    ghost few: { rands + length rest.now ≤ 65535 },
}

fn is_next(next: Option<Lexeme>, wanted: Lexeme) -> bool
    ensures { IsTrue result ↔ (next ≡ Some wanted) }
{
    next == Some(wanted)
}

// Signs are asked for most, and a word needs no look at the reserved ones to be none.
fn is_sign(kind: TokenKind, sign: Sign) -> bool
    ensures { result ≡ spec.is_sign sign (lexeme_of kind) }
{
    match kind {
        TokenKind::Sign(next) => next == sign,
        _ => false,
    }
}

impl<'a> Tokens<'a> {
    ghost use Rattle.cga_form.specs.Cursor.{input_of, Finds, IsProper, seen};
    ghost use Rattle.cga_form.specs.Reader.{at, first, skipped, begins, taking, single, enter, drawn_word};
    ghost use Rattle.cga_form.specs.Parts.{a_word};

    /// All tokens of a line, of which none is read yet.
    pub fn of(tokens: &'a [Token]) -> Tokens<'a>
        requires { length tokens.now ≤ 65535 }
        ensures { input_of result ≡ at (map seen tokens.now) 0 }
    {
        Tokens {
            rest: tokens,
            rands: 0,
        }
    }

    /// The next token.
    pub fn peek(&self) -> Option<Lexeme>
        ensures value { result ≡ first (input_of self.now).left }
        ensures proper { IsProper result }
    {
        match self.rest {
            [] => None,
            [token, ..] => Some(Lexeme::of(token.kind)),
        }
    }

    /// Goes on after the next token, where there is one.
    pub fn skip(&mut self)
        ensures { input_of self.new ≡ skipped (input_of self.old) }
    {
        if let [_, rest @ ..] = self.rest {
            self.rest = rest;
        }
    }

    /// The refusal of the next token, or of the end.
    pub fn unexpected(&self) -> Fault
        ensures { result ≡ Fault.Unexpected (length (input_of self.now).left) }
    {
        Fault::Unexpected(self.rest.len())
    }

    /// Whether the sign comes next.
    pub fn at_sign(&self, sign: Sign) -> bool
        ensures { result ≡ begins (spec.is_sign sign) (input_of self.now).left }
    {
        match self.rest {
            [token, ..] => is_sign(token.kind, sign),
            [] => false,
        }
    }

    /// Whether the reserved word comes next.
    pub fn at_keyword(&self, keyword: Keyword) -> bool
        ensures { result ≡ begins (spec.is_keyword keyword) (input_of self.now).left }
    {
        is_next(self.peek(), Lexeme::Keyword(keyword))
    }

    /// Takes the next token, given what it stands for. It is unexpected where that is nothing.
    pub fn take<A>(&mut self, decoded: Option<A>) -> Result<A, Fault>
        ensures { Finds (taking decoded (input_of self.old)) result (input_of self.new) }
    {
        match decoded {
            Some(value) => {
                self.skip();
                Ok(value)
            }
            None => Err(self.unexpected()),
        }
    }

    /// Takes the sign, or refuses the next token.
    pub fn sign(&mut self, sign: Sign) -> Result<(), Fault>
        ensures { Finds (single (spec.a_sign sign) (input_of self.old)) result (input_of self.new) }
    {
        if self.at_sign(sign) {
            self.skip();
            return Ok(());
        }
        Err(self.unexpected())
    }

    /// Takes the reserved word, or refuses the next token.
    pub fn keyword(&mut self, keyword: Keyword) -> Result<(), Fault>
        ensures { Finds (single (spec.a_keyword keyword) (input_of self.old)) result (input_of self.new) }
    {
        if self.at_keyword(keyword) {
            self.skip();
            return Ok(());
        }
        Err(self.unexpected())
    }

    /// Whether a word that a form names comes next.
    pub fn at_word(&self, bytes: &[u8]) -> bool
        ensures { result ≡ begins (spec.is_word bytes.now) (input_of self.now).left }
    {
        words::word(self.peek(), bytes).is_some()
    }

    /// Takes a word that a form names, or refuses the next token.
    pub fn word(&mut self, bytes: &[u8]) -> Result<(), Fault>
        ensures { Finds (single (a_word bytes.now) (input_of self.old)) result (input_of self.new) }
    {
        self.take(words::word(self.peek(), bytes))
    }

    /// Takes an opening bracket, where so many brackets may still be opened.
    pub fn enter(&mut self, sign: Sign, depth: u8) -> Result<(), Fault>
        ensures reads { Finds (enter (spec.a_sign sign) depth (input_of self.old)) result (input_of self.new) }
        ensures inner { OnOk result (0 < depth) }
    {
        if !self.at_sign(sign) {
            return Err(self.unexpected());
        }
        if depth == 0 {
            return Err(Fault::TooNested(self.rest.len()));
        }
        self.skip();
        Ok(())
    }

    /// Takes the word of a rand, and gives its number.
    pub fn rand(&mut self) -> Result<u16, Fault>
        ensures { Finds (drawn_word (spec.a_keyword Keyword.Rand) (input_of self.old)) result (input_of self.new) }
    {
        match self.rest {
            [token, rest @ ..] if Lexeme::of(token.kind) == Lexeme::Keyword(Keyword::Rand) => {
                self.rest = rest;
                self.rands += 1;
                Ok(self.rands)
            }
            _ => Err(self.unexpected()),
        }
    }
}
