ghost use Rattle.std.specs.Prelude.{◌≡◌};
ghost use Rattle.cga_syntax.specs.Lexemes as spec;

use cga_word::Name;

/// A reserved word: it is no name of a symbol, a parameter, an attribute, a lot or an asset.
#[derive(Clone, Copy, PartialEq, Eq)]
pub enum Keyword {
    T,
    S,
    Rx,
    Ry,
    Rz,
    I,
    Subdiv,
    Repeat,
    Comp,
    Nil,
    Scope,
    Rand,
    Floor,
    Ceil,
    And,
    Or,
    Not,
}

fn is(word: &[u8], bytes: &[u8]) -> bool
    ensures { result ≡ spec.is word.now bytes.now }
{
    word == bytes
}

/// The reserved word that is spelled so: of its length there are at most four.
#[tactic(auto, using(crate::proofs::Keywords::one_bytes, crate::proofs::Keywords::two_bytes, crate::proofs::Keywords::three_bytes, crate::proofs::Keywords::four_bytes, crate::proofs::Keywords::five_bytes, crate::proofs::Keywords::six_bytes, crate::proofs::Keywords::other_bytes))]
pub(crate) fn keyword_of(word: Name) -> Option<Keyword>
    ensures { result ≡ spec.keyword_of word }
{
    let word = word.bytes();
    match word.len() {
        1 => one_byte_keyword(word),
        2 => two_byte_keyword(word),
        3 => three_byte_keyword(word),
        4 => four_byte_keyword(word),
        5 => five_byte_keyword(word),
        6 => six_byte_keyword(word),
        _ => None,
    }
}

fn one_byte_keyword(word: &[u8]) -> Option<Keyword>
    ensures { result ≡ spec.one_byte_keyword word.now }
{
    if is(word, b"T") {
        Some(Keyword::T)
    } else if is(word, b"S") {
        Some(Keyword::S)
    } else if is(word, b"I") {
        Some(Keyword::I)
    } else {
        None
    }
}

fn two_byte_keyword(word: &[u8]) -> Option<Keyword>
    ensures { result ≡ spec.two_byte_keyword word.now }
{
    if is(word, b"Rx") {
        Some(Keyword::Rx)
    } else if is(word, b"Ry") {
        Some(Keyword::Ry)
    } else if is(word, b"Rz") {
        Some(Keyword::Rz)
    } else if is(word, b"or") {
        Some(Keyword::Or)
    } else {
        None
    }
}

fn three_byte_keyword(word: &[u8]) -> Option<Keyword>
    ensures { result ≡ spec.three_byte_keyword word.now }
{
    if is(word, b"NIL") {
        Some(Keyword::Nil)
    } else if is(word, b"and") {
        Some(Keyword::And)
    } else if is(word, b"not") {
        Some(Keyword::Not)
    } else {
        None
    }
}

fn four_byte_keyword(word: &[u8]) -> Option<Keyword>
    ensures { result ≡ spec.four_byte_keyword word.now }
{
    if is(word, b"Comp") {
        Some(Keyword::Comp)
    } else if is(word, b"rand") {
        Some(Keyword::Rand)
    } else if is(word, b"ceil") {
        Some(Keyword::Ceil)
    } else {
        None
    }
}

fn five_byte_keyword(word: &[u8]) -> Option<Keyword>
    ensures { result ≡ spec.five_byte_keyword word.now }
{
    if is(word, b"Scope") {
        Some(Keyword::Scope)
    } else if is(word, b"floor") {
        Some(Keyword::Floor)
    } else {
        None
    }
}

fn six_byte_keyword(word: &[u8]) -> Option<Keyword>
    ensures { result ≡ spec.six_byte_keyword word.now }
{
    if is(word, b"Subdiv") {
        Some(Keyword::Subdiv)
    } else if is(word, b"Repeat") {
        Some(Keyword::Repeat)
    } else {
        None
    }
}
