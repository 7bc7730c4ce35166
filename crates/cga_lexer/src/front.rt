ghost use Rattle.std.specs.Prelude.{◌≡◌, ℕ, ◌<◌, ◌∷◌, IsTrue, length};
ghost use Rattle.cga_lexer.specs.Front as spec;
ghost use Rattle.cga_lexer.specs.Front.{IsWithin};
ghost use Rattle.cga_lexer.specs.Bytes.{begins};
ghost use Rattle.cga_word.specs.Name.{begins_name, continues_name};
ghost use Rattle.std.specs.List.{list_all};

use crate::bytes;
use crate::number::number;
use crate::sign::Sign;
use crate::token::TokenKind;
use cga_word::Name;

/// What stands at the front of a text. A token comes with its number of bytes, a fault with the
/// number of bytes before its place. `End` is the end of the line, or a comment.
#[derive(Clone, Copy, Debug)]
pub enum Front {
    End,
    Blank,
    Token(TokenKind, usize),
    BadByte(usize),
    BadNumber,
    LongName(usize),
    OpenText,
}

/// Looks at the front of a text. No memory is taken.
#[tactic(auto, unfolding(crate::specs::Front::front, crate::specs::Bytes::run))]
pub fn look_at(text: &[u8]) -> Front
    ensures value { result ≡ spec.front text.now }
    ensures within { IsWithin result text.now }
{
    let [first, rest @ ..] = text else {
        return Front::End;
    };
    match *first {
        b'#' => Front::End,
        b' ' | b'\t' => Front::Blank,
        b'"' => quoted(rest),
        byte if bytes::is_digit(byte) => number(text),
        byte if bytes::begins_name(byte) => word(text),
        byte => sign(byte, rest),
    }
}

#[tactic(auto, using(crate::proofs::Running::run_within), unfolding(crate::specs::Front::word))]
fn word(text: &[u8]) -> Front
    requires { IsTrue (begins begins_name text.now) }
    ensures value { result ≡ spec.word text.now }
    ensures within { IsWithin result text.now }
{
    let (name, _) = text.split_at(bytes::word_len(text));
    match Name::read(name) {
        Some(found) => Front::Token(TokenKind::Word(found), name.len()),
        None => Front::LongName(0),
    }
}

#[tactic(auto, using(crate::proofs::Running::run_within), unfolding(crate::specs::Front::quoted))]
fn quoted(rest: &[u8]) -> Front
    ensures value { result ≡ spec.quoted rest.now }
    ensures within { (b : ℕ) → IsWithin result (b ∷ rest.now) }
{
    if bytes::at_digit(rest) {
        return Front::BadByte(1);
    }
    let (name, end) = rest.split_at(bytes::word_len(rest));
    match end {
        [] => Front::OpenText,
        [next, ..] if *next == b'"' && !name.is_empty() => closed(name),
        _ => Front::BadByte(name.len() + 1),
    }
}

/// The token of a name in quotes.
fn closed(name: &[u8]) -> Front
    requires begun { IsTrue (begins begins_name name.now) }
    requires going_on { IsTrue (list_all continues_name name.now) }
    ensures { result ≡ spec.closed name.now }
{
    match Name::read(name) {
        Some(found) => Front::Token(TokenKind::Text(found), name.len() + 2),
        None => Front::LongName(1),
    }
}

#[tactic(auto, unfolding(crate::specs::Front::sign_of))]
fn sign(first: u8, rest: &[u8]) -> Front
    ensures value { result ≡ spec.sign_of first rest.now }
    ensures within { IsWithin result (first ∷ rest.now) }
{
    if let [second, ..] = rest {
        if let Some(sign) = pair(first, *second) {
            return Front::Token(TokenKind::Sign(sign), 2);
        }
    }
    match single(first) {
        Some(sign) => Front::Token(TokenKind::Sign(sign), 1),
        None => Front::BadByte(0),
    }
}

fn pair(first: u8, second: u8) -> Option<Sign>
    ensures { result ≡ spec.pair first second }
{
    match (first, second) {
        (b'-', b'>') => Some(Sign::Arrow),
        (b'=', b'=') => Some(Sign::Equal),
        (b'!', b'=') => Some(Sign::Unequal),
        (b'<', b'=') => Some(Sign::AtMost),
        (b'>', b'=') => Some(Sign::AtLeast),
        _ => None,
    }
}

fn single(byte: u8) -> Option<Sign>
    ensures { result ≡ spec.single byte }
{
    match byte {
        b'(' => Some(Sign::LeftRound),
        b')' => Some(Sign::RightRound),
        b'[' => Some(Sign::LeftSquare),
        b']' => Some(Sign::RightSquare),
        b'{' => Some(Sign::LeftCurly),
        b'}' => Some(Sign::RightCurly),
        b',' => Some(Sign::Comma),
        b':' => Some(Sign::Colon),
        b'|' => Some(Sign::Bar),
        b'+' => Some(Sign::Plus),
        b'-' => Some(Sign::Minus),
        b'*' => Some(Sign::Star),
        b'/' => Some(Sign::Slash),
        b'.' => Some(Sign::Dot),
        b'=' => Some(Sign::Assign),
        b'<' => Some(Sign::Less),
        b'>' => Some(Sign::Greater),
        _ => None,
    }
}
