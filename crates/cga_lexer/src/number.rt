ghost use Rattle.std.specs.Prelude.{◌≡◌, ℕ, List, ◌+◌, ◌<◌, ◌≤◌, ◌^◌, length};
ghost use Rattle.cga_lexer.specs.Front as spec;
ghost use Rattle.cga_lexer.specs.Front.{IsWithin};
ghost use Rattle.cga_lexer.specs.Bytes.{run};
ghost use Rattle.std.specs.Char.{is_ascii_digit};

use crate::bytes;
use crate::front::Front;
use crate::token::TokenKind;
use cga_fraction::Fraction;

/// The greatest number of digits, on both sides of the point together.
const DIGITS: usize = 18;

/// A number's bytes, and how many of them are digits.
#[derive(Clone, Copy)]
struct Extent {
    len: usize,
    digits: usize,
}

#[tactic(auto, using(crate::proofs::Running::run_within), unfolding(crate::specs::Front::number))]
pub(crate) fn number(text: &[u8]) -> Front
    requires { 0 < run is_ascii_digit text.now }
    ensures value { result ≡ spec.number text.now }
    ensures within { IsWithin result text.now }
{
    let extent = extent_of(text);
    if extent.digits > DIGITS {
        return Front::BadNumber;
    }
    let (digits, rest) = text.split_at(extent.len);
    match Fraction::of_decimal(digits) {
        Ok(value) => followed(value, extent.len, rest),
        Err(_) => Front::BadNumber,
    }
}

#[tactic(auto, using(crate::proofs::Running::run_within))]
fn extent_of(text: &[u8]) -> Extent
    ensures len { result.len ≡ spec.number_len text.now }
    ensures digits { result.digits ≡ spec.digit_count text.now }
    ensures within { result.len ≤ length text.now }
{
    let whole = bytes::digits_len(text);
    let decimals = decimals_len(text.split_at(whole).1);
    let point = usize::from(decimals > 0);
    Extent {
        len: whole + point + decimals,
        digits: whole + decimals,
    }
}

fn decimals_len(text: &[u8]) -> usize
    ensures { result ≡ spec.decimals text.now }
{
    match text {
        [first, rest @ ..] if *first == b'.' => bytes::digits_len(rest),
        _ => 0,
    }
}

fn followed(value: Fraction, len: usize, rest: &[u8]) -> Front
    requires few { len < 2 ^ 63 }
    requires some { 0 < len }
    ensures value { result ≡ spec.followed value len rest.now }
    ensures within { (text : List ℕ) → length text ≡ len + length rest.now → IsWithin result text }
{
    if is_mark(rest) {
        Front::Token(TokenKind::Relative(value), len + 1)
    } else if bytes::at_name(rest) {
        Front::BadNumber
    } else {
        Front::Token(TokenKind::Number(value), len)
    }
}

fn is_mark(rest: &[u8]) -> bool
    ensures { result ≡ spec.is_mark rest.now }
{
    match rest {
        [first, rest @ ..] => *first == b'r' && !bytes::at_name_byte(rest),
        [] => false,
    }
}
