//! What numbers stand for.
ghost use Rattle.std.specs.Prelude.{◌≡◌, ◌≤◌, ◌<◌, ◌^◌, IfSome};
ghost use Rattle.cga_form.specs.Reader.{decoded};
ghost use Rattle.cga_form.specs.Tokens as spec;
ghost use Rattle.cga_form.specs.Limits.{last_seed};
ghost use Rattle.cga_form.specs.Parts as parts;
ghost use Rattle.cga_form.specs.Words as words;
ghost use Rattle.cga_syntax.specs.declared.lexeme.Lexeme.TheVariants as lexeme;
ghost use Rattle.cga_syntax.specs.Limits.{last_edge, last_priority};

use crate::limits::LAST_SEED;
use cga_fraction::Fraction;
use cga_syntax::Lexeme;
use cga_syntax::limits::{LAST_EDGE, LAST_PRIORITY};
use cga_word::Turn;

/// A number, of any kind but a relative one.
pub fn number(next: Option<Lexeme>) -> Option<Fraction>
    ensures { result ≡ decoded spec.a_number next }
{
    match next? {
        Lexeme::Number(value) => Some(value),
        _ => None,
    }
}

/// A whole number within bounds.
pub fn whole(next: Option<Lexeme>, low: u32, high: u32) -> Option<u32>
    ensures value { result ≡ decoded (spec.a_whole low high) next }
    ensures below { IfSome result (λ n. n ≤ high) }
{
    match next? {
        Lexeme::Number(value) => within(value, low, high),
        _ => None,
    }
}

fn within(value: Fraction, low: u32, high: u32) -> Option<u32>
    ensures value { result ≡ spec.bounded low high (spec.whole_of value) }
    ensures below { IfSome result (λ n. n ≤ high) }
{
    if value.denominator() != 1 {
        return None;
    }
    match u32::try_from(value.numerator()) {
        Ok(n) if low <= n && n <= high => Some(n),
        _ => None,
    }
}

/// The value, where it is whole and not below 0.
pub fn whole_of(value: Fraction) -> Option<u64>
    ensures value { result ≡ spec.whole_of value }
    ensures small { IfSome result (λ n. n ≤ 2 ^ 62) }
{
    if value.denominator() != 1 {
        return None;
    }
    u64::try_from(value.numerator()).ok()
}

/// The seed of a lot.
pub fn seed(next: Option<Lexeme>) -> Option<u64>
    ensures { result ≡ decoded (spec.a_whole 0 last_seed) next }
{
    match next? {
        Lexeme::Number(value) => seed_of(value),
        _ => None,
    }
}

fn seed_of(value: Fraction) -> Option<u64>
    ensures { result ≡ spec.bounded 0 last_seed (spec.whole_of value) }
{
    let seed = whole_of(value)?;
    if seed <= LAST_SEED { Some(seed) } else { None }
}

/// A whole number that isn't 0.
pub fn divisor(next: Option<Lexeme>) -> Option<u64>
    ensures value { result ≡ decoded parts.a_divisor next }
    ensures above_zero { IfSome result (λ d. 0 < d) }
    ensures small { IfSome result (λ d. d ≤ 2 ^ 62) }
{
    match next? {
        Lexeme::Number(value) => above_zero(value),
        _ => None,
    }
}

fn above_zero(value: Fraction) -> Option<u64>
    ensures value { result ≡ parts.above_zero (spec.whole_of value) }
    ensures above_zero { IfSome result (λ d. 0 < d) }
    ensures small { IfSome result (λ d. d ≤ 2 ^ 62) }
{
    let n = whole_of(value)?;
    if n == 0 { None } else { Some(n) }
}

/// The priority of a symbol.
pub fn prio(next: Option<Lexeme>) -> Option<u16>
    ensures { result ≡ decoded (spec.a_whole 0 last_priority) next }
{
    match whole(next, 0, LAST_PRIORITY) {
        Some(number) => Some(number as u16),
        None => None,
    }
}

/// The number of an edge.
pub fn edge(next: Option<Lexeme>) -> Option<u8>
    ensures { result ≡ decoded (spec.a_whole 1 last_edge) next }
{
    match whole(next, 1, LAST_EDGE) {
        Some(number) => Some(number as u8),
        None => None,
    }
}

pub fn relative(next: Option<Lexeme>) -> Option<Fraction>
    ensures { result ≡ decoded words.a_relative next }
{
    match next? {
        Lexeme::Relative(factor) => Some(factor),
        _ => None,
    }
}

pub fn turn(next: Option<Lexeme>) -> Option<Turn>
    ensures { result ≡ decoded words.a_turn next }
{
    match next? {
        Lexeme::Number(value) => turn_of(value),
        _ => None,
    }
}

fn turn_of(value: Fraction) -> Option<Turn>
    ensures { result ≡ words.a_turn (lexeme.Number value) }
{
    match whole_of(value)? {
        0 => Some(Turn::By0),
        90 => Some(Turn::By90),
        180 => Some(Turn::By180),
        270 => Some(Turn::By270),
        _ => None,
    }
}

pub fn ninety(next: Option<Lexeme>) -> Option<()>
    ensures { result ≡ decoded words.a_ninety next }
{
    match next? {
        Lexeme::Number(value) => ninety_of(value),
        _ => None,
    }
}

fn ninety_of(value: Fraction) -> Option<()>
    ensures { result ≡ words.a_ninety (lexeme.Number value) }
{
    if whole_of(value)? == 90 {
        Some(())
    } else {
        None
    }
}
