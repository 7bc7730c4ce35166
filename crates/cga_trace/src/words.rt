//! The words of a step, written and read.
ghost use Rattle.std.specs.Prelude.{◌≡◌, ◌<◌, ◌^◌, ℕ, IfSome, Some, decimal};
ghost use Rattle.cga_trace.specs.Words as spec;

use cga_shape::ShapeFault;
use cga_word::Answer;

#[tactic(auto, unfolding(crate::specs::Words::answer_word))]
pub fn answer_word(answer: Option<Answer>) -> &'static [u8]
    ensures { result.now ≡ spec.answer_word answer }
{
    match answer {
        None => b"-",
        Some(Answer::Nothing) => b"none",
        Some(Answer::Part) => b"part",
        Some(Answer::Full) => b"full",
    }
}

#[tactic(auto, unfolding(crate::specs::Words::read_answer))]
pub fn read_answer(word: &[u8]) -> Option<Option<Answer>>
    ensures { result ≡ spec.read_answer word.now }
{
    if word == b"-".as_slice() {
        Some(None)
    } else if word == b"none".as_slice() {
        Some(Some(Answer::Nothing))
    } else if word == b"part".as_slice() {
        Some(Some(Answer::Part))
    } else if word == b"full".as_slice() {
        Some(Some(Answer::Full))
    } else {
        None
    }
}

#[tactic(auto, unfolding(crate::specs::Words::read_fault))]
pub fn read_fault(word: &[u8]) -> Option<ShapeFault>
    ensures { result ≡ spec.read_fault word.now }
{
    if word == b"TooDeep".as_slice() {
        Some(ShapeFault::TooDeep)
    } else if word == b"Unmatched".as_slice() {
        Some(ShapeFault::Unmatched)
    } else if word == b"Overflow".as_slice() {
        Some(ShapeFault::Overflow)
    } else if word == b"ZeroDivide".as_slice() {
        Some(ShapeFault::ZeroDivide)
    } else if word == b"NegativeSize".as_slice() {
        Some(ShapeFault::NegativeSize)
    } else if word == b"FlatScope".as_slice() {
        Some(ShapeFault::FlatScope)
    } else if word == b"PartNotPositive".as_slice() {
        Some(ShapeFault::PartNotPositive)
    } else if word == b"SubdivSum".as_slice() {
        Some(ShapeFault::SubdivSum)
    } else if word == b"RepeatCount".as_slice() {
        Some(ShapeFault::RepeatCount)
    } else if word == b"TooManyParts".as_slice() {
        Some(ShapeFault::TooManyParts)
    } else if word == b"TooManyChildren".as_slice() {
        Some(ShapeFault::TooManyChildren)
    } else {
        None
    }
}

/// The number that is written so, where one is.
pub fn read_number(word: &[u8]) -> Option<u16>
    ensures again { (n : ℕ) → n < 2 ^ 16 → word.now ≡ decimal n → result ≡ Some n }
    ensures few { IfSome result (λ n. n < 2 ^ 16) }
{
    let Ok(text) = std::str::from_utf8(word) else {
        return None;
    };
    match text.parse::<u16>() {
        Ok(number) => Some(number),
        Err(_) => None,
    }
}
