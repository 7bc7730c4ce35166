ghost use Rattle.std.specs.Prelude.{◌≡◌, ◌≤◌, ◌<◌, ◌^◌, pos, IfOk, Some};
ghost use Rattle.cga_fraction.specs.Rat.{of_int};
ghost use Rattle.cga_fraction.specs.Arithmetic.{divided};
ghost use Rattle.cga_form.specs.Cursor.{input_of, Finds};
ghost use Rattle.cga_form.specs.Parts as spec;

use crate::fault::Fault;
use crate::numbers;
use crate::tokens::Tokens;
use cga_fraction::Fraction;
use cga_lexer::Sign;

fn with_minus(minus: bool, value: Fraction) -> Fraction
    ensures { result ≡ spec.with_minus minus value }
{
    if minus { value.neg() } else { value }
}

/// n divided by d, which never leaves the range of fractions.
fn quotient(n: u64, d: u64) -> Fraction
    requires small { n ≤ 2 ^ 62 }
    requires above_zero { 0 < d }
    requires few { d ≤ 2 ^ 62 }
    ensures { result ≡ divided (of_int (pos n)) (of_int (pos d)) }
{
    match Fraction::new(n as i64, d as i64) {
        Ok(value) => value,
        Err(_) => unreachable!(),
    }
}

#[tactic(auto, unfolding(crate::specs::Parts::divisor))]
fn divisor(tokens: &mut Tokens<'_>) -> Result<u64, Fault>
    ensures reads { Finds (spec.divisor (input_of tokens.old)) result (input_of tokens.new) }
    ensures above_zero { IfOk result (λ d. 0 < d) }
    ensures few { IfOk result (λ d. d ≤ 2 ^ 62) }
{
    tokens.sign(Sign::Slash)?;
    tokens.take(numbers::divisor(tokens.peek()))
}

/// What stands after a whole number.
fn whole_rest(
    tokens: &mut Tokens<'_>,
    minus: bool,
    first: Fraction,
    n: u64,
) -> Result<Fraction, Fault>
    requires { n ≤ 2 ^ 62 }
    ensures { Finds (spec.magnitude_rest minus first (Some n) (input_of tokens.old)) result (input_of tokens.new) }
{
    if tokens.at_sign(Sign::Slash) {
        let d = divisor(tokens)?;
        return Ok(with_minus(minus, quotient(n, d)));
    }
    Ok(with_minus(minus, first))
}

#[tactic(auto, unfolding(crate::specs::Parts::magnitude))]
fn magnitude(tokens: &mut Tokens<'_>, minus: bool) -> Result<Fraction, Fault>
    ensures { Finds (spec.magnitude minus (input_of tokens.old)) result (input_of tokens.new) }
{
    let first = tokens.take(numbers::number(tokens.peek()))?;
    match numbers::whole_of(first) {
        Some(n) => whole_rest(tokens, minus, first, n),
        None => Ok(with_minus(minus, first)),
    }
}

/// A number, or two whole numbers with a slash between them, of which the second isn't 0; a minus may
/// stand before it. The value is exact, and none is out of range.
#[tactic(auto, unfolding(crate::specs::Parts::value))]
pub fn value(tokens: &mut Tokens<'_>) -> Result<Fraction, Fault>
    ensures { Finds (spec.value (input_of tokens.old)) result (input_of tokens.new) }
{
    if tokens.at_sign(Sign::Minus) {
        tokens.sign(Sign::Minus)?;
        return magnitude(tokens, true);
    }
    magnitude(tokens, false)
}
