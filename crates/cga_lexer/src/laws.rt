ghost use Rattle.std.specs.Prelude.{◌≡◌, ◌≤◌, ◌+◌, ℕ, List, IsTrue, take, drop, Ok};
ghost use Rattle.std.specs.Char.{is_ascii_digit};
ghost use Rattle.cga_fraction.specs.Decimals.{decimal_of, value_of};
ghost use Rattle.cga_lexer.specs.Bytes.{begins};
ghost use Rattle.cga_lexer.specs.Front.{number_len, digit_count, before, behind};

/// A number of at most 18 digits stands for what its digits write before and after its point, so that it
/// is a `BadNumber` only for the letter or the `_` that follows it.
pub fn numbers_have_values()
    ensures { (text : List ℕ) → IsTrue (begins is_ascii_digit text) → digit_count text ≤ 18
        → decimal_of (take (number_len text) text) ≡ Ok (value_of (before text) (behind text)) }
{}
