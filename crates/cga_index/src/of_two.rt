//! Two answers taken together.
ghost use Rattle.std.specs.Prelude.{◌≡◌, true, false};
ghost use Rattle.cga_index.specs.Occlusion.{join};
ghost use Rattle.cga_word.specs.declared.answer.Answer.TheVariants.{Full, Nothing};

use cga_word::Answer;

/// Of two answers the stronger one.
pub fn joined(first: Answer, second: Answer) -> Answer
    ensures { result ≡ join first second }
{
    match first {
        Answer::Full => Answer::Full,
        Answer::Part => match second {
            Answer::Full => Answer::Full,
            Answer::Part | Answer::Nothing => Answer::Part,
        },
        Answer::Nothing => second,
    }
}

/// Whether nothing that is found later can change the answer.
pub fn is_full(answer: Answer) -> bool
    ensures full { result ≡ true → answer ≡ Full }
    ensures other { answer ≡ Full → result ≡ true }
{
    matches!(answer, Answer::Full)
}

/// Whether nothing was found.
pub fn is_nothing(answer: Answer) -> bool
    ensures nothing { result ≡ true → answer ≡ Nothing }
    ensures other { answer ≡ Nothing → result ≡ true }
{
    matches!(answer, Answer::Nothing)
}

/// Whether what is found may add to what was found before.
pub(crate) fn adds(before: Answer, found: Answer) -> bool
    ensures { result ≡ false → before ≡ join before found }
{
    match found {
        Answer::Full => true,
        Answer::Part => is_nothing(before),
        Answer::Nothing => false,
    }
}
