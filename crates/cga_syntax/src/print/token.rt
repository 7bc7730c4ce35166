//! Single tokens, appended to those that are there. What no line spells is left out: a name that is
//! reserved, and a whole number out of its bounds.
ghost use Rattle.std.specs.Prelude.{◌≡◌, ◌++◌, ◌∷◌, [], OnOk, pos, if◌then◌else◌};
ghost use Rattle.cga_fraction.specs.Rat.{of_int};
ghost use Rattle.cga_syntax.specs.Pieces as spec;
ghost use Rattle.cga_syntax.specs.Printing.{usually, printed_piece, printed_on, marked, degrees};

use crate::keyword::{Keyword, keyword_of};
use crate::lexeme::Lexeme;
use crate::print::mark::Mark;
use crate::print::space::Space;
use cga_fraction::{Fraction, List, NoMemory};
use cga_lexer::Sign;
use cga_word::{Name, Turn};

pub(crate) fn push_lexeme(marks: &mut List<Mark>, lexeme: Lexeme) -> Result<(), NoMemory>
    ensures { OnOk result (marks.new ≡ marks.old ++ usually lexeme ∷ []) }
{
    marks.push(Mark::usual(lexeme))
}

pub(crate) fn push_sign(marks: &mut List<Mark>, sign: Sign) -> Result<(), NoMemory>
    ensures { OnOk result (marks.new ≡ marks.old ++ printed_piece (spec.sign sign)) }
{
    push_lexeme(marks, Lexeme::Sign(sign))
}

/// The token between two members of a list; nothing before the first.
pub(crate) fn push_between(
    marks: &mut List<Mark>,
    between: bool,
    lexeme: Lexeme,
) -> Result<(), NoMemory>
    ensures { OnOk result (marks.new ≡ (if between then marks.old ++ printed_piece (spec.plain lexeme) else marks.old)) }
{
    if between {
        push_lexeme(marks, lexeme)
    } else {
        Ok(())
    }
}

/// A sign with no space on one side.
pub(crate) fn push_close(marks: &mut List<Mark>, space: Space, sign: Sign) -> Result<(), NoMemory>
    ensures { OnOk result (marks.new ≡ marks.old ++ marked space (Lexeme.Sign sign) ∷ []) }
{
    marks.push(Mark {
        lexeme: Lexeme::Sign(sign),
        space,
    })
}

pub(crate) fn push_keyword(marks: &mut List<Mark>, keyword: Keyword) -> Result<(), NoMemory>
    ensures { OnOk result (marks.new ≡ marks.old ++ printed_piece (spec.keyword keyword)) }
{
    push_lexeme(marks, Lexeme::Keyword(keyword))
}

/// A word that the language knows but doesn't reserve.
pub(crate) fn push_word(marks: &mut List<Mark>, word: Name) -> Result<(), NoMemory>
    ensures { OnOk result (marks.new ≡ marks.old ++ printed_piece (spec.word word)) }
{
    push_lexeme(marks, Lexeme::Name(word))
}

pub(crate) fn push_text(marks: &mut List<Mark>, text: Name) -> Result<(), NoMemory>
    ensures { OnOk result (marks.new ≡ marks.old ++ printed_piece (spec.text text)) }
{
    push_lexeme(marks, Lexeme::Text(text))
}

/// A reserved word and the bracket behind it.
pub(crate) fn push_opened(marks: &mut List<Mark>, keyword: Keyword) -> Result<(), NoMemory>
    ensures { OnOk result (marks.new ≡ printed_on marks.old (spec.keyword keyword ∷ spec.sign Sign.LeftRound ∷ [])) }
{
    push_keyword(marks, keyword)?;
    push_sign(marks, Sign::LeftRound)
}

/// A text in brackets.
pub(crate) fn push_in_round(marks: &mut List<Mark>, text: Name) -> Result<(), NoMemory>
    ensures { OnOk result (marks.new ≡ printed_on marks.old (spec.sign Sign.LeftRound ∷ spec.text text ∷ spec.sign Sign.RightRound ∷ [])) }
{
    push_sign(marks, Sign::LeftRound)?;
    push_text(marks, text)?;
    push_sign(marks, Sign::RightRound)
}

/// What is asked of the scope.
pub(crate) fn push_of_scope(marks: &mut List<Mark>, word: Name) -> Result<(), NoMemory>
    ensures { OnOk result (marks.new ≡ printed_on marks.old (spec.keyword Keyword.Scope ∷ spec.sign Sign.Dot ∷ spec.word word ∷ [])) }
{
    push_keyword(marks, Keyword::Scope)?;
    push_sign(marks, Sign::Dot)?;
    push_word(marks, word)
}

pub(crate) fn push_named(marks: &mut List<Mark>, name: Name) -> Result<(), NoMemory>
    ensures { OnOk result (marks.new ≡ marks.old ++ printed_piece (spec.named name)) }
{
    match keyword_of(name) {
        Some(_) => Ok(()),
        None => push_word(marks, name),
    }
}

#[tactic(auto, using(crate::proofs::Wholes::whole_is))]
fn whole(n: u32) -> Fraction
    ensures { result ≡ of_int (pos n) }
{
    Fraction::new(i64::from(n), 1).unwrap()
}

/// A whole number within bounds.
pub(crate) fn push_whole(
    marks: &mut List<Mark>,
    low: u32,
    high: u32,
    n: u32,
) -> Result<(), NoMemory>
    ensures { OnOk result (marks.new ≡ marks.old ++ printed_piece (spec.whole low high n)) }
{
    if low <= n && n <= high {
        push_lexeme(marks, Lexeme::Number(whole(n)))
    } else {
        Ok(())
    }
}

pub(crate) fn push_turn(marks: &mut List<Mark>, turn: Turn) -> Result<(), NoMemory>
    ensures { OnOk result (marks.new ≡ marks.old ++ printed_piece (spec.turned turn)) }
{
    push_lexeme(marks, Lexeme::Number(whole(degrees(turn))))
}

fn degrees(turn: Turn) -> u32
    ensures { result ≡ degrees turn }
{
    match turn {
        Turn::By0 => 0,
        Turn::By90 => 90,
        Turn::By180 => 180,
        Turn::By270 => 270,
    }
}

/// The probability of an alternative with its colon; nothing where it is 1.
pub(crate) fn push_probability(
    marks: &mut List<Mark>,
    probability: Fraction,
) -> Result<(), NoMemory>
    ensures { OnOk result (marks.new ≡ marks.old ++ printed_piece (spec.probability probability)) }
{
    if probability.numerator() == 1 && probability.denominator() == 1 {
        return Ok(());
    }
    push_sign(marks, Sign::Colon)?;
    push_lexeme(marks, Lexeme::Number(probability))
}
