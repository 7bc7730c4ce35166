//! The bytes of tokens, with a space between two of them or none.
ghost use Rattle.std.specs.Prelude.{◌≡◌, ◌++◌, OnOk};
ghost use Rattle.cga_syntax.specs.Lexemes.{keyword_bytes};
ghost use Rattle.cga_syntax.specs.Printing as spec;

use crate::keyword::Keyword;
use crate::lexeme::Lexeme;
use crate::print::mark::Mark;
use crate::print::space::Space;
use cga_fraction::{NoMemory, Text};
use cga_lexer::Sign;
use cga_word::Name;

/// Appends the text of the tokens.
pub(crate) fn push_marks(text: &mut Text, marks: &[Mark]) -> Result<(), NoMemory>
    requires { spec.HaveTexts marks.now }
    ensures { OnOk result (text.new ≡ text.old ++ spec.text_of marks.now) }
{
    let mut last = None;
    for mark in marks {
        push_space(text, last, *mark)?;
        push_bytes(text, mark.lexeme)?;
        last = Some(*mark);
    }
    Ok(())
}

fn push_space(text: &mut Text, last: Option<Mark>, next: Mark) -> Result<(), NoMemory>
    ensures { OnOk result (text.new ≡ text.old ++ spec.space_before last next) }
{
    match last {
        Some(last) if !closes_up(last, next) => { text.push(b" ") }
        _ => Ok(()),
    }
}

fn push_bytes(text: &mut Text, lexeme: Lexeme) -> Result<(), NoMemory>
    requires { spec.HasText lexeme }
    ensures { OnOk result (text.new ≡ text.old ++ spec.lexeme_bytes lexeme) }
{
    match lexeme {
        Lexeme::Number(value) => text.push_literal(value),
        Lexeme::Relative(value) => {
            text.push_literal(value)?;
            text.push(b"r")
        }
        Lexeme::Keyword(keyword) => text.push(keyword_bytes(keyword)),
        Lexeme::Name(name) => text.push(name.bytes()),
        Lexeme::Text(name) => push_quoted(text, name),
        Lexeme::Sign(sign) => text.push(sign_bytes(sign)),
    }
}

fn push_quoted(text: &mut Text, name: Name) -> Result<(), NoMemory>
    ensures { OnOk result (text.new ≡ text.old ++ spec.lexeme_bytes (Lexeme.Text name)) }
{
    text.push(b"\"")?;
    text.push(name.bytes())?;
    text.push(b"\"")
}

/// No space stands between two neighbours.
fn closes_up(before: Mark, next: Mark) -> bool
    ensures { result ≡ spec.closes_up before next }
{
    opens(before.lexeme)
        || closes(next.lexeme)
        || is_word(before.lexeme) && opens(next.lexeme)
        || is_prefix(before) && begins_primary(next.lexeme)
        || is_label(next)
}

fn opens(lexeme: Lexeme) -> bool
    ensures { result ≡ spec.is_left lexeme }
{
    matches!(lexeme, Lexeme::Sign(Sign::LeftRound | Sign::Dot))
}

fn closes(lexeme: Lexeme) -> bool
    ensures { result ≡ spec.is_right lexeme }
{
    matches!(lexeme, Lexeme::Sign(Sign::RightRound | Sign::Comma))
}

fn is_word(lexeme: Lexeme) -> bool
    ensures { result ≡ spec.is_word lexeme }
{
    matches!(lexeme, Lexeme::Keyword(_) | Lexeme::Name(_))
}

/// A `-` that begins a factor.
fn is_prefix(mark: Mark) -> bool
    ensures { result ≡ spec.is_prefix mark }
{
    matches!(mark.lexeme, Lexeme::Sign(Sign::Minus)) && mark.space == Space::NoneAfter
}

fn begins_primary(lexeme: Lexeme) -> bool
    ensures { result ≡ spec.begins_primary lexeme }
{
    matches!(
        lexeme,
        Lexeme::Number(_) | Lexeme::Keyword(_) | Lexeme::Name(_) | Lexeme::Sign(Sign::LeftRound)
    )
}

/// The colon after the id.
fn is_label(mark: Mark) -> bool
    ensures { result ≡ spec.is_label mark }
{
    matches!(mark.lexeme, Lexeme::Sign(Sign::Colon)) && mark.space == Space::NoneBefore
}

fn keyword_bytes(keyword: Keyword) -> &'static [u8]
    ensures { result.now ≡ keyword_bytes keyword }
{
    match keyword {
        Keyword::T => b"T",
        Keyword::S => b"S",
        Keyword::Rx => b"Rx",
        Keyword::Ry => b"Ry",
        Keyword::Rz => b"Rz",
        Keyword::I => b"I",
        Keyword::Subdiv => b"Subdiv",
        Keyword::Repeat => b"Repeat",
        Keyword::Comp => b"Comp",
        Keyword::Nil => b"NIL",
        Keyword::Scope => b"Scope",
        Keyword::Rand => b"rand",
        Keyword::Floor => b"floor",
        Keyword::Ceil => b"ceil",
        Keyword::And => b"and",
        Keyword::Or => b"or",
        Keyword::Not => b"not",
    }
}

fn sign_bytes(sign: Sign) -> &'static [u8]
    ensures { result.now ≡ spec.sign_bytes sign }
{
    match sign {
        Sign::LeftRound => b"(",
        Sign::RightRound => b")",
        Sign::LeftSquare => b"[",
        Sign::RightSquare => b"]",
        Sign::LeftCurly => b"{",
        Sign::RightCurly => b"}",
        Sign::Comma => b",",
        Sign::Colon => b":",
        Sign::Bar => b"|",
        Sign::Plus => b"+",
        Sign::Minus => b"-",
        Sign::Star => b"*",
        Sign::Slash => b"/",
        Sign::Dot => b".",
        Sign::Assign => b"=",
        Sign::Arrow => b"->",
        Sign::Equal => b"==",
        Sign::Unequal => b"!=",
        Sign::Less => b"<",
        Sign::AtMost => b"<=",
        Sign::Greater => b">",
        Sign::AtLeast => b">=",
    }
}
