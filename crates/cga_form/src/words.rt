//! What single tokens stand for: a word, a name, a sign.
ghost use Rattle.std.specs.Prelude.{◌≡◌};
ghost use Rattle.cga_form.specs.Cursor.{IsProper};
ghost use Rattle.cga_form.specs.Reader.{decoded};
ghost use Rattle.cga_form.specs.Tokens as spec;
ghost use Rattle.cga_form.specs.Parts.{a_word};
ghost use Rattle.cga_form.specs.Words as words;
ghost use Rattle.cga_syntax.specs.Lexemes.{is};
ghost use Rattle.cga_syntax.specs.declared.lexeme.Lexeme.TheVariants as lexeme;

use crate::chosen::{Kind, chosen};
use crate::heads::{ItemHead, PrimaryHead, ScopeWord};
use cga_lexer::Sign;
use cga_syntax::{Keyword, Lexeme, Relation};
use cga_word::{Axis, Name};

pub fn name(next: Option<Lexeme>) -> Option<Name>
    requires { IsProper next }
    ensures { result ≡ decoded spec.a_name next }
{
    match next? {
        Lexeme::Name(name) => Some(name),
        _ => None,
    }
}

/// A word that a form names.
pub fn word(next: Option<Lexeme>, bytes: &[u8]) -> Option<()>
    ensures { result ≡ decoded (a_word bytes.now) next }
{
    match next? {
        Lexeme::Name(name) => same(name, bytes),
        _ => None,
    }
}

fn same(name: Name, bytes: &[u8]) -> Option<()>
    ensures { result ≡ spec.passing (is name bytes.now) }
{
    if is(name, bytes) { Some(()) } else { None }
}

/// Whether a word or a text is spelled so.
pub(crate) fn is(word: Name, bytes: &[u8]) -> bool
    ensures { result ≡ is word bytes.now }
{
    word.bytes() == bytes
}

pub fn primary_head(next: Option<Lexeme>) -> Option<PrimaryHead>
    requires { IsProper next }
    ensures { result ≡ decoded words.primary_head next }
{
    match next? {
        Lexeme::Number(value) => Some(PrimaryHead::Number(value)),
        Lexeme::Name(name) => Some(PrimaryHead::Named(name)),
        Lexeme::Keyword(keyword) => primary_keyword(keyword),
        _ => None,
    }
}

fn primary_keyword(keyword: Keyword) -> Option<PrimaryHead>
    ensures { result ≡ words.primary_head (lexeme.Keyword keyword) }
{
    match keyword {
        Keyword::Scope => Some(PrimaryHead::Scope),
        Keyword::Floor => Some(PrimaryHead::Floor),
        Keyword::Ceil => Some(PrimaryHead::Ceil),
        _ => None,
    }
}

pub fn addition(next: Option<Lexeme>) -> Option<bool>
    ensures { result ≡ decoded words.an_addition next }
{
    match next {
        Some(Lexeme::Sign(Sign::Plus)) => Some(false),
        Some(Lexeme::Sign(Sign::Minus)) => Some(true),
        _ => None,
    }
}

pub fn scaling(next: Option<Lexeme>) -> Option<bool>
    ensures { result ≡ decoded words.a_scaling next }
{
    match next {
        Some(Lexeme::Sign(Sign::Star)) => Some(false),
        Some(Lexeme::Sign(Sign::Slash)) => Some(true),
        _ => None,
    }
}

pub fn size_axis(next: Option<Lexeme>) -> Option<Axis>
    ensures { result ≡ decoded words.size_axis next }
{
    chosen(
        next,
        Kind::Name,
        &[(b"sx", Axis::X), (b"sy", Axis::Y), (b"sz", Axis::Z)],
    )
}

pub fn relation(next: Option<Lexeme>) -> Option<Relation>
    ensures { result ≡ decoded words.a_relation next }
{
    match next {
        Some(Lexeme::Sign(Sign::Equal)) => Some(Relation::Equal),
        Some(Lexeme::Sign(Sign::Unequal)) => Some(Relation::Unequal),
        Some(Lexeme::Sign(Sign::Less)) => Some(Relation::Less),
        Some(Lexeme::Sign(Sign::AtMost)) => Some(Relation::AtMost),
        Some(Lexeme::Sign(Sign::Greater)) => Some(Relation::Greater),
        Some(Lexeme::Sign(Sign::AtLeast)) => Some(Relation::AtLeast),
        _ => None,
    }
}

pub fn equality(next: Option<Lexeme>) -> Option<bool>
    ensures { result ≡ decoded words.an_equality next }
{
    match next {
        Some(Lexeme::Sign(Sign::Equal)) => Some(true),
        Some(Lexeme::Sign(Sign::Unequal)) => Some(false),
        _ => None,
    }
}

pub fn scope_word(next: Option<Lexeme>) -> Option<ScopeWord>
    ensures { result ≡ decoded words.a_scope_word next }
{
    chosen(
        next,
        Kind::Name,
        &[
            (b"occ", ScopeWord::Occ),
            (b"sx", ScopeWord::Size(Axis::X)),
            (b"sy", ScopeWord::Size(Axis::Y)),
            (b"sz", ScopeWord::Size(Axis::Z)),
        ],
    )
}

pub fn item_head(next: Option<Lexeme>) -> Option<ItemHead>
    requires { IsProper next }
    ensures { result ≡ decoded words.item_head next }
{
    match next? {
        Lexeme::Name(name) => Some(ItemHead::Child(name)),
        Lexeme::Keyword(keyword) => item_keyword(keyword),
        _ => None,
    }
}

fn item_keyword(keyword: Keyword) -> Option<ItemHead>
    ensures { result ≡ words.item_head (lexeme.Keyword keyword) }
{
    match keyword {
        Keyword::T => Some(ItemHead::Move),
        Keyword::S => Some(ItemHead::Resize),
        Keyword::Rx => Some(ItemHead::Rotate(Axis::X)),
        Keyword::Ry => Some(ItemHead::Rotate(Axis::Y)),
        Keyword::Rz => Some(ItemHead::Rotate(Axis::Z)),
        Keyword::I => Some(ItemHead::Solid),
        Keyword::Subdiv => Some(ItemHead::Subdiv),
        Keyword::Repeat => Some(ItemHead::Repeat),
        Keyword::Comp => Some(ItemHead::Comp),
        _ => None,
    }
}
