//! Lists of words or texts, each with the value that it stands for.
ghost use Rattle.std.specs.Prelude.{◌≡◌, map};
ghost use Rattle.cga_form.specs.Reader.{decoded};
ghost use Rattle.cga_form.specs.Tokens as spec;

use crate::words::is;
use cga_syntax::Lexeme;

#[derive(Clone, Copy)]
pub enum Kind {
    Name,
    Text,
}

/// The value beside the first word or text of the list that is the next token.
pub fn chosen<A: Copy>(next: Option<Lexeme>, kind: Kind, list: &[(&[u8], A)]) -> Option<A>
    ensures { result ≡ decoded (spec.chosen (map (λ w. (spec.token_of kind w.0.now, w.1)) list.now)) next }
{
    let lexeme = next?;
    beside(&lexeme, kind, list)
}

fn beside<A: Copy>(lexeme: &Lexeme, kind: Kind, list: &[(&[u8], A)]) -> Option<A>
    ensures { result ≡ spec.chosen (map (λ w. (spec.token_of kind w.0.now, w.1)) list.now) lexeme.now }
{
    match list {
        [] => None,
        [(bytes, value), rest @ ..] => {
            if is_spelled(lexeme, kind, bytes) {
                Some(*value)
            } else {
                beside(lexeme, kind, rest)
            }
        }
    }
}

fn is_spelled(lexeme: &Lexeme, kind: Kind, bytes: &[u8]) -> bool
    ensures { result ≡ spec.same (spec.token_of kind bytes.now) lexeme.now }
{
    match (kind, *lexeme) {
        (Kind::Name, Lexeme::Name(name)) => is(name, bytes),
        (Kind::Text, Lexeme::Text(text)) => is(text, bytes),
        _ => false,
    }
}
