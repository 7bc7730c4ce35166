use crate::lexeme::Lexeme;
use crate::print::space::Space;

/// A token that is to be printed.
#[derive(Clone, Copy)]
pub struct Mark {
    pub lexeme: Lexeme,
    pub space: Space,
}

impl Mark {
    ghost use Rattle.std.specs.Prelude.{◌≡◌};
    ghost use Rattle.cga_syntax.specs.Printing.{usually};

    /// A token that stands apart from its neighbours where its sign says nothing else.
    pub(crate) fn usual(lexeme: Lexeme) -> Mark
        ensures { result ≡ usually lexeme }
    {
        Mark {
            lexeme,
            space: Space::Usual,
        }
    }
}
