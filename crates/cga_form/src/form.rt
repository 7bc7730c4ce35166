ghost use Rattle.std.specs.Prelude.{ℕ};
ghost use Rattle.cga_syntax.specs.Pieces.{Pieces};
ghost use Rattle.cga_form.specs.Cursor.{input_of, Reads};
ghost use Rattle.cga_form.specs.Reader.{Reader};
ghost use Rattle.cga_form.specs.Laws.{IsForm};

use crate::fault::Fault;
use crate::tokens::Tokens;
use cga_fraction::Stop;
use std::alloc::Global;

/// A form of line: what its members are written as, and how they are read.
pub trait Form {
    type Member: Drop;

    ghost pieces: { Self.Member → Pieces };

    ghost reader: { ℕ → Reader Self.Member };

    /// A member, where so many brackets may be opened.
    fn read(alloc: Global, tokens: &mut Tokens<'_>, depth: u8) -> Result<Self::Member, Stop<Fault>>
        ensures { Reads (reader depth (input_of tokens.old)) result (input_of tokens.new) };

    /// Does nothing: it says that what is written so is what is read.
    fn is_form()
        ensures { IsForm pieces reader };
}
