//! What the definitions say of themselves, at any form.
ghost use Rattle.std.specs.Prelude.{◌≡◌, ℕ, List, Result};
ghost use Rattle.cga_form.specs.LineTells.{LineTells};
ghost use Rattle.cga_form.specs.Lines.{Line};
ghost use Rattle.cga_form.specs.BlockTells.{Found, BlockTells, AllTells};
ghost use Rattle.cga_form.specs.declared.line_fault.LineFault.{LineFault};
ghost use Rattle.cga_form.specs.declared.block_fault.BlockFault.{BlockFault};
ghost use Rattle.cga_syntax.specs.Spelling.{Spelled};
ghost use Rattle.cga_syntax.specs.declared.lexeme.Lexeme.{Lexeme};

use crate::form::Form;
use crate::gather::Gather;

/// No tokens spell two members.
pub fn spells_one<F: Form>()
    ensures { (text : List Lexeme) (a b : F.Member) → Spelled F.pieces text a → Spelled F.pieces text b → a ≡ b }
{
    F::is_form();
}

/// A line tells one thing, by itself and in a block.
pub fn tells_once<F: Form>()
    ensures line { (line : List ℕ) (a b : Result F.Member LineFault) → LineTells F.pieces line a → LineTells F.pieces line b → a ≡ b }
    ensures in_block { (line : Line) (a b : Found F.Member) → BlockTells F.pieces line a → BlockTells F.pieces line b → a ≡ b }
{
    F::is_form();
}

/// The lines of a block tell one thing.
pub fn lines_tell_once<G: Gather>()
    ensures { (lines : List Line) (a b : Result G.All BlockFault) → AllTells G.pieces G.says lines a → AllTells G.pieces G.says lines b → a ≡ b }
{
    G::is_form();
}
