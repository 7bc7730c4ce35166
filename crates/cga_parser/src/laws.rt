//! What the definitions say of themselves.
ghost use Rattle.std.specs.Prelude.{◌≡◌, ◌≤◌, ◌↔◌, ℕ, List, length, Option, Result, Ok, Some};
ghost use Rattle.cga_form.specs.LineTells.{LineTells};
ghost use Rattle.cga_parser.specs.BlockTells.{BlockTells, EndsBlock, GrammarTells, GrammarKept};
ghost use Rattle.cga_form.specs.Lines.{Line};
ghost use Rattle.cga_parser.specs.Blocks.{block_pieces};
ghost use Rattle.cga_parser.specs.Kept.{kept};
ghost use Rattle.cga_parser.specs.declared.limits.TheConstants.{KEPT_RULES, KEPT_ATTRIBUTES};
ghost use Rattle.cga_parser.specs.declared.block_line.BlockLine.{BlockLine};
ghost use Rattle.cga_parser.specs.declared.block_line.BlockLine.TheVariants.{End};
ghost use Rattle.cga_form.specs.declared.line_fault.LineFault.{LineFault};
ghost use Rattle.cga_form.specs.declared.block_fault.BlockFault.{BlockFault};
ghost use Rattle.cga_syntax.specs.Pieces.{rule_pieces};
ghost use Rattle.cga_syntax.specs.Spelling.{Spelled};
ghost use Rattle.cga_rule.specs.declared.grammar.Grammar.{Grammar};
ghost use Rattle.cga_syntax.specs.declared.lexeme.Lexeme.{Lexeme};
ghost use Rattle.cga_rule.specs.declared.rule.Rule.{Rule};

/// No tokens spell two rules.
pub fn spells_one()
    ensures { (text : List Lexeme) (a b : Rule) → Spelled rule_pieces text a → Spelled rule_pieces text b → a ≡ b }
{}

/// No tokens spell two lines of a block.
pub fn spells_one_line()
    ensures { (text : List Lexeme) (a b : BlockLine) → Spelled block_pieces text a → Spelled block_pieces text b → a ≡ b }
{}

/// A line, and the lines of a block, tell one thing, be it a value or a fault with its place.
pub fn tells_once()
    ensures rule { (line : List ℕ) (a b : Result Rule LineFault) → LineTells rule_pieces line a → LineTells rule_pieces line b → a ≡ b }
    ensures line { (line : Line) (a b : Result (Option BlockLine) LineFault) → BlockTells line a → BlockTells line b → a ≡ b }
    ensures lines { (lines : List Line) (a b : Result Grammar BlockFault) → GrammarTells lines a → GrammarTells lines b → a ≡ b }
{}

/// A line says `end` if and only if it ends its block.
pub fn says_end()
    ensures { (line : Line) → EndsBlock line ↔ BlockTells line (Ok (Some End)) }
{}

/// What a reader gives of lines is the grammar that they tell, cut behind the first rule and the first attribute that are
/// too many. One without such is left as it is.
pub fn too_many_are_cut()
    ensures told { (lines : List Line) (given : Grammar) → GrammarKept lines (Ok given)
        → (whole : Grammar) × GrammarTells lines (Ok whole) × (given ≡ kept whole) }
    ensures few { (g : Grammar) → length g.rules ≤ KEPT_RULES → length g.attributes ≤ KEPT_ATTRIBUTES → kept g ≡ g }
{}
