//! What printed tokens are read back as, and that a printed rule spells itself.
ghost use Rattle.std.specs.Prelude.{ℕ, List, map};
ghost use Rattle.cga_lexer.specs.Line.{tokens_of};
ghost use Rattle.cga_syntax.specs.Pieces.{rule_pieces};
ghost use Rattle.cga_syntax.specs.Printing.{text_of};
ghost use Rattle.cga_syntax.specs.Reading.{AreTokens, AreRead, LineSpells, IsPrintedWell};
ghost use Rattle.cga_syntax.specs.declared.print.mark.Mark.{Mark};
ghost use Rattle.cga_rule.specs.declared.rule.Rule.{Rule};

/// The text of printed tokens has these tokens and no others, whatever they are.
pub fn lexes_back()
    ensures { (marks : List Mark) → AreTokens (map (λ m. m.lexeme) marks) → AreRead (tokens_of (text_of marks)) (map (λ m. m.lexeme) marks) }
{}

/// A rule that some line spells may be printed, and its text spells it.
pub fn spells_back()
    ensures { (line : List ℕ) (rule : Rule) → LineSpells rule_pieces line rule → IsPrintedWell rule_pieces rule }
{}
