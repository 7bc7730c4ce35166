//! Printed rules and grammars are read back.
ghost use Rattle.std.specs.Prelude.{ℕ, List, Ok};
ghost use Rattle.cga_form.specs.LineTells.{LineTells};
ghost use Rattle.cga_parser.specs.BlockTells.{GrammarTells};
ghost use Rattle.cga_form.specs.Lines.{Line};
ghost use Rattle.cga_parser.specs.PrintedRules.{SpellsRule, IsReadBack};
ghost use Rattle.cga_parser.specs.GrammarLines.{IsSpelled, ReadsBack};
ghost use Rattle.cga_syntax.specs.GrammarText.{ArePrintable};
ghost use Rattle.cga_syntax.specs.Pieces.{rule_pieces};
ghost use Rattle.cga_rule.specs.declared.grammar.Grammar.{Grammar};
ghost use Rattle.cga_rule.specs.declared.rule.Rule.{Rule};

/// The text that `print_rule` gives of a rule that some line spells is read as this rule, and by
/// `tells_once` as nothing else.
pub fn reads_back()
    ensures { (line : List ℕ) (rule : Rule) → SpellsRule line rule → IsReadBack rule }
{}

/// What was read may be printed: a rule, and the rules of the lines of a block.
pub fn may_be_printed()
    ensures rule { (line : List ℕ) (rule : Rule) → LineTells rule_pieces line (Ok rule) → SpellsRule line rule }
    ensures grammar { (lines : List Line) (grammar : Grammar) → GrammarTells lines (Ok grammar) → ArePrintable grammar.rules }
{}

/// The text that `print_grammar` gives is read as the same attributes in order and the same entries
/// by rising priority and id, where lines say each attribute and each rule. Of a grammar that was
/// read they do.
pub fn grammar_reads_back()
    ensures spelled { (lines : List Line) (grammar : Grammar) → GrammarTells lines (Ok grammar) → IsSpelled grammar }
    ensures back { (grammar : Grammar) → IsSpelled grammar → ReadsBack grammar }
{}
