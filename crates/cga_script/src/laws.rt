//! What the definitions say of themselves.
ghost use Rattle.std.specs.Prelude.{◌≡◌, ◌≤◌, ℕ, List, length, Result, Ok};
ghost use Rattle.cga_form.specs.Lines.{Line};
ghost use Rattle.cga_form.specs.declared.line_fault.LineFault.{LineFault};
ghost use Rattle.cga_parser.specs.declared.limits.TheConstants.{KEPT_RULES, KEPT_ATTRIBUTES};
ghost use Rattle.cga_rule.specs.declared.rule.Rule.{Rule};
ghost use Rattle.cga_script.specs.CityLines.{CityTells, CityKept, kept_sources};
ghost use Rattle.cga_script.specs.Commands.{CommandTells};
ghost use Rattle.cga_script.specs.DumpLines.{IsSpelledCity, IsReadBack};
ghost use Rattle.cga_script.specs.declared.named_lots.TheConstants.{KEPT_LOTS};
ghost use Rattle.cga_script.specs.declared.script_command.ScriptCommand.{ScriptCommand};
ghost use Rattle.cga_script.specs.declared.script_command.ScriptCommand.TheVariants as command;
ghost use Rattle.cga_script.specs.declared.version.Version.{Version};
ghost use Rattle.cga_shape.specs.declared.edit.Edit.TheVariants as edit;
ghost use Rattle.cga_shape.specs.declared.sources.Sources.{Sources};
ghost use Rattle.cga_syntax.specs.GrammarText.{ArePrintable};
ghost use Rattle.cga_syntax.specs.Pieces.{rule_pieces};
ghost use Rattle.cga_syntax.specs.Printing.{printed, HaveTexts};

/// A line tells one command of a version, or one fault with its place.
pub fn tells_one_command()
    ensures { (v : Version) (line : Line) (a b : Result ScriptCommand LineFault) → CommandTells v line a → CommandTells v line b → a ≡ b }
{}

/// What was read may be printed: the rule of a command, and the rules of a whole city.
pub fn may_be_printed()
    ensures put { (v : Version) (line : Line) (priority : ℕ) (rule : Rule) → CommandTells v line (Ok (command.Change (edit.Put priority rule))) → HaveTexts (printed (rule_pieces rule)) }
    ensures city { (lines : List Line) (sources : Sources) → CityTells lines (Ok sources) → ArePrintable sources.grammar.rules }
{}

/// The lines between `city` and `end` of a dump tell the same mode, attributes, lots and entries, with
/// the entries by rising priority and id, where lines say each attribute, each rule and each lot, and
/// lot names differ. Of sources that were read they do.
pub fn dump_reads_back()
    ensures spelled { (lines : List Line) (sources : Sources) → CityTells lines (Ok sources) → IsSpelledCity sources }
    ensures back { (sources : Sources) → IsSpelledCity sources → IsReadBack sources }
{}

/// What a reader gives of the lines of a city are the sources that they tell, cut behind the first rule, the first attribute
/// and the first lot that are too many. Sources without such are left as they are.
pub fn too_many_are_cut()
    ensures told { (lines : List Line) (given : Sources) → CityKept lines (Ok given)
        → (whole : Sources) × CityTells lines (Ok whole) × (given ≡ kept_sources whole) }
    ensures few { (s : Sources) → length s.grammar.rules ≤ KEPT_RULES → length s.grammar.attributes ≤ KEPT_ATTRIBUTES
        → length s.lots ≤ KEPT_LOTS → kept_sources s ≡ s }
{
    cga_parser::too_many_are_cut();
}
