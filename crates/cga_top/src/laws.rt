//! What is kept of a block with too many members is refused as the whole block is.
ghost use Rattle.std.specs.Prelude.{ℕ};
ghost use Rattle.cga_rule.specs.declared.grammar.Grammar.{Grammar};
ghost use Rattle.cga_shape.specs.declared.sources.Sources.{Sources};
ghost use Rattle.cga_top.specs.TooMany.{FaultIsSame, RulesGiveSame, CityGivesSame};

use cga_parser::too_many_are_cut;

/// One too many of the rules, attributes or lots of a block is refused as all of them are. So no more need be kept.
pub fn one_too_many_is_refused_as_all()
    ensures fault { (g : Grammar) → FaultIsSame g }
    ensures rules { (s : Sources) (budget : ℕ) (g : Grammar) → RulesGiveSame s budget g }
    ensures city { (s : Sources) (budget : ℕ) (other : Sources) → CityGivesSame s budget other }
{
    too_many_are_cut();
}
