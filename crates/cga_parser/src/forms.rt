ghost use Rattle.std.specs.Prelude.{IfOk};
ghost use Rattle.cga_form.specs.LineTells.{LineTells};
ghost use Rattle.cga_syntax.specs.Pieces.{rule_pieces};
ghost use Rattle.cga_parser.specs.Grammar as spec;

use crate::rule::rule;
use cga_form::fault::Fault;
use cga_form::tokens::Tokens;
use cga_form::{Form, LineFault, read_line};
use cga_fraction::{NoMemory, Stop};
use cga_syntax::Rule;
use std::alloc::Global;

/// The form of a rule's line.
pub struct RuleForm;

impl Form for RuleForm {
    type Member = Rule;

    ghost pieces = { rule_pieces };

    ghost reader = { spec.rule };

    fn read(alloc: Global, tokens: &mut Tokens<'_>, depth: u8) -> Result<Rule, Stop<Fault>> {
        rule(alloc, tokens, depth)
    }

    #[tactic(auto, using(crate::proofs::AreForms::rule_form))]
    fn is_form() {}
}

/// The rule that a line spells, or its first fault: that it is too long, then the first of its
/// bytes, then the first of its tokens. An id is a whole number from 1 to 999,999, and at most 32
/// brackets may be open. The line is read once.
pub fn parse_rule(alloc: Global, line: &[u8]) -> Result<Result<Rule, LineFault>, NoMemory>
    ensures { IfOk result (λ found. LineTells rule_pieces line.now found) }
{
    read_line::<RuleForm>(alloc, line)
}
