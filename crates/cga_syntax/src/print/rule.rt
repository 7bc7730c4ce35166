//! The tokens of a rule.
ghost use Rattle.std.specs.Prelude.{◌≡◌, ◌∷◌, [], OnOk, map};
ghost use Rattle.cga_syntax.specs.Pieces as spec;
ghost use Rattle.cga_syntax.specs.Forms as forms;
ghost use Rattle.cga_syntax.specs.Printing.{printed_on};

use crate::limits::LAST_ID;
use crate::print::cond::push_cond;
use crate::print::item::push_body_items;
use crate::print::list::push_params;
use crate::print::mark::Mark;
use crate::print::space::Space;
use crate::print::token::{push_close, push_named, push_probability, push_sign, push_whole};
use cga_fraction::{List, NoMemory, SharedBox};
use cga_lexer::Sign;
use cga_rule::{Alternative, Cond, Rule};
use cga_word::Name;

#[tactic(auto, using(crate::proofs::Printed::on_join, crate::proofs::Printed::nonempty_cut), unfolding(crate::specs::Pieces::rule_pieces))]
pub(crate) fn push_rule(marks: &mut List<Mark>, rule: &Rule) -> Result<(), NoMemory>
    ensures { OnOk result (marks.new ≡ printed_on marks.old (spec.rule_pieces rule.now)) }
{
    push_head(marks, rule.id, rule.symbol)?;
    push_params(marks, rule.params.as_slice())?;
    push_condition(marks, &rule.cond)?;
    push_alternatives(marks, rule.alternatives.as_slice())
}

fn push_head(marks: &mut List<Mark>, id: u32, symbol: Name) -> Result<(), NoMemory>
    ensures { OnOk result (marks.new ≡ printed_on marks.old (forms.head_of id symbol)) }
{
    push_whole(marks, 1, LAST_ID, id)?;
    push_close(marks, Space::NoneBefore, Sign::Colon)?;
    push_named(marks, symbol)
}

fn push_condition(marks: &mut List<Mark>, cond: &Option<SharedBox<Cond>>) -> Result<(), NoMemory>
    ensures { OnOk result (marks.new ≡ printed_on marks.old (spec.condition_pieces cond.now)) }
{
    match cond {
        None => Ok(()),
        Some(cond) => {
            push_sign(marks, Sign::Colon)?;
            push_cond(marks, cond.get())
        }
    }
}

fn push_alternatives(marks: &mut List<Mark>, alternatives: &[Alternative]) -> Result<(), NoMemory>
    ensures { OnOk result (marks.new ≡ printed_on marks.old (spec.concat (map spec.alternative_pieces alternatives.now))) }
{
    for alternative in alternatives {
        push_alternative(marks, alternative)?;
    }
    Ok(())
}

#[tactic(auto, using(crate::proofs::Printed::on_join), unfolding(crate::specs::Pieces::alternative_pieces))]
fn push_alternative(marks: &mut List<Mark>, alternative: &Alternative) -> Result<(), NoMemory>
    ensures { OnOk result (marks.new ≡ printed_on marks.old (spec.alternative_pieces alternative.now)) }
{
    push_sign(marks, Sign::Arrow)?;
    push_body_items(marks, alternative.items.as_slice())?;
    push_probability(marks, alternative.prob)
}
