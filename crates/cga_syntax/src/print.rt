//! Rules as texts: first their tokens, one function for each type, and then the bytes of these.
ghost use Rattle.std.specs.Prelude.{◌≡◌, ◌++◌, IfOk, OnOk};
ghost use Rattle.cga_syntax.specs.GrammarText.{grammar_text, ArePrintable};
ghost use Rattle.cga_syntax.specs.Pieces.{rule_pieces};
ghost use Rattle.cga_syntax.specs.Printing.{printed, text_of, HaveTexts};

pub(crate) mod back;
pub(crate) mod cond;
pub(crate) mod expr;
pub(crate) mod grammar;
pub(crate) mod item;
pub(crate) mod least;
pub(crate) mod list;
pub(crate) mod mark;
pub(crate) mod parts;
pub(crate) mod rule;
pub(crate) mod space;
pub(crate) mod text;
pub(crate) mod token;
pub(crate) mod words;

pub use crate::print::back::{lexes_back, spells_back};
use crate::print::grammar::{push_attributes, push_sections};
use crate::print::rule::push_rule;
pub use crate::print::space::Space;
use crate::print::text::push_marks;
use cga_fraction::{List, NoMemory, Text};
use cga_rule::{Grammar, Rule};
use std::alloc::Global;

/// The text of a rule, without the end of its line. Every rule that some line spells may be
/// printed; of another what no line spells is left out, as a reserved name. Takes memory for the
/// text, and for the rule's tokens while it is made.
pub fn print_rule(alloc: Global, rule: &Rule) -> Result<List<u8>, NoMemory>
    requires { HaveTexts (printed (rule_pieces rule.now)) }
    ensures { IfOk result (λ text. text ≡ text_of (printed (rule_pieces rule.now))) }
{
    let mut text = Text::new(alloc);
    push_text_of(alloc, &mut text, rule)?;
    Ok(text.into_list())
}

/// The text of a grammar, as the command `grammar` writes it: each line ends with one LF. Takes
/// memory for the text, and for the tokens of one rule at a time. The time grows with the square of
/// the number of rules.
pub fn print_grammar(alloc: Global, grammar: &Grammar) -> Result<List<u8>, NoMemory>
    requires { ArePrintable grammar.now.rules }
    ensures { IfOk result (λ text. text ≡ grammar_text grammar.now) }
{
    let mut text = Text::new(alloc);
    text.push(b"rules\n")?;
    push_attributes(&mut text, grammar.attributes.as_slice())?;
    push_sections(alloc, &mut text, grammar.rules.as_slice())?;
    text.push(b"end\n")?;
    Ok(text.into_list())
}

/// Appends the text of a rule.
#[tactic(auto, using(crate::proofs::Printed::on_is))]
pub(crate) fn push_text_of(alloc: Global, text: &mut Text, rule: &Rule) -> Result<(), NoMemory>
    requires { HaveTexts (printed (rule_pieces rule.now)) }
    ensures { OnOk result (text.new ≡ text.old ++ text_of (printed (rule_pieces rule.now))) }
{
    let mut marks = List::new(alloc);
    push_rule(&mut marks, rule)?;
    push_marks(text, marks.as_slice())
}
