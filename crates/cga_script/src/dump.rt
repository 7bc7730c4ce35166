//! The sources as a script of version 2.
ghost use Rattle.std.specs.Prelude.{◌≡◌, ◌≤◌, ◌++◌, List, ℕ, IfOk, OnOk, codes, flat_map, length, nat_lt};
ghost use Rattle.cga_form.specs.Limits.{line_limit};
ghost use Rattle.cga_script.specs.Dumps as spec;
ghost use Rattle.cga_script.specs.Orders.{mode_word};
ghost use Rattle.cga_syntax.specs.GrammarText.{ArePrintable, line};
ghost use Rattle.cga_syntax.specs.Least.{lesser};
ghost use Rattle.cga_syntax.specs.Pieces.{rule_pieces};
ghost use Rattle.cga_syntax.specs.Printing.{printed, HaveTexts};

use crate::long_dump::LongDump;
use cga_form::limits::LINE_LIMIT;
use cga_fraction::{Fraction, List, NoMemory, Text};
use cga_shape::{Lot, Lots, Sources};
use cga_syntax::{Entry, Grammar, Rule, print_grammar, print_rule};
use cga_word::Mode;
use std::alloc::Global;

fn mode_word(mode: Mode) -> &'static [u8]
    ensures { result.now ≡ mode_word mode }
{
    match mode {
        Mode::Breadth => b"breadth",
        Mode::Depth => b"depth",
    }
}

fn push_order(text: &mut Text, mode: Mode) -> Result<(), NoMemory>
    ensures { OnOk result (text.new ≡ text.old ++ line (spec.order_text mode)) }
{
    text.push(b"order ")?;
    text.push(mode_word(mode))?;
    text.push(b"\n")
}

// The lines between `rules` and `end`.
fn inner_lines(text: &[u8]) -> &[u8]
    requires { 10 ≤ length text.now }
    ensures { (inner : List ℕ) → text.now ≡ codes "rules\n" ++ (inner ++ codes "end\n") → result.now ≡ inner }
{
    &text[b"rules\n".len()..text.len() - b"end\n".len()]
}

fn push_grammar(alloc: Global, text: &mut Text, grammar: &Grammar) -> Result<(), NoMemory>
    requires { ArePrintable grammar.now.rules }
    ensures { OnOk result (text.new ≡ text.old ++ spec.grammar_lines grammar.now) }
{
    let printed = print_grammar(alloc, grammar)?;
    text.push(inner_lines(printed.as_slice()))
}

fn push_value(text: &mut Text, value: Fraction) -> Result<(), NoMemory>
    ensures { OnOk result (text.new ≡ text.old ++ spec.value_text value) }
{
    text.push(b" ")?;
    text.push_exact(value)
}

fn push_lot_head(text: &mut Text, lot: &Lot) -> Result<(), NoMemory>
    ensures { OnOk result (text.new ≡ text.old ++ spec.lot_head lot.now) }
{
    text.push(b"lot ")?;
    text.push(lot.name.bytes())?;
    text.push(b" ")?;
    text.push_whole(u128::from(lot.seed))
}

fn push_ground(text: &mut Text, lot: &Lot) -> Result<(), NoMemory>
    ensures { OnOk result (text.new ≡ text.old ++ spec.ground_text lot.now) }
{
    push_value(text, lot.x)?;
    push_value(text, lot.z)?;
    push_value(text, lot.width)?;
    push_value(text, lot.depth)
}

#[tactic(auto, unfolding(crate::specs::Dumps::lot_line))]
fn push_lot(text: &mut Text, lot: &Lot) -> Result<(), NoMemory>
    ensures { OnOk result (text.new ≡ text.old ++ spec.lot_line lot.now) }
{
    push_lot_head(text, lot)?;
    push_ground(text, lot)?;
    text.push(b" ")?;
    text.push(lot.symbol.bytes())?;
    text.push(b"\n")
}

fn push_run(text: &mut Text, lots: &[Lot]) -> Result<(), NoMemory>
    ensures { OnOk result (text.new ≡ text.old ++ flat_map spec.lot_line lots.now) }
{
    for lot in lots {
        push_lot(text, lot)?;
    }
    Ok(())
}

fn push_lots(text: &mut Text, lots: &Lots) -> Result<(), NoMemory>
    ensures { OnOk result (text.new ≡ text.old ++ flat_map spec.lot_line lots.now) }
{
    for run in lots.runs() {
        push_run(text, run.as_slice())?;
    }
    Ok(())
}

fn is_long(alloc: Global, rule: &Rule) -> Result<bool, NoMemory>
    requires { HaveTexts (printed (rule_pieces rule.now)) }
    ensures { IfOk result (λ long. long ≡ nat_lt line_limit (length (spec.rule_text rule.now))) }
{
    let text = print_rule(alloc, rule)?;
    Ok(text.len() > LINE_LIMIT)
}

fn lesser_id(best: Option<u32>, id: u32) -> Option<u32>
    ensures { result ≡ lesser 0 best id }
{
    match best {
        Some(best) if best <= id => Some(best),
        _ => Some(id),
    }
}

#[tactic(auto, unfolding(crate::specs::Dumps::long_ids))]
fn least_long(alloc: Global, entries: &[Entry]) -> Result<Option<u32>, NoMemory>
    requires { ArePrintable entries.now }
    ensures { IfOk result (λ id. id ≡ spec.least_long entries.now) }
{
    let mut least = None;
    for entry in entries {
        if is_long(alloc, &entry.rule)? {
            least = lesser_id(least, entry.rule.id);
        }
    }
    Ok(least)
}

#[tactic(auto, unfolding(crate::specs::Dumps::dump_text_of))]
fn whole_text(alloc: Global, sources: &Sources) -> Result<List<u8>, NoMemory>
    requires { ArePrintable sources.now.grammar.rules }
    ensures { IfOk result (λ text. text ≡ spec.dump_text_of sources.now) }
{
    let mut text = Text::new(alloc);
    text.push(b"version 2\ncity\n")?;
    push_order(&mut text, sources.mode)?;
    push_grammar(alloc, &mut text, &sources.grammar)?;
    push_lots(&mut text, &sources.lots)?;
    text.push(b"end\n")?;
    Ok(text.into_list())
}

/// The sources as a script of version 2 that sets them in one edit: each line ends with one LF. It is
/// refused where the text of a rule has more than 4,096 bytes. Takes memory for the text, and for
/// that of the rules beside it; each rule is printed twice.
pub fn dump_text(alloc: Global, sources: &Sources) -> Result<Result<List<u8>, LongDump>, NoMemory>
    requires { ArePrintable sources.now.grammar.rules }
    ensures { IfOk result (λ told. told ≡ spec.dump_of sources.now) }
{
    match least_long(alloc, sources.grammar.rules.as_slice())? {
        Some(id) => Ok(Err(LongDump { id })),
        None => Ok(Ok(whole_text(alloc, sources)?)),
    }
}
