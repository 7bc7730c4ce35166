//! The forms of commands.
ghost use Rattle.std.specs.Prelude.{◌≡◌, IfOk};
ghost use Rattle.cga_form.specs.Cursor.{input_of, Finds, Reads};
ghost use Rattle.cga_form.specs.Parts.{any};
ghost use Rattle.cga_form.specs.Reader.{begins};
ghost use Rattle.cga_script.specs.Commands as spec;
ghost use Rattle.cga_script.specs.Heads.{is_further};
ghost use Rattle.cga_script.specs.Orders as orders;
ghost use Rattle.cga_script.specs.declared.version.Version.TheVariants as version;

use crate::heads::{CommandHead, FurtherHead};
use crate::lot_form::lot;
use crate::script_command::ScriptCommand;
use crate::version::Version;
use crate::words;
use cga_form::fault::Fault;
use cga_form::parts::{id, name, prio};
use cga_form::tokens::Tokens;
use cga_form::value::value;
use cga_form::{Form, LineFault, read_line};
use cga_fraction::{NoMemory, Stop};
use cga_lexer::Sign;
use cga_parser::rule::rule;
use cga_shape::Edit;
use cga_word::{Mode, Name};
use std::alloc::Global;

/// The order of derivation that is written next.
#[tactic(auto, unfolding(crate::specs::Orders::order))]
pub fn order(tokens: &mut Tokens<'_>) -> Result<Mode, Fault>
    ensures { Finds (orders.order (input_of tokens.old)) result (input_of tokens.new) }
{
    tokens.word(b"order")?;
    tokens.take(words::mode(tokens.peek()))
}

fn at_any(tokens: &Tokens<'_>) -> bool
    ensures { result ≡ begins any (input_of tokens.now).left }
{
    tokens.peek().is_some()
}

fn at_further(tokens: &Tokens<'_>) -> bool
    ensures { result ≡ begins is_further (input_of tokens.now).left }
{
    words::further(tokens.peek()).is_some()
}

#[tactic(auto, unfolding(crate::specs::Commands::maybe_name))]
fn maybe_name(tokens: &mut Tokens<'_>) -> Result<Option<Name>, Fault>
    ensures { Finds (spec.maybe_name (input_of tokens.old)) result (input_of tokens.new) }
{
    if at_any(tokens) {
        return Ok(Some(name(tokens)?));
    }
    Ok(None)
}

fn attribute(tokens: &mut Tokens<'_>) -> Result<ScriptCommand, Stop<Fault>>
    ensures { Reads (spec.command_rest 0 CommandHead.Attribute (input_of tokens.old)) result (input_of tokens.new) }
{
    let name = name(tokens)?;
    tokens.sign(Sign::Assign)?;
    let value = value(tokens)?;
    Ok(ScriptCommand::Change(Edit::SetAttribute(name, value)))
}

fn put(alloc: Global, tokens: &mut Tokens<'_>, depth: u8) -> Result<ScriptCommand, Stop<Fault>>
    ensures { Reads (spec.command_rest depth CommandHead.Put (input_of tokens.old)) result (input_of tokens.new) }
{
    let priority = prio(tokens)?;
    let rule = rule(alloc, tokens, depth)?;
    Ok(ScriptCommand::Change(Edit::Put(priority, rule)))
}

fn priority(tokens: &mut Tokens<'_>) -> Result<ScriptCommand, Stop<Fault>>
    ensures { Reads (spec.command_rest 0 CommandHead.Priority (input_of tokens.old)) result (input_of tokens.new) }
{
    let symbol = name(tokens)?;
    let priority = prio(tokens)?;
    Ok(ScriptCommand::Change(Edit::SetPriority(symbol, priority)))
}

fn command_rest(
    alloc: Global,
    tokens: &mut Tokens<'_>,
    depth: u8,
    head: CommandHead,
) -> Result<ScriptCommand, Stop<Fault>>
    ensures { Reads (spec.command_rest depth head (input_of tokens.old)) result (input_of tokens.new) }
{
    match head {
        CommandHead::Rules => Ok(ScriptCommand::Rules),
        CommandHead::Put => put(alloc, tokens, depth),
        CommandHead::Drop => Ok(ScriptCommand::Change(Edit::Drop(id(tokens)?))),
        CommandHead::Attribute => attribute(tokens),
        CommandHead::Priority => priority(tokens),
        CommandHead::Unlot => Ok(ScriptCommand::Change(Edit::Unlot(name(tokens)?))),
        CommandHead::Print => Ok(ScriptCommand::Print(maybe_name(tokens)?)),
        CommandHead::Faults => Ok(ScriptCommand::Faults),
        CommandHead::Grammar => Ok(ScriptCommand::Grammar),
        CommandHead::Stats => Ok(ScriptCommand::Stats),
        CommandHead::Quiet => Ok(ScriptCommand::Quiet),
    }
}

fn further_rest(tokens: &mut Tokens<'_>, head: FurtherHead) -> Result<ScriptCommand, Stop<Fault>>
    ensures { Reads (spec.further_rest head (input_of tokens.old)) result (input_of tokens.new) }
{
    match head {
        FurtherHead::City => Ok(ScriptCommand::CityBlock),
        FurtherHead::Dump => Ok(ScriptCommand::Dump),
        FurtherHead::Asset => Ok(ScriptCommand::AssetBlock(name(tokens)?)),
        FurtherHead::Dress => {
            let symbol = name(tokens)?;
            let asset = name(tokens)?;
            Ok(ScriptCommand::Dress(symbol, asset))
        }
        FurtherHead::Undress => Ok(ScriptCommand::Undress(name(tokens)?)),
        FurtherHead::Model => Ok(ScriptCommand::Model(maybe_name(tokens)?)),
        FurtherHead::Bill => Ok(ScriptCommand::Bill),
        FurtherHead::Undo => Ok(ScriptCommand::Undo),
        FurtherHead::Redo => Ok(ScriptCommand::Redo),
        FurtherHead::Trace => Ok(ScriptCommand::Trace),
        FurtherHead::Judge => Ok(ScriptCommand::JudgeBlock),
    }
}

#[tactic(auto, unfolding(crate::specs::Commands::first_command))]
fn first_command(
    alloc: Global,
    tokens: &mut Tokens<'_>,
    depth: u8,
) -> Result<ScriptCommand, Stop<Fault>>
    ensures { Reads (spec.first_command depth (input_of tokens.old)) result (input_of tokens.new) }
{
    if tokens.at_word(b"lot") {
        return Ok(ScriptCommand::Change(Edit::SetLot(lot(tokens)?)));
    }
    let head = tokens.take(words::head(tokens.peek()))?;
    command_rest(alloc, tokens, depth, head)
}

#[tactic(auto, unfolding(crate::specs::Commands::second_command))]
fn second_command(
    alloc: Global,
    tokens: &mut Tokens<'_>,
    depth: u8,
) -> Result<ScriptCommand, Stop<Fault>>
    ensures { Reads (spec.second_command depth (input_of tokens.old)) result (input_of tokens.new) }
{
    if tokens.at_word(b"order") {
        return Ok(ScriptCommand::Change(Edit::SetOrder(order(tokens)?)));
    }
    if at_further(tokens) {
        let head = tokens.take(words::further(tokens.peek()))?;
        return further_rest(tokens, head);
    }
    first_command(alloc, tokens, depth)
}

/// The form of the commands of version 1.
pub struct VersionOneForm;

impl Form for VersionOneForm {
    type Member = ScriptCommand;

    ghost pieces = { spec.command_pieces version.One };

    ghost reader = { spec.command version.One };

    #[tactic(auto, unfolding(crate::specs::Commands::command))]
    fn read(
        alloc: Global,
        tokens: &mut Tokens<'_>,
        depth: u8,
    ) -> Result<ScriptCommand, Stop<Fault>> {
        if at_any(tokens) {
            return first_command(alloc, tokens, depth);
        }
        Ok(ScriptCommand::Blank)
    }

    #[tactic(auto, using(crate::proofs::Commands::command_form))]
    fn is_form() {}
}

/// The form of the commands of version 2.
pub struct VersionTwoForm;

impl Form for VersionTwoForm {
    type Member = ScriptCommand;

    ghost pieces = { spec.command_pieces version.Two };

    ghost reader = { spec.command version.Two };

    #[tactic(auto, unfolding(crate::specs::Commands::command))]
    fn read(
        alloc: Global,
        tokens: &mut Tokens<'_>,
        depth: u8,
    ) -> Result<ScriptCommand, Stop<Fault>> {
        if at_any(tokens) {
            return second_command(alloc, tokens, depth);
        }
        Ok(ScriptCommand::Blank)
    }

    #[tactic(auto, using(crate::proofs::Commands::command_form))]
    fn is_form() {}
}

/// What a line outside a block asks for by the forms of a version, or its first fault. A line
/// without tokens is blank. A line that is said to be long, or has more than 4,096 bytes, isn't
/// looked at; any other is read once.
pub fn command(
    alloc: Global,
    line: &[u8],
    long: bool,
    version: Version,
) -> Result<Result<ScriptCommand, LineFault>, NoMemory>
    ensures { IfOk result (λ told. spec.CommandTells version (record { bytes = line.now; long = long }) told) }
{
    if long {
        return Ok(Err(LineFault::LineTooLong));
    }
    match version {
        Version::One => read_line::<VersionOneForm>(alloc, line),
        Version::Two => read_line::<VersionTwoForm>(alloc, line),
    }
}
