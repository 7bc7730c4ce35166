//! The replies to what is refused.
ghost use Rattle.std.specs.Prelude.{◌≡◌, ◌≢◌, ◌++◌, IfOk, OnOk};
ghost use Rattle.cga_asset.specs.declared.wardrobe_fault.WardrobeFault.TheVariants as wardrobe;
ghost use Rattle.cga_script.specs.Refusals as spec;
ghost use Rattle.cga_shape.specs.declared.edit_refused.EditRefused.TheVariants as edit;

use crate::refused::Refused;
use cga_asset::{AssetFault, WardrobeFault};
use cga_form::{BlockFault, LineFault};
use cga_fraction::{List, NoMemory, Text};
use cga_shape::EditRefused;
use cga_syntax::CheckFault;
use cga_word::Name;
use std::alloc::Global;

fn push_name(text: &mut Text, name: Name) -> Result<(), NoMemory>
    ensures { OnOk result (text.new ≡ text.old ++ spec.name_text name) }
{
    text.push(b" ")?;
    text.push(name.bytes())
}

fn push_id(text: &mut Text, id: u32) -> Result<(), NoMemory>
    ensures { OnOk result (text.new ≡ text.old ++ spec.id_text id) }
{
    text.push(b" ")?;
    text.push_whole(u128::from(id))
}

fn push_both(text: &mut Text, id: u32, name: Name) -> Result<(), NoMemory>
    ensures { OnOk result (text.new ≡ text.old ++ spec.both_text id name) }
{
    push_id(text, id)?;
    push_name(text, name)
}

fn push_with_name(text: &mut Text, code: &[u8], name: Name) -> Result<(), NoMemory>
    ensures { OnOk result (text.new ≡ text.old ++ spec.with_name code.now name) }
{
    text.push(code)?;
    push_name(text, name)
}

fn push_with_id(text: &mut Text, code: &[u8], id: u32) -> Result<(), NoMemory>
    ensures { OnOk result (text.new ≡ text.old ++ spec.with_id code.now id) }
{
    text.push(code)?;
    push_id(text, id)
}

#[tactic(auto, unfolding(crate::specs::Refusals::line_code))]
fn line_code(fault: LineFault) -> &'static [u8]
    ensures { result.now ≡ spec.line_code fault }
{
    match fault {
        LineFault::LineTooLong => b"LineTooLong",
        LineFault::BadByte(_) => b"BadByte",
        LineFault::BadNumber(_) => b"BadNumber",
        LineFault::LongName(_) => b"LongName",
        LineFault::OpenText(_) => b"OpenText",
        LineFault::Unexpected(_) => b"Unexpected",
        LineFault::TooNested(_) => b"TooNested",
    }
}

fn place_in(fault: LineFault) -> Option<u32>
    ensures { result ≡ spec.place_in fault }
{
    match fault {
        LineFault::LineTooLong => None,
        LineFault::BadByte(place)
        | LineFault::BadNumber(place)
        | LineFault::LongName(place)
        | LineFault::OpenText(place)
        | LineFault::Unexpected(place)
        | LineFault::TooNested(place) => Some(place),
    }
}

// A place, where there is one, behind some bytes.
pub(crate) fn push_line(text: &mut Text, fault: LineFault) -> Result<(), NoMemory>
    ensures { OnOk result (text.new ≡ text.old ++ spec.line_text fault) }
{
    text.push(line_code(fault))?;
    match place_in(fault) {
        Some(place) => {
            text.push(b" at ")?;
            text.push_whole(u128::from(place))
        }
        None => Ok(()),
    }
}

fn push_at(text: &mut Text, code: &[u8], line: u32) -> Result<(), NoMemory>
    ensures { OnOk result (text.new ≡ text.old ++ spec.code_at code.now line) }
{
    text.push(code)?;
    text.push(b" at ")?;
    text.push_whole(u128::from(line))
}

fn push_block(text: &mut Text, fault: BlockFault) -> Result<(), NoMemory>
    ensures { OnOk result (text.new ≡ text.old ++ spec.block_text fault.line fault.fault) }
{
    push_at(text, line_code(fault.fault), fault.line)?;
    match place_in(fault.fault) {
        Some(place) => {
            text.push(b":")?;
            text.push_whole(u128::from(place))
        }
        None => Ok(()),
    }
}

#[tactic(auto, unfolding(crate::specs::Refusals::check_code))]
fn check_code(fault: &CheckFault) -> &'static [u8]
    ensures { result.now ≡ spec.check_code fault.now }
{
    match fault {
        CheckFault::TooManyRules => b"TooManyRules",
        CheckFault::TooManyAttributes => b"TooManyAttributes",
        CheckFault::DoubleAttribute(_) => b"DoubleAttribute",
        CheckFault::DoubleId(_) => b"DoubleId",
        CheckFault::SplitPriority(_, _) => b"SplitPriority",
        CheckFault::WrongArity(_, _) => b"WrongArity",
        CheckFault::DoubleName(_, _) => b"DoubleName",
        CheckFault::BadProbability(_) => b"BadProbability",
        CheckFault::UnknownSymbol(_, _) => b"UnknownSymbol",
        CheckFault::PartsDiffer(_) => b"PartsDiffer",
        CheckFault::UnknownName(_, _) => b"UnknownName",
    }
}

#[tactic(auto, unfolding(crate::specs::Refusals::carried_text))]
fn push_carried(text: &mut Text, fault: &CheckFault) -> Result<(), NoMemory>
    ensures { OnOk result (text.new ≡ text.old ++ spec.carried_text fault.now) }
{
    match fault {
        CheckFault::TooManyRules | CheckFault::TooManyAttributes => Ok(()),
        CheckFault::DoubleAttribute(name) => push_name(text, *name),
        CheckFault::DoubleId(id) | CheckFault::BadProbability(id) | CheckFault::PartsDiffer(id) =>
            push_id(text, *id),
        CheckFault::SplitPriority(id, name)
        | CheckFault::WrongArity(id, name)
        | CheckFault::DoubleName(id, name)
        | CheckFault::UnknownSymbol(id, name)
        | CheckFault::UnknownName(id, name) => push_both(text, *id, *name),
    }
}

fn push_check(text: &mut Text, fault: &CheckFault) -> Result<(), NoMemory>
    ensures { OnOk result (text.new ≡ text.old ++ spec.check_text fault.now) }
{
    text.push(check_code(fault))?;
    push_carried(text, fault)
}

#[tactic(auto, unfolding(crate::specs::Refusals::edit_text))]
fn push_edit(text: &mut Text, refused: &EditRefused) -> Result<(), NoMemory>
    requires { refused.now ≢ edit.NoMemory }
    ensures { OnOk result (text.new ≡ text.old ++ spec.edit_text refused.now) }
{
    match refused {
        EditRefused::NoRule(id) => push_with_id(text, b"NoRule", *id),
        EditRefused::NoAttribute(name) => push_with_name(text, b"NoAttribute", *name),
        EditRefused::NoSymbol(name) => push_with_name(text, b"NoSymbol", *name),
        EditRefused::NoLot(name) => push_with_name(text, b"NoLot", *name),
        EditRefused::BadLot(name) => push_with_name(text, b"BadLot", *name),
        EditRefused::TooManyLots => text.push(b"TooManyLots"),
        EditRefused::Check(fault) => push_check(text, fault),
        EditRefused::OverBudget => text.push(b"OverBudget"),
        EditRefused::NoMemory => unreachable!(),
    }
}

#[tactic(auto, unfolding(crate::specs::Refusals::asset_text))]
fn push_asset(text: &mut Text, fault: AssetFault) -> Result<(), NoMemory>
    ensures { OnOk result (text.new ≡ text.old ++ spec.asset_text fault) }
{
    match fault {
        AssetFault::LineTooLong(line) => push_at(text, b"LineTooLong", line),
        AssetFault::UnknownLine(line) => push_at(text, b"UnknownLine", line),
        AssetFault::BadVertex(line) => push_at(text, b"BadVertex", line),
        AssetFault::BadFace(line) => push_at(text, b"BadFace", line),
        AssetFault::TooManyVertices(line) => push_at(text, b"TooManyVertices", line),
        AssetFault::TooManyFaces(line) => push_at(text, b"TooManyFaces", line),
        AssetFault::NoFace => text.push(b"NoFace"),
    }
}

#[tactic(auto, unfolding(crate::specs::Refusals::wardrobe_text))]
fn push_wardrobe(text: &mut Text, fault: WardrobeFault) -> Result<(), NoMemory>
    requires { fault ≢ wardrobe.NoMemory }
    ensures { OnOk result (text.new ≡ text.old ++ spec.wardrobe_text fault) }
{
    match fault {
        WardrobeFault::TooManyAssets => text.push(b"TooManyAssets"),
        WardrobeFault::NoAsset(name) => push_with_name(text, b"NoAsset", name),
        WardrobeFault::TooManyDresses => text.push(b"TooManyDresses"),
        WardrobeFault::NoMemory => unreachable!(),
    }
}

#[tactic(auto, unfolding(crate::specs::Refusals::cause_text))]
fn push_cause(text: &mut Text, refused: &Refused) -> Result<(), NoMemory>
    requires edit { refused.now ≢ Refused.Edit edit.NoMemory }
    requires wardrobe { refused.now ≢ Refused.Wardrobe wardrobe.NoMemory }
    ensures { OnOk result (text.new ≡ text.old ++ spec.cause_text refused.now) }
{
    match refused {
        Refused::Line(fault) => push_line(text, *fault),
        Refused::Block(fault) => push_block(text, *fault),
        Refused::OpenBlock => text.push(b"OpenBlock"),
        Refused::Edit(refused) => push_edit(text, refused),
        Refused::LongDump(id) => push_with_id(text, b"LongDump", *id),
        Refused::Asset(fault) => push_asset(text, *fault),
        Refused::Wardrobe(fault) => push_wardrobe(text, *fault),
        Refused::NoDress(name) => push_with_name(text, b"NoDress", *name),
        Refused::ModelTooLarge => text.push(b"ModelTooLarge"),
        Refused::NoUndo => text.push(b"NoUndo"),
        Refused::NoRedo => text.push(b"NoRedo"),
    }
}

/// The reply to what is refused, with its LF: the code, then where it is or whom it is about. Places
/// and numbers of lines count from 1. Takes memory.
#[tactic(auto, unfolding(crate::specs::Refusals::refusal_text_of))]
pub fn refusal_text(alloc: Global, refused: &Refused) -> Result<List<u8>, NoMemory>
    requires edit { refused.now ≢ Refused.Edit edit.NoMemory }
    requires wardrobe { refused.now ≢ Refused.Wardrobe wardrobe.NoMemory }
    ensures { IfOk result (λ text. text ≡ spec.refusal_text_of refused.now) }
{
    let mut text = Text::new(alloc);
    text.push(b"# refused ")?;
    push_cause(&mut text, refused)?;
    text.push(b"\n")?;
    Ok(text.into_list())
}
