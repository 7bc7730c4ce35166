ghost use Rattle.std.specs.Prelude.{◌≡◌, ◌&&◌, IfOk, IfSome, Ok, OnOk, ℕ};
ghost use Rattle.cga_script.specs.Ends.{is_version_line};
ghost use Rattle.cga_top.specs.State.{State, Block};
ghost use Rattle.cga_top.specs.Replies.{effect, outside, asked, begun, is_blank, closed, ended, second};
ghost use Rattle.cga_top.specs.Reported.{asks_for, reported};
ghost use Rattle.cga_top.specs.Session.{IsAt, IsOpenAs, Did};
ghost use Rattle.cga_top.specs.Ready.{IsReady, HasRead};
ghost use Rattle.cga_top.specs.Written.{IsWritten, AsksWritten};

use crate::commands::do_command;
use crate::dresses::keep_asset;
use crate::edits::change;
use crate::open_block::{OpenBlock, city_edit, rules_edit};
use crate::report::Report;
use crate::session::{Session, accepted, put};
use crate::traces::judge_lines;
use cga_asset::Wardrobe;
use cga_bill::Bill;
use cga_city::City;
use cga_city::limits::BUDGET_TWO;
use cga_expand::Expansions;
use cga_form::{BlockFault, LineFault};
use cga_fraction::{List, NoMemory, Tests};
use cga_script::{
    Refused, ScriptCommand, Version, command, ends_block, refusal_text, version_line,
};
use cga_shape::Edit;
use cga_undo::History;
use cga_word::Name;
use std::sync::ledger::Ledger;

// The line that makes the version 2 has come.
fn begin_second(session: &mut Session) -> Result<List<u8>, NoMemory>
    requires { IsReady session.old }
    ensures did { (s : State) (n : ℕ) → IsAt s session.old
        → IfOk result (λ reply. Did (second s) session.old.city.changes session.new reply n n) }
    ensures ready { OnOk result (IsReady session.new) }
{
    put(&mut session.history, History::new(session.alloc)?);
    put(&mut session.city, City::new(session.alloc, BUDGET_TWO));
    put(&mut session.bill, Bill::new(session.alloc));
    put(&mut session.wardrobe, Wardrobe::new(session.alloc));
    session.fresh = false;
    session.version = Version::Two;
    put(&mut session.block, None);
    session.quiet = false;
    accepted(session.alloc, false)
}

// Whether the line makes the version 2.
fn is_second(session: &Session, line: &[u8], long: bool) -> Result<bool, NoMemory>
    ensures { (s : State) → IsAt s session.now
        → IfOk result (λ told. told ≡ (s.fresh && is_version_line (record { bytes = line.now; long = long }))) }
{
    if !session.fresh {
        return Ok(false);
    }
    version_line(session.alloc, line, long)
}

fn is_blank(command: &ScriptCommand) -> bool
    ensures { result ≡ is_blank command.now }
{
    matches!(command, ScriptCommand::Blank)
}

// Does what a line is taken for.
fn do_asked<E: Ledger, T: Ledger>(
    session: &mut Session,
    told: Result<ScriptCommand, LineFault>,
    expansions: &mut Expansions<E>,
    tests: &mut Tests<T>,
) -> Result<List<u8>, NoMemory>
    requires ready { IsReady session.old }
    requires written { IfOk told AsksWritten }
    ensures did { (s : State) → IsAt s session.old
        → IfOk result (λ reply. Did (asked s told) session.old.city.changes session.new reply expansions.old expansions.new) }
    ensures ready { OnOk result (IsReady session.new) }
{
    match told {
        Ok(command) => {
            if is_blank(&command) {
                return Ok(List::new(session.alloc));
            }
            session.fresh = false;
            do_command(session, command, expansions, tests)
        }
        Err(fault) => {
            session.fresh = false;
            refusal_text(session.alloc, &Refused::Line(fault))
        }
    }
}

// What a command asks to be shown, if that is what it asks for.
fn report_asked(told: &Result<ScriptCommand, LineFault>) -> Option<(Report, Option<Name>)>
    ensures { IfSome result (λ asked. told.now ≡ Ok (asks_for asked.0 asked.1)) }
{
    match told {
        Ok(ScriptCommand::Print(name)) => Some((Report::Print, *name)),
        Ok(ScriptCommand::Model(name)) => Some((Report::Model, *name)),
        _ => None,
    }
}

// A line that asks for a report begins with its word.
fn begins_report(line: &[u8]) -> bool {
    line.starts_with(b"print") || line.starts_with(b"model")
}

/// What a line asks to be shown, if the line is outside a block and begins with such a word: of the city, or of one lot.
pub(crate) fn asks_report(
    session: &Session,
    line: &[u8],
    long: bool,
) -> Result<Option<(Report, Option<Name>)>, NoMemory>
    ensures { (s : State) → IsAt s session.now → IfOk result (λ asked. IfSome asked (λ a.
        effect s (record { bytes = line.now; long = long }) ≡ reported (begun s) a.0 a.1)) }
{
    if session.block.is_some() || !begins_report(line) {
        return Ok(None);
    }
    if is_second(session, line, long)? {
        return Ok(None);
    }
    let told = command(session.alloc, line, long, session.version)?;
    Ok(report_asked(&told))
}

// Does what a line outside a block asks for.
fn do_outside<E: Ledger, T: Ledger>(
    session: &mut Session,
    line: &[u8],
    long: bool,
    expansions: &mut Expansions<E>,
    tests: &mut Tests<T>,
) -> Result<List<u8>, NoMemory>
    requires { IsReady session.old }
    ensures did { (s : State) → IsAt s session.old
        → IfOk result (λ reply. Did (outside s (record { bytes = line.now; long = long })) session.old.city.changes session.new reply expansions.old expansions.new) }
    ensures ready { OnOk result (IsReady session.new) }
{
    if is_second(session, line, long)? {
        return begin_second(session);
    }
    let told = command(session.alloc, line, long, session.version)?;
    do_asked(session, told, expansions, tests)
}

// Does the edit that a block makes, or refuses it by its first faulty line.
fn close<E: Ledger, T: Ledger>(
    session: &mut Session,
    made: Result<Edit, BlockFault>,
    expansions: &mut Expansions<E>,
    tests: &mut Tests<T>,
) -> Result<List<u8>, NoMemory>
    requires ready { IsReady session.old }
    requires written { IfOk made IsWritten }
    ensures did { (s : State) → IsAt s session.old
        → IfOk result (λ reply. Did (closed s made) session.old.city.changes session.new reply expansions.old expansions.new) }
    ensures ready { OnOk result (IsReady session.new) }
{
    match made {
        Ok(edit) => change(session, edit, expansions, tests),
        Err(fault) => refusal_text(session.alloc, &Refused::Block(fault)),
    }
}

// The reply to a block that has ended.
fn do_end<E: Ledger, T: Ledger>(
    session: &mut Session,
    block: OpenBlock,
    expansions: &mut Expansions<E>,
    tests: &mut Tests<T>,
) -> Result<List<u8>, NoMemory>
    requires ready { IsReady session.old }
    requires read { HasRead block }
    ensures did { (s : State) (b : Block) → IsAt s session.old → IsOpenAs b block
        → IfOk result (λ reply. Did (ended s b) session.old.city.changes session.new reply expansions.old expansions.new) }
    ensures ready { OnOk result (IsReady session.new) }
{
    match block {
        OpenBlock::Rules(reader) => close(session, rules_edit(reader)?, expansions, tests),
        OpenBlock::City(reader) => close(session, city_edit(reader)?, expansions, tests),
        OpenBlock::Asset(name, reader) => keep_asset(session, name, reader.finish()),
        OpenBlock::Judge(reader) => judge_lines(session, &reader, expansions, tests),
    }
}

/// Does what a line asks for, and gives the reply. What it changed is kept.
pub fn do_line<E: Ledger, T: Ledger>(
    session: &mut Session,
    line: &[u8],
    long: bool,
    expansions: &mut Expansions<E>,
    tests: &mut Tests<T>,
) -> Result<List<u8>, NoMemory>
    requires { IsReady session.old }
    ensures did { (s : State) → IsAt s session.old
        → IfOk result (λ reply. Did (effect s (record { bytes = line.now; long = long })) session.old.city.changes session.new reply expansions.old expansions.new) }
    ensures ready { OnOk result (IsReady session.new) }
{
    match session.block.take() {
        None => do_outside(session, line, long, expansions, tests),
        Some(block) if ends_block(line, long) => do_end(session, block, expansions, tests),
        Some(block) => {
            session.block = Some(block.line(line, long)?);
            Ok(List::new(session.alloc))
        }
    }
}
