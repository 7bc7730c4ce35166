ghost use Rattle.std.specs.Prelude.{[], IfOk, OnOk, ℕ};
ghost use Rattle.cga_top.specs.State.{State, Block, of_asset};
ghost use Rattle.cga_top.specs.Written.{AsksWritten};
ghost use Rattle.cga_top.specs.Replies.{EditsNothing, done_by, opened};
ghost use Rattle.cga_top.specs.Session.{IsAt, IsOpenAs, Did};
ghost use Rattle.cga_top.specs.Ready.{IsReady, HasRead};

use crate::dresses::{dress, undress};
use crate::edits::{change, redo, undo};
use crate::open_block::OpenBlock;
use crate::report::{model, print};
use crate::reports::{bill, dump, faults, grammar, stats};
use crate::session::Session;
use crate::traces::trace;
use cga_asset::AssetReader;
use cga_expand::Expansions;
use cga_fraction::{List, NoMemory, Tests};
use cga_parser::GrammarReader;
use cga_script::{CityReader, ScriptCommand};
use cga_trace::JudgeReader;
use cga_word::Name;
use std::sync::ledger::Ledger;

fn open(session: &mut Session, block: OpenBlock) -> List<u8>
    requires ready { IsReady session.old }
    requires read { HasRead block }
    ensures did { (s : State) (b : Block) (n : ℕ) → IsAt s session.old → IsOpenAs b block
        → Did (opened s b) session.old.city.changes session.new result n n }
    ensures ready { IsReady session.new }
{
    session.block = Some(block);
    List::new(session.alloc)
}

fn open_asset(session: &mut Session, name: Name) -> List<u8>
    requires { IsReady session.old }
    ensures did { (s : State) (n : ℕ) → IsAt s session.old
        → Did (opened s (of_asset name [])) session.old.city.changes session.new result n n }
    ensures ready { IsReady session.new }
{
    let reader = AssetReader::new(session.alloc);
    open(session, OpenBlock::Asset(name, reader))
}

// Does what a command asks for that edits nothing.
fn do_plain(session: &mut Session, command: &ScriptCommand) -> Result<List<u8>, NoMemory>
    requires ready { IsReady session.old }
    requires plain { EditsNothing command.now }
    ensures did { (s : State) (n : ℕ) → IsAt s session.old
        → IfOk result (λ reply. Did (done_by s command.now) session.old.city.changes session.new reply n n) }
    ensures ready { OnOk result (IsReady session.new) }
{
    let alloc = session.alloc;
    match command {
        ScriptCommand::Blank => Ok(List::new(alloc)),
        ScriptCommand::Rules => Ok(open(session, OpenBlock::Rules(GrammarReader::new(alloc)))),
        ScriptCommand::CityBlock => Ok(open(session, OpenBlock::City(CityReader::new(alloc)))),
        ScriptCommand::AssetBlock(name) => Ok(open_asset(session, *name)),
        ScriptCommand::JudgeBlock => Ok(open(session, OpenBlock::Judge(JudgeReader::new(alloc)))),
        ScriptCommand::Print(name) => print(session, *name),
        ScriptCommand::Model(name) => model(session, *name),
        ScriptCommand::Faults => faults(session),
        ScriptCommand::Grammar => grammar(session),
        ScriptCommand::Dump => dump(session),
        ScriptCommand::Stats => stats(session),
        ScriptCommand::Bill => bill(session),
        ScriptCommand::Dress(symbol, name) => dress(session, *symbol, *name),
        ScriptCommand::Undress(symbol) => undress(session, *symbol),
        ScriptCommand::Quiet => {
            session.quiet = true;
            Ok(List::new(alloc))
        }
        ScriptCommand::Trace => trace(session),
        ScriptCommand::Change(_) | ScriptCommand::Undo | ScriptCommand::Redo => unreachable!(),
    }
}

/// Does what a command asks for.
pub(crate) fn do_command<E: Ledger, T: Ledger>(
    session: &mut Session,
    command: ScriptCommand,
    expansions: &mut Expansions<E>,
    tests: &mut Tests<T>,
) -> Result<List<u8>, NoMemory>
    requires ready { IsReady session.old }
    requires written { AsksWritten command }
    ensures did { (s : State) → IsAt s session.old
        → IfOk result (λ reply. Did (done_by s command) session.old.city.changes session.new reply expansions.old expansions.new) }
    ensures ready { OnOk result (IsReady session.new) }
{
    match command {
        ScriptCommand::Change(edit) => change(session, edit, expansions, tests),
        ScriptCommand::Undo => undo(session, expansions, tests),
        ScriptCommand::Redo => redo(session, expansions, tests),
        plain => do_plain(session, &plain),
    }
}
