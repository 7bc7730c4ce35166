ghost use Rattle.std.specs.Prelude.{◌≡◌, ◌++◌, IfOk, OnOk};
ghost use Rattle.cga_bill.specs.Bill.{bill_of};
ghost use Rattle.cga_bill.specs.Texts.{bill_text_of};
ghost use Rattle.cga_obj.specs.Faults.{fault_text_of};
ghost use Rattle.cga_city.specs.Reports.{faults_of};
ghost use Rattle.cga_city.specs.Lots.{names_of};
ghost use Rattle.cga_script.specs.Dumps.{dump_of};
ghost use Rattle.cga_syntax.specs.GrammarText.{grammar_text};
ghost use Rattle.cga_top.specs.State.{State};
ghost use Rattle.cga_top.specs.Stats.{stats_text_of};
ghost use Rattle.cga_top.specs.Replies.{dumped, derived, counts_of, drawn_by};
ghost use Rattle.cga_top.specs.Session.{IsAt, Says};
ghost use Rattle.cga_top.specs.Ready.{IsReady};

use crate::session::Session;
use crate::stats::stats_text;
use cga_fraction::{List, NoMemory};
use cga_obj::fault_text;
use cga_script::{Refused, dump_text, refusal_text};
use cga_shape::{Lot, Lots};
use cga_syntax::print_grammar;
use cga_word::Name;
use std::alloc::Global;

fn push_names(names: &mut List<Name>, run: &[Lot]) -> Result<(), NoMemory>
    ensures { OnOk result (names.new ≡ names.old ++ names_of run.now) }
{
    for lot in run {
        names.push(lot.name)?;
    }
    Ok(())
}

/// The names of lots, in their order.
pub(crate) fn names(alloc: Global, lots: &Lots) -> Result<List<Name>, NoMemory>
    ensures { IfOk result (λ names. names ≡ names_of lots.now) }
{
    let mut names = List::new(alloc);
    for run in lots.runs() {
        push_names(&mut names, run.as_slice())?;
    }
    Ok(names)
}

/// The list of faults. Takes memory.
pub(crate) fn faults(session: &Session) -> Result<List<u8>, NoMemory>
    requires { IsReady session.now }
    ensures { (s : State) → IsAt s session.now
        → IfOk result (λ text. text ≡ fault_text_of (faults_of s.sources.lots (derived s))) }
{
    let faults = session.city.faults()?;
    fault_text(session.alloc, faults.as_slice())
}

/// How many there are of each, and how many shapes the last accepted edit touched. Takes memory.
pub(crate) fn stats(session: &Session) -> Result<List<u8>, NoMemory>
    requires { IsReady session.now }
    ensures { (s : State) → IsAt s session.now
        → IfOk result (λ text. text ≡ stats_text_of (counts_of s)) }
{
    stats_text(session.alloc, session.city.counts())
}

/// The bill of all that is drawn. Takes memory.
pub(crate) fn bill(session: &Session) -> Result<List<u8>, NoMemory>
    requires { IsReady session.now }
    ensures { (s : State) → IsAt s session.now
        → IfOk result (λ text. text ≡ bill_text_of (bill_of (drawn_by s (names_of s.sources.lots)))) }
{
    session.bill.bill_text()
}

/// The text of the rules. Takes memory.
pub(crate) fn grammar(session: &Session) -> Result<List<u8>, NoMemory>
    requires { IsReady session.now }
    ensures { (s : State) → IsAt s session.now
        → IfOk result (λ text. text ≡ grammar_text s.sources.grammar) }
{
    print_grammar(session.alloc, session.city.grammar())
}

/// The text of the sources, or its refusal. Takes memory.
pub(crate) fn dump(session: &Session) -> Result<List<u8>, NoMemory>
    requires { IsReady session.now }
    ensures { (s : State) → IsAt s session.now → IfOk result (Says (dumped s (dump_of s.sources))) }
{
    match dump_text(session.alloc, session.city.sources())? {
        Ok(text) => Ok(text),
        Err(long) => refusal_text(session.alloc, &Refused::LongDump(long.id)),
    }
}
