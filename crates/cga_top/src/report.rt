//! Writes what a line asks to be shown of the city or of one lot, lot by lot.
ghost use Rattle.std.specs.Prelude.{◌≡◌, ◌<◌, ◌^◌, IfOk, None, OnErr, OnOk, bytes_eq, length};
ghost use Rattle.std.specs.List.{IsDistinct};
ghost use Rattle.std.specs.Io.KnownBytes.{Appends};
ghost use Rattle.cga_top.specs.Faults.{FaultsBy};
ghost use Rattle.cga_top.specs.Prefixes.{AppendsSome};
ghost use Rattle.cga_top.specs.Ready.{IsReady};
ghost use Rattle.cga_top.specs.Replies.{printed, shown};
ghost use Rattle.cga_top.specs.Reported.{reported, reported_of};
ghost use Rattle.cga_top.specs.Session.{IsAt, Says};
ghost use Rattle.cga_top.specs.State.{State};

use crate::halt::Halt;
use crate::models::write_model;
use crate::print_lots::{write_refusal, write_text};
use crate::reports::names;
use crate::session::Session;
use cga_fraction::{List, NoMemory};
use cga_obj::Solids;
use cga_outside::{ListSink, Sink};
use cga_script::Refused;
use cga_shape::EditRefused;
use cga_word::Name;

/// What is shown of lots.
#[derive(Clone, Copy, Debug)]
pub(crate) enum Report {
    /// Their solids.
    Print,
    /// Their solids, or the assets that stand for them.
    Model,
}

// Writes a report of lots.
fn write_of<K: Sink>(
    session: &Session,
    out: &mut K,
    report: Report,
    lots: &[Name],
) -> Result<(), Halt>
    requires ready { IsReady session.now }
    requires distinct { IsDistinct bytes_eq lots.now }
    requires few { length lots.now < 2 ^ 32 }
    ensures ok { (s : State) → IsAt s session.now
        → OnOk result (Appends (K.held out.old) (K.held out.new) (reported_of s report lots.now).reply) }
    ensures err { (s : State) → IsAt s session.now
        → OnErr result (AppendsSome (K.held out.old) (K.held out.new) (reported_of s report lots.now).reply) }
    ensures faults { FaultsBy result (K.faults out.old) (K.faults out.new) }
{
    match report {
        Report::Print => write_text(session, &Solids, out, lots),
        Report::Model => write_model(session, out, lots),
    }
}

// How many lots there are, which is less than 2^32.
fn lot_count(session: &Session) -> u32
    requires { IsReady session.now }
    ensures { result ≡ length session.now.city.sources.lots }
{
    session.city.counts().lots
}

// Writes a report of the city.
fn write_city<K: Sink>(session: &Session, out: &mut K, report: Report) -> Result<(), Halt>
    requires { IsReady session.now }
    ensures ok { (s : State) → IsAt s session.now
        → OnOk result (Appends (K.held out.old) (K.held out.new) (reported s report None).reply) }
    ensures err { (s : State) → IsAt s session.now
        → OnErr result (AppendsSome (K.held out.old) (K.held out.new) (reported s report None).reply) }
    ensures faults { FaultsBy result (K.faults out.old) (K.faults out.new) }
{
    let _count = lot_count(session); // for the proof
    let names = match names(session.alloc, session.city.lots()) {
        Ok(names) => names,
        Err(NoMemory) => return Err(Halt::NoMemory),
    };
    write_of(session, out, report, names.as_slice())
}

/// Writes a report of the city, or of one lot, or its refusal. Takes memory for a lot's solids, and for the names of all
/// lots.
pub(crate) fn write_report<K: Sink>(
    session: &Session,
    out: &mut K,
    report: Report,
    name: Option<Name>,
) -> Result<(), Halt>
    requires { IsReady session.now }
    ensures ok { (s : State) → IsAt s session.now
        → OnOk result (Appends (K.held out.old) (K.held out.new) (reported s report name).reply) }
    ensures err { (s : State) → IsAt s session.now
        → OnErr result (AppendsSome (K.held out.old) (K.held out.new) (reported s report name).reply) }
    ensures faults { FaultsBy result (K.faults out.old) (K.faults out.new) }
{
    match name {
        None => write_city(session, out, report),
        Some(lot) if session.city.has_lot(lot) => write_of(session, out, report, &[lot]),
        Some(lot) => write_refusal(session.alloc, out, &Refused::Edit(EditRefused::NoLot(lot))),
    }
}

// A report as one text.
fn report_text(session: &Session, report: Report, name: Option<Name>) -> Result<List<u8>, NoMemory>
    requires { IsReady session.now }
    ensures { (s : State) → IsAt s session.now → IfOk result (λ text. text ≡ (reported s report name).reply) }
{
    let mut out = ListSink::new(session.alloc);
    match write_report(session, &mut out, report, name) {
        Ok(()) => Ok(out.into_list()),
        Err(_) => Err(NoMemory),
    }
}

/// What `print` writes, as one text.
pub(crate) fn print(session: &Session, name: Option<Name>) -> Result<List<u8>, NoMemory>
    requires { IsReady session.now }
    ensures { (s : State) → IsAt s session.now → IfOk result (Says (printed s name)) }
{
    report_text(session, Report::Print, name)
}

/// What `model` writes, as one text.
pub(crate) fn model(session: &Session, name: Option<Name>) -> Result<List<u8>, NoMemory>
    requires { IsReady session.now }
    ensures { (s : State) → IsAt s session.now → IfOk result (Says (shown s name)) }
{
    report_text(session, Report::Model, name)
}
