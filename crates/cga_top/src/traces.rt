ghost use Rattle.std.specs.Prelude.{◌≡◌, IfOk, List, length};
ghost use Rattle.cga_form.specs.Lines.{Line};
ghost use Rattle.cga_trace.specs.Judged.{judged};
ghost use Rattle.cga_trace.specs.JudgeLines.{IsRead};
ghost use Rattle.cga_trace.specs.Text.{AreSteps, trace_text_of};
ghost use Rattle.cga_top.specs.State.{State};
ghost use Rattle.cga_top.specs.Effect.{SpentJudging};
ghost use Rattle.cga_top.specs.Replies.{judged_by, run_of};
ghost use Rattle.cga_top.specs.Session.{Did, IsAt};
ghost use Rattle.cga_top.specs.Ready.{IsReady};

use crate::session::Session;
use cga_expand::Expansions;
use cga_fraction::{List, NoMemory, Tests};
use cga_judge::{Verdict, judge};
use cga_shape::TraceStep;
use cga_trace::{JudgeReader, judged_text, trace_text};
use std::sync::ledger::Ledger;

// The run of the city's sources, which are sound and within its budget.
fn run(session: &Session) -> Result<List<TraceStep>, NoMemory>
    requires { IsReady session.now }
    ensures value { (s : State) → IsAt s session.now → IfOk result (λ run. run ≡ run_of s) }
    ensures fields { IfOk result AreSteps }
{
    let _sources = session.city.sources(); // for the proof
    session.city.trace()
}

/// What the expansion of each shape told, in order. Takes memory.
pub(crate) fn trace(session: &Session) -> Result<List<u8>, NoMemory>
    requires { IsReady session.now }
    ensures { (s : State) → IsAt s session.now → IfOk result (λ text. text ≡ trace_text_of (run_of s)) }
{
    let run = run(session)?;
    trace_text(session.alloc, run.as_slice())
}

// Where the lines that were read differ from those of the run. How many steps that has is the city's to
// say; whether the given ones are the run is the judge's.
fn place<E: Ledger, T: Ledger>(
    session: &Session,
    reader: &JudgeReader,
    expansions: &mut Expansions<E>,
    tests: &mut Tests<T>,
) -> Result<Option<u32>, NoMemory>
    requires { IsReady session.now }
    ensures { (s : State) (lines : List Line) → IsAt s session.now → IsRead reader.now lines
        → IfOk result (λ place. (place ≡ judged (run_of s) lines)
        × SpentJudging place (length (run_of s)) (length lines) expansions.old expansions.new) }
{
    let run = run(session)?;
    if !reader.is_headed(run.len())? {
        return Ok(Some(1));
    }
    let sources = session.city.sources();
    match judge(session.alloc, sources, reader.steps(), expansions, tests)? {
        Verdict::Accepted => Ok(reader.place(None)),
        Verdict::Rejected(wrong) => Ok(reader.place(Some(wrong))),
    }
}

/// Judges the lines that were read. Takes memory.
pub(crate) fn judge_lines<E: Ledger, T: Ledger>(
    session: &Session,
    reader: &JudgeReader,
    expansions: &mut Expansions<E>,
    tests: &mut Tests<T>,
) -> Result<List<u8>, NoMemory>
    requires { IsReady session.now }
    ensures { (s : State) (lines : List Line) → IsAt s session.now → IsRead reader.now lines
        → IfOk result (λ reply. Did (judged_by s lines (judged (run_of s) lines)) session.now.city.changes session.now reply expansions.old expansions.new) }
{
    let place = place(session, reader, expansions, tests)?;
    judged_text(session.alloc, place)
}
