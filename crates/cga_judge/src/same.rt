ghost use Rattle.std.specs.Prelude.{◌≡◌, ◌↔◌, IsTrue};

use cga_shape::{Answers, Outcome, TraceStep};
use cga_word::Name;

fn same_name(a: Name, b: Name) -> bool
    ensures { IsTrue result ↔ (a ≡ b) }
{
    a == b
}

fn same_path(a: &[u16], b: &[u16]) -> bool
    ensures { IsTrue result ↔ (a.now ≡ b.now) }
{
    a == b
}

fn same_answers(a: Answers, b: Answers) -> bool
    ensures { IsTrue result ↔ (a ≡ b) }
{
    a == b
}

fn same_outcome(a: Outcome, b: Outcome) -> bool
    ensures { IsTrue result ↔ (a ≡ b) }
{
    a == b
}

/// Whether two steps are equal.
pub fn is_same(a: &TraceStep, b: &TraceStep) -> bool
    ensures { IsTrue result ↔ (a.now ≡ b.now) }
{
    let lots = same_name(a.lot, b.lot);
    let paths = same_path(a.path.as_slice(), b.path.as_slice());
    let symbols = same_name(a.symbol, b.symbol);
    let answers = same_answers(a.answers, b.answers);
    let outcomes = same_outcome(a.outcome, b.outcome);
    lots && (paths && (symbols && (answers && outcomes)))
}
