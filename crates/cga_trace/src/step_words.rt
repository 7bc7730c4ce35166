ghost use Rattle.std.specs.Prelude.{◌≡◌};
ghost use Rattle.cga_shape.specs.declared.trace_step.TraceStep.{TraceStep};
ghost use Rattle.cga_trace.specs.Text.{AreWords, IsStep, step_text};

use crate::cuts::{behind, cut};

/// The words of a line that is the text of a step, but the first two.
#[derive(Clone, Copy)]
pub struct StepWords<'a> {
    pub lot: &'a [u8],
    pub path: &'a [u8],
    pub symbol: &'a [u8],
    pub noparent: &'a [u8],
    pub active: &'a [u8],
    pub outcome: &'a [u8],
}

impl StepWords<'_> {
    /// Any other line is cut too.
    pub fn of(line: &[u8]) -> StepWords<'_>
        ensures { (s : TraceStep) → IsStep s → line.now ≡ step_text s
            → AreWords s result.lot.now result.path.now result.symbol.now
            result.noparent.now result.active.now result.outcome.now }
    {
        let text = behind(line, 7);
        let (lot, behind_lot) = cut(text, b' ');
        let (path, behind_path) = cut(behind_lot, b' ');
        let (symbol, behind_symbol) = cut(behind_path, b' ');
        let (noparent, behind_noparent) = cut(behind_symbol, b' ');
        let (active, outcome) = cut(behind_noparent, b' ');
        StepWords {
            lot,
            path,
            symbol,
            noparent,
            active,
            outcome,
        }
    }
}
