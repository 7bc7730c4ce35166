//! What the fields of a step are, by their types: names are names, and numbers fit.
ghost use Rattle.cga_trace.specs.Text.{AreFew, IsFew, IsStep};

use cga_shape::{Outcome, TraceStep};

fn are_few(_path: &[u16])
    ensures { AreFew _path.now }
{}

fn is_few(outcome: Outcome)
    ensures { IsFew outcome }
{
    match outcome {
        Outcome::Grew(_) | Outcome::Faulted(_) => {}
    }
}

/// Does nothing: its contract is what the types keep.
pub fn is_step(step: &TraceStep)
    ensures { IsStep step.now }
{
    let _lot = step.lot.bytes();
    let _symbol = step.symbol.bytes();
    are_few(step.path.as_slice());
    is_few(step.outcome);
}
