ghost use Rattle.std.specs.Prelude.{◌≡◌, ◌++◌, IfOk, OnOk, codes, flat_map};
ghost use Rattle.cga_trace.specs.Judged.{judged_text};
ghost use Rattle.cga_trace.specs.Text.{header, step_text, told_text, trace_text_of};
ghost use Rattle.cga_trace.specs.Words.{outcome_word};

use crate::words::answer_word;
use cga_fraction::{List, NoMemory, Text};
use cga_obj::{fault_code, push_path};
use cga_shape::{Outcome, TraceStep};
use std::alloc::Global;

#[tactic(auto, unfolding(crate::specs::Words::outcome_word))]
fn push_outcome(text: &mut Text, outcome: Outcome) -> Result<(), NoMemory>
    ensures { OnOk result (text.new ≡ text.old ++ outcome_word outcome) }
{
    match outcome {
        Outcome::Grew(children) => text.push_whole(u128::from(children)),
        Outcome::Faulted(fault) => text.push(fault_code(fault)),
    }
}

#[tactic(auto, unfolding(crate::specs::Text::told_text))]
fn push_told(text: &mut Text, step: &TraceStep) -> Result<(), NoMemory>
    ensures { OnOk result (text.new ≡ text.old ++ told_text step.now) }
{
    text.push_byte(b' ')?;
    text.push(answer_word(step.answers.noparent))?;
    text.push_byte(b' ')?;
    text.push(answer_word(step.answers.active))?;
    text.push_byte(b' ')?;
    push_outcome(text, step.outcome)
}

/// Adds the line of a step, without its end.
#[tactic(auto, unfolding(crate::specs::Text::step_text))]
pub fn push_step(text: &mut Text, step: &TraceStep) -> Result<(), NoMemory>
    ensures { OnOk result (text.new ≡ text.old ++ step_text step.now) }
{
    text.push(b"# step ")?;
    text.push(step.lot.bytes())?;
    text.push_byte(b' ')?;
    push_path(text, step.path.as_slice())?;
    text.push_byte(b' ')?;
    text.push(step.symbol.bytes())?;
    push_told(text, step)
}

fn push_line(text: &mut Text, step: &TraceStep) -> Result<(), NoMemory>
    ensures { OnOk result (text.new ≡ text.old ++ (step_text step.now ++ codes "\n")) }
{
    push_step(text, step)?;
    text.push_byte(b'\n')
}

fn push_lines(text: &mut Text, steps: &[TraceStep]) -> Result<(), NoMemory>
    ensures { OnOk result (text.new ≡ text.old ++ flat_map (λ step. step_text step ++ codes "\n") steps.now) }
{
    for step in steps {
        push_line(text, step)?;
    }
    Ok(())
}

/// Adds the line that says how many steps there are, without its end.
#[tactic(auto, unfolding(crate::specs::Text::header))]
pub fn push_header(text: &mut Text, steps: usize) -> Result<(), NoMemory>
    ensures { OnOk result (text.new ≡ text.old ++ header steps) }
{
    text.push(b"# trace ")?;
    text.push_whole(steps as u128)
}

/// The number of steps, and a line for each: its lot, its path, its symbol, what was answered to both
/// targets, and the number of children or the code of the fault. Takes memory.
pub fn trace_text(alloc: Global, steps: &[TraceStep]) -> Result<List<u8>, NoMemory>
    ensures { IfOk result (λ text. text ≡ trace_text_of steps.now) }
{
    let mut text = Text::new(alloc);
    push_header(&mut text, steps.len())?;
    text.push_byte(b'\n')?;
    push_lines(&mut text, steps)?;
    Ok(text.into_list())
}

/// What a block of a trace is replied to, by the first line that isn't the run's. Takes memory.
#[tactic(auto, unfolding(crate::specs::Judged::judged_text))]
pub fn judged_text(alloc: Global, place: Option<u32>) -> Result<List<u8>, NoMemory>
    ensures { IfOk result (λ text. text ≡ judged_text place) }
{
    let mut text = Text::new(alloc);
    let Some(line) = place else {
        text.push(b"# accepted\n")?;
        return Ok(text.into_list());
    };
    text.push(b"# rejected at ")?;
    text.push_whole(u128::from(line))?;
    text.push_byte(b'\n')?;
    Ok(text.into_list())
}
