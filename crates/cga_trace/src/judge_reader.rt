ghost use Rattle.std.specs.Prelude.{◌≡◌, ◌⊎◌, ◌<◌, ◌≤◌, ◌++◌, ◌∷◌, [], IfOk, IfSome, IsSome, List, None, OnOk, length, true, false, if◌then◌else◌};
ghost use Rattle.cga_form.specs.Lines as spec;
ghost use Rattle.cga_form.specs.Lines.{Line};
ghost use Rattle.cga_shape.specs.declared.trace_step.TraceStep.{TraceStep};
ghost use Rattle.cga_trace.specs.Judged.{is_headed, judged};
ghost use Rattle.cga_trace.specs.JudgeLines.{AgreeBefore, IsRead};
ghost use Rattle.cga_trace.specs.Text.{AreSteps, IsStep, step_text};
ghost use Rattle.cga_trace.specs.declared.limits.TheConstants.{MOST_STEPS};

use crate::limits::MOST_STEPS;
use crate::reading::read_step;
use crate::text::push_header;
use cga_form::limits::LINE_LIMIT;
use cga_fraction::{List, NoMemory, Text};
use cga_shape::TraceStep;
use std::alloc::Global;

/// Reads a trace that is to be judged, line by line. It keeps the first line, and then the steps that
/// lines are the texts of, as far as they are and no more than any run has. Whatever comes behind these
/// is only noticed.
#[derive(Drop)]
pub struct JudgeReader {
    alloc: Global,
    /// Nothing of a long line.
    first: Option<List<u8>>,
    steps: List<TraceStep>,
    goes_on: bool,
}

impl JudgeReader {
    /// A reader of no lines yet. Takes no memory.
    pub fn new(alloc: Global) -> JudgeReader
        ensures { IsRead result [] }
    {
        JudgeReader {
            alloc,
            first: None,
            steps: List::new(alloc),
            goes_on: false,
        }
    }

    /// One more line, without its end. Takes memory.
    pub fn line(&mut self, line: &[u8], long: bool) -> Result<(), NoMemory>
        ensures { OnOk result ((lines : List Line) → IsRead self.old lines
            → IsRead self.new (lines ++ record { bytes = line.now; long = long } ∷ [])) }
    {
        let long = is_long(line, long);
        if self.first.is_none() {
            self.first = Some(kept(self.alloc, line, long)?);
            return Ok(());
        }
        if self.goes_on {
            return Ok(());
        }
        match self.step(line, long)? {
            Some(step) => {
                self.steps.push(step)?;
                Ok(())
            }
            None => {
                self.goes_on = true;
                Ok(())
            }
        }
    }

    // The step of one more line, unless there are enough.
    fn step(&self, line: &[u8], long: bool) -> Result<Option<TraceStep>, NoMemory>
        ensures few { IfOk result (λ found. IsSome found → length self.now.steps < MOST_STEPS) }
        ensures found { IfOk result (λ found. IfSome found (λ step.
            (long ≡ false) × (line.now ≡ step_text step) × IsStep step)) }
        ensures none { IfOk result (λ found. found ≡ None
            → ((step : TraceStep) → long ≡ false → line.now ≡ step_text step → IsStep step → ⊥)
            ⊎ (MOST_STEPS ≤ length self.now.steps)) }
    {
        if long || self.steps.len() >= MOST_STEPS {
            return Ok(None);
        }
        read_step(self.alloc, line)
    }

    /// The steps that were read.
    pub fn steps(&self) -> &[TraceStep]
        ensures { result.now ≡ self.now.steps }
    {
        self.steps.as_slice()
    }

    /// Whether the first line is that of a trace of so many steps. Takes memory.
    pub fn is_headed(&self, steps: usize) -> Result<bool, NoMemory>
        ensures { IfOk result (λ told. (lines : List Line) → IsRead self.now lines
            → told ≡ is_headed steps lines) }
    {
        let Some(first) = &self.first else {
            return Ok(false);
        };
        let mut text = Text::new(self.alloc);
        push_header(&mut text, steps)?;
        Ok(text.into_list().as_slice() == first.as_slice())
    }

    /// The first line, from 1, that isn't the run's, is missing or is one too many, where the first line
    /// is the run's, by the first of the steps that isn't; none where all lines are the run's. Takes no
    /// memory.
    pub fn place(&self, wrong: Option<u32>) -> Option<u32>
        ensures { (lines : List Line) → IsRead self.now lines
            → (run : List TraceStep) → AreSteps run → length run < MOST_STEPS
            → is_headed (length run) lines ≡ true → AgreeBefore run self.now.steps wrong
            → result ≡ judged run lines }
    {
        match wrong {
            Some(place) => Some(place.saturating_add(1)),
            None if self.goes_on => Some(self.steps.len().min(MOST_STEPS) as u32 + 2),
            None => None,
        }
    }
}

fn is_long(line: &[u8], long: bool) -> bool
    ensures { result ≡ spec.is_long (record { bytes = line.now; long = long }) }
{
    long || line.len() > LINE_LIMIT
}

fn kept(alloc: Global, line: &[u8], long: bool) -> Result<List<u8>, NoMemory>
    ensures { IfOk result (λ text. text ≡ (if long then [] else line.now)) }
{
    let mut text = Text::new(alloc);
    if !long {
        text.push(line)?;
    }
    Ok(text.into_list())
}
