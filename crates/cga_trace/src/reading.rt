//! The step that a line is the text of.
ghost use Rattle.std.specs.Prelude.{◌≡◌, ℕ, IfOk, IfSome, List, Some, drop, flat_map};
ghost use Rattle.cga_shape.specs.declared.trace_step.Outcome.{Outcome};
ghost use Rattle.cga_shape.specs.declared.trace_step.TraceStep.{TraceStep};
ghost use Rattle.cga_obj.specs.Faults.{index_text, path_text};
ghost use Rattle.cga_trace.specs.Text.{AreFew, AreWords, IsFew, IsStep, step_text};
ghost use Rattle.cga_trace.specs.Words.{begins_digit, outcome_word};

use crate::cuts::{behind, cut};
use crate::step_words::StepWords;
use crate::text::push_step;
use crate::words::{read_answer, read_fault, read_number};
use cga_fraction::{NoMemory, Text};
use cga_order::Path;
use cga_shape::{Answers, Outcome, TraceStep};
use cga_word::Name;
use std::alloc::Global;

// A code begins with a letter.
fn begins_digit(word: &[u8]) -> bool
    ensures { result ≡ begins_digit word.now }
{
    match word {
        [] => false,
        [first, ..] => first.is_ascii_digit(),
    }
}

fn read_outcome(word: &[u8]) -> Option<Outcome>
    ensures again { (o : Outcome) → IsFew o → word.now ≡ outcome_word o → result ≡ Some o }
    ensures few { IfSome result IsFew }
{
    if begins_digit(word) {
        match read_number(word) {
            Some(number) => Some(Outcome::Grew(number)),
            None => None,
        }
    } else {
        match read_fault(word) {
            Some(fault) => Some(Outcome::Faulted(fault)),
            None => None,
        }
    }
}

// The numbers behind strokes, of which the first is left out.
fn read_indices(alloc: Global, text: &[u8]) -> Result<Option<Path>, NoMemory>
    ensures again { IfOk result (λ path. (is : List ℕ) → AreFew is
        → text.now ≡ drop 1 (flat_map index_text is) → path ≡ Some is) }
    ensures few { IfOk result (λ path. IfSome path AreFew) }
{
    let mut path = Vec::new(alloc);
    let mut rest = text;
    while !rest.is_empty() {
        let (word, more) = cut(rest, b'/');
        let Some(index) = read_number(word) else {
            return Ok(None);
        };
        path.push(index)?;
        rest = more;
    }
    Ok(Some(Path::from_slice(alloc, path.as_slice())?))
}

fn read_path(alloc: Global, text: &[u8]) -> Result<Option<Path>, NoMemory>
    ensures again { IfOk result (λ path. (is : List ℕ) → AreFew is
        → text.now ≡ path_text is → path ≡ Some is) }
    ensures few { IfOk result (λ path. IfSome path AreFew) }
{
    read_indices(alloc, behind(text, 1))
}

// The step of these words and this path.
fn step_of(words: &StepWords, path: Path) -> Option<TraceStep>
    requires { AreFew path }
    ensures again { (s : TraceStep) → IsStep s → path ≡ s.path
        → AreWords s words.now.lot.now words.now.path.now words.now.symbol.now
        words.now.noparent.now words.now.active.now words.now.outcome.now
        → result ≡ Some s }
    ensures step { IfSome result IsStep }
{
    Some(TraceStep {
        lot: Name::read(words.lot)?,
        path,
        symbol: Name::read(words.symbol)?,
        answers: Answers {
            noparent: read_answer(words.noparent)?,
            active: read_answer(words.active)?,
        },
        outcome: read_outcome(words.outcome)?,
    })
}

// The step that the line is the text of, if it is of any. A line that isn't may be read as one too.
fn read_words(alloc: Global, line: &[u8]) -> Result<Option<TraceStep>, NoMemory>
    ensures again { IfOk result (λ read. (s : TraceStep) → IsStep s → line.now ≡ step_text s → read ≡ Some s) }
    ensures step { IfOk result (λ read. IfSome read IsStep) }
{
    let words = StepWords::of(line);
    match read_path(alloc, words.path)? {
        Some(path) => Ok(step_of(&words, path)),
        None => Ok(None),
    }
}

/// The step that the line is the text of, without an end of line; none where it is the text of none.
/// Takes memory.
pub fn read_step(alloc: Global, line: &[u8]) -> Result<Option<TraceStep>, NoMemory>
    ensures text { IfOk result (λ read. IfSome read (λ step. line.now ≡ step_text step)) }
    ensures step { IfOk result (λ read. IfSome read IsStep) }
    ensures again { IfOk result (λ read. (s : TraceStep) → IsStep s → line.now ≡ step_text s → read ≡ Some s) }
{
    let Some(step) = read_words(alloc, line)? else {
        return Ok(None);
    };
    let mut text = Text::new(alloc);
    push_step(&mut text, &step)?;
    if text.into_list().as_slice() == line {
        Ok(Some(step))
    } else {
        Ok(None)
    }
}
